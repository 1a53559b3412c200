//! What a port keeps for a device apart from its slots and its fault.

ghost use Rattle.std.specs.Prelude.{◌≡◌, ◌<◌, ℕ};
ghost use Rattle.hba_fbs.specs.Views.{opening_state, state_at, stopped_state, task_file};

mod saved;

use crate::status::Block;

/// The Status of a ready device: DRDY, and bit 4, which older standards call seek complete.
const READY: u8 = 0x50;
/// All bits of Status except BSY and DRQ.
const IDLE: u8 = 0x77;

/// The task file of a device, whether it is in software reset, the block that its last setup began, and the
/// mark of its signature.
#[derive(Clone, Copy)]
pub struct DeviceState {
    /// Its Status.
    pub status: u8,
    /// Its Error.
    pub error: u8,
    /// A control frame with SRST set went out to it, and no signature has come since.
    pub resetting: bool,
    /// The block of its last setup, if that was a PIO Setup.
    pub block: Option<Block>,
    /// The signature of an ATA device came from it, since the port was opened or the device was flushed.
    pub signed: bool,
}

impl Default for DeviceState {
    ghost is_default = { λ state. state ≡ opening_state };

    fn default() -> Self {
        DeviceState::new()
    }
}

impl DeviceState {
    /// The state of a device that has sent nothing.
    pub(crate) fn new() -> DeviceState
        ensures { result ≡ opening_state }
    {
        DeviceState {
            status: READY,
            error: 0,
            resetting: false,
            block: None,
            signed: false,
        }
    }

    /// The device's PxTFD.
    pub(crate) fn task_file(self) -> u32
        ensures { result ≡ task_file self }
    {
        256 * u32::from(self.error) + u32::from(self.status)
    }

    /// The state after ST falls.
    pub(crate) fn stopped(self) -> DeviceState
        ensures { result ≡ stopped_state self }
    {
        DeviceState {
            status: self.status & IDLE,
            resetting: false,
            block: None,
            ..self
        }
    }
}

/// The state of a device.
pub(crate) fn state_of(states: &[DeviceState; 16], dev: u8) -> DeviceState
    requires { dev < 16 }
    ensures { result ≡ state_at states.now dev }
{
    states[dev as usize]
}

/// ST falls, for all devices.
pub(crate) fn stop_all(states: &mut [DeviceState; 16])
    ensures { (n : ℕ) → n < 16 → state_at states.new n ≡ stopped_state (state_at states.old n) }
{
    for state in states.iter_mut() {
        *state = state.stopped();
    }
}
