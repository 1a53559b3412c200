//! A write of PxCMD by which BSY and DRQ stay in the task files, and CLO, which clears them.

ghost use Rattle.std.specs.Prelude.{ℕ, ◌≡◌, ◌<◌, OnErr, OnOk};
ghost use Rattle.std.specs.Result.{result_err};
ghost use Rattle.port_errors.specs.Errors.{no_errors};
ghost use Rattle.hba_fbs.specs.Reading.{shown_device};
ghost use Rattle.hba_fbs.specs.Registers.{own_refusal_by};
ghost use Rattle.hba_fbs.specs.Stopping.{Overrides, SetsCmd, busy_file as busy_file_of, fallen_state, fallen_view, overridden_state, view_commanded};
ghost use Rattle.hba_fbs.specs.Views.{state_at, view_of};
ghost use Rattle.hba_fbs.specs.Writing.{errors_after};

use crate::error::WriteError;
use crate::port::PortCore;
use crate::register::Register;
use crate::state::{DeviceState, state_of};

/// Status.BSY.
const BSY: u32 = 0x80;
/// All bits of Status except BSY and DRQ.
const IDLE: u8 = 0x77;

impl DeviceState {
    // The state after ST falls.
    fn fallen(self) -> DeviceState
        ensures { result ≡ fallen_state self }
    {
        DeviceState {
            block: None,
            ..self
        }
    }

    // The state after CLO.
    fn overridden(self) -> DeviceState
        ensures { result ≡ overridden_state self }
    {
        DeviceState {
            status: self.status & IDLE,
            resetting: false,
            ..self
        }
    }

    // The device's PxTFD, with BSY while it is in software reset.
    fn busy_file(self) -> u32
        ensures { result ≡ busy_file_of self }
    {
        if self.resetting {
            256 * u32::from(self.error) + (u32::from(self.status) | BSY)
        } else {
            self.task_file()
        }
    }
}

// ST falls, for all devices.
fn fall_all(states: &mut [DeviceState; 16])
    ensures { (n : ℕ) → n < 16 → state_at states.new n ≡ fallen_state (state_at states.old n) }
{
    for state in states.iter_mut() {
        *state = state.fallen();
    }
}

impl PortCore {
    // ST falls: all slots are freed, and all faults end.
    fn fall(&mut self)
        ensures views { (n : ℕ) → n < 16 → view_of n self.new ≡ fallen_view (view_of n self.old) }
        ensures registers { self.new.registers ≡ self.old.registers }
        ensures errors { self.new.errors ≡ no_errors }
        ensures commands { self.new.commands ≡ self.old.commands }
        ensures number { self.new.number ≡ self.old.number }
        ensures active { self.new.active ≡ self.old.active }
    {
        let _ = self.slots.flush_all();
        self.errors.stop();
        fall_all(&mut self.states);
    }

    // What an accepted write of PxCMD changes apart from the port's own registers.
    #[tactic(auto, unfolding(crate::specs::Writing::errors_after))]
    fn obey(&mut self, value: u32)
        ensures views { (n : ℕ) → n < 16 → view_of n self.new ≡ view_commanded self.old value n }
        ensures registers { self.new.registers ≡ self.old.registers }
        ensures errors { self.new.errors ≡ errors_after Register.Cmd self.old value }
        ensures commands { self.new.commands ≡ self.old.commands }
        ensures number { self.new.number ≡ self.old.number }
        ensures active { self.new.active ≡ self.old.active }
    {
        if self.registers.falls(value) {
            self.fall();
        }
    }

    /// Writes PxCMD as [`write`](PortCore::write) does, but that BSY and DRQ of every device, and its software reset, stay as
    /// ST falls. Refused are `Running`, FRE cleared while ST is 1, and `BadTable`, ST set without FRE.
    pub fn write_cmd(&mut self, value: u32) -> Result<(), WriteError>
        ensures refusal { result_err result ≡ own_refusal_by Register.Cmd self.old.registers value }
        ensures refused { OnErr result (self.new ≡ self.old) }
        ensures accepted { OnOk result (SetsCmd self.old value self.new) }
    {
        if let Some(refusal) = self.registers.refusal(Register::Cmd, value) {
            return Err(refusal);
        }
        self.obey(value);
        self.registers = self.registers.written(Register::Cmd, value);
        Ok(())
    }

    /// Command List Override, for a device: its BSY and DRQ are cleared, and no software reset keeps a command back.
    pub fn override_busy(&mut self, dev: u8)
        requires { dev < 16 }
        ensures { Overrides self.old dev self.new }
    {
        let state = state_of(&self.states, dev);
        self.states[dev as usize] = state.overridden();
    }

    /// PxTFD, with BSY while the device that it shows is in software reset.
    pub fn task_file(&self) -> u32
        ensures { result ≡ busy_file_of (view_of (shown_device self.now) self.now).state }
    {
        state_of(&self.states, self.shown_device()).busy_file()
    }
}
