//! Status, and what FISes say about a device's task file.

ghost use Rattle.std.specs.Prelude.{◌≡◌};
ghost use Rattle.hba_fbs.specs.Status.{after_reset as after_reset_of, is_busy as is_busy_status, is_error as is_error_status, is_quiet as is_quiet_status, signed_by as signed_by_of, wants_data as wants_data_status, with_bits as with_bits_of, with_block as with_block_of, with_file as with_file_of, with_status as with_status_of};

mod saved;

use crate::bits::has_bit;
use crate::state::DeviceState;

/// Status.ERR.
const ERR_BIT: u32 = 0;
/// Status.DRQ.
const DRQ_BIT: u32 = 3;
/// Status.BSY.
const BSY_BIT: u32 = 7;
/// BSY and DRQ, which a Set Device Bits FIS does not carry.
const UNTOLD: u8 = 0x88;

/// The block of data that a PIO Setup begins.
#[derive(Clone, Copy)]
pub struct Block {
    /// I: whether its end sets PxIS.PSS.
    pub interrupts: bool,
    /// E_Status: the Status at its end.
    pub ends: u8,
}

/// Whether ERR is set.
pub(crate) fn is_error(status: u8) -> bool
    ensures { result ≡ is_error_status status }
{
    has_bit(u32::from(status), ERR_BIT)
}

/// Whether BSY is set.
pub(crate) fn is_busy(status: u8) -> bool
    ensures { result ≡ is_busy_status status }
{
    has_bit(u32::from(status), BSY_BIT)
}

/// Whether DRQ is set.
pub(crate) fn wants_data(status: u8) -> bool
    ensures { result ≡ wants_data_status status }
{
    has_bit(u32::from(status), DRQ_BIT)
}

/// Whether BSY, DRQ and ERR are all 0.
pub(crate) fn is_quiet(status: u8) -> bool
    ensures { result ≡ is_quiet_status status }
{
    !is_busy(status) && !wants_data(status) && !is_error(status)
}

impl DeviceState {
    /// A FIS brings Status and Error.
    pub(crate) fn with_file(self, status: u8, error: u8) -> DeviceState
        ensures { result ≡ with_file_of self status error }
    {
        DeviceState {
            status,
            error,
            ..self
        }
    }

    /// A Set Device Bits FIS brings Error, and Status without BSY and DRQ.
    pub(crate) fn with_bits(self, status: u8, error: u8) -> DeviceState
        ensures { result ≡ with_bits_of self status error }
    {
        DeviceState {
            status: self.status & UNTOLD | status,
            error,
            ..self
        }
    }

    /// A signature brings Status and Error and ends the software reset.
    pub(crate) fn after_reset(self, status: u8, error: u8) -> DeviceState
        ensures { result ≡ after_reset_of self status error }
    {
        DeviceState {
            status,
            error,
            resetting: false,
            ..self
        }
    }

    /// A Register FIS came from the device, with the signature of an ATA device or without it.
    pub(crate) fn signed_by(self, signs: bool) -> DeviceState
        ensures { result ≡ signed_by_of self signs }
    {
        DeviceState {
            signed: self.signed || signs,
            ..self
        }
    }

    /// A setup begins this block, or none.
    pub(crate) fn with_block(self, block: Option<Block>) -> DeviceState
        ensures { result ≡ with_block_of self block }
    {
        DeviceState { block, ..self }
    }

    /// The end of a block brings Status.
    pub(crate) fn with_status(self, status: u8) -> DeviceState
        ensures { result ≡ with_status_of self status }
    {
        DeviceState { status, ..self }
    }
}
