//! What a FIS to the control port requests.

ghost use Rattle.std.specs.Prelude.{◌≡◌};
ghost use Rattle.pm_control.specs.Requests.{request_in, requested, value_in};

use fis_view::{Fis, Frame, RegH2D};

/// READ PORT MULTIPLIER.
const READ_PORT_MULTIPLIER: u8 = 0xE4;
/// WRITE PORT MULTIPLIER.
const WRITE_PORT_MULTIPLIER: u8 = 0xE8;
/// Bit SRST of the Device Control register: software reset.
const SRST_MASK: u8 = 1 << 2;

/// The register that a command names.
#[derive(Clone, Copy, Debug, PartialEq, Eq)]
pub struct Address {
    /// The port, 0 to 15.
    pub port: u8,
    /// The number of the register.
    pub register: u16,
}

/// What a Register Host to Device FIS requests of the control port.
#[derive(Clone, Copy, Debug, PartialEq, Eq)]
pub enum Request {
    /// READ PORT MULTIPLIER.
    Read(Address),
    /// WRITE PORT MULTIPLIER, and the value.
    Write(Address, u32),
    /// Any other command.
    Unknown,
    /// Device Control with SRST set: begins a software reset.
    Reset,
    /// Device Control with SRST clear: ends it.
    EndReset,
}

/// The value of a write: its bytes, the low byte first, in Count 7:0 and LBA 23:0.
fn value(fis: &RegH2D<'_>) -> u32
    ensures { result ≡ value_in fis.now }
{
    (fis.lba() % 0x100_0000) as u32 * 256 + u32::from(fis.count() % 256)
}

fn request_of_fis(fis: &RegH2D<'_>) -> Request
    ensures { result ≡ requested fis.now }
{
    if !fis.c() {
        return if fis.control() & SRST_MASK == 0 {
            Request::EndReset
        } else {
            Request::Reset
        };
    }
    let address = Address {
        port: fis.device() % 16,
        register: fis.features(),
    };
    match fis.command() {
        READ_PORT_MULTIPLIER => Request::Read(address),
        WRITE_PORT_MULTIPLIER => Request::Write(address, value(fis)),
        _ => Request::Unknown,
    }
}

/// What a frame requests; nothing, if it is not a Register Host to Device FIS of the right length.
pub(crate) fn request_of(frame: &Frame) -> Option<Request>
    ensures { result ≡ request_in frame.now.bytes }
{
    match frame.fis() {
        Ok(Fis::RegH2D(fis)) => Some(request_of_fis(&fis)),
        _ => None,
    }
}
