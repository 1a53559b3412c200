//! The numbers of the registers, the names of their bits, and why a register command is refused.

use thiserror::Error;

/// The PM Port of the multiplier itself, whose registers are the GSCRs (Serial ATA 3.x, 16.2: control port).
pub const CONTROL_PORT: u8 = 15;

/// GSCR\[0\], Product Identifier: the device in bits 31:16, the vendor in bits 15:0.
pub const GSCR_PRODUCT: u16 = 0;
/// GSCR\[1\], Revision Information.
pub const GSCR_REVISION: u16 = 1;
/// GSCR\[2\], Port Information: the number of device ports in bits 3:0.
pub const GSCR_PORTS: u16 = 2;
/// GSCR\[32\], Error Information: a bit for each device port that needs attention.
pub const GSCR_SUMMARY: u16 = 32;
/// GSCR\[33\], Error Information Bit Enable: the bits of PSCR\[1\] that make a port need attention.
pub const GSCR_MASK: u16 = 33;
/// GSCR\[64\], Port Multiplier Revision 1.X Features Support.
pub const GSCR_FEATURES: u16 = 64;
/// GSCR\[96\], Port Multiplier Revision 1.X Features Enable.
pub const GSCR_ENABLED: u16 = 96;

/// PSCR\[0\], SStatus.
pub const PSCR_STATUS: u16 = 0;
/// PSCR\[1\], SError.
pub const PSCR_ERROR: u16 = 1;
/// PSCR\[2\], SControl.
pub const PSCR_CONTROL: u16 = 2;

/// Bit N of SError: PhyRdy changed.
pub const SERROR_N: u32 = 1 << 16;
/// Bit F of SError: a FIS of an unknown type.
pub const SERROR_F: u32 = 1 << 25;
/// Bit X of SError: a device was exchanged.
pub const SERROR_X: u32 = 1 << 26;

/// Bit 3 of GSCR\[64\] and GSCR\[96\]: asynchronous notification.
pub const FEATURE_NOTIFICATION: u32 = 1 << 3;

/// The field DET, bits 3:0 of SStatus and of SControl.
pub const DET_MASK: u32 = 0xF;
/// DET of SControl to take the interface offline, and DET of SStatus while it is offline.
pub const DET_OFFLINE: u32 = 4;
/// SStatus with a device: DET 3 (communication established), SPD 3 (Gen 3), IPM 1 (active).
pub const STATUS_ESTABLISHED: u32 = 0x133;

/// Why a register command is refused.
#[derive(Clone, Copy, Debug, PartialEq, Eq, Error)]
pub enum RegisterError {
    /// The port is neither the control port nor a device port of this multiplier. This is checked first.
    #[error("no such port")]
    NoPort = 1,
    /// The port has no register with that number.
    #[error("no such register")]
    NoRegister = 2,
}
