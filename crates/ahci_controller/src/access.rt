//! Accesses of 8, 16, 32 and 64 bits.

ghost use Rattle.std.specs.Prelude.{◌≡◌, ◌<◌, ◌≤◌, ◌^◌, ◌*◌};
ghost use Rattle.ahci_controller.specs.Access.{bytes_of, fits as fits_of, high_of, low_of, merged as merged_of, ones_of, pair_of, part_of, spread_of, takes_ones as takes_ones_of};

use crate::bits::without;
use ahci_registers::Register;

/// How wide an access is.
#[derive(Clone, Copy, Debug, PartialEq, Eq)]
pub enum Width {
    /// 8 bits.
    Byte,
    /// 16 bits.
    Word,
    /// 32 bits.
    Dword,
    /// 64 bits.
    Qword,
}

// 2 to the power of 8 times a number of bytes.
fn unit(first: u32) -> u64
    requires { first < 8 }
    ensures is { result ≡ 2 ^ (8 * first) }
    ensures some { 0 < result }
{
    1 << (8 * first)
}

impl Width {
    /// The number of its bytes.
    pub fn bytes(self) -> u32
        ensures { result ≡ bytes_of self }
    {
        match self {
            Width::Byte => 1,
            Width::Word => 2,
            Width::Dword => 4,
            Width::Qword => 8,
        }
    }

    // All its bits.
    pub(crate) fn ones(self) -> u64
        ensures { result ≡ ones_of self }
    {
        match self {
            Width::Byte => 0xFF,
            Width::Word => 0xFFFF,
            Width::Dword => 0xFFFF_FFFF,
            Width::Qword => 0xFFFF_FFFF_FFFF_FFFF,
        }
    }

    /// Whether an access at this offset does not cross a boundary of eight bytes.
    pub(crate) fn fits(self, offset: u32) -> bool
        ensures { result ≡ fits_of self offset }
    {
        offset % 8 + self.bytes() <= 8
    }

    /// Of eight bytes, those that an access from byte `first` on has.
    pub(crate) fn part(self, block: u64, first: u32) -> u64
        requires { first < 8 }
        ensures { result ≡ part_of self block first }
    {
        block / unit(first) & self.ones()
    }
}

/// A value at its place among eight bytes, from byte `first` on.
pub(crate) fn spread(first: u32, value: u64) -> u64
    requires { first < 8 }
    ensures { result ≡ spread_of first value }
{
    value.wrapping_mul(unit(first))
}

/// The first four of eight bytes.
pub(crate) fn low(block: u64) -> u32
    ensures { result ≡ low_of block }
{
    (block % 0x1_0000_0000) as u32
}

/// The other four.
pub(crate) fn high(block: u64) -> u32
    ensures { result ≡ high_of block }
{
    (block / 0x1_0000_0000) as u32
}

/// Two dwords as eight bytes.
pub(crate) fn pair(low: u32, high: u32) -> u64
    ensures { result ≡ pair_of low high }
{
    u64::from(low) + u64::from(high) * 0x1_0000_0000
}

// Whether ones that are written act, and zeros do nothing.
fn takes_ones(register: Register) -> bool
    ensures { result ≡ takes_ones_of register }
{
    match register {
        Register::Is
        | Register::PxIs
        | Register::PxSerr
        | Register::PxSact
        | Register::PxCi
        | Register::PxSntf => true,
        _ => false,
    }
}

/// What is written to a register of which a write has these bits of a value alone.
pub(crate) fn merged(register: Register, shown: u32, value: u32, mask: u32) -> u32
    ensures { result ≡ merged_of register shown value mask }
{
    if takes_ones(register) {
        value & mask
    } else {
        without(shown, mask) | value & mask
    }
}
