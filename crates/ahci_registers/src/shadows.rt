//! Numbers as sets of bits, and the bits of PxIS that show bits of PxSERR.

ghost use Rattle.std.specs.Prelude.{◌≡◌, ◌<◌};
ghost use Rattle.ahci_registers.specs.Bits.{clearable as clearable_of, has_bit as has_bit_of, known as known_of, shadowed as shadowed_of, shadows as shadows_of, without as without_of};

use crate::port::PortInterrupts;
use bitflags::Flags;

/// Whether bit `k` of a dword is set.
pub(crate) fn has_bit(value: u32, k: u32) -> bool
    requires { k < 32 }
    ensures { result ≡ has_bit_of value k }
{
    value >> k & 1 == 1
}

/// The bits that are not in `dropped`.
pub(crate) fn without(bits: u32, dropped: u32) -> u32
    ensures { result ≡ without_of bits dropped }
{
    bits & !dropped
}

/// All bits of PxIS.
pub(crate) fn known() -> u32
    ensures { result ≡ known_of }
{
    PortInterrupts::all().bits()
}

/// The bits of PxIS that ones clear: all except those that show bits of PxSERR.
pub(crate) fn clearable() -> u32
    ensures { result ≡ clearable_of }
{
    PortInterrupts::all()
        .difference(PortInterrupts::UFS)
        .difference(PortInterrupts::PCS)
        .difference(PortInterrupts::PRCS)
        .bits()
}

/// The bits of PxIS that show these bits of PxSERR.
pub(crate) fn shadows(errors: u32) -> u32
    ensures { result ≡ shadows_of errors }
{
    (errors >> 25 & 1) * 0x10 + (errors >> 26 & 1) * 0x40 + (errors >> 16 & 1) * 0x40_0000
}

/// The bits of PxSERR that these bits of PxIS show.
pub(crate) fn shadowed(status: u32) -> u32
    ensures { result ≡ shadowed_of status }
{
    (status >> 4 & 1) * 0x200_0000 + (status >> 6 & 1) * 0x400_0000 + (status >> 22 & 1) * 0x1_0000
}
