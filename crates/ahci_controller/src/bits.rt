//! Dwords as sets of bits, and the numbers of the bits of the registers.

ghost use Rattle.std.specs.Prelude.{◌≡◌, ◌<◌, ◌^◌, bit_or, if◌then◌else◌};
ghost use Rattle.slots.specs.Slots.{has_bit as has_bit_of};
ghost use Rattle.hba_fbs.specs.Bits.{without as without_of};

/// PxCMD.ST, Start.
pub(crate) const ST: u32 = 0;
/// PxCMD.CLO, Command List Override.
pub(crate) const CLO: u32 = 3;
/// PxCMD.FRE, FIS Receive Enable.
pub(crate) const FRE: u32 = 4;
/// PxCMD.PMA, Port Multiplier Attached.
pub(crate) const PMA: u32 = 17;
/// PxFBS.DEC, Device Error Clear.
pub(crate) const DEC: u32 = 1;
/// PxFBS.SDE, Single Device Error.
pub(crate) const SDE: u32 = 2;

/// Whether bit `k` of a dword is set.
pub(crate) fn has_bit(value: u32, k: u32) -> bool
    requires { k < 32 }
    ensures { result ≡ has_bit_of value k }
{
    value >> k & 1 == 1
}

/// These bits, or none.
pub(crate) fn bits_if(set: bool, bits: u32) -> u32
    ensures { result ≡ (if set then bits else 0) }
{
    if set { bits } else { 0 }
}

/// The bits that are not in `dropped`.
pub(crate) fn without(bits: u32, dropped: u32) -> u32
    ensures { result ≡ without_of bits dropped }
{
    bits & !dropped
}
