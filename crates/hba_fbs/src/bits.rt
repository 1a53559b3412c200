//! The numbers of the bits of a register, and dwords as sets of bits.

ghost use Rattle.std.specs.Prelude.{◌≡◌, ◌<◌, if◌then◌else◌};
ghost use Rattle.port_errors.specs.Interrupts.{interrupt_bits};
ghost use Rattle.slots.specs.Slots.{has_bit as has_bit_of};
ghost use Rattle.hba_fbs.specs.Bits.{bit as bit_of, interrupts, without};

use bitflags::Flags;
use port_errors::Interrupts;

/// PxCMD.ST, Start.
pub(crate) const ST: u32 = 0;
/// PxCMD.FRE, FIS Receive Enable.
pub(crate) const FRE: u32 = 4;
/// PxCMD.FR, FIS Receive Running.
pub(crate) const FR: u32 = 14;
/// PxCMD.CR, Command List Running.
pub(crate) const CR: u32 = 15;
/// PxCMD.PMA, Port Multiplier Attached.
pub(crate) const PMA: u32 = 17;
/// PxCMD.FBSCP, FIS-based Switching Capable Port.
pub(crate) const FBSCP: u32 = 22;

/// PxSERR.DIAG.F, Unknown FIS Type.
pub(crate) const UNKNOWN: u32 = 25;

/// PxFBS.EN, Enable.
pub(crate) const EN: u32 = 0;
/// PxFBS.DEC, Device Error Clear.
pub(crate) const DEC: u32 = 1;
/// PxFBS.DEV, Device To Issue, is the four bits from here on.
pub(crate) const DEV: u32 = 8;
/// PxFBS.ADO, Active Device Optimization: any number of devices, up to 15, may be active.
pub(crate) const ADO: u32 = 0xF000;

/// Whether bit `k` of a dword is set.
pub(crate) fn has_bit(value: u32, k: u32) -> bool
    requires { k < 32 }
    ensures { result ≡ has_bit_of value k }
{
    value >> k & 1 == 1
}

/// The dword with bit `k` alone set, or 0.
pub(crate) fn bit(set: bool, k: u32) -> u32
    requires { k < 32 }
    ensures { result ≡ bit_of k set }
{
    if set { 1 << k } else { 0 }
}

/// The bit of this interrupt in PxIS if it is set, or 0.
pub(crate) fn raised(set: bool, flag: Interrupts) -> u32
    ensures { result ≡ (if set then interrupt_bits flag else 0) }
{
    if set { flag.bits() } else { 0 }
}

/// The bits of PxIS that ones clear: all except UFS, which follows PxSERR.
pub(crate) fn clearable() -> u32
    ensures { result ≡ interrupts }
{
    Interrupts::all().difference(Interrupts::UFS).bits()
}

/// The bits that are not in `dropped`.
pub(crate) fn cleared(bits: u32, dropped: u32) -> u32
    ensures { result ≡ without bits dropped }
{
    bits & !dropped
}
