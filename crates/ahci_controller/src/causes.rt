//! What becomes a cause of an interrupt.

ghost use Rattle.std.specs.Prelude.{◌≡◌, ◌<◌, IfSome};
ghost use Rattle.ahci_registers.specs.Bits.{interrupt_bits};
ghost use Rattle.hba_fbs.specs.Reading.{value_of};
ghost use Rattle.ahci_controller.specs.Causes.{cause_bits, causes_since, next_causes as next_causes_of, shown_device as shown_device_of, with_fatal as with_fatal_of};

use crate::bits::{DEC, SDE, has_bit, without};
use crate::reading::port_value;
use ahci_registers::PortInterrupts;
use bitflags::Flags;
use hba_fbs::{PortCore, Register};

/// The number of OFS in PxIS.
const OFS: u32 = 24;

/// These bits of PxIS.
pub(crate) fn interrupts(bits: u32) -> PortInterrupts
    ensures { interrupt_bits result ≡ bits }
{
    PortInterrupts::from_bits_retain(bits)
}

fn with_fatal(bits: u32) -> u32
    ensures { result ≡ with_fatal_of bits }
{
    if has_bit(bits, OFS) {
        bits | 0x800_0000
    } else {
        bits
    }
}

/// PxIS of the core.
pub(crate) fn status(core: &PortCore) -> u32
    ensures { result ≡ value_of Register.Is core.now }
{
    port_value(core, Register::Is)
}

/// The bits that the core set in its PxIS since that read `old`. An overflow comes with IFS.
pub(crate) fn new_bits(old: u32, core: &PortCore) -> u32
    ensures { result ≡ causes_since old core.now }
{
    with_fatal(without(status(core), old))
}

// The device that PxFBS shows to be faulty.
fn shown_device(core: &PortCore) -> Option<u8>
    ensures value { result ≡ shown_device_of core.now }
    ensures below { IfSome result (λ dev. dev < 16) }
{
    let value = port_value(core, Register::Fbs);
    if has_bit(value, SDE) {
        Some((value / 0x1_0000 % 16) as u8)
    } else {
        None
    }
}

fn first_cause(core: &PortCore) -> u32
    ensures { result ≡ cause_bits core.now }
{
    let Some(dev) = shown_device(core) else {
        return 0;
    };
    match core.cause(dev) {
        Some(cause) => with_fatal(cause.interrupts().bits()),
        None => 0,
    }
}

/// What a write of PxFBS tells: with DEC the bits of the first cause of the device that is shown since.
pub(crate) fn next_bits(value: u32, core: &PortCore) -> PortInterrupts
    ensures { interrupt_bits result ≡ next_causes_of value core.now }
{
    if has_bit(value, DEC) {
        interrupts(first_cause(core))
    } else {
        interrupts(0)
    }
}
