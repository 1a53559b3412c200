//! What hardware may go wrong by, and this controller does not.

use crate::register_text::name_of;
use ahci_controller::Width;
use ahci_machine::Machine;
use ahci_registers::Register;
use std::fmt;
use trace_text::bit_of;

/// A rule of AHCI 1.3.1 for software that was broken.
#[derive(Clone, Copy, PartialEq, Eq)]
pub enum Warning {
    /// ST is set before FRE.
    StartsDeaf,
    /// The command list is moved while ST is 1, by a write to this register.
    MovesList(Register),
    /// The received FISes are moved while FRE is 1, by a write to this register.
    MovesArea(Register),
    /// PxFBS.EN changes while ST is 1.
    SwitchesRunning,
    /// PxSCTL.DET changes while ST is 1.
    ResetsRunning,
    /// These slots are written to PxCI while they are set there.
    IssuedTwice(u32),
    /// These slots are written to PxCI while the device is busy, and not by a command of a slot.
    IssuedBusy(u32),
    /// The command of this slot is queued, and PxSACT did not have the slot as it was written to PxCI.
    NotArmed(u8),
    /// The command of this slot is not queued, and PxSACT had the slot as it was written to PxCI.
    ArmedUnqueued(u8),
    /// The command of this slot is queued, and its tag is another number.
    OtherTag { slot: u8, tag: u8 },
    /// The header of this slot names this port, and PxCMD.PMA is 0.
    NoMultiplier { slot: u8, port: u8 },
    /// The header of this slot names this port, and PxFBS.DEV was another as the slot was written to PxCI.
    OtherDevice { slot: u8, port: u8, named: u8 },
}

impl Warning {
    /// The section of AHCI 1.3.1 that has the rule.
    pub fn section(self) -> &'static str {
        match self {
            Warning::StartsDeaf => "10.3.1",
            Warning::MovesArea(_) | Warning::IssuedBusy(_) | Warning::NoMultiplier { .. } =>
                "3.3.7",
            Warning::MovesList(_) => "10.1.2",
            Warning::SwitchesRunning | Warning::OtherDevice { .. } => "3.3.16",
            Warning::ResetsRunning => "3.3.11",
            Warning::IssuedTwice(_) => "5.5.1",
            Warning::NotArmed(_) | Warning::ArmedUnqueued(_) | Warning::OtherTag { .. } => "3.3.13",
        }
    }

    /// The slots that it is about, as a mask.
    pub fn slots(self) -> u32 {
        match self {
            Warning::IssuedTwice(slots) | Warning::IssuedBusy(slots) => slots,
            Warning::NotArmed(slot)
            | Warning::ArmedUnqueued(slot)
            | Warning::OtherTag { slot, .. }
            | Warning::NoMultiplier { slot, .. }
            | Warning::OtherDevice { slot, .. } => bit_of(slot),
            _ => 0,
        }
    }

    /// Writes which rule was broken, and how.
    fn write_rule<W: fmt::Write>(self, f: &mut fmt::Formatter<W>) -> fmt::Result {
        match self {
            Warning::StartsDeaf => f.write_str("ST is set while FRE is 0"),
            Warning::MovesList(register) => {
                write!(f, "{} is changed while ST is 1", name_of(register))
            }
            Warning::MovesArea(register) => {
                write!(f, "{} is changed while FRE is 1", name_of(register))
            }
            Warning::SwitchesRunning => f.write_str("PxFBS.EN is changed while ST is 1"),
            Warning::ResetsRunning => f.write_str("PxSCTL.DET is changed while ST is 1"),
            Warning::IssuedTwice(_) => f.write_str("PxCI is written for a slot that is still set"),
            Warning::IssuedBusy(_) => f.write_str(
                "a command is issued while PxTFD shows BSY or DRQ, and PxCMD.CLO was not written",
            ),
            Warning::NotArmed(slot) => write!(
                f,
                "slot {slot} has a queued command, and PxSACT did not have it before PxCI"
            ),
            Warning::ArmedUnqueued(slot) => write!(
                f,
                "slot {slot} has a command that is not queued, and PxSACT had it before PxCI"
            ),
            Warning::OtherTag { slot, tag } => write!(
                f,
                "the queued command of slot {slot} has tag {tag}"
            ),
            Warning::NoMultiplier { slot, port } => {
                write!(f, "slot {slot} is for port {port}, and PxCMD.PMA is 0")
            }
            Warning::OtherDevice { slot, port, named } => write!(
                f,
                "PMP of slot {slot} is {port}, and PxFBS.DEV was {named} at the write of PxCI"
            ),
        }
    }
}

impl fmt::Display for Warning {
    fn fmt<W: fmt::Write>(&self, f: &mut fmt::Formatter<W>) -> fmt::Result {
        f.write_str("warning: ")?;
        self.write_rule(f)?;
        write!(f, " (AHCI 1.3.1, {})", self.section())
    }
}

/// PxCMD.ST.
const ST: u32 = 0x1;

/// PxCMD.FRE.
const FRE: u32 = 0x10;

/// BSY and DRQ of PxTFD.
const BUSY: u32 = 0x88;

/// What a register of a machine reads.
pub fn value_of(machine: &Machine, register: Register) -> u32 {
    machine.read(register.offset(), Width::Dword) as u32
}

/// The device that a value of PxFBS names; None while its EN is 0.
pub fn named_by(switching: u32) -> Option<u8> {
    if switching & 1 == 0 {
        return None;
    }
    Some((switching >> 8 & 0xF) as u8)
}

/// Whether all these bits of PxCMD are 1.
fn has(machine: &Machine, bits: u32) -> bool {
    value_of(machine, Register::PxCmd) & bits == bits
}

/// Whether a write of this value changes these bits of a register.
fn changes(machine: &Machine, register: Register, value: u32, bits: u32) -> bool {
    (value_of(machine, register) ^ value) & bits != 0
}

/// The rule that a write of this value to a register breaks. The device that PxFBS names may be busy by a command of its own.
pub fn broken_by(
    machine: &Machine,
    register: Register,
    value: u32,
    may_be_busy: bool,
) -> Option<Warning> {
    match register {
        Register::PxCmd => (value & ST != 0 && !has(machine, ST) && !has(machine, FRE)).then_some(
            Warning::StartsDeaf,
        ),
        Register::PxClb => moves_list(machine, register, value, 0xFFFF_FC00),
        Register::PxClbu => moves_list(machine, register, value, u32::MAX),
        Register::PxFb => moves_area(machine, register, value, 0xFFFF_FF00),
        Register::PxFbu => moves_area(machine, register, value, u32::MAX),
        Register::PxFbs => (has(machine, ST) && changes(machine, register, value, 1)).then_some(
            Warning::SwitchesRunning,
        ),
        Register::PxSctl => (has(machine, ST) && changes(machine, register, value, 0xF)).then_some(
            Warning::ResetsRunning,
        ),
        Register::PxCi => issues_wrongly(machine, value, may_be_busy),
        _ => None,
    }
}

/// The rule that the command FIS of a slot breaks. PxSACT may have had the slot as it was written to PxCI.
pub fn broken_in(slot: u8, fis: &[u8], is_armed: bool) -> Option<Warning> {
    let command = fis.get(2).copied().unwrap_or(0);
    let tag = fis.get(12).copied().unwrap_or(0) >> 3;
    match (is_queued(command), is_armed) {
        (true, false) => Some(Warning::NotArmed(slot)),
        (true, true) => (tag != slot).then_some(Warning::OtherTag { slot, tag }),
        (false, true) => Some(Warning::ArmedUnqueued(slot)),
        (false, false) => None,
    }
}

/// READ and WRITE FPDMA QUEUED, and the other commands that are queued (ACS-3, 7).
fn is_queued(command: u8) -> bool {
    matches!(command, 0x60 | 0x61 | 0x63 | 0x64 | 0x65)
}

fn moves_list(machine: &Machine, register: Register, value: u32, bits: u32) -> Option<Warning> {
    (has(machine, ST) && changes(machine, register, value, bits)).then_some(Warning::MovesList(
        register,
    ))
}

fn moves_area(machine: &Machine, register: Register, value: u32, bits: u32) -> Option<Warning> {
    (has(machine, FRE) && changes(machine, register, value, bits)).then_some(Warning::MovesArea(
        register,
    ))
}

/// The rule that a write of these slots to PxCI breaks.
fn issues_wrongly(machine: &Machine, slots: u32, may_be_busy: bool) -> Option<Warning> {
    let issued = value_of(machine, Register::PxCi);
    if slots & issued != 0 {
        return Some(Warning::IssuedTwice(slots & issued));
    }
    let is_busy = value_of(machine, Register::PxTfd) & BUSY != 0;
    (has(machine, ST) && slots != 0 && is_busy && !may_be_busy).then_some(Warning::IssuedBusy(
        slots,
    ))
}
