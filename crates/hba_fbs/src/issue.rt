//! The slots of a write: what is wrong with them, and their issue.

ghost use Rattle.std.specs.Prelude.{◌≡◌, ◌<◌, ◌&&◌, None, false, true, is_some, IfSome};
ghost use Rattle.slots.specs.Slots.{LeavesOthers, has_bit as has_bit_of, slots_of};
ghost use Rattle.slots.specs.Work.{IsWork};
ghost use Rattle.hba_fbs.specs.Issuing.{any_beside as any_beside_of, any_slot, commands_with, is_beside as is_beside_of, is_busy as is_busy_slot, issued_slots, slots_after, with_command};
ghost use Rattle.hba_fbs.specs.Offering.{aimed_by, asked_by, is_bad_by, names_other_by};
ghost use Rattle.hba_fbs.specs.Views.{HaveCommands};

use crate::bits::has_bit;
use crate::offers::Offers;
use crate::registers::Registers;
use hba_commands::Command;
use slots::SlotTable;

fn is_busy(slots: &SlotTable, value: u32, slot: u8) -> bool
    requires { slot < 32 }
    ensures { result ≡ (has_bit_of value slot && is_busy_slot slots.now slot) }
{
    has_bit(value, u32::from(slot)) && slots.work(slot).is_some()
}

/// Whether a command is issued in one of these slots.
pub(crate) fn any_busy(slots: &SlotTable, value: u32) -> bool
    ensures { result ≡ any_slot value (is_busy_slot slots.now) }
{
    for slot in 0..32_u8 {
        if is_busy(slots, value, slot) {
            return true;
        }
    }
    false
}

fn names_other<O: Offers>(offers: &O, dev: u8, value: u32, slot: u8) -> bool
    requires slot { slot < 32 }
    requires can { O.can_offer offers.now }
    ensures { result ≡ (has_bit_of value slot && names_other_by (O.offer offers.now) dev slot) }
{
    has_bit(value, u32::from(slot)) && offers.named(slot) != dev
}

/// Whether the header of one of these slots names a device other than this one.
pub(crate) fn any_other<O: Offers>(offers: &O, dev: u8, value: u32) -> bool
    requires { O.can_offer offers.now }
    ensures { result ≡ any_slot value (names_other_by (O.offer offers.now) dev) }
{
    for slot in 0..32_u8 {
        if names_other(offers, dev, value, slot) {
            return true;
        }
    }
    false
}

fn is_beside(slots: &SlotTable, dev: u8, slot: u8) -> bool
    requires { slot < 32 }
    ensures { result ≡ is_beside_of slots.now dev slot }
{
    match slots.owner(slot) {
        Some(owner) => owner != dev,
        None => false,
    }
}

/// Whether a command is issued for a device other than this one.
pub(crate) fn any_beside(slots: &SlotTable, dev: u8) -> bool
    ensures { result ≡ any_beside_of slots.now dev }
{
    for slot in 0..32_u8 {
        if is_beside(slots, dev, slot) {
            return true;
        }
    }
    false
}

// Whether the slot is one of these.
fn is_set(value: u32, slot: u8) -> bool
    requires { slot < 32 }
    ensures { result ≡ has_bit_of value slot }
{
    has_bit(value, u32::from(slot))
}

/// The device for which a write of PxCI issues these slots: with FIS-based switching the one in PxFBS.DEV,
/// and else the one in the header of the lowest of them.
pub(crate) fn aimed<O: Offers>(registers: Registers, offers: &O, value: u32) -> u8
    requires can { O.can_offer offers.now }
    requires chosen { registers.chosen < 16 }
    ensures is { result ≡ aimed_by registers (O.offer offers.now) value }
    ensures low { result < 16 }
{
    if registers.switching {
        return registers.chosen;
    }
    for slot in 0..32_u8 {
        if is_set(value, slot) {
            return offers.named(slot);
        }
    }
    registers.chosen
}

fn is_bad<O: Offers>(offers: &O, value: u32, slot: u8) -> bool
    requires slot { slot < 32 }
    requires can { O.can_offer offers.now }
    ensures { result ≡ (has_bit_of value slot && is_bad_by (O.offer offers.now) slot) }
{
    has_bit(value, u32::from(slot)) && offers.command(slot).is_none()
}

/// Whether the header or the command table of one of these slots is bad.
pub(crate) fn any_bad<O: Offers>(offers: &O, value: u32) -> bool
    requires { O.can_offer offers.now }
    ensures { result ≡ any_slot value (is_bad_by (O.offer offers.now)) }
{
    for slot in 0..32_u8 {
        if is_bad(offers, value, slot) {
            return true;
        }
    }
    false
}

// The command to issue in a slot, if the slot's bit is set.
fn asked<O: Offers>(offers: &O, value: u32, slot: u8) -> Option<Command>
    requires slot { slot < 32 }
    requires can { O.can_offer offers.now }
    ensures value { result ≡ asked_by (O.offer offers.now) value slot }
    ensures work { IfSome result (λ command. IsWork command.work) }
{
    if has_bit(value, u32::from(slot)) {
        offers.command(slot)
    } else {
        None
    }
}

// Issues a command, if there is one, in a free slot.
fn issue_one(
    slots: &mut SlotTable,
    commands: &mut [Option<Command>; 32],
    dev: u8,
    slot: u8,
    command: Option<Command>,
)
    requires slot { slot < 32 }
    requires dev { dev < 16 }
    requires work { IfSome command (λ command. IsWork command.work) }
    requires free { is_some command ≡ true → is_busy_slot slots.old slot ≡ false }
    ensures own { slots_of dev slots.new ≡ slots_after dev slot command (slots_of dev slots.old) }
    ensures others { LeavesOthers dev slots.old slots.new }
    ensures commands { commands.new ≡ with_command slot command commands.old }
{
    if let Some(command) = command {
        // the slot is free, so this is not refused
        let _ = slots.issue(slot, dev, command.work);
        commands[slot as usize] = Some(command);
    }
}

/// Issues the commands in these slots, for a device.
pub(crate) fn issue_all<O: Offers>(
    slots: &mut SlotTable,
    commands: &mut [Option<Command>; 32],
    offers: &O,
    dev: u8,
    value: u32,
)
    requires can { O.can_offer offers.now }
    requires dev { dev < 16 }
    requires free { any_slot value (is_busy_slot slots.old) ≡ false }
    ensures own { slots_of dev slots.new
        ≡ issued_slots dev (asked_by (O.offer offers.now) value) (slots_of dev slots.old) }
    ensures others { LeavesOthers dev slots.old slots.new }
    ensures commands { commands.new ≡ commands_with (asked_by (O.offer offers.now) value) commands.old }
    ensures have { HaveCommands slots.old commands.old → HaveCommands slots.new commands.new }
{
    slots.keeps_rules();
    for slot in 0..32_u8 {
        let command = asked(offers, value, slot);
        issue_one(slots, commands, dev, slot, command);
    }
}
