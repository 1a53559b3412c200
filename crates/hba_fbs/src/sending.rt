//! What goes out next: Data for writes, and commands.

ghost use Rattle.std.specs.Prelude.{◌≡◌, ◌<◌, ◌&&◌, ◌||◌, not, true, None, Some, if◌then◌else◌, is_none, is_some, bit_or, MatchOption, IfOk, IfSome, IsSome, OnErr};
ghost use Rattle.host_memory.specs.Memory.{Memory};
ghost use Rattle.port_errors.specs.Errors.{cause_of};
ghost use Rattle.slots.specs.Commands.{MayBeSent, after_sent};
ghost use Rattle.slots.specs.Data.{payload as payload_of, receivers as receivers_of};
ghost use Rattle.slots.specs.Slots.{KeepsFree, LeavesOthers, context_of, issue_at, lowest_below, mask_below, slots_of};
ghost use Rattle.hba_fbs.specs.Registers.{AreOwn};
ghost use Rattle.hba_fbs.specs.Sending.{Gives, counted, has_no_setup, host_stamp, is_due as is_due_of, is_ready as is_ready_state, is_sent, next_receiver as next_receiver_of, next_to_send as next_to_send_of, order_due, state_sent, stopped_by_bus, view_fed, view_sent};
ghost use Rattle.hba_fbs.specs.Views.{LeavesOtherViews, last_command, state_at, view_of};

use crate::bits::has_bit;
use crate::port::PortCore;
use crate::registers::Registers;
use crate::state::{DeviceState, state_of};
use crate::status::{Block, is_busy, wants_data};
use bitflags::Flags;
use fis_view::{Frame, Stamp};
use hba_commands::Command;
use port_errors::{PortCause, PortErrors};
use slots::{Kind, SlotTable};
use std::alloc::{AllocError, Global};

/// SRST, Software Reset, in the Control field.
const SRST_BIT: u32 = 2;
/// The Control field in a Register Host to Device FIS.
const CONTROL: usize = 15;
/// Status.BSY.
const BSY_MASK: u8 = 0x80;

// ---- who is next

fn is_ready(state: DeviceState) -> bool
    ensures { result ≡ is_ready_state state }
{
    !(state.resetting || is_busy(state.status) || wants_data(state.status))
}

/// A mask of devices in the type of masks of devices.
pub(crate) fn low_half(mask: u32) -> u16
    requires { mask < 0x10000 }
    ensures { result ≡ mask }
{
    mask as u16
}

/// The devices that can take a command, as a mask.
pub(crate) fn ready_devices(states: &[DeviceState; 16]) -> u16
    ensures { result ≡ mask_below (λ dev. is_ready_state (state_at states.now dev)) 16 }
{
    let mut mask: u32 = 0;
    for dev in 0..16_u8 {
        if is_ready(state_of(states, dev)) {
            mask |= 1 << dev;
        }
    }
    low_half(mask)
}

/// The faulty devices, as a mask.
pub(crate) fn faulty_devices(errors: &PortErrors) -> u16
    ensures { result ≡ mask_below (λ dev. is_some (cause_of errors.now dev)) 16 }
{
    let mut mask: u32 = 0;
    for dev in 0..16_u8 {
        if errors.faulty(dev) {
            mask |= 1 << dev;
        }
    }
    low_half(mask)
}

// Whether data is due to a device, given the mask of those that asked for it.
#[tactic(auto, using(crate::proofs::ChooseLemmas::due_by))]
fn is_due(slots: &SlotTable, errors: &PortErrors, dev: u8, asking: u16) -> bool
    requires dev { dev < 16 }
    requires asking { asking ≡ receivers_of slots.now }
    ensures { result ≡ is_due_of slots.now errors.now dev }
{
    has_bit(u32::from(asking), u32::from(dev)) && !errors.faulty(dev)
}

// The lowest device to which data is due.
fn lowest_due(slots: &SlotTable, errors: &PortErrors) -> Option<u8>
    ensures value { result ≡ lowest_below (is_due_of slots.now errors.now) 16 }
    ensures below { IfSome result (λ dev. dev < 16) }
    ensures due { IfSome result (λ dev. IsSome (payload_of (context_of slots.now dev))) }
{
    let asking = slots.receivers();
    if asking == 0 {
        return None;
    }
    for dev in 0..16_u8 {
        if is_due(slots, errors, dev, asking) {
            return Some(dev);
        }
    }
    None
}

// ---- what a command leaves

// The state of a device after a command is sent to it.
fn sent_to(state: DeviceState, command: &Command) -> DeviceState
    ensures { result ≡ state_sent state command.now }
{
    match command.work.kind {
        Kind::Control => DeviceState {
            resetting: state.resetting || has_bit(u32::from(command.cfis[CONTROL]), SRST_BIT),
            ..state
        },
        Kind::QueuedRead
        | Kind::QueuedWrite
        | Kind::DmaIn
        | Kind::DmaOut
        | Kind::PioIn
        | Kind::PioOut
        | Kind::NoData => DeviceState {
            status: state.status | BSY_MASK,
            ..state
        },
    }
}

// What is left of a device's block once the command of its slot is sent: none, if that has no setup.
#[tactic(auto, using(crate::proofs::SlotLemmas::own_here))]
fn block_sent(slots: &SlotTable, slot: u8, dev: u8, state: DeviceState) -> Option<Block>
    requires slot { slot < 32 }
    requires owner { MatchOption (issue_at slots.now slot) ⊥ (λ issue. issue.dev ≡ dev) }
    ensures { result ≡ (if has_no_setup (slots_of dev slots.now) slot then None else state.block) }
{
    match slots.work(slot) {
        Some(work) if work.kind.is_dma() => None,
        _ => state.block,
    }
}

/// The device of the command in a slot.
pub(crate) fn owner_of(slots: &SlotTable, slot: u8) -> u8
    requires slot { slot < 32 }
    requires there { MayBeSent slots.now slot }
    ensures owner { MatchOption (issue_at slots.now slot) ⊥ (λ issue. issue.dev ≡ result) }
    ensures below { result < 16 }
{
    slots.keeps_rules();
    match slots.owner(slot) {
        Some(dev) => dev,
        None => unreachable!(),
    }
}

// Marks the command of a device's slot as sent.
fn send_slot(slots: &mut SlotTable, slot: u8, dev: u8)
    requires slot { slot < 32 }
    requires alone { MayBeSent slots.old slot }
    requires owner { MatchOption (issue_at slots.old slot) ⊥ (λ issue. issue.dev ≡ dev) }
    ensures own { slots_of dev slots.new ≡ after_sent (slots_of dev slots.old) slot }
    ensures others { LeavesOthers dev slots.old slots.new }
    ensures frees { KeepsFree slots.old slots.new }
{
    slots.sent(slot);
}

/// The command that was issued last in a slot.
pub(crate) fn command_of(commands: &[Option<Command>; 32], slot: u8) -> Option<Command>
    requires { slot < 32 }
    ensures { result ≡ last_command commands.now slot }
{
    commands[slot as usize]
}

// The registers after a host bus error.
fn failed(registers: Registers, interrupts: u32) -> Registers
    ensures value { result
        ≡ record registers { interrupts = bit_or registers.interrupts interrupts } }
    ensures are { AreOwn registers → AreOwn result }
{
    Registers {
        interrupts: registers.interrupts | interrupts,
        ..registers
    }
}

impl PortCore {
    // The device to which data goes next.
    #[tactic(auto, unfolding(crate::specs::Sending::next_receiver))]
    pub(crate) fn next_receiver(&self) -> Option<u8>
        ensures value { result ≡ next_receiver_of self.now }
        ensures below { IfSome result (λ dev. dev < 16) }
        ensures due { IfSome result (λ dev. IsSome (payload_of (context_of self.now.slots dev))) }
    {
        lowest_due(&self.slots, &self.errors)
    }

    // The slot whose command goes out next.
    pub(crate) fn next_to_send(&self) -> Option<u8>
        ensures value { result ≡ next_to_send_of self.now }
        ensures may { IfSome result (λ slot. (slot < 32) × MayBeSent self.now.slots slot) }
    {
        if self.slots.unsent() == 0 {
            return None;
        }
        let ready = ready_devices(&self.states);
        let faulty = faulty_devices(&self.errors);
        self.slots.next_command(ready, faulty)
    }

    /// The PRD table of the data that is due cannot be used: a host bus error stops the port.
    pub fn fail(&mut self)
        ensures { self.new ≡ stopped_by_bus self.old }
    {
        let interrupts = self.errors.port(PortCause::Bus);
        self.registers = failed(self.registers, interrupts.bits());
    }

    // The data that is due to a device goes out.
    pub(crate) fn feed(&mut self, dev: u8)
        requires dev { dev < 16 }
        requires due { IsSome (payload_of (context_of self.old.slots dev)) }
        ensures own { view_of dev self.new ≡ view_fed (view_of dev self.old) }
        ensures others { LeavesOtherViews dev self.old self.new }
        ensures registers { self.new.registers ≡ self.old.registers }
        ensures errors { self.new.errors ≡ self.old.errors }
        ensures commands { self.new.commands ≡ self.old.commands }
        ensures number { self.new.number ≡ counted self.old.number }
        ensures active { self.new.active ≡ self.old.active }
    {
        self.slots.payload_gone(dev);
        self.number = self.number.saturating_add(1);
    }

    // The command of a device's slot goes out.
    pub(crate) fn send(&mut self, slot: u8, dev: u8, command: &Command)
        requires slot { slot < 32 }
        requires dev { dev < 16 }
        requires may { MayBeSent self.old.slots slot }
        requires owner { MatchOption (issue_at self.old.slots slot) ⊥ (λ issue. issue.dev ≡ dev) }
        ensures own { view_of dev self.new ≡ view_sent (view_of dev self.old) slot command.now }
        ensures others { LeavesOtherViews dev self.old self.new }
        ensures registers { self.new.registers ≡ self.old.registers }
        ensures errors { self.new.errors ≡ self.old.errors }
        ensures commands { self.new.commands ≡ self.old.commands }
        ensures number { self.new.number ≡ counted self.old.number }
        ensures active { self.new.active ≡ self.old.active }
    {
        let state = state_of(&self.states, dev);
        let block = block_sent(&self.slots, slot, dev, state);
        send_slot(&mut self.slots, slot, dev);
        self.states[dev as usize] = sent_to(state, command).with_block(block);
        self.number = self.number.saturating_add(1);
    }
}
