//! What a FIS means for the device that sent it.

ghost use Rattle.std.specs.Prelude.{◌≡◌, ◌<◌, ◌≤◌, ◌+◌, ◌-◌, ◌%◌, ◌==◌, if◌then◌else◌, None, Some, false, drop, length, IfSome, MatchOption};
ghost use Rattle.fis_view.specs.Seen.{frame_of};
ghost use Rattle.slots.specs.Slots.{KeepsFree, LeavesOthers, context_of, issue_at, slots_of};
ghost use Rattle.slots.specs.Commands.{IsSlotAnswer};
ghost use Rattle.slots.specs.Data.{receiving_slot};
ghost use Rattle.slots.specs.Setup.{out_setup};
ghost use Rattle.hba_fbs.specs.Hearing.{answer_fault as answer_fault_of, answered as answered_heard, block_of as block_of_fis, cause_of_setup as cause_of_setup_error, done_by as done_by_answer, faulty as faulty_heard, heard_activate, heard_bad, heard_bits, heard_d2h, heard_fis, heard_out, heard_pio, heard_register, heard_setup, is_admitted as is_admitted_fis, moved, named as named_heard, quietly as quietly_heard, signing as signing_heard};
ghost use Rattle.hba_fbs.specs.Deciding.{Reaches, carries, has_table as has_table_of, heard_within, is_past as is_past_of};
ghost use Rattle.hba_fbs.specs.Taking.{wrote_by};

use crate::data::{goes_past, hear_data, overflowed};
use crate::post::is_ata_signature;
use crate::report::Wrote;
use crate::room::Room;
use crate::state::DeviceState;
use crate::status::{Block, is_busy, is_error};
use fis_view::{Fis, PioSetup, RegD2H};
use port_errors::{DeviceCause, PortCause};
use slots::{Answered, Completed, Context, SetupError, SlotTable};

/// What is wrong with a FIS.
#[derive(Clone, Copy)]
pub enum Fault {
    /// The device is faulty from now on.
    Device(DeviceCause),
    /// The port is stopped from now on.
    Port(PortCause),
}

/// What a FIS does to the slots of the device that sent it.
#[derive(Clone, Copy)]
pub enum Happening {
    /// No slot changes.
    Nothing,
    /// The command that waits for an answer gets it.
    Answered(Answered),
    /// A Set Device Bits FIS names these slots as done.
    Named(u32),
    /// A DMA Setup is accepted, or a PIO Setup for a PIO data-out, and this is the device's context from now
    /// on.
    SetUp(Context),
    /// A PIO Setup of this many bytes is accepted for a PIO data-in. The flag says whether they go to the
    /// host.
    PioSetUp(u32, bool),
    /// A DMA Activate is accepted.
    Activated,
    /// Data came. The flag says whether it ends a block whose Status says that a PIO data-in may be done.
    Carried(Wrote, bool),
}

/// What a FIS means for the device that sent it.
#[derive(Clone, Copy)]
pub struct Heard {
    /// The state of the device after the FIS.
    pub state: DeviceState,
    /// What happens to its slots.
    pub happening: Happening,
    /// What is wrong with the FIS.
    pub fault: Option<Fault>,
    /// The slots that became free, as a mask.
    pub done: u32,
    /// Whether it sets PxIS.PSS.
    pub pss: bool,
}

/// A FIS with nothing wrong that frees no slot.
pub(crate) fn quietly(state: DeviceState, happening: Happening) -> Heard
    ensures { result ≡ quietly_heard state happening }
{
    Heard {
        state,
        happening,
        fault: None,
        done: 0,
        pss: false,
    }
}

/// A FIS that makes its device faulty and changes no slot.
pub(crate) fn faulty(state: DeviceState, cause: DeviceCause) -> Heard
    ensures { result ≡ faulty_heard state cause }
{
    Heard {
        state,
        happening: Happening::Nothing,
        fault: Some(Fault::Device(cause)),
        done: 0,
        pss: false,
    }
}

/// A FIS of a wrong length, or one that may not come from this PM Port.
pub(crate) fn bad(dev: u8, state: DeviceState) -> Heard
    ensures { result ≡ heard_bad dev state }
{
    let fault = if dev == 15 {
        Fault::Port(PortCause::BadControl)
    } else {
        Fault::Device(DeviceCause::BadFis)
    };
    Heard {
        state,
        happening: Happening::Nothing,
        fault: Some(fault),
        done: 0,
        pss: false,
    }
}

fn done_by(answer: Answered) -> u32
    requires { IsSlotAnswer answer }
    ensures { result ≡ done_by_answer answer }
{
    match answer {
        Answered::Done(slot) => 1 << slot,
        Answered::Nobody | Answered::Queued(_) | Answered::Short(_) => 0,
    }
}

fn answer_fault(answer: Answered) -> Option<Fault>
    ensures { result ≡ answer_fault_of answer }
{
    match answer {
        Answered::Short(_) => Some(Fault::Device(DeviceCause::Short)),
        Answered::Nobody | Answered::Queued(_) | Answered::Done(_) => None,
    }
}

fn answered(answer: Answered, state: DeviceState) -> Heard
    requires { IsSlotAnswer answer }
    ensures { result ≡ answered_heard answer state }
{
    Heard {
        state,
        happening: Happening::Answered(answer),
        fault: answer_fault(answer),
        done: done_by(answer),
        pss: false,
    }
}

// Hears a Register Device to Host FIS outside a software reset.
fn hear_d2h(slots: &mut SlotTable, dev: u8, state: DeviceState, status: u8, error: u8) -> Heard
    requires { dev < 16 }
    ensures heard { result ≡ heard_d2h (slots_of dev slots.old) state status error }
    ensures own { slots_of dev slots.new ≡ moved result.happening (slots_of dev slots.old) }
    ensures others { LeavesOthers dev slots.old slots.new }
    ensures frees { KeepsFree slots.old slots.new }
    ensures unwritten { wrote_by result.happening ≡ None }
{
    let told = state.with_file(status, error);
    if is_error(status) {
        return faulty(told, DeviceCause::TaskFile);
    }
    if is_busy(status) {
        return quietly(told, Happening::Nothing);
    }
    answered(slots.answered(dev), told)
}

// The signature of an ATA device marks the device that sent it.
fn signing(fis: &RegD2H<'_>, heard: Heard) -> Heard
    ensures { result ≡ signing_heard fis.now heard }
{
    Heard {
        state: heard.state.signed_by(is_ata_signature(fis)),
        ..heard
    }
}

// Hears a Register Device to Host FIS. In a software reset it is the signature, which ends the reset.
fn hear_register(slots: &mut SlotTable, dev: u8, state: DeviceState, status: u8, error: u8) -> Heard
    requires { dev < 16 }
    ensures heard { result ≡ heard_register (slots_of dev slots.old) state status error }
    ensures own { slots_of dev slots.new ≡ moved result.happening (slots_of dev slots.old) }
    ensures others { LeavesOthers dev slots.old slots.new }
    ensures frees { KeepsFree slots.old slots.new }
    ensures unwritten { wrote_by result.happening ≡ None }
{
    if state.resetting {
        return quietly(state.after_reset(status, error), Happening::Nothing);
    }
    hear_d2h(slots, dev, state, status, error)
}

fn named(completed: Completed, state: DeviceState, mask: u32) -> Heard
    ensures { result ≡ named_heard completed state mask }
{
    let fault = if completed.short == 0 {
        None
    } else {
        Some(Fault::Device(DeviceCause::Short))
    };
    Heard {
        state,
        happening: Happening::Named(mask),
        fault,
        done: completed.done,
        pss: false,
    }
}

fn hear_bits(
    slots: &mut SlotTable,
    dev: u8,
    state: DeviceState,
    status: u8,
    error: u8,
    mask: u32,
) -> Heard
    requires { dev < 16 }
    ensures heard { result ≡ heard_bits (slots_of dev slots.old) state status error mask }
    ensures own { slots_of dev slots.new ≡ moved result.happening (slots_of dev slots.old) }
    ensures others { LeavesOthers dev slots.old slots.new }
    ensures frees { KeepsFree slots.old slots.new }
    ensures unwritten { wrote_by result.happening ≡ None }
{
    let told = state.with_bits(status, error);
    if is_error(status) {
        return faulty(told, DeviceCause::TaskFile);
    }
    named(slots.complete(dev, mask), told, mask)
}

fn cause_of_setup(error: SetupError) -> DeviceCause
    ensures { result ≡ cause_of_setup_error error }
{
    match error {
        SetupError::NotOutstanding => DeviceCause::BadTag,
        SetupError::WrongWay => DeviceCause::WrongWay,
        SetupError::Overflow => DeviceCause::Overflow,
        SetupError::Twice => DeviceCause::Twice,
        SetupError::Fragments => DeviceCause::Fragments,
        SetupError::BadCount => DeviceCause::BadFis,
    }
}

fn hear_setup(
    slots: &mut SlotTable,
    dev: u8,
    state: DeviceState,
    tag: u8,
    offset: u32,
    count: u32,
    to_host: bool,
    auto: bool,
) -> Heard
    requires dev { dev < 16 }
    requires tag { tag < 32 }
    ensures heard { result
        ≡ heard_setup (slots_of dev slots.old) state tag offset count to_host auto }
    ensures own { slots_of dev slots.new ≡ moved result.happening (slots_of dev slots.old) }
    ensures others { LeavesOthers dev slots.old slots.new }
    ensures frees { KeepsFree slots.old slots.new }
    ensures unwritten { wrote_by result.happening ≡ None }
{
    let context = Context {
        slot: tag,
        next: offset,
        left: count,
        to_host,
        activated: auto && !to_host,
    };
    match slots.setup(dev, tag, offset, count, to_host, auto) {
        Ok(()) => quietly(state.with_block(None), Happening::SetUp(context)),
        Err(error) => faulty(state, cause_of_setup(error)),
    }
}

// Hears a PIO Setup while no PIO data-in waits for it.
fn hear_out(
    slots: &mut SlotTable,
    dev: u8,
    state: DeviceState,
    count: u32,
    to_host: bool,
    block: Block,
) -> Heard
    requires { dev < 16 }
    ensures heard { result
        ≡ heard_out state block (out_setup (slots_of dev slots.old) count to_host) }
    ensures own { slots_of dev slots.new ≡ moved result.happening (slots_of dev slots.old) }
    ensures others { LeavesOthers dev slots.old slots.new }
    ensures frees { KeepsFree slots.old slots.new }
    ensures unwritten { wrote_by result.happening ≡ None }
{
    match slots.setup_out(dev, count, to_host) {
        Ok(context) => Heard {
            state: state.with_status(block.ends).with_block(None),
            happening: Happening::SetUp(context),
            fault: None,
            done: 0,
            pss: block.interrupts,
        },
        Err(error) => faulty(state, cause_of_setup(error)),
    }
}

fn hear_pio(
    slots: &mut SlotTable,
    dev: u8,
    state: DeviceState,
    status: u8,
    error: u8,
    count: u32,
    to_host: bool,
    block: Block,
) -> Heard
    requires { dev < 16 }
    ensures heard { result
        ≡ heard_pio (slots_of dev slots.old) state status error count to_host block }
    ensures own { slots_of dev slots.new ≡ moved result.happening (slots_of dev slots.old) }
    ensures others { LeavesOthers dev slots.old slots.new }
    ensures frees { KeepsFree slots.old slots.new }
    ensures unwritten { wrote_by result.happening ≡ None }
{
    let told = state.with_file(status, error);
    if is_error(status) {
        return faulty(told, DeviceCause::TaskFile);
    }
    if slots.sent_pio(dev).is_none() {
        return hear_out(slots, dev, told, count, to_host, block);
    }
    match slots.setup_pio(dev, count, to_host) {
        Ok(()) => quietly(
            told.with_block(Some(block)),
            Happening::PioSetUp(count, to_host),
        ),
        Err(error) => faulty(told, cause_of_setup(error)),
    }
}

fn hear_activate(slots: &mut SlotTable, dev: u8, state: DeviceState) -> Heard
    requires { dev < 16 }
    ensures heard { result ≡ heard_activate (slots_of dev slots.old) state }
    ensures own { slots_of dev slots.new ≡ moved result.happening (slots_of dev slots.old) }
    ensures others { LeavesOthers dev slots.old slots.new }
    ensures frees { KeepsFree slots.old slots.new }
    ensures unwritten { wrote_by result.happening ≡ None }
{
    match slots.activate(dev) {
        Ok(()) => quietly(state, Happening::Activated),
        Err(_) => faulty(state, DeviceCause::Stray),
    }
}

/// Whether a FIS may come from this PM Port.
pub(crate) fn is_admitted(dev: u8, fis: &Fis<'_>) -> bool
    ensures { result ≡ is_admitted_fis dev fis.now }
{
    match fis {
        Fis::RegH2D(_) => false,
        Fis::RegD2H(_) | Fis::SetBits(_) => true,
        Fis::DmaActivate(_) | Fis::DmaSetup(_) | Fis::PioSetup(_) | Fis::Payload(_) => dev != 15,
        Fis::Unknown(fis) => fis.bytes().len() <= 64,
    }
}

fn block_of(fis: &PioSetup<'_>) -> Block
    ensures { result ≡ block_of_fis fis.now }
{
    Block {
        interrupts: fis.i(),
        ends: fis.e_status(),
    }
}

// Hears a FIS that may come from this PM Port. `sound` says whether the table of the slot for which Data comes can be
// used.
#[tactic(auto, unfolding(crate::specs::Hearing::heard_fis))]
fn hear(slots: &mut SlotTable, dev: u8, state: DeviceState, sound: bool, fis: &Fis<'_>) -> Heard
    requires { dev < 16 }
    ensures heard { result ≡ heard_fis (slots_of dev slots.old) state sound fis.now }
    ensures own { slots_of dev slots.new ≡ moved result.happening (slots_of dev slots.old) }
    ensures others { LeavesOthers dev slots.old slots.new }
    ensures frees { KeepsFree slots.old slots.new }
    ensures unwritten { carries sound fis.now ≡ false → wrote_by result.happening ≡ None }
    ensures len { IfSome (wrote_by result.happening)
        (λ wrote. wrote.len ≡ length (drop 4 (frame_of fis.now))) }
    ensures slot { IfSome (wrote_by result.happening) (λ wrote.
        receiving_slot (context_of slots.old dev) ≡ Some wrote.slot) }
    ensures from { IfSome (wrote_by result.happening) (λ wrote. MatchOption
        (context_of slots.old dev) ⊥ (λ context. wrote.offset ≡ context.next)) }
    ensures fits { IfSome (wrote_by result.happening) (λ wrote. MatchOption
        (issue_at slots.old wrote.slot) ⊥ (λ issue. wrote.offset + wrote.len ≤ issue.work.len)) }
{
    match fis {
        Fis::RegD2H(fis) => {
            let heard = hear_register(slots, dev, state, fis.status(), fis.error());
            signing(fis, heard)
        }
        Fis::SetBits(fis) => hear_bits(slots, dev, state, fis.status(), fis.error(), fis.sactive()),
        Fis::DmaSetup(fis) => {
            let tag = (fis.buffer_id() % 32) as u8;
            let (offset, count) = (fis.offset(), fis.count());
            hear_setup(slots, dev, state, tag, offset, count, fis.d(), fis.a())
        }
        Fis::PioSetup(fis) => {
            let count = u32::from(fis.transfer());
            let (status, error) = (fis.status(), fis.error());
            hear_pio(
                slots,
                dev,
                state,
                status,
                error,
                count,
                fis.d(),
                block_of(fis),
            )
        }
        Fis::Payload(fis) => hear_data(slots, dev, state, sound, fis.payload().len() as u32),
        Fis::DmaActivate(_) => hear_activate(slots, dev, state),
        Fis::Unknown(_) | Fis::RegH2D(_) => quietly(state, Happening::Nothing),
    }
}

impl Room {
    /// Whether the table can be used.
    pub(crate) fn has_table(self) -> bool
        ensures { result ≡ has_table_of self }
    {
        self != Room::NoTable
    }
}

// Whether it is Data that goes past so many bytes of its slot.
fn is_past(slots: &SlotTable, dev: u8, total: u32, fis: &Fis<'_>) -> bool
    requires { dev < 16 }
    ensures { result ≡ is_past_of total (context_of slots.now dev) fis.now }
{
    match fis {
        Fis::Payload(fis) => goes_past(slots, dev, total, fis.payload().len() as u32),
        _ => false,
    }
}

/// Hears a FIS that may come from this PM Port. `room` is that of the table of the slot for which Data comes.
#[tactic(auto, unfolding(crate::specs::Deciding::heard_within))]
pub(crate) fn hear_within(
    slots: &mut SlotTable,
    dev: u8,
    state: DeviceState,
    room: Room,
    fis: &Fis<'_>,
) -> Heard
    requires { dev < 16 }
    ensures heard { result ≡ heard_within (slots_of dev slots.old) state room fis.now }
    ensures own { slots_of dev slots.new ≡ moved result.happening (slots_of dev slots.old) }
    ensures others { LeavesOthers dev slots.old slots.new }
    ensures frees { KeepsFree slots.old slots.new }
    ensures unwritten { carries (has_table_of room) fis.now ≡ false → wrote_by result.happening ≡ None }
    ensures len { IfSome (wrote_by result.happening)
        (λ wrote. wrote.len ≡ length (drop 4 (frame_of fis.now))) }
    ensures slot { IfSome (wrote_by result.happening) (λ wrote.
        receiving_slot (context_of slots.old dev) ≡ Some wrote.slot) }
    ensures fits { IfSome (wrote_by result.happening) (λ wrote. MatchOption
        (issue_at slots.old wrote.slot) ⊥ (λ issue. wrote.offset + wrote.len ≤ issue.work.len)) }
    ensures reaches { IfSome (wrote_by result.happening) (λ wrote.
        Reaches room (wrote.offset + wrote.len)) }
{
    match room {
        Room::NoTable => hear(slots, dev, state, false, fis),
        Room::Whole => hear(slots, dev, state, true, fis),
        Room::Bytes(total) => {
            if is_past(slots, dev, total, fis) {
                return overflowed(state);
            }
            hear(slots, dev, state, true, fis)
        }
    }
}
