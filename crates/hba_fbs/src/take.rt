//! Taking a FIS from a device.

ghost use Rattle.std.specs.Prelude.{ℕ, ◌≡◌, ◌≢◌, ◌<◌, ◌≤◌, ◌+◌, ◌||◌, None, Some, Ok, false, true, drop, is_some, length, IfSome, MatchOption};
ghost use Rattle.fis_view.specs.Seen.{frame_of, seen};
ghost use Rattle.port_errors.specs.Errors.{KeepsCauses, cause_of};
ghost use Rattle.slots.specs.Data.{receiving_slot};
ghost use Rattle.slots.specs.Slots.{KeepsFree, context_of, issue_at, owned_by, slots_of};
ghost use Rattle.hba_fbs.specs.Registers.{AreOwn};
ghost use Rattle.hba_fbs.specs.Deciding.{Decides, Passes, Reaches, carries, has_table};
ghost use Rattle.hba_fbs.specs.Taking.{admitted, device_cause, errors_in, fault_interrupts, ignored_report, ignores, is_ignored as is_ignored_of, is_running as is_running_of, is_of_transfer as is_of_transfer_of, owns_none as owns_none_of, passes_over as passes_over_of, place_in, port_of, row_for, settled as settled_registers};
ghost use Rattle.hba_fbs.specs.Views.{view_of};

use crate::bits::raised;
use crate::hearing::{Fault, Heard, bad, hear_within, is_admitted};
use crate::port::PortCore;
use crate::post::{place_of, posted, signs};
use crate::registers::Registers;
use crate::report::TakeReport;
use crate::room::Room;
use crate::state::state_of;
use bitflags::Flags;
use fis_view::{Fis, FisFault, Frame};
use port_errors::{Interrupts, PortErrors};
use rx_area::Posted;
use slots::SlotTable;

// Records what is wrong with a FIS and answers the bits of PxIS that it sets.
fn mark(errors: &mut PortErrors, switching: bool, dev: u8, fault: Option<Fault>) -> u32
    requires { dev < 16 }
    ensures interrupts { result ≡ fault_interrupts fault }
    ensures after { errors.new ≡ errors_in switching errors.old dev fault }
    ensures own { cause_of errors.old dev ≡ None → cause_of errors.new dev ≡ device_cause fault }
    ensures others { (other : ℕ) → other ≢ dev
        → cause_of errors.new other ≡ cause_of errors.old other }
    ensures kept { KeepsCauses errors.old errors.new }
{
    match fault {
        None => 0,
        Some(Fault::Device(cause)) if switching => errors.device(dev, cause).bits(),
        Some(Fault::Device(cause)) => errors.alone(dev, cause).bits(),
        Some(Fault::Port(cause)) => errors.port(cause).bits(),
    }
}

// The registers after a FIS is heard, with the bits of PxIS that its fault sets.
#[tactic(auto, unfolding(crate::specs::Taking::settled))]
fn settled(registers: Registers, heard: Heard, interrupts: u32) -> Registers
    requires interrupts { interrupts ≡ fault_interrupts heard.fault }
    requires are { AreOwn registers }
    ensures value { result ≡ settled_registers registers heard }
    ensures are { AreOwn result }
{
    Registers {
        interrupts: registers.interrupts | raised(heard.pss, Interrupts::PSS) | interrupts,
        ..registers
    }
}

// The FIS, if its length is right and it may come from this PM Port.
pub(crate) fn admit(dev: u8, fis: Result<Fis<'_>, FisFault>) -> Option<Fis<'_>>
    ensures value { result ≡ admitted dev fis.entry }
    ensures is { IfSome result (λ f. fis.entry ≡ Ok f) }
{
    match fis {
        Ok(fis) if is_admitted(dev, &fis) => Some(fis),
        _ => None,
    }
}

// Whether it is a FIS of a transfer.
fn is_of_transfer(fis: &Result<Fis<'_>, FisFault>) -> bool
    ensures { result ≡ is_of_transfer_of fis.now }
{
    matches!(
        fis,
        Ok(Fis::DmaActivate(_) | Fis::DmaSetup(_) | Fis::PioSetup(_) | Fis::Payload(_))
    )
}

// Whether a command is issued in a slot for a device.
fn is_own(slots: &SlotTable, dev: u8, slot: u8) -> bool
    requires { slot < 32 }
    ensures { result ≡ is_some (owned_by dev (issue_at slots.now slot)) }
{
    match slots.owner(slot) {
        Some(owner) => owner == dev,
        None => false,
    }
}

// Whether nothing is issued for a device.
fn owns_none(slots: &SlotTable, dev: u8) -> bool
    requires { dev < 16 }
    ensures { result ≡ owns_none_of (slots_of dev slots.now) }
{
    for slot in 0..32_u8 {
        if is_own(slots, dev, slot) {
            return false;
        }
    }
    true
}

// Where a FIS is posted, in a row of the received area, if there is one.
fn place_for(row: Option<u8>, fis: &Fis<'_>) -> Posted
    ensures { result ≡ place_in row (Some fis.now) }
{
    match row {
        Some(_) => place_of(fis),
        None => Posted::Nothing,
    }
}

impl PortCore {
    pub(crate) fn is_running(&self) -> bool
        ensures { result ≡ is_running_of self.now }
    {
        self.registers.started && !self.errors.stopped()
    }

    pub(crate) fn is_ignored(&self, dev: u8, fis: &Result<Fis<'_>, FisFault>) -> bool
        requires { dev < 16 }
        ensures { result
            ≡ (passes_over_of self.now.registers.switching dev (view_of dev self.now) fis.now
            || is_ignored_of (is_running_of self.now) (view_of dev self.now) fis.now) }
    {
        self.passes_over(dev, fis)
            || !self.is_running()
            || self.errors.faulty(dev)
            || self.states[dev as usize].resetting && !signs(fis)
    }

    /// Whether it is a FIS of a transfer, and nothing is issued for its device, without FIS-based switching.
    pub(crate) fn passes_over(&self, dev: u8, fis: &Result<Fis<'_>, FisFault>) -> bool
        requires { dev < 16 }
        ensures { result
            ≡ passes_over_of self.now.registers.switching dev (view_of dev self.now) fis.now }
    {
        !self.registers.switching && dev != 15 && is_of_transfer(fis) && owns_none(&self.slots, dev)
    }

    /// The row of the received area in which FISes of a device are posted. Where a report says that one is posted, there
    /// is one.
    pub fn row(&self, dev: u8) -> Option<u8>
        requires { dev < 16 }
        ensures is { result ≡ row_for self.now dev }
        ensures low { IfSome result (λ row. row < 16) }
    {
        if self.registers.switching {
            Some(dev)
        } else if dev == self.active {
            Some(0)
        } else {
            None
        }
    }

    // Hears a frame that is no FIS, or a FIS that may not come from this PM Port.
    pub(crate) fn hear_bad(&mut self, dev: u8) -> TakeReport
        requires dev { dev < 16 }
        requires healthy { (view_of dev self.old).fault ≡ None }
        ensures decides { (room : Room) → Decides self.old dev room None result self.new }
        ensures kept { KeepsCauses self.old.errors self.new.errors }
        ensures unwritten { result.wrote ≡ None }
    {
        let heard = bad(dev, state_of(&self.states, dev));
        let switching = self.registers.switching;
        let interrupts = mark(&mut self.errors, switching, dev, heard.fault);
        self.registers = settled(self.registers, heard, interrupts);
        TakeReport::heard(dev, Posted::Nothing, heard)
    }

    // Hears a FIS that may come from this PM Port.
    pub(crate) fn hear_good(&mut self, dev: u8, room: Room, fis: &Fis<'_>) -> TakeReport
        requires dev { dev < 16 }
        requires healthy { (view_of dev self.old).fault ≡ None }
        ensures decides { Decides self.old dev room (Some fis.now) result self.new }
        ensures kept { KeepsCauses self.old.errors self.new.errors }
        ensures unwritten { carries (has_table room) fis.now ≡ false → result.wrote ≡ None }
        ensures len { IfSome result.wrote
            (λ wrote. wrote.len ≡ length (drop 4 (frame_of fis.now))) }
        ensures slot { IfSome result.wrote (λ wrote.
            receiving_slot (context_of self.old.slots dev) ≡ Some wrote.slot) }
        ensures fits { IfSome result.wrote (λ wrote. MatchOption
            (issue_at self.old.slots wrote.slot) ⊥
            (λ issue. wrote.offset + wrote.len ≤ issue.work.len)) }
        ensures reaches { IfSome result.wrote (λ wrote. Reaches room (wrote.offset + wrote.len)) }
    {
        let state = state_of(&self.states, dev);
        let heard = hear_within(&mut self.slots, dev, state, room, fis);
        let place = place_for(self.row(dev), fis);
        let switching = self.registers.switching;
        let registers = posted(self.registers, dev, state.resetting, fis);
        let interrupts = mark(&mut self.errors, switching, dev, heard.fault);
        self.registers = settled(registers, heard, interrupts);
        self.states[dev as usize] = heard.state;
        TakeReport::heard(dev, place, heard)
    }

    // Takes a frame from this PM Port.
    fn take_from(&mut self, dev: u8, room: Room, frame: &Frame) -> TakeReport
        requires dev { dev < 16 }
        ensures ignored { ignores dev self.old frame.now.bytes ≡ true
            → Passes dev self.old result self.new }
        ensures heard { ignores dev self.old frame.now.bytes ≡ false
            → Decides self.old dev room (admitted dev (seen frame.now.bytes)) result self.new }
        ensures kept { KeepsCauses self.old.errors self.new.errors }
        ensures slot { IfSome result.wrote (λ wrote.
            receiving_slot (context_of self.old.slots dev) ≡ Some wrote.slot) }
        ensures fits { IfSome result.wrote (λ wrote. MatchOption
            (issue_at self.old.slots wrote.slot) ⊥
            (λ issue. wrote.offset + wrote.len ≤ issue.work.len)) }
        ensures reaches { IfSome result.wrote (λ wrote. Reaches room (wrote.offset + wrote.len)) }
    {
        let fis = frame.fis();
        if self.is_ignored(dev, &fis) {
            return TakeReport::ignored(dev);
        }
        match admit(dev, fis) {
            Some(fis) => self.hear_good(dev, room, &fis),
            None => self.hear_bad(dev),
        }
    }

    /// Takes a FIS from a device or from the control port. It is either ignored, or heard; then it is to be posted where
    /// the report says, and its payload to be written as the report says. `room` is that of the PRD table of the slot that
    /// [`receiving`](PortCore::receiving) names; it is looked at for Data alone. A device that sends something wrong is faulty until it is flushed or
    /// cleared; the others go on. An error of the control port or of the memory stops the port.
    pub fn take(&mut self, room: Room, frame: &Frame) -> TakeReport
        ensures ignored { ignores (port_of frame.now.bytes) self.old frame.now.bytes ≡ true
            → Passes (port_of frame.now.bytes) self.old result self.new }
        ensures heard { ignores (port_of frame.now.bytes) self.old frame.now.bytes ≡ false
            → Decides self.old (port_of frame.now.bytes) room
            (admitted (port_of frame.now.bytes) (seen frame.now.bytes)) result self.new }
        ensures kept { KeepsCauses self.old.errors self.new.errors }
        ensures slot { IfSome result.wrote (λ wrote.
            receiving_slot (context_of self.old.slots (port_of frame.now.bytes)) ≡ Some wrote.slot) }
        ensures fits { IfSome result.wrote (λ wrote. MatchOption
            (issue_at self.old.slots wrote.slot) ⊥
            (λ issue. wrote.offset + wrote.len ≤ issue.work.len)) }
        ensures reaches { IfSome result.wrote (λ wrote. Reaches room (wrote.offset + wrote.len)) }
    {
        let dev = frame.pm_port();
        self.take_from(dev, room, frame)
    }
}
