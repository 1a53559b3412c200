//! FISes of devices are taken.

ghost use Rattle.std.specs.Prelude.{◌≡◌, ◌<◌, ◌^◌, ◌||◌, true, bit_or, is_some, OnErr, IfOk};
ghost use Rattle.std.specs.Result.{result_err};
ghost use Rattle.hba_fbs.specs.Bits.{without as without_of};
ghost use Rattle.ahci_registers.specs.Lines.{LineEvent, is_due};
ghost use Rattle.ahci_controller.specs.Causes.{causes_since};
ghost use Rattle.fis_view.specs.Seen.{seen};
ghost use Rattle.hba_fbs.specs.Taking.{port_of};
ghost use Rattle.ahci_controller.specs.States.{cursor as cursor_of};
ghost use Rattle.ahci_controller.specs.Latch.{latched};
ghost use Rattle.ahci_controller.specs.Taking.{CoreHears, Hears, blamed as blamed_by, blamed_state, carried_by, error_bits, brought as brought_of, cursor_from, cursors_after, filled as filled_of, hindrance as hindrance_of, is_any as is_any_of, is_overflow as is_overflow_of, is_up as is_up_of, move_to as move_to_of, part_in as part_in_of, part_of, payload_of, posting_at, room_for, row_in, set_at as set_at_of, settled, told_by, why_ignored, writes_of};

use crate::bits::without;
use crate::causes::{interrupts, new_bits, status};
use crate::latch::Edge;
use crate::own::OwnRegisters;
use crate::parts::Parts;
use crate::wants::{Carried, Wants, Writes};
use ahci_registers::LinkAction;
use fis_view::{Fis, Frame};
use guest_fetch::{Command, Move};
use hba_fbs::{Ignored, Room, TakeReport, Wrote};
use port_errors::DeviceCause;
use rx_area::Posted;

/// Why a FIS is not taken. Nothing changes.
#[derive(Clone, Copy, Debug, PartialEq, Eq)]
pub enum Hindrance {
    /// The link is down: the FIS is lost.
    LinkDown,
    /// A command that cannot be served stopped the port until ST falls: the FIS is dropped.
    Failed,
    /// PxCMD.FRE is 0: the FIS waits.
    NotReceiving,
    /// What is to be written to the guest for the FIS before is not written yet: the FIS waits.
    Writing,
}

/// What taking a FIS did.
#[derive(Clone, Copy, Debug, PartialEq, Eq)]
pub struct Took {
    /// What the core says.
    pub report: TakeReport,
    /// Why it was ignored, if it was.
    pub ignored: Option<Ignored>,
    /// The bytes that it brings to the guest. Of Data that go past their table, which the report calls an overflow, those that
    /// have a place.
    pub brought: Option<Wrote>,
    /// A message is due, where messages stand for the line.
    pub message: bool,
    /// What it did to the line.
    pub line: Edge,
}

fn is_up(action: LinkAction) -> bool
    ensures { result ≡ is_up_of action }
{
    action == LinkAction::NoAction
}

// A FIS of so many bytes goes there, from a place of the received area on.
fn move_to(area: u64, start: u64, len: usize) -> Option<Move>
    requires start { start < 8192 }
    requires len { len < 16384 }
    ensures { result ≡ move_to_of area start len }
{
    if area > u64::MAX - start - len as u64 {
        return None;
    }
    Some(Move {
        at: area + start,
        from: 0,
        len,
        interrupt: false,
    })
}

// The row of a device that has one: its own with FIS-based switching, and row 0 without.
fn row(switching: bool, dev: u8) -> u8
    requires { dev < 16 }
    ensures value { result ≡ row_in switching dev }
    ensures low { result < 16 }
{
    if switching { dev } else { 0 }
}

// It goes to its place in a row.
fn posting(area: u64, row: u8, posted: Posted, len: usize) -> Option<Move>
    requires row { row < 16 }
    requires len { len < 16384 }
    ensures { result ≡ posting_at area row posted len }
{
    let row = 256 * u64::from(row);
    match posted {
        Posted::Setup => move_to(area, row, len),
        Posted::Pio => move_to(area, row + 0x20, len),
        Posted::D2h => move_to(area, row + 0x40, len),
        Posted::Bits => move_to(area, row + 0x58, len),
        Posted::Unknown => move_to(area, row + 0x60, len),
        Posted::Nothing => None,
    }
}

// The bytes of Data, which begin at byte 4 of the frame.
fn carried(wrote: Option<Wrote>) -> Option<Carried>
    ensures { result ≡ carried_by wrote }
{
    let wrote = wrote?;
    Some(Carried {
        slot: wrote.slot,
        offset: wrote.offset,
        from: 4,
        len: wrote.len,
    })
}

// The bits of PxSERR.ERR of a fault: P, or E where the port stops.
fn errors_of(report: &TakeReport) -> u16
    ensures { result ≡ error_bits report.now }
{
    if report.stopped.is_some() {
        return 0x800;
    }
    match report.fault {
        Some(DeviceCause::TaskFile | DeviceCause::Overflow) | None => 0,
        Some(_) => 0x400,
    }
}

// Whether a report tells of a fault. Only then does it concern a slot.
fn is_faulty(report: &TakeReport) -> bool
    ensures { result ≡ (is_some report.now.fault || is_some report.now.stopped) }
{
    report.fault.is_some() || report.stopped.is_some()
}

impl Wants {
    // A FIS of a device came: what was wanted for its Data is wanted anew, if it still is.
    pub(crate) fn heard(&mut self, dev: u8)
        requires { dev < 16 }
        ensures { self.new ≡ record self.old { feeding = without_of self.old.feeding (2 ^ dev) } }
    {
        self.feeding = without(self.feeding, 1 << dev);
    }
}

impl Writes {
    // Whether something is to be written.
    pub(crate) fn is_any(&self) -> bool
        ensures { result ≡ is_any_of self.now }
    {
        self.payload.is_some() || self.posted.is_some() || self.counted != 0
    }
}

impl OwnRegisters {
    // After a report: its errors stand, and CCS is the slot that it is about, if it tells of a fault.
    fn blamed(self, report: &TakeReport, slot: Option<u8>) -> OwnRegisters
        ensures { result ≡ blamed_by self report.now slot }
    {
        OwnRegisters {
            errors: self.errors | errors_of(report),
            current: if is_faulty(report) {
                slot.unwrap_or(self.current)
            } else {
                self.current
            },
            ..self
        }
    }
}

// The bytes of Data that a frame has.
fn payload(frame: &Frame) -> u32
    ensures { result ≡ payload_of (seen frame.now.bytes) }
{
    match frame.fis() {
        Ok(Fis::Payload(fis)) => fis.payload().len() as u32,
        _ => 0,
    }
}

// Where an accepted setup says that the next Data begin.
fn set(frame: &Frame) -> Option<u32>
    ensures { result ≡ set_at_of (seen frame.now.bytes) }
{
    match frame.fis() {
        Ok(Fis::DmaSetup(fis)) => Some(fis.offset()),
        _ => None,
    }
}

// Of Data whose last bytes go past the table, those that have a place.
fn part(command: &Command, slot: u8, offset: u32, len: u32) -> Option<Wrote>
    ensures { result ≡ part_in_of command.now slot offset len }
{
    let room = len.min(command.table().reach().saturating_sub(offset));
    if room == 0 || room == len {
        return None;
    }
    Some(Wrote {
        slot,
        offset,
        len: room,
    })
}

fn is_overflow(fault: Option<DeviceCause>) -> bool
    ensures { result ≡ is_overflow_of fault }
{
    matches!(fault, Some(DeviceCause::Overflow))
}

// Where the next Data of a device begin, after a report.
fn cursor(was: u32, set: Option<u32>, report: &TakeReport) -> u32
    ensures { result ≡ cursor_from was set report.now }
{
    match report.wrote {
        Some(wrote) => wrote.offset.saturating_add(wrote.len),
        None if report.ignored || report.fault.is_some() || report.stopped.is_some() => was,
        None => set.unwrap_or(was),
    }
}

impl Parts {
    // Of Data of a device that go past their table, the bytes that have a place.
    fn part(&self, dev: u8, len: u32) -> Option<Wrote>
        requires { dev < 16 }
        ensures { result ≡ part_of self.now dev len }
    {
        let slot = self.core.receiving(dev)?;
        let offset = self.cursors[dev as usize];
        match &self.commands[slot as usize] {
            Some(command) => part(command, slot, offset, len),
            None => None,
        }
    }

    // Of a frame that is to be taken, the bytes that it brings should the core call it an overflow.
    fn spare(&self, frame: &Frame) -> Option<Wrote>
        ensures { result ≡ part_of self.now (port_of frame.now.bytes) (payload_of (seen frame.now.bytes)) }
    {
        match payload(frame) {
            0 => None,
            len => self.part(frame.pm_port(), len),
        }
    }

    // How many bytes the table has places for of the command for which a device sends Data.
    fn room(&self, dev: u8) -> Room
        requires { dev < 16 }
        ensures { result ≡ room_for self.now dev }
    {
        let Some(slot) = self.core.receiving(dev) else {
            return Room::Whole;
        };
        match &self.commands[slot as usize] {
            Some(command) => Room::Bytes(command.table().reach()),
            None => Room::Bytes(0),
        }
    }

    // Why no FIS is taken now.
    fn hindrance(&self) -> Option<Hindrance>
        ensures { result ≡ hindrance_of self.now }
    {
        if !is_up(self.link.action()) {
            return Some(Hindrance::LinkDown);
        }
        if self.own.is_failed() {
            return Some(Hindrance::Failed);
        }
        if !(self.own.receives && self.core.registers().receives) {
            return Some(Hindrance::NotReceiving);
        }
        self.writes.is_any().then_some(Hindrance::Writing)
    }

    // The core takes the frame, or greets it while ST is 0.
    fn give(&mut self, frame: &Frame) -> TakeReport
        requires { self.old.core.registers.receives ≡ true }
        ensures core { CoreHears self.old frame.now.bytes result self.new.core }
        ensures why { why_ignored self.new.core frame.now.bytes result.ignored
            ≡ why_ignored self.old.core frame.now.bytes result.ignored }
        ensures rest { self.new ≡ record self.old { core = self.new.core } }
    {
        if self.core.registers().started {
            let room = self.room(frame.pm_port());
            self.core.take(room, frame)
        } else {
            self.core.greet(frame)
        }
    }

    // Why the core ignored the frame, if it did. Then it is as it was before.
    fn why(&self, frame: &Frame, report: &TakeReport) -> Option<Ignored>
        ensures { result ≡ why_ignored self.now.core frame.now.bytes report.now.ignored }
    {
        if report.ignored {
            self.core.why_ignored(frame)
        } else {
            None
        }
    }

    // What is to be written to the guest for a frame.
    fn writes_for(
        &self,
        switching: bool,
        frame: &Frame,
        report: &TakeReport,
        counted: u32,
    ) -> Writes
        ensures { result ≡ writes_of self.now switching frame.now.bytes report.now counted }
    {
        let len = frame.bytes().len();
        let row = row(switching, frame.pm_port());
        Writes {
            payload: carried(report.wrote),
            posted: posting(self.own.area(), row, report.posted, len),
            counted,
        }
    }

    // What is to be written to the guest is this.
    fn hold(&mut self, writes: Writes)
        ensures { self.new ≡ record self.old { writes = writes } }
    {
        self.writes = writes;
    }

    // What a report says of a device stands in the registers, and what was wanted for its Data is wanted anew.
    fn blame(&mut self, dev: u8, report: &TakeReport)
        requires { dev < 16 }
        ensures { self.new ≡ blamed_state self.old dev report.now }
    {
        self.wants.heard(dev);
        if is_faulty(report) {
            self.own = self.own.blamed(report, self.core.concerned(dev));
        } else {
            self.own = self.own.blamed(report, None);
        }
    }

    // The next Data of the frame's device begin elsewhere.
    fn advance(&mut self, frame: &Frame, report: &TakeReport)
        ensures { self.new ≡ record self.old { cursors = cursors_after self.old frame.now.bytes report.now } }
    {
        let dev = frame.pm_port() as usize;
        self.cursors[dev] = cursor(self.cursors[dev], set(frame), report);
    }

    // The bits that the core set in its PxIS since that read `was` become causes, and these. Answers whether a message is due.
    fn cause(&mut self, was: u32, processed: u32) -> bool
        ensures after { self.new ≡ record self.old {
          latch = latched self.old.latch (LineEvent.Caused (bit_or (causes_since was self.old.core) processed));
        } }
        ensures due { result
            ≡ is_due self.old.latch.lines (LineEvent.Caused (bit_or (causes_since was self.old.core) processed)) }
    {
        let causes = interrupts(new_bits(was, &self.core) | processed);
        self.latch.caused(causes)
    }

    // A report is settled. Answers whether a message is due.
    fn settle(&mut self, was: u32, switching: bool, frame: &Frame, report: &TakeReport) -> bool
        ensures after { self.new ≡ settled self.old was switching frame.now.bytes report.now }
        ensures due { result
            ≡ is_due self.old.latch.lines (LineEvent.Caused (told_by self.old was self.old.core report.now)) }
    {
        let processed = self.processed(report.wrote);
        self.moved(report.wrote);
        let writes = self.writes_for(switching, frame, report, self.writes.counted);
        self.hold(writes);
        self.advance(frame, report);
        self.blame(frame.pm_port(), report);
        self.cause(was, processed)
    }

    fn hear(&mut self, frame: &Frame) -> Took
        requires { self.old.core.registers.receives ≡ true }
        ensures { Hears self.old frame.now.bytes result self.new }
    {
        let level = self.line();
        let was = status(&self.core);
        let switching = self.core.registers().switching;
        let spare = self.spare(frame);
        let report = self.give(frame);
        let ignored = self.why(frame, &report);
        let brought = if is_overflow(report.fault) {
            spare
        } else {
            report.wrote
        };
        let filled = TakeReport {
            wrote: brought,
            ..report
        };
        let message = self.settle(was, switching, frame, &filled);
        Took {
            report,
            ignored,
            brought,
            message,
            line: Edge::between(level, self.line()),
        }
    }

    /// Takes a FIS of a device, or of the control port. What is to be written to the guest for it is answered by
    /// [`next`](Parts::next), before anything else; as long as its payload is, the caller holds the frame. The guest is to
    /// see its registers only after that.
    pub fn take(&mut self, frame: &Frame) -> Result<Took, Hindrance>
        ensures hindrance { result_err result ≡ hindrance_of self.old }
        ensures kept { OnErr result (self.new ≡ self.old) }
        ensures taken { IfOk result (λ took. Hears self.old frame.now.bytes took self.new) }
    {
        if let Some(hindrance) = self.hindrance() {
            return Err(hindrance);
        }
        Ok(self.hear(frame))
    }
}
