//! What a step that moved something tells about itself.

use crate::places::Waiting;
use crate::reason::{Fault, Reason};
use crate::tickets::{Asked, AskedList, SlotList, Tickets};
use fis_view::Frame;
use hba_driver::{Completion, Outcome};
use hba_fbs::TakeReport;
use std::fmt;
use trace_text::{
    Closed, Compared, ErrorLog, ErrorText, FrameShort, StatusText, bit_of, device_fault,
    named_slots, port_fault,
};

/// Who did what in a step.
#[derive(Clone, Copy)]
pub enum Act {
    /// The device at this port was plugged in.
    Came(u8),
    /// The device at this port was unplugged.
    Gone(u8),
    /// The multiplier's port recorded that its device came or went.
    Records(u8),
    /// The device at this port sent a FIS.
    DiskSends(u8),
    /// The device at this port took a FIS.
    DiskTakes(u8),
    /// The multiplier's port took a FIS of its device.
    PmTakesUp(u8),
    /// The multiplier sent a FIS of this port to the host, 15 for its control port.
    PmSendsUp(u8),
    /// The multiplier took a FIS of the host.
    PmTakesDown,
    /// The multiplier's port sent a FIS to its device.
    PmSendsDown(u8),
    /// The host port took a FIS.
    HostTakes(u8),
    /// The host port sent a FIS.
    HostSends,
    /// The driver did something.
    Drives,
}

impl Act {
    /// Its name.
    pub fn name(self) -> &'static str {
        match self {
            Act::Came(_) => "came",
            Act::Gone(_) => "gone",
            Act::Records(_) => "records",
            Act::DiskSends(_) | Act::PmSendsUp(_) | Act::PmSendsDown(_) | Act::HostSends => "sends",
            Act::DiskTakes(_) | Act::PmTakesUp(_) | Act::PmTakesDown | Act::HostTakes(_) => "takes",
            Act::Drives => "drives",
        }
    }

    /// The direction of the FIS that it moves, if it moves one.
    pub fn way(self) -> Option<&'static str> {
        match self {
            Act::DiskSends(_) | Act::PmTakesUp(_) | Act::PmSendsUp(_) | Act::HostTakes(_) => Some(
                "up",
            ),
            Act::HostSends | Act::PmTakesDown | Act::PmSendsDown(_) | Act::DiskTakes(_) => Some(
                "down",
            ),
            Act::Came(_) | Act::Gone(_) | Act::Records(_) | Act::Drives => None,
        }
    }

    /// The two ends between which it goes: the one that had it, and the one that has it.
    pub fn ends(self) -> (&'static str, &'static str) {
        match self {
            Act::Came(_) | Act::Gone(_) | Act::Records(_) => ("disk", "pm"),
            Act::DiskSends(_) | Act::PmTakesUp(_) => ("disk", "pm"),
            Act::PmSendsUp(_) | Act::HostTakes(_) => ("pm", "host"),
            Act::HostSends | Act::PmTakesDown => ("host", "pm"),
            Act::PmSendsDown(_) | Act::DiskTakes(_) => ("pm", "disk"),
            Act::Drives => ("driver", "host"),
        }
    }
}

/// What came of a step.
#[derive(Clone, Copy)]
pub enum Upshot {
    /// Nothing more than what the act says.
    Plain,
    /// The host port did this with a FIS.
    Report(Hearing),
    /// The FIS was let go.
    Dropped(&'static str),
    /// The multiplier let the FIS go, whose port passes none.
    Closed(Closed),
    /// The control port heard it.
    Control,
    /// A connection came or went, and this many frames were dropped because of that.
    Connection {
        conn: u32,
        is_gone: bool,
        dropped: u32,
    },
    /// The driver took a request.
    Submitted(Asked),
    /// A request ended.
    Polled(Ending),
    /// Bytes were put to client memory.
    Put {
        at: u32,
        len: usize,
    },
}

/// What the host port did with a FIS, and what that tells.
#[derive(Clone, Copy)]
pub struct Hearing {
    pub report: TakeReport,
    /// The log of a device that it brought.
    pub log: Option<ErrorLog>,
    /// The slots of the requests one of which the device failed.
    pub failed: u32,
    /// What its fault compares, if that is known.
    pub compared: Option<Compared>,
    /// The earlier fault of the device but for which this would not have happened.
    pub follows: Option<Fault>,
}

/// How a request ended.
#[derive(Clone, Copy)]
pub struct Ending {
    pub completion: Completion,
    /// Why it was not done, as far as that is known.
    pub reason: Option<Reason>,
}

impl Hearing {
    /// The name of the cause of the fault that it made.
    pub fn fault(self) -> Option<&'static str> {
        match (self.report.fault, self.report.stopped) {
            (Some(cause), _) => Some(device_fault(cause)),
            (None, Some(cause)) => Some(port_fault(cause)),
            (None, None) => None,
        }
    }
}

impl Upshot {
    /// Whether it is a fault, its log, a drop, a removal or the end of a request that was not done.
    pub fn is_trouble(self) -> bool {
        match self {
            Upshot::Report(hearing) => {
                hearing.fault().is_some() || hearing.report.ignored || hearing.log.is_some()
            }
            Upshot::Dropped(_) | Upshot::Closed(_) => true,
            Upshot::Connection { is_gone, .. } => is_gone,
            Upshot::Polled(ending) => ending.completion.outcome != Outcome::Done,
            Upshot::Plain | Upshot::Control | Upshot::Submitted(_) | Upshot::Put { .. } => false,
        }
    }
}

/// The connection of a FIS, and its number there. A FIS of the host has only a number.
#[derive(Clone, Copy)]
pub struct Mark {
    pub conn: Option<u32>,
    pub number: u32,
}

impl fmt::Display for Mark {
    fn fmt<W: fmt::Write>(&self, f: &mut fmt::Formatter<W>) -> fmt::Result {
        if let Some(conn) = self.conn {
            write!(f, " conn {conn}")?;
        }
        write!(f, " fis {}", self.number)
    }
}

/// A step that moved something.
#[derive(Drop)]
pub struct Event<'a> {
    /// Its number among the steps that moved something, from 1.
    pub number: u64,
    pub act: Act,
    /// The port that it concerns, 15 for the control port.
    pub port: Option<u8>,
    /// The connection and the number of the FIS that moved.
    pub mark: Option<Mark>,
    /// The bytes of that FIS.
    pub frame: Option<&'a [u8]>,
    /// The slots that it names, or that the driver issued.
    pub slots: u32,
    pub upshot: Upshot,
    /// The frames that were dropped because their device went.
    pub lost: Option<&'a Waiting>,
    /// The registers of the host port before and after.
    pub registers: Option<Change>,
}

/// What the driver changed in the registers of the host port.
#[derive(Clone, Copy)]
pub struct Change {
    pub before: Registers,
    pub after: Registers,
}

/// What the registers of the host port that the driver writes show.
#[derive(Clone, Copy, PartialEq)]
pub struct Registers {
    pub clb: u32,
    pub clbu: u32,
    pub fb: u32,
    pub fbu: u32,
    pub interrupts: u32,
    pub cmd: u32,
    pub serr: u32,
    pub sact: u32,
    pub ci: u32,
    pub sntf: u32,
    pub fbs: u32,
}

impl Change {
    /// The slots that the driver issued.
    pub fn issued(self) -> u32 {
        let before = self.before.sact | self.before.ci;
        let after = self.after.sact | self.after.ci;
        after & !before
    }

    /// The registers that changed, except those that issue a slot: name, before, after.
    pub fn others(self) -> [(&'static str, u32, u32); 9] {
        let Change { before, after } = self;
        [
            ("clb", before.clb, after.clb),
            ("clbu", before.clbu, after.clbu),
            ("fb", before.fb, after.fb),
            ("fbu", before.fbu, after.fbu),
            ("is", before.interrupts, after.interrupts),
            ("cmd", before.cmd, after.cmd),
            ("serr", before.serr, after.serr),
            ("sntf", before.sntf, after.sntf),
            ("fbs", before.fbs, after.fbs),
        ]
    }
}

impl Event<'static> {
    /// An act without a FIS, with no number yet.
    pub fn plain(act: Act, port: Option<u8>, upshot: Upshot) -> Event<'static> {
        Event {
            number: 0,
            act,
            port,
            mark: None,
            frame: None,
            slots: 0,
            upshot,
            lost: None,
            registers: None,
        }
    }
}

impl Event<'_> {
    /// The slots of the FIS, of what it did, and of what the driver issued.
    pub fn all_slots(&self) -> u32 {
        let named = match (self.frame, self.act) {
            (Some(frame), Act::PmTakesDown | Act::HostSends) => named_slots(frame),
            (Some(frame), _) if self.port != Some(15) => named_slots(frame),
            _ => 0,
        };
        self.slots | named
    }
}

/// A step in one line of text.
#[derive(Drop)]
pub struct EventText<'a, 'b> {
    pub event: &'b Event<'a>,
    pub tickets: &'b Tickets,
}

impl fmt::Display for EventText<'_, '_> {
    fn fmt<W: fmt::Write>(&self, f: &mut fmt::Formatter<W>) -> fmt::Result {
        let event = self.event;
        write!(f, "#{} ", event.number)?;
        write_act(event, f)?;
        write_moved(event, f)?;
        write_slots(event, self.tickets, f)?;
        write_change(event, f)?;
        write_upshot(event, self.tickets, f)
    }
}

/// Writes which FIS moved.
fn write_moved<W: fmt::Write>(event: &Event<'_>, f: &mut fmt::Formatter<W>) -> fmt::Result {
    if let Some(mark) = event.mark {
        write!(f, "{mark}")?;
    }
    match event.frame {
        Some(frame) => write!(f, ": {}", FrameShort(frame)),
        None => Ok(()),
    }
}

/// Writes which slots it names, or the driver issued.
fn write_slots<W: fmt::Write>(
    event: &Event<'_>,
    tickets: &Tickets,
    f: &mut fmt::Formatter<W>,
) -> fmt::Result {
    let mask = event.all_slots();
    if mask == 0 {
        return Ok(());
    }
    write!(f, ", {}", SlotList { mask, tickets })
}

/// Writes who did what.
fn write_act<W: fmt::Write>(event: &Event<'_>, f: &mut fmt::Formatter<W>) -> fmt::Result {
    match event.act {
        Act::Came(n) | Act::Gone(n) => write!(f, "disk {n}"),
        Act::Records(n) => write!(f, "pm records at port {n}"),
        Act::HostSends => write_down("down host -> pm", event.port, f),
        Act::PmTakesDown => write_down("down pm takes", event.port, f),
        Act::PmSendsDown(n) => write!(f, "down pm port {n} -> disk {n}"),
        Act::DiskTakes(n) => write!(f, "down disk {n} takes"),
        Act::Drives => write_down("driver", event.port, f),
        upwards => write_up(upwards, f),
    }
}

/// Writes who moved a FIS on its way up.
fn write_up<W: fmt::Write>(act: Act, f: &mut fmt::Formatter<W>) -> fmt::Result {
    match act {
        Act::DiskSends(n) => write!(f, "up disk {n} -> pm"),
        Act::PmTakesUp(n) => write!(f, "up pm takes at port {n}"),
        Act::PmSendsUp(15) => f.write_str("up pm control port -> host"),
        Act::PmSendsUp(n) => write!(f, "up pm port {n} -> host"),
        Act::HostTakes(15) => f.write_str("up host takes from pm control port"),
        Act::HostTakes(n) => write!(f, "up host takes from port {n}"),
        _ => Ok(()),
    }
}

fn write_down<W: fmt::Write>(
    who: &str,
    port: Option<u8>,
    f: &mut fmt::Formatter<W>,
) -> fmt::Result {
    match port {
        None => f.write_str(who),
        Some(15) => write!(f, "{who}, control port"),
        Some(n) => write!(f, "{who}, port {n}"),
    }
}

/// Writes what the driver did to the registers.
fn write_change<W: fmt::Write>(event: &Event<'_>, f: &mut fmt::Formatter<W>) -> fmt::Result {
    let Some(change) = event.registers else {
        return Ok(());
    };
    if change.issued() != 0 {
        f.write_str(", issued")?;
    }
    for (name, before, after) in change.others().iter() {
        if before != after {
            write!(f, ", {name} {before:08x} -> {after:08x}")?;
        }
    }
    if change.before == change.after {
        f.write_str(
            ": no register changed (it wrote what stood there, read an answer, or ended requests)",
        )?;
    }
    Ok(())
}

/// Writes what came of a step.
fn write_upshot<W: fmt::Write>(
    event: &Event<'_>,
    tickets: &Tickets,
    f: &mut fmt::Formatter<W>,
) -> fmt::Result {
    match event.upshot {
        Upshot::Plain => Ok(()),
        Upshot::Report(hearing) => write_hearing(hearing, tickets, f),
        Upshot::Dropped(why) => write!(f, "; dropped: {why}"),
        Upshot::Closed(closed) => write!(f, "; dropped: {closed}"),
        Upshot::Control => f.write_str("; heard by the control port"),
        Upshot::Connection { conn, is_gone, .. } => {
            let what = if is_gone { "went" } else { "came" };
            write!(f, ", conn {conn} {what}")?;
            match event.dropped(tickets) {
                Some(dropped) => write!(f, "; dropped: {dropped}"),
                None => Ok(()),
            }
        }
        Upshot::Submitted(asked) => write!(f, " takes a request: {asked}"),
        Upshot::Polled(ending) => write_polled(ending, tickets, f),
        Upshot::Put { at, len } => write!(f, " puts {len} bytes at {at:x}"),
    }
}

/// The frames that were dropped because their device went, as words.
#[derive(Drop)]
pub struct Dropped<'a, 'b> {
    /// How many were dropped on their way down.
    count: u32,
    lost: Option<&'a Waiting>,
    tickets: &'b Tickets,
}

impl Event<'_> {
    /// The frames that were dropped because their device went; None if there are none.
    pub fn dropped<'b>(&'b self, tickets: &'b Tickets) -> Option<Dropped<'b, 'b>> {
        let Upshot::Connection { dropped, .. } = self.upshot else {
            return None;
        };
        let is_lost = match self.lost {
            Some(lost) => lost.up.is_some() || lost.down.is_some(),
            None => false,
        };
        (is_lost || dropped > 0).then_some(Dropped {
            count: dropped,
            lost: self.lost,
            tickets,
        })
    }
}

impl fmt::Display for Dropped<'_, '_> {
    fn fmt<W: fmt::Write>(&self, f: &mut fmt::Formatter<W>) -> fmt::Result {
        let (down, up) = match self.lost {
            Some(lost) => (lost.down.as_ref(), lost.up.as_ref()),
            None => (None, None),
        };
        match (down, up) {
            (Some(down), Some(up)) => {
                write_lost("down", down, self.tickets, f)?;
                f.write_str(" and ")?;
                write_lost("up", up, self.tickets, f)
            }
            (Some(down), None) => write_lost("down", down, self.tickets, f),
            (None, Some(up)) => write_lost("up", up, self.tickets, f),
            (None, None) => write!(f, "{} frames", self.count),
        }
    }
}

/// Writes which frame was dropped on this way.
fn write_lost<W: fmt::Write>(
    way: &str,
    frame: &Frame,
    tickets: &Tickets,
    f: &mut fmt::Formatter<W>,
) -> fmt::Result {
    let number = frame.stamp().number;
    write!(f, "{way} fis {number}: {}", FrameShort(frame.bytes()))?;
    match named_slots(frame.bytes()) {
        0 => Ok(()),
        mask => write!(f, ", {}", SlotList { mask, tickets }),
    }
}

/// Writes how a request ended, and what it asked.
fn write_polled<W: fmt::Write>(
    ending: Ending,
    tickets: &Tickets,
    f: &mut fmt::Formatter<W>,
) -> fmt::Result {
    f.write_str(" tells ")?;
    write_ending(ending, f)?;
    match tickets.asked(ending.completion.slot) {
        Some(asked) => write!(f, ": {asked}"),
        None => Ok(()),
    }
}

/// Writes how a request ended, and why.
fn write_ending<W: fmt::Write>(ending: Ending, f: &mut fmt::Formatter<W>) -> fmt::Result {
    match (ending.completion.outcome, ending.reason) {
        (Outcome::DeviceError { status, error }, reason) => {
            let error = ErrorText { status, error };
            write!(f, "device-error {} {error}", StatusText(status))?;
            match reason {
                Some(Reason::Named(lba)) => write!(f, " at lba {lba}"),
                _ => Ok(()),
            }
        }
        (Outcome::Aborted, Some(reason)) => write!(f, "aborted by {reason}"),
        (outcome, _) => f.write_str(outcome_name(outcome)),
    }
}

/// The name of how a request ended.
fn outcome_name(outcome: Outcome) -> &'static str {
    match outcome {
        Outcome::Done => "done",
        Outcome::DeviceError { .. } => "device-error",
        Outcome::Aborted => "aborted",
        Outcome::Removed => "removed",
        Outcome::PortError => "port-error",
    }
}

/// Writes what the host port did with a FIS.
fn write_hearing<W: fmt::Write>(
    hearing: Hearing,
    tickets: &Tickets,
    f: &mut fmt::Formatter<W>,
) -> fmt::Result {
    let report = hearing.report;
    if report.ignored {
        f.write_str("; taken by nobody")?;
        return write_first(hearing.follows, f);
    }
    write_range(report, tickets, f)?;
    write_done(report.done, tickets, f)?;
    if let Some(log) = hearing.log {
        write!(f, "; log 10h: {log}")?;
    }
    let Some(cause) = hearing.fault() else {
        return Ok(());
    };
    write!(f, "; fault {cause}")?;
    if let Some(compared) = hearing.compared {
        write!(f, "{compared}")?;
    }
    write_first(hearing.follows, f)?;
    match hearing.failed {
        0 => Ok(()),
        mask => write!(f, " of {}", AskedList { mask, tickets }),
    }
}

/// Writes from which earlier fault this follows.
fn write_first<W: fmt::Write>(first: Option<Fault>, f: &mut fmt::Formatter<W>) -> fmt::Result {
    match first {
        Some(first) => write!(f, ", follows from {first}"),
        None => Ok(()),
    }
}

/// Writes which bytes of a request came with a FIS.
fn write_range<W: fmt::Write>(
    report: TakeReport,
    tickets: &Tickets,
    f: &mut fmt::Formatter<W>,
) -> fmt::Result {
    let Some(wrote) = report.wrote else {
        return Ok(());
    };
    let mask = bit_of(wrote.slot);
    let end = wrote.offset.saturating_add(wrote.len);
    write!(f, "; bytes {} to {end} of ", wrote.offset)?;
    write!(f, "{}", SlotList { mask, tickets })
}

/// Writes which slots a FIS ended.
fn write_done<W: fmt::Write>(
    mask: u32,
    tickets: &Tickets,
    f: &mut fmt::Formatter<W>,
) -> fmt::Result {
    if mask == 0 {
        return Ok(());
    }
    write!(f, "; done {}", SlotList { mask, tickets })
}
