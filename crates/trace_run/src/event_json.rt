//! A step as an object of JSON.

use crate::event::{Ending, Event, EventText, Hearing, Mark, Upshot};
use crate::reason::Reason;
use crate::text::write_outcome;
use crate::tickets::{SlotArray, Tickets};
use hba_driver::Outcome;
use std::fmt;
use trace_text::{Compared, FrameShort};

/// A step as an object of JSON, in one line. No string of it needs an escape.
#[derive(Drop)]
pub struct EventJson<'a, 'b> {
    pub event: &'b Event<'a>,
    pub tickets: &'b Tickets,
    /// Whether it has the bytes of its FIS.
    pub has_bytes: bool,
}

impl fmt::Display for EventJson<'_, '_> {
    fn fmt<W: fmt::Write>(&self, f: &mut fmt::Formatter<W>) -> fmt::Result {
        let (event, tickets) = (self.event, self.tickets);
        write_act(event, f)?;
        write_place(event, f)?;
        write_frame(event, f)?;
        if self.has_bytes {
            write_bytes(event, f)?;
        }
        write_slots(event, tickets, f)?;
        write_ends(event, tickets, f)?;
        let text = EventText { event, tickets };
        write!(f, ",\"text\":\"{text}\"}}")
    }
}

/// Writes which step it is, who did what, and between which ends.
fn write_act<W: fmt::Write>(event: &Event<'_>, f: &mut fmt::Formatter<W>) -> fmt::Result {
    let (number, name) = (event.number, event.act.name());
    let (from, to) = event.act.ends();
    write!(f, "{{\"step\":{number},\"act\":\"{name}\"")?;
    write!(f, ",\"from\":\"{from}\",\"to\":\"{to}\"")
}

/// Writes which way it goes, and at which port.
fn write_place<W: fmt::Write>(event: &Event<'_>, f: &mut fmt::Formatter<W>) -> fmt::Result {
    if let Some(way) = event.act.way() {
        write!(f, ",\"way\":\"{way}\"")?;
    }
    match event.port {
        Some(port) => write!(f, ",\"port\":{port}"),
        None => Ok(()),
    }
}

fn write_frame<W: fmt::Write>(event: &Event<'_>, f: &mut fmt::Formatter<W>) -> fmt::Result {
    if let Some(mark) = event.mark {
        write_mark(mark, f)?;
    }
    match event.frame {
        Some(frame) => write!(f, ",\"frame\":\"{}\"", FrameShort(frame)),
        None => Ok(()),
    }
}

/// Writes the bytes of its FIS, two digits each.
fn write_bytes<W: fmt::Write>(event: &Event<'_>, f: &mut fmt::Formatter<W>) -> fmt::Result {
    let Some(frame) = event.frame else {
        return Ok(());
    };
    f.write_str(",\"bytes\":\"")?;
    for byte in frame {
        write!(f, "{byte:02x}")?;
    }
    f.write_str("\"")
}

fn write_mark<W: fmt::Write>(mark: Mark, f: &mut fmt::Formatter<W>) -> fmt::Result {
    write!(f, ",\"fis\":{}", mark.number)?;
    match mark.conn {
        Some(conn) => write!(f, ",\"conn\":{conn}"),
        None => Ok(()),
    }
}

fn write_slots<W: fmt::Write>(
    event: &Event<'_>,
    tickets: &Tickets,
    f: &mut fmt::Formatter<W>,
) -> fmt::Result {
    let mask = event.all_slots();
    if mask == 0 {
        return Ok(());
    }
    let slots = SlotArray {
        mask,
        tickets: None,
    };
    write!(f, ",\"slots\":{slots}")?;
    let named = SlotArray {
        mask,
        tickets: Some(tickets),
    };
    write!(f, ",\"tickets\":{named}")
}

/// Writes what came of the step.
fn write_ends<W: fmt::Write>(
    event: &Event<'_>,
    tickets: &Tickets,
    f: &mut fmt::Formatter<W>,
) -> fmt::Result {
    match event.upshot {
        Upshot::Report(hearing) => write_hearing(hearing, f),
        Upshot::Dropped(why) => write!(f, ",\"dropped\":\"{why}\""),
        Upshot::Closed(closed) => write!(f, ",\"dropped\":\"{closed}\""),
        Upshot::Connection { conn, is_gone, .. } => {
            write!(f, ",\"conn\":{conn},\"gone\":{is_gone}")?;
            match event.dropped(tickets) {
                Some(dropped) => write!(f, ",\"dropped\":\"{dropped}\""),
                None => Ok(()),
            }
        }
        Upshot::Submitted(_) => f.write_str(",\"submitted\":true"),
        Upshot::Polled(ending) => write_ending(ending, f),
        _ => Ok(()),
    }
}

/// Writes what the host port did with a FIS.
fn write_hearing<W: fmt::Write>(hearing: Hearing, f: &mut fmt::Formatter<W>) -> fmt::Result {
    if let Some(cause) = hearing.fault() {
        write!(f, ",\"fault\":\"{cause}\"")?;
    }
    if let Some(Compared { found, wanted }) = hearing.compared {
        write!(f, ",\"found\":\"{found}\",\"wanted\":\"{wanted}\"")?;
    }
    if let Some(first) = hearing.follows {
        write!(f, ",\"follows\":\"{first}\"")?;
    }
    if let Some(log) = hearing.log {
        write!(f, ",\"log\":\"{log}\"")?;
    }
    match hearing.report.done {
        _ if hearing.report.ignored => f.write_str(",\"ignored\":true"),
        0 => Ok(()),
        done => write_done(done, f),
    }
}

/// Writes which slots a FIS ended.
fn write_done<W: fmt::Write>(mask: u32, f: &mut fmt::Formatter<W>) -> fmt::Result {
    let done = SlotArray {
        mask,
        tickets: None,
    };
    write!(f, ",\"done\":{done}")
}

/// Writes how a request ended, and why.
fn write_ending<W: fmt::Write>(ending: Ending, f: &mut fmt::Formatter<W>) -> fmt::Result {
    f.write_str(",\"ended\":\"")?;
    write_outcome(ending.completion.outcome, f)?;
    f.write_str("\"")?;
    match (ending.completion.outcome, ending.reason) {
        (Outcome::DeviceError { .. }, Some(Reason::Named(lba))) => write!(f, ",\"lba\":{lba}"),
        (Outcome::Aborted, Some(reason)) => write!(f, ",\"by\":\"{reason}\""),
        _ => Ok(()),
    }
}
