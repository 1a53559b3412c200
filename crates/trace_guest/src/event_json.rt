//! A thing that a trace tells of, as an object of JSON.

use crate::event::{Access, Event, Fetch, Hearing, Moved, Outcome, Part, Put, Store, Stored};
use crate::event_text::{AskedWords, write_answer};
use crate::register_text::{BitsArray, name_of};
use ahci_controller::Hindrance;
use ahci_registers::Register;
use std::fmt;
use trace_text::{Compared, FrameShort, bit_of, device_fault, named_slots, port_fault};

/// What a trace tells of, as an object of JSON in one line. No string of it needs an escape.
#[derive(Drop)]
pub struct EventJson<'a, 'b> {
    /// Its number among all that is told, from 1.
    pub step: u64,
    pub event: &'b Event<'a>,
}

/// What is done, by which unit, and to which.
#[derive(Clone, Copy)]
struct Sides {
    act: &'static str,
    from: &'static str,
    to: &'static str,
}

impl Sides {
    fn new(act: &'static str, from: &'static str, to: &'static str) -> Sides {
        Sides { act, from, to }
    }
}

impl fmt::Display for EventJson<'_, '_> {
    fn fmt<W: fmt::Write>(&self, f: &mut fmt::Formatter<W>) -> fmt::Result {
        let (step, event) = (self.step, self.event);
        let Sides { act, from, to } = sides_of(event);
        write!(f, "{{\"step\":{step},\"act\":\"{act}\"")?;
        write!(f, ",\"from\":\"{from}\",\"to\":\"{to}\"")?;
        match event {
            Event::Moves(moved) => write_moved(moved, f)?,
            other => {
                write_port(port_of(other), f)?;
                write_slots(slots_of(other), f)?;
                write_more(other, f)?;
            }
        }
        write!(f, ",\"text\":\"{event}\"}}")
    }
}

/// Who does what.
fn sides_of(event: &Event<'_>) -> Sides {
    match event {
        Event::Reads(_) => Sides::new("reads", "driver", "host"),
        Event::Writes(_) => Sides::new("writes", "driver", "host"),
        Event::Puts(_) => Sides::new("puts", "driver", "memory"),
        Event::Ignores(_) => Sides::new("ignores", "host", "driver"),
        Event::Warns(_) => Sides::new("warns", "host", "driver"),
        Event::Ends(_) => Sides::new("ends", "host", "driver"),
        Event::Line(_) => Sides::new("line", "host", "driver"),
        Event::Fetches(_) => Sides::new("fetches", "memory", "host"),
        Event::Issues { .. } => Sides::new("issues", "host", "host"),
        Event::Refuses(_) | Event::Misses(_) => Sides::new("refuses", "host", "driver"),
        Event::Moves(moved) => sides_of_moved(moved),
        Event::Drops(_) => Sides::new("drops", "pm", "disk"),
        Event::Unheard { .. } => Sides::new("unheard", "pm", "disk"),
        Event::Stores(_) => Sides::new("stores", "host", "memory"),
        Event::Asks { .. } => Sides::new("asks", "disk", "medium"),
        Event::Open(_) => Sides::new("open", "host", "driver"),
    }
}

fn sides_of_moved(moved: &Moved<'_>) -> Sides {
    match moved.way {
        "down" => Sides::new("sends", "host", "pm"),
        "up" => Sides::new("sends", "pm", "host"),
        _ => Sides::new("waits", "pm", "host"),
    }
}

/// The port that it concerns.
fn port_of(event: &Event<'_>) -> Option<u8> {
    match event {
        Event::Issues { dev, .. } => Some(*dev),
        Event::Drops(closed) => Some(closed.port),
        Event::Unheard { port, .. } | Event::Asks { port, .. } => Some(*port),
        Event::Fetches(fetch) => match fetch.part {
            Part::Data(port) => Some(port),
            _ => None,
        },
        Event::Open(open) => open.stage.port(),
        _ => None,
    }
}

/// The slots that it concerns, as a mask.
fn slots_of(event: &Event<'_>) -> u32 {
    match event {
        Event::Warns(warning) => warning.slots(),
        Event::Ends(slots) => *slots,
        Event::Issues { slot, .. } | Event::Misses(slot) => bit_of(*slot),
        Event::Refuses(refused) => bit_of(refused.slot),
        Event::Open(open) => bit_of(open.slot),
        Event::Fetches(fetch) => slots_of_part(fetch.part),
        Event::Puts(
            Put {
                part: Some(part),
                ..
            },
        ) => slots_of_part(*part),
        _ => 0,
    }
}

/// The slot of a part of a command, as a mask.
fn slots_of_part(part: Part) -> u32 {
    match part {
        Part::Header(slot) | Part::Fis(slot) | Part::Table(slot) => bit_of(slot),
        Part::Data(_) => 0,
    }
}

fn write_port<W: fmt::Write>(port: Option<u8>, f: &mut fmt::Formatter<W>) -> fmt::Result {
    match port {
        Some(port) => write!(f, ",\"port\":{port}"),
        None => Ok(()),
    }
}

fn write_slots<W: fmt::Write>(mask: u32, f: &mut fmt::Formatter<W>) -> fmt::Result {
    match mask {
        0 => Ok(()),
        mask => write!(f, ",\"slots\":{}", SlotArray(mask)),
    }
}

/// The slots of a mask as an array.
#[derive(Clone, Copy)]
struct SlotArray(u32);

impl fmt::Display for SlotArray {
    fn fmt<W: fmt::Write>(&self, f: &mut fmt::Formatter<W>) -> fmt::Result {
        let mut between = "[";
        for slot in 0..32_u8 {
            if self.0 & bit_of(slot) != 0 {
                write!(f, "{between}{slot}")?;
                between = ",";
            }
        }
        f.write_str(if between == "[" { "[]" } else { "]" })
    }
}

/// Writes what only some things have.
fn write_more<W: fmt::Write>(event: &Event<'_>, f: &mut fmt::Formatter<W>) -> fmt::Result {
    match event {
        Event::Reads(access) | Event::Writes(access) => write_access(*access, f),
        Event::Puts(put) => write_put(*put, f),
        Event::Ignores(why) => write!(f, ",\"why\":\"{why}\""),
        Event::Warns(warning) => write!(f, ",\"section\":\"{}\"", warning.section()),
        Event::Line(is_up) => write!(f, ",\"up\":{is_up}"),
        Event::Fetches(fetch) => write_fetch(fetch, f),
        Event::Drops(closed) => {
            f.write_str(",\"dropped\":\"by the multiplier\"")?;
            write!(f, ",\"why\":\"{closed}\"")
        }
        Event::Unheard { why, .. } => write!(f, ",\"ignored\":true,\"why\":\"{why}\""),
        Event::Stores(store) => write_store(*store, f),
        Event::Asks { what, failed, .. } => {
            write!(f, ",\"asked\":\"{}\",\"answer\":\"", AskedWords(*what))?;
            write_answer(*failed, f)?;
            f.write_str("\"")
        }
        Event::Open(open) => {
            f.write_str(",\"why\":\"")?;
            open.write_reason(f)?;
            f.write_str("\"")
        }
        _ => Ok(()),
    }
}

fn write_access<W: fmt::Write>(access: Access, f: &mut fmt::Formatter<W>) -> fmt::Result {
    let Access { offset, value } = access;
    write!(f, ",\"offset\":\"{offset:x}\",\"value\":\"{value:08x}\"")?;
    match Register::at(offset) {
        Some(register) => {
            let name = name_of(register);
            let bits = BitsArray { register, value };
            write!(f, ",\"register\":\"{name}\",\"bits\":{bits}")
        }
        None => Ok(()),
    }
}

fn part_name(part: Part) -> &'static str {
    match part {
        Part::Header(_) => "header",
        Part::Fis(_) => "command",
        Part::Table(_) => "table",
        Part::Data(_) => "data",
    }
}

fn write_put<W: fmt::Write>(put: Put<'_>, f: &mut fmt::Formatter<W>) -> fmt::Result {
    if let Some(part) = put.part {
        write!(f, ",\"part\":\"{}\"", part_name(part))?;
    }
    write_place(put.at, put.bytes.len(), false, f)
}

fn write_fetch<W: fmt::Write>(fetch: &Fetch<'_>, f: &mut fmt::Formatter<W>) -> fmt::Result {
    let part = part_name(fetch.part);
    let (at, len, is_lost) = (fetch.at, fetch.len, fetch.bytes.is_none());
    write!(f, ",\"part\":\"{part}\"")?;
    write_place(at, len, is_lost, f)
}

fn write_store<W: fmt::Write>(store: Store, f: &mut fmt::Formatter<W>) -> fmt::Result {
    let part = match store.what {
        Stored::Data => "data",
        Stored::Fis => "fis",
        Stored::Count(_) => "count",
    };
    write!(f, ",\"part\":\"{part}\"")?;
    write_place(store.at, store.len, store.is_lost, f)
}

/// Writes where bytes of the guest's memory lie, and whether they are not there.
fn write_place<W: fmt::Write>(
    at: u64,
    len: usize,
    is_lost: bool,
    f: &mut fmt::Formatter<W>,
) -> fmt::Result {
    write!(f, ",\"address\":\"{at:x}\",\"length\":{len}")?;
    f.write_str(if is_lost { ",\"lost\":true" } else { "" })
}

/// Writes a FIS at the link, and what became of it.
fn write_moved<W: fmt::Write>(moved: &Moved<'_>, f: &mut fmt::Formatter<W>) -> fmt::Result {
    let way = if moved.way == "down" { "down" } else { "up" };
    let port = moved.frame.pm_port();
    let bytes = moved.frame.bytes();
    write!(f, ",\"way\":\"{way}\",\"port\":{port}")?;
    write!(
        f,
        ",\"fis\":{},\"frame\":\"{}\"",
        moved.number,
        FrameShort(bytes)
    )?;
    let slots = match moved.slot {
        Some(slot) => bit_of(slot),
        None if way == "up" && port == 15 => 0,
        None => named_slots(bytes),
    };
    write_slots(slots, f)?;
    match moved.outcome {
        Outcome::Sent => {}
        Outcome::Heard(hearing) => write_hearing(hearing, f)?,
        Outcome::Ignored(..) => f.write_str(",\"ignored\":true")?,
        Outcome::Hindered(why) => write_hindrance(why, f)?,
    }
    match moved.why {
        Some(why) => write!(f, ",\"why\":\"{why}\""),
        None => Ok(()),
    }
}

fn write_hindrance<W: fmt::Write>(why: Hindrance, f: &mut fmt::Formatter<W>) -> fmt::Result {
    match why {
        Hindrance::LinkDown => f.write_str(",\"dropped\":\"the link is down\""),
        Hindrance::Failed => f.write_str(",\"dropped\":\"a command was not taken\""),
        Hindrance::NotReceiving | Hindrance::Writing => Ok(()),
    }
}

/// Writes what the controller did with a FIS.
fn write_hearing<W: fmt::Write>(hearing: Hearing, f: &mut fmt::Formatter<W>) -> fmt::Result {
    let report = hearing.report;
    match (report.fault, report.stopped) {
        (Some(cause), _) => write!(f, ",\"fault\":\"{}\"", device_fault(cause))?,
        (None, Some(cause)) => write!(f, ",\"fault\":\"{}\"", port_fault(cause))?,
        (None, None) => {}
    }
    if let Some(Compared { found, wanted }) = hearing.compared {
        write!(f, ",\"found\":\"{found}\",\"wanted\":\"{wanted}\"")?;
    }
    match report.done {
        0 => Ok(()),
        done => write!(f, ",\"done\":{}", SlotArray(done)),
    }
}
