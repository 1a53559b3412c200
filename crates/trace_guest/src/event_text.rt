//! A line of a trace.

use crate::event::{
    Access, Event, Fetch, Hearing, Moved, Outcome, Part, Put, Refused, Store, Stored,
};
use crate::open::OpenSlot;
use crate::register_text::{BitsText, name_of};
use ahci_controller::{Hindrance, NotTaken};
use ahci_registers::Register;
use block_engine::{ErrorKind, Failure, What};
use guest_fetch::Refusal;
use hba_fbs::Ignored;
use port_errors::DeviceCause;
use std::fmt;
use trace_text::{FrameShort, bit_of, device_fault, port_fault};

impl fmt::Display for Event<'_> {
    fn fmt<W: fmt::Write>(&self, f: &mut fmt::Formatter<W>) -> fmt::Result {
        match self {
            Event::Reads(access) => write_access("reads", *access, f),
            Event::Writes(access) => write_access("writes", *access, f),
            Event::Puts(put) => write_put(*put, f),
            Event::Ignores(why) => write!(f, "ignored: {why}"),
            Event::Warns(warning) => write!(f, "{warning}"),
            Event::Ends(slots) => write!(f, "controller ends {}", SlotWords(*slots)),
            Event::Line(true) => f.write_str("interrupt line up"),
            Event::Line(false) => f.write_str("interrupt line down"),
            Event::Fetches(fetch) => write_fetch(fetch, f),
            Event::Issues { slot, dev } => write!(f, "slot {slot} issued for {}", PortWords(*dev)),
            Event::Refuses(refused) => write_refused(*refused, f),
            Event::Misses(slot) => write!(f, "slot {slot} fails: no memory for its data"),
            Event::Moves(moved) => write_moved(moved, f),
            Event::Drops(closed) => write!(f, "multiplier drops it: {closed}"),
            Event::Unheard { port, why } => write!(f, "disk {port}: unheard: {why}"),
            Event::Stores(store) => write_store(*store, f),
            Event::Asks { port, what, failed } => {
                write!(f, "disk {port} asks: {}: ", AskedWords(*what))?;
                write_answer(*failed, f)
            }
            Event::Open(open) => write_open(*open, f),
        }
    }
}

/// Slots of a mask as words.
#[derive(Clone, Copy)]
pub struct SlotWords(pub u32);

impl fmt::Display for SlotWords {
    fn fmt<W: fmt::Write>(&self, f: &mut fmt::Formatter<W>) -> fmt::Result {
        let mut between = "";
        for slot in 0..32_u8 {
            if self.0 & bit_of(slot) != 0 {
                write!(f, "{between}slot {slot}")?;
                between = ", ";
            }
        }
        Ok(())
    }
}

/// A port of the multiplier as words.
#[derive(Clone, Copy)]
struct PortWords(u8);

impl fmt::Display for PortWords {
    fn fmt<W: fmt::Write>(&self, f: &mut fmt::Formatter<W>) -> fmt::Result {
        match self.0 {
            15 => f.write_str("control port"),
            port => write!(f, "port {port}"),
        }
    }
}

/// Writes which register is read or written, its value, and the bits of it that are set.
fn write_access<W: fmt::Write>(
    does: &str,
    access: Access,
    f: &mut fmt::Formatter<W>,
) -> fmt::Result {
    let Access { offset, value } = access;
    match Register::at(offset) {
        Some(register) => {
            let name = name_of(register);
            write!(f, "driver {does} {name} {value:08x}")?;
            write!(f, "{}", BitsText { register, value })
        }
        None => write!(
            f,
            "driver {does} {offset:x} {value:08x}: no register begins there"
        ),
    }
}

/// Writes where the driver puts bytes, and what they mean there.
fn write_put<W: fmt::Write>(put: Put<'_>, f: &mut fmt::Formatter<W>) -> fmt::Result {
    let Put { at, bytes, part } = put;
    write!(f, "driver puts {} bytes at {at:x}: ", bytes.len())?;
    match part {
        Some(Part::Header(slot)) => {
            write!(f, "header of slot {slot}: ")?;
            write_header(bytes, f)
        }
        Some(Part::Fis(slot)) => {
            write!(f, "command of slot {slot}: ")?;
            write_command(command_in(bytes), f)?;
            write_entries_in(bytes, f)
        }
        Some(Part::Table(slot)) => {
            write!(f, "table of slot {slot}: ")?;
            write_table(bytes, f)
        }
        _ => write_bytes(bytes, f),
    }
}

/// The bytes of the command FIS at the start of a table.
fn command_in(bytes: &[u8]) -> &[u8] {
    bytes.get(..20).unwrap_or(bytes)
}

/// Writes the entries of a table that is put whole, if it is.
fn write_entries_in<W: fmt::Write>(bytes: &[u8], f: &mut fmt::Formatter<W>) -> fmt::Result {
    match bytes.get(0x80..) {
        Some(entries) if entries.len() >= 16 => {
            f.write_str(", table ")?;
            write_table(entries, f)
        }
        _ => Ok(()),
    }
}

/// The most bytes that are told.
const MOST_BYTES: usize = 16;

/// Writes bytes as they lie in memory, dword by dword.
fn write_bytes<W: fmt::Write>(bytes: &[u8], f: &mut fmt::Formatter<W>) -> fmt::Result {
    let mut is_first = true;
    for dword in bytes.chunks(4).take(MOST_BYTES / 4) {
        if !is_first {
            f.write_str(" ")?;
        }
        for byte in dword {
            write!(f, "{byte:02x}")?;
        }
        is_first = false;
    }
    f.write_str(if bytes.len() > MOST_BYTES { " .." } else { "" })
}

/// Writes what the controller reads, and what it found.
fn write_fetch<W: fmt::Write>(fetch: &Fetch<'_>, f: &mut fmt::Formatter<W>) -> fmt::Result {
    let (at, len) = (fetch.at, fetch.len);
    match fetch.part {
        Part::Header(slot) => write!(f, "controller reads header of slot {slot} at {at:x}: ")?,
        Part::Fis(slot) => write!(f, "controller reads command of slot {slot} at {at:x}: ")?,
        Part::Table(slot) => write!(f, "controller reads table of slot {slot} at {at:x}: ")?,
        Part::Data(port) => {
            write!(f, "controller reads {len} bytes for port {port} at {at:x}")?;
            return f.write_str(if fetch.bytes.is_some() {
                ""
            } else {
                ": no memory"
            });
        }
    }
    match (fetch.part, fetch.bytes) {
        (_, None) => f.write_str("no memory"),
        (Part::Header(_), Some(bytes)) => write_header(bytes, f),
        (Part::Table(_), Some(bytes)) => write_table(bytes, f),
        (_, Some(bytes)) => write_command(bytes, f),
    }
}

/// Writes the command FIS of a slot, and for which port it is.
fn write_command<W: fmt::Write>(bytes: &[u8], f: &mut fmt::Formatter<W>) -> fmt::Result {
    let port = bytes.get(1).copied().unwrap_or(0) & 0x0F;
    write!(f, "{} for {}", FrameShort(bytes), PortWords(port))
}

/// The dword of these bytes that begins at a place, the lowest byte first; 0 where none is.
pub fn dword_at(bytes: &[u8], at: usize) -> u32 {
    match bytes.get(at..at.saturating_add(4)) {
        Some([low, second, third, high]) => {
            u32::from(*high) << 24
                | u32::from(*third) << 16
                | u32::from(*second) << 8
                | u32::from(*low)
        }
        _ => 0,
    }
}

/// Writes the header of a slot (AHCI 1.3.1, 4.2.2).
fn write_header<W: fmt::Write>(bytes: &[u8], f: &mut fmt::Formatter<W>) -> fmt::Result {
    let first = dword_at(bytes, 0);
    let (port, dwords, entries) = (first >> 12 & 0xF, first & 0x1F, first >> 16);
    write!(f, "PMP {port} CFL {dwords} PRDTL {entries}")?;
    write_flag(first, 5, " A", f)?;
    write_flag(first, 6, " W", f)?;
    write_flag(first, 10, " C", f)?;
    let high = dword_at(bytes, 12);
    match high {
        0 => write!(f, " CTBA {:x}", dword_at(bytes, 8)),
        high => write!(f, " CTBA {high:x}{:08x}", dword_at(bytes, 8)),
    }
}

fn write_flag<W: fmt::Write>(
    value: u32,
    bit: u8,
    name: &str,
    f: &mut fmt::Formatter<W>,
) -> fmt::Result {
    f.write_str(if value & bit_of(bit) != 0 { name } else { "" })
}

/// How many bytes an entry of a table has.
fn bytes_of_entry(entry: &[u8]) -> u64 {
    u64::from(dword_at(entry, 12) & 0x3F_FFFF) + 1
}

/// How many bytes entries of a table have.
pub fn bytes_of_table(bytes: &[u8]) -> u64 {
    let mut sum = 0u64;
    for entry in bytes.chunks_exact(16) {
        sum = sum.saturating_add(bytes_of_entry(entry));
    }
    sum
}

/// The most entries of a table that are told.
const MOST_ENTRIES: usize = 4;

/// Writes an entry of a table, behind others or none.
fn write_entry<W: fmt::Write>(
    entry: &[u8],
    is_later: bool,
    f: &mut fmt::Formatter<W>,
) -> fmt::Result {
    f.write_str(if is_later { ", " } else { "" })?;
    write!(f, "{} bytes at ", bytes_of_entry(entry))?;
    match dword_at(entry, 4) {
        0 => write!(f, "{:x}", dword_at(entry, 0)),
        high => write!(f, "{high:x}{:08x}", dword_at(entry, 0)),
    }
}

/// Writes entries of a table (AHCI 1.3.1, 4.2.3.3).
fn write_table<W: fmt::Write>(bytes: &[u8], f: &mut fmt::Formatter<W>) -> fmt::Result {
    let mut is_later = false;
    for entry in bytes.chunks_exact(16).take(MOST_ENTRIES) {
        write_entry(entry, is_later, f)?;
        is_later = true;
    }
    match bytes.len() / 16 {
        entries if entries > MOST_ENTRIES => write!(f, ", .. {entries} entries"),
        _ => Ok(()),
    }
}

/// Writes what the controller writes, and where.
fn write_store<W: fmt::Write>(store: Store, f: &mut fmt::Formatter<W>) -> fmt::Result {
    let Store { at, len, .. } = store;
    match store.what {
        Stored::Data => write!(f, "controller writes {len} bytes of data at {at:x}")?,
        Stored::Fis => write!(f, "controller writes the FIS at {at:x}")?,
        Stored::Count(count) => write!(f, "controller writes PRDBC {count} at {at:x}")?,
    }
    f.write_str(if store.is_lost {
        ": lost, no memory"
    } else {
        ""
    })
}

/// Writes why a command is not taken.
fn write_refused<W: fmt::Write>(refused: Refused, f: &mut fmt::Formatter<W>) -> fmt::Result {
    write!(f, "slot {} not taken: ", refused.slot)?;
    match refused.why {
        NotTaken::Read(Refusal::PmPort { found, wanted }) => {
            let named = refused.named;
            write!(
                f,
                "PM Port of its FIS is {found}, PMP of its header is {wanted}, PxFBS.DEV was {named}"
            )
        }
        NotTaken::Read(refusal) => write!(f, "{refusal}"),
        NotTaken::Bytes { found } => write!(f, "it moves {found} bytes"),
        NotTaken::Issue(error) => write!(f, "{error}"),
    }
}

/// Writes a FIS at the link, and what became of it.
fn write_moved<W: fmt::Write>(moved: &Moved<'_>, f: &mut fmt::Formatter<W>) -> fmt::Result {
    let port = PortWords(moved.frame.pm_port());
    write!(
        f,
        "{} {port}: {}",
        moved.way,
        FrameShort(moved.frame.bytes())
    )?;
    match moved.outcome {
        Outcome::Sent => {}
        Outcome::Heard(hearing) => write_hearing(hearing, f)?,
        Outcome::Ignored(why, fault) => write_ignored(why, fault, f)?,
        Outcome::Hindered(why) => f.write_str(hindrance_words(why))?,
    }
    match moved.why {
        Some(why) => write!(f, "; {why}"),
        None => Ok(()),
    }
}

/// Writes what the controller did with a FIS.
fn write_hearing<W: fmt::Write>(hearing: Hearing, f: &mut fmt::Formatter<W>) -> fmt::Result {
    if let Some(brought) = hearing.brought {
        let end = brought.offset.saturating_add(brought.len);
        write!(
            f,
            "; bytes {} to {end} of slot {}",
            brought.offset, brought.slot
        )?;
    }
    if hearing.report.done != 0 {
        write!(f, "; done {}", SlotWords(hearing.report.done))?;
    }
    if let Some(cause) = hearing.report.stopped {
        return write!(f, "; fault {} stops the port", port_fault(cause));
    }
    let Some(cause) = hearing.report.fault else {
        return Ok(());
    };
    write!(f, "; fault {}", device_fault(cause))?;
    if let Some(compared) = hearing.compared {
        write!(f, "{compared}")?;
    }
    match hearing.first {
        Some(first) => write!(f, ", the first of its device was {}", device_fault(first)),
        None => Ok(()),
    }
}

/// Writes why a FIS is ignored.
fn write_ignored<W: fmt::Write>(
    why: Ignored,
    fault: Option<DeviceCause>,
    f: &mut fmt::Formatter<W>,
) -> fmt::Result {
    f.write_str("; taken by nobody: ")?;
    f.write_str(ignored_words(why))?;
    match (why, fault) {
        (Ignored::DeviceFaulty, Some(cause)) => write!(f, ", by fault {}", device_fault(cause)),
        _ => Ok(()),
    }
}

fn ignored_words(why: Ignored) -> &'static str {
    match why {
        Ignored::Stopped => "PxCMD.ST is 0",
        Ignored::PortFaulty => "an error stopped the port",
        Ignored::DeviceFaulty => "the device is faulty",
        Ignored::NoSignature => "the device is in software reset",
        Ignored::Unasked => "nothing is issued for the device",
    }
}

fn hindrance_words(why: Hindrance) -> &'static str {
    match why {
        Hindrance::LinkDown => "; lost: the link is down",
        Hindrance::Failed => "; dropped: a command was not taken",
        Hindrance::NotReceiving => "; PxCMD.FRE is 0",
        Hindrance::Writing => "; another is not written yet",
    }
}

/// What a disk asks of its medium, as words.
#[derive(Clone, Copy)]
pub struct AskedWords(pub What);

impl fmt::Display for AskedWords {
    fn fmt<W: fmt::Write>(&self, f: &mut fmt::Formatter<W>) -> fmt::Result {
        match self.0 {
            What::Load { lba, count } => write!(f, "load lba {lba} sectors {count}"),
            What::Store { lba, count } => write!(f, "store lba {lba} sectors {count}"),
            What::Flush => f.write_str("flush"),
            What::Discard => f.write_str("discard"),
        }
    }
}

/// Writes what a medium answered.
pub fn write_answer<W: fmt::Write>(
    failed: Option<Failure>,
    f: &mut fmt::Formatter<W>,
) -> fmt::Result {
    let Some(Failure { error, lba }) = failed else {
        return f.write_str("done");
    };
    match error {
        ErrorKind::Uncorrectable => write!(f, "UNC at lba {lba}"),
        ErrorKind::NotFound => write!(f, "IDNF at lba {lba}"),
        ErrorKind::Aborted => write!(f, "ABRT at lba {lba}"),
    }
}

/// Writes which slot is still in use, and what it waits for.
fn write_open<W: fmt::Write>(open: OpenSlot, f: &mut fmt::Formatter<W>) -> fmt::Result {
    write!(f, "open: slot {}", open.slot)?;
    if let Some(port) = open.stage.port() {
        write!(f, " for {}", PortWords(port))?;
    }
    f.write_str(": ")?;
    open.write_reason(f)
}
