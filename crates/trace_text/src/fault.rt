//! Faults: their names, and what was found and wanted where a fault is a comparison.

use crate::decoding::fis_of;
use crate::fis_short::bit_of;
use crate::transfer::Transfer;
use fis_view::{DmaSetup, Fis};
use port_errors::{DeviceCause, PortCause};
use std::fmt;

/// The name of a cause for which a device is faulty.
pub fn device_fault(cause: DeviceCause) -> &'static str {
    match cause {
        DeviceCause::TaskFile => "task-file",
        DeviceCause::BadTag => "bad-tag",
        DeviceCause::Overflow => "overflow",
        DeviceCause::Stray => "stray",
        DeviceCause::Twice => "twice",
        DeviceCause::Fragments => "fragments",
        DeviceCause::Short => "short",
        DeviceCause::BadFis => "bad-fis",
        DeviceCause::WrongWay => "wrong-way",
    }
}

/// The name of a cause for which the port is stopped.
pub fn port_fault(cause: PortCause) -> &'static str {
    match cause {
        PortCause::BadControl => "bad-control",
        PortCause::Bus => "bus",
    }
}

/// What is known of a device as a FIS of it comes.
#[derive(Clone, Copy)]
pub struct Known {
    /// The slots of its commands that are out.
    pub out: u32,
    /// The command that the FIS is about.
    pub command: Option<Moving>,
    /// How many bytes of its last setup did not come yet.
    pub left: Option<u32>,
}

/// A command that moves bytes.
#[derive(Clone, Copy)]
pub struct Moving {
    pub slot: u8,
    pub transfer: Transfer,
    /// How many bytes of it came.
    pub came: u32,
    /// How many bytes its table has, if that is known.
    pub room: Option<u64>,
}

/// One side of a comparison.
#[derive(Clone, Copy, PartialEq, Eq)]
pub enum Side {
    Tag(u8),
    /// One of these slots.
    Slots(u32),
    /// Bytes of a command, from one place to another.
    Range { from: u32, to: u64 },
    /// No more bytes than a command has.
    AtMost { bytes: u64, slot: u8 },
    /// No more bytes than the table of a command has.
    Room { bytes: u64, slot: u8 },
    /// No more bytes than are set up.
    Left(u32),
    /// A FIS of this length.
    Length(usize),
    /// Bytes of data.
    Data(usize),
    /// So many bytes of a command.
    Came { bytes: u32, slot: u8 },
    /// So many bytes.
    Whole(u32),
    /// The direction of data: to the host or not.
    Way(bool),
    /// An offset and a count of a setup.
    Place { offset: u32, count: u32 },
    /// Places and counts of whole dwords, and some bytes.
    Dwords,
    /// A FIS that is due only behind a setup.
    Activate,
    /// A setup before it.
    Setup,
}

impl fmt::Display for Side {
    fn fmt<W: fmt::Write>(&self, f: &mut fmt::Formatter<W>) -> fmt::Result {
        match *self {
            Side::Tag(tag) => write!(f, "tag {tag}"),
            Side::Slots(mask) => write_slots(mask, f),
            Side::Range { from, to } => write!(f, "bytes {from} to {to}"),
            Side::AtMost { bytes, slot } => write!(f, "at most {bytes} bytes of slot {slot}"),
            Side::Room { bytes, slot } => {
                write!(f, "at most {bytes} bytes, the table of slot {slot}")
            }
            Side::Left(left) => write!(f, "at most {left} bytes of the setup"),
            Side::Length(bytes) => write!(f, "a FIS of {bytes} bytes"),
            Side::Data(bytes) => write!(f, "{bytes} bytes of data"),
            Side::Came { bytes, slot } => write!(f, "{bytes} bytes of slot {slot}"),
            Side::Whole(bytes) => write!(f, "{bytes}"),
            Side::Way(true) => f.write_str("D 1, to host"),
            Side::Way(false) => f.write_str("D 0, to disk"),
            Side::Place { offset, count } => write!(f, "offset {offset} count {count}"),
            Side::Dwords => f.write_str("multiples of 4, and a count above 0"),
            Side::Activate => f.write_str("an activate"),
            Side::Setup => f.write_str("a setup before it"),
        }
    }
}

/// Writes the tags that a setup may name.
fn write_slots<W: fmt::Write>(mask: u32, f: &mut fmt::Formatter<W>) -> fmt::Result {
    if mask == 0 {
        return f.write_str("no setup, as no command is out");
    }
    let mut between = "tag ";
    for slot in 0..32_u8 {
        if mask & bit_of(slot) != 0 {
            write!(f, "{between}{slot}")?;
            between = " or ";
        }
    }
    Ok(())
}

/// What was found, and what was wanted in its place.
#[derive(Clone, Copy)]
pub struct Compared {
    pub found: Side,
    pub wanted: Side,
}

impl fmt::Display for Compared {
    fn fmt<W: fmt::Write>(&self, f: &mut fmt::Formatter<W>) -> fmt::Result {
        write!(f, ": found {}, wanted {}", self.found, self.wanted)
    }
}

impl Compared {
    fn new(found: Side, wanted: Side) -> Option<Compared> {
        Some(Compared { found, wanted })
    }

    /// What a fault of this cause compares, which a FIS of these bytes made; None if it compares nothing, or if too little is
    /// known.
    pub fn of(cause: DeviceCause, frame: &[u8], known: Known) -> Option<Compared> {
        match fis_of(frame) {
            Ok(Fis::DmaSetup(fis)) => of_setup(cause, &fis, known),
            Ok(Fis::Payload(fis)) => of_data(cause, fis.payload().len(), known),
            Ok(Fis::DmaActivate(_)) if cause == DeviceCause::Stray => Compared::new(
                Side::Activate,
                Side::Setup,
            ),
            Ok(Fis::RegD2H(_) | Fis::SetBits(_)) if cause == DeviceCause::Short => of_short(known),
            Err(_) if cause == DeviceCause::BadFis => of_length(frame),
            _ => None,
        }
    }
}

/// What a fault compares that a DMA Setup made.
fn of_setup(cause: DeviceCause, fis: &DmaSetup<'_>, known: Known) -> Option<Compared> {
    let (offset, count) = (fis.offset(), fis.count());
    let range = Side::Range {
        from: offset,
        to: u64::from(offset).saturating_add(u64::from(count)),
    };
    match cause {
        DeviceCause::BadTag => {
            let tag = (fis.buffer_id() & 0x1F) as u8;
            Compared::new(Side::Tag(tag), Side::Slots(known.out))
        }
        DeviceCause::WrongWay => {
            let to_host = known.command?.transfer.to_host;
            Compared::new(Side::Way(fis.d()), Side::Way(to_host))
        }
        DeviceCause::Overflow => {
            let Moving { slot, transfer, .. } = known.command?;
            let bytes = u64::from(transfer.bytes);
            Compared::new(range, Side::AtMost { bytes, slot })
        }
        DeviceCause::BadFis => Compared::new(Side::Place { offset, count }, Side::Dwords),
        _ => None,
    }
}

/// What a fault compares that so many bytes of data made.
fn of_data(cause: DeviceCause, len: usize, known: Known) -> Option<Compared> {
    match cause {
        DeviceCause::Stray => Compared::new(Side::Data(len), Side::Setup),
        DeviceCause::Overflow => {
            let left = known.left?;
            if len as u64 > u64::from(left) {
                return Compared::new(Side::Data(len), Side::Left(left));
            }
            let Moving { slot, room, .. } = known.command?;
            Compared::new(Side::Data(len), Side::Room { bytes: room?, slot })
        }
        _ => None,
    }
}

/// What a fault compares where a command ended before its bytes came.
fn of_short(known: Known) -> Option<Compared> {
    let Moving {
        slot,
        transfer,
        came,
        ..
    } = known.command?;
    if !transfer.to_host {
        return None;
    }
    let found = Side::Came { bytes: came, slot };
    Compared::new(found, Side::Whole(transfer.bytes))
}

/// What a fault compares that a FIS made which has not the length of its type.
fn of_length(frame: &[u8]) -> Option<Compared> {
    let wanted = match *frame.first()? {
        0x27 | 0x34 | 0x5F => 20,
        0x39 => 4,
        0x41 => 28,
        0xA1 => 8,
        _ => return None,
    };
    Compared::new(Side::Length(frame.len()), Side::Length(wanted))
}
