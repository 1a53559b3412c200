//! Tests as lists of steps: what is done with a device, and what it answers then.
//!
//! A test that is a list has one assertion, and so is proved by little.

use super::disk::{command, read, reset, write};
use super::pages::is_identity;
use super::scripted::STAMP;
use disk_model::{Device, Disk, DiskError, DiskPlan, Unit};
use fis_view::{Frame, H2dFields, h2d, payload};
use std::alloc::{AllocError, Global};
use std::marker::Model;
use std::process::Abort;

/// A step of a test.
#[derive(Clone, Copy)]
pub(super) enum Step {
    /// The device is plugged in.
    Plugs,
    /// READ FPDMA QUEUED is given: its tag, its first sector and how many.
    Reads(u8, u64, u16),
    /// The same of WRITE FPDMA QUEUED.
    Writes(u8, u64, u16),
    /// A command of this code, without a sector or a count, is given.
    Commands(u8),
    /// READ LOG EXT of the NCQ Command Error log is given.
    ReadsLog,
    /// The Device Control register is given with this SRST.
    Resets(bool),
    /// A frame of these bytes, in hexadecimal, is given.
    Takes(&'static str),
    /// Data of so many bytes, of which each is this one, is given.
    TakesData(u8, usize),
    /// The device sends just these bytes next, which are in hexadecimal.
    Sends(&'static str),
    /// The device sends Data next that carries the sectors of a new disk: the first and how many.
    SendsSectors(usize, usize),
    /// The device sends a page of the error log next: its bytes up to Count, in hexadecimal, and its last one.
    SendsLog(&'static str, u8),
    /// The device sends IDENTIFY DEVICE data next, of a disk of 43,981 sectors, with auto-activate or without.
    SendsIdentity(bool),
    /// The device has nothing to send.
    IsSilent,
    /// Each byte of a sector is this one.
    Holds(u32, u8),
    /// The first byte of a sector is this one.
    Begins(u32, u8),
}

/// The Register FIS that is given in a step, if one is.
fn given(step: Step) -> Option<H2dFields> {
    match step {
        Step::Reads(tag, lba, sectors) => Some(read(tag, lba, sectors)),
        Step::Writes(tag, lba, sectors) => Some(write(tag, lba, sectors)),
        Step::Commands(code) => Some(command(code, 0, 0, 0)),
        Step::ReadsLog => Some(command(0x2F, 0, 0x10, 1)),
        Step::Resets(srst) => Some(reset(srst)),
        _ => None,
    }
}

/// A device. Clauses see it as a number, and its functions have no contract, so a test is proved with little work.
#[derive(Drop)]
struct Rig {
    alloc: Global,
    unit: Unit,
}

impl Model for Rig {
    ghost use Rattle.std.specs.Prelude.{ℕ};

    ghost Value = { ℕ };

    ghost view = { λ _. 0 };
}

/// Whether each byte is that of its place in the sectors of a new disk from this one on.
fn are_new(bytes: &[u8], first: usize) -> bool {
    let mut sector = first;
    for chunk in bytes.chunks(512) {
        let mut wanted = (sector % 256) as u8;
        for byte in chunk {
            if *byte != wanted {
                return false;
            }
            wanted = wanted.wrapping_add(1);
        }
        sector = sector.saturating_add(1);
    }
    true
}

/// Whether the bytes are a page that begins and ends so, and is zero between.
pub(super) fn is_log(page: &[u8], head: &[u8], last: u8) -> bool {
    match page.strip_prefix(head) {
        Some([zeros @ .., end]) => {
            page.len() == 512 && *end == last && zeros.iter().all(|byte| *byte == 0)
        }
        _ => false,
    }
}

/// Whether a frame carries sectors of a new disk: the first and how many.
fn has_sectors(frame: &Frame, first: usize, count: usize) -> bool {
    match frame.bytes() {
        [0x46, 0, 0, 0, sectors @ ..] => {
            sectors.len() / 512 == count && sectors.len() % 512 == 0 && are_new(sectors, first)
        }
        _ => false,
    }
}

/// Whether a frame has just these bytes, which are in hexadecimal, and the stamp of the tests.
fn is_frame(alloc: Global, frame: &Frame, wanted: &str) -> bool {
    match hex::decode(alloc, wanted) {
        Ok(wanted) => frame.bytes() == wanted.as_slice() && frame.stamp() == STAMP,
        Err(_) => false,
    }
}

/// Whether a frame carries a page that begins so, in hexadecimal, and ends so.
fn has_log(alloc: Global, frame: &Frame, head: &str, last: u8) -> bool {
    match (hex::decode(alloc, head), frame.bytes()) {
        (Ok(head), [_, _, _, _, page @ ..]) => is_log(page, &head, last),
        _ => false,
    }
}

/// Whether a frame carries IDENTIFY DEVICE data of a disk of 43,981 sectors, with auto-activate or without.
fn has_identity(frame: &Frame, auto: bool) -> bool {
    match frame.bytes() {
        [_, _, _, _, page @ ..] => is_identity(page, auto),
        _ => false,
    }
}

/// Whether the next frame, if there is one, is what a step wants of it.
fn is_wanted(alloc: Global, frame: Option<&Frame>, step: Step) -> bool {
    match (frame, step) {
        (None, Step::IsSilent) => true,
        (Some(frame), Step::Sends(wanted)) => is_frame(alloc, frame, wanted),
        (Some(frame), Step::SendsSectors(first, count)) => has_sectors(frame, first, count),
        (Some(frame), Step::SendsLog(head, last)) => has_log(alloc, frame, head, last),
        (Some(frame), Step::SendsIdentity(auto)) => has_identity(frame, auto),
        _ => false,
    }
}

impl Rig {
    /// Gives a frame. If memory is refused, it is given again, and answers as if nothing had happened.
    fn gives(&mut self, frame: &Frame) -> bool {
        self.unit.on_frame(self.alloc, frame).is_ok()
            || self.unit.on_frame(self.alloc, frame).is_ok()
    }

    fn gives_fields(&mut self, fields: &H2dFields) -> bool {
        match h2d(self.alloc, fields, STAMP) {
            Ok(frame) => self.gives(&frame),
            Err(_) => false,
        }
    }

    fn gives_bytes(&mut self, text: &str) -> bool {
        let Ok(bytes) = hex::decode(self.alloc, text) else {
            return false;
        };
        match Frame::from_bytes(self.alloc, &bytes, STAMP) {
            Ok(frame) => self.gives(&frame),
            Err(_) => false,
        }
    }

    fn gives_data(&mut self, byte: u8, len: usize) -> bool {
        let Ok(bytes) = Vec::from_elem(self.alloc, byte, len) else {
            return false;
        };
        match payload(self.alloc, 0, &bytes, STAMP) {
            Ok(frame) => self.gives(&frame),
            Err(_) => false,
        }
    }

    /// What the device sends next, asked for again if memory is refused.
    fn next(&mut self) -> Result<Option<Frame>, AllocError> {
        match self.unit.next_out(self.alloc, STAMP) {
            Ok(out) => Ok(out),
            Err(_) => self.unit.next_out(self.alloc, STAMP),
        }
    }

    /// Whether the next frame is what a step wants.
    fn sends(&mut self, step: Step) -> bool {
        match self.next() {
            Ok(frame) => is_wanted(self.alloc, frame.as_ref(), step),
            Err(_) => false,
        }
    }

    /// The bytes of a sector; none where there is no such sector.
    fn sector(&self, lba: u32) -> &[u8] {
        match &self.unit {
            Unit::Disk(disk) => disk.sector(lba).unwrap_or(&[]),
            Unit::Scripted(_) => &[],
        }
    }

    fn holds(&self, lba: u32, byte: u8) -> bool {
        let bytes = self.sector(lba);
        bytes.len() == 512 && bytes.iter().all(|found| *found == byte)
    }

    /// Whether a step is as it says.
    fn passes(&mut self, step: Step) -> bool {
        if let Some(fields) = given(step) {
            return self.gives_fields(&fields);
        }
        match step {
            Step::Plugs => self.unit.plugged(self.alloc).is_ok(),
            Step::Takes(text) => self.gives_bytes(text),
            Step::TakesData(byte, len) => self.gives_data(byte, len),
            Step::Holds(lba, byte) => self.holds(lba, byte),
            Step::Begins(lba, byte) => self.sector(lba).first() == Some(&byte),
            _ => self.sends(step),
        }
    }

    /// The number of the first step that is not as it says.
    fn first_wrong(&mut self, steps: &[Step]) -> Option<usize> {
        for (i, step) in steps.iter().enumerate() {
            if !self.passes(*step) {
                return Some(i);
            }
        }
        None
    }
}

/// Each step of a device is as it says.
pub(super) fn assert_steps(rt: &impl Abort, alloc: Global, unit: Unit, steps: &[Step]) {
    let mut rig = Rig { alloc, unit };
    assert_eq!(rt; rig.first_wrong(steps), None, "the number of a step");
}

/// The same of a new disk of so many sectors.
pub(super) fn assert_disk(
    rt: &impl Abort,
    alloc: Global,
    sectors: u32,
    plan: DiskPlan,
    steps: &[Step],
) -> Result<(), DiskError> {
    let disk = Disk::new(alloc, sectors, plan)?;
    assert_steps(rt, alloc, Unit::Disk(disk), steps);
    Ok(())
}
