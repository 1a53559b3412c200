//! What a trace tells of.

use crate::open::OpenSlot;
use crate::warning::Warning;
use crate::why::Why;
use ahci_controller::{Hindrance, NotTaken};
use block_engine::What;
use fis_view::Frame;
use hba_fbs::{Ignored, TakeReport, WriteError, Wrote};
use port_errors::DeviceCause;
use sata_disk::Unheard;
use trace_text::{Closed, Compared};

/// One thing that a trace tells of.
#[derive(Drop)]
pub enum Event<'a> {
    /// The driver reads a register.
    Reads(Access),
    /// The driver writes a register.
    Writes(Access),
    /// The driver writes bytes to the guest's memory.
    Puts(Put<'a>),
    /// The port ignores what was written last.
    Ignores(WriteError),
    /// The driver breaks a rule for software.
    Warns(Warning),
    /// The write of a register ended the commands of these slots.
    Ends(u32),
    /// The interrupt line is up, or down, from now on.
    Line(bool),
    /// The controller reads the guest's memory.
    Fetches(Fetch<'a>),
    /// The command of a slot is issued for this device.
    Issues {
        slot: u8,
        dev: u8,
    },
    /// The command of a slot is not taken.
    Refuses(Refused),
    /// Bytes of the command of a slot are no memory.
    Misses(u8),
    /// A FIS goes over the link, or waits at its end.
    Moves(Moved<'a>),
    /// The multiplier drops the FIS for this port that came down last.
    Drops(Closed),
    /// A disk does not hear a FIS.
    Unheard {
        port: u8,
        why: Unheard,
    },
    /// The controller writes to the guest's memory.
    Stores(Store),
    /// A disk asks its medium, and this is answered.
    Asks {
        port: u8,
        what: What,
        failed: Option<block_engine::Failure>,
    },
    /// Nothing can move any more, and a slot is still in use.
    Open(OpenSlot),
}

/// A register of which a driver reads or writes this.
#[derive(Clone, Copy)]
pub struct Access {
    pub offset: u32,
    pub value: u32,
}

/// What is read of the guest's memory.
#[derive(Clone, Copy, PartialEq, Eq)]
pub enum Part {
    /// The header of a slot.
    Header(u8),
    /// The command FIS of a slot.
    Fis(u8),
    /// Entries of the table of a slot.
    Table(u8),
    /// Data for the device at this port.
    Data(u8),
}

/// Bytes that the driver writes to the guest's memory.
#[derive(Clone, Copy)]
pub struct Put<'a> {
    pub at: u64,
    pub bytes: &'a [u8],
    /// The part of a command that begins there, if that is known.
    pub part: Option<Part>,
}

/// Bytes that the controller reads.
#[derive(Drop)]
pub struct Fetch<'a> {
    pub part: Part,
    pub at: u64,
    pub len: usize,
    /// The bytes; None if they are not all memory.
    pub bytes: Option<&'a [u8]>,
}

/// What the controller writes to the guest's memory.
#[derive(Clone, Copy, PartialEq, Eq)]
pub enum Stored {
    /// Bytes of a Data FIS.
    Data,
    /// A FIS, to the received FISes.
    Fis,
    /// How many bytes a command moved: PRDBC of its header.
    Count(u32),
}

/// Bytes that the controller writes.
#[derive(Clone, Copy)]
pub struct Store {
    pub what: Stored,
    pub at: u64,
    pub len: usize,
    /// They are not all memory, so all are lost.
    pub is_lost: bool,
}

/// A command that is not taken.
#[derive(Clone, Copy)]
pub struct Refused {
    pub slot: u8,
    pub why: NotTaken,
    /// What PxFBS.DEV was as the slot was written to PxCI.
    pub named: u8,
}

/// What the controller did with a FIS.
#[derive(Clone, Copy)]
pub struct Hearing {
    pub report: TakeReport,
    /// The bytes that it brings to the guest.
    pub brought: Option<Wrote>,
    /// The first fault of its device, if it had one before.
    pub first: Option<DeviceCause>,
    /// What its fault compares, if that is known.
    pub compared: Option<Compared>,
}

/// What became of a FIS.
#[derive(Clone, Copy)]
pub enum Outcome {
    /// It is on its way to a device.
    Sent,
    /// The controller took it.
    Heard(Hearing),
    /// The controller took it and did nothing with it, for this reason. Its device had this fault last.
    Ignored(Ignored, Option<DeviceCause>),
    /// The controller does not take it.
    Hindered(Hindrance),
}

/// A FIS at the link.
#[derive(Drop)]
pub struct Moved<'a> {
    /// `up`, `down`, or `waits` for one that goes up later.
    pub way: &'a str,
    pub frame: &'a Frame,
    /// The slot of its command, if it is one.
    pub slot: Option<u8>,
    /// Its number among those that went over the link.
    pub number: u64,
    pub outcome: Outcome,
    /// Why the disk fails the command that goes down, or the only one that this FIS can be about.
    pub why: Option<Why>,
}
