//! The bytes of a Data FIS to a device come from the guest's memory, part by part.

ghost use Rattle.std.specs.Prelude.{◌≡◌, IfNone, IfOk, IfSome};
ghost use Rattle.ahci_machine.specs.Gathers.{Awaits, HasNoRead, Reads, Supplies, asked_for, frame_of, host_stamp as host_stamp_of, is_asked as is_asked_of, opening_gathering};

mod saved;

use crate::request::{GuestRead, Wanted};
use ahci_controller::Controller;
use fis_view::{Frame, Stamp, is_frame_length};
use std::alloc::{AllocError, Global};
use std::marker::Model;

/// Data that are due for a device.
#[derive(Clone, Copy, Debug, PartialEq, Eq)]
pub struct Feed {
    /// The device.
    pub dev: u8,
    /// The number of the want.
    pub number: u64,
    /// The slot of the command.
    pub slot: u8,
    /// The offset of the first byte.
    pub offset: u32,
    /// How many there are.
    pub len: u32,
}

/// A Data FIS of which bytes are still to come.
#[derive(Debug, Drop)]
pub struct Gathering {
    pub(crate) feed: Feed,
    bytes: Vec<u8>,
    done: usize,
    // How many bytes were asked for, and have not come.
    asked: Option<usize>,
}

impl Model for Gathering {
    ghost use Rattle.ahci_machine.specs.Gathers.{GatheringState};

    ghost Value = { GatheringState };

    ghost view = { λ g. record { feed = g.feed; bytes = g.bytes.items; done = g.done; asked = g.asked } };
}

/// What a Data FIS waits for.
#[derive(Clone, Copy, Debug, PartialEq, Eq)]
pub enum Waits {
    /// For bytes that were asked for.
    Asked,
    /// These are to be asked for.
    Wants(GuestRead),
    /// Nothing: all of its bytes are there.
    Whole,
    /// Some of its bytes have no place.
    Nowhere,
}

/// The stamp of a frame of the host.
pub(crate) fn host_stamp(dev: u8) -> Stamp
    ensures { result ≡ host_stamp_of dev }
{
    Stamp {
        port: dev,
        conn: 0,
        number: 0,
        shown: [0; 15],
    }
}

impl Gathering {
    /// None of the bytes has come.
    pub(crate) fn new(alloc: Global, feed: Feed) -> Result<Gathering, AllocError>
        ensures { IfOk result (λ g. g ≡ opening_gathering feed) }
    {
        let len = 4 + feed.len as usize;
        let mut bytes = Vec::with_capacity(alloc, len)?;
        bytes.extend_from_slice(&[0x46, feed.dev, 0, 0])?;
        bytes.resize(len, 0)?;
        Ok(Gathering {
            feed,
            bytes,
            done: 0,
            asked: None,
        })
    }

    // The bytes that are wanted next, where the table of the command has places for them.
    fn next_read(&self, controller: &Controller) -> Option<GuestRead>
        ensures some { IfSome result (λ read. Reads self.now controller.now read) }
        ensures none { IfNone result (HasNoRead self.now controller.now) }
    {
        if self.feed.slot >= 32 || self.done > self.feed.len as usize {
            return None;
        }
        let done = self.done as u32;
        let offset = self.feed.offset.checked_add(done)?;
        let mut moves = controller.places(self.feed.slot, offset, self.feed.len - done)?;
        let first = moves.next()?;
        Some(GuestRead {
            wanted: Wanted::Data {
                dev: self.feed.dev,
                number: self.feed.number,
                done: self.done,
            },
            at: first.at,
            len: first.len,
        })
    }

    /// What it waits for.
    pub(crate) fn waits(&self, controller: &Controller) -> Waits
        ensures { Awaits self.now controller.now result }
    {
        if self.asked.is_some() {
            return Waits::Asked;
        }
        if self.done == self.feed.len as usize {
            return Waits::Whole;
        }
        match self.next_read(controller) {
            Some(read) => Waits::Wants(read),
            None => Waits::Nowhere,
        }
    }

    /// So many bytes were asked for.
    pub(crate) fn ask(&mut self, len: usize)
        ensures { self.new ≡ asked_for self.old len }
    {
        self.asked = Some(len);
    }

    /// These bytes came, behind `done` others. Whether they are kept: if they are not those that were asked for, nothing changes.
    pub(crate) fn supply(&mut self, number: u64, done: usize, bytes: &[u8]) -> bool
        ensures { Supplies self.old number done bytes.now result self.new }
    {
        let Some(from) = self.done.checked_add(4) else {
            return false;
        };
        if number != self.feed.number || done != self.done || self.asked != Some(bytes.len()) {
            return false;
        }
        if from > self.bytes.len() || bytes.len() > self.bytes.len() - from {
            return false;
        }
        self.bytes[from..from + bytes.len()].copy_from_slice(bytes);
        self.done += bytes.len();
        self.asked = None;
        true
    }

    /// Whether such bytes were asked for.
    pub(crate) fn is_asked(&self, number: u64, done: usize) -> bool
        ensures { result ≡ is_asked_of self.now number done }
    {
        self.asked.is_some() && number == self.feed.number && done == self.done
    }

    /// The Data FIS, if it has a length of one.
    pub(crate) fn into_frame(self) -> Option<Frame>
        ensures { result ≡ frame_of self }
    {
        if !is_frame_length(&self.bytes) {
            return None;
        }
        Some(Frame::from_vec(self.bytes, host_stamp(self.feed.dev)))
    }
}
