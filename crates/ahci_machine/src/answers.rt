//! What the caller answers.

ghost use Rattle.std.specs.Prelude.{◌≡◌, ◌<◌, ◌||◌, IfNone, IfSome, IsTrue, MatchOption, None, Some, option_copied};
ghost use Rattle.ahci_machine.specs.Answers.{AnswersMachine, MissesFor, MissesMachine, OffersFrame, SuppliesData, SuppliesMachine, TakesFrame, discarded_of, disk_at, is_wanted as is_wanted_of, stored_of, supply_message, IsToldBy};
ghost use Rattle.ahci_machine.specs.States.{gathering_at};

use crate::bay::Unit;
use crate::machine::Machine;
use crate::request::{MediumId, Wanted};
use ahci_controller::{Fed, NotTaken, Supply};
use block_command::AnswerError;
use block_engine::{Answer, Range};
use fis_view::Frame;
use sata_disk::SataDisk;
use std::alloc::{AllocError, Global};
use thiserror::Error;

/// What an answer to a want of the guest's bytes did.
#[derive(Clone, Copy, Debug, PartialEq, Eq)]
pub enum Told {
    /// Nothing: no such bytes are wanted, or not so many.
    Stale,
    /// They came. If they are not the last of their command or of their Data FIS, more are wanted.
    Kept,
    /// The command of a slot is issued.
    Issued {
        /// The slot.
        slot: u8,
        /// Its device.
        dev: u8,
    },
    /// The command of a slot is not taken.
    NotTaken {
        /// The slot.
        slot: u8,
        /// Why.
        why: NotTaken,
    },
    /// Bytes of a Data FIS are not memory.
    Missed {
        /// The slot of its command.
        slot: u8,
        /// What comes of it.
        fed: Fed,
    },
}

/// Why an answer of a medium is refused. Nothing changes.
#[derive(Clone, Copy, Debug, PartialEq, Eq, Error)]
pub enum MediumError {
    /// The disk that asked is not there any more.
    #[error("another disk asked")]
    OtherDisk,
    /// It does not fit what was asked.
    #[error("it does not fit what was asked")]
    Answer(AnswerError),
}

impl Machine {
    // Bytes of the command of a slot came, or are no memory.
    fn supplied(&mut self, slot: u8, supply: Supply) -> Result<Told, AllocError>
        ensures is { IsToldBy slot supply result }
        ensures rest { self.new ≡ record self.old { message = self.old.message || supply_message supply } }
    {
        match supply {
            Supply::OutOfMemory => Err(AllocError),
            Supply::NotTaken { why, message, .. } => {
                self.message = self.message || message;
                Ok(Told::NotTaken { slot, why })
            }
            Supply::Stale => Ok(Told::Stale),
            Supply::More => Ok(Told::Kept),
            Supply::Issued { dev } => {
                self.hints.issued(slot);
                Ok(Told::Issued { slot, dev })
            }
        }
    }

    // Bytes of the Data FIS of a device came.
    fn supply_data(&mut self, dev: u8, number: u64, done: usize, bytes: &[u8]) -> Told
        requires { dev < 16 }
        ensures { MatchOption (gathering_at self.old dev) ((result ≡ Told.Stale) × (self.new ≡ self.old))
            (λ g. SuppliesData g dev number done bytes.now self.old result self.new) }
    {
        let Some(gathering) = &mut self.gathering[usize::from(dev)] else {
            return Told::Stale;
        };
        if gathering.supply(number, done, bytes) {
            Told::Kept
        } else {
            Told::Stale
        }
    }

    /// The bytes that are wanted are these. What is wanted no more, or is not so many bytes, changes nothing. Where memory is
    /// refused, the same bytes are wanted again, under another number.
    pub fn supply(
        &mut self,
        alloc: Global,
        wanted: Wanted,
        bytes: &[u8],
    ) -> Result<Told, AllocError>
        ensures { SuppliesMachine wanted bytes.now self.old result self.new }
    {
        match wanted {
            Wanted::Command { slot, number } => {
                self.hints.turns = true;
                let supply = self.controller.supply(alloc, slot, number, bytes);
                self.supplied(slot, supply)
            }
            Wanted::Data { dev, .. } if dev >= 16 => Ok(Told::Stale),
            Wanted::Data { dev, number, done } => Ok(self.supply_data(dev, number, done, bytes)),
        }
    }

    // Whether bytes of a Data FIS were asked for, and have not come.
    fn is_wanted(&self, dev: u8, number: u64, done: usize) -> bool
        ensures value { result ≡ is_wanted_of self.now dev number done }
        ensures low { IsTrue result → dev < 16 }
    {
        if dev >= 16 {
            return false;
        }
        match &self.gathering[usize::from(dev)] {
            Some(gathering) => gathering.is_asked(number, done),
            None => false,
        }
    }

    // They are not memory.
    fn miss(&mut self, dev: u8) -> Told
        requires { dev < 16 }
        ensures { MatchOption (gathering_at self.old dev) ((result ≡ Told.Stale) × (self.new ≡ self.old))
            (λ g. MissesFor g dev self.old result self.new) }
    {
        match self.gathering[usize::from(dev)].take() {
            Some(gathering) => Told::Missed {
                slot: gathering.feed.slot,
                fed: self.missed(gathering.feed),
            },
            None => Told::Stale,
        }
    }

    /// Some of the bytes that are wanted are not memory.
    pub fn no_memory(&mut self, wanted: Wanted) -> Result<Told, AllocError>
        ensures { MissesMachine wanted self.old result self.new }
    {
        self.hints.turns = true;
        match wanted {
            Wanted::Command { slot, number } => {
                let supply = self.controller.no_memory(slot, number);
                self.supplied(slot, supply)
            }
            Wanted::Data { dev, number, done } => {
                if self.is_wanted(dev, number, done) {
                    return Ok(self.miss(dev));
                }
                Ok(Told::Stale)
            }
        }
    }

    // The disk that asked, if it is there still.
    fn disk(&self, id: MediumId) -> Option<&SataDisk>
        ensures { option_copied result ≡ disk_at self.now id }
    {
        let bay = &self.bays.get(usize::from(id.port))?.bay;
        match &bay.unit {
            Unit::Disk(disk) if bay.disk == id.disk => Some(disk),
            _ => None,
        }
    }

    /// A medium answers a request.
    pub fn answer(&mut self, id: MediumId, answer: Answer) -> Result<(), MediumError>
        ensures { AnswersMachine id answer self.old result self.new }
    {
        self.hints.at(id.port);
        let Some(watched) = self.bays.get_mut(usize::from(id.port)) else {
            return Err(MediumError::OtherDisk);
        };
        watched.rests = false;
        let bay = &mut watched.bay;
        match &mut bay.unit {
            Unit::Disk(disk) if bay.disk == id.disk => match disk.answer(id.number, answer) {
                Ok(()) => Ok(()),
                Err(error) => Err(MediumError::Answer(error)),
            },
            _ => Err(MediumError::OtherDisk),
        }
    }

    /// The bytes of the store that asked by this request, of the command of this place, while it is out. Of one that a reset dropped
    /// there are none.
    pub fn stored(&self, id: MediumId, place: u8) -> Option<&[u8]>
        ensures some { IfSome result (λ bytes. stored_of self.now id place ≡ Some bytes.now) }
        ensures none { IfNone result (stored_of self.now id place ≡ None) }
    {
        self.disk(id)?.stored(place, id.number)
    }

    /// The sectors of the discard that asked by this request, while it is out. Of one that a reset dropped there are none.
    pub fn discarded(&self, id: MediumId) -> Option<&[Range]>
        ensures some { IfSome result (λ ranges. discarded_of self.now id ≡ Some ranges.now) }
        ensures none { IfNone result (discarded_of self.now id ≡ None) }
    {
        self.disk(id)?.discarded(id.number)
    }

    /// The FIS for the device of the caller's own at a port.
    pub fn take_frame(&mut self, port: u8) -> Option<Frame>
        ensures { TakesFrame port self.old result self.new }
    {
        self.hints.at(port);
        let watched = self.bays.get_mut(usize::from(port))?;
        watched.rests = false;
        let bay = &mut watched.bay;
        match bay.unit {
            Unit::Own => {
                bay.told = false;
                bay.down.take()
            }
            Unit::Empty | Unit::Disk(_) => None,
        }
    }

    /// A FIS of the device of the caller's own at a port. It is given back where another waits, and where no such device is
    /// plugged in.
    pub fn offer(&mut self, port: u8, frame: Frame) -> Result<(), Frame>
        ensures { OffersFrame port frame self.old result self.new }
    {
        self.hints.says(port);
        let Some(watched) = self.bays.get(usize::from(port)) else {
            return Err(frame);
        };
        match watched.bay.unit {
            Unit::Own if self.fan.wants(port) => match self.fan.offer(port, frame) {
                Ok(_) => Ok(()),
                Err(frame) => Err(frame),
            },
            _ => Err(frame),
        }
    }
}
