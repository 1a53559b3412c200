//! A machine as words, and back.

ghost use Rattle.std.specs.Prelude.{◌≡◌, OnOk};
ghost use Rattle.ahci_machine.specs.Saved.{between_of, lent_words, machine_words, marks_of, of_between, of_marks};

use super::{Lent, Machine};
use crate::gathering::Gathering;
use crate::hints::Hints;
use crate::watched::WatchedBay;
use ahci_controller::{Controller, Next};
use fan_out::FanOut;
use fis_view::Frame;
use saved_state::{RestoreError, Saved, SavedList, Words, save_list};
use std::alloc::{AllocError, Global};

impl Saved for Lent {
    ghost put = { lent_words.put };

    ghost keeps = { lent_words.keeps };

    ghost told_apart = { lent_words.apart };

    fn save(&self, words: &mut Words) -> Result<(), AllocError> {
        match self {
            Lent::Nothing => words.push(0),
            Lent::Frame { from, len } => {
                (*from as u64, *len as u64).save(words)?;
                words.push(1)
            }
            Lent::Count(bytes) => {
                bytes.save(words)?;
                words.push(2)
            }
        }
    }

    fn restore(alloc: Global, words: &mut Words) -> Result<Lent, RestoreError> {
        match words.pop().ok_or(RestoreError::Short)? {
            0 => Ok(Lent::Nothing),
            1 => {
                let from = u64::restore(alloc, words)?;
                let len = u64::restore(alloc, words)?;
                Ok(Lent::Frame {
                    from: from as usize,
                    len: len as usize,
                })
            }
            2 => {
                let bytes = <[u8; 4]>::restore(alloc, words)?;
                Ok(Lent::Count(bytes))
            }
            _ => Err(RestoreError::NoSuch),
        }
    }
}

// Controller, what is behind it, and its ports.
type Ends = (Controller, FanOut, SavedList<WatchedBay>);

// The frame on its way up and that on its way down, what is next to do, and what is being read.
type Between = (
    (Option<Frame>, Option<Frame>),
    (Option<Next>, [Option<Gathering>; 16]),
);

// What is lent; whether the frame is taken, and may be to be written; the line and a message; whose turn it is.
type Marks = (Lent, (bool, bool), ((bool, bool), (bool, u8)));

impl Machine {
    fn save_marks(&self, words: &mut Words) -> Result<(), AllocError>
        ensures words { OnOk result (words.new ≡ of_marks.put (marks_of self.now) words.old) }
        ensures keeps { OnOk result (of_marks.keeps (marks_of self.now)) }
    {
        ((self.told, self.message), (self.first, self.turn)).save(words)?;
        (self.taken, self.writing).save(words)?;
        self.lent.save(words)
    }

    fn save_between(&self, words: &mut Words) -> Result<(), AllocError>
        ensures words { OnOk result (words.new ≡ of_between.put (between_of self.now) words.old) }
        ensures keeps { OnOk result (of_between.keeps (between_of self.now)) }
    {
        self.gathering.save(words)?;
        self.kept.save(words)?;
        self.outgoing.save(words)?;
        self.incoming.save(words)
    }
}

impl Saved for Machine {
    ghost put = { machine_words.put };

    ghost keeps = { machine_words.keeps };

    ghost told_apart = { machine_words.apart };

    fn save(&self, words: &mut Words) -> Result<(), AllocError> {
        self.save_marks(words)?;
        self.save_between(words)?;
        save_list(&self.bays, words)?;
        self.fan.save(words)?;
        self.controller.save(words)
    }

    fn restore(alloc: Global, words: &mut Words) -> Result<Machine, RestoreError> {
        let parts = match <(Ends, Between, Marks)>::restore(alloc, words) {
            Ok(parts) => parts,
            Err(error) => return Err(error),
        };
        let (ends, between, marks) = parts;
        let (controller, fan, bays) = ends;
        let (frames, doing) = between;
        let (incoming, outgoing) = frames;
        let (kept, gathering) = doing;
        let (lent, (taken, writing), ((told, message), (first, turn))) = marks;
        Ok(Machine {
            controller,
            fan,
            bays: bays.into_vec(),
            incoming,
            taken,
            writing,
            outgoing,
            kept,
            gathering,
            lent,
            told,
            message,
            first,
            turn,
            hints: Hints::everywhere(),
        })
    }
}
