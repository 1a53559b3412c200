//! What is issued in a slot as words, and back.

ghost use Rattle.std.specs.Prelude.{◌≡◌, ◌↔◌, true, Some};
ghost use Rattle.slots.specs.Saved.{KeepsIssued, KeepsSlot, issued_apart, put_issued, put_slot, slot_apart};
ghost use Rattle.slots.specs.Issued.{HasRoom};
ghost use Rattle.slots.specs.Work.{IsWork};

use super::{Issued, Slot};
use crate::moved::Moved;
use crate::work::{Kind, Work};
use saved_state::{RestoreError, Saved, Words};
use std::alloc::{AllocError, Global};

/// The most bytes of a command.
const MAX_LEN: u32 = 0x200_0000;

impl Saved for Issued {
    ghost put = { put_issued };

    ghost keeps = { KeepsIssued };

    ghost told_apart = { issued_apart };

    fn save(&self, words: &mut Words) -> Result<(), AllocError> {
        self.answered.save(words)?;
        self.sent.save(words)?;
        self.work.save(words)?;
        self.dev.save(words)
    }

    fn restore(alloc: Global, words: &mut Words) -> Result<Issued, RestoreError> {
        match <((u8, Work), (bool, bool))>::restore(alloc, words) {
            Ok(((dev, work), (sent, answered))) => Ok(Issued {
                dev,
                work,
                sent,
                answered,
            }),
            Err(error) => Err(error),
        }
    }
}

// Whether a command can ask for this.
fn is_work(work: Work) -> bool
    ensures { (result ≡ true) ↔ IsWork work }
{
    let moves = !matches!(work.kind, Kind::NoData | Kind::Control);
    work.len % 4 == 0 && work.len <= MAX_LEN && moves == (work.len > 0)
}

// Whether it is some work, with a flag for each dword.
fn has_room(issued: Issued, moved: &Moved) -> bool
    ensures { (result ≡ true) ↔ HasRoom (Some issued) moved.now }
{
    is_work(issued.work) && moved.dwords() == issued.work.len / 4
}

impl Saved for Slot {
    ghost put = { put_slot };

    ghost keeps = { KeepsSlot };

    ghost told_apart = { slot_apart };

    fn save(&self, words: &mut Words) -> Result<(), AllocError> {
        match self.issued {
            None => words.push(0),
            Some(issued) => {
                self.moved.save(words)?;
                issued.save(words)?;
                words.push(1)
            }
        }
    }

    fn restore(alloc: Global, words: &mut Words) -> Result<Slot, RestoreError> {
        match <Option<(Issued, Moved)>>::restore(alloc, words) {
            Ok(None) => Ok(Slot::new()),
            Ok(Some((issued, moved))) => {
                if !has_room(issued, &moved) {
                    return Err(RestoreError::Broken);
                }
                Ok(Slot {
                    issued: Some(issued),
                    moved,
                })
            }
            Err(error) => Err(error),
        }
    }
}
