//! What is wanted of the guest, and what is to be written to it, as words, and back.

ghost use Rattle.ahci_controller.specs.Saved.{carried_words, wants_words, writes_words};

use super::{Carried, Wants, Writes};
use guest_fetch::Move;
use saved_state::{RestoreError, Saved, Words};
use std::alloc::{AllocError, Global};

type WantsParts = ((u32, u32, u32), (u64, [u64; 32], [u64; 16]));

impl Saved for Wants {
    ghost put = { wants_words.put };

    ghost keeps = { wants_words.keeps };

    ghost told_apart = { wants_words.apart };

    fn save(&self, words: &mut Words) -> Result<(), AllocError> {
        (self.count, self.slots, self.devices).save(words)?;
        (self.pending, self.out, self.feeding).save(words)
    }

    fn restore(alloc: Global, words: &mut Words) -> Result<Wants, RestoreError> {
        let (masks, (count, slots, devices)) = match <WantsParts>::restore(alloc, words) {
            Ok(parts) => parts,
            Err(error) => return Err(error),
        };
        let (pending, out, feeding) = masks;
        Ok(Wants {
            pending,
            out,
            feeding,
            count,
            slots,
            devices,
        })
    }
}

impl Saved for Carried {
    ghost put = { carried_words.put };

    ghost keeps = { carried_words.keeps };

    ghost told_apart = { carried_words.apart };

    fn save(&self, words: &mut Words) -> Result<(), AllocError> {
        (self.slot, (self.offset, self.from, self.len)).save(words)
    }

    fn restore(alloc: Global, words: &mut Words) -> Result<Carried, RestoreError> {
        match <(u8, (u32, u32, u32))>::restore(alloc, words) {
            Ok((slot, (offset, from, len))) => Ok(Carried {
                slot,
                offset,
                from,
                len,
            }),
            Err(error) => Err(error),
        }
    }
}

impl Saved for Writes {
    ghost put = { writes_words.put };

    ghost keeps = { writes_words.keeps };

    ghost told_apart = { writes_words.apart };

    fn save(&self, words: &mut Words) -> Result<(), AllocError> {
        (self.payload, self.posted, self.counted).save(words)
    }

    fn restore(alloc: Global, words: &mut Words) -> Result<Writes, RestoreError> {
        match <(Option<Carried>, Option<Move>, u32)>::restore(alloc, words) {
            Ok((payload, posted, counted)) => Ok(Writes {
                payload,
                posted,
                counted,
            }),
            Err(error) => Err(error),
        }
    }
}
