//! The interrupts, of which IS keeps what came, as words, and back.

ghost use Rattle.ahci_controller.specs.Saved.{latch_words};

use super::Latch;
use ahci_registers::Lines;
use saved_state::{RestoreError, Saved, Words};
use std::alloc::{AllocError, Global};

impl Saved for Latch {
    ghost put = { latch_words.put };

    ghost keeps = { latch_words.keeps };

    ghost told_apart = { latch_words.apart };

    fn save(&self, words: &mut Words) -> Result<(), AllocError> {
        (self.lines, self.pending).save(words)
    }

    fn restore(alloc: Global, words: &mut Words) -> Result<Latch, RestoreError> {
        match <(Lines, bool)>::restore(alloc, words) {
            Ok((lines, pending)) => Ok(Latch { lines, pending }),
            Err(error) => Err(error),
        }
    }
}
