//! Whose turn it is as words, and back.

ghost use Rattle.ahci_controller.specs.Saved.{circle_words};

use super::Circle;
use saved_state::{RestoreError, Saved, Words};
use std::alloc::{AllocError, Global};

impl Saved for Circle {
    ghost put = { circle_words.put };

    ghost keeps = { circle_words.keeps };

    ghost told_apart = { circle_words.apart };

    fn save(&self, words: &mut Words) -> Result<(), AllocError> {
        ((self.slot, self.read, self.device), self.fed).save(words)
    }

    fn restore(alloc: Global, words: &mut Words) -> Result<Circle, RestoreError> {
        match <((u8, u8, u8), bool)>::restore(alloc, words) {
            Ok(((slot, read, device), fed)) => Ok(Circle {
                slot,
                read,
                device,
                fed,
            }),
            Err(error) => Err(error),
        }
    }
}
