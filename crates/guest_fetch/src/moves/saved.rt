//! A move as words, and back.

ghost use Rattle.guest_fetch.specs.Saved.{move_words};

use super::Move;
use saved_state::{RestoreError, Saved, Words};
use std::alloc::{AllocError, Global};

impl Saved for Move {
    ghost put = { move_words.put };

    ghost keeps = { move_words.keeps };

    ghost told_apart = { move_words.apart };

    fn save(&self, words: &mut Words) -> Result<(), AllocError> {
        let place = (self.at, self.from as u64, self.len as u64);
        (place, self.interrupt).save(words)
    }

    fn restore(alloc: Global, words: &mut Words) -> Result<Move, RestoreError> {
        match <((u64, u64, u64), bool)>::restore(alloc, words) {
            Ok(((at, from, len), interrupt)) => Ok(Move {
                at,
                from: from as usize,
                len: len as usize,
                interrupt,
            }),
            Err(error) => Err(error),
        }
    }
}
