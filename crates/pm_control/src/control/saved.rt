//! The control port as words, and back.

ghost use Rattle.saved_state.specs.State.{bool_apart, put_bool};

use super::PmControl;
use saved_state::{RestoreError, Saved, Words};
use std::alloc::{AllocError, Global};

impl Saved for PmControl {
    ghost put = { put_bool };

    ghost keeps = { λ _. Unit {0} };

    ghost told_apart = { λ a b x y k l e. bool_apart a b x y e };

    fn save(&self, words: &mut Words) -> Result<(), AllocError> {
        self.resetting.save(words)
    }

    fn restore(alloc: Global, words: &mut Words) -> Result<PmControl, RestoreError> {
        match bool::restore(alloc, words) {
            Ok(resetting) => Ok(PmControl { resetting }),
            Err(error) => Err(error),
        }
    }
}
