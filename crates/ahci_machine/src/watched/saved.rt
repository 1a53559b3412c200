//! A port as words, and back: whether it is known to rest is not saved.

ghost use Rattle.ahci_machine.specs.Saved.{bay_words};

use super::WatchedBay;
use crate::bay::Bay;
use saved_state::{RestoreError, Saved, Words};
use std::alloc::{AllocError, Global};

impl Saved for WatchedBay {
    ghost put = { bay_words.put };

    ghost keeps = { bay_words.keeps };

    ghost told_apart = { bay_words.apart };

    fn save(&self, words: &mut Words) -> Result<(), AllocError> {
        self.bay.save(words)
    }

    fn restore(alloc: Global, words: &mut Words) -> Result<WatchedBay, RestoreError> {
        match Bay::restore(alloc, words) {
            Ok(bay) => Ok(WatchedBay::new(bay)),
            Err(error) => Err(error),
        }
    }
}
