//! A controller as words, and back. What is restored keeps the rules of every controller.

ghost use Rattle.ahci_controller.specs.SavedController.{controller_words};

use super::Controller;
use crate::parts::Parts;
use saved_state::{RestoreError, Saved, Words};
use std::alloc::{AllocError, Global};

impl Saved for Controller {
    ghost put = { controller_words.put };

    ghost keeps = { controller_words.keeps };

    ghost told_apart = { controller_words.apart };

    fn save(&self, words: &mut Words) -> Result<(), AllocError> {
        self.parts.save(words)
    }

    fn restore(alloc: Global, words: &mut Words) -> Result<Controller, RestoreError> {
        let parts = match Parts::restore(alloc, words) {
            Ok(parts) => parts,
            Err(error) => return Err(error),
        };
        if !parts.are_offered() {
            return Err(RestoreError::Broken);
        }
        if !parts.is_ruled() {
            return Err(RestoreError::Broken);
        }
        Ok(Controller { parts })
    }
}
