//! The link as words, and back.

ghost use Rattle.ahci_registers.specs.Saved.{KeepsLink, link_apart, put_link};

use super::LinkControl;
use saved_state::{RestoreError, Saved, Words};
use std::alloc::{AllocError, Global};

impl Saved for LinkControl {
    ghost put = { put_link };

    ghost keeps = { KeepsLink };

    ghost told_apart = { link_apart };

    fn save(&self, words: &mut Words) -> Result<(), AllocError> {
        self.control.save(words)
    }

    fn restore(alloc: Global, words: &mut Words) -> Result<LinkControl, RestoreError> {
        match u32::restore(alloc, words) {
            Ok(control) => Ok(LinkControl { control }),
            Err(error) => Err(error),
        }
    }
}
