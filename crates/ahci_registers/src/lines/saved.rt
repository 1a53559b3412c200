//! The interrupts as words, and back.

ghost use Rattle.ahci_registers.specs.Saved.{KeepsLines, lines_apart, put_lines};

use super::Lines;
use saved_state::{RestoreError, Saved, Words};
use std::alloc::{AllocError, Global};

impl Saved for Lines {
    ghost put = { put_lines };

    ghost keeps = { KeepsLines };

    ghost told_apart = { lines_apart };

    fn save(&self, words: &mut Words) -> Result<(), AllocError> {
        (self.status, self.mask, self.enabled).save(words)
    }

    fn restore(alloc: Global, words: &mut Words) -> Result<Lines, RestoreError> {
        match <(u32, u32, bool)>::restore(alloc, words) {
            Ok((status, mask, enabled)) => Ok(Lines {
                status,
                mask,
                enabled,
            }),
            Err(error) => Err(error),
        }
    }
}
