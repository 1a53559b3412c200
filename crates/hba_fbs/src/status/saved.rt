//! The block of a PIO Setup as words, and back.

ghost use Rattle.hba_fbs.specs.Saved.{KeepsBlock, block_apart, put_block};

use super::Block;
use saved_state::{RestoreError, Saved, Words};
use std::alloc::{AllocError, Global};

impl Saved for Block {
    ghost put = { put_block };

    ghost keeps = { KeepsBlock };

    ghost told_apart = { block_apart };

    fn save(&self, words: &mut Words) -> Result<(), AllocError> {
        self.ends.save(words)?;
        self.interrupts.save(words)
    }

    fn restore(alloc: Global, words: &mut Words) -> Result<Block, RestoreError> {
        match <(bool, u8)>::restore(alloc, words) {
            Ok((interrupts, ends)) => Ok(Block { interrupts, ends }),
            Err(error) => Err(error),
        }
    }
}
