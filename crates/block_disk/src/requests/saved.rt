//! Commands with the numbers of their requests as words, and back.

ghost use Rattle.std.specs.Prelude.{◌≡◌};
ghost use Rattle.block_disk.specs.Saved.{KeepsQueue, put_queue, queue_apart};

use super::Requests;
use crate::commands::Commands;
use saved_state::{RestoreError, Saved, Words};
use std::alloc::{AllocError, Global};

type Parts = (Commands, [u64; 33], u64);

impl Saved for Requests {
    ghost put = { put_queue };

    ghost keeps = { KeepsQueue };

    ghost told_apart = { queue_apart };

    fn save(&self, words: &mut Words) -> Result<(), AllocError> {
        self.next.save(words)?;
        self.out.save(words)?;
        self.commands.save(words)
    }

    fn restore(alloc: Global, words: &mut Words) -> Result<Requests, RestoreError> {
        let (commands, out, next) = match <Parts>::restore(alloc, words) {
            Ok(parts) => parts,
            Err(error) => return Err(error),
        };
        Ok(Requests {
            commands,
            out,
            next,
        })
    }
}
