//! A command as words, and back.

ghost use Rattle.hba_commands.specs.Saved.{KeepsCommand, command_apart, put_command};

use super::Command;
use saved_state::{RestoreError, Saved, Words, save_all};
use slots::Work;
use std::alloc::{AllocError, Global};

impl Saved for Command {
    ghost put = { put_command };

    ghost keeps = { KeepsCommand };

    ghost told_apart = { command_apart };

    fn save(&self, words: &mut Words) -> Result<(), AllocError> {
        self.count.save(words)?;
        self.table.save(words)?;
        save_all(&self.cfis, words)?;
        self.work.save(words)
    }

    fn restore(alloc: Global, words: &mut Words) -> Result<Command, RestoreError> {
        let ((work, cfis), (table, count)) = match <((Work, [u8; 20]), (u32, u16))>::restore(
            alloc, words,
        ) {
            Ok(parts) => parts,
            Err(error) => return Err(error),
        };
        Ok(Command {
            work,
            cfis,
            table,
            count,
        })
    }
}
