//! A command as words, and back.

ghost use Rattle.std.specs.Prelude.{◌≡◌};
ghost use Rattle.guest_fetch.specs.SavedCommands.{command_words, is_command as is_command_of};

use super::Command;
use crate::fetch::saved::has_room;
use crate::head::Head;
use crate::header::saved::is_taken;
use crate::table::Table;
use saved_state::{RestoreError, Saved, Words};
use std::alloc::{AllocError, Global};

type Parts = ((u64, Head), (Table, u32));

// Whether they are the parts of a command.
fn is_command(at: u64, head: &Head, table: &Table, moved: u32) -> bool
    ensures { result ≡ is_command_of ((at, head.now), (table.now, moved)) }
{
    has_room(at) && is_taken(&head.header) && table.len() == head.work.len && moved <= table.reach()
}

impl Saved for Command {
    ghost put = { command_words.put };

    ghost keeps = { command_words.keeps };

    ghost told_apart = { command_words.apart };

    fn save(&self, words: &mut Words) -> Result<(), AllocError> {
        self.moved.save(words)?;
        self.table.save(words)?;
        self.head.save(words)?;
        self.at.save(words)
    }

    fn restore(alloc: Global, words: &mut Words) -> Result<Command, RestoreError> {
        let ((at, head), (table, moved)) = match <Parts>::restore(alloc, words) {
            Ok(parts) => parts,
            Err(error) => return Err(error),
        };
        if !is_command(at, &head, &table, moved) {
            return Err(RestoreError::Broken);
        }
        Ok(Command {
            at,
            head,
            table,
            moved,
        })
    }
}
