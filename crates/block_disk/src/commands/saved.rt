//! The commands by place as words, and back.

ghost use Rattle.std.specs.Prelude.{◌≡◌, ◌==◌, length};
ghost use Rattle.block_disk.specs.Saved.{KeepsTable, put_table, table_apart};

use super::Commands;
use block_command::BlockCommand;
use saved_state::{RestoreError, Saved, SavedList, Words, save_list};
use std::alloc::{AllocError, Global};

type Parts = (SavedList<Option<BlockCommand>>, Option<u8>);

/// Whether there are as many places as a disk has.
fn is_whole(by_place: &[Option<BlockCommand>]) -> bool
    ensures { result ≡ (length by_place.now == 33) }
{
    by_place.len() == 33
}

impl Saved for Commands {
    ghost put = { put_table };

    ghost keeps = { KeepsTable };

    ghost told_apart = { table_apart };

    fn save(&self, words: &mut Words) -> Result<(), AllocError> {
        self.wire.save(words)?;
        save_list(&self.by_place, words)
    }

    fn restore(alloc: Global, words: &mut Words) -> Result<Commands, RestoreError> {
        let (by_place, wire) = match <Parts>::restore(alloc, words) {
            Ok(parts) => parts,
            Err(error) => return Err(error),
        };
        let by_place = by_place.into_vec();
        if !is_whole(&by_place) {
            return Err(RestoreError::Broken);
        }
        Ok(Commands { by_place, wire })
    }
}
