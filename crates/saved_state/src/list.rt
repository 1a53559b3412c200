//! Lists that are saved whole.

ghost use Rattle.std.specs.Prelude.{◌≡◌};
ghost use Rattle.std.specs.List.{AllByRecursion};
ghost use Rattle.saved_state.specs.State.{list_apart, put_list};

use crate::saved::{Saved, restore_list, save_list};
use crate::words::{RestoreError, Words};
use std::alloc::{AllocError, Global};
use std::marker::Model;

/// A list that is saved and restored as one value: how many there are, and then each.
#[derive(Drop)]
pub struct SavedList<T> {
    items: Vec<T>,
}

impl<T> Model for SavedList<T> {
    ghost use Rattle.std.specs.Prelude.{List};

    ghost Value = { List T };

    ghost view = { λ l. l.items.items };
}

impl<T> SavedList<T> {
    /// Its items.
    pub fn into_vec(self) -> Vec<T>
        ensures { result.items ≡ self }
    {
        self.items
    }
}

impl<T: Saved> Saved for SavedList<T> {
    ghost put = { put_list T.put };

    ghost keeps = { AllByRecursion T.keeps };

    ghost told_apart = { list_apart T.put T.keeps T.told_apart };

    fn save(&self, words: &mut Words) -> Result<(), AllocError> {
        save_list(&self.items, words)
    }

    fn restore(alloc: Global, words: &mut Words) -> Result<SavedList<T>, RestoreError> {
        match restore_list(alloc, words) {
            Ok(items) => Ok(SavedList { items }),
            Err(error) => Err(error),
        }
    }
}
