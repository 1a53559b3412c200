//! The state of a value as words, and back: what `save` wrote `restore` gives, and whatever else the words are, what it gives
//! meets the rules of its type, or is refused.
//!
//! [`Words`] are a stack. [`Saved::save`] of a type with parts saves its last part first, so [`Saved::restore`] takes them off in
//! order. A contract sees the words from the top: `put value rest` are the words of the value, and behind them `rest`. So the words of
//! parts one after another need no law of lists.
#![tactic(auto)]

mod list;
mod saved;
mod words;

pub use list::SavedList;
pub use saved::{Saved, restore_all, restore_list, save_all, save_list};
pub use words::{RestoreError, Words};
