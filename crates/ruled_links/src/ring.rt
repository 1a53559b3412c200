//! The slots of a link.

ghost use Rattle.std.specs.Prelude.{◌≡◌, ◌≤◌};

use crate::item::Item;
use crate::rule::{Ruled, View};
use atomic_table::{Seat, Table};
use std::alloc::Global;

/// What one seat knows of the link. It has no bytes.
pub(crate) type Pass<T> = Seat<Option<T>, View<T>>;

/// The slots of a link.
#[derive(Drop)]
pub(crate) struct Ring<T: Item> {
    pub(crate) table: Table<Option<T>, View<T>, (), Ruled, Global>,
    pub(crate) room: u64,
    ghost sized: { (table.shared.table_id.words ≡ 48) × (table.shared.table_id.slots ≡ room) × (1 ≤ room) },
}
