//! The command of one slot, as a controller reads it out of a guest's memory, and where the command's bytes lie there.
//!
//! Nothing here reads. A [`Fetch`] says which bytes it wants ([`Fetch::want`]) and takes them
//! ([`Fetch::supply`]), or that there is no memory ([`Fetch::no_memory`]), until it is a [`Command`] or a
//! [`Refusal`]. [`Table::moves`] says where the bytes of a Data FIS lie, for both directions.
#![tactic(auto)]

mod command;
mod entry;
mod fetch;
mod head;
mod header;
mod laws;
mod moves;
mod refusal;
mod span;
mod table;
mod want;

pub use command::{ByteCount, Command};
pub use entry::{Entry, EntryFault, FaultyEntry};
pub use fetch::{Fetch, Step, Supplied};
pub use head::Head;
pub use header::Header;
pub use laws::{
    bytes_go_only_to_their_table, commands_are_of_their_parts, commands_are_what_was_supplied,
    counts_are_of_bytes, data_are_one_transfer,
};
pub use moves::{Move, Moves};
pub use refusal::{Part, Refusal};
pub use table::Table;
pub use want::Want;
