//! The commands of a block disk, of which those that share a sector are kept apart.
#![tactic(auto)]

mod laws;
mod places;
mod queue;

pub use laws::{
    data_are_named, ends_are_earned, numbers_are_fresh, requests_are_apart, something_moves,
    taken_is_last,
};
pub use places::{first_in, without};
pub use queue::{CommandQueue, Orphan};
