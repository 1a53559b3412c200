//! A guest's memory in one block, for tests and for guests that a scenario plays: [`FlatGuest`].
#![tactic(auto)]

mod flat;

pub use flat::{FlatError, FlatGuest, NotThere};
