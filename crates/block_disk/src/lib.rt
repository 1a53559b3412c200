//! The commands of a block disk under way, by tag.
#![tactic(auto)]

mod commands;
mod laws;
mod requests;

pub use commands::Commands;
pub use laws::{
    data_are_named, ends_are_earned, late_answers_count_for_nothing, numbers_are_fresh,
};
pub use requests::Requests;
