//! Which command of a block disk goes next, within a bound in bytes.
#![tactic(auto)]

mod laws;
mod scheduler;
mod sets;

pub use laws::{
    data_are_named, ends_are_earned, numbers_are_fresh, requests_are_apart, something_moves,
};
pub use scheduler::{NextFis, Scheduler};
