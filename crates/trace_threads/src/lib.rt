//! Scenarios in threads: [`play_threads`] has each device, the port multiplier and the host work in a thread
//! of its own.
#![tactic(auto)]

mod agenda;
mod entry;
mod threads;
mod turns;

pub use threads::{Ending, play_threads};
pub use turns::Turns;
