//! What a list of frames or a scenario means, line by line, from a reader to a writer.
//!
//! [`serve`] does what the words of a command line ask for. `decode` prints each frame in words,
//! `run` plays a scenario on a world of devices, a port multiplier and a host, `threads` runs each of
//! these in a thread of its own, and `guest` plays the accesses of a driver to an AHCI controller. Its
//! result is the exit status, which says how a run ended.
//! [`refuse`] gives the exit status of a run that cannot begin.
#![tactic(auto)]

mod command_line;
mod help;
mod program;

pub use program::{refuse, serve};
pub use trace_text::{Failure, LONGEST_INPUT};
