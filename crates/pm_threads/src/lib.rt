//! Devices, a port multiplier and a host, each in a thread of its own, on links between threads. The
//! devices are of one type, which may be any that has the trait [`Device`](disk_model::Device).
//!
//! [`run_threads`] seats a worker at each end of the [`Links`] and runs all of them side by side.
//! [`close`] brings the seats together again. It says what holds for every run, whatever the threads
//! did when: what the host took of a connection is a beginning of what its device sent on it. For a run
//! that has not finished, [`close_unfinished`] does the same, and says which requests are open.
#![tactic(auto)]

mod closing;
mod finished;
mod links;
mod meeting;
mod outcomes;
mod run;
mod seats;
mod setup;

pub use closing::{CloseError, PartialSummary, Summary, close, close_unfinished};
pub use disk_thread::{Gate, GateShut};
pub use finished::{Finished, Unfinished};
pub use host_thread::{Ended, Planned, State};
pub use links::{Links, LinksError};
pub use run::{RunError, RunFailure, run_threads};
pub use setup::{MAX_TURNS, Setup};
