//! A port multiplier in a thread of its own.
//!
//! A [`PmWorker`] is a [`Multiplier`](multiplier::Multiplier) with the seats of all its links: a
//! [`PmPort`] for each device port, and two at the host. It takes connections that came and went,
//! FISes of devices and FISes of the host. It has the multiplier serve them, and sends up and down
//! what the multiplier gives. A FIS of the host that the multiplier gives back stays in the worker's
//! hand and is tried again first. A FIS that a full link does not take goes back to the multiplier.
//!
//! Whatever other threads do, it is a run (`specs/Runs.antt`): there is one list of calls of the
//! multiplier, and the lists of its seats are projections of it. `specs/Passing.antt` says what
//! follows for each port.
#![tactic(auto)]

mod end;
mod port;
mod worker;

pub use end::PmEnd;
pub use port::PmPort;
pub use worker::PmWorker;
