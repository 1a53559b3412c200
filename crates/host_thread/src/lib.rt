//! The host in a thread of its own.
//!
//! A [`HostWorker`] is a host port, a driver and their memory, with the two seats of the host and a
//! plan of requests. It takes FISes, lets the driver tick, sends what the port gives, submits the
//! requests of the plan in their order, and polls those that ended. It ends when all have ended.
//!
//! Whatever other threads do, what it took is in stamped order, and it is a run (`specs/Runs.antt`):
//! there is one list of turns of the host. The lists of its seats are projections of it, and the laws
//! of `hba_driver` speak about it. What the worker says of each request of its plan is in these
//! turns. Each request was given to the driver after all before it. A request that waits was given
//! after all before it had ended. Nothing else was given, and each request that was taken was taken
//! once. Nothing was polled of a request that is open. None ends by a refusal that may pass.
#![tactic(auto)]

mod end;
mod host;
mod plan;
mod tally;
mod worker;

pub use end::HostEnd;
pub use plan::{Ended, Planned, State};
pub use worker::HostWorker;
