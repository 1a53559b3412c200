//! A device in a thread of its own, between the links of its port.
//!
//! A [`Station`] is a device with the seats of its three links and a place before each. The device is
//! plugged in, takes FISes of the host, gives its own, and is pulled out. A [`DiskWorker`] does this
//! turn by turn, and each FIS that it took passes a [`Gate`] before the device sees it. The station
//! stays a run of whatever device it was a run of (`specs/Runs.antt`): there is one order of all that
//! was taken, given and told. In that order each FIS given is one that the device might send then,
//! and the device is pulled out after exactly as many of its FISes as was due.
#![tactic(auto)]

mod gate;
mod station;
mod worker;

pub use gate::{Gate, GateShut};
pub use station::Station;
pub use worker::{DiskEnd, DiskWorker};
