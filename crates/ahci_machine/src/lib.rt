//! An AHCI controller with the disks behind it, as one value, for authors of virtual machines.
//!
//! A [`Machine`] has a controller, one device or a port multiplier with up to fifteen behind it, and at each port a disk whose
//! sectors lie with the caller, or a device of the caller's own. It does no input and no output: the caller gives register
//! accesses and answers, and asks [`Machine::next`] what is to be done. Each move is an [`Act`], which [`Machine::step`] answers.
#![tactic(auto)]

mod act;
mod answers;
mod bay;
mod control;
mod gathering;
mod hints;
mod machine;
mod ports;
mod request;
mod serving;
mod state;
mod stepping;
mod watched;

pub use act::Act;
pub use answers::{MediumError, Told};
pub use bay::Unit;
pub use machine::Machine;
pub use ports::PortFault;
pub use request::{GuestRead, MediumId, Request, Wanted};
pub use state::{STATE_MARK, STATE_VERSION, StateError, states_are_apart};
