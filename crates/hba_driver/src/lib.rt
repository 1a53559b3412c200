//! A small driver of one AHCI host port with a port multiplier behind it.
//!
//! [`Driver::tick`] does the next thing that is due. It opens the port, clears faults, brings up the
//! multiplier and the devices behind it, lets devices recover, and issues the requests that wait.
//! [`Driver::submit`] takes a request or says why not. [`Driver::poll`] gives an ended one. The driver's
//! fields have a fixed size: no call takes memory.
#![tactic(auto)]

mod driver;
mod effect;
mod laws;
mod mask;
mod mode;
mod order;
mod path;
mod plan;
mod refusal;
mod request;
mod scan;
mod sight;
mod slot;
mod span;
mod taken;
mod turn;

pub use driver::Driver;
pub use laws::{
    absent_before, commands_stand, devices_are_apart, devices_are_known, done_is_free,
    done_is_true, done_was_reported, errors_are_named, frames_are_addressed, hosts_stay_sound,
    none_is_armed, orders_take_turns, port_goes_on, requests_stay_with_their_device,
    resets_are_issued, scans_clear, ticks_keep, ticks_serve, turns_are_events, turns_are_steady,
    turns_deliver, turns_keep, turns_serve, turns_tend, writes_are_accepted, writes_are_held,
};
pub use mode::Mode;
pub use request::{Completion, Outcome, Request, SubmitError, Ticket, Work};
