//! When a world (`pm_world`) is at rest: no step of a round does anything. Then nothing is on its way but behind ports that
//! do not forward, the host port has nothing to send, and the driver waits for others alone. And how many frames may go before
//! one on its way up.
#![tactic(auto)]

mod laws;
mod round;

pub use laws::{
    asides_recover, each_takes_turns, idle_drivers_wait, rested_disks_are_left,
    rested_disks_have_done, rested_disks_have_signed, rested_drivers_watch, rested_have_done,
    rested_plans_match, rested_ports_are_open, rested_worlds_have_ended, still_rounds_rest,
};
pub use round::{is_still, rests};
