//! A world of devices, a port multiplier and a host, in which one step is one action of one actor.
//!
//! `World::run` takes any list of steps, in any order. Its contract says that nothing is made up or
//! reordered on the way, upward or downward, and that nothing is lost but what the multiplier drops:
//! FISes of a connection that went, and on the way down FISes for a port that does not forward. What
//! the host took from each device on each connection is a prefix of what that device
//! sent on it, marked with its port. What a device took is a prefix of what the host's frames passed
//! down to it.
#![tactic(auto)]

mod counts;
mod device;
mod hop;
mod host;
mod laws;
mod link;
mod machine;
mod passing;
mod seat;
mod step;
mod world;

pub use counts::{ConnCount, Counts};
pub use device::{AnyDevice, PortDevice};
pub use hop::Hop;
pub use laws::{
    commands_are_meant, connections_follow, disks_are_honest, ends_meet, flushes_follow_writes,
    media_change_by_writes, none_is_stale, one_order_at_a_time, ordered_is_not_stale, paths_go_on,
    polled_errors_are_named, polled_is_honest, ports_go_on, ports_keep_to_one,
    ports_rest_at_a_flush, reads_bring_writes, reads_follow_writes, writes_are_as_submitted,
};
pub use step::{Answer, Config, Step, StepError, WorldError};
pub use world::World;
