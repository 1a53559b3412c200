//! A disk and the driver that serves it, whatever goes wrong with the disk. Both are together from the opening, or from
//! where they began anew, up to an error or a fault that the host takes from the disk: up to there the host port, the
//! driver and the FISes of the disk's link say the same. Then the device is set aside, until they begin anew.
//!
//! Every function is a law: an empty body whose contract is the statement.
#![tactic(auto)]

mod laws;

pub use laws::{
    begins_anew_apart, begins_to_serve, calm_turns_serve_on, each_end_is_honest, ends_go_on,
    flushes_are_taken, flushes_go_down, pushes_keep_honest, pushes_serve_on, resets_begin_free,
    resets_set_aside, serves_honestly, stays_unasked, takes_keep_honest, takes_serve_on,
};
