//! Laws over lists of calls of a controller (`ahci_controller`), whatever its guest writes and supplies, and whatever its
//! devices send.
//!
//! Each function here is a law: its clauses hold of every controller, and it runs no code. What the calls do to the core of
//! the controller is a list of events, of which the laws of `hba_laws` speak.
#![tactic(auto)]

mod laws;

pub use laws::{
    active_falls, bytes_go_to_their_places, commands_are_supplied, commands_come_round,
    events_are_core_events, issues_fall, line_is_told, writes_are_placed,
};
