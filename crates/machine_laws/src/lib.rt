//! Laws over every run of a machine (`ahci_machine`): whatever its guest, its devices and its media do.
//!
//! Each function here is a law: its clauses hold of every machine, and it runs no code. What happens to a machine is a list of its
//! calls and of its own moves; what that is to each of its parts is a list of calls of that part, so the laws of the parts hold.
#![tactic(auto)]

mod falling;
mod heard;
mod laws;
mod rest;
mod rising;

pub use falling::{frames_fall_in_order, sent_frames_are_supplied};
pub use heard::disks_hear_what_was_sent;
pub use laws::{
    controller_goes_on, controller_has_its_laws, disks_go_on, disks_have_their_laws,
    ports_are_apart, taken_frames_are_lent,
};
pub use rest::rest_is_owed;
pub use rising::{
    connections_end, data_rise_unchanged, frames_name_their_port, frames_rise_in_order,
};
