//! The commands of a host port's slots: a header in the command list and its command table, read as one
//! command.
//!
//! [`Command::read`] reads what a driver wrote for a slot. [`write_command`] writes it as a driver does.
#![tactic(auto)]

mod command;
mod header;
mod laws;
mod request;
mod write;

pub use command::Command;
pub use header::pmp;
pub use laws::commands_are_of_their_bytes;
pub use request::asked_by;
pub use write::write_command;
