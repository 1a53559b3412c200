//! The control port of a port multiplier (Serial ATA 3.x, 16.2 and 16.3): it answers the register commands and the
//! software reset that the host sends to PM Port Fh, and makes the asynchronous notification.
#![tactic(auto)]

mod control;
mod laws;
mod request;

pub use control::PmControl;
pub use laws::commands_are_answered;
