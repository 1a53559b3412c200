//! What an AHCI controller of one port has apart from the port that serves commands (AHCI 1.3.1, sections
//! 3.1, Generic Host Control, and 3.3, Port Registers): its registers by their offsets, their bits, its
//! interrupts and its link.
//!
//! [`Register`] is the register file by its offsets. [`Lines`] keeps PxIS, PxIE and GHC.IE. It says what IS
//! shows, whether the interrupt line is raised, and when a message is due, for a function that sends messages
//! in place of the line. [`LinkControl`] keeps PxSCTL. It says what PxSSTS shows, and when the link is to be
//! reset.
#![tactic(auto)]

mod global;
mod laws;
mod lines;
mod link;
mod port;
mod register;
mod shadows;

pub use global::{Capabilities, GlobalControl};
pub use laws::{interrupts_follow_events, link_follows_writes};
pub use lines::{GlobalWrite, Lines};
pub use link::{Detected, Effect, LinkAction, LinkControl, LinkWrite};
pub use port::{PortCommand, PortInterrupts, SataError};
pub use register::Register;
