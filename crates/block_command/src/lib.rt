//! One command of a block disk: a read or a write whose sectors lie with the caller.
//!
//! A [`BlockCommand`] asks its caller for the sectors ([`Turn::Load`]), takes the answer, and says which FIS
//! goes next; a write collects its Data and then asks for the store, and for a flush behind it where it is to
//! last. It is a state machine without input or output: [`BlockCommand::turn`] says what is next,
//! [`BlockCommand::go`] that it was done.
//!
//! The law over runs, [`ends_are_earned`], looks at nothing but the list of what was asked, answered, sent and
//! received.
#![tactic(auto)]

mod answer;
mod command;
mod laws;

pub use answer::AnswerError;
pub use command::{BlockCommand, Command, Protocol, Stage, Turn};
pub use laws::ends_are_earned;
