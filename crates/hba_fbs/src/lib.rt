//! An AHCI host port with FIS-based switching: the registers that software reads and writes, the command
//! slots, the FISes of the devices behind the port, and the frames that go out to them.
//!
//! The value of a [`HostPort`] has its own registers, the slots, the errors, the task file of each device,
//! the commands of the issued slots, and the running number of its frames. The view of a device is a function
//! of this value. Of the slots, task files and faults, the FISes of a device look at and change only the
//! device's own view.
//!
//! [`HostPort::read`] shows a register. [`HostPort::write`] takes all bits of a value, or refuses the write.
//! [`HostPort::take`] takes a FIS. [`HostPort::next_out`] gives the next frame to go out; no other call asks
//! for memory.
//!
//! A [`HostPort`] is a [`PortCore`] beside a memory. The core holds no memory: it says what a FIS does and what goes out
//! next, and whoever has the memory reads commands and tables there, posts FISes and moves the bytes.
#![tactic(auto)]

mod asking;
mod bits;
mod bounds;
mod choosing;
mod data;
mod due;
mod error;
mod greeting;
mod hearing;
mod issue;
mod list;
mod offers;
mod placing;
mod port;
mod post;
mod reasons;
mod register;
mod registers;
mod report;
mod reset;
mod room;
mod sending;
mod shell;
mod state;
mod status;
mod stopping;
mod tables;
mod take;
mod turn;

pub use due::Due;
pub use error::{IssueError, NoRegister, WriteError};
pub use greeting::{Line, Listens};
pub use hearing::{Fault, Happening, Heard};
pub use offers::Offers;
pub use port::PortCore;
pub use reasons::Ignored;
pub use register::Register;
pub use registers::Registers;
pub use report::{TakeReport, Wrote};
pub use room::Room;
pub use shell::HostPort;
pub use state::DeviceState;
pub use status::Block;
pub use turn::Turn;
