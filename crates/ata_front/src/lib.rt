//! What stands between a host and the commands of a disk that move sectors: what the disk owes the host, what it answers by
//! itself, its settings, its error and its reset; and the FIS of each such command.
#![tactic(auto)]

mod command_fis;
mod front;
mod task;

pub use command_fis::command_reply;
pub use front::{Front, Heard};
pub use task::{Act, Fault, Moving, Owed, Page, Purpose, Task, Trouble};
