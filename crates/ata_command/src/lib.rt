//! What a Register Host to Device FIS asks of an ATA disk (ACS-3, 7; Serial ATA 3.x, 13.6).
#![tactic(auto)]

mod asked;
mod control;
mod facts;
mod opcode;
mod settings;
mod trim;

pub use asked::{Asked, LogPage, Move, PowerTask, Refusal, SmartTask};
pub use control::{Course, Standing, course_of, resets};
pub use facts::Facts;
pub use opcode::{Opcode, Transfer, Way};
pub use settings::{Multiple, Setting, Settings, TransferMode};
pub use trim::{Extent, extents_of};
