//! An AHCI controller of one port, for software that nobody here wrote (AHCI 1.3.1).
//!
//! A [`Controller`] stands round a [`PortCore`](hba_fbs::PortCore), which decides and moves no byte. It reads no memory
//! either: it says what it wants of the guest's, and takes what is supplied. What a guest writes to a register is never an
//! error.
#![tactic(auto)]

mod access;
mod bits;
mod causes;
mod circle;
mod feeding;
mod fetching;
mod issuing;
mod latch;
mod laws;
mod moving;
mod next;
mod offer;
mod own;
mod parts;
mod reading;
mod ruled;
mod taking;
mod tested;
mod wants;
mod wide;
mod writing;

pub use access::Width;
pub use circle::Circle;
pub use feeding::Fed;
pub use fetching::Ask;
pub use issuing::{NotTaken, Supply};
pub use latch::{Edge, Latch};
pub use laws::turns_come_round;
pub use next::Next;
pub use offer::Offered;
pub use own::{Base, OwnRegisters};
pub use ruled::Controller;
pub use taking::{Hindrance, Took};
pub use wants::{Carried, Wants, Writes};
pub use wide::WideWritten;
pub use writing::Written;
