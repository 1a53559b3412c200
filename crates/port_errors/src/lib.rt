//! The errors of an AHCI host port with FIS-based switching: which devices are faulty, each with its first
//! cause, which of them the port reports, and what stopped the port as a whole.
//!
//! A [`PortErrors`] is told of each fault and returns the [`Interrupts`] that the fault sets in PxIS.
//! [`PortErrors::fbs_bits`] is what PxFBS shows.
#![tactic(auto)]

mod cause;
mod errors;
mod interrupts;

pub use cause::{DeviceCause, PortCause, Stop};
pub use errors::{FbsBits, PortErrors};
pub use interrupts::Interrupts;
