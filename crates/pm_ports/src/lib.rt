//! The fan-out ports of a Serial ATA port multiplier.
//!
//! A [`Port`] holds at most one frame on its way up to the host and at most one on its way down to the
//! device. It knows which connection of its device is present. A frame that it is offered is kept, dropped
//! because its connection is gone, or given back. No frame is replaced. When the removal of its device is
//! recorded ([`Port::gone`]), the frames of that connection are dropped, and no later frame of it is kept.
#![tactic(auto)]

mod port;

pub use port::{GoneError, Offered, Port, PortError};
