//! Why a request failed, or was given up.

use port_errors::DeviceCause;
use std::fmt;
use trace_text::device_fault;

/// A fault of a device.
#[derive(Clone, Copy)]
pub struct Fault {
    /// The number of the step that made it.
    pub step: u64,
    pub cause: DeviceCause,
}

impl fmt::Display for Fault {
    fn fmt<W: fmt::Write>(&self, f: &mut fmt::Formatter<W>) -> fmt::Result {
        let Fault { step, cause } = *self;
        write!(f, "fault {} at #{step}", device_fault(cause))
    }
}

/// Why a request failed, or was given up.
#[derive(Clone, Copy)]
pub enum Reason {
    /// Its device has this fault. If no log tells more, the device is reset.
    Reset(Fault),
    /// The log of its device names it, and this sector.
    Named(u64),
    /// The log of its device names the request of this ticket.
    Other(u32),
}

impl fmt::Display for Reason {
    fn fmt<W: fmt::Write>(&self, f: &mut fmt::Formatter<W>) -> fmt::Result {
        match self {
            Reason::Reset(fault) => write!(f, "the reset after {fault}"),
            Reason::Named(lba) => write!(f, "lba {lba}"),
            Reason::Other(ticket) => write!(f, "ticket {ticket}'s error"),
        }
    }
}
