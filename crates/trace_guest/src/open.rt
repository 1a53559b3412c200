//! What a slot waits for.

use port_errors::DeviceCause;
use std::fmt;

/// How far the command of a slot came since it was written to PxCI.
#[derive(Clone, Copy, PartialEq, Eq)]
pub enum Stage {
    /// It is not read yet.
    Written,
    /// It is issued for the device at this port.
    Issued(u8),
    /// Its FIS went down to this port.
    Sent(u8),
    /// The multiplier dropped its FIS for this port.
    Dropped(u8),
    /// The disk at this port did not hear its FIS.
    Unheard(u8),
}

impl Stage {
    /// Its port, once it is known.
    pub fn port(self) -> Option<u8> {
        match self {
            Stage::Written => None,
            Stage::Issued(port) | Stage::Sent(port) | Stage::Dropped(port) | Stage::Unheard(port) =>
                { Some(port) }
        }
    }

    /// Whether its FIS went down.
    pub fn is_sent(self) -> bool {
        match self {
            Stage::Written | Stage::Issued(_) => false,
            Stage::Sent(_) | Stage::Dropped(_) | Stage::Unheard(_) => true,
        }
    }
}

/// A slot that is in use as nothing can move any more.
#[derive(Clone, Copy)]
pub struct OpenSlot {
    pub slot: u8,
    pub stage: Stage,
    /// PxCI has it. Otherwise only PxSACT does.
    pub is_issued: bool,
    /// The slot whose command was not taken, for which the port does nothing until ST falls.
    pub failed: Option<u8>,
    /// The fault of its device, as long as PxFBS.DEC is not written.
    pub fault: Option<DeviceCause>,
}

impl OpenSlot {
    /// Writes what it waits for.
    pub fn write_reason<W: fmt::Write>(&self, f: &mut fmt::Formatter<W>) -> fmt::Result {
        if !self.is_issued {
            return f.write_str(if self.fault.is_some() {
                "accepted; its device is faulty until PxFBS.DEC is written or ST falls"
            } else {
                "accepted, and no Set Device Bits FIS named it yet"
            });
        }
        if self.failed == Some(self.slot) {
            return f.write_str("not taken; PxCI keeps it until ST falls");
        }
        match self.stage {
            Stage::Dropped(_) => f.write_str("sent, and the multiplier dropped it"),
            Stage::Unheard(port) => write!(f, "sent, and disk {port} did not hear it"),
            Stage::Sent(_) => f.write_str(if self.fault.is_some() {
                "sent; its device is faulty until PxFBS.DEC is written or ST falls"
            } else {
                "sent, and not answered"
            }),
            Stage::Written | Stage::Issued(_) => self.write_unsent(f),
        }
    }

    /// Writes why it was not sent.
    fn write_unsent<W: fmt::Write>(&self, f: &mut fmt::Formatter<W>) -> fmt::Result {
        if let Some(slot) = self.failed {
            return write!(
                f,
                "not sent: slot {slot} was not taken, and the port does nothing until ST falls"
            );
        }
        if self.stage == Stage::Written {
            return f.write_str("not read yet");
        }
        f.write_str(if self.fault.is_some() {
            "not sent: its device is faulty until PxFBS.DEC is written or ST falls"
        } else {
            "not sent: its device is busy, or another command goes first"
        })
    }
}
