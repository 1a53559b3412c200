//! The lines that a scenario prints.

use crate::opening::Sizes;
use ahci_registers::Effect;
use std::fmt;

/// What a line of a scenario prints.
#[derive(Drop)]
pub enum Reply {
    /// The board is built.
    Board(Sizes),
    Came { port: u8, conn: u32 },
    Gone { port: u8, conn: u32 },
    /// What the register at an offset reads.
    Read { offset: u32, value: u32 },
    /// A register was written, with this effect on the link.
    Written(Effect),
    /// The guest wrote to its memory.
    Put,
    /// Bytes of the guest's memory, from this address on.
    Shown { at: u64, digits: String },
    /// In one round nothing moved.
    Settled,
    /// All rounds went by, and none was such a round.
    Unsettled,
    /// Whether the interrupt line is up.
    Line(bool),
}

impl fmt::Display for Reply {
    fn fmt<W: fmt::Write>(&self, f: &mut fmt::Formatter<W>) -> fmt::Result {
        match self {
            Reply::Board(sizes) => write!(f, "{sizes}"),
            Reply::Came { port, conn } => write!(f, "came {port} conn {conn}"),
            Reply::Gone { port, conn } => write!(f, "gone {port} conn {conn}"),
            Reply::Read { offset, value } => write!(f, "{offset:x} {value:08x}"),
            Reply::Written(Effect::Nothing) => f.write_str("written"),
            Reply::Written(Effect::LinkReset) => f.write_str("written, link reset"),
            Reply::Written(Effect::LinkUp) => f.write_str("written, link up"),
            Reply::Put => f.write_str("put"),
            Reply::Shown { at, digits } => write!(f, "{at:x} {digits}"),
            Reply::Settled => f.write_str("settled"),
            Reply::Unsettled => f.write_str("unsettled"),
            Reply::Line(true) => f.write_str("line up"),
            Reply::Line(false) => f.write_str("line down"),
        }
    }
}

impl fmt::Display for Sizes {
    fn fmt<W: fmt::Write>(&self, f: &mut fmt::Formatter<W>) -> fmt::Result {
        write!(
            f,
            "ports {} memory {:x} {}",
            self.ports, self.base, self.len
        )
    }
}
