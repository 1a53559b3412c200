//! Why a disk fails a command, as far as the command alone tells it.

use ata_command::{Opcode, Way};
use std::fmt;
use trace_text::Extent;

/// Why a disk fails a command.
#[derive(Clone, Copy)]
pub enum Why {
    /// It names sectors that the disk of this port does not have, which has so many.
    PastEnd {
        port: u8,
        extent: Extent,
        sectors: u64,
    },
    /// The disk has no such command.
    Unknown(u8),
    /// It moves blocks of sectors, and their size was not set.
    NoBlock {
        code: u8,
        writes: bool,
    },
}

/// What is known of the disk of a port.
#[derive(Clone, Copy)]
pub struct DiskSeen {
    pub port: u8,
    pub sectors: u64,
    /// SET MULTIPLE MODE went to it.
    pub has_block: bool,
}

/// Bit C of a Register Host to Device FIS: it is a command.
const COMMAND: u8 = 0x80;

impl Why {
    /// Why a disk fails this command FIS, if it does.
    pub fn of(command: &[u8], disk: DiskSeen) -> Option<Why> {
        let [_, flags, code, ..] = command else {
            return None;
        };
        let (code, flags) = (*code, *flags);
        if flags & COMMAND == 0 {
            return None;
        }
        match Opcode::of(code) {
            Opcode::Unknown => return Some(Why::Unknown(code)),
            Opcode::Transfer(transfer) if transfer.way == Way::Multiple && !disk.has_block => {
                let writes = transfer.write;
                return Some(Why::NoBlock { code, writes });
            }
            _ => {}
        }
        let extent = Extent::of(command)?;
        (extent.end() > disk.sectors).then_some(Why::PastEnd {
            port: disk.port,
            extent,
            sectors: disk.sectors,
        })
    }

    /// The bit of Error by which the disk tells it: IDNF, or ABRT.
    pub fn error(self) -> u8 {
        match self {
            Why::PastEnd { .. } => 0x10,
            Why::Unknown(_) | Why::NoBlock { .. } => 0x04,
        }
    }
}

impl fmt::Display for Why {
    fn fmt<W: fmt::Write>(&self, f: &mut fmt::Formatter<W>) -> fmt::Result {
        match *self {
            Why::PastEnd {
                port,
                extent,
                sectors,
            } => {
                let (first, last) = (extent.lba, extent.end().saturating_sub(1));
                write!(f, "past the end: it asks for lba {first} to {last}, ")?;
                write!(
                    f,
                    "and disk {port} has {sectors} sectors, the last is lba {}",
                    sectors.saturating_sub(1)
                )
            }
            Why::Unknown(code) => {
                write!(f, "the disk has no command {code:02X}h: ")?;
                f.write_str("READ DMA EXT is 25h, WRITE DMA EXT 35h, ")?;
                f.write_str("READ FPDMA QUEUED 60h, WRITE FPDMA QUEUED 61h")
            }
            Why::NoBlock { code, writes } => {
                write!(
                    f,
                    "command {code:02X}h wants SET MULTIPLE MODE (C6h) before it, "
                )?;
                f.write_str(if writes {
                    "and none was sent: WRITE DMA EXT is 35h"
                } else {
                    "and none was sent: READ DMA EXT is 25h"
                })
            }
        }
    }
}
