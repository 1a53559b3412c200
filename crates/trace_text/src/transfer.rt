//! What a command asks to move.

use crate::decoding::fis_of;
use fis_view::{Fis, RegH2D};

/// The bytes that a command moves.
#[derive(Clone, Copy, PartialEq, Eq)]
pub struct Transfer {
    /// To the host, and not to the disk.
    pub to_host: bool,
    pub bytes: u32,
}

/// The sectors that a command reads, writes or verifies.
#[derive(Clone, Copy, PartialEq, Eq)]
pub struct Extent {
    pub lba: u64,
    pub sectors: u32,
}

impl Extent {
    /// The sector behind its last one.
    pub fn end(self) -> u64 {
        self.lba.saturating_add(u64::from(self.sectors))
    }

    /// That of a command FIS of these bytes; None if it names no sectors (ACS-3, 7).
    pub fn of(command: &[u8]) -> Option<Extent> {
        let Ok(Fis::RegH2D(fis)) = fis_of(command) else {
            return None;
        };
        if !fis.c() {
            return None;
        }
        match fis.command() {
            0x60 | 0x61 => Some(Extent {
                lba: fis.lba(),
                sectors: counted(u32::from(fis.features()), 65_536),
            }),
            0x20 | 0x30 | 0x40 | 0xC4 | 0xC5 | 0xC8 | 0xCA => Some(narrow(&fis)),
            0x24 | 0x25 | 0x29 | 0x34 | 0x35 | 0x39 | 0x3D | 0x42 | 0xCE => Some(Extent {
                lba: fis.lba(),
                sectors: counted(u32::from(fis.count()), 65_536),
            }),
            _ => None,
        }
    }
}

/// A count of sectors, where 0 stands for so many.
fn counted(count: u32, all: u32) -> u32 {
    if count == 0 { all } else { count }
}

/// The sectors of a command with an LBA of 28 bits.
fn narrow(fis: &RegH2D<'_>) -> Extent {
    let high = u64::from(fis.device() & 0x0F);
    Extent {
        lba: fis.lba() & 0xFF_FFFF | high << 24,
        sectors: counted(u32::from(fis.count() & 0xFF), 256),
    }
}

impl Transfer {
    /// That of a command FIS of these bytes; None if it moves none, or if that is not known.
    pub fn of(command: &[u8]) -> Option<Transfer> {
        let code = command.get(2).copied()?;
        let to_host = match code {
            0x20 | 0x24 | 0x25 | 0x29 | 0x60 | 0xC4 | 0xC8 => true,
            0x30 | 0x34 | 0x35 | 0x39 | 0x3D | 0x61 | 0xC5 | 0xCA | 0xCE => false,
            0xEC => {
                return Some(Transfer {
                    to_host: true,
                    bytes: 512,
                });
            }
            _ => return None,
        };
        let bytes = Extent::of(command)?.sectors.saturating_mul(512);
        Some(Transfer { to_host, bytes })
    }
}
