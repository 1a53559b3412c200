//! Command headers.

ghost use Rattle.std.specs.Prelude.{◌≡◌, ◌+◌, ◌<◌, ◌≤◌, length};
ghost use Rattle.host_memory.specs.Reading.{dword_at};
ghost use Rattle.hba_commands.specs.Headers.{header_at, header_of_dwords};

use byteorder::{ByteOrder, LittleEndian};

/// The header of a command slot (AHCI 1.3.1, section 4.2.2).
#[derive(Clone, Copy)]
pub(crate) struct Header {
    /// The number of PRDs in the table (PRDTL).
    pub(crate) prdtl: u16,
    /// The device's PM Port, 0 to 15 (PMP).
    pub(crate) pmp: u8,
    /// BSY is cleared once the FIS is transmitted (C).
    pub(crate) clear: bool,
    /// Data goes to the device (W).
    pub(crate) write: bool,
    /// The length of the command FIS in dwords (CFL), 5 bits.
    pub(crate) cfl: u8,
    /// The address of the command table, bits 31:0 (CTBA).
    pub(crate) ctba: u32,
    /// Bits 63:32 of that address (CTBAU).
    pub(crate) ctbau: u32,
}

fn dword(structure: &[u8], at: usize) -> u32
    requires { at + 4 ≤ length structure.now }
    ensures { result ≡ dword_at structure.now at }
{
    LittleEndian::read_u32(&structure[at..])
}

#[tactic(auto, unfolding(crate::specs::Headers::header_of_dwords))]
fn header_of(dw0: u32, dw2: u32, dw3: u32) -> Header
    ensures { result ≡ header_of_dwords dw0 dw2 dw3 }
{
    Header {
        prdtl: (dw0 >> 16) as u16,
        pmp: (dw0 >> 12 & 0xF) as u8,
        clear: dw0 >> 10 & 1 == 1,
        write: dw0 >> 6 & 1 == 1,
        cfl: (dw0 & 0x1F) as u8,
        ctba: dw2,
        ctbau: dw3,
    }
}

impl Header {
    /// Reads the header of a slot, in the command list at `clb`.
    pub(crate) fn read(structure: &[u8], clb: u32, slot: u8) -> Header
        requires slot { slot < 32 }
        requires list { clb + 1024 ≤ length structure.now }
        ensures { result ≡ header_at structure.now clb slot }
    {
        let at = clb as usize + 32 * slot as usize;
        header_of(
            dword(structure, at),
            dword(structure, at + 8),
            dword(structure, at + 12),
        )
    }
}

/// The PM Port, 0 to 15, in the header of a slot (PMP), for the command list that begins at `clb`.
pub fn pmp(structure: &[u8], clb: u32, slot: u8) -> u8
    requires slot { slot < 32 }
    requires list { clb + 1024 ≤ length structure.now }
    ensures pmp { result ≡ (header_at structure.now clb slot).pmp }
    ensures port { result < 16 }
{
    Header::read(structure, clb, slot).pmp
}
