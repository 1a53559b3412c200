//! The header of a slot.

ghost use Rattle.std.specs.Prelude.{◌≡◌, ◌+◌, ◌<◌, ◌≤◌, length};
ghost use Rattle.guest_fetch.specs.Headers.{IsHeader, header_in, header_of_dwords, header_refusal};

pub(crate) mod saved;

use crate::entry::dword;
use crate::refusal::Refusal;

/// The header of a command slot (AHCI 1.3.1, section 4.2.2), as a guest wrote it.
#[derive(Clone, Copy, Debug, PartialEq, Eq)]
pub struct Header {
    /// How many entries the table has (PRDTL).
    pub entries: u16,
    /// The device's PM Port, 0 to 15 (PMP).
    pub pm_port: u8,
    /// BSY is cleared once the FIS is transmitted (C).
    pub clear: bool,
    /// Data goes to the device (W).
    pub write: bool,
    /// It is an ATAPI command (A).
    pub packet: bool,
    /// How many dwords the command FIS has (CFL).
    pub dwords: u8,
    /// Where the command table begins (CTBA, CTBAU): a multiple of 128.
    pub table: u64,
}

// The header with these dwords.
#[tactic(auto, unfolding(crate::specs::Headers::header_of_dwords))]
fn header_of(first: u32, lower: u32, upper: u32) -> Header
    ensures is { result ≡ header_of_dwords first lower upper }
    ensures rules { IsHeader result }
{
    Header {
        entries: (first >> 16) as u16,
        pm_port: (first >> 12 & 0xF) as u8,
        clear: first >> 10 & 1 == 1,
        write: first >> 6 & 1 == 1,
        packet: first >> 5 & 1 == 1,
        dwords: (first & 0x1F) as u8,
        table: u64::from(lower / 128 * 128) + u64::from(upper) * 0x1_0000_0000,
    }
}

// The header that 32 bytes spell.
pub(crate) fn read_header(raw: &[u8]) -> Header
    requires { length raw.now ≡ 32 }
    ensures is { result ≡ header_in raw.now }
    ensures rules { IsHeader result }
{
    header_of(dword(raw, 0), dword(raw, 8), dword(raw, 12))
}

// Why a command with this header is not taken.
pub(crate) fn refusal_of(header: &Header) -> Option<Refusal>
    requires { IsHeader header.now }
    ensures { result ≡ header_refusal header.now }
{
    if header.packet {
        return Some(Refusal::Packet);
    }
    if header.dwords < 2 || header.dwords > 16 {
        return Some(Refusal::FisLength {
            found: header.dwords,
        });
    }
    if (u64::MAX - header.table - 0x7F) / 16 < u64::from(header.entries) {
        return Some(Refusal::TableEnd {
            table: header.table,
            entries: header.entries,
        });
    }
    None
}
