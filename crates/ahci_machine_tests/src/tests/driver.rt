//! What a driver does.

use super::rig::Rig;
use std::test::Fail;

/// The command list, the received area, a table, and a buffer.
const CLB: usize = 0x1000;

const FB: u32 = 0x2000;

pub const TABLE: usize = 0x3000;

pub const BUFFER: usize = 0x1_0000;

/// A Register FIS of the host: command, features, LBA 31:0, count.
pub fn h2d(command: u8, features: u8, lba: u32, count: u16) -> [u8; 20] {
    let lba = lba.to_le_bytes();
    let count = count.to_le_bytes();
    [
        0x27, 0x80, command, features, lba[0], lba[1], lba[2], 0x40, lba[3], 0, 0, 0, count[0],
        count[1], 0, 0, 0, 0, 0, 0,
    ]
}

/// A command of a slot, with one entry of so many bytes at the buffer.
pub fn command(rig: &mut Rig, slot: u8, port: u8, writes: bool, fis: &[u8; 20], len: u32) {
    let table = TABLE + usize::from(slot) * 256;
    let flags = if writes { 0x45 } else { 0x05 };
    let at = (table as u32).to_le_bytes();
    let header = [
        flags,
        (port << 4),
        if len == 0 { 0 } else { 1 },
        0,
        0,
        0,
        0,
        0,
        at[0],
        at[1],
        at[2],
        at[3],
        0,
        0,
        0,
        0,
    ];
    rig.fills(CLB + usize::from(slot) * 32, &header);
    rig.fills(table, fis);
    rig.fills(table + 1, &[0x80 | port]);
    let buffer = (BUFFER as u32).to_le_bytes();
    let count = len.wrapping_sub(1).to_le_bytes();
    let entry = [
        buffer[0], buffer[1], buffer[2], buffer[3], 0, 0, 0, 0, 0, 0, 0, 0, count[0], count[1],
        count[2], count[3],
    ];
    rig.fills(table + 128, &entry);
}

/// What a driver writes first: registers, and values.
static FIRST: [(u32, u32); 9] = [
    (0x04, 0x8000_0002),
    (0x100, CLB as u32),
    (0x108, FB),
    (0x118, 0x10),
    (0x12C, 1),
    (0x12C, 0),
    (0x114, 0x7FFF_FFFF),
    (0x110, 0xFFFF_FFFF),
    (0x118, 0x11),
];

/// What a driver does first. Whether the machine came to rest each time.
pub fn starts(rig: &mut Rig) -> Result<bool, Fail> {
    rig.write_all(&FIRST)
}
