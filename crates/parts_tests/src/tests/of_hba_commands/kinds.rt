//! Commands of each kind, and each reason that makes one bad.

use super::{Rig, fields};
use host_memory::{MemoryError, Prd};
use slots::{Kind, Work};

const TABLE: u32 = 0x2000;

/// Its PM Port, C, command, features and count.
type Given = (u8, bool, u8, u16, u16);

/// Writes a command in slot 3, with one PRD of so many bytes, or with none.
fn writes(rig: &mut Rig, given: Given, bytes: u32) -> bool {
    let (pm_port, c, command, features, count) = given;
    let fields = fields(pm_port, c, command, features, count);
    let prd = Prd {
        address: 0x10_1000,
        bytes,
    };
    if bytes == 0 {
        rig.writes(3, TABLE, &fields, &[])
    } else {
        rig.writes(3, TABLE, &fields, &[prd])
    }
}

/// What is read of the command in slot 3.
fn work(rig: &Rig, armed: bool) -> Option<Work> {
    Some(rig.command(3, armed)?.work)
}

/// Commands, the bytes of their PRD, whether they are armed, and what is read of them. READ LOG EXT with another count is
/// treated like any other command.
static KINDS: [(Given, u32, bool, Kind, u32); 16] = [
    ((14, true, 0x60, 16, 24), 8192, true, Kind::QueuedRead, 8192),
    (
        (2, true, 0x61, 256, 24),
        0x2_0000,
        true,
        Kind::QueuedWrite,
        0x2_0000,
    ),
    ((2, true, 0x2F, 0, 1), 512, false, Kind::PioIn, 512),
    ((2, true, 0xEC, 7, 7), 512, false, Kind::PioIn, 512),
    ((2, true, 0xC8, 0, 2), 1024, false, Kind::DmaIn, 1024),
    (
        (2, true, 0x35, 0, 256),
        0x2_0000,
        false,
        Kind::DmaOut,
        0x2_0000,
    ),
    (
        (2, true, 0x20, 0, 0),
        0x2_0000,
        false,
        Kind::PioIn,
        0x2_0000,
    ),
    ((2, true, 0x30, 0, 1), 512, false, Kind::PioOut, 512),
    ((2, true, 0x47, 0, 1), 512, false, Kind::DmaIn, 512),
    ((2, true, 0xB0, 0xD0, 0), 512, false, Kind::PioIn, 512),
    ((2, true, 0xB0, 0xD5, 2), 1024, false, Kind::PioIn, 1024),
    ((2, true, 0xB0, 0xD6, 1), 512, false, Kind::PioOut, 512),
    ((2, true, 0xB0, 0xDA, 1), 0, false, Kind::NoData, 0),
    ((15, true, 0x2F, 0, 2), 0, false, Kind::NoData, 0),
    ((15, true, 0xE4, 2, 1), 0, false, Kind::NoData, 0),
    ((15, false, 0x60, 16, 24), 0, false, Kind::Control, 0),
];

/// Whether a row is read as it says, armed so, and is bad if it is armed otherwise.
fn is_read(rig: &mut Rig, row: &(Given, u32, bool, Kind, u32)) -> bool {
    let (given, bytes, armed, kind, len) = *row;
    writes(rig, given, bytes)
        && work(rig, armed) == Some(Work { kind, len })
        && work(rig, !armed).is_none()
}

#[test]
fn reads_each_kind(rt: HostRuntime) -> Result<(), MemoryError> {
    let mut rig = Rig::new(rt.alloc())?;
    for (number, row) in KINDS.iter().enumerate() {
        assert!(rt; is_read(&mut rig, row), "{number}");
    }
    Ok(())
}

const READ: Given = (2, true, 0x60, 16, 24);

const NOTHING: Given = (2, true, 0xE4, 0, 0);

const CONTROL: Given = (2, false, 0, 0, 0);

/// Good commands, the bytes of their PRD, the place of a byte and what it becomes, and whether the command is still good.
static BYTES: [(Given, u32, usize, u8, bool); 15] = [
    // bit R is ignored
    (READ, 8192, 0x1061, 0x21, true),
    (CONTROL, 0, 0x1061, 0x24, true),
    // CFL, W, C, PMP
    (READ, 8192, 0x1060, 4, false),
    (READ, 8192, 0x1060, 0x45, false),
    (NOTHING, 0, 0x1060, 0x45, false),
    (CONTROL, 0, 0x1060, 0x45, false),
    (READ, 8192, 0x1061, 0x24, false),
    (NOTHING, 0, 0x1061, 0x24, false),
    (READ, 8192, 0x1061, 0x30, false),
    // the table's address, its upper half, and past the structure area
    (NOTHING, 0, 0x106A, 0x10, false),
    (READ, 8192, 0x106C, 1, false),
    // the FIS's type and port
    (READ, 8192, 0x2000, 0x34, false),
    (READ, 8192, 0x2001, 0x83, false),
    // the entry's address and count
    (READ, 8192, 0x2080, 1, false),
    (READ, 8192, 0x208C, 0xFD, false),
];

/// Whether the command of a row is good, and then, with its byte changed, what the row says.
fn is_judged(rig: &mut Rig, row: &(Given, u32, usize, u8, bool)) -> bool {
    let (given, bytes, at, value, is_good) = *row;
    let armed = given.2 == 0x60;
    let was_good = writes(rig, given, bytes) && work(rig, armed).is_some();
    rig.put(at, value);
    was_good && work(rig, armed).is_some() == is_good
}

#[test]
fn refuses_bad_bytes(rt: HostRuntime) -> Result<(), MemoryError> {
    let mut rig = Rig::new(rt.alloc())?;
    for (number, row) in BYTES.iter().enumerate() {
        assert!(rt; is_judged(&mut rig, row), "{number}");
    }
    Ok(())
}
