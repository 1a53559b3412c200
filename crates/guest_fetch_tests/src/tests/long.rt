//! Long tables, commands of many bytes, Data that jump, and the count of bytes.

use crate::tests::rig::{Place, Rig, are_moves, entry_bytes};
use guest_fetch::{Command, Supplied, Table};
use std::alloc::{AllocError, Global};

/// READ FPDMA QUEUED of 65,536 sectors, of the device at PM Port 0.
const ALL: [u8; 20] = [
    0x27, 0x80, 0x60, 0x00, 0, 0, 0, 0x40, 0, 0, 0, 0x00, 0, 0, 0, 0x08, 0, 0, 0, 0,
];

const TABLE: u32 = 0x1000;

/// What the entries of a table are.
#[derive(Clone, Copy)]
enum Shape {
    /// Two bytes each, 16 bytes apart.
    Words,
    /// 4 MiB each, the k-th at k times 4 GiB; the second has I.
    Blocks,
}

/// The dwords of an entry by its index.
fn dwords(shape: Shape, index: u32) -> [u32; 4] {
    let index = index % 0x1_0000;
    match shape {
        Shape::Words => [16 * index, 0, 0, 1],
        Shape::Blocks if index == 1 => [0, 1, 0, 0x803F_FFFF],
        Shape::Blocks => [0, index, 0, 0x003F_FFFF],
    }
}

/// The command in slot 0, with so many entries written of the 65,535 that its header has. Those that are not written are of
/// one byte, which is forbidden.
fn command(alloc: Global, count: u32, shape: Shape) -> Result<Option<Command>, AllocError> {
    let mut rig = Rig::new(alloc, 0x11_0000)?;
    let mut put = rig.put_header(0, [0xFFFF_0005, 0, TABLE, 0]) && rig.put(u64::from(TABLE), &ALL);
    for i in 0..count {
        let entry = entry_bytes(dwords(shape, i));
        put = put && rig.put_entry(u64::from(TABLE), u64::from(i), entry);
    }
    match rig.fetch(0) {
        Supplied::Whole(command) if put => Ok(Some(command)),
        _ => Ok(None),
    }
}

/// Bytes of a command from an offset on, and where they lie.
#[derive(Clone, Copy)]
struct Data {
    offset: u32,
    len: usize,
    places: &'static [Place],
}

fn lie_there(table: &Table, data: &[Data]) -> bool {
    for d in data.iter() {
        if !are_moves(table, d.offset, d.len, d.places) {
            return false;
        }
    }
    true
}

/// The last bytes, the first, and some between: a Data FIS may begin anywhere.
static OF_WORDS: [Data; 4] = [
    Data {
        offset: 131_066,
        len: 8192,
        places: &[(0xF_FFD0, 2), (0xF_FFE0, 2)],
    },
    Data {
        offset: 0,
        len: 5,
        places: &[(0, 2), (0x10, 2), (0x20, 1)],
    },
    Data {
        offset: 65_537,
        len: 2,
        places: &[(0x8_0001, 1), (0x8_0010, 1)],
    },
    Data {
        offset: 131_070,
        len: 8192,
        places: &[],
    },
];

#[test]
fn a_table_of_65535_entries_is_kept(rt: HostRuntime) -> Result<(), AllocError> {
    let command = command(rt.alloc(), 65_535, Shape::Words)?;
    assert!(rt; command.is_some());
    if let Some(command) = command {
        assert_eq!(rt; command.table().reach(), 131_070);
        assert!(rt; lie_there(command.table(), &OF_WORDS));
    }
    Ok(())
}

static OF_BLOCKS: [Data; 3] = [
    Data {
        offset: 33_554_430,
        len: 8192,
        places: &[(0x7_003F_FFFE, 2)],
    },
    Data {
        offset: 4_194_300,
        len: 8192,
        places: &[(0x3F_FFFC, 4), (0x1_0000_0000, 8188)],
    },
    Data {
        offset: u32::MAX,
        len: usize::MAX,
        places: &[],
    },
];

/// The eight entries have all 65,536 sectors, so those behind them do not count.
#[test]
fn a_command_of_65536_sectors_is_kept(rt: HostRuntime) -> Result<(), AllocError> {
    let command = command(rt.alloc(), 8, Shape::Blocks)?;
    assert!(rt; command.is_some());
    if let Some(mut command) = command {
        assert_eq!(rt; command.table().reach(), 33_554_432);
        assert!(rt; lie_there(command.table(), &OF_BLOCKS));
        assert!(rt; are_told(command.table()));
        assert!(rt; is_counted(&mut command));
    }
    Ok(())
}

/// Whether some move of these bytes ends an entry with I.
fn is_told(table: &Table, offset: u32, len: usize) -> bool {
    for step in table.moves(offset, len) {
        if step.interrupt {
            return true;
        }
    }
    false
}

/// The second entry ends with byte 8,388,607.
fn are_told(table: &Table) -> bool {
    is_told(table, 8_388_600, 8)
        && is_told(table, 8_388_600, 8192)
        && !is_told(table, 8_388_600, 7)
        && !is_told(table, 8_388_608, 8192)
        && !is_told(table, 4_194_300, 8)
}

fn is_counted(command: &mut Command) -> bool {
    let place = command.at();
    if place != 0x400 {
        return false;
    }
    let first = command.count(0, 8192);
    let again = command.count(33_554_430, 8192);
    first.at == 0x404 && first.value == 8192 && again.at == 0x404 && again.value == 8194
}

#[test]
fn a_command_with_fewer_entries_is_not_whole(rt: HostRuntime) -> Result<(), AllocError> {
    assert!(rt; command(rt.alloc(), 7, Shape::Blocks)?.is_none());
    Ok(())
}
