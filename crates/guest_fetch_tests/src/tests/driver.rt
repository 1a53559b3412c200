//! Commands as a stock driver wrote them.

use crate::tests::rig::{Place, Rig, are_moves, entry_bytes};
use guest_fetch::{Command, Supplied};
use std::alloc::{AllocError, Global};
use std::process::Abort;

/// A command: its header, its FIS and its table as libata and libahci of Linux wrote them, and what they mean. The table's
/// entries have fewer bytes than the FIS asks for, or more.
#[derive(Clone, Copy)]
struct Row {
    slot: u8,
    header: [u32; 4],
    fis: [u8; 20],
    table: &'static [[u32; 4]],
    pm_port: u8,
    write: bool,
    /// How many bytes the FIS asks for.
    bytes: u32,
    /// How many of them the table has.
    reach: u32,
    /// Where they lie: addresses, and how many.
    places: &'static [Place],
}

static ROWS: [Row; 6] = [
    Row {
        slot: 27,
        header: [0x0002d045, 0x00000000, 0x00014900, 0x00000000],
        fis: [
            0x27, 0x8d, 0x61, 0x43, 0x61, 0xc0, 0x13, 0x40, 0x8d, 0x8c, 0x95, 0xc0, 0xf8, 0x00,
            0x00, 0x08, 0x00, 0x00, 0x00, 0x00,
        ],
        table: &[
            [0x00102168, 0x00000000, 0x00000000, 0x00005955],
            [0x001119ee, 0x00000000, 0x00000000, 0x0000a3cb],
        ],
        pm_port: 13,
        write: true,
        bytes: 25200128,
        reach: 64802,
        places: &[(0x102168, 22870), (0x1119ee, 41932)],
    },
    Row {
        slot: 0,
        header: [0x00053005, 0x00000000, 0x00002000, 0x00000000],
        fis: [
            0x27, 0x83, 0x60, 0xff, 0x88, 0xcf, 0x1f, 0x40, 0xe6, 0x57, 0xaf, 0x00, 0x20, 0x00,
            0x00, 0x08, 0x00, 0x00, 0x00, 0x00,
        ],
        table: &[
            [0x001021d8, 0x00000000, 0x00000000, 0x000082eb],
            [0x00112aa4, 0x00000000, 0x00000000, 0x00005433],
            [0x001234b4, 0x00000000, 0x00000000, 0x0000a53b],
            [0x00130c9c, 0x00000000, 0x00000000, 0x000078b1],
            [0x00143e88, 0x00000000, 0x00000000, 0x00007c29],
        ],
        pm_port: 3,
        write: false,
        bytes: 130560,
        reach: 130560,
        places: &[
            (0x1021d8, 33516),
            (0x112aa4, 21556),
            (0x1234b4, 42300),
            (0x130c9c, 30898),
            (0x143e88, 2290),
        ],
    },
    Row {
        slot: 15,
        header: [0x0001b045, 0x00000000, 0x0000c500, 0x00000000],
        fis: [
            0x27, 0x8b, 0x61, 0x84, 0xa5, 0x1f, 0x3a, 0x40, 0xca, 0x26, 0x2f, 0x4f, 0xc8, 0x00,
            0x00, 0x08, 0x00, 0x00, 0x00, 0x00,
        ],
        table: &[[0x0010260a, 0x00000000, 0x00000000, 0x0000a91b]],
        pm_port: 11,
        write: true,
        bytes: 10422272,
        reach: 43292,
        places: &[(0x10260a, 43292)],
    },
    Row {
        slot: 1,
        header: [0x00040045, 0x00000000, 0x00002b00, 0x00000000],
        fis: [
            0x27, 0x80, 0x61, 0x3c, 0xf3, 0x20, 0x31, 0x40, 0x34, 0x0e, 0x37, 0x58, 0x00, 0x00,
            0x00, 0x08, 0x00, 0x00, 0x00, 0x00,
        ],
        table: &[
            [0x0010347c, 0x00000000, 0x00000000, 0x000051e7],
            [0x00111c1c, 0x00000000, 0x00000000, 0x0000411f],
            [0x00120fba, 0x00000000, 0x00000000, 0x00003ab3],
            [0x00131a2e, 0x00000000, 0x00000000, 0x0000662b],
        ],
        pm_port: 0,
        write: true,
        bytes: 11565056,
        reach: 78824,
        places: &[
            (0x10347c, 20968),
            (0x111c1c, 16672),
            (0x120fba, 15028),
            (0x131a2e, 26156),
        ],
    },
    Row {
        slot: 15,
        header: [0x00066005, 0x00000000, 0x0000c500, 0x00000000],
        fis: [
            0x27, 0x86, 0x60, 0xb6, 0x80, 0x2f, 0xaf, 0x40, 0x76, 0xb5, 0x93, 0x33, 0xf8, 0x00,
            0x00, 0x08, 0x00, 0x00, 0x00, 0x00,
        ],
        table: &[
            [0x00101170, 0x00000000, 0x00000000, 0x00009b25],
            [0x001140d0, 0x00000000, 0x00000000, 0x00004c2b],
            [0x001215e2, 0x00000000, 0x00000000, 0x00005c5f],
            [0x00133c4c, 0x00000000, 0x00000000, 0x0000252b],
            [0x00140f8e, 0x00000000, 0x00000000, 0x0000bd77],
            [0x00151900, 0x00000000, 0x00000000, 0x000011af],
        ],
        pm_port: 6,
        write: false,
        bytes: 6777856,
        reach: 145414,
        places: &[
            (0x101170, 39718),
            (0x1140d0, 19500),
            (0x1215e2, 23648),
            (0x133c4c, 9516),
            (0x140f8e, 48504),
            (0x151900, 4528),
        ],
    },
    Row {
        slot: 3,
        header: [0x0006d045, 0x00000000, 0x00004100, 0x00000000],
        fis: [
            0x27, 0x8d, 0x61, 0x43, 0x61, 0xc0, 0x13, 0x40, 0x8d, 0x8c, 0x95, 0xc0, 0xf8, 0x00,
            0x00, 0x08, 0x00, 0x00, 0x00, 0x00,
        ],
        table: &[
            [0x00102c2e, 0x00000000, 0x00000000, 0x00002631],
            [0x00113d52, 0x00000000, 0x00000000, 0x0000bbed],
            [0x00122f46, 0x00000000, 0x00000000, 0x00006baf],
            [0x00131834, 0x00000000, 0x00000000, 0x00002469],
            [0x00142540, 0x00000000, 0x00000000, 0x000014f9],
            [0x0015412e, 0x00000000, 0x00000000, 0x00003567],
        ],
        pm_port: 13,
        write: true,
        bytes: 25200128,
        reach: 113820,
        places: &[
            (0x102c2e, 9778),
            (0x113d52, 48110),
            (0x122f46, 27568),
            (0x131834, 9322),
            (0x142540, 5370),
            (0x15412e, 13672),
        ],
    },
];

fn is_as_it_says(command: &Command, row: Row) -> bool {
    let head = command.head();
    head.header.pm_port == row.pm_port
        && head.header.write == row.write
        && head.header.entries as usize == row.table.len()
        && head.cfis == row.fis
        && head.work.len == row.bytes
        && command.table().reach() == row.reach
        && are_moves(command.table(), 0, row.bytes as usize, row.places)
}

fn is_read(alloc: Global, row: Row) -> Result<bool, AllocError> {
    let mut rig = Rig::new(alloc, 0x2_0000)?;
    let table = u64::from(row.header[2]);
    let mut put = rig.put_header(row.slot, row.header) && rig.put(table, &row.fis);
    for (i, entry) in row.table.iter().enumerate() {
        put = put && rig.put_entry(table, i as u64, entry_bytes(*entry));
    }
    match rig.fetch(row.slot) {
        Supplied::Whole(command) => Ok(put && is_as_it_says(&command, row)),
        _ => Ok(false),
    }
}

#[test]
fn commands_of_a_stock_driver_are_read(rt: HostRuntime) -> Result<(), AllocError> {
    for (i, row) in ROWS.iter().enumerate() {
        assert!(rt; is_read(rt.alloc(), *row)?, "row {i}");
    }
    Ok(())
}
