//! DATA SET MANAGEMENT TRIM, round after round.

ghost use Rattle.std.specs.Prelude.{◌<◌};

use crate::host::{
    ABORTED, Bench, Ending, SECTORS, WELL, blank, clear_sectors, command, next, put_sectors,
    sectors_of, some_bytes,
};
use crate::memory::zeros;
use fis_view::H2dFields;
use std::alloc::Global;
use std::process::Abort;

/// The sectors of a round.
const SPAN: u16 = 64;

/// The first sector of a round.
fn first_of(seed: u64) -> u64 {
    (seed >> 50).min(SECTORS - u64::from(SPAN))
}

/// Puts an entry into the blocks of ranges: the sector in 48 bits, the count in 16 (ACS-3, 7.10).
fn put_entry(rt: &impl Abort, blocks: &mut [u8], entry: usize, lba: u64, count: u8) {
    assert!(rt; entry < 512 && lba < 0x1_0000);
    let at = entry * 8;
    assert!(rt; at + 8 <= blocks.len());
    blocks[at] = (lba % 256) as u8;
    blocks[at + 1] = (lba / 256) as u8;
    blocks[at + 6] = count;
}

/// The command for so many blocks.
fn trim(rt: &impl Abort, alloc: Global, bench: &mut Bench, blocks: Vec<u8>) -> Ending {
    assert!(rt; blocks.len() / 512 < 16);
    let fields = H2dFields {
        features: 1,
        ..command(0x06, 0, (blocks.len() / 512) as u16)
    };
    bench.data = blocks;
    bench.runs(rt, alloc, fields)
}

/// So many blocks without a range.
fn no_ranges(rt: &impl Abort, alloc: Global, blocks: usize) -> Vec<u8>
    requires { blocks < 16 }
{
    zeros(rt, alloc, blocks * 512)
}

/// Sectors are written; ranges of them are discarded, and the others stay.
fn round(rt: &impl Abort, alloc: Global, bench: &mut Bench, model: &mut Vec<u8>, seed: u64) {
    let first = first_of(seed);
    bench.data = some_bytes(rt, alloc, SPAN as usize * 512, seed);
    assert_eq!(rt; bench.runs(rt, alloc, command(0x35, first, SPAN)), WELL);
    put_sectors(rt, model, first, &bench.data);
    let count = (seed >> 40 & 7) as usize + 1;
    let mut blocks = no_ranges(rt, alloc, count);
    let mut seed = seed;
    for _ in 0..seed >> 33 & 7 {
        seed = next(seed);
        let lba = first.saturating_add(seed >> 40 & 31);
        let entry = (seed >> 33) as usize % (count * 64);
        put_entry(rt, &mut blocks, entry, lba, (seed >> 50 & 31) as u8);
    }
    for entry in blocks.chunks_exact(8) {
        assert!(rt; entry.len() == 8);
        let lba = u64::from(entry[0]) + 256 * u64::from(entry[1]);
        clear_sectors(rt, model, lba, u32::from(entry[6]));
    }
    assert_eq!(rt; trim(rt, alloc, bench, blocks), WELL);
    assert_eq!(rt; bench.runs(rt, alloc, command(0x25, first, SPAN)), WELL);
    let wanted = sectors_of(rt, model, first, u32::from(SPAN));
    assert!(rt; bench.came(rt, alloc)[..] == wanted[..]);
}

/// Ranges of which one has a sector that the disk does not have are refused as a whole.
fn refused(rt: &impl Abort, alloc: Global, bench: &mut Bench) {
    let mut blocks = no_ranges(rt, alloc, 1);
    put_entry(rt, &mut blocks, 0, 0, 255);
    put_entry(rt, &mut blocks, 1, SECTORS - 1, 2);
    assert_eq!(rt; trim(rt, alloc, bench, blocks), ABORTED);
}

#[test]
fn ranges_are_discarded(rt: HostRuntime) {
    let alloc = rt.alloc();
    let mut bench = Bench::with_limit(&rt, alloc, 1 << 20);
    bench.settles(&rt, alloc);
    let mut model = blank(&rt, alloc);
    let mut seed = 11u64;
    for turn in 0..2000u32 {
        seed = next(seed);
        round(&rt, alloc, &mut bench, &mut model, seed);
        if turn % 8 == 0 {
            refused(&rt, alloc, &mut bench);
        }
    }
    assert!(rt; bench.medium[..] == model[..]);
}
