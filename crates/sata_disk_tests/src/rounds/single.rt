//! Reads, writes and verifies that are not queued, by each command there is.

use crate::host::{
    ABORTED, Bench, Ending, SECTORS, WELL, blank, command, next, put_sectors, sectors_of,
    some_bytes,
};
use fis_view::H2dFields;
use std::alloc::Global;
use std::process::Abort;

/// WRITE SECTORS, SECTORS EXT, DMA, DMA EXT, DMA FUA EXT, MULTIPLE, MULTIPLE EXT, MULTIPLE FUA EXT.
static WRITES: [u8; 8] = [0x30, 0x34, 0xCA, 0x35, 0x3D, 0xC5, 0x39, 0xCE];

/// READ SECTORS, SECTORS EXT, DMA, DMA EXT, MULTIPLE, MULTIPLE EXT.
static READS: [u8; 6] = [0x20, 0x24, 0xC8, 0x25, 0xC4, 0x29];

/// The sectors of a DRQ data block of the commands by MULTIPLE.
static BLOCKS: [u16; 5] = [1, 2, 4, 8, 16];

/// A disk and its host, who knows what the sectors hold.
#[derive(Drop)]
struct Host {
    bench: Bench,
    model: Vec<u8>,
}

/// Where sectors stand, and how many they are.
#[derive(Clone, Copy)]
struct Place {
    lba: u64,
    count: u16,
}

/// Some sectors: up to 16, and now and then 256.
fn place_of(seed: u64) -> Place {
    let count = if seed >> 20 & 0xFF == 0 {
        256
    } else {
        (seed >> 40 & 15) as u16 + 1
    };
    Place {
        lba: (seed >> 50).min(SECTORS - u64::from(count)),
        count,
    }
}

impl Host {
    fn new(rt: &impl Abort, alloc: Global) -> Host {
        let mut bench = Bench::with_limit(rt, alloc, 1 << 20);
        bench.settles(rt, alloc);
        Host {
            bench,
            model: blank(rt, alloc),
        }
    }

    /// A write ends well.
    fn writes(&mut self, rt: &impl Abort, alloc: Global, code: u8, place: Place, seed: u64) {
        self.bench.data = some_bytes(rt, alloc, place.count as usize * 512, seed);
        let end = self
            .bench
            .runs(rt, alloc, command(code, place.lba, place.count));
        assert_eq!(rt; end, WELL);
        assert!(rt; self.bench.gone == self.bench.data.len());
        put_sectors(rt, &mut self.model, place.lba, &self.bench.data);
    }

    /// A read ends well, with the sectors that were written last.
    fn reads(&mut self, rt: &impl Abort, alloc: Global, code: u8, place: Place) {
        let end = self
            .bench
            .runs(rt, alloc, command(code, place.lba, place.count));
        assert_eq!(rt; end, WELL);
        let wanted = sectors_of(rt, &self.model, place.lba, u32::from(place.count));
        assert!(rt; self.bench.came(rt, alloc)[..] == wanted[..]);
    }

    /// SET MULTIPLE MODE.
    fn sets(&mut self, rt: &impl Abort, alloc: Global, sectors: u16, wanted: Ending) {
        let end = self.bench.runs(rt, alloc, command(0xC6, 0, sectors));
        assert_eq!(rt; end, wanted);
    }

    /// The write cache is on, or off.
    fn sets_cache(&mut self, rt: &impl Abort, alloc: Global, is_on: bool) {
        let fields = H2dFields {
            features: if is_on { 0x02 } else { 0x82 },
            ..command(0xEF, 0, 0)
        };
        assert_eq!(rt; self.bench.runs(rt, alloc, fields), WELL);
    }
}

/// A write by each command, so many times, read by each command.
fn rounds(rt: &impl Abort, alloc: Global, rounds: u32) {
    let mut host = Host::new(rt, alloc);
    let mut seed = 3u64;
    for round in 0..rounds {
        host.sets_cache(rt, alloc, round % 2 == 0);
        for write in &WRITES {
            seed = next(seed);
            host.sets(rt, alloc, BLOCKS[(seed >> 33) as usize % 5], WELL);
            let flushes = host.bench.flushes;
            let place = place_of(seed);
            host.writes(rt, alloc, *write, place, seed);
            let lasts = round % 2 == 1 || matches!(*write, 0x3D | 0xCE);
            assert!(rt; (host.bench.flushes > flushes) == lasts);
            host.reads(rt, alloc, READS[(seed >> 36) as usize % 6], place);
        }
    }
    assert!(rt; host.bench.medium[..] == host.model[..]);
}

#[test]
fn sectors_by_each_command(rt: HostRuntime) {
    rounds(&rt, rt.alloc(), 2000);
}

/// READ VERIFY SECTORS and EXT end, and move nothing.
fn verifies(rt: &impl Abort, alloc: Global, host: &mut Host, seed: u64) {
    let place = place_of(seed);
    for code in [0x40, 0x42] {
        let end = host
            .bench
            .runs(rt, alloc, command(code, place.lba, place.count));
        assert_eq!(rt; end, WELL);
        assert!(rt; host.bench.frames.len() == 1);
    }
}

#[test]
fn sectors_are_verified(rt: HostRuntime) {
    let alloc = rt.alloc();
    let mut host = Host::new(&rt, alloc);
    let mut seed = 5u64;
    for _ in 0..2000u32 {
        seed = next(seed);
        verifies(&rt, alloc, &mut host, seed);
    }
}

/// Blocks that no disk has are refused, and without blocks so are the commands that move them.
fn has_no_blocks(rt: &impl Abort, alloc: Global, host: &mut Host) {
    host.sets(rt, alloc, 3, ABORTED);
    host.sets(rt, alloc, 32, ABORTED);
    host.sets(rt, alloc, 0, WELL);
    for code in [0xC4, 0x29, 0xC5, 0x39, 0xCE] {
        assert_eq!(rt; host.bench.runs(rt, alloc, command(code, 0, 1)), ABORTED);
    }
}

#[test]
fn blocks_are_set_and_refused(rt: HostRuntime) {
    let alloc = rt.alloc();
    let mut host = Host::new(&rt, alloc);
    let mut seed = 7u64;
    for _ in 0..2000u32 {
        seed = next(seed);
        has_no_blocks(&rt, alloc, &mut host);
        host.sets(&rt, alloc, BLOCKS[(seed >> 33) as usize % 5], WELL);
        host.reads(&rt, alloc, 0xC4, place_of(seed));
    }
}

/// A command for sectors of which the disk has not all ends with IDNF, at the first that is not there.
fn is_beyond(rt: &impl Abort, alloc: Global, host: &mut Host, code: u8) {
    let end = host.bench.runs(rt, alloc, command(code, SECTORS - 1, 2));
    assert!(rt; end.status == 0x51 && end.error == 0x10 && end.lba == SECTORS);
    host.reads(
        rt,
        alloc,
        0x25,
        Place {
            lba: SECTORS - 1,
            count: 1,
        },
    );
}

#[test]
fn sectors_that_are_not_there(rt: HostRuntime) {
    let alloc = rt.alloc();
    let mut host = Host::new(&rt, alloc);
    host.sets(&rt, alloc, 8, WELL);
    for _ in 0..200u32 {
        for code in &WRITES {
            is_beyond(&rt, alloc, &mut host, *code);
        }
        for code in &READS {
            is_beyond(&rt, alloc, &mut host, *code);
        }
    }
}

#[test]
fn all_sectors_at_once(rt: HostRuntime) {
    let alloc = rt.alloc();
    let mut host = Host::new(&rt, alloc);
    host.sets(&rt, alloc, 16, WELL);
    let all = Place {
        lba: 0,
        count: SECTORS as u16,
    };
    for (write, read) in [(0x34, 0x25), (0x35, 0x24), (0x39, 0x29)] {
        for seed in 0..4u64 {
            host.writes(&rt, alloc, write, all, seed);
            host.reads(&rt, alloc, read, all);
        }
    }
}
