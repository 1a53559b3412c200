//! Errors of the medium, software resets and plugs in the middle of commands that are not queued.

use crate::caller::Pending;
use crate::host::{Bench, Ending, WELL, command, next, some_bytes};
use crate::memory::zeros;
use block_engine::{Answer, ErrorKind, Failure, Request, What};
use fis_view::H2dFields;
use sata_disk::Unheard;
use std::alloc::Global;
use std::process::Abort;

/// The first sector of each command.
const LBA: u64 = 700;

/// Commands for which the caller is asked: reads, writes and a verify of 9 sectors, a flush, a TRIM, and the write cache off.
fn some(seed: u64) -> H2dFields {
    match seed >> 40 & 7 {
        0 => command(0x25, LBA, 9),
        1 => command(0x24, LBA, 9),
        2 => command(0x35, LBA, 9),
        3 => command(0x34, LBA, 9),
        4 => command(0x42, LBA, 9),
        5 => command(0xEA, 0, 0),
        6 => H2dFields {
            features: 1,
            ..command(0x06, 0, 1)
        },
        _ => H2dFields {
            features: 0x82,
            ..command(0xEF, 0, 0)
        },
    }
}

/// What the host sends for it: sectors, or one range of 9 sectors.
fn data_for(rt: &impl Abort, alloc: Global, fields: &H2dFields, seed: u64) -> Vec<u8> {
    if fields.command != 0x06 {
        return some_bytes(rt, alloc, 9 * 512, seed);
    }
    let mut blocks = zeros(rt, alloc, 512);
    assert!(rt; blocks.len() == 512);
    blocks[0] = (LBA % 256) as u8;
    blocks[1] = (LBA / 256) as u8;
    blocks[6] = 9;
    blocks
}

/// The host gives a command.
fn gives(rt: &impl Abort, alloc: Global, bench: &mut Bench, seed: u64) {
    let fields = some(seed);
    bench.data = data_for(rt, alloc, &fields, seed);
    bench.gone = 0;
    bench.frames = Vec::new(alloc);
    assert!(rt; bench.gives(rt, alloc, fields).is_none());
    let other = bench.gives(rt, alloc, command(0xEC, 0, 0));
    assert!(rt; matches!(other, Some(Unheard::Busy)));
}

/// The disk is as good as new: 9 sectors go to it by each kind of command, and come back.
fn is_well(rt: &impl Abort, alloc: Global, bench: &mut Bench, seed: u64) {
    bench.data = some_bytes(rt, alloc, 9 * 512, seed);
    let write = if seed & 1 == 0 { 0x35 } else { 0x34 };
    assert_eq!(rt; bench.runs(rt, alloc, command(write, LBA, 9)), WELL);
    let read = if seed & 2 == 0 { 0x25 } else { 0x24 };
    assert_eq!(rt; bench.runs(rt, alloc, command(read, LBA, 9)), WELL);
    assert!(rt; bench.came(rt, alloc)[..] == bench.data[..]);
}

/// What the medium says of a request that it does not do.
fn failure_of(request: &Request) -> Failure {
    match request.what {
        What::Load { lba, .. } => Failure {
            error: ErrorKind::Uncorrectable,
            lba: lba.saturating_add(4),
        },
        What::Store { lba, .. } => Failure {
            error: ErrorKind::Aborted,
            lba,
        },
        What::Flush | What::Discard => Failure {
            error: ErrorKind::Aborted,
            lba: 0,
        },
    }
}

/// How a command ends for which the medium does not do what it is asked for first.
fn failed(rt: &impl Abort, alloc: Global, bench: &mut Bench) -> Ending {
    let mut pending = Vec::new(alloc);
    for _ in 0..1000u32 {
        bench.collects(rt, alloc, &mut pending);
        if let Some(Pending { request, .. }) = pending.pop() {
            let failure = failure_of(&request);
            let taken = bench.disk.answer(request.number, Answer::Failed(failure));
            assert!(rt; taken.is_ok());
        } else if !bench.sends(rt, alloc) {
            return bench.ending(rt);
        }
    }
    panic!(rt; "it goes on");
}

/// The end of a command that failed.
fn failure_end(seed: u64) -> Ending {
    let (error, lba) = match seed >> 40 & 7 {
        0 | 1 | 4 => (0x40, LBA + 4),
        2 | 3 => (0x04, LBA),
        _ => (0x04, 0),
    };
    Ending {
        status: 0x51,
        error,
        lba,
        count: 0,
    }
}

#[test]
fn errors_of_the_medium_end_single_commands(rt: HostRuntime) {
    let alloc = rt.alloc();
    let mut bench = Bench::with_limit(&rt, alloc, 1 << 20);
    bench.settles(&rt, alloc);
    let mut seed = 23u64;
    for _ in 0..4000u32 {
        seed = next(seed);
        gives(&rt, alloc, &mut bench, seed);
        assert_eq!(rt; failed(&rt, alloc, &mut bench), failure_end(seed));
        is_well(&rt, alloc, &mut bench, seed);
    }
    // the write cache is on still: turning it off failed each time
    assert!(rt; bench.flushes == 0);
}

/// SRST is set and cleared, or the disk is plugged in anew.
fn cuts(rt: &impl Abort, alloc: Global, bench: &mut Bench, is_plug: bool) {
    if is_plug {
        bench.disk.plugged(alloc);
        return;
    }
    for control in [4, 0] {
        let fields = H2dFields {
            c: false,
            control,
            ..command(0, 0, 0)
        };
        assert!(rt; bench.gives(rt, alloc, fields).is_none());
    }
}

/// So many moves of a command; then it is cut, what is owed is answered late, and only the signature comes.
fn cut_round(rt: &impl Abort, alloc: Global, bench: &mut Bench, seed: u64) {
    let mut pending = Vec::new(alloc);
    gives(rt, alloc, bench, seed);
    for _ in 0..seed >> 60 {
        bench.collects(rt, alloc, &mut pending);
        if !bench.sends(rt, alloc)
            && let Some(one) = pending.pop()
        {
            bench.answers_late(rt, alloc, one, None);
        }
    }
    bench.frames = Vec::new(alloc);
    cuts(rt, alloc, bench, seed >> 35 & 1 == 0);
    for _ in 0..100u32 {
        if let Some(one) = pending.pop() {
            bench.answers_late(rt, alloc, one, None);
        }
    }
    bench.settles(rt, alloc);
    assert!(rt; bench.frames.len() == 1);
    let frame = bench.frames.pop().expect(rt, "a signature");
    assert!(rt; matches!(frame.bytes(), [0x34, 0, 0x50, 1, 1, ..]));
}

#[test]
fn resets_and_plugs_cut_single_commands(rt: HostRuntime) {
    let alloc = rt.alloc();
    let mut bench = Bench::with_limit(&rt, alloc, 1 << 20);
    bench.settles(&rt, alloc);
    let mut seed = 29u64;
    for _ in 0..8000u32 {
        seed = next(seed);
        cut_round(&rt, alloc, &mut bench, seed);
        is_well(&rt, alloc, &mut bench, seed);
    }
}
