//! Errors of the medium, software resets and plugs in the middle of queued commands.

use crate::host::{ABORTED, WELL, command, next, put_sectors, sectors_of};
use crate::queue::{Order, Queue};
use fis_view::H2dFields;
use std::alloc::Global;
use std::process::Abort;

/// The sectors that are one tag's own here, so that it is known which commands may have stored what.
const OWN: u64 = 128;

/// A command at each tag, in sectors of its own.
fn gives_all(rt: &impl Abort, alloc: Global, queue: &mut Queue, seed: u64) {
    let mut seed = seed;
    for tag in 0..32u8 {
        seed = next(seed);
        let order = Order {
            tag,
            write: seed >> 33 & 1 == 1,
            lba: OWN * u64::from(tag) + (seed >> 50 & 63),
            count: (seed >> 40 & 15) as u16 + 1,
        };
        queue.gives(rt, alloc, order, seed);
    }
}

/// So many moves.
fn goes_on(rt: &impl Abort, alloc: Global, queue: &mut Queue, seed: u64) {
    let mut seed = seed;
    for _ in 0..seed >> 57 {
        seed = next(seed);
        queue.moves(rt, alloc, seed, None);
    }
}

/// Each sector of a write that was cut is as it was, or as the write has it; the host takes what is there.
fn takes_what_is_there(rt: &impl Abort, queue: &mut Queue, tag: usize) {
    let known = queue.tags.get(tag).expect(rt, "a tag");
    if !known.is_out || !known.write {
        return;
    }
    let count = (known.bytes.len() / 512).min(4096) as u32;
    let there = sectors_of(rt, &queue.bench.medium, known.lba, count);
    let writes = known
        .bytes
        .chunks_exact(512)
        .zip(known.old.chunks_exact(512));
    for (sector, (new, old)) in there.chunks_exact(512).zip(writes) {
        assert!(rt; sector[..] == new[..] || sector[..] == old[..]);
    }
    put_sectors(rt, &mut queue.model, known.lba, there);
}

/// The commands are gone. Late answers come, and what was stored is known.
fn is_cut(rt: &impl Abort, alloc: Global, queue: &mut Queue) {
    for _ in 0..100_000u32 {
        let Some(late) = queue.pending.pop() else {
            break;
        };
        queue.bench.answers_late(rt, alloc, late, None);
    }
    for tag in 0..32usize {
        takes_what_is_there(rt, queue, tag);
        queue.tags.get_mut(tag).expect(rt, "a tag").is_out = false;
    }
}

/// A Register FIS that sets SRST, or clears it.
fn control(rt: &impl Abort, alloc: Global, queue: &mut Queue, control: u8) {
    let fields = H2dFields {
        c: false,
        control,
        ..command(0, 0, 0)
    };
    assert!(rt; queue.bench.gives(rt, alloc, fields).is_none());
}

/// A round that a software reset cuts, or a plug.
fn round(rt: &impl Abort, alloc: Global, queue: &mut Queue, seed: u64) {
    gives_all(rt, alloc, queue, seed);
    goes_on(rt, alloc, queue, seed);
    let signatures = queue.signatures;
    if seed >> 34 & 1 == 0 {
        queue.bench.disk.plugged(alloc);
    } else {
        control(rt, alloc, queue, 4);
        // while SRST is set nothing goes
        assert!(rt; queue.bench.next_frame(rt, alloc).is_none());
        control(rt, alloc, queue, 0);
    }
    if seed >> 35 & 1 == 0 {
        // late answers after the signature, or before it
        let frame = queue.bench.next_frame(rt, alloc).expect(rt, "a signature");
        queue.hears(rt, alloc, &frame);
    }
    is_cut(rt, alloc, queue);
    queue.settles(rt, alloc, seed);
    assert!(rt; queue.signatures == signatures.saturating_add(1));
    gives_all(rt, alloc, queue, next(seed));
    queue.settles(rt, alloc, seed);
}

#[test]
fn resets_and_plugs_cut_queued_commands(rt: HostRuntime) {
    let alloc = rt.alloc();
    let mut queue = Queue::new(&rt, alloc, 1 << 20);
    let mut seed = 17u64;
    for _ in 0..2000u32 {
        seed = next(seed);
        round(&rt, alloc, &mut queue, seed);
    }
    assert!(rt; queue.reads > 20_000 && queue.writes > 20_000 && queue.signatures == 2000);
    assert!(rt; queue.bench.medium[..] == queue.model[..]);
}

/// The NCQ Command Error log: the tag, the Status, the Error and the sector (ACS-3, 9.13).
fn log_says(rt: &impl Abort, alloc: Global, queue: &mut Queue, code: u8, tag: u8) -> u64 {
    assert_eq!(rt; queue.bench.runs(rt, alloc, command(code, 0x10, 1)), WELL);
    let page = queue.bench.came(rt, alloc);
    assert!(rt; page.len() == 512);
    assert!(rt; page[0] == tag && page[2] == 0x41 && Some(page[3]) == queue.error);
    u64::from(page[4]) + 256 * u64::from(page[5])
}

/// A round in which the medium fails the command of one tag: all others end with it, and nothing but its log is read.
fn failing_round(rt: &impl Abort, alloc: Global, queue: &mut Queue, seed: u64) {
    queue.error = None;
    gives_all(rt, alloc, queue, seed);
    let victim = (seed >> 59 & 31) as u8;
    let mut seed = seed;
    for _ in 0..100_000u32 {
        seed = next(seed);
        if queue.error.is_some() || !queue.moves(rt, alloc, seed, Some(victim)) {
            break;
        }
    }
    let failed = queue.tags.get(victim as usize).expect(rt, "a tag");
    assert!(rt; failed.is_out);
    assert_eq!(rt; queue.error, Some(if failed.write { 0x04 } else { 0x40 }));
    let at = if failed.write {
        failed.lba
    } else {
        failed
            .lba
            .saturating_add((failed.bytes.len() / 1024) as u64)
    };
    is_cut(rt, alloc, queue);
    assert_eq!(rt; queue.bench.runs(rt, alloc, command(0x25, 0, 1)), ABORTED);
    let code = if seed >> 40 & 1 == 0 { 0x2F } else { 0x47 };
    assert_eq!(rt; log_says(rt, alloc, queue, code, victim), at);
    gives_all(rt, alloc, queue, next(seed));
    queue.settles(rt, alloc, seed);
}

#[test]
fn errors_of_the_medium_end_queued_commands(rt: HostRuntime) {
    let alloc = rt.alloc();
    let mut queue = Queue::new(&rt, alloc, 1 << 20);
    let mut seed = 19u64;
    for _ in 0..2000u32 {
        seed = next(seed);
        failing_round(&rt, alloc, &mut queue, seed);
    }
    assert!(rt; queue.reads > 20_000 && queue.writes > 20_000 && queue.signatures == 0);
    assert!(rt; queue.bench.medium[..] == queue.model[..]);
}
