//! READ FPDMA QUEUED and WRITE FPDMA QUEUED at all 32 tags, answered and ended in any order.

ghost use Rattle.std.specs.Prelude.{◌≤◌};

use crate::host::{SECTORS, WELL, command, next};
use crate::queue::{Order, Queue};
use fis_view::H2dFields;
use std::alloc::Global;
use std::process::Abort;

/// A read or a write, now and then of all sectors.
fn order_of(tag: u8, seed: u64) -> Order {
    let count = if seed >> 20 & 0x3FF == 0 {
        SECTORS as u16
    } else {
        (seed >> 40 & 15) as u16 + 1
    };
    Order {
        tag,
        write: seed >> 33 & 1 == 1,
        lba: (seed >> 50).min(SECTORS - u64::from(count)),
        count,
    }
}

/// A command at each free tag.
fn gives_all(rt: &impl Abort, alloc: Global, queue: &mut Queue, seed: u64) {
    let mut seed = seed;
    for tag in 0..32u8 {
        seed = next(seed);
        if queue
            .tags
            .get(tag as usize)
            .is_some_and(|known| !known.is_out)
        {
            queue.gives(rt, alloc, order_of(tag, seed), seed);
        }
    }
}

/// SET FEATURES, while nothing is under way.
fn sets(rt: &impl Abort, alloc: Global, queue: &mut Queue, features: u16, count: u16) {
    let fields = H2dFields {
        features,
        ..command(0xEF, 0, count)
    };
    assert_eq!(rt; queue.bench.runs(rt, alloc, fields), WELL);
}

/// Auto-activate and the write cache change while rounds go on.
fn changes(rt: &impl Abort, alloc: Global, queue: &mut Queue, round: u32) {
    match round % 512 {
        128 => sets(rt, alloc, queue, 0x10, 2),
        256 => sets(rt, alloc, queue, 0x82, 0),
        384 => sets(rt, alloc, queue, 0x90, 2),
        511 => sets(rt, alloc, queue, 0x02, 0),
        _ => {}
    }
}

/// Rounds of commands at all tags: in some all end before the next come, in the others new ones come to tags that are free.
fn rounds(rt: &impl Abort, alloc: Global, limit: u32, rounds: u32)
    requires { 1048576 ≤ limit }
{
    let mut queue = Queue::new(rt, alloc, limit);
    let mut seed = u64::from(limit);
    for round in 0..rounds {
        seed = next(seed);
        gives_all(rt, alloc, &mut queue, seed);
        if round % 2 == 0 {
            queue.settles(rt, alloc, seed);
            changes(rt, alloc, &mut queue, round / 2);
        } else {
            for _ in 0..seed >> 57 {
                seed = next(seed);
                queue.moves(rt, alloc, seed, None);
            }
        }
    }
    queue.settles(rt, alloc, seed);
    let most = rounds.saturating_mul(8);
    assert!(rt; queue.reads > most && queue.writes > most);
    assert_eq!(rt;
        u64::from(queue.reads).saturating_add(u64::from(queue.writes)),
        queue.given
    );
    assert!(rt; queue.overtakes > rounds && queue.bench.flushes > rounds);
    assert!(rt; queue.bench.asked > queue.given);
    assert!(rt; queue.bench.medium[..] == queue.model[..]);
}

#[test]
fn queued_commands_within_1_mib(rt: HostRuntime) {
    rounds(&rt, rt.alloc(), 1 << 20, 2000);
}

#[test]
fn queued_commands_within_32_mib(rt: HostRuntime) {
    rounds(&rt, rt.alloc(), 32 << 20, 2000);
}
