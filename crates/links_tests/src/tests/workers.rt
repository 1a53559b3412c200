//! Workers: all work at the same time.

ghost use Rattle.std.specs.Prelude.{◌≡◌};

use runner::{Post, Worker, run_three};
use std::alloc::{AllocError, Global};
use std::sync::Wait;
use std::sync::atomic::{AtomicU64, Ordering};
use std::test::Fail;
use std::thread::Threads;

/// Says that it is there, and waits until this many others are.
#[derive(Drop)]
struct Guest<'a> {
    number: u64,
    there: &'a AtomicU64,
    all: u64,
}

impl<'a> Worker for Guest<'a> {
    type End = Option<u64>;

    ghost use Rattle.std.specs.Prelude.{◌≡◌, IfSome};

    ghost ended = { λ guest turns end. IfSome end (λ n. n ≡ guest.number) };

    fn work<R: Wait>(self, rt: &R, mut post: Post<'_>) -> Option<u64> {
        self.there.fetch_add(1, Ordering::SeqCst);
        for _ in 0..u64::MAX {
            if self.there.load(Ordering::SeqCst) >= self.all {
                return Some(self.number);
            }
            if post.spent().is_some() || !post.begins() {
                break;
            }
            post.turned(rt, false);
        }
        post.end();
        None
    }
}

/// This many guests beside two more: who has met all others.
fn met<R: Wait + Threads + Sync>(
    rt: &R,
    alloc: Global,
    many: u64,
) -> Result<(Vec<Option<u64>>, Option<u64>, Option<u64>), AllocError> {
    let there = AtomicU64::new(0);
    let all = many.saturating_add(2);
    let mut guests = Vec::new(alloc);
    for number in 0..many {
        guests.push(Guest {
            number,
            there: &there,
            all,
        })?;
    }
    let one = Guest {
        number: 100,
        there: &there,
        all,
    };
    let other = Guest {
        number: 200,
        there: &there,
        all,
    };
    run_three(rt, alloc, guests, one, other, 100_000_000)
}

#[test]
fn all_are_there_at_once(rt: HostRuntime) -> Result<(), Fail> {
    for many in [0, 1, 15] {
        let (ends, one, other) = met(&rt, rt.alloc(), many)?;
        assert_eq!(rt; (one, other), (Some(100), Some(200)));
        for (i, end) in ends.iter().enumerate() {
            assert_eq!(rt; *end, Some(i as u64));
        }
        assert_eq!(rt; ends.len() as u64, many);
    }
    Ok(())
}
