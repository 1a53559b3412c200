//! Two threads at the seats of one link.

use ruled_links::{Link, Rx, Tx, meet};
use std::sync::Wait;
use std::test::Fail;
use std::thread;
use std::thread::{Threads, join};

/// The number of items that go over the link.
const ITEMS: u32 = 100_000;

/// How often each side tries. A side that meets a full or an empty link yields the processor.
const TRIES: u64 = 30_000_000;

/// One side of a link, which works in a thread of its own.
trait Side: Send + Drop {
    ghost is_after: { Self → Self → Type 0 };

    fn work<R: Wait>(self, rt: &R) -> Self
        ensures { is_after self result };
}

/// Sends the numbers from 0 on.
#[derive(Drop)]
struct Sender<'a> {
    seat: Tx<'a, u32>,
    sent: u32,
}

impl<'a> Side for Sender<'a> {
    ghost use Rattle.std.specs.Prelude.{◌≡◌};

    ghost is_after = { λ side after. after.seat.link ≡ side.seat.link };

    fn work<R: Wait>(mut self, rt: &R) -> Sender<'a> {
        for _ in 0..TRIES {
            if self.sent >= ITEMS {
                break;
            }
            let item = self.sent;
            match self.seat.send(rt, item) {
                Ok(()) => self.sent = item + 1,
                Err(_) => thread::yield_now(),
            }
        }
        self
    }
}

/// Takes numbers, and counts those that come in their order.
#[derive(Drop)]
struct Taker<'a> {
    seat: Rx<'a, u32>,
    taken: u32,
    in_order: u32,
}

impl<'a> Side for Taker<'a> {
    ghost use Rattle.std.specs.Prelude.{◌≡◌};

    ghost is_after = { λ side after. after.seat.link ≡ side.seat.link };

    fn work<R: Wait>(mut self, rt: &R) -> Taker<'a> {
        for _ in 0..TRIES {
            if self.taken >= ITEMS {
                break;
            }
            match self.seat.take(rt) {
                Some(item) => {
                    if item == self.taken {
                        self.in_order = self.in_order.wrapping_add(1);
                    }
                    self.taken += 1;
                }
                None => thread::yield_now(),
            }
        }
        self
    }
}

/// Both sides at once.
fn side_by_side<A: Side, B: Side, R: Threads + Wait + Sync>(rt: &R, a: A, b: B) -> (A, B)
    ensures a { A.is_after a result.0 }
    ensures b { B.is_after b result.1 }
{
    let first = move || -> A
        ensures { A.is_after a result }
    { a.work(rt) };
    let second = move || -> B
        ensures { B.is_after b result }
    { b.work(rt) };
    join(rt, first, second)
}

#[test]
fn two_threads(rt: HostRuntime) -> Result<(), Fail> {
    for capacity in [1, 64] {
        let mut link = Link::new(rt.alloc(), capacity)?;
        let (tx, rx) = link.seats().ok_or("no seats")?;
        let sender = Sender { seat: tx, sent: 0 };
        let taker = Taker {
            seat: rx,
            taken: 0,
            in_order: 0,
        };
        let (sender, taker) = side_by_side(&rt, sender, taker);
        let (_, mut rx) = meet(sender.seat, taker.seat);
        assert_eq!(rt;
            (sender.sent, taker.taken, taker.in_order),
            (ITEMS, ITEMS, ITEMS)
        );
        assert_eq!(rt; rx.take(&rt), None);
    }
    Ok(())
}
