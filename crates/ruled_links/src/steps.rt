//! The steps of a link's two passes.

ghost use Rattle.std.specs.Prelude.{◌≡◌, ◌+◌, ◌^◌, ◌<◌, ◌≤◌, ◌∷◌, [], ◌++◌, length, IfOk, IfErr, IfNone, IfSome, OnOk};
ghost use Rattle.ruled_links.specs.Lists.{Agree, IsPrefixOf};
ghost use Rattle.ruled_links.specs.Rule.{CanSend, CanTake, CanMeet, IsPassOf, IsSamePass, Met, both, found_empty, found_full, fresh, has_sent, has_taken, known, room_of, sender, taker};

use crate::item::Item;
use crate::ring::{Pass, Ring};
use crate::rule::{Claims, Fetches, Frees, Meets, Publishes, Seats};
use atomic_table::Table;
use std::alloc::{AllocError, Global};
use std::sync::Wait;
use std::thread;

/// The words that count what was sent and what was taken, and the number of words. They lie 128 bytes apart, so
/// that they share no cache line.
const TAIL: usize = 16;

const HEAD: usize = 32;

const WORDS: usize = 48;

/// No call sends or takes 2^64 items.
fn stop<R: Wait>(rt: &R)
    ensures { ⊥ }
{
    for _ in rt.forever() {
        thread::yield_now();
    }
    unreachable!()
}

impl<T: Item> Ring<T> {
    pub(crate) fn new(alloc: Global, room: usize) -> Result<(Ring<T>, Pass<T>), AllocError>
        requires { 1 ≤ room }
        ensures { IfOk result (λ r. (room_of r.0 ≡ room) × IsPassOf r.0 r.1 × (known r.1 ≡ fresh)) }
    {
        let (table, pass) = Table::vacant(alloc, &[0; WORDS], room, &())?;
        let ring = Ring {
            table,
            room: room as u64,
        };
        Ok((ring, pass))
    }

    /// Sends the item, of which `tail` were sent before, or gives it back.
    pub(crate) fn push<R: Wait>(
        &self,
        rt: &R,
        pass: &mut Pass<T>,
        tail: u64,
        item: T,
    ) -> Result<(), T>
        requires pass { IsPassOf self.now pass.old × CanSend (known pass.old) × (tail ≡ length (known pass.old).sent) }
        requires order { T.in_order ((known pass.old).sent ++ item ∷ []) }
        ensures pass { IsSamePass pass.old pass.new }
        ensures sent { OnOk result ((known pass.new ≡ has_sent (known pass.old) item) × (tail + 1 < 2 ^ 64)) }
        ensures full { IfErr result (λ back. (known pass.new ≡ found_full (known pass.old)) × (back ≡ item)
            × (length (known pass.old).taken + room_of self.now ≤ tail)) }
    {
        if tail == u64::MAX {
            stop(rt);
        }
        let table = &self.table.shared;
        let head = table.load::<Claims>(pass, HEAD);
        if tail - head == self.room {
            return Err(item);
        }
        let slot = (tail % self.room) as usize;
        match table.exchange(pass, slot, Some(item)) {
            None => {}
            Some(_) => unreachable!(),
        }
        table.store::<Publishes>(pass, TAIL, tail + 1);
        Ok(())
    }

    /// Takes the next item, of which `head` were taken before.
    pub(crate) fn pop<R: Wait>(&self, rt: &R, pass: &mut Pass<T>, head: u64) -> Option<T>
        requires pass { IsPassOf self.now pass.old × CanTake (known pass.old) × (head ≡ length (known pass.old).taken) }
        ensures pass { IsSamePass pass.old pass.new }
        ensures taken { IfSome result
            (λ item. (known pass.new ≡ has_taken (known pass.old) item) × (head + 1 < 2 ^ 64)) }
        ensures ordered { IfSome result (λ _. T.in_order (known pass.new).taken) }
        ensures agree { IfSome result (λ _. Agree (known pass.new).sent (known pass.new).taken) }
        ensures empty { IfNone result ((known pass.new ≡ found_empty (known pass.old))
            × IsPrefixOf (known pass.old).sent (known pass.old).taken) }
    {
        if head == u64::MAX {
            stop(rt);
        }
        let table = &self.table.shared;
        let tail = table.load::<Fetches>(pass, TAIL);
        if tail == head {
            return None;
        }
        let slot = (head % self.room) as usize;
        let item = table.exchange(pass, slot, None);
        table.store::<Frees>(pass, HEAD, head + 1);
        item
    }

    /// The pass becomes the two seats'.
    pub(crate) fn split(&self, pass: &mut Pass<T>) -> Pass<T>
        requires { IsPassOf self.now pass.old × CanMeet (known pass.old) }
        ensures pass { IsSamePass pass.old pass.new × IsPassOf self.now result }
        ensures known { (known pass.new ≡ sender (known pass.old)) × (known result ≡ taker (known pass.old)) }
    {
        self.table.shared.split_seat::<Seats>(pass)
    }

    /// The seats' passes become one, which looks at the link.
    pub(crate) fn join(&self, pass: &mut Pass<T>, other: Pass<T>)
        requires { IsPassOf self.now pass.old × IsPassOf self.now other × CanSend (known pass.old) × CanTake (known other) }
        ensures pass { IsSamePass pass.old pass.new }
        ensures known { known pass.new ≡ both (known pass.old) (known other) }
        ensures met { Met T.in_order (room_of self.now) (known pass.new) }
    {
        let table = &self.table.shared;
        table.join_seat::<Seats>(pass, other);
        table.load::<Meets>(pass, TAIL);
    }
}
