//! Commands are read out of the guest's memory.

ghost use Rattle.std.specs.Prelude.{◌≡◌, ◌<◌, None, bit_or, slice_set, slice_index_or};
ghost use Rattle.guest_fetch.specs.Fetching.{part_at, refused_for, want_of};
ghost use Rattle.ahci_controller.specs.Fetching.{Answers, AnswersTo, Asks, GoesOn, Misses, asked as asked_of, fetch_of, is_asked as is_asked_of, missing_in, want_at, with_fetch, without_fetch};

use crate::bits::{has_bit, without};
use crate::issuing::{NotTaken, Supply, slot_bit};
use crate::parts::Parts;
use crate::wants::Wants;
use guest_fetch::{Fetch, Refusal, Supplied, Want};
use std::alloc::Global;

/// Bytes of the guest that are wanted for the command of a slot.
#[derive(Clone, Copy, Debug, PartialEq, Eq)]
pub struct Ask {
    /// The slot.
    pub slot: u8,
    /// The number of the want. An answer counts only if it names it.
    pub number: u64,
    /// The bytes.
    pub want: Want,
}

impl Wants {
    // With one more, for a slot.
    fn asked(&mut self, slot: u8)
        requires { slot < 32 }
        ensures { self.new ≡ asked_of self.old slot }
    {
        let number = self.count.saturating_add(1);
        self.out |= slot_bit(slot);
        self.count = number;
        self.slots[slot as usize] = number;
    }

    // Whether this one is out.
    fn is_asked(&self, slot: u8, number: u64) -> bool
        ensures { result ≡ is_asked_of self.now slot number }
    {
        slot < 32 && has_bit(self.out, u32::from(slot)) && self.slots[slot as usize] == number
    }
}

// What has come of the command of a slot, None where nothing has.
fn taken(fetches: &mut [Option<Fetch>; 32], slot: u8) -> Option<Fetch>
    requires { slot < 32 }
    ensures fetch { result ≡ slice_index_or fetches.old slot None }
    ensures rest { fetches.new ≡ slice_set fetches.old slot None }
{
    fetches[slot as usize].take()
}

impl Parts {
    // The bytes that are wanted next for the command of a slot.
    fn want(&self, slot: u8) -> Want
        requires { slot < 32 }
        ensures { result ≡ want_at self.now slot }
    {
        match &self.fetches[slot as usize] {
            Some(fetch) => fetch.want(),
            None => Fetch::new(self.own.list(), slot).want(),
        }
    }

    // Why the command is not taken, where they are not memory.
    fn missing(&self, slot: u8) -> Refusal
        requires { slot < 32 }
        ensures { result ≡ missing_in self.now slot }
    {
        match &self.fetches[slot as usize] {
            Some(fetch) => fetch.no_memory(),
            None => Fetch::new(self.own.list(), slot).no_memory(),
        }
    }

    // What has come of the command of a slot goes on as a value of its own.
    fn fetch(&mut self, slot: u8) -> Fetch
        requires { slot < 32 }
        ensures fetch { result ≡ fetch_of self.old slot }
        ensures rest { self.new ≡ without_fetch self.old slot }
    {
        let list = self.own.list();
        match taken(&mut self.fetches, slot) {
            Some(fetch) => fetch,
            None => Fetch::new(list, slot),
        }
    }

    /// The next bytes of the command of a slot are wanted.
    pub(crate) fn ask(&mut self, slot: u8) -> Ask
        requires { slot < 32 }
        ensures { Asks self.old slot result self.new }
    {
        let want = self.want(slot);
        self.wants.asked(slot);
        Ask {
            slot,
            number: self.wants.count,
            want,
        }
    }

    // These bytes are answered.
    fn answered(&mut self, slot: u8)
        requires { slot < 32 }
        ensures { Answers self.old slot self.new }
    {
        self.wants.out = without(self.wants.out, slot_bit(slot));
    }

    // More of it is wanted.
    fn put_back(&mut self, slot: u8, fetch: Fetch)
        requires { slot < 32 }
        ensures { self.new ≡ with_fetch self.old slot fetch }
    {
        self.fetches[slot as usize] = Some(fetch);
    }

    // What a supply answered.
    fn go_on(&mut self, slot: u8, supplied: Supplied) -> Supply
        requires { slot < 32 }
        ensures { GoesOn self.old slot supplied result self.new }
    {
        match supplied {
            Supplied::More(fetch) => {
                self.put_back(slot, fetch);
                Supply::More
            }
            Supplied::OutOfMemory(fetch) => {
                self.put_back(slot, fetch);
                Supply::OutOfMemory
            }
            Supplied::Refused(refusal) => self.refuse(slot, NotTaken::Read(refusal)),
            Supplied::Whole(command) => self.issue(slot, command),
        }
    }

    /// The bytes that are wanted for a slot are these. Where no such bytes are wanted, or not so many, nothing changes. Once
    /// all of its command has come, it is issued.
    pub fn supply(&mut self, alloc: Global, slot: u8, number: u64, bytes: &[u8]) -> Supply
        ensures { AnswersTo self.old slot number bytes.now result self.new }
    {
        if !self.wants.is_asked(slot, number) || bytes.len() != self.want(slot).len {
            return Supply::Stale;
        }
        self.answered(slot);
        let fetch = self.fetch(slot);
        let supplied = fetch.supply(alloc, bytes);
        self.go_on(slot, supplied)
    }

    /// Some of the bytes that are wanted for a slot are not memory: its command is not taken. Where none are wanted under that
    /// number, nothing changes.
    pub fn no_memory(&mut self, slot: u8, number: u64) -> Supply
        ensures { Misses self.old slot number result self.new }
    {
        if !self.wants.is_asked(slot, number) {
            return Supply::Stale;
        }
        let refusal = self.missing(slot);
        self.answered(slot);
        let _ = self.fetch(slot);
        self.refuse(slot, NotTaken::Read(refusal))
    }
}
