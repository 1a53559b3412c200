//! Which bytes of a command were transferred.

ghost use Rattle.std.specs.Prelude.{◌≡◌, ◌+◌, ◌*◌, ◌%◌, ◌≤◌, ◌<◌, false, length, slice_index_or};
ghost use Rattle.std.specs.List.{list_any};
ghost use Rattle.slots.specs.Bytes.{any_over as any_over_of, came_of, ends_at as ends_at_of, is_whole as is_whole_of, none_over, stretches_of, with_bytes};
ghost use Rattle.slots.specs.Stretches.{AreApart, dwords_of, in_one, joined as joined_of, meets, merged_with};

mod saved;

use arrayvec::ArrayVec;
use std::marker::Model;

/// Consecutive dwords: those from `start` on, below `end`.
#[derive(Clone, Copy, Default)]
pub(crate) struct Stretch {
    start: u32,
    end: u32,
}

/// Which dwords were transferred, of a transfer of up to 32 MiB: stretches in order, each with a gap to the
/// next.
#[derive(Drop)]
pub(crate) struct Moved {
    stretches: ArrayVec<Stretch, 64>,
    dwords: u32,
}

impl Model for Moved {
    ghost use Rattle.std.specs.Prelude.{List, Bool, ◌≤◌};
    ghost use Rattle.slots.specs.Stretches.{AreApart, over_of};

    ghost Value = { List Bool };

    ghost view = { λ m. over_of m.dwords m.stretches.items };

    ghost invariant = { λ m. (m.dwords ≤ 8388608) × AreApart 0 m.dwords m.stretches.items };
}

impl Moved {
    /// None of a transfer of `len` bytes.
    pub(crate) fn new(len: u32) -> Self
        requires { len ≤ 33554432 }
        ensures { result ≡ none_over len }
    {
        Moved {
            stretches: ArrayVec::new(),
            dwords: len / 4,
        }
    }

    fn get(&self, k: u32) -> bool
        requires { k < length self.now }
        ensures { result ≡ slice_index_or self.now k false }
    {
        has_dword(self.stretches.as_slice(), k)
    }

    /// How many dwords the transfer has.
    pub(crate) fn dwords(&self) -> u32
        ensures value { result ≡ length self.now }
        ensures few { result ≤ 8388608 }
    {
        self.dwords
    }

    /// Whether all its bytes were transferred.
    pub(crate) fn is_whole(&self) -> bool
        ensures { result ≡ is_whole_of self.now (4 * length self.now) }
    {
        self.came() == 4 * self.dwords()
    }

    /// How many of its bytes were transferred.
    pub(crate) fn came(&self) -> u32
        ensures { result ≡ came_of self.now (4 * length self.now) }
    {
        4 * count_dwords(self.stretches.as_slice())
    }

    /// How many stretches there are.
    pub(crate) fn stretches(&self) -> u32
        ensures { result ≡ stretches_of self.now (4 * length self.now) }
    {
        self.stretches.len() as u32
    }

    /// Whether a stretch ends just before byte `offset`.
    pub(crate) fn ends_at(&self, offset: u32) -> bool
        requires { offset ≤ 4 * length self.now }
        ensures { result ≡ ends_at_of self.now offset }
    {
        let dword = offset / 4;
        offset % 4 == 0
            && dword > 0
            && self.get(dword - 1)
            && !(dword < self.dwords() && self.get(dword))
    }

    /// Whether one of these bytes was transferred.
    pub(crate) fn any_over(&self, offset: u32, count: u32) -> bool
        requires { offset + count ≤ 4 * length self.now }
        ensures { result ≡ any_over_of self.now offset count }
    {
        if count == 0 {
            return false;
        }
        let start = offset as usize / 4;
        let end = (offset as usize + count as usize - 1) / 4 + 1;
        have_between(self.stretches.as_slice(), start, end)
    }

    /// Adds these bytes to those that were transferred.
    pub(crate) fn add(&mut self, offset: u32, count: u32)
        requires within { offset + count ≤ 4 * length self.old }
        requires offset { offset % 4 ≡ 0 }
        requires count { count % 4 ≡ 0 }
        requires few { stretches_of (with_bytes self.old offset count) (4 * length self.old) ≤ 64 }
        ensures { self.new ≡ with_bytes self.old offset count }
    {
        if count == 0 {
            return;
        }
        let start = offset / 4;
        let end = start + count / 4;
        self.stretches = merge(self.stretches.as_slice(), Stretch { start, end });
    }
}

// Whether the dword is in one of these stretches.
fn has_dword(stretches: &[Stretch], k: u32) -> bool
    ensures { result ≡ in_one stretches.now k }
{
    stretches
        .iter()
        .any(|stretch| stretch.start <= k && k < stretch.end)
}

// Whether one of the dwords from `start` on, below `end`, is in one of them.
fn have_between(stretches: &[Stretch], start: usize, end: usize) -> bool
    ensures { result ≡ list_any (meets start end) stretches.now }
{
    stretches.iter().any(|stretch| (stretch.start as usize) < end && start < stretch.end as usize)
}

// How many dwords they have.
fn count_dwords(stretches: &[Stretch]) -> u32
    requires { AreApart 0 8388608 stretches.now }
    ensures value { result ≡ dwords_of stretches.now }
    ensures few { result ≤ 8388608 }
{
    let mut dwords = 0;
    for stretch in stretches {
        dwords += stretch.end - stretch.start;
    }
    dwords
}

fn join(left: Stretch, right: Stretch) -> Stretch
    ensures { result ≡ joined_of left right }
{
    Stretch {
        start: left.start.min(right.start),
        end: left.end.max(right.end),
    }
}

// These stretches with one more, which is joined with those that it meets or touches.
fn merge(stretches: &[Stretch], more: Stretch) -> ArrayVec<Stretch, 64>
    requires { length (merged_with more stretches.now) ≤ 64 }
    ensures { result.items ≡ merged_with more stretches.now }
{
    let mut kept = ArrayVec::new();
    let mut waiting = Some(more);
    for stretch in stretches {
        match waiting {
            None => kept.push(*stretch),
            Some(grown) if stretch.end < grown.start => kept.push(*stretch),
            Some(grown) if grown.end < stretch.start => {
                kept.push(grown);
                kept.push(*stretch);
                waiting = None;
            }
            Some(grown) => waiting = Some(join(grown, *stretch)),
        }
    }
    if let Some(grown) = waiting {
        kept.push(grown);
    }
    kept
}
