//! Which bytes of a command were transferred as words, and back.

ghost use Rattle.std.specs.Prelude.{◌≡◌, ◌≤◌, ◌↔◌, length, true};
ghost use Rattle.slots.specs.Saved.{AreRuns, KeepsOver, KeepsStretch, over_apart, put_over, put_stretch, stretch_apart};
ghost use Rattle.slots.specs.Stretches.{AreApart};

use super::{Moved, Stretch};
use arrayvec::ArrayVec;
use saved_state::{RestoreError, Saved, Words, restore_list, save_list};
use std::alloc::{AllocError, Global};

/// The most dwords of a transfer.
const MAX_DWORDS: u32 = 0x80_0000;
/// The most stretches of a transfer.
const MAX_STRETCHES: usize = 64;

impl Saved for Stretch {
    ghost put = { put_stretch };

    ghost keeps = { KeepsStretch };

    ghost told_apart = { stretch_apart };

    fn save(&self, words: &mut Words) -> Result<(), AllocError> {
        self.end.save(words)?;
        self.start.save(words)
    }

    fn restore(alloc: Global, words: &mut Words) -> Result<Stretch, RestoreError> {
        match <(u32, u32)>::restore(alloc, words) {
            Ok((start, end)) => Ok(Stretch { start, end }),
            Err(error) => Err(error),
        }
    }
}

// Whether they lie in order below this dword, each with a gap to the next.
fn are_apart(stretches: &[Stretch], dwords: u32) -> bool
    requires { dwords ≤ 8388608 }
    ensures { (result ≡ true) ↔ AreApart 0 dwords stretches.now }
{
    let mut low = 0;
    for stretch in stretches {
        if stretch.start < low || stretch.end <= stretch.start || dwords < stretch.end {
            return false;
        }
        low = stretch.end + 1;
    }
    true
}

// Whether they are the stretches of a transfer of so many dwords.
fn are_runs(dwords: u32, stretches: &[Stretch]) -> bool
    ensures { (result ≡ true) ↔ AreRuns dwords stretches.now }
{
    dwords <= MAX_DWORDS && stretches.len() <= MAX_STRETCHES && are_apart(stretches, dwords)
}

fn array_of(stretches: &[Stretch]) -> ArrayVec<Stretch, 64>
    requires { length stretches.now ≤ 64 }
    ensures { result.items ≡ stretches.now }
{
    let mut kept = ArrayVec::new();
    for stretch in stretches {
        kept.push(*stretch);
    }
    kept
}

impl Saved for Moved {
    ghost put = { put_over };

    ghost keeps = { KeepsOver };

    ghost told_apart = { over_apart };

    fn save(&self, words: &mut Words) -> Result<(), AllocError> {
        save_list(self.stretches.as_slice(), words)?;
        self.dwords.save(words)
    }

    fn restore(alloc: Global, words: &mut Words) -> Result<Moved, RestoreError> {
        let dwords = match u32::restore(alloc, words) {
            Ok(dwords) => dwords,
            Err(error) => return Err(error),
        };
        let runs = match restore_list::<Stretch>(alloc, words) {
            Ok(runs) => runs,
            Err(error) => return Err(error),
        };
        if !are_runs(dwords, &runs) {
            return Err(RestoreError::Broken);
        }
        Ok(Moved {
            stretches: array_of(&runs),
            dwords,
        })
    }
}
