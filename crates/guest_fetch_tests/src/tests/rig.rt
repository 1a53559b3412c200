//! A guest of the tests.

ghost use Rattle.std.specs.Prelude.{◌≡◌, ◌<◌, IfSome, length};
ghost use Rattle.guest_fetch.specs.Headers.{header_place};
ghost use Rattle.guest_fetch.specs.declared.fetch.Step.TheVariants.{AtHeader};

use guest_fetch::{Fetch, Supplied, Table, Want};
use std::alloc::{AllocError, Global};
use std::marker::Model;

/// A run of bytes of a guest: its address and its length.
pub(crate) type Place = (u64, usize);

/// Where the command list lies.
pub(crate) const LIST: u64 = 0x400;

/// A guest's memory from address 0 on. Clauses see it as a number, and its functions have no contract, so a test is proved
/// with little work.
#[derive(Drop)]
pub(crate) struct Rig {
    alloc: Global,
    memory: Vec<u8>,
}

impl Model for Rig {
    ghost use Rattle.std.specs.Prelude.{ℕ};

    ghost Value = { ℕ };

    ghost view = { λ _. 0 };
}

/// Four dwords as they lie in memory.
pub(crate) fn entry_bytes(dwords: [u32; 4]) -> [u8; 16] {
    let [a, b, c, d] = dwords;
    let (a, b, c, d) = (
        a.to_le_bytes(),
        b.to_le_bytes(),
        c.to_le_bytes(),
        d.to_le_bytes(),
    );
    [
        a[0], a[1], a[2], a[3], b[0], b[1], b[2], b[3], c[0], c[1], c[2], c[3], d[0], d[1], d[2],
        d[3],
    ]
}

/// Whether the moves of so many bytes, from this one on, go to these places one after another.
pub(crate) fn are_moves(table: &Table, offset: u32, len: usize, places: &[Place]) -> bool {
    let mut moves = table.moves(offset, len);
    let mut from = 0u64;
    for (at, count) in places.iter() {
        match moves.next() {
            Some(step) if step.at == *at && step.len == *count && step.from as u64 == from => {
                from = from.saturating_add(*count as u64);
            }
            _ => return false,
        }
    }
    moves.next().is_none()
}

// The command in a slot: nothing of it has come.
fn opened(slot: u8) -> Fetch
    requires { slot < 32 }
    ensures { result ≡ record { at = header_place 1024 slot; step = AtHeader } }
{
    Fetch::new(LIST, slot)
}

// The bytes that are wanted, if all of them are memory.
fn part(memory: &[u8], want: Want) -> Option<&[u8]>
    ensures { IfSome result (λ bytes. length bytes.now ≡ want.len) }
{
    let len = memory.len() as u64;
    if want.at > len || want.len as u64 > len - want.at {
        return None;
    }
    let start = want.at as usize;
    Some(&memory[start..start + want.len])
}

impl Rig {
    /// A memory of so many bytes, all of them 0.
    pub(crate) fn new(alloc: Global, len: usize) -> Result<Rig, AllocError> {
        let memory = vec![in alloc; 0; len]?;
        Ok(Rig { alloc, memory })
    }

    /// Whether these bytes could be put there.
    pub(crate) fn put(&mut self, at: u64, bytes: &[u8]) -> bool {
        let len = self.memory.len() as u64;
        if at > len || bytes.len() as u64 > len - at {
            return false;
        }
        let start = at as usize;
        self.memory[start..start + bytes.len()].copy_from_slice(bytes);
        true
    }

    /// The first four dwords of the header of a slot.
    pub(crate) fn put_header(&mut self, slot: u8, dwords: [u32; 4]) -> bool {
        self.put(LIST + 32 * u64::from(slot), &entry_bytes(dwords))
    }

    /// An entry of the table that begins at an address.
    pub(crate) fn put_entry(&mut self, table: u64, index: u64, entry: [u8; 16]) -> bool {
        if index >= 0x1_0000 || table >= 0x1_0000_0000 {
            return false;
        }
        self.put(table + 0x80 + 16 * index, &entry)
    }

    /// Reads the command of a slot, as far as the memory is there. Where an allocation is refused, the part is supplied again.
    /// More says that it does not end.
    pub(crate) fn fetch(&self, slot: u8) -> Supplied {
        let mut fetch = opened(slot % 32);
        for _ in 0..70_000 {
            let Some(bytes) = part(self.memory.as_slice(), fetch.want()) else {
                return Supplied::Refused(fetch.no_memory());
            };
            match fetch.supply(self.alloc, bytes) {
                Supplied::More(next) | Supplied::OutOfMemory(next) => fetch = next,
                answer => return answer,
            }
        }
        Supplied::More(fetch)
    }
}
