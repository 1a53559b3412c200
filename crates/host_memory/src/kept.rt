//! PRD tables that a memory keeps as it read them, until their bytes may be written.

ghost use Rattle.std.specs.Prelude.{◌≡◌, ◌+◌, ◌*◌, ◌<◌, ◌≤◌, [], ◌++◌, ◌∷◌, length, List, ℕ, is_none, is_some, true, min, max, IfOk, IfSome, Some};
ghost use Rattle.std.specs.List.{All};
ghost use Rattle.host_memory.specs.Memory.{overwritten};
ghost use Rattle.host_memory.specs.Place.{Scatters, total_of};
ghost use Rattle.host_memory.specs.Kept.{AreKept, IsKept, readable_total};
ghost use Rattle.host_memory.specs.Reading.{prds_at, read_fault};

use crate::memory::HostMemory;
use crate::table::{Ends, PrdTable, begin_of, ends_of, refusal};
use arrayvec::ArrayVec;
use std::alloc::{AllocError, Global};

/// The most tables that a memory keeps: one for each command of a port.
const MAX_KEPT: usize = 32;

/// A table that was read: where it lies, and where its entries end in the transfer.
#[derive(Drop)]
pub(crate) struct Kept {
    /// Its address.
    pub(crate) at: u32,
    /// Its entries.
    pub(crate) count: u16,
    /// Where each of them ends.
    pub(crate) ends: ArrayVec<u32, 248>,
}

/// The tables that are kept. All of them lie from `low` on and before `high`.
#[derive(Drop)]
pub(crate) struct Tables {
    pub(crate) kept: Vec<Kept>,
    pub(crate) low: u32,
    pub(crate) high: u32,
}

impl Tables {
    /// None are kept yet; there is room for all.
    pub(crate) fn new(alloc: Global) -> Result<Tables, AllocError>
        ensures { IfOk result (λ tables. tables.kept.items ≡ []) }
    {
        let kept = Vec::with_capacity(alloc, MAX_KEPT)?;
        Ok(Tables {
            kept,
            low: u32::MAX,
            high: 0,
        })
    }

    /// None are kept any more.
    pub(crate) fn clear(&mut self)
        ensures { self.new.kept.items ≡ [] }
    {
        self.kept.clear();
        self.low = u32::MAX;
        self.high = 0;
    }

    /// None are kept any more where one may have a byte in this range, which is to be written.
    pub(crate) fn spare(&mut self, from: usize, to: usize)
        ensures { (structure bytes : List ℕ) (len : ℕ) → to ≡ from + length bytes → to ≤ length structure
            → AreKept structure len self.old → AreKept (overwritten structure from bytes) len self.new }
    {
        if (self.low as usize) < to && from < self.high as usize {
            self.clear();
        }
    }

    // Where there is no room for one more, none are kept any more.
    fn make_room(&mut self)
        ensures all { (structure : List ℕ) (len from to : ℕ)
            → All (IsKept structure len from to) self.old.kept.items
            → All (IsKept structure len from to) self.new.kept.items }
        ensures low { self.new.low ≡ self.old.low }
        ensures high { self.new.high ≡ self.old.high }
    {
        if self.kept.len() == MAX_KEPT {
            self.kept.clear();
        }
    }

    /// One more is kept, if there is memory for it. Where there is no room, those before it are not kept any more.
    fn keep(&mut self, table: Kept)
        requires { table.at + 16 * table.count < 4294967296 }
        ensures all { (structure : List ℕ) (len from to : ℕ)
            → All (IsKept structure len from to) self.old.kept.items
            → IsKept structure len from to table
            → All (IsKept structure len from to) self.new.kept.items }
        ensures low { self.new.low ≡ min self.old.low table.at }
        ensures high { self.new.high ≡ max self.old.high (table.at + 16 * table.count) }
    {
        self.make_room();
        self.low = self.low.min(table.at);
        self.high = self.high.max(table.at + 16 * u32::from(table.count));
        let _ = self.kept.push(table);
    }

    /// A table, if it is kept.
    fn find(&self, at: u32, count: u16) -> Option<&Kept>
        ensures at { IfSome result (λ kept. kept.now.at ≡ at) }
        ensures count { IfSome result (λ kept. kept.now.count ≡ count) }
        ensures all { (structure : List ℕ) (len from to : ℕ)
            → All (IsKept structure len from to) self.now.kept.items
            → IfSome result (λ kept. IsKept structure len from to kept.now) }
    {
        for k in 0..self.kept.len() {
            if self.kept[k].at == at && self.kept[k].count == count {
                return Some(&self.kept[k]);
            }
        }
        None
    }
}

// The table of `count` entries at `at`, None where it cannot be read. It is read only if it is not kept.
fn view<'m>(
    structure: &'m [u8],
    client_len: u32,
    tables: &'m Tables,
    at: u32,
    count: u16,
) -> Option<PrdTable<'m>>
    requires { AreKept structure.now client_len tables.now }
    ensures readable { is_some result ≡ is_none (read_fault structure.now client_len at count) }
    ensures table { IfSome result (λ table. table
        ≡ record { prds = prds_at structure.now at count; client_len = client_len }) }
{
    match tables.find(at, count) {
        Some(kept) => Some(PrdTable {
            structure,
            client_len,
            at: at as usize,
            count: count as usize,
            ends: Ends::Kept(kept.ends.as_slice()),
        }),
        None => PrdTable::read(structure, client_len, at, count).ok(),
    }
}

impl HostMemory {
    // The length of the client area.
    fn client_len(&self) -> u32
        ensures { result ≡ length self.now.client }
    {
        self.client.len() as u32
    }

    // Reads a table, and keeps it.
    fn keep(&mut self, at: u32, count: u16) -> Option<u32>
        ensures total { result
            ≡ readable_total self.old.structure (length self.old.client) at count }
        ensures same { self.new ≡ self.old }
    {
        let client_len = self.client_len();
        let structure = self.structure.as_slice();
        if let Some(_) = refusal(structure, client_len, at, count) {
            return None;
        }
        let ends = ends_of(structure, at as usize, count as usize);
        let total = begin_of(ends.as_slice(), count as usize);
        self.tables.keep(Kept { at, count, ends });
        Some(total)
    }

    /// The length in bytes of the transfer of the table of `count` entries at `at`, None where the table cannot be
    /// read. It is read only if it is not kept, and is kept then.
    pub fn total(&mut self, at: u32, count: u16) -> Option<u32>
        ensures total { result
            ≡ readable_total self.old.structure (length self.old.client) at count }
        ensures same { self.new ≡ self.old }
    {
        match self.tables.find(at, count) {
            Some(kept) => Some(begin_of(kept.ends.as_slice(), count as usize)),
            None => self.keep(at, count),
        }
    }

    /// The table of `count` entries at `at`, None where it cannot be read. It is read only if it is not kept.
    pub fn table(&self, at: u32, count: u16) -> Option<PrdTable<'_>>
        ensures readable { is_some result
            ≡ is_none (read_fault self.now.structure (length self.now.client) at count) }
        ensures table { IfSome result (λ table. table ≡ record {
          prds = prds_at self.now.structure at count;
          client_len = length self.now.client;
        }) }
    {
        let client_len = self.client_len();
        view(
            self.structure.as_slice(),
            client_len,
            &self.tables,
            at,
            count,
        )
    }

    /// Writes `bytes` to the places of the bytes of a transfer, from `offset` on: that of the table of `count` entries at
    /// `at`, which is read only if it is not kept.
    pub fn scatter(&mut self, at: u32, count: u16, offset: u32, bytes: &[u8])
        requires readable { is_none (read_fault self.old.structure
            (length self.old.client) at count) ≡ true }
        requires fits { offset + length bytes.now
            ≤ total_of (prds_at self.old.structure at count) }
        ensures structure { self.new.structure ≡ self.old.structure }
        ensures client { Scatters (prds_at self.old.structure at count) offset bytes.now
            self.old.client self.new.client }
    {
        let client_len = self.client_len();
        let table = view(
            self.structure.as_slice(),
            client_len,
            &self.tables,
            at,
            count,
        );
        if let Some(table) = table {
            table.scatter(self.client.as_mut_slice(), offset, bytes);
        }
    }
}
