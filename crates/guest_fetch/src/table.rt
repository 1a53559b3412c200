//! The table of a command, as it was supplied.

ghost use Rattle.std.specs.Prelude.{◌≡◌, ◌+◌, ◌-◌, ◌*◌, ◌<◌, ◌≤◌, [], length, All, None, OnErr, OnOk};
ghost use Rattle.guest_fetch.specs.Entries.{entries_at, first_fault};
ghost use Rattle.guest_fetch.specs.Places.{Delivers, reach_of, room_at};
ghost use Rattle.guest_fetch.specs.Spans.{IsTable, left_of, most_bytes, with_entries};
ghost use Rattle.guest_fetch.specs.Moves.{IsMove, any_told, completes, moves_at};

mod saved;

use crate::moves::Moves;
use crate::span::{Span, begin_of, keep, span_of};
use std::alloc::{AllocError, Global};
use std::marker::Model;

/// The table of a command, the Physical Region Descriptor Table (AHCI 1.3.1, section 4.2.3.3), as it was supplied. It has
/// only the entries that the command's bytes reach.
#[derive(Debug, Drop)]
pub struct Table {
    spans: Vec<Span>,
    len: u32,
}

impl Model for Table {
    ghost use Rattle.guest_fetch.specs.Places.{Places};

    ghost Value = { Places };

    ghost use Rattle.guest_fetch.specs.Spans.{IsTable, table_of};

    ghost view = { λ t. table_of t.spans.items t.len };

    ghost invariant = { λ t. IsTable (table_of t.spans.items t.len) };
}

impl Table {
    /// Where no entry was supplied yet, for a command of `len` bytes.
    pub(crate) fn new(alloc: Global, len: u32) -> Table
        requires { len ≤ most_bytes }
        ensures { result ≡ record { entries = []; len = len } }
    {
        Table {
            spans: Vec::new(alloc),
            len,
        }
    }

    // Keeps the `count` entries in these bytes, as far as the command's bytes reach. Where memory is refused, it keeps none
    // of them.
    pub(crate) fn add(&mut self, raw: &[u8], count: u16) -> Result<(), AllocError>
        requires raw { 16 * count ≤ length raw.now }
        requires few { length self.old.entries + count < 65536 }
        requires sound { first_fault (length self.old.entries) (left_of self.old)
            (entries_at raw.now 0 count) ≡ None }
        ensures ok { OnOk result (self.new ≡ with_entries self.old (entries_at raw.now 0 count)) }
        ensures err { OnErr result (self.new ≡ self.old) }
    {
        keep(&mut self.spans, self.len, raw, count)
    }

    /// The rules that hold for every table. The call has no effect.
    pub fn keeps_rules(&self)
        ensures { IsTable self.now }
    {
        let _ = &self.spans;
    }

    // How many bytes the command moves.
    pub(crate) fn len(&self) -> u32
        ensures { result ≡ self.now.len }
    {
        self.len
    }

    // How many entries were kept.
    pub(crate) fn count(&self) -> u16
        ensures { result ≡ length self.now.entries }
    {
        self.spans.as_slice().len() as u16
    }

    // How many bytes of the command have no entry yet.
    pub(crate) fn left(&self) -> u32
        ensures { result ≡ left_of self.now }
    {
        self.len - self.reach()
    }

    /// How many bytes of the command have a place: all of them, or fewer where the table is shorter than the command.
    pub fn reach(&self) -> u32
        ensures { result ≡ reach_of self.now }
    {
        begin_of(self.spans.as_slice(), self.spans.len()).min(self.len)
    }

    /// Where the bytes of a payload of `len` bytes lie, if they are those of the command from byte `offset` on. Bytes past
    /// the end of the command or of the table lie nowhere.
    pub fn moves(&self, offset: u32, len: usize) -> Moves<'_>
        ensures delivers { Delivers self.now offset len result }
        ensures are { result ≡ moves_at self.now.entries offset (room_at self.now offset len) }
        ensures each { All (IsMove len) result }
        ensures few { length result ≤ length self.now.entries }
        ensures told { any_told result
            ≡ completes self.now.entries offset (room_at self.now offset len) }
    {
        let spans = self.spans.as_slice();
        let room = self.reach().saturating_sub(offset);
        let count = len.min(room as usize) as u32;
        let next = span_of(spans, offset);
        Moves::of(spans, next, begin_of(spans, next), offset, offset + count)
    }
}
