//! A run of a transfer's bytes, as slices of the client area.

ghost use Rattle.std.specs.Prelude.{◌≡◌, ◌+◌, ◌≤◌, length};
ghost use Rattle.host_memory.specs.Parts.{HoldParts, parts_of, stretch_of};
ghost use Rattle.host_memory.specs.Place.{LiesInClient};
ghost use Rattle.host_memory.specs.Reading.{prds_at};

use crate::CLIENT_START;
use crate::table::{Prd, read_prd};
use std::marker::Model;

/// The slices of the client area that hold a run of a transfer's bytes, in order: one for each entry that the
/// run touches. None is empty. [`PrdTable::parts`](crate::PrdTable::parts) makes it.
#[derive(Debug, Drop)]
pub struct Parts<'m, 'c> {
    structure: &'m [u8],
    client: &'c [u8],
    // Where the remaining entries lie, and how many there are.
    at: usize,
    count: usize,
    // Where the run begins in the first of them, and how many bytes are left.
    offset: usize,
    len: usize,
}

impl<'m, 'c> Model for Parts<'m, 'c> {
    ghost use Rattle.std.specs.Prelude.{List, ℕ};
    ghost use Rattle.host_memory.specs.Parts.{HoldParts, parts_of};
    ghost use Rattle.host_memory.specs.Reading.{prds_at};

    ghost Value = { List (List ℕ) };

    ghost view = { λ p.
        parts_of p.client.now (prds_at p.structure.now p.at p.count) p.offset p.len };

    ghost invariant = { λ p. HoldParts p.structure.now p.client.now p.at p.count p.offset p.len };
}

// This many bytes of the client area, from byte `offset` of an entry on.
fn stretch(client: &[u8], prd: Prd, offset: usize, len: usize) -> &[u8]
    requires client { LiesInClient (length client.now) prd.address prd.bytes }
    requires inside { offset + len ≤ prd.bytes }
    ensures { result.now ≡ stretch_of client.now prd offset len }
{
    let start = prd.address as usize - CLIENT_START as usize + offset;
    &client[start..start + len]
}

impl<'m, 'c> Parts<'m, 'c> {
    // The parts of a run of `len` bytes that begins at byte `offset` of the first of these entries.
    pub(crate) fn of(
        structure: &'m [u8],
        client: &'c [u8],
        at: usize,
        count: usize,
        offset: usize,
        len: usize,
    ) -> Parts<'m, 'c>
        requires { HoldParts structure.now client.now at count offset len }
        ensures { result ≡ parts_of client.now (prds_at structure.now at count) offset len }
    {
        Parts {
            structure,
            client,
            at,
            count,
            offset,
            len,
        }
    }
}

impl<'m, 'c> Iterator for Parts<'m, 'c> {
    ghost use Rattle.std.specs.Iterator.{YieldsFirstRef, item_count};

    type Item = &'c [u8];

    ghost next_gives = { YieldsFirstRef (λ parts. parts) };

    ghost remaining = { item_count (λ parts. parts) };

    fn next(&mut self) -> Option<&'c [u8]> {
        if self.len == 0 {
            return None;
        }
        let prd = read_prd(self.structure, self.at);
        let len = self.len.min(prd.bytes as usize - self.offset);
        let part = stretch(self.client, prd, self.offset, len);
        self.at += 16;
        self.count -= 1;
        self.offset = 0;
        self.len -= len;
        Some(part)
    }
}
