//! The PRD table, which says where the bytes of a transfer lie.

ghost use Rattle.std.specs.Prelude.{◌≡◌, ℕ, ◌+◌, ◌-◌, ◌*◌, ◌<◌, ◌≤◌, ◌↔◌, length, min, take, slice_index, IsTrue, IfOk, IsNone, IfSome};
ghost use Rattle.std.specs.Result.{result_err, IsErrOf};
ghost use Rattle.host_memory.specs.Ends.{begin_in, ends_from, IsSpot};
ghost use Rattle.host_memory.specs.Place.{AreApart, AreInside, HasOwnPlaces, HaveOverlap, Scatters, ShareAPlace, place, total_of};
ghost use Rattle.host_memory.specs.Memory.{client_start, overwritten};
ghost use Rattle.host_memory.specs.Parts.{AreParts, IsRun, left_at};
ghost use Rattle.host_memory.specs.Reading.{dword_at, prd_at, prds_at, entry_fault, first_fault as first_fault_of, share_byte as share_byte_of, shares_with as shares_with_of, share_with as share_with_of, have_overlap as have_overlap_of, lie_in_order as lie_in_order_of, read_fault, ends_in};

use crate::parts::Parts;
use crate::{CLIENT_START, MAX_PRDS};
use arrayvec::ArrayVec;
use byteorder::{ByteOrder, LittleEndian};
use std::marker::Model;
use thiserror::Error;

/// An entry of a table, a Physical Region Descriptor (AHCI 1.3.1, section 4.2.3.3). It describes a buffer of
/// `bytes` bytes at `address`.
#[derive(Clone, Copy, Debug, PartialEq, Eq)]
pub struct Prd {
    /// The address of the buffer.
    pub address: u32,
    /// Its length in bytes. The field of the table holds one less.
    pub bytes: u32,
}

/// Why a table cannot be read, in the order of the checks: first the place of the table, then `BadEntry` and
/// `OutsideClient` for each entry, and last the entries against each other.
#[derive(Clone, Copy, Debug, PartialEq, Eq, Error)]
pub enum PrdError {
    /// The table does not all lie in the structure area, or it has more than 248 entries.
    #[error("table outside the structure area")]
    OutsideStructure = 1,
    /// An address or a byte count is odd, or an address has more than 32 bits.
    #[error("bad entry")]
    BadEntry = 2,
    /// An entry does not all lie in the client area.
    #[error("entry outside the client area")]
    OutsideClient = 3,
    /// Two entries share a byte.
    #[error("entries overlap")]
    Overlap = 4,
}

/// The Physical Region Descriptor Table of a command (AHCI 1.3.1, section 4.2.3.3), in the structure area. It
/// borrows that area. Of the entries it keeps only where each ends.
#[derive(Drop)]
pub struct PrdTable<'m> {
    pub(crate) structure: &'m [u8],
    pub(crate) client_len: u32,
    pub(crate) at: usize,
    pub(crate) count: usize,
    pub(crate) ends: Ends<'m>,
}

/// Where the bytes of each entry end in the transfer: the running sums of the byte counts.
#[derive(Drop)]
pub(crate) enum Ends<'m> {
    /// Of a table that was just read.
    Own(ArrayVec<u32, 248>),
    /// Of one that its memory keeps.
    Kept(&'m [u32]),
}

impl Ends<'_> {
    fn as_slice(&self) -> &[u32]
        ensures value { result.now ≡ ends_in self.now }
    {
        match self {
            Ends::Own(ends) => ends.as_slice(),
            Ends::Kept(ends) => ends,
        }
    }
}

impl<'m> Model for PrdTable<'m> {
    ghost use Rattle.host_memory.specs.Place.{Table};

    ghost Value = { Table };

    ghost use Rattle.host_memory.specs.Reading.{IsPrdTable, ends_in, prds_at};

    ghost view = { λ t. record {
      prds = prds_at t.structure.now t.at t.count;
      client_len = t.client_len;
    } };

    ghost invariant = { λ t.
        IsPrdTable t.structure.now t.client_len t.at t.count (ends_in t.ends) };
}

fn dword(structure: &[u8], at: usize) -> u32
    requires { at + 4 ≤ length structure.now }
    ensures { result ≡ dword_at structure.now at }
{
    LittleEndian::read_u32(&structure[at..])
}

pub(crate) fn read_prd(structure: &[u8], at: usize) -> Prd
    requires { at + 16 ≤ length structure.now }
    ensures { result ≡ prd_at structure.now at }
{
    Prd {
        address: dword(structure, at),
        bytes: dword(structure, at + 12) % 0x40_0000 + 1,
    }
}

// The fault of the entry at this index.
fn fault_at(structure: &[u8], client_len: u32, at: usize) -> Option<PrdError>
    requires { at + 16 ≤ length structure.now }
    ensures { result ≡ entry_fault structure.now client_len at }
{
    let prd = read_prd(structure, at);
    let upper = dword(structure, at + 4);
    if prd.address % 2 == 1 || upper != 0 || prd.bytes % 2 == 1 {
        return Some(PrdError::BadEntry);
    }
    let end = u64::from(prd.address) + u64::from(prd.bytes);
    if prd.address < CLIENT_START || u64::from(CLIENT_START) + u64::from(client_len) < end {
        return Some(PrdError::OutsideClient);
    }
    None
}

#[tactic(auto, using(crate::proofs::PrdLemmas::first_fault_next))]
fn first_fault(structure: &[u8], client_len: u32, at: usize, count: usize) -> Option<PrdError>
    requires { at + 16 * count ≤ length structure.now }
    ensures { result ≡ first_fault_of structure.now client_len at count }
{
    for i in 0..count {
        if let Some(fault) = fault_at(structure, client_len, at + 16 * i) {
            return Some(fault);
        }
    }
    None
}

pub(crate) fn share_byte(p: Prd, q: Prd) -> bool
    ensures { result ≡ share_byte_of p q }
{
    let p_end = u64::from(p.address) + u64::from(p.bytes);
    let q_end = u64::from(q.address) + u64::from(q.bytes);
    u64::from(p.address.max(q.address)) < p_end.min(q_end)
}

// Whether the entry shares a byte with one of the entries at this index.
#[tactic(auto, using(crate::proofs::PrdLemmas::prds_next))]
fn shares_with(prd: Prd, structure: &[u8], at: usize, count: usize) -> bool
    requires { at + 16 * count ≤ length structure.now }
    ensures { result ≡ shares_with_of prd (prds_at structure.now at count) }
{
    for i in 0..count {
        if share_byte(prd, read_prd(structure, at + 16 * i)) {
            return true;
        }
    }
    false
}

// Whether each of the entries at this index begins at or after the end of the one before it.
#[tactic(auto, using(crate::proofs::PrdLemmas::prds_next))]
fn lie_in_order(structure: &[u8], at: usize, count: usize) -> bool
    requires { at + 16 * count ≤ length structure.now }
    ensures { result ≡ lie_in_order_of 0 (prds_at structure.now at count) }
{
    let mut end = 0;
    for i in 0..count {
        let prd = read_prd(structure, at + 16 * i);
        if u64::from(prd.address) < end {
            return false;
        }
        end = u64::from(prd.address) + u64::from(prd.bytes);
    }
    true
}

// Whether one of the entries at this index shares a byte with a later one, pair by pair.
#[tactic(auto, using(crate::proofs::PrdLemmas::prds_next))]
fn some_pair_overlaps(structure: &[u8], at: usize, count: usize) -> bool
    requires { at + 16 * count ≤ length structure.now }
    ensures { result ≡ have_overlap_of (prds_at structure.now at count) }
{
    for i in 0..count {
        let prd = read_prd(structure, at + 16 * i);
        if shares_with(prd, structure, at + 16 * i + 16, count - i - 1) {
            return true;
        }
    }
    false
}

// Whether two of the entries at this index share a byte. Where they are in order, none do.
fn have_overlap(structure: &[u8], at: usize, count: usize) -> bool
    requires { at + 16 * count ≤ length structure.now }
    ensures { result ≡ have_overlap_of (prds_at structure.now at count) }
{
    if lie_in_order(structure, at, count) {
        return false;
    }
    some_pair_overlaps(structure, at, count)
}

// Whether one of the entries at this index shares a byte with one of the other table.
#[tactic(auto, using(crate::proofs::PrdLemmas::prds_next))]
fn share_with(structure: &[u8], at: usize, count: usize, other: &PrdTable<'_>) -> bool
    requires { at + 16 * count ≤ length structure.now }
    ensures { result ≡ share_with_of (prds_at structure.now at count) other.now.prds }
{
    for i in 0..count {
        let prd = read_prd(structure, at + 16 * i);
        if shares_with(prd, other.structure, other.at, other.count) {
            return true;
        }
    }
    false
}

/// Why the table of `count` entries at this address cannot be read.
pub(crate) fn refusal(structure: &[u8], client_len: u32, at: u32, count: u16) -> Option<PrdError>
    ensures { result ≡ read_fault structure.now client_len at count }
{
    let at = at as usize;
    let count = count as usize;
    if at + 16 * count > structure.len() || count > MAX_PRDS as usize {
        return Some(PrdError::OutsideStructure);
    }
    if let Some(fault) = first_fault(structure, client_len, at, count) {
        return Some(fault);
    }
    if have_overlap(structure, at, count) {
        return Some(PrdError::Overlap);
    }
    None
}

/// Where each of the entries at this index ends in the transfer.
#[tactic(auto, using(crate::proofs::PrdLemmas::prds_next))]
pub(crate) fn ends_of(structure: &[u8], at: usize, count: usize) -> ArrayVec<u32, 248>
    requires table { at + 16 * count ≤ length structure.now }
    requires few { count ≤ MAX_PRDS }
    ensures { result.items ≡ ends_from 0 (prds_at structure.now at count) }
{
    let mut ends = ArrayVec::new();
    let mut end = 0;
    for i in 0..count {
        let prd = read_prd(structure, at + 16 * i);
        end += prd.bytes;
        ends.push(end);
    }
    ends
}

/// Where an entry begins: at the end of the one before it.
pub(crate) fn begin_of(ends: &[u32], entry: usize) -> u32
    requires { entry ≤ length ends.now }
    ensures { result ≡ begin_in ends.now entry }
{
    if entry == 0 { 0 } else { ends[entry - 1] }
}

// The first entry that ends after byte `i`, found by halving; the number of entries where none does.
fn entry_of(ends: &[u32], i: u32) -> usize
    ensures there { result ≤ length ends.now }
    ensures begins { begin_in ends.now result ≤ i }
    ensures ends_after { result < length ends.now → i < slice_index ends.now result }
{
    let mut from = 0;
    let mut to = ends.len();
    'halving: while from < to {
        let middle = from + (to - from) / 2;
        if ends[middle] <= i {
            from = middle + 1;
        } else {
            to = middle;
        }
    }
    from
}

// A byte of a transfer: its entry, and its index in that entry.
#[derive(Clone, Copy)]
struct Spot {
    entry: usize,
    byte: u32,
}

/// A run of the client area: the bounds of a slice to be read or written.
#[derive(Clone, Copy, Debug, PartialEq, Eq)]
pub struct Run {
    /// Where it begins, counted from the start of the area.
    pub start: usize,
    /// Its length in bytes.
    pub len: usize,
}

// Where byte `i` of the transfer lies, given where its entries end.
fn spot_of(ends: &[u32], i: u32) -> Spot
    ensures { IsSpot ends.now i result }
{
    let entry = entry_of(ends, i);
    let byte = i - begin_of(ends, entry);
    Spot { entry, byte }
}

impl<'m> PrdTable<'m> {
    /// Reads the table of `count` entries at `at`, for a client area of `client_len` bytes.
    pub fn read(
        structure: &'m [u8],
        client_len: u32,
        at: u32,
        count: u16,
    ) -> Result<PrdTable<'m>, PrdError>
        // Which refusal applies, or none: one fact for all of them and their order.
        ensures refusal { result_err result ≡ read_fault structure.now client_len at count }
        ensures overlap { IsErrOf result PrdError.Overlap
            → HaveOverlap (prds_at structure.now at count) }

        ensures prds { IfOk result (λ table. table.prds ≡ prds_at structure.now at count) }
        ensures client_len { IfOk result (λ table. table.client_len ≡ client_len) }
        ensures inside { IfOk result (λ table. AreInside client_len table.prds) }
        ensures apart { IfOk result (λ table. AreApart table.prds) }
    {
        if let Some(fault) = refusal(structure, client_len, at, count) {
            return Err(fault);
        }
        let at = at as usize;
        let count = count as usize;
        Ok(PrdTable {
            structure,
            client_len,
            at,
            count,
            ends: Ends::Own(ends_of(structure, at, count)),
        })
    }

    /// The length of the transfer in bytes.
    pub fn total(&self) -> u32
        ensures { result ≡ total_of self.now.prds }
    {
        begin_of(self.ends.as_slice(), self.count)
    }

    /// The slices of the client area that hold `len` bytes of the transfer, from byte `offset` on.
    pub fn parts<'c>(&self, client: &'c [u8], offset: u32, len: u32) -> Parts<'m, 'c>
        requires client { self.now.client_len ≡ length client.now }
        requires fits { offset + len ≤ total_of self.now.prds }
        ensures { AreParts self.now.prds offset len client.now result }
    {
        let spot = spot_of(self.ends.as_slice(), offset);
        Parts::of(
            self.structure,
            client,
            self.at + 16 * spot.entry,
            self.count - spot.entry,
            spot.byte as usize,
            len as usize,
        )
    }

    /// Writes `bytes` to the places of the transfer's bytes, from `offset` on.
    pub fn scatter(&self, client: &mut [u8], offset: u32, bytes: &[u8])
        requires client { self.now.client_len ≡ length client.old }
        requires fits { offset + length bytes.now ≤ total_of self.now.prds }
        ensures { Scatters self.now.prds offset bytes.now client.old client.new }
    {
        let _opened = &self.count;
        let mut done = 0;
        'stretches: while done < bytes.len() {
            done += self.put_part(client, offset + done as u32, &bytes[done..]);
        }
    }

    // Writes the bytes that fit into the rest of one entry, from byte `i` of the transfer on. Returns how
    // many it wrote.
    fn put_part(&self, client: &mut [u8], i: u32, bytes: &[u8]) -> usize
        requires client { self.now.client_len ≡ length client.old }
        requires below { i < total_of self.now.prds }
        ensures count { result ≡ min (left_at self.now.prds i) (length bytes.now) }
        ensures written { client.new
            ≡ overwritten client.old (place self.now.prds i - client_start) (take result bytes.now) }
    {
        let Some(run) = self.run_from(i) else {
            unreachable!()
        };
        let count = run.len.min(bytes.len());
        client[run.start..run.start + count].copy_from_slice(&bytes[..count]);
        count
    }

    /// The rest of the entry that has byte `i` of the transfer, as one run of the client area. None past the
    /// end. A caller that holds the client area for writing cuts the slice out of it.
    pub fn run_from(&self, i: u32) -> Option<Run>
        ensures none { IsNone result ↔ (total_of self.now.prds ≤ i) }
        ensures some { IfSome result (λ run. IsRun self.now.prds self.now.client_len i run) }
    {
        let spot = spot_of(self.ends.as_slice(), i);
        if spot.entry == self.count {
            return None;
        }
        let prd = read_prd(self.structure, self.at + 16 * spot.entry);
        let start = prd.address as usize - CLIENT_START as usize + spot.byte as usize;
        let len = (prd.bytes - spot.byte) as usize;
        Some(Run { start, len })
    }

    /// Whether the two transfers share a byte of memory.
    pub fn overlaps(&self, other: &PrdTable<'_>) -> bool
        ensures { IsTrue result ↔ ShareAPlace self.now.prds other.now.prds }
    {
        share_with(self.structure, self.at, self.count, other)
    }

    /// A law for callers; it runs no code. Once a table is read, each byte of its transfer has a place of its
    /// own in the client area.
    pub fn has_own_places(&self)
        ensures { HasOwnPlaces self.now.client_len self.now.prds }
    {
        let _opened = &self.count;
    }
}
