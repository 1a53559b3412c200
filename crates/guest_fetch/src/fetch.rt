//! A command that is being read.

ghost use Rattle.std.specs.Prelude.{◌≡◌, ◌+◌, ◌*◌, ◌<◌, ◌≤◌, ◌^◌, length, true};
ghost use Rattle.guest_fetch.specs.Fetching.{Supplies, WantsEntries, asked as asked_of, framed as framed_of, going as going_of, headed as headed_of, most_at_once, part_at, refused_for, want_of, wants_more as wants_more_of, SuppliesAt};
ghost use Rattle.guest_fetch.specs.Headers.{IsHeader, IsTaken, header_place, header_refusal};
ghost use Rattle.guest_fetch.specs.Heads.{fis_refusal, head_of};
ghost use Rattle.guest_fetch.specs.declared.fetch.Step.TheVariants.{AtHeader, AtEntries};

pub(crate) mod saved;

use crate::command::Command;
use crate::entry::first_fault;
use crate::head::{Head, read_head};
use crate::header::{Header, read_header, refusal_of};
use crate::refusal::{Part, Refusal};
use crate::table::Table;
use crate::want::Want;
use std::alloc::Global;
use std::marker::Model;

/// How much of a command has come, as contracts see it.
#[derive(Debug, Drop)]
pub enum Step {
    /// Nothing: its header is wanted.
    AtHeader,
    /// Its header: the FIS is wanted.
    AtFis(Header),
    /// Header, FIS and some entries: more of them are wanted.
    AtEntries(Head, Table),
}

/// A command that is being read out of its slot. It wants one part after another: header, FIS, entries of the table, of these
/// at most 256 at once. Each part is wanted once, and what is supplied is what counts, whatever the guest writes later.
#[derive(Debug, Drop)]
pub struct Fetch {
    at: u64,
    step: Step,
}

impl Model for Fetch {
    ghost use Rattle.guest_fetch.specs.Fetch.{Fetching};

    ghost Value = { Fetching };

    ghost use Rattle.guest_fetch.specs.Fetching.{IsFetching};

    ghost view = { λ f. record { at = f.at; step = f.step } };

    ghost invariant = { λ f. IsFetching (record { at = f.at; step = f.step }) };
}

/// What is so once a part was supplied.
#[derive(Debug, Drop)]
pub enum Supplied {
    /// More is wanted.
    More(Fetch),
    /// All of it has come.
    Whole(Command),
    /// The command is not taken.
    Refused(Refusal),
    /// Memory for entries is refused. Nothing came, and the same part is wanted again.
    OutOfMemory(Fetch),
}

// How many entries are wanted at once.
fn asked(head: &Head, table: &Table) -> u16
    requires { wants_more_of head.now table.now ≡ true }
    ensures is { result ≡ asked_of head.now table.now }
    ensures some { 0 < result }
    ensures most { result ≤ most_at_once }
    ensures few { result + length table.now.entries ≤ head.now.header.entries }
{
    let count = head.header.entries - table.count();
    let reached = table.left().div_ceil(2).min(256) as u16;
    count.min(reached)
}

// Whether the bytes go on past the entries that came, and the header has more.
fn wants_more(head: &Head, table: &Table) -> bool
    ensures { result ≡ wants_more_of head.now table.now }
{
    table.count() < head.header.entries && table.left() > 0
}

// More entries are wanted, or all of the command has come.
fn going(at: u64, head: Head, table: Table) -> Supplied
    requires there { at + 32 ≤ 2 ^ 64 }
    requires taken { IsTaken head.header }
    requires len { table.len ≡ head.work.len }
    ensures { result ≡ going_of at head table }
{
    if wants_more(&head, &table) {
        return Supplied::More(Fetch {
            at,
            step: Step::AtEntries(head, table),
        });
    }
    Supplied::Whole(Command::new(at, head, table))
}

// The header has come.
fn headed(at: u64, header: Header) -> Supplied
    requires there { at + 32 ≤ 2 ^ 64 }
    requires header { IsHeader header }
    ensures { result ≡ headed_of at header (header_refusal header) }
{
    if let Some(refusal) = refusal_of(&header) {
        return Supplied::Refused(refusal);
    }
    Supplied::More(Fetch {
        at,
        step: Step::AtFis(header),
    })
}

// The FIS has come.
fn framed(alloc: Global, at: u64, header: Header, raw: &[u8]) -> Supplied
    requires there { at + 32 ≤ 2 ^ 64 }
    requires taken { IsTaken header }
    requires raw { 0 < length raw.now }
    ensures { result ≡ framed_of at (head_of header raw.now) (fis_refusal header raw.now) }
{
    match read_head(header, raw) {
        Ok(head) => going(at, head, Table::new(alloc, head.work.len)),
        Err(refusal) => Supplied::Refused(refusal),
    }
}

// Entries have come.
fn tabled(at: u64, head: Head, mut table: Table, raw: &[u8]) -> Supplied
    requires there { at + 32 ≤ 2 ^ 64 }
    requires wants { WantsEntries head table }
    requires raw { length raw.now ≡ 16 * asked_of head table }
    ensures { SuppliesAt at (AtEntries head table) raw.now result }
{
    let count = asked(&head, &table);
    if let Some(entry) = first_fault(raw, count, table.count(), table.left()) {
        return Supplied::Refused(Refusal::Entry { entry });
    }
    match table.add(raw, count) {
        Ok(()) => going(at, head, table),
        Err(_) => Supplied::OutOfMemory(Fetch {
            at,
            step: Step::AtEntries(head, table),
        }),
    }
}

impl Fetch {
    /// Of the command in a slot of the list that begins at `list` (PxCLB, PxCLBU). Nothing has come.
    pub fn new(list: u64, slot: u8) -> Fetch
        requires slot { slot < 32 }
        requires list { list + 1024 ≤ 2 ^ 64 }
        ensures { result ≡ record { at = header_place list slot; step = AtHeader } }
    {
        Fetch {
            at: list + 32 * u64::from(slot),
            step: Step::AtHeader,
        }
    }

    /// Which bytes of the guest are wanted next.
    pub fn want(&self) -> Want
        ensures is { result ≡ want_of self.now }
        ensures some { 0 < result.len }
        ensures most { result.len ≤ 4096 }
        ensures inside { result.at + result.len ≤ 2 ^ 64 }
    {
        match &self.step {
            Step::AtHeader => Want {
                at: self.at,
                len: 32,
            },
            Step::AtFis(header) => Want {
                at: header.table,
                len: 4 * usize::from(header.dwords),
            },
            Step::AtEntries(head, table) => Want {
                at: head.header.table + 0x80 + 16 * u64::from(table.count()),
                len: 16 * usize::from(asked(head, table)),
            },
        }
    }

    /// The bytes that are wanted are these.
    pub fn supply(self, alloc: Global, bytes: &[u8]) -> Supplied
        requires { length bytes.now ≡ (want_of self).len }
        ensures { Supplies self bytes.now result }
    {
        let Fetch { at, step } = self;
        match step {
            Step::AtHeader => headed(at, read_header(bytes)),
            Step::AtFis(header) => framed(alloc, at, header, bytes),
            Step::AtEntries(head, table) => tabled(at, head, table, bytes),
        }
    }

    /// Some of the bytes that are wanted are not memory: why the command is not taken.
    pub fn no_memory(&self) -> Refusal
        ensures { result ≡ refused_for (part_at self.now.step) }
    {
        let missing = match &self.step {
            Step::AtHeader => Part::Header,
            Step::AtFis(_) => Part::Fis,
            Step::AtEntries(..) => Part::Entries,
        };
        Refusal::NoMemory { missing }
    }
}
