//! A command that was read.

ghost use Rattle.std.specs.Prelude.{◌≡◌, ◌+◌, ◌^◌, ◌≤◌};
ghost use Rattle.guest_fetch.specs.Commands.{IsCommand};
ghost use Rattle.guest_fetch.specs.Headers.{IsTaken};
ghost use Rattle.guest_fetch.specs.Runs.{counted};

mod saved;

use crate::head::Head;
use crate::table::Table;
use std::marker::Model;

/// A command, as it was supplied. Nothing of it is read again.
#[derive(Debug, Drop)]
pub struct Command {
    at: u64,
    head: Head,
    table: Table,
    moved: u32,
}

impl Model for Command {
    ghost use Rattle.guest_fetch.specs.Commands.{Fetched};

    ghost Value = { Fetched };

    ghost use Rattle.guest_fetch.specs.Commands.{IsCommand};

    ghost view = { λ c. record { at = c.at; head = c.head; table = c.table; moved = c.moved } };

    ghost invariant = { λ c. IsCommand (record { at = c.at; head = c.head; table = c.table; moved = c.moved }) };
}

/// How many bytes of a command were moved: PRDBC, DW1 of its header (AHCI 1.3.1, section 4.2.2), which a controller writes
/// after the bytes, in either direction, and before the slot's bit falls.
#[derive(Clone, Copy, Debug, PartialEq, Eq)]
pub struct ByteCount {
    /// Where its four bytes lie, least significant first.
    pub at: u64,
    /// The number.
    pub value: u32,
}

impl Command {
    // Of which no byte was moved yet.
    pub(crate) fn new(at: u64, head: Head, table: Table) -> Command
        requires place { at + 32 ≤ 2 ^ 64 }
        requires header { IsTaken head.header }
        requires len { table.len ≡ head.work.len }
        ensures { result ≡ record { at = at; head = head; table = table; moved = 0 } }
    {
        Command {
            at,
            head,
            table,
            moved: 0,
        }
    }

    /// The rules that hold for every command. The call has no effect.
    pub fn keeps_rules(&self)
        ensures { IsCommand self.now }
    {
        let _ = &self.head;
    }

    /// The address of its header.
    pub fn at(&self) -> u64
        ensures { result ≡ self.now.at }
    {
        self.at
    }

    /// Its header and its FIS.
    pub fn head(&self) -> &Head
        ensures { result.now ≡ self.now.head }
    {
        &self.head
    }

    /// Where its bytes lie.
    pub fn table(&self) -> &Table
        ensures { result.now ≡ self.now.table }
    {
        &self.table
    }

    /// How many of them were moved, in either direction.
    pub fn moved(&self) -> u32
        ensures { result ≡ self.now.moved }
    {
        self.moved
    }

    /// Counts the bytes of a payload of `len` bytes, from byte `offset` on, once they were moved. Bytes that lie nowhere
    /// do not count, and the command's own bytes are the most.
    pub fn count(&mut self, offset: u32, len: usize) -> ByteCount
        ensures is { result ≡ record { at = self.old.at + 4; value = self.new.moved } }
        ensures moved { self.new ≡ record self.old {
          moved = counted self.old.table self.old.moved offset len;
        } }
    {
        let reach = self.table.reach();
        let room = len.min(reach.saturating_sub(offset) as usize) as u32;
        self.moved = self.moved.saturating_add(room).min(reach);
        ByteCount {
            at: self.at + 4,
            value: self.moved,
        }
    }
}
