//! Bytes of commands that were moved, in either direction.

ghost use Rattle.std.specs.Prelude.{◌≡◌, ◌<◌, ◌^◌, Some, bit_or, slice_set, slice_index_or};
ghost use Rattle.slots.specs.Slots.{match_some};
ghost use Rattle.guest_fetch.specs.Moves.{any_told};
ghost use Rattle.ahci_controller.specs.Moving.{commands_after, count_of, counted_after, moved as moved_by, moved_on, processed_by, processed_in, sent_by};

use crate::bits::bits_if;
use crate::issuing::slot_bit;
use crate::parts::Parts;
use guest_fetch::{ByteCount, Command, Moves};
use hba_fbs::{Turn, Wrote};

/// PxIS.DPS, Descriptor Processed.
const DPS: u32 = 0x20;

// Whether one of them takes the last byte of an entry with I.
fn is_told(moves: Moves<'_>) -> bool
    ensures { result ≡ any_told moves.entry }
{
    for step in moves {
        if step.interrupt {
            return true;
        }
    }
    false
}

// The bit of PxIS that tells of these bytes.
fn processed_in_command(command: &Command, wrote: Wrote) -> u32
    ensures { result ≡ processed_in wrote command.now }
{
    let moves = command.table().moves(wrote.offset, wrote.len as usize);
    bits_if(is_told(moves), DPS)
}

/// PRDBC of a command, and where it lies.
pub(crate) fn count(command: &Command) -> ByteCount
    ensures { result ≡ count_of command.now }
{
    command.keeps_rules();
    ByteCount {
        at: command.at() + 4,
        value: command.moved(),
    }
}

/// The bytes that go to a device, if Data goes.
pub(crate) fn sent(turn: &Turn) -> Option<Wrote>
    ensures { result ≡ sent_by turn.now }
{
    match *turn {
        Turn::Feeds {
            slot,
            offset,
            len,
            ..
        } => Some(Wrote { slot, offset, len }),
        Turn::Rests | Turn::Orders { .. } => None,
    }
}

impl Parts {
    /// The bit of PxIS that tells of bytes that were moved: DPS, where the last byte of an entry with I is among them.
    pub(crate) fn processed(&self, wrote: Option<Wrote>) -> u32
        ensures { result ≡ processed_by self.now wrote }
    {
        let Some(wrote) = wrote else {
            return 0;
        };
        if wrote.slot >= 32 {
            return 0;
        }
        match &self.commands[wrote.slot as usize] {
            Some(command) => processed_in_command(command, wrote),
            None => 0,
        }
    }

    /// Bytes that were moved count, and PRDBC of their command is to be written.
    pub(crate) fn moved(&mut self, wrote: Option<Wrote>)
        ensures { self.new ≡ moved_by self.old wrote }
    {
        let Some(wrote) = wrote else {
            return;
        };
        if wrote.slot >= 32 {
            return;
        }
        if let Some(command) = &mut self.commands[wrote.slot as usize] {
            command.count(wrote.offset, wrote.len as usize);
            self.writes.counted |= slot_bit(wrote.slot);
        }
    }
}
