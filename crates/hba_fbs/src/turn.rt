//! What a port that holds no memory gives its devices.

ghost use Rattle.std.specs.Prelude.{◌≡◌, ◌≢◌, ◌<◌, IsSome};
ghost use Rattle.hba_fbs.specs.Sending.{MayRest};
ghost use Rattle.hba_fbs.specs.Turning.{MayGo, Turns, feeds, orders as orders_of, turn_of};
ghost use Rattle.slots.specs.Commands.{MayBeSent};
ghost use Rattle.slots.specs.Data.{payload as payload_of};
ghost use Rattle.slots.specs.Slots.{context_of, match_some};

use crate::port::PortCore;
use crate::sending::{command_of, owner_of};
use hba_commands::Command;

/// What goes out next.
#[derive(Clone, Copy, Debug, PartialEq, Eq)]
pub enum Turn {
    /// Nothing may go.
    Rests,
    /// `len` bytes of a slot's transfer go to a device in a Data FIS, from byte `offset` on.
    Feeds {
        /// The device.
        dev: u8,
        /// The slot.
        slot: u8,
        /// The number of the first of them in the transfer.
        offset: u32,
        /// How many there are.
        len: u32,
    },
    /// The command of a slot goes to a device.
    Orders {
        /// The device.
        dev: u8,
        /// The slot.
        slot: u8,
        /// The command.
        command: Command,
    },
}

impl PortCore {
    /// The data that is due to a device.
    pub(crate) fn feeding(&self, dev: u8) -> Turn
        requires dev { dev < 16 }
        requires due { IsSome (payload_of (context_of self.now.slots dev)) }
        ensures value { result
            ≡ match_some (payload_of (context_of self.now.slots dev)) Turn.Rests (feeds dev) }
        ensures may { MayGo self.now result }
        ensures goes { result ≢ Turn.Rests }
    {
        let Some((slot, offset, len)) = self.slots.next_payload(dev) else {
            unreachable!();
        };
        Turn::Feeds {
            dev,
            slot,
            offset,
            len,
        }
    }

    /// The command of a slot.
    pub(crate) fn ordering(&self, slot: u8) -> Turn
        requires slot { slot < 32 }
        requires may { MayBeSent self.now.slots slot }
        ensures value { result ≡ orders_of self.now slot }
        ensures may { MayGo self.now result }
        ensures goes { result ≢ Turn.Rests }
    {
        let Some(command) = command_of(&self.commands, slot) else {
            unreachable!();
        };
        let dev = owner_of(&self.slots, slot);
        Turn::Orders { dev, slot, command }
    }

    /// What goes out next. Data comes first, for the lowest device that asked for it; the command of the lowest slot that
    /// may be sent comes next. Nothing changes before it [went](PortCore::went).
    pub fn next_out(&self) -> Turn
        ensures value { result ≡ turn_of self.now }
        ensures may { MayGo self.now result }
        ensures rests { result ≡ Turn.Rests → MayRest self.now }
    {
        if !self.is_running() {
            return Turn::Rests;
        }
        if let Some(dev) = self.next_receiver() {
            return self.feeding(dev);
        }
        match self.next_to_send() {
            Some(slot) => self.ordering(slot),
            None => Turn::Rests,
        }
    }

    /// What [`next_out`](PortCore::next_out) answered went to its device.
    pub fn went(&mut self, turn: Turn)
        requires { MayGo self.old turn }
        ensures { Turns turn self.old self.new }
    {
        match turn {
            Turn::Rests => {}
            Turn::Feeds { dev, .. } => self.feed(dev),
            Turn::Orders { dev, slot, command } => self.send(slot, dev, &command),
        }
    }
}
