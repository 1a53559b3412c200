//! The command list in the host's memory.

ghost use Rattle.std.specs.Prelude.{◌≡◌, ◌<◌, ◌≤◌, ◌+◌, IfSome};
ghost use Rattle.slots.specs.Work.{IsWork};
ghost use Rattle.hba_fbs.specs.Offering.{Offer, offer_of};

use crate::bits::has_bit;
use crate::offers::Offers;
use crate::registers::Registers;
use hba_commands::{Command, pmp};
use host_memory::HostMemory;

/// A command list in memory, for these registers.
#[derive(Clone, Copy)]
pub(crate) struct CommandList<'m> {
    /// The registers.
    pub(crate) registers: Registers,
    /// The memory.
    pub(crate) memory: &'m HostMemory,
}

impl Offers for CommandList<'_> {
    ghost offer = { λ l. offer_of l.registers l.memory.now };

    ghost can_offer = { λ l. l.registers.clb + 0x400 ≤ 0x100000 };

    fn named(&self, slot: u8) -> u8 {
        pmp(self.memory.structure(), self.registers.clb, slot)
    }

    fn command(&self, slot: u8) -> Option<Command> {
        let armed = has_bit(self.registers.armed, u32::from(slot));
        Command::read(self.memory, self.registers.clb, slot, armed)
    }
}
