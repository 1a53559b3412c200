//! What the core asks of whoever has the memory.

ghost use Rattle.std.specs.Prelude.{◌≡◌, ◌<◌, true, IfSome};
ghost use Rattle.std.specs.Option.{option_map};
ghost use Rattle.slots.specs.Data.{receiving_slot};
ghost use Rattle.slots.specs.Slots.{context_of, issue_at, mask_of, own_issue, slots_of};
ghost use Rattle.hba_fbs.specs.Issuing.{is_busy};
ghost use Rattle.hba_fbs.specs.Views.{last_command};

use crate::port::PortCore;
use hba_commands::Command;
use slots::Work;

impl PortCore {
    /// The slot for which a device sends Data.
    pub fn receiving(&self, dev: u8) -> Option<u8>
        requires { dev < 16 }
        ensures value { result ≡ receiving_slot (context_of self.now.slots dev) }
        ensures below { IfSome result (λ slot. slot < 32) }
        ensures own { IfSome result (λ slot.
            own_issue (slots_of dev self.now.slots) slot ≡ issue_at self.now.slots slot) }
    {
        self.slots.keeps_rules();
        self.slots.receiving(dev)
    }

    /// The slots in which a command is issued, as a mask.
    pub fn issued(&self) -> u32
        ensures { result ≡ mask_of (is_busy self.now.slots) }
    {
        self.slots.issued()
    }

    /// What is issued in a slot.
    pub fn work(&self, slot: u8) -> Option<Work>
        requires { slot < 32 }
        ensures { result ≡ option_map (λ issue. issue.work) (issue_at self.now.slots slot) }
    {
        self.slots.work(slot)
    }

    /// The command that was issued last in a slot: it says where its PRD table lies.
    pub fn command(&self, slot: u8) -> Option<Command>
        requires { slot < 32 }
        ensures { result ≡ last_command self.now.commands slot }
    {
        self.commands[slot as usize]
    }

    /// Where the received area begins, while the port runs.
    pub(crate) fn area(&self) -> u32
        requires { self.now.registers.started ≡ true }
        ensures value { result ≡ self.now.registers.fb }
        ensures receives { self.now.registers.receives ≡ true }
    {
        self.registers.fb
    }

    /// The running number of the next frame that goes out.
    pub fn number(&self) -> u32
        ensures { result ≡ self.now.number }
    {
        self.number
    }
}
