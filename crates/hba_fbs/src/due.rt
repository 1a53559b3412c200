//! What a controller round the port asks of it: its own registers, which slots are in use, and which bytes of a write go
//! out next.

ghost use Rattle.std.specs.Prelude.{◌≡◌, ◌<◌, ◌≤◌, IfSome};
ghost use Rattle.hba_fbs.specs.Due.{due_of};
ghost use Rattle.hba_fbs.specs.Registers.{AreOwn};
ghost use Rattle.hba_fbs.specs.Issuing.{is_busy};

use crate::port::PortCore;
use crate::registers::Registers;

/// Bytes of a write that are due to its device.
#[derive(Clone, Copy, Debug, PartialEq, Eq)]
pub struct Due {
    /// The slot to which they belong.
    pub slot: u8,
    /// The number of the first of them in the slot's transfer.
    pub offset: u32,
    /// How many there are.
    pub len: u32,
}

impl PortCore {
    /// The port's own registers.
    pub fn registers(&self) -> Registers
        ensures value { result ≡ self.now.registers }
        ensures are { AreOwn result }
    {
        self.registers
    }

    /// Whether a command is issued in a slot, which is not done yet.
    pub fn is_issued(&self, slot: u8) -> bool
        requires { slot < 32 }
        ensures { result ≡ is_busy self.now.slots slot }
    {
        self.slots.work(slot).is_some()
    }

    /// The bytes of a write that go out next, None where no data goes next.
    pub fn due(&self) -> Option<Due>
        ensures value { result ≡ due_of self.now }
        ensures slot { IfSome result (λ due. due.slot < 32) }
        ensures few { IfSome result (λ due. due.len ≤ 8192) }
    {
        if !self.is_running() {
            return None;
        }
        let dev = self.next_receiver()?;
        let (slot, offset, len) = self.slots.next_payload(dev)?;
        Some(Due { slot, offset, len })
    }
}
