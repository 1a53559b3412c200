//! The bytes of Data that go to devices.

ghost use Rattle.std.specs.Prelude.{◌≡◌, ◌<◌, true};
ghost use Rattle.hba_fbs.specs.Choosing.{may_feed};
ghost use Rattle.ahci_controller.specs.Feeding.{Gathers, LosesSlot, MissesData, Places, SendsData, without_feeding};

use crate::bits::has_bit;
use crate::causes::interrupts;
use crate::issuing::slot_bit;
use crate::latch::Edge;
use crate::moving::sent;
use crate::parts::Parts;
use guest_fetch::Moves;
use hba_fbs::Turn;

/// What an answer to a want of a device's Data did.
#[derive(Clone, Copy, Debug, PartialEq, Eq)]
pub enum Fed {
    /// Nothing: no such bytes are wanted.
    Stale,
    /// They are wanted no more: what they were for has ended.
    Ended,
    /// The Data FIS goes to the device.
    Goes {
        /// A message is due, where messages stand for the line.
        message: bool,
        /// What it did to the line.
        line: Edge,
    },
    /// The command cannot be served. Its slot is a bad one: PxIS tells, and nothing goes on until ST falls.
    Missed {
        /// A message is due, where messages stand for the line.
        message: bool,
        /// What it did to the line.
        line: Edge,
    },
}

impl Parts {
    /// Where bytes of the command lie that was issued in a slot last, None where there was none. Bytes past the end of its
    /// table lie nowhere.
    pub fn places(&self, slot: u8, offset: u32, len: u32) -> Option<Moves<'_>>
        requires { slot < 32 }
        ensures { Places self.now slot offset len result }
    {
        match &self.commands[slot as usize] {
            Some(command) => Some(command.table().moves(offset, len as usize)),
            None => None,
        }
    }

    // Data may go to the device.
    fn is_due(&self, dev: u8) -> bool
        requires { dev < 16 }
        ensures { result ≡ may_feed self.now.core dev }
    {
        has_bit(u32::from(self.core.due_devices()), u32::from(dev))
    }

    // The want of a device's Data is answered.
    fn fed(&mut self, dev: u8)
        requires { dev < 16 }
        ensures { self.new ≡ without_feeding self.old dev }
    {
        self.wants.heard(dev);
    }

    // Data goes to a device, and its bytes count.
    fn send_data(&mut self, dev: u8) -> Fed
        requires dev { dev < 16 }
        requires due { may_feed self.old.core dev ≡ true }
        ensures { SendsData self.old dev result self.new }
    {
        let turn = self.core.turn_of_device(dev);
        let wrote = sent(&turn);
        self.core.goes(turn);
        let processed = self.processed(wrote);
        self.moved(wrote);
        let told = self.latch.told(interrupts(processed));
        Fed::Goes {
            message: told.message,
            line: told.line,
        }
    }

    /// The bytes that are wanted for Data to a device are in the frame. Where they are still due, it goes, and PRDBC of its
    /// command is to be written.
    pub fn gathered(&mut self, dev: u8, number: u64) -> Fed
        ensures { Gathers self.old dev number result self.new }
    {
        if !self.wants.is_fed(dev, number) {
            return Fed::Stale;
        }
        self.fed(dev);
        if !self.is_due(dev) {
            return Fed::Ended;
        }
        self.send_data(dev)
    }

    // The command of a slot cannot be served.
    fn lose(&mut self, slot: u8) -> Fed
        requires { slot < 32 }
        ensures { LosesSlot self.old slot result self.new }
    {
        self.own.bad |= slot_bit(slot);
        let told = self.latch.told(interrupts(0x2800_0000));
        Fed::Missed {
            message: told.message,
            line: told.line,
        }
    }

    /// Some of the bytes that are wanted for Data to a device are not memory, or lie nowhere.
    pub fn not_there(&mut self, dev: u8, number: u64) -> Fed
        ensures { MissesData self.old dev number result self.new }
    {
        if !self.wants.is_fed(dev, number) {
            return Fed::Stale;
        }
        self.fed(dev);
        if !self.is_due(dev) {
            return Fed::Ended;
        }
        match self.core.turn_of_device(dev) {
            Turn::Feeds { slot, .. } => self.lose(slot),
            _ => Fed::Ended,
        }
    }
}
