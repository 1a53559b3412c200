//! Tests as lists of steps: what is done with a controller, and what it answers then.
//!
//! A test that is a list has one assertion, so it is proved with little work.

use super::rig::{Rig, Run};
use ahci_controller::{Edge, Hindrance, Next, NotTaken, Width};
use ahci_registers::Effect;
use hba_fbs::Ignored;
use std::alloc::Global;
use std::process::Abort;
use std::test::Fail;

/// A step of a test. Frames are given in hexadecimal.
#[derive(Clone, Copy)]
pub(super) enum Step {
    /// A value is written to the register at an offset. The link stays as it is.
    Writes(u32, u32),
    /// The same, and a message is due.
    Alarms(u32, u32),
    /// The same, and this is what it does to the link.
    Links(u32, u32, Effect),
    /// A value is written by an access of this width.
    Puts(u32, Width, u64),
    /// An access of this width reads this.
    Gets(u32, Width, u64),
    /// The register at an offset reads this.
    Reads(u32, u32),
    /// Whether the interrupt line is raised.
    Line(bool),
    /// The guest writes the command of a slot: its PM Port, the number of its entries, and its FIS.
    Command(u8, u8, u8, &'static str),
    /// The guest writes an entry of a slot's table: its number, its address, and how many bytes it has.
    Entry(u8, u8, u64, u32),
    /// The guest writes this many bytes from an address on, each of them this one.
    Fills(u64, usize, u8),
    /// The byte at an address of the guest is this one.
    Holds(u64, u8),
    /// This command goes to a device next.
    Sends(&'static str),
    /// A sector of Data goes to a device next. These are its first byte, and its last.
    SendsSector(u8, u8, u8),
    /// Nothing goes to a device.
    IsSilent,
    /// A FIS is taken, and heard.
    Takes(&'static str),
    /// A sector of Data of a device is taken, and heard. Each of its bytes is this one.
    TakesSector(u8, u8),
    /// Data of a device, so many bytes, is taken, and heard.
    TakesData(u8, usize),
    /// A FIS is ignored, and this is why.
    Ignores(&'static str, Ignored),
    /// A FIS is not taken.
    Hinders(&'static str, Hindrance),
    /// Bytes of the guest are wanted next from this address on, as many as these, and these are supplied.
    Supplies(u64, &'static str),
    /// The same, and with them the command is not taken, for this reason.
    Refuses(u64, &'static str, NotTaken),
    /// Data is to go to a device next, and its bytes are not memory.
    Misses,
    /// Bytes of the frame that was taken last go to the guest next: to which address, from which byte of it on, and how many.
    Moves(u64, usize, usize),
    /// PRDBC goes to the guest next: where it lies, and the number.
    Counts(u64, u32),
    /// Of 8,192 bytes of a slot's command, from this one on, the first lies at this address, and so many one after another.
    Lies(u8, u32, u64, usize),
    /// Bytes of a slot's command, from this one on, lie nowhere.
    LiesNowhere(u8, u32),
    /// A value is written to the register at an offset, and it ends the commands of these slots.
    Ends(u32, u32, u32),
    /// A value is written to the register at an offset, and the line does this.
    Turns(u32, u32, Edge),
}

impl Rig {
    fn does(&mut self, offset: u32, value: u32, wanted: Effect) -> bool {
        self.write32(offset, value).effect == wanted
    }

    fn alarms(&mut self, offset: u32, value: u32) -> bool {
        let written = self.write32(offset, value);
        written.effect == Effect::Nothing && written.message
    }

    fn puts(&mut self, offset: u32, width: Width, value: u64) -> bool {
        self.write(offset, width, value);
        true
    }

    fn lists(&mut self, slot: u8, dev: u8, entries: u8, fis: &str) -> bool {
        match self.bytes_of(fis) {
            Some(bytes) => self.command(slot, dev, 0, entries, &bytes),
            None => false,
        }
    }

    fn fills(&mut self, at: u64, count: usize, byte: u8) -> bool {
        let room = [byte; 512];
        match room.get(..count) {
            Some(bytes) => self.put(at, bytes),
            None => false,
        }
    }

    // Takes a frame, once more if memory was refused, and does what is next.
    fn hears(&mut self, bytes: &[u8]) -> Option<Result<Option<Ignored>, Hindrance>> {
        let took = match self.take(bytes) {
            Err(_) => self.take(bytes).ok()?,
            Ok(took) => took,
        };
        match took {
            Ok(took) => Some(Ok(took.ignored)),
            Err(why) => Some(Err(why)),
        }
    }

    fn takes(&mut self, fis: &str, wanted: Result<Option<Ignored>, Hindrance>) -> bool {
        match self.bytes_of(fis) {
            Some(bytes) => self.hears(&bytes) == Some(wanted),
            None => false,
        }
    }

    fn takes_sector(&mut self, dev: u8, byte: u8) -> bool {
        let mut bytes = [byte; 516];
        bytes[0] = 0x46;
        bytes[1] = dev;
        bytes[2] = 0;
        bytes[3] = 0;
        self.hears(&bytes) == Some(Ok(None))
    }

    fn takes_data(&mut self, dev: u8, count: usize) -> bool {
        let room = [0; 8196];
        let mut bytes = room;
        bytes[0] = 0x46;
        bytes[1] = dev;
        match bytes.get(..count.saturating_add(4)) {
            Some(bytes) => self.hears(bytes) == Some(Ok(None)),
            None => false,
        }
    }

    fn supplies(&mut self, at: u64, text: &str) -> bool {
        let Next::Read(ask) = self.raw() else {
            return false;
        };
        match self.bytes_of(text) {
            Some(bytes) => {
                ask.want.at == at && ask.want.len == bytes.len() && self.supply(ask, &bytes)
            }
            None => false,
        }
    }

    fn refuses(&mut self, at: u64, text: &str, wanted: NotTaken) -> bool {
        let Next::Read(ask) = self.raw() else {
            return false;
        };
        match self.bytes_of(text) {
            Some(bytes) => ask.want.at == at && self.refusal(ask, &bytes) == Some(wanted),
            None => false,
        }
    }

    fn misses(&mut self) -> bool {
        match self.next() {
            Next::Feed { dev, number, .. } => self.lacks(dev, number),
            _ => false,
        }
    }

    fn moves(&mut self, at: u64, from: usize, len: usize) -> bool {
        match self.raw() {
            Next::Payload(step) => step.at == at && step.from == from && step.len == len,
            _ => false,
        }
    }

    fn counts(&mut self, at: u64, value: u32) -> bool {
        match self.raw() {
            Next::Counted(count) => count.at == at && count.value == value,
            _ => false,
        }
    }

    fn sends(&mut self, wanted: &str) -> bool {
        let Next::Order { fis, .. } = self.next() else {
            return false;
        };
        match self.bytes_of(wanted) {
            Some(wanted) => fis.as_slice() == wanted.as_slice(),
            None => false,
        }
    }

    fn sends_sector(&mut self, to: u8, first: u8, last: u8) -> bool {
        let next = self.next();
        let Next::Feed { dev, .. } = next else {
            return false;
        };
        let Some(bytes) = self.data(next) else {
            return false;
        };
        dev == to
            && bytes.len() == 512
            && bytes.first() == Some(&first)
            && bytes.last() == Some(&last)
    }

    // Whether a step is as it says.
    fn passes(&mut self, step: Step) -> bool {
        match step {
            Step::Writes(offset, value) => self.does(offset, value, Effect::Nothing),
            Step::Alarms(offset, value) => self.alarms(offset, value),
            Step::Links(offset, value, wanted) => self.does(offset, value, wanted),
            Step::Puts(offset, width, value) => self.puts(offset, width, value),
            Step::Gets(offset, width, value) => self.read(offset, width) == value,
            Step::Reads(offset, value) => self.read(offset, Width::Dword) == u64::from(value),
            Step::Line(raised) => self.line() == raised,
            Step::Command(slot, dev, entries, fis) => self.lists(slot, dev, entries, fis),
            Step::Entry(slot, at, address, bytes) => self.entry(slot, at, address, bytes),
            Step::Fills(at, count, byte) => self.fills(at, count, byte),
            Step::Holds(at, byte) => self.byte(at) == Some(byte),
            Step::Takes(fis) => self.takes(fis, Ok(None)),
            Step::TakesSector(dev, byte) => self.takes_sector(dev, byte),
            Step::TakesData(dev, count) => self.takes_data(dev, count),
            Step::Ignores(fis, why) => self.takes(fis, Ok(Some(why))),
            Step::Hinders(fis, why) => self.takes(fis, Err(why)),
            Step::Sends(fis) => self.sends(fis),
            Step::SendsSector(dev, first, last) => self.sends_sector(dev, first, last),
            Step::IsSilent => self.next() == Next::Nothing,
            Step::Supplies(at, bytes) => self.supplies(at, bytes),
            Step::Refuses(at, bytes, why) => self.refuses(at, bytes, why),
            Step::Misses => self.misses(),
            Step::Moves(at, from, len) => self.moves(at, from, len),
            Step::Counts(at, value) => self.counts(at, value),
            Step::Lies(slot, offset, at, len) => self.place(slot, offset) == Some(Run { at, len }),
            Step::LiesNowhere(slot, offset) => self.place(slot, offset).is_none(),
            Step::Ends(offset, value, slots) => self.write32(offset, value).ended == slots,
            Step::Turns(offset, value, edge) => self.write32(offset, value).line == edge,
        }
    }

    // The number of the first step that is not as it says.
    fn first_wrong(&mut self, steps: &[Step]) -> Option<usize> {
        for (i, step) in steps.iter().enumerate() {
            if !self.passes(*step) {
                return Some(i);
            }
        }
        None
    }
}

/// Each step of a new controller is as it says: those of each list, one after the other.
pub(super) fn play(rt: &impl Abort, alloc: Global, lists: &[&[Step]]) -> Result<(), Fail> {
    let mut rig = Rig::new(alloc)?;
    for (list, steps) in lists.iter().enumerate() {
        assert_eq!(rt;
            rig.first_wrong(steps),
            None,
            "the number of a step of list {list}"
        );
    }
    Ok(())
}
