//! A controller, the memory of its guest, and the frames of devices.
//!
//! Clauses see a `Rig` as a number, and its functions have no contract. So a test is proved with little work, whatever is
//! proved of a controller.

ghost use Rattle.std.specs.Prelude.{◌+◌, ◌≤◌, IsTrue, length};

use ahci_controller::{
    Ask, Controller, Fed, Hindrance, Next, NotTaken, Supply, Took, Width, Written,
};
use fis_view::{Frame, FrameError, Stamp};
use guest_bytes::FlatGuest;
use guest_fetch::Move;
use std::alloc::{AllocError, Global};
use std::marker::Model;
use std::test::Fail;

/// Where the guest's memory begins: above 4 GiB. The command list comes first.
pub(super) const BASE: u64 = 0x1_0000_0000;
/// Where the received area lies.
pub(super) const AREA: u64 = BASE + 0x1000;
/// Where the first command table lies; they have 100h bytes each.
const TABLES: u64 = BASE + 0x2000;
/// Where the buffers lie.
pub(super) const BUFFER: u64 = BASE + 0x6000;
/// How many bytes the guest's memory has.
const LEN: u64 = 0xA000;

/// Bytes of the guest that lie one after another.
#[derive(Clone, Copy, PartialEq, Eq)]
pub(super) struct Run {
    pub(super) at: u64,
    pub(super) len: usize,
}

/// A controller, the memory of its guest, and the frame that was taken last.
#[derive(Drop)]
pub(super) struct Rig {
    alloc: Global,
    controller: Controller,
    guest: FlatGuest,
    held: Vec<u8>,
}

impl Model for Rig {
    ghost use Rattle.std.specs.Prelude.{ℕ};

    ghost Value = { ℕ };

    ghost view = { λ _. 0 };
}

// Bytes of the guest, if they are memory.
fn lent(guest: &FlatGuest, at: u64, len: usize) -> Option<&[u8]> {
    if at < BASE || at - BASE > LEN || len > 0x1_0000 {
        return None;
    }
    let first = (at - BASE) as usize;
    guest.bytes().get(first..first + len)
}

impl Rig {
    /// A controller that opened.
    pub(super) fn new(alloc: Global) -> Result<Rig, Fail> {
        Ok(Rig {
            alloc,
            controller: Controller::new(),
            guest: FlatGuest::new(alloc, BASE, 0xA000)?,
            held: Vec::new(alloc),
        })
    }

    pub(super) fn read(&self, offset: u32, width: Width) -> u64 {
        self.controller.read(offset, width)
    }

    pub(super) fn write(&mut self, offset: u32, width: Width, value: u64) {
        let _ = self.controller.write(offset, width, value);
    }

    pub(super) fn write32(&mut self, offset: u32, value: u32) -> Written {
        self.controller.write32(offset, value)
    }

    pub(super) fn line(&self) -> bool {
        self.controller.line()
    }

    /// Writes bytes of the guest.
    pub(super) fn put(&mut self, at: u64, bytes: &[u8]) -> bool {
        self.guest.put(at, bytes).is_ok()
    }

    /// A byte of the guest.
    pub(super) fn byte(&self, at: u64) -> Option<u8> {
        lent(&self.guest, at, 1)?.first().copied()
    }

    /// A command for a PM Port, with these bits 11:8 of its header, so many entries, and this FIS.
    pub(super) fn command(
        &mut self,
        slot: u8,
        dev: u8,
        bits: u8,
        entries: u8,
        cfis: &[u8],
    ) -> bool {
        let table = 0x2000 + 0x100 * u32::from(slot);
        let place = table.to_le_bytes();
        let head = [
            5,
            dev % 16 * 16 + bits % 16,
            entries,
            0,
            0,
            0,
            0,
            0,
            place[0],
            place[1],
            place[2],
            place[3],
            1,
            0,
            0,
            0,
        ];
        self.put(BASE + 32 * u64::from(slot), &head) && self.put(BASE + u64::from(table), cfis)
    }

    /// An entry of a slot's table.
    pub(super) fn entry(&mut self, slot: u8, at: u8, address: u64, bytes: u32) -> bool {
        let a = address.to_le_bytes();
        let c = bytes.saturating_sub(1).to_le_bytes();
        let entry = [
            a[0], a[1], a[2], a[3], a[4], a[5], a[6], a[7], 0, 0, 0, 0, c[0], c[1], c[2], c[3],
        ];
        let table = TABLES + 0x80 + 0x100 * u64::from(slot);
        self.put(table + 16 * u64::from(at), &entry)
    }

    /// What is next to do, of which nothing is done here.
    pub(super) fn raw(&mut self) -> Next {
        self.controller.next()
    }

    /// Answers a want with these bytes, once more if memory was refused, and tells whether they count.
    pub(super) fn supply(&mut self, ask: Ask, bytes: &[u8]) -> bool {
        let mut answer = Supply::OutOfMemory;
        for _ in 0..2_u32 {
            if answer == Supply::OutOfMemory {
                answer = self
                    .controller
                    .supply(self.alloc, ask.slot, ask.number, bytes);
            }
        }
        matches!(answer, Supply::More | Supply::Issued { .. })
    }

    /// Answers a want with these bytes, and tells why the command is not taken.
    pub(super) fn refusal(&mut self, ask: Ask, bytes: &[u8]) -> Option<NotTaken> {
        match self
            .controller
            .supply(self.alloc, ask.slot, ask.number, bytes)
        {
            Supply::NotTaken { why, .. } => Some(why),
            _ => None,
        }
    }

    /// Says that bytes of a write are not memory, and tells whether that counts.
    pub(super) fn lacks(&mut self, dev: u8, number: u64) -> bool {
        matches!(self.controller.not_there(dev, number), Fed::Missed { .. })
    }

    /// Where the first of 8,192 bytes of a slot's command lies, from this one on, and those with it.
    pub(super) fn place(&self, slot: u8, offset: u32) -> Option<Run> {
        if slot >= 32 {
            return None;
        }
        let mut places = self.controller.places(slot, offset, 8192)?;
        let step = places.next()?;
        Some(Run {
            at: step.at,
            len: step.len,
        })
    }

    // Answers a want.
    fn answer(&mut self, ask: Ask) -> Supply {
        match lent(&self.guest, ask.want.at, ask.want.len) {
            Some(bytes) => self
                .controller
                .supply(self.alloc, ask.slot, ask.number, bytes),
            None => self.controller.no_memory(ask.slot, ask.number),
        }
    }

    // Writes bytes of the frame that was taken last.
    fn carry(&mut self, step: Move) -> bool {
        if step.from > 0x1_0000 || step.len > 0x1_0000 {
            return false;
        }
        match self.held.as_slice().get(step.from..step.from + step.len) {
            Some(bytes) => self.guest.put(step.at, bytes).is_ok(),
            None => false,
        }
    }

    // Does what is next, and answers it where it is for a device.
    fn turn(&mut self) -> Option<Next> {
        let next = self.controller.next();
        match next {
            Next::Read(ask) => {
                let _ = self.answer(ask);
            }
            Next::Payload(step) | Next::Posted(step) => {
                let _ = self.carry(step);
            }
            Next::Counted(count) => {
                let value = count.value.to_le_bytes();
                let _ = self.guest.put(count.at, &value);
            }
            _ => return Some(next),
        }
        None
    }

    /// What goes to a device next, once all before it was done.
    pub(super) fn next(&mut self) -> Next {
        for _ in 0..200_u32 {
            if let Some(next) = self.turn() {
                return next;
            }
        }
        Next::Nothing
    }

    // The bytes of a slot's write.
    fn gather(&self, slot: u8, offset: u32, len: u32) -> Result<Vec<u8>, AllocError> {
        let mut bytes = Vec::new(self.alloc);
        if slot >= 32 {
            return Ok(bytes);
        }
        let Some(places) = self.controller.places(slot, offset, len) else {
            return Ok(bytes);
        };
        for step in places {
            if let Some(part) = lent(&self.guest, step.at, step.len) {
                bytes.extend_from_slice(part)?;
            }
        }
        Ok(bytes)
    }

    /// The bytes of Data that goes to a device, None where they are wanted no more.
    pub(super) fn data(&mut self, next: Next) -> Option<Vec<u8>> {
        let Next::Feed {
            dev,
            number,
            slot,
            offset,
            len,
        } = next
        else {
            return None;
        };
        let bytes = self.gather(slot, offset, len).ok()?;
        match self.controller.gathered(dev, number) {
            Fed::Goes { .. } => Some(bytes),
            _ => None,
        }
    }

    /// Takes a frame, which is held until what is to be written of it is.
    pub(super) fn take(&mut self, bytes: &[u8]) -> Result<Result<Took, Hindrance>, FrameError> {
        let stamp = Stamp {
            port: 0,
            conn: 0,
            number: 0,
            shown: [0; 15],
        };
        let frame = Frame::from_bytes(self.alloc, bytes, stamp)?;
        let took = self.controller.take(&frame);
        if took.is_ok() {
            self.held.clear();
            let _ = self.held.extend_from_slice(bytes);
        }
        Ok(took)
    }

    /// The bytes that a text spells in hexadecimal.
    pub(super) fn bytes_of(&self, text: &str) -> Option<Vec<u8>> {
        hex::decode(self.alloc, text).ok()
    }
}
