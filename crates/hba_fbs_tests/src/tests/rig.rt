//! A host port with its memory.
//!
//! Clauses see a `Rig` as a number, and its functions have no contract. So a test is proved with
//! little work, whatever is proved of a host port.

ghost use Rattle.std.specs.Prelude.{◌↔◌, All, IsTrue, ℕ};
ghost use Rattle.host_memory.specs.Writing.{CanBeWritten};

use fis_view::{Frame, H2dFields, Stamp};
use hba_commands::write_command;
use hba_fbs::{HostPort, NoRegister, Register, TakeReport, WriteError};
use host_memory::{HostMemory, MemoryError, Prd};
use port_errors::{DeviceCause, PortCause};
use std::alloc::{AllocError, Global};
use std::marker::Model;

/// A host port with its memory of 2 MiB.
#[derive(Drop)]
pub(super) struct Rig {
    alloc: Global,
    port: HostPort,
    memory: HostMemory,
}

impl Model for Rig {
    ghost use Rattle.std.specs.Prelude.{ℕ};

    ghost Value = { ℕ };

    ghost view = { λ _. 0 };
}

fn can_be_written(prds: &[Prd]) -> bool
    ensures { IsTrue result ↔ All CanBeWritten prds.now }
{
    prds.iter()
        .all(|prd| 1 <= prd.bytes && prd.bytes <= 0x40_0000)
}

/// This many bytes of an area, from this address on, are this one.
fn are(area: &[u8], at: usize, count: usize, byte: u8) -> bool {
    if let Some(bytes) = area.get(at..at.saturating_add(count)) {
        for found in bytes {
            if *found != byte {
                return false;
            }
        }
        return true;
    }
    false
}

/// The byte at this address of an area becomes this one.
fn put(area: &mut [u8], at: usize, byte: u8) {
    if let Some(place) = area.get_mut(at) {
        *place = byte;
    }
}

/// Whether this text was written.
fn is_text(written: Result<String, AllocError>, text: &str) -> bool {
    match written {
        Ok(written) => written.as_str() == text,
        Err(_) => false,
    }
}

impl Rig {
    /// A port that opened.
    pub(super) fn new(alloc: Global) -> Result<Rig, MemoryError> {
        Ok(Rig {
            alloc,
            port: HostPort::new(),
            memory: HostMemory::new(alloc, 0x20_0000)?,
        })
    }

    /// Whether there is memory for a new memory. The port is new then, too.
    pub(super) fn begin(&mut self) -> bool {
        match HostMemory::new(self.alloc, 0x20_0000) {
            Ok(memory) => {
                self.memory = memory;
                self.open();
                true
            }
            Err(_) => false,
        }
    }

    /// The port opens anew.
    pub(super) fn open(&mut self) {
        self.port = HostPort::new();
    }

    /// Whether the port, opened anew, runs with switching and its received area at 1000h.
    pub(super) fn start(&mut self) -> bool {
        self.open();
        self.writes(0x08, 0x1000) && self.writes(0x40, 1) && self.writes(0x18, 0x11)
    }

    pub(super) fn write(&mut self, offset: u32, value: u32) -> Result<(), WriteError> {
        self.port.write(offset, value, &self.memory)
    }

    /// Whether a value is taken.
    pub(super) fn writes(&mut self, offset: u32, value: u32) -> bool {
        matches!(self.write(offset, value), Ok(()))
    }

    /// Whether a register shows this.
    pub(super) fn shows(&self, offset: u32, value: u32) -> bool {
        match self.port.read(offset) {
            Ok(shown) => shown == value,
            Err(_) => false,
        }
    }

    /// Whether there is no register.
    pub(super) fn lacks(&self, offset: u32) -> bool {
        matches!(Register::at(offset), None) && matches!(self.port.read(offset), Err(_))
    }

    pub(super) fn flushes(&mut self, dev: u8, free: u32) -> bool {
        dev < 16 && self.port.flush_device(dev) == free
    }

    pub(super) fn resetting(&self, dev: u8) -> bool {
        dev < 16 && self.port.resetting(dev)
    }

    pub(super) fn signed(&self, dev: u8) -> bool {
        dev < 16 && self.port.signed(dev)
    }

    pub(super) fn cause(&self, dev: u8) -> Option<DeviceCause> {
        if dev < 16 { self.port.cause(dev) } else { None }
    }

    pub(super) fn port_cause(&self) -> Option<PortCause> {
        self.port.port_cause()
    }

    /// Whether a refusal is written so.
    pub(super) fn says(&self, error: WriteError, text: &str) -> bool {
        is_text(error.to_string(self.alloc), text)
    }

    /// Whether the refusal of a read is written so.
    pub(super) fn says_of_a_read(&self, text: &str) -> bool {
        is_text(NoRegister.to_string(self.alloc), text)
    }

    /// Whether devices 2 and 4 are faulty for these causes, no other device is, and this stopped the port.
    pub(super) fn marks(
        &self,
        second: Option<DeviceCause>,
        fourth: Option<DeviceCause>,
        stopped: Option<PortCause>,
    ) -> bool {
        for dev in 0..16_u8 {
            let cause = match dev {
                2 => second,
                4 => fourth,
                _ => None,
            };
            if self.port.cause(dev) != cause {
                return false;
            }
        }
        self.port.port_cause() == stopped
    }

    /// The port takes these bytes as a frame of a device, unless memory is refused.
    pub(super) fn take(&mut self, bytes: &[u8]) -> Option<TakeReport> {
        let stamp = Stamp {
            port: 0,
            conn: 1,
            number: 0,
            shown: [0; 15],
        };
        match Frame::from_bytes(self.alloc, bytes, stamp) {
            Ok(frame) => Some(self.port.take(&frame, &mut self.memory)),
            Err(_) => None,
        }
    }

    /// The next frame, asked for once more if memory was refused: it goes out then, with its number, once.
    pub(super) fn next_out(&mut self) -> Result<Option<Frame>, AllocError> {
        match self.port.next_out(self.alloc, &self.memory) {
            Err(_) => self.port.next_out(self.alloc, &self.memory),
            given => given,
        }
    }

    /// Writes a command into a slot of the command list at 0, and its table to this address.
    pub(super) fn write_slot(
        &mut self,
        slot: u8,
        table: u32,
        fields: &H2dFields,
        prds: &[Prd],
    ) -> bool {
        let is_good = slot < 32 && 0x400 <= table && table <= 0xF_FF00 && prds.len() <= 2;
        if is_good && can_be_written(prds) {
            write_command(&mut self.memory, 0, slot, table, fields, prds);
            return true;
        }
        false
    }

    /// Issues a command for its device.
    pub(super) fn issue(&mut self, slot: u8, fields: &H2dFields, prds: &[Prd]) -> bool {
        let table = 0x2000 + 0x1000 * slot as u32;
        let bit = 1_u32 << (slot % 32);
        let queued = fields.command == 0x60 || fields.command == 0x61;
        self.write_slot(slot, table, fields, prds)
            && self.writes(0x40, 1 + 256 * (fields.pm_port % 16) as u32)
            && self.writes(0x34, if queued { bit } else { 0 })
            && self.writes(0x38, bit)
            && self.shows(0x18, 0x0040_C011)
    }

    /// The byte at this address of host memory becomes this one.
    pub(super) fn put_client(&mut self, address: u32, byte: u8) -> bool {
        matches!(self.memory.put_client(address, &[byte]), Ok(()))
    }

    /// The byte at this address of the structure area becomes this one.
    pub(super) fn put_structure(&mut self, at: usize, byte: u8) {
        put(self.memory.structure_mut(), at, byte);
    }

    /// The byte at this address of the structure area is this one.
    pub(super) fn posts(&self, at: usize, byte: u8) -> bool {
        are(self.memory.structure(), at, 1, byte)
    }

    /// This many bytes, from this address of the client area on, are this one.
    pub(super) fn holds(&self, at: usize, count: usize, byte: u8) -> bool {
        are(self.memory.client(), at, count, byte)
    }
}
