mod kinds;
mod rows;
mod vectors;

ghost use Rattle.std.specs.Prelude.{◌↔◌, All, IsTrue};
ghost use Rattle.host_memory.specs.Writing.{CanBeWritten};

use fis_view::H2dFields;
use hba_commands::{Command, commands_are_of_their_bytes, pmp, write_command};
use host_memory::{HostMemory, MemoryError, Prd};
use slots::{Kind, Work};
use std::alloc::Global;
use std::marker::Model;

/// Where the command list of the tests begins.
const LIST: u32 = 0x1000;

/// A memory of 2 MiB. Clauses see it as a number, and its functions have no contract, so a test is proved with little
/// work.
#[derive(Drop)]
struct Rig {
    memory: HostMemory,
}

impl Model for Rig {
    ghost use Rattle.std.specs.Prelude.{ℕ};

    ghost Value = { ℕ };

    ghost view = { λ _. 0 };
}

fn can_be_written(prds: &[Prd]) -> bool
    ensures { IsTrue result ↔ All CanBeWritten prds.now }
{
    prds.iter()
        .all(|prd| 1 <= prd.bytes && prd.bytes <= 0x40_0000)
}

impl Rig {
    fn new(alloc: Global) -> Result<Rig, MemoryError> {
        Ok(Rig {
            memory: HostMemory::new(alloc, 0x20_0000)?,
        })
    }

    /// Writes a command whose table lies after the command list.
    fn writes(&mut self, slot: u8, table: u32, fields: &H2dFields, prds: &[Prd]) -> bool {
        let is_good = slot < 32
            && prds.len() <= 248
            && LIST + 0x400 <= table
            && u64::from(table) + 0x80 + 16 * prds.len() as u64 <= 0x10_0000;
        if is_good && can_be_written(prds) {
            write_command(&mut self.memory, LIST, slot, table, fields, prds);
            return true;
        }
        false
    }

    /// The command that is read in a slot.
    fn command(&self, slot: u8, armed: bool) -> Option<Command> {
        if slot < 32 {
            Command::read(&self.memory, LIST, slot, armed)
        } else {
            None
        }
    }

    /// The port multiplier port in the header of a slot.
    fn pmp(&self, slot: u8) -> Option<u8> {
        if slot < 32 {
            Some(pmp(self.memory.structure(), LIST, slot))
        } else {
            None
        }
    }

    /// The bytes of the structure area from this address on: so many, or none.
    fn bytes(&self, at: usize, count: usize) -> &[u8] {
        match self.memory.structure().get(at..) {
            Some(rest) => rest.get(..count).unwrap_or(&[]),
            None => &[],
        }
    }

    /// The byte at this address of the structure area becomes this one.
    fn put(&mut self, at: usize, byte: u8) {
        if let Some(place) = self.memory.structure_mut().get_mut(at) {
            *place = byte;
        }
    }
}

/// The fields of a FIS that writes the Command register, or with C 0 the Device Control register.
fn fields(pm_port: u8, c: bool, command: u8, features: u16, count: u16) -> H2dFields {
    H2dFields {
        pm_port,
        c,
        command,
        features,
        lba: 0x1234_5678_9ABC,
        device: 0x40,
        count,
        icc: 0,
        control: 8,
    }
}

/// Whether a slot has this command.
fn has(rig: &Rig, slot: u8, armed: bool, wanted: &Command) -> bool {
    match rig.command(slot, armed) {
        Some(command) => command == *wanted,
        None => false,
    }
}

#[test]
fn has_what_a_caller_needs(rt: HostRuntime) -> Result<(), MemoryError> {
    commands_are_of_their_bytes();
    let mut rig = Rig::new(rt.alloc())?;
    let given = fields(2, true, 0xE4, 0, 0);
    assert!(rt; rig.writes(0, 0x2000, &given, &[]) && rig.pmp(0) == Some(2));
    let work = Work {
        kind: Kind::NoData,
        len: 0,
    };
    let want = Command {
        work,
        cfis: given.bytes(),
        table: 0x2000,
        count: 0,
    };
    assert!(rt; has(&rig, 0, false, &want));
    Ok(())
}
