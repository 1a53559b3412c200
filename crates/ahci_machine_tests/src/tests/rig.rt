//! A guest with a memory, and media that answer.

use ahci_controller::Width;
use ahci_machine::{GuestRead, Machine, MediumId, Request, Told, Unit};
use block_engine::{Answer, ErrorKind, Failure, What};
use disk_pages::{Capacity, IdentityText, PhysicalSector, Profile, QueueDepth, Rotation};
use sata_disk::SataDisk;
use std::alloc::{AllocError, Global};
use std::marker::Model;
use std::test::Fail;

/// The sectors of each medium.
pub const SECTORS: u64 = 64;

/// The machine, its guest's memory, and the media of its ports, one behind the other.
#[derive(Drop)]
pub struct Rig {
    alloc: Global,
    machine: Machine,
    memory: Vec<u8>,
    media: Vec<u8>,
    line: bool,
    early: bool,
    refused: Option<Told>,
}

impl Model for Rig {
    ghost use Rattle.std.specs.Prelude.{ℕ};

    ghost Value = { ℕ };

    ghost view = { λ _. 0 };
}

/// What a disk of so many sectors says of itself.
fn profile() -> Result<Profile, Fail> {
    let Ok(model) = IdentityText::new("GEFSUNK") else {
        return Err(Fail::from("model"));
    };
    let Ok(serial) = IdentityText::new("1") else {
        return Err(Fail::from("serial"));
    };
    let Ok(firmware) = IdentityText::new("1") else {
        return Err(Fail::from("firmware"));
    };
    let Ok(capacity) = Capacity::new(SECTORS) else {
        return Err(Fail::from("capacity"));
    };
    let Ok(depth) = QueueDepth::new(32) else {
        return Err(Fail::from("depth"));
    };
    Ok(Profile {
        model,
        serial,
        firmware,
        wwn: None,
        capacity,
        depth,
        rotation: Rotation::Unknown,
        physical: PhysicalSector::Bytes512,
        trim: true,
    })
}

/// A byte of a medium: each sector has its own.
fn pattern(at: usize) -> u8 {
    ((at / 512 * 7 + at % 512) & 0xFF) as u8
}

/// The media of so many ports.
fn media(alloc: Global, count: u8) -> Result<Vec<u8>, AllocError> {
    let mut media = Vec::new(alloc);
    for at in 0..usize::from(count) * 32_768 {
        media.push(pattern(at))?;
    }
    Ok(media)
}

/// The memory of a guest.
fn memory(alloc: Global) -> Result<Vec<u8>, AllocError> {
    let mut memory = Vec::new(alloc);
    memory.resize(0x10_0000, 0)?;
    Ok(memory)
}

/// A disk.
fn disk(alloc: Global) -> Result<SataDisk, Fail> {
    let profile = profile()?;
    Ok(SataDisk::new(alloc, profile, 1_048_576)?)
}

/// A disk comes to a port.
fn comes(alloc: Global, machine: &mut Machine, port: u8) -> Result<(), Fail> {
    let disk = disk(alloc)?;
    let _ = machine.put(port, Unit::Disk(disk));
    let _ = machine.plug(port);
    Ok(())
}

/// A disk comes to each of so many ports.
fn come(alloc: Global, machine: &mut Machine, count: u8) -> Result<(), Fail> {
    for port in 0..count {
        comes(alloc, machine, port)?;
    }
    Ok(())
}

impl Rig {
    /// With this many ports, a disk at each, and port 0 open.
    pub fn new(alloc: Global, ports: u8) -> Result<Rig, Fail> {
        let count = if ports == 0 { 1 } else { ports };
        let media = media(alloc, count)?;
        let memory = memory(alloc)?;
        let mut rig = Rig {
            alloc,
            machine: Machine::new(alloc, ports, true)?,
            memory,
            media,
            line: false,
            early: false,
            refused: None,
        };
        come(alloc, &mut rig.machine, count)?;
        Ok(rig)
    }

    fn supply(&mut self, read: GuestRead) -> Result<(), AllocError> {
        let at = read.at as usize;
        let end = at.saturating_add(read.len);
        let told = match self.memory.get(at..end) {
            Some(bytes) => self.machine.supply(self.alloc, read.wanted, bytes)?,
            None => self.machine.no_memory(read.wanted)?,
        };
        match told {
            Told::NotTaken { .. } | Told::Missed { .. } => self.refused = Some(told),
            Told::Stale | Told::Kept | Told::Issued { .. } => {}
        }
        Ok(())
    }

    /// What the machine said last of a command that it does not take, or cannot serve.
    pub fn refused(&self) -> Option<Told> {
        self.refused
    }

    fn write(&mut self, at: u64) {
        let bytes = self.machine.lent();
        let at = at as usize;
        let end = at.saturating_add(bytes.len());
        if let Some(place) = self.memory.as_mut_slice().get_mut(at..end) {
            if place.len() == bytes.len() {
                place.copy_from_slice(bytes);
            }
        }
    }

    /// Where sectors of a port's medium lie.
    fn span(port: u8, lba: u64, count: u32) -> (usize, usize) {
        let from = (usize::from(port) * 32_768).wrapping_add((lba as usize).wrapping_mul(512));
        (
            from,
            from.saturating_add((count as usize).wrapping_mul(512)),
        )
    }

    fn load(&mut self, id: MediumId, lba: u64, count: u32) -> Result<(), AllocError> {
        let (from, end) = Rig::span(id.port, lba, count);
        let answer = match self.media.get(from..end) {
            Some(bytes) => Answer::Loaded(Vec::from_slice(self.alloc, bytes)?),
            None => Answer::Failed(Failure {
                error: ErrorKind::NotFound,
                lba,
            }),
        };
        let _ = self.machine.answer(id, answer);
        Ok(())
    }

    fn store(&mut self, id: MediumId, place: Option<u8>, lba: u64, count: u32) {
        let (from, end) = Rig::span(id.port, lba, count);
        if let (Some(bytes), Some(medium)) = (
            self.machine.stored(id, place.unwrap_or(33)),
            self.media.as_mut_slice().get_mut(from..end),
        ) {
            if bytes.len() == medium.len() {
                medium.copy_from_slice(bytes);
            }
        }
        let _ = self.machine.answer(id, Answer::Done);
    }

    /// Does what the machine asks next. Whether it asked for something.
    fn turn(&mut self) -> Result<bool, Fail> {
        match self.machine.next(self.alloc)? {
            Request::Nothing => return Ok(false),
            Request::Again | Request::Message | Request::ToDevice(_) | Request::Begins(_) => {}
            Request::ReadGuest(read) => self.supply(read)?,
            Request::WriteGuest { at } => self.write(at),
            Request::Medium { id, place, what } => match what {
                What::Load { lba, count } => self.load(id, lba, count)?,
                What::Store { lba, count } => self.store(id, place, lba, count),
                What::Flush | What::Discard => {
                    let _ = self.machine.answer(id, Answer::Done);
                }
            },
            Request::Line(line) => {
                self.early = self.early || line && self.machine.incoming().is_some();
                self.line = line;
            }
        }
        Ok(true)
    }

    /// Does all that it asks. Whether it came to rest.
    pub fn settle(&mut self) -> Result<bool, Fail> {
        for _ in 0..10_000 {
            if !self.turn()? {
                return Ok(true);
            }
        }
        Ok(false)
    }

    /// The guest writes a register, and all is done that follows.
    pub fn writes(&mut self, offset: u32, value: u32) -> Result<bool, Fail> {
        self.machine.write(offset, Width::Dword, u64::from(value));
        self.settle()
    }

    /// The guest writes these registers. Whether the machine came to rest each time.
    pub fn write_all(&mut self, rows: &[(u32, u32)]) -> Result<bool, Fail> {
        for (offset, value) in rows {
            if !self.writes(*offset, *value)? {
                return Ok(false);
            }
        }
        Ok(true)
    }

    /// What a register reads.
    pub fn reads(&self, offset: u32) -> u32 {
        self.machine.read(offset, Width::Dword) as u32
    }

    /// The interrupt line.
    pub fn line(&self) -> bool {
        self.line
    }

    /// Whether the line rose while something of a frame was still to be written.
    pub fn rose_early(&self) -> bool {
        self.early
    }

    /// Writes bytes to the guest's memory.
    pub fn fills(&mut self, at: usize, bytes: &[u8]) {
        if let Some(place) = self
            .memory
            .as_mut_slice()
            .get_mut(at..at.saturating_add(bytes.len()))
        {
            if place.len() == bytes.len() {
                place.copy_from_slice(bytes);
            }
        }
    }

    /// Bytes of the guest's memory.
    pub fn holds(&self, at: usize, len: usize) -> &[u8] {
        self.memory.get(at..at.saturating_add(len)).unwrap_or(&[])
    }

    /// A byte of a medium.
    pub fn stores(&self, port: u8, at: usize) -> Option<u8> {
        self.media
            .get((usize::from(port) * 32_768).saturating_add(at))
            .copied()
    }
}
