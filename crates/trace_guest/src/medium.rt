//! Where the sectors of a disk are.

use crate::disk::Shape;
use arrayvec::ArrayVec;
use block_engine::{Answer, ErrorKind, Failure};
use std::alloc::{AllocError, Global};
use std::fs::OpenFile;
use std::io::{Read, Seek, Write};
use trace_text::DiskFile;

/// The bytes of a sector.
const SECTOR: usize = 512;

/// Where sectors are.
#[derive(Drop)]
enum Place<F: Drop> {
    /// In memory, one behind the other.
    Memory(Vec<u8>),
    /// In a file.
    File(DiskFile<F>),
}

/// Where the sectors of a disk are, and which of them cannot be read.
#[derive(Drop)]
pub struct Medium<F: Drop> {
    place: Place<F>,
    bad: ArrayVec<u64, 16>,
}

/// Sectors in memory: byte i of sector L is (L + i) mod 256.
fn fresh(alloc: Global, sectors: u64) -> Result<Vec<u8>, AllocError> {
    let mut bytes = Vec::new(alloc);
    for lba in 0..sectors {
        for i in 0..SECTOR as u64 {
            bytes.push((lba.wrapping_add(i) % 256) as u8)?;
        }
    }
    Ok(bytes)
}

/// Where a sector begins in memory.
fn start_of(lba: u64) -> usize {
    (lba as usize).saturating_mul(SECTOR)
}

/// Puts a sector over what begins there, if all of that is there.
fn put(bytes: &mut Vec<u8>, start: usize, sector: &[u8]) -> bool {
    if start > bytes.len() || sector.len() > bytes.len() - start {
        return false;
    }
    bytes[start..start + sector.len()].copy_from_slice(sector);
    true
}

/// A load fails at a sector, which cannot be read.
fn unreadable(lba: u64) -> Answer {
    Answer::Failed(Failure {
        error: ErrorKind::Uncorrectable,
        lba,
    })
}

/// A request cannot be done, from a sector on.
pub fn aborted(lba: u64) -> Answer {
    Answer::Failed(Failure {
        error: ErrorKind::Aborted,
        lba,
    })
}

impl<F: Read + Write + Seek + OpenFile + Drop> Place<F> {
    /// Reads a sector. Says whether it could be read.
    fn read(&mut self, lba: u64, room: &mut [u8; SECTOR]) -> bool {
        match self {
            Place::File(file) => file.read(lba, room).is_ok(),
            Place::Memory(bytes) => {
                let start = start_of(lba);
                match bytes.get(start..start.saturating_add(SECTOR)) {
                    Some(sector) if sector.len() == SECTOR => {
                        room.copy_from_slice(sector);
                        true
                    }
                    _ => false,
                }
            }
        }
    }

    /// Writes a sector. Says whether it could be written.
    fn write(&mut self, lba: u64, sector: &[u8]) -> bool {
        match self {
            Place::File(file) => file.write(lba, sector).is_ok(),
            Place::Memory(bytes) => put(bytes, start_of(lba), sector),
        }
    }
}

impl<F: Read + Write + Seek + OpenFile + Drop> Medium<F> {
    /// That of a disk.
    pub fn new(alloc: Global, shape: Shape<F>) -> Result<Medium<F>, AllocError> {
        let Shape { sectors, bad, file } = shape;
        let place = match file {
            Some(file) => Place::File(file),
            None => Place::Memory(fresh(alloc, sectors)?),
        };
        Ok(Medium { place, bad })
    }

    /// The answer to a load.
    pub fn load(&mut self, alloc: Global, lba: u64, count: u32) -> Result<Answer, AllocError> {
        let mut bytes = Vec::new(alloc);
        for lba in lba..lba.saturating_add(u64::from(count)) {
            let mut room = [0; SECTOR];
            if self.bad.contains(&lba) || !self.place.read(lba, &mut room) {
                return Ok(unreadable(lba));
            }
            bytes.extend_from_slice(&room)?;
        }
        Ok(Answer::Loaded(bytes))
    }

    /// The answer to a store of these bytes.
    pub fn store(&mut self, lba: u64, count: u32, bytes: &[u8]) -> Answer {
        let mut rest = bytes;
        for lba in lba..lba.saturating_add(u64::from(count)) {
            let Some((sector, others)) = rest.split_at_checked(SECTOR) else {
                return aborted(lba);
            };
            if !self.place.write(lba, sector) {
                return aborted(lba);
            }
            rest = others;
        }
        Answer::Done
    }

    /// The answer to a flush.
    pub fn flush(&mut self) -> Answer {
        let synced = match &mut self.place {
            Place::File(file) => file.sync(),
            Place::Memory(_) => Ok(()),
        };
        match synced {
            Ok(()) => Answer::Done,
            Err(_) => aborted(0),
        }
    }
}
