//! The disks of a scenario: what a line says of one, and what one says of itself.

use crate::medium::Medium;
use arrayvec::ArrayVec;
use disk_pages::{Capacity, IdentityText, PhysicalSector, Profile, QueueDepth, Rotation};
use sata_disk::SataDisk;
use std::alloc::{AllocError, Global};
use std::fs::OpenFile;
use std::io::{Read, Seek, Write};
use trace_text::{DiskFile, Failure, LONGEST_LINE, Quantity, Refusal, Wanted, Words};

/// The sectors of a disk about which nothing is said.
const PLAIN_SECTORS: u64 = 16;

/// The most bytes of payload that a disk holds at a time.
const MOST_HELD: u32 = 16_777_216;

/// A disk that is not built yet.
#[derive(Drop)]
pub struct Shape<F: Drop> {
    pub sectors: u64,
    /// Sectors that cannot be read.
    pub bad: ArrayVec<u64, 16>,
    /// The file in which its sectors are, if there is one.
    pub file: Option<DiskFile<F>>,
}

impl<F: Read + Write + Seek + OpenFile + Drop> Shape<F> {
    /// A disk of so many sectors, which lie in memory or in this file.
    fn new(sectors: u64, file: Option<DiskFile<F>>) -> Shape<F> {
        Shape {
            sectors,
            bad: ArrayVec::new(),
            file,
        }
    }

    /// A disk about which nothing is said.
    pub fn plain() -> Shape<F> {
        Shape::new(PLAIN_SECTORS, None)
    }

    /// The words about a disk that come after its size, to the end of the line.
    pub fn read(
        words: &mut Words<'_>,
        sectors: u64,
        file: Option<DiskFile<F>>,
    ) -> Result<Shape<F>, Failure> {
        let mut shape = Shape::new(sectors, file);
        let mut is_stock = false;
        for _ in 0..LONGEST_LINE {
            if words.is_at_end() {
                break;
            }
            match words.next_word().unwrap_or(&[]) {
                b"bad" => shape.add_bad(words)?,
                b"stock" if !is_stock => is_stock = true,
                _ => return Err(words.refused(Refusal::Number, Wanted::GuestDisk)),
            }
        }
        Ok(shape)
    }

    /// Takes in one more sector that cannot be read, of at most 16.
    fn add_bad(&mut self, words: &mut Words<'_>) -> Result<(), Failure> {
        let last = self.sectors.saturating_sub(1);
        let sector = words.number(Quantity::BadSector, 0, last)?;
        if self.bad.try_push(sector).is_err() {
            return Err(words.refused(Refusal::Range, Wanted::FewerBad));
        }
        Ok(())
    }

    /// Whether its sectors are in the file of this path.
    pub fn has_path(&self, path: &[u8]) -> bool {
        match &self.file {
            Some(file) => file.has_path(path),
            None => false,
        }
    }

    /// The disk of a port, and where its sectors are.
    pub fn into_disk(self, alloc: Global, port: u8) -> Result<Built<F>, AllocError> {
        let profile = profile(alloc, port, self.sectors)?;
        Ok(Built {
            disk: SataDisk::new(alloc, profile, MOST_HELD)?,
            medium: Medium::new(alloc, self)?,
        })
    }
}

/// A disk, and where its sectors are.
#[derive(Drop)]
pub struct Built<F: Drop> {
    pub disk: SataDisk,
    pub medium: Medium<F>,
}

/// A text that is printable and fits, so that nothing but memory is refused.
fn text<const N: usize>(text: &str) -> Result<IdentityText<N>, AllocError> {
    match IdentityText::new(text) {
        Ok(text) => Ok(text),
        Err(_) => Err(AllocError),
    }
}

/// What the disk of a port says of itself. It has a size that a disk may have.
fn profile(alloc: Global, port: u8, sectors: u64) -> Result<Profile, AllocError> {
    let (Ok(capacity), Ok(depth)) = (Capacity::new(sectors), QueueDepth::new(32)) else {
        return Err(AllocError);
    };
    let serial = format!(in alloc; "GEFSUNK-0000{port:08x}")?;
    Ok(Profile {
        model: text("GEFSUNK DISK")?,
        serial: text(serial.as_str())?,
        firmware: text("1.0")?,
        wwn: None,
        capacity,
        depth,
        rotation: Rotation::Solid,
        physical: PhysicalSector::Bytes512,
        trim: false,
    })
}
