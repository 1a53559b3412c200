//! The files in which disks of a world have their sectors.

use crate::failure::{Failure, Refusal};
use crate::file::DiskFile;
use crate::shape::Shape;
use crate::wanted::Wanted;
use crate::words::Words;
use arrayvec::ArrayVec;
use disk_model::Disk;
use std::alloc::{AllocError, Global};
use std::fs::OpenFile;
use std::io;
use std::io::{Read, Seek, Write};
use std::rt::Files;

/// The most sectors of a disk of a world.
const MOST_SECTORS: u64 = 65_536;

/// A disk that is not built yet, and its file.
#[derive(Drop)]
pub struct Filed<F: Drop> {
    pub shape: Shape,
    pub file: WorldFile<F>,
}

/// The file of a disk of a world.
#[derive(Drop)]
pub struct WorldFile<F: Drop> {
    file: DiskFile<F>,
    sectors: u32,
    /// Its sectors that could not be read when it was opened.
    unread: ArrayVec<u32, 16>,
}

/// The words about the disk at this port that come after its number, to the end of the line, where they begin with
/// `file` and a path. A file that cannot be opened to be read and written, that no disk can have, or that one of these
/// has, is `file`. Sectors that cannot be read are bad ones of the disk.
pub fn read_filed<H: Files>(
    files: &H,
    alloc: Global,
    words: &mut Words<'_>,
    port: u8,
    media: &Media<H::File>,
) -> Result<Filed<H::File>, Failure> {
    let _file = words.next_word();
    let path = words.path()?;
    if media.has_path(path) {
        return Err(words.refused(Refusal::File, Wanted::OtherFile));
    }
    let mut file = DiskFile::open(files, alloc, words, path, MOST_SECTORS)?;
    let sectors = file.sectors() as u32;
    let Some(unread) = unread_of(&mut file, sectors) else {
        return Err(words.refused(Refusal::File, Wanted::DiskFile(MOST_SECTORS)));
    };
    let shape = Shape::of_size(words, port, sectors)?;
    match shape.with_bad(unread.as_slice()) {
        Some(shape) => Ok(Filed {
            shape,
            file: WorldFile {
                file,
                sectors,
                unread,
            },
        }),
        None => Err(words.refused(Refusal::Range, Wanted::FewerBad)),
    }
}

/// Those of so many sectors of a file that cannot be read; None if they are more than a disk can have bad ones.
fn unread_of<F: Read + Write + Seek + OpenFile + Drop>(
    file: &mut DiskFile<F>,
    sectors: u32,
) -> Option<ArrayVec<u32, 16>> {
    let mut unread = ArrayVec::new();
    let mut room = [0; 512];
    for lba in 0..sectors {
        if file.read(u64::from(lba), &mut room).is_err() {
            unread.try_push(lba).ok()?;
        }
    }
    Some(unread)
}

impl<F: Read + Write + Seek + OpenFile + Drop> WorldFile<F> {
    /// Whether a sector could not be read.
    fn is_unread(&self, lba: u32) -> bool {
        self.unread.contains(&lba)
    }

    /// All sectors, with zeros for those that could not be read.
    fn read_all(&mut self, alloc: Global) -> Result<Vec<u8>, io::Error> {
        let mut bytes = Vec::new(alloc);
        for lba in 0..self.sectors {
            let mut room = [0; 512];
            if !self.is_unread(lba) {
                self.file.read(u64::from(lba), &mut room)?;
            }
            bytes.extend_from_slice(&room)?;
        }
        Ok(bytes)
    }

    /// Whether the file has these bytes as a sector, and they can be read.
    fn is_at(&mut self, lba: u32, bytes: &[u8]) -> bool {
        let mut room = [0; 512];
        self.file.read(u64::from(lba), &mut room).is_ok() && room.as_slice() == bytes
    }

    /// A sector of the disk goes to the file, if it stands otherwise there. One that could not be read stays as it is
    /// there, until something else than zeros was written to it.
    fn save_one(&mut self, lba: u32, bytes: &[u8]) -> io::Result<()> {
        let is_blank = bytes.iter().all(|byte| *byte == 0);
        if self.is_unread(lba) && is_blank || self.is_at(lba, bytes) {
            return Ok(());
        }
        self.file.write(u64::from(lba), bytes)
    }

    /// The sectors of the disk that changed go to the file, and stay there.
    fn save(&mut self, disk: &Disk) -> io::Result<()> {
        for lba in 0..self.sectors {
            if let Some(bytes) = disk.sector(lba) {
                self.save_one(lba, bytes)?;
            }
        }
        self.file.sync()
    }
}

/// The files of the disks of a world, as far as they have one.
#[derive(Drop)]
pub struct Media<F: Drop> {
    /// By port. There is none past the last of them.
    files: Vec<Option<WorldFile<F>>>,
}

impl<F: Read + Write + Seek + OpenFile + Drop> Media<F> {
    /// No disk has a file.
    pub fn new(alloc: Global) -> Media<F> {
        Media {
            files: Vec::new(alloc),
        }
    }

    /// The disk at this port has its sectors in this file.
    pub fn set(&mut self, port: u8, file: WorldFile<F>) -> Result<(), AllocError> {
        let port = usize::from(port);
        if self.files.len() <= port {
            self.files.resize_with(port + 1, || None)?;
        }
        self.files[port] = Some(file);
        Ok(())
    }

    /// Whether a disk has the file of this path.
    fn has_path(&self, path: &[u8]) -> bool {
        self.files.iter().any(|file| match file {
            Some(file) => file.file.has_path(path),
            None => false,
        })
    }

    /// Whether the disk at this port has a file.
    pub fn has(&self, port: u8) -> bool {
        matches!(self.files.get(usize::from(port)), Some(Some(_)))
    }

    /// The file of the disk at this port, if it has one.
    fn at(&mut self, port: u8) -> Option<&mut WorldFile<F>> {
        match self.files.get_mut(usize::from(port)) {
            Some(Some(file)) => Some(file),
            _ => None,
        }
    }

    /// The disk at this port, which is new, gets the sectors of its file, if it has one.
    pub fn load(&mut self, alloc: Global, port: u8, disk: &mut Disk) -> Result<(), Failure> {
        let Some(file) = self.at(port) else {
            return Ok(());
        };
        let sectors = match file.read_all(alloc) {
            Ok(sectors) => sectors,
            Err(error) if error.kind() == io::ErrorKind::OutOfMemory => {
                return Err(Failure::OutOfMemory);
            }
            Err(_) => return Err(Failure::DiskFile { port }),
        };
        match disk.renew(sectors) {
            Ok(()) => Ok(()),
            Err(_) => Err(Failure::DiskFile { port }),
        }
    }

    /// The sectors of the disk at this port that changed go to its file, if it has one, and stay there.
    pub fn save(&mut self, port: u8, disk: &Disk) -> io::Result<()> {
        match self.at(port) {
            Some(file) => file.save(disk),
            None => Ok(()),
        }
    }
}
