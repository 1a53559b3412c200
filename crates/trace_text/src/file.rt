//! A file in which a disk has its sectors.

ghost use Rattle.std.specs.Prelude.{◌≡◌, ◌≤◌, IfOk, length};

use crate::failure::{Failure, Refusal};
use crate::wanted::Wanted;
use crate::words::Words;
use std::alloc::Global;
use std::fs::{OpenFile, OpenOptions};
use std::io::{Read, Seek, SeekFrom, Write};
use std::rt::Files;
use std::{io, str};

/// A file in which a disk has its sectors, of 512 bytes each. It is open for reads and writes, and keeps its size.
#[derive(Drop)]
pub struct DiskFile<F: Drop> {
    path: Vec<u8>,
    file: F,
    sectors: u64,
}

/// How many sectors a file has, if it has whole ones and the system says how many.
fn sectors_of<F: OpenFile>(file: &F) -> Option<u64> {
    let len = file.metadata().ok()?.len();
    if len % 512 == 0 {
        Some(len / 512)
    } else {
        None
    }
}

impl<F: Read + Write + Seek + OpenFile + Drop> DiskFile<F> {
    /// Opens the file of this path, which is the word that was taken last, to be read and written. One that cannot be
    /// opened, or has not 1 to `most` sectors, is `file`.
    pub fn open<H: Files<File = F>>(
        files: &H,
        alloc: Global,
        words: &Words<'_>,
        path: &[u8],
        most: u64,
    ) -> Result<DiskFile<F>, Failure>
        ensures within { IfOk result (λ file. (1 ≤ file.sectors) × (file.sectors ≤ most)) }
    {
        let refused = words.refused(Refusal::File, Wanted::DiskFile(most));
        let Ok(name) = str::from_utf8(path) else {
            return Err(refused);
        };
        let file = match OpenOptions::new().read(true).write(true).open(files, name) {
            Ok(file) => file,
            Err(error) if error.kind() == io::ErrorKind::OutOfMemory => {
                return Err(Failure::OutOfMemory);
            }
            Err(_) => return Err(refused),
        };
        let path = Vec::from_slice(alloc, path)?;
        match sectors_of(&file) {
            Some(sectors) if 1 <= sectors && sectors <= most => Ok(DiskFile {
                path,
                file,
                sectors,
            }),
            _ => Err(refused),
        }
    }

    /// Whether this is its path.
    pub fn has_path(&self, path: &[u8]) -> bool {
        self.path.as_slice() == path
    }

    /// How many sectors it has.
    pub fn sectors(&self) -> u64
        ensures { result ≡ self.now.sectors }
    {
        self.sectors
    }

    fn seek(&mut self, lba: u64) -> io::Result<u64> {
        self.file.seek(SeekFrom::Start(lba.saturating_mul(512)))
    }

    /// Reads a sector. After an error the room has arbitrary bytes.
    pub fn read(&mut self, lba: u64, room: &mut [u8]) -> io::Result<()>
        ensures long { length room.new ≡ length room.old }
    {
        self.seek(lba)?;
        self.file.read_exact(room)
    }

    /// Writes a sector. After an error any bytes may stand there.
    pub fn write(&mut self, lba: u64, bytes: &[u8]) -> io::Result<()> {
        self.seek(lba)?;
        self.file.write_all(bytes)
    }

    /// Has all that was written stay.
    pub fn sync(&mut self) -> io::Result<()> {
        self.file.sync_data()
    }
}
