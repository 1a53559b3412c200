//! What a line of a scenario asks for.

use crate::disk::Shape;
use crate::opening::{Opening, Setting, Sizes};
use fis_view::Bytes;
use guest_bytes::{FlatError, FlatGuest};
use std::alloc::Global;
use std::fs::OpenFile;
use std::io::{Read, Seek, Write};
use std::rt::Files;
use trace_text::{DiskFile, Failure, Keyword, Quantity, Refusal, Wanted, Words};

/// The most FISes that one line moves over the link.
const MOST_FISES: u64 = 1_000_000;

/// The most sectors of a disk in memory.
const MOST_SECTORS: u64 = 65_536;

/// The most sectors of a disk in a file.
const MOST_FILE_SECTORS: u64 = 0xFFFF_FFFF_FFFF;

/// The most bytes of a guest's memory.
const MOST_BYTES: u64 = 67_108_864;

/// What a line asks of the board once it is built.
#[derive(Drop)]
pub enum Action {
    /// To plug in the disk of this port.
    Came(u8),
    /// To pull the disk of this port.
    Gone(u8),
    /// To read the register at this offset.
    Read(u32),
    /// To write this value to the register at this offset.
    Write(u32, u32),
    /// To write these bytes to the guest's memory, from this address on.
    Put(u64, Bytes),
    /// To see this many bytes of the guest's memory, from this address on.
    Show(u64, u32),
    /// To move what can move, until more FISes than these would go over the link.
    Settle(u64),
    /// To see whether the interrupt line is up.
    Line,
}

impl<F: Read + Write + Seek + OpenFile + Drop> Setting<F> {
    /// Reads a line of this name, word by word; None if the name is not that of a setting.
    pub fn read<H: Files<File = F>>(
        files: &H,
        alloc: Global,
        name: &[u8],
        words: &mut Words<'_>,
        opening: &Opening<F>,
    ) -> Result<Option<Setting<F>>, Failure> {
        let setting = match name {
            b"ports" if opening.is_begun() => {
                return Err(words.refused(Refusal::Order, Wanted::PortsFirst));
            }
            b"memory" if opening.has_memory() => {
                return Err(words.refused(Refusal::Order, Wanted::OneMemory));
            }
            b"ports" => Setting::Ports(ports(words, opening.sizes())?),
            b"memory" => memory(alloc, words, opening.sizes())?,
            b"disk" => disk(files, alloc, words, opening)?,
            _ => return Ok(None),
        };
        words.end()?;
        Ok(Some(setting))
    }
}

/// The words after `ports`.
fn ports(words: &mut Words<'_>, sizes: Sizes) -> Result<Sizes, Failure> {
    let ports = words.number(Quantity::Ports, 1, 15)? as u8;
    let Sizes { base, len, .. } = sizes;
    Ok(Sizes { ports, base, len })
}

/// The words after `memory`: an address and how many bytes.
fn memory<F: Drop>(
    alloc: Global,
    words: &mut Words<'_>,
    sizes: Sizes,
) -> Result<Setting<F>, Failure> {
    let base = words.long_address()?;
    let len = words.number(Quantity::GuestBytes, 1, MOST_BYTES)? as u32;
    let ports = sizes.ports;
    match FlatGuest::new(alloc, base, len) {
        Ok(memory) => Ok(Setting::Memory(Sizes { ports, base, len }, memory)),
        Err(FlatError::PastEnd) => Err(words.refused_at(2, Refusal::Range, Wanted::LongAddress)),
        Err(FlatError::OutOfMemory) => Err(Failure::OutOfMemory),
    }
}

/// The words after `disk`.
fn disk<H: Files>(
    files: &H,
    alloc: Global,
    words: &mut Words<'_>,
    opening: &Opening<H::File>,
) -> Result<Setting<H::File>, Failure> {
    let port = free_port(words, opening)?;
    if words.takes(b"file") {
        let path = words.path()?;
        if opening.has_path(path) {
            return Err(words.refused(Refusal::File, Wanted::OtherFile));
        }
        let file = DiskFile::open(files, alloc, words, path, MOST_FILE_SECTORS)?;
        let shape = Shape::read(words, file.sectors(), Some(file))?;
        return Ok(Setting::Disk(port, shape));
    }
    words.keyword(Keyword::Sectors)?;
    let sectors = words.number(Quantity::Sectors, 1, MOST_SECTORS)?;
    Ok(Setting::Disk(port, Shape::read(words, sectors, None)?))
}

/// A port of whose disk no line has spoken.
fn free_port<F: Read + Write + Seek + OpenFile + Drop>(
    words: &mut Words<'_>,
    opening: &Opening<F>,
) -> Result<u8, Failure> {
    let port = words.port(opening.sizes().ports - 1)?;
    if opening.has_disk(port) {
        return Err(words.refused(Refusal::Order, Wanted::FreePort));
    }
    Ok(port)
}

impl Action {
    /// Reads a line of this name, word by word, for a board of the ports up to this one.
    pub fn read(
        alloc: Global,
        name: &[u8],
        words: &mut Words<'_>,
        last: u8,
    ) -> Result<Action, Failure> {
        let action = match name {
            b"came" => Action::Came(words.port(last)?),
            b"gone" => Action::Gone(words.port(last)?),
            b"mmio" => access(words)?,
            b"guest" => Action::Put(words.long_address()?, words.bytes(alloc)?),
            b"show" => Action::Show(
                words.long_address()?,
                words.number(Quantity::Length, 0, MOST_BYTES)? as u32,
            ),
            b"settle" => Action::Settle(fises(words)?),
            b"line" => Action::Line,
            b"ports" | b"memory" | b"disk" => {
                return Err(words.refused(Refusal::Order, Wanted::EarlierThanGuest));
            }
            _ => return Err(words.refused(Refusal::Command, Wanted::GuestLine)),
        };
        words.end()?;
        Ok(action)
    }
}

/// The words after `mmio`.
fn access(words: &mut Words<'_>) -> Result<Action, Failure> {
    match words.next_word() {
        Some(b"read") => Ok(Action::Read(words.controller_register()?)),
        Some(b"write") => Ok(Action::Write(
            words.controller_register()?,
            words.dword(Wanted::Value)?,
        )),
        _ => Err(words.refused(Refusal::Number, Wanted::Access)),
    }
}

/// The words after `settle`: how many FISes at most, or none.
fn fises(words: &mut Words<'_>) -> Result<u64, Failure> {
    if words.is_at_end() {
        return Ok(MOST_FISES);
    }
    words.number(Quantity::Fises, 1, MOST_FISES)
}
