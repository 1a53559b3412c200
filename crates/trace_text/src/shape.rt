//! What a line says about a disk.

ghost use Rattle.std.specs.Prelude.{◌≡◌, ◌%◌, ◌≤◌, IfOk, true};
ghost use Rattle.disk_model.specs.Runs.{is_size};

use crate::failure::{Failure, Refusal};
use crate::input::LONGEST_LINE;
use crate::wanted::{Keyword, Quantity, Wanted};
use crate::words::Words;
use arrayvec::ArrayVec;
use disk_model::{Disk, DiskError, DiskPlan, Order, Profile};
use std::alloc::{AllocError, Global};

/// A disk that is not built yet.
#[derive(Drop)]
pub struct Shape {
    /// Sectors, 1 to 65,536, as every profile may have.
    pub sectors: u32,
    /// How it goes about its commands. A chunk is a multiple of 512 bytes, from 512 to 8,192.
    pub plan: DiskPlan,
    pub ghost has_size: { is_size plan.profile sectors plan.chunk ≡ true },
}

impl Shape {
    /// A disk about which nothing is said.
    pub fn plain() -> Shape {
        Shape {
            sectors: 16,
            plan: DiskPlan::plain(),
        }
    }

    /// The words about the disk at this port, which come after its number, to the end of the line.
    pub fn read(words: &mut Words<'_>, port: u8) -> Result<Shape, Failure> {
        words.keyword(Keyword::Sectors)?;
        let sectors = words.number(Quantity::Sectors, 1, 65_536)? as u32;
        Shape::of_size(words, port, sectors)
    }

    /// The words about the disk at this port that come after its size, to the end of the line.
    pub fn of_size(words: &mut Words<'_>, port: u8, sectors: u32) -> Result<Shape, Failure>
        requires some { 1 ≤ sectors }
        requires at_most { sectors ≤ 65536 }
    {
        let said = Said::read(words, sectors)?;
        let plan = DiskPlan {
            order: said.order.unwrap_or(Order::Oldest),
            chunk: chunk_bytes(said.chunk),
            last_first: said.is_last_first,
            bad: said.bad,
            auto: said.is_auto,
            profile: if said.is_stock {
                Profile::Stock(port as u32)
            } else {
                Profile::Bare
            },
        };
        Ok(Shape { sectors, plan })
    }

    /// The same disk, of which these sectors cannot be read either; None if they are too many.
    pub fn with_bad(self, unread: &[u32]) -> Option<Shape> {
        let Shape { sectors, plan } = self;
        let plan = DiskPlan {
            order: plan.order,
            chunk: plan.chunk,
            last_first: plan.last_first,
            bad: joined(plan.bad.as_slice(), unread)?,
            auto: plan.auto,
            profile: plan.profile,
        };
        Some(Shape { sectors, plan })
    }

    /// The disk.
    pub fn into_disk(self, alloc: Global) -> Result<Disk, AllocError> {
        let Shape { sectors, plan } = self;
        match Disk::new(alloc, sectors, plan) {
            Ok(disk) => Ok(disk),
            Err(DiskError::OutOfMemory) => Err(AllocError),
            Err(DiskError::BadSize) => unreachable!(),
        }
    }
}

/// All these sectors, each once; None if they are too many.
fn joined(bad: &[u32], unread: &[u32]) -> Option<ArrayVec<u32, 16>> {
    let mut all = ArrayVec::new();
    all.try_extend_from_slice(bad).ok()?;
    for lba in unread {
        if !all.contains(lba) {
            all.try_push(*lba).ok()?;
        }
    }
    Some(all)
}

/// The most bytes that one DMA Setup moves.
#[derive(Clone, Copy)]
struct Chunk {
    /// A multiple of 512, from 512 to 8,192.
    bytes: u16,
    ghost has_size: { (512 ≤ bytes) × (bytes ≤ 8192) × (bytes % 512 ≡ 0) },
}

/// The bytes that one DMA Setup moves at most, if this was said of it.
fn chunk_bytes(said: Option<Chunk>) -> u16
    ensures { (512 ≤ result) × (result ≤ 8192) × (result % 512 ≡ 0) }
{
    match said {
        Some(chunk) => chunk.bytes,
        None => 8192,
    }
}

/// The words of a line about a disk that come after its size.
#[derive(Drop)]
struct Said {
    order: Option<Order>,
    chunk: Option<Chunk>,
    is_last_first: bool,
    bad: ArrayVec<u32, 16>,
    is_auto: bool,
    is_stock: bool,
}

impl Said {
    /// None of them.
    fn nothing() -> Said {
        Said {
            order: None,
            chunk: None,
            is_last_first: false,
            bad: ArrayVec::new(),
            is_auto: false,
            is_stock: false,
        }
    }

    /// Those to the end of the line, in any order, about a disk of so many sectors.
    fn read(words: &mut Words<'_>, sectors: u32) -> Result<Said, Failure>
        requires some { 1 ≤ sectors }
    {
        let mut said = Said::nothing();
        for _ in 0..LONGEST_LINE {
            if words.is_at_end() {
                break;
            }
            said.add(words, sectors)?;
        }
        Ok(said)
    }

    /// Takes in the next one.
    fn add(&mut self, words: &mut Words<'_>, sectors: u32) -> Result<(), Failure>
        requires some { 1 ≤ sectors }
    {
        match words.next_word().unwrap_or(&[]) {
            b"order" if self.order.is_none() => self.order = Some(order(words)?),
            b"chunk" if self.chunk.is_none() => self.chunk = Some(chunk_size(words)?),
            b"lastfirst" if !self.is_last_first => self.is_last_first = true,
            b"bad" => self.add_bad(words, sectors)?,
            b"auto" if !self.is_auto => self.is_auto = true,
            b"stock" if !self.is_stock => self.is_stock = true,
            _ => return Err(words.refused(Refusal::Number, Wanted::Plan)),
        }
        Ok(())
    }

    /// Takes in one more sector that cannot be read, of at most 16.
    fn add_bad(&mut self, words: &mut Words<'_>, sectors: u32) -> Result<(), Failure>
        requires some { 1 ≤ sectors }
    {
        let sector = words.number(Quantity::BadSector, 0, u64::from(sectors - 1))? as u32;
        if self.bad.try_push(sector).is_err() {
            return Err(words.refused(Refusal::Range, Wanted::FewerBad));
        }
        Ok(())
    }
}

/// The word after `order`.
fn order(words: &mut Words<'_>) -> Result<Order, Failure> {
    match words.next_word() {
        Some(b"oldest") => Ok(Order::Oldest),
        Some(b"newest") => Ok(Order::Newest),
        _ => Err(words.refused(Refusal::Number, Wanted::Order)),
    }
}

/// The word after `chunk`.
fn chunk_size(words: &mut Words<'_>) -> Result<Chunk, Failure> {
    let bytes = words.number(Quantity::Chunk, 512, 8192)? as u16;
    if bytes % 512 != 0 {
        return Err(words.refused(Refusal::Range, Wanted::WholeSectors));
    }
    Ok(Chunk { bytes })
}
