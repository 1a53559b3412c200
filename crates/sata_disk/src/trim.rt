//! The ranges of a DATA SET MANAGEMENT.

ghost use Rattle.std.specs.Prelude.{◌≡◌, IfOk, map};
ghost use Rattle.std.specs.Option.{option_map};
ghost use Rattle.sata_disk.specs.Hearing.{range_of, ranges_of};

use ata_command::{Extent, extents_of};
use block_engine::Range;
use std::alloc::{AllocError, Global};

/// The sectors of an extent.
fn range_of(extent: &Extent) -> Range
    ensures { result ≡ range_of extent.now }
{
    Range {
        lba: extent.lba,
        count: extent.count as u32,
    }
}

/// The sectors of extents.
fn ranges(alloc: Global, extents: &[Extent]) -> Result<Vec<Range>, AllocError>
    ensures { IfOk result (λ ranges. ranges.items ≡ map range_of extents.now) }
{
    let mut ranges = Vec::with_capacity(alloc, extents.len())?;
    for extent in extents {
        ranges.push(range_of(extent))?;
    }
    Ok(ranges)
}

/// The ranges that so many blocks name, for a disk of so many sectors. None if other bytes came, or if a sector is not there.
pub(crate) fn ranges_of(
    alloc: Global,
    bytes: &[u8],
    blocks: u16,
    sectors: u64,
) -> Result<Option<Vec<Range>>, AllocError>
    ensures { IfOk result (λ named. option_map (λ ranges. ranges.items) named ≡ ranges_of blocks sectors bytes.now) }
{
    if bytes.len() != blocks as usize * 512 {
        return Ok(None);
    }
    match extents_of(alloc, bytes, sectors)? {
        None => Ok(None),
        Some(extents) => Ok(Some(ranges(alloc, &extents)?)),
    }
}
