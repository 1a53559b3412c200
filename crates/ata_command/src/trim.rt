//! The ranges of sectors that TRIM names (ACS-3, 7.5, DATA SET MANAGEMENT).

ghost use Rattle.std.specs.Prelude.{◌≡◌, ◌*◌, ◌+◌, ◌/◌, ◌≤◌, IfOk, MatchOption, length, true, false};
ghost use Rattle.ata_command.specs.Trims.{entry, extents_in, is_past, is_past_in};

use byteorder::{ByteOrder, LittleEndian};
use std::alloc::{AllocError, Global};

/// Sectors that lie side by side.
#[derive(Clone, Copy, Debug, PartialEq, Eq)]
pub struct Extent {
    /// The first.
    pub lba: u64,
    /// How many, up to 65,535.
    pub count: u16,
}

/// The entry of this number.
fn entry(bytes: &[u8], at: usize) -> Extent
    requires { at * 8 + 8 ≤ length bytes.now }
    ensures { result ≡ entry bytes.now at }
{
    let qword = LittleEndian::read_u64(&bytes[at * 8..]);
    Extent {
        lba: qword % (1 << 48),
        count: (qword >> 48) as u16,
    }
}

/// Whether it has a sector that the disk does not have.
fn is_past(extent: Extent, sectors: u64) -> bool
    ensures { result ≡ is_past sectors extent }
{
    extent.count > 0 && (extent.lba > sectors || extent.count as u64 > sectors - extent.lba)
}

/// The extents that blocks of 64 entries name, each of 8 bytes, for a disk of so many sectors; an entry of no sectors names
/// none. None if an entry has a sector that the disk does not have: then nothing is trimmed.
#[tactic(auto, unfolding(crate::specs::Trims::extents_in, crate::specs::Trims::is_past_in))]
pub fn extents_of(
    alloc: Global,
    blocks: &[u8],
    sectors: u64,
) -> Result<Option<Vec<Extent>>, AllocError>
    ensures { IfOk result (λ extents. MatchOption extents (is_past_in blocks.now sectors (length blocks.now / 8) ≡ true)
        (λ all. (is_past_in blocks.now sectors (length blocks.now / 8) ≡ false)
        × (all.items ≡ extents_in blocks.now (length blocks.now / 8)))) }
{
    let mut extents = Vec::new(alloc);
    let mut past = false;
    for at in 0..blocks.len() / 8 {
        let extent = entry(blocks, at);
        past = past || is_past(extent, sectors);
        if extent.count > 0 {
            extents.push(extent)?;
        }
    }
    Ok(if past { None } else { Some(extents) })
}
