//! A disk, as C describes it.

ghost use Rattle.std.specs.Prelude.{◌≡◌, IfErr, IfOk, None, Ok, Some};
ghost use Rattle.std.specs.Result.{IsErr};
ghost use Rattle.disk_pages.specs.Texts.{text_of};
ghost use Rattle.disk_pages.specs.Profiles.{depth_of};
ghost use Rattle.gefsunk.specs.Profiles.{IsBadText, IsProfile, MakesDisk, ProfileRefused, physical_of, rotation_of};

use crate::status::Status;
use disk_pages::{Capacity, IdentityText, PhysicalSector, Profile, QueueDepth, Rotation, Rpm};
use sata_disk::SataDisk;
use std::alloc::Global;

/// The fewest bytes by which the commands of a disk may be bounded: those of one command's part.
const LEAST_LIMIT: u32 = 1_048_576;

/// What C says of a disk, but for its texts.
#[repr(C)]
#[derive(Clone, Copy, Debug, PartialEq, Eq)]
pub struct DiskNumbers {
    /// How many sectors it has.
    pub sectors: u64,
    /// Its world wide name, 0 for none.
    pub wwn: u64,
    /// The bytes of a physical sector: 512 or 4,096.
    pub physical: u32,
    /// 0: nothing is said of it. 1: the medium does not turn. Else its turns a minute.
    pub rotation: u32,
    /// How many queued commands it takes.
    pub depth: u32,
    /// Whether it takes TRIM, where this is not 0.
    pub trim: u32,
    /// The most bytes that its commands hold.
    pub limit: u32,
}

fn text<const N: usize>(bytes: &[u8]) -> Result<IdentityText<N>, Status>
    ensures is { IfOk result (λ text. text_of N bytes.now ≡ Ok text) }
    ensures refused { IfErr result (λ e. (e ≡ Status.BadText) × IsBadText N bytes.now) }
{
    let Ok(text) = str::from_utf8(bytes) else {
        return Err(Status::BadText);
    };
    match IdentityText::new(text) {
        Ok(text) => Ok(text),
        Err(_) => Err(Status::BadText),
    }
}

fn rotation(number: u32) -> Result<Rotation, Status>
    ensures { result ≡ rotation_of number }
{
    if number == 0 {
        return Ok(Rotation::Unknown);
    }
    if number == 1 {
        return Ok(Rotation::Solid);
    }
    if number > 0xFFFF {
        return Err(Status::BadRotation);
    }
    match Rpm::new(number as u16) {
        Ok(rpm) => Ok(Rotation::Rotates(rpm)),
        Err(_) => Err(Status::BadRotation),
    }
}

fn physical(bytes: u32) -> Result<PhysicalSector, Status>
    ensures is { IfOk result (λ p. physical_of bytes ≡ Some p) }
    ensures refused { IfErr result (λ e. (e ≡ Status.BadPhysical) × (physical_of bytes ≡ None)) }
{
    match bytes {
        512 => Ok(PhysicalSector::Bytes512),
        4096 => Ok(PhysicalSector::Bytes4096),
        _ => Err(Status::BadPhysical),
    }
}

fn depth(commands: u32) -> Result<QueueDepth, Status>
    ensures is { IfOk result (λ d. depth_of commands ≡ Ok d) }
    ensures refused { IfErr result (λ e. (e ≡ Status.BadDepth) × IsErr (depth_of commands)) }
{
    if commands > 32 {
        return Err(Status::BadDepth);
    }
    match QueueDepth::new(commands as u8) {
        Ok(depth) => Ok(depth),
        Err(_) => Err(Status::BadDepth),
    }
}

/// What C says of a disk in words.
#[derive(Drop)]
pub struct DiskTexts<'a> {
    /// The model number.
    pub model: &'a [u8],
    /// The serial number.
    pub serial: &'a [u8],
    /// The firmware revision.
    pub firmware: &'a [u8],
}

fn profile(numbers: &DiskNumbers, texts: &DiskTexts<'_>) -> Result<Profile, Status>
    ensures is { IfOk result (λ p. IsProfile numbers.now texts.now.model.now texts.now.serial.now texts.now.firmware.now p) }
    ensures refused { IfErr result (λ e. ProfileRefused numbers.now texts.now.model.now texts.now.serial.now
        texts.now.firmware.now e) }
{
    let Ok(capacity) = Capacity::new(numbers.sectors) else {
        return Err(Status::BadSectors);
    };
    Ok(Profile {
        model: text(texts.model)?,
        serial: text(texts.serial)?,
        firmware: text(texts.firmware)?,
        wwn: (numbers.wwn != 0).then_some(numbers.wwn),
        capacity,
        depth: depth(numbers.depth)?,
        rotation: rotation(numbers.rotation)?,
        physical: physical(numbers.physical)?,
        trim: numbers.trim != 0,
    })
}

/// A disk, if there can be one like this.
pub fn new_disk(
    alloc: Global,
    numbers: &DiskNumbers,
    texts: &DiskTexts<'_>,
) -> Result<SataDisk, Status>
    ensures makes { IfOk result (λ d. MakesDisk numbers.now texts.now.model.now texts.now.serial.now texts.now.firmware.now d) }
    ensures refused { IfErr result (λ e. ProfileRefused numbers.now texts.now.model.now texts.now.serial.now
        texts.now.firmware.now e) }
{
    let profile = profile(numbers, texts)?;
    if numbers.limit < LEAST_LIMIT {
        return Err(Status::BadLimit);
    }
    match SataDisk::new(alloc, profile, numbers.limit) {
        Ok(disk) => Ok(disk),
        Err(_) => Err(Status::NoMemory),
    }
}
