//! What a disk is as words, and back.

ghost use Rattle.std.specs.Prelude.{◌≤◌, ◌<◌};
ghost use Rattle.saved_state.specs.State.{number_apart, put_number};
ghost use Rattle.disk_pages.specs.Saved.{IsCapacity, IsDepth, IsSpeed, KeepsProfile, KeepsRotation, physical_apart, profile_apart, put_physical, put_profile, put_rotation, rotation_apart};

use super::{Capacity, PhysicalSector, Profile, QueueDepth, Rotation, Rpm};
use crate::text::{FirmwareRevision, ModelNumber, SerialNumber};
use saved_state::{RestoreError, Saved, Words};
use std::alloc::{AllocError, Global};

type Texts = (ModelNumber, SerialNumber, FirmwareRevision);

type Numbers = (Option<u64>, Capacity, QueueDepth);

type Medium = (Rotation, PhysicalSector, bool);

impl Saved for Capacity {
    ghost put = { put_number };

    ghost keeps = { IsCapacity };

    ghost told_apart = { λ a b x y k l e. number_apart a b x y e };

    fn save(&self, words: &mut Words) -> Result<(), AllocError> {
        self.sectors.save(words)
    }

    fn restore(alloc: Global, words: &mut Words) -> Result<Capacity, RestoreError> {
        let sectors = u64::restore(alloc, words)?;
        match Capacity::new(sectors) {
            Ok(capacity) => Ok(capacity),
            Err(_) => Err(RestoreError::Broken),
        }
    }
}

impl Saved for QueueDepth {
    ghost put = { put_number };

    ghost keeps = { IsDepth };

    ghost told_apart = { λ a b x y k l e. number_apart a b x y e };

    fn save(&self, words: &mut Words) -> Result<(), AllocError> {
        self.commands.save(words)
    }

    fn restore(alloc: Global, words: &mut Words) -> Result<QueueDepth, RestoreError> {
        let commands = u8::restore(alloc, words)?;
        match QueueDepth::new(commands) {
            Ok(depth) => Ok(depth),
            Err(_) => Err(RestoreError::Broken),
        }
    }
}

impl Saved for Rpm {
    ghost put = { put_number };

    ghost keeps = { IsSpeed };

    ghost told_apart = { λ a b x y k l e. number_apart a b x y e };

    fn save(&self, words: &mut Words) -> Result<(), AllocError> {
        self.turns.save(words)
    }

    fn restore(alloc: Global, words: &mut Words) -> Result<Rpm, RestoreError> {
        let turns = u16::restore(alloc, words)?;
        match Rpm::new(turns) {
            Ok(rpm) => Ok(rpm),
            Err(_) => Err(RestoreError::Broken),
        }
    }
}

impl Saved for Rotation {
    ghost put = { put_rotation };

    ghost keeps = { KeepsRotation };

    ghost told_apart = { rotation_apart };

    fn save(&self, words: &mut Words) -> Result<(), AllocError> {
        match self {
            Rotation::Unknown => words.push(1),
            Rotation::Solid => words.push(2),
            Rotation::Rotates(rpm) => {
                rpm.save(words)?;
                words.push(3)
            }
        }
    }

    fn restore(alloc: Global, words: &mut Words) -> Result<Rotation, RestoreError> {
        match words.pop().ok_or(RestoreError::Short)? {
            1 => Ok(Rotation::Unknown),
            2 => Ok(Rotation::Solid),
            3 => Ok(Rotation::Rotates(Rpm::restore(alloc, words)?)),
            _ => Err(RestoreError::NoSuch),
        }
    }
}

impl Saved for PhysicalSector {
    ghost put = { put_physical };

    ghost keeps = { λ _. Unit {0} };

    ghost told_apart = { physical_apart };

    fn save(&self, words: &mut Words) -> Result<(), AllocError> {
        words.push(match self {
            PhysicalSector::Bytes512 => 1,
            PhysicalSector::Bytes4096 => 2,
        })
    }

    fn restore(_alloc: Global, words: &mut Words) -> Result<PhysicalSector, RestoreError> {
        match words.pop().ok_or(RestoreError::Short)? {
            1 => Ok(PhysicalSector::Bytes512),
            2 => Ok(PhysicalSector::Bytes4096),
            _ => Err(RestoreError::NoSuch),
        }
    }
}

impl Saved for Profile {
    ghost put = { put_profile };

    ghost keeps = { KeepsProfile };

    ghost told_apart = { profile_apart };

    fn save(&self, words: &mut Words) -> Result<(), AllocError> {
        (self.rotation, self.physical, self.trim).save(words)?;
        (self.wwn, self.capacity, self.depth).save(words)?;
        (self.model, self.serial, self.firmware).save(words)
    }

    fn restore(alloc: Global, words: &mut Words) -> Result<Profile, RestoreError> {
        match <(Texts, Numbers, Medium)>::restore(alloc, words) {
            Ok((texts, (wwn, capacity, depth), (rotation, physical, trim))) => {
                let (model, serial, firmware) = texts;
                Ok(Profile {
                    model,
                    serial,
                    firmware,
                    wwn,
                    capacity,
                    depth,
                    rotation,
                    physical,
                    trim,
                })
            }
            Err(error) => Err(error),
        }
    }
}
