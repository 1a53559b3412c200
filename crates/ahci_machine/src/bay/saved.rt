//! What is at a port, as words, and back.

ghost use Rattle.ahci_machine.specs.Saved.{bay_words, unit_words};

use super::{Bay, Unit};
use fis_view::Frame;
use sata_disk::SataDisk;
use saved_state::{RestoreError, Saved, Words};
use std::alloc::{AllocError, Global};

impl Saved for Unit {
    ghost put = { unit_words.put };

    ghost keeps = { unit_words.keeps };

    ghost told_apart = { unit_words.apart };

    fn save(&self, words: &mut Words) -> Result<(), AllocError> {
        match self {
            Unit::Empty => words.push(0),
            Unit::Disk(disk) => {
                disk.save(words)?;
                words.push(1)
            }
            Unit::Own => words.push(2),
        }
    }

    fn restore(alloc: Global, words: &mut Words) -> Result<Unit, RestoreError> {
        match words.pop().ok_or(RestoreError::Short)? {
            0 => Ok(Unit::Empty),
            1 => match SataDisk::restore(alloc, words) {
                Ok(disk) => Ok(Unit::Disk(disk)),
                Err(error) => Err(error),
            },
            2 => Ok(Unit::Own),
            _ => Err(RestoreError::NoSuch),
        }
    }
}

type BayParts = ((Unit, u64), (Option<Frame>, bool));

impl Saved for Bay {
    ghost put = { bay_words.put };

    ghost keeps = { bay_words.keeps };

    ghost told_apart = { bay_words.apart };

    fn save(&self, words: &mut Words) -> Result<(), AllocError> {
        self.told.save(words)?;
        self.down.save(words)?;
        self.disk.save(words)?;
        self.unit.save(words)
    }

    fn restore(alloc: Global, words: &mut Words) -> Result<Bay, RestoreError> {
        match <BayParts>::restore(alloc, words) {
            Ok(parts) => {
                let (place, given) = parts;
                let (unit, disk) = place;
                let (down, told) = given;
                Ok(Bay {
                    unit,
                    disk,
                    down,
                    told,
                })
            }
            Err(error) => Err(error),
        }
    }
}
