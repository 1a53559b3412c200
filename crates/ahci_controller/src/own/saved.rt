//! The registers that the controller has beside those of the core as words, and back.

ghost use Rattle.ahci_controller.specs.Saved.{base_words, own_words};

use super::{Base, OwnRegisters};
use saved_state::{RestoreError, Saved, Words};
use std::alloc::{AllocError, Global};

impl Saved for Base {
    ghost put = { base_words.put };

    ghost keeps = { base_words.keeps };

    ghost told_apart = { base_words.apart };

    fn save(&self, words: &mut Words) -> Result<(), AllocError> {
        (self.lower, self.upper).save(words)
    }

    fn restore(alloc: Global, words: &mut Words) -> Result<Base, RestoreError> {
        match <(u32, u32)>::restore(alloc, words) {
            Ok((lower, upper)) => Ok(Base { lower, upper }),
            Err(error) => Err(error),
        }
    }
}

type Bases = ((Base, Base), (Base, Base));

type Parts = (Bases, (bool, bool, bool), (u8, u16, u32));

impl Saved for OwnRegisters {
    ghost put = { own_words.put };

    ghost keeps = { own_words.keeps };

    ghost told_apart = { own_words.apart };

    fn save(&self, words: &mut Words) -> Result<(), AllocError> {
        let bases = ((self.list, self.area), (self.list_used, self.area_used));
        let bits = (self.starts, self.receives, self.multiplied);
        (bases, bits, (self.current, self.errors, self.bad)).save(words)
    }

    fn restore(alloc: Global, words: &mut Words) -> Result<OwnRegisters, RestoreError> {
        let (bases, bits, numbers) = match <Parts>::restore(alloc, words) {
            Ok(parts) => parts,
            Err(error) => return Err(error),
        };
        let ((list, area), (list_used, area_used)) = bases;
        let (starts, receives, multiplied) = bits;
        let (current, errors, bad) = numbers;
        Ok(OwnRegisters {
            list,
            area,
            list_used,
            area_used,
            starts,
            receives,
            multiplied,
            current,
            errors,
            bad,
        })
    }
}
