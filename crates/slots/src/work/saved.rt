//! What a command asks for as words, and back.

ghost use Rattle.slots.specs.Saved.{Free, KeepsWork, kind_apart, put_kind, put_work, work_apart};

use super::{Kind, Work};
use saved_state::{RestoreError, Saved, Words};
use std::alloc::{AllocError, Global};

impl Saved for Kind {
    ghost put = { put_kind };

    ghost keeps = { Free };

    ghost told_apart = { kind_apart };

    fn save(&self, words: &mut Words) -> Result<(), AllocError> {
        words.push(match self {
            Kind::QueuedRead => 1,
            Kind::QueuedWrite => 2,
            Kind::DmaIn => 3,
            Kind::DmaOut => 4,
            Kind::PioIn => 5,
            Kind::PioOut => 6,
            Kind::NoData => 7,
            Kind::Control => 8,
        })
    }

    fn restore(_alloc: Global, words: &mut Words) -> Result<Kind, RestoreError> {
        match words.pop().ok_or(RestoreError::Short)? {
            1 => Ok(Kind::QueuedRead),
            2 => Ok(Kind::QueuedWrite),
            3 => Ok(Kind::DmaIn),
            4 => Ok(Kind::DmaOut),
            5 => Ok(Kind::PioIn),
            6 => Ok(Kind::PioOut),
            7 => Ok(Kind::NoData),
            8 => Ok(Kind::Control),
            _ => Err(RestoreError::NoSuch),
        }
    }
}

impl Saved for Work {
    ghost put = { put_work };

    ghost keeps = { KeepsWork };

    ghost told_apart = { work_apart };

    fn save(&self, words: &mut Words) -> Result<(), AllocError> {
        self.len.save(words)?;
        self.kind.save(words)
    }

    fn restore(alloc: Global, words: &mut Words) -> Result<Work, RestoreError> {
        match <(Kind, u32)>::restore(alloc, words) {
            Ok((kind, len)) => Ok(Work { kind, len }),
            Err(error) => Err(error),
        }
    }
}
