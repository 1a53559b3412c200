//! Ranges and failures as words, and back.

ghost use Rattle.block_engine.specs.Saved.{KeepsFailure, KeepsRange, error_apart, failure_apart, put_error, put_failure, put_range, range_apart};

use super::{ErrorKind, Failure, Range};
use saved_state::{RestoreError, Saved, Words};
use std::alloc::{AllocError, Global};

type RangeParts = (u64, u32);

type FailureParts = (ErrorKind, u64);

impl Saved for Range {
    ghost put = { put_range };

    ghost keeps = { KeepsRange };

    ghost told_apart = { range_apart };

    fn save(&self, words: &mut Words) -> Result<(), AllocError> {
        self.count.save(words)?;
        self.lba.save(words)
    }

    fn restore(alloc: Global, words: &mut Words) -> Result<Range, RestoreError> {
        let (lba, count) = match <RangeParts>::restore(alloc, words) {
            Ok(parts) => parts,
            Err(error) => return Err(error),
        };
        Ok(Range { lba, count })
    }
}

impl Saved for ErrorKind {
    ghost put = { put_error };

    ghost keeps = { λ _. Unit {0} };

    ghost told_apart = { error_apart };

    fn save(&self, words: &mut Words) -> Result<(), AllocError> {
        words.push(match self {
            ErrorKind::Uncorrectable => 0,
            ErrorKind::NotFound => 1,
            ErrorKind::Aborted => 2,
        })
    }

    fn restore(_alloc: Global, words: &mut Words) -> Result<ErrorKind, RestoreError> {
        match words.pop().ok_or(RestoreError::Short)? {
            0 => Ok(ErrorKind::Uncorrectable),
            1 => Ok(ErrorKind::NotFound),
            2 => Ok(ErrorKind::Aborted),
            _ => Err(RestoreError::NoSuch),
        }
    }
}

impl Saved for Failure {
    ghost put = { put_failure };

    ghost keeps = { KeepsFailure };

    ghost told_apart = { failure_apart };

    fn save(&self, words: &mut Words) -> Result<(), AllocError> {
        self.lba.save(words)?;
        self.error.save(words)
    }

    fn restore(alloc: Global, words: &mut Words) -> Result<Failure, RestoreError> {
        let (error, lba) = match <FailureParts>::restore(alloc, words) {
            Ok(parts) => parts,
            Err(error) => return Err(error),
        };
        Ok(Failure { error, lba })
    }
}
