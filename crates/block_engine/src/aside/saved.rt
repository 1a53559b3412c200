//! Commands beside the queue as words, and back.

ghost use Rattle.block_engine.specs.Saved.{KeepsStage, kind_apart, put_kind, put_stage, stage_apart};

use super::{AsideKind, AsideStage};
use saved_state::{RestoreError, Saved, Words};
use std::alloc::{AllocError, Global};

impl Saved for AsideKind {
    ghost put = { put_kind };

    ghost keeps = { λ _. Unit {0} };

    ghost told_apart = { kind_apart };

    fn save(&self, words: &mut Words) -> Result<(), AllocError> {
        words.push(match self {
            AsideKind::Flush => 0,
            AsideKind::Discard => 1,
        })
    }

    fn restore(_alloc: Global, words: &mut Words) -> Result<AsideKind, RestoreError> {
        match words.pop().ok_or(RestoreError::Short)? {
            0 => Ok(AsideKind::Flush),
            1 => Ok(AsideKind::Discard),
            _ => Err(RestoreError::NoSuch),
        }
    }
}

impl Saved for AsideStage {
    ghost put = { put_stage };

    ghost keeps = { KeepsStage };

    ghost told_apart = { stage_apart };

    fn save(&self, words: &mut Words) -> Result<(), AllocError> {
        match self {
            AsideStage::Idle => words.push(0),
            AsideStage::Waiting => words.push(1),
            AsideStage::Asked(number) => {
                number.save(words)?;
                words.push(2)
            }
            AsideStage::Done => words.push(3),
            AsideStage::Failed => words.push(4),
        }
    }

    fn restore(alloc: Global, words: &mut Words) -> Result<AsideStage, RestoreError> {
        match words.pop().ok_or(RestoreError::Short)? {
            0 => Ok(AsideStage::Idle),
            1 => Ok(AsideStage::Waiting),
            2 => Ok(AsideStage::Asked(u64::restore(alloc, words)?)),
            3 => Ok(AsideStage::Done),
            4 => Ok(AsideStage::Failed),
            _ => Err(RestoreError::NoSuch),
        }
    }
}
