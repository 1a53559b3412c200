//! What a port keeps for a device as words, and back.

ghost use Rattle.hba_fbs.specs.Saved.{KeepsState, put_state, state_apart};

use super::DeviceState;
use crate::status::Block;
use saved_state::{RestoreError, Saved, Words};
use std::alloc::{AllocError, Global};

type Parts = ((u8, u8), (bool, Option<Block>, bool));

impl Saved for DeviceState {
    ghost put = { put_state };

    ghost keeps = { KeepsState };

    ghost told_apart = { state_apart };

    fn save(&self, words: &mut Words) -> Result<(), AllocError> {
        self.signed.save(words)?;
        self.block.save(words)?;
        self.resetting.save(words)?;
        self.error.save(words)?;
        self.status.save(words)
    }

    fn restore(alloc: Global, words: &mut Words) -> Result<DeviceState, RestoreError> {
        match <Parts>::restore(alloc, words) {
            Ok(((status, error), (resetting, block, signed))) => Ok(DeviceState {
                status,
                error,
                resetting,
                block,
                signed,
            }),
            Err(error) => Err(error),
        }
    }
}
