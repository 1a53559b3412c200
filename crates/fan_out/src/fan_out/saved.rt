//! What is behind the port of a host as words, and back.

ghost use Rattle.fan_out.specs.Saved.{KeepsEnd, end_apart, put_end};

use super::FanOut;
use crate::fan::Fan;
use crate::straight::Straight;
use saved_state::{RestoreError, Saved, Words};
use std::alloc::{AllocError, Global};

impl Saved for FanOut {
    ghost put = { put_end };

    ghost keeps = { KeepsEnd };

    ghost told_apart = { end_apart };

    fn save(&self, words: &mut Words) -> Result<(), AllocError> {
        match self {
            FanOut::Device(straight) => {
                straight.save(words)?;
                words.push(1)
            }
            FanOut::Multiplier(fan) => {
                fan.save(words)?;
                words.push(2)
            }
        }
    }

    fn restore(alloc: Global, words: &mut Words) -> Result<FanOut, RestoreError> {
        match words.pop().ok_or(RestoreError::Short)? {
            1 => Ok(FanOut::Device(Straight::restore(alloc, words)?)),
            2 => Ok(FanOut::Multiplier(Fan::restore(alloc, words)?)),
            _ => Err(RestoreError::NoSuch),
        }
    }
}
