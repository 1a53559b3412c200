//! Causes as words, and back.

ghost use Rattle.port_errors.specs.Saved.{cause_apart, put_cause, put_stop, stop_apart};

use super::{DeviceCause, PortCause, Stop};
use saved_state::{RestoreError, Saved, Words};
use std::alloc::{AllocError, Global};

impl Saved for DeviceCause {
    ghost put = { put_cause };

    ghost keeps = { λ _. Unit {0} };

    ghost told_apart = { cause_apart };

    fn save(&self, words: &mut Words) -> Result<(), AllocError> {
        words.push(match self {
            DeviceCause::TaskFile => 1,
            DeviceCause::BadTag => 2,
            DeviceCause::Overflow => 3,
            DeviceCause::Stray => 4,
            DeviceCause::Twice => 5,
            DeviceCause::Fragments => 6,
            DeviceCause::Short => 7,
            DeviceCause::BadFis => 8,
            DeviceCause::WrongWay => 9,
        })
    }

    fn restore(_alloc: Global, words: &mut Words) -> Result<DeviceCause, RestoreError> {
        match words.pop().ok_or(RestoreError::Short)? {
            1 => Ok(DeviceCause::TaskFile),
            2 => Ok(DeviceCause::BadTag),
            3 => Ok(DeviceCause::Overflow),
            4 => Ok(DeviceCause::Stray),
            5 => Ok(DeviceCause::Twice),
            6 => Ok(DeviceCause::Fragments),
            7 => Ok(DeviceCause::Short),
            8 => Ok(DeviceCause::BadFis),
            9 => Ok(DeviceCause::WrongWay),
            _ => Err(RestoreError::NoSuch),
        }
    }
}

impl Saved for Stop {
    ghost put = { put_stop };

    ghost keeps = { λ _. Unit {0} };

    ghost told_apart = { stop_apart };

    fn save(&self, words: &mut Words) -> Result<(), AllocError> {
        words.push(match self {
            Stop::Port(PortCause::BadControl) => 1,
            Stop::Port(PortCause::Bus) => 2,
            Stop::Device => 3,
        })
    }

    fn restore(_alloc: Global, words: &mut Words) -> Result<Stop, RestoreError> {
        match words.pop().ok_or(RestoreError::Short)? {
            1 => Ok(Stop::Port(PortCause::BadControl)),
            2 => Ok(Stop::Port(PortCause::Bus)),
            3 => Ok(Stop::Device),
            _ => Err(RestoreError::NoSuch),
        }
    }
}
