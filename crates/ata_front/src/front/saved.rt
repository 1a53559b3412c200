//! The front as words, and back.

ghost use Rattle.ata_front.specs.Saved.{KeepsFront, front_apart, put_front};

use super::Front;
use crate::task::{Fault, Task};
use ata_command::Settings;
use saved_state::{RestoreError, Saved, Words};
use std::alloc::{AllocError, Global};

type Parts = ((Task, Option<Fault>), (bool, Settings));

impl Saved for Front {
    ghost put = { put_front };

    ghost keeps = { KeepsFront };

    ghost told_apart = { front_apart };

    fn save(&self, words: &mut Words) -> Result<(), AllocError> {
        self.settings.save(words)?;
        self.in_reset.save(words)?;
        self.fault.save(words)?;
        self.task.save(words)
    }

    fn restore(alloc: Global, words: &mut Words) -> Result<Front, RestoreError> {
        match <Parts>::restore(alloc, words) {
            Ok(((task, fault), (in_reset, settings))) => Ok(Front {
                task,
                fault,
                in_reset,
                settings,
            }),
            Err(error) => Err(error),
        }
    }
}
