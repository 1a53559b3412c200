//! Settings as words, and back.

ghost use Rattle.ata_command.specs.Saved.{mode_apart, multiple_apart, put_mode, put_multiple, put_settings, settings_apart};

use super::{Multiple, Settings, TransferMode};
use saved_state::{RestoreError, Saved, Words};
use std::alloc::{AllocError, Global};

type Parts = ((bool, bool), (bool, (Multiple, TransferMode)));

impl Saved for TransferMode {
    ghost put = { put_mode };

    ghost keeps = { λ _. Unit {0} };

    ghost told_apart = { mode_apart };

    fn save(&self, words: &mut Words) -> Result<(), AllocError> {
        words.push(match self {
            TransferMode::Multiword0 => 1,
            TransferMode::Multiword1 => 2,
            TransferMode::Multiword2 => 3,
            TransferMode::Ultra0 => 4,
            TransferMode::Ultra1 => 5,
            TransferMode::Ultra2 => 6,
            TransferMode::Ultra3 => 7,
            TransferMode::Ultra4 => 8,
            TransferMode::Ultra5 => 9,
            TransferMode::Ultra6 => 10,
        })
    }

    fn restore(_alloc: Global, words: &mut Words) -> Result<TransferMode, RestoreError> {
        match words.pop().ok_or(RestoreError::Short)? {
            1 => Ok(TransferMode::Multiword0),
            2 => Ok(TransferMode::Multiword1),
            3 => Ok(TransferMode::Multiword2),
            4 => Ok(TransferMode::Ultra0),
            5 => Ok(TransferMode::Ultra1),
            6 => Ok(TransferMode::Ultra2),
            7 => Ok(TransferMode::Ultra3),
            8 => Ok(TransferMode::Ultra4),
            9 => Ok(TransferMode::Ultra5),
            10 => Ok(TransferMode::Ultra6),
            _ => Err(RestoreError::NoSuch),
        }
    }
}

impl Saved for Multiple {
    ghost put = { put_multiple };

    ghost keeps = { λ _. Unit {0} };

    ghost told_apart = { multiple_apart };

    fn save(&self, words: &mut Words) -> Result<(), AllocError> {
        words.push(u64::from(self.sectors()))
    }

    fn restore(_alloc: Global, words: &mut Words) -> Result<Multiple, RestoreError> {
        match words.pop().ok_or(RestoreError::Short)? {
            0 => Ok(Multiple::Off),
            1 => Ok(Multiple::One),
            2 => Ok(Multiple::Two),
            4 => Ok(Multiple::Four),
            8 => Ok(Multiple::Eight),
            16 => Ok(Multiple::Sixteen),
            _ => Err(RestoreError::NoSuch),
        }
    }
}

impl Saved for Settings {
    ghost put = { put_settings };

    ghost keeps = { λ _. Unit {0} };

    ghost told_apart = { settings_apart };

    fn save(&self, words: &mut Words) -> Result<(), AllocError> {
        self.mode.save(words)?;
        self.multiple.save(words)?;
        self.auto_activate.save(words)?;
        self.look_ahead.save(words)?;
        self.write_cache.save(words)
    }

    fn restore(alloc: Global, words: &mut Words) -> Result<Settings, RestoreError> {
        match <Parts>::restore(alloc, words) {
            Ok(((write_cache, look_ahead), (auto_activate, (multiple, mode)))) => Ok(Settings {
                write_cache,
                look_ahead,
                auto_activate,
                multiple,
                mode,
            }),
            Err(error) => Err(error),
        }
    }
}
