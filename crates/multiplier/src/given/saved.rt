//! The frame that was given last as words, and back.

ghost use Rattle.multiplier.specs.Saved.{KeepsGiven, KeepsSource, given_apart, put_given, put_source, source_apart};

use super::{Given, Source};
use fis_view::Stamp;
use saved_state::{RestoreError, Saved, Words};
use std::alloc::{AllocError, Global};

impl Saved for Source {
    ghost put = { put_source };

    ghost keeps = { KeepsSource };

    ghost told_apart = { source_apart };

    fn save(&self, words: &mut Words) -> Result<(), AllocError> {
        match self {
            Source::Held(pm_port) => {
                pm_port.save(words)?;
                words.push(1)
            }
            Source::Answer => words.push(2),
            Source::Notice => words.push(3),
        }
    }

    fn restore(alloc: Global, words: &mut Words) -> Result<Source, RestoreError> {
        match words.pop().ok_or(RestoreError::Short)? {
            1 => Ok(Source::Held(u8::restore(alloc, words)?)),
            2 => Ok(Source::Answer),
            3 => Ok(Source::Notice),
            _ => Err(RestoreError::NoSuch),
        }
    }
}

impl Saved for Given {
    ghost put = { put_given };

    ghost keeps = { KeepsGiven };

    ghost told_apart = { given_apart };

    fn save(&self, words: &mut Words) -> Result<(), AllocError> {
        match self {
            Given::Up {
                before,
                source,
                stamp,
            } => {
                stamp.save(words)?;
                source.save(words)?;
                before.save(words)?;
                words.push(1)
            }
            Given::Down { port, stamp } => {
                stamp.save(words)?;
                port.save(words)?;
                words.push(2)
            }
        }
    }

    fn restore(alloc: Global, words: &mut Words) -> Result<Given, RestoreError> {
        match words.pop().ok_or(RestoreError::Short)? {
            1 => match <(u8, Source, Stamp)>::restore(alloc, words) {
                Ok((before, source, stamp)) => Ok(Given::Up {
                    before,
                    source,
                    stamp,
                }),
                Err(error) => Err(error),
            },
            2 => match <(u8, Stamp)>::restore(alloc, words) {
                Ok((port, stamp)) => Ok(Given::Down { port, stamp }),
                Err(error) => Err(error),
            },
            _ => Err(RestoreError::NoSuch),
        }
    }
}
