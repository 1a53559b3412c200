//! A command that is being read as words, and back.

ghost use Rattle.std.specs.Prelude.{◌≡◌, ◌+◌, ◌^◌, nat_le};
ghost use Rattle.guest_fetch.specs.SavedCommands.{fetch_words, is_fetching as is_fetching_of, is_step as is_step_of, step_words};

use super::{Fetch, Step, wants_more};
use crate::head::Head;
use crate::header::Header;
use crate::header::saved::is_taken;
use crate::table::Table;
use saved_state::{RestoreError, Saved, Words};
use std::alloc::{AllocError, Global};

impl Saved for Step {
    ghost put = { step_words.put };

    ghost keeps = { step_words.keeps };

    ghost told_apart = { step_words.apart };

    fn save(&self, words: &mut Words) -> Result<(), AllocError> {
        match self {
            Step::AtHeader => words.push(0),
            Step::AtFis(header) => {
                header.save(words)?;
                words.push(1)
            }
            Step::AtEntries(head, table) => {
                table.save(words)?;
                head.save(words)?;
                words.push(2)
            }
        }
    }

    fn restore(alloc: Global, words: &mut Words) -> Result<Step, RestoreError> {
        match words.pop().ok_or(RestoreError::Short)? {
            0 => Ok(Step::AtHeader),
            1 => Ok(Step::AtFis(Header::restore(alloc, words)?)),
            2 => match <(Head, Table)>::restore(alloc, words) {
                Ok((head, table)) => Ok(Step::AtEntries(head, table)),
                Err(error) => Err(error),
            },
            _ => Err(RestoreError::NoSuch),
        }
    }
}

// Whether so much of a command can have come.
fn is_step(step: &Step) -> bool
    ensures { result ≡ is_step_of step.now }
{
    match step {
        Step::AtHeader => true,
        Step::AtFis(header) => is_taken(header),
        Step::AtEntries(head, table) => {
            is_taken(&head.header) && table.len() == head.work.len && wants_more(head, table)
        }
    }
}

// Whether a header may lie there.
pub(crate) fn has_room(at: u64) -> bool
    ensures { result ≡ nat_le (at + 32) (2 ^ 64) }
{
    at <= u64::MAX - 31
}

// Whether they are the parts of one.
fn is_fetching(at: u64, step: &Step) -> bool
    ensures { result ≡ is_fetching_of (at, step.now) }
{
    has_room(at) && is_step(step)
}

impl Saved for Fetch {
    ghost put = { fetch_words.put };

    ghost keeps = { fetch_words.keeps };

    ghost told_apart = { fetch_words.apart };

    fn save(&self, words: &mut Words) -> Result<(), AllocError> {
        self.step.save(words)?;
        self.at.save(words)
    }

    fn restore(alloc: Global, words: &mut Words) -> Result<Fetch, RestoreError> {
        let (at, step) = match <(u64, Step)>::restore(alloc, words) {
            Ok(parts) => parts,
            Err(error) => return Err(error),
        };
        if !is_fetching(at, &step) {
            return Err(RestoreError::Broken);
        }
        Ok(Fetch { at, step })
    }
}
