//! Entries as they are kept as words, and back.

ghost use Rattle.guest_fetch.specs.Saved.{span_words};

use super::Span;
use saved_state::{RestoreError, Saved, Words};
use std::alloc::{AllocError, Global};

impl Saved for Span {
    ghost put = { span_words.put };

    ghost keeps = { span_words.keeps };

    ghost told_apart = { span_words.apart };

    fn save(&self, words: &mut Words) -> Result<(), AllocError> {
        (self.address, self.end, self.interrupt).save(words)
    }

    fn restore(alloc: Global, words: &mut Words) -> Result<Span, RestoreError> {
        match <(u64, u32, bool)>::restore(alloc, words) {
            Ok((address, end, interrupt)) => Ok(Span {
                address,
                end,
                interrupt,
            }),
            Err(error) => Err(error),
        }
    }
}
