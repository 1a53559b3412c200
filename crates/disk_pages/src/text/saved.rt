//! ATA strings as words, and back.

ghost use Rattle.disk_pages.specs.Saved.{KeepsText, put_text, text_apart};

use super::{IdentityText, is_text};
use saved_state::{RestoreError, Saved, Words};
use std::alloc::{AllocError, Global};

impl<const N: usize> Saved for IdentityText<N> {
    ghost put = { put_text };

    ghost keeps = { KeepsText N };

    ghost told_apart = { text_apart N };

    fn save(&self, words: &mut Words) -> Result<(), AllocError> {
        self.chars.save(words)
    }

    fn restore(alloc: Global, words: &mut Words) -> Result<IdentityText<N>, RestoreError> {
        let chars = match <[u8; N]>::restore(alloc, words) {
            Ok(chars) => chars,
            Err(error) => return Err(error),
        };
        if !is_text(&chars) {
            return Err(RestoreError::Broken);
        }
        Ok(IdentityText { chars })
    }
}
