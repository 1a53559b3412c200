//! Words, the last one that was saved on top.

ghost use Rattle.std.specs.Prelude.{◌≡◌, ◌∷◌, ◌<◌, ◌^◌, [], IfOk, IfSome, MatchOption, OnOk, OnErr};

mod bytes;

use std::alloc::{AllocError, Global};
use std::marker::Model;
use thiserror::Error;

/// Why words give no value.
#[derive(Clone, Copy, Debug, PartialEq, Eq, Error)]
pub enum RestoreError {
    /// Memory is refused.
    #[error("out of memory")]
    OutOfMemory,
    /// There are too few.
    #[error("the saved state ends too early")]
    Short,
    /// A word stands for no value of its place.
    #[error("a word of the saved state has no meaning")]
    NoSuch,
    /// The values do not fit together.
    #[error("the saved state breaks a rule")]
    Broken,
}

/// Words of saved values: a stack.
#[derive(Drop)]
pub struct Words {
    words: Vec<u64>,
}

impl Model for Words {
    ghost use Rattle.std.specs.Prelude.{List, ℕ, reverse};

    ghost Value = { List ℕ };

    ghost view = { λ w. reverse w.words.items };
}

impl Words {
    /// None.
    pub fn new(alloc: Global) -> Words
        ensures { result ≡ [] }
    {
        Words {
            words: Vec::new(alloc),
        }
    }

    /// Puts one on top.
    pub fn push(&mut self, word: u64) -> Result<(), AllocError>
        ensures ok { OnOk result (self.new ≡ word ∷ self.old) }
        ensures err { OnErr result (self.new ≡ self.old) }
    {
        self.words.push(word)?;
        Ok(())
    }

    /// Takes the one on top.
    pub fn pop(&mut self) -> Option<u64>
        ensures { MatchOption result ((self.old ≡ []) × (self.new ≡ [])) (λ word. self.old ≡ word ∷ self.new) }
    {
        self.words.pop()
    }
}
