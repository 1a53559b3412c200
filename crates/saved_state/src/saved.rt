//! What can be saved.

ghost use Rattle.std.specs.List.{AllByRecursion};
ghost use Rattle.std.proofs.Common.{sym, ◌∙◌};
ghost use Rattle.std.specs.Prelude.{◌≡◌, ◌∷◌, ◌<◌, ◌^◌, ℕ, List, OnOk, length, true, false};
ghost use Rattle.saved_state.specs.State.{IsToldApart, Restores, RestoresAll, put_all, put_bool, put_option, KeepsOption, put_number, number_apart, bool_apart, option_apart, RestoresList, put_list, put_pair, pair_apart, put_three, three_apart, all_apart};

use crate::words::{RestoreError, Words};
use std::alloc::{AllocError, Global};

/// A type whose values are saved as words.
pub trait Saved: Sized + Drop {
    /// The words of a value, and behind them others.
    ghost put: { Self → List ℕ → List ℕ };

    /// What its values keep to.
    ghost keeps: { Self → Type 0 };

    /// Puts the value's words on top.
    fn save(&self, words: &mut Words) -> Result<(), AllocError>
        ensures words { OnOk result (words.new ≡ put self.now words.old) }
        ensures keeps { OnOk result (keeps self.now) };

    /// Takes a value's words off the top.
    fn restore(alloc: Global, words: &mut Words) -> Result<Self, RestoreError>
        ensures { Restores put keeps words.old result words.new };

    /// Its words are those of no other value.
    ghost told_apart: { IsToldApart put keeps };
}

impl Saved for u64 {
    ghost put = { put_number };

    ghost keeps = { λ n. n < 2 ^ 64 };

    ghost told_apart = { λ a b x y k l e. number_apart a b x y e };

    fn save(&self, words: &mut Words) -> Result<(), AllocError> {
        words.push(*self)
    }

    fn restore(_alloc: Global, words: &mut Words) -> Result<u64, RestoreError> {
        words.pop().ok_or(RestoreError::Short)
    }
}

impl Saved for u32 {
    ghost put = { put_number };

    ghost keeps = { λ n. n < 2 ^ 32 };

    ghost told_apart = { λ a b x y k l e. number_apart a b x y e };

    fn save(&self, words: &mut Words) -> Result<(), AllocError> {
        words.push(u64::from(*self))
    }

    fn restore(_alloc: Global, words: &mut Words) -> Result<u32, RestoreError> {
        let word = words.pop().ok_or(RestoreError::Short)?;
        match u32::try_from(word) {
            Ok(number) => Ok(number),
            Err(_) => Err(RestoreError::NoSuch),
        }
    }
}

impl Saved for u16 {
    ghost put = { put_number };

    ghost keeps = { λ n. n < 2 ^ 16 };

    ghost told_apart = { λ a b x y k l e. number_apart a b x y e };

    fn save(&self, words: &mut Words) -> Result<(), AllocError> {
        words.push(u64::from(*self))
    }

    fn restore(_alloc: Global, words: &mut Words) -> Result<u16, RestoreError> {
        let word = words.pop().ok_or(RestoreError::Short)?;
        match u16::try_from(word) {
            Ok(number) => Ok(number),
            Err(_) => Err(RestoreError::NoSuch),
        }
    }
}

impl Saved for u8 {
    ghost put = { put_number };

    ghost keeps = { λ n. n < 2 ^ 8 };

    ghost told_apart = { λ a b x y k l e. number_apart a b x y e };

    fn save(&self, words: &mut Words) -> Result<(), AllocError> {
        words.push(u64::from(*self))
    }

    fn restore(_alloc: Global, words: &mut Words) -> Result<u8, RestoreError> {
        let word = words.pop().ok_or(RestoreError::Short)?;
        match u8::try_from(word) {
            Ok(number) => Ok(number),
            Err(_) => Err(RestoreError::NoSuch),
        }
    }
}

impl Saved for bool {
    ghost put = { put_bool };

    ghost keeps = { λ _. Unit {0} };

    ghost told_apart = { λ a b x y k l e. bool_apart a b x y e };

    fn save(&self, words: &mut Words) -> Result<(), AllocError> {
        words.push(u64::from(*self))
    }

    fn restore(_alloc: Global, words: &mut Words) -> Result<bool, RestoreError> {
        match words.pop().ok_or(RestoreError::Short)? {
            0 => Ok(false),
            1 => Ok(true),
            _ => Err(RestoreError::NoSuch),
        }
    }
}

impl<T: Saved> Saved for Option<T> {
    ghost put = { put_option T.put };

    ghost keeps = { KeepsOption T.keeps };

    ghost told_apart = { option_apart T.put T.keeps T.told_apart };

    fn save(&self, words: &mut Words) -> Result<(), AllocError> {
        match self {
            None => words.push(0),
            Some(value) => {
                value.save(words)?;
                words.push(1)
            }
        }
    }

    fn restore(alloc: Global, words: &mut Words) -> Result<Option<T>, RestoreError> {
        match words.pop().ok_or(RestoreError::Short)? {
            0 => Ok(None),
            1 => Ok(Some(T::restore(alloc, words)?)),
            _ => Err(RestoreError::NoSuch),
        }
    }
}

impl<A: Saved, B: Saved> Saved for (A, B) {
    ghost put = { put_pair A.put B.put };

    ghost keeps = { λ p. A.keeps p.0 × B.keeps p.1 };

    ghost told_apart = { pair_apart A.put A.keeps A.told_apart B.put B.keeps B.told_apart };

    fn save(&self, words: &mut Words) -> Result<(), AllocError> {
        self.1.save(words)?;
        self.0.save(words)
    }

    fn restore(alloc: Global, words: &mut Words) -> Result<(A, B), RestoreError> {
        let first = A::restore(alloc, words)?;
        let second = B::restore(alloc, words)?;
        Ok((first, second))
    }
}

impl<A: Saved, B: Saved, C: Saved> Saved for (A, B, C) {
    ghost put = { put_three A.put B.put C.put };

    ghost keeps = { λ t. A.keeps t.0 × B.keeps t.1 × C.keeps t.2 };

    ghost told_apart = { three_apart A.put A.keeps A.told_apart B.put B.keeps B.told_apart C.put C.keeps C.told_apart };

    fn save(&self, words: &mut Words) -> Result<(), AllocError> {
        self.2.save(words)?;
        self.1.save(words)?;
        self.0.save(words)
    }

    fn restore(alloc: Global, words: &mut Words) -> Result<(A, B, C), RestoreError> {
        match <(A, (B, C))>::restore(alloc, words) {
            Ok((first, (second, third))) => Ok((first, second, third)),
            Err(error) => Err(error),
        }
    }
}

impl<T: Saved + Default, const N: usize> Saved for [T; N] {
    ghost put = { put_all T.put };

    ghost keeps = { λ all. (length all ≡ N) × AllByRecursion T.keeps all };

    ghost told_apart = { λ a b x y k l e. all_apart T.put T.keeps T.told_apart a b x y (k.0 ∙ sym l.0) k.1 l.1 e };

    fn save(&self, words: &mut Words) -> Result<(), AllocError> {
        save_all(self, words)
    }

    fn restore(alloc: Global, words: &mut Words) -> Result<[T; N], RestoreError> {
        let mut all = <[T; N]>::default();
        restore_all(alloc, &mut all, words)?;
        Ok(all)
    }
}

/// Saves each, the first one on top.
pub fn save_all<T: Saved>(values: &[T], words: &mut Words) -> Result<(), AllocError>
    ensures words { OnOk result (words.new ≡ put_all T.put values.now words.old) }
    ensures keeps { OnOk result (AllByRecursion T.keeps values.now) }
{
    let count = values.len();
    for done in 0..count {
        values[count - 1 - done].save(words)?;
    }
    Ok(())
}

/// Restores each in place of those that are there.
pub fn restore_all<T: Saved>(
    alloc: Global,
    values: &mut [T],
    words: &mut Words,
) -> Result<(), RestoreError>
    ensures { RestoresAll T.put T.keeps words.old (length values.old) result values.new words.new }
{
    for at in 0..values.len() {
        match T::restore(alloc, words) {
            Ok(value) => values[at] = value,
            Err(error) => return Err(error),
        }
    }
    Ok(())
}

/// Saves how many there are, on top of them.
pub fn save_list<T: Saved>(values: &[T], words: &mut Words) -> Result<(), AllocError>
    ensures words { OnOk result (words.new ≡ put_list T.put values.now words.old) }
    ensures keeps { OnOk result (AllByRecursion T.keeps values.now) }
{
    save_all(values, words)?;
    words.push(values.len() as u64)
}

/// Restores as many as there were.
pub fn restore_list<T: Saved>(alloc: Global, words: &mut Words) -> Result<Vec<T>, RestoreError>
    ensures { RestoresList T.put T.keeps words.old result words.new }
{
    let count = words.pop().ok_or(RestoreError::Short)?;
    let mut all = Vec::new(alloc);
    for at in 0..count {
        let _ = at;
        match T::restore(alloc, words) {
            Ok(value) => match all.push(value) {
                Ok(()) => {}
                Err(_) => return Err(RestoreError::OutOfMemory),
            },
            Err(error) => return Err(error),
        }
    }
    Ok(all)
}
