//! Bytes as hexadecimal text. Where it is read, blanks are allowed between the digits.

ghost use Rattle.std.specs.Prelude.{◌≡◌, ◌↔◌, ◌<◌, ◌∷◌, [], ℕ, length, IfOk, IfSome, IsErr, IsOk, IsTrue, MatchOption};
ghost use Rattle.hex.specs.Hex.{decode_of, pair_value};
ghost use Rattle.trace_text.specs.Text.{without_blanks};

use crate::input::is_blank;
use crate::wanted::Wanted;
use std::alloc::{AllocError, Global};
use thiserror::Error;

/// Why a text does not become bytes.
#[derive(Clone, Copy, Debug, PartialEq, Eq, Error)]
pub enum HexError {
    /// An odd number of digits, or a character that is not a digit.
    #[error("bad hex")]
    BadHex,
    /// The allocator refused memory for the bytes.
    #[error("out of memory")]
    OutOfMemory,
}

/// The bytes that the digits spell, two digits a byte, in either case. Blanks count for nothing.
/// Digits that spell no bytes are refused for that, even if there is no memory.
pub fn bytes_of(alloc: Global, text: &[u8]) -> Result<Vec<u8>, HexError>
    ensures value { IfOk result (λ bytes. decode_of (without_blanks text.now) ≡ Ok bytes.items) }
    ensures bad_hex { (result ≡ Err HexError.BadHex) ↔ IsErr (decode_of (without_blanks text.now)) }
{
    match decoded(alloc, text) {
        Some(bytes) => Ok(bytes),
        None if spells_bytes(text) => Err(HexError::OutOfMemory),
        None => Err(HexError::BadHex),
    }
}

/// The word because of which digits are no bytes, and what was wanted. The words of this text count
/// from this number on. It is the first word that has another character, or the last word, if a digit
/// is missing.
pub fn hex_fault(text: &[u8], first: usize) -> (usize, Wanted) {
    let mut word = first;
    let mut last = first;
    for part in text.split(|byte| is_blank(*byte)) {
        if part.is_empty() {
            continue;
        }
        if !part.iter().all(|byte| byte.is_ascii_hexdigit()) {
            return (word, Wanted::Digits);
        }
        last = word;
        word = word.saturating_add(1);
    }
    (last, Wanted::EvenDigits)
}

// The bytes that the digits spell. None if they spell none, or if memory was refused.
fn decoded(alloc: Global, text: &[u8]) -> Option<Vec<u8>>
    ensures { IfSome result (λ bytes. decode_of (without_blanks text.now) ≡ Ok bytes.items) }
{
    let digits = digits_of(alloc, text).ok()?;
    hex::decode(alloc, &digits).ok()
}

// The bytes of a text that are not blanks. Before the first blank none of them has to move.
fn digits_of(alloc: Global, text: &[u8]) -> Result<Vec<u8>, AllocError>
    ensures { IfOk result (λ digits. digits.items ≡ without_blanks text.now) }
{
    let mut digits = Vec::from_slice(alloc, text)?;
    digits.retain(|byte| !is_blank(*byte));
    Ok(digits)
}

// Whether the digits spell bytes. It takes no memory.
fn spells_bytes(text: &[u8]) -> bool
    ensures { IsTrue result ↔ IsOk (decode_of (without_blanks text.now)) }
{
    let mut rest = text;
    'pairs: while let Some((high, behind)) = next_digit(rest) {
        let Some((low, behind)) = next_digit(behind) else {
            return false;
        };
        let Ok(_) = byte_of(high, low) else {
            return false;
        };
        rest = behind;
    }
    true
}

// The first byte that is not a blank, and what comes after it.
fn next_digit(text: &[u8]) -> Option<(u8, &[u8])>
    ensures { MatchOption result (without_blanks text.now ≡ []) (λ next.
        (without_blanks text.now ≡ next.0 ∷ without_blanks next.1.now)
        × (length next.1.now < length text.now)) }
{
    let mut left = text;
    'blanks: while let Some((byte, behind)) = left.split_first() {
        if !is_blank(*byte) {
            return Some((*byte, behind));
        }
        left = behind;
    }
    None
}

// The byte of two digits.
fn byte_of(high: u8, low: u8) -> Result<u8, HexError>
    ensures value { IfOk result (λ byte. (i : ℕ) → pair_value high low i ≡ Ok byte) }
    ensures bad_hex { IsErr result → (i : ℕ) → IsErr (pair_value high low i) }
{
    let mut byte = [0];
    match hex::decode_to_slice([high, low], &mut byte) {
        Ok(()) => Ok(byte[0]),
        Err(_) => Err(HexError::BadHex),
    }
}
