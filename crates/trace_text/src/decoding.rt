//! The command `decode`: a frame in hexadecimal on each line, and what it means.

ghost use Rattle.std.specs.Prelude.{◌≡◌, ◌↔◌, IfOk, false};
ghost use Rattle.fis_view.specs.Frames.{is_frame};
ghost use Rattle.fis_view.specs.Seen.{frame_of, seen};

use crate::failure::Failure;
use crate::hex_text::{HexError, bytes_of, hex_fault};
use crate::input::{is_skipped, without_return};
use crate::note::WordOf;
use fis_text::FisText;
use fis_view::{Fis, FisFault, is_frame_length};
use std::alloc::Global;
use std::fmt;
use std::io::{Eprint, Write};
use thiserror::Error;

/// Why a line is not a frame that can be put in words.
#[derive(Clone, Copy, Debug, PartialEq, Eq, Error)]
pub enum DecodeError {
    /// An odd number of digits, or a character that is not a digit.
    #[error("bad hex")]
    BadHex,
    /// No frame has this many bytes.
    #[error("bad length")]
    BadLength,
    /// No FIS of this type has this many bytes.
    #[error("wrong length")]
    WrongLength,
}

impl From<FisFault> for DecodeError {
    ghost use Rattle.std.specs.Prelude.{◌≡◌};
    ghost use Rattle.trace_text.specs.declared.decoding.DecodeError.TheVariants.{WrongLength};

    ghost from_gives = { λ _ e. e ≡ WrongLength };

    fn from(fault: FisFault) -> DecodeError {
        match fault {
            FisFault::WrongLength => DecodeError::WrongLength,
        }
    }
}

/// Writes a line for each line of the input that is neither empty nor a comment. Standard error gets
/// the number of each line that is no frame, and why it is none.
pub fn decode<E: Eprint, W: Write>(
    errors: &E,
    alloc: Global,
    input: &[u8],
    out: &mut W,
) -> Result<(), Failure> {
    let mut line = 0usize;
    for text in input.split(|byte| *byte == b'\n') {
        line = line.saturating_add(1);
        let text = without_return(text);
        if is_skipped(text) {
            continue;
        }
        if let Some(error) = decode_line(alloc, text, out)? {
            // If standard error is closed, the answer on standard output is the same.
            let _unheard = errors.eprintln(LineNote { line, text, error });
        }
    }
    Ok(())
}

/// Writes what one line means, and gives the reason if it is no frame.
fn decode_line<W: Write>(
    alloc: Global,
    text: &[u8],
    out: &mut W,
) -> Result<Option<DecodeError>, Failure> {
    match bytes_of(alloc, text) {
        Ok(bytes) => tell(&bytes, out),
        Err(HexError::BadHex) => refuse(DecodeError::BadHex, out),
        Err(HexError::OutOfMemory) => Err(Failure::OutOfMemory),
    }
}

/// Writes what the bytes of a line mean, and gives the reason if they are no frame.
fn tell<W: Write>(bytes: &[u8], out: &mut W) -> Result<Option<DecodeError>, Failure> {
    match fis_of(bytes) {
        Ok(fis) => {
            writeln!(out, "{}", FisText(fis))?;
            Ok(None)
        }
        Err(error) => refuse(error, out),
    }
}

fn refuse<W: Write>(error: DecodeError, out: &mut W) -> Result<Option<DecodeError>, Failure> {
    writeln!(out, "{error}")?;
    Ok(Some(error))
}

/// A line that is no frame, and why.
#[derive(Drop)]
struct LineNote<'a> {
    line: usize,
    text: &'a [u8],
    error: DecodeError,
}

/// The word because of which a line is no bytes.
fn word_at_fault(text: &[u8]) -> WordOf<'_> {
    let (word, wanted) = hex_fault(text, 1);
    WordOf { text, word, wanted }
}

impl fmt::Display for LineNote<'_> {
    fn fmt<W: fmt::Write>(&self, f: &mut fmt::Formatter<W>) -> fmt::Result {
        write!(f, "line {}: {}", self.line, self.error)?;
        match self.error {
            DecodeError::BadHex => word_at_fault(self.text).fmt(f),
            DecodeError::BadLength => f.write_str(": wanted 4 to 8196 bytes, a multiple of 4"),
            DecodeError::WrongLength => f.write_str(": no FIS of this type has so many bytes"),
        }
    }
}

/// The FIS that the bytes are.
pub fn fis_of(bytes: &[u8]) -> Result<Fis<'_>, DecodeError>
    ensures whole { IfOk result (λ fis. frame_of fis ≡ bytes.now) }
    ensures bad_length { (result ≡ Err DecodeError.BadLength) ↔ (is_frame bytes.now ≡ false) }
    ensures wrong_length { result ≡ Err DecodeError.WrongLength → seen bytes.now ≡ Err FisFault.WrongLength }
{
    if !is_frame_length(bytes) {
        return Err(DecodeError::BadLength);
    }
    Ok(Fis::of(bytes)?)
}
