//! What standard error says about a run that ends before its work is done.

use crate::failure::Failure;
use crate::input::{is_blank, line_of};
use crate::wanted::Wanted;
use std::fmt;

/// Why a run ends, in one line that names the word for which the input is refused.
#[derive(Drop)]
pub struct Note<'a> {
    failure: Failure,
    input: &'a [u8],
}

impl<'a> Note<'a> {
    /// The note about a failure, if this was the input.
    pub fn of(failure: Failure, input: &'a [u8]) -> Note<'a> {
        Note { failure, input }
    }
}

impl fmt::Display for Note<'_> {
    fn fmt<W: fmt::Write>(&self, f: &mut fmt::Formatter<W>) -> fmt::Result {
        write!(f, "{}", self.failure)?;
        match self.failure {
            Failure::Line {
                line,
                word,
                wanted,
                ..
            } => {
                let text = line_of(self.input, line);
                write_word(WordOf { text, word, wanted }, f)
            }
            _ => Ok(()),
        }
    }
}

/// A word of a line, by its number, and what is wanted there.
#[derive(Clone, Copy)]
pub struct WordOf<'a> {
    pub text: &'a [u8],
    /// Counted from 1; 0 means the line as a whole.
    pub word: usize,
    pub wanted: Wanted,
}

/// Writes which word is missing, wrong or too many, and what was wanted.
fn write_word<W: fmt::Write>(place: WordOf<'_>, f: &mut fmt::Formatter<W>) -> fmt::Result {
    let WordOf { text, word, wanted } = place;
    if word == 0 {
        return write!(f, ": {wanted}");
    }
    match word_of(text, word) {
        None => write!(f, ": word {word} is missing: {wanted}"),
        Some(found) => write_found(word, Shown(found), wanted, f),
    }
}

/// Writes that a word is wrong or too many, and what was wanted.
fn write_found<W: fmt::Write>(
    word: usize,
    found: Shown<'_>,
    wanted: Wanted,
    f: &mut fmt::Formatter<W>,
) -> fmt::Result {
    match wanted {
        Wanted::Nothing => write!(f, ": word {word}, '{found}', is too many"),
        _ => write!(f, ": word {word} is '{found}': {wanted}"),
    }
}

impl fmt::Display for WordOf<'_> {
    fn fmt<W: fmt::Write>(&self, f: &mut fmt::Formatter<W>) -> fmt::Result {
        write_word(*self, f)
    }
}

/// The word of this number, counted from 1, if the line has that many.
fn word_of(text: &[u8], word: usize) -> Option<&[u8]> {
    text.split(|byte| is_blank(*byte))
        .filter(|part| !part.is_empty())
        .nth(word.saturating_sub(1))
}

/// The most bytes of a word that are shown.
const MOST_SHOWN: usize = 100;

/// A word as text. What is not a printing character of ASCII is shown by its two hexadecimal digits.
#[derive(Drop)]
pub struct Shown<'a>(pub &'a [u8]);

impl fmt::Display for Shown<'_> {
    fn fmt<W: fmt::Write>(&self, f: &mut fmt::Formatter<W>) -> fmt::Result {
        for byte in self.0.iter().take(MOST_SHOWN) {
            write_byte(*byte, f)?;
        }
        f.write_str(if self.0.len() > MOST_SHOWN { ".." } else { "" })
    }
}

fn write_byte<W: fmt::Write>(byte: u8, f: &mut fmt::Formatter<W>) -> fmt::Result {
    if byte.is_ascii_graphic() || byte == b' ' {
        f.write_char(char::from(byte))
    } else {
        write!(f, "\\x{byte:02x}")
    }
}
