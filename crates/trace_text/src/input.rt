//! The input of the program, read whole, and what a line of it may be.

ghost use Rattle.std.specs.Prelude.{◌≡◌, ◌≤◌, IfSome};
ghost use Rattle.trace_text.specs.Text.{is_blank};

use crate::failure::{Failure, Refusal};
use crate::wanted::Wanted;
use std::alloc::Global;
use std::io::Read;

/// The most bytes of an input.
pub const LONGEST_INPUT: usize = 16 * 1024 * 1024;

/// The most bytes of a line, without its line feed.
pub const LONGEST_LINE: usize = 20_000;

/// Reads to the end, or to the first byte past the limit: what follows that byte changes no answer.
/// If there is too much input, or a line is too long, that is `size` at the first line that is too
/// long or holds a byte past the limit.
pub fn read_input<R: Read + Drop>(alloc: Global, reader: R) -> Result<Vec<u8>, Failure> {
    let mut input = Vec::new(alloc);
    reader
        .take(LONGEST_INPUT as u64 + 1)
        .read_to_end(&mut input)?;
    match oversized_line(&input) {
        Some(line) => Err(Failure::Line {
            line,
            refusal: Refusal::Size,
            word: 0,
            wanted: Wanted::Size,
        }),
        None => Ok(input),
    }
}

/// The first line, counted from 1, that is too long or holds a byte past the input's limit. A line
/// feed belongs to the line that it ends.
fn oversized_line(input: &[u8]) -> Option<usize>
    ensures counted { IfSome result (λ line. 1 ≤ line) }
{
    let mut room = LONGEST_INPUT;
    let mut number = 0usize;
    for line in input.split_inclusive(|byte| *byte == b'\n') {
        number = number.saturating_add(1);
        if line.len() > room || without_line_feed(line).len() > LONGEST_LINE {
            return Some(number);
        }
        room -= line.len();
    }
    None
}

/// The line without the line feed that ends it.
pub fn without_line_feed(line: &[u8]) -> &[u8] {
    match line {
        [text @ .., b'\n'] => text,
        _ => line,
    }
}

/// The line without a carriage return that ends it.
pub fn without_return(line: &[u8]) -> &[u8] {
    match line {
        [text @ .., b'\r'] => text,
        _ => line,
    }
}

/// The line without its comment, which begins with a `#` at its start or behind a blank.
pub fn without_comment(line: &[u8]) -> &[u8] {
    for at in 0..line.len() {
        if line[at] == b'#' && (at == 0 || is_blank(line[at - 1])) {
            return &line[..at];
        }
    }
    line
}

/// The line of this number, counted from 1, without its comment; an empty one if there are not that many.
pub fn line_of(input: &[u8], number: usize) -> &[u8] {
    let line = input
        .split(|byte| *byte == b'\n')
        .nth(number.saturating_sub(1));
    without_comment(without_return(line.unwrap_or(&[])))
}

/// Whether a line says nothing: its first byte is `#`, or it has only blanks.
pub fn is_skipped(line: &[u8]) -> bool {
    line.first() == Some(&b'#') || line.iter().all(|byte| is_blank(*byte))
}

/// Whether the byte stands between words: a space or a tab.
pub fn is_blank(byte: u8) -> bool
    ensures { result ≡ is_blank byte }
{
    byte == b' ' || byte == b'\t'
}
