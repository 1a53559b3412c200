//! Lines about the lines of a scenario: what is expected, and what is repeated.

use crate::failure::{Failure, Refusal};
use crate::lines::Lines;
use crate::printer::{Expected, Printer};
use crate::wanted::{Quantity, Wanted};
use crate::words::Words;

/// The most times that a block is played.
const MOST_TIMES: u64 = 1_000_000;

/// Does what a line of this name says about the lines themselves, if it is one: `expect`, `repeat` or
/// `end`. Says whether it was.
pub fn play_aside<'a>(
    name: &[u8],
    words: &mut Words<'a>,
    lines: &mut Lines<'a>,
    printer: &mut Printer<'a>,
) -> Result<bool, Failure> {
    match name {
        b"expect" => expect(printer, words)?,
        b"repeat" => begin_block(lines, words)?,
        b"end" => end_block(lines, words)?,
        _ => return Ok(false),
    }
    Ok(true)
}

/// Does what a line `expect` says.
fn expect<'a>(printer: &mut Printer<'a>, words: &mut Words<'a>) -> Result<(), Failure> {
    let text = words.text()?;
    let line = words.line();
    Ok(printer.expect(Expected { line, text })?)
}

/// Does what a line `repeat` says.
fn begin_block(lines: &mut Lines<'_>, words: &mut Words<'_>) -> Result<(), Failure> {
    if lines.is_in_block() {
        return Err(words.refused(Refusal::Order, Wanted::OneBlock));
    }
    let times = words.number(Quantity::Times, 1, MOST_TIMES)?;
    words.end()?;
    if !lines.has_end() {
        return Err(words.refused_at(1, Refusal::Order, Wanted::End));
    }
    lines.begin_block(times);
    Ok(())
}

/// Does what a line `end` says.
fn end_block(lines: &mut Lines<'_>, words: &mut Words<'_>) -> Result<(), Failure> {
    if !lines.is_in_block() {
        return Err(words.refused(Refusal::Order, Wanted::Repeat));
    }
    words.end()?;
    lines.end_block();
    Ok(())
}
