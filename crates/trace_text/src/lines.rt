//! The lines of a scenario in the order in which they are played.

use crate::input::{without_comment, without_return};

/// The lines of a scenario, one after the other. A block of them is repeated as often as its `repeat`
/// says.
#[derive(Drop)]
pub struct Lines<'a> {
    /// What follows the last line; None if it was the last of all.
    rest: Option<&'a [u8]>,
    /// The number of the last line, counted from 1.
    number: usize,
    /// The block in which the last line stands.
    block: Option<Block<'a>>,
}

/// A block of lines.
#[derive(Clone, Copy)]
struct Block<'a> {
    /// What follows the line that begins it.
    rest: Option<&'a [u8]>,
    /// The number of that line.
    number: usize,
    /// How often the block is still repeated.
    left: u64,
}

impl<'a> Lines<'a> {
    /// All lines of this input.
    pub fn of(input: &'a [u8]) -> Lines<'a> {
        Lines {
            rest: Some(input),
            number: 0,
            block: None,
        }
    }

    /// The next line and its number, without its comment and what ends it.
    pub fn next_line(&mut self) -> Option<(usize, &'a [u8])> {
        let rest = self.rest?;
        self.number = self.number.saturating_add(1);
        let (line, behind) = first_line(rest);
        self.rest = behind;
        Some((self.number, without_comment(without_return(line))))
    }

    /// Whether the last line stands in a block.
    pub fn is_in_block(&self) -> bool {
        self.block.is_some()
    }

    /// Whether a line follows whose first word is `end`.
    pub fn has_end(&self) -> bool {
        let rest = self.rest.unwrap_or(&[]);
        rest.split(|byte| *byte == b'\n').any(is_end)
    }

    /// The last line begins a block, which is played this many times in all.
    pub fn begin_block(&mut self, times: u64) {
        self.block = Some(Block {
            rest: self.rest,
            number: self.number,
            left: times.saturating_sub(1),
        });
    }

    /// The last line ends its block, which is repeated or done.
    pub fn end_block(&mut self) {
        match self.block {
            Some(block) if block.left > 0 => {
                self.rest = block.rest;
                self.number = block.number;
                self.block = Some(Block {
                    left: block.left.saturating_sub(1),
                    ..block
                });
            }
            _ => self.block = None,
        }
    }
}

/// The first line of a text, and what follows its line feed, if it has one.
fn first_line(text: &[u8]) -> (&[u8], Option<&[u8]>) {
    match text.iter().position(|byte| *byte == b'\n') {
        Some(end) => {
            let (line, behind) = text.split_at(end);
            (line, behind.get(1..))
        }
        None => (text, None),
    }
}

/// Whether the first word of a line is `end`.
fn is_end(line: &[u8]) -> bool {
    let mut words = without_return(line)
        .split(|byte| crate::input::is_blank(*byte))
        .filter(|word| !word.is_empty());
    words.next() == Some(b"end".as_slice())
}
