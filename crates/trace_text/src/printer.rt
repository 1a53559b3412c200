//! What a scenario prints, and what it expects to print.

use crate::failure::Failure;
use crate::input::is_blank;
use crate::note::Shown;
use std::alloc::{AllocError, Global};
use std::fmt;
use std::fmt::Display;
use std::io::Write;

/// Prints line by line. While a line of the scenario waits for what is printed next, each printed
/// line is compared.
#[derive(Drop)]
pub struct Printer<'a> {
    /// What lines expect, in order; those before the first that waits are met.
    expected: Vec<Expected<'a>>,
    met: usize,
    /// What was printed when something else was expected.
    found: Option<String>,
    /// Whether each line is an object of JSON.
    is_json: bool,
}

/// What a line of the scenario expects to be printed next.
#[derive(Clone, Copy)]
pub struct Expected<'a> {
    /// The line that expects it, counted from 1.
    pub line: usize,
    pub text: &'a [u8],
}

impl<'a> Printer<'a> {
    /// Nothing is expected.
    pub fn new(alloc: Global, is_json: bool) -> Printer<'a> {
        Printer {
            is_json,
            expected: Vec::new(alloc),
            met: 0,
            found: None,
        }
    }

    /// Expects this after all that is expected already.
    pub fn expect(&mut self, expected: Expected<'a>) -> Result<(), AllocError> {
        if self.met == self.expected.len() {
            self.expected.clear();
            self.met = 0;
        }
        Ok(self.expected.push(expected)?)
    }

    /// What is expected next.
    fn next(&self) -> Option<Expected<'a>> {
        self.expected.get(self.met).copied()
    }

    /// Prints a line. It must be what was expected, if anything was.
    pub fn print<D: Display, W: Write>(
        &mut self,
        alloc: Global,
        said: &D,
        out: &mut W,
    ) -> Result<(), Failure> {
        self.write(said, out)?;
        let Some(expected) = self.next() else {
            return Ok(());
        };
        let text = format!(in alloc; "{said}")?;
        if trimmed(text.as_bytes()) == trimmed(expected.text) {
            self.met = self.met.saturating_add(1);
            return Ok(());
        }
        self.found = Some(text);
        Err(Failure::Unexpected {
            line: expected.line,
        })
    }

    /// Writes a line. No line that is printed has a quotation mark or a backslash.
    fn write<D: Display, W: Write>(&self, said: &D, out: &mut W) -> Result<(), Failure> {
        if self.is_json {
            writeln!(out, "{{\"printed\":\"{said}\"}}")?;
        } else {
            writeln!(out, "{said}")?;
        }
        Ok(())
    }

    /// Checks that nothing is expected any more.
    pub fn end(&self) -> Result<(), Failure> {
        match self.next() {
            None => Ok(()),
            Some(expected) => Err(Failure::Unexpected {
                line: expected.line,
            }),
        }
    }

    /// What was expected and what was printed in its place, if these differ.
    pub fn mismatch(&self) -> Option<Mismatch<'_>> {
        let expected = self.next()?;
        Some(Mismatch {
            expected,
            found: self.found.as_ref().map(|text| text.as_str()),
        })
    }
}

/// What was expected, and what was printed: None if nothing more was.
#[derive(Drop)]
pub struct Mismatch<'a> {
    expected: Expected<'a>,
    found: Option<&'a str>,
}

impl fmt::Display for Mismatch<'_> {
    fn fmt<W: fmt::Write>(&self, f: &mut fmt::Formatter<W>) -> fmt::Result {
        let text = Shown(trimmed(self.expected.text));
        write!(f, "line {}: expect: wanted '{text}'", self.expected.line)?;
        match self.found {
            Some(found) => write!(f, ", printed '{}'", Shown(found.as_bytes())),
            None => f.write_str(", and nothing more is printed"),
        }
    }
}

/// A text without the blanks before and after it.
fn trimmed(text: &[u8]) -> &[u8] {
    let start = text.iter().position(|byte| !is_blank(*byte));
    let end = text.iter().rposition(|byte| !is_blank(*byte));
    match (start, end) {
        (Some(start), Some(end)) => text.get(start..=end).unwrap_or(&[]),
        _ => &[],
    }
}
