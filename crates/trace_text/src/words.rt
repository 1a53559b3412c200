//! The words of one line.

ghost use Rattle.std.specs.Prelude.{◌≡◌, ◌≤◌, IfOk};

use crate::failure::{Failure, Refusal};
use crate::hex_text::{HexError, bytes_of, hex_fault};
use crate::input::is_blank;
use crate::registers::{controller_offset, port_offset};
use crate::wanted::{Keyword, Quantity, Wanted};
use fis_view::Bytes;
use host_memory::Prd;
use std::alloc::Global;

/// The words of a line that are not read yet. Blanks separate words.
#[derive(Drop)]
pub struct Words<'a> {
    line: usize,
    /// The number of the word that was last asked for, counted from 1.
    asked: usize,
    rest: &'a [u8],
}

impl<'a> Words<'a> {
    /// The words of this text, which is the line of this number.
    pub fn of(line: usize, text: &'a [u8]) -> Words<'a> {
        Words {
            line,
            asked: 0,
            rest: text,
        }
    }

    /// The number of the line.
    pub fn line(&self) -> usize {
        self.line
    }

    /// The refusal of the line for the word that was last asked for, if this was wanted.
    pub fn refused(&self, refusal: Refusal, wanted: Wanted) -> Failure {
        self.refused_at(self.asked, refusal, wanted)
    }

    /// The refusal of the line for the word of this number, if this was wanted.
    pub fn refused_at(&self, word: usize, refusal: Refusal, wanted: Wanted) -> Failure {
        Failure::Line {
            line: self.line,
            refusal,
            word,
            wanted,
        }
    }

    /// The next word, if there is one more.
    pub fn next_word(&mut self) -> Option<&'a [u8]> {
        self.asked = self.asked.saturating_add(1);
        let start = self.rest.iter().position(|byte| !is_blank(*byte))?;
        let text = &self.rest[start..];
        let end = text.iter().position(|byte| is_blank(*byte));
        let (word, rest) = text.split_at(end.unwrap_or(text.len()));
        self.rest = rest;
        Some(word)
    }

    /// Whether the word after the next is this one.
    pub fn has_second(&self, word: &[u8]) -> bool {
        let mut ahead = Words {
            line: self.line,
            asked: self.asked,
            rest: self.rest,
        };
        ahead.next_word().is_some() && ahead.next_word() == Some(word)
    }

    /// The next word as a number within these limits. A word that is missing, or that has anything
    /// except digits, is `number`. A number outside the limits is `range`.
    pub fn number(&mut self, what: Quantity, least: u64, most: u64) -> Result<u64, Failure>
        ensures within { IfOk result (λ n. (least ≤ n) × (n ≤ most)) }
    {
        let wanted = Wanted::Number(what, least, most);
        let Some(word) = self.next_word() else {
            return Err(self.refused(Refusal::Number, wanted));
        };
        match value_within(word, 10, least, most) {
            Ok(value) => Ok(value),
            Err(refusal) => Err(self.refused(refusal, wanted)),
        }
    }

    /// The next word as an address, in hexadecimal.
    pub fn address(&mut self) -> Result<u32, Failure> {
        self.dword(Wanted::Address)
    }

    /// The next word as a dword in hexadecimal, where this is wanted.
    pub fn dword(&mut self, wanted: Wanted) -> Result<u32, Failure> {
        let Some(word) = self.next_word() else {
            return Err(self.refused(Refusal::Number, wanted));
        };
        match value_within(word, 16, 0, 0xFFFF_FFFF) {
            Ok(value) => Ok(value as u32),
            Err(refusal) => Err(self.refused(refusal, wanted)),
        }
    }

    /// The next word as a register of a port, by its name (`PxCMD`) or by its offset among those of the port in
    /// hexadecimal.
    pub fn port_register(&mut self) -> Result<u32, Failure> {
        match port_offset(self.peeked()) {
            Some(offset) => self.named(offset),
            None => self.dword(Wanted::Register),
        }
    }

    /// The next word as a register of a controller, by its name (`GHC`, `PxCMD` of the first port) or by its offset in
    /// hexadecimal.
    pub fn controller_register(&mut self) -> Result<u32, Failure> {
        match controller_offset(self.peeked()) {
            Some(offset) => self.named(offset),
            None => self.dword(Wanted::Offset),
        }
    }

    /// The next word, which is not taken; an empty one if there is none.
    fn peeked(&self) -> &'a [u8] {
        let mut ahead = Words {
            line: self.line,
            asked: self.asked,
            rest: self.rest,
        };
        ahead.next_word().unwrap_or(&[])
    }

    /// Takes the next word, which names this.
    fn named(&mut self, offset: u32) -> Result<u32, Failure> {
        let _name = self.next_word();
        Ok(offset)
    }

    /// The next word as an address of 64 bits, in hexadecimal.
    pub fn long_address(&mut self) -> Result<u64, Failure> {
        let Some(word) = self.next_word() else {
            return Err(self.refused(Refusal::Number, Wanted::LongAddress));
        };
        match value_within(word, 16, 0, u64::MAX) {
            Ok(value) => Ok(value),
            Err(refusal) => Err(self.refused(refusal, Wanted::LongAddress)),
        }
    }

    /// The next word as the path of a file.
    pub fn path(&mut self) -> Result<&'a [u8], Failure> {
        match self.next_word() {
            Some(word) => Ok(word),
            None => Err(self.refused(Refusal::Number, Wanted::Path)),
        }
    }

    /// The next word as an address and a number of bytes, with a colon between them.
    pub fn prd(&mut self) -> Result<Prd, Failure> {
        let Some(word) = self.next_word() else {
            return Err(self.refused(Refusal::Number, Wanted::Place));
        };
        match prd_of(word) {
            Ok(prd) => Ok(prd),
            Err(refusal) => Err(self.refused(refusal, Wanted::Place)),
        }
    }

    /// All words that are left as such pairs, at least one.
    pub fn prds(&mut self, alloc: Global) -> Result<Vec<Prd>, Failure> {
        let mut prds = Vec::new(alloc);
        for _ in 0..=self.rest.len() {
            let prd = self.prd()?;
            prds.push(prd).map_err(|_| Failure::OutOfMemory)?;
            if self.is_at_end() {
                break;
            }
        }
        Ok(prds)
    }

    /// Whether no word is left.
    pub fn is_at_end(&self) -> bool {
        self.rest.iter().all(|byte| is_blank(*byte))
    }

    /// The next word as a port's number, at most this one.
    pub fn port(&mut self, last: u8) -> Result<u8, Failure>
        ensures within { IfOk result (λ n. n ≤ last) }
    {
        Ok(self.number(Quantity::Port, 0, u64::from(last))? as u8)
    }

    /// Takes the next word, which must be this one.
    pub fn keyword(&mut self, keyword: Keyword) -> Result<(), Failure> {
        match self.next_word() {
            Some(word) if word == keyword.bytes() => Ok(()),
            _ => Err(self.refused(Refusal::Number, Wanted::Keyword(keyword))),
        }
    }

    /// Takes the next word if it is this one, and says whether it was.
    pub fn takes(&mut self, keyword: &[u8]) -> bool {
        let (asked, rest) = (self.asked, self.rest);
        let is_there = self.next_word() == Some(keyword);
        if !is_there {
            self.asked = asked;
            self.rest = rest;
        }
        is_there
    }

    /// All words that are left as the digits of bytes. No word at all is `number`.
    pub fn bytes(&mut self, alloc: Global) -> Result<Bytes, Failure> {
        let first = self.asked.saturating_add(1);
        let Some(start) = self.rest.iter().position(|byte| !is_blank(*byte)) else {
            return Err(self.refused_at(first, Refusal::Number, Wanted::Digits));
        };
        let text = &self.rest[start..];
        let bytes = match bytes_of(alloc, text) {
            Ok(bytes) => bytes,
            Err(HexError::BadHex) => {
                let (word, wanted) = hex_fault(text, first);
                return Err(self.refused_at(word, Refusal::Hex, wanted));
            }
            Err(HexError::OutOfMemory) => return Err(Failure::OutOfMemory),
        };
        self.rest = &[];
        Ok(Bytes::from_vec(bytes))
    }

    /// The rest of the line, in which there is a word.
    pub fn text(&mut self) -> Result<&'a [u8], Failure> {
        if self.is_at_end() {
            let next = self.asked.saturating_add(1);
            return Err(self.refused_at(next, Refusal::Number, Wanted::Text));
        }
        let text = self.rest;
        self.rest = &[];
        Ok(text)
    }

    /// Checks that no word is left.
    pub fn end(&self) -> Result<(), Failure> {
        if self.is_at_end() {
            return Ok(());
        }
        Err(self.refused_at(
            self.asked.saturating_add(1),
            Refusal::Number,
            Wanted::Nothing,
        ))
    }
}

/// An address in hexadecimal and a number of bytes in decimal, with a colon between them.
fn prd_of(word: &[u8]) -> Result<Prd, Refusal> {
    let Some(colon) = word.iter().position(|byte| *byte == b':') else {
        return Err(Refusal::Number);
    };
    let (address, rest) = word.split_at(colon);
    let address = value_within(address, 16, 0, 0xFFFF_FFFF)? as u32;
    let bytes = value_within(rest.get(1..).unwrap_or(&[]), 10, 0, 0xFFFF_FFFF)? as u32;
    Ok(Prd { address, bytes })
}

/// What a word spells in this base, 10 or 16. A word that has anything except digits, or nothing, is
/// `number`. A number outside these limits is `range`.
pub fn value_within(word: &[u8], base: u8, least: u64, most: u64) -> Result<u64, Refusal>
    ensures within { IfOk result (λ n. (least ≤ n) × (n ≤ most)) }
{
    if word.is_empty() || !word.iter().all(|byte| is_digit(*byte, base)) {
        return Err(Refusal::Number);
    }
    match value_of(word, base) {
        Some(value) if least <= value && value <= most => Ok(value),
        _ => Err(Refusal::Range),
    }
}

/// Whether the byte is a digit in this base, 10 or 16.
fn is_digit(byte: u8, base: u8) -> bool {
    if base == 10 {
        byte.is_ascii_digit()
    } else {
        byte.is_ascii_hexdigit()
    }
}

/// The number that these digits spell in this base, if it is below 2^64.
fn value_of(digits: &[u8], base: u8) -> Option<u64> {
    digits.iter().try_fold(0u64, |value, digit| {
        value
            .checked_mul(u64::from(base))?
            .checked_add(digit_value(*digit))
    })
}

/// What a digit stands for.
fn digit_value(digit: u8) -> u64 {
    let value = match digit {
        b'a'..=b'f' => digit - b'a' + 10,
        b'A'..=b'F' => digit - b'A' + 10,
        _ => digit.wrapping_sub(b'0'),
    };
    u64::from(value)
}
