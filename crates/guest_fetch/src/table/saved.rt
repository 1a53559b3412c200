//! A table as words, and back.

ghost use Rattle.std.specs.Prelude.{◌≡◌, ◌-◌, ◌<◌};
ghost use Rattle.guest_fetch.specs.Saved.{are_spans, is_table as is_table_of, may_follow, table_words};

use super::Table;
use crate::entry::{Entry, fault};
use crate::span::Span;
use saved_state::{RestoreError, Saved, SavedList, Words, save_list};
use std::alloc::{AllocError, Global};

// The most bytes that a command moves.
const MOST_BYTES: u32 = 33_554_432;

// Whether the entry may stand behind this byte of a command of so many bytes.
fn follows(begin: u32, len: u32, span: Span) -> bool
    ensures { result ≡ may_follow begin len span }
{
    if len <= begin || span.end <= begin {
        return false;
    }
    let bytes = span.end - begin;
    let entry = Entry {
        address: span.address,
        bytes,
        interrupt: span.interrupt,
    };
    bytes <= 0x40_0000 && fault(entry).is_none()
}

// Whether each may stand behind the one before it.
fn follow(spans: &[Span], len: u32) -> bool
    ensures { result ≡ are_spans 0 len spans.now }
{
    let mut begin = 0;
    for span in spans {
        if !follows(begin, len, *span) {
            return false;
        }
        begin = span.end;
    }
    true
}

// Whether they are those of a table for a command of so many bytes.
fn is_table(spans: &[Span], len: u32) -> bool
    ensures { result ≡ is_table_of (len, spans.now) }
{
    len <= MOST_BYTES && spans.len() < 0x1_0000 && follow(spans, len)
}

impl Saved for Table {
    ghost put = { table_words.put };

    ghost keeps = { table_words.keeps };

    ghost told_apart = { table_words.apart };

    fn save(&self, words: &mut Words) -> Result<(), AllocError> {
        save_list(&self.spans, words)?;
        self.len.save(words)
    }

    fn restore(alloc: Global, words: &mut Words) -> Result<Table, RestoreError> {
        let (len, list) = match <(u32, SavedList<Span>)>::restore(alloc, words) {
            Ok(parts) => parts,
            Err(error) => return Err(error),
        };
        let spans = list.into_vec();
        if !is_table(&spans, len) {
            return Err(RestoreError::Broken);
        }
        Ok(Table { spans, len })
    }
}
