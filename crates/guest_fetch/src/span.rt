//! Entries as they are kept.

ghost use Rattle.std.specs.Prelude.{◌≡◌, ◌+◌, ◌-◌, ◌*◌, ◌<◌, ◌≤◌, ◌++◌, IsNone, length, slice_index_or, None, OnErr, OnOk};
ghost use Rattle.guest_fetch.specs.Entries.{entries_at, first_fault, reached};
ghost use Rattle.guest_fetch.specs.Places.{total_of};
ghost use Rattle.guest_fetch.specs.Spans.{IsTable, begin_in, entries_from, most_bytes, no_span, table_of};

mod saved;

use crate::entry::read_entry;
use std::alloc::AllocError;

/// An entry as it is kept: not with the number of its bytes, but with where they end.
#[derive(Clone, Copy, Debug, PartialEq, Eq)]
pub struct Span {
    /// The address of the first byte.
    pub(crate) address: u64,
    /// The byte of the command before which its last byte lies.
    pub(crate) end: u32,
    /// The host is to be told once its last byte was moved.
    pub(crate) interrupt: bool,
}

// Where the bytes of an entry begin: at the end of the one before it.
pub(crate) fn begin_of(spans: &[Span], index: usize) -> u32
    requires { index ≤ length spans.now }
    ensures { result ≡ begin_in spans.now index }
{
    if index == 0 { 0 } else { spans[index - 1].end }
}

// The first entry that ends after this byte, found by halving; the number of entries where none does.
pub(crate) fn span_of(spans: &[Span], byte: u32) -> usize
    ensures there { result ≤ length spans.now }
    ensures begins { begin_in spans.now result ≤ byte }
    ensures ends_after { result < length spans.now
        → byte < (slice_index_or spans.now result no_span).end }
{
    let mut from = 0;
    let mut to = spans.len();
    'halving: while from < to {
        let middle = from + (to - from) / 2;
        if spans[middle].end <= byte {
            from = middle + 1;
        } else {
            to = middle;
        }
    }
    from
}

// Keeps the entries in these bytes, as far as the command's `len` bytes reach. Where memory is refused, it keeps none of
// them.
pub(crate) fn keep(
    spans: &mut Vec<Span>,
    len: u32,
    raw: &[u8],
    count: u16,
) -> Result<(), AllocError>
    requires table { IsTable (table_of spans.old.items len) }
    requires raw { 16 * count ≤ length raw.now }
    requires few { length spans.old.items + count < 65536 }
    requires sound { first_fault (length spans.old.items)
        (len - total_of (entries_from 0 spans.old.items)) (entries_at raw.now 0 count) ≡ None }
    ensures ok { OnOk result (entries_from 0 spans.new.items
        ≡ entries_from 0 spans.old.items
        ++ reached (len - total_of (entries_from 0 spans.old.items)) (entries_at raw.now 0 count)) }
    ensures table { IsTable (table_of spans.new.items len) }
    ensures err { OnErr result (spans.new.items ≡ spans.old.items) }
{
    let old = spans.len();
    let mut end = begin_of(spans, old);
    for i in 0..count {
        if len <= end {
            return Ok(());
        }
        let entry = read_entry(raw, 16 * usize::from(i));
        end += entry.bytes;
        let span = Span {
            address: entry.address,
            end,
            interrupt: entry.interrupt,
        };
        if let Err(e) = spans.push(span) {
            spans.truncate(old);
            return Err(e.into());
        }
    }
    Ok(())
}
