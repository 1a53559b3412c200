//! Which buffers share bytes. Most share none, and their order or their spans tell that in one pass.

ghost use Rattle.std.specs.Prelude.{◌≡◌, ◌+◌};
ghost use Rattle.host_memory.specs.Reading.{have_overlap as have_overlap_of, lie_in_order as lie_in_order_of, share_byte as share_byte_of, shares_with as shares_with_of, share_with as share_with_of};
ghost use Rattle.hba_driver.specs.Spans.{Spans, are_apart, holds_some, with_buffer};

use host_memory::Prd;
use std::marker::Model;

/// The bytes from `start` on and below `end`.
#[derive(Clone, Copy, Debug, PartialEq, Eq)]
pub(crate) struct Span {
    pub(crate) start: u64,
    pub(crate) end: u64,
}

/// A span of no buffer.
pub(crate) const NO_SPAN: Span = Span {
    start: u64::MAX,
    end: 0,
};

/// Buffers with a span of theirs.
#[derive(Drop)]
pub(crate) struct Buffers<'a> {
    prds: &'a [Prd],
    span: Span,
}

impl<'a> Model for Buffers<'a> {
    ghost use Rattle.std.specs.Prelude.{List};
    ghost use Rattle.host_memory.specs.declared.table.Prd.{Prd};
    ghost use Rattle.hba_driver.specs.Spans.{Spans};

    ghost Value = { List Prd };

    ghost view = { λ b. b.prds.now };

    ghost invariant = { λ b. Spans b.span b.prds.now };
}

// Where a buffer ends.
fn end_of(prd: Prd) -> u64
    ensures { result ≡ prd.address + prd.bytes }
{
    u64::from(prd.address) + u64::from(prd.bytes)
}

impl Span {
    // The span with a buffer more.
    fn with(self, prd: Prd) -> Span
        ensures { result ≡ with_buffer self prd }
    {
        Span {
            start: self.start.min(u64::from(prd.address)),
            end: self.end.max(end_of(prd)),
        }
    }

    /// A span of these buffers.
    pub(crate) fn of(prds: &[Prd]) -> Span
        ensures { Spans result prds.now }
    {
        let mut span = NO_SPAN;
        for prd in prds {
            span = span.with(*prd);
        }
        span
    }

    // Whether it has no byte of the other.
    fn is_apart(self, other: Span) -> bool
        ensures { result ≡ are_apart self other }
    {
        self.end <= other.start || other.end <= self.start
    }

    /// Whether one of `len` bytes from an address on may be in it.
    pub(crate) fn may_hold(self, at: u32, len: u32) -> bool
        ensures { result ≡ holds_some self at len }
    {
        u64::from(at) < self.end && self.start < u64::from(at) + u64::from(len)
    }
}

fn share_byte(p: Prd, q: Prd) -> bool
    ensures { result ≡ share_byte_of p q }
{
    u64::from(p.address.max(q.address)) < end_of(p).min(end_of(q))
}

fn shares_with(prd: Prd, others: &[Prd]) -> bool
    ensures { result ≡ shares_with_of prd others.now }
{
    others.iter().any(|other| share_byte(prd, *other))
}

impl<'a> Buffers<'a> {
    /// These buffers.
    pub(crate) fn of(prds: &'a [Prd]) -> Buffers<'a>
        ensures { result ≡ prds.now }
    {
        Buffers {
            prds,
            span: Span::of(prds),
        }
    }

    /// Whether one of them shares a byte with one of the others, which have this span.
    pub(crate) fn share_with(&self, others: &[Prd], span: Span) -> bool
        requires { Spans span others.now }
        ensures { result ≡ share_with_of self.now others.now }
    {
        !self.span.is_apart(span) && self.prds.iter().any(|prd| shares_with(*prd, others))
    }
}

// Whether each buffer begins at or after the end of the one before it.
fn lie_in_order(prds: &[Prd]) -> bool
    ensures { result ≡ lie_in_order_of 0 prds.now }
{
    let mut end = 0;
    for prd in prds {
        if u64::from(prd.address) < end {
            return false;
        }
        end = end_of(*prd);
    }
    true
}

/// Whether two of these buffers share a byte. In order, none do.
pub(crate) fn have_overlap(prds: &[Prd]) -> bool
    ensures { result ≡ have_overlap_of prds.now }
{
    !lie_in_order(prds) && host_memory::have_overlap(prds)
}
