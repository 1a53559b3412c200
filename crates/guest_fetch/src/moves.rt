//! Where the bytes of a payload go, or come from.

ghost use Rattle.std.specs.Prelude.{◌≡◌, ◌+◌, ◌-◌, ◌^◌, ◌<◌, ◌≤◌, ◌&&◌, nat_le, drop};
ghost use Rattle.guest_fetch.specs.Moves.{HoldMoves, move_of, moves_of};
ghost use Rattle.guest_fetch.specs.Spans.{entries_from, entry_from};

mod saved;

use crate::span::Span;
use std::marker::Model;

/// A run of a payload's bytes, and where in the guest's memory it lies. For a read it is to be written there, for a write
/// it is wanted from there.
#[derive(Clone, Copy, Debug, PartialEq, Eq)]
pub struct Move {
    /// The address of the first of them in the guest's memory.
    pub at: u64,
    /// The offset of the first of them in the payload.
    pub from: usize,
    /// How many there are.
    pub len: usize,
    /// The last of them is the last byte of an entry with I (PxIS.DPS, once they are moved).
    pub interrupt: bool,
}

/// The moves of a payload, in the order of its bytes. There is one for each entry of the table that has some of them, and
/// none is empty. [`Table::moves`](crate::Table::moves) makes it.
#[derive(Debug, Drop)]
pub struct Moves<'t> {
    spans: &'t [Span],
    // The entry of the next byte, and where its bytes begin in the command.
    next: usize,
    begin: u32,
    // Of the command: the first byte of the payload, the next one, and where the payload's bytes end.
    first: u32,
    at: u32,
    end: u32,
}

impl<'t> Model for Moves<'t> {
    ghost use Rattle.std.specs.Prelude.{◌-◌, List, drop};
    ghost use Rattle.guest_fetch.specs.declared.moves.Move.{Move};
    ghost use Rattle.guest_fetch.specs.Moves.{HoldMoves, moves_of};
    ghost use Rattle.guest_fetch.specs.Spans.{entries_from};

    ghost Value = { List Move };

    ghost view = { λ m. moves_of (entries_from m.begin (drop m.next m.spans.now))
        (m.at - m.begin) (m.at - m.first) (m.end - m.at) };

    ghost invariant = { λ m. HoldMoves m.spans.now m.next m.begin m.first m.at m.end };
}

// The move of the command's bytes `at` to `end`, as far as the entry goes whose bytes begin at `begin`; `first` is the first
// byte of the payload.
fn step_of(span: Span, begin: u32, first: u32, at: u32, end: u32) -> Move
    requires begun { first ≤ at }
    requires after { begin ≤ at }
    requires here { at < span.end }
    requires left { at < end }
    requires inside { span.address + (span.end - begin) ≤ 2 ^ 64 }
    ensures { result ≡ move_of (entry_from begin span) (at - begin) (at - first) (end - at) }
{
    Move {
        at: span.address + u64::from(at - begin),
        from: (at - first) as usize,
        len: (span.end.min(end) - at) as usize,
        interrupt: is_told(span, at, end),
    }
}

// Whether the command's bytes `at` to `end` have the last byte of an entry with I.
fn is_told(span: Span, at: u32, end: u32) -> bool
    requires here { at < span.end }
    requires left { at < end }
    ensures { result ≡ (span.interrupt && nat_le (span.end - at) (end - at)) }
{
    span.interrupt && span.end - at <= end - at
}

impl<'t> Moves<'t> {
    // The moves of the command's bytes `first` to `end`, of which the first lies in the entry `next`, whose bytes begin at
    // `begin`.
    pub(crate) fn of(spans: &'t [Span], next: usize, begin: u32, first: u32, end: u32) -> Moves<'t>
        requires { HoldMoves spans.now next begin first first end }
        ensures { result ≡ moves_of (entries_from begin (drop next spans.now)) (first - begin) 0 (end - first) }
    {
        Moves {
            spans,
            next,
            begin,
            first,
            at: first,
            end,
        }
    }
}

impl<'t> Iterator for Moves<'t> {
    ghost use Rattle.std.specs.Iterator.{YieldsFirst, item_count};

    type Item = Move;

    ghost next_gives = { YieldsFirst (λ moves. moves) };

    ghost remaining = { item_count (λ moves. moves) };

    fn next(&mut self) -> Option<Move> {
        if self.at == self.end {
            return None;
        }
        let span = self.spans[self.next];
        let step = step_of(span, self.begin, self.first, self.at, self.end);
        self.next += 1;
        self.begin = span.end;
        self.at = span.end.min(self.end);
        Some(step)
    }
}
