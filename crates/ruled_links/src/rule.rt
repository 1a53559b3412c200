//! The one rule of every link, and what each step tells the seat that takes it.

use crate::item::Item;
use atomic_table::{Join, Play, Split, TableRule};
use std::collections::LinkedList;

/// What a pass can do, what it knows of the calls, and whether a slot is out with it. No value of this type
/// is ever made.
pub struct View<T> {
    pub sends: bool,
    pub takes: bool,
    pub sent: LinkedList<T>,
    pub taken: LinkedList<T>,
    pub full_at: LinkedList<u64>,
    pub none_at: LinkedList<u64>,
    pub writing: bool,
    pub reading: Option<T>,
}

/// The rule of a link.
pub struct Ruled;

impl<T: Item> TableRule<Option<T>, View<T>, ()> for Ruled {
    ghost use Rattle.ruled_links.specs.Rule.{fresh, IsLinked};

    ghost holds = { λ _. IsLinked T.in_order };

    ghost first = { λ _. fresh };
}

/// The first pass becomes the two seats.
pub(crate) struct Seats;

impl<T> Split<View<T>> for Seats {
    ghost use Rattle.ruled_links.specs.Rule.{sender, taker};

    ghost left = { sender };

    ghost right = { taker };
}

impl<T> Join<View<T>> for Seats {
    ghost use Rattle.ruled_links.specs.Rule.{both, spent};

    ghost both = { both };

    ghost spent = { spent };
}

/// The sender's look at the head.
pub(crate) struct Claims;

impl<T> Play<Option<T>, View<T>> for Claims {
    ghost use Rattle.ruled_links.specs.Rule.{Claimed};

    ghost then = { Claimed };
}

/// A send.
pub(crate) struct Publishes;

impl<T> Play<Option<T>, View<T>> for Publishes {
    ghost use Rattle.ruled_links.specs.Rule.{Published};

    ghost then = { Published };
}

/// The taker's look at the tail.
pub(crate) struct Fetches;

impl<T: Item> Play<Option<T>, View<T>> for Fetches {
    ghost use Rattle.ruled_links.specs.Rule.{Fetched};

    ghost then = { Fetched T.in_order };
}

/// A take.
pub(crate) struct Frees;

impl<T> Play<Option<T>, View<T>> for Frees {
    ghost use Rattle.ruled_links.specs.Rule.{Freed};

    ghost then = { Freed };
}

/// A look at the link by both seats together.
pub(crate) struct Meets;

impl<T: Item> Play<Option<T>, View<T>> for Meets {
    ghost use Rattle.ruled_links.specs.Rule.{Looked};

    ghost then = { Looked T.in_order };
}
