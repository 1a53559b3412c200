//! Links between two threads: what is taken is what was sent, in order.
//!
//! A [`Link`] of a bounded capacity has two seats: one that sends ([`Tx`]) and one that takes ([`Rx`]), each
//! for a thread of its own. A contract sees a seat as two lists. The seat knows its own list completely, and
//! a prefix of the other's. So a call promises only what holds whatever the other thread does meanwhile.
//! [`meet`] brings both seats together again: what was taken, followed by what the link holds, is what was
//! sent, and no answer before it was wrong.
//!
//! What a link carries is an [`Item`], whose type names the order in which items can be sent. Every link is a
//! ring of slots under one rule, `specs/Rule.antt`, which each atomic step keeps.
#![tactic(auto)]

mod item;
mod link;
mod ring;
mod rule;
mod seat;
mod steps;

pub use item::Item;
pub use link::{Link, LinkError, MAX_CAPACITY};
pub use seat::{Full, Rx, Tx, meet};
