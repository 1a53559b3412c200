//! A link, before its seats are taken.

ghost use Rattle.std.specs.Prelude.{◌≡◌, ◌↔◌, [], true, false, IsTrue, IsNone, IfOk, IfSome};
ghost use Rattle.ruled_links.specs.Links.{is_capacity, new_link};

use crate::item::Item;
use crate::ring::{Pass, Ring};
use crate::seat::{Rx, Tx};
use std::alloc::{AllocError, Global};
use std::marker::Model;
use thiserror::Error;

/// The largest capacity of a link.
pub const MAX_CAPACITY: usize = 64;

/// Why a link cannot be made.
#[derive(Clone, Copy, Debug, PartialEq, Eq, Error)]
pub enum LinkError {
    /// The capacity is 0 or above [`MAX_CAPACITY`].
    #[error("bad capacity")]
    BadCapacity = 1,
    /// The allocator refused memory for the items.
    #[error("out of memory")]
    OutOfMemory = 2,
}

impl From<AllocError> for LinkError {
    ghost use Rattle.std.specs.Prelude.{◌≡◌};
    ghost use Rattle.ruled_links.specs.declared.link.LinkError.TheVariants.{OutOfMemory};

    ghost from_gives = { λ _ e. e ≡ OutOfMemory };

    fn from(_: AllocError) -> LinkError {
        LinkError::OutOfMemory
    }
}

/// A link of a bounded capacity for items from one thread to another. It gives out its two seats once.
#[derive(Drop)]
pub struct Link<T: Item> {
    ring: Ring<T>,
    pass: Option<Pass<T>>,
}

impl<T: Item> Model for Link<T> {
    ghost use Rattle.std.specs.Prelude.{◌≡◌, is_none};
    ghost use Rattle.std.specs.Option.{ForSome};
    ghost use Rattle.ruled_links.specs.Rule.{IsPassOf, fresh, known, room_of};
    ghost use Rattle.ruled_links.specs.Links.{LinkState};

    ghost Value = { LinkState };

    ghost view = { λ l. record { room = room_of l.ring; seated = is_none l.pass } };

    ghost invariant = { λ l. ForSome l.pass (λ p. IsPassOf l.ring p × (known p ≡ fresh)) };
}

impl<T: Item> Link<T> {
    /// An empty link. The capacity is checked before any memory is allocated.
    pub fn new(alloc: Global, capacity: usize) -> Result<Link<T>, LinkError>
        ensures ok { IfOk result (λ link. (link ≡ new_link capacity)
            × (is_capacity capacity ≡ true)) }
        ensures bad_capacity { (result ≡ Err LinkError.BadCapacity) ↔ (is_capacity capacity ≡ false) }
    {
        if capacity < 1 || capacity > MAX_CAPACITY {
            return Err(LinkError::BadCapacity);
        }
        let (ring, pass) = Ring::new(alloc, capacity)?;
        Ok(Link {
            ring,
            pass: Some(pass),
        })
    }

    /// The two seats, unless they were given out before. Nothing was sent yet.
    pub fn seats(&mut self) -> Option<(Tx<'_, T>, Rx<'_, T>)>
        ensures once { IsNone result ↔ IsTrue self.old.seated }
        ensures new { IfSome result (λ s. (s.0 ≡ s.1) × (s.0.room ≡ self.old.room)
            × (s.0.sent ≡ []) × (s.0.taken ≡ []) × (s.0.full_at ≡ []) × (s.0.none_at ≡ [])) }
    {
        let mut pass = self.pass.take()?;
        let ring = &self.ring;
        let other = ring.split(&mut pass);
        let tx = Tx {
            ring,
            pass,
            tail: 0,
        };
        let rx = Rx {
            ring,
            pass: other,
            head: 0,
        };
        Some((tx, rx))
    }
}
