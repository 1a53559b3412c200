//! The two seats of a link.

ghost use Rattle.std.specs.Prelude.{◌≡◌, ◌+◌, ◌≤◌, [], ◌∷◌, ◌++◌, length, OnOk, IfErr, IfNone, IfSome};
ghost use Rattle.ruled_links.specs.Calls.{IsAnswered};
ghost use Rattle.ruled_links.specs.Links.{IsLink, content};
ghost use Rattle.ruled_links.specs.Lists.{Agree, IsPrefixOf};

use crate::item::Item;
use crate::ring::{Pass, Ring};
use std::marker::Model;
use std::sync::Wait;
use thiserror::Error;

/// The link was full. The item comes back.
#[derive(Debug, Drop, Error)]
#[error("full")]
pub struct Full<T>(pub T);

/// The sending seat of a link. It knows all that was sent.
#[derive(Drop)]
pub struct Tx<'a, T: Item> {
    pub(crate) ring: &'a Ring<T>,
    pub(crate) pass: Pass<T>,
    pub(crate) tail: u64,
}

impl<'a, T: Item> Model for Tx<'a, T> {
    ghost use Rattle.std.specs.Prelude.{◌≡◌, length};
    ghost use Rattle.ruled_links.specs.Rule.{CanSend, IsPassOf, known, room_of};
    ghost use Rattle.ruled_links.specs.Links.{Seat};

    ghost Value = { Seat T };

    ghost view = { λ s. record {
      link = s.pass.table_id;
      room = room_of s.ring.now;
      sent = (known s.pass).sent;
      taken = (known s.pass).taken;
      full_at = (known s.pass).full_at;
      none_at = (known s.pass).none_at;
    } };

    ghost invariant = { λ s. IsPassOf s.ring.now s.pass × CanSend (known s.pass)
        × (s.tail ≡ length (known s.pass).sent) };
}

/// The taking seat of a link. It knows all that was taken.
#[derive(Drop)]
pub struct Rx<'a, T: Item> {
    pub(crate) ring: &'a Ring<T>,
    pub(crate) pass: Pass<T>,
    pub(crate) head: u64,
}

impl<'a, T: Item> Model for Rx<'a, T> {
    ghost use Rattle.std.specs.Prelude.{◌≡◌, length};
    ghost use Rattle.ruled_links.specs.Rule.{CanTake, IsPassOf, known, room_of};
    ghost use Rattle.ruled_links.specs.Links.{Seat};

    ghost Value = { Seat T };

    ghost view = { λ s. record {
      link = s.pass.table_id;
      room = room_of s.ring.now;
      sent = (known s.pass).sent;
      taken = (known s.pass).taken;
      full_at = (known s.pass).full_at;
      none_at = (known s.pass).none_at;
    } };

    ghost invariant = { λ s. IsPassOf s.ring.now s.pass × CanTake (known s.pass)
        × (s.head ≡ length (known s.pass).taken) };
}

impl<'a, T: Item> Tx<'a, T> {
    /// Sends the item, after all items sent before. It comes back only if the link was full at some moment of
    /// the call.
    pub fn send<R: Wait>(&mut self, rt: &R, item: T) -> Result<(), Full<T>>
        requires { T.in_order (self.old.sent ++ item ∷ []) }
        ensures sent { OnOk result (self.new ≡ record self.old { sent = self.old.sent ++ item ∷ [] }) }
        ensures full { IfErr result (λ full. (full.0 ≡ item)
            × (self.new ≡ record self.old { full_at = self.old.full_at ++ length self.old.sent ∷ [] })
            × (length self.old.taken + self.old.room ≤ length self.old.sent)) }
    {
        match self.ring.push(rt, &mut self.pass, self.tail, item) {
            Ok(()) => {
                self.tail += 1;
                Ok(())
            }
            Err(item) => Err(Full(item)),
        }
    }
}

impl<'a, T: Item> Rx<'a, T> {
    /// Takes the first item that the link holds. None only if the link was empty at some moment of the call.
    pub fn take<R: Wait>(&mut self, rt: &R) -> Option<T>
        ensures taken { IfSome result
            (λ item. self.new ≡ record self.old { taken = self.old.taken ++ item ∷ [] }) }
        ensures ordered { IfSome result (λ _. T.in_order self.new.taken) }
        ensures agree { IfSome result (λ _. Agree self.new.sent self.new.taken) }
        ensures empty { IfNone result (
            (self.new ≡ record self.old { none_at = self.old.none_at ++ length self.old.taken ∷ [] })
            × IsPrefixOf self.old.sent self.old.taken) }
    {
        let item = self.ring.pop(rt, &mut self.pass, self.head)?;
        self.head += 1;
        Some(item)
    }
}

/// Brings the seats of one link together, so that each knows all that the other did.
pub fn meet<'a, T: Item>(tx: Tx<'a, T>, rx: Rx<'a, T>) -> (Tx<'a, T>, Rx<'a, T>)
    requires { tx.link ≡ rx.link }
    ensures seats { (result.1 ≡ result.0)
        × (result.0 ≡ record tx.entry { taken = rx.entry.taken; none_at = rx.entry.none_at }) }
    ensures link { IsLink tx.entry.room tx.entry.sent rx.entry.taken (content result.0) }
    ensures ordered { T.in_order tx.entry.sent }
    ensures answers { IsAnswered result.0 }
{
    let Tx {
        ring,
        mut pass,
        tail,
    } = tx;
    let Rx {
        ring: _,
        pass: other,
        head,
    } = rx;
    ring.join(&mut pass, other);
    let other = ring.split(&mut pass);
    let tx = Tx { ring, pass, tail };
    let rx = Rx {
        ring,
        pass: other,
        head,
    };
    (tx, rx)
}
