//! What C holds of a multiplier, a disk or a machine: a struct in its own storage, with a pointer to a value that
//! this library owns.
//!
//! Only four small functions handle pointers: [`Loose::of`], [`Held::from_loose`], [`Held::into_box`] and
//! [`Held::nothing`]. Each of them is proved by hand. All others are proved from their contracts.

ghost use Rattle.std.specs.Prelude.{◌≡◌, ◌==◌, MatchOption, None, Option, Some, is_some, true};
ghost use Rattle.gefsunk.specs.declared.kept.Kept.{Kept};

use crate::kept::Kept;
use std::alloc::Global;
use std::marker::Model;
use std::mem;

/// The mark of an open handle: the letters PMUX. Any other value, such as 0, is a closed handle.
pub const OPEN: u32 = 0x5055_4D58;

/// A box as a pointer.
struct Loose<T> {
    at: *mut T,
    ghost value: { T },
}

impl<T> Model for Loose<T> {
    ghost use Rattle.gefsunk.specs.Handles.{boxed};

    ghost also_owns = { λ l. boxed T.row l.at l.value };
}

impl<T: Drop> Loose<T> {
    fn of(value: Box<T>) -> Loose<T>
        ensures { result.value ≡ value.value }
    {
        let at = Box::into_raw(value);
        Loose { at }
    }
}

/// The pointer of a box that C keeps, or a pointer to nothing.
#[repr(C)]
#[derive(Drop)]
pub struct Held {
    at: *mut u8,
    pub ghost value: { Option Kept },
}

impl Model for Held {
    ghost use Rattle.gefsunk.specs.Handles.{owned};
    ghost use Rattle.gefsunk.specs.contracts.kept.Kept as kept;

    ghost also_owns = { λ h. owned kept.the_row h.at h.value };
}

impl Held {
    fn from_loose(loose: Loose<Kept>) -> Held
        ensures { result.value ≡ Some loose.value }
    {
        let Loose { at } = loose;
        Held { at: at as *mut u8 }
    }

    fn into_box(self, alloc: Global) -> Box<Kept>
        requires { is_some self.value ≡ true }
        ensures { self.value ≡ Some result.value }
    {
        let Held { at } = self;
        unsafe { Box::from_raw(alloc, at as *mut Kept) }
    }

    fn nothing() -> Held
        ensures { result.value ≡ None }
    {
        Held {
            at: std::ptr::null_mut(),
        }
    }
}

/// A handle, as C has it in its own storage. It is open if its mark says so. Then it has
/// a multiplier, a disk or a machine.
#[repr(C)]
#[derive(Drop)]
pub struct Handle {
    mark: u32,
    pub held: Held,
    ghost agrees: { (mark == 1347767640) ≡ is_some held.value },
}

impl Handle {
    /// A closed handle.
    pub fn closed() -> Handle
        ensures { result.held.value ≡ None }
    {
        Handle {
            mark: 0,
            held: Held::nothing(),
        }
    }

    /// The handle of what is kept.
    pub fn open(kept: Box<Kept>) -> Handle
        ensures { result.held.value ≡ Some kept.value }
    {
        Handle {
            mark: OPEN,
            held: Held::from_loose(Loose::of(kept)),
        }
    }

    /// Takes out what is kept, and leaves the handle closed.
    pub fn take(&mut self, alloc: Global) -> Option<Box<Kept>>
        ensures taken { MatchOption result (self.old.held.value ≡ None) (λ kept.
            self.old.held.value ≡ Some kept.value) }
        ensures closed { self.new.held.value ≡ None }
        ensures same { self.old.held.value ≡ None → self.new ≡ self.old }
    {
        if self.mark != OPEN {
            return None;
        }
        let old = mem::replace(self, Handle::closed());
        Some(old.held.into_box(alloc))
    }
}
