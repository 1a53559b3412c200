//! Masks of slots: a bit for each slot, 0 to 31.

ghost use Rattle.std.specs.Prelude.{◌≡◌, ◌<◌, true, false};
ghost use Rattle.slots.specs.Masks.{IsLowestBit, LeavesOut, Notes, SetsBit};
ghost use Rattle.slots.specs.Slots.{has_bit as has_bit_of};

use crate::slot::Slot;

/// Whether a mask has the bit of this slot or device.
pub(crate) fn has_bit(mask: u32, k: u8) -> bool
    requires { k < 32 }
    ensures { result ≡ has_bit_of mask k }
{
    mask >> k & 1 == 1
}

/// The mask with the bit of a slot set, or cleared.
pub(crate) fn with_bit(mask: u32, slot: u8, set: bool) -> u32
    requires { slot < 32 }
    ensures { SetsBit slot set mask result }
{
    if set {
        mask | 1 << slot
    } else {
        mask & !(1 << slot)
    }
}

/// The slot of the lowest bit, if there is one.
pub(crate) fn lowest_bit(mask: u32) -> Option<u8>
    ensures { IsLowestBit mask result }
{
    if mask == 0 {
        None
    } else {
        Some(mask.trailing_zeros() as u8)
    }
}

/// The mask without the bit of a slot that is in it.
pub(crate) fn without(mask: u32, slot: u8) -> u32
    requires below { slot < 32 }
    requires within { has_bit_of mask slot ≡ true }
    ensures bits { SetsBit slot false mask result }
    ensures less { result < mask }
{
    mask & !(1 << slot)
}

/// The slots by what is issued in them, a bit for each.
#[derive(Clone, Copy, Default)]
pub(crate) struct Masks {
    /// Those in which a command is issued.
    pub(crate) issued: u32,
    /// Those with an issued command that is not answered.
    pub(crate) unanswered: u32,
    /// Those with an issued queued command.
    pub(crate) queued: u32,
    /// Those with an issued command that was not sent.
    pub(crate) unsent: u32,
}

impl Masks {
    /// The masks after a slot has changed to this.
    pub(crate) fn noting(self, slot: u8, now: &Slot) -> Masks
        requires { slot < 32 }
        ensures { Notes slot now.now self result }
    {
        Masks {
            issued: with_bit(self.issued, slot, now.is_issued()),
            unanswered: with_bit(self.unanswered, slot, now.is_unanswered()),
            queued: with_bit(self.queued, slot, now.is_queued()),
            unsent: with_bit(self.unsent, slot, now.is_unsent()),
        }
    }

    /// The masks after these slots were freed.
    pub(crate) fn without(self, mask: u32) -> Masks
        ensures { LeavesOut mask self result }
    {
        Masks {
            issued: self.issued & !mask,
            unanswered: self.unanswered & !mask,
            queued: self.queued & !mask,
            unsent: self.unsent & !mask,
        }
    }
}
