//! Masks of slots: a bit for each slot, 0 to 31.

ghost use Rattle.std.specs.Prelude.{◌≡◌, ◌<◌};
ghost use Rattle.hba_driver.specs.Masks.{IsLowestBit, SetsBit};

/// The mask with the bit of a slot set, or cleared.
pub(crate) fn with_bit(mask: u32, slot: u8, set: bool) -> u32
    requires { slot < 32 }
    ensures { SetsBit slot set mask result }
{
    if set {
        mask | 1 << slot
    } else {
        mask & !(1 << slot)
    }
}

/// The slot of the lowest bit, if there is one.
pub(crate) fn lowest_bit(mask: u32) -> Option<u8>
    ensures { IsLowestBit mask result }
{
    if mask == 0 {
        None
    } else {
        Some(mask.trailing_zeros() as u8)
    }
}
