//! Sets of places: bit n of a set is place n.

ghost use Rattle.std.specs.Prelude.{◌≡◌, ◌<◌, IfSome, IfNone};
ghost use Rattle.block_queue.specs.Line.{PassesNowhere, has_bit};
ghost use Rattle.block_queue.specs.Places.{IsFirstIn, IsNoted, IsWithout};

/// The first place in a set.
pub fn first_in(set: u64) -> Option<u8>
    ensures some { IfSome result (IsFirstIn set) }
    ensures none { IfNone result (PassesNowhere (has_bit set)) }
{
    let first = set.trailing_zeros();
    if first < 33 { Some(first as u8) } else { None }
}

/// A set without a place.
pub fn without(set: u64, place: u8) -> u64
    requires { place < 33 }
    ensures { IsWithout set result place }
{
    set & !(1 << place)
}

/// A set with or without a place.
pub(crate) fn with_or_without(set: u64, place: u8, is: bool) -> u64
    requires { place < 33 }
    ensures { IsNoted set result place is }
{
    if is {
        set | 1 << place
    } else {
        without(set, place)
    }
}
