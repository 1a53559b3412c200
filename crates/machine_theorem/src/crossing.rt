//! The Data of a queued write, over a link that keeps the order.

ghost use Rattle.machine_theorem.specs.Crossing.{OrderedLinksKeepPlaces};

/// A law for callers; it runs no code. A stretch of calls of a controller as in [`fed_data_follow_setups`](crate::fed_data_follow_setups), behind which a Data
/// FIS goes to the device; and a stretch of calls of a disk that was new, which begins where it awaits no Data, in which it serves queued commands alone, and
/// behind which the command of a place awaits Data. The controller took in its stretch what the disk sent in its own, in order, and maybe not the last of it
/// yet; and what Data the disk heard there are of those that went before, in order. Then the Data go of a slot with a command of the device, and no read; if
/// this is a queued write, the slot is the place, and the first byte has the number of those that came for the command there. So it is for each link that
/// keeps the order of the FISes from the device, and of the Data that go to it, whatever other FISes it loses on the way down.
pub fn ordered_links_keep_places()
    ensures { OrderedLinksKeepPlaces }
{
    crate::follows::data_go_as_asked();
    crate::follows::fed_data_follow_setups();
    sata_disk_books::data_are_asked_in_turn();
}
