//! Writes that are not queued, and that the guest sees completed.

ghost use Rattle.machine_theorem.specs.StoredSingles.{CompletedSinglesAreStored, WritesAreNamed};

/// A law for callers; it runs no code. Of WRITE DMA, WRITE SECTOR(S) and WRITE MULTIPLE, with their EXT and FUA forms: the sectors that a disk takes
/// for one are those that its FIS names, and they are to last by FUA, or since the write cache is off.
pub fn writes_are_named()
    ensures { WritesAreNamed }
{}

/// A law for callers; it runs no code. Over each stretch as in [`single_writes_are_as_supplied`](crate::single_writes_are_as_supplied): a bit of PxCI
/// falls behind it as a FIS of the connection is taken, and the slot has a command for the device that is no PIO data-in. Then it is done as that law says, and
/// moves what the FIS asks for that was supplied for it. If that is a write, the disk had asked its caller to store all bytes of it, in order, at the
/// sectors that this FIS names, and the caller had answered that it did; and had answered a flush that was asked for behind that, where they are to
/// last: FUA, or the write cache off. Each of these bytes is the one of its number that the caller had supplied for the slot since this FIS went.
pub fn completed_single_writes_are_stored()
    ensures { CompletedSinglesAreStored }
{
    crate::issued_work::issues_move_as_supplied();
    crate::single_writes::single_writes_are_as_supplied();
}
