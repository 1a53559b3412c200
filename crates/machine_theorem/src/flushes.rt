//! FLUSH CACHE, as the guest sees it completed.

ghost use Rattle.machine_theorem.specs.Flushes.{FlushesAreOfSlots, PlainFlushesAreOfSlots};
ghost use Rattle.machine_theorem.specs.FlushesFollow.{DisksAreReachedStill, FlushesFollowWrites, PlainFlushesFollowWrites};
ghost use Rattle.machine_theorem.specs.Flushing.{FlushesEndSo};

/// A law for callers; it runs no code. FLUSH CACHE and FLUSH CACHE EXT at a disk are answered only by their end, or by an error: where a disk hears one while
/// its host waits for nothing, and has heard and answered no other command since, and was neither plugged in anew nor reset, an answer that goes next says
/// that the command failed; or that it ended well, and then the disk asked its caller for a flush since it heard the command, and the caller answered that
/// very request: it is done.
pub fn flushes_are_answered()
    ensures { FlushesEndSo }
{
    crate::in_turn::commands_go_in_turn();
    sata_disk_books::ends_are_of_pages();
    sata_disk_laws::answers_are_single();
    sata_disk_laws::open_is_under_way();
}

/// A law for callers; it runs no code. Over each stretch of a run of a machine as in
/// [`unqueued_commands_are_of_their_slots`](crate::unqueued_commands_are_of_their_slots), with PIO data-in among its commands: where a
/// bit of PxCI falls behind it as a FIS of the connection is taken, and the slot has a command for the device that is not queued and no PIO data-in, the
/// disk answers by this FIS the command that the guest had supplied for the slot, as it was issued there last. If that is FLUSH CACHE or FLUSH CACHE EXT, the
/// disk says that it ended well; and since it heard this command, in the stretch, it asked its caller for a flush, and the caller answered that very request,
/// before the FIS was sent: it is done. It is enough that in the stretch the guest has no queued command in the slots for the device, and that no write takes
/// a command that waits from its slot.
pub fn flushes_are_of_their_slots()
    ensures slots { FlushesAreOfSlots }
    ensures plain { PlainFlushesAreOfSlots }
{
    crate::ends::completions_are_of_devices();
    crate::pio::unqueued_commands_are_of_their_slots();
    flushes_are_answered();
    machine_laws::disks_go_on();
}

/// A law for callers; it runs no code. A flush reaches what was written before. Where the guest saw a write completed, be it queued, as
/// [`completions_are_of_their_slots`](crate::completions_are_of_their_slots) says, or not, as
/// [`unqueued_commands_are_of_their_slots`](crate::unqueued_commands_are_of_their_slots) does, and then a FLUSH CACHE, as in
/// [`flushes_are_of_their_slots`](crate::flushes_are_of_their_slots), whose stretch begins later, or whose FIS went from its slot later in the stretch: each
/// sector of the write was stored with the bytes that came for it, as the disk asked and the caller answered, and no other store and no discard of it was
/// asked for before the write ended; and behind that the disk asked for a flush, and the caller answered that very request, before the disk said that the FLUSH CACHE
/// ended.
/// So it is of each write that the disk had ended well as it heard the FLUSH CACHE. The disk of the later stretch is the one of the first as long as nothing is
/// put at its port or taken from it, and its calls go on.
pub fn flushes_follow_writes()
    ensures slots { FlushesFollowWrites }
    ensures plain { PlainFlushesFollowWrites }
    ensures still { DisksAreReachedStill }
{
    flushes_are_of_their_slots();
    machine_laws::disks_go_on();
    sata_disk_media::writes_are_kept();
}
