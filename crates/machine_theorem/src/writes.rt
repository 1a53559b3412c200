//! What a disk asks its caller to store, from the guest.

ghost use Rattle.machine_theorem.specs.Writes.{CompletionsAreSupplied, DataAreSupplied, DoneWritesAreSupplied, FallsAreSupplied};
ghost use Rattle.machine_theorem.specs.Writes.{StoresAreOfGuests, WritesAreSupplied};

/// A law for callers; it runs no code. Over every run of a machine from its opening: each Data FIS that a disk heard went at a moment
/// of the run, with the bytes that the caller had supplied for it. A disk asks its caller to store the next bytes of those that came
/// for a command, for the sectors behind those that it stored before; all that came are the payload of such Data FISes, in the order
/// in which the disk heard them, behind the FIS that asked for this command; and the command came from a slot. Where a disk says that
/// a write ended well, its caller stored all that came, and flushed where it is to last, and what came was supplied. So where a bit
/// of PxSACT falls as a FIS is taken, what the write stored whose bit falls was supplied. Where a bit of PxCI does, and PxSACT does
/// not show the slot, a device sent this FIS at a moment of the run, unless it is the multiplier's, with PM Port Fh; and what the
/// write stored that a disk ended by it, by DMA or PIO, was supplied. A disk that had commands as it was put at its port is left out.
pub fn writes_come_from_guests()
    ensures heard { DataAreSupplied }
    ensures stores { StoresAreOfGuests }
    ensures ends { WritesAreSupplied }
    ensures completed { CompletionsAreSupplied }
    ensures done { DoneWritesAreSupplied }
    ensures fallen { FallsAreSupplied }
{
    crate::commands::disks_hear_their_guest();
    crate::ends::ends_come_from_devices();
    crate::ends::completions_are_of_devices();
    sata_disk_laws::stores_are_heard();
    sata_disk_books::commands_are_asked();
    sata_disk_books::ends_are_of_pages();
    sata_disk_books::places_are_tags();
    machine_laws::controller_has_its_laws();
    machine_laws::sent_frames_are_supplied();
    machine_laws::disks_hear_what_was_sent();
    controller_laws::commands_are_supplied();
}
