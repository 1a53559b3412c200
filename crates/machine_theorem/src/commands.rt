//! The commands of the disks, from the slots of the guest.

ghost use Rattle.machine_theorem.specs.Commands.{CommandsAreOfSlots, CommandsOfNewDisks, DisksAreThere};
ghost use Rattle.machine_theorem.specs.Guest.{HeardIsOfGuest};

/// A law for callers; it runs no code. Over every run of a machine from its opening: the command that the books of a disk have at a place is
/// one that its host asked for by a FIS which the controller sent from a slot, for the device that owns the command there, as it was supplied
/// for that slot. The disk heard it byte for byte but for the PM Port, which was the port of the disk behind a multiplier. A queued command has
/// the place that the tag in its FIS says. As long as nothing more is issued in the slot, it is the FIS of the command that is supplied for it.
/// A disk may have been put at its port with commands that its host asked for before; a new one has no others.
pub fn commands_come_from_slots()
    ensures lived { DisksAreThere }
    ensures commands { CommandsAreOfSlots }
    ensures fresh { CommandsOfNewDisks }
{
    sata_disk_books::commands_are_asked();
    sata_disk_books::places_are_tags();
    machine_laws::controller_has_its_laws();
    machine_laws::sent_frames_are_supplied();
    machine_laws::disks_hear_what_was_sent();
    controller_laws::commands_are_supplied();
}

/// A law for callers; it runs no code. Over every run of a machine from its opening: each FIS that a disk heard since it was put at its port is the
/// FIS of a command, as it was supplied for a slot and sent from there, or a Data FIS whose payload is what the caller supplied for it, in
/// order: the bytes of each read that the machine asked for since the payload was due, each where the table of the slot's command says
/// (`sent_frames_are_supplied` of `machine_laws`, `asked`). Behind a multiplier it was sent to this port.
pub fn disks_hear_their_guest()
    ensures { HeardIsOfGuest }
{
    machine_laws::controller_has_its_laws();
    machine_laws::sent_frames_are_supplied();
    machine_laws::disks_hear_what_was_sent();
}
