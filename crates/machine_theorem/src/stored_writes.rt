//! The queued writes of a guest that sends a disk queued commands alone.

ghost use Rattle.machine_theorem.specs.QueuedWrites.{DataGoOfQueuedWrites, QueuedAloneIsServed, QueuedWritesAreAsSupplied};
ghost use Rattle.machine_theorem.specs.StoredWrites.{CompletedWritesAreStored};

/// A law for callers; it runs no code. Over every run of a machine from its opening: where a Data FIS goes to a device while each command that is issued for
/// it is queued, it goes of a slot in which a queued write of the device is issued.
pub fn data_go_of_queued_writes()
    ensures { DataGoOfQueuedWrites }
{}

/// A law for callers; it runs no code. Let the guest send a disk queued commands alone, over a stretch of a run that begins at rest for a tag, in which it keeps
/// to the standard, as in [`slots_name_their_disks_commands`](crate::slots_name_their_disks_commands), and in which the disk takes each command that it hears.
/// If it owes nothing as the stretch begins, it serves queued commands alone: all Data that it hears are for queued commands, and all that it sends is of
/// queued commands.
pub fn queued_commands_alone_are_served()
    ensures { QueuedAloneIsServed }
{
    crate::ends::ends_come_from_devices();
    crate::orders::commands_are_sent_once();
    sata_disk_books::ends_are_of_pages();
    sata_disk_laws::answers_are_single();
    sata_disk_laws::open_is_under_way();
    sata_disk_laws::singles_are_awaited();
    machine_laws::controller_goes_on();
    machine_laws::controller_has_its_laws();
    machine_laws::data_rise_unchanged();
    machine_laws::disks_go_on();
    machine_laws::frames_fall_in_order();
    machine_laws::frames_rise_in_order();
    machine_laws::sent_frames_are_supplied();
    controller_laws::active_falls();
    controller_laws::events_are_core_events();
    controller_laws::issues_fall();
}

/// A law for callers; it runs no code. Over a stretch as in [`writes_are_as_supplied`](crate::writes_are_as_supplied), let the guest send the disk queued
/// commands alone, and have no others in the slots for its device; and let the disk take each command that it hears. Where the disk was given a Data FIS, which
/// it is to hear next, and its command under the tag awaits Data, the FIS went of the slot of this number, with a queued write: the first byte has the number of
/// those that came for the command before, and the payload is what the caller had supplied for the slot from that byte on, in order.
pub fn queued_writes_are_as_supplied()
    ensures { QueuedWritesAreAsSupplied }
{
    queued_commands_alone_are_served();
    crate::completions::commands_are_as_supplied();
    crate::crossing::ordered_links_keep_places();
    crate::ends::ends_come_from_devices();
    crate::fed::fed_data_are_of_their_slots();
    crate::orders::commands_are_sent_once();
    sata_disk_books::ends_are_of_pages();
    sata_disk_laws::answers_are_single();
    sata_disk_laws::open_is_under_way();
    machine_laws::controller_goes_on();
    machine_laws::controller_has_its_laws();
    machine_laws::data_rise_unchanged();
    machine_laws::disks_go_on();
    machine_laws::frames_fall_in_order();
    machine_laws::frames_rise_in_order();
    machine_laws::sent_frames_are_supplied();
    controller_laws::active_falls();
    controller_laws::events_are_core_events();
    controller_laws::issues_fall();
}

/// A law for callers; it runs no code. Over such a stretch, where a bit of PxSACT falls behind it as a FIS is taken, and the slot has a command for the disk at
/// the port: this command is what the FIS asks for that the guest had supplied for the slot, as it was issued there last, as in
/// [`completions_are_of_their_slots`](crate::completions_are_of_their_slots). If it is a write, the disk had asked its caller to store all that came for it, in
/// order, at its sectors, which is as many bytes as the command names, and the caller had answered that it did; and had answered a flush that was asked for
/// behind that, where the write is to last. And each byte that came is the one of its number that the caller had supplied for the slot since the FIS of the
/// command went: the Data FIS that had it went of this slot; and nothing was issued there since, until the bit falls.
pub fn completed_writes_are_stored()
    ensures { CompletedWritesAreStored }
{
    queued_commands_alone_are_served();
    crate::completions::commands_are_as_supplied();
    crate::crossing::ordered_links_keep_places();
    crate::ends::ends_come_from_devices();
    crate::fed::fed_data_are_of_their_slots();
    crate::identity::slots_name_their_disks_commands();
    crate::orders::commands_are_sent_once();
    crate::standing::slots_have_one_command();
    sata_disk_books::ends_are_of_pages();
    sata_disk_laws::answers_are_single();
    sata_disk_laws::open_is_under_way();
    machine_laws::controller_goes_on();
    machine_laws::controller_has_its_laws();
    machine_laws::data_rise_unchanged();
    machine_laws::disks_go_on();
    machine_laws::frames_fall_in_order();
    machine_laws::frames_rise_in_order();
    machine_laws::sent_frames_are_supplied();
    controller_laws::active_falls();
    controller_laws::commands_are_supplied();
    controller_laws::events_are_core_events();
    controller_laws::issues_fall();
    hba_laws::core_delivers();
}
