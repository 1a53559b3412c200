//! The Data of a queued write come from its own slot.

ghost use Rattle.machine_theorem.specs.OwnWrites.{DataComeFromTheirOwnSlot};
ghost use Rattle.machine_theorem.specs.TakenWrites.{WritesAreAsSupplied};

/// A law for callers; it runs no code. Over each stretch of a run of a machine from its opening: it begins where none of the FISes of a disk is on its way on
/// a connection that is not over, nothing is on its way to it, it awaits no Data, and the controller has nothing set up for the device. In it nothing is put
/// at the port or taken from it, and no link is reset; what the device at the port sends is of the connection, and of what comes with the PM Port of the
/// device, and nothing else; no FIS of it is lost or ignored, and nothing is wrong with any; Data that may fall to the port go to the device; and the disk
/// serves queued commands alone. Then, where the device was given a Data FIS, which it is to hear next, and its queued command of a place awaits Data: this
/// FIS went at a moment of the stretch, byte for byte but for the PM Port, of a slot with a command of the device, and no read; if this was a queued write,
/// the slot is the place, and the first byte has the number of those that came for the command before. What it has
/// [`fed_data_are_of_their_slots`](crate::fed_data_are_of_their_slots) says.
pub fn data_come_from_their_own_slot()
    ensures { DataComeFromTheirOwnSlot }
{
    crate::crossing::ordered_links_keep_places();
    machine_laws::controller_goes_on();
    machine_laws::controller_has_its_laws();
    machine_laws::disks_go_on();
    machine_laws::frames_fall_in_order();
    machine_laws::frames_rise_in_order();
    machine_laws::data_rise_unchanged();
    machine_laws::sent_frames_are_supplied();
    controller_laws::active_falls();
    controller_laws::events_are_core_events();
    controller_laws::issues_fall();
    sata_disk_books::ends_are_of_pages();
    sata_disk_laws::answers_are_single();
}

/// A law for callers; it runs no code. Over each such stretch that begins at rest, and in which the guest keeps to the standard, as in
/// [`slots_name_their_disks_commands`](crate::slots_name_their_disks_commands): where the disk was given a Data FIS, which it is to hear next, and its command
/// under the tag awaits Data, the command is the one that the guest had supplied for the slot of this number, as it was issued there last. The FIS went at a
/// moment of the stretch; if the command in its slot was a queued write, this is the slot of the tag, the first byte has the number of those that came for the
/// command before, and the payload is what the caller had supplied for this slot from that byte on, in order. Where these bytes stand
/// `sent_frames_are_supplied` of `machine_laws` says: where the table of the slot's command names them.
pub fn writes_are_as_supplied()
    ensures { WritesAreAsSupplied }
{
    data_come_from_their_own_slot();
    crate::completions::commands_are_as_supplied();
    crate::fed::fed_data_are_of_their_slots();
    machine_laws::disks_go_on();
}
