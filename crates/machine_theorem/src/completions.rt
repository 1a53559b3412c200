//! The queued commands that the guest had supplied, at their disks, and those that it sees completed.

ghost use Rattle.machine_theorem.specs.Completions.{CompletionsAreOfSlots};
ghost use Rattle.machine_theorem.specs.Given.{CommandsAreGiven, DataAreGiven};

/// A law for callers; it runs no code. Over each stretch of a run of a machine that begins at rest and in which the guest keeps to the standard, as in
/// [`slots_name_their_disks_commands`](crate::slots_name_their_disks_commands): a command that is under way at the disk under the tag is what the FIS asks
/// for that the guest had supplied for the slot of this number, as it was issued there last. It was sent from the slot, and since then nothing was
/// issued there. So the Data that the disk sends of the tag are the next bytes that the caller gave for the sectors of this command.
pub fn commands_are_as_supplied()
    ensures commands { CommandsAreGiven }
    ensures sent { DataAreGiven }
{
    crate::ends::ends_come_from_devices();
    crate::identity::slots_name_their_disks_commands();
    crate::orders::commands_are_sent_once();
    crate::standing::slots_have_one_command();
    sata_disk_books::data_are_given();
    sata_disk_books::ends_are_of_pages();
    sata_disk_laws::answers_are_single();
    sata_disk_laws::open_is_under_way();
    machine_laws::controller_goes_on();
    machine_laws::controller_has_its_laws();
    machine_laws::data_rise_unchanged();
    machine_laws::disks_go_on();
    machine_laws::frames_fall_in_order();
    machine_laws::frames_rise_in_order();
    machine_laws::sent_frames_are_supplied();
    controller_laws::commands_are_supplied();
    controller_laws::events_are_core_events();
    controller_laws::issues_fall();
    controller_laws::active_falls();
}

/// A law for callers; it runs no code. Over each stretch of a run of a machine that begins at rest and in which the guest keeps to the standard, as in
/// [`slots_name_their_disks_commands`](crate::slots_name_their_disks_commands): where a bit of PxSACT falls behind it as a FIS is taken, and the slot
/// has a command for the disk at a port, this disk sent the FIS at a moment of the stretch. Its command under the tag had earned its end then: of a read
/// the caller gave all bytes of its sectors, and all were sent; of a write it stored all that came, and flushed where they are to last. And this
/// command is what the FIS asks for that the guest had supplied for the slot, as it was issued there last: it was sent from the slot before that moment,
/// since then nothing was issued there, and nothing was sent from the slot since the disk ended the command.
pub fn completions_are_of_their_slots()
    ensures { CompletionsAreOfSlots }
{
    crate::ends::ends_come_from_devices();
    crate::identity::slots_name_their_disks_commands();
    crate::orders::commands_are_sent_once();
    crate::standing::slots_have_one_command();
    sata_disk_books::ends_are_of_pages();
    sata_disk_laws::answers_are_single();
    sata_disk_laws::open_is_under_way();
    machine_laws::controller_goes_on();
    machine_laws::controller_has_its_laws();
    machine_laws::data_rise_unchanged();
    machine_laws::disks_go_on();
    machine_laws::frames_fall_in_order();
    machine_laws::frames_rise_in_order();
    machine_laws::sent_frames_are_supplied();
    controller_laws::commands_are_supplied();
    controller_laws::events_are_core_events();
    controller_laws::issues_fall();
    controller_laws::active_falls();
}
