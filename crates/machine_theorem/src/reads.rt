//! What the guest is given for a queued read.

ghost use Rattle.machine_theorem.specs.Reads.{ReadsAreAsSupplied};

/// A law for callers; it runs no code. Over each stretch of a run of a machine that begins at rest, in which the guest keeps to the standard, as in
/// [`slots_name_their_disks_commands`](crate::slots_name_their_disks_commands), and in which no FIS of the disk is lost or at fault, as in
/// [`payload_goes_to_its_own_slot`](crate::payload_goes_to_its_own_slot): take a Data FIS of the disk's connection that brings bytes for the slot of the tag,
/// in which a queued read is issued. It was sent at a moment of the stretch. If a disk sent it for a queued command, it is the disk at this port, the command
/// has the number of the slot as its tag, and is what the FIS asks for that the guest had supplied for this slot, as it was issued there last; and each byte
/// has the number, in the slot's command, of the one that the caller gave for the sectors of this command. Where the bytes of this number go
/// [`payload_comes_from_devices`](crate::payload_comes_from_devices) says: to the place that the table names, as it was supplied. Data that go past their
/// table are left out.
pub fn reads_are_as_supplied()
    ensures { ReadsAreAsSupplied }
{
    crate::ends::ends_come_from_devices();
    crate::follows::data_follow_setups();
    crate::identity::slots_name_their_disks_commands();
    crate::orders::commands_are_sent_once();
    crate::standing::slots_have_one_command();
    sata_disk_books::data_are_given();
    sata_disk_books::ends_are_of_pages();
    sata_disk_books::fises_tell();
    sata_disk_laws::answers_are_single();
    sata_disk_laws::open_is_under_way();
    machine_laws::controller_goes_on();
    machine_laws::controller_has_its_laws();
    machine_laws::data_rise_unchanged();
    machine_laws::disks_go_on();
    machine_laws::frames_fall_in_order();
    machine_laws::frames_rise_in_order();
    machine_laws::sent_frames_are_supplied();
    controller_laws::commands_are_supplied();
    controller_laws::events_are_core_events();
    controller_laws::issues_fall();
    controller_laws::active_falls();
}
