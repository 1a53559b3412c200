//! Each byte of a queued read that the guest sees completed.

ghost use Rattle.machine_theorem.specs.Brought.{CompletedReadsAreBrought, ReadsAreBrought, ReadsAreBroughtSince};
ghost use Rattle.machine_theorem.specs.Filled.{FilledWereBrought};
ghost use Rattle.machine_theorem.specs.QueuedOnly.{QueuedReadsAreBrought};
ghost use Rattle.machine_theorem.specs.ReadsWritten.{ReadsAreWritten};

/// A law for callers; it runs no code. Over each stretch of calls of a controller that begins where no queued command of a device that was sent stands in
/// a slot: take a queued read of this device that is issued there behind it. Each of its bytes that came was brought in the stretch: a Data FIS of the
/// device was taken that brought it for this slot, with its number. Since then nothing was issued in the slot, and the byte was not brought again. So no
/// byte counts as one that came which another device brought, or which came for another command. Of Data that go past their table it is not said that they
/// do not bring it again.
pub fn filled_bytes_were_brought()
    ensures { FilledWereBrought }
{
    controller_laws::events_are_core_events();
    hba_laws::core_delivers();
}

/// A law for callers; it runs no code. Where a bit of PxSACT falls as a FIS is taken, and a queued read is issued in the slot, every byte of it was brought:
/// for each of them there is a moment of the run at which a Data FIS of the device that owns the command was taken that brought this byte for the slot. Since
/// then nothing was issued in the slot, and the byte was not brought again, as in [`filled_bytes_were_brought`](crate::filled_bytes_were_brought). So it is
/// over every run of a machine from its opening, whatever its guest and its devices do; and in each stretch of it that begins where no queued command of
/// the device that was sent stands in the slot.
///
/// Where the stretch begins at rest, the guest keeps to the standard in it, and no FIS of the disk is lost or at fault, as in
/// [`reads_are_as_supplied`](crate::reads_are_as_supplied): this FIS was sent at a moment of the stretch. If a disk sent it for a queued command, it is the
/// disk at this port; the byte is the one of its number that the caller gave for the sectors of the command; and this is the command that the guest had
/// supplied for the slot, as it was issued there last before the bit fell.
pub fn completed_reads_are_brought()
    ensures brought { ReadsAreBrought }
    ensures since { ReadsAreBroughtSince }
    ensures read { CompletedReadsAreBrought }
{
    crate::ends::ends_come_from_devices();
    crate::follows::data_follow_setups();
    crate::identity::slots_name_their_disks_commands();
    crate::orders::commands_are_sent_once();
    crate::standing::slots_have_one_command();
    sata_disk_books::commands_are_asked();
    sata_disk_books::data_are_given();
    sata_disk_books::ends_are_of_pages();
    sata_disk_books::fises_tell();
    sata_disk_laws::answers_are_single();
    sata_disk_laws::open_is_under_way();
    machine_laws::controller_goes_on();
    machine_laws::controller_has_its_laws();
    machine_laws::data_rise_unchanged();
    machine_laws::disks_go_on();
    machine_laws::frames_fall_in_order();
    machine_laws::frames_rise_in_order();
    machine_laws::sent_frames_are_supplied();
    controller_laws::bytes_go_to_their_places();
    controller_laws::commands_are_supplied();
    controller_laws::events_are_core_events();
    controller_laws::issues_fall();
    controller_laws::active_falls();
    hba_laws::core_delivers();
}

/// A law for callers; it runs no code. Let the guest send a disk queued commands alone, over a stretch as in
/// [`completed_reads_are_brought`](crate::completed_reads_are_brought). Then each byte of a queued read that it sees completed was brought by a FIS that
/// the disk at this port sent for the command which the guest had supplied for the slot, as it was issued there last before the bit fell. The byte is the
/// one of its number that the caller gave for the sectors of this command; and before the bit fell the caller was told to write it at the place that the
/// table of this command names for it.
pub fn queued_reads_are_brought()
    ensures { QueuedReadsAreBrought }
{
    crate::ends::ends_come_from_devices();
    crate::follows::data_follow_setups();
    crate::identity::slots_name_their_disks_commands();
    crate::orders::commands_are_sent_once();
    crate::standing::slots_have_one_command();
    sata_disk_books::commands_are_asked();
    sata_disk_books::data_are_given();
    sata_disk_books::ends_are_of_pages();
    sata_disk_books::fises_tell();
    sata_disk_laws::answers_are_single();
    sata_disk_laws::open_is_under_way();
    machine_laws::controller_goes_on();
    machine_laws::controller_has_its_laws();
    machine_laws::data_rise_unchanged();
    machine_laws::disks_go_on();
    machine_laws::frames_fall_in_order();
    machine_laws::frames_rise_in_order();
    machine_laws::sent_frames_are_supplied();
    controller_laws::bytes_go_to_their_places();
    controller_laws::commands_are_supplied();
    controller_laws::events_are_core_events();
    controller_laws::issues_fall();
    controller_laws::active_falls();
    hba_laws::core_delivers();
}

/// A law for callers; it runs no code. Where a bit of PxSACT falls as a FIS is taken, and a queued read is issued in the slot, every byte of it was written:
/// for each of them a Data FIS of the device that owns the command was taken that brought it, as in
/// [`completed_reads_are_brought`](crate::completed_reads_are_brought). Before the next FIS was taken the caller was told to write all bytes of this FIS,
/// each once, in order, at the place that the table names for its number: the table of the command that was supplied for the last issue in the slot. So it
/// is over every run of a machine from its opening, whatever its guest and its devices do.
pub fn completed_reads_are_written()
    ensures { ReadsAreWritten }
{
    machine_laws::controller_goes_on();
    machine_laws::controller_has_its_laws();
    machine_laws::data_rise_unchanged();
    machine_laws::frames_rise_in_order();
    sata_disk_books::ends_are_of_pages();
    controller_laws::bytes_go_to_their_places();
    controller_laws::events_are_core_events();
    controller_laws::issues_fall();
    controller_laws::active_falls();
    hba_laws::core_delivers();
}
