//! Read after write, as the guest sees it.

ghost use Rattle.machine_theorem.specs.ReadBack.{GuestsReadBack, HiddenIsFree, IssuedWasFree};
ghost use Rattle.machine_theorem.specs.ReadsFollow.{CompletedReadsFollowWrites};

/// A law for callers; it runs no code. Over each stretch of a run of a machine that begins at rest for two tags, in which the guest keeps to the standard
/// with both, and in which no FIS of the disk is lost or at fault, as in [`reads_are_as_supplied`](crate::reads_are_as_supplied), with a medium that gives
/// what it was last told to keep: the bit of PxSACT of the first tag's slot falls as a FIS is taken, so the guest sees its command completed; behind that,
/// at some machine, no queued command that was sent stands in the slot of the second tag, which may be the same; and then a Data FIS brings bytes for this
/// slot, in which a queued read is issued. If what was completed is a write, and a disk sent the Data for a queued command, each whole sector in them that
/// was written has the bytes that came for the write, unless the disk asked for another store or a discard of it since it said that the write ended. It
/// asked for none, if no other write that has the sector was under way, and no discard waited. What came for the write is the payload of Data FISes that
/// went with what the guest had supplied for them, if the disk was new as it was put at its port. PxSACT shows the guest that a slot is free (`hidden`);
/// and each slot was free in which a command is issued (`issued`). So a guest that waits for the end of its write, and then issues a read, is given what it
/// wrote.
pub fn guests_read_back()
    ensures back { GuestsReadBack }
    ensures hidden { HiddenIsFree }
    ensures issued { IssuedWasFree }
{
    crate::ends::ends_come_from_devices();
    crate::follows::data_follow_setups();
    crate::identity::slots_name_their_disks_commands();
    crate::orders::commands_are_sent_once();
    crate::standing::slots_have_one_command();
    crate::writes::writes_come_from_guests();
    sata_disk_books::data_are_given();
    sata_disk_books::ends_are_of_pages();
    sata_disk_books::fises_tell();
    sata_disk_laws::answers_are_single();
    sata_disk_laws::open_is_under_way();
    sata_disk_media::reads_bring_writes();
    sata_disk_media::undisturbed_is_spared();
    machine_laws::controller_goes_on();
    machine_laws::controller_has_its_laws();
    machine_laws::data_rise_unchanged();
    machine_laws::disks_go_on();
    machine_laws::frames_fall_in_order();
    machine_laws::frames_rise_in_order();
    machine_laws::sent_frames_are_supplied();
    controller_laws::commands_are_supplied();
    controller_laws::events_are_core_events();
    controller_laws::issues_fall();
    controller_laws::active_falls();
}

/// A law for callers; it runs no code. Over each stretch of a run of a machine that begins at rest for two tags, and in which the guest keeps to the
/// standard with both, with a medium that gives what it was last told to keep: the bit of PxSACT of the first tag's slot falls as a FIS is taken, then the
/// slot of the second is free, as in [`guests_read_back`], and behind the stretch the bit of this slot falls as a FIS is taken. Both commands are those
/// that the guest had supplied for their slots, and earned their ends, as in [`completions_are_of_their_slots`](crate::completions_are_of_their_slots). If
/// the first is a write and the second a read, the Data that the disk sent for the read have the bytes that came for the write, at each sector of both,
/// unless the disk asked for another store or a discard of it in between. So a guest that sees its write completed, and then a read that it issued behind
/// that, has read what it wrote.
pub fn completed_reads_follow_writes()
    ensures { CompletedReadsFollowWrites }
{
    crate::ends::ends_come_from_devices();
    crate::identity::slots_name_their_disks_commands();
    crate::orders::commands_are_sent_once();
    crate::standing::slots_have_one_command();
    crate::writes::writes_come_from_guests();
    sata_disk_books::ends_are_of_pages();
    sata_disk_laws::answers_are_single();
    sata_disk_laws::open_is_under_way();
    sata_disk_media::reads_are_given_writes();
    sata_disk_media::undisturbed_is_spared();
    machine_laws::controller_goes_on();
    machine_laws::controller_has_its_laws();
    machine_laws::data_rise_unchanged();
    machine_laws::disks_go_on();
    machine_laws::frames_fall_in_order();
    machine_laws::frames_rise_in_order();
    machine_laws::sent_frames_are_supplied();
    controller_laws::commands_are_supplied();
    controller_laws::events_are_core_events();
    controller_laws::issues_fall();
    controller_laws::active_falls();
}
