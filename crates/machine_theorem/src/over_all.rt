//! Read after write, over anything that happens in between.

ghost use Rattle.machine_theorem.specs.Between.{ReadsFollowAmong};
ghost use Rattle.machine_theorem.specs.OverAll.{DataFollowOverAll, EndedWritesAreSettled, ReadsFollowOverAll, SeenReadsFollow};
ghost use Rattle.machine_theorem.specs.Unheard.{SlotsTellOfWrites, UnheardIsSpared};

/// A law for callers; it runs no code. A disk at a port says in a stretch of a run that a write ended well, queued or not. Then come any deeds: the disk is
/// pulled and plugged, its link and the disk are reset, commands fail and others run; but it is not taken from the port. In a later stretch, as which
/// begins nothing is under way at the place of a read, the disk says that this read ended well, queued or not (`ended`). So it is of what the guest sees
/// completed, as [`completions_are_of_their_slots`](crate::completions_are_of_their_slots) and
/// [`unqueued_commands_are_of_their_slots`](crate::unqueued_commands_are_of_their_slots) say it (`seen`). If the medium gives what it was last told to keep, the Data that the
/// disk sent for the read have the bytes that came for the write, at each sector of both, unless the disk asked for another store or a discard of it since it
/// said that the write ended. So it is of all Data that it has sent of a read by any moment of the later stretch (`sent`), whether the read ends or not.
/// As the write ends, each store and each discard of a sector of it that was asked for before was answered, also one that a reset dropped (`settled`): so
/// nothing else can change what it stored.
pub fn reads_follow_writes_over_all()
    ensures ended { ReadsFollowOverAll }
    ensures seen { SeenReadsFollow }
    ensures sent { DataFollowOverAll }
    ensures settled { EndedWritesAreSettled }
{
    sata_disk_books::data_are_given();
    sata_disk_laws::answers_are_single();
    sata_disk_laws::open_is_under_way();
    sata_disk_laws::singles_are_awaited();
    sata_disk_media::reads_are_given_writes();
    sata_disk_media::undisturbed_is_spared();
    sata_disk_media::writes_are_settled();
    machine_laws::disks_go_on();
}

/// A law for callers; it runs no code. In every run of a disk, where no write of a sector is under way, and no DATA SET MANAGEMENT, and none of the commands
/// that are heard since is a write of it or DATA SET MANAGEMENT, nothing asks for a store or a discard of it: over plugs, resets and errors. So what happens
/// in between is told by the FISes that the disk hears. Each of them is that of a slot's command, as it was supplied for the slot, or a Data FIS
/// ([`disks_hear_their_guest`](crate::disks_hear_their_guest)).
pub fn unheard_is_spared()
    ensures { UnheardIsSpared }
{
    sata_disk_media::undisturbed_is_spared();
}

/// A law for callers; it runs no code. Over each stretch of a run of a machine that begins at rest and in which the guest keeps to the standard, as in
/// [`slots_name_their_disks_commands`](crate::slots_name_their_disks_commands): no write of a sector is under way at the disk under a tag where none stands
/// in the slot of this number, as it was supplied. So what is under way as a write ends is told by the slots.
pub fn slots_tell_of_writes()
    ensures { SlotsTellOfWrites }
{
    crate::completions::commands_are_as_supplied();
    machine_laws::disks_go_on();
}

/// A law for callers; it runs no code. Over each stretch as in [`completed_reads_follow_writes`](crate::completed_reads_follow_writes) that begins at rest for all
/// tags, and in which the guest keeps to the standard with each: the read has what was written, as that law says it; and the slots tell what else was stored in
/// between. The disk asked for no other store and no discard of a sector, if no other write that has it stood in a slot for the disk, as it was supplied, from
/// the machine on at which the disk said that the write ended, and no request but those of queued commands is a store or a discard of it.
pub fn reads_follow_writes_among_slots()
    ensures { ReadsFollowAmong }
{
    crate::ends::ends_come_from_devices();
    crate::identity::slots_name_their_disks_commands();
    crate::orders::commands_are_sent_once();
    crate::standing::slots_have_one_command();
    crate::writes::writes_come_from_guests();
    slots_tell_of_writes();
    sata_disk_books::ends_are_of_pages();
    sata_disk_laws::answers_are_single();
    sata_disk_laws::open_is_under_way();
    sata_disk_media::reads_are_given_writes();
    sata_disk_media::stores_are_of_writes();
    sata_disk_media::undisturbed_is_spared();
    machine_laws::controller_goes_on();
    machine_laws::controller_has_its_laws();
    machine_laws::data_rise_unchanged();
    machine_laws::disks_go_on();
    machine_laws::frames_fall_in_order();
    machine_laws::frames_rise_in_order();
    machine_laws::sent_frames_are_supplied();
    controller_laws::commands_are_supplied();
    controller_laws::events_are_core_events();
    controller_laws::issues_fall();
    controller_laws::active_falls();
}
