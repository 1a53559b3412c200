//! Each byte of a read that is not queued, by DMA or by PIO, and that the guest sees completed.

ghost use Rattle.machine_theorem.specs.OwnPages.{PagesGoInTurn, TransfersSendNoPage};
ghost use Rattle.machine_theorem.specs.PioReads.{UnqueuedReadsAreRead};

/// A law for callers; it runs no code. Over each stretch of calls of a disk that begins while its host waits for nothing, and in which it is not
/// plugged in anew and no software reset begins: a page that it sends next (IDENTIFY DEVICE, a log, SMART data) goes for the command that was heard
/// behind all that were answered. None goes for a command that moves sectors.
pub fn pages_go_in_turn()
    ensures turn { PagesGoInTurn }
    ensures none { TransfersSendNoPage }
{
    sata_disk_laws::answers_are_single();
    sata_disk_laws::open_is_under_way();
    sata_disk_laws::singles_are_awaited();
}

/// A law for callers; it runs no code. Over each stretch of a run of a machine that begins while nothing is under way at the disk, in which the guest
/// sends the disk no queued command, no FIS of it is lost or at fault, and no write takes a command that waits from its slot; whatever reads and writes
/// end in it, by DMA or by PIO. Where the bit of PxCI of a READ DMA or a PIO data-in falls behind it, each byte was brought in the stretch by a FIS that
/// the disk sent at a moment of it, and was written at its place before the bit fell; or the FIS by which the bit falls, the last Data of a PIO data-in,
/// brings it. It is Data of the command that the guest had supplied for the slot, as it was issued there last; and byte k of the slot's command is byte k
/// of those that the caller gave for the sectors that the guest asked for. Or it is a page that the disk has of itself, and then this command moves no
/// sectors. No DMA Setup FIS tells the number: both sides count from the command on.
pub fn unqueued_reads_are_read()
    ensures { UnqueuedReadsAreRead }
{
    crate::ends::completions_are_of_devices();
    crate::in_turn::commands_go_in_turn();
    pages_go_in_turn();
    crate::pio::commands_are_settled_in_turn();
    crate::pio::commands_await_their_ends();
    crate::single_reads::single_data_are_counted();
    crate::single_reads::single_data_go_in_turn();
    crate::transfers::transfers_are_answered();
    sata_disk_books::data_are_given();
    sata_disk_books::ends_are_of_pages();
    sata_disk_books::fises_tell();
    sata_disk_laws::answers_are_single();
    machine_laws::controller_goes_on();
    machine_laws::controller_has_its_laws();
    machine_laws::data_rise_unchanged();
    machine_laws::disks_go_on();
    machine_laws::frames_fall_in_order();
    machine_laws::frames_rise_in_order();
    machine_laws::sent_frames_are_supplied();
    controller_laws::bytes_go_to_their_places();
    controller_laws::commands_are_supplied();
    controller_laws::events_are_core_events();
    controller_laws::issues_fall();
    controller_laws::active_falls();
    hba_laws::core_delivers();
}
