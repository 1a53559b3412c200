//! Each byte of a read that is not queued, and that the guest sees completed.

ghost use Rattle.machine_theorem.specs.SingleBytes.{SingleDataGoInTurn, SinglesAreSent};
ghost use Rattle.machine_theorem.specs.SingleNumbers.{SingleDataAreCounted};
ghost use Rattle.machine_theorem.specs.SingleReads.{FilledSinglesWereBrought, SinglesAreBrought, SinglesAreBroughtSince, SinglesAreWritten};

/// A law for callers; it runs no code. Over each stretch of calls of a controller that begins where no READ DMA and no PIO data-in of a device that was sent
/// stands in a slot: take one of this device that is issued there behind it. Each of its bytes that came was brought in the stretch: a Data FIS of the device
/// was taken that brought it for this slot, with its number. Since then nothing was issued in the slot, and the byte was not brought again. Of Data that go
/// past their table it is not said that they do not bring it again.
pub fn filled_single_reads_were_brought()
    ensures { FilledSinglesWereBrought }
{
    controller_laws::events_are_core_events();
    hba_laws::core_delivers();
}

/// A law for callers; it runs no code. Where a bit of PxCI falls as a FIS is taken, PxSACT does not show the slot, and a READ DMA or a PIO data-in is issued
/// in it, every byte of it was brought: for each of them there is a moment of the run at which a Data FIS of the device that owns the command was taken that
/// brought this byte for the slot. Since then nothing was issued in the slot, and the byte was not brought again. Of a PIO data-in the FIS by which the bit
/// falls may be the last of its Data, and bring the byte itself. So it is over every run of a machine from its opening, whatever its guest and its devices
/// do; and in each stretch of it that begins where no such command of the device that was sent stands in the slot.
///
/// Each byte that came before the bit falls was written before: until the next FIS was taken behind the one that brought it, the caller was told to write all
/// bytes of this FIS, each once, in order, at the place that the table names for its number. The table is that of the command which was supplied for the last
/// issue in the slot. So of a READ DMA all bytes were written before its bit fell.
pub fn completed_single_reads_are_brought()
    ensures brought { SinglesAreBrought }
    ensures since { SinglesAreBroughtSince }
    ensures written { SinglesAreWritten }
{
    machine_laws::controller_goes_on();
    machine_laws::controller_has_its_laws();
    machine_laws::data_rise_unchanged();
    machine_laws::frames_rise_in_order();
    sata_disk_books::ends_are_of_pages();
    controller_laws::bytes_go_to_their_places();
    controller_laws::events_are_core_events();
    controller_laws::issues_fall();
    controller_laws::active_falls();
    hba_laws::core_delivers();
}

/// A law for callers; it runs no code. Over each stretch of calls of a disk that begins while its host waits for nothing, and in which it is not plugged in
/// anew and no software reset begins: the Data that it sends next of a command which moves sectors, and is not queued, are of the one that was heard behind
/// all that were answered.
pub fn single_data_go_in_turn()
    ensures { SingleDataGoInTurn }
{
    sata_disk_laws::answers_are_single();
    sata_disk_laws::singles_are_awaited();
}

/// A law for callers; it runs no code. Over each stretch of calls of a disk that begins while its host waits for nothing and has no queued command open, in which
/// it is not plugged in anew, no software reset begins, no queued command is heard, and no more than one command was not answered: as the Data go next of a
/// command which moves sectors, and is not queued, so many bytes of it went as its FISes say that went since its last Register FIS.
pub fn single_data_are_counted()
    ensures { SingleDataAreCounted }
{
    sata_disk_laws::answers_are_single();
    sata_disk_laws::open_is_under_way();
    sata_disk_laws::singles_are_awaited();
}

/// A law for callers; it runs no code. Over each stretch of a run of a machine as in
/// [`unqueued_commands_are_of_their_slots`](crate::unqueued_commands_are_of_their_slots), in which the guest has no queued command in the slots for the
/// device, and no write takes a command that waits from its slot: where the bit of PxCI of a READ DMA falls behind it, each of its bytes was brought in the
/// stretch, by a Data FIS that the disk at the port sent at a moment of the stretch. Where it sent this for a command that moves sectors and is not queued,
/// this is the command that the guest had supplied for the slot, as it was issued there last, and the bytes are the next ones that the caller gave for its
/// sectors. FISes that are lost or ignored are no exception.
pub fn completed_single_reads_are_sent()
    ensures { SinglesAreSent }
{
    crate::ends::completions_are_of_devices();
    crate::in_turn::commands_go_in_turn();
    crate::pio::commands_are_settled_in_turn();
    crate::pio::commands_await_their_ends();
    crate::transfers::transfers_are_answered();
    single_data_go_in_turn();
    sata_disk_books::data_are_given();
    sata_disk_books::ends_are_of_pages();
    sata_disk_books::fises_tell();
    sata_disk_laws::answers_are_single();
    machine_laws::controller_goes_on();
    machine_laws::controller_has_its_laws();
    machine_laws::data_rise_unchanged();
    machine_laws::disks_go_on();
    machine_laws::frames_fall_in_order();
    machine_laws::frames_rise_in_order();
    machine_laws::sent_frames_are_supplied();
    controller_laws::bytes_go_to_their_places();
    controller_laws::commands_are_supplied();
    controller_laws::events_are_core_events();
    controller_laws::issues_fall();
    controller_laws::active_falls();
    hba_laws::core_delivers();
}
