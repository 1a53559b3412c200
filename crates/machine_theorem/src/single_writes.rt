//! The Data of writes that are not queued.

ghost use Rattle.machine_theorem.specs.DataCame.{DataComeBehind};
ghost use Rattle.machine_theorem.specs.SingleData.{SingleDataGoInOrder};
ghost use Rattle.machine_theorem.specs.SingleWrites.{SingleWritesAreAsSupplied};

/// A law for callers; it runs no code. Over each stretch of calls of a controller that begins as the command of a slot goes to its device, in which
/// nothing more is issued in the slot, and in which no queued command is issued for the device: while the command is issued still, the Data FIS that goes
/// to the device next is of this slot, and of no read; its first byte has the number of the bytes that went to the device since the command. So the Data
/// of a write that is not queued go from its own slot, from its first byte on, in order, and no more than it has.
pub fn single_data_go_in_order()
    ensures { SingleDataGoInOrder }
{
    controller_laws::events_are_core_events();
    hba_laws::core_delivers();
}

/// A law for callers; it runs no code. Of a disk alone: a FIS is heard while the host waits for nothing, and no other command is heard since. Where the
/// disk says next that the command which is not queued ended well, the command that the books have is what this FIS asked for, and all that came for it is
/// the payload of Data FISes that were heard since, in order.
pub fn data_come_behind_commands()
    ensures { DataComeBehind }
{
    sata_disk_books::places_are_tags();
    sata_disk_laws::singles_are_awaited();
}

/// A law for callers; it runs no code. Over each stretch of a run of a machine as in [`unqueued_reads_are_read`](crate::unqueued_reads_are_read), whatever
/// reads and writes end in it, by DMA or by PIO: the guest sends the disk no queued command, no write takes a command that waits from its slot, and Data that
/// may fall to the port go to the device. Where a bit of PxCI falls behind it as a FIS of the connection is taken, and the slot has a command for the device
/// that is no PIO data-in, the disk answers it by this FIS, as [`unqueued_commands_are_of_their_slots`](crate::unqueued_commands_are_of_their_slots) says
/// (`done`). If the disk says by the FIS that it ended well, its books had what the FIS asked for that went from the slot in the stretch, as the
/// guest had supplied it there last, and this had earned its end: of a write the disk stored all that came, and flushed it where it is to last. All that
/// came for it is the payload of Data FISes that went to the device behind that FIS, in order. Each that went there is of this slot, from the byte behind
/// those that went before, and its payload is what the caller had supplied for the slot from that byte on; of a write as many bytes went as the slot's
/// command moves. So if as many came, what came is all that was supplied for the command, from its first byte on. Where these bytes stand
/// `sent_frames_are_supplied` of `machine_laws` says: where the table of the slot's command names them.
pub fn single_writes_are_as_supplied()
    ensures { SingleWritesAreAsSupplied }
{
    data_come_behind_commands();
    crate::ends::completions_are_of_devices();
    crate::pio::commands_are_settled_in_turn();
    crate::pio::commands_await_their_ends();
    crate::transfers::transfers_are_answered();
    sata_disk_books::ends_are_of_pages();
    sata_disk_laws::answers_are_single();
    machine_laws::controller_goes_on();
    machine_laws::controller_has_its_laws();
    machine_laws::data_rise_unchanged();
    machine_laws::disks_go_on();
    machine_laws::frames_fall_in_order();
    machine_laws::frames_rise_in_order();
    machine_laws::sent_frames_are_supplied();
    controller_laws::commands_are_supplied();
    controller_laws::events_are_core_events();
    controller_laws::issues_fall();
    controller_laws::active_falls();
    hba_laws::core_delivers();
}
