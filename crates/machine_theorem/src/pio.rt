//! The commands that are not queued, with PIO data-in among them.

ghost use Rattle.machine_theorem.specs.Ending.{CommandsAwaitEnds, SentLastWait, UnqueuedCommandsWait};
ghost use Rattle.machine_theorem.specs.PioIn.{PlainUnqueuedAreOfSlots, UnqueuedAreOfSlots};
ghost use Rattle.machine_theorem.specs.Settled.{CommandsAreSettledInTurn, SectorsEndByData};

/// A law for callers; it runs no code. Over each stretch of calls of a disk that begins while its host waits for nothing, and in which it is not plugged in
/// anew and no software reset begins: it settles no more commands than it heard, be it by a Register FIS or by the PIO Setup FIS of the last block of a PIO
/// data-in, which has the Status of the end. A FIS that settles a command is of one before which as many were heard as were settled in all; so if no more
/// than one of those that were heard was not settled, it is the one that was heard last. Data for which the host waits as the last ones end the command that
/// was settled last. If this moves sectors, it is a read, the caller gave all of its bytes, and behind these Data all were sent. Where all were settled, and the
/// last one by such a PIO Setup FIS, Data that go next are these Data; and they are of the sectors of the command, if it moves any.
pub fn commands_are_settled_in_turn()
    ensures turn { CommandsAreSettledInTurn }
    ensures sectors { SectorsEndByData }
{
    sata_disk_laws::answers_are_single();
    sata_disk_laws::open_is_under_way();
    sata_disk_laws::singles_are_awaited();
    sata_disk_books::last_data_end_reads();
}

/// A law for callers; it runs no code. Over each stretch of calls of a controller in which a command that waits leaves its slot only as a Register FIS or a
/// Data FIS of its device is taken: no more commands are sent to a device than it ended or answered by these, and one more where one of its slots waits.
/// The command that was sent last waits in its slot as long as any does: meanwhile nothing is issued there, and no other slot of the device waits. So a
/// command waits, whatever FISes come, while the guest has no queued command in the slots for the device, and no write takes a command that waits from its
/// slot.
pub fn commands_await_their_ends()
    ensures counts { CommandsAwaitEnds }
    ensures last { SentLastWait }
    ensures plain { UnqueuedCommandsWait }
{
    controller_laws::events_are_core_events();
    hba_laws::core_delivers();
}

/// A law for callers; it runs no code. Over each stretch of a run of a machine that begins while nothing is under way at the disk at a port, and nothing is
/// on its way to it or from it, and in which commands and ends go in turn: its connection lasts, the disk is not reset, all commands for it are of slots
/// for one device, and a command that waits leaves its slot only as a Register FIS or a Data FIS of this device is taken. Where a bit of PxCI falls behind it
/// as a FIS of the connection is taken, and the slot has a command for the device that is not queued, the disk sent this FIS at a moment of the stretch; unless
/// the command is a PIO data-in, it is a Register FIS. Then the disk answers by it the command that the guest had supplied for the slot, as it was issued
/// there last: the FIS of this command went from the slot in the stretch, the disk heard no other since, and nothing was issued there since. If the command
/// moves sectors, the disk says that it ended well. Where it says so, this is what such a FIS asked for, and it had earned its end: of a read the caller gave
/// all bytes of its sectors, and all were sent; of a write it stored all that came, and flushed where they are to last. Where the FIS is none, and nothing
/// was set up for the device as the stretch began, the disk sent it as the last Data of the command that the guest had supplied for the slot; if this moves
/// sectors, the caller gave all of their bytes, and behind these Data all were sent. It is enough that in the stretch the guest has no queued command in the
/// slots for the device, and that no write takes a command that waits from its slot.
pub fn unqueued_commands_are_of_their_slots()
    ensures slots { UnqueuedAreOfSlots }
    ensures plain { PlainUnqueuedAreOfSlots }
{
    crate::ends::completions_are_of_devices();
    commands_are_settled_in_turn();
    commands_await_their_ends();
    crate::transfers::transfers_are_answered();
    sata_disk_books::ends_are_of_pages();
    sata_disk_laws::answers_are_single();
    hba_laws::core_delivers();
    machine_laws::controller_goes_on();
    machine_laws::controller_has_its_laws();
    machine_laws::data_rise_unchanged();
    machine_laws::disks_go_on();
    machine_laws::frames_fall_in_order();
    machine_laws::frames_rise_in_order();
    machine_laws::sent_frames_are_supplied();
    controller_laws::commands_are_supplied();
    controller_laws::events_are_core_events();
    controller_laws::issues_fall();
    controller_laws::active_falls();
}
