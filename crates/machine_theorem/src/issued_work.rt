//! What is issued in a slot, and how many bytes it moves.

ghost use Rattle.machine_theorem.specs.CountedAlike.{CommandsAreCountedAlike};
ghost use Rattle.machine_theorem.specs.Ending.{AllKeepEnding, AllUnqueued};
ghost use Rattle.machine_theorem.specs.IssuedWork.{IssuesMoveAsSupplied};
ghost use Rattle.machine_theorem.specs.WholeQueued.{QueuedCompletionsAreWhole};
ghost use Rattle.machine_theorem.specs.WholeSingles.{UnqueuedAreWholeIf};

/// A law for callers; it runs no code. Over every run of a machine from its opening: what is issued in a slot moves what the FIS of the command asks
/// for that was supplied for it, as it was issued there last: its kind, and how many bytes.
pub fn issues_move_as_supplied()
    ensures { IssuesMoveAsSupplied }
{
    sata_disk_books::ends_are_of_pages();
    machine_laws::controller_has_its_laws();
    machine_laws::data_rise_unchanged();
    machine_laws::frames_rise_in_order();
    controller_laws::commands_are_supplied();
    controller_laws::events_are_core_events();
    controller_laws::issues_fall();
    controller_laws::active_falls();
}

/// A law for callers; it runs no code. Of a FIS: the controller moves as many bytes for it, and the same way, as have the sectors that a disk takes
/// for it, if these are moved; be it a read or a write, queued or not.
pub fn commands_are_counted_alike()
    ensures { CommandsAreCountedAlike }
{}

/// A law for callers; it runs no code. Over each stretch as in [`completions_are_of_their_slots`](crate::completions_are_of_their_slots): where a bit
/// of PxSACT falls behind it as a FIS is taken, and the slot has a command for the disk at a port, this is done as that law says, and the slot moved
/// as many bytes as the sectors of the disk's command have, the same way.
pub fn queued_completions_are_whole()
    ensures { QueuedCompletionsAreWhole }
{
    issues_move_as_supplied();
    crate::completions::completions_are_of_their_slots();
}

/// A law for callers; it runs no code. The same of a command that is not queued, over each stretch as in
/// [`unqueued_commands_are_of_their_slots`](crate::unqueued_commands_are_of_their_slots): where a bit of PxCI falls behind it as a FIS of the connection is
/// taken, the command is done as that law says; and if the disk says that it ended well, and its sectors were moved, the slot moved as many bytes as they
/// have, the same way. So it is of a PIO data-in whose last Data end it.
pub fn unqueued_completions_are_whole()
    ensures slots { UnqueuedAreWholeIf AllKeepEnding }
    ensures plain { UnqueuedAreWholeIf AllUnqueued }
{
    issues_move_as_supplied();
    crate::ends::completions_are_of_devices();
    crate::pio::unqueued_commands_are_of_their_slots();
}
