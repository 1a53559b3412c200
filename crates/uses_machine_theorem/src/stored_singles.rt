//! What a caller knows of the writes of its guest that are not queued, as the guest sees them completed.

ghost use Rattle.machine_theorem.specs.Ending.{AllKeepEnding, AllUnqueued};
ghost use Rattle.uses_machine_theorem.specs.StoredSingles.{KnowsCounts, KnowsNames, KnowsStoredSingles, KnowsWhole, KnowsWholeUnqueuedIf, KnowsWork};

use ahci_machine::Machine;

/// What the caller knows of its guest's writes that are not queued, whatever run led to its machine; it runs no code. What is issued in a slot moves
/// what its FIS asks for, as it was supplied, and a disk takes as many bytes for it; so it is of a command that the guest sees completed, queued or
/// not. Behind a moment at which nothing is under way at a disk, while the guest has no queued command for it, and spares those that wait: where a bit of PxCI falls, and the command is a write, all bytes that the guest had supplied for this slot were stored at the sectors
/// that the command names, and flushed where they are to last.
pub fn knows_stored_singles(machine: &Machine)
    ensures work { KnowsWork machine.now }
    ensures counts { KnowsCounts machine.now }
    ensures names { KnowsNames machine.now }
    ensures whole { KnowsWhole machine.now }
    ensures unqueued { KnowsWholeUnqueuedIf AllKeepEnding machine.now }
    ensures plain_unqueued { KnowsWholeUnqueuedIf AllUnqueued machine.now }
    ensures stored { KnowsStoredSingles machine.now }
{
    machine_theorem::issues_move_as_supplied();
    machine_theorem::commands_are_counted_alike();
    machine_theorem::queued_completions_are_whole();
    machine_theorem::unqueued_completions_are_whole();
    machine_theorem::writes_are_named();
    machine_theorem::completed_single_writes_are_stored();
}
