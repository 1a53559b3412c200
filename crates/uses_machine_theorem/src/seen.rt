//! Commands that the guest sees completed, as the laws of reads behind writes want them.

ghost use Rattle.machine_theorem.specs.Ending.{AllKeepEnding, AllUnqueued};
ghost use Rattle.uses_machine_theorem.specs.Seen.{KnowsQueuedReadBack, KnowsSeenQueued, KnowsSeenSingle};

use ahci_machine::Machine;

/// What the caller knows of a command as its guest sees it completed, whatever run led to its machine; it runs no code. A queued one behind a moment at rest, or one
/// that moves sectors and is not queued behind a moment at which nothing is under way at the disk, is what
/// [`knows_reads_over_all`](crate::knows_reads_over_all) asks for. So a queued read that the guest sees completed has what a queued write had written that it
/// saw completed before: whatever happened in between, if the disk stayed at its port, and its medium gives what it was last told to keep.
pub fn knows_what_is_seen(machine: &Machine)
    ensures queued { KnowsSeenQueued machine.now }
    ensures singles { KnowsSeenSingle AllKeepEnding machine.now }
    ensures plain_singles { KnowsSeenSingle AllUnqueued machine.now }
    ensures back { KnowsQueuedReadBack machine.now }
{
    machine_theorem::completions_are_of_their_slots();
    machine_theorem::flushes_follow_writes();
    machine_theorem::reads_follow_writes_over_all();
    machine_theorem::unqueued_commands_are_of_their_slots();
}
