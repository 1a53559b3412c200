//! What the caller knows of FLUSH CACHE, as its guest sees it completed.

ghost use Rattle.machine_theorem.specs.Ending.{AllKeepEnding, AllUnqueued};
ghost use Rattle.uses_machine_theorem.specs.Flushes.{KnowsFlushAnswers, KnowsFlushedWrites, KnowsFlushes, KnowsWrittenSingles};

use ahci_machine::Machine;

/// What the caller knows of a FLUSH CACHE of its guest, whatever run led to its machine; it runs no code. A disk that was new as it was put at its port says
/// that one ended well only where its caller had flushed since the disk heard it. Behind a moment at which nothing is under way at the disk, where commands
/// and answers went in turn, it says so of the one that the guest had supplied for the slot whose bit of PxCI falls.
pub fn knows_flushes(machine: &Machine)
    ensures answered { KnowsFlushAnswers machine.now }
    ensures slots { KnowsFlushes AllKeepEnding machine.now }
    ensures plain { KnowsFlushes AllUnqueued machine.now }
{
    machine_theorem::flushes_are_answered();
    machine_theorem::flushes_are_of_their_slots();
}

/// What the caller knows of the writes of its guest before such a FLUSH CACHE, whatever run led to its machine; it runs no code. The guest saw a queued write
/// completed behind a moment at rest, or one that is not queued behind a moment at which nothing is under way at the disk, and then this FLUSH CACHE: each
/// sector of the write was stored, and flushed behind that.
pub fn knows_flushed_writes(machine: &Machine)
    ensures slots { KnowsFlushedWrites AllKeepEnding machine.now }
    ensures plain { KnowsFlushedWrites AllUnqueued machine.now }
    ensures singles { KnowsWrittenSingles AllKeepEnding machine.now }
    ensures plain_singles { KnowsWrittenSingles AllUnqueued machine.now }
{
    machine_theorem::completions_are_of_their_slots();
    machine_theorem::flushes_follow_writes();
    machine_theorem::unqueued_commands_are_of_their_slots();
}
