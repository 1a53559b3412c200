//! What a caller knows of the commands of its guest that are not queued, with PIO data-in among them.

ghost use Rattle.uses_machine_theorem.specs.PioIn.{KnowsEnding, KnowsLast, KnowsPlainUnqueued, KnowsSectors, KnowsSettled, KnowsUnqueued};

use ahci_machine::Machine;

/// What the caller knows of the commands that are not queued, whatever run led to its machine; it runs no code. Behind a moment at which nothing is under
/// way at a disk, and nothing is set up for it, a command whose bit of PxCI its guest sees fall is the one that the guest had supplied for the slot, and the
/// disk did all of it, be it by DMA or by PIO, where commands and ends went in turn: at a disk that was new as it was put at its port they do while it is not
/// reset, at the controller while a command that waits leaves its slot only as its device ends or answers it.
pub fn knows_unqueued(machine: &Machine)
    ensures settled { KnowsSettled machine.now }
    ensures sectors { KnowsSectors machine.now }
    ensures ending { KnowsEnding machine.now }
    ensures last { KnowsLast machine.now }
    ensures unqueued { KnowsUnqueued machine.now }
    ensures plain { KnowsPlainUnqueued machine.now }
{
    machine_theorem::commands_are_settled_in_turn();
    machine_theorem::commands_await_their_ends();
    machine_theorem::unqueued_commands_are_of_their_slots();
}
