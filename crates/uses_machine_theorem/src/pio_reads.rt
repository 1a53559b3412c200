//! What a caller knows of the bytes of reads that are not queued, by DMA or by PIO.

ghost use Rattle.uses_machine_theorem.specs.PioReads.{KnowsUnqueuedRead};

use ahci_machine::Machine;

/// What the caller knows of each byte of a READ DMA or a PIO data-in that its guest sees completed, whatever run led to its machine; it runs no code.
/// While nothing was lost, and the guest sent the disk no queued command, it is the byte of its number that the caller gave for the sectors of the command
/// that the guest had supplied for the slot, whatever other reads and writes ended meanwhile. It was written at its place before the bit fell, or the
/// last Data of a PIO data-in bring it.
pub fn knows_unqueued_reads(machine: &Machine)
    ensures { KnowsUnqueuedRead machine.now }
{
    machine_theorem::unqueued_reads_are_read();
}
