//! What a caller knows of the reads of its guest that are not queued.

ghost use Rattle.uses_machine_theorem.specs.SingleReads.{KnowsSingleCounts, KnowsSingleTurns, KnowsSinglesBrought, KnowsSinglesBroughtSince};
ghost use Rattle.uses_machine_theorem.specs.SingleReads.{KnowsSinglesFilled, KnowsSinglesSent, KnowsSinglesWritten};

use ahci_machine::Machine;

/// What the caller knows of the reads of its guest that are not queued, whatever run led to its machine; it runs no code. Where the guest sees a READ DMA or a
/// PIO data-in completed, each byte of it was brought by a Data FIS of its device for its slot, and nothing was issued there since then; and it was written
/// at its place before the bit fell. Of a PIO data-in the FIS by which the bit falls may bring it. While commands and answers go in turn, the disk sent what
/// brought a byte of a READ DMA for the command that the guest had supplied for the slot.
pub fn knows_single_reads(machine: &Machine)
    ensures brought { KnowsSinglesBrought machine.now }
    ensures since { KnowsSinglesBroughtSince machine.now }
    ensures written { KnowsSinglesWritten machine.now }
    ensures filled { KnowsSinglesFilled machine.now }
    ensures sent { KnowsSinglesSent machine.now }
    ensures turns { KnowsSingleTurns machine.now }
    ensures counts { KnowsSingleCounts machine.now }
{
    machine_theorem::completed_single_reads_are_brought();
    machine_theorem::filled_single_reads_were_brought();
    machine_theorem::completed_single_reads_are_sent();
    machine_theorem::single_data_go_in_turn();
    machine_theorem::single_data_are_counted();
}
