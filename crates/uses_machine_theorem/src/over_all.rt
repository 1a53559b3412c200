//! Reads behind writes, over anything that happens in between.

ghost use Rattle.uses_machine_theorem.specs.OverAll.{KnowsOverAll, KnowsSentOverAll, KnowsSettled};
ghost use Rattle.uses_machine_theorem.specs.OverAll.{KnowsAmong, KnowsSpared, KnowsStanding};

use ahci_machine::Machine;

/// What the caller knows of the reads of its guest behind its writes, whatever run led to its machine; it runs no code. Of a write that the guest saw
/// completed and a read that it sees completed later, each queued or not, the Data of the read have what came for the write, if the medium gives what it
/// was last told to keep, and the disk asked for no other store and no discard of the sector in between: whatever happened to the disk, its link and its
/// other commands. So it is of all Data that a disk has sent of a read. And as the write ended, nothing was out that could still change its sectors.
pub fn knows_reads_over_all(machine: &Machine)
    ensures seen { KnowsOverAll machine.now }
    ensures sent { KnowsSentOverAll machine.now }
    ensures settled { KnowsSettled machine.now }
{
    machine_theorem::reads_follow_writes_over_all();
}

/// What the caller knows of the writes that can have come in between; it runs no code. A disk asks for no store and no discard of a sector while it hears no
/// write of it and no DATA SET MANAGEMENT, if nothing of it was under way before. And behind a moment at rest, while the guest keeps to the standard, the slots
/// tell which writes are under way at it, and so what else was stored between a write and a read that the guest sees completed, both queued.
pub fn knows_what_is_spared(machine: &Machine)
    ensures spared { KnowsSpared machine.now }
    ensures standing { KnowsStanding machine.now }
    ensures among { KnowsAmong machine.now }
{
    machine_theorem::unheard_is_spared();
    machine_theorem::slots_tell_of_writes();
    machine_theorem::reads_follow_writes_among_slots();
}
