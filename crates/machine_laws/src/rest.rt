//! What is left to do at rest.

ghost use Rattle.machine_laws.specs.Rest.{RestIsOwed};

/// A law for callers; it runs no code. Where a machine is at rest, as [`step`](ahci_machine::Machine::step) and
/// [`next`](ahci_machine::Machine::next) say, each command that is under way at a disk waits for somebody: for an answer that the caller
/// owes, for Data of its host, or for room on its link.
pub fn rest_is_owed()
    ensures { RestIsOwed }
{
    sata_disk_laws::silence_is_owed();
}
