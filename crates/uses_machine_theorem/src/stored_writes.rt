//! What a caller of a machine knows of the queued writes of a guest that sends its disks queued commands alone.

ghost use Rattle.uses_machine_theorem.specs.StoredWrites.{KnowsGone, KnowsQueuedWrites, KnowsServed, KnowsStored};

use ahci_machine::Machine;

/// What the caller knows of the queued writes of its guest, whatever run led to its machine; it runs no code. Data that go to a device go of a slot with a queued
/// write, while each command that is issued for the device is queued. Behind a moment at rest, while the guest keeps to the standard and sends a disk queued
/// commands alone, and the disk takes each, it serves queued commands alone; and if no FIS of it is lost or at fault, what it is to hear for its command under a
/// tag went of the slot of this number. Where the guest sees this command completed, and it is a write, the disk had had stored all that came for it, and each
/// byte of that is the one of its number that was supplied for the slot.
pub fn knows_stored_writes(machine: &Machine)
    ensures gone { KnowsGone machine.now }
    ensures served { KnowsServed machine.now }
    ensures writes { KnowsQueuedWrites machine.now }
    ensures stored { KnowsStored machine.now }
{
    machine_theorem::data_go_of_queued_writes();
    machine_theorem::queued_commands_alone_are_served();
    machine_theorem::queued_writes_are_as_supplied();
    machine_theorem::completed_writes_are_stored();
}
