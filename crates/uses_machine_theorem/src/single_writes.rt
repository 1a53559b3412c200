//! What a caller knows of the writes of its guest that are not queued.

ghost use Rattle.uses_machine_theorem.specs.SingleFeeding.{KnowsCame, KnowsDataInOrder, KnowsSingleWrites};

use ahci_machine::Machine;

/// What the caller knows of the Data of its guest's writes that are not queued, whatever run led to its machine; it runs no code. Behind the command of a
/// slot, while no queued command is issued for the device, the Data that go to it are of this slot, in order. All that came for a command which a new disk
/// says next to have ended, it heard behind this command. And behind a moment at which nothing is under way at a disk, while the guest has no queued
/// command for it, and spares those that wait: where a bit of PxCI falls, and the disk says that a write ended well, what came for it
/// is what the guest had supplied for this slot, from its first byte on, in order.
pub fn knows_single_writes(machine: &Machine)
    ensures order { KnowsDataInOrder machine.now }
    ensures came { KnowsCame machine.now }
    ensures writes { KnowsSingleWrites machine.now }
{
    machine_theorem::single_data_go_in_order();
    machine_theorem::data_come_behind_commands();
    machine_theorem::single_writes_are_as_supplied();
}
