//! A caller of a machine that knows where the bytes come from that it is told to write to the guest, and which commands its disks have.
#![tactic(auto)]

ghost use Rattle.std.specs.Prelude.{◌≡◌, ◌<◌, ◌≤◌, IfOk, IfSome};
ghost use Rattle.slots.specs.Slots.{has_bit};
ghost use Rattle.ahci_registers.specs.declared.register.Register.TheVariants.{PxCi};
ghost use Rattle.ahci_controller.specs.Reading.{shown};
ghost use Rattle.uses_machine_theorem.specs.Feeding.{KnowsFed, KnowsPlaces, KnowsWrites};
ghost use Rattle.uses_machine_theorem.specs.Led.{AsksSupplied, EndsCompleted, EndsEarned, EndsSupplied, FallsSupplied, HoldsSupplied};
ghost use Rattle.uses_machine_theorem.specs.Led.{IsLed, KnowsDisks, LendsBrought, LendsOfSlots, PutsNew, SpeaksDone, SpeaksOfSlots};
ghost use Rattle.uses_machine_theorem.specs.Led.{SpeaksSupplied};
ghost use Rattle.uses_machine_theorem.specs.Slots.{KnowsBrought, KnowsBroughtSince, KnowsBytes, KnowsData, KnowsEnds, KnowsFilled};
ghost use Rattle.uses_machine_theorem.specs.Slots.{KnowsFollowing, KnowsGiven, KnowsOrders, KnowsQueued, KnowsReadBack};
ghost use Rattle.uses_machine_theorem.specs.Slots.{KnowsReads, KnowsSlots, KnowsTags, KnowsTransfers, KnowsTurns};
ghost use Rattle.uses_machine_theorem.specs.Slots.{KnowsWritten};
ghost use Rattle.uses_machine_theorem.specs.Standing.{BeginsToStand, GoesOnStanding};

mod flushes;
mod over_all;
mod pio;
mod pio_reads;
mod seen;
mod single_reads;
mod single_writes;
mod stored_singles;
mod stored_writes;

use ahci_controller::Width;
use ahci_machine::{Act, Machine, MediumId, PortFault, Told, Unit, Wanted};
use disk_pages::Profile;
pub use flushes::{knows_flushed_writes, knows_flushes};
pub use over_all::{knows_reads_over_all, knows_what_is_spared};
pub use pio::knows_unqueued;
pub use pio_reads::knows_unqueued_reads;
use sata_disk::SataDisk;
pub use seen::knows_what_is_seen;
pub use single_reads::knows_single_reads;
pub use single_writes::knows_single_writes;
use std::alloc::{AllocError, Global};
pub use stored_singles::knows_stored_singles;
pub use stored_writes::knows_stored_writes;

/// A machine with nothing at its ports.
pub fn opens(alloc: Global, ports: u8, legacy: bool) -> Result<Machine, AllocError>
    ensures { IfOk result (λ machine. IsLed machine) }
{
    let machine = Machine::new(alloc, ports, legacy)?;
    machine.keeps_rules();
    Ok(machine)
}

/// Puts a new disk at a port.
pub fn puts(
    alloc: Global,
    machine: &mut Machine,
    port: u8,
    profile: Profile,
    limit: u32,
) -> Result<(), AllocError>
    requires { 1048576 ≤ limit }
    ensures { IfOk result (λ _. PutsNew port profile limit machine.old machine.new) }
{
    let disk = SataDisk::new(alloc, profile, limit)?;
    let _ = machine.put(port, Unit::Disk(disk));
    machine.keeps_rules();
    Ok(())
}

/// The machine moves. Where it says that payload is to be written, the bytes that it lends are those of a Data FIS that a device
/// sent: of a disk the next bytes that the caller gave for the sectors of the command, and this command came from a slot. Where it
/// says that a disk sends Data, they are such bytes. Where a bit of PxSACT falls as it takes a FIS, the device that owns the slot
/// said so, and a disk has earned that. Where one of PxCI does, this device completed the slot's command. Where a disk asks for a
/// store, the bytes are the guest's, as they were supplied for a command from a slot; and so is what a write stored that ends, be it
/// queued or not.
pub fn moves(alloc: Global, machine: &mut Machine) -> Result<Act, AllocError>
    ensures led { IsLed machine.old → IfOk result (λ moved. IsLed machine.new) }
    ensures brought { LendsBrought machine.old result machine.new }
    ensures slots { LendsOfSlots machine.old result machine.new }
    ensures speaks { SpeaksOfSlots machine.old result }
    ensures ended { EndsEarned machine.old result machine.new }
    ensures completed { EndsCompleted machine.old result machine.new }
    ensures stores { AsksSupplied machine.old result machine.new }
    ensures ends { SpeaksSupplied machine.old result }
    ensures supplied { EndsSupplied machine.old result machine.new }
    ensures done { SpeaksDone machine.old result }
    ensures fallen { FallsSupplied machine.old result machine.new }
{
    machine_theorem::payload_comes_from_devices();
    machine_theorem::data_are_of_slots();
    machine_theorem::completions_are_of_devices();
    machine_theorem::writes_come_from_guests();
    machine.keeps_rules();
    let moved = machine.step(alloc);
    machine.keeps_rules();
    moved
}

/// The bytes of a store. Behind the move that asked for it they are those that came for the command behind what was stored before, each as it was
/// supplied.
pub fn stored(machine: &Machine, id: MediumId, place: u8) -> Option<&[u8]>
    ensures { IfSome result (λ bytes. HoldsSupplied machine.now id place bytes.now) }
{
    machine_theorem::writes_come_from_guests();
    machine.stored(id, place)
}

/// Reads the bit of a slot in PxCI.
fn is_up(machine: &Machine, slot: u8) -> bool
    requires { slot < 32 }
    ensures { result ≡ has_bit (shown PxCi machine.now.controller) slot }
{
    machine.read(0x138, Width::Dword) >> slot & 1 == 1
}

/// Bytes of the guest's memory come for the command of a slot. The answer is whether it is issued by that, and its bit of PxCI is 1.
pub fn supplies(
    alloc: Global,
    machine: &mut Machine,
    slot: u8,
    number: u64,
    bytes: &[u8],
) -> Result<bool, AllocError>
    requires { slot < 32 }
    ensures { BeginsToStand slot machine.old result machine.new }
{
    let told = machine.supply(alloc, Wanted::Command { slot, number }, bytes)?;
    machine.keeps_rules();
    Ok(matches!(told, Told::Issued { .. }) && is_up(machine, slot))
}

/// The machine moves. The answer is whether the bit of a slot in PxCI is 1 after that. As long as it is, the slot has the command that was issued there.
pub fn watches(alloc: Global, machine: &mut Machine, slot: u8) -> Result<bool, AllocError>
    requires { slot < 32 }
    ensures { GoesOnStanding slot machine.old result machine.new }
{
    let _ = machine.step(alloc)?;
    machine.keeps_rules();
    Ok(is_up(machine, slot))
}

/// Plugs in what is at a port. The caller knows of each disk in the machine, whatever run led to it, that it heard nothing but its guest, that
/// the Data among that were supplied, that its commands came from slots, and that they are as they were supplied while their slots' bits stand. Of each
/// tag it ended no more commands than it heard; no more were sent from a slot than its bit of PxSACT fell, but the one that stands; and behind a
/// moment at rest its command under a tag is the one in the slot of this number, if the guest kept to the standard.
pub fn plugs(machine: &mut Machine, port: u8) -> Result<(), PortFault>
    ensures disks { KnowsDisks machine.new }
    ensures tags { KnowsTags machine.new }
    ensures orders { KnowsOrders machine.new }
    ensures slots { KnowsSlots machine.new }
{
    machine_theorem::commands_come_from_slots();
    machine_theorem::disks_hear_their_guest();
    machine_theorem::slots_have_one_command();
    machine_theorem::writes_come_from_guests();
    machine_theorem::tags_are_counted();
    machine_theorem::commands_are_sent_once();
    machine_theorem::slots_name_their_disks_commands();
    machine.plug(port)
}

/// What the caller knows of the queued commands of its guest, whatever run led to its machine; it runs no code. Behind a moment at rest, while the
/// guest keeps to the standard, a command that is under way at a disk is the one that the guest had supplied for the slot of its tag; Data of the
/// tag are the bytes of its sectors, and where the guest sees it completed, the disk had done all of it. What a FIS brings for the slot of a
/// queued read are those bytes, each at its number, while no FIS of the disk is lost or at fault. Where the guest sees a queued read completed, each
/// byte of it was brought by such a FIS and written at its place, and nothing was issued in the slot since then. If the medium gives what it was last
/// told to keep, they are what the guest wrote there, by a write that it saw completed before; and so are all that the disk sent for a read that the
/// guest sees completed. At a disk that was new as it was put at its port, commands that are not queued and their answers go in turn while it is not reset.
pub fn knows_commands(machine: &Machine)
    ensures given { KnowsGiven machine.now }
    ensures sent { KnowsData machine.now }
    ensures ended { KnowsEnds machine.now }
    ensures read { KnowsReads machine.now }
    ensures brought { KnowsBrought machine.now }
    ensures since { KnowsBroughtSince machine.now }
    ensures written { KnowsWritten machine.now }
    ensures bytes { KnowsBytes machine.now }
    ensures queued { KnowsQueued machine.now }
    ensures filled { KnowsFilled machine.now }
    ensures back { KnowsReadBack machine.now }
    ensures follows { KnowsFollowing machine.now }
    ensures turns { KnowsTurns machine.now }
    ensures transfers { KnowsTransfers machine.now }
{
    machine_theorem::commands_are_as_supplied();
    machine_theorem::completions_are_of_their_slots();
    machine_theorem::reads_are_as_supplied();
    machine_theorem::completed_reads_are_brought();
    machine_theorem::completed_reads_are_written();
    machine_theorem::queued_reads_are_brought();
    machine_theorem::filled_bytes_were_brought();
    machine_theorem::guests_read_back();
    machine_theorem::completed_reads_follow_writes();
    machine_theorem::commands_go_in_turn();
    machine_theorem::transfers_are_answered();
}

/// What the caller knows of the Data of its guest's queued writes, whatever run led to its machine; it runs no code. Data that go to a device of a
/// slot were read for this slot, from the byte that goes next. Over a link that keeps the order, this slot is the place of the command for which a disk
/// takes them, and the byte is the one behind those that came for it. Behind a moment at rest, while the guest keeps to the standard, no FIS of the disk
/// is lost or at fault, and it serves queued commands alone, what a disk is to hear for its command under a tag are those bytes of the slot of this
/// number, and the command is the one that the guest had supplied there.
pub fn knows_writes(machine: &Machine)
    ensures fed { KnowsFed machine.now }
    ensures places { KnowsPlaces machine.now }
    ensures writes { KnowsWrites machine.now }
{
    machine_theorem::fed_data_are_of_their_slots();
    machine_theorem::ordered_links_keep_places();
    machine_theorem::writes_are_as_supplied();
}
