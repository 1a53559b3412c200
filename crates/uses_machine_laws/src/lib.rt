//! A caller of a machine that has, after each of its calls, the laws of the disks in it.
#![tactic(auto)]

ghost use Rattle.std.specs.Prelude.{◌≡◌, ◌≤◌, ℕ, Bool, false, List, [], ◌∷◌, Option, None, IfOk, Ok};
ghost use Rattle.ahci_machine.specs.Registers.{lent_bytes};
ghost use Rattle.sata_disk.specs.State.{DiskState};
ghost use Rattle.ahci_controller.specs.Next.{next_write};
ghost use Rattle.ahci_controller.specs.declared.next.Next as next_move;
ghost use Rattle.controller_laws.specs.Interrupts.{line_shown};
ghost use Rattle.ahci_machine.specs.States.{bay_at};
ghost use Rattle.ahci_machine.specs.declared.act.Act.TheVariants as act;
ghost use Rattle.ahci_machine.specs.declared.bay.Unit.TheVariants.{Disk};
ghost use Rattle.machine_laws.specs.ControllerLaws.{OpensSo, WritesRightly, is_write};
ghost use Rattle.machine_laws.specs.Deeds as deed;
ghost use Rattle.machine_laws.specs.Disks.{AreReached, HasLaws};
ghost use Rattle.machine_laws.specs.Lent.{HoldsFrame, Lends};
ghost use Rattle.uses_machine_laws.specs.Kept.{AllWait, Keeps, KeepsLaws, KeepsMoves, KeepsOthers, Laws};

mod falling;
pub mod rising;

use ahci_controller::{WideWritten, Width};
use ahci_machine::{Act, Machine, MediumError, MediumId, PortFault, Request, Told, Unit, Wanted};
use block_engine::Answer;
use disk_pages::Profile;
pub use falling::{brings, goes_on, hears, joins, opens_unread, sets};
use fis_view::Frame;
use sata_disk::SataDisk;
use std::alloc::{AllocError, Global};

// The laws of the controller. The call has no effect.
fn controller_laws()
    ensures { Laws }
{
    machine_laws::controller_has_its_laws();
    machine_laws::taken_frames_are_lent();
}

/// A machine with nothing at its ports. What its controller has to do with devices and with the guest begins.
pub fn opens(alloc: Global, ports: u8, legacy: bool) -> Result<Machine, AllocError>
    ensures reached { IfOk result AreReached }
    ensures controller { IfOk result OpensSo }
    ensures frame { IfOk result (λ machine. HoldsFrame machine None) }
{
    machine_laws::disks_have_their_laws();
    machine_laws::controller_has_its_laws();
    machine_laws::taken_frames_are_lent();
    let machine = Machine::new(alloc, ports, legacy)?;
    machine.keeps_rules();
    Ok(machine)
}

/// Puts a new disk at a port.
#[tactic(auto, using(crate::proofs::Keep::puts_keep))]
pub fn puts(
    alloc: Global,
    machine: &mut Machine,
    port: u8,
    profile: Profile,
    limit: u32,
) -> Result<(), AllocError>
    requires { 1048576 ≤ limit }
    ensures { Keeps machine.old machine.new }
{
    machine_laws::disks_have_their_laws();
    let disk = SataDisk::new(alloc, profile, limit)?;
    let _ = machine.put(port, Unit::Disk(disk));
    Ok(())
}

/// What is at a port is plugged in.
pub fn plugs(machine: &mut Machine, port: u8) -> Result<(), PortFault>
    ensures { Keeps machine.old machine.new }
{
    machine_laws::disks_have_their_laws();
    machine.plug(port)
}

/// What is at a port is pulled; what is at the others stays.
#[tactic(auto, using(crate::proofs::Keep::pulls_keep))]
pub fn pulls(alloc: Global, machine: &mut Machine, port: u8) -> Result<(), PortFault>
    ensures keeps { Keeps machine.old machine.new }
    ensures others { KeepsOthers port machine.old machine.new }
{
    machine_laws::disks_have_their_laws();
    machine_laws::ports_are_apart();
    machine.pull(alloc, port)
}

/// The guest writes registers.
#[tactic(auto, using(crate::proofs::Keep::writes_keep))]
pub fn writes(machine: &mut Machine, offset: u32, width: Width, value: u64) -> WideWritten
    ensures keeps { Keeps machine.old machine.new }
    ensures controller { KeepsLaws machine.old (deed.Wrote offset width value result ∷ []) machine.new }
{
    machine_laws::disks_have_their_laws();
    controller_laws();
    machine.keeps_rules();
    let written = machine.write(offset, width, value);
    machine.keeps_rules();
    written
}

/// Bytes of the guest's memory come. Those of a command are what the command of its slot is.
pub fn supplies(
    alloc: Global,
    machine: &mut Machine,
    wanted: Wanted,
    bytes: &[u8],
) -> Result<Told, AllocError>
    ensures { KeepsLaws machine.old (deed.Supplied wanted bytes.now ∷ []) machine.new }
{
    controller_laws();
    machine.keeps_rules();
    let told = machine.supply(alloc, wanted, bytes);
    machine.keeps_rules();
    told
}

/// They are no memory.
pub fn misses(machine: &mut Machine, wanted: Wanted) -> Result<Told, AllocError>
    ensures { KeepsLaws machine.old (deed.Missed wanted ∷ []) machine.new }
{
    controller_laws();
    machine.keeps_rules();
    let told = machine.no_memory(wanted);
    machine.keeps_rules();
    told
}

/// A medium answers; what is at the other ports stays.
#[tactic(auto, using(crate::proofs::Keep::answers_keep))]
pub fn answers(machine: &mut Machine, id: MediumId, answer: Answer) -> Result<(), MediumError>
    ensures keeps { Keeps machine.old machine.new }
    ensures others { KeepsOthers id.port machine.old machine.new }
{
    machine_laws::disks_have_their_laws();
    machine_laws::ports_are_apart();
    machine.answer(id, answer)
}

/// A device of the caller's own sends a FIS.
pub fn offers(machine: &mut Machine, port: u8, frame: Frame) -> Result<(), Frame>
    ensures { Keeps machine.old machine.new }
{
    machine_laws::disks_have_their_laws();
    machine.offer(port, frame)
}

/// The machine moves. What goes to the guest are bytes of the frame that was taken last, at the places of their command's table, or that
/// frame, or PRDBC, and no turn of the controller has such bytes. The line that is told is the one that the registers show, and nothing is
/// to be written to the guest then. Where it rests, each command of a disk waits for somebody.
pub fn moves(alloc: Global, machine: &mut Machine) -> Result<Act, AllocError>
    ensures keeps { Keeps machine.old machine.new }
    ensures controller { IfOk result (λ move. KeepsLaws machine.old (deed.Moved move ∷ []) machine.new) }
    ensures writes { (write : next_move.Next) → result ≡ Ok (act.Writes write) → WritesRightly machine.old write machine.new }
    ensures lent { (write : next_move.Next) → result ≡ Ok (act.Writes write) → (last : Option (List ℕ)) → HoldsFrame machine.old last
        → Lends write last (lent_bytes machine.new) }
    ensures turns { (said : next_move.Next) → result ≡ Ok (act.Turns said) → is_write said ≡ false }
    ensures line { (line : Bool) → result ≡ Ok (act.Line line)
        → (line ≡ line_shown machine.new.controller) × (next_write machine.new.controller ≡ None) }
    ensures waits { result ≡ Ok act.Rests → AreReached machine.old → AllWait machine.old }
{
    machine_laws::disks_have_their_laws();
    machine_laws::rest_is_owed();
    machine_laws::controller_has_its_laws();
    machine_laws::taken_frames_are_lent();
    controller_laws();
    machine.keeps_rules();
    let moved = machine.step(alloc);
    machine.keeps_rules();
    moved
}

/// The machine moves until it asks something.
pub fn asks(alloc: Global, machine: &mut Machine) -> Result<Request, AllocError>
    ensures keeps { Keeps machine.old machine.new }
    ensures controller { KeepsMoves machine.old machine.new }
{
    machine_laws::disks_have_their_laws();
    controller_laws();
    machine.keeps_rules();
    let asked = machine.next(alloc);
    machine.keeps_rules();
    asked
}

/// The laws of the disk at a port.
pub fn laws(machine: &Machine)
    ensures { AreReached machine.now → (port : ℕ) (d : DiskState) → (bay_at machine.now port).unit ≡ Disk d → HasLaws d }
{
    machine_laws::disks_have_their_laws();
    machine.keeps_rules();
}
