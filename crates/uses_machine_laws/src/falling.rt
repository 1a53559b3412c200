//! The FISes that the calls of a machine bring to its devices.

ghost use Rattle.std.specs.Prelude.{◌≡◌, ◌<◌, ℕ, List, [], ◌∷◌, IfOk, Ok};
ghost use Rattle.ahci_controller.specs.declared.feeding.Fed.{Fed};
ghost use Rattle.ahci_controller.specs.declared.next.Next.TheVariants as next_move;
ghost use Rattle.multiplier.specs.declared.multiplier.Passed.{Passed};
ghost use Rattle.ahci_machine.specs.declared.act.Act.TheVariants as act;
ghost use Rattle.machine_laws.specs.Deeds as deed;
ghost use Rattle.machine_laws.specs.Falling.{ArrivesAt};
ghost use Rattle.machine_laws.specs.Feeding.{IsOrdered, IsReading};
ghost use Rattle.uses_machine_laws.specs.Falls.{FallsOn, Laws};

use ahci_controller::{WideWritten, Width};
use ahci_machine::{Act, Machine, PortFault, Told, Wanted};
use fis_view::Frame;
use std::alloc::{AllocError, Global};

// The laws. The call has no effect.
fn falling_laws()
    ensures { Laws }
{
    machine_laws::frames_fall_in_order();
    machine_laws::sent_frames_are_supplied();
}

/// A machine with nothing at its ports, and of which nothing is read for a device.
pub fn opens_unread(alloc: Global, ports: u8, legacy: bool) -> Result<Machine, AllocError>
    ensures { IfOk result (λ machine. (dev : ℕ) → IsReading machine dev []) }
{
    machine_laws::sent_frames_are_supplied();
    Machine::new(alloc, ports, legacy)
}

/// The machine moves. What is on its way goes on in order, a command's FIS is the one that was supplied for its slot, and a FIS that
/// reaches the other end of the link goes to the port that it names.
pub fn goes_on(alloc: Global, machine: &mut Machine) -> Result<Act, AllocError>
    ensures falls { IfOk result (λ move. FallsOn machine.old (deed.Moved move ∷ []) machine.new) }
    ensures orders { (dev slot : ℕ) (fis : List ℕ) → result ≡ Ok (act.Turns (next_move.Order dev slot fis))
        → IsOrdered machine.old.controller dev slot fis }
    ensures arrives { (went : Passed) → result ≡ Ok (act.Sends went) → ArrivesAt machine.old.fan machine.old.outgoing went }
{
    machine_laws::frames_fall_in_order();
    machine_laws::sent_frames_are_supplied();
    falling_laws();
    machine.keeps_rules();
    let moved = machine.step(alloc);
    machine.keeps_rules();
    moved
}

/// Bytes of the guest's memory come.
pub fn brings(
    alloc: Global,
    machine: &mut Machine,
    wanted: Wanted,
    bytes: &[u8],
) -> Result<Told, AllocError>
    ensures { FallsOn machine.old (deed.Supplied wanted bytes.now ∷ []) machine.new }
{
    falling_laws();
    machine.keeps_rules();
    let told = machine.supply(alloc, wanted, bytes);
    machine.keeps_rules();
    told
}

/// The guest writes registers.
pub fn sets(machine: &mut Machine, offset: u32, width: Width, value: u64) -> WideWritten
    ensures { FallsOn machine.old (deed.Wrote offset width value result ∷ []) machine.new }
{
    falling_laws();
    machine.keeps_rules();
    let written = machine.write(offset, width, value);
    machine.keeps_rules();
    written
}

/// A device of the caller's own takes the FIS that is there for it.
pub fn hears(machine: &mut Machine, port: u8) -> Option<Frame>
    ensures { FallsOn machine.old (deed.FrameTaken port result ∷ []) machine.new }
{
    falling_laws();
    machine.keeps_rules();
    let frame = machine.take_frame(port);
    machine.keeps_rules();
    frame
}

/// A device is plugged in.
pub fn joins(machine: &mut Machine, port: u8) -> Result<(), PortFault>
    ensures { FallsOn machine.old (deed.Plugged port result ∷ []) machine.new }
{
    falling_laws();
    machine.keeps_rules();
    let joined = machine.plug(port);
    machine.keeps_rules();
    joined
}
