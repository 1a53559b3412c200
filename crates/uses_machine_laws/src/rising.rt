//! A caller that has, after each of its calls, what its devices sent and what of it came to the controller.

ghost use Rattle.std.specs.Prelude.{◌<◌, ℕ, [], ◌∷◌, IfOk};
ghost use Rattle.machine_laws.specs.Deeds as deed;
ghost use Rattle.machine_laws.specs.Rising.{Frames, GoesOnRising, HaveRisen, RisesInOrder, no_frames};
ghost use Rattle.uses_machine_laws.specs.Risen.{KeepsRising, MovesRising};

use ahci_controller::{WideWritten, Width};
use ahci_machine::{Act, Machine, PortFault, Request};
use fis_view::Frame;
use std::alloc::{AllocError, Global};

// The law. The call has no effect.
fn goes_on()
    ensures { GoesOnRising }
{
    machine_laws::frames_rise_in_order();
}

/// A machine with nothing at its ports: nothing was sent.
pub fn opens(alloc: Global, ports: u8, legacy: bool) -> Result<Machine, AllocError>
    ensures { IfOk result (λ machine. HaveRisen machine no_frames) }
{
    machine_laws::frames_rise_in_order();
    let machine = Machine::new(alloc, ports, legacy)?;
    machine.keeps_rules();
    Ok(machine)
}

/// What is at a port is plugged in: a connection begins.
pub fn plugs(machine: &mut Machine, port: u8) -> Result<(), PortFault>
    ensures { KeepsRising machine.old (deed.Plugged port result ∷ []) machine.new }
{
    goes_on();
    machine.keeps_rules();
    let told = machine.plug(port);
    machine.keeps_rules();
    told
}

/// What is at a port is pulled: its connection ends.
pub fn pulls(alloc: Global, machine: &mut Machine, port: u8) -> Result<(), PortFault>
    ensures { KeepsRising machine.old (deed.Pulled port result ∷ []) machine.new }
{
    goes_on();
    machine.keeps_rules();
    let told = machine.pull(alloc, port);
    machine.keeps_rules();
    told
}

/// A device of the caller's own sends a FIS.
pub fn offers(machine: &mut Machine, port: u8, frame: Frame) -> Result<(), Frame>
    ensures { KeepsRising machine.old (deed.FrameOffered port frame result ∷ []) machine.new }
{
    goes_on();
    machine.keeps_rules();
    let told = machine.offer(port, frame);
    machine.keeps_rules();
    told
}

/// The guest writes registers. Where that resets the link, all of before is forgotten.
pub fn writes(machine: &mut Machine, offset: u32, width: Width, value: u64) -> WideWritten
    ensures { KeepsRising machine.old (deed.Wrote offset width value result ∷ []) machine.new }
{
    goes_on();
    machine.keeps_rules();
    let written = machine.write(offset, width, value);
    machine.keeps_rules();
    written
}

/// The machine moves: a disk sends a FIS, one goes up, or the controller takes one.
pub fn moves(alloc: Global, machine: &mut Machine) -> Result<Act, AllocError>
    ensures { IfOk result (λ move. KeepsRising machine.old (deed.Moved move ∷ []) machine.new) }
{
    goes_on();
    machine.keeps_rules();
    let moved = machine.step(alloc);
    machine.keeps_rules();
    moved
}

/// The machine moves until it asks something.
pub fn asks(alloc: Global, machine: &mut Machine) -> Result<Request, AllocError>
    ensures { MovesRising machine.old machine.new }
{
    goes_on();
    machine.keeps_rules();
    let asked = machine.next(alloc);
    machine.keeps_rules();
    asked
}

/// For each port and connection: what came to the controller, and then what is on its way, is what the device sent, in order.
pub fn shows(machine: &Machine)
    ensures { (frames : Frames) → HaveRisen machine.now frames → (n c : ℕ) → n < 15 → RisesInOrder machine.now frames n c }
{
    machine_laws::frames_rise_in_order();
    machine.keeps_rules();
}
