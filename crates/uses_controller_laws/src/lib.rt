//! A caller of a controller that has its laws for the calls that it makes.
#![tactic(auto)]

ghost use Rattle.std.specs.Prelude.{◌≡◌, [], ◌∷◌, false, Some, None, IfOk, IfSome};
ghost use Rattle.controller_laws.specs.Carrying.{AreNumbered, AreSaid, Carrying, IsOwnData, first_of, placed_of, said_of};
ghost use Rattle.controller_laws.specs.Events as call;
ghost use Rattle.controller_laws.specs.Interrupts.{line_after, line_shown};
ghost use Rattle.controller_laws.specs.Places.{IsWritten};
ghost use Rattle.uses_controller_laws.specs.Ended.{IsCall, Laws, OpensSo};

use ahci_controller::{
    Controller, Edge, Hindrance, Next, Supply, Took, WideWritten, Width, Written,
};
use fis_view::Frame;
use std::alloc::Global;

// The laws. The call has no effect.
fn laws()
    ensures { Laws }
{
    controller_laws::events_are_core_events();
    controller_laws::issues_fall();
    controller_laws::active_falls();
    controller_laws::commands_are_supplied();
    controller_laws::bytes_go_to_their_places();
    controller_laws::line_is_told();
}

/// A controller that opens. No device has a history yet, nothing was supplied, nothing is to be written, and the line is down.
pub fn opens() -> Controller
    ensures opens { OpensSo result }
    ensures said { AreSaid result None }
{
    controller_laws::issues_fall();
    controller_laws::commands_are_supplied();
    controller_laws::line_is_told();
    let controller = Controller::new();
    controller.keeps_rules();
    controller
}

/// Writes a register. A bit of PxCI or PxSACT falls only by an end of its command, or as the port is stopped.
pub fn writes(controller: &mut Controller, offset: u32, value: u32) -> Written
    ensures { IsCall controller.old (call.Wrote offset value result) controller.new }
{
    laws();
    controller.keeps_rules();
    let written = controller.write32(offset, value);
    controller.keeps_rules();
    written
}

/// Writes bytes of registers.
pub fn writes_wide(
    controller: &mut Controller,
    offset: u32,
    width: Width,
    value: u64,
) -> WideWritten
    ensures { IsCall controller.old (call.WroteWide offset width value result) controller.new }
{
    laws();
    controller.keeps_rules();
    let written = controller.write(offset, width, value);
    controller.keeps_rules();
    written
}

/// Supplies bytes of a command. The command of its slot is these bytes and those that were supplied for it before.
pub fn supplies(
    controller: &mut Controller,
    alloc: Global,
    slot: u8,
    number: u64,
    bytes: &[u8],
) -> Supply
    ensures { IsCall controller.old (call.Supplied slot number bytes.now result) controller.new }
{
    laws();
    controller.keeps_rules();
    let supply = controller.supply(alloc, slot, number, bytes);
    controller.keeps_rules();
    supply
}

/// Takes a frame. A bit of PxCI falls only as its own device ends the command, or answers a queued one, and a bit of PxSACT only
/// as its own device names it. Its bytes are of a command of its own device. All bytes of the frame before it that have a place
/// were written, unless the port was stopped.
pub fn takes(controller: &mut Controller, frame: &Frame) -> Result<Took, Hindrance>
    ensures call { IfOk result (λ took. IsCall controller.old (call.Took frame.now.bytes took) controller.new) }
    ensures own { IfOk result (λ took. IfSome took.brought (IsOwnData controller.old frame.now.bytes)) }
    ensures whole { IfOk result (λ took. (d : Carrying) → AreSaid controller.old (Some d) → AreNumbered d → d.cut ≡ false
        → said_of d ≡ first_of d (placed_of d)) }
{
    laws();
    controller.keeps_rules();
    let _ = frame.bytes();
    let took = controller.take(frame);
    controller.keeps_rules();
    took
}

/// Does what is next. What is written to the guest is bytes at their places, or the frame, or PRDBC.
pub fn asks(controller: &mut Controller) -> Next
    ensures call { IsCall controller.old (call.Turned result) controller.new }
    ensures places { IsWritten controller.old result }
{
    laws();
    controller_laws::writes_are_placed();
    controller.keeps_rules();
    let next = controller.next();
    controller.keeps_rules();
    next
}

// The line, once it was told of.
fn follow(line: bool, edge: Edge) -> bool
    ensures { result ≡ line_after line (edge ∷ []) }
{
    match edge {
        Edge::Rising => true,
        Edge::Falling => false,
        Edge::Steady => line,
    }
}

/// Writes a register, and keeps the interrupt line by what it is told. The line is the one that IS and GHC.IE show.
pub fn keeps_line(controller: &mut Controller, line: bool, offset: u32, value: u32) -> bool
    requires { line ≡ line_shown controller.old }
    ensures { result ≡ line_shown controller.new }
{
    laws();
    controller.keeps_rules();
    let told = controller.write32(offset, value);
    controller.keeps_rules();
    follow(line, told.line)
}
