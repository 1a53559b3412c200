//! The link of the host port, as PxSCTL asks for it and PxSSTS shows it.

ghost use Rattle.std.specs.Prelude.{◌≡◌};
ghost use Rattle.ahci_registers.specs.Bits.{interrupt_bits};
ghost use Rattle.ahci_registers.specs.Lines.{LineEvent, after, is_due};
ghost use Rattle.ahci_registers.specs.Link.{action_of, causes_of, detected_by, effect_of, status_of, written as written_of};

mod saved;

use crate::lines::Lines;
use crate::port::PortInterrupts;
use bitflags::Flags;

/// What PxSCTL.DET asks of the interface (AHCI 1.3.1, section 3.3.11).
#[derive(Clone, Copy, Debug, PartialEq, Eq)]
pub enum LinkAction {
    /// Nothing: DET 0.
    NoAction,
    /// A COMRESET, for as long as DET is 1.
    Comreset,
    /// The interface is disabled, and its Phy offline: DET 4.
    Disable,
}

/// What PxSSTS.DET shows of the interface (AHCI 1.3.1, section 3.3.10).
#[derive(Clone, Copy, Debug, PartialEq, Eq)]
pub enum Detected {
    /// No device is detected, and communication is not established: DET 0.
    NoDevice,
    /// A device is there, and communication is established: DET 3.
    Established,
    /// The Phy is offline: DET 4.
    Offline,
}

/// What a write of PxSCTL does apart from the registers.
#[derive(Clone, Copy, Debug, PartialEq, Eq)]
pub enum Effect {
    /// Nothing.
    Nothing,
    /// The link goes down. Frames on their way are lost, and commands and faults end. The device behind the
    /// link, with all that is connected to it, is to be reset.
    LinkReset,
    /// The link is up again.
    LinkUp,
}

/// What a write of PxSCTL asks for.
#[derive(Clone, Copy, Debug, PartialEq, Eq)]
pub struct LinkWrite {
    /// What it does apart from the registers.
    pub effect: Effect,
    /// A message is due.
    pub message: bool,
}

/// The link: PxSCTL, and what follows from it.
#[derive(Clone, Copy, Debug, PartialEq, Eq)]
pub struct LinkControl {
    control: u32,
}

// What DET in these bits asks for.
#[tactic(auto, unfolding(crate::specs::Link::action_of))]
fn asked(control: u32) -> LinkAction
    ensures { result ≡ action_of control }
{
    match control & 0xF {
        1 => LinkAction::Comreset,
        4 => LinkAction::Disable,
        _ => LinkAction::NoAction,
    }
}

// PxSCTL after a write.
#[tactic(auto, unfolding(crate::specs::Link::written))]
fn written(control: u32, value: u32, started: bool) -> u32
    ensures { result ≡ written_of control value started }
{
    let kept = value & 0xFFF;
    if started {
        kept / 16 * 16 + (control & 0xF)
    } else {
        kept
    }
}

// What a change of DET does.
fn effect_of_change(old: LinkAction, new: LinkAction) -> Effect
    ensures { result ≡ effect_of old new }
{
    match (old, new) {
        (LinkAction::NoAction, LinkAction::NoAction)
        | (LinkAction::Comreset, LinkAction::Comreset)
        | (LinkAction::Disable, LinkAction::Disable) => Effect::Nothing,
        (_, LinkAction::NoAction) => Effect::LinkUp,
        _ => Effect::LinkReset,
    }
}

// Which bits of PxIS it sets.
fn causes_of_change(old: LinkAction, new: LinkAction) -> PortInterrupts
    ensures { interrupt_bits result ≡ causes_of old new }
{
    match (old, new) {
        (LinkAction::NoAction, LinkAction::NoAction) => PortInterrupts::empty(),
        (LinkAction::NoAction, _) => PortInterrupts::PRCS,
        (_, LinkAction::NoAction) => PortInterrupts::PCS.union(PortInterrupts::PRCS),
        _ => PortInterrupts::empty(),
    }
}

impl LinkControl {
    /// A link that is up, and of which nothing is asked.
    pub fn new() -> LinkControl
        ensures { result.control ≡ 0 }
    {
        LinkControl { control: 0 }
    }

    /// A write of PxSCTL; `started` is PxCMD.ST. DET 1 begins a COMRESET and DET 4 disables the interface;
    /// both reset the link. DET 0 lets the link come up, which sets PxSERR.DIAG.X. While ST is 1, DET stays
    /// as it is.
    pub fn write(&mut self, value: u32, started: bool, lines: &mut Lines) -> LinkWrite
        ensures control { self.new.control ≡ written_of self.old.control value started }
        ensures effect { result.effect ≡ effect_of (action_of self.old.control) (action_of self.new.control) }
        ensures lines { lines.new ≡ after lines.old (LineEvent.Caused
            (causes_of (action_of self.old.control) (action_of self.new.control))) }
        ensures due { result.message ≡ is_due lines.old (LineEvent.Caused
            (causes_of (action_of self.old.control) (action_of self.new.control))) }
    {
        let old = self.action();
        self.control = written(self.control, value, started);
        let new = self.action();
        LinkWrite {
            effect: effect_of_change(old, new),
            message: lines.caused(causes_of_change(old, new)),
        }
    }

    /// What PxSCTL reads.
    pub fn control(&self) -> u32
        ensures { result ≡ self.now.control }
    {
        self.control
    }

    /// What PxSCTL asks of the interface.
    pub fn action(&self) -> LinkAction
        ensures { result ≡ action_of self.now.control }
    {
        asked(self.control)
    }

    /// What the interface detects. Frames pass only while communication is established.
    pub fn detected(&self) -> Detected
        ensures { result ≡ detected_by (action_of self.now.control) }
    {
        match self.action() {
            LinkAction::NoAction => Detected::Established,
            LinkAction::Comreset => Detected::NoDevice,
            LinkAction::Disable => Detected::Offline,
        }
    }

    /// What PxSSTS reads.
    pub fn status(&self) -> u32
        ensures { result ≡ status_of (detected_by (action_of self.now.control)) }
    {
        match self.detected() {
            Detected::Established => 0x133,
            Detected::NoDevice => 0,
            Detected::Offline => 4,
        }
    }
}
