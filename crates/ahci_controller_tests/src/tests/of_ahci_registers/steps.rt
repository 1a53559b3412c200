//! Tests as lists of steps: what is done with the registers of interrupts and of the link, and what they show then.
//!
//! Clauses see a `Rig` as a number, and its functions have no contract. A list is data, and `play` has the only assertion.
//! So a test is proved with little work.

use super::DEF_PORT_IRQ;
use ahci_registers::{
    Detected, Effect, GlobalWrite, Lines, LinkAction, LinkControl, LinkWrite, PortInterrupts,
};
use std::marker::Model;
use std::process::Abort;

/// A cause of an interrupt.
#[derive(Clone, Copy)]
pub(super) enum Cause {
    /// SDBS, Set Device Bits.
    Bits,
    /// TFES, a task file error.
    TaskFile,
    /// IFS, a fatal error of the interface.
    Stopped,
    /// UFS, a FIS of an unknown type.
    Unknown,
}

/// A step of a test.
#[derive(Clone, Copy)]
pub(super) enum Step {
    /// A cause comes, and whether a message is sent.
    Causes(Cause, bool),
    /// PxIS is written.
    WritesPxis(u32),
    /// PxIE is written; whether a message is sent, and what PxIE shows.
    WritesPxie(u32, bool, u32),
    /// IS is written, and whether a message is sent.
    WritesIs(u32, bool),
    /// GHC is written; whether that is a reset, and whether a message is sent.
    WritesGhc(u32, bool, bool),
    /// PxSERR is written.
    WritesSerr(u32),
    /// The interrupt line, and IS.
    Line(bool, u32),
    /// PxIS.
    Shows(u32),
    /// PxSERR.
    Serr(u32),
    /// GHC.
    Ghc(u32),
    /// `ahci_thaw`: what PxIS reads is written back, then IS, then PxIE. No message is sent.
    Thaws,
    /// PxSCTL is written, with ST so; what that does, and whether a message is sent.
    Acts(u32, bool, Effect, bool),
    /// PxSSTS and PxSCTL.
    Links(u32, u32),
    /// What the link is told to do, and what it detects.
    Detects(LinkAction, Detected),
}

/// The registers. Clauses see them as a number.
#[derive(Drop)]
struct Rig {
    lines: Lines,
    link: LinkControl,
}

impl Model for Rig {
    ghost use Rattle.std.specs.Prelude.{ℕ};

    ghost Value = { ℕ };

    ghost view = { λ _. 0 };
}

impl Rig {
    fn causes(&mut self, cause: Cause) -> bool {
        match cause {
            Cause::Bits => self.lines.caused(PortInterrupts::SDBS),
            Cause::TaskFile => self.lines.caused(PortInterrupts::TFES),
            Cause::Stopped => self.lines.caused(PortInterrupts::IFS),
            Cause::Unknown => self.lines.caused(PortInterrupts::UFS),
        }
    }

    fn thaws(&mut self) -> bool {
        let read = self.lines.pxis();
        self.lines.write_pxis(read);
        !self.lines.write_is(1)
            && !self.lines.write_pxie(DEF_PORT_IRQ)
            && self.lines.pxie() == DEF_PORT_IRQ
    }

    fn writes_ghc(&mut self, value: u32, reset: bool, message: bool) -> bool {
        self.lines.write_ghc(value) == GlobalWrite { reset, message }
    }

    /// The interrupts as libahci starts a controller: GHC.HR and IE, and the port thawed.
    fn starts(&mut self) -> bool {
        self.writes_ghc(0x8000_0001, true, false)
            && self.lines.ghc() == 0x8000_0000
            && self.writes_ghc(0x8000_0002, false, false)
            && self.lines.ghc() == 0x8000_0002
            && self.thaws()
    }

    fn acts(&mut self, value: u32, started: bool, effect: Effect, message: bool) -> bool {
        self.link.write(value, started, &mut self.lines) == LinkWrite { effect, message }
    }

    /// Whether a step is as it says.
    fn passes(&mut self, step: Step) -> bool {
        match step {
            Step::Causes(cause, message) => return self.causes(cause) == message,
            Step::WritesPxis(value) => self.lines.write_pxis(value),
            Step::WritesSerr(value) => self.lines.write_serr(value),
            Step::WritesPxie(value, message, shown) => {
                return self.lines.write_pxie(value) == message && self.lines.pxie() == shown;
            }
            Step::WritesIs(value, message) => return self.lines.write_is(value) == message,
            Step::WritesGhc(value, reset, message) => {
                return self.writes_ghc(value, reset, message);
            }
            Step::Line(line, is) => return self.lines.line() == line && self.lines.is() == is,
            Step::Shows(value) => return self.lines.pxis() == value,
            Step::Serr(value) => return self.lines.serr() == value,
            Step::Ghc(value) => return self.lines.ghc() == value,
            Step::Thaws => return self.thaws(),
            Step::Acts(value, started, effect, message) => {
                return self.acts(value, started, effect, message);
            }
            Step::Links(status, control) => {
                return self.link.status() == status && self.link.control() == control;
            }
            Step::Detects(action, detected) => {
                return self.link.action() == action && self.link.detected() == detected;
            }
        }
        true
    }

    /// The number of the first step that is not as it says.
    fn first_wrong(&mut self, steps: &[Step]) -> Option<usize> {
        for (i, step) in steps.iter().enumerate() {
            if !self.passes(*step) {
                return Some(i);
            }
        }
        None
    }
}

/// Each step of a controller that libahci started is as it says.
pub(super) fn play(rt: &impl Abort, steps: &[Step]) {
    let mut rig = Rig {
        lines: Lines::new(),
        link: LinkControl::new(),
    };
    assert!(rt; rig.starts());
    assert_eq!(rt; rig.first_wrong(steps), None, "the number of a step");
}
