//! The interrupts, of which IS keeps what came.

ghost use Rattle.std.specs.Prelude.{◌≡◌, ◌||◌};
ghost use Rattle.ahci_registers.specs.Bits.{has_bit as line_bit, interrupt_bits};
ghost use Rattle.ahci_registers.specs.Lines.{LineEvent, is_due, pends};
ghost use Rattle.ahci_registers.specs.Link.{action_of, causes_of, effect_of, written as written_of};
ghost use Rattle.ahci_controller.specs.Latch.{edge_between, is_shown, latched, opening_latch, over as over_of, raised as raised_by, told as told_of};

mod saved;

use crate::bits::has_bit;
use ahci_registers::{GlobalWrite, Lines, LinkControl, LinkWrite, PortInterrupts};

/// The interrupts. IS.IPS is set while an enabled cause stands, and stays until a one is written to it.
#[derive(Clone, Copy, Debug, PartialEq, Eq)]
pub struct Latch {
    /// PxIS, PxIE and GHC.IE.
    pub lines: Lines,
    /// IS.IPS.
    pub pending: bool,
}

/// What a call did to the interrupt line.
#[derive(Clone, Copy, Debug, PartialEq, Eq)]
pub enum Edge {
    /// Nothing.
    Steady,
    /// It rose.
    Rising,
    /// It fell.
    Falling,
}

/// What causes tell.
#[derive(Clone, Copy, Debug, PartialEq, Eq)]
pub(crate) struct Told {
    /// A message is due, where messages stand for the line.
    pub(crate) message: bool,
    /// What they did to the line.
    pub(crate) line: Edge,
}

impl Edge {
    /// From this level to that one.
    pub(crate) fn between(was: bool, is: bool) -> Edge
        ensures { result ≡ edge_between was is }
    {
        match (was, is) {
            (false, true) => Edge::Rising,
            (true, false) => Edge::Falling,
            _ => Edge::Steady,
        }
    }
}

impl Latch {
    /// As it opens.
    pub(crate) fn new() -> Latch
        ensures { result ≡ opening_latch }
    {
        Latch {
            lines: Lines::new(),
            pending: false,
        }
    }

    // With these interrupts, where IS.IPS was kept or not.
    fn over(lines: Lines, kept: bool) -> Latch
        ensures { result ≡ over_of lines kept }
    {
        let pends = lines.is() != 0;
        Latch {
            lines,
            pending: kept || pends,
        }
    }

    /// Causes come. Answers whether a message is due.
    pub(crate) fn caused(&mut self, causes: PortInterrupts) -> bool
        ensures after { self.new ≡ latched self.old (LineEvent.Caused (interrupt_bits causes)) }
        ensures due { result ≡ is_due self.old.lines (LineEvent.Caused (interrupt_bits causes)) }
    {
        let mut lines = self.lines;
        let due = lines.caused(causes);
        *self = Latch::over(lines, self.pending);
        due
    }

    /// Causes come. Answers what they tell.
    pub(crate) fn told(&mut self, causes: PortInterrupts) -> Told
        ensures after { self.new ≡ latched self.old (LineEvent.Caused (interrupt_bits causes)) }
        ensures tells { result ≡ told_of self.old (interrupt_bits causes) }
    {
        let was = self.line();
        let message = self.caused(causes);
        Told {
            message,
            line: Edge::between(was, self.line()),
        }
    }

    /// A write of PxIS.
    pub(crate) fn write_pxis(&mut self, value: u32)
        ensures { self.new ≡ latched self.old (LineEvent.WrotePortStatus value) }
    {
        let mut lines = self.lines;
        lines.write_pxis(value);
        *self = Latch::over(lines, self.pending);
    }

    /// A write of PxIE. Answers whether a message is due.
    pub(crate) fn write_pxie(&mut self, value: u32) -> bool
        ensures after { self.new ≡ latched self.old (LineEvent.WrotePortMask value) }
        ensures due { result ≡ is_due self.old.lines (LineEvent.WrotePortMask value) }
    {
        let mut lines = self.lines;
        let due = lines.write_pxie(value);
        *self = Latch::over(lines, self.pending);
        due
    }

    /// A write of IS: a one clears the port's bit, unless an enabled cause stands. Answers whether a message is due.
    #[tactic(auto, unfolding(ahci_registers::specs::Lines::after))]
    pub(crate) fn write_is(&mut self, value: u32) -> bool
        ensures after { self.new ≡ latched self.old (LineEvent.WroteStatus value) }
        ensures due { result ≡ is_due self.old.lines (LineEvent.WroteStatus value) }
    {
        let mut lines = self.lines;
        let due = lines.write_is(value);
        let kept = !has_bit(value, 0) && self.pending;
        *self = Latch::over(lines, kept);
        due
    }

    /// A write of GHC.
    pub(crate) fn write_ghc(&mut self, value: u32) -> GlobalWrite
        ensures after { self.new ≡ latched self.old (LineEvent.WroteGlobal value) }
        ensures reset { result.reset ≡ line_bit value 0 }
        ensures due { result.message ≡ is_due self.old.lines (LineEvent.WroteGlobal value) }
    {
        let mut lines = self.lines;
        let write = lines.write_ghc(value);
        let kept = !write.reset && self.pending;
        *self = Latch::over(lines, kept);
        write
    }

    /// A write of PxSERR.
    pub(crate) fn write_serr(&mut self, value: u32)
        ensures { self.new ≡ latched self.old (LineEvent.WroteError value) }
    {
        let mut lines = self.lines;
        lines.write_serr(value);
        *self = Latch::over(lines, self.pending);
    }

    /// A write of PxSCTL; `started` is PxCMD.ST.
    pub(crate) fn write_sctl(
        &mut self,
        link: &mut LinkControl,
        value: u32,
        started: bool,
    ) -> LinkWrite
        ensures control { link.new.control ≡ written_of link.old.control value started }
        ensures effect { result.effect ≡ effect_of (action_of link.old.control) (action_of link.new.control) }
        ensures after { self.new ≡ latched self.old (LineEvent.Caused
            (causes_of (action_of link.old.control) (action_of link.new.control))) }
        ensures due { result.message ≡ is_due self.old.lines (LineEvent.Caused
            (causes_of (action_of link.old.control) (action_of link.new.control))) }
    {
        let mut lines = self.lines;
        let write = link.write(value, started, &mut lines);
        *self = Latch::over(lines, self.pending);
        write
    }

    /// What IS reads.
    pub fn is(&self) -> u32
        ensures { result ≡ is_shown self.now }
    {
        u32::from(self.pending)
    }

    /// Whether the interrupt line is raised: GHC.IE and IS.IPS are 1.
    pub fn line(&self) -> bool
        ensures { result ≡ raised_by self.now }
    {
        self.pending && self.lines.ghc() != 0x8000_0000
    }
}
