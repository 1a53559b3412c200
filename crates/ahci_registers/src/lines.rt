//! The interrupts of a controller of one port.

ghost use Rattle.std.specs.Prelude.{◌≡◌, false};
ghost use Rattle.ahci_registers.specs.Bits.{has_bit as has_bit_of, interrupt_bits};
ghost use Rattle.ahci_registers.specs.Lines.{LineEvent, after, ghc_shown, is_due, is_shown, line as line_of, opening_lines, serr_shown};

mod saved;

use crate::port::PortInterrupts;
use crate::shadows::{clearable, has_bit, known, shadowed, shadows, without};
use bitflags::Flags;

/// What a write of GHC asks for.
#[derive(Clone, Copy, Debug, PartialEq, Eq)]
pub struct GlobalWrite {
    /// HR: the controller is to be reset, and its port too. The interrupts are reset already.
    pub reset: bool,
    /// A message is due.
    pub message: bool,
}

/// The interrupts: PxIS with the bits of PxSERR that it shows, PxIE and GHC.IE.
///
/// Each call that can raise the line answers whether a message is due, for a function that sends messages in
/// place of the line.
#[derive(Clone, Copy, Debug, PartialEq, Eq)]
pub struct Lines {
    status: u32,
    mask: u32,
    enabled: bool,
}

impl Lines {
    /// New interrupts: there is no cause, and none is enabled.
    pub fn new() -> Lines
        ensures { result ≡ opening_lines }
    {
        Lines {
            status: 0,
            mask: 0,
            enabled: false,
        }
    }

    /// Causes come. UFS, PCS and PRCS among them are errors, which stand in PxSERR until ones are written to
    /// it. Answers whether a message is due.
    #[tactic(auto, unfolding(crate::specs::Lines::after, crate::specs::Lines::asks))]
    pub fn caused(&mut self, causes: PortInterrupts) -> bool
        ensures after { self.new ≡ after self.old (LineEvent.Caused (interrupt_bits causes)) }
        ensures due { result ≡ is_due self.old (LineEvent.Caused (interrupt_bits causes)) }
    {
        let causes = causes.bits() & known();
        self.status |= causes;
        self.line() && causes & self.mask != 0
    }

    /// A write of PxIS: ones clear bits, except those that show PxSERR. No message is due.
    #[tactic(auto, unfolding(crate::specs::Lines::after))]
    pub fn write_pxis(&mut self, value: u32)
        ensures after { self.new ≡ after self.old (LineEvent.WrotePortStatus value) }
        ensures silent { is_due self.old (LineEvent.WrotePortStatus value) ≡ false }
    {
        self.status = without(self.status, value & clearable());
    }

    /// A write of PxIE, which keeps the bits that PxIS has. Answers whether a message is due.
    #[tactic(auto, unfolding(crate::specs::Lines::after, crate::specs::Lines::asks))]
    pub fn write_pxie(&mut self, value: u32) -> bool
        ensures after { self.new ≡ after self.old (LineEvent.WrotePortMask value) }
        ensures due { result ≡ is_due self.old (LineEvent.WrotePortMask value) }
    {
        let was = self.line();
        self.mask = value & known();
        self.line() && !was
    }

    /// A write of IS. It takes nothing, since IS is computed. Answers whether a message is due: one is if a
    /// one is written for the port while the port has a cause pending.
    #[tactic(auto, unfolding(crate::specs::Lines::after, crate::specs::Lines::asks))]
    pub fn write_is(&mut self, value: u32) -> bool
        ensures after { self.new ≡ after self.old (LineEvent.WroteStatus value) }
        ensures due { result ≡ is_due self.old (LineEvent.WroteStatus value) }
    {
        self.line() && has_bit(value, 0)
    }

    /// A write of GHC: HR resets; without HR, IE is kept.
    #[tactic(auto, unfolding(crate::specs::Lines::after, crate::specs::Lines::asks))]
    pub fn write_ghc(&mut self, value: u32) -> GlobalWrite
        ensures after { self.new ≡ after self.old (LineEvent.WroteGlobal value) }
        ensures reset { result.reset ≡ has_bit_of value 0 }
        ensures due { result.message ≡ is_due self.old (LineEvent.WroteGlobal value) }
    {
        let was = self.line();
        let reset = has_bit(value, 0);
        if reset {
            *self = Lines::new();
        } else {
            self.enabled = has_bit(value, 1);
        }
        GlobalWrite {
            reset,
            message: self.line() && !was,
        }
    }

    /// A write of PxSERR: ones clear bits, and the bits of PxIS that show them. No message is due.
    #[tactic(auto, unfolding(crate::specs::Lines::after))]
    pub fn write_serr(&mut self, value: u32)
        ensures after { self.new ≡ after self.old (LineEvent.WroteError value) }
        ensures silent { is_due self.old (LineEvent.WroteError value) ≡ false }
    {
        self.status = without(self.status, shadows(value));
    }

    /// What PxIS reads.
    pub fn pxis(&self) -> u32
        ensures { result ≡ self.now.status }
    {
        self.status
    }

    /// What PxIE reads.
    pub fn pxie(&self) -> u32
        ensures { result ≡ self.now.mask }
    {
        self.mask
    }

    /// What PxSERR reads, as far as PxIS shows it.
    pub fn serr(&self) -> u32
        ensures { result ≡ serr_shown self.now }
    {
        shadowed(self.status)
    }

    /// What GHC reads.
    pub fn ghc(&self) -> u32
        ensures { result ≡ ghc_shown self.now }
    {
        0x8000_0000 + u32::from(self.enabled) * 2
    }

    /// What IS reads: the port's bit is 1 while an enabled cause stands.
    #[tactic(auto, unfolding(crate::specs::Lines::pends))]
    pub fn is(&self) -> u32
        ensures { result ≡ is_shown self.now }
    {
        u32::from(self.status & self.mask != 0)
    }

    /// Whether the interrupt line is raised.
    #[tactic(auto, unfolding(crate::specs::Lines::line))]
    pub fn line(&self) -> bool
        ensures { result ≡ line_of self.now }
    {
        self.enabled && self.status & self.mask != 0
    }
}
