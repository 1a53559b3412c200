//! Resets from outside the port: of its link, and of all that is round it.

ghost use Rattle.std.specs.Prelude.{◌≡◌};
ghost use Rattle.hba_fbs.specs.Resets.{link_reset, reopened, whole_reset};
ghost use Rattle.hba_fbs.specs.Registers.{AreOwn};

use crate::port::PortCore;
use crate::registers::Registers;

impl PortCore {
    // As it opens, with these registers, but that frames are counted on.
    fn reopen(&mut self, registers: Registers)
        requires { AreOwn registers }
        ensures { self.new ≡ reopened self.old registers }
    {
        let number = self.number;
        *self = PortCore {
            registers,
            number,
            ..PortCore::new()
        };
    }

    /// A COMRESET: commands, faults and resets end, and what devices told is gone, their signature and their notifications
    /// too; ST is 0. The addresses, FRE, PMA, PxFBS.EN and DEV stay, and frames are counted on.
    pub fn reset_link(&mut self)
        ensures { self.new ≡ link_reset self.old }
    {
        let old = self.registers;
        self.reopen(Registers {
            clb: old.clb,
            clbu: old.clbu,
            fb: old.fb,
            fbu: old.fbu,
            receives: old.receives,
            multiplied: old.multiplied,
            switching: old.switching,
            chosen: old.chosen,
            ..Registers::new()
        });
    }

    /// A reset of the whole controller: the addresses alone stay, and frames are counted on.
    pub fn reset(&mut self)
        ensures { self.new ≡ whole_reset self.old }
    {
        let old = self.registers;
        self.reopen(Registers {
            clb: old.clb,
            clbu: old.clbu,
            fb: old.fb,
            fbu: old.fbu,
            ..Registers::new()
        });
    }
}
