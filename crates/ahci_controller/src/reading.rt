//! What the registers read.

ghost use Rattle.std.specs.Prelude.{◌≡◌};
ghost use Rattle.hba_fbs.specs.Reading.{value_of};
ghost use Rattle.ahci_controller.specs.Latch.{raised};
ghost use Rattle.ahci_controller.specs.Reading.{file_of, is_idle as is_idle_of, read_at, shown};

use crate::bits::has_bit;
use crate::parts::Parts;
use ahci_registers::{LinkAction, Register};
use hba_fbs::PortCore;

/// What a register of the core reads.
pub(crate) fn port_value(core: &PortCore, register: hba_fbs::Register) -> u32
    ensures { result ≡ value_of register core.now }
{
    match core.read(register.offset()) {
        Ok(value) => value,
        Err(_) => 0,
    }
}

impl Parts {
    // PxTFD: 7Fh during a COMRESET.
    fn task_file(&self) -> u32
        ensures { result ≡ file_of self.now }
    {
        match self.link.action() {
            LinkAction::Comreset => 0x7F,
            LinkAction::NoAction | LinkAction::Disable => self.core.task_file(),
        }
    }

    /// Whether PxTFD shows neither BSY nor DRQ.
    pub(crate) fn is_idle(&self) -> bool
        ensures { result ≡ is_idle_of self.now }
    {
        let file = self.task_file();
        !has_bit(file, 7) && !has_bit(file, 3)
    }

    /// What a register reads.
    #[tactic(auto, unfolding(crate::specs::Reading::shown))]
    pub(crate) fn value(&self, register: Register) -> u32
        ensures { result ≡ shown register self.now }
    {
        match register {
            Register::Cap | Register::Pi | Register::Vs | Register::Cap2 => register
                .fixed()
                .unwrap_or(0),
            Register::Ghc => self.latch.lines.ghc(),
            Register::Is => self.latch.is(),
            Register::PxClb => self.own.list.lower,
            Register::PxClbu => self.own.list.upper,
            Register::PxFb => self.own.area.lower,
            Register::PxFbu => self.own.area.upper,
            Register::PxIs => self.latch.lines.pxis(),
            Register::PxIe => self.latch.lines.pxie(),
            Register::PxCmd => self.own.cmd(self.core.registers()),
            Register::PxTfd => self.task_file(),
            Register::PxSig => port_value(&self.core, hba_fbs::Register::Sig),
            Register::PxSsts => self.link.status(),
            Register::PxSctl => self.link.control(),
            Register::PxSerr => self.latch.lines.serr() | u32::from(self.own.errors),
            Register::PxSact => port_value(&self.core, hba_fbs::Register::Sact),
            Register::PxCi => {
                port_value(&self.core, hba_fbs::Register::Ci) | self.wants.pending | self.own.bad
            }
            Register::PxSntf => port_value(&self.core, hba_fbs::Register::Sntf),
            Register::PxFbs => port_value(&self.core, hba_fbs::Register::Fbs),
        }
    }

    /// What the dword at an offset reads: 0 where no register begins.
    pub fn read32(&self, offset: u32) -> u32
        ensures { result ≡ read_at self.now offset }
    {
        match Register::at(offset) {
            Some(register) => self.value(register),
            None => 0,
        }
    }

    /// Whether the interrupt line is raised: GHC.IE and IS.IPS are 1.
    pub fn line(&self) -> bool
        ensures { result ≡ raised self.now.latch }
    {
        self.latch.line()
    }
}
