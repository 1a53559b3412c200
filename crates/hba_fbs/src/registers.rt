//! The port's own registers.

ghost use Rattle.std.specs.Prelude.{◌≡◌, None};
ghost use Rattle.slots.specs.Slots.{has_bit as has_bit_of};
ghost use Rattle.hba_fbs.specs.Bits.{fre as fre_bit, st as st_bit};
ghost use Rattle.hba_fbs.specs.Registers.{AreOwn, cmd_of, cmd_refusal_by, falls as falls_of, fbs_of, opening_registers, own_refusal_by, running_if as running_if_of, stopped_if_ones as stopped_if_ones_of, written as written_of};

mod saved;

use crate::bits::{
    ADO, CR, DEV, EN, FBSCP, FR, FRE, PMA, ST, UNKNOWN, bit, clearable, cleared, has_bit,
};
use crate::error::WriteError;
use crate::register::Register;

/// The size of the command list in bytes: a header of 32 bytes for each slot.
pub(crate) const LIST_LEN: u32 = 0x400;
/// The size of the received area in bytes.
pub(crate) const AREA_LEN: u32 = 0x1000;

/// The fields of the port's own registers.
#[derive(Clone, Copy, Debug, PartialEq, Eq)]
pub struct Registers {
    /// The address of the command list, bits 31:0: a multiple of its size.
    pub clb: u32,
    /// Bits 63:32 of that address.
    pub clbu: u32,
    /// The address of the received area, bits 31:0: a multiple of its size.
    pub fb: u32,
    /// Bits 63:32 of that address.
    pub fbu: u32,
    /// PxIS without UFS.
    pub interrupts: u32,
    /// PxIE.
    pub enabled: u32,
    /// PxCMD.ST.
    pub started: bool,
    /// PxCMD.FRE.
    pub receives: bool,
    /// PxCMD.PMA.
    pub multiplied: bool,
    /// PxSIG: the last signature that ended a software reset.
    pub signature: u32,
    /// Whether a FIS of an unknown type came: PxSERR.DIAG.F, which PxIS.UFS shows too.
    pub unknown: bool,
    /// The bits that were written to PxSACT for slots in which no command is issued yet.
    pub armed: u32,
    /// PxSNTF: the devices that sent a notification.
    pub notified: u16,
    /// PxFBS.EN.
    pub switching: bool,
    /// PxFBS.DEV: the device for which commands are issued and whose task file PxTFD shows.
    pub chosen: u8,
}

fn running_if(in_use: bool) -> Option<WriteError>
    ensures { result ≡ running_if_of in_use }
{
    in_use.then_some(WriteError::Running)
}

impl Registers {
    /// The registers of a new port.
    pub(crate) fn new() -> Registers
        ensures value { result ≡ opening_registers }
        ensures are { AreOwn result }
    {
        Registers {
            clb: 0,
            clbu: 0,
            fb: 0,
            fbu: 0,
            interrupts: 0,
            enabled: 0,
            started: false,
            receives: false,
            multiplied: false,
            signature: u32::MAX,
            unknown: false,
            armed: 0,
            notified: 0,
            switching: false,
            chosen: 0,
        }
    }

    /// PxCMD: FR shows FRE, and CR shows ST.
    pub(crate) fn cmd(self) -> u32
        ensures { result ≡ cmd_of self }
    {
        bit(self.started, ST)
            + bit(self.receives, FRE)
            + bit(self.receives, FR)
            + bit(self.started, CR)
            + bit(self.multiplied, PMA)
            + (1 << FBSCP)
    }

    /// PxFBS without SDE and DWE. DEC reads 0.
    pub(crate) fn fbs(self) -> u32
        requires { AreOwn self }
        ensures { result ≡ fbs_of self }
    {
        bit(self.switching, EN) + (u32::from(self.chosen) << DEV) + ADO
    }

    // Why a write of PxCMD with these bits ST and FRE is refused.
    fn cmd_refusal(self, starts: bool, receives: bool) -> Option<WriteError>
        ensures { result ≡ cmd_refusal_by self starts receives }
    {
        if self.receives && !receives && starts {
            return Some(WriteError::Running);
        }
        if starts && !self.started && !receives {
            return Some(WriteError::BadTable);
        }
        None
    }

    fn stopped_if_ones(self, value: u32) -> Option<WriteError>
        ensures { result ≡ stopped_if_ones_of self value }
    {
        (!self.started && value != 0).then_some(WriteError::Stopped)
    }

    /// Why a write is refused because of these registers.
    #[tactic(auto, unfolding(crate::specs::Registers::own_refusal, crate::specs::Registers::own_refusal_by))]
    pub(crate) fn refusal(self, register: Register, value: u32) -> Option<WriteError>
        ensures { result ≡ own_refusal_by register self value }
    {
        match register {
            Register::Clb | Register::Clbu => running_if(self.started),
            Register::Fb | Register::Fbu => running_if(self.receives),
            Register::Cmd => self.cmd_refusal(has_bit(value, ST), has_bit(value, FRE)),
            Register::Sact | Register::Ci => self.stopped_if_ones(value),
            Register::Fbs => running_if(self.started && has_bit(value, EN) != self.switching),
            Register::Is
            | Register::Ie
            | Register::Tfd
            | Register::Sig
            | Register::Serr
            | Register::Sntf => None,
        }
    }

    /// Whether a write of PxCMD takes ST from 1 to 0.
    pub(crate) fn falls(self, value: u32) -> bool
        ensures { result ≡ falls_of self value }
    {
        self.started && !has_bit(value, ST)
    }

    // The registers after an accepted write of PxCMD.
    #[tactic(auto, unfolding(crate::specs::Registers::written))]
    fn with_cmd(self, value: u32) -> Registers
        requires are { AreOwn self }
        requires accepted { cmd_refusal_by self
            (has_bit_of value st_bit) (has_bit_of value fre_bit) ≡ None }
        ensures written { result ≡ written_of Register.Cmd self value }
        ensures are { AreOwn result }
    {
        Registers {
            started: has_bit(value, ST),
            receives: has_bit(value, FRE),
            multiplied: has_bit(value, PMA),
            armed: if self.falls(value) { 0 } else { self.armed },
            ..self
        }
    }

    /// The registers after an accepted write.
    #[tactic(auto, unfolding(crate::specs::Registers::written, crate::specs::Registers::own_refusal, crate::specs::Registers::own_refusal_by))]
    pub(crate) fn written(self, register: Register, value: u32) -> Registers
        requires are { AreOwn self }
        requires accepted { own_refusal_by register self value ≡ None }
        ensures written { result ≡ written_of register self value }
        ensures are { AreOwn result }
    {
        let mut registers = self;
        match register {
            Register::Clb => registers.clb = value / LIST_LEN * LIST_LEN,
            Register::Clbu => registers.clbu = value,
            Register::Fb => registers.fb = value / AREA_LEN * AREA_LEN,
            Register::Fbu => registers.fbu = value,
            Register::Is => registers.interrupts = cleared(self.interrupts, value & clearable()),
            Register::Ie => registers.enabled = value,
            Register::Cmd => registers = self.with_cmd(value),
            Register::Tfd | Register::Sig => {}
            Register::Serr => registers.unknown = self.unknown && !has_bit(value, UNKNOWN),
            Register::Sact => registers.armed = self.armed | value,
            Register::Ci => registers.armed = cleared(self.armed, value),
            Register::Sntf => registers.notified = self.notified & !((value & 0xFFFF) as u16),
            Register::Fbs => {
                registers.switching = has_bit(value, EN);
                registers.chosen = (value >> DEV & 0xF) as u8;
            }
        }
        registers
    }
}
