//! The registers of the port that the controller has beside those of the core.

ghost use Rattle.std.specs.Prelude.{◌≡◌, ◌+◌, ◌≤◌, ◌^◌};
ghost use Rattle.ahci_controller.specs.Own.{area_of, cmd_shown, commanded, engine_of, falls as falls_of, is_failed as is_failed_of, is_ready as is_ready_of, latched, list_of, opening_own, own_area, own_list, receives_now, reset_own};

mod saved;

use crate::bits::{FRE, PMA, ST, bits_if, has_bit};
use hba_fbs::Registers;

/// An address of 64 bits, as two registers have it.
#[derive(Clone, Copy, Debug, PartialEq, Eq)]
pub struct Base {
    /// Bits 31:0.
    pub lower: u32,
    /// Bits 63:32.
    pub upper: u32,
}

/// What a guest wrote to registers of the port, as far as the core does not keep it.
#[derive(Clone, Copy, Debug, PartialEq, Eq)]
pub struct OwnRegisters {
    /// PxCLB and PxCLBU.
    pub list: Base,
    /// PxFB and PxFBU.
    pub area: Base,
    /// The command list that is in use: as PxCLB and PxCLBU were when the port started last.
    pub list_used: Base,
    /// The received area that is in use: as PxFB and PxFBU were when FRE rose last.
    pub area_used: Base,
    /// PxCMD.ST.
    pub starts: bool,
    /// PxCMD.FRE.
    pub receives: bool,
    /// PxCMD.PMA.
    pub multiplied: bool,
    /// PxCMD.CCS.
    pub current: u8,
    /// PxSERR.ERR.
    pub errors: u16,
    /// The slots of commands that cannot be served. They show in PxCI, and while there is one nothing else goes on, until
    /// ST falls.
    pub bad: u32,
}

impl Base {
    fn zero() -> Base
        ensures { result ≡ record { lower = 0; upper = 0 } }
    {
        Base { lower: 0, upper: 0 }
    }
}

impl OwnRegisters {
    /// As they open.
    pub(crate) fn new() -> OwnRegisters
        ensures { result ≡ opening_own }
    {
        OwnRegisters {
            list: Base::zero(),
            area: Base::zero(),
            list_used: Base::zero(),
            area_used: Base::zero(),
            starts: false,
            receives: false,
            multiplied: false,
            current: 0,
            errors: 0,
            bad: 0,
        }
    }

    /// After a reset of the controller: the addresses are kept.
    pub(crate) fn reset(self) -> OwnRegisters
        ensures { result ≡ reset_own self }
    {
        OwnRegisters {
            list: self.list,
            area: self.area,
            ..OwnRegisters::new()
        }
    }

    /// With this address of the command list.
    pub(crate) fn with_list(self, lower: u32, upper: u32) -> OwnRegisters
        ensures { result ≡ own_list self lower upper }
    {
        OwnRegisters {
            list: Base { lower, upper },
            ..self
        }
    }

    /// With this address of the received area.
    pub(crate) fn with_area(self, lower: u32, upper: u32) -> OwnRegisters
        ensures { result ≡ own_area self lower upper }
    {
        OwnRegisters {
            area: Base { lower, upper },
            ..self
        }
    }

    /// Whether a command that cannot be served stopped the port.
    pub(crate) fn is_failed(self) -> bool
        ensures { result ≡ is_failed_of self }
    {
        self.bad != 0
    }

    /// Where the command list lies that is in use.
    pub(crate) fn list(self) -> u64
        ensures is { result ≡ list_of self }
        ensures inside { result + 1024 ≤ 2 ^ 64 }
    {
        u64::from(self.list_used.lower / 1024 * 1024)
            + u64::from(self.list_used.upper) * 0x1_0000_0000
    }

    /// Where the received area lies that is in use.
    pub(crate) fn area(self) -> u64
        ensures is { result ≡ area_of self }
        ensures inside { result + 256 ≤ 2 ^ 64 }
    {
        u64::from(self.area_used.lower / 256 * 256)
            + u64::from(self.area_used.upper) * 0x1_0000_0000
    }

    /// After a write of PxCMD.
    pub(crate) fn commanded(self, value: u32) -> OwnRegisters
        ensures { result ≡ commanded self value }
    {
        OwnRegisters {
            starts: has_bit(value, ST),
            receives: has_bit(value, FRE),
            multiplied: has_bit(value, PMA),
            ..self
        }
    }

    // FRE of the core: it stays 1 until its ST falls.
    fn receives(self, registers: Registers) -> bool
        ensures { result ≡ receives_now self registers }
    {
        self.receives || self.starts && registers.started
    }

    /// Whether the port runs from here on. ST is held until FRE is 1 and PxTFD is idle.
    pub(crate) fn is_ready(self, idle: bool, registers: Registers) -> bool
        ensures { result ≡ is_ready_of self idle registers }
    {
        self.starts && self.receives(registers) && (registers.started || idle)
    }

    /// What is written to PxCMD of the core.
    pub(crate) fn engine(self, idle: bool, registers: Registers) -> u32
        ensures { result ≡ engine_of self idle registers }
    {
        let starts = self.is_ready(idle, registers);
        let receives = self.receives(registers);
        bits_if(starts, 1) + bits_if(receives, 0x10) + bits_if(self.multiplied, 0x2_0000)
    }

    /// Whether ST falls, as these registers come from `before`, and those of the core from `was` to `is`: it ran, or ST was
    /// held.
    pub(crate) fn falls(self, before: OwnRegisters, was: Registers, is: Registers) -> bool
        ensures { result ≡ falls_of before self was is }
    {
        !is.started && (was.started || before.starts && !self.starts)
    }

    /// After a write of PxCMD by which these registers came from `before`, and those of the core from `was` to `is`: a list
    /// and an area that come into use are where the registers say, and as ST falls no bad command is left, and CCS is 0.
    pub(crate) fn latched(self, before: OwnRegisters, was: Registers, is: Registers) -> OwnRegisters
        ensures { result ≡ latched self before was is }
    {
        let mut own = self;
        if is.started && !was.started {
            own.list_used = self.list;
        }
        if self.receives && !before.receives {
            own.area_used = self.area;
        }
        if self.falls(before, was, is) {
            own.bad = 0;
            own.current = 0;
        }
        own
    }

    /// What PxCMD reads: ST, FRE and PMA as they were written, SUD, POD and FBSCP 1, FR as FRE, CR of the core, and CCS.
    pub(crate) fn cmd(self, registers: Registers) -> u32
        ensures { result ≡ cmd_shown self registers }
    {
        bits_if(self.starts, 1)
            + bits_if(self.receives, 0x10)
            + u32::from(self.current % 32) * 0x100
            + bits_if(self.receives, 0x4000)
            + bits_if(registers.started, 0x8000)
            + bits_if(self.multiplied, 0x2_0000)
            + 0x40_0006
    }
}
