//! The registers and their offsets.

ghost use Rattle.std.specs.Prelude.{◌≡◌, Some, IfSome};
ghost use Rattle.ahci_registers.specs.Offsets.{offset_of, register_at};
ghost use Rattle.ahci_registers.specs.Fixed.{fixed_value};

use crate::global::{CAP, CAP2, PI, VS};

/// A register of a controller of one port, by its name in AHCI. Those of the port begin with Px.
#[derive(Clone, Copy, Debug, PartialEq, Eq)]
pub enum Register {
    /// HBA Capabilities.
    Cap,
    /// Global HBA Control.
    Ghc,
    /// Interrupt Status: a bit for each port.
    Is,
    /// Ports Implemented.
    Pi,
    /// AHCI Version.
    Vs,
    /// HBA Capabilities Extended.
    Cap2,
    /// Command List Base Address.
    PxClb,
    /// Its upper 32 bits.
    PxClbu,
    /// FIS Base Address.
    PxFb,
    /// Its upper 32 bits.
    PxFbu,
    /// Interrupt Status of the port.
    PxIs,
    /// Interrupt Enable of the port.
    PxIe,
    /// Command and Status.
    PxCmd,
    /// Task File Data.
    PxTfd,
    /// Signature.
    PxSig,
    /// Serial ATA Status (SCR0: SStatus).
    PxSsts,
    /// Serial ATA Control (SCR2: SControl).
    PxSctl,
    /// Serial ATA Error (SCR1: SError).
    PxSerr,
    /// Serial ATA Active (SCR3: SActive).
    PxSact,
    /// Command Issue.
    PxCi,
    /// Serial ATA Notification (SCR4: SNotification).
    PxSntf,
    /// FIS-based Switching Control.
    PxFbs,
}

impl Register {
    /// The register at this offset of the register file. At any other offset a read gives 0, and a write is
    /// ignored.
    #[tactic(auto, unfolding(crate::specs::Offsets::register_at))]
    pub fn at(offset: u32) -> Option<Register>
        ensures value { result ≡ register_at offset }
        ensures back { IfSome result (λ r. offset_of r ≡ offset) }
    {
        match offset {
            0x00 => Some(Register::Cap),
            0x04 => Some(Register::Ghc),
            0x08 => Some(Register::Is),
            0x0C => Some(Register::Pi),
            0x10 => Some(Register::Vs),
            0x24 => Some(Register::Cap2),
            0x100 => Some(Register::PxClb),
            0x104 => Some(Register::PxClbu),
            0x108 => Some(Register::PxFb),
            0x10C => Some(Register::PxFbu),
            0x110 => Some(Register::PxIs),
            0x114 => Some(Register::PxIe),
            0x118 => Some(Register::PxCmd),
            0x120 => Some(Register::PxTfd),
            0x124 => Some(Register::PxSig),
            0x128 => Some(Register::PxSsts),
            0x12C => Some(Register::PxSctl),
            0x130 => Some(Register::PxSerr),
            0x134 => Some(Register::PxSact),
            0x138 => Some(Register::PxCi),
            0x13C => Some(Register::PxSntf),
            0x140 => Some(Register::PxFbs),
            _ => None,
        }
    }

    /// The register's offset.
    #[tactic(auto, unfolding(crate::specs::Offsets::register_at))]
    pub fn offset(self) -> u32
        ensures value { result ≡ offset_of self }
        ensures back { register_at result ≡ Some self }
    {
        match self {
            Register::Cap => 0x00,
            Register::Ghc => 0x04,
            Register::Is => 0x08,
            Register::Pi => 0x0C,
            Register::Vs => 0x10,
            Register::Cap2 => 0x24,
            Register::PxClb => 0x100,
            Register::PxClbu => 0x104,
            Register::PxFb => 0x108,
            Register::PxFbu => 0x10C,
            Register::PxIs => 0x110,
            Register::PxIe => 0x114,
            Register::PxCmd => 0x118,
            Register::PxTfd => 0x120,
            Register::PxSig => 0x124,
            Register::PxSsts => 0x128,
            Register::PxSctl => 0x12C,
            Register::PxSerr => 0x130,
            Register::PxSact => 0x134,
            Register::PxCi => 0x138,
            Register::PxSntf => 0x13C,
            Register::PxFbs => 0x140,
        }
    }

    /// The value of a register that always reads the same, whatever is written to it: CAP, PI, VS or CAP2.
    /// None for any other register.
    pub fn fixed(self) -> Option<u32>
        ensures { result ≡ fixed_value self }
    {
        match self {
            Register::Cap => Some(CAP),
            Register::Pi => Some(PI),
            Register::Vs => Some(VS),
            Register::Cap2 => Some(CAP2),
            _ => None,
        }
    }
}
