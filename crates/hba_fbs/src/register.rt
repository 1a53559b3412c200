//! The registers of a port and their offsets.

ghost use Rattle.std.specs.Prelude.{◌≡◌, Some};
ghost use Rattle.hba_fbs.specs.Offsets.{register_at};

/// A register of a port, by its name in AHCI 1.3.1, section 3.3, without the prefix Px.
#[derive(Clone, Copy, Debug, PartialEq, Eq)]
pub enum Register {
    /// Command List Base Address.
    Clb,
    /// Its upper 32 bits.
    Clbu,
    /// FIS Base Address, where the received area begins.
    Fb,
    /// Its upper 32 bits.
    Fbu,
    /// Interrupt Status.
    Is,
    /// Interrupt Enable.
    Ie,
    /// Command and Status.
    Cmd,
    /// Task File Data, of the device that FBS.DEV names.
    Tfd,
    /// Signature.
    Sig,
    /// Serial ATA Error (SCR1).
    Serr,
    /// Serial ATA Active (SCR3).
    Sact,
    /// Command Issue.
    Ci,
    /// Serial ATA Notification (SCR4).
    Sntf,
    /// FIS-based Switching Control.
    Fbs,
}

impl Register {
    /// The register at this offset among a port's registers.
    #[tactic(auto, unfolding(crate::specs::Offsets::register_at))]
    pub fn at(offset: u32) -> Option<Register>
        ensures { result ≡ register_at offset }
    {
        match offset {
            0x00 => Some(Register::Clb),
            0x04 => Some(Register::Clbu),
            0x08 => Some(Register::Fb),
            0x0C => Some(Register::Fbu),
            0x10 => Some(Register::Is),
            0x14 => Some(Register::Ie),
            0x18 => Some(Register::Cmd),
            0x20 => Some(Register::Tfd),
            0x24 => Some(Register::Sig),
            0x30 => Some(Register::Serr),
            0x34 => Some(Register::Sact),
            0x38 => Some(Register::Ci),
            0x3C => Some(Register::Sntf),
            0x40 => Some(Register::Fbs),
            _ => None,
        }
    }

    /// The register's offset among a port's registers.
    #[tactic(auto, unfolding(crate::specs::Offsets::register_at))]
    pub fn offset(self) -> u32
        ensures { register_at result ≡ Some self }
    {
        match self {
            Register::Clb => 0x00,
            Register::Clbu => 0x04,
            Register::Fb => 0x08,
            Register::Fbu => 0x0C,
            Register::Is => 0x10,
            Register::Ie => 0x14,
            Register::Cmd => 0x18,
            Register::Tfd => 0x20,
            Register::Sig => 0x24,
            Register::Serr => 0x30,
            Register::Sact => 0x34,
            Register::Ci => 0x38,
            Register::Sntf => 0x3C,
            Register::Fbs => 0x40,
        }
    }
}
