//! The bits of the registers that all ports share, and the values of the constant registers.

ghost use Rattle.std.specs.Prelude.{⊤, [], ◌∷◌, codes};

use bitflags::{Flag, Flags, bitflag_items};

/// CAP: one port (NP 0), 32 slots (NCS 31), up to 6 Gb/s (ISS 3), and the bits of [`Capabilities`].
pub(crate) const CAP: u32 = 0xE137_1F00;
/// PI: port 0 alone.
pub(crate) const PI: u32 = 1;
/// VS: AHCI 1.3.1.
pub(crate) const VS: u32 = 0x0001_0301;
/// CAP2: no bit.
pub(crate) const CAP2: u32 = 0;

/// The bits of CAP, HBA Capabilities (AHCI 1.3.1, section 3.1.1), that are 1 here. CAP also has the fields
/// NCS, 31 at bit 8, and ISS, 3 at bit 20.
#[derive(Clone, Copy, PartialEq, Eq, Debug)]
pub struct Capabilities(u32);

bitflag_items! {
    impl Capabilities: u32 {
        /// FIS-based Switching Supported.
        const FBSS = 0x1_0000;
        /// Supports Port Multiplier.
        const SPM = 0x2_0000;
        /// Supports AHCI mode only.
        const SAM = 0x4_0000;
        /// Supports Command List Override.
        const SCLO = 0x100_0000;
        /// Supports SNotification Register.
        const SSNTF = 0x2000_0000;
        /// Supports Native Command Queuing.
        const SNCQ = 0x4000_0000;
        /// Supports 64-bit Addressing.
        const S64A = 0x8000_0000;
    }
}

impl Flags for Capabilities {
    type Bits = u32;

    ghost exact = { ⊤ };

    ghost table = { (codes "FBSS", 0x1_0000) ∷ (codes "SPM", 0x2_0000) ∷ (codes "SAM", 0x4_0000) ∷ (codes "SCLO", 0x100_0000) ∷ (codes "SSNTF", 0x2000_0000) ∷ (codes "SNCQ", 0x4000_0000) ∷ (codes "S64A", 0x8000_0000) ∷ [] };

    ghost set_of = { λ c. c.0 };

    fn flags<'a>() -> &'a [Flag<Capabilities>] {
        Capabilities::FLAGS
    }

    fn bits(&self) -> u32 {
        self.0
    }

    fn from_bits_retain(bits: u32) -> Capabilities {
        Capabilities(bits)
    }
}

/// Bits of GHC, Global HBA Control (AHCI 1.3.1, section 3.1.2).
#[derive(Clone, Copy, PartialEq, Eq, Debug)]
pub struct GlobalControl(u32);

bitflag_items! {
    impl GlobalControl: u32 {
        /// HBA Reset.
        const HR = 0x1;
        /// Interrupt Enable.
        const IE = 0x2;
        /// AHCI Enable. It always reads 1, as CAP.SAM requires.
        const AE = 0x8000_0000;
    }
}

impl Flags for GlobalControl {
    type Bits = u32;

    ghost exact = { ⊤ };

    ghost table = { (codes "HR", 0x1) ∷ (codes "IE", 0x2) ∷ (codes "AE", 0x8000_0000) ∷ [] };

    ghost set_of = { λ c. c.0 };

    fn flags<'a>() -> &'a [Flag<GlobalControl>] {
        GlobalControl::FLAGS
    }

    fn bits(&self) -> u32 {
        self.0
    }

    fn from_bits_retain(bits: u32) -> GlobalControl {
        GlobalControl(bits)
    }
}
