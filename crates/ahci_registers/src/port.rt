//! The bits of the registers of a port.

ghost use Rattle.std.specs.Prelude.{⊤, [], ◌∷◌, codes};
ghost use Rattle.ahci_registers.specs.Bits.{interrupt_bits};

use bitflags::{Flag, Flags, bitflag_items};

/// Bits of PxCMD, Port x Command and Status (AHCI 1.3.1, section 3.3.7). ICC, a field of four bits from bit
/// 28 on, reads 0.
#[derive(Clone, Copy, PartialEq, Eq, Debug)]
pub struct PortCommand(u32);

bitflag_items! {
    impl PortCommand: u32 {
        /// Start.
        const ST = 0x1;
        /// Spin-Up Device.
        const SUD = 0x2;
        /// Power On Device.
        const POD = 0x4;
        /// Command List Override.
        const CLO = 0x8;
        /// FIS Receive Enable.
        const FRE = 0x10;
        /// FIS Receive Running.
        const FR = 0x4000;
        /// Command List Running.
        const CR = 0x8000;
        /// Port Multiplier Attached.
        const PMA = 0x2_0000;
        /// FIS-based Switching Capable Port.
        const FBSCP = 0x40_0000;
    }
}

impl Flags for PortCommand {
    type Bits = u32;

    ghost exact = { ⊤ };

    ghost table = { (codes "ST", 0x1) ∷ (codes "SUD", 0x2) ∷ (codes "POD", 0x4) ∷ (codes "CLO", 0x8) ∷ (codes "FRE", 0x10) ∷ (codes "FR", 0x4000) ∷ (codes "CR", 0x8000) ∷ (codes "PMA", 0x2_0000) ∷ (codes "FBSCP", 0x40_0000) ∷ [] };

    ghost set_of = { λ c. c.0 };

    fn flags<'a>() -> &'a [Flag<PortCommand>] {
        PortCommand::FLAGS
    }

    fn bits(&self) -> u32 {
        self.0
    }

    fn from_bits_retain(bits: u32) -> PortCommand {
        PortCommand(bits)
    }
}

/// Bits of PxSERR.DIAG, Port x Serial ATA Error (AHCI 1.3.1, section 3.3.12), that PxIS shows too.
#[derive(Clone, Copy, PartialEq, Eq, Debug)]
pub struct SataError(u32);

bitflag_items! {
    impl SataError: u32 {
        /// PhyRdy Change, which PxIS.PRCS shows.
        const N = 0x1_0000;
        /// Unknown FIS Type, which PxIS.UFS shows.
        const F = 0x200_0000;
        /// Exchanged: a COMINIT came. PxIS.PCS shows it.
        const X = 0x400_0000;
    }
}

impl Flags for SataError {
    type Bits = u32;

    ghost exact = { ⊤ };

    ghost table = { (codes "N", 0x1_0000) ∷ (codes "F", 0x200_0000) ∷ (codes "X", 0x400_0000) ∷ [] };

    ghost set_of = { λ e. e.0 };

    fn flags<'a>() -> &'a [Flag<SataError>] {
        SataError::FLAGS
    }

    fn bits(&self) -> u32 {
        self.0
    }

    fn from_bits_retain(bits: u32) -> SataError {
        SataError(bits)
    }
}

/// Bits of PxIS, Port x Interrupt Status (AHCI 1.3.1, section 3.3.5), and so of PxIE. The bits of mechanical
/// switches (DMPS) and of cold presence detection (CPDS) are left out, since this port has neither.
#[derive(Clone, Copy, PartialEq, Eq, Debug)]
pub struct PortInterrupts(u32);

bitflag_items! {
    impl PortInterrupts: u32 {
        /// Device to Host Register FIS Interrupt.
        const DHRS = 0x1;
        /// PIO Setup FIS Interrupt.
        const PSS = 0x2;
        /// DMA Setup FIS Interrupt.
        const DSS = 0x4;
        /// Set Device Bits Interrupt.
        const SDBS = 0x8;
        /// Unknown FIS Interrupt: PxSERR.DIAG.F.
        const UFS = 0x10;
        /// Descriptor Processed.
        const DPS = 0x20;
        /// Port Connect Change Status: PxSERR.DIAG.X.
        const PCS = 0x40;
        /// PhyRdy Change Status: PxSERR.DIAG.N.
        const PRCS = 0x40_0000;
        /// Incorrect Port Multiplier Status.
        const IPMS = 0x80_0000;
        /// Overflow Status.
        const OFS = 0x100_0000;
        /// Interface Non-fatal Error Status.
        const INFS = 0x400_0000;
        /// Interface Fatal Error Status.
        const IFS = 0x800_0000;
        /// Host Bus Data Error Status.
        const HBDS = 0x1000_0000;
        /// Host Bus Fatal Error Status.
        const HBFS = 0x2000_0000;
        /// Task File Error Status.
        const TFES = 0x4000_0000;
    }
}

impl Flags for PortInterrupts {
    type Bits = u32;

    ghost exact = { ⊤ };

    ghost table = { (codes "DHRS", 0x1) ∷ (codes "PSS", 0x2) ∷ (codes "DSS", 0x4) ∷ (codes "SDBS", 0x8) ∷ (codes "UFS", 0x10) ∷ (codes "DPS", 0x20) ∷ (codes "PCS", 0x40) ∷ (codes "PRCS", 0x40_0000) ∷ (codes "IPMS", 0x80_0000) ∷ (codes "OFS", 0x100_0000) ∷ (codes "INFS", 0x400_0000) ∷ (codes "IFS", 0x800_0000) ∷ (codes "HBDS", 0x1000_0000) ∷ (codes "HBFS", 0x2000_0000) ∷ (codes "TFES", 0x4000_0000) ∷ [] };

    ghost set_of = { interrupt_bits };

    fn flags<'a>() -> &'a [Flag<PortInterrupts>] {
        PortInterrupts::FLAGS
    }

    fn bits(&self) -> u32 {
        self.0
    }

    fn from_bits_retain(bits: u32) -> PortInterrupts {
        PortInterrupts(bits)
    }
}
