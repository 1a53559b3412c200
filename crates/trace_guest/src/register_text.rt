//! The registers of the controller, and the bits of their values, by their names in AHCI.

use ahci_registers::Register;
use std::fmt;
use trace_text::bit_of;

/// Global HBA Control (3.1.2).
static GHC: [(u32, &str); 4] = [(0x8000_0000, "AE"), (0x4, "MRSM"), (0x2, "IE"), (0x1, "HR")];

/// HBA Capabilities (3.1.1).
static CAP: [(u32, &str); 20] = [
    (0x8000_0000, "S64A"),
    (0x4000_0000, "SNCQ"),
    (0x2000_0000, "SSNTF"),
    (0x1000_0000, "SMPS"),
    (0x800_0000, "SSS"),
    (0x400_0000, "SALP"),
    (0x200_0000, "SAL"),
    (0x100_0000, "SCLO"),
    (0xF0_0000, "ISS"),
    (0x4_0000, "SAM"),
    (0x2_0000, "SPM"),
    (0x1_0000, "FBSS"),
    (0x8000, "PMD"),
    (0x4000, "SSC"),
    (0x2000, "PSC"),
    (0x1F00, "NCS"),
    (0x80, "CCCS"),
    (0x40, "EMS"),
    (0x20, "SXS"),
    (0x1F, "NP"),
];

/// PxCMD (3.3.7).
static CMD: [(u32, &str); 22] = [
    (0xF000_0000, "ICC"),
    (0x800_0000, "ASP"),
    (0x400_0000, "ALPE"),
    (0x200_0000, "DLAE"),
    (0x100_0000, "ATAPI"),
    (0x80_0000, "APSTE"),
    (0x40_0000, "FBSCP"),
    (0x20_0000, "ESP"),
    (0x10_0000, "CPD"),
    (0x8_0000, "MPSP"),
    (0x4_0000, "HPCP"),
    (0x2_0000, "PMA"),
    (0x1_0000, "CPS"),
    (0x8000, "CR"),
    (0x4000, "FR"),
    (0x2000, "MPSS"),
    (0x1F00, "CCS"),
    (0x10, "FRE"),
    (0x8, "CLO"),
    (0x4, "POD"),
    (0x2, "SUD"),
    (0x1, "ST"),
];

/// PxIS (3.3.5).
static INTERRUPTS: [(u32, &str); 17] = [
    (0x8000_0000, "CPDS"),
    (0x4000_0000, "TFES"),
    (0x2000_0000, "HBFS"),
    (0x1000_0000, "HBDS"),
    (0x800_0000, "IFS"),
    (0x400_0000, "INFS"),
    (0x100_0000, "OFS"),
    (0x80_0000, "IPMS"),
    (0x40_0000, "PRCS"),
    (0x80, "DMPS"),
    (0x40, "PCS"),
    (0x20, "DPS"),
    (0x10, "UFS"),
    (0x8, "SDBS"),
    (0x4, "DSS"),
    (0x2, "PSS"),
    (0x1, "DHRS"),
];

/// PxIE (3.3.6).
static ENABLES: [(u32, &str); 17] = [
    (0x8000_0000, "CPDE"),
    (0x4000_0000, "TFEE"),
    (0x2000_0000, "HBFE"),
    (0x1000_0000, "HBDE"),
    (0x800_0000, "IFE"),
    (0x400_0000, "INFE"),
    (0x100_0000, "OFE"),
    (0x80_0000, "IPME"),
    (0x40_0000, "PRCE"),
    (0x80, "DMPE"),
    (0x40, "PCE"),
    (0x20, "DPE"),
    (0x10, "UFE"),
    (0x8, "SDBE"),
    (0x4, "DSE"),
    (0x2, "PSE"),
    (0x1, "DHRE"),
];

/// PxTFD (3.3.8): Status, and Error behind it (ACS-3, 6.2 and 6.3).
static TASK_FILE: [(u32, &str); 9] = [
    (0x80, "BSY"),
    (0x40, "DRDY"),
    (0x20, "DF"),
    (0x8, "DRQ"),
    (0x1, "ERR"),
    (0x8000, "ICRC"),
    (0x4000, "UNC"),
    (0x1000, "IDNF"),
    (0x400, "ABRT"),
];

/// PxSSTS (3.3.10) and PxSCTL (3.3.11).
static LINK: [(u32, &str); 3] = [(0xF00, "IPM"), (0xF0, "SPD"), (0xF, "DET")];

/// PxSERR (3.3.12).
static LINK_ERRORS: [(u32, &str); 17] = [
    (0x400_0000, "DIAG.X"),
    (0x200_0000, "DIAG.F"),
    (0x100_0000, "DIAG.T"),
    (0x80_0000, "DIAG.S"),
    (0x40_0000, "DIAG.H"),
    (0x20_0000, "DIAG.C"),
    (0x10_0000, "DIAG.D"),
    (0x8_0000, "DIAG.B"),
    (0x4_0000, "DIAG.W"),
    (0x2_0000, "DIAG.I"),
    (0x1_0000, "DIAG.N"),
    (0x800, "ERR.E"),
    (0x400, "ERR.P"),
    (0x200, "ERR.C"),
    (0x100, "ERR.T"),
    (0x2, "ERR.M"),
    (0x1, "ERR.I"),
];

/// PxFBS (3.3.16).
static SWITCHING: [(u32, &str); 6] = [
    (0xF_0000, "DWE"),
    (0xF000, "ADO"),
    (0xF00, "DEV"),
    (0x4, "SDE"),
    (0x2, "DEC"),
    (0x1, "EN"),
];

/// What the bits of a register are.
#[derive(Clone, Copy)]
enum Layout {
    /// These: a mask of bits that are next to each other, and their name. One alone is told by its name, more with their value.
    Parts(&'static [(u32, &'static str)]),
    /// One for each of these things, which are counted from 0.
    Each(&'static str),
    /// An address or a number.
    Whole,
}

/// The name of a register in AHCI.
pub fn name_of(register: Register) -> &'static str {
    match register {
        Register::Cap => "CAP",
        Register::Ghc => "GHC",
        Register::Is => "IS",
        Register::Pi => "PI",
        Register::Vs => "VS",
        Register::Cap2 => "CAP2",
        Register::PxClb => "PxCLB",
        Register::PxClbu => "PxCLBU",
        Register::PxFb => "PxFB",
        Register::PxFbu => "PxFBU",
        Register::PxIs => "PxIS",
        Register::PxIe => "PxIE",
        Register::PxCmd => "PxCMD",
        Register::PxTfd => "PxTFD",
        Register::PxSig => "PxSIG",
        Register::PxSsts => "PxSSTS",
        Register::PxSctl => "PxSCTL",
        Register::PxSerr => "PxSERR",
        Register::PxSact => "PxSACT",
        Register::PxCi => "PxCI",
        Register::PxSntf => "PxSNTF",
        Register::PxFbs => "PxFBS",
    }
}

fn layout_of(register: Register) -> Layout {
    match register {
        Register::Cap => Layout::Parts(&CAP),
        Register::Ghc => Layout::Parts(&GHC),
        Register::Is | Register::Pi => Layout::Each("port"),
        Register::PxCmd => Layout::Parts(&CMD),
        Register::PxIs => Layout::Parts(&INTERRUPTS),
        Register::PxIe => Layout::Parts(&ENABLES),
        Register::PxTfd => Layout::Parts(&TASK_FILE),
        Register::PxSsts | Register::PxSctl => Layout::Parts(&LINK),
        Register::PxSerr => Layout::Parts(&LINK_ERRORS),
        Register::PxSact | Register::PxCi => Layout::Each("slot"),
        Register::PxSntf => Layout::Each("port"),
        Register::PxFbs => Layout::Parts(&SWITCHING),
        _ => Layout::Whole,
    }
}

/// Between what the names of bits stand.
#[derive(Clone, Copy)]
struct Marks {
    first: &'static str,
    between: &'static str,
    last: &'static str,
}

const WORDS: Marks = Marks {
    first: ": ",
    between: " ",
    last: "",
};

const ARRAY: Marks = Marks {
    first: "[\"",
    between: "\",\"",
    last: "\"]",
};

/// The bits of a value of a register that are set, by their names: `: PMA FRE`, or nothing where none has a name.
#[derive(Clone, Copy)]
pub struct BitsText {
    pub register: Register,
    pub value: u32,
}

impl fmt::Display for BitsText {
    fn fmt<W: fmt::Write>(&self, f: &mut fmt::Formatter<W>) -> fmt::Result {
        write_bits(self.register, self.value, WORDS, f)
    }
}

/// The same as an array of JSON.
#[derive(Clone, Copy)]
pub struct BitsArray {
    pub register: Register,
    pub value: u32,
}

impl fmt::Display for BitsArray {
    fn fmt<W: fmt::Write>(&self, f: &mut fmt::Formatter<W>) -> fmt::Result {
        let is_none = match layout_of(self.register) {
            Layout::Parts(parts) => is_silent(parts, self.value),
            Layout::Each(_) => self.value == 0,
            Layout::Whole => true,
        };
        if is_none {
            return f.write_str("[]");
        }
        write_bits(self.register, self.value, ARRAY, f)
    }
}

fn write_bits<W: fmt::Write>(
    register: Register,
    value: u32,
    marks: Marks,
    f: &mut fmt::Formatter<W>,
) -> fmt::Result {
    match layout_of(register) {
        Layout::Parts(parts) => write_parts(parts, value, marks, f),
        Layout::Each(what) => write_each(what, value, marks, f),
        Layout::Whole => Ok(()),
    }
}

/// Whether a part is told: it is not 0, or it is PxFBS.DEV, which names a device by 0, too.
fn is_told(mask: u32, name: &str, value: u32) -> bool {
    value & mask != 0 || name == "DEV"
}

/// Whether none of these is told.
fn is_silent(parts: &[(u32, &'static str)], value: u32) -> bool {
    for (mask, name) in parts.iter() {
        if is_told(*mask, *name, value) {
            return false;
        }
    }
    true
}

fn write_parts<W: fmt::Write>(
    parts: &[(u32, &'static str)],
    value: u32,
    marks: Marks,
    f: &mut fmt::Formatter<W>,
) -> fmt::Result {
    let mut before = marks.first;
    for (mask, name) in parts.iter() {
        if is_told(*mask, *name, value) {
            f.write_str(before)?;
            write_part(*mask, *name, value, f)?;
            before = marks.between;
        }
    }
    f.write_str(if before == marks.first {
        ""
    } else {
        marks.last
    })
}

fn write_part<W: fmt::Write>(
    mask: u32,
    name: &str,
    value: u32,
    f: &mut fmt::Formatter<W>,
) -> fmt::Result {
    f.write_str(name)?;
    if mask.count_ones() == 1 {
        return Ok(());
    }
    let low = mask.trailing_zeros();
    let number = (value & mask).checked_shr(low).unwrap_or(0);
    write!(f, "={number}")
}

fn write_each<W: fmt::Write>(
    what: &str,
    value: u32,
    marks: Marks,
    f: &mut fmt::Formatter<W>,
) -> fmt::Result {
    let mut is_open = false;
    for number in 0..32_u8 {
        if value & bit_of(number) != 0 {
            write_lead(marks, is_open, f)?;
            write_numbered(what, number, f)?;
            is_open = true;
        }
    }
    write_end(marks, is_open, f)
}

/// What stands before a bit: others do, or none.
fn write_lead<W: fmt::Write>(
    marks: Marks,
    is_open: bool,
    f: &mut fmt::Formatter<W>,
) -> fmt::Result {
    if is_open {
        f.write_str(marks.between)
    } else {
        f.write_str(marks.first)
    }
}

fn write_end<W: fmt::Write>(marks: Marks, is_open: bool, f: &mut fmt::Formatter<W>) -> fmt::Result {
    if is_open {
        f.write_str(marks.last)
    } else {
        Ok(())
    }
}

fn write_numbered<W: fmt::Write>(what: &str, number: u8, f: &mut fmt::Formatter<W>) -> fmt::Result {
    write!(f, "{what} {number}")
}
