//! A FIS as one line of words.
#![tactic(auto)]

use fis_view::{DmaSetup, Fis, PioSetup, RegD2H, RegH2D, SetBits};
use std::fmt;

/// A FIS that prints as one line: its kind, its port, and each field by its name in the standard. Registers
/// are hexadecimal. Ports, tags and byte counts are decimal. Single bits are 0 or 1.
#[derive(Debug, Drop)]
pub struct FisText<'a>(pub Fis<'a>);

impl fmt::Display for FisText<'_> {
    fn fmt<W: fmt::Write>(&self, f: &mut fmt::Formatter<W>) -> fmt::Result {
        match &self.0 {
            Fis::RegH2D(fis) => write_h2d(fis, f),
            Fis::RegD2H(fis) => write_d2h(fis, f),
            Fis::SetBits(fis) => write_bits(fis, f),
            Fis::DmaActivate(fis) => write!(f, "activate port {}", fis.pm_port()),
            Fis::DmaSetup(fis) => write_setup(fis, f),
            Fis::PioSetup(fis) => write_pio(fis, f),
            Fis::Payload(fis) => {
                let bytes = fis.payload().len();
                write!(f, "data port {} bytes {bytes}", fis.pm_port())
            }
            Fis::Unknown(fis) => {
                let bytes = fis.bytes();
                let port = fis.pm_port();
                write!(
                    f,
                    "unknown type {:02x} port {port} bytes {}",
                    bytes[0],
                    bytes.len()
                )
            }
        }
    }
}

fn write_h2d<W: fmt::Write>(fis: &RegH2D<'_>, f: &mut fmt::Formatter<W>) -> fmt::Result {
    write!(f, "h2d port {} c {}", fis.pm_port(), u8::from(fis.c()))?;
    write!(
        f,
        " command {:02x} features {:04x}",
        fis.command(),
        fis.features()
    )?;
    write!(f, " lba {:012x} device {:02x}", fis.lba(), fis.device())?;
    write!(
        f,
        " count {:04x} icc {:02x} control {:02x}",
        fis.count(),
        fis.icc(),
        fis.control()
    )
}

fn write_d2h<W: fmt::Write>(fis: &RegD2H<'_>, f: &mut fmt::Formatter<W>) -> fmt::Result {
    write!(f, "d2h port {} i {}", fis.pm_port(), u8::from(fis.i()))?;
    write!(f, " status {:02x} error {:02x}", fis.status(), fis.error())?;
    write!(
        f,
        " lba {:012x} device {:02x} count {:04x}",
        fis.lba(),
        fis.device(),
        fis.count()
    )
}

fn write_bits<W: fmt::Write>(fis: &SetBits<'_>, f: &mut fmt::Formatter<W>) -> fmt::Result {
    write!(
        f,
        "bits port {} n {} i {}",
        fis.pm_port(),
        u8::from(fis.n()),
        u8::from(fis.i())
    )?;
    write!(
        f,
        " status {:02x} error {:02x} sactive {:08x}",
        fis.status(),
        fis.error(),
        fis.sactive()
    )
}

fn write_setup<W: fmt::Write>(fis: &DmaSetup<'_>, f: &mut fmt::Formatter<W>) -> fmt::Result {
    write!(f, "setup port {} a {}", fis.pm_port(), u8::from(fis.a()))?;
    write!(f, " i {} d {}", u8::from(fis.i()), u8::from(fis.d()))?;
    let tag = fis.buffer_id() & 0x1F;
    write!(
        f,
        " tag {tag} offset {} count {}",
        fis.offset(),
        fis.count()
    )
}

fn write_pio<W: fmt::Write>(fis: &PioSetup<'_>, f: &mut fmt::Formatter<W>) -> fmt::Result {
    write!(
        f,
        "pio port {} i {} d {}",
        fis.pm_port(),
        u8::from(fis.i()),
        u8::from(fis.d())
    )?;
    write!(f, " status {:02x} error {:02x}", fis.status(), fis.error())?;
    write!(
        f,
        " lba {:012x} device {:02x} count {:04x}",
        fis.lba(),
        fis.device(),
        fis.count()
    )?;
    write!(f, " ends {:02x} bytes {}", fis.e_status(), fis.transfer())
}
