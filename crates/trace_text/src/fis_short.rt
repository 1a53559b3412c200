//! A FIS in a few words.

use crate::decoding::fis_of;
use crate::task_file::{ErrorText, StatusText};
use fis_view::{DmaSetup, Fis, RegD2H, RegH2D, SetBits};
use std::fmt;

/// The bytes of a frame in a few words: the kind of its FIS, and the fields that tell what it does. Its port is
/// left out. Where no FIS of its type has its length, it is the type and the length.
#[derive(Drop)]
pub struct FrameShort<'a>(pub &'a [u8]);

impl fmt::Display for FrameShort<'_> {
    fn fmt<W: fmt::Write>(&self, f: &mut fmt::Formatter<W>) -> fmt::Result {
        match fis_of(self.0) {
            Ok(fis) => write_fis(&fis, f),
            Err(_) => write_size("wrong length", self.0, f),
        }
    }
}

/// Writes a FIS by its kind.
fn write_fis<W: fmt::Write>(fis: &Fis<'_>, f: &mut fmt::Formatter<W>) -> fmt::Result {
    match fis {
        Fis::RegH2D(fis) => write_h2d(fis, f),
        Fis::RegD2H(fis) => write_d2h(fis, f),
        Fis::SetBits(fis) => write_bits(fis, f),
        Fis::DmaActivate(_) => f.write_str("activate"),
        Fis::DmaSetup(fis) => write_setup(fis, f),
        Fis::PioSetup(fis) => write_pio(fis.status(), fis.transfer(), f),
        Fis::Payload(fis) => write!(f, "data bytes {}", fis.payload().len()),
        Fis::Unknown(fis) => write_size("unknown", fis.bytes(), f),
    }
}

/// Writes a Set Device Bits FIS.
fn write_bits<W: fmt::Write>(fis: &SetBits<'_>, f: &mut fmt::Formatter<W>) -> fmt::Result {
    f.write_str("bits")?;
    write_task_file(fis.status(), fis.error(), f)?;
    let notify = if fis.n() { " notify" } else { "" };
    write!(f, " sactive {:08x}{notify}", fis.sactive())
}

/// Writes a DMA Setup FIS.
fn write_setup<W: fmt::Write>(fis: &DmaSetup<'_>, f: &mut fmt::Formatter<W>) -> fmt::Result {
    let way = if fis.d() { "to host" } else { "to disk" };
    let tag = fis.buffer_id() & 0x1F;
    write!(f, "setup tag {tag} {way}")?;
    let auto = if fis.a() { " auto" } else { "" };
    write!(f, " offset {} count {}{auto}", fis.offset(), fis.count())
}

/// Writes a PIO Setup FIS.
fn write_pio<W: fmt::Write>(status: u8, bytes: u16, f: &mut fmt::Formatter<W>) -> fmt::Result {
    write!(f, "pio status {} bytes {bytes}", StatusText(status))
}

/// Writes Status and Error.
fn write_task_file<W: fmt::Write>(status: u8, error: u8, f: &mut fmt::Formatter<W>) -> fmt::Result {
    write!(
        f,
        " status {} error {}",
        StatusText(status),
        ErrorText { status, error }
    )
}

/// Writes why nothing else is told of a frame, its type and its length.
fn write_size<W: fmt::Write>(why: &str, bytes: &[u8], f: &mut fmt::Formatter<W>) -> fmt::Result {
    let kind = bytes.first().copied().unwrap_or(0);
    write!(f, "{why} type {kind:02x} bytes {}", bytes.len())
}

/// The slots that a frame names: a queued command, a DMA Setup and a Set Device Bits FIS do.
pub fn named_slots(frame: &[u8]) -> u32 {
    match fis_of(frame) {
        Ok(Fis::RegH2D(fis)) if is_queued(fis.command()) => bit_of((fis.count() >> 3 & 0x1F) as u8),
        Ok(Fis::DmaSetup(fis)) => bit_of((fis.buffer_id() & 0x1F) as u8),
        Ok(Fis::SetBits(fis)) => fis.sactive(),
        _ => 0,
    }
}

/// The bit of a slot in a mask of slots.
pub fn bit_of(slot: u8) -> u32 {
    1u32.checked_shl(u32::from(slot)).unwrap_or(0)
}

/// READ and WRITE FPDMA QUEUED.
fn is_queued(command: u8) -> bool {
    command == 0x60 || command == 0x61
}

/// Writes a command by its name.
fn write_h2d<W: fmt::Write>(fis: &RegH2D<'_>, f: &mut fmt::Formatter<W>) -> fmt::Result {
    if !fis.c() {
        let control = fis.control();
        let reset = reset_word(control);
        return write!(f, "h2d control {control:02x}{reset}");
    }
    let command = fis.command();
    let Some(name) = command_name(command) else {
        return write!(f, "h2d command {command:02x}");
    };
    write!(f, "h2d {name}")?;
    match command {
        0x60 | 0x61 => write!(f, " lba {} sectors {}", fis.lba(), fis.features()),
        0xE4 | 0xE8 => write_register(fis, f),
        _ => Ok(()),
    }
}

/// Writes which register of the multiplier a command names, and the value that it writes there.
fn write_register<W: fmt::Write>(fis: &RegH2D<'_>, f: &mut fmt::Formatter<W>) -> fmt::Result {
    match fis.device() & 0x0F {
        15 => write!(f, " gscr[{}]", fis.features())?,
        port => write!(f, " port {port} pscr[{}]", fis.features())?,
    }
    if fis.command() == 0xE4 {
        return Ok(());
    }
    let high = fis.lba() & 0xFF_FFFF;
    write!(f, " value {high:06x}{:02x}", fis.count() & 0xFF)
}

fn reset_word(control: u8) -> &'static str {
    if control & 4 == 0 { "" } else { " reset" }
}

/// The name of a command in ACS-3, in words. None for those that are told by their number.
fn command_name(command: u8) -> Option<&'static str> {
    let name = match command {
        0x60 => "read-queued",
        0x61 => "write-queued",
        0x25 | 0xC8 => "read-dma",
        0x35 | 0xCA => "write-dma",
        0x2F => "read-log",
        0xE4 => "read-pm",
        0xE8 => "write-pm",
        0xEA => "flush",
        0xEC => "identify",
        _ => return None,
    };
    Some(name)
}

/// Writes an answer, with the value of a register if it has one.
fn write_d2h<W: fmt::Write>(fis: &RegD2H<'_>, f: &mut fmt::Formatter<W>) -> fmt::Result {
    f.write_str("d2h")?;
    write_task_file(fis.status(), fis.error(), f)?;
    if fis.pm_port() == 15 {
        let high = fis.lba() & 0xFF_FFFF;
        return write!(f, " value {high:06x}{:02x}", fis.count() & 0xFF);
    }
    let is_signature = fis.count() == 1 && fis.lba() & 0xFF == 1;
    f.write_str(if is_signature { " signature" } else { "" })
}
