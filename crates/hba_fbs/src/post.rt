//! Posting of FISes, and what a posted FIS sets in the port's registers.

ghost use Rattle.std.specs.Prelude.{◌≡◌, ◌<◌, ◌≤◌, ◌+◌, bit_or, length};
ghost use Rattle.rx_area.specs.Area.{posted_at};
ghost use Rattle.hba_fbs.specs.Bits.{bit as bit_of};
ghost use Rattle.hba_fbs.specs.Posting.{Posts, is_ata_signature as is_ata_signature_of, is_signature as is_signature_of, posted as posted_of, signature_of, signs as signs_of};
ghost use Rattle.hba_fbs.specs.Registers.{AreOwn};

use crate::bits::raised;
use crate::registers::Registers;
use crate::status::is_quiet;
use fis_view::{Fis, FisFault, RegD2H};
use host_memory::HostMemory;
use port_errors::Interrupts;
use rx_area::{Posted, posting_of};

/// Posts a FIS of a device to the received area at `fb`.
pub(crate) fn post(memory: &mut HostMemory, fb: u32, dev: u8, fis: &Fis<'_>) -> Posted
    requires area { fb + 0x1000 ≤ 0x100000 }
    requires dev { dev < 16 }
    ensures posted { result ≡ posted_at fis.now }
    ensures posts { Posts fb dev fis.now memory.old.structure memory.new.structure }
    ensures client { memory.new.client ≡ memory.old.client }
{
    memory.keeps_rules();
    let posting = posting_of(dev, fis);
    memory.put_structure(fb + posting.at, posting.bytes);
    posting.posted
}

/// The place of a FIS in its row of the received area.
pub(crate) fn place_of(fis: &Fis<'_>) -> Posted
    ensures { result ≡ posted_at fis.now }
{
    match fis {
        Fis::DmaSetup(_) => Posted::Setup,
        Fis::PioSetup(_) => Posted::Pio,
        Fis::RegD2H(_) => Posted::D2h,
        Fis::SetBits(_) => Posted::Bits,
        Fis::Unknown(fis) if fis.bytes().len() <= 64 => Posted::Unknown,
        _ => Posted::Nothing,
    }
}

fn signature(fis: &RegD2H<'_>) -> u32
    ensures { result ≡ signature_of fis.now }
{
    (fis.lba() % 0x100_0000) as u32 * 256 + u32::from(fis.count() % 256)
}

/// Whether this is a signature.
pub(crate) fn is_signature(fis: &RegD2H<'_>) -> bool
    ensures { result ≡ is_signature_of fis.now }
{
    fis.error() == 1 && is_quiet(fis.status()) && fis.count() % 256 == 1 && fis.lba() % 256 == 1
}

/// Whether this is the signature of an ATA device.
pub(crate) fn is_ata_signature(fis: &RegD2H<'_>) -> bool
    ensures { result ≡ is_ata_signature_of fis.now }
{
    is_signature(fis) && fis.lba() / 0x100 % 0x1_0000 == 0
}

/// Whether this is a Register Device to Host FIS with a signature.
pub(crate) fn signs(fis: &Result<Fis<'_>, FisFault>) -> bool
    ensures { result ≡ signs_of fis.now }
{
    match fis {
        Ok(Fis::RegD2H(fis)) => is_signature(fis),
        _ => false,
    }
}

// PxSNTF after a FIS of this device: a notification sets the device's bit.
fn notified(old: u16, dev: u8, notifies: bool) -> u16
    requires { dev < 16 }
    ensures { result ≡ bit_or old (bit_of dev notifies) }
{
    old | if notifies { 1 << dev } else { 0 }
}

/// The registers after a FIS of a device is posted.
#[tactic(auto, unfolding(crate::specs::Posting::posted))]
pub(crate) fn posted(registers: Registers, dev: u8, resetting: bool, fis: &Fis<'_>) -> Registers
    requires dev { dev < 16 }
    requires are { AreOwn registers }
    ensures value { result ≡ posted_of registers dev resetting fis.now }
    ensures are { AreOwn result }
{
    match fis {
        Fis::RegD2H(fis) => Registers {
            interrupts: registers.interrupts | raised(fis.i(), Interrupts::DHRS),
            signature: if resetting {
                signature(fis)
            } else {
                registers.signature
            },
            ..registers
        },
        Fis::SetBits(fis) => Registers {
            interrupts: registers.interrupts | raised(fis.i(), Interrupts::SDBS),
            notified: notified(registers.notified, dev, fis.n()),
            ..registers
        },
        Fis::DmaSetup(fis) => Registers {
            interrupts: registers.interrupts | raised(fis.i(), Interrupts::DSS),
            ..registers
        },
        Fis::Unknown(_) => Registers {
            unknown: true,
            ..registers
        },
        Fis::RegH2D(_) | Fis::DmaActivate(_) | Fis::PioSetup(_) | Fis::Payload(_) => registers,
    }
}
