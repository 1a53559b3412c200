//! What a tick sees of the port and of memory.

ghost use Rattle.std.specs.Prelude.{◌≡◌, ◌<◌, ◌≤◌, false, length, slice_index_or, sum};
ghost use Rattle.fis_view.specs.Seen.{seen};
ghost use Rattle.hba_fbs.specs.Posting.{is_signature};
ghost use Rattle.hba_fbs.specs.Status.{is_quiet as is_quiet_status};
ghost use Rattle.hba_driver.specs.Sights.{answer_in, answer_row as answer_row_of, faulty_for, faulty_in, is_ata, is_stopped as is_stopped_of, is_stopped_alone as is_stopped_alone_of, is_usable as is_usable_in, last_d2h as last_d2h_of, log_in, px_sntf, shown, sight_of, signed_by, stopped_by};
ghost use Rattle.slots.specs.Slots.{has_bit as has_bit_of};

use crate::mode::Mode;
use crate::order::CONTROL_PORT;
use fis_view::{Fis, RegD2H};
use hba_fbs::HostPort;
use host_memory::HostMemory;
use std::marker::Model;

/// PxCLB.
pub(crate) const CLB: u32 = 0x00;
/// PxCLBU.
pub(crate) const CLBU: u32 = 0x04;
/// PxFB.
pub(crate) const FB: u32 = 0x08;
/// PxFBU.
pub(crate) const FBU: u32 = 0x0C;
/// PxIS.
pub(crate) const IS: u32 = 0x10;
/// PxCMD.
pub(crate) const CMD: u32 = 0x18;
/// PxTFD.
pub(crate) const TFD: u32 = 0x20;
/// PxSACT.
pub(crate) const SACT: u32 = 0x34;
/// PxCI.
pub(crate) const CI: u32 = 0x38;
/// PxSNTF.
pub(crate) const SNTF: u32 = 0x3C;
/// PxFBS.
pub(crate) const FBS: u32 = 0x40;

/// PxIS.OFS.
const OFS_BIT: u8 = 24;
/// PxIS.IFS.
const IFS_BIT: u8 = 27;
/// PxIS.HBFS.
const HBFS_BIT: u8 = 29;
/// PxIS.TFES.
const TFES_BIT: u8 = 30;
/// PxFBS.SDE.
const SDE_BIT: u8 = 2;

/// Status.ERR.
const ERR_BIT: u8 = 0;
/// Status.DRQ.
const DRQ_BIT: u8 = 3;
/// Status.BSY.
const BSY_BIT: u8 = 7;

/// What the NCQ Command Error log in the driver's buffer says.
#[derive(Clone, Copy, Debug, PartialEq, Eq)]
pub(crate) struct ErrorLog {
    /// Its bytes add up to 0 modulo 256.
    pub(crate) whole: bool,
    /// The command that failed was not queued.
    pub(crate) unqueued: bool,
    /// The tag of the command that failed, if it was queued.
    pub(crate) tag: u8,
    pub(crate) status: u8,
    pub(crate) error: u8,
}

/// What a tick sees. Each part is looked at only when it is asked for.
#[derive(Drop)]
pub(crate) struct Sight<'a> {
    mode: Mode,
    port: &'a HostPort,
    memory: &'a HostMemory,
    /// PxCI and PxSACT together: the slots that are not done.
    issued: u32,
}

impl<'a> Model for Sight<'a> {
    ghost use Rattle.std.specs.Prelude.{◌≡◌};
    ghost use Rattle.hba_driver.specs.Seeing.{Sight};

    ghost Value = { Sight };

    ghost use Rattle.hba_driver.specs.Sights.{sight_of};

    ghost view = { λ s. sight_of s.mode s.port.now s.memory.now };

    ghost invariant = { λ s. s.issued ≡ (sight_of s.mode s.port.now s.memory.now).issued };
}

/// Whether a dword has this bit.
pub(crate) fn has_bit(value: u32, k: u8) -> bool
    requires { k < 32 }
    ensures { result ≡ has_bit_of value k }
{
    value >> k & 1 == 1
}

/// The value of the register at an offset.
#[tactic(auto, unfolding(crate::specs::Sights::shown))]
pub(crate) fn register(port: &HostPort, offset: u32) -> u32
    ensures { result ≡ shown port.now offset }
{
    port.read(offset).unwrap_or(0)
}

// The last Register Device to Host FIS of a PM Port.
fn last_d2h(structure: &[u8], dev: u8) -> [u8; 20]
    requires dev { dev < 16 }
    requires area { 0x2000 ≤ length structure.now }
    ensures { result ≡ last_d2h_of structure.now dev }
{
    let at = 0x1040 + 0x100 * dev as usize;
    let mut fis = [0; 20];
    fis.copy_from_slice(&structure[at..at + 20]);
    fis
}

fn is_quiet(status: u8) -> bool
    ensures { result ≡ is_quiet_status status }
{
    let status = u32::from(status);
    !has_bit(status, BSY_BIT) && !has_bit(status, DRQ_BIT) && !has_bit(status, ERR_BIT)
}

fn is_signed(fis: &RegD2H<'_>) -> bool
    ensures { result ≡ is_signature fis.now }
{
    fis.error() == 1 && is_quiet(fis.status()) && fis.count() % 0x100 == 1 && fis.lba() % 0x100 == 1
}

// The value in an answer of the multiplier.
fn answer(bytes: [u8; 20]) -> u32
    ensures { result ≡ answer_in (seen bytes) }
{
    match Fis::of(&bytes) {
        Ok(Fis::RegD2H(fis)) => {
            (fis.lba() % 0x100_0000) as u32 * 0x100 + u32::from(fis.count() % 0x100)
        }
        _ => 0,
    }
}

// Whether this is the signature of an ATA device.
fn is_ata_signature(bytes: [u8; 20]) -> bool
    ensures { result ≡ is_ata (seen bytes) }
{
    match Fis::of(&bytes) {
        Ok(Fis::RegD2H(fis)) => is_signed(&fis) && fis.lba() / 0x100 % 0x1_0000 == 0,
        _ => false,
    }
}

// Whether the signature of a device came.
fn signed_in(mode: Mode, port: &HostPort, memory: &HostMemory, dev: u8) -> bool
    requires { dev < 16 }
    ensures { result ≡ slice_index_or (signed_by mode port.now memory.now) dev false }
{
    match mode {
        Mode::Switching => is_ata_signature(last_d2h(memory.structure(), dev)),
        Mode::CommandBased => port.signed(dev),
    }
}

// The row of the received area in which the answers of the multiplier are posted.
fn answer_row(mode: Mode) -> u8
    ensures value { result ≡ answer_row_of mode }
    ensures low { result < 16 }
{
    match mode {
        Mode::Switching => CONTROL_PORT,
        Mode::CommandBased => 0,
    }
}

fn is_usable(client: &[u8]) -> bool
    requires { 512 ≤ length client.now }
    ensures { result ≡ is_usable_in client.now }
{
    client[153] % 2 == 1 && client[150] % 32 == 31
}

// The sum of these bytes.
fn sum_of(bytes: &[u8]) -> u32
    requires { length bytes.now ≤ 65536 }
    ensures { result ≡ sum bytes.now }
{
    let mut sum = 0_u32;
    for byte in bytes {
        sum += *byte as u32;
    }
    sum
}

fn error_log(client: &[u8]) -> ErrorLog
    requires { 512 ≤ length client.now }
    ensures { result ≡ log_in client.now }
{
    ErrorLog {
        whole: sum_of(&client[..512]) % 256 == 0,
        unqueued: client[0] / 128 % 2 == 1,
        tag: client[0] % 32,
        status: client[2],
        error: client[3],
    }
}

fn is_stopped(interrupts: u32, switching: u32) -> bool
    ensures { result ≡ is_stopped_of interrupts switching }
{
    has_bit(interrupts, HBFS_BIT) && !has_bit(switching, SDE_BIT)
}

// With command-based switching each fault stops the port, and a notification does while a command of a device
// is issued: the scan could not be issued beside it.
fn is_stopped_alone(interrupts: u32, notified: bool, issued: u32) -> bool
    ensures { result ≡ is_stopped_alone_of interrupts notified issued }
{
    has_bit(interrupts, OFS_BIT)
        || has_bit(interrupts, IFS_BIT)
        || has_bit(interrupts, HBFS_BIT)
        || has_bit(interrupts, TFES_BIT)
        || notified && issued % 0x8000_0000 != 0
}

// Whether PxSNTF has the multiplier's bit.
fn is_notified(port: &HostPort) -> bool
    ensures { result ≡ has_bit_of (shown port.now px_sntf) 15 }
{
    has_bit(register(port, SNTF), CONTROL_PORT)
}

// Whether the port is stopped, or to be stopped.
fn stopped(mode: Mode, port: &HostPort, issued: u32) -> bool
    ensures { result
        ≡ stopped_by mode port.now (has_bit_of (shown port.now px_sntf) 15) issued }
{
    match mode {
        Mode::Switching => is_stopped(register(port, IS), register(port, FBS)),
        Mode::CommandBased => is_stopped_alone(register(port, IS), is_notified(port), issued),
    }
}

fn faulty(switching: u32) -> Option<u8>
    ensures { result ≡ faulty_in switching }
{
    if has_bit(switching, SDE_BIT) {
        Some((switching / 0x1_0000 % 16) as u8)
    } else {
        None
    }
}

// The device whose fault is to be cleared.
fn faulty_device(mode: Mode, port: &HostPort) -> Option<u8>
    ensures { result ≡ faulty_for mode port.now }
{
    match mode {
        Mode::Switching => faulty(register(port, FBS)),
        Mode::CommandBased => None,
    }
}

impl<'a> Sight<'a> {
    /// All that there is to see.
    #[tactic(auto, unfolding(crate::specs::Sights::sight_of))]
    pub(crate) fn of(mode: Mode, port: &'a HostPort, memory: &'a HostMemory) -> Sight<'a>
        ensures { result ≡ sight_of mode port.now memory.now }
    {
        let issued = register(port, CI) | register(port, SACT);
        Sight {
            mode,
            port,
            memory,
            issued,
        }
    }

    /// PxCI and PxSACT together: the slots that are not done.
    pub(crate) fn issued(&self) -> u32
        ensures { result ≡ self.now.issued }
    {
        self.issued
    }

    /// PxSNTF has the multiplier's bit.
    #[tactic(auto, unfolding(crate::specs::Sights::sight_of))]
    pub(crate) fn notified(&self) -> bool
        ensures { result ≡ self.now.notified }
    {
        is_notified(self.port)
    }

    /// The port is to be stopped: a fault stopped it, or a notification came beside a command of a device.
    #[tactic(auto, unfolding(crate::specs::Sights::sight_of))]
    pub(crate) fn stopped(&self) -> bool
        ensures { result ≡ self.now.stopped }
    {
        stopped(self.mode, self.port, self.issued)
    }

    /// The device whose fault the port shows, and is to be cleared.
    #[tactic(auto, unfolding(crate::specs::Sights::sight_of))]
    pub(crate) fn faulty(&self) -> Option<u8>
        ensures { result ≡ self.now.faulty }
    {
        faulty_device(self.mode, self.port)
    }

    /// The multiplier is in software reset.
    #[tactic(auto, unfolding(crate::specs::Sights::sight_of))]
    pub(crate) fn resetting(&self) -> bool
        ensures { result ≡ self.now.resetting }
    {
        self.port.resetting(CONTROL_PORT)
    }

    /// The device is in software reset.
    #[tactic(auto, unfolding(crate::specs::Sights::sight_of))]
    pub(crate) fn in_reset(&self, dev: u8) -> bool
        ensures { result ≡ slice_index_or self.now.in_reset dev false }
    {
        if dev < 16 {
            self.port.resetting(dev)
        } else {
            false
        }
    }

    /// The value in the multiplier's last answer, or its signature.
    #[tactic(auto, unfolding(crate::specs::Sights::sight_of))]
    pub(crate) fn answer(&self) -> u32
        ensures { result ≡ self.now.answer }
    {
        answer(last_d2h(self.memory.structure(), answer_row(self.mode)))
    }

    /// The signature of an ATA device stands in the device's row of the received area, or was heard.
    #[tactic(auto, unfolding(crate::specs::Sights::sight_of))]
    pub(crate) fn signed(&self, dev: u8) -> bool
        ensures { result ≡ slice_index_or self.now.signed dev false }
    {
        if dev < 16 {
            signed_in(self.mode, self.port, self.memory, dev)
        } else {
            false
        }
    }

    /// The IDENTIFY data in the driver's buffer is that of a device for queued commands.
    #[tactic(auto, unfolding(crate::specs::Sights::sight_of))]
    pub(crate) fn usable(&self) -> bool
        ensures { result ≡ self.now.usable }
    {
        is_usable(self.memory.client())
    }

    /// The error log, if the driver's buffer has it.
    #[tactic(auto, unfolding(crate::specs::Sights::sight_of))]
    pub(crate) fn log(&self) -> ErrorLog
        ensures { result ≡ self.now.log }
    {
        error_log(self.memory.client())
    }
}
