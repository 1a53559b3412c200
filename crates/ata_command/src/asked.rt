//! What a command asks for.

ghost use Rattle.std.specs.Prelude.{◌≡◌, ◌<◌, ◌≤◌, ◌+◌, IfSome, nat_lt};
ghost use Rattle.block_command.specs.Moments.{is_queued};
ghost use Rattle.ata_command.specs.Asks.{IsAsked, aborted, asked, asked_by, block_in, count_of, features_set, lba_of, log_page, moved, multiple_set, protocol_of, queued, sectors_asked, setting_of, smart_asked, smart_task, transferred, trimmed};

mod saved;

use crate::facts::Facts;
use crate::opcode::{Opcode, Transfer, Way};
use crate::settings::{Multiple, Setting, Settings, TransferMode};
use ata_reply::AtaError;
use block_command::{Command, Protocol};
use fis_view::RegH2D;

/// Sectors that are read, written or verified.
#[derive(Clone, Copy, Debug, PartialEq, Eq)]
pub struct Move {
    /// The command. Its place is its tag, or 32 if it is not queued.
    pub command: Command,
    /// Whether it has an LBA of 48 bits.
    pub wide: bool,
}

/// Why a command is not done.
#[derive(Clone, Copy, Debug, PartialEq, Eq)]
pub struct Refusal {
    /// The error.
    pub error: AtaError,
    /// The first sector that the disk does not have, 0 if that is not why.
    pub lba: u64,
    /// Whether the command has an LBA of 48 bits.
    pub wide: bool,
    /// Its tag, if it is queued.
    pub tag: Option<u8>,
}

/// Pages of a log.
#[derive(Clone, Copy, Debug, PartialEq, Eq)]
pub struct LogPage {
    /// The address of the log.
    pub log: u8,
    /// The first page.
    pub page: u16,
    /// How many pages, of 512 bytes.
    pub count: u16,
    /// Whether they move by DMA, and not by PIO.
    pub dma: bool,
}

/// What SMART is to do.
#[derive(Clone, Copy, Debug, PartialEq, Eq)]
pub enum SmartTask {
    /// READ DATA: 512 bytes.
    ReadData,
    /// READ ATTRIBUTE THRESHOLDS of older standards: 512 bytes.
    ReadThresholds,
    /// ENABLE OPERATIONS, or ATTRIBUTE AUTOSAVE on or off: nothing.
    Nothing,
    /// RETURN STATUS.
    ReturnStatus,
}

/// What a command of the Power Management feature set is to do.
#[derive(Clone, Copy, Debug, PartialEq, Eq)]
pub enum PowerTask {
    /// The disk goes to a mode in which its cache is not kept.
    Standby,
    /// The disk goes idle.
    Idle,
    /// The disk says in which mode it is.
    Check,
}

/// What a command asks for.
#[derive(Clone, Copy, Debug, PartialEq, Eq)]
pub enum Asked {
    /// Sectors are read, written or verified.
    Moves(Move),
    /// What is in the write cache is to last.
    Flushes,
    /// A feature is set.
    Sets(Setting),
    /// The sectors of a block of READ MULTIPLE and WRITE MULTIPLE are set.
    SetsMultiple(Multiple),
    /// Ranges of sectors are of no use any more; so many blocks of 512 bytes name them.
    Trims(u16),
    /// The IDENTIFY DEVICE data.
    Identifies,
    /// Pages of a log.
    ReadsLog(LogPage),
    /// A task of SMART.
    Smart(SmartTask),
    /// A task of the Power Management feature set.
    Power(PowerTask),
    /// It is not done.
    Refused(Refusal),
}

/// A command that is refused for itself.
fn aborted() -> Asked
    ensures { result ≡ aborted }
{
    Asked::Refused(Refusal {
        error: AtaError::Aborted,
        lba: 0,
        wide: true,
        tag: None,
    })
}

/// The LBA of a command that is not queued.
fn lba_of(fis: &RegH2D<'_>, wide: bool) -> u64
    ensures { result ≡ lba_of fis.now wide }
{
    if wide {
        fis.lba()
    } else {
        fis.lba() % 0x100_0000 + 0x100_0000 * (fis.device() % 16) as u64
    }
}

/// How many sectors a count asks for where 0 stands for so many.
fn sectors_asked(count: u32, all: u32) -> u32
    requires some { 0 < all }
    requires most { all ≤ 65536 }
    requires below { count < 65536 }
    ensures value { result ≡ sectors_asked count all }
    ensures counted { (0 < result) × (result ≤ 65536) }
{
    if count == 0 { all } else { count }
}

/// How many sectors a command that is not queued asks for.
fn count_of(fis: &RegH2D<'_>, wide: bool) -> u32
    ensures value { result ≡ count_of fis.now wide }
    ensures counted { (0 < result) × (result ≤ 65536) }
{
    let count = fis.count();
    if wide {
        sectors_asked(count as u32, 65536)
    } else {
        sectors_asked((count % 256) as u32, 256)
    }
}

/// A command that moves sectors, if the disk has all of them.
fn moved(facts: &Facts, command: Command, wide: bool) -> Asked
    requires some { 0 < command.count }
    requires most { command.count ≤ 65536 }
    requires block { 512 ≤ command.block }
    requires block_most { command.block ≤ 8192 }
    requires place { command.place < 33 }
    requires queued { is_queued command.protocol ≡ nat_lt command.place 32 }
    ensures value { result ≡ moved facts.now command wide }
    ensures is { IsAsked facts.now result }
{
    let sectors = facts.sectors();
    if command.lba <= sectors && command.count as u64 <= sectors - command.lba {
        return Asked::Moves(Move { command, wide });
    }
    Asked::Refused(Refusal {
        error: AtaError::NotFound,
        lba: if command.lba < sectors {
            sectors
        } else {
            command.lba
        },
        wide,
        tag: if command.place < 32 {
            Some(command.place)
        } else {
            None
        },
    })
}

/// A queued command.
fn queued(fis: &RegH2D<'_>, write: bool, facts: &Facts, settings: Settings) -> Asked
    ensures value { result ≡ queued fis.now write facts.now settings }
    ensures is { IsAsked facts.now result }
{
    let tag = (fis.count() % 256 / 8) as u8;
    if tag >= facts.depth() {
        return Asked::Refused(Refusal {
            error: AtaError::Aborted,
            lba: 0,
            wide: true,
            tag: Some(tag),
        });
    }
    let fua = fis.device() / 128 % 2 == 1;
    let command = Command {
        place: tag,
        lba: fis.lba(),
        count: sectors_asked(fis.features() as u32, 65536),
        write,
        lasting: write && (fua || !settings.write_cache),
        protocol: Protocol::Queued,
        block: 8192,
        auto_activate: write && settings.auto_activate,
    };
    moved(facts, command, true)
}

/// How the sectors of a way move.
fn protocol_of(way: Way) -> Protocol
    ensures { result ≡ protocol_of way }
{
    match way {
        Way::Dma => Protocol::Dma,
        Way::Single | Way::Multiple => Protocol::Pio,
        Way::Verify => Protocol::Verify,
    }
}

/// The bytes of a block of a way. None where there are no blocks yet.
fn block_in(way: Way, multiple: Multiple) -> Option<u32>
    ensures value { result ≡ block_in way multiple }
    ensures bounds { IfSome result (λ block. (512 ≤ block) × (block ≤ 8192)) }
{
    match way {
        Way::Dma | Way::Verify => Some(8192),
        Way::Single => Some(512),
        Way::Multiple => match multiple {
            Multiple::Off => None,
            Multiple::One => Some(512),
            Multiple::Two => Some(1024),
            Multiple::Four => Some(2048),
            Multiple::Eight => Some(4096),
            Multiple::Sixteen => Some(8192),
        },
    }
}

/// A read, a write or a verify that is not queued.
fn transferred(fis: &RegH2D<'_>, transfer: Transfer, facts: &Facts, settings: Settings) -> Asked
    ensures value { result ≡ transferred fis.now transfer facts.now settings }
    ensures is { IsAsked facts.now result }
{
    let Some(block) = block_in(transfer.way, settings.multiple) else {
        return aborted();
    };
    let command = Command {
        place: 32,
        lba: lba_of(fis, transfer.wide),
        count: count_of(fis, transfer.wide),
        write: transfer.write,
        lasting: transfer.write && (transfer.fua || !settings.write_cache),
        protocol: protocol_of(transfer.way),
        block,
        auto_activate: false,
    };
    moved(facts, command, transfer.wide)
}

/// What SET FEATURES sets, by its Features and Count, None for what the disk does not have.
fn setting_of(mode: TransferMode, feature: u8, count: u8) -> Option<Setting>
    ensures { result ≡ setting_of mode feature count }
{
    match feature {
        0x02 => Some(Setting::WriteCache(true)),
        0x82 => Some(Setting::WriteCache(false)),
        0x03 => Some(Setting::Mode(mode.selected(count)?)),
        0x10 if count == 2 => Some(Setting::AutoActivate(true)),
        0x90 if count == 2 => Some(Setting::AutoActivate(false)),
        0x55 => Some(Setting::LookAhead(false)),
        0xAA => Some(Setting::LookAhead(true)),
        0x66 => Some(Setting::Reverts(false)),
        0xCC => Some(Setting::Reverts(true)),
        _ => None,
    }
}

/// SET FEATURES.
fn features_set(fis: &RegH2D<'_>, mode: TransferMode) -> Asked
    ensures { result ≡ features_set fis.now mode }
{
    let feature = (fis.features() % 256) as u8;
    match setting_of(mode, feature, (fis.count() % 256) as u8) {
        Some(setting) => Asked::Sets(setting),
        None => aborted(),
    }
}

/// SET MULTIPLE MODE.
fn multiple_set(fis: &RegH2D<'_>) -> Asked
    ensures { result ≡ multiple_set fis.now }
{
    match Multiple::of_count((fis.count() % 256) as u8) {
        Some(multiple) => Asked::SetsMultiple(multiple),
        None => aborted(),
    }
}

/// DATA SET MANAGEMENT: TRIM alone, of blocks that the disk takes.
fn trimmed(fis: &RegH2D<'_>, facts: &Facts) -> Asked
    ensures value { result ≡ trimmed fis.now facts.now }
    ensures is { IsAsked facts.now result }
{
    let blocks = fis.count();
    if fis.features() % 256 == 1 && blocks > 0 && blocks <= facts.trim_blocks() {
        Asked::Trims(blocks)
    } else {
        aborted()
    }
}

/// The pages that READ LOG EXT and READ LOG DMA EXT ask for.
fn log_page(fis: &RegH2D<'_>, dma: bool) -> LogPage
    ensures { result ≡ log_page fis.now dma }
{
    let lba = fis.lba();
    LogPage {
        log: (lba % 256) as u8,
        page: (lba / 0x100 % 256 + 256 * (lba / 0x1_0000_0000 % 256)) as u16,
        count: fis.count(),
        dma,
    }
}

/// The task of SMART, by its Features and Count, None for one that the disk does not do.
fn smart_task(feature: u8, count: u8) -> Option<SmartTask>
    ensures { result ≡ smart_task feature count }
{
    match feature {
        0xD0 => Some(SmartTask::ReadData),
        0xD1 => Some(SmartTask::ReadThresholds),
        0xD2 if count == 0 || count == 0xF1 => Some(SmartTask::Nothing),
        0xD8 => Some(SmartTask::Nothing),
        0xDA => Some(SmartTask::ReturnStatus),
        _ => None,
    }
}

/// SMART.
fn smart_asked(fis: &RegH2D<'_>) -> Asked
    ensures { result ≡ smart_asked fis.now }
{
    if fis.lba() / 0x100 % 0x1_0000 != 0xC24F {
        return aborted();
    }
    match smart_task((fis.features() % 256) as u8, (fis.count() % 256) as u8) {
        Some(task) => Asked::Smart(task),
        None => aborted(),
    }
}

/// What a command of this code asks for.
fn asked_by(opcode: Opcode, fis: &RegH2D<'_>, facts: &Facts, settings: Settings) -> Asked
    ensures value { result ≡ asked_by opcode fis.now facts.now settings }
    ensures is { IsAsked facts.now result }
{
    match opcode {
        Opcode::ReadQueued => queued(fis, false, facts, settings),
        Opcode::WriteQueued => queued(fis, true, facts, settings),
        Opcode::Transfer(transfer) => transferred(fis, transfer, facts, settings),
        Opcode::Flush => Asked::Flushes,
        Opcode::SetFeatures => features_set(fis, settings.mode),
        Opcode::SetMultiple => multiple_set(fis),
        Opcode::DataSet => trimmed(fis, facts),
        Opcode::Identify => Asked::Identifies,
        Opcode::ReadLog => Asked::ReadsLog(log_page(fis, false)),
        Opcode::ReadLogDma => Asked::ReadsLog(log_page(fis, true)),
        Opcode::Smart => smart_asked(fis),
        Opcode::Standby => Asked::Power(PowerTask::Standby),
        Opcode::Idle => Asked::Power(PowerTask::Idle),
        Opcode::CheckPower => Asked::Power(PowerTask::Check),
        Opcode::Unknown => aborted(),
    }
}

impl Asked {
    /// What a command asks for: a Register FIS with C 1. Of a command that is refused it says why; a queued one keeps its
    /// tag.
    #[tactic(auto, unfolding(crate::specs::Asks::asked))]
    pub fn of(fis: &RegH2D<'_>, facts: &Facts, settings: Settings) -> Asked
        ensures value { result ≡ asked fis.now facts.now settings }
        ensures is { IsAsked facts.now result }
    {
        asked_by(Opcode::of(fis.command()), fis, facts, settings)
    }
}
