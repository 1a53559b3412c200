//! What a disk is: what its IDENTIFY DEVICE data say and no command changes.

ghost use Rattle.std.specs.Prelude.{◌≡◌, ◌<◌, ◌≤◌, Ok, Err, IfOk, IfErr, IsErrOf};
ghost use Rattle.disk_pages.specs.Profiles.{capacity_of, depth_of, facts_of, rpm_of, trim_blocks};

mod saved;

use crate::text::{FirmwareRevision, ModelNumber, SerialNumber};
use ata_command::Facts;
use std::marker::Model;
use thiserror::Error;

/// Why a number cannot stand in the IDENTIFY DEVICE data.
#[derive(Clone, Copy, Debug, PartialEq, Eq, Error)]
pub enum NumberFault {
    /// No sectors, or more than 2^48 - 1.
    #[error("a disk has 1 to 2^48 - 1 sectors")]
    Sectors,
    /// No command, or more than 32.
    #[error("a queue has 1 to 32 commands")]
    Depth,
    /// Below 1,025 or above 65,534 turns a minute.
    #[error("a speed is 1,025 to 65,534 turns a minute")]
    Speed,
}

/// How many logical sectors of 512 bytes a disk has: 1 to 2^48 - 1.
#[derive(Clone, Copy, Debug, PartialEq, Eq)]
pub struct Capacity {
    sectors: u64,
}

impl Model for Capacity {
    ghost use Rattle.std.specs.Prelude.{ℕ, ◌^◌, ◌<◌, ◌≤◌};

    ghost Value = { ℕ };

    ghost view = { λ c. c.sectors };

    ghost inverse = { λ n. record { sectors = n } };

    ghost invariant = { λ c. (1 ≤ c.sectors) × (c.sectors < 0x1_0000_0000_0000) };
}

impl Capacity {
    /// This many sectors.
    pub fn new(sectors: u64) -> Result<Self, NumberFault>
        ensures { result ≡ capacity_of sectors }
    {
        if sectors < 1 || sectors >= 0x1_0000_0000_0000 {
            return Err(NumberFault::Sectors);
        }
        Ok(Capacity { sectors })
    }

    /// The number of sectors.
    pub fn sectors(self) -> u64
        ensures sectors { result ≡ self }
        ensures some { 1 ≤ self }
        ensures bound { self < 0x1_0000_0000_0000 }
    {
        self.sectors
    }
}

/// How many queued commands a disk takes at a time: 1 to 32.
#[derive(Clone, Copy, Debug, PartialEq, Eq)]
pub struct QueueDepth {
    commands: u8,
}

impl Model for QueueDepth {
    ghost use Rattle.std.specs.Prelude.{ℕ, ◌≤◌};

    ghost Value = { ℕ };

    ghost view = { λ d. d.commands };

    ghost inverse = { λ n. record { commands = n } };

    ghost invariant = { λ d. (1 ≤ d.commands) × (d.commands ≤ 32) };
}

impl QueueDepth {
    /// This many commands.
    pub fn new(commands: u8) -> Result<Self, NumberFault>
        ensures { result ≡ depth_of commands }
    {
        if commands < 1 || commands > 32 {
            return Err(NumberFault::Depth);
        }
        Ok(QueueDepth { commands })
    }

    /// The number of commands.
    pub fn commands(self) -> u8
        ensures commands { result ≡ self }
        ensures some { 1 ≤ self }
        ensures bound { self ≤ 32 }
    {
        self.commands
    }
}

/// A speed of rotation in turns a minute: 1,025 to 65,534 (ACS-3, word 217).
#[derive(Clone, Copy, Debug, PartialEq, Eq)]
pub struct Rpm {
    turns: u16,
}

impl Model for Rpm {
    ghost use Rattle.std.specs.Prelude.{ℕ, ◌≤◌};

    ghost Value = { ℕ };

    ghost view = { λ r. r.turns };

    ghost inverse = { λ n. record { turns = n } };

    ghost invariant = { λ r. (0x401 ≤ r.turns) × (r.turns ≤ 0xFFFE) };
}

impl Rpm {
    /// This many turns a minute.
    pub fn new(turns: u16) -> Result<Self, NumberFault>
        ensures { result ≡ rpm_of turns }
    {
        if turns < 0x401 || turns > 0xFFFE {
            return Err(NumberFault::Speed);
        }
        Ok(Rpm { turns })
    }

    /// The turns a minute.
    pub fn turns(self) -> u16
        ensures turns { result ≡ self }
        ensures least { 0x401 ≤ self }
        ensures most { self ≤ 0xFFFE }
    {
        self.turns
    }
}

/// What word 217 says of the medium.
#[derive(Clone, Copy, Debug, PartialEq, Eq)]
pub enum Rotation {
    /// Nothing.
    Unknown,
    /// It does not rotate, as in a solid state disk.
    Solid,
    /// It rotates.
    Rotates(Rpm),
}

/// The physical sectors of the medium. A logical sector has 512 bytes in any case.
#[derive(Clone, Copy, Debug, PartialEq, Eq)]
pub enum PhysicalSector {
    /// 512 bytes: one logical sector.
    Bytes512,
    /// 4,096 bytes: eight logical sectors, the first of which is sector 0.
    Bytes4096,
}

/// What a disk is.
#[derive(Clone, Copy, Debug, PartialEq, Eq)]
pub struct Profile {
    /// The model number.
    pub model: ModelNumber,
    /// The serial number.
    pub serial: SerialNumber,
    /// The firmware revision.
    pub firmware: FirmwareRevision,
    /// The world wide name, if it has one.
    pub wwn: Option<u64>,
    /// How many sectors it has.
    pub capacity: Capacity,
    /// How many queued commands it takes.
    pub depth: QueueDepth,
    /// Whether its medium rotates.
    pub rotation: Rotation,
    /// The physical sectors of its medium.
    pub physical: PhysicalSector,
    /// Whether it takes DATA SET MANAGEMENT with TRIM.
    pub trim: bool,
}

/// The blocks of ranges that DATA SET MANAGEMENT takes at most.
pub(crate) fn trim_blocks(trim: bool) -> u16
    ensures { result ≡ trim_blocks trim }
{
    if trim { 8 } else { 0 }
}

impl Profile {
    /// What the decoder of its commands has to know: what the IDENTIFY DEVICE data say.
    pub fn facts(&self) -> Facts
        ensures { result ≡ facts_of self.now }
    {
        match Facts::new(
            self.capacity.sectors(),
            self.depth.commands(),
            trim_blocks(self.trim),
        ) {
            Some(facts) => facts,
            None => unreachable!(),
        }
    }
}
