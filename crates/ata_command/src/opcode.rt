//! The command codes (ACS-3, 7, and its table of command codes).

ghost use Rattle.std.specs.Prelude.{◌≡◌, Some, true, false};
ghost use Rattle.ata_command.specs.Opcodes.{opcode_of, transfer_of};

/// How a command that is not queued moves sectors.
#[derive(Clone, Copy, Debug, PartialEq, Eq)]
pub enum Way {
    /// DMA.
    Dma,
    /// PIO, a DRQ data block for each sector.
    Single,
    /// PIO, with DRQ data blocks of as many sectors as SET MULTIPLE MODE said.
    Multiple,
    /// The sectors are read, and not moved.
    Verify,
}

/// A command that is not queued and moves sectors.
#[derive(Clone, Copy, Debug, PartialEq, Eq)]
pub struct Transfer {
    /// Whether it writes.
    pub write: bool,
    /// Whether it has an LBA of 48 bits and a Count of 16, EXT, and not 28 and 8.
    pub wide: bool,
    /// Whether its sectors are to last before it ends: FUA.
    pub fua: bool,
    /// How they move.
    pub way: Way,
}

/// A command, by its code.
#[derive(Clone, Copy, Debug, PartialEq, Eq)]
pub enum Opcode {
    /// READ FPDMA QUEUED.
    ReadQueued,
    /// WRITE FPDMA QUEUED.
    WriteQueued,
    /// A read, a write or a verify that is not queued.
    Transfer(Transfer),
    /// FLUSH CACHE, FLUSH CACHE EXT.
    Flush,
    /// SET FEATURES.
    SetFeatures,
    /// SET MULTIPLE MODE.
    SetMultiple,
    /// DATA SET MANAGEMENT.
    DataSet,
    /// IDENTIFY DEVICE.
    Identify,
    /// READ LOG EXT.
    ReadLog,
    /// READ LOG DMA EXT.
    ReadLogDma,
    /// SMART.
    Smart,
    /// STANDBY IMMEDIATE, STANDBY, SLEEP.
    Standby,
    /// IDLE IMMEDIATE, IDLE.
    Idle,
    /// CHECK POWER MODE.
    CheckPower,
    /// Any other.
    Unknown,
}

/// A transfer without FUA.
fn plain(write: bool, wide: bool, way: Way) -> Option<Transfer>
    ensures { result ≡ Some (record { write = write; wide = wide; fua = false; way = way }) }
{
    Some(Transfer {
        write,
        wide,
        fua: false,
        way,
    })
}

/// A write with FUA.
fn lasting(way: Way) -> Option<Transfer>
    ensures { result ≡ Some (record { write = true; wide = true; fua = true; way = way }) }
{
    Some(Transfer {
        write: true,
        wide: true,
        fua: true,
        way,
    })
}

impl Transfer {
    /// The transfer of a code.
    fn of(code: u8) -> Option<Transfer>
        ensures { result ≡ transfer_of code }
    {
        match code {
            0x20 => plain(false, false, Way::Single),
            0x24 => plain(false, true, Way::Single),
            0x25 => plain(false, true, Way::Dma),
            0x29 => plain(false, true, Way::Multiple),
            0x30 => plain(true, false, Way::Single),
            0x34 => plain(true, true, Way::Single),
            0x35 => plain(true, true, Way::Dma),
            0x39 => plain(true, true, Way::Multiple),
            0x3D => lasting(Way::Dma),
            0x40 => plain(false, false, Way::Verify),
            0x42 => plain(false, true, Way::Verify),
            0xC4 => plain(false, false, Way::Multiple),
            0xC5 => plain(true, false, Way::Multiple),
            0xC8 => plain(false, false, Way::Dma),
            0xCA => plain(true, false, Way::Dma),
            0xCE => lasting(Way::Multiple),
            _ => None,
        }
    }
}

impl Opcode {
    /// The command of a code.
    pub fn of(code: u8) -> Opcode
        ensures { result ≡ opcode_of code }
    {
        if let Some(transfer) = Transfer::of(code) {
            return Opcode::Transfer(transfer);
        }
        match code {
            0x06 => Opcode::DataSet,
            0x2F => Opcode::ReadLog,
            0x47 => Opcode::ReadLogDma,
            0x60 => Opcode::ReadQueued,
            0x61 => Opcode::WriteQueued,
            0xB0 => Opcode::Smart,
            0xC6 => Opcode::SetMultiple,
            0xE0 | 0xE2 | 0xE6 => Opcode::Standby,
            0xE1 | 0xE3 => Opcode::Idle,
            0xE5 => Opcode::CheckPower,
            0xE7 | 0xEA => Opcode::Flush,
            0xEC => Opcode::Identify,
            0xEF => Opcode::SetFeatures,
            _ => Opcode::Unknown,
        }
    }
}
