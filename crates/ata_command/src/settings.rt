//! What SET FEATURES and SET MULTIPLE MODE change of a disk: its commands go by it, and its IDENTIFY DEVICE data show it.

ghost use Rattle.std.specs.Prelude.{◌≡◌, ◌≤◌};
ghost use Rattle.ata_command.specs.Modes.{mode_after, multiple_of, power_on, sectors_in};

mod saved;

/// The mode of DMA that is selected. Serial ATA moves at the speed of its link in any of them.
#[derive(Clone, Copy, Debug, PartialEq, Eq)]
pub enum TransferMode {
    /// Multiword DMA mode 0.
    Multiword0,
    /// Multiword DMA mode 1.
    Multiword1,
    /// Multiword DMA mode 2.
    Multiword2,
    /// Ultra DMA mode 0.
    Ultra0,
    /// Ultra DMA mode 1.
    Ultra1,
    /// Ultra DMA mode 2.
    Ultra2,
    /// Ultra DMA mode 3.
    Ultra3,
    /// Ultra DMA mode 4.
    Ultra4,
    /// Ultra DMA mode 5.
    Ultra5,
    /// Ultra DMA mode 6.
    Ultra6,
}

impl TransferMode {
    /// The mode after SET FEATURES 03h with this Count 7:0 (ACS-3, Set transfer mode). A mode of PIO changes no mode of
    /// DMA. None for a mode that the IDENTIFY DEVICE data do not name: the command is aborted.
    pub fn selected(self, count: u8) -> Option<Self>
        ensures { result ≡ mode_after self count }
    {
        match count {
            0x00 | 0x01 | 0x08..=0x0C => Some(self),
            0x20 => Some(TransferMode::Multiword0),
            0x21 => Some(TransferMode::Multiword1),
            0x22 => Some(TransferMode::Multiword2),
            0x40 => Some(TransferMode::Ultra0),
            0x41 => Some(TransferMode::Ultra1),
            0x42 => Some(TransferMode::Ultra2),
            0x43 => Some(TransferMode::Ultra3),
            0x44 => Some(TransferMode::Ultra4),
            0x45 => Some(TransferMode::Ultra5),
            0x46 => Some(TransferMode::Ultra6),
            _ => None,
        }
    }
}

/// How many sectors a DRQ data block of READ MULTIPLE and WRITE MULTIPLE has.
#[derive(Clone, Copy, Debug, PartialEq, Eq)]
pub enum Multiple {
    /// None was set, as after power on: these commands are refused.
    Off,
    /// 1.
    One,
    /// 2.
    Two,
    /// 4.
    Four,
    /// 8.
    Eight,
    /// 16.
    Sixteen,
}

impl Multiple {
    /// What SET MULTIPLE MODE with this Count 7:0 sets. None for a count that is not supported: the command is aborted.
    pub fn of_count(count: u8) -> Option<Self>
        ensures { result ≡ multiple_of count }
    {
        match count {
            0 => Some(Multiple::Off),
            1 => Some(Multiple::One),
            2 => Some(Multiple::Two),
            4 => Some(Multiple::Four),
            8 => Some(Multiple::Eight),
            16 => Some(Multiple::Sixteen),
            _ => None,
        }
    }

    /// The sectors of a block; 0 where none was set.
    pub fn sectors(self) -> u8
        ensures value { result ≡ sectors_in self }
        ensures most { result ≤ 16 }
    {
        match self {
            Multiple::Off => 0,
            Multiple::One => 1,
            Multiple::Two => 2,
            Multiple::Four => 4,
            Multiple::Eight => 8,
            Multiple::Sixteen => 16,
        }
    }
}

/// What SET FEATURES sets.
#[derive(Clone, Copy, Debug, PartialEq, Eq)]
pub enum Setting {
    /// The mode of DMA.
    Mode(TransferMode),
    /// The volatile write cache is on.
    WriteCache(bool),
    /// Read look-ahead is on.
    LookAhead(bool),
    /// A software reset takes settings back to their defaults.
    Reverts(bool),
    /// The DMA Setup FIS of a queued write lets the first Data come.
    AutoActivate(bool),
}

/// What commands set.
#[derive(Clone, Copy, Debug, PartialEq, Eq)]
pub struct Settings {
    /// The volatile write cache is on.
    pub write_cache: bool,
    /// Read look-ahead is on.
    pub look_ahead: bool,
    /// The DMA Setup FIS of a queued write lets the first Data come.
    pub auto_activate: bool,
    /// The sectors of a DRQ data block of READ MULTIPLE and WRITE MULTIPLE.
    pub multiple: Multiple,
    /// The mode of DMA.
    pub mode: TransferMode,
}

impl Settings {
    /// The settings after power on: write cache and look-ahead on, all else off, Ultra DMA mode 6.
    pub fn power_on() -> Self
        ensures { result ≡ power_on }
    {
        Settings {
            write_cache: true,
            look_ahead: true,
            auto_activate: false,
            multiple: Multiple::Off,
            mode: TransferMode::Ultra6,
        }
    }
}
