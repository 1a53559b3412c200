//! What a host waits for.

mod saved;

use ata_command::LogPage;
use ata_reply::{AtaError, Reply};
use block_command::Command;

/// Why a command failed, and at which sector.
#[derive(Clone, Copy, Debug, PartialEq, Eq)]
pub struct Trouble {
    /// Why.
    pub error: AtaError,
    /// The sector.
    pub lba: u64,
}

/// An error that ended all queued commands: what the NCQ Command Error log says.
#[derive(Clone, Copy, Debug, PartialEq, Eq)]
pub enum Fault {
    /// A command came that may not stand beside queued ones.
    Mixed,
    /// The queued command of this tag failed, or was refused.
    Queued(u8, Trouble),
}

/// 512 bytes that the disk gives of itself.
#[derive(Clone, Copy, Debug, PartialEq, Eq)]
pub enum Page {
    /// The IDENTIFY DEVICE data.
    Identity,
    /// A page of a log.
    Log(LogPage),
    /// SMART READ DATA.
    SmartData,
    /// SMART READ ATTRIBUTE THRESHOLDS.
    SmartThresholds,
}

/// Why a command beside the queue asks its caller.
#[derive(Clone, Copy, Debug, PartialEq, Eq)]
pub enum Purpose {
    /// FLUSH CACHE, or a mode in which the cache is not kept.
    Flush,
    /// The write cache is turned off.
    CacheOff,
    /// DATA SET MANAGEMENT.
    Discard,
}

/// The one command that moves sectors and is not queued.
#[derive(Clone, Copy, Debug, PartialEq, Eq)]
pub struct Moving {
    /// Whether it has an LBA of 48 bits.
    pub wide: bool,
    /// Of a read, the sectors that were not sent yet.
    pub left: u32,
}

/// What the host waits for: while it is not idle, BSY is set at the host.
#[derive(Clone, Copy, Debug, PartialEq, Eq)]
pub enum Task {
    /// Nothing: a command may come.
    Idle,
    /// This FIS is next.
    Owes(Reply),
    /// The command that moves sectors and is not queued is under way.
    Moves(Moving),
    /// A command beside the queue is under way.
    Waits(Purpose),
    /// The PIO Setup FIS of a page is next.
    Announces(Page),
    /// The Data of a page are next, by PIO.
    Gives(Page),
    /// The Data of a page are next, by DMA.
    Sends(Page),
    /// The DMA Activate FIS for so many blocks of ranges is next.
    Activates(u16),
    /// So many blocks of ranges are to come, in one Data FIS.
    Expects(u16),
}

/// What the task has to send.
#[derive(Clone, Copy, Debug, PartialEq, Eq)]
pub enum Owed {
    /// This FIS.
    Reply(Reply),
    /// The Data FIS of a page.
    Page(Page),
}

/// What becomes of the commands that move sectors, and of those beside the queue.
#[derive(Clone, Copy, Debug, PartialEq, Eq)]
pub enum Act {
    /// Nothing.
    Nothing,
    /// This one is taken.
    Takes(Command),
    /// A flush is taken beside the queue.
    Flushes,
    /// All that is under way is dropped.
    Resets,
}
