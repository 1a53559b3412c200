//! The FIS that goes next, and what its fields say.

ghost use Rattle.std.specs.Prelude.{◌≡◌, ◌≤◌, ◌<◌, length};
ghost use Rattle.block_command.specs.Moments.{part_of};
ghost use Rattle.block_queue.specs.Line.{command_at};
ghost use Rattle.block_scheduler.specs.Sets.{is_fail, turn_at};
ghost use Rattle.block_engine.specs.Engine.{line};
ghost use Rattle.sata_disk.specs.Sending.{error_of, is_data, is_done, lba_at, moving_of, own_of, single_front, trouble_at};

use ata_front::{Front, Moving, Owed, Page, Task, Trouble};
use ata_reply::{AtaError, Reply};
use block_command::{BlockCommand, Turn};
use block_engine::{AsideStage, Engine, ErrorKind};

/// The FIS that goes next. It holds no bytes of sectors.
#[derive(Clone, Copy, Debug, PartialEq, Eq)]
pub enum Out {
    /// A FIS that the disk owes of itself: its signature, an acceptance, a refusal, the answer to a command that moves nothing.
    Own(Reply),
    /// The Data FIS of a page that the disk gives of itself.
    Page(Page),
    /// The end of a flush, or of a DATA SET MANAGEMENT.
    Beside(Reply),
    /// The Set Device Bits FIS that says that the queued commands of these tags ended well.
    Ends(u32),
    /// This FIS of the command of this place.
    Of {
        /// The place: a tag, or 32 for the command that is not queued.
        place: u8,
        /// The FIS.
        reply: Reply,
    },
    /// The next Data FIS of the read of this place: its bytes are `SataDisk::part`.
    Data {
        /// The place.
        place: u8,
        /// How many bytes it carries.
        length: u16,
    },
}

/// What the front owes.
pub(crate) fn own_of(owed: Owed) -> Out
    ensures { result ≡ own_of owed }
{
    match owed {
        Owed::Reply(reply) => Out::Own(reply),
        Owed::Page(page) => Out::Page(page),
    }
}

/// What of the error the host is told.
fn error_of(error: ErrorKind) -> AtaError
    ensures { result ≡ error_of error }
{
    match error {
        ErrorKind::Uncorrectable => AtaError::Uncorrectable,
        ErrorKind::NotFound => AtaError::NotFound,
        ErrorKind::Aborted => AtaError::Aborted,
    }
}

/// The first sector of the command of a place, 0 if there is none.
fn lba_at(engine: &Engine, place: u8) -> u64
    requires { place < 33 }
    ensures { result ≡ lba_at (command_at (line engine.now) place) }
{
    match engine.get(place) {
        None => 0,
        Some(command) => command.command().lba,
    }
}

/// Why the command of a place failed: as the caller says. If it says nothing, the host sent more Data than were asked for.
pub(crate) fn trouble_at(engine: &Engine, place: u8) -> Trouble
    requires { place < 33 }
    ensures { result ≡ trouble_at engine.now place }
{
    match engine.failure(place) {
        None => Trouble {
            error: AtaError::Interface,
            lba: lba_at(engine, place),
        },
        Some(failure) => Trouble {
            error: error_of(failure.error),
            lba: failure.lba,
        },
    }
}

/// Whether the command beside the queue ended well.
pub(crate) fn is_done(stage: AsideStage) -> bool
    ensures { result ≡ is_done stage }
{
    matches!(stage, AsideStage::Done)
}

/// What the front keeps of the command that moves sectors and is not queued.
pub(crate) fn moving_of(task: Task) -> Moving
    ensures { result ≡ moving_of task }
{
    match task {
        Task::Moves(moving) => moving,
        _ => Moving {
            wide: true,
            left: 0,
        },
    }
}

/// Whether a Data FIS is next.
pub(crate) fn is_data(turn: Turn) -> bool
    ensures { result ≡ is_data turn }
{
    matches!(turn, Turn::Data)
}

/// The bytes of the next Data FIS of a command.
pub(crate) fn part_len(command: &BlockCommand) -> u16
    ensures value { result ≡ length (part_of command.now) }
    ensures most { result ≤ 8192 }
{
    let _command = command.command();
    command.part().len() as u16
}

/// Whether the error of a queued command is next.
pub(crate) fn fails(engine: &Engine, place: u8) -> bool
    requires { place < 33 }
    ensures { result ≡ is_fail (turn_at (command_at (line engine.now) place)) }
{
    match engine.get(place) {
        None => false,
        Some(command) => matches!(command.turn(), Turn::Fail),
    }
}

/// The front once a FIS of the command that is not queued was sent, with so many sectors.
pub(crate) fn single_front(front: Front, ended: bool, sectors: u32) -> Front
    ensures { result ≡ single_front front front.task ended sectors }
{
    match front.task {
        Task::Moves(_) => front.single_sent(ended, sectors),
        _ => front,
    }
}
