//! The FIS of a command that moves sectors.

ghost use Rattle.std.specs.Prelude.{◌≡◌};
ghost use Rattle.ata_front.specs.CommandFis.{announced_read, announced_write, asks_data, command_reply, failure_of, set_up};

use crate::task::Trouble;
use ata_reply::{Announcement, Failure, Reply, SetUp};
use block_command::{BlockCommand, Command, Protocol, Turn};

/// The PIO Setup FIS of the next block of a read, of so many sectors that were not sent.
fn announced_read(command: &BlockCommand, left: u32) -> Reply
    ensures { result ≡ announced_read command.now left }
{
    let bytes = command.part().len();
    Reply::Announce(Announcement {
        to_host: true,
        first: left == command.command().count,
        last: left as usize * 512 <= bytes,
        bytes: bytes as u16,
    })
}

/// The PIO Setup FIS of the next block of a write.
fn announced_write(command: &BlockCommand) -> Reply
    ensures { result ≡ announced_write command.now }
{
    let block = command.command().block as usize;
    let came = command.bytes().len();
    let left = (command.part_count() as usize * 512).saturating_sub(came);
    Reply::Announce(Announcement {
        to_host: false,
        first: came == 0 && command.part_lba() == command.command().lba,
        last: false,
        bytes: if left < block {
            left as u16
        } else {
            block as u16
        },
    })
}

/// The FIS that asks for Data.
fn asks_data(command: &BlockCommand) -> Reply
    ensures { result ≡ asks_data command.now }
{
    match command.command().protocol {
        Protocol::Pio => announced_write(command),
        Protocol::Queued | Protocol::Dma | Protocol::Verify => Reply::Activate,
    }
}

/// The DMA Setup FIS of a command.
fn set_up(command: &BlockCommand) -> Reply
    ensures { result ≡ set_up command.now.command }
{
    let command = command.command();
    Reply::SetUp(SetUp {
        tag: command.place,
        to_host: !command.write,
        auto_activate: command.auto_activate,
        bytes: command.count * 512,
    })
}

/// The FIS of a command that failed.
fn failure_of(command: Command, trouble: Trouble, wide: bool) -> Reply
    ensures { result ≡ failure_of command trouble wide }
{
    if command.place < 32 {
        return Reply::Aborts(trouble.error);
    }
    Reply::Failed(Failure {
        error: trouble.error,
        lba: trouble.lba,
        wide,
    })
}

/// The FIS of a command other than Data, by what is next for it; None where that is Data, a request, or nothing. `left` counts the
/// sectors of a read by PIO that were not sent; `trouble` says why it failed, if it did, and `wide` whether its LBA has 48 bits.
pub fn command_reply(
    command: &BlockCommand,
    left: u32,
    trouble: Trouble,
    wide: bool,
) -> Option<Reply>
    ensures { result ≡ command_reply command.now left trouble wide }
{
    match command.turn() {
        Turn::SetUp => Some(set_up(command)),
        Turn::Announce => Some(announced_read(command, left)),
        Turn::Activate => Some(asks_data(command)),
        Turn::End => Some(Reply::Done),
        Turn::Fail => Some(failure_of(command.command(), trouble, wide)),
        _ => None,
    }
}
