//! Commands as words, and back.

ghost use Rattle.std.specs.Prelude.{◌≡◌, length};
ghost use Rattle.block_command.specs.Saved.{KeepsCommand, KeepsMoment, command_apart, fits, is_command, moment_apart, protocol_apart, put_command, put_moment, put_protocol, put_stage, stage_apart};

use super::{BlockCommand, Command, Protocol, Stage, count_from};
use saved_state::{RestoreError, Saved, SavedList, Words, save_list};
use std::alloc::{AllocError, Global};

type CommandParts = ((u8, u64, u32), (bool, bool, Protocol), (u32, bool));

type Parts = (Command, (Stage, u32), (SavedList<u8>, u64));

impl Saved for Protocol {
    ghost put = { put_protocol };

    ghost keeps = { λ _. Unit {0} };

    ghost told_apart = { protocol_apart };

    fn save(&self, words: &mut Words) -> Result<(), AllocError> {
        words.push(match self {
            Protocol::Queued => 0,
            Protocol::Dma => 1,
            Protocol::Pio => 2,
            Protocol::Verify => 3,
        })
    }

    fn restore(_alloc: Global, words: &mut Words) -> Result<Protocol, RestoreError> {
        match words.pop().ok_or(RestoreError::Short)? {
            0 => Ok(Protocol::Queued),
            1 => Ok(Protocol::Dma),
            2 => Ok(Protocol::Pio),
            3 => Ok(Protocol::Verify),
            _ => Err(RestoreError::NoSuch),
        }
    }
}

impl Saved for Stage {
    ghost put = { put_stage };

    ghost keeps = { λ _. Unit {0} };

    ghost told_apart = { stage_apart };

    fn save(&self, words: &mut Words) -> Result<(), AllocError> {
        words.push(match self {
            Stage::Waiting => 0,
            Stage::Load => 1,
            Stage::Loading => 2,
            Stage::SetUpRead => 3,
            Stage::Announce => 4,
            Stage::Sending => 5,
            Stage::SetUpWrite => 6,
            Stage::Activate => 7,
            Stage::Receiving => 8,
            Stage::Store => 9,
            Stage::Storing => 10,
            Stage::Flush => 11,
            Stage::Flushing => 12,
            Stage::End => 13,
            Stage::Fail => 14,
            Stage::Ended => 15,
        })
    }

    fn restore(_alloc: Global, words: &mut Words) -> Result<Stage, RestoreError> {
        match words.pop().ok_or(RestoreError::Short)? {
            0 => Ok(Stage::Waiting),
            1 => Ok(Stage::Load),
            2 => Ok(Stage::Loading),
            3 => Ok(Stage::SetUpRead),
            4 => Ok(Stage::Announce),
            5 => Ok(Stage::Sending),
            6 => Ok(Stage::SetUpWrite),
            7 => Ok(Stage::Activate),
            8 => Ok(Stage::Receiving),
            9 => Ok(Stage::Store),
            10 => Ok(Stage::Storing),
            11 => Ok(Stage::Flush),
            12 => Ok(Stage::Flushing),
            13 => Ok(Stage::End),
            14 => Ok(Stage::Fail),
            15 => Ok(Stage::Ended),
            _ => Err(RestoreError::NoSuch),
        }
    }
}

impl Saved for Command {
    ghost put = { put_command };

    ghost keeps = { KeepsCommand };

    ghost told_apart = { command_apart };

    fn save(&self, words: &mut Words) -> Result<(), AllocError> {
        self.auto_activate.save(words)?;
        self.block.save(words)?;
        self.protocol.save(words)?;
        self.lasting.save(words)?;
        self.write.save(words)?;
        self.count.save(words)?;
        self.lba.save(words)?;
        self.place.save(words)
    }

    fn restore(alloc: Global, words: &mut Words) -> Result<Command, RestoreError> {
        let (range, way, block) = match <CommandParts>::restore(alloc, words) {
            Ok(parts) => parts,
            Err(error) => return Err(error),
        };
        Ok(Command {
            place: range.0,
            lba: range.1,
            count: range.2,
            write: way.0,
            lasting: way.1,
            protocol: way.2,
            block: block.0,
            auto_activate: block.1,
        })
    }
}

/// Whether it is a command that a disk takes.
fn is_command(command: Command) -> bool
    ensures { result ≡ is_command command }
{
    0 < command.count
        && command.count <= 65_536
        && command.lba <= 0x1_0000_0000_0000
        && command.lba + command.count as u64 <= 0x1_0000_0000_0000
        && 512 <= command.block
        && command.block <= 8192
}

/// Whether a command can have come so far: so many sectors done, these bytes of the part, so many of them sent.
fn fits(command: Command, done: u32, bytes: &[u8], sent: u64) -> bool
    ensures { result ≡ fits command done (length bytes.now) sent }
{
    is_command(command)
        && done <= command.count
        && bytes.len() <= count_from(command, done) as usize * 512
        && sent <= bytes.len() as u64
}

impl Saved for BlockCommand {
    ghost put = { put_moment };

    ghost keeps = { KeepsMoment };

    ghost told_apart = { moment_apart };

    fn save(&self, words: &mut Words) -> Result<(), AllocError> {
        (self.sent as u64).save(words)?;
        save_list(&self.bytes, words)?;
        self.done.save(words)?;
        self.stage.save(words)?;
        self.command.save(words)
    }

    fn restore(alloc: Global, words: &mut Words) -> Result<BlockCommand, RestoreError> {
        let (command, (stage, done), (bytes, sent)) = match <Parts>::restore(alloc, words) {
            Ok(parts) => parts,
            Err(error) => return Err(error),
        };
        let bytes = bytes.into_vec();
        if !fits(command, done, &bytes, sent) {
            return Err(RestoreError::Broken);
        }
        Ok(BlockCommand {
            command,
            stage,
            done,
            bytes,
            sent: sent as usize,
        })
    }
}
