//! A command and its stages.

ghost use Rattle.std.specs.Prelude.{◌≡◌, true, ◌+◌, ◌-◌, ◌*◌, ◌<◌, ◌≤◌, ◌^◌, [], length, IfOk, OnOk, OnErr, take, drop};
ghost use Rattle.std.specs.Result.{result_err};
ghost use Rattle.block_command.specs.Moments.{failure_fault, flush_fault, load_fault, store_fault};
ghost use Rattle.block_command.specs.Moments.{IsCommand, IsMoment, Moment, after_came, after_failed, after_flushed, after_loaded, after_stored, chunk, data_stage, first_data_stage, gone, holds, is_ended, is_queued, is_storing, is_verify, keeps_data, opening, part_count, part_len, part_lba, part_of, read_end, read_on, runs, sent_to, set_up_stage, started, starts_write, turn_of, write_on};

mod saved;

use crate::answer::AnswerError;
use std::alloc::{AllocError, Global};
use std::marker::Model;

/// How a command moves its bytes (ACS-3, 4).
#[derive(Clone, Copy, Debug, PartialEq, Eq)]
pub enum Protocol {
    /// DMA queued: READ and WRITE FPDMA QUEUED.
    Queued,
    /// DMA.
    Dma,
    /// PIO data-in and data-out.
    Pio,
    /// Non-data: the sectors are read, and none is sent.
    Verify,
}

/// A command that reads or writes sectors, as the disk took it.
#[derive(Clone, Copy, Debug, PartialEq, Eq)]
pub struct Command {
    /// Its place: its tag, 0 to 31, or 32 for the one command that is not queued.
    pub place: u8,
    /// Its first sector.
    pub lba: u64,
    /// Its sectors, 1 to 65,536.
    pub count: u32,
    /// Whether it writes.
    pub write: bool,
    /// Whether its end waits for a flush: FUA, or the write cache is off.
    pub lasting: bool,
    /// How its bytes move.
    pub protocol: Protocol,
    /// The most bytes of a Data FIS: 8,192, or those of a DRQ data block.
    pub block: u32,
    /// Whether the DMA Setup FIS of a queued write lets its first Data FIS come: no DMA Activate FIS goes before it.
    pub auto_activate: bool,
}

/// How far a command has come.
#[derive(Clone, Copy, Debug, PartialEq, Eq)]
pub enum Stage {
    /// It was taken, and waits for its start.
    Waiting,
    /// A read that is to ask for the sectors of a part.
    Load,
    /// A read that asked for them.
    Loading,
    /// A queued read whose first sectors came: its DMA Setup FIS is next.
    SetUpRead,
    /// A read by PIO whose next PIO Setup FIS is next.
    Announce,
    /// A read that sends Data.
    Sending,
    /// A queued write whose DMA Setup FIS is next.
    SetUpWrite,
    /// A write whose DMA Activate FIS, or PIO Setup FIS, is next.
    Activate,
    /// A write that waits for Data.
    Receiving,
    /// A write that has the bytes of a part, and is to ask for their store.
    Store,
    /// A write that asked for it.
    Storing,
    /// A stored write that is to ask for a flush.
    Flush,
    /// A stored write that asked for it.
    Flushing,
    /// The FIS that says its end is next.
    End,
    /// Its error is next.
    Fail,
    /// It ended, well or not.
    Ended,
}

/// What a command is to do next.
#[derive(Clone, Copy, Debug, PartialEq, Eq)]
pub enum Turn {
    /// It waits.
    Nothing,
    /// It may start.
    Start,
    /// It asks for the sectors of a part.
    Load,
    /// It sends its DMA Setup FIS.
    SetUp,
    /// It sends the PIO Setup FIS of the next DRQ data block to the host.
    Announce,
    /// It sends a Data FIS with [`BlockCommand::part`].
    Data,
    /// It asks for Data: by a DMA Activate FIS, by PIO with a PIO Setup FIS.
    Activate,
    /// It asks to store [`BlockCommand::bytes`] at [`BlockCommand::part_lba`].
    Store,
    /// It asks for a flush.
    Flush,
    /// It says that it ended well.
    End,
    /// It reports its error.
    Fail,
}

/// A command under way, with the bytes of one part of at most 1 MiB: those that the caller gave for a read, those
/// that have come so far of a write.
#[derive(Drop)]
pub struct BlockCommand {
    command: Command,
    stage: Stage,
    done: u32,
    bytes: Vec<u8>,
    sent: usize,
}

impl Model for BlockCommand {
    ghost use Rattle.block_command.specs.Moments.{IsMoment, Moment};

    ghost Value = { Moment };

    ghost view = { λ c. record { command = c.command; stage = c.stage; done = c.done; bytes = c.bytes.items; sent = c.sent } };

    ghost invariant = { λ c. IsMoment (record { command = c.command; stage = c.stage; done = c.done; bytes = c.bytes.items; sent = c.sent }) };
}

/// The bytes of the next Data FIS where so many are left of a part.
fn chunk_len(command: Command, left: usize) -> usize
    ensures { result ≡ chunk command left }
{
    if left < command.block as usize {
        left
    } else {
        command.block as usize
    }
}

/// The sectors of the part behind so many.
fn count_from(command: Command, done: u32) -> u32
    requires { done ≤ command.count }
    ensures { result ≡ part_count command done }
{
    if command.count - done < 2048 {
        command.count - done
    } else {
        2048
    }
}

/// Whether it is the protocol of queued commands.
fn is_queued(protocol: Protocol) -> bool
    ensures { result ≡ is_queued protocol }
{
    matches!(protocol, Protocol::Queued)
}

/// Where a read of this protocol goes on with the bytes of a part.
fn data_stage(protocol: Protocol) -> Stage
    ensures { result ≡ data_stage protocol }
{
    match protocol {
        Protocol::Pio => Stage::Announce,
        Protocol::Queued | Protocol::Dma | Protocol::Verify => Stage::Sending,
    }
}

/// Where a read goes on whose sectors behind so many came.
fn first_data_stage(protocol: Protocol, done: u32) -> Stage
    ensures { result ≡ first_data_stage protocol done }
{
    match protocol {
        Protocol::Queued if done == 0 => Stage::SetUpRead,
        _ => data_stage(protocol),
    }
}

/// Where a read ends.
fn read_end(protocol: Protocol) -> Stage
    ensures { result ≡ read_end protocol }
{
    match protocol {
        Protocol::Pio => Stage::Ended,
        Protocol::Queued | Protocol::Dma | Protocol::Verify => Stage::End,
    }
}

/// Where a queued write is whose DMA Setup FIS went.
fn set_up_stage(command: Command) -> Stage
    ensures { result ≡ set_up_stage command }
{
    if command.auto_activate {
        Stage::Receiving
    } else {
        Stage::Activate
    }
}

/// Where a command starts.
fn first_stage(command: Command) -> Stage
    ensures { result ≡ started command }
{
    if !command.write {
        return Stage::Load;
    }
    match command.protocol {
        Protocol::Queued => Stage::SetUpWrite,
        Protocol::Dma | Protocol::Pio | Protocol::Verify => Stage::Activate,
    }
}

impl BlockCommand {
    /// A command that was just taken. It has no memory yet.
    pub fn new(alloc: Global, command: Command) -> BlockCommand
        requires { IsCommand command }
        ensures { result ≡ opening command }
    {
        BlockCommand {
            command,
            stage: Stage::Waiting,
            done: 0,
            bytes: Vec::new(alloc),
            sent: 0,
        }
    }

    /// The command.
    pub fn command(&self) -> Command
        ensures value { result ≡ self.now.command }
        ensures is { IsCommand result }
    {
        self.command
    }

    /// What is next.
    pub fn turn(&self) -> Turn
        ensures { result ≡ turn_of self.now.stage }
    {
        match self.stage {
            Stage::Waiting => Turn::Start,
            Stage::Load => Turn::Load,
            Stage::SetUpRead | Stage::SetUpWrite => Turn::SetUp,
            Stage::Announce => Turn::Announce,
            Stage::Sending => Turn::Data,
            Stage::Activate => Turn::Activate,
            Stage::Store => Turn::Store,
            Stage::Flush => Turn::Flush,
            Stage::End => Turn::End,
            Stage::Fail => Turn::Fail,
            Stage::Loading | Stage::Receiving | Stage::Storing | Stage::Flushing | Stage::Ended =>
                Turn::Nothing,
        }
    }

    /// Whether it has told its host how it ended: its tag is free.
    pub fn is_ended(&self) -> bool
        ensures { result ≡ is_ended self.now.stage }
    {
        matches!(self.stage, Stage::Ended)
    }

    /// Whether it started and has not ended.
    pub fn is_running(&self) -> bool
        ensures { result ≡ runs self.now.stage }
    {
        !matches!(self.stage, Stage::Waiting | Stage::Ended)
    }

    /// Whether it asked to store a part, and was not answered.
    pub fn is_storing(&self) -> bool
        ensures { result ≡ is_storing self.now.stage }
    {
        matches!(self.stage, Stage::Storing)
    }

    /// Whether the Data on the link are its own: it is queued, its DMA Setup FIS went, and not all of its Data.
    pub fn holds(&self) -> bool
        ensures { result ≡ holds self.now }
    {
        if !is_queued(self.command.protocol) {
            return false;
        }
        match self.stage {
            Stage::Announce | Stage::Sending | Stage::Activate | Stage::Receiving => true,
            Stage::Waiting | Stage::Load | Stage::Loading => 0 < self.done,
            Stage::Store | Stage::Storing => self.done + count_from(self.command, self.done)
                < self.command.count,
            _ => false,
        }
    }

    /// The first sector of the part that is under way.
    pub fn part_lba(&self) -> u64
        ensures { result ≡ part_lba self.now }
    {
        self.command.lba + self.done as u64
    }

    /// The sectors of the part that is under way: those of a load.
    pub fn part_count(&self) -> u32
        ensures { result ≡ part_count self.now.command self.now.done }
    {
        count_from(self.command, self.done)
    }

    /// The bytes of the part that is under way: those of a store, lent.
    pub fn bytes(&self) -> &[u8]
        ensures { result.now ≡ self.now.bytes }
    {
        self.bytes.as_slice()
    }

    /// The bytes of its next Data FIS, lent.
    pub fn part(&self) -> &[u8]
        ensures { result.now ≡ part_of self.now }
    {
        let end = self.sent + chunk_len(self.command, self.bytes.len() - self.sent);
        &self.bytes[self.sent..end]
    }

    /// It starts. A write's memory is taken here, so that no Data FIS is refused for want of it.
    pub fn start(&mut self) -> Result<(), AllocError>
        ensures ok { OnOk result (self.new ≡ gone self.old self.old.stage) }
        ensures err { OnErr result (self.new ≡ self.old) }
        ensures room { OnErr result (starts_write self.old self.old.stage ≡ true) }
    {
        if let Stage::Waiting = self.stage {
            if self.command.write {
                let len = count_from(self.command, self.done) as usize * 512;
                self.bytes.reserve_exact(len)?;
            }
        }
        self.go();
        Ok(())
    }

    /// What was next was done.
    pub fn go(&mut self)
        ensures { self.new ≡ gone self.old self.old.stage }
    {
        match self.stage {
            Stage::Waiting => self.stage = first_stage(self.command),
            Stage::Load => self.stage = Stage::Loading,
            Stage::SetUpRead | Stage::Announce => self.stage = Stage::Sending,
            Stage::Sending => self.sent_part(),
            Stage::SetUpWrite => self.stage = set_up_stage(self.command),
            Stage::Activate => self.stage = Stage::Receiving,
            Stage::Store => self.stage = Stage::Storing,
            Stage::Flush => self.stage = Stage::Flushing,
            Stage::End | Stage::Fail => self.stage = Stage::Ended,
            Stage::Loading | Stage::Receiving | Stage::Storing | Stage::Flushing | Stage::Ended =>
                {}
        }
    }

    /// A Data FIS was sent.
    fn sent_part(&mut self)
        ensures { self.new ≡ sent_to self.old (self.old.sent + chunk self.old.command (length self.old.bytes - self.old.sent)) }
    {
        let sent = self.sent + chunk_len(self.command, self.bytes.len() - self.sent);
        if sent < self.bytes.len() {
            self.sent = sent;
            self.stage = data_stage(self.command.protocol);
        } else {
            self.read_on();
        }
    }

    /// All of the part of a read is done.
    fn read_on(&mut self)
        ensures { self.new ≡ read_on self.old (self.old.done + part_count self.old.command self.old.done) }
    {
        let done = self.done + count_from(self.command, self.done);
        self.done = done;
        self.bytes.clear();
        // (the next part comes with memory of its own)
        self.bytes.shrink_to_fit();
        self.sent = 0;
        self.stage = if done < self.command.count {
            Stage::Load
        } else {
            read_end(self.command.protocol)
        };
    }

    /// The caller gives the sectors. Where none were asked for, or another number of them, it is refused, and the
    /// command waits on.
    pub fn loaded(&mut self, bytes: Vec<u8>) -> Result<(), AnswerError>
        ensures refusal { result_err result ≡ load_fault self.old self.old.stage bytes.items }
        ensures after { self.new ≡ after_loaded self.old self.old.stage bytes.items }
        ensures err { OnErr result (self.new ≡ self.old) }
    {
        let Stage::Loading = self.stage else {
            return Err(AnswerError::OtherKind);
        };
        if bytes.len() != self.part_count() as usize * 512 {
            return Err(AnswerError::OtherLength);
        }
        if let Protocol::Verify = self.command.protocol {
            self.read_on();
        } else {
            self.bytes = bytes;
            self.stage = first_data_stage(self.command.protocol, self.done);
        }
        Ok(())
    }

    /// A Data FIS came. One that was not asked for is dropped; one that has more than was asked for is an error of
    /// the command.
    pub fn came(&mut self, part: &[u8]) -> Result<(), AllocError>
        ensures ok { OnOk result (self.new ≡ after_came self.old self.old.stage part.now) }
        ensures err { OnErr result (self.new ≡ self.old) }
        ensures room { OnErr result (keeps_data self.old self.old.stage part.now ≡ true) }
    {
        let whole = self.part_count() as usize * 512;
        let Stage::Receiving = self.stage else {
            return Ok(());
        };
        if chunk_len(self.command, whole - self.bytes.len()) < part.len() {
            self.stage = Stage::Fail;
            return Ok(());
        }
        self.bytes.extend_from_slice(part)?;
        self.stage = if self.bytes.len() < whole {
            Stage::Activate
        } else {
            Stage::Store
        };
        Ok(())
    }

    /// All bytes of the part of a write are stored.
    fn write_on(&mut self)
        ensures { self.new ≡ write_on self.old (self.old.done + part_count self.old.command self.old.done) }
    {
        let done = self.done + count_from(self.command, self.done);
        self.done = done;
        self.bytes.clear();
        if done >= self.command.count {
            self.bytes.shrink_to_fit();
        }
        self.sent = 0;
        self.stage = if done < self.command.count {
            Stage::Activate
        } else if self.command.lasting {
            Stage::Flush
        } else {
            Stage::End
        };
    }

    /// The caller stored the bytes. Refused where it was not asked for that.
    pub fn stored(&mut self) -> Result<(), AnswerError>
        ensures refusal { result_err result ≡ store_fault self.old.stage }
        ensures after { self.new ≡ after_stored self.old self.old.stage }
        ensures err { OnErr result (self.new ≡ self.old) }
    {
        let Stage::Storing = self.stage else {
            return Err(AnswerError::OtherKind);
        };
        self.write_on();
        Ok(())
    }

    /// The caller flushed its medium. Refused where it was not asked for that.
    pub fn flushed(&mut self) -> Result<(), AnswerError>
        ensures refusal { result_err result ≡ flush_fault self.old.stage }
        ensures after { self.new ≡ after_flushed self.old self.old.stage }
        ensures err { OnErr result (self.new ≡ self.old) }
    {
        let Stage::Flushing = self.stage else {
            return Err(AnswerError::OtherKind);
        };
        self.stage = Stage::End;
        Ok(())
    }

    /// The caller could not do what it was asked for. Refused where it was asked for nothing.
    pub fn failed(&mut self) -> Result<(), AnswerError>
        ensures refusal { result_err result ≡ failure_fault self.old.stage }
        ensures after { self.new ≡ after_failed self.old self.old.stage }
        ensures err { OnErr result (self.new ≡ self.old) }
    {
        let (Stage::Loading | Stage::Storing | Stage::Flushing) = self.stage else {
            return Err(AnswerError::OtherKind);
        };
        self.stage = Stage::Fail;
        Ok(())
    }
}
