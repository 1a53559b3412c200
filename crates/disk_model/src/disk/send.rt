//! What a disk sends next.

ghost use Rattle.std.specs.Prelude.{◌≡◌, ◌+◌, ◌*◌, ◌<◌, ◌≤◌, [], drop, length, replicate, true, None, IfOk, IfSome, OnErr};
ghost use Rattle.disk_model.specs.Chunks.{activations, asks_for, chunks};
ghost use Rattle.disk_model.specs.Disks.{picked};
ghost use Rattle.disk_model.specs.Insides.{Gives, HasTurn, IsTransfer, Leads, moved, sends_after, sends_of};
ghost use Rattle.disk_model.specs.declared.disk.Transfer.TheVariants.{Read};

use super::{Disk, Reading, Transfer, Waiting, remove_tag};
use crate::answer::{Answer, activate_frame, data_frame, report_frame, setup_frame};
use crate::chunk::{Chunk, asks, chunks_of, command_fault};
use crate::plan::{DiskPlan, Order};
use crate::request::Command;
use fis_view::{Frame, Stamp};
use std::alloc::{AllocError, Global};

/// The FIS that a started read sends next.
fn reading_frame(
    alloc: Global,
    plan: &DiskPlan,
    sectors: u32,
    medium: &[u8],
    reading: Reading,
    stamp: Stamp,
) -> Result<Frame, AllocError>
    requires low { 512 ≤ plan.now.chunk }
    requires high { plan.now.chunk ≤ 8192 }
    requires medium { length medium.now ≡ 512 * sectors }
    requires transfer { IsTransfer plan.now sectors (Read reading) }
    ensures leads { IfOk result (λ f. Leads
        (sends_of plan.now medium.now reading reading.set_up) f.bytes
        (sends_after plan.now medium.now reading reading.set_up)) }
    ensures stamp { IfOk result (λ f. f.stamp ≡ stamp) }
{
    let command = reading.command;
    let chunk = Chunk::at(plan, command, reading.left);
    if reading.set_up {
        let start = (command.lba as usize + chunk.from as usize) * 512;
        let end = start + chunk.count as usize * 512;
        data_frame(alloc, &medium[start..end], stamp)
    } else {
        setup_frame(
            alloc,
            command.tag,
            512 * chunk.from,
            512 * chunk.count,
            !command.write,
            plan.auto,
            stamp,
        )
    }
}

/// The FIS with which a write asks for a chunk next.
fn asking_frame(
    alloc: Global,
    plan: &DiskPlan,
    waiting: Waiting,
    stamp: Stamp,
) -> Result<Frame, AllocError>
    requires low { 512 ≤ plan.now.chunk }
    requires high { plan.now.chunk ≤ 8192 }
    requires short { waiting.command.count ≤ 65536 }
    requires some { 0 < waiting.left }
    requires among { waiting.left ≤ chunks plan.now waiting.command }
    requires more { waiting.gone < 1 + length (activations plan.now.auto) }
    ensures leads { IfOk result (λ f. Leads
        (drop waiting.gone (asks_for plan.now waiting.command waiting.left)) f.bytes
        (drop (waiting.gone + 1) (asks_for plan.now waiting.command waiting.left))) }
    ensures stamp { IfOk result (λ f. f.stamp ≡ stamp) }
{
    let command = waiting.command;
    if waiting.gone == 0 {
        let chunk = Chunk::at(plan, command, waiting.left);
        setup_frame(
            alloc,
            command.tag,
            512 * chunk.from,
            512 * chunk.count,
            !command.write,
            plan.auto,
            stamp,
        )
    } else {
        activate_frame(alloc, stamp)
    }
}

/// A write with `left` chunks left, after `gone` FISes that ask for the first of them were sent.
pub(super) fn asked(command: Command, left: u32, gone: u8) -> Waiting
    ensures { result ≡ record { command = command; left = left; gone = gone } }
{
    Waiting {
        command,
        left,
        gone,
    }
}

pub(super) fn zeros(alloc: Global, len: u32) -> Result<Vec<u8>, AllocError>
    ensures { IfOk result (λ v. v.items ≡ replicate len 0) }
{
    vec![in alloc; 0; len as usize]
}

/// The read after its next FIS, if that is not its last.
pub(super) fn moved_on(reading: Reading) -> Reading
    requires some { 0 < reading.left }
    requires more { reading.set_up ≡ true → 1 < reading.left }
    ensures { result ≡ moved reading }
{
    let Reading {
        command,
        left,
        set_up,
    } = reading;
    if set_up {
        Reading {
            command,
            left: left - 1,
            set_up: false,
        }
    } else {
        Reading {
            command,
            left,
            set_up: true,
        }
    }
}

impl Disk {
    /// The command that starts next.
    pub(super) fn pick(&self) -> Option<Command>
        ensures { result ≡ picked self.now.plan.order self.now.now.queued }
    {
        match self.plan.order {
            Order::Oldest => self.queue.first().copied(),
            Order::Newest => self.queue.last().copied(),
        }
    }

    /// Gives the oldest answer, or else what comes next.
    pub(super) fn give_answer(
        &mut self,
        alloc: Global,
        stamp: Stamp,
    ) -> Result<Option<Frame>, AllocError>
        ensures gives { IfOk result (λ out. Gives self.old out self.new) }
        ensures stamp { IfOk result (λ out. IfSome out (λ frame. frame.stamp ≡ stamp)) }
        ensures err { OnErr result (self.new ≡ self.old) }
        ensures no_memory { OnErr result (HasTurn self.old) }
    {
        match self.answers.front() {
            Some(answer) => {
                let frame = answer.frame(alloc, self.sectors, &self.plan, stamp)?;
                self.answers.pop_front();
                Ok(Some(frame))
            }
            None => self.give_transfer(alloc, stamp),
        }
    }

    /// Gives the next FIS of a started read, if no answer waits.
    fn give_transfer(&mut self, alloc: Global, stamp: Stamp) -> Result<Option<Frame>, AllocError>
        requires { self.old.now.owed ≡ [] }
        ensures gives { IfOk result (λ out. Gives self.old out self.new) }
        ensures stamp { IfOk result (λ out. IfSome out (λ frame. frame.stamp ≡ stamp)) }
        ensures err { OnErr result (self.new ≡ self.old) }
        ensures no_memory { OnErr result (HasTurn self.old) }
    {
        let Transfer::Read(reading) = self.transfer else {
            return self.give_waiting(alloc, stamp);
        };
        let tag = reading.command.tag;
        let frame = reading_frame(
            alloc,
            &self.plan,
            self.sectors,
            self.medium.as_slice(),
            reading,
            stamp,
        )?;
        if reading.set_up && reading.left == 1 {
            self.answers.push_back_reserved(Answer::Ended(tag));
            remove_tag(&mut self.queue, tag);
            self.transfer = Transfer::Idle;
            Ok(Some(frame))
        } else {
            self.transfer = Transfer::Read(moved_on(reading));
            Ok(Some(frame))
        }
    }

    /// Asks for the next chunk of a started write, if no read runs.
    fn give_waiting(&mut self, alloc: Global, stamp: Stamp) -> Result<Option<Frame>, AllocError>
        requires owed { self.old.now.owed ≡ [] }
        requires started { self.old.now.started ≡ None }
        ensures gives { IfOk result (λ out. Gives self.old out self.new) }
        ensures stamp { IfOk result (λ out. IfSome out (λ frame. frame.stamp ≡ stamp)) }
        ensures err { OnErr result (self.new ≡ self.old) }
        ensures no_memory { OnErr result (HasTurn self.old) }
    {
        let Transfer::Write(waiting) = self.transfer else {
            return self.give_start(alloc, stamp);
        };
        if waiting.gone >= asks(&self.plan) {
            return Ok(None);
        }
        let frame = asking_frame(alloc, &self.plan, waiting, stamp)?;
        self.transfer = Transfer::Write(asked(waiting.command, waiting.left, waiting.gone + 1));
        Ok(Some(frame))
    }

    /// Starts a queued command, if nothing waits and no transfer runs, and gives its first FIS.
    fn give_start(&mut self, alloc: Global, stamp: Stamp) -> Result<Option<Frame>, AllocError>
        requires owed { self.old.now.owed ≡ [] }
        requires started { self.old.now.started ≡ None }
        requires writing { self.old.now.writing ≡ None }
        ensures gives { IfOk result (λ out. Gives self.old out self.new) }
        ensures stamp { IfOk result (λ out. IfSome out (λ frame. frame.stamp ≡ stamp)) }
        ensures err { OnErr result (self.new ≡ self.old) }
        ensures no_memory { OnErr result (HasTurn self.old) }
    {
        let Some(command) = self.pick() else {
            return Ok(None);
        };
        match command_fault(&self.plan, self.sectors, command) {
            Some(fault) => {
                let frame = report_frame(alloc, fault, stamp)?;
                self.queue.clear();
                self.fault = Some(fault);
                Ok(Some(frame))
            }
            None if command.write => {
                let left = chunks_of(&self.plan, command);
                let staged = zeros(alloc, 512 * command.count)?;
                let frame = asking_frame(alloc, &self.plan, asked(command, left, 0), stamp)?;
                self.staged = staged;
                self.transfer = Transfer::Write(asked(command, left, 1));
                Ok(Some(frame))
            }
            None => {
                let reading = Reading {
                    command,
                    left: chunks_of(&self.plan, command),
                    set_up: false,
                };
                let frame = reading_frame(
                    alloc,
                    &self.plan,
                    self.sectors,
                    self.medium.as_slice(),
                    reading,
                    stamp,
                )?;
                self.transfer = Transfer::Read(moved_on(reading));
                Ok(Some(frame))
            }
        }
    }
}
