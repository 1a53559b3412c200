//! What a disk sends next, and how that is sent to nobody: for who stands before the disk and speaks for it.

ghost use Rattle.std.specs.Prelude.{ℕ, ◌≡◌, ◌≢◌, ◌<◌, List, [], ◌∷◌, None, OnErr, OnOk, Some, true};
ghost use Rattle.disk_model.specs.declared.plan.DiskPlan.{DiskPlan};
ghost use Rattle.disk_model.specs.Chunks.{fault_of};
ghost use Rattle.disk_model.specs.Disks.{Moment, read_turn};
ghost use Rattle.disk_model.specs.Histories.{Loaded};
ghost use Rattle.disk_model.specs.Insides.{sends_of};
ghost use Rattle.disk_model.specs.Quiet.{after_next, begun_with, due_by, due_in, is_at_rest, kind_of};
ghost use Rattle.disk_model.specs.Requests.{IsCounted};
ghost use Rattle.disk_model.specs.Runs.{DiskStandsFor};
ghost use Rattle.disk_model.specs.Sendings.{answer_sent};

use super::send::{asked, moved_on, zeros};
use super::{Disk, Reading, Transfer, remove_tag};
use crate::answer::{Answer, Fault};
use crate::chunk::{asks, chunks_of, command_fault};
use crate::request::Command;
use std::alloc::{AllocError, Global};

/// The kind of a FIS that a disk sends.
#[derive(Clone, Copy, Debug, PartialEq, Eq)]
pub enum Due {
    /// Register.
    Register,
    /// DMA Setup, but for the first of a write.
    Setup,
    /// The DMA Setup with which a write starts. The disk takes memory for the bytes that are to come.
    Start,
    /// DMA Activate.
    Activate,
    /// Data.
    Data,
    /// Set Device Bits without ERR: a command ended.
    Ended,
    /// Set Device Bits with ERR: a command failed.
    Failed,
    /// PIO Setup.
    Page,
}

/// The kind of an answer's FIS.
fn due_answer(answer: Answer) -> Due
    ensures { (sectors : ℕ) (plan : DiskPlan) (old new : Moment)
        → result ≡ kind_of old new (answer_sent sectors plan answer) }
{
    match answer {
        Answer::Signature | Answer::Accepted | Answer::Finished | Answer::Refused => Due::Register,
        Answer::Ended(_) => Due::Ended,
        Answer::PageFollows => Due::Page,
        Answer::PageData(_) => Due::Data,
    }
}

/// The kind of a started read's next FIS.
fn due_reading(reading: Reading) -> Due
    requires { 0 < reading.left }
    ensures { (plan : DiskPlan) (medium : List ℕ) (m : Moment)
        → due_by m (read_turn m reading.command (sends_of plan medium reading reading.set_up)) ≡ Some result }
{
    if reading.set_up {
        Due::Data
    } else {
        Due::Setup
    }
}

impl Disk {
    /// The kind of the FIS that the disk sends next, None if it has none to send.
    pub fn due(&self) -> Option<Due>
        ensures { result ≡ due_in self.now }
    {
        match self.answers.front() {
            Some(answer) => Some(due_answer(*answer)),
            None => self.due_transfer(),
        }
    }

    fn due_transfer(&self) -> Option<Due>
        requires { self.now.now.owed ≡ [] }
        ensures { result ≡ due_in self.now }
    {
        let Transfer::Read(reading) = self.transfer else {
            return self.due_waiting();
        };
        Some(due_reading(reading))
    }

    fn due_waiting(&self) -> Option<Due>
        requires owed { self.now.now.owed ≡ [] }
        requires started { self.now.now.started ≡ None }
        ensures { result ≡ due_in self.now }
    {
        let Transfer::Write(waiting) = self.transfer else {
            return self.due_start();
        };
        if waiting.gone >= asks(&self.plan) {
            None
        } else if waiting.gone == 0 {
            Some(Due::Setup)
        } else {
            Some(Due::Activate)
        }
    }

    fn due_start(&self) -> Option<Due>
        requires owed { self.now.now.owed ≡ [] }
        requires started { self.now.now.started ≡ None }
        requires writing { self.now.now.writing ≡ None }
        ensures { result ≡ due_in self.now }
    {
        let Some(command) = self.pick() else {
            return None;
        };
        match command_fault(&self.plan, self.sectors, command) {
            Some(_) => Some(Due::Failed),
            None if command.write => Some(Due::Start),
            None => Some(due_reading(Reading {
                command,
                left: chunks_of(&self.plan, command),
                set_up: false,
            })),
        }
    }

    /// What the disk sends next is sent to nobody. That takes no memory, so a write that starts is another
    /// matter: [`Disk::start`].
    pub fn drop_next(&mut self)
        requires { due_in self.old ≢ Some Due.Start }
        ensures { self.new ≡ after_next self.old }
    {
        if self.answers.pop_front().is_none() {
            self.drop_transfer();
        }
    }

    fn drop_transfer(&mut self)
        requires owed { self.old.now.owed ≡ [] }
        requires next { due_in self.old ≢ Some Due.Start }
        ensures { self.new ≡ after_next self.old }
    {
        let Transfer::Read(reading) = self.transfer else {
            self.drop_waiting();
            return;
        };
        let tag = reading.command.tag;
        if reading.set_up && reading.left == 1 {
            self.answers.push_back_reserved(Answer::Ended(tag));
            remove_tag(&mut self.queue, tag);
            self.transfer = Transfer::Idle;
        } else {
            self.transfer = Transfer::Read(moved_on(reading));
        }
    }

    fn drop_waiting(&mut self)
        requires owed { self.old.now.owed ≡ [] }
        requires started { self.old.now.started ≡ None }
        requires next { due_in self.old ≢ Some Due.Start }
        ensures { self.new ≡ after_next self.old }
    {
        let Transfer::Write(waiting) = self.transfer else {
            self.drop_start();
            return;
        };
        if waiting.gone < asks(&self.plan) {
            self.transfer = Transfer::Write(asked(waiting.command, waiting.left, waiting.gone + 1));
        }
    }

    fn drop_start(&mut self)
        requires owed { self.old.now.owed ≡ [] }
        requires started { self.old.now.started ≡ None }
        requires writing { self.old.now.writing ≡ None }
        requires next { due_in self.old ≢ Some Due.Start }
        ensures { self.new ≡ after_next self.old }
    {
        let Some(command) = self.pick() else {
            return;
        };
        match command_fault(&self.plan, self.sectors, command) {
            Some(fault) => {
                self.queue.clear();
                self.fault = Some(fault);
            }
            None if command.write => unreachable!(),
            None => {
                let reading = Reading {
                    command,
                    left: chunks_of(&self.plan, command),
                    set_up: false,
                };
                self.transfer = Transfer::Read(moved_on(reading));
            }
        }
    }

    /// The write that starts next starts, and its DMA Setup is sent to nobody.
    pub fn start(&mut self, alloc: Global) -> Result<(), AllocError>
        requires { due_in self.old ≡ Some Due.Start }
        ensures ok { OnOk result (self.new ≡ after_next self.old) }
        ensures err { OnErr result (self.new ≡ self.old) }
    {
        self.start_write(alloc)
    }

    fn start_write(&mut self, alloc: Global) -> Result<(), AllocError>
        requires owed { self.old.now.owed ≡ [] }
        requires started { self.old.now.started ≡ None }
        requires writing { self.old.now.writing ≡ None }
        requires next { due_in self.old ≡ Some Due.Start }
        ensures ok { OnOk result (self.new ≡ after_next self.old) }
        ensures err { OnErr result (self.new ≡ self.old) }
    {
        let Some(command) = self.pick() else {
            unreachable!()
        };
        match command_fault(&self.plan, self.sectors, command) {
            None if command.write => {
                let left = chunks_of(&self.plan, command);
                self.staged = zeros(alloc, 512 * command.count)?;
                self.transfer = Transfer::Write(asked(command, left, 1));
                Ok(())
            }
            _ => unreachable!(),
        }
    }

    /// Why the disk cannot do a command, None if it can.
    pub fn fault(&self, command: Command) -> Option<Fault>
        ensures { result ≡ fault_of self.now.plan self.now.sectors command }
    {
        command_fault(&self.plan, self.sectors, command)
    }

    /// Whether nothing is queued and nothing is to be sent, and the disk takes commands. Then it stands for a new disk
    /// with its sectors, whatever it did before.
    pub fn is_at_rest(&self) -> bool
        ensures rests { result ≡ is_at_rest self.now.now }
        ensures anew { result ≡ true → DiskStandsFor self.now (Loaded self.now.now.medium ∷ []) }
    {
        self.queue.is_empty()
            && self.answers.is_empty()
            && self.fault.is_none()
            && !self.resetting
            && matches!(self.transfer, Transfer::Idle)
    }

    /// A disk at rest queues a command, and the Register FIS that answers it is sent to nobody. That takes no
    /// memory.
    pub fn begin(&mut self, command: Command)
        requires rest { is_at_rest self.old.now ≡ true }
        requires count { IsCounted command }
        ensures { self.new ≡ begun_with self.old command }
    {
        match self.queue.push(command) {
            Ok(()) => {}
            Err(_) => unreachable!(),
        }
    }
}
