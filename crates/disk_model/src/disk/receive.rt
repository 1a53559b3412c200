//! What a disk does with what it receives.

ghost use Rattle.std.specs.Prelude.{◌≡◌, ◌<◌, ◌++◌, ◌∷◌, [], None, OnErr, OnOk};
ghost use Rattle.disk_model.specs.Disks.{cleared, data_taken, flushed, identified, is_held as is_held_by, logged, owes, owes_alone, owes_page, queues, received, refused, with_now};
ghost use Rattle.disk_model.specs.Insides.{WantsRoom};
ghost use Rattle.disk_model.specs.Requests.{Asks, IsCounted};

use super::{Disk, Transfer, Waiting, is_queued, put_at, remove_tag};
use crate::answer::{Answer, Fault, Page};
use crate::chunk::{Chunk, asks};
use crate::request::{Command, Request};
use std::alloc::AllocError;

/// Whether SRST holds the disk in its software reset.
fn is_held(fault: Option<Fault>) -> bool
    ensures { result ≡ is_held_by fault }
{
    matches!(fault, Some(Fault::Held))
}

impl Disk {
    /// Drops all that a reset drops.
    pub(super) fn clear(&mut self)
        ensures { self.new ≡ with_now self.old (cleared self.old.now) }
    {
        self.queue.clear();
        self.answers.clear();
        self.transfer = Transfer::Idle;
        self.fault = None;
    }

    fn owe(&mut self, answer: Answer) -> Result<(), AllocError>
        ensures ok { OnOk result (self.new ≡ with_now self.old (owes self.old.now answer)) }
        ensures err { OnErr result (self.new ≡ self.old) }
        ensures no_memory { OnErr result (WantsRoom self.old.now (owes self.old.now answer)) }
    {
        self.answers.push_back(answer)?;
        Ok(())
    }

    /// Drops everything except the mark of a reset that has begun, and owes only this answer.
    fn owe_alone(&mut self, answer: Answer, fault: Option<Fault>)
        ensures { self.new ≡ with_now self.old (owes_alone self.old.now answer fault) }
    {
        self.answers.clear();
        self.answers.push_back_reserved(answer);
        self.queue.clear();
        self.transfer = Transfer::Idle;
        self.fault = fault;
    }

    fn refuse(&mut self) -> Result<(), AllocError>
        ensures ok { OnOk result (
            self.new ≡ with_now self.old (refused self.old.now self.old.now.queued)) }
        ensures err { OnErr result (self.new ≡ self.old) }
        ensures no_memory { OnErr result (
            WantsRoom self.old.now (refused self.old.now self.old.now.queued)) }
    {
        if self.queue.is_empty() {
            self.owe(Answer::Refused)
        } else {
            self.owe_alone(Answer::Refused, Some(Fault::Mixed));
            Ok(())
        }
    }

    fn enqueue(&mut self, command: Command) -> Result<(), AllocError>
        requires { IsCounted command }
        ensures ok { OnOk result (self.new ≡ with_now self.old (queues self.old.now command)) }
        ensures err { OnErr result (self.new ≡ self.old) }
        ensures no_memory { OnErr result (WantsRoom self.old.now (queues self.old.now command)) }
    {
        if is_queued(self.queue.as_slice(), command.tag) {
            return self.refuse();
        }
        self.answers.push_back(Answer::Accepted)?;
        match self.queue.push(command) {
            Ok(()) => Ok(()),
            Err(_) => {
                self.answers.pop_back();
                Err(AllocError)
            }
        }
    }

    fn flush(&mut self) -> Result<(), AllocError>
        ensures ok { OnOk result (
            self.new ≡ with_now self.old (flushed self.old.now self.old.now.queued)) }
        ensures err { OnErr result (self.new ≡ self.old) }
        ensures no_memory { OnErr result (
            WantsRoom self.old.now (flushed self.old.now self.old.now.queued)) }
    {
        if self.queue.is_empty() {
            self.owe(Answer::Finished)
        } else {
            self.refuse()
        }
    }

    /// Owes the PIO Setup of a page and the page.
    fn owe_page(&mut self, page: Page) -> Result<(), AllocError>
        ensures ok { OnOk result (self.new ≡ with_now self.old (owes_page self.old.now page)) }
        ensures err { OnErr result (self.new ≡ self.old) }
        ensures no_memory { OnErr result (WantsRoom self.old.now (owes_page self.old.now page)) }
    {
        self.answers.push_back(Answer::PageFollows)?;
        match self.answers.push_back(Answer::PageData(page)) {
            Ok(()) => Ok(()),
            Err(_) => {
                self.answers.pop_back();
                Err(AllocError)
            }
        }
    }

    fn identify(&mut self) -> Result<(), AllocError>
        ensures ok { OnOk result (
            self.new ≡ with_now self.old (identified self.old.now self.old.now.queued)) }
        ensures err { OnErr result (self.new ≡ self.old) }
        ensures no_memory { OnErr result (
            WantsRoom self.old.now (identified self.old.now self.old.now.queued)) }
    {
        if self.queue.is_empty() {
            self.owe_page(Page::Identity)
        } else {
            self.refuse()
        }
    }

    fn read_error_log(&mut self) -> Result<(), AllocError>
        ensures ok { OnOk result (
            self.new ≡ with_now self.old (logged self.old.now self.old.now.queued)) }
        ensures err { OnErr result (self.new ≡ self.old) }
        ensures no_memory { OnErr result (
            WantsRoom self.old.now (logged self.old.now self.old.now.queued)) }
    {
        if !self.queue.is_empty() {
            return self.refuse();
        }
        self.owe_page(Page::ErrorLog(self.fault))?;
        self.fault = None;
        Ok(())
    }

    /// Hears what a Register FIS asks for. In a software reset each command is dropped. In the error mode
    /// each is dropped except the read of the log.
    pub(super) fn receive(&mut self, request: Request) -> Result<(), AllocError>
        requires { Asks request }
        ensures ok { OnOk result (
            self.new ≡ with_now self.old (received self.old.now request self.old.now.fault)) }
        ensures err { OnErr result (self.new ≡ self.old) }
        ensures no_memory { OnErr result (
            WantsRoom self.old.now (received self.old.now request self.old.now.fault)) }
    {
        match request {
            Request::Reset(true) => {
                self.clear();
                self.resetting = true;
                self.fault = Some(Fault::Held);
                Ok(())
            }
            Request::Reset(false) => {
                if self.resetting {
                    self.owe(Answer::Signature)?;
                    self.resetting = false;
                    if is_held(self.fault) {
                        self.fault = None;
                    }
                }
                Ok(())
            }
            Request::ReadErrorLog if is_held(self.fault) => Ok(()),
            Request::ReadErrorLog => self.read_error_log(),
            _ if self.fault.is_some() => Ok(()),
            Request::Queue(command) => self.enqueue(command),
            Request::Flush => self.flush(),
            Request::Identify => self.identify(),
            Request::Other => self.refuse(),
        }
    }

    /// Takes the chunk that a write waits for. Other Data is dropped.
    pub(super) fn store(&mut self, bytes: &[u8]) -> Result<(), AllocError>
        ensures ok { OnOk result (
            self.new ≡ with_now self.old
            (data_taken self.old.plan self.old.now self.old.now.writing bytes.now)) }
        ensures err { OnErr result (self.new ≡ self.old) }
        ensures no_memory { OnErr result (
            WantsRoom self.old.now
            (data_taken self.old.plan self.old.now self.old.now.writing bytes.now)) }
    {
        let Transfer::Write(waiting) = self.transfer else {
            return Ok(());
        };
        let Waiting {
            command,
            left,
            gone,
        } = waiting;
        let chunk = Chunk::at(&self.plan, command, left);
        if gone < asks(&self.plan) || bytes.len() != 512 * chunk.count as usize {
            return Ok(());
        }
        let at = 512 * chunk.from as usize;
        if left == 1 {
            self.answers.push_back(Answer::Ended(command.tag))?;
            put_at(&mut self.staged, at, bytes);
            put_at(
                &mut self.medium,
                512 * command.lba as usize,
                self.staged.as_slice(),
            );
            remove_tag(&mut self.queue, command.tag);
            self.transfer = Transfer::Idle;
        } else {
            put_at(&mut self.staged, at, bytes);
            self.transfer = Transfer::Write(Waiting {
                command,
                left: left - 1,
                gone: 0,
            });
        }
        Ok(())
    }

    /// Drops what a reset drops, and owes the signature.
    pub(super) fn plug(&mut self)
        ensures { self.new ≡ with_now self.old (owes (cleared self.old.now) Answer.Signature) }
    {
        self.owe_alone(Answer::Signature, None);
    }
}
