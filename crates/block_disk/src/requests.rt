//! Commands whose requests have numbers, so that a late answer is one to nothing.

ghost use Rattle.std.specs.Prelude.{◌≡◌, ◌+◌, ◌<◌, ◌≤◌, ◌^◌, true, IfOk, IfSome, IfNone, List, None, OnErr, OnOk, Option, Some, length};
ghost use Rattle.std.specs.Result.{result_err};
ghost use Rattle.block_command.specs.Moments.{IsCommand, Moment};
ghost use Rattle.block_command.specs.Laws.{Comes, Fails, Flushes, Goes, Loads, Stores};
ghost use Rattle.block_disk.specs.Table.{at, is_under_way, keeps_data_at, may_go, starts_write_at, with_input, with_taken};
ghost use Rattle.block_disk.specs.Requests.{Queue, answer_refusal, asks, is_fis, is_out, is_request, may_send, none_queued, number_at, queue_reset, with_answer, with_asked, with_drawn, with_table};

mod saved;

use crate::commands::Commands;
use block_command::{AnswerError, BlockCommand, Command, Turn};
use std::alloc::{AllocError, Global};
use std::marker::Model;

/// The commands under way. Each request of theirs has a number that no other has had; an answer names it. What is
/// answered to a request that a reset, a plug or an error has ended is refused, whatever is at its place by then, and
/// so is an answer of another kind or length than was asked for: a refusal changes nothing.
#[derive(Drop)]
pub struct Requests {
    commands: Commands,
    out: [u64; 33],
    next: u64,
}

impl Model for Requests {
    ghost use Rattle.block_disk.specs.Requests.{Queue};

    ghost Value = { Queue };

    ghost view = { λ q. record { table = q.commands; out = q.out; next = q.next } };
}

/// Whether this is a FIS.
fn is_fis(turn: Turn) -> bool
    ensures { result ≡ is_fis turn }
{
    matches!(
        turn,
        Turn::SetUp | Turn::Announce | Turn::Data | Turn::Activate | Turn::End | Turn::Fail
    )
}

/// Whether this is a request to the caller.
fn is_request(turn: Turn) -> bool
    ensures { result ≡ is_request turn }
{
    matches!(turn, Turn::Load | Turn::Store | Turn::Flush)
}

impl Requests {
    /// No command is under way.
    pub fn new(alloc: Global) -> Result<Requests, AllocError>
        ensures { IfOk result (λ q. q ≡ none_queued) }
    {
        Ok(Requests {
            commands: Commands::new(alloc)?,
            out: [0; 33],
            next: 1,
        })
    }

    /// A command is taken, unless its place is under way.
    pub fn take(&mut self, alloc: Global, command: Command)
        requires place { command.place < 33 }
        requires is { IsCommand command }
        ensures { self.new ≡ with_table self.old (with_taken self.old.table command) }
    {
        self.commands.take(alloc, command);
    }

    /// Whether the place is under way.
    pub fn is_taken(&self, place: u8) -> bool
        requires { place < 33 }
        ensures { result ≡ is_under_way (at self.now.table place) }
    {
        self.commands.is_taken(place)
    }

    /// The command of a place.
    pub fn get(&self, place: u8) -> Option<&BlockCommand>
        requires { place < 33 }
        ensures some { IfSome result (λ command. at self.now.table place ≡ Some command.now) }
        ensures none { IfNone result (at self.now.table place ≡ None) }
    {
        self.commands.get(place)
    }

    /// The queued command whose Data are on the link.
    pub fn wire(&self) -> Option<u8>
        ensures { result ≡ self.now.table.wire }
    {
        self.commands.wire()
    }

    /// Whether what is next for a command may be done now: while a command has the wire, no other sends.
    pub fn may_go(&self, place: u8) -> bool
        requires { place < 33 }
        ensures { result ≡ may_go self.now.table place }
    {
        self.commands.may_go(place)
    }

    /// Whether what is next for a command is a request to the caller.
    pub fn asks(&self, place: u8) -> bool
        requires { place < 33 }
        ensures { result ≡ asks self.now place }
    {
        match self.commands.get(place) {
            None => false,
            Some(command) => is_request(command.turn()),
        }
    }

    /// A command starts, which takes the memory of a write.
    pub fn start(&mut self, place: u8) -> Result<(), AllocError>
        requires place { place < 33 }
        requires may { may_go self.old.table place ≡ true }
        ensures ok { OnOk result (self.new ≡ with_table self.old (with_input self.old.table place Goes)) }
        ensures err { OnErr result (self.new ≡ self.old) }
        ensures room { OnErr result (starts_write_at (at self.old.table place) ≡ true) }
    {
        self.commands.start(place)
    }

    /// Whether the FIS that is next for a command may be sent: while a command has the wire, no other sends.
    pub fn may_send(&self, place: u8) -> bool
        requires { place < 33 }
        ensures { result ≡ may_send self.now place }
    {
        match self.commands.get(place) {
            None => false,
            Some(command) => is_fis(command.turn()) && self.commands.may_go(place),
        }
    }

    /// The FIS that was next for a command was sent.
    pub fn send(&mut self, place: u8)
        requires place { place < 33 }
        requires may { may_send self.old place ≡ true }
        ensures { self.new ≡ with_table self.old (with_input self.old.table place Goes) }
    {
        self.commands.go(place);
    }

    /// The request that was next for a command is asked, and has this number. None where the numbers are used up:
    /// 2 ^ 63 requests were asked.
    pub fn ask(&mut self, place: u8) -> Option<u64>
        requires place { place < 33 }
        requires may { asks self.old place ≡ true }
        ensures some { IfSome result (λ number. number ≡ self.old.next) }
        ensures asked { IfSome result (λ number. self.new ≡ with_asked self.old place) }
        ensures none { IfNone result ((2 ^ 63 ≤ self.old.next) × (self.new ≡ self.old)) }
    {
        if self.next >= 1 << 63 {
            return None;
        }
        let number = self.next;
        self.commands.go(place);
        self.out[place as usize] = number;
        self.next = number + 1;
        Some(number)
    }

    /// A number for a request of the crate above: no other request gets it. None where the numbers are used up.
    pub fn draw(&mut self) -> Option<u64>
        ensures some { IfSome result (λ number. number ≡ self.old.next) }
        ensures drawn { IfSome result (λ number. self.new ≡ with_drawn self.old) }
        ensures none { IfNone result ((2 ^ 63 ≤ self.old.next) × (self.new ≡ self.old)) }
    {
        if self.next >= 1 << 63 {
            return None;
        }
        let number = self.next;
        self.next = number + 1;
        Some(number)
    }

    /// Data came for a command.
    pub fn came(&mut self, place: u8, part: &[u8]) -> Result<(), AllocError>
        requires { place < 33 }
        ensures ok { OnOk result (self.new ≡ with_table self.old (with_input self.old.table place (Comes part.now))) }
        ensures err { OnErr result (self.new ≡ self.old) }
        ensures room { OnErr result (keeps_data_at (at self.old.table place) part.now ≡ true) }
    {
        self.commands.came(place, part)
    }

    /// The number of the request that is out at this place.
    pub fn number(&self, place: u8) -> Option<u64>
        requires { place < 33 }
        ensures { result ≡ number_at self.now.out place }
    {
        let number = self.out[place as usize];
        if 0 < number { Some(number) } else { None }
    }

    /// The number that the next request gets. Those that were given are below it.
    pub fn next_number(&self) -> u64
        ensures { result ≡ self.now.next }
    {
        self.next
    }

    /// Whether the request of this number is out at this place.
    pub fn is_out(&self, place: u8, number: u64) -> bool
        requires { place < 33 }
        ensures { result ≡ is_out self.now.out place number }
    {
        0 < number && self.out[place as usize] == number
    }

    /// The caller gives the sectors that the request of this number asked for.
    pub fn loaded(&mut self, place: u8, number: u64, bytes: Vec<u8>) -> Result<(), AnswerError>
        requires { place < 33 }
        ensures refusal { result_err result ≡ answer_refusal self.old place number (Loads bytes.items) }
        ensures ok { OnOk result (self.new ≡ with_answer self.old place number (Loads bytes.items)) }
        ensures err { OnErr result (self.new ≡ self.old) }
    {
        if !self.is_out(place, number) {
            return Err(AnswerError::NotOut);
        }
        self.commands.loaded(place, bytes)?;
        self.out[place as usize] = 0;
        Ok(())
    }

    /// The caller stored the bytes of the request of this number.
    pub fn stored(&mut self, place: u8, number: u64) -> Result<(), AnswerError>
        requires { place < 33 }
        ensures refusal { result_err result ≡ answer_refusal self.old place number Stores }
        ensures ok { OnOk result (self.new ≡ with_answer self.old place number Stores) }
        ensures err { OnErr result (self.new ≡ self.old) }
    {
        if !self.is_out(place, number) {
            return Err(AnswerError::NotOut);
        }
        self.commands.stored(place)?;
        self.out[place as usize] = 0;
        Ok(())
    }

    /// The caller flushed its medium for the request of this number.
    pub fn flushed(&mut self, place: u8, number: u64) -> Result<(), AnswerError>
        requires { place < 33 }
        ensures refusal { result_err result ≡ answer_refusal self.old place number Flushes }
        ensures ok { OnOk result (self.new ≡ with_answer self.old place number Flushes) }
        ensures err { OnErr result (self.new ≡ self.old) }
    {
        if !self.is_out(place, number) {
            return Err(AnswerError::NotOut);
        }
        self.commands.flushed(place)?;
        self.out[place as usize] = 0;
        Ok(())
    }

    /// The caller could not do what the request of this number asked for.
    pub fn failed(&mut self, place: u8, number: u64) -> Result<(), AnswerError>
        requires { place < 33 }
        ensures refusal { result_err result ≡ answer_refusal self.old place number Fails }
        ensures ok { OnOk result (self.new ≡ with_answer self.old place number Fails) }
        ensures err { OnErr result (self.new ≡ self.old) }
    {
        if !self.is_out(place, number) {
            return Err(AnswerError::NotOut);
        }
        self.commands.failed(place)?;
        self.out[place as usize] = 0;
        Ok(())
    }

    /// All that is under way is gone: a software reset, a plug, or an error of queued commands.
    pub fn reset(&mut self)
        ensures { self.new ≡ queue_reset self.old }
    {
        self.commands.clear();
        self.out = [0; 33];
    }
}
