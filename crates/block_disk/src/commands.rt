//! The commands by place.

ghost use Rattle.std.specs.Prelude.{◌≡◌, true, ◌<◌, ◌≤◌, IfOk, IfSome, IfNone, List, None, OnErr, OnOk, Option, Some, length, replicate, slice_index_or, slice_set};
ghost use Rattle.std.specs.Result.{result_err};
ghost use Rattle.block_command.specs.Moments.{IsCommand, Moment};
ghost use Rattle.block_command.specs.Laws.{Comes, Fails, Flushes, Goes, Loads, Stores};
ghost use Rattle.block_disk.specs.Table.{Table, at, freed, has_wire, is_under_way, keeps_data_at, may_go, none_under_way, refusal_at, starts_write_at, wants_wire, wire_with, with_input, with_taken};

mod saved;

use block_command::{AnswerError, BlockCommand, Command, Turn};
use std::alloc::{AllocError, Global};
use std::marker::Model;

/// The commands under way: one at each of 32 tags, and at place 32 the one that is not queued.
#[derive(Drop)]
pub struct Commands {
    by_place: Vec<Option<BlockCommand>>,
    wire: Option<u8>,
}

impl Model for Commands {
    ghost use Rattle.std.specs.Prelude.{◌≡◌, length};
    ghost use Rattle.block_disk.specs.Table.{Table};

    ghost Value = { Table };

    ghost view = { λ c. record { places = c.by_place.items; wire = c.wire } };

    ghost invariant = { λ c. length c.by_place.items ≡ 33 };
}

/// Whether a command has the wire.
fn has_wire(command: &Option<BlockCommand>) -> bool
    ensures { result ≡ has_wire command.now }
{
    match command {
        None => false,
        Some(command) => command.holds(),
    }
}

/// Who has the wire once this place has it no more.
fn freed(wire: Option<u8>, place: u8) -> Option<u8>
    ensures { result ≡ freed wire place }
{
    match wire {
        None => None,
        Some(holder) => if holder == place { None } else { Some(holder) },
    }
}

/// Whether this needs the wire to be free: a DMA Setup, an end and an error do.
fn wants_wire(turn: Turn) -> bool
    ensures { result ≡ wants_wire turn }
{
    matches!(turn, Turn::SetUp | Turn::End | Turn::Fail)
}

impl Commands {
    /// No command is under way.
    pub fn new(alloc: Global) -> Result<Commands, AllocError>
        ensures { IfOk result (λ c. c ≡ none_under_way) }
    {
        let mut by_place = Vec::with_capacity(alloc, 33)?;
        for _ in 0..33usize {
            by_place.push(None)?;
        }
        Ok(Commands {
            by_place,
            wire: None,
        })
    }

    /// The command of a place changed.
    fn note(&mut self, place: u8)
        requires { place < 33 }
        ensures { self.new ≡ record { places = self.old.places; wire = wire_with self.old.wire place (at self.old place) } }
    {
        self.wire = if has_wire(&self.by_place[place as usize]) {
            Some(place)
        } else {
            freed(self.wire, place)
        };
    }

    /// A command is taken, unless its place is under way.
    pub fn take(&mut self, alloc: Global, command: Command)
        requires place { command.place < 33 }
        requires is { IsCommand command }
        ensures { self.new ≡ with_taken self.old command }
    {
        if self.is_taken(command.place) {
            return;
        }
        self.by_place[command.place as usize] = Some(BlockCommand::new(alloc, command));
        self.note(command.place);
    }

    /// Whether the place is under way.
    pub fn is_taken(&self, place: u8) -> bool
        requires { place < 33 }
        ensures { result ≡ is_under_way (at self.now place) }
    {
        match &self.by_place[place as usize] {
            None => false,
            Some(command) => !command.is_ended(),
        }
    }

    /// Nothing is under way any more.
    pub fn clear(&mut self)
        ensures { self.new ≡ none_under_way }
    {
        for place in 0..33usize {
            self.by_place[place] = None;
        }
        self.wire = None;
    }

    /// The command of a place.
    pub fn get(&self, place: u8) -> Option<&BlockCommand>
        requires { place < 33 }
        ensures some { IfSome result (λ command. at self.now place ≡ Some command.now) }
        ensures none { IfNone result (at self.now place ≡ None) }
    {
        self.by_place[place as usize].as_ref()
    }

    /// The caller gives the sectors that a command asked for.
    pub fn loaded(&mut self, place: u8, bytes: Vec<u8>) -> Result<(), AnswerError>
        requires { place < 33 }
        ensures refusal { result_err result ≡ refusal_at (at self.old place) (Loads bytes.items) }
        ensures ok { OnOk result (self.new ≡ with_input self.old place (Loads bytes.items)) }
        ensures err { OnErr result (self.new ≡ self.old) }
    {
        let Some(command) = &mut self.by_place[place as usize] else {
            return Err(AnswerError::NotOut);
        };
        command.loaded(bytes)?;
        self.note(place);
        Ok(())
    }

    /// The caller stored the bytes of a command.
    pub fn stored(&mut self, place: u8) -> Result<(), AnswerError>
        requires { place < 33 }
        ensures refusal { result_err result ≡ refusal_at (at self.old place) Stores }
        ensures ok { OnOk result (self.new ≡ with_input self.old place Stores) }
        ensures err { OnErr result (self.new ≡ self.old) }
    {
        let Some(command) = &mut self.by_place[place as usize] else {
            return Err(AnswerError::NotOut);
        };
        command.stored()?;
        self.note(place);
        Ok(())
    }

    /// The caller flushed its medium for a command.
    pub fn flushed(&mut self, place: u8) -> Result<(), AnswerError>
        requires { place < 33 }
        ensures refusal { result_err result ≡ refusal_at (at self.old place) Flushes }
        ensures ok { OnOk result (self.new ≡ with_input self.old place Flushes) }
        ensures err { OnErr result (self.new ≡ self.old) }
    {
        let Some(command) = &mut self.by_place[place as usize] else {
            return Err(AnswerError::NotOut);
        };
        command.flushed()?;
        self.note(place);
        Ok(())
    }

    /// The caller could not do what a command asked for.
    pub fn failed(&mut self, place: u8) -> Result<(), AnswerError>
        requires { place < 33 }
        ensures refusal { result_err result ≡ refusal_at (at self.old place) Fails }
        ensures ok { OnOk result (self.new ≡ with_input self.old place Fails) }
        ensures err { OnErr result (self.new ≡ self.old) }
    {
        let Some(command) = &mut self.by_place[place as usize] else {
            return Err(AnswerError::NotOut);
        };
        command.failed()?;
        self.note(place);
        Ok(())
    }

    /// Data came for a command.
    pub fn came(&mut self, place: u8, part: &[u8]) -> Result<(), AllocError>
        requires place { place < 33 }
        ensures ok { OnOk result (self.new ≡ with_input self.old place (Comes part.now)) }
        ensures err { OnErr result (self.new ≡ self.old) }
        ensures room { OnErr result (keeps_data_at (at self.old place) part.now ≡ true) }
    {
        if let Some(command) = &mut self.by_place[place as usize] {
            command.came(part)?;
        }
        self.note(place);
        Ok(())
    }

    /// The queued command whose Data are on the link.
    pub fn wire(&self) -> Option<u8>
        ensures { result ≡ self.now.wire }
    {
        self.wire
    }

    /// Whether what is next for a command may be done now: while a command has the wire, no other sends.
    pub fn may_go(&self, place: u8) -> bool
        requires { place < 33 }
        ensures { result ≡ may_go self.now place }
    {
        match &self.by_place[place as usize] {
            None => false,
            Some(command) => !wants_wire(command.turn()) || self.wire.is_none(),
        }
    }

    /// What was next for a command was done.
    pub fn go(&mut self, place: u8)
        requires place { place < 33 }
        requires may { may_go self.old place ≡ true }
        ensures { self.new ≡ with_input self.old place Goes }
    {
        if let Some(command) = &mut self.by_place[place as usize] {
            command.go();
        }
        self.note(place);
    }

    /// A command starts, which takes the memory of a write.
    pub fn start(&mut self, place: u8) -> Result<(), AllocError>
        requires place { place < 33 }
        requires may { may_go self.old place ≡ true }
        ensures ok { OnOk result (self.new ≡ with_input self.old place Goes) }
        ensures err { OnErr result (self.new ≡ self.old) }
        ensures room { OnErr result (starts_write_at (at self.old place) ≡ true) }
    {
        if let Some(command) = &mut self.by_place[place as usize] {
            command.start()?;
        }
        self.note(place);
        Ok(())
    }
}
