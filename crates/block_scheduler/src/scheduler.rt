//! What goes next.

ghost use Rattle.std.specs.Prelude.{◌≡◌, ◌&&◌, ◌<◌, ◌≤◌, ◌^◌, true, false, IfOk, IfSome, IfNone, None, OnErr, OnOk, Option, Some};
ghost use Rattle.std.specs.Result.{result_err};
ghost use Rattle.block_command.specs.Moments.{IsCommand, Moment};
ghost use Rattle.block_command.specs.Laws.{Comes, Fails, Flushes, Loads, Stores};
ghost use Rattle.block_disk.specs.Table.{is_under_way, keeps_data_at, starts_write_at, with_input};
ghost use Rattle.block_disk.specs.Requests.{asks, number_at, with_asked, with_drawn, with_table};
ghost use Rattle.block_queue.specs.Line.{IsOldest, PassesNowhere, awaits, command_at, first_below, has_bit, line_answered, line_gone, line_refusal, line_reset, line_taken, may_send, may_start, orphan, with_queue};
ghost use Rattle.block_scheduler.specs.Sets.{IsSetOf, asks_at, ends_at, turn_at};
ghost use Rattle.block_scheduler.specs.Schedule.{IsNextFis, IsNextStart, MayGo, Schedule, end_sent, ends_sent, fits, held, held_at, is_busy, is_quiet, line_sent, held_for, held_of, none_scheduled, with_line};

mod saved;

use crate::sets::{Sets, is_fail, places_of, with_place};
use block_command::{AnswerError, BlockCommand, Command, Turn};
use block_queue::{CommandQueue, Orphan, first_in, without};
use std::alloc::{AllocError, Global};
use std::marker::Model;

/// The FIS that goes next.
#[derive(Clone, Copy, Debug, PartialEq, Eq)]
pub enum NextFis {
    /// One Set Device Bits FIS that says that the commands of these tags ended well.
    Ends(u32),
    /// The FIS of the command of this place.
    Alone(u8),
}

/// The commands of a block disk, of which the oldest goes first. Those that have started hold the bytes of a part each,
/// and so do stores that a reset dropped; all together hold no more than a limit.
#[derive(Drop)]
pub struct Scheduler {
    queue: CommandQueue,
    limit: u32,
    fault: Option<u8>,
    sets: Sets,
}

impl Model for Scheduler {
    ghost use Rattle.block_scheduler.specs.Schedule.{IsKept, Schedule};

    ghost Value = { Schedule };

    ghost view = { λ s. record { line = s.queue; limit = s.limit; fault = s.fault } };

    ghost invariant = { λ s. IsKept s.queue s.limit s.sets };
}

/// What is next for the command of a place.
fn turn_of(queue: &CommandQueue, place: u8) -> Turn
    requires { place < 33 }
    ensures { result ≡ turn_at (command_at queue.now place) }
{
    match queue.get(place) {
        None => Turn::Nothing,
        Some(command) => command.turn(),
    }
}

/// Whether a set has this place.
fn has_bit(set: u64, place: u8) -> bool
    requires { place < 64 }
    ensures { result ≡ has_bit set place }
{
    set >> place & 1 == 1
}

/// The bytes that are held of so many sectors: those of a part.
fn held_of(count: u32) -> u64
    ensures value { result ≡ held_of count }
    ensures most { result ≤ 1048576 }
{
    if count < 2048 {
        count as u64 * 512
    } else {
        1_048_576
    }
}

/// The bytes that the command of a place and its dropped store hold.
fn held_at(queue: &CommandQueue, place: u8) -> u64
    requires { place < 33 }
    ensures value { result ≡ held_at queue.now place }
    ensures most { result ≤ 2097152 }
{
    let dropped = match queue.orphan(place) {
        None => 0,
        Some(orphan) => held_of(orphan.count),
    };
    let own = match queue.get(place) {
        None => 0,
        Some(command) => if command.is_running() {
            held_of(command.command().count)
        } else {
            0
        },
    };
    own + dropped
}

/// The bytes that the commands of a queue and its dropped stores hold.
fn held_in(queue: &CommandQueue) -> u64
    ensures value { result ≡ held queue.now }
    ensures most { result ≤ 69206016 }
{
    let mut held = 0;
    let mut rest = queue.busy();
    for _walked in 0..33_u8 {
        let Some(place) = first_in(rest) else {
            return held;
        };
        held += held_at(queue, place);
        rest = without(rest, place);
    }
    held
}

impl Scheduler {
    /// No command is under way. The limit is in bytes; below 1 MiB, a command of a whole part never starts.
    pub fn new(alloc: Global, limit: u32) -> Result<Scheduler, AllocError>
        ensures { IfOk result (λ s. s ≡ none_scheduled limit) }
    {
        Ok(Scheduler {
            queue: CommandQueue::new(alloc)?,
            limit,
            fault: None,
            sets: Sets::new(),
        })
    }

    /// The command of a place.
    pub fn get(&self, place: u8) -> Option<&BlockCommand>
        requires { place < 33 }
        ensures some { IfSome result (λ command. command_at self.now.line place ≡ Some command.now) }
        ensures none { IfNone result (command_at self.now.line place ≡ None) }
    {
        self.queue.get(place)
    }

    /// The store of a place that a reset dropped, and that is not answered.
    pub fn orphan(&self, place: u8) -> Option<Orphan>
        requires { place < 33 }
        ensures { result ≡ orphan self.now.line place }
    {
        self.queue.orphan(place)
    }

    /// The number of the request that is out at this place.
    pub fn number(&self, place: u8) -> Option<u64>
        requires { place < 33 }
        ensures { result ≡ number_at self.now.line.queue.out place }
    {
        self.queue.number(place)
    }

    /// The number that the next request gets. Those that were given are below it.
    pub fn next_number(&self) -> u64
        ensures { result ≡ self.now.line.queue.next }
    {
        self.queue.next_number()
    }

    /// Whether the place is under way.
    pub fn is_taken(&self, place: u8) -> bool
        requires { place < 33 }
        ensures { result ≡ is_under_way (command_at self.now.line place) }
    {
        self.queue.is_taken(place)
    }

    /// Whether the place is under way, or the caller may still do a store of it.
    fn is_busy(&self, place: u8) -> bool
        requires { place < 33 }
        ensures { result ≡ is_busy self.now.line place }
    {
        self.queue.is_taken(place) || self.queue.orphan(place).is_some()
    }

    /// Whether no command is under way, and the caller does no dropped store any more.
    pub fn is_quiet(&self) -> bool
        ensures { result ≡ is_quiet self.now.line }
    {
        let mut rest = self.queue.busy();
        for _walked in 0..33_u8 {
            let Some(place) = first_in(rest) else {
                return true;
            };
            if self.is_busy(place) {
                return false;
            }
            rest = without(rest, place);
        }
        true
    }

    /// The bytes that commands and dropped stores hold.
    pub fn held(&self) -> u64
        ensures value { result ≡ held self.now.line }
        ensures most { result ≤ 69206016 }
        ensures bound { result ≤ self.now.limit }
    {
        held_in(&self.queue)
    }

    /// Whether there is room for the command of a place.
    pub fn fits(&self, place: u8) -> bool
        requires { place < 33 }
        ensures { result ≡ fits self.now place }
    {
        match self.queue.get(place) {
            None => false,
            Some(command) => self.held() + held_of(command.command().count) <= self.limit as u64,
        }
    }

    /// A command is taken, unless its place is under way. While the host has not read an error none is.
    pub fn take(&mut self, alloc: Global, command: Command)
        requires fault { self.old.fault ≡ None }
        requires place { command.place < 33 }
        requires is { IsCommand command }
        ensures { self.new ≡ with_line self.old (line_taken self.old.line command) }
    {
        self.queue.take(alloc, command);
        let turn = turn_of(&self.queue, command.place);
        self.sets = self.sets.noted(command.place, turn);
    }

    /// The places whose commands may start.
    fn ready(&self) -> u64
        ensures { IsSetOf result (may_start self.now.line) }
    {
        let mut ready = self.sets.waiting;
        let mut rest = self.sets.waiting;
        for _walked in 0..33_u8 {
            let Some(place) = first_in(rest) else {
                return ready;
            };
            ready = with_place(ready, place, self.queue.may_start(place));
            rest = without(rest, place);
        }
        ready
    }

    /// Of the commands that may start, the one that was taken first. Mostly it is the first of those that wait for their start.
    fn oldest_ready(&self) -> Option<u8>
        ensures some { IfSome result (IsOldest self.now.line.ranks (may_start self.now.line)) }
        ensures none { IfNone result (PassesNowhere (may_start self.now.line)) }
    {
        let first = self.queue.oldest(self.sets.waiting)?;
        if self.queue.may_start(first) {
            return Some(first);
        }
        self.queue.oldest(self.ready())
    }

    /// The command that starts next: of those that may, the one that was taken first, if there is room for it. All
    /// others wait until there is.
    pub fn next_start(&self) -> Option<u8>
        ensures { IsNextStart self.now result }
    {
        let place = self.oldest_ready()?;
        if self.fits(place) { Some(place) } else { None }
    }

    /// A command starts, which takes the memory of a write.
    pub fn start(&mut self, place: u8) -> Result<(), AllocError>
        requires place { place < 33 }
        requires may { may_start self.old.line place ≡ true }
        requires fits { fits self.old place ≡ true }
        ensures ok { OnOk result (self.new ≡ with_line self.old (line_gone self.old.line place)) }
        ensures err { OnErr result (self.new ≡ self.old) }
        ensures room { OnErr result (starts_write_at (command_at self.old.line place) ≡ true) }
    {
        self.queue.start(place)?;
        let turn = turn_of(&self.queue, place);
        self.sets = self.sets.noted(place, turn);
        Ok(())
    }

    /// The command whose request is asked next: the one that was taken first.
    pub fn next_request(&self) -> Option<u8>
        ensures some { IfSome result (IsOldest self.now.line.ranks (asks_at self.now.line)) }
        ensures none { IfNone result (PassesNowhere (asks_at self.now.line)) }
    {
        self.queue.oldest(self.sets.asking)
    }

    /// The request that was next for a command is asked, and has this number. None where the numbers are used up:
    /// 2 ^ 63 requests were asked.
    pub fn ask(&mut self, place: u8) -> Option<u64>
        requires place { place < 33 }
        requires may { asks self.old.line.queue place ≡ true }
        ensures some { IfSome result (λ number. number ≡ self.old.line.queue.next) }
        ensures asked { IfSome result (λ number. self.new
            ≡ with_line self.old (with_queue self.old.line (with_asked self.old.line.queue place))) }
        ensures none { IfNone result ((2 ^ 63 ≤ self.old.line.queue.next) × (self.new ≡ self.old)) }
    {
        let number = self.queue.ask(place)?;
        let turn = turn_of(&self.queue, place);
        self.sets = self.sets.noted(place, turn);
        Some(number)
    }

    /// The FIS that goes next. While a command has the link only its own is sent.
    pub fn next_fis(&self) -> Option<NextFis>
        ensures next { IsNextFis self.now.line self.now.line.queue.table.wire result }
        ensures may { IfSome result (MayGo self.now.line) }
    {
        if let Some(holder) = self.queue.wire() {
            let sends = has_bit(self.sets.sending, holder);
            return if sends {
                Some(NextFis::Alone(holder))
            } else {
                None
            };
        }
        if self.sets.ending > 0 {
            return Some(NextFis::Ends(self.sets.ending));
        }
        let place = self.queue.oldest(self.sets.sending)?;
        Some(NextFis::Alone(place))
    }

    /// The tag of the queued command that failed, until the host has read the error. All queued commands ended with it.
    pub fn fault(&self) -> Option<u8>
        ensures { result ≡ self.now.fault }
    {
        self.fault
    }

    /// The host has read the error.
    pub fn forgive(&mut self)
        ensures { self.new ≡ record { line = self.old.line; limit = self.old.limit; fault = None } }
    {
        self.fault = None;
    }

    /// The FIS that was next for a command was sent. The error of a queued command ends all of them.
    pub fn send(&mut self, place: u8)
        requires place { place < 33 }
        requires may { may_send self.old.line place ≡ true }
        ensures { self.new ≡ line_sent self.old place }
    {
        if place < 32 && is_fail(turn_of(&self.queue, place)) {
            self.send_error(place);
        } else {
            self.send_one(place);
        }
    }

    /// The error of a queued command was sent.
    fn send_error(&mut self, tag: u8)
        requires tag { tag < 33 }
        requires may { may_send self.old.line tag ≡ true }
        ensures { self.new ≡ record { line = line_reset (line_gone self.old.line tag); limit = self.old.limit; fault = Some tag } }
    {
        self.send_one(tag);
        self.queue.reset();
        self.sets = Sets::new();
        self.fault = Some(tag);
    }

    /// A FIS was sent.
    fn send_one(&mut self, place: u8)
        requires place { place < 33 }
        requires may { may_send self.old.line place ≡ true }
        ensures { self.new ≡ with_line self.old (line_gone self.old.line place) }
    {
        self.queue.send(place);
        let turn = turn_of(&self.queue, place);
        self.sets = self.sets.noted(place, turn);
    }

    /// The end of a queued command is sent, if it is next and may be.
    fn send_end(&mut self, tag: u8)
        requires { tag < 32 }
        ensures { self.new ≡ with_line self.old (end_sent self.old.line tag) }
    {
        let ends = has_bit(self.sets.ending as u64, tag);
        if ends && self.queue.may_send(tag) {
            self.send_one(tag);
        }
    }

    /// The Set Device Bits FIS was sent that says for all tags whose end was next that they ended well.
    pub fn send_ends(&mut self)
        ensures { self.new ≡ with_line self.old (ends_sent self.old.line 32) }
    {
        let mut rest = places_of(self.sets.ending);
        for _walked in 0..33_u8 {
            let Some(tag) = first_in(rest) else {
                return;
            };
            self.send_end(tag);
            rest = without(rest, tag);
        }
    }

    /// Data came for a command.
    pub fn came(&mut self, place: u8, part: &[u8]) -> Result<(), AllocError>
        requires { place < 33 }
        ensures ok { OnOk result (self.new ≡ with_line self.old (with_queue self.old.line
            (with_table self.old.line.queue (with_input self.old.line.queue.table place (Comes part.now))))) }
        ensures err { OnErr result (self.new ≡ self.old) }
        ensures room { OnErr result (keeps_data_at (command_at self.old.line place) part.now ≡ true) }
    {
        self.queue.came(place, part)?;
        let turn = turn_of(&self.queue, place);
        self.sets = self.sets.noted(place, turn);
        Ok(())
    }

    /// The caller gives the sectors that the request of this number asked for.
    pub fn loaded(&mut self, place: u8, number: u64, bytes: Vec<u8>) -> Result<(), AnswerError>
        requires { place < 33 }
        ensures refusal { result_err result ≡ line_refusal self.old.line place number (Loads bytes.items) }
        ensures ok { OnOk result (self.new ≡ with_line self.old (line_answered self.old.line place number (Loads bytes.items))) }
        ensures err { OnErr result (self.new ≡ self.old) }
    {
        self.queue.loaded(place, number, bytes)?;
        let turn = turn_of(&self.queue, place);
        self.sets = self.sets.noted(place, turn);
        Ok(())
    }

    /// The caller stored the bytes of the request of this number, also where a reset dropped it.
    pub fn stored(&mut self, place: u8, number: u64) -> Result<(), AnswerError>
        requires { place < 33 }
        ensures refusal { result_err result ≡ line_refusal self.old.line place number Stores }
        ensures ok { OnOk result (self.new ≡ with_line self.old (line_answered self.old.line place number Stores)) }
        ensures err { OnErr result (self.new ≡ self.old) }
    {
        self.queue.stored(place, number)?;
        let turn = turn_of(&self.queue, place);
        self.sets = self.sets.noted(place, turn);
        Ok(())
    }

    /// The caller flushed its medium for the request of this number.
    pub fn flushed(&mut self, place: u8, number: u64) -> Result<(), AnswerError>
        requires { place < 33 }
        ensures refusal { result_err result ≡ line_refusal self.old.line place number Flushes }
        ensures ok { OnOk result (self.new ≡ with_line self.old (line_answered self.old.line place number Flushes)) }
        ensures err { OnErr result (self.new ≡ self.old) }
    {
        self.queue.flushed(place, number)?;
        let turn = turn_of(&self.queue, place);
        self.sets = self.sets.noted(place, turn);
        Ok(())
    }

    /// The caller could not do what the request of this number asked for, also a store that a reset dropped.
    pub fn failed(&mut self, place: u8, number: u64) -> Result<(), AnswerError>
        requires { place < 33 }
        ensures refusal { result_err result ≡ line_refusal self.old.line place number Fails }
        ensures ok { OnOk result (self.new ≡ with_line self.old (line_answered self.old.line place number Fails)) }
        ensures err { OnErr result (self.new ≡ self.old) }
    {
        self.queue.failed(place, number)?;
        let turn = turn_of(&self.queue, place);
        self.sets = self.sets.noted(place, turn);
        Ok(())
    }

    /// The place of the request of this number, or of the dropped store of it.
    pub fn place_of(&self, number: u64) -> Option<u8>
        ensures value { result ≡ first_below (awaits self.now.line number) 33 }
        ensures below { IfSome result (λ place. place < 33) }
    {
        self.queue.place_of(number)
    }

    /// A number for a request of the crate above: no other request gets it. None where the numbers are used up.
    pub fn draw(&mut self) -> Option<u64>
        ensures some { IfSome result (λ number. number ≡ self.old.line.queue.next) }
        ensures drawn { IfSome result (λ number. self.new ≡ with_line self.old (with_queue self.old.line (with_drawn self.old.line.queue))) }
        ensures none { IfNone result ((2 ^ 63 ≤ self.old.line.queue.next) × (self.new ≡ self.old)) }
    {
        self.queue.draw()
    }

    /// The queued command whose Data are on the link.
    pub fn wire(&self) -> Option<u8>
        ensures { result ≡ self.now.line.queue.table.wire }
    {
        self.queue.wire()
    }

    /// All that is under way is gone: a software reset or a plug.
    pub fn reset(&mut self)
        ensures { self.new ≡ record { line = line_reset self.old.line; limit = self.old.limit; fault = None } }
    {
        self.queue.reset();
        self.sets = Sets::new();
        self.fault = None;
    }
}
