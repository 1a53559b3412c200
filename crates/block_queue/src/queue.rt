//! The queue of the commands under way.

ghost use Rattle.std.specs.Prelude.{◌≡◌, ◌<◌, ◌≤◌, ◌^◌, true, IfOk, IfSome, IfNone, List, None, OnErr, OnOk, Option, Some, length};
ghost use Rattle.std.specs.Result.{result_err};
ghost use Rattle.block_command.specs.Moments.{IsCommand, Moment};
ghost use Rattle.block_command.specs.Laws.{Comes, Fails, Flushes, Goes, Loads, Stores};
ghost use Rattle.block_disk.specs.Table.{at, has_wire, is_under_way, keeps_data_at, starts_write_at, with_input};
ghost use Rattle.block_disk.specs.Requests.{asks, number_at, with_asked, with_drawn, with_table};
ghost use Rattle.block_queue.specs.Line.{IsOldest, Line, PassesNowhere, any_below, awaits, bars, command_at, first_below, first_ranks, has_bit, is_in_way, is_of, line_refusal, orphan_refusal, orphans_answered, refused_by, left_of, line_answered, line_forgets, line_gone, line_reset, line_taken, may_send, may_start, moved_back, none_in_line, orphan, share, starts, waits_for, with_queue};
ghost use Rattle.block_queue.specs.Places.{IsNoted, IsWatched, IsWatchedIn, is_watched_in, older};
ghost use Rattle.block_queue.specs.Saved.{line_of};

mod saved;

use crate::places::{first_in, with_or_without, without};
use block_command::{AnswerError, BlockCommand, Command, Turn};
use block_disk::Requests;
use std::alloc::{AllocError, Global};
use std::marker::Model;

/// A store that a reset dropped while it was out: the caller may still do it, until it is answered.
#[derive(Clone, Copy, Debug, PartialEq, Eq)]
pub struct Orphan {
    /// The first sector of its command.
    pub lba: u64,
    /// The sectors of its command.
    pub count: u32,
    /// The number of the store.
    pub number: u64,
}

/// The commands under way. A command starts once no command that was taken before it, and no dropped store, shares a
/// sector with it where one of the two writes. So of requests that are out no two do. Places at which nothing stands
/// are not in `busy`, so that nobody asks them.
#[derive(Drop)]
pub struct CommandQueue {
    requests: Requests,
    ranks: [u8; 33],
    orphans: [Option<Orphan>; 33],
    busy: u64,
}

impl Model for CommandQueue {
    ghost use Rattle.block_queue.specs.Line.{Line};
    ghost use Rattle.block_queue.specs.Places.{IsKept};

    ghost Value = { Line };

    ghost view = { λ c. record { queue = c.requests; ranks = c.ranks; orphans = c.orphans } };

    ghost invariant = { λ c. IsKept (record { queue = c.requests; ranks = c.ranks; orphans = c.orphans }) c.busy };
}

/// Whether so many sectors from one on, and so many from another on, have one in common.
fn share(lba: u64, count: u32, other: u64, many: u32) -> bool
    requires { 0 < count }
    ensures { result ≡ share lba count other many }
{
    if lba < other {
        other - lba < count as u64
    } else {
        lba - other < many as u64
    }
}

/// Whether a command is under way that is in the way of this one.
fn is_in_way(command: Command, other: &BlockCommand) -> bool
    requires { 0 < command.count }
    ensures { result ≡ is_in_way command (Some other.now) }
{
    if other.is_ended() {
        return false;
    }
    let other = other.command();
    (command.write || other.write) && share(command.lba, command.count, other.lba, other.count)
}

/// Whether a dropped store has a sector of this command.
fn bars(command: Command, orphan: Option<Orphan>) -> bool
    requires { 0 < command.count }
    ensures { result ≡ bars command orphan }
{
    match orphan {
        None => false,
        Some(orphan) => share(command.lba, command.count, orphan.lba, orphan.count),
    }
}

/// The ranks after a command was taken at this place.
fn moved_back(ranks: [u8; 33], place: u8) -> [u8; 33]
    requires { place < 33 }
    ensures { result ≡ moved_back ranks place }
{
    let last = ranks[place as usize];
    let mut moved = ranks;
    for other in 0..33usize {
        if last < ranks[other] {
            moved[other] = ranks[other] - 1;
        }
    }
    moved[place as usize] = 32;
    moved
}

/// The ranks of places at which nothing was taken.
fn first_ranks() -> [u8; 33]
    ensures { result ≡ first_ranks 33 }
{
    let mut ranks = [0; 33];
    for place in 0..33_u8 {
        ranks[place as usize] = place;
    }
    ranks
}

/// Whether this is the start.
fn is_start(turn: Turn) -> bool
    ensures { result ≡ starts turn }
{
    matches!(turn, Turn::Start)
}

/// Whether this command waits for what stands at another place.
fn waits_for(
    requests: &Requests,
    ranks: &[u8; 33],
    orphans: &[Option<Orphan>; 33],
    command: Command,
    place: u8,
    other: u8,
) -> bool
    requires place { place < 33 }
    requires other { other < 33 }
    requires some { 0 < command.count }
    ensures { result ≡ waits_for (line_of requests.now ranks.now orphans.now) command place other }
{
    let first = ranks[other as usize] < ranks[place as usize];
    let stands = match requests.get(other) {
        None => false,
        Some(other) => first && is_in_way(command, other),
    };
    stands || bars(command, orphans[other as usize])
}

/// Whether this command waits for what stands at any place.
fn must_wait(
    requests: &Requests,
    ranks: &[u8; 33],
    orphans: &[Option<Orphan>; 33],
    command: Command,
    place: u8,
) -> bool
    requires place { place < 33 }
    requires some { 0 < command.count }
    ensures { result ≡ any_below (waits_for (line_of requests.now ranks.now orphans.now) command place) 33 }
{
    for other in 0..33_u8 {
        if waits_for(requests, ranks, orphans, command, place, other) {
            return true;
        }
    }
    false
}

/// What a reset leaves of a place.
fn left_of(requests: &Requests, place: u8, was: Option<Orphan>) -> Option<Orphan>
    requires { place < 33 }
    ensures { result ≡ left_of (at requests.now.table place) (number_at requests.now.out place) was }
{
    let Some(command) = requests.get(place) else {
        return was;
    };
    let Some(number) = requests.number(place) else {
        return was;
    };
    if !command.is_storing() {
        return was;
    }
    let command = command.command();
    Some(Orphan {
        lba: command.lba,
        count: command.count,
        number,
    })
}

/// Of a place and of one that was found before, the one whose command was taken first.
fn older(ranks: &[u8; 33], found: Option<u8>, place: u8) -> u8
    requires place { place < 33 }
    requires found { IfSome found (λ p. p < 33) }
    ensures { result ≡ older ranks.now found place }
{
    match found {
        None => place,
        Some(found) => if ranks[place as usize] < ranks[found as usize] {
            place
        } else {
            found
        },
    }
}

/// Whether something stands at a place: its command is under way, or the caller is to answer a request or a dropped
/// store of it.
fn is_watched(requests: &Requests, orphans: &[Option<Orphan>; 33], place: u8) -> bool
    requires { place < 33 }
    ensures { result ≡ is_watched_in requests.now orphans.now place }
{
    requests.is_taken(place)
        || orphans[place as usize].is_some()
        || requests.number(place).is_some()
}

/// The set of the places at which something stands, once a place changed.
fn noted(requests: &Requests, orphans: &[Option<Orphan>; 33], busy: u64, place: u8) -> u64
    requires { place < 33 }
    ensures { IsNoted busy result place (is_watched_in requests.now orphans.now place) }
{
    with_or_without(busy, place, is_watched(requests, orphans, place))
}

/// The places at which something stands.
fn watched(requests: &Requests, orphans: &[Option<Orphan>; 33]) -> u64
    ensures { IsWatchedIn requests.now orphans.now result }
{
    let mut busy = 0;
    for place in 0..33_u8 {
        busy = noted(requests, orphans, busy, place);
    }
    busy
}

/// The caller answers the request of this number: a store that waits for that is no orphan any more.
fn forget(orphans: &mut [Option<Orphan>; 33], place: u8, number: u64)
    requires { place < 33 }
    ensures { orphans.new ≡ orphans_answered orphans.old place number }
{
    if let Some(orphan) = orphans[place as usize]
        && orphan.number == number
    {
        orphans[place as usize] = None;
    }
}

impl CommandQueue {
    /// No command is under way.
    pub fn new(alloc: Global) -> Result<CommandQueue, AllocError>
        ensures { IfOk result (λ l. l ≡ none_in_line) }
    {
        Ok(CommandQueue {
            requests: Requests::new(alloc)?,
            ranks: first_ranks(),
            orphans: [None; 33],
            busy: 0,
        })
    }

    /// A command is taken, unless its place is under way.
    pub fn take(&mut self, alloc: Global, command: Command)
        requires place { command.place < 33 }
        requires is { IsCommand command }
        ensures { self.new ≡ line_taken self.old command }
    {
        if self.requests.is_taken(command.place) {
            return;
        }
        self.requests.take(alloc, command);
        self.ranks = moved_back(self.ranks, command.place);
        self.busy = with_or_without(self.busy, command.place, true);
    }

    /// The places at which something stands: those whose command is under way, and those of which the caller is to
    /// answer a request or a dropped store. Bit n of the set is place n.
    pub fn busy(&self) -> u64
        ensures { IsWatched self.now result }
    {
        self.busy
    }

    /// Whether the place is under way.
    pub fn is_taken(&self, place: u8) -> bool
        requires { place < 33 }
        ensures { result ≡ is_under_way (command_at self.now place) }
    {
        self.requests.is_taken(place)
    }

    /// The command of a place.
    pub fn get(&self, place: u8) -> Option<&BlockCommand>
        requires { place < 33 }
        ensures some { IfSome result (λ command. command_at self.now place ≡ Some command.now) }
        ensures none { IfNone result (command_at self.now place ≡ None) }
    {
        self.requests.get(place)
    }

    /// The store of a place that a reset dropped, and that is not answered.
    pub fn orphan(&self, place: u8) -> Option<Orphan>
        requires { place < 33 }
        ensures { result ≡ orphan self.now place }
    {
        self.orphans[place as usize]
    }

    /// The number of the request that is out at this place.
    pub fn number(&self, place: u8) -> Option<u64>
        requires { place < 33 }
        ensures { result ≡ number_at self.now.queue.out place }
    {
        self.requests.number(place)
    }

    /// The number that the next request gets. Those that were given are below it.
    pub fn next_number(&self) -> u64
        ensures { result ≡ self.now.queue.next }
    {
        self.requests.next_number()
    }

    /// The queued command whose Data are on the link.
    pub fn wire(&self) -> Option<u8>
        ensures value { result ≡ self.now.queue.table.wire }
        ensures below { IfSome result (λ place. place < 33) }
        ensures holds { IfSome result (λ place. has_wire (command_at self.now place) ≡ true) }
    {
        self.requests.wire()
    }

    /// Whether this command waits for what stands at another place.
    fn waits_for(&self, command: Command, place: u8, other: u8) -> bool
        requires place { place < 33 }
        requires other { other < 33 }
        requires some { 0 < command.count }
        ensures { result ≡ waits_for self.now command place other }
    {
        waits_for(
            &self.requests,
            &self.ranks,
            &self.orphans,
            command,
            place,
            other,
        )
    }

    /// Whether this command waits for what stands at any place.
    fn must_wait(&self, command: Command, place: u8) -> bool
        requires place { place < 33 }
        requires some { 0 < command.count }
        ensures { result ≡ any_below (waits_for self.now command place) 33 }
    {
        let mut rest = self.busy;
        for _walked in 0..33_u8 {
            let Some(other) = first_in(rest) else {
                return false;
            };
            if self.waits_for(command, place, other) {
                return true;
            }
            rest = without(rest, other);
        }
        false
    }

    /// Whether the command of a place may start: it waits for its start, and for nothing else.
    pub fn may_start(&self, place: u8) -> bool
        requires { place < 33 }
        ensures { result ≡ may_start self.now place }
    {
        match self.requests.get(place) {
            None => false,
            Some(command) => is_start(command.turn())
                && self.orphans[place as usize].is_none()
                && !self.must_wait(command.command(), place),
        }
    }

    /// Of the places in a set, the one whose command was taken first. Bit n of the set is place n.
    pub fn oldest(&self, set: u64) -> Option<u8>
        ensures some { IfSome result (IsOldest self.now.ranks (has_bit set)) }
        ensures none { IfNone result (PassesNowhere (has_bit set)) }
    {
        let mut oldest = None;
        let mut rest = set;
        for _walked in 0..33_u8 {
            let Some(place) = first_in(rest) else {
                return oldest;
            };
            oldest = Some(older(&self.ranks, oldest, place));
            rest = without(rest, place);
        }
        oldest
    }

    /// A command starts, which takes the memory of a write.
    pub fn start(&mut self, place: u8) -> Result<(), AllocError>
        requires place { place < 33 }
        requires may { may_start self.old place ≡ true }
        ensures ok { OnOk result (self.new ≡ line_gone self.old place) }
        ensures err { OnErr result (self.new ≡ self.old) }
        ensures room { OnErr result (starts_write_at (command_at self.old place) ≡ true) }
    {
        self.requests.start(place)
    }

    /// Whether the FIS that is next for a command may be sent: while a command has the wire, no other sends.
    pub fn may_send(&self, place: u8) -> bool
        requires { place < 33 }
        ensures { result ≡ may_send self.now place }
    {
        self.requests.may_send(place)
    }

    /// The FIS that was next for a command was sent.
    pub fn send(&mut self, place: u8)
        requires place { place < 33 }
        requires may { may_send self.old place ≡ true }
        ensures { self.new ≡ line_gone self.old place }
    {
        self.requests.send(place);
        self.busy = noted(&self.requests, &self.orphans, self.busy, place);
    }

    /// Whether what is next for a command is a request to the caller. It may be asked at once.
    pub fn asks(&self, place: u8) -> bool
        requires { place < 33 }
        ensures { result ≡ asks self.now.queue place }
    {
        self.requests.asks(place)
    }

    /// The request that was next for a command is asked, and has this number. None where the numbers are used up:
    /// 2 ^ 63 requests were asked.
    pub fn ask(&mut self, place: u8) -> Option<u64>
        requires place { place < 33 }
        requires may { asks self.old.queue place ≡ true }
        ensures some { IfSome result (λ number. number ≡ self.old.queue.next) }
        ensures asked { IfSome result (λ number. self.new ≡ with_queue self.old (with_asked self.old.queue place)) }
        ensures none { IfNone result ((2 ^ 63 ≤ self.old.queue.next) × (self.new ≡ self.old)) }
    {
        self.requests.ask(place)
    }

    /// Data came for a command.
    pub fn came(&mut self, place: u8, part: &[u8]) -> Result<(), AllocError>
        requires { place < 33 }
        ensures ok { OnOk result (self.new
            ≡ with_queue self.old (with_table self.old.queue (with_input self.old.queue.table place (Comes part.now)))) }
        ensures err { OnErr result (self.new ≡ self.old) }
        ensures room { OnErr result (keeps_data_at (command_at self.old place) part.now ≡ true) }
    {
        self.requests.came(place, part)
    }

    /// Whether a dropped store of this number waits at this place for its answer.
    fn is_dropped(&self, place: u8, number: u64) -> bool
        requires { place < 33 }
        ensures { result ≡ is_of number (orphan self.now place) }
    {
        match self.orphans[place as usize] {
            None => false,
            Some(orphan) => orphan.number == number,
        }
    }

    /// Why an answer that no dropped store may get is refused.
    fn refused(&self, place: u8, number: u64) -> AnswerError
        requires { place < 33 }
        ensures { result ≡ refused_by (orphan self.now place) number }
    {
        if self.is_dropped(place, number) {
            AnswerError::OtherKind
        } else {
            AnswerError::NotOut
        }
    }

    /// A dropped store of this number is answered.
    fn settle(&mut self, place: u8, number: u64) -> Result<(), AnswerError>
        requires { place < 33 }
        ensures refusal { result_err result ≡ orphan_refusal (orphan self.old place) number Stores }
        ensures ok { OnOk result (self.new ≡ line_forgets self.old place number) }
        ensures err { OnErr result (self.new ≡ self.old) }
    {
        if !self.is_dropped(place, number) {
            return Err(AnswerError::NotOut);
        }
        forget(&mut self.orphans, place, number);
        self.busy = noted(&self.requests, &self.orphans, self.busy, place);
        Ok(())
    }

    /// The caller gives the sectors that the request of this number asked for.
    pub fn loaded(&mut self, place: u8, number: u64, bytes: Vec<u8>) -> Result<(), AnswerError>
        requires { place < 33 }
        ensures refusal { result_err result ≡ line_refusal self.old place number (Loads bytes.items) }
        ensures ok { OnOk result (self.new ≡ line_answered self.old place number (Loads bytes.items)) }
        ensures err { OnErr result (self.new ≡ self.old) }
    {
        if !self.requests.is_out(place, number) {
            return Err(self.refused(place, number));
        }
        self.requests.loaded(place, number, bytes)?;
        forget(&mut self.orphans, place, number);
        self.busy = noted(&self.requests, &self.orphans, self.busy, place);
        Ok(())
    }

    /// The caller stored the bytes of the request of this number, also where a reset dropped it.
    pub fn stored(&mut self, place: u8, number: u64) -> Result<(), AnswerError>
        requires { place < 33 }
        ensures refusal { result_err result ≡ line_refusal self.old place number Stores }
        ensures ok { OnOk result (self.new ≡ line_answered self.old place number Stores) }
        ensures err { OnErr result (self.new ≡ self.old) }
    {
        if !self.requests.is_out(place, number) {
            return self.settle(place, number);
        }
        self.requests.stored(place, number)?;
        forget(&mut self.orphans, place, number);
        self.busy = noted(&self.requests, &self.orphans, self.busy, place);
        Ok(())
    }

    /// The caller flushed its medium for the request of this number.
    pub fn flushed(&mut self, place: u8, number: u64) -> Result<(), AnswerError>
        requires { place < 33 }
        ensures refusal { result_err result ≡ line_refusal self.old place number Flushes }
        ensures ok { OnOk result (self.new ≡ line_answered self.old place number Flushes) }
        ensures err { OnErr result (self.new ≡ self.old) }
    {
        if !self.requests.is_out(place, number) {
            return Err(self.refused(place, number));
        }
        self.requests.flushed(place, number)?;
        forget(&mut self.orphans, place, number);
        self.busy = noted(&self.requests, &self.orphans, self.busy, place);
        Ok(())
    }

    /// The caller could not do what the request of this number asked for, also a store that a reset dropped.
    pub fn failed(&mut self, place: u8, number: u64) -> Result<(), AnswerError>
        requires { place < 33 }
        ensures refusal { result_err result ≡ line_refusal self.old place number Fails }
        ensures ok { OnOk result (self.new ≡ line_answered self.old place number Fails) }
        ensures err { OnErr result (self.new ≡ self.old) }
    {
        if !self.requests.is_out(place, number) {
            return self.settle(place, number);
        }
        self.requests.failed(place, number)?;
        forget(&mut self.orphans, place, number);
        self.busy = noted(&self.requests, &self.orphans, self.busy, place);
        Ok(())
    }

    /// Whether the request of this number, or the dropped store of it, is of this place.
    fn awaits(&self, place: u8, number: u64) -> bool
        requires { place < 33 }
        ensures { result ≡ awaits self.now number place }
    {
        self.requests.is_out(place, number) || self.is_dropped(place, number)
    }

    /// The place of the request of this number, or of the dropped store of it.
    pub fn place_of(&self, number: u64) -> Option<u8>
        ensures value { result ≡ first_below (awaits self.now number) 33 }
        ensures below { IfSome result (λ place. place < 33) }
    {
        let mut rest = self.busy;
        for _walked in 0..33_u8 {
            let Some(place) = first_in(rest) else {
                return None;
            };
            if self.awaits(place, number) {
                return Some(place);
            }
            rest = without(rest, place);
        }
        None
    }

    /// A number for a request of the crate above: no other request gets it. None where the numbers are used up.
    pub fn draw(&mut self) -> Option<u64>
        ensures some { IfSome result (λ number. number ≡ self.old.queue.next) }
        ensures drawn { IfSome result (λ number. self.new ≡ with_queue self.old (with_drawn self.old.queue)) }
        ensures none { IfNone result ((2 ^ 63 ≤ self.old.queue.next) × (self.new ≡ self.old)) }
    {
        self.requests.draw()
    }

    /// All that is under way is gone: a software reset, a plug, or an error of queued commands. A store that was out
    /// may still be done, so it stays as an orphan.
    pub fn reset(&mut self)
        ensures { self.new ≡ line_reset self.old }
    {
        for place in 0..33_u8 {
            self.orphans[place as usize] = left_of(
                &self.requests,
                place,
                self.orphans[place as usize],
            );
        }
        self.requests.reset();
        self.busy = watched(&self.requests, &self.orphans);
    }
}
