//! The engine.

ghost use Rattle.std.specs.Prelude.{◌≡◌, ◌<◌, ◌≤◌, ◌^◌, ◌⊎◌, ◌&&◌, true, false, IfOk, IfSome, IfNone, OnErr, OnOk, None, Option, Some, slice_index_or};
ghost use Rattle.std.specs.Result.{result_err};
ghost use Rattle.block_command.specs.Moments.{IsCommand, Moment};
ghost use Rattle.block_command.specs.Laws.{Comes, Fails, Flushes, Loads, Stores};
ghost use Rattle.block_disk.specs.Table.{is_under_way, keeps_data_at, with_input};
ghost use Rattle.block_disk.specs.Requests.{asks, with_table};
ghost use Rattle.block_queue.specs.Line.{PassesNowhere, awaits, command_at, first_below, line_answered, line_refusal, may_send, with_queue};
ghost use Rattle.block_scheduler.specs.Sets.{asks_at};
ghost use Rattle.block_scheduler.specs.Schedule.{Schedule, ends_sent, held, is_quiet, line_sent, with_line};
ghost use Rattle.block_engine.specs.Aside.{settled};
ghost use Rattle.block_engine.specs.Engine.{AsksNothing, EngineState, IsEngineFis, IsEngineStart, IsRequested, MayGo, StartsWrite, answer_refusal, answered, aside_asked, aside_due, aside_sent, aside_taken, aside_what, beside_answered, beside_failed, beside_other, beside_refusal, discarded_at, discards, done_at, done_of, done_refusal, dropped_by, engine_reset, fail_refusal, failed_at, failed_by, failure_misfit, has_part, is_asked, is_beside, is_discard, is_in_part, line, load_refusal, loaded_at, may_ask, none_engaged, on_line, or_else, place_asked, runs_at, started, stored_at, taken, what_at, what_of, with_schedule};
ghost use Rattle.block_engine.specs.declared.aside.AsideKind.TheVariants.{Flush, Discard};
ghost use Rattle.block_engine.specs.declared.aside.AsideStage.TheVariants.{Idle};

mod saved;

use crate::aside::{AsideKind, AsideStage, asks_for, is_over, is_waiting, settled};
use crate::numbers::is_number;
use crate::request::{Answer, ErrorKind, Failure, Range, Request, What};
use block_command::{AnswerError, BlockCommand, Command, Turn};
use block_scheduler::{NextFis, Scheduler};
use std::alloc::{AllocError, Global};
use std::marker::Model;

/// The FIS that goes next.
#[derive(Clone, Copy, Debug, PartialEq, Eq)]
pub enum EngineFis {
    /// One Set Device Bits FIS that says that the commands of these tags ended well.
    Ends(u32),
    /// The FIS of the command of this place.
    Of(u8),
    /// The Register FIS that ends the command beside the queue.
    Aside,
}

/// The commands of a block disk. What it asks the caller for has numbers, each given once.
#[derive(Drop)]
pub struct Engine {
    scheduler: Scheduler,
    kind: AsideKind,
    stage: AsideStage,
    ranges: Vec<Range>,
    dropped: Option<u64>,
    failures: [Option<Failure>; 33],
}

impl Model for Engine {
    ghost use Rattle.block_engine.specs.Engine.{EngineState};
    ghost use Rattle.block_engine.specs.Numbers.{AreNumbered};

    ghost Value = { EngineState };

    ghost view = { λ e. record { schedule = e.scheduler; kind = e.kind; stage = e.stage; ranges = e.ranges.items; dropped = e.dropped; failures = e.failures } };

    ghost invariant = { λ e. AreNumbered e.scheduler.line e.stage e.dropped };
}

/// What a command asks for now.
fn what_of(command: &BlockCommand) -> What
    ensures { result ≡ what_at (Some command.now) }
{
    let lba = command.part_lba();
    let count = command.part_count();
    match command.turn() {
        Turn::Load => What::Load { lba, count },
        Turn::Store => What::Store { lba, count },
        _ => What::Flush,
    }
}

/// What a command beside the queue asks for.
fn aside_what(kind: AsideKind) -> What
    ensures { result ≡ aside_what kind }
{
    match kind {
        AsideKind::Flush => What::Flush,
        AsideKind::Discard => What::Discard,
    }
}

/// Whether it discards, and asked for that.
fn is_discarding(kind: AsideKind, stage: AsideStage) -> bool
    ensures { result ≡ (is_discard kind && is_asked stage) }
{
    matches!(kind, AsideKind::Discard) && matches!(stage, AsideStage::Asked(_))
}

/// The discard that a reset drops.
fn dropped_by(kind: AsideKind, stage: AsideStage, was: Option<u64>) -> Option<u64>
    ensures { result ≡ dropped_by kind stage was }
{
    match kind {
        AsideKind::Flush => was,
        AsideKind::Discard => match stage {
            AsideStage::Asked(number) => Some(number),
            _ => was,
        },
    }
}

/// Whether the request that is out of a command is about the sectors of its part.
fn has_part(command: &BlockCommand) -> bool
    ensures { result ≡ has_part command.now }
{
    command.is_running() && (!command.command().write || command.is_storing())
}

/// Whether a sector is one of the part that is under way.
fn is_in_part(command: &BlockCommand, lba: u64) -> bool
    ensures { result ≡ is_in_part command.now lba }
{
    let first = command.part_lba();
    first <= lba && lba - first < command.part_count() as u64
}

/// Why a failure does not fit the request of a command.
fn misfit(command: &BlockCommand, failure: Failure) -> Option<AnswerError>
    ensures { result ≡ failure_misfit (Some command.now) failure }
{
    if has_part(command) && !is_in_part(command, failure.lba) {
        return Some(AnswerError::OtherSector);
    }
    let unreadable = matches!(failure.error, ErrorKind::Uncorrectable);
    if command.command().write && command.is_running() && unreadable {
        return Some(AnswerError::OtherKind);
    }
    None
}

impl Engine {
    /// No command is under way. The limit is the most bytes of payload that are held at a time; below 1 MiB, a
    /// command of a whole part never starts.
    pub fn new(alloc: Global, limit: u32) -> Result<Engine, AllocError>
        ensures { IfOk result (λ e. e ≡ none_engaged limit) }
    {
        Ok(Engine {
            scheduler: Scheduler::new(alloc, limit)?,
            kind: AsideKind::Flush,
            stage: AsideStage::Idle,
            ranges: Vec::new(alloc),
            dropped: None,
            failures: [None; 33],
        })
    }

    /// The command of a place.
    pub fn get(&self, place: u8) -> Option<&BlockCommand>
        requires { place < 33 }
        ensures some { IfSome result (λ command. command_at (line self.now) place ≡ Some command.now) }
        ensures none { IfNone result (command_at (line self.now) place ≡ None) }
    {
        self.scheduler.get(place)
    }

    /// Whether the place is under way.
    pub fn is_taken(&self, place: u8) -> bool
        requires { place < 33 }
        ensures { result ≡ is_under_way (command_at (line self.now) place) }
    {
        self.scheduler.is_taken(place)
    }

    /// Whether no command of the queue is under way, and the caller does no dropped store any more.
    pub fn is_quiet(&self) -> bool
        ensures { result ≡ is_quiet (line self.now) }
    {
        self.scheduler.is_quiet()
    }

    /// The bytes of payload that commands and dropped stores hold.
    pub fn held(&self) -> u64
        ensures value { result ≡ held (line self.now) }
        ensures bound { result ≤ self.now.schedule.limit }
    {
        self.scheduler.held()
    }

    /// The tag of the queued command that failed, until the host has read the error.
    pub fn fault(&self) -> Option<u8>
        ensures { result ≡ self.now.schedule.fault }
    {
        self.scheduler.fault()
    }

    /// The host has read the error.
    pub fn forgive(&mut self)
        ensures { self.new ≡ with_schedule self.old (record { line = line self.old; limit = self.old.schedule.limit; fault = None }) }
    {
        self.scheduler.forgive();
    }

    /// What the caller answered of the command of a place, if it failed; of place 32 also of the one beside the queue. A command
    /// that ended keeps it until another is taken.
    pub fn failure(&self, place: u8) -> Option<Failure>
        requires { place < 33 }
        ensures { result ≡ slice_index_or self.now.failures place None }
    {
        self.failures[place as usize]
    }

    /// How far the command beside the queue has come.
    pub fn stage(&self) -> AsideStage
        ensures { result ≡ self.now.stage }
    {
        self.stage
    }

    /// What the command beside the queue asks for.
    pub fn kind(&self) -> AsideKind
        ensures { result ≡ self.now.kind }
    {
        self.kind
    }

    /// The sectors that the last DATA SET MANAGEMENT discards.
    pub fn ranges(&self) -> &[Range]
        ensures { result.now ≡ self.now.ranges }
    {
        self.ranges.as_slice()
    }

    /// The bytes of the store of this number, while it is out of the command of this place. Of one that a reset dropped there are none.
    pub fn stored(&self, place: u8, number: u64) -> Option<&[u8]>
        ensures some { IfSome result (λ bytes. stored_at self.now place number ≡ Some bytes.now) }
        ensures none { IfNone result (stored_at self.now place number ≡ None) }
    {
        if place >= 33 || !is_number(self.scheduler.number(place), number) {
            return None;
        }
        let command = self.scheduler.get(place)?;
        if command.is_storing() {
            Some(command.bytes())
        } else {
            None
        }
    }

    /// The sectors of the discard of this number, while it is out. Of one that a reset dropped there are none.
    pub fn discarded(&self, number: u64) -> Option<&[Range]>
        ensures some { IfSome result (λ ranges. discarded_at self.now number ≡ Some ranges.now) }
        ensures none { IfNone result (discarded_at self.now number ≡ None) }
    {
        match self.kind {
            AsideKind::Discard if asks_for(self.stage, number) => Some(self.ranges.as_slice()),
            AsideKind::Discard | AsideKind::Flush => None,
        }
    }

    /// A command is taken, unless its place is under way. While the host has not read an error none is.
    pub fn take(&mut self, alloc: Global, command: Command)
        requires fault { self.old.schedule.fault ≡ None }
        requires place { command.place < 33 }
        requires is { IsCommand command }
        ensures { self.new ≡ taken self.old command }
    {
        if self.scheduler.is_taken(command.place) {
            return;
        }
        self.failures[command.place as usize] = None;
        self.scheduler.take(alloc, command);
    }

    /// A command beside the queue is taken that asks for a flush: FLUSH CACHE.
    pub fn take_flush(&mut self)
        requires { self.old.stage ≡ Idle }
        ensures { self.new ≡ aside_taken self.old Flush self.old.ranges }
    {
        self.kind = AsideKind::Flush;
        self.stage = AsideStage::Waiting;
        self.failures[32] = None;
    }

    /// A command beside the queue is taken that asks to discard these sectors: DATA SET MANAGEMENT.
    pub fn take_discard(&mut self, ranges: Vec<Range>)
        requires { self.old.stage ≡ Idle }
        ensures { self.new ≡ aside_taken self.old Discard ranges.items }
    {
        self.kind = AsideKind::Discard;
        self.stage = AsideStage::Waiting;
        self.failures[32] = None;
        self.ranges = ranges;
    }

    /// Whether a discard is out, or one that a reset dropped.
    fn discards(&self) -> bool
        ensures { result ≡ discards self.now }
    {
        is_discarding(self.kind, self.stage) || self.dropped.is_some()
    }

    /// Starts the command that may start next, and says its place. While a discard is out none does. A write takes
    /// the memory of its first part then, and nothing else asks for memory.
    pub fn start_next(&mut self) -> Result<Option<u8>, AllocError>
        ensures next { IfOk result (λ place. IsEngineStart self.old place) }
        ensures ok { IfOk result (λ place. self.new ≡ started self.old place) }
        ensures err { OnErr result (self.new ≡ self.old) }
        ensures room { OnErr result (StartsWrite self.old) }
    {
        if self.discards() {
            return Ok(None);
        }
        let Some(place) = self.scheduler.next_start() else {
            return Ok(None);
        };
        self.scheduler.start(place)?;
        Ok(Some(place))
    }

    /// Whether the command beside the queue is to ask, and may.
    fn may_ask(&self) -> bool
        ensures { result ≡ may_ask self.now }
    {
        is_waiting(self.stage) && self.scheduler.is_quiet() && self.dropped.is_none()
    }

    /// The command of a place asks.
    fn ask(&mut self, place: u8) -> Option<Request>
        requires place { place < 33 }
        requires may { asks (line self.old).queue place ≡ true }
        ensures number { IfSome result (λ r. r.number ≡ (line self.old).queue.next) }
        ensures place { IfSome result (λ r. r.place ≡ Some place) }
        ensures what { IfSome result (λ r. r.what ≡ what_at (command_at (line self.old) place)) }
        ensures asked { IfSome result (λ r. self.new ≡ place_asked self.old place) }
        ensures none { IfNone result ((2 ^ 63 ≤ (line self.old).queue.next) × (self.new ≡ self.old)) }
    {
        let what = match self.scheduler.get(place) {
            None => What::Flush,
            Some(command) => what_of(command),
        };
        let number = self.scheduler.ask(place)?;
        Some(Request {
            number,
            place: Some(place),
            what,
        })
    }

    /// The command beside the queue asks.
    fn ask_aside(&mut self) -> Option<Request>
        ensures number { IfSome result (λ r. r.number ≡ (line self.old).queue.next) }
        ensures place { IfSome result (λ r. r.place ≡ None) }
        ensures what { IfSome result (λ r. r.what ≡ aside_what self.old.kind) }
        ensures may { IfSome result (λ r. may_ask self.old ≡ true) }
        ensures asked { IfSome result (λ r. self.new ≡ aside_asked self.old) }
        ensures none { IfNone result ((may_ask self.old ≡ false) ⊎ (2 ^ 63 ≤ (line self.old).queue.next)) }
        ensures same { IfNone result (self.new ≡ self.old) }
    {
        if !self.may_ask() {
            return None;
        }
        let number = self.scheduler.draw()?;
        self.stage = AsideStage::Asked(number);
        Some(Request {
            number,
            place: None,
            what: aside_what(self.kind),
        })
    }

    /// The request that is next is asked: that of the oldest command that has one, or else that of the command
    /// beside the queue, once all before it are done. None where there is none, or where the numbers are used up:
    /// 2 ^ 63 were given. The bytes of a store are those of the command of its place, until it is answered.
    #[tactic(auto, using(crate::proofs::Asked::place_asks, crate::proofs::Asked::aside_asks))]
    pub fn next_request(&mut self) -> Option<Request>
        ensures { IsRequested self.old self.new result }
    {
        match self.scheduler.next_request() {
            Some(place) => self.ask(place),
            None => self.ask_aside(),
        }
    }

    /// The caller answers a request. An answer to no request that is out, of another kind or length than was asked
    /// for, or at another sector, is refused: nothing changes then, and a request that is out still waits. A request
    /// that a reset ended is out no more; but a store and a discard that it dropped are, until they are answered,
    /// since the caller may still do them.
    pub fn answer(&mut self, number: u64, answer: Answer) -> Result<(), AnswerError>
        ensures refusal { result_err result ≡ answer_refusal self.old number answer }
        ensures ok { OnOk result (self.new ≡ answered self.old number answer) }
        ensures err { OnErr result (self.new ≡ self.old) }
    {
        let place = self.scheduler.place_of(number);
        match answer {
            Answer::Loaded(bytes) => self.loaded(place, number, bytes),
            Answer::Done => self.done(place, number),
            Answer::Failed(failure) => self.failed(place, number, failure),
        }
    }

    /// The caller gives sectors.
    fn loaded(&mut self, place: Option<u8>, number: u64, bytes: Vec<u8>) -> Result<(), AnswerError>
        requires { IfSome place (λ p. p < 33) }
        ensures refusal { result_err result ≡ load_refusal self.old place number bytes.items }
        ensures ok { OnOk result (self.new ≡ loaded_at self.old place number bytes.items) }
        ensures err { OnErr result (self.new ≡ self.old) }
    {
        match place {
            Some(place) => self.scheduler.loaded(place, number, bytes),
            None => Err(self.refused(number)),
        }
    }

    /// Why the command beside the queue takes no sectors.
    fn refused(&self, number: u64) -> AnswerError
        ensures { result ≡ beside_other self.now number }
    {
        if self.is_beside(number) {
            AnswerError::OtherKind
        } else {
            AnswerError::NotOut
        }
    }

    /// The caller did what it was asked for.
    fn done(&mut self, place: Option<u8>, number: u64) -> Result<(), AnswerError>
        requires { IfSome place (λ p. p < 33) }
        ensures refusal { result_err result ≡ done_refusal self.old place number }
        ensures ok { OnOk result (self.new ≡ done_at self.old place number) }
        ensures err { OnErr result (self.new ≡ self.old) }
    {
        match place {
            Some(place) => self.done_at(place, number),
            None => self.settle(number, true),
        }
    }

    /// The caller stored or flushed.
    #[tactic(auto, using(crate::proofs::Asked::done_stores, crate::proofs::Asked::done_flushes))]
    fn done_at(&mut self, place: u8, number: u64) -> Result<(), AnswerError>
        requires { place < 33 }
        ensures refusal { result_err result ≡ line_refusal (line self.old) place number (done_of (line self.old) place number) }
        ensures ok { OnOk result (self.new ≡ on_line self.old (line_answered (line self.old) place number (done_of (line self.old) place number))) }
        ensures err { OnErr result (self.new ≡ self.old) }
    {
        match self.scheduler.stored(place, number) {
            Ok(()) => Ok(()),
            Err(_) => self.scheduler.flushed(place, number),
        }
    }

    /// The caller could not do what it was asked for.
    fn failed(
        &mut self,
        place: Option<u8>,
        number: u64,
        failure: Failure,
    ) -> Result<(), AnswerError>
        requires { IfSome place (λ p. p < 33) }
        ensures refusal { result_err result ≡ fail_refusal self.old place number failure }
        ensures ok { OnOk result (self.new ≡ failed_by self.old place number failure) }
        ensures err { OnErr result (self.new ≡ self.old) }
    {
        match place {
            Some(place) => self.failed_at(place, number, failure),
            None => self.failed_beside(number, failure),
        }
    }

    /// Why a failure does not fit the request of a place.
    fn misfit(&self, place: u8, failure: Failure) -> Option<AnswerError>
        requires { place < 33 }
        ensures { result ≡ failure_misfit (command_at (line self.now) place) failure }
    {
        match self.scheduler.get(place) {
            None => None,
            Some(command) => misfit(command, failure),
        }
    }

    /// Whether the command of a place runs.
    fn runs(&self, place: u8) -> bool
        requires { place < 33 }
        ensures { result ≡ runs_at (command_at (line self.now) place) }
    {
        match self.scheduler.get(place) {
            None => false,
            Some(command) => command.is_running(),
        }
    }

    /// The request of a place could not be done.
    fn failed_at(&mut self, place: u8, number: u64, failure: Failure) -> Result<(), AnswerError>
        requires { place < 33 }
        ensures refusal { result_err result ≡ or_else (failure_misfit (command_at (line self.old) place) failure) (line_refusal (line self.old) place number Fails) }
        ensures ok { OnOk result (self.new ≡ failed_at self.old place number failure) }
        ensures err { OnErr result (self.new ≡ self.old) }
    {
        if let Some(error) = self.misfit(place, failure) {
            return Err(error);
        }
        let own = self.runs(place);
        self.scheduler.failed(place, number)?;
        if !own {
            return Ok(());
        }
        self.failures[place as usize] = Some(failure);
        Ok(())
    }

    /// What the command beside the queue asked for could not be done.
    fn failed_beside(&mut self, number: u64, failure: Failure) -> Result<(), AnswerError>
        ensures refusal { result_err result ≡ beside_refusal self.old number }
        ensures ok { OnOk result (self.new ≡ beside_failed self.old number failure) }
        ensures err { OnErr result (self.new ≡ self.old) }
    {
        let own = asks_for(self.stage, number);
        self.settle(number, false)?;
        if !own {
            return Ok(());
        }
        self.failures[32] = Some(failure);
        Ok(())
    }

    /// Whether the number is that of the command beside the queue, or of a dropped discard.
    fn is_beside(&self, number: u64) -> bool
        ensures { result ≡ is_beside self.now number }
    {
        asks_for(self.stage, number) || is_number(self.dropped, number)
    }

    /// The request of the command beside the queue, or a dropped discard, is answered.
    fn settle(&mut self, number: u64, well: bool) -> Result<(), AnswerError>
        ensures refusal { result_err result ≡ beside_refusal self.old number }
        ensures ok { OnOk result (self.new ≡ beside_answered self.old number well) }
        ensures err { OnErr result (self.new ≡ self.old) }
    {
        if !self.is_beside(number) {
            return Err(AnswerError::NotOut);
        }
        if asks_for(self.stage, number) {
            self.stage = settled(well);
            return Ok(());
        }
        self.dropped = None;
        Ok(())
    }

    /// Data came for a command. Memory is asked for only where they are kept: they were asked for, and are no more than that.
    pub fn came(&mut self, place: u8, part: &[u8]) -> Result<(), AllocError>
        requires { place < 33 }
        ensures ok { OnOk result (self.new ≡ on_line self.old (with_queue (line self.old)
            (with_table (line self.old).queue (with_input (line self.old).queue.table place (Comes part.now))))) }
        ensures err { OnErr result (self.new ≡ self.old) }
        ensures room { OnErr result (keeps_data_at (command_at (line self.old) place) part.now ≡ true) }
    {
        self.scheduler.came(place, part)
    }

    /// Whether the end or the error of the command beside the queue may go.
    fn aside_due(&self) -> bool
        ensures { result ≡ aside_due self.now }
    {
        is_over(self.stage) && self.scheduler.wire().is_none()
    }

    /// The FIS that goes next. While a command has the link only its own is sent.
    pub fn next_fis(&self) -> Option<EngineFis>
        ensures next { IsEngineFis self.now result }
        ensures may { IfSome result (MayGo self.now) }
    {
        if self.aside_due() {
            return Some(EngineFis::Aside);
        }
        match self.scheduler.next_fis() {
            None => None,
            Some(NextFis::Ends(tags)) => Some(EngineFis::Ends(tags)),
            Some(NextFis::Alone(place)) => Some(EngineFis::Of(place)),
        }
    }

    /// The FIS that was next for a command was sent. The error of a queued command ends all of them.
    pub fn send(&mut self, place: u8)
        requires place { place < 33 }
        requires may { may_send (line self.old) place ≡ true }
        ensures { self.new ≡ with_schedule self.old (line_sent self.old.schedule place) }
    {
        self.scheduler.send(place);
    }

    /// The Set Device Bits FIS was sent that says for all tags whose end was next that they ended well.
    pub fn send_ends(&mut self)
        ensures { self.new ≡ on_line self.old (ends_sent (line self.old) 32) }
    {
        self.scheduler.send_ends();
    }

    /// The end or the error of the command beside the queue was sent.
    pub fn send_aside(&mut self)
        requires { aside_due self.old ≡ true }
        ensures { self.new ≡ aside_sent self.old }
    {
        self.stage = AsideStage::Idle;
    }

    /// All that is under way is gone: a software reset or a plug. A store or a discard that was out may still be
    /// done: its sectors are guarded until it is answered.
    pub fn reset(&mut self)
        ensures { self.new ≡ engine_reset self.old }
    {
        self.dropped = dropped_by(self.kind, self.stage, self.dropped);
        self.stage = AsideStage::Idle;
        self.failures = [None; 33];
        self.scheduler.reset();
    }
}
