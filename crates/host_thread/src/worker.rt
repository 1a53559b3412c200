//! The host's worker.

ghost use Rattle.std.specs.Prelude.{◌≡◌, ◌<◌, [], false, length, IfOk, Ok};
ghost use Rattle.multiplier.specs.Orders.{InStampedOrder, of_port};
ghost use Rattle.std.specs.List.{list_any};
ghost use Rattle.host_thread.specs.Runs.{GoesOn, IsRun, MayWait, Same, is_open};

use crate::end::HostEnd;
use crate::host::Host;
use crate::plan::{Ended, Planned, State, is_tried_again, place_of};
use crate::tally::{Row, make_room, note, taken_on};
use fis_view::Frame;
use hba_driver::Ticket;
use host_memory::HostMemory;
use link_items::{Down, ToHost};
use ruled_links::{Full, Rx, Tx};
use runner::{Fault, Post, Who, Worker};
use std::alloc::{AllocError, Global};
use std::marker::Model;
use std::sync::Wait;

/// How often in a row a step is tried at most in one turn.
const BUDGET: u32 = 16;

/// The most requests that a driver has.
const SLOTS: u32 = 30;

/// A host with its seats and its plan, and a place for a FIS that a full link did not take.
#[derive(Drop)]
pub struct HostWorker<'a> {
    host: Host,
    frames: Rx<'a, ToHost>,
    commands: Tx<'a, Down>,
    hand: Option<Frame>,
    plan: Vec<Planned>,
    states: Vec<State>,
    /// The first request of the plan that was not given to the driver.
    next: usize,
    /// How many were taken and not polled yet.
    under_way: usize,
    /// The places of those that were taken, in order: tickets count up from 1.
    places: Vec<usize>,
    /// How many FISes of each connection were taken.
    rows: Vec<Row>,
    alloc: Global,
}

impl<'a> Model for HostWorker<'a> {
    ghost use Rattle.std.specs.Prelude.{◌≡◌};
    ghost use Rattle.host_thread.specs.Runs.{AreGiven, HostView, IsSound, count_submitted};
    ghost use Rattle.host_thread.specs.Tally.{AreCounted};

    ghost Value = { HostView };

    ghost view = { λ w. record {
      host = w.host;
      frames = w.frames;
      commands = w.commands;
      hand = w.hand;
      plan = w.plan.items;
      states = w.states.items;
    } };

    ghost invariant = { λ w. IsSound (record {
      host = w.host;
      frames = w.frames;
      commands = w.commands;
      hand = w.hand;
      plan = w.plan.items;
      states = w.states.items;
    }) × AreCounted w.rows.items w.frames.taken × AreGiven w.next w.states.items
        × (w.under_way ≡ count_submitted w.states.items) };
}

impl<'a> HostWorker<'a> {
    /// A new port and a new driver beside this memory, over links that nothing went over. No request
    /// of the plan was taken.
    pub fn new(
        alloc: Global,
        frames: Rx<'a, ToHost>,
        commands: Tx<'a, Down>,
        memory: HostMemory,
        plan: Vec<Planned>,
    ) -> Result<HostWorker<'a>, AllocError>
        requires up { frames.taken ≡ [] }
        requires down { commands.sent ≡ [] }
        ensures run { IfOk result (λ worker. IsRun memory worker) }
        ensures frames { IfOk result (λ worker. worker.frames ≡ frames.entry) }
        ensures commands { IfOk result (λ worker. worker.commands ≡ commands.entry) }
        ensures plan { IfOk result (λ worker. worker.plan ≡ plan.items) }
    {
        let states = vec![in alloc; State::Waits; plan.len()]?;
        Ok(HostWorker {
            host: Host::new(memory),
            frames,
            commands,
            hand: None,
            plan,
            states,
            next: 0,
            under_way: 0,
            places: Vec::new(alloc),
            rows: Vec::new(alloc),
            alloc,
        })
    }

    /// Takes the next FIS off its link, and counts it. Room for the count is made before.
    fn take<R: Wait>(&mut self, rt: &R) -> Result<bool, AllocError>
        ensures run { GoesOn self.old self.new }
        ensures same { Same self.old self.new }
    {
        make_room(&mut self.rows)?;
        let Some(ToHost(frame)) = self.frames.take(rt) else {
            return Ok(false);
        };
        let stamp = frame.stamp();
        if stamp.port < 15 {
            note(&mut self.rows, stamp.port, stamp.conn);
        }
        let _ = self.host.take(&frame);
        Ok(true)
    }

    /// Takes what comes next off the link, as long as there is something.
    fn take_all<R: Wait>(&mut self, rt: &R) -> Result<bool, AllocError>
        ensures run { GoesOn self.old self.new }
        ensures same { Same self.old self.new }
    {
        let mut took = false;
        for _ in 0..BUDGET {
            if !self.take(rt)? {
                break;
            }
            took = true;
        }
        Ok(took)
    }

    /// Lets the driver do the next thing that is due.
    fn tick(&mut self) -> bool
        ensures run { GoesOn self.old self.new }
        ensures same { Same self.old self.new }
    {
        self.host.tick()
    }

    /// Lets the driver do what is due.
    fn tick_all(&mut self) -> bool
        ensures run { GoesOn self.old self.new }
        ensures same { Same self.old self.new }
    {
        let mut ticked = false;
        for _ in 0..BUDGET {
            if !self.tick() {
                break;
            }
            ticked = true;
        }
        ticked
    }

    /// Asks the port for a FIS, if the hand is empty.
    fn ask(&mut self) -> Result<(), AllocError>
        ensures run { GoesOn self.old self.new }
        ensures same { Same self.old self.new }
    {
        if self.hand.is_some() {
            return Ok(());
        }
        if let Some(frame) = self.host.next_out(self.alloc)? {
            self.hand = Some(frame);
        }
        Ok(())
    }

    /// Sends the FIS in the hand. It stays there if the link is full.
    fn send<R: Wait>(&mut self, rt: &R) -> bool
        ensures run { GoesOn self.old self.new }
        ensures same { Same self.old self.new }
    {
        let Some(frame) = self.hand.take() else {
            return false;
        };
        match self.commands.send(rt, Down(frame)) {
            Ok(()) => true,
            Err(Full(Down(frame))) => {
                self.hand = Some(frame);
                false
            }
        }
    }

    /// Sends what the port has to send, as long as the link takes it.
    fn send_all<R: Wait>(&mut self, rt: &R) -> Result<bool, AllocError>
        ensures run { GoesOn self.old self.new }
        ensures same { Same self.old self.new }
    {
        let mut sent = false;
        for _ in 0..BUDGET {
            self.ask()?;
            if !self.send(rt) {
                break;
            }
            sent = true;
        }
        Ok(sent)
    }

    /// Submits the next request of the plan, if it need not wait. A request that is refused for now
    /// is tried again. Room for its place is made before.
    fn submit(&mut self) -> Result<bool, AllocError>
        ensures run { GoesOn self.old self.new }
        ensures same { Same self.old self.new }
        ensures waits { result ≡ Ok false → MayWait self.old }
    {
        let i = self.next;
        if i >= self.plan.len() {
            return Ok(false);
        }
        let planned = &self.plan[i];
        if planned.wait && self.under_way > 0 {
            return Ok(false);
        }
        self.places.reserve(1)?;
        match self.host.submit(planned.dev, &planned.request) {
            Ok(ticket) => {
                self.states[i] = State::Submitted(ticket);
                self.places.push_reserved(i);
                self.under_way += 1;
                self.next = i + 1;
                return Ok(true);
            }
            Err(refusal) => {
                if is_tried_again(refusal) {
                    return Ok(false);
                }
                self.states[i] = State::Ended(Ended::Refused(refusal));
            }
        }
        self.next = i + 1;
        Ok(true)
    }

    /// Submits the next requests of the plan, up to one that has to wait.
    fn submit_all(&mut self) -> Result<bool, AllocError>
        ensures run { GoesOn self.old self.new }
        ensures same { Same self.old self.new }
    {
        let mut submitted = false;
        for _ in 0..SLOTS {
            if !self.submit()? {
                break;
            }
            submitted = true;
        }
        Ok(submitted)
    }

    /// Where the request of this ticket is.
    fn place_under(&self, ticket: Ticket) -> usize {
        match self.places.get((ticket.0 as usize).saturating_sub(1)) {
            Some(place) => *place,
            None => 0,
        }
    }

    /// Polls a request that ended.
    fn poll(&mut self) -> bool
        ensures run { GoesOn self.old self.new }
        ensures same { Same self.old self.new }
    {
        let Some(completion) = self.host.poll() else {
            return false;
        };
        let first = self.place_under(completion.ticket);
        if let Some(i) = place_of(self.states.as_slice(), first, completion.ticket) {
            self.states[i] = State::Ended(Ended::Polled(completion.outcome));
            self.under_way -= 1;
        }
        true
    }

    /// Polls all requests that ended.
    fn poll_all(&mut self) -> bool
        ensures run { GoesOn self.old self.new }
        ensures same { Same self.old self.new }
    {
        let mut polled = false;
        for _ in 0..SLOTS {
            if !self.poll() {
                break;
            }
            polled = true;
        }
        polled
    }

    /// Tries each step as long as it moves anything, and says whether anything moved. Rings once for
    /// the multiplier if something went over a link.
    fn turn<R: Wait>(&mut self, rt: &R, post: &Post<'_>) -> Result<bool, AllocError>
        ensures run { GoesOn self.old self.new }
        ensures same { Same self.old self.new }
    {
        let took = self.take_all(rt)?;
        let ticked = self.tick_all();
        let sent = self.send_all(rt)?;
        let submitted = self.submit_all()?;
        let polled = self.poll_all();
        if took || sent {
            post.ring(Who::One);
        }
        Ok(took || ticked || sent || submitted || polled)
    }

    /// How many FISes of this connection of a device port were taken.
    pub fn taken_on(&self, port: u8, conn: u32) -> u64
        ensures { port < 15 → result ≡ length (of_port port conn self.now.frames.taken) }
    {
        taken_on(self.rows.as_slice(), port, conn)
    }

    /// Whether a request of the plan has not ended.
    pub fn is_open(&self) -> bool
        ensures { result ≡ list_any is_open self.now.states }
    {
        self.next < self.plan.len() || self.under_way > 0
    }

    /// The seats and the memory, and the plan with what became of each of its requests. What was
    /// taken is in stamped order.
    pub fn into_parts(
        self,
    ) -> (
        Rx<'a, ToHost>,
        Tx<'a, Down>,
        HostMemory,
        Vec<Planned>,
        Vec<State>,
    )
        ensures frames { result.0 ≡ self.entry.frames }
        ensures commands { result.1 ≡ self.entry.commands }
        ensures memory { result.2 ≡ self.entry.host.memory }
        ensures plan { result.3.items ≡ self.entry.plan }
        ensures states { result.4.items ≡ self.entry.states }
        ensures order { InStampedOrder self.entry.frames.taken }
    {
        let HostWorker {
            host,
            frames,
            commands,
            hand: _,
            plan,
            states,
            next: _,
            under_way: _,
            places: _,
            rows: _,
            alloc: _,
        } = self;
        (frames, commands, host.into_memory(), plan, states)
    }
}

impl<'a> Worker for HostWorker<'a> {
    type End = HostEnd<'a>;

    ghost use Rattle.std.specs.Prelude.{◌≡◌, IfSome};
    ghost use Rattle.host_thread.specs.Runs.{GoesOn, Same};

    ghost ended = { λ worker turns end. GoesOn worker end.worker × Same worker end.worker
        × IfSome end.spent (λ spent. spent.turns ≡ turns) };

    fn work<R: Wait>(mut self, rt: &R, mut post: Post<'_>) -> HostEnd<'a> {
        let mut fault = None;
        for _ in 0..u64::MAX {
            if !self.is_open() || post.spent().is_some() || !post.begins() {
                break;
            }
            match self.turn(rt, &post) {
                Ok(moved) => post.turned(rt, moved),
                Err(_) => {
                    fault = Some(Fault::OutOfMemory);
                    break;
                }
            }
        }
        post.end();
        HostEnd {
            worker: self,
            fault,
            spent: post.spent(),
        }
    }
}
