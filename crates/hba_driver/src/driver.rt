//! The driver.

ghost use Rattle.std.specs.Prelude.{◌≡◌, ◌-◌, false, true, length, IfOk, IfSome, OnErr, Some};
ghost use Rattle.std.specs.List.{list_all};
ghost use Rattle.std.specs.Result.{result_err};
ghost use Rattle.hba_driver.specs.Drivers.{IsSound, new_driver, new_driver_in};
ghost use Rattle.hba_driver.specs.Effects.{ActsAll, is_effect};
ghost use Rattle.hba_driver.specs.Requests.{in_use as in_use_of, room_refusal as room_refusal_of};
ghost use Rattle.hba_driver.specs.Sights.{file_shown, sight_of};
ghost use Rattle.hba_driver.specs.Submits.{Takes, after_poll, completion_of, end_of as end_of_memory, other_refusal as other_refusal_of, submit_refusal};
ghost use Rattle.hba_driver.specs.Ticks.{Rests, acted as acted_of, acts, after_tick, due as due_of, effects, effects_due, seen};
ghost use Rattle.hba_driver.specs.Turns.{IsAct};

use crate::effect::table_of;
use crate::mode::Mode;
use crate::path::TaskFile;
use crate::plan::Plan;
use crate::refusal::shape_refusal;
use crate::request::{Completion, Request, SubmitError, Ticket};
use crate::scan::{
    apply, are_blocked, are_used, end_done, end_logged, has_other, have_conflict, lowest_free,
};
use crate::sight::Sight;
use crate::slot::{Head, Phase, share_bytes};
use crate::span::have_overlap;
use crate::taken::Slots;
use crate::turn::Act;
use hba_commands::write_command;
use hba_fbs::HostPort;
use host_memory::{CLIENT_START, HostMemory};
use std::marker::Model;

/// The size of the driver's own buffer in bytes. It is the start of the client area.
const BUFFER_LEN: u32 = 0x200;

/// A driver.
#[derive(Drop)]
pub struct Driver {
    plan: Plan,
    /// The last ticket that was given.
    given: u32,
    slots: Slots,
}

impl Model for Driver {
    ghost use Rattle.hba_driver.specs.Drivers.{Driver, IsSound};

    ghost Value = { Driver };

    ghost view = { λ d. record { plan = d.plan; given = d.given; entries = d.slots } };

    ghost invariant = { λ d. IsSound (record { plan = d.plan; given = d.given; entries = d.slots }) };
}

impl Driver {
    /// A driver that has done nothing yet. Its first ticket is 1.
    pub fn new() -> Driver
        ensures { result ≡ new_driver 0 }
    {
        Driver::with_next_ticket(1)
    }

    /// A driver that has done nothing yet. Its first ticket is `ticket`, or 1 for 0.
    pub fn with_next_ticket(ticket: u32) -> Driver
        ensures { result ≡ new_driver (ticket - 1) }
    {
        Driver::with_mode(Mode::Switching, ticket)
    }

    /// The same for a port that tells devices apart in this way.
    pub fn with_mode(mode: Mode, ticket: u32) -> Driver
        ensures { result ≡ new_driver_in mode (ticket - 1) }
    {
        Driver {
            plan: Plan::new(mode),
            given: ticket.saturating_sub(1),
            slots: Slots::empty(),
        }
    }

    /// The rules that hold for every driver. The call has no effect.
    pub fn keeps_rules(&self)
        ensures { IsSound self.now }
    {
        // Read, so that what its type says of it is known here.
        let _ = &self.plan;
    }

    // What an act leaves of the driver; PxTFD shows this task file after it.
    fn act(&mut self, act: Act, file: TaskFile)
        requires { IsAct act }
        ensures { self.new ≡ acted_of (Some act) file self.old }
    {
        self.plan = self.plan.after(act, file);
        apply(&mut self.slots, act);
    }

    // The same for what is due, if something is.
    fn advance(&mut self, act: Option<Act>, file: TaskFile)
        requires { IfSome act IsAct }
        ensures { self.new ≡ acted_of act file self.old }
    {
        if let Some(act) = act {
            self.act(act, file);
        }
    }

    // How the port tells devices apart.
    fn mode(&self) -> Mode
        ensures { result ≡ self.now.plan.mode }
    {
        self.plan.mode
    }

    // Looks at all that came. Answers what is due to port and memory, and whether something is due or came.
    #[tactic(auto, unfolding(crate::specs::Ticks::acts))]
    fn look(&mut self, sight: &Sight<'_>) -> (Option<Act>, bool)
        ensures driver { self.new ≡ seen sight.now self.old }
        ensures due { result.0 ≡ due_of sight.now self.old }
        ensures act { IfSome result.0 IsAct }
        ensures answer { result.1 ≡ acts sight.now self.old }
        ensures long { length self.old.entries ≡ 30 }
    {
        let issued = sight.issued();
        let ended = self.slots.any_done(issued);
        end_done(&mut self.slots, issued);
        let turn = self.plan.turn(sight, &self.slots);
        self.plan = turn.plan;
        end_logged(&mut self.slots, sight, turn.logged);
        (turn.act, turn.act.is_some() || (ended || turn.news))
    }

    /// Does the next thing that is due, and says whether something was done or seen. Each request that its
    /// device has done ends first. A fault of the port or of a device is cleared before anything else.
    #[tactic(auto, unfolding(crate::specs::Ticks::after_tick))]
    pub fn tick(&mut self, port: &mut HostPort, memory: &mut HostMemory) -> bool
        ensures driver { self.new
            ≡ after_tick (sight_of self.old.plan.mode port.old memory.old) (file_shown port.new)
            self.old }
        ensures effects { ActsAll
            (effects (sight_of self.old.plan.mode port.old memory.old) self.old)
            port.old memory.old port.new memory.new }
        ensures possible { list_all is_effect
            (effects (sight_of self.old.plan.mode port.old memory.old) self.old) ≡ true }
        ensures answer { result ≡ acts (sight_of self.old.plan.mode port.old memory.old) self.old }
        ensures rests { result ≡ false
            → Rests self.old port.old memory.old self.new port.new memory.new }
    {
        let mode = self.mode();
        let sight = Sight::of(mode, port, memory);
        let (act, acted) = self.look(&sight);
        perform(mode, act, port, memory);
        self.advance(act, TaskFile::shown(port));
        acted
    }

    // Why a request is refused because of what the driver has taken already.
    fn room_refusal(&self, request: &Request) -> Option<SubmitError>
        ensures { result ≡ room_refusal_of self.now request.now }
    {
        if have_overlap(&request.prds) || have_conflict(&self.slots, request.work, &request.prds) {
            return Some(SubmitError::Overlap);
        }
        if lowest_free(&self.slots).is_none() {
            return Some(SubmitError::NoSlot);
        }
        (self.given == u32::MAX).then_some(SubmitError::TicketsSpent)
    }

    // Why a request is refused beside one of another device.
    fn other_refusal(&self, dev: u8) -> Option<SubmitError>
        ensures { result ≡ other_refusal_of self.now.plan.mode dev self.now.entries }
    {
        match self.plan.mode {
            Mode::Switching => None,
            Mode::CommandBased => has_other(&self.slots, dev).then_some(SubmitError::OtherDevice),
        }
    }

    // Why a request is refused: the first refusal that applies.
    #[tactic(auto, unfolding(crate::specs::Submits::submit_refusal))]
    fn refusal(&self, memory: &HostMemory, dev: u8, request: &Request) -> Option<SubmitError>
        ensures { result ≡ submit_refusal self.now memory.now dev request.now }
    {
        if let Some(refusal) = self.plan.device(dev).refusal() {
            return Some(refusal);
        }
        if are_blocked(&self.slots, dev, request.work) {
            return Some(SubmitError::QueueBusy);
        }
        if let Some(refusal) = shape_refusal(end_of(memory), request) {
            return Some(refusal);
        }
        if let Some(refusal) = self.room_refusal(request) {
            return Some(refusal);
        }
        self.other_refusal(dev)
    }

    /// Takes a request for a device under the next ticket. Its command is written into the lowest free slot,
    /// and waits there for its issue.
    pub fn submit(
        &mut self,
        memory: &mut HostMemory,
        dev: u8,
        request: &Request,
    ) -> Result<Ticket, SubmitError>
        ensures refusal { result_err result ≡ submit_refusal self.old memory.old dev request.now }
        ensures refused { OnErr result ((self.new ≡ self.old) × (memory.new ≡ memory.old)) }
        ensures taken { IfOk result (λ ticket.
            Takes self.old memory.old dev request.now ticket.0 self.new memory.new) }
    {
        if let Some(refusal) = self.refusal(memory, dev, request) {
            return Err(refusal);
        }
        let Some(slot) = lowest_free(&self.slots) else {
            unreachable!()
        };
        let ticket = self.given + 1;
        let head = Head {
            ticket,
            dev,
            work: request.work,
            lba: request.lba,
            sectors: request.sectors,
            phase: Phase::Waits,
        };
        write_command(
            memory,
            0,
            slot,
            table_of(slot),
            &head.fields(slot),
            &request.prds,
        );
        self.slots.fill(slot, head, &request.prds);
        self.given = ticket;
        Ok(Ticket(ticket))
    }

    /// Gives the ended request of the lowest slot and frees the slot.
    #[tactic(auto, unfolding(crate::specs::Submits::completion_of, crate::specs::Submits::after_poll))]
    pub fn poll(&mut self) -> Option<Completion>
        ensures polled { result ≡ completion_of self.old }
        ensures after { self.new ≡ after_poll self.old }
    {
        let Some(slot) = self.slots.lowest_ended() else {
            return None;
        };
        let completion = self.slots.completion(slot);
        self.slots.clear(slot);
        completion
    }

    /// Whether one of `len` bytes from an address on is in use: it belongs to the driver's own buffer, or to
    /// a request that is not polled yet.
    pub fn in_use(&self, at: u32, len: u32) -> bool
        ensures { result ≡ in_use_of self.now at len }
    {
        len > 0
            && (share_bytes(at, len, CLIENT_START, BUFFER_LEN) || are_used(&self.slots, at, len))
    }
}

// The first address past the client area.
fn end_of(memory: &HostMemory) -> u32
    ensures { result ≡ end_of_memory memory.now }
{
    CLIENT_START + memory.client().len() as u32
}

// Does what is due to port and memory, if something is.
fn perform(mode: Mode, act: Option<Act>, port: &mut HostPort, memory: &mut HostMemory)
    requires { IfSome act IsAct }
    ensures acts { ActsAll (effects_due mode act) port.old memory.old port.new memory.new }
    ensures possible { list_all is_effect (effects_due mode act) ≡ true }
{
    if let Some(act) = act {
        act.perform(mode, port, memory);
    }
}
