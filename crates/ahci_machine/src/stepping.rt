//! What is next to do.

ghost use Rattle.std.specs.Prelude.{◌≡◌, ◌<◌, ℕ, IfNone, IfOk, Ok, OnErr};
ghost use Rattle.ahci_machine.specs.Acts.{Asks, HasWritten, MayDo, MayStep, Moves, Steps, unlent};
ghost use Rattle.ahci_machine.specs.Resting.{EndsAtRest, IsAtRest, IsCarried, IsToldAll, NoneGathers, NothingIsSaid};
ghost use Rattle.ahci_machine.specs.declared.act.Act.TheVariants.{Rests};
ghost use Rattle.ahci_machine.specs.declared.request.Request.TheVariants.{Nothing};

use crate::act::Act;
use crate::machine::{Lent, Machine};
use crate::request::Request;
use ahci_controller::Next;
use std::alloc::{AllocError, Global};

/// The most moves of a call.
const BUDGET: u32 = 64;

impl Machine {
    // The Data FIS of a device goes on, if there is one.
    fn gather_at(&mut self, dev: u8) -> Option<Act>
        requires { dev < 16 }
        ensures does { MayDo self.old result self.new }
        ensures none { IfNone result (NoneGathers self.old dev) }
    {
        if self.gathering[usize::from(dev)].is_none() {
            return None;
        }
        self.gather_next(dev)
    }

    // The Data FISes whose bytes are read go on.
    fn gather_any(&mut self) -> Option<Act>
        ensures does { MayDo self.old result self.new }
        ensures none { IfNone result ((dev : ℕ) → dev < 16 → NoneGathers self.old dev) }
    {
        for dev in 0..16_u8 {
            if let Some(act) = self.gather_at(dev) {
                return Some(act);
            }
        }
        None
    }

    // What comes before all else: writes to the guest, and the line.
    fn urgent(&mut self) -> Option<Act>
        ensures does { MayDo self.old result self.new }
        ensures written { IfNone result (HasWritten self.old) }
        ensures told { IfNone result (IsToldAll self.old) }
    {
        if let Some(act) = self.write_next() {
            return Some(act);
        }
        self.tell_next()
    }

    // What is on its way goes on.
    fn carry_next(&mut self, alloc: Global) -> Result<Option<Act>, AllocError>
        ensures ok { IfOk result (λ act. MayDo self.old act self.new) }
        ensures none { IfOk result (λ act. IfNone act (IsCarried self.old)) }
        ensures err { OnErr result (self.new ≡ self.old) }
    {
        if let Some(act) = self.rise_next(alloc)? {
            return Ok(Some(act));
        }
        if let Some(act) = self.take_next() {
            return Ok(Some(act));
        }
        if let Some(act) = self.send_next(alloc)? {
            return Ok(Some(act));
        }
        if let Some(act) = self.do_next(alloc)? {
            return Ok(Some(act));
        }
        if let Some(act) = self.gather_any() {
            return Ok(Some(act));
        }
        Ok(self.begin_next(alloc))
    }

    // The Data FISes go on whose bytes were noticed to be read.
    fn gather_likely(&mut self) -> Option<Act>
        ensures { MayDo self.old result self.new }
    {
        let mut from = 0;
        for _ in 0..16_u8 {
            let Some(device) = self.hints.feeding_from(from) else {
                return None;
            };
            if let Some(act) = self.gather_next(device) {
                return Some(act);
            }
            from = device + 1;
        }
        None
    }

    // What goes on of what was noticed to be on its way.
    fn carry_likely(&mut self, alloc: Global) -> Result<Option<Act>, AllocError>
        ensures ok { IfOk result (λ act. MayDo self.old act self.new) }
        ensures err { OnErr result (self.new ≡ self.old) }
    {
        if self.incoming.is_some() {
            if let Some(act) = self.take_next() {
                return Ok(Some(act));
            }
        } else if self.hints.rises() {
            if let Some(act) = self.rise_next(alloc)? {
                return Ok(Some(act));
            }
        }
        if self.outgoing.is_some() {
            if let Some(act) = self.send_next(alloc)? {
                return Ok(Some(act));
            }
        }
        if self.kept.is_some() {
            if let Some(act) = self.do_next(alloc)? {
                return Ok(Some(act));
            }
        }
        if let Some(act) = self.gather_likely() {
            return Ok(Some(act));
        }
        if self.hints.begins {
            return Ok(self.begin_next(alloc));
        }
        Ok(None)
    }

    // What the controller has to do, where it was noticed to.
    fn turn_likely(&mut self) -> Option<Act>
        requires { HasWritten self.old }
        ensures { MayStep self.old result self.new }
    {
        if !self.hints.turns || self.kept.is_some() {
            return None;
        }
        self.first = false;
        Some(Act::Turns(self.turn_next()))
    }

    // What was noticed to be next. The ports and the controller take turns.
    fn likely(&mut self, alloc: Global) -> Result<Option<Act>, AllocError>
        requires { HasWritten self.old }
        ensures ok { IfOk result (λ act. MayStep self.old act self.new) }
        ensures err { OnErr result (self.new ≡ self.old) }
    {
        if let Some(act) = self.carry_likely(alloc)? {
            return Ok(Some(act));
        }
        if self.first || !self.hints.is_any_at() {
            if let Some(act) = self.turn_likely() {
                return Ok(Some(act));
            }
        }
        if self.bays.len() > 1 {
            if let Some(act) = self.serve_likely(alloc)? {
                return Ok(Some(act));
            }
            return Ok(self.turn_likely());
        }
        Ok(None)
    }

    // What the controller has to do, where nothing else is next.
    #[tactic(auto, using(crate::proofs::MoveLemmas::rests_same))]
    fn turn_last(&mut self) -> Act
        requires { HasWritten self.old }
        ensures ok { Steps self.old result self.new }
        ensures said { result ≡ Rests → NothingIsSaid self.old }
    {
        if self.kept.is_some() {
            return Act::Rests;
        }
        match self.turn_next() {
            Next::Nothing => Act::Rests,
            next => Act::Turns(next),
        }
    }

    /// Makes one move. It rests where there is none. Where memory is refused, nothing changes.
    pub fn step(&mut self, alloc: Global) -> Result<Act, AllocError>
        ensures ok { IfOk result (λ act. Steps self.old act self.new) }
        ensures rests { result ≡ Ok Rests → IsAtRest self.old }
        ensures err { OnErr result (self.new ≡ self.old) }
    {
        if let Some(act) = self.urgent() {
            return Ok(act);
        }
        if let Some(act) = self.likely(alloc)? {
            return Ok(act);
        }
        if let Some(act) = self.serve_next(alloc)? {
            return Ok(act);
        }
        if let Some(act) = self.carry_next(alloc)? {
            return Ok(act);
        }
        Ok(self.turn_last())
    }

    /// Makes moves until one asks something of the caller, but at most 64. `Nothing` is asked only by a machine at rest.
    #[tactic(auto, using(crate::proofs::MoveLemmas::no_moves, crate::proofs::MoveLemmas::one_more, crate::proofs::MoveLemmas::counted, crate::proofs::MoveLemmas::again))]
    pub fn next(&mut self, alloc: Global) -> Result<Request, AllocError>
        ensures ok { IfOk result (λ request. Asks (unlent self.old) request self.new) }
        ensures rests { result ≡ Ok Nothing → EndsAtRest (unlent self.old) self.new }
        ensures err { OnErr result (Moves (unlent self.old) self.new) }
    {
        self.lent = Lent::Nothing;
        for _ in 0..BUDGET {
            let act = self.step(alloc)?;
            if let Some(request) = act.request() {
                return Ok(request);
            }
            self.keeps_rules();
        }
        Ok(Request::Again)
    }
}
