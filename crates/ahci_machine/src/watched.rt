//! A port that is known to have nothing to do is not asked again.

ghost use Rattle.std.specs.Prelude.{◌≡◌, IfNone, IfOk, IsTrue, OnErr, replicate};
ghost use Rattle.fan_out.specs.declared.fan_out.FanOut.{FanOut};
ghost use Rattle.ahci_machine.specs.Bays.{BayMayDo, begun};
ghost use Rattle.ahci_machine.specs.Resting.{IsResting, NoneFalls, NoneIsAsked, NoneIsHeard, NoneIsSaid, NoneStarts};
ghost use Rattle.ahci_machine.specs.States.{empty_bay};

mod saved;

use crate::act::Act;
use crate::bay::Bay;
use fan_out::FanOut;
use std::alloc::{AllocError, Global};
use std::marker::Model;

/// What is at a port, and whether it is known to have nothing to do before it is given something.
#[derive(Drop)]
pub struct WatchedBay {
    pub(crate) bay: Bay,
    /// It hears nothing, sends nothing, starts nothing and asks nothing. Whoever gives it something says that it does no more.
    pub(crate) rests: bool,
}

impl Model for WatchedBay {
    ghost use Rattle.std.specs.Prelude.{◌≡◌, true};
    ghost use Rattle.ahci_machine.specs.Resting.{IsResting};
    ghost use Rattle.ahci_machine.specs.declared.bay.Bay.{Bay};

    ghost Value = { Bay };

    ghost view = { λ w. w.bay };

    ghost invariant = { λ w. w.rests ≡ true → IsResting w.bay };
}

impl WatchedBay {
    fn new(bay: Bay) -> WatchedBay
        ensures { result ≡ bay }
    {
        WatchedBay { bay, rests: false }
    }

    /// So many, with nothing at them.
    pub(crate) fn many(alloc: Global, count: u8) -> Result<Vec<WatchedBay>, AllocError>
        ensures { IfOk result (λ bays. bays.items ≡ replicate count empty_bay) }
    {
        let mut bays = Vec::with_capacity(alloc, usize::from(count))?;
        for made in 0..count {
            let _ = made;
            bays.push(WatchedBay::new(Bay::empty()))?;
        }
        Ok(bays)
    }

    /// What it had to do is gone: it was pulled, or begins anew.
    pub(crate) fn drops_all(&mut self, alloc: Global)
        ensures { self.new ≡ begun self.old }
    {
        self.rests = false;
        self.bay.drops_all(alloc);
    }

    /// Whether it is known to have nothing to do before it is given something.
    pub(crate) fn rests(&self) -> bool
        ensures { IsTrue result → IsResting self.now }
    {
        self.rests
    }

    /// The next FIS of the host is there.
    pub(crate) fn fall(&mut self, fan: &mut FanOut, port: u8) -> Option<Act>
        ensures does { BayMayDo port fan.old self.old result fan.new self.new }
        ensures none { IfNone result (NoneFalls fan.old port self.old) }
    {
        let act = self.bay.fall(fan, port)?;
        self.rests = false;
        Some(act)
    }

    /// The FIS that is there is heard, or the caller is told of it.
    pub(crate) fn hear(&mut self, alloc: Global, port: u8) -> Result<Option<Act>, AllocError>
        ensures ok { IfOk result (λ act. (fan : FanOut) → BayMayDo port fan self.old act fan self.new) }
        ensures none { IfOk result (λ act. IfNone act (NoneIsHeard self.old)) }
        ensures err { OnErr result (self.new ≡ self.old) }
    {
        self.rests = false;
        self.bay.hear(alloc, port)
    }

    /// The next FIS of a disk goes, where there is room.
    pub(crate) fn speak(
        &mut self,
        alloc: Global,
        fan: &mut FanOut,
        port: u8,
    ) -> Result<Option<Act>, AllocError>
        ensures ok { IfOk result (λ act. BayMayDo port fan.old self.old act fan.new self.new) }
        ensures none { IfOk result (λ act. IfNone act (NoneIsSaid fan.old port self.old)) }
        ensures err { OnErr result ((self.new ≡ self.old) × (fan.new ≡ fan.old)) }
    {
        self.rests = false;
        self.bay.speak(alloc, fan, port)
    }

    /// A command of a disk starts.
    pub(crate) fn start(&mut self, port: u8) -> Result<Option<Act>, AllocError>
        ensures ok { IfOk result (λ act. (fan : FanOut) → BayMayDo port fan self.old act fan self.new) }
        ensures none { IfOk result (λ act. IfNone act (NoneStarts self.old)) }
        ensures err { OnErr result (self.new ≡ self.old) }
    {
        self.rests = false;
        self.bay.start(port)
    }

    /// A disk asks its medium.
    pub(crate) fn ask(&mut self, port: u8) -> Option<Act>
        ensures does { (fan : FanOut) → BayMayDo port fan self.old result fan self.new }
        ensures none { IfNone result (NoneIsAsked self.old) }
    {
        self.rests = false;
        self.bay.ask(port)
    }

    /// It did none of these: it rests, if its disk has nothing to send. (That may only have had no room.)
    pub(crate) fn rest(&mut self)
        requires hears { NoneIsHeard self.old }
        requires starts { NoneStarts self.old }
        requires asks { NoneIsAsked self.old }
        ensures { self.new ≡ self.old }
    {
        self.rests = self.bay.is_silent();
    }
}
