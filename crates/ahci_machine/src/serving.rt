//! The ports have their turns.

ghost use Rattle.std.specs.Prelude.{◌≡◌, ◌<◌, IfNone, IfOk, None, OnErr, length};
ghost use Rattle.fan_out.specs.FanOuts.{Tells};
ghost use Rattle.ahci_machine.specs.Acts.{MayDo, MayStep};
ghost use Rattle.ahci_machine.specs.Resting.{ArePortsQuiet, ArePortsQuietIn, IsQuietAt, NoneFalls, NoneIsAsked, NoneIsHeard, NoneIsSaid, NoneStarts};
ghost use Rattle.ahci_machine.specs.States.{bay_at};

use crate::act::Act;
use crate::machine::Machine;
use std::alloc::{AllocError, Global};

impl Machine {
    /// A device that is to begin anew does.
    pub(crate) fn begin_next(&mut self, alloc: Global) -> Option<Act>
        ensures does { MayDo self.old result self.new }
        ensures none { IfNone result (Tells self.old.fan None self.old.fan) }
    {
        let Some(port) = self.fan.next_begun() else {
            self.hints.begins = false;
            return None;
        };
        self.hints.at(port);
        if let Some(bay) = self.bays.get_mut(usize::from(port)) {
            bay.drops_all(alloc);
        }
        Some(Act::Begins(port))
    }

    // The next FIS of the host is at a port.
    #[tactic(auto, using(crate::proofs::BayLemmas::served))]
    fn fall_at(&mut self, port: u8) -> Option<Act>
        requires { port < length self.old.bays }
        ensures does { MayDo self.old result self.new }
        ensures none { IfNone result (NoneFalls self.old.fan port (bay_at self.old port)) }
    {
        self.bays[usize::from(port)].fall(&mut self.fan, port)
    }

    // It is heard.
    #[tactic(auto, using(crate::proofs::BayLemmas::served_here))]
    fn hear_at(&mut self, alloc: Global, port: u8) -> Result<Option<Act>, AllocError>
        requires { port < length self.old.bays }
        ensures ok { IfOk result (λ act. MayDo self.old act self.new) }
        ensures none { IfOk result (λ act. IfNone act (NoneIsHeard (bay_at self.old port))) }
        ensures err { OnErr result (self.new ≡ self.old) }
    {
        let act = self.bays[usize::from(port)].hear(alloc, port)?;
        Ok(act)
    }

    // A disk answers.
    #[tactic(auto, using(crate::proofs::BayLemmas::served))]
    fn speak_at(&mut self, alloc: Global, port: u8) -> Result<Option<Act>, AllocError>
        requires { port < length self.old.bays }
        ensures ok { IfOk result (λ act. MayDo self.old act self.new) }
        ensures none { IfOk result (λ act. IfNone act (NoneIsSaid self.old.fan port (bay_at self.old port))) }
        ensures err { OnErr result (self.new ≡ self.old) }
    {
        self.bays[usize::from(port)].speak(alloc, &mut self.fan, port)
    }

    // A command of a disk starts.
    #[tactic(auto, using(crate::proofs::BayLemmas::served_here))]
    fn start_at(&mut self, port: u8) -> Result<Option<Act>, AllocError>
        requires { port < length self.old.bays }
        ensures ok { IfOk result (λ act. MayDo self.old act self.new) }
        ensures none { IfOk result (λ act. IfNone act (NoneStarts (bay_at self.old port))) }
        ensures err { OnErr result (self.new ≡ self.old) }
    {
        let act = self.bays[usize::from(port)].start(port)?;
        Ok(act)
    }

    // A disk asks its medium.
    #[tactic(auto, using(crate::proofs::BayLemmas::served_here))]
    fn ask_at(&mut self, port: u8) -> Option<Act>
        requires { port < length self.old.bays }
        ensures does { MayDo self.old result self.new }
        ensures none { IfNone result (NoneIsAsked (bay_at self.old port)) }
    {
        self.bays[usize::from(port)].ask(port)
    }

    // None of these: it rests.
    fn rest_at(&mut self, port: u8)
        requires port { port < length self.old.bays }
        requires hears { NoneIsHeard (bay_at self.old port) }
        requires starts { NoneStarts (bay_at self.old port) }
        requires asks { NoneIsAsked (bay_at self.old port) }
        ensures { self.new ≡ self.old }
    {
        self.bays[usize::from(port)].rest();
    }

    // What is next at a port.
    fn serve(&mut self, alloc: Global, port: u8) -> Result<Option<Act>, AllocError>
        ensures ok { IfOk result (λ act. MayDo self.old act self.new) }
        ensures none { IfOk result (λ act. IfNone act (port < length self.old.bays → IsQuietAt self.old port)) }
        ensures err { OnErr result (self.new ≡ self.old) }
    {
        if usize::from(port) >= self.bays.len() {
            return Ok(None);
        }
        if let Some(act) = self.fall_at(port) {
            return Ok(Some(act));
        }
        if self.bays[usize::from(port)].rests() {
            return Ok(None);
        }
        if let Some(act) = self.hear_at(alloc, port)? {
            return Ok(Some(act));
        }
        if let Some(act) = self.speak_at(alloc, port)? {
            self.hints.says(port);
            return Ok(Some(act));
        }
        if let Some(act) = self.start_at(port)? {
            return Ok(Some(act));
        }
        if let Some(act) = self.ask_at(port) {
            return Ok(Some(act));
        }
        self.rest_at(port);
        Ok(None)
    }

    // What is next at the first of these ports that has something to do.
    fn serve_any(&mut self, alloc: Global, from: u8, to: u8) -> Result<Option<Act>, AllocError>
        ensures ok { IfOk result (λ act. MayStep self.old act self.new) }
        ensures none { IfOk result (λ act. IfNone act (ArePortsQuietIn from to self.old)) }
        ensures err { OnErr result (self.new ≡ self.old) }
    {
        for port in from..to {
            if let Some(act) = self.serve(alloc, port)? {
                self.turn = port + 1;
                self.first = true;
                return Ok(Some(act));
            }
        }
        Ok(None)
    }

    /// What is next at the ports where something may be to do, each in its turn.
    pub(crate) fn serve_likely(&mut self, alloc: Global) -> Result<Option<Act>, AllocError>
        ensures ok { IfOk result (λ act. MayStep self.old act self.new) }
        ensures err { OnErr result (self.new ≡ self.old) }
    {
        for _ in 0..16_u8 {
            let Some(port) = self.hints.port_from(self.turn) else {
                return Ok(None);
            };
            if let Some(act) = self.serve(alloc, port)? {
                self.turn = port.saturating_add(1);
                self.first = true;
                return Ok(Some(act));
            }
            self.hints.rests_at(port);
        }
        Ok(None)
    }

    /// What is next at the ports, each in its turn.
    pub(crate) fn serve_next(&mut self, alloc: Global) -> Result<Option<Act>, AllocError>
        ensures ok { IfOk result (λ act. MayStep self.old act self.new) }
        ensures none { IfOk result (λ act. IfNone act (ArePortsQuiet self.old)) }
        ensures err { OnErr result (self.new ≡ self.old) }
    {
        let (ports, turn) = (self.fan.ports(), self.turn);
        if let Some(act) = self.serve_any(alloc, turn, ports)? {
            return Ok(Some(act));
        }
        if let Some(act) = self.serve_any(alloc, 0, turn.min(ports))? {
            return Ok(Some(act));
        }
        self.hints.ports_rest();
        Ok(None)
    }
}
