//! What is at the ports comes and goes.

ghost use Rattle.std.specs.Prelude.{◌<◌, length};
ghost use Rattle.ahci_machine.specs.Ports.{PlugsMachine, PullsMachine, PullsPart, Puts, Removes};

use crate::bay::Unit;
use crate::machine::Machine;
use fan_out::{NotThere, PlugError};
use std::alloc::Global;
use std::mem;
use thiserror::Error;

/// Why nothing can be put at a port, plugged in, or taken from it.
#[derive(Clone, Copy, Debug, PartialEq, Eq, Error)]
pub enum PortFault {
    /// There is no such port.
    #[error("no such port")]
    NoPort,
    /// Something is there already.
    #[error("the port is taken")]
    Taken,
    /// Nothing is there, or it is not plugged in.
    #[error("nothing is there")]
    NotThere,
    /// It is plugged in already.
    #[error("it is plugged in")]
    PluggedIn,
    /// There were devices at this port too often.
    #[error("no connection is left")]
    Spent,
}

impl Machine {
    /// A disk, or a device of the caller's own, is put at a port. It is not plugged in yet. It is given back where it cannot be.
    pub fn put(&mut self, port: u8, unit: Unit) -> Result<(), (Unit, PortFault)>
        ensures { Puts port unit self.old result self.new }
    {
        self.hints.at(port);
        let Some(watched) = self.bays.get_mut(usize::from(port)) else {
            return Err((unit, PortFault::NoPort));
        };
        watched.rests = false;
        let bay = &mut watched.bay;
        match bay.unit {
            Unit::Empty => {
                bay.unit = unit;
                bay.disk = bay.disk.saturating_add(1);
                Ok(())
            }
            Unit::Disk(_) | Unit::Own => Err((unit, PortFault::Taken)),
        }
    }

    /// What is at a port is plugged in: it begins anew.
    pub fn plug(&mut self, port: u8) -> Result<(), PortFault>
        ensures { PlugsMachine port self.old result self.new }
    {
        self.hints.shaken();
        let Some(watched) = self.bays.get(usize::from(port)) else {
            return Err(PortFault::NoPort);
        };
        if let Unit::Empty = watched.bay.unit {
            return Err(PortFault::NotThere);
        }
        match self.fan.plug(port) {
            Ok(()) => Ok(()),
            Err(PlugError::NoPort) => Err(PortFault::NoPort),
            Err(PlugError::AlreadyThere) => Err(PortFault::PluggedIn),
            Err(PlugError::Spent) => Err(PortFault::Spent),
        }
    }

    /// What is at a port is pulled: all that it had to do is gone, and it is heard no more. A FIS of it that left its port before
    /// still comes.
    #[tactic(auto, using(crate::proofs::PortLemmas::pulled))]
    pub fn pull(&mut self, alloc: Global, port: u8) -> Result<(), PortFault>
        ensures { PullsMachine port self.old result self.new }
    {
        if usize::from(port) >= self.bays.len() {
            return Err(PortFault::NoPort);
        }
        match self.pull_out(alloc, port) {
            Ok(()) => Ok(()),
            Err(_) => Err(PortFault::NotThere),
        }
    }

    // It is pulled, if it is plugged in.
    fn pull_out(&mut self, alloc: Global, port: u8) -> Result<(), NotThere>
        requires { port < length self.old.bays }
        ensures { PullsPart port self.old result self.new }
    {
        self.hints.shaken();
        match self.fan.pull(port) {
            Ok(()) => {
                self.bays[usize::from(port)].drops_all(alloc);
                Ok(())
            }
            Err(error) => Err(error),
        }
    }

    /// What is at a port is taken away, and pulled before where it is plugged in.
    pub fn remove(&mut self, alloc: Global, port: u8) -> Result<Unit, PortFault>
        ensures { Removes port self.old result self.new }
    {
        let _ = self.pull(alloc, port);
        let Some(watched) = self.bays.get_mut(usize::from(port)) else {
            return Err(PortFault::NoPort);
        };
        watched.rests = false;
        match mem::replace(&mut watched.bay.unit, Unit::Empty) {
            Unit::Empty => Err(PortFault::NotThere),
            unit => Ok(unit),
        }
    }
}
