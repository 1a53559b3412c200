//! What is at a port.

ghost use Rattle.std.specs.Prelude.{◌≡◌, IfNone, IfOk, IsTrue, OnErr};
ghost use Rattle.ahci_machine.specs.Bays.{BayMayDo, begun};
ghost use Rattle.ahci_machine.specs.Resting.{IsSilent, NoneFalls, NoneIsAsked, NoneIsHeard, NoneIsSaid, NoneStarts};
ghost use Rattle.ahci_machine.specs.States.{empty_bay};

mod saved;

use crate::act::Act;
use crate::gathering::host_stamp;
use crate::request::MediumId;
use fan_out::FanOut;
use fis_view::Frame;
use sata_disk::SataDisk;
use std::alloc::{AllocError, Global};

/// What is at a port.
#[derive(Drop)]
pub enum Unit {
    /// Nothing.
    Empty,
    /// A disk.
    Disk(SataDisk),
    /// A device of the caller's own.
    Own,
}

/// A port: what is there, and what it was given.
#[derive(Drop)]
pub struct Bay {
    pub(crate) unit: Unit,
    /// How many were put there before it, with it.
    pub(crate) disk: u64,
    /// The FIS that it was given last, and did not hear yet.
    pub(crate) down: Option<Frame>,
    /// The caller was told of it.
    pub(crate) told: bool,
}

impl Bay {
    /// Nothing is there.
    pub(crate) fn empty() -> Bay
        ensures { result ≡ empty_bay }
    {
        Bay {
            unit: Unit::Empty,
            disk: 0,
            down: None,
            told: false,
        }
    }

    /// What it had to do is gone: it was pulled, or begins anew.
    pub(crate) fn drops_all(&mut self, alloc: Global)
        ensures { self.new ≡ begun self.old }
    {
        self.down = None;
        self.told = false;
        match &mut self.unit {
            Unit::Disk(disk) => disk.plugged(alloc),
            Unit::Empty | Unit::Own => {}
        }
    }

    /// The next FIS of the host is there.
    #[tactic(auto, using(crate::proofs::FanLemmas::none_down))]
    pub(crate) fn fall(&mut self, fan: &mut FanOut, port: u8) -> Option<Act>
        ensures does { BayMayDo port fan.old self.old result fan.new self.new }
        ensures none { IfNone result (NoneFalls fan.old port self.old) }
    {
        if self.down.is_some() {
            return None;
        }
        self.down = Some(fan.next_down(port)?);
        Some(Act::Falls(port))
    }

    /// The FIS that is there is heard, or the caller is told of it.
    pub(crate) fn hear(&mut self, alloc: Global, port: u8) -> Result<Option<Act>, AllocError>
        ensures ok { IfOk result (λ act. (fan : FanOut) → BayMayDo port fan self.old act fan self.new) }
        ensures none { IfOk result (λ act. IfNone act (NoneIsHeard self.old)) }
        ensures err { OnErr result (self.new ≡ self.old) }
    {
        let Some(frame) = &self.down else {
            return Ok(None);
        };
        match &mut self.unit {
            Unit::Empty => {
                self.down = None;
                Ok(Some(Act::Drops(port)))
            }
            Unit::Disk(disk) => {
                let unheard = disk.on_frame(alloc, frame)?;
                self.down = None;
                Ok(Some(Act::Hears { port, unheard }))
            }
            Unit::Own if self.told => Ok(None),
            Unit::Own => {
                self.told = true;
                Ok(Some(Act::Points(port)))
            }
        }
    }

    /// The next FIS of a disk goes, where there is room.
    pub(crate) fn speak(
        &mut self,
        alloc: Global,
        fan: &mut FanOut,
        port: u8,
    ) -> Result<Option<Act>, AllocError>
        ensures ok { IfOk result (λ act. BayMayDo port fan.old self.old act fan.new self.new) }
        ensures none { IfOk result (λ act. IfNone act (NoneIsSaid fan.old port self.old)) }
        ensures err { OnErr result ((self.new ≡ self.old) × (fan.new ≡ fan.old)) }
    {
        let Unit::Disk(disk) = &mut self.unit else {
            return Ok(None);
        };
        if !fan.wants(port) {
            return Ok(None);
        }
        let Some(out) = disk.next_out() else {
            return Ok(None);
        };
        let Ok(frame) = disk.frame(alloc, out, host_stamp(port)) else {
            return Err(AllocError);
        };
        disk.sent(out);
        let _ = fan.offer(port, frame);
        Ok(Some(Act::Speaks { port, out }))
    }

    /// A command of a disk starts.
    pub(crate) fn start(&mut self, port: u8) -> Result<Option<Act>, AllocError>
        ensures ok { IfOk result (λ act. (fan : FanOut) → BayMayDo port fan self.old act fan self.new) }
        ensures none { IfOk result (λ act. IfNone act (NoneStarts self.old)) }
        ensures err { OnErr result (self.new ≡ self.old) }
    {
        let Unit::Disk(disk) = &mut self.unit else {
            return Ok(None);
        };
        match disk.start_next()? {
            Some(place) => Ok(Some(Act::Starts { port, place })),
            None => Ok(None),
        }
    }

    /// A disk asks its medium.
    pub(crate) fn ask(&mut self, port: u8) -> Option<Act>
        ensures does { (fan : FanOut) → BayMayDo port fan self.old result fan self.new }
        ensures none { IfNone result (NoneIsAsked self.old) }
    {
        let Unit::Disk(disk) = &mut self.unit else {
            return None;
        };
        let asked = disk.next_request()?;
        Some(Act::Asks {
            id: MediumId {
                port,
                disk: self.disk,
                number: asked.number,
            },
            asked,
        })
    }

    /// Whether its disk has nothing to send.
    pub(crate) fn is_silent(&self) -> bool
        ensures { IsTrue result → IsSilent self.now }
    {
        match &self.unit {
            Unit::Disk(disk) => disk.next_out().is_none(),
            Unit::Empty | Unit::Own => true,
        }
    }
}
