//! A device's thread.

ghost use Rattle.std.specs.Prelude.{◌≡◌, Err, OnOk};
ghost use Rattle.runner.specs.declared.worker.Fault.TheVariants as fault;
ghost use Rattle.disk_thread.specs.Runs.{GoesOnRunning, IsAtSamePort};

use crate::gate::Gate;
use crate::station::Station;
use disk_model::Device;
use runner::{Fault, Post, Spent, Who, Worker};
use std::alloc::Global;
use std::marker::Model;
use std::sync::Wait;

/// How many FISes at most go each way between a device and its links in one turn.
const BUDGET: u32 = 16;

/// A device at its port, and the gate of its FISes.
#[derive(Drop)]
pub struct DiskWorker<'a, 'g, D: Device + Drop, G: Gate> {
    station: Station<'a, D>,
    gate: &'g G,
    alloc: Global,
}

impl<'a, 'g, D: Device + Drop, G: Gate> Model for DiskWorker<'a, 'g, D, G> {
    ghost use Rattle.disk_thread.specs.Runs.{StationState};

    ghost Value = { StationState D };

    ghost view = { λ w. w.station };
}

/// What some steps of a turn moved.
#[derive(Clone, Copy)]
struct Progress {
    is_any: bool,
    /// Whether something went over a link.
    is_over_links: bool,
}

/// What the thread of a device leaves.
#[derive(Drop)]
pub struct DiskEnd<'a, D: Device + Drop> {
    pub station: Station<'a, D>,
    /// The fault that ended it, if one did.
    pub fault: Option<Fault>,
    /// The turns were spent, if they were.
    pub spent: Option<Spent>,
}

impl<'a, 'g, D: Device + Drop, G: Gate> DiskWorker<'a, 'g, D, G> {
    /// A worker for this device.
    pub fn new(station: Station<'a, D>, gate: &'g G, alloc: Global) -> Self
        ensures { result ≡ station.entry }
    {
        DiskWorker {
            station,
            gate,
            alloc,
        }
    }

    /// Pulls the device out or plugs it in where that is due, and tells of it.
    fn change<R: Wait>(&mut self, rt: &R) -> Result<Progress, Fault>
        ensures run { OnOk result (GoesOnRunning D.plan_of D.stands_for D.may_send self.old self.new) }
        ensures port { IsAtSamePort self.old self.new }
        ensures gate { result ≡ Err fault.GateShut → G.may_refuse }
    {
        let pulled = self.station.pull();
        let plugged = self.station.plug(self.alloc)?;
        let told = self.station.tell(rt);
        Ok(Progress {
            is_any: pulled || plugged || told,
            is_over_links: told,
        })
    }

    /// Takes a FIS for the device, and sends one of it.
    fn serve<R: Wait>(&mut self, rt: &R) -> Result<Progress, Fault>
        ensures run { OnOk result (GoesOnRunning D.plan_of D.stands_for D.may_send self.old self.new) }
        ensures port { IsAtSamePort self.old self.new }
        ensures gate { result ≡ Err fault.GateShut → G.may_refuse }
    {
        let took = self.station.take(rt, self.alloc, self.gate)?;
        let gave = self.station.give(self.alloc)?;
        let sent = self.station.send(rt);
        Ok(Progress {
            is_any: took || gave || sent,
            is_over_links: took || sent,
        })
    }

    /// Takes FISes for the device, and sends some of it, as long as anything moves.
    fn drain<R: Wait>(&mut self, rt: &R) -> Result<Progress, Fault>
        ensures run { OnOk result (GoesOnRunning D.plan_of D.stands_for D.may_send self.old self.new) }
        ensures port { IsAtSamePort self.old self.new }
        ensures gate { result ≡ Err fault.GateShut → G.may_refuse }
    {
        let mut progress = Progress {
            is_any: false,
            is_over_links: false,
        };
        for _ in 0..BUDGET {
            let step = self.serve(rt)?;
            if !step.is_any {
                break;
            }
            progress.is_any = true;
            progress.is_over_links = progress.is_over_links || step.is_over_links;
        }
        Ok(progress)
    }

    /// Changes the connection where that is due, then takes and sends FISes as long as anything moves,
    /// and says whether anything moved. Rings once for the multiplier if something went over a link.
    fn turn<R: Wait>(&mut self, rt: &R, post: &Post<'_>) -> Result<bool, Fault>
        ensures run { OnOk result (GoesOnRunning D.plan_of D.stands_for D.may_send self.old self.new) }
        ensures port { IsAtSamePort self.old self.new }
        ensures gate { result ≡ Err fault.GateShut → G.may_refuse }
    {
        let changed = self.change(rt)?;
        let served = self.drain(rt)?;
        if changed.is_over_links || served.is_over_links {
            post.ring(Who::One);
        }
        Ok(changed.is_any || served.is_any)
    }
}

impl<'a, 'g, D: Device + Drop + Send, G: Gate + Sync> Worker for DiskWorker<'a, 'g, D, G> {
    type End = DiskEnd<'a, D>;

    ghost use Rattle.std.specs.Prelude.{◌≡◌, IfSome, None, Some};
    ghost use Rattle.runner.specs.declared.worker.Fault.TheVariants as fault;
    ghost use Rattle.disk_thread.specs.Runs.{GoesOnRunning, IsAtSamePort};

    ghost ended = { λ worker turns end. IsAtSamePort worker end.station
        × (end.fault ≡ None → GoesOnRunning D.plan_of D.stands_for D.may_send worker end.station)
        × (end.fault ≡ Some fault.GateShut → G.may_refuse)
        × IfSome end.spent (λ spent. spent.turns ≡ turns) };

    fn work<R: Wait>(mut self, rt: &R, mut post: Post<'_>) -> DiskEnd<'a, D> {
        let mut fault = None;
        for _ in 0..u64::MAX {
            if post.spent().is_some() || !post.begins() {
                break;
            }
            match self.turn(rt, &post) {
                Ok(moved) => post.turned(rt, moved),
                Err(e) => {
                    fault = Some(e);
                    break;
                }
            }
        }
        post.end();
        let DiskWorker {
            station,
            gate: _,
            alloc: _,
        } = self;
        DiskEnd {
            station,
            fault,
            spent: post.spent(),
        }
    }
}
