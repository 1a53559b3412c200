//! The multiplier's worker.

ghost use Rattle.std.specs.Prelude.{◌≡◌, ◌<◌, ◌≤◌, [], length, All};
ghost use Rattle.pm_thread.specs.Passing.{Passes};
ghost use Rattle.pm_thread.specs.Runs.{IsRun, IsUnused, SameLinks};

use crate::end::PmEnd;
use crate::port::PmPort;
use fis_view::Frame;
use link_items::{Down, FromDevice, Presence, ToHost};
use multiplier::{Multiplier, PmRefusal};
use ruled_links::{Full, Rx, Tx};
use runner::{Fault, Post, Who, Worker};
use std::alloc::{AllocError, Global};
use std::marker::Model;
use std::sync::Wait;

/// How many FISes at most go each way between the multiplier and the host in one turn.
const BUDGET: u32 = 16;

/// A multiplier with the seats of its links, and a place for a FIS of the host that it has not taken.
#[derive(Drop)]
pub struct PmWorker<'a> {
    pm: Multiplier,
    ports: Vec<PmPort<'a>>,
    host: Tx<'a, ToHost>,
    commands: Rx<'a, Down>,
    hand: Option<Frame>,
    alloc: Global,
}

impl<'a> Model for PmWorker<'a> {
    ghost use Rattle.pm_thread.specs.Runs.{IsSound, PmView};

    ghost Value = { PmView };

    ghost view = { λ w. record {
      pm = w.pm;
      ports = w.ports.items;
      host = w.host;
      commands = w.commands;
      hand = w.hand;
    } };

    ghost invariant = { λ w. IsSound (record {
      pm = w.pm;
      ports = w.ports.items;
      host = w.host;
      commands = w.commands;
      hand = w.hand;
    }) };
}

/// What some steps of a turn moved.
#[derive(Clone, Copy)]
struct Progress {
    is_any: bool,
    /// Whether something went over a link of the host.
    is_over_links: bool,
}

impl<'a> PmWorker<'a> {
    /// A new multiplier with one device port for each of these, over links that nothing went over.
    pub fn new(
        alloc: Global,
        ports: Vec<PmPort<'a>>,
        host: Tx<'a, ToHost>,
        commands: Rx<'a, Down>,
    ) -> PmWorker<'a>
        requires some { 1 ≤ length ports.items }
        requires at_most { length ports.items ≤ 15 }
        requires unused { All IsUnused ports.items }
        requires up { host.sent ≡ [] }
        requires down { commands.taken ≡ [] }
        ensures ports { result.ports ≡ ports.entry.items }
        ensures host { result.host ≡ host.entry }
        ensures commands { result.commands ≡ commands.entry }
    {
        PmWorker {
            pm: Multiplier::new(ports.len() as u8),
            ports,
            host,
            commands,
            hand: None,
            alloc,
        }
    }

    /// The multiplier and its seats. It is a run. What went up is in stamped order. For each
    /// connection, what went up is a beginning of what was taken of it; with what the port holds, it
    /// is all of it as long as the removal of the connection is not recorded.
    pub fn into_parts(self) -> (Multiplier, Vec<PmPort<'a>>, Tx<'a, ToHost>, Rx<'a, Down>)
        ensures multiplier { result.0 ≡ self.entry.pm }
        ensures ports { result.1.items ≡ self.entry.ports }
        ensures host { result.2 ≡ self.entry.host }
        ensures commands { result.3 ≡ self.entry.commands }
        ensures run { IsRun self.entry }
        ensures passes { Passes self.entry }
    {
        let PmWorker {
            pm,
            ports,
            host,
            commands,
            hand: _,
            alloc: _,
        } = self;
        (pm, ports, host, commands)
    }

    /// Port `n` records what comes next on its presence link. A change that the port refuses leaves
    /// the port as it is.
    fn record<R: Wait>(&mut self, rt: &R, n: u8) -> bool
        requires { n < length self.old.ports }
        ensures links { SameLinks self.old self.new }
        ensures count { length self.new.ports ≡ length self.old.ports }
    {
        let port = &mut self.ports[usize::from(n)];
        match port.presence.take(rt) {
            None => return false,
            Some(Presence::Came(conn)) => {
                let _ = self.pm.came(n, conn);
            }
            Some(Presence::Gone(conn)) => {
                let _ = self.pm.gone(n, conn);
            }
        }
        true
    }

    /// Takes the next FIS of the device at port `n`, if the port holds none.
    fn receive<R: Wait>(&mut self, rt: &R, n: u8) -> bool
        requires { n < length self.old.ports }
        ensures links { SameLinks self.old self.new }
        ensures count { length self.new.ports ≡ length self.old.ports }
    {
        if self.pm.hold(n).is_some() {
            return false;
        }
        let port = &mut self.ports[usize::from(n)];
        let Some(FromDevice(frame)) = port.frames.take(rt) else {
            return false;
        };
        match self.pm.from_device(n, frame) {
            Ok(_) => true,
            Err(_) => unreachable!(),
        }
    }

    /// Sends the FIS that waits for the device at port `n`. It goes on waiting if the link is full.
    fn pass_down<R: Wait>(&mut self, rt: &R, n: u8) -> bool
        requires { n < length self.old.ports }
        ensures links { SameLinks self.old self.new }
        ensures count { length self.new.ports ≡ length self.old.ports }
    {
        let Some(frame) = self.pm.next_down(n) else {
            return false;
        };
        let port = &mut self.ports[usize::from(n)];
        match port.commands.send(rt, Down(frame)) {
            Ok(()) => true,
            Err(Full(Down(frame))) => {
                self.pm.put_back_down(n, frame);
                false
            }
        }
    }

    /// Takes the next FIS of the host into the empty hand.
    fn fetch<R: Wait>(&mut self, rt: &R) -> bool
        ensures links { SameLinks self.old self.new }
        ensures count { length self.new.ports ≡ length self.old.ports }
    {
        if self.hand.is_some() {
            return false;
        }
        let Some(Down(frame)) = self.commands.take(rt) else {
            return false;
        };
        self.hand = Some(frame);
        true
    }

    /// The multiplier takes the FIS in the hand. A FIS that it gives back stays there.
    fn hear(&mut self) -> Result<bool, AllocError>
        ensures links { SameLinks self.old self.new }
        ensures count { length self.new.ports ≡ length self.old.ports }
    {
        let Some(frame) = self.hand.take() else {
            return Ok(false);
        };
        match self.pm.from_host(self.alloc, frame) {
            Ok(_) => Ok(true),
            Err((frame, refusal)) => {
                self.hand = Some(frame);
                match refusal {
                    PmRefusal::HoldFull => Ok(false),
                    PmRefusal::OutOfMemory => Err(AllocError),
                }
            }
        }
    }

    /// Sends the FIS of the place that is served next up to the host. It goes back if the link is
    /// full.
    fn pass_up<R: Wait>(&mut self, rt: &R) -> Result<bool, AllocError>
        ensures links { SameLinks self.old self.new }
        ensures count { length self.new.ports ≡ length self.old.ports }
    {
        let Some(frame) = self.pm.next_up(self.alloc)? else {
            return Ok(false);
        };
        match self.host.send(rt, ToHost(frame)) {
            Ok(()) => Ok(true),
            Err(Full(ToHost(frame))) => {
                self.pm.put_back_up(frame);
                Ok(false)
            }
        }
    }

    /// Tries each step of port `n` once, and says whether anything moved.
    fn turn_at<R: Wait>(&mut self, rt: &R, n: u8) -> bool
        requires { n < length self.old.ports }
        ensures links { SameLinks self.old self.new }
        ensures count { length self.new.ports ≡ length self.old.ports }
    {
        let recorded = self.record(rt, n);
        let received = self.receive(rt, n);
        let passed = self.pass_down(rt, n);
        recorded || received || passed
    }

    /// Tries the steps of each port once. Rings for the device there if something went over a link.
    fn turn_ports<R: Wait>(&mut self, rt: &R, post: &Post<'_>) -> bool
        ensures { SameLinks self.old self.new }
    {
        let mut moved = false;
        for n in 0..self.ports.len() as u8 {
            if self.turn_at(rt, n) {
                post.ring(Who::Many(usize::from(n)));
                moved = true;
            }
        }
        moved
    }

    /// Takes a FIS of the host, and sends one up to it.
    fn serve_host<R: Wait>(&mut self, rt: &R) -> Result<Progress, AllocError>
        ensures links { SameLinks self.old self.new }
        ensures count { length self.new.ports ≡ length self.old.ports }
    {
        let fetched = self.fetch(rt);
        let heard = self.hear()?;
        let passed = self.pass_up(rt)?;
        Ok(Progress {
            is_any: fetched || heard || passed,
            is_over_links: fetched || passed,
        })
    }

    /// Takes FISes of the host, and sends some up to it, as long as anything moves.
    fn drain_host<R: Wait>(&mut self, rt: &R) -> Result<Progress, AllocError>
        ensures links { SameLinks self.old self.new }
        ensures count { length self.new.ports ≡ length self.old.ports }
    {
        let mut progress = Progress {
            is_any: false,
            is_over_links: false,
        };
        for _ in 0..BUDGET {
            let step = self.serve_host(rt)?;
            if !step.is_any {
                break;
            }
            progress.is_any = true;
            progress.is_over_links = progress.is_over_links || step.is_over_links;
        }
        Ok(progress)
    }

    /// Tries each step of the ports once, then those at the host as long as anything moves, and says
    /// whether anything moved. Rings once for the worker at the other end of each link that something
    /// went over.
    fn turn<R: Wait>(&mut self, rt: &R, post: &Post<'_>) -> Result<bool, AllocError>
        ensures { SameLinks self.old self.new }
    {
        let moved = self.turn_ports(rt, post);
        let host = self.drain_host(rt)?;
        if host.is_over_links {
            post.ring(Who::Other);
        }
        Ok(moved || host.is_any)
    }
}

impl<'a> Worker for PmWorker<'a> {
    type End = PmEnd<'a>;

    ghost use Rattle.std.specs.Prelude.{◌≡◌, IfSome};
    ghost use Rattle.pm_thread.specs.Runs.{SameLinks};

    ghost ended = { λ worker turns end. SameLinks worker end.worker
        × IfSome end.spent (λ spent. spent.turns ≡ turns) };

    fn work<R: Wait>(mut self, rt: &R, mut post: Post<'_>) -> PmEnd<'a> {
        let mut fault = None;
        for _ in 0..u64::MAX {
            if post.spent().is_some() || !post.begins() {
                break;
            }
            match self.turn(rt, &post) {
                Ok(moved) => post.turned(rt, moved),
                Err(_) => {
                    fault = Some(Fault::OutOfMemory);
                    break;
                }
            }
        }
        post.end();
        PmEnd {
            worker: self,
            fault,
            spent: post.spent(),
        }
    }
}
