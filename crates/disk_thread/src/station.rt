//! A device at its port.

ghost use Rattle.std.specs.Prelude.{◌≡◌, ◌<◌, ◌≤◌, [], true, length, slice_index_or, All, Err, IfErr, IfNone, IfSome, None, Ok, OnErr, OnOk};
ghost use Rattle.disk_model.specs.Histories.{GoesOn, Received};
ghost use Rattle.multiplier.specs.Orders.{of_connection};
ghost use Rattle.runner.specs.declared.worker.Fault.TheVariants as fault;
ghost use Rattle.disk_thread.specs.Runs.{AreTold, GoesOnRunning, IsAtSamePort, IsRun, all_given, all_told};

use crate::gate::Gate;
use disk_model::Device;
use fis_view::{Frame, Stamp};
use link_items::{Down, FromDevice, Presence};
use ruled_links::{Full, Rx, Tx};
use runner::Fault;
use std::alloc::{AllocError, Global};
use std::marker::Model;
use std::sync::Wait;

/// A device with the seats of its links, and a place before each link on which it sends.
#[derive(Drop)]
pub struct Station<'a, D: Device + Drop> {
    unit: D,
    port: u8,
    conn: u32,
    plugged: bool,
    number: u32,
    commands: Rx<'a, Down>,
    frames: Tx<'a, FromDevice>,
    presence: Tx<'a, Presence>,
    hand: Option<Frame>,
    note: Option<Presence>,
    /// How many FISes the device gave on each connection before this one, from 0 on.
    past: Vec<u32>,
    /// How many it gave on all connections.
    given: u64,
    /// After how many FISes each pull is due that was not made yet.
    pulls: Vec<u32>,
}

/// The place of a pull that is due once this many FISes were given.
fn due(pulls: &[u32], given: u64) -> Option<usize>
    ensures there { IfSome result (λ i. i < length pulls.now) }
    ensures due { IfSome result (λ i. slice_index_or pulls.now i 0 ≤ given) }
    ensures none { IfNone result (All (λ after. given < after) pulls.now) }
{
    pulls.iter().position(|after| u64::from(*after) <= given)
}

/// The device at this port hears a FIS of the host, which has passed the gate.
fn hear<D: Device, G: Gate>(
    unit: &mut D,
    alloc: Global,
    frame: &Frame,
    _gate: &G,
    _port: u8,
) -> Result<(), AllocError>
    requires passed { G.let_in _gate.now _port }
    ensures ok { OnOk result (GoesOn D.plan_of D.stands_for unit.old (Received frame.now.bytes) unit.new) }
    ensures err { OnErr result (unit.new ≡ unit.old) }
{
    unit.on_frame(alloc, frame)
}

impl<'a, D: Device + Drop> Model for Station<'a, D> {
    ghost use Rattle.std.specs.Prelude.{◌≡◌, ◌++◌, length};
    ghost use Rattle.std.specs.Option.{option_to_list};
    ghost use Rattle.disk_thread.specs.Runs.{ArePast, AreTold, IsCounted, StationState};

    ghost Value = { StationState D };

    ghost view = { λ s. record {
      unit = s.unit;
      port = s.port;
      standing = record { conn = s.conn; plugged = s.plugged };
      number = s.number;
      commands = s.commands;
      frames = s.frames;
      presence = s.presence;
      hand = s.hand;
      note = s.note;
      left = s.pulls.items;
    } };

    ghost invariant = { λ s. IsCounted (s.frames.sent ++ option_to_list s.hand) s.conn s.number
        × ArePast s.past.items s.conn (s.frames.sent ++ option_to_list s.hand)
        × AreTold (s.presence.sent ++ option_to_list s.note) s.conn
        × (s.given ≡ length (s.frames.sent ++ option_to_list s.hand)) };
}

impl<'a, D: Device + Drop> Station<'a, D> {
    /// A device that was not plugged in yet, with seats that were not used. It has done no deed. It
    /// is to be pulled out, and plugged in again, after as many of its FISes as each of the pulls
    /// says.
    pub fn new(
        alloc: Global,
        port: u8,
        unit: D,
        commands: Rx<'a, Down>,
        frames: Tx<'a, FromDevice>,
        presence: Tx<'a, Presence>,
        pulls: Vec<u32>,
    ) -> Self
        requires commands { commands.taken ≡ [] }
        requires frames { frames.sent ≡ [] }
        requires presence { presence.sent ≡ [] }
        ensures run { IsRun D.plan_of D.stands_for D.may_send pulls.items unit result }
        ensures port { result.port ≡ port }
        ensures commands { result.commands ≡ commands.entry }
        ensures frames { result.frames ≡ frames.entry }
        ensures presence { result.presence ≡ presence.entry }
    {
        Station {
            unit,
            port,
            conn: 0,
            plugged: false,
            number: 0,
            commands,
            frames,
            presence,
            hand: None,
            note: None,
            past: Vec::new(alloc),
            given: 0,
            pulls,
        }
    }

    /// The connection that the device has, or had last: 0 before the first. All from 1 to this one have come.
    pub fn conn(&self) -> u32
        ensures conn { result ≡ self.now.standing.conn }
        ensures come { AreTold (all_told self.now) result }
    {
        self.conn
    }

    /// How many FISes the device gave on this connection.
    #[tactic(auto, using(crate::proofs::CountLemmas::none_later))]
    pub fn given_on(&self, conn: u32) -> u64
        ensures { result ≡ length (of_connection conn (all_given self.now)) }
    {
        if conn == self.conn {
            return u64::from(self.number);
        }
        if conn > self.conn {
            return 0;
        }
        u64::from(self.past[conn as usize])
    }

    /// Pulls the device out, if a pull is due, the device is plugged in and that was told. It may
    /// come again under a later connection.
    pub(crate) fn pull(&mut self) -> bool
        ensures run { GoesOnRunning D.plan_of D.stands_for D.may_send self.old self.new }
        ensures port { IsAtSamePort self.old self.new }
    {
        if !self.plugged || self.note.is_some() {
            return false;
        }
        let Some(i) = due(self.pulls.as_slice(), self.given) else {
            return false;
        };
        self.pulls.remove(i);
        self.plugged = false;
        self.note = Some(Presence::Gone(self.conn));
        true
    }

    /// Plugs the device in under its next connection, if it is out and that was told.
    pub(crate) fn plug(&mut self, alloc: Global) -> Result<bool, Fault>
        ensures run { OnOk result (GoesOnRunning D.plan_of D.stands_for D.may_send self.old self.new) }
        ensures port { IsAtSamePort self.old self.new }
        ensures fault { IfErr result (λ f. f ≡ fault.OutOfMemory) }
    {
        if self.plugged || self.note.is_some() || self.conn == u32::MAX {
            return Ok(false);
        }
        if self.unit.plugged(alloc).is_err() {
            return Err(Fault::OutOfMemory);
        }
        if self.past.push(self.number).is_err() {
            return Err(Fault::OutOfMemory);
        }
        self.conn += 1;
        self.plugged = true;
        self.number = 0;
        self.note = Some(Presence::Came(self.conn));
        Ok(true)
    }

    /// Tells that a connection came or went, once there is room on the link.
    pub(crate) fn tell<R: Wait>(&mut self, rt: &R) -> bool
        ensures run { GoesOnRunning D.plan_of D.stands_for D.may_send self.old self.new }
        ensures port { IsAtSamePort self.old self.new }
    {
        let Some(change) = self.note.take() else {
            return false;
        };
        match self.presence.send(rt, change) {
            Ok(()) => true,
            Err(Full(change)) => {
                self.note = Some(change);
                false
            }
        }
    }

    /// Takes a FIS of the host off its link, if the device is plugged in. The FIS passes the gate,
    /// and the device sees it if it is for the device's connection.
    pub(crate) fn take<R: Wait, G: Gate>(
        &mut self,
        rt: &R,
        alloc: Global,
        gate: &G,
    ) -> Result<bool, Fault>
        ensures run { OnOk result (GoesOnRunning D.plan_of D.stands_for D.may_send self.old self.new) }
        ensures port { IsAtSamePort self.old self.new }
        ensures gate { result ≡ Err fault.GateShut → G.may_refuse }
        ensures told { result ≡ Ok true → self.old.note ≡ None }
    {
        if self.note.is_some() || !self.plugged {
            return Ok(false);
        }
        let Some(Down(frame)) = self.commands.take(rt) else {
            return Ok(false);
        };
        if gate.enter(self.port).is_err() {
            return Err(Fault::GateShut);
        }
        if frame.stamp().conn == self.conn
            && hear(&mut self.unit, alloc, &frame, gate, self.port).is_err()
        {
            return Err(Fault::OutOfMemory);
        }
        Ok(true)
    }

    /// Lets the device give its next FIS, if it is plugged in, that was told, no pull is due, and the
    /// FIS before has left.
    pub(crate) fn give(&mut self, alloc: Global) -> Result<bool, Fault>
        ensures run { OnOk result (GoesOnRunning D.plan_of D.stands_for D.may_send self.old self.new) }
        ensures port { IsAtSamePort self.old self.new }
        ensures fault { IfErr result (λ f. f ≡ fault.OutOfMemory) }
        ensures told { result ≡ Ok true → self.old.note ≡ None }
    {
        if self.hand.is_some() || !self.plugged || self.note.is_some() || self.number == u32::MAX {
            return Ok(false);
        }
        if self.given == u64::MAX || due(self.pulls.as_slice(), self.given).is_some() {
            return Ok(false);
        }
        let stamp = Stamp {
            port: self.port,
            conn: self.conn,
            number: self.number,
            shown: [0; 15],
        };
        match self.unit.next_out(alloc, stamp) {
            Ok(Some(frame)) => {
                self.hand = Some(frame);
                self.number += 1;
                self.given += 1;
                Ok(true)
            }
            Ok(None) => Ok(false),
            Err(_) => Err(Fault::OutOfMemory),
        }
    }

    /// Sends the FIS in the hand, once there is room on the link.
    pub(crate) fn send<R: Wait>(&mut self, rt: &R) -> bool
        ensures run { GoesOnRunning D.plan_of D.stands_for D.may_send self.old self.new }
        ensures port { IsAtSamePort self.old self.new }
    {
        let Some(frame) = self.hand.take() else {
            return false;
        };
        match self.frames.send(rt, FromDevice(frame)) {
            Ok(()) => true,
            Err(Full(FromDevice(frame))) => {
                self.hand = Some(frame);
                false
            }
        }
    }

    /// The device and the seats, once the run is over.
    pub fn into_parts(self) -> (D, Rx<'a, Down>, Tx<'a, FromDevice>, Tx<'a, Presence>)
        ensures unit { result.0 ≡ self.entry.unit }
        ensures commands { result.1 ≡ self.entry.commands }
        ensures frames { result.2 ≡ self.entry.frames }
        ensures presence { result.3 ≡ self.entry.presence }
    {
        (self.unit, self.commands, self.frames, self.presence)
    }
}
