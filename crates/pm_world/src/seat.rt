ghost use Rattle.std.specs.Prelude.{◌≡◌, ◌↔◌, ◌≤◌, [], IsTrue, IfOk, false, length, vec_capacity};
ghost use Rattle.fis_view.specs.Frames.{IsFrame};
ghost use Rattle.pm_world.specs.Places.{FirstIsRead, FirstLeaves, IsFull, opening, pushed, stamp_of};
ghost use Rattle.pm_world.specs.Rules.{CameRule, DiskSendRule, DiskTakeRule, GoneRule, InjectRule, is_for};
ghost use Rattle.pm_world.specs.Rules.{came_refusal, gone_refusal, send_refusal, inject_refusal};

use crate::device::PortDevice;
use crate::link::{Change, Link, PresenceLink};
use crate::step::{Answer, StepError};
use fis_view::{Bytes, Frame, FrameError, Stamp, is_frame_length};
use std::alloc::{AllocError, Global};
use std::marker::Model;

/// The place of a device: the device, its connection, its links to the multiplier and from it, and the
/// presence link. On the presence link, connections that came or went wait to be recorded.
#[derive(Drop)]
pub struct Seat<D: PortDevice + Drop> {
    unit: D,
    plugged: bool,
    conn: u32,
    number: u32,
    up: Link,
    down: Link,
    presence: PresenceLink,
    // Room for the bytes of a frame that goes, for where there is no memory for them.
    spare: Vec<u8>,
}

impl<D: PortDevice + Drop> Model for Seat<D> {
    ghost use Rattle.pm_world.specs.Places.{Place};

    ghost Value = { Place };

    ghost view = { λ s. record {
      unit = D.seen s.unit;
      plugged = s.plugged;
      conn = s.conn;
      number = s.number;
      up = s.up;
      down = s.down;
      presence = s.presence;
    } };
}

impl<D: PortDevice + Drop> Seat<D> {
    /// The place of a unit that is not plugged in, with links of this capacity.
    pub fn new(alloc: Global, capacity: usize, unit: D) -> Result<Self, AllocError>
        ensures { IfOk result (λ seat. seat ≡ opening capacity (D.seen unit)) }
    {
        Ok(Seat {
            unit,
            plugged: false,
            conn: 0,
            number: 0,
            up: Link::new(alloc, capacity)?,
            down: Link::new(alloc, capacity)?,
            presence: PresenceLink::new(alloc, capacity)?,
            spare: Vec::new(alloc),
        })
    }

    /// The link from the device.
    pub fn up(&self) -> &Link
        ensures { result.now ≡ self.now.up }
    {
        &self.up
    }

    /// The link to the device.
    pub fn down(&self) -> &Link
        ensures { result.now ≡ self.now.down }
    {
        &self.down
    }

    /// The unit.
    pub fn unit(&self) -> &D
        ensures { D.seen result.now ≡ self.now.unit }
    {
        &self.unit
    }

    pub fn is_empty(&self) -> bool
        ensures { IsTrue result ↔ (self.now.up.frames ≡ []) }
    {
        self.up.is_empty()
    }

    pub fn came_refusal(&self) -> Option<StepError>
        ensures { result ≡ came_refusal self.now }
    {
        if self.plugged {
            return Some(StepError::AlreadyThere);
        }
        (self.conn == u32::MAX).then_some(StepError::Spent)
    }

    pub fn gone_refusal(&self) -> Option<StepError>
        ensures { result ≡ gone_refusal self.now }
    {
        (!self.plugged).then_some(StepError::NotThere)
    }

    pub fn send_refusal(&self) -> Option<StepError>
        ensures { result ≡ send_refusal self.now }
    {
        (self.number == u32::MAX).then_some(StepError::Spent)
    }

    pub fn inject_refusal(&self, bytes: &[u8]) -> Option<StepError>
        ensures { result ≡ inject_refusal bytes.now self.now }
    {
        if !self.plugged {
            return Some(StepError::NotThere);
        }
        if !is_frame_length(bytes) {
            return Some(StepError::BadBytes);
        }
        self.send_refusal()
    }

    /// Plugs the unit, under the next connection.
    pub fn came(&mut self, alloc: Global, port: u8) -> Result<Answer, StepError>
        ensures { CameRule port self.old result self.new }
    {
        if let Some(e) = self.came_refusal() {
            return Err(e);
        }
        if self.presence.is_full() {
            return Ok(Answer::Blocked);
        }
        self.unit.plug(alloc)?;
        self.plugged = true;
        self.conn += 1;
        self.number = 0;
        self.presence.post(Change::Came(self.conn));
        Ok(Answer::Came {
            port,
            conn: self.conn,
        })
    }

    /// Unplugs the unit. Frames on its links stay there.
    pub fn gone(&mut self, port: u8) -> Result<Answer, StepError>
        ensures { GoneRule port self.old result self.new }
    {
        if let Some(e) = self.gone_refusal() {
            return Err(e);
        }
        if self.presence.is_full() {
            return Ok(Answer::Blocked);
        }
        self.plugged = false;
        self.presence.post(Change::Gone(self.conn));
        Ok(Answer::Gone {
            port,
            conn: self.conn,
        })
    }

    /// Lets the unit send its next frame.
    pub fn disk_send(&mut self, alloc: Global, port: u8) -> Result<Answer, StepError>
        ensures { DiskSendRule port self.old result self.new }
    {
        if let Some(e) = self.send_refusal() {
            return Err(e);
        }
        if !self.plugged {
            return Ok(Answer::Idle);
        }
        if self.up.is_full() {
            return Ok(Answer::Blocked);
        }
        make_room(alloc, &mut self.spare)?;
        let stamp = self.stamp(port);
        match self.unit.send(alloc, stamp)? {
            None => Ok(Answer::Idle),
            Some(frame) => {
                let bytes = copied(alloc, &mut self.spare, frame.bytes());
                self.number += 1;
                self.up.push(frame);
                Ok(Answer::Sent {
                    port,
                    conn: stamp.conn,
                    number: stamp.number,
                    bytes,
                })
            }
        }
    }

    /// Sends these bytes as the unit.
    pub fn inject(&mut self, alloc: Global, port: u8, bytes: &[u8]) -> Result<Answer, StepError>
        ensures { InjectRule port bytes.now self.old result self.new }
    {
        if let Some(e) = self.inject_refusal(bytes) {
            return Err(e);
        }
        if self.up.is_full() {
            return Ok(Answer::Blocked);
        }
        let sent = Bytes::from_slice(alloc, bytes)?;
        let stamp = self.stamp(port);
        let frame = frame_from(alloc, bytes, stamp)?;
        self.number += 1;
        self.up.push(frame);
        Ok(Answer::Sent {
            port,
            conn: stamp.conn,
            number: stamp.number,
            bytes: sent,
        })
    }

    /// Lets the unit take the first frame of its link, if the frame is for it. Any other frame is
    /// dropped.
    pub fn disk_take(&mut self, alloc: Global, port: u8) -> Result<Answer, StepError>
        ensures { DiskTakeRule port self.old result self.new }
    {
        let Some(frame) = self.down.take() else {
            return Ok(Answer::Idle);
        };
        let dropped = !self.is_for(&frame);
        if !dropped && self.unit.hear(alloc, &frame).is_err() {
            self.down.put_back(frame);
            return Err(StepError::OutOfMemory);
        }
        Ok(Answer::DiskTook { port, dropped })
    }

    // Whether a frame is for the unit: it is plugged in under the frame's connection.
    fn is_for(&self, frame: &Frame) -> bool
        ensures { result ≡ is_for self.now frame.now }
    {
        self.plugged && frame.stamp().conn == self.conn
    }

    /// Whether the link to the unit is full.
    pub fn is_full_down(&self) -> bool
        ensures { IsTrue result ↔ IsFull self.now.down }
    {
        self.down.is_full()
    }

    /// Puts a frame on the link to the unit.
    pub fn push_down(&mut self, frame: Frame)
        requires { ¬ IsFull self.old.down }
        ensures { self.new ≡ record self.old { down = pushed self.old.down frame } }
    {
        self.down.push(frame);
    }

    /// Takes the first change off the presence link.
    pub fn next_change(&mut self) -> Option<Change>
        ensures first { FirstIsRead self.old.presence result self.new.presence }
        ensures others { self.new ≡ record self.old { presence = self.new.presence } }
    {
        self.presence.take()
    }

    /// Takes the first frame off the link.
    pub fn take(&mut self) -> Option<Frame>
        ensures first { FirstLeaves self.old.up result self.new.up }
        ensures others { self.new ≡ record self.old { up = self.new.up } }
    {
        self.up.take()
    }

    fn stamp(&self, port: u8) -> Stamp
        ensures { result ≡ stamp_of port self.now }
    {
        Stamp {
            port,
            conn: self.conn,
            number: self.number,
            shown: [0; 15],
        }
    }
}

/// Sees to it that there is room for the bytes of any frame.
fn make_room(alloc: Global, room: &mut Vec<u8>) -> Result<(), AllocError>
    ensures { IfOk result (λ _. 8196 ≤ vec_capacity room.new) }
{
    if room.capacity() < 8196 {
        *room = Vec::with_capacity(alloc, 8196)?;
    }
    Ok(())
}

/// A copy of a frame's bytes. Where there is no memory for it, it takes the room that was made.
fn copied(alloc: Global, room: &mut Vec<u8>, bytes: &[u8]) -> Bytes
    requires { length bytes.now ≤ vec_capacity room.old }
    ensures { result ≡ bytes.now }
{
    if let Ok(copy) = Bytes::from_slice(alloc, bytes) {
        return copy;
    }
    let mut copy = std::mem::replace(room, Vec::new(alloc));
    copy.clear();
    let _ = copy.extend_from_slice(bytes);
    copy.shrink_to_fit();
    Bytes::from_vec(copy)
}

/// The frame of these bytes.
fn frame_from(alloc: Global, bytes: &[u8], stamp: Stamp) -> Result<Frame, AllocError>
    requires { IsFrame bytes.now }
    ensures { IfOk result (λ frame. frame ≡ record { bytes = bytes.now; stamp = stamp }) }
{
    match Frame::from_bytes(alloc, bytes, stamp) {
        Ok(frame) => Ok(frame),
        Err(FrameError::OutOfMemory) => Err(AllocError),
        Err(FrameError::BadLength) => unreachable!(),
    }
}
