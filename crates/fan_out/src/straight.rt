//! One device at the other end of the link.

ghost use Rattle.std.specs.Prelude.{false, ◌≡◌, ◌<◌};
ghost use Rattle.fan_out.specs.Straights.{GivesDown, GivesUp, IsStraight, OffersStraight, PlugsStraight, PullsStraight, SendsStraight, TellsStraight, addressed, joined, opening_straight, pointed, renewed, wants};

mod saved;

use crate::seat::{NotThere, PlugError, Seat};
use fis_view::{Frame, Stamp};
use multiplier::{Passed, PmRefusal};
use pm_ports::{Offered, Port};
use std::marker::Model;

/// One device straight behind the link, or none. It sees 0 as PM Port, as behind a multiplier. What it sends has the PM Port of
/// the FIS that it was given last: drivers reset it at port 15, and wait for its signature from there.
#[derive(Debug, Drop)]
pub struct Straight {
    port: Port,
    seat: Seat,
    // The PM Port of the FIS that the device was given last.
    asked: u8,
}

impl Model for Straight {
    ghost use Rattle.fan_out.specs.Straights.{IsStraight, StraightState};

    ghost Value = { StraightState };

    ghost view = { λ s. record { port = s.port; seat = s.seat; asked = s.asked } };

    ghost invariant = { λ s. IsStraight (record { port = s.port; seat = s.seat; asked = s.asked }) };
}

// A frame of the host as it waits for the device of this connection.
fn addressed(conn: u32, mut frame: Frame) -> Frame
    ensures { result ≡ addressed conn frame }
{
    let stamp = frame.stamp();
    frame.set_stamp(Stamp { conn, ..stamp });
    frame
}

// A frame with this PM Port.
fn pointed(port: u8, mut frame: Frame) -> Frame
    requires { port < 16 }
    ensures { result ≡ pointed port frame }
{
    frame.set_pm_port(port);
    frame
}

impl Straight {
    // With no device.
    pub(crate) fn new() -> Straight
        ensures { result ≡ opening_straight }
    {
        Straight {
            port: Port::new(),
            seat: Seat::empty(),
            asked: 0,
        }
    }

    // A device alone is at port 0.
    pub(crate) fn ports(&self) -> u8
        ensures value { result ≡ 1 }
        ensures sound { IsStraight self.now }
    {
        let _ = &self.port;
        1
    }

    // Whether a device is there.
    pub(crate) fn is_there(&self) -> bool
        ensures { result ≡ self.now.seat.is_there }
    {
        self.seat.is_there
    }

    // A device comes, as this connection.
    fn join(&mut self, conn: u32)
        requires free { self.old.seat.is_there ≡ false }
        requires next { self.old.seat.last < conn }
        ensures { self.new ≡ joined self.old conn }
    {
        match self.port.came(conn) {
            Ok(()) => {}
            Err(_) => unreachable!(),
        }
        self.seat = Seat::of(conn);
        self.asked = 0;
    }

    // A device is plugged in, as the next connection.
    pub(crate) fn plug(&mut self) -> Result<(), PlugError>
        ensures { PlugsStraight self.old result self.new }
    {
        let conn = self.seat.next_connection()?;
        self.join(conn);
        Ok(())
    }

    // The device is pulled, and the frames that wait are dropped.
    pub(crate) fn pull(&mut self) -> Result<(), NotThere>
        ensures { PullsStraight self.old result self.new }
    {
        if !self.seat.is_there {
            return Err(NotThere);
        }
        match self.port.gone(self.seat.last) {
            Ok(()) => {}
            Err(_) => unreachable!(),
        }
        self.seat = self.seat.left();
        Ok(())
    }

    // The link was reset: nothing is on its way, and the device is to begin anew.
    pub(crate) fn renew(&mut self)
        ensures { self.new ≡ renewed self.old }
    {
        let is_there = self.seat.is_there;
        *self = Straight::new();
        if is_there {
            self.join(1);
        }
    }

    // Takes a frame of the host, or gives it back where another waits. Where no device is, it is dropped.
    pub(crate) fn send(&mut self, frame: Frame) -> Result<Passed, (Frame, PmRefusal)>
        ensures { SendsStraight self.old frame result self.new }
    {
        if !self.seat.is_there {
            return Ok(Passed::Dropped);
        }
        if !self.port.has_room_down() {
            return Err((frame, PmRefusal::HoldFull));
        }
        match self.port.put_down(addressed(self.seat.last, frame)) {
            Ok(()) => Ok(Passed::Down(0)),
            Err(_) => unreachable!(),
        }
    }

    // Gives the frame for the device.
    pub(crate) fn next_down(&mut self) -> Option<Frame>
        ensures { GivesDown self.old result self.new }
    {
        let frame = self.port.take_down()?;
        self.asked = frame.pm_port();
        Some(pointed(0, frame))
    }

    // Whether a device is there and a frame of it has room.
    pub(crate) fn wants(&self) -> bool
        ensures { result ≡ wants self.now }
    {
        self.seat.is_there && self.port.wants()
    }

    // Takes a frame of the device, or gives it back where another waits. Where no device is, it is dropped.
    pub(crate) fn offer(&mut self, frame: Frame) -> Result<Offered, Frame>
        ensures { OffersStraight self.old frame result self.new }
    {
        if self.port.present().is_none() {
            return Ok(Offered::Dropped);
        }
        if !self.port.wants() {
            return Err(frame);
        }
        let frame = pointed(self.asked, self.seat.sent_from(0, frame));
        match self.port.offer(frame) {
            Ok(Offered::Held) => {
                self.seat = self.seat.after_sent();
                Ok(Offered::Held)
            }
            _ => unreachable!(),
        }
    }

    // Gives the frame for the host.
    pub(crate) fn next_up(&mut self) -> Option<Frame>
        ensures { GivesUp self.old result self.new }
    {
        self.port.take_held(true)
    }

    // Says that the device is to begin anew, once.
    pub(crate) fn next_begun(&mut self) -> Option<u8>
        ensures { TellsStraight self.old result self.new }
    {
        if !self.seat.begun {
            return None;
        }
        self.seat = self.seat.told();
        Some(0)
    }
}
