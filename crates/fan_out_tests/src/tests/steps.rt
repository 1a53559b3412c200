//! Tests as lists of steps: what is done behind the port of a host, and what comes of it.
//!
//! Clauses see a `Rig` as a number, and its functions have no contract. A list is data, and `play` has the only assertion.
//! So a test is proved with little work.

use fan_out::{FanOut, PlugError};
use fis_view::{Frame, FrameError, Stamp};
use multiplier::{Passed, PmRefusal};
use pm_ports::Offered;
use std::alloc::Global;
use std::marker::Model;
use std::process::Abort;

/// What became of a frame of a device.
#[derive(Clone, Copy, PartialEq, Eq)]
pub(super) enum Taken {
    /// It waits.
    Held,
    /// Nobody is there who sent it.
    Dropped,
    /// It came back.
    Back,
}

/// A step of a test.
#[derive(Clone, Copy)]
pub(super) enum Step {
    /// A link for one device.
    Straight,
    /// A multiplier with four ports of which port 0 is open from the start, or not.
    Multiplied(bool),
    /// A device is plugged in at a port.
    Plugs(u8),
    /// It cannot be.
    CannotPlug(u8, PlugError),
    /// The device of a port is pulled.
    Pulls(u8),
    /// None is there.
    CannotPull(u8),
    /// The link is reset.
    Renews,
    /// The device of this port is told to begin anew.
    Begins(u8),
    /// No further one is.
    NoneBegins,
    /// The host writes a register of a port: the port, the register and the value. The answer goes up next.
    Writes(u8, u8, u32),
    /// A FIS of the host goes there.
    Sends(&'static [u8], Passed),
    /// A FIS of the host has to wait.
    HasNoRoom(&'static [u8]),
    /// The next FIS for the device at a port.
    Down(u8, &'static [u8]),
    /// There is none.
    NoneDown(u8),
    /// Whether a FIS of the device at a port has room.
    Wants(u8, bool),
    /// A FIS of the device at a port.
    Offers(u8, &'static [u8], Taken),
    /// The next FIS for the host: the connection and the number in its stamp, and its bytes.
    Up(u32, u32, &'static [u8]),
    /// There is none.
    NoneUp,
}

/// What is behind the port of a host.
#[derive(Drop)]
struct Rig {
    alloc: Global,
    end: FanOut,
}

impl Model for Rig {
    ghost use Rattle.std.specs.Prelude.{ℕ};

    ghost Value = { ℕ };

    ghost view = { λ _. 0 };
}

fn frame(alloc: Global, bytes: &[u8]) -> Result<Frame, FrameError> {
    let stamp = Stamp {
        port: 0,
        conn: 0,
        number: 0,
        shown: [0; 15],
    };
    Frame::from_bytes(alloc, bytes, stamp)
}

impl Rig {
    fn opens(&mut self, end: FanOut) -> bool {
        self.end = end;
        true
    }

    fn renews(&mut self) -> bool {
        self.end.renew();
        true
    }

    fn sends(&mut self, bytes: &[u8], wanted: Passed) -> bool {
        match frame(self.alloc, bytes) {
            Ok(frame) => matches!(self.end.send(self.alloc, frame), Ok(passed) if passed == wanted),
            Err(_) => false,
        }
    }

    fn has_no_room(&mut self, bytes: &[u8]) -> bool {
        match frame(self.alloc, bytes) {
            Ok(frame) => {
                let full = self.end.send(self.alloc, frame);
                matches!(full, Err((_, PmRefusal::HoldFull)))
            }
            Err(_) => false,
        }
    }

    fn writes(&mut self, n: u8, register: u8, value: u32) -> bool {
        let [low, second, third, high] = value.to_le_bytes();
        let command = [
            0x27, 0x8F, 0xE8, register, second, third, high, n, 0, 0, 0, 0, low, 0, 0, 0, 0, 0, 0,
            0,
        ];
        self.sends(&command, Passed::Control) && matches!(self.end.next_up(self.alloc), Ok(Some(_)))
    }

    fn offers(&mut self, n: u8, bytes: &[u8], wanted: Taken) -> bool {
        let Ok(frame) = frame(self.alloc, bytes) else {
            return false;
        };
        let taken = match self.end.offer(n, frame) {
            Ok(Offered::Held) => Taken::Held,
            Ok(Offered::Dropped) => Taken::Dropped,
            Err(_) => Taken::Back,
        };
        taken == wanted
    }

    fn down(&mut self, n: u8, bytes: &[u8]) -> bool {
        match self.end.next_down(n) {
            Some(frame) => frame.bytes() == bytes,
            None => false,
        }
    }

    fn up(&mut self, conn: u32, number: u32, bytes: &[u8]) -> bool {
        match self.end.next_up(self.alloc) {
            Ok(Some(frame)) => {
                let stamp = frame.stamp();
                frame.bytes() == bytes && stamp.conn == conn && stamp.number == number
            }
            _ => false,
        }
    }

    /// Whether a step is as it says.
    fn is_done(&mut self, step: Step) -> bool {
        match step {
            Step::Straight => self.opens(FanOut::straight()),
            Step::Multiplied(legacy) => self.opens(FanOut::multiplied(4, legacy)),
            Step::Plugs(n) => self.end.plug(n).is_ok(),
            Step::CannotPlug(n, error) => self.end.plug(n) == Err(error),
            Step::Pulls(n) => self.end.pull(n).is_ok(),
            Step::CannotPull(n) => self.end.pull(n).is_err(),
            Step::Renews => self.renews(),
            Step::Begins(n) => self.end.next_begun() == Some(n),
            Step::NoneBegins => self.end.next_begun().is_none(),
            Step::Writes(n, register, value) => self.writes(n, register, value),
            Step::Sends(bytes, passed) => self.sends(bytes, passed),
            Step::HasNoRoom(bytes) => self.has_no_room(bytes),
            Step::Down(n, bytes) => self.down(n, bytes),
            Step::NoneDown(n) => self.end.next_down(n).is_none(),
            Step::Wants(n, wanted) => self.end.wants(n) == wanted,
            Step::Offers(n, bytes, wanted) => self.offers(n, bytes, wanted),
            Step::Up(conn, number, bytes) => self.up(conn, number, bytes),
            Step::NoneUp => matches!(self.end.next_up(self.alloc), Ok(None)),
        }
    }

    /// The number of the first step that is not as it says.
    fn first_wrong(&mut self, steps: &[Step]) -> Option<usize> {
        for (i, step) in steps.iter().enumerate() {
            if !self.is_done(*step) {
                return Some(i);
            }
        }
        None
    }
}

/// Each step is as it says.
pub(super) fn play(rt: &impl Abort, alloc: Global, steps: &[Step]) {
    let mut rig = Rig {
        alloc,
        end: FanOut::straight(),
    };
    assert_eq!(rt; rig.first_wrong(steps), None, "the number of a step");
}
