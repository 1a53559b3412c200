//! What no clause says: values from outside, and that calls succeed.

use fis_view::{Frame, FrameError, Stamp};
use pm_ports::{GoneError, Offered, Port, PortError};
use std::alloc::{AllocError, Global};
use std::marker::Model;
use std::process::Abort;

/// A step of a test.
#[derive(Clone, Copy)]
enum Step {
    /// The device of this connection comes.
    Comes(u32),
    /// It cannot come.
    CannotCome(u32, PortError),
    /// The device of this connection goes.
    Goes(u32),
    /// It is not there, and cannot go.
    CannotGo(u32),
    /// A frame of this connection is offered, with this answer.
    Offers(u32, Offered),
    /// Whether a frame is held.
    Holds(bool),
    /// The held frame goes up, or there is none that may.
    GoesUp(bool),
    /// A frame of this connection is put down.
    PutsDown(u32),
    /// A frame goes down, or there is none.
    GoesDown(bool),
    /// The highest connection that went.
    HighestGone(u32),
}

/// A port. Clauses see it as a number, and its functions have no contract, so a test is proved with little work.
#[derive(Drop)]
struct Rig {
    alloc: Global,
    port: Port,
}

impl Model for Rig {
    ghost use Rattle.std.specs.Prelude.{ℕ};

    ghost Value = { ℕ };

    ghost view = { λ _. 0 };
}

/// A Set Device Bits FIS that a device at port 3 sent.
fn frame(alloc: Global, conn: u32) -> Result<Frame, FrameError> {
    let stamp = Stamp {
        port: 3,
        conn,
        number: 0,
        shown: [0; 15],
    };
    Frame::from_bytes(alloc, &[0xA1, 0x43, 0x50, 0, 0x20, 0, 0, 0], stamp)
}

impl Rig {
    fn offers(&mut self, conn: u32, answer: Offered) -> bool {
        match frame(self.alloc, conn) {
            Ok(frame) => self.port.offer(frame).ok() == Some(answer),
            Err(_) => false,
        }
    }

    fn puts_down(&mut self, conn: u32) -> bool {
        match frame(self.alloc, conn) {
            Ok(frame) => self.port.put_down(frame).is_ok(),
            Err(_) => false,
        }
    }

    /// Whether a step is as it says.
    fn passes(&mut self, step: Step) -> bool {
        match step {
            Step::Comes(conn) => self.port.came(conn) == Ok(()),
            Step::CannotCome(conn, error) => self.port.came(conn) == Err(error),
            Step::Goes(conn) => self.port.gone(conn) == Ok(()),
            Step::CannotGo(conn) => self.port.gone(conn) == Err(GoneError::NotThere),
            Step::Offers(conn, answer) => self.offers(conn, answer),
            Step::Holds(does) => self.port.hold().is_some() == does,
            Step::GoesUp(does) => self.port.take_held(true).is_some() == does,
            Step::PutsDown(conn) => self.puts_down(conn),
            Step::GoesDown(does) => self.port.take_down().is_some() == does,
            Step::HighestGone(conn) => self.port.highest_gone() == conn,
        }
    }

    /// The number of the first step that is not as it says.
    fn first_wrong(&mut self, steps: &[Step]) -> Option<usize> {
        for (i, step) in steps.iter().enumerate() {
            if !self.passes(*step) {
                return Some(i);
            }
        }
        None
    }
}

/// Each step of a new port is as it says.
fn play(rt: &impl Abort, alloc: Global, steps: &[Step]) {
    let mut rig = Rig {
        alloc,
        port: Port::new(),
    };
    assert_eq!(rt; rig.first_wrong(steps), None, "the number of a step");
}

#[test]
fn refusals_have_numbers_and_texts(rt: HostRuntime) -> Result<(), AllocError> {
    let text = format!(in rt.alloc();
        "{}, {}, {}",
        PortError::AlreadyThere,
        PortError::OldConnection,
        GoneError::NotThere
    )?;
    assert!(rt; text.as_str() == "already there, old connection, not there");
    assert!(rt; PortError::AlreadyThere as u8 == 1 && PortError::OldConnection as u8 == 2);
    assert!(rt; GoneError::NotThere as u8 == 1);
    Ok(())
}

static WAITS: [Step; 6] = [
    Step::Offers(1, Offered::Held),
    Step::GoesUp(false),
    Step::Comes(1),
    Step::GoesUp(true),
    Step::PutsDown(1),
    Step::GoesDown(true),
];

#[test]
fn a_frame_waits_until_its_connection_came(rt: HostRuntime) {
    play(&rt, rt.alloc(), &WAITS);
}

/// A device goes while frames wait in both directions, and another one comes.
static DROPPED: [Step; 16] = [
    Step::CannotGo(1),
    Step::Comes(1),
    Step::Offers(1, Offered::Held),
    Step::PutsDown(1),
    Step::CannotGo(2),
    Step::Holds(true),
    Step::Goes(1),
    Step::Holds(false),
    Step::GoesDown(false),
    Step::CannotGo(1),
    Step::Offers(1, Offered::Dropped),
    Step::Offers(2, Offered::Held),
    Step::CannotCome(1, PortError::OldConnection),
    Step::HighestGone(1),
    Step::Comes(2),
    Step::GoesUp(true),
];

#[test]
fn frames_of_a_device_that_went_are_dropped(rt: HostRuntime) {
    play(&rt, rt.alloc(), &DROPPED);
}

/// The frame of the next connection came before its device was recorded. It stays when the device before it
/// goes.
static STAYS: [Step; 4] = [
    Step::Comes(1),
    Step::Offers(2, Offered::Held),
    Step::Goes(1),
    Step::Holds(true),
];

#[test]
fn a_frame_of_the_next_connection_stays(rt: HostRuntime) {
    play(&rt, rt.alloc(), &STAYS);
}
