//! Tests as lists of steps: what is done with a multiplier, and what it gives then.
//!
//! Clauses see a `Rig` as a number, and its functions have no contract. A list is data, and `play` has the only assertion.
//! So a test is proved with little work.

ghost use Rattle.std.specs.Prelude.{IsTrue, ◌<◌};

use fis_view::{Frame, FrameError, Stamp};
use multiplier::{Multiplier, Passed, PmRefusal};
use pm_ports::Offered;
use pm_registers::{CONTROL_PORT, GSCR_PORTS};
use std::alloc::Global;
use std::marker::Model;
use std::process::Abort;

/// A step of a test. Connections are counted from 1.
#[derive(Clone, Copy)]
pub(super) enum Step {
    /// Each of the first so many ports is opened to a device that comes under connection 1.
    Opens(u8),
    /// A new multiplier, of which port 0 is open from the start, and whether a device is there, under connection 1.
    OpensPort0(bool),
    /// The control port writes a register of a port: the port, the register and the value.
    Writes(u8, u8, u32),
    /// A device comes to a port under this connection.
    Comes(u8, u32),
    /// The device of a port, of this connection, goes.
    Goes(u8, u32),
    /// It is not there, and cannot go.
    CannotGo(u8, u32),
    /// A FIS of the host goes there.
    Passes(&'static [u8], Passed),
    /// A FIS of the host has to wait.
    HasNoRoom(&'static [u8]),
    /// A FIS of the device at a port is offered, and whether it is held.
    SendsUp(u8, bool),
    /// The next frame for the host is of this port, as its PM Port and in its stamp.
    Turn(u8),
    /// The next frame for the host is taken and put back.
    PutsBack,
    /// The next frame for the host: its port, its number, and its bytes.
    GivesUp(u8, u32, &'static [u8]),
    /// The next frame for the host begins with these bytes, and shows so many removals at each of four ports.
    Shown(&'static [u8], [u32; 4]),
    /// There is no frame for the host.
    GivesUpNone,
    /// The next frame for a device: its port, its connection, and its bytes.
    GivesDown(u8, u32, &'static [u8]),
    /// There is no frame for the device at a port.
    GivesDownNone(u8),
    /// A register of a port, or of the control port, shows this.
    Has(u8, u16, u32),
    /// So many frames were dropped on their way down.
    Drops(u32),
}

/// A multiplier.
#[derive(Drop)]
struct Rig {
    alloc: Global,
    pm: Multiplier,
}

impl Model for Rig {
    ghost use Rattle.std.specs.Prelude.{ℕ};

    ghost Value = { ℕ };

    ghost view = { λ _. 0 };
}

/// A Set Device Bits FIS as a device sends it.
const BITS: [u8; 8] = [0xA1, 0x40, 0x50, 0, 0x20, 0, 0, 0];

fn frame(alloc: Global, bytes: &[u8]) -> Result<Frame, FrameError> {
    let stamp = Stamp {
        port: 0,
        conn: 1,
        number: 5,
        shown: [0; 15],
    };
    Frame::from_bytes(alloc, bytes, stamp)
}

/// Whether device port `n` exists.
fn has_port(pm: &Multiplier, n: u8) -> bool
    ensures { IsTrue result → n < pm.now.registers.ports }
{
    match pm.registers().read(CONTROL_PORT, GSCR_PORTS) {
        Ok(ports) => u32::from(n) < ports,
        Err(_) => false,
    }
}

fn comes(pm: &mut Multiplier, n: u8, conn: u32) -> bool {
    has_port(pm, n) && pm.came(n, conn).is_ok()
}

fn goes(pm: &mut Multiplier, n: u8, conn: u32) -> Option<bool> {
    if has_port(pm, n) {
        Some(pm.gone(n, conn).is_ok())
    } else {
        None
    }
}

fn offered(pm: &mut Multiplier, n: u8, frame: Frame) -> bool {
    has_port(pm, n) && matches!(pm.from_device(n, frame), Ok(Offered::Held))
}

fn down(pm: &mut Multiplier, n: u8) -> Option<Frame> {
    if has_port(pm, n) {
        pm.next_down(n)
    } else {
        None
    }
}

/// Whether a frame for the host, if there is one, is what a step wants of it.
fn is_wanted(frame: Option<&Frame>, step: Step) -> bool {
    let Some(frame) = frame else {
        return matches!(step, Step::GivesUpNone);
    };
    let stamp = frame.stamp();
    match step {
        Step::Turn(port) => frame.pm_port() == port && stamp.port == port,
        Step::GivesUp(port, number, bytes) => {
            frame.bytes() == bytes && stamp.port == port && stamp.number == number
        }
        Step::Shown(bytes, shown) => {
            frame.bytes().starts_with(bytes) && stamp.shown.starts_with(&shown)
        }
        _ => false,
    }
}

impl Rig {
    fn passes(&mut self, bytes: &[u8], wanted: Passed) -> bool {
        match frame(self.alloc, bytes) {
            Ok(frame) =>
                matches!(self.pm.from_host(self.alloc, frame), Ok(passed) if passed == wanted),
            Err(_) => false,
        }
    }

    fn has_no_room(&mut self, bytes: &[u8]) -> bool {
        match frame(self.alloc, bytes) {
            Ok(frame) => {
                let full = self.pm.from_host(self.alloc, frame);
                matches!(full, Err((_, PmRefusal::HoldFull)))
            }
            Err(_) => false,
        }
    }

    /// The control port writes a register of a port, and its answer goes up.
    fn writes(&mut self, n: u8, register: u8, value: u32) -> bool {
        let [low, second, third, high] = value.to_le_bytes();
        let command = [
            0x27, 0x8F, 0xE8, register, second, third, high, n, 0, 0, 0, 0, low, 0, 0, 0, 0, 0, 0,
            0,
        ];
        self.passes(&command, Passed::Control) && matches!(self.pm.next_up(self.alloc), Ok(Some(_)))
    }

    fn opens(&mut self, ports: u8) -> bool {
        for n in 0..ports {
            let is_open = self.writes(n, 2, 0)
                && comes(&mut self.pm, n, 1)
                && self.writes(n, 1, 0x0401_0000);
            if !is_open {
                return false;
            }
        }
        true
    }

    fn opens_port_0(&mut self, is_there: bool) -> bool {
        let device = if is_there { Some(1) } else { None };
        self.pm = Multiplier::with_port_0_open(4, device);
        true
    }

    fn sends_up(&mut self, n: u8, held: bool) -> bool {
        match frame(self.alloc, &BITS) {
            Ok(frame) => offered(&mut self.pm, n, frame) == held,
            Err(_) => false,
        }
    }

    fn puts_back(&mut self) -> bool {
        match self.pm.next_up(self.alloc) {
            Ok(Some(frame)) => {
                self.pm.put_back_up(frame);
                true
            }
            _ => false,
        }
    }

    /// Whether the next frame for the host is what a step wants.
    fn gives_up(&mut self, step: Step) -> bool {
        match self.pm.next_up(self.alloc) {
            Ok(frame) => is_wanted(frame.as_ref(), step),
            Err(_) => false,
        }
    }

    fn gives_down(&mut self, n: u8, conn: u32, bytes: &[u8]) -> bool {
        match down(&mut self.pm, n) {
            Some(frame) => frame.bytes() == bytes && frame.stamp().conn == conn,
            None => false,
        }
    }

    fn has(&self, port: u8, register: u16, value: u32) -> bool {
        self.pm.registers().read(port, register) == Ok(value)
    }

    /// Whether a step is as it says.
    fn is_done(&mut self, step: Step) -> bool {
        match step {
            Step::Opens(ports) => self.opens(ports),
            Step::OpensPort0(is_there) => self.opens_port_0(is_there),
            Step::Writes(n, register, value) => self.writes(n, register, value),
            Step::Comes(n, conn) => comes(&mut self.pm, n, conn),
            Step::Goes(n, conn) => goes(&mut self.pm, n, conn) == Some(true),
            Step::CannotGo(n, conn) => goes(&mut self.pm, n, conn) == Some(false),
            Step::Passes(bytes, passed) => self.passes(bytes, passed),
            Step::HasNoRoom(bytes) => self.has_no_room(bytes),
            Step::SendsUp(n, held) => self.sends_up(n, held),
            Step::PutsBack => self.puts_back(),
            Step::GivesDown(n, conn, bytes) => self.gives_down(n, conn, bytes),
            Step::GivesDownNone(n) => down(&mut self.pm, n).is_none(),
            Step::Has(port, register, value) => self.has(port, register, value),
            Step::Drops(count) => self.pm.dropped() == count,
            _ => self.gives_up(step),
        }
    }

    /// The number of the first step that is not as it says.
    fn first_wrong(&mut self, steps: &[Step]) -> Option<usize> {
        for (i, step) in steps.iter().enumerate() {
            if !self.is_done(*step) {
                return Some(i);
            }
        }
        None
    }
}

/// Each step of a new multiplier of four ports is as it says.
pub(super) fn play(rt: &impl Abort, alloc: Global, steps: &[Step]) {
    let mut rig = Rig {
        alloc,
        pm: Multiplier::new(4),
    };
    assert_eq!(rt; rig.first_wrong(steps), None, "the number of a step");
}
