//! Tests as lists of steps: what is done with the registers of a multiplier, by calls and by its control port, and what they
//! show then.
//!
//! Clauses see a `Rig` as a number, and its functions have no contract. A list is data, and `play` has the only assertion.
//! So a test is proved with little work.

ghost use Rattle.std.specs.Prelude.{IsTrue, ◌<◌};

use fis_view::{Frame, FrameError, Stamp};
use pm_control::PmControl;
use pm_registers::{
    CONTROL_PORT, GSCR_PORTS, PSCR_CONTROL, PSCR_ERROR, PmRegisters, RegisterError,
};
use std::alloc::{AllocError, Global};
use std::marker::Model;
use std::process::Abort;

/// The stamp that the answers are given.
pub(super) const STAMP: Stamp = Stamp {
    port: 15,
    conn: 0,
    number: 7,
    shown: [0, 3, 0, 0, 0, 0, 0, 0, 0, 0, 0, 0, 0, 0, 1],
};

/// The stamp of the host's frames. No answer has it.
pub(super) const HOST: Stamp = Stamp {
    port: 0,
    conn: 0,
    number: 2,
    shown: [0; 15],
};

/// A step of a test. A register is named by its port, or by the control port, and its number.
#[derive(Clone, Copy)]
pub(super) enum Step {
    /// New registers of so many ports.
    Opens(u8),
    /// New registers of four ports, of which port 0 is open from the start, and whether a device is there.
    OpensPort0(bool),
    /// A register shows this.
    Shows(u8, u16, u32),
    /// A value is written to a register.
    Writes(u8, u16, u32),
    /// A read and a write of a register are refused.
    Refuses(u8, u16, RegisterError),
    /// A device comes to a port.
    Inserts(u8),
    /// The device of a port goes.
    Removes(u8),
    /// These bits are set in PSCR\[1\] of a port.
    Raises(u8, u32),
    /// A port is opened to a device, and what it reports is cleared.
    Connects(u8),
    /// Whether a notification is due.
    IsDue(bool),
    /// The notification was made.
    Clears,
    /// Whether FISes pass a port.
    Forwards(u8, bool),
    /// The control port answers these bytes of the host by those; no bytes: it does not answer.
    Answers(&'static [u8], &'static [u8]),
    /// It notifies the host by these bytes; no bytes: it does not.
    Notifies(&'static [u8]),
}

/// The registers and the control port of a multiplier.
#[derive(Drop)]
struct Rig {
    alloc: Global,
    registers: PmRegisters,
    control: PmControl,
}

impl Model for Rig {
    ghost use Rattle.std.specs.Prelude.{ℕ};

    ghost Value = { ℕ };

    ghost view = { λ _. 0 };
}

/// Whether device port `n` exists.
fn has_port(registers: &PmRegisters, n: u8) -> bool
    ensures { IsTrue result → n < registers.now.ports }
{
    match registers.read(CONTROL_PORT, GSCR_PORTS) {
        Ok(ports) => u32::from(n) < ports,
        Err(_) => false,
    }
}

/// New registers of so many ports; of one where there are not so many.
fn opened(ports: u8) -> PmRegisters {
    if 1 <= ports && ports <= 15 {
        PmRegisters::new(ports)
    } else {
        PmRegisters::new(1)
    }
}

fn inserts(registers: &mut PmRegisters, n: u8) -> bool {
    if has_port(registers, n) {
        registers.insert(n);
        return true;
    }
    false
}

fn removes(registers: &mut PmRegisters, n: u8) -> bool {
    if has_port(registers, n) {
        registers.remove(n);
        return true;
    }
    false
}

fn raises(registers: &mut PmRegisters, n: u8, bits: u32) -> bool {
    if has_port(registers, n) {
        registers.raise(n, bits);
        return true;
    }
    false
}

/// Whether a frame, if there is one, has these bytes and the stamp; no bytes: there is none.
fn is_answer(frame: Option<&Frame>, bytes: &[u8]) -> bool {
    match frame {
        Some(frame) => frame.bytes() == bytes && frame.stamp() == STAMP,
        None => bytes.is_empty(),
    }
}

impl Rig {
    fn new(alloc: Global) -> Rig {
        Rig {
            alloc,
            registers: opened(4),
            control: PmControl::new(),
        }
    }

    fn shows(&self, port: u8, register: u16, value: u32) -> bool {
        self.registers.read(port, register) == Ok(value)
    }

    fn writes(&mut self, port: u8, register: u16, value: u32) -> bool {
        self.registers.write(port, register, value).is_ok()
    }

    fn refuses(&mut self, port: u8, register: u16, error: RegisterError) -> bool {
        self.registers.read(port, register) == Err(error)
            && self.registers.write(port, register, 1) == Err(error)
    }

    fn connects(&mut self, n: u8) -> bool {
        inserts(&mut self.registers, n)
            && self.writes(n, PSCR_CONTROL, 0)
            && self.writes(n, PSCR_ERROR, 0xFFFF_FFFF)
    }

    fn answer_once(&mut self, frame: &Frame) -> Result<Option<Frame>, AllocError> {
        let registers = &mut self.registers;
        self.control.answer(self.alloc, registers, frame, STAMP)
    }

    /// The answer to these bytes. Where memory is refused the call is repeated, as a caller can do. The answer is
    /// then the same, because nothing was done before.
    fn answer(&mut self, bytes: &[u8]) -> Result<Option<Frame>, FrameError> {
        let frame = match Frame::from_bytes(self.alloc, bytes, HOST) {
            Err(FrameError::OutOfMemory) => Frame::from_bytes(self.alloc, bytes, HOST)?,
            made => made?,
        };
        match self.answer_once(&frame) {
            Err(_) => Ok(self.answer_once(&frame)?),
            Ok(answer) => Ok(answer),
        }
    }

    fn answers(&mut self, bytes: &[u8], wanted: &[u8]) -> bool {
        match self.answer(bytes) {
            Ok(answer) => is_answer(answer.as_ref(), wanted),
            Err(_) => false,
        }
    }

    fn notice_once(&mut self) -> Result<Option<Frame>, AllocError> {
        PmControl::notice(self.alloc, &mut self.registers, STAMP)
    }

    /// The notification is requested again where memory is refused.
    fn notifies(&mut self, wanted: &[u8]) -> bool {
        let made = match self.notice_once() {
            Err(_) => self.notice_once(),
            made => made,
        };
        match made {
            Ok(notice) => is_answer(notice.as_ref(), wanted),
            Err(_) => false,
        }
    }

    /// Whether a step is as it says.
    fn passes(&mut self, step: Step) -> bool {
        match step {
            Step::Opens(ports) => self.registers = opened(ports),
            Step::OpensPort0(there) => self.registers = PmRegisters::with_port_0_open(4, there),
            Step::Clears => self.registers.clear_notice(),
            Step::Shows(port, register, value) => return self.shows(port, register, value),
            Step::Writes(port, register, value) => return self.writes(port, register, value),
            Step::Refuses(port, register, error) => return self.refuses(port, register, error),
            Step::Inserts(n) => return inserts(&mut self.registers, n),
            Step::Removes(n) => return removes(&mut self.registers, n),
            Step::Raises(n, bits) => return raises(&mut self.registers, n, bits),
            Step::Connects(n) => return self.connects(n),
            Step::IsDue(is) => return self.registers.notice_due() == is,
            Step::Forwards(n, does) => return self.registers.forwards(n) == does,
            Step::Answers(bytes, wanted) => return self.answers(bytes, wanted),
            Step::Notifies(wanted) => return self.notifies(wanted),
        }
        true
    }

    /// The number of the first step that is not as it says.
    fn first_wrong(&mut self, steps: &[Step]) -> Option<usize> {
        for (i, step) in steps.iter().enumerate() {
            if !self.passes(*step) {
                return Some(i);
            }
        }
        None
    }
}

/// Each step of the registers of four ports is as it says.
pub(super) fn play(rt: &impl Abort, alloc: Global, steps: &[Step]) {
    let wrong = Rig::new(alloc).first_wrong(steps);
    assert_eq!(rt; wrong, None, "the number of a step");
}
