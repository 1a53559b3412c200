//! What a port that is stopped takes, and what hangs at it before a signature came.

ghost use Rattle.std.specs.Prelude.{◌≡◌, ◌<◌, ◌||◌, Some, false, true, if◌then◌else◌};
ghost use Rattle.fis_view.specs.Seen.{seen};
ghost use Rattle.hba_fbs.specs.Greeting.{Greets, Hangs, Welcomes, counts as counts_of, greeted_in, greeted_state, is_first as is_first_of, line_state, listens_with};
ghost use Rattle.hba_fbs.specs.Taking.{port_of};
ghost use Rattle.hba_fbs.specs.Views.{view_of};

use crate::hearing::{Happening, quietly};
use crate::port::PortCore;
use crate::post::{is_ata_signature, is_signature, place_of, posted};
use crate::registers::Registers;
use crate::report::TakeReport;
use crate::state::{DeviceState, state_of};
use fis_view::{Fis, Frame, RegD2H};

/// What a port does with a FIS now.
#[derive(Clone, Copy, Debug, PartialEq, Eq)]
pub enum Listens {
    /// ST is 1: [`take`](PortCore::take).
    Takes,
    /// ST is 0 and FRE is 1: [`greet`](PortCore::greet).
    Greets,
    /// FRE is 0: the FIS waits.
    Waits,
}

/// What hangs at a port as long as no signature came.
#[derive(Clone, Copy, Debug, PartialEq, Eq)]
pub enum Line {
    /// No device: Status is 7Fh.
    Empty,
    /// A device since its COMRESET, whose signature is still to come: Status is 80h.
    Reset,
}

impl DeviceState {
    // Whether a Register FIS counts.
    fn counts(self, fis: &RegD2H<'_>) -> bool
        ensures { result ≡ counts_of self fis.now }
    {
        !self.resetting || is_signature(fis)
    }

    // The state after a Register FIS came while the port is stopped.
    fn greeted(self, fis: &RegD2H<'_>) -> DeviceState
        ensures { result ≡ greeted_state self fis.now }
    {
        let told = self.after_reset(fis.status(), fis.error());
        told.signed_by(is_ata_signature(fis))
    }
}

impl Line {
    // The state of a device.
    fn state(self) -> DeviceState
        ensures { result ≡ line_state self }
    {
        let status = match self {
            Line::Empty => 0x7F,
            Line::Reset => 0x80,
        };
        DeviceState {
            status,
            error: 0,
            resetting: self == Line::Reset,
            block: None,
            signed: false,
        }
    }
}

impl Registers {
    // Whether no signature came since the port was opened or reset.
    fn is_first(self) -> bool
        ensures { result ≡ is_first_of self }
    {
        self.signature == u32::MAX
    }
}

impl PortCore {
    /// What the port does with a FIS now.
    pub fn listens(&self) -> Listens
        ensures { result ≡ listens_with self.now.registers }
    {
        if self.registers.started {
            Listens::Takes
        } else if self.registers.receives {
            Listens::Greets
        } else {
            Listens::Waits
        }
    }

    // Whether a Register FIS of a device sets PxSIG now.
    fn awaits_signature(&self, dev: u8) -> bool
        requires { dev < 16 }
        ensures { result ≡ (is_first_of self.now.registers || (view_of dev self.now).state.resetting) }
    {
        self.registers.is_first() || self.states[dev as usize].resetting
    }

    // The active device once this one is greeted.
    fn active_greeted(&self, dev: u8) -> u8
        requires { dev < 16 }
        ensures is { result ≡ (if self.now.registers.switching then self.now.active else dev) }
        ensures low { result < 16 }
    {
        if self.registers.switching {
            self.active
        } else {
            dev
        }
    }

    // Takes a Register FIS while the port is stopped.
    fn greet_device(&mut self, dev: u8, fis: &Fis<'_>, told: &RegD2H<'_>) -> TakeReport
        requires dev { dev < 16 }
        requires is { fis.now ≡ Fis.RegD2H told.now }
        ensures { Welcomes self.old dev told.now result self.new }
    {
        let greeted = state_of(&self.states, dev).greeted(told);
        let active = self.active_greeted(dev);
        self.registers = posted(self.registers, dev, self.awaits_signature(dev), fis);
        self.states[dev as usize] = greeted;
        self.active = active;
        TakeReport::heard(dev, place_of(fis), quietly(greeted, Happening::Nothing))
    }

    /// Takes a FIS while ST is 0 and FRE is 1. A Register FIS is to be posted where the report says, in the row that
    /// [`row`](PortCore::row) answers afterwards; it sets PxTFD, and the first one after a reset sets PxSIG. While its device is
    /// in software reset, only a signature counts. Any other FIS is ignored.
    pub fn greet(&mut self, frame: &Frame) -> TakeReport
        requires { listens_with self.old.registers ≡ Listens.Greets }
        ensures { let dev = port_of frame.now.bytes in
            Greets self.old dev (greeted_in (view_of dev self.old).state (seen frame.now.bytes)) result self.new }
    {
        let dev = frame.pm_port();
        let state = state_of(&self.states, dev);
        match frame.fis() {
            Ok(fis) => match &fis {
                Fis::RegD2H(told) if state.counts(told) => self.greet_device(dev, &fis, told),
                _ => TakeReport::ignored(dev),
            },
            Err(_) => TakeReport::ignored(dev),
        }
    }

    /// Says what hangs at a PM Port, before its signature comes. What was issued for it is gone, and its fault; until the
    /// signature no command goes to a device that is being reset, but a Control.
    pub fn hang(&mut self, dev: u8, line: Line)
        requires { dev < 16 }
        ensures { Hangs self.old dev line self.new }
    {
        let _ = self.flush_device(dev);
        self.states[dev as usize] = line.state();
        self.active = dev;
    }
}
