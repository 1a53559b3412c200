//! Where something may be to do. Hints decide what is looked at first, and nothing else: before a machine rests it looks at all.

ghost use Rattle.std.specs.Prelude.{◌<◌, IfSome};

use ahci_controller::Next;
use fis_view::Frame;

/// The control port of a multiplier.
const CONTROL: u8 = 15;

/// Where something may be to do.
#[derive(Clone, Copy, Debug)]
pub(crate) struct Hints {
    // The controller may have something to do.
    pub(crate) turns: bool,
    // It did something since its registers were written.
    runs: bool,
    // The ports that may have a frame for the controller, as a mask.
    ups: u16,
    // A device may be to begin anew.
    pub(crate) begins: bool,
    // The devices whose Data FISes are being read, as a mask.
    feeds: u16,
    // The ports at which something may be to do, as a mask.
    ports: u16,
    // The slots whose commands are issued and did not go, as a mask.
    unsent: u32,
    // The devices that asked for data, and did not get it, as a mask.
    asked: u16,
}

// The bit of a port, or of a device.
fn bit(port: u8) -> u16 {
    1 << (port % 16)
}

// Whether a FIS may have data go to a device: DMA Activate, a DMA Setup for data to it, or a PIO Setup.
fn asks_for_data(frame: &Frame) -> bool {
    match frame.bytes() {
        [0x39 | 0x5F, ..] => true,
        [0x41, flags, ..] => flags & 0x20 == 0,
        _ => false,
    }
}

impl Hints {
    /// Those of a machine that opens.
    pub(crate) fn new() -> Hints {
        Hints {
            turns: true,
            runs: false,
            ups: 0xFFFF,
            begins: true,
            feeds: 0,
            ports: 0xFFFF,
            unsent: 0,
            asked: 0,
        }
    }

    /// Something may be to do everywhere.
    pub(crate) fn everywhere() -> Hints {
        Hints {
            feeds: 0xFFFF,
            unsent: 0xFFFF_FFFF,
            asked: 0xFFFF,
            ..Hints::new()
        }
    }

    /// What is behind the controller changed.
    pub(crate) fn shaken(&mut self) {
        self.turns = true;
        self.ups = 0xFFFF;
        self.begins = true;
        self.ports = 0xFFFF;
    }

    /// A register was written.
    pub(crate) fn written(&mut self) {
        self.turns = true;
        self.runs = false;
    }

    /// A command was issued.
    pub(crate) fn issued(&mut self, slot: u8) {
        self.unsent |= 1 << (slot % 32);
    }

    // Whether a command did not go, or a device asked for data.
    fn is_any_due(&self) -> bool {
        self.unsent != 0 || self.asked != 0
    }

    /// The controller said this. Where data or a command goes, none is to be read, so more is to do only if another is due.
    pub(crate) fn said(&mut self, next: &Next) {
        match next {
            Next::Nothing => {
                self.asked = 0;
                self.turns = false;
                return;
            }
            Next::Order { slot, .. } => {
                self.unsent &= !(1 << (*slot % 32));
                self.turns = self.is_any_due();
            }
            Next::Feed { dev, .. } => {
                self.asked &= !bit(*dev);
                self.turns = self.is_any_due();
            }
            Next::Payload(_) | Next::Posted(_) | Next::Counted(_) | Next::Read(_) => {
                self.turns = true;
            }
        }
        self.runs = true;
    }

    /// The controller took a frame.
    pub(crate) fn heard(&mut self, frame: &Frame) {
        if asks_for_data(frame) {
            self.asked |= bit(frame.pm_port());
        }
        if self.is_any_due() || self.feeds != 0 || !self.runs {
            self.turns = true;
        }
    }

    /// A frame passes the place of a port.
    pub(crate) fn passes(&mut self, port: u8) {
        if port == CONTROL {
            self.ups = 0xFFFF;
            self.begins = true;
            self.ports = 0xFFFF;
        }
        self.at(port);
    }

    /// Whether a frame for the controller may be behind it.
    pub(crate) fn rises(&self) -> bool {
        self.ups != 0
    }

    /// A port has a frame for the controller.
    pub(crate) fn says(&mut self, port: u8) {
        self.ups |= bit(port);
    }

    /// The frame of a port is on its way. It had no other.
    pub(crate) fn rose(&mut self, port: u8) {
        self.ups &= !bit(port);
    }

    /// No port has a frame for the controller.
    pub(crate) fn none_rises(&mut self) {
        self.ups = 0;
    }

    /// Something may be to do at a port.
    pub(crate) fn at(&mut self, port: u8) {
        self.ports |= bit(port);
    }

    /// Nothing is to do at a port.
    pub(crate) fn rests_at(&mut self, port: u8) {
        self.ports &= !bit(port);
    }

    /// Nothing is to do at any.
    pub(crate) fn ports_rest(&mut self) {
        self.ports = 0;
    }

    /// Whether something may be to do at one.
    pub(crate) fn is_any_at(&self) -> bool {
        self.ports != 0
    }

    /// The port where something may be to do, from this one on in a circle.
    pub(crate) fn port_from(&self, turn: u8) -> Option<u8> {
        let behind = self.ports >> (turn % 16) << (turn % 16);
        let ports = if behind == 0 { self.ports } else { behind };
        if ports == 0 {
            return None;
        }
        Some((ports.trailing_zeros() % 16) as u8)
    }

    /// A Data FIS for a device is being read.
    pub(crate) fn feeds(&mut self, dev: u8) {
        self.feeds |= bit(dev);
    }

    /// None of a device is read.
    pub(crate) fn feeds_none(&mut self, dev: u8) {
        self.feeds &= !bit(dev);
    }

    /// The lowest device from this one on of which one may be read.
    pub(crate) fn feeding_from(&self, dev: u8) -> Option<u8>
        ensures { IfSome result (λ found. found < 16) }
    {
        if dev >= 16 {
            return None;
        }
        let feeds = self.feeds >> dev << dev;
        if feeds == 0 {
            return None;
        }
        Some((feeds.trailing_zeros() % 16) as u8)
    }
}
