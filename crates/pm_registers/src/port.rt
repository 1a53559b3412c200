//! The registers of one device port, and what each event does to them.

ghost use Rattle.std.specs.Prelude.{bit_and, ◌%◌, ◌≡◌};
ghost use Rattle.pm_registers.specs.Port.{controlled, inserted, is_open, met, open_port, opened, opening_port, passes, port_written, pscr, raised, removed};

mod saved;

use crate::bits::cleared;
use crate::words::{
    DET_MASK, DET_OFFLINE, PSCR_CONTROL, PSCR_ERROR, PSCR_STATUS, SERROR_N, SERROR_X,
    STATUS_ESTABLISHED,
};

/// The registers of one device port, and whether a device is present at it.
#[derive(Clone, Copy, Debug, PartialEq, Eq)]
pub struct PortRegisters {
    /// PSCR\[0\], SStatus.
    pub status: u32,
    /// PSCR\[1\], SError.
    pub error: u32,
    /// PSCR\[2\], SControl.
    pub control: u32,
    /// Whether a device is present.
    pub present: bool,
}

impl PortRegisters {
    /// The registers when the multiplier starts: the port is offline, and no device is present.
    pub(crate) fn new() -> PortRegisters
        ensures { result ≡ opening_port }
    {
        PortRegisters {
            status: DET_OFFLINE,
            error: 0,
            control: DET_OFFLINE,
            present: false,
        }
    }

    /// The registers of a port that is open when the multiplier starts. A device that is present then is no
    /// exchange.
    pub(crate) fn open(present: bool) -> PortRegisters
        ensures { result ≡ open_port present }
    {
        PortRegisters {
            status: if present { STATUS_ESTABLISHED } else { 0 },
            error: 0,
            control: 0,
            present,
        }
    }

    /// The value of PSCR number `register`.
    pub(crate) fn read(self, register: u16) -> Option<u32>
        ensures { result ≡ pscr self register }
    {
        match register {
            PSCR_STATUS => Some(self.status),
            PSCR_ERROR => Some(self.error),
            PSCR_CONTROL => Some(self.control),
            _ => None,
        }
    }

    /// Whether the port is open: DET of SControl is 0.
    fn is_open(self) -> bool
        ensures { result ≡ is_open self }
    {
        self.control & DET_MASK == 0
    }

    /// The port meets a device on the link: PhyRdy changed, a device was exchanged, communication is
    /// established.
    fn met(self) -> PortRegisters
        ensures { result ≡ met self }
    {
        PortRegisters {
            status: STATUS_ESTABLISHED,
            error: self.error | SERROR_N | SERROR_X,
            ..self
        }
    }

    /// A closed port opens.
    fn opened(self) -> PortRegisters
        ensures { result ≡ opened self }
    {
        if self.present {
            return self.met();
        }
        PortRegisters { status: 0, ..self }
    }

    /// A write to SControl.
    fn controlled(self, value: u32) -> PortRegisters
        ensures { result ≡ controlled self value }
    {
        let next = PortRegisters {
            control: value,
            ..self
        };
        match value & DET_MASK {
            0 if self.is_open() => next,
            0 => next.opened(),
            DET_OFFLINE => PortRegisters {
                status: DET_OFFLINE,
                ..next
            },
            _ => PortRegisters { status: 0, ..next },
        }
    }

    /// A write to PSCR number `register`. Writes to a read-only register change nothing.
    pub(crate) fn written(self, register: u16, value: u32) -> PortRegisters
        ensures { result ≡ port_written self register value }
    {
        match register {
            PSCR_ERROR => PortRegisters {
                error: cleared(self.error, value),
                ..self
            },
            PSCR_CONTROL => self.controlled(value),
            _ => self,
        }
    }

    /// A device comes to the port.
    pub(crate) fn inserted(self) -> PortRegisters
        ensures { result ≡ inserted self }
    {
        let next = PortRegisters {
            present: true,
            ..self
        };
        if self.is_open() { next.met() } else { next }
    }

    /// The device of the port goes.
    pub(crate) fn removed(self) -> PortRegisters
        ensures { result ≡ removed self }
    {
        let next = PortRegisters {
            present: false,
            ..self
        };
        if self.is_open() {
            PortRegisters {
                status: 0,
                error: next.error | SERROR_N,
                ..next
            }
        } else {
            next
        }
    }

    /// Sets bits of SError.
    pub(crate) fn raised(self, bits: u32) -> PortRegisters
        ensures { result ≡ raised self bits }
    {
        PortRegisters {
            error: self.error | bits,
            ..self
        }
    }

    /// Whether FISes pass.
    pub(crate) fn forwards(self) -> bool
        ensures { result ≡ passes self }
    {
        self.is_open() && self.status & DET_MASK == 3 && self.error & SERROR_X == 0
    }
}
