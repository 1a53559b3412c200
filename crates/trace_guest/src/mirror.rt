//! The registers of the multiplier, kept by what goes to it.

use crate::opening::Sizes;
use fis_view::{Fis, Frame};
use pm_registers::{CONTROL_PORT, PSCR_CONTROL, PSCR_ERROR, PSCR_STATUS, PmRegisters};
use trace_text::{Closed, bit_of};

/// A write to a register of the multiplier.
#[derive(Clone, Copy)]
pub struct PmWrite {
    port: u8,
    register: u16,
    value: u32,
}

/// WRITE PORT MULTIPLIER.
const WRITE_PORT_MULTIPLIER: u8 = 0xE8;

impl PmWrite {
    /// The write that a frame for the control port asks for, if it does.
    pub fn of(frame: &Frame) -> Option<PmWrite> {
        let Ok(Fis::RegH2D(fis)) = frame.fis() else {
            return None;
        };
        if frame.pm_port() != CONTROL_PORT || !fis.c() || fis.command() != WRITE_PORT_MULTIPLIER {
            return None;
        }
        let high = (fis.lba() & 0xFF_FFFF) as u32;
        Some(PmWrite {
            port: fis.device() & 0x0F,
            register: fis.features(),
            value: high << 8 | u32::from(fis.count() & 0xFF),
        })
    }
}

/// The registers of a multiplier, as they are if it did what went to it.
#[derive(Drop)]
pub struct Mirror {
    registers: PmRegisters,
    /// The ports at which a disk is, a bit each.
    there: u32,
}

impl Mirror {
    /// Of a multiplier that starts, at whose ports no disk is.
    pub fn new(sizes: Sizes) -> Mirror {
        Mirror {
            registers: PmRegisters::new(sizes.ports),
            there: 0,
        }
    }

    /// A disk comes to a port.
    pub fn plug(&mut self, port: u8) {
        if port < self.registers.ports() {
            self.there |= bit_of(port);
            self.registers.insert(port);
        }
    }

    /// The disk of a port goes.
    pub fn pull(&mut self, port: u8) {
        if port < self.registers.ports() {
            self.there &= !bit_of(port);
            self.registers.remove(port);
        }
    }

    /// The link of the controller was reset: the multiplier starts anew, and each disk comes again.
    pub fn renew(&mut self, sizes: Sizes) {
        let there = self.there;
        *self = Mirror::new(sizes);
        for port in 0..15_u8 {
            if there & bit_of(port) != 0 {
                self.plug(port);
            }
        }
    }

    /// The control port did this. A disk whose reset ends begins a new connection, by which no register changes any more: the
    /// write itself has set DIAG.X.
    pub fn write(&mut self, write: PmWrite) {
        let PmWrite {
            port,
            register,
            value,
        } = write;
        // What it refuses changes nothing.
        let _ = self.registers.write(port, register, value);
    }

    fn value(&self, port: u8, register: u16) -> u32 {
        self.registers.read(port, register).unwrap_or(0)
    }

    /// The registers of a port.
    pub fn port(&self, port: u8) -> Closed {
        Closed {
            port,
            ports: self.registers.ports(),
            status: self.value(port, PSCR_STATUS),
            error: self.value(port, PSCR_ERROR),
            control: self.value(port, PSCR_CONTROL),
        }
    }
}
