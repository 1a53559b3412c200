//! A port multiplier as the library for C keeps it: it counts the connections, which C does not see.

ghost use Rattle.std.specs.Prelude.{◌≡◌, ◌≢◌, ◌↔◌, ◌≤◌, IsTrue, drop, length, take};
ghost use Rattle.gefsunk.specs.Pms.{FromDevice, FromHost, Plug, ReadRule, ToDevice, ToHost, Unplug, has_port, no_removals, opening, opening_with_port_0, refused};

use crate::status::Status;
use fis_view::{Frame, FrameError, Stamp};
use multiplier::{Multiplier, Passed, PmRefusal};
use pm_ports::{Offered, PortError};
use pm_registers::{CONTROL_PORT, GSCR_PORTS, PmRegisters, RegisterError};
use std::alloc::Global;

/// A multiplier, and the connections that each port was told of.
#[derive(Drop)]
pub struct Pm {
    /// The multiplier itself.
    pub multiplier: Multiplier,
    /// The last connection that came to each port, 0 for none.
    pub last: [u32; 15],
    /// The connection of the device at each port, 0 for none.
    pub seated: [u32; 15],
    /// The stamp of the FIS given last.
    pub given: Stamp,
}

/// The stamp of a frame of the host, or of a device.
pub fn stamp(port: u8, conn: u32) -> Stamp
    ensures { result ≡ record { port = port; conn = conn; number = 0; shown = no_removals } }
{
    Stamp {
        port,
        conn,
        number: 0,
        shown: [0; 15],
    }
}

/// The number of device ports, as the host reads it.
fn port_count(registers: &PmRegisters) -> u32
    ensures { result ≡ registers.now.ports }
{
    registers.read(CONTROL_PORT, GSCR_PORTS).unwrap_or(0)
}

/// Why bytes are not a frame.
pub fn refused(error: FrameError) -> Status
    ensures { result ≡ refused error }
{
    match error {
        FrameError::BadLength => Status::BadLength,
        FrameError::OutOfMemory => Status::NoMemory,
    }
}

impl Pm {
    /// A multiplier with this many ports and no device.
    pub fn new(ports: u8) -> Pm
        requires some { 1 ≤ ports }
        requires at_most { ports ≤ 15 }
        ensures { result ≡ opening ports }
    {
        Pm {
            multiplier: Multiplier::new(ports),
            last: [0; 15],
            seated: [0; 15],
            given: stamp(0, 0),
        }
    }

    /// A multiplier whose port 0 is open from the start, with a device at it or none, as connection 1.
    pub fn with_port_0_open(ports: u8, is_there: bool) -> Pm
        requires some { 1 ≤ ports }
        requires at_most { ports ≤ 15 }
        ensures { result ≡ opening_with_port_0 ports is_there }
    {
        let mut connections = [0; 15];
        connections[0] = u32::from(is_there);
        Pm {
            multiplier: Multiplier::with_port_0_open(ports, is_there.then_some(1)),
            last: connections,
            seated: connections,
            given: stamp(0, 0),
        }
    }

    /// Whether the port is a device port.
    fn has_port(&self, port: u8) -> bool
        ensures { IsTrue result ↔ has_port self.now port }
    {
        port < CONTROL_PORT && u32::from(port) < port_count(self.multiplier.registers())
    }

    /// A device comes to a port, as the next connection.
    pub fn plug(&mut self, port: u8) -> Status
        ensures { Plug self.old port result self.new }
    {
        if !self.has_port(port) {
            return Status::NoPort;
        }
        let n = usize::from(port);
        let conn = self.last[n].saturating_add(1);
        match self.multiplier.came(port, conn) {
            Ok(()) => {
                self.last[n] = conn;
                self.seated[n] = conn;
                Status::Done
            }
            Err(PortError::AlreadyThere) => Status::AlreadyThere,
            Err(PortError::OldConnection) => Status::Spent,
        }
    }

    /// The device of a port goes.
    pub fn unplug(&mut self, port: u8) -> Status
        ensures { Unplug self.old port result self.new }
    {
        if !self.has_port(port) {
            return Status::NoPort;
        }
        let n = usize::from(port);
        match self.multiplier.gone(port, self.seated[n]) {
            Ok(()) => {
                self.seated[n] = 0;
                Status::Done
            }
            Err(_) => Status::NotThere,
        }
    }

    /// Takes a FIS from the host.
    pub fn from_host(&mut self, alloc: Global, fis: &[u8]) -> Status
        ensures { FromHost self.old fis.now result self.new }
    {
        let frame = match Frame::from_bytes(alloc, fis, stamp(0, 0)) {
            Ok(frame) => frame,
            Err(error) => return refused(error),
        };
        match self.multiplier.from_host(alloc, frame) {
            Ok(Passed::Dropped) => Status::Dropped,
            Ok(_) => Status::Done,
            Err((_, PmRefusal::HoldFull)) => Status::Full,
            Err((_, PmRefusal::OutOfMemory)) => Status::NoMemory,
        }
    }

    /// Takes a FIS from the device at a port.
    pub fn from_device(&mut self, alloc: Global, port: u8, fis: &[u8]) -> Status
        ensures { FromDevice self.old port fis.now result self.new }
    {
        if !self.has_port(port) {
            return Status::NoPort;
        }
        let conn = self.seated[usize::from(port)];
        if conn == 0 {
            return Status::NotThere;
        }
        let frame = match Frame::from_bytes(alloc, fis, stamp(port, conn)) {
            Ok(frame) => frame,
            Err(error) => return refused(error),
        };
        match self.multiplier.from_device(port, frame) {
            Ok(Offered::Held) => Status::Done,
            Ok(Offered::Dropped) => Status::Dropped,
            Err(_) => Status::Full,
        }
    }

    /// Writes the next FIS for the host into the room, and its length and port.
    pub fn to_host(
        &mut self,
        alloc: Global,
        room: &mut [u8],
        len: &mut usize,
        port: &mut u8,
    ) -> Status
        ensures rule { ToHost self.old (length room.old) result (take len.new room.new) port.new self.new }
        ensures within { result ≡ Status.Done → len.new ≤ length room.old }
        ensures kept { result ≢ Status.Done
            → (room.new ≡ room.old) × (len.new ≡ len.old) × (port.new ≡ port.old) }
        ensures rest { drop len.new room.new ≡ drop len.new room.old }
    {
        if room.len() < Frame::LONGEST {
            return Status::TooShort;
        }
        match self.multiplier.next_up(alloc) {
            Ok(Some(frame)) => {
                *port = frame.pm_port();
                *len = copied(&frame, room);
                self.given = frame.stamp();
                Status::Done
            }
            Ok(None) => Status::Nothing,
            Err(_) => Status::NoMemory,
        }
    }

    /// Writes the FIS that waits for the device at a port into the room, and its length.
    pub fn to_device(&mut self, port: u8, room: &mut [u8], len: &mut usize) -> Status
        ensures rule { ToDevice self.old port (length room.old) result (take len.new room.new) self.new }
        ensures within { result ≡ Status.Done → len.new ≤ length room.old }
        ensures kept { result ≢ Status.Done → (room.new ≡ room.old) × (len.new ≡ len.old) }
        ensures rest { drop len.new room.new ≡ drop len.new room.old }
    {
        if !self.has_port(port) {
            return Status::NoPort;
        }
        if room.len() < Frame::LONGEST {
            return Status::TooShort;
        }
        match self.multiplier.next_down(port) {
            Some(frame) => {
                *len = copied(&frame, room);
                self.given = frame.stamp();
                Status::Done
            }
            None => Status::Nothing,
        }
    }

    /// Reads a register of a port, 15 for the control port.
    pub fn read(&self, port: u8, number: u16, value: &mut u32) -> Status
        ensures rule { ReadRule self.now port number result value.new }
        ensures kept { result ≢ Status.Done → value.new ≡ value.old }
    {
        match self.multiplier.registers().read(port, number) {
            Ok(read) => {
                *value = read;
                Status::Done
            }
            Err(RegisterError::NoPort) => Status::NoPort,
            Err(RegisterError::NoRegister) => Status::NoRegister,
        }
    }
}

/// Copies a frame into the room, and returns its length.
pub fn copied(frame: &Frame, room: &mut [u8]) -> usize
    requires { 8196 ≤ length room.old }
    ensures copied { take result room.new ≡ frame.now.bytes }
    ensures within { result ≤ length room.old }
    ensures room { length room.new ≡ length room.old }
    ensures rest { drop result room.new ≡ drop result room.old }
{
    let bytes = frame.bytes();
    room[..bytes.len()].copy_from_slice(bytes);
    bytes.len()
}
