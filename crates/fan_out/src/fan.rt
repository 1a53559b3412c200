//! A port multiplier whose devices come and go.

ghost use Rattle.std.specs.Prelude.{◌≡◌, ◌<◌, ◌≤◌, false, true, IfSome, Some};
ghost use Rattle.pm_control.specs.Requests.{requested};
ghost use Rattle.multiplier.specs.Rules.{FromHostRule, NextDownRule, NextUpRule};
ghost use Rattle.fan_out.specs.Fans.{IsFan, OffersFan, PlugsFan, PullsFan, SendsFan, TellsFan, Through, all_joined, controlled, controlled_by, first_begun, heeded, held_in_reset, is_in_reset, joined, joined_again, opening_fan, opening_multiplier, opening_seats, parted, rejoined, renewed, seat_at, wants};

mod saved;

use crate::seat::{NotThere, PlugError, Seat};
use fis_view::{Fis, Frame, RegH2D};
use multiplier::{Multiplier, Passed, PmRefusal};
use pm_ports::Offered;
use pm_registers::PSCR_CONTROL;
use std::alloc::{AllocError, Global};
use std::marker::Model;

/// WRITE PORT MULTIPLIER.
const WRITE_PORT_MULTIPLIER: u8 = 0xE8;

/// A port multiplier, and which connection is at each of its ports.
#[derive(Debug, Drop)]
pub struct Fan {
    multiplier: Multiplier,
    // How many device ports there are.
    ports: u8,
    // Whether port 0 is open from the start, for software that knows no multipliers.
    legacy: bool,
    seats: [Seat; 15],
}

impl Model for Fan {
    ghost use Rattle.std.specs.Prelude.{◌≡◌};
    ghost use Rattle.fan_out.specs.Fans.{FanState, IsFan};

    ghost Value = { FanState };

    ghost view = { λ f. record { multiplier = f.multiplier; legacy = f.legacy; seats = f.seats } };

    ghost invariant = { λ f. (f.ports ≡ f.multiplier.registers.ports)
        × IsFan (record { multiplier = f.multiplier; legacy = f.legacy; seats = f.seats }) };
}

// The port whose SControl a Register Host to Device FIS writes.
fn controlled_by(fis: &RegH2D<'_>) -> Option<u8>
    ensures { result ≡ controlled_by (Some (requested fis.now)) }
{
    let writes = fis.c() && fis.command() == WRITE_PORT_MULTIPLIER;
    if writes && fis.features() == PSCR_CONTROL {
        Some(fis.device() % 16)
    } else {
        None
    }
}

// The port whose SControl a frame writes, where it is for the control port.
fn controlled(frame: &Frame) -> Option<u8>
    ensures { result ≡ controlled frame.now.bytes }
{
    match frame.fis() {
        Ok(Fis::RegH2D(fis)) => controlled_by(&fis),
        _ => None,
    }
}

// A multiplier with this many device ports, of which port 0 is open from the start or not, with a device there or none.
fn opening_multiplier(ports: u8, legacy: bool, is_there: bool) -> Multiplier
    requires some { 1 ≤ ports }
    requires at_most { ports ≤ 15 }
    ensures { result ≡ opening_multiplier ports legacy is_there }
{
    if legacy {
        Multiplier::with_port_0_open(ports, if is_there { Some(1) } else { None })
    } else {
        Multiplier::new(ports)
    }
}

// Seats to which no device came, or one as connection 1 to the first.
fn opening_seats(legacy: bool, is_there: bool) -> [Seat; 15]
    ensures { result ≡ opening_seats legacy is_there }
{
    let mut seats = [Seat::empty(); 15];
    if legacy && is_there {
        seats[0] = Seat::of(1);
    }
    seats
}

impl Fan {
    // With this many device ports. Where port 0 is open from the start, a device may be there as connection 1.
    pub(crate) fn new(ports: u8, legacy: bool, is_there: bool) -> Fan
        requires some { 1 ≤ ports }
        requires at_most { ports ≤ 15 }
        ensures { result ≡ opening_fan ports legacy is_there }
    {
        Fan {
            multiplier: opening_multiplier(ports, legacy, is_there),
            ports,
            legacy,
            seats: opening_seats(legacy, is_there),
        }
    }

    // How many device ports there are.
    pub(crate) fn ports(&self) -> u8
        ensures value { result ≡ self.now.multiplier.registers.ports }
        ensures sound { IsFan self.now }
    {
        self.ports
    }

    // What is known of the device at a port.
    fn seat(&self, n: u8) -> Seat
        requires { n < self.now.multiplier.registers.ports }
        ensures { result ≡ seat_at self.now n }
    {
        self.seats[usize::from(n)]
    }

    // A device comes to a port, as this connection, where the port takes it.
    fn join(&mut self, n: u8, conn: u32)
        requires { n < self.old.multiplier.registers.ports }
        ensures value { self.new ≡ joined self.old n conn }
        ensures ports { self.new.multiplier.registers.ports ≡ self.old.multiplier.registers.ports }
    {
        match self.multiplier.came(n, conn) {
            Ok(()) => self.seats[usize::from(n)] = Seat::of(conn),
            Err(_) => {}
        }
    }

    // The device of a port goes, and with it the frames that wait there.
    fn part(&mut self, n: u8)
        requires there { n < self.old.multiplier.registers.ports }
        requires present { (seat_at self.old n).is_there ≡ true }
        ensures { self.new ≡ parted self.old n }
    {
        let seat = self.seat(n);
        match self.multiplier.gone(n, seat.last) {
            Ok(()) => {}
            Err(_) => unreachable!(),
        }
        self.seats[usize::from(n)] = seat.left();
    }

    // A device is plugged in at a port, as the next connection.
    pub(crate) fn plug(&mut self, n: u8) -> Result<(), PlugError>
        requires { n < self.old.multiplier.registers.ports }
        ensures { PlugsFan self.old n result self.new }
    {
        let conn = self.seats[usize::from(n)].next_connection()?;
        self.join(n, conn);
        Ok(())
    }

    // The device of a port is pulled.
    pub(crate) fn pull(&mut self, n: u8) -> Result<(), NotThere>
        requires { n < self.old.multiplier.registers.ports }
        ensures { PullsFan self.old n result self.new }
    {
        if !self.seats[usize::from(n)].is_there {
            return Err(NotThere);
        }
        self.part(n);
        Ok(())
    }

    // The device of a port is there on its next connection: what it sent before is dropped, and it is to begin anew.
    fn rejoin(&mut self, n: u8)
        requires { n < self.old.multiplier.registers.ports }
        ensures { self.new ≡ rejoined self.old n }
    {
        let seat = self.seat(n);
        if seat.is_there && seat.last < u32::MAX {
            self.part(n);
            self.join(n, seat.last + 1);
        }
    }

    // The device of this seat, if there was one, comes to a port as connection 1.
    fn join_again(&mut self, n: u8, seat: Seat)
        requires { n < self.old.multiplier.registers.ports }
        ensures value { self.new ≡ joined_again self.old n seat }
        ensures ports { self.new.multiplier.registers.ports ≡ self.old.multiplier.registers.ports }
    {
        if seat.is_there {
            self.join(n, 1);
        }
    }

    // The devices of these seats come to the ports, one after another.
    fn join_all(&mut self, seats: [Seat; 15])
        ensures { self.new ≡ all_joined seats self.old.multiplier.registers.ports self.old }
    {
        for n in 0..self.ports {
            self.join_again(n, seats[usize::from(n)]);
        }
    }

    // The link was reset: nothing is on its way, and each device is to begin anew.
    pub(crate) fn renew(&mut self)
        ensures { self.new ≡ renewed self.old }
    {
        let seats = self.seats;
        *self = Fan::new(self.ports, self.legacy, seats[0].is_there);
        self.join_all(seats);
    }

    // Whether SControl of a port holds its device in reset.
    fn is_in_reset(&self, n: u8) -> bool
        requires { n < self.now.multiplier.registers.ports }
        ensures { result ≡ is_in_reset self.now.multiplier n }
    {
        match self.multiplier.registers().read(n, PSCR_CONTROL) {
            Ok(value) => value % 16 == 1,
            Err(_) => false,
        }
    }

    // The port that is in reset and whose SControl a frame writes.
    fn held_in_reset(&self, frame: &Frame) -> Option<u8>
        ensures value { result ≡ held_in_reset self.now.multiplier frame.now }
        ensures there { IfSome result (λ n. n < self.now.multiplier.registers.ports) }
    {
        let n = controlled(frame)?;
        if n < self.ports && self.is_in_reset(n) {
            Some(n)
        } else {
            None
        }
    }

    // Takes a frame of the host, or gives it back. A write of SControl may have a device begin anew.
    pub(crate) fn send(&mut self, alloc: Global, frame: Frame) -> Result<Passed, (Frame, PmRefusal)>
        ensures { SendsFan self.old frame result self.new }
    {
        let held = self.held_in_reset(&frame);
        let passed = self.pass(alloc, frame)?;
        if let Some(n) = held {
            self.heed(n);
        }
        Ok(passed)
    }

    // Takes a frame of the host, or gives it back.
    fn pass(&mut self, alloc: Global, frame: Frame) -> Result<Passed, (Frame, PmRefusal)>
        ensures { Through (λ old new. FromHostRule old frame result new) self.old self.new }
    {
        self.multiplier.from_host(alloc, frame)
    }

    // A port was in reset. Where it is so no more, its device begins anew.
    fn heed(&mut self, n: u8)
        requires { n < self.old.multiplier.registers.ports }
        ensures { self.new ≡ heeded self.old n }
    {
        if !self.is_in_reset(n) {
            self.rejoin(n);
        }
    }

    // Gives the frame for the device at a port.
    pub(crate) fn next_down(&mut self, n: u8) -> Option<Frame>
        requires { n < self.old.multiplier.registers.ports }
        ensures { Through (λ old new. NextDownRule old n result new) self.old self.new }
    {
        self.multiplier.next_down(n)
    }

    // Whether a device is at a port and a frame of it has room.
    pub(crate) fn wants(&self, n: u8) -> bool
        requires { n < self.now.multiplier.registers.ports }
        ensures { result ≡ wants self.now n }
    {
        self.seats[usize::from(n)].is_there && self.multiplier.hold(n).is_none()
    }

    // Takes a frame of the device at a port, or gives it back where another waits. Where no device is, it is dropped.
    pub(crate) fn offer(&mut self, n: u8, frame: Frame) -> Result<Offered, Frame>
        requires { n < self.old.multiplier.registers.ports }
        ensures { OffersFan self.old n frame result self.new }
    {
        let seat = self.seat(n);
        if !seat.is_there {
            return Ok(Offered::Dropped);
        }
        if self.multiplier.hold(n).is_some() {
            return Err(frame);
        }
        match self.multiplier.from_device(n, seat.sent_from(n, frame)) {
            Ok(Offered::Held) => {
                self.seats[usize::from(n)] = seat.after_sent();
                Ok(Offered::Held)
            }
            _ => unreachable!(),
        }
    }

    // Gives the frame for the host whose turn it is. Only a notification needs memory; where that is refused, nothing changes.
    pub(crate) fn next_up(&mut self, alloc: Global) -> Result<Option<Frame>, AllocError>
        ensures { Through (λ old new. NextUpRule old result new) self.old self.new }
    {
        self.multiplier.next_up(alloc)
    }

    // The first port whose device is to begin anew.
    fn first_begun(&self) -> Option<u8>
        ensures value { result ≡ first_begun self.now }
        ensures there { IfSome result (λ n. n < self.now.multiplier.registers.ports) }
    {
        (0..self.ports).find(|n| self.seats[usize::from(*n)].begun)
    }

    // Says which device is to begin anew, each once.
    pub(crate) fn next_begun(&mut self) -> Option<u8>
        ensures rule { TellsFan self.old result self.new }
        ensures there { IfSome result (λ n. n < self.old.multiplier.registers.ports) }
    {
        let n = self.first_begun()?;
        self.seats[usize::from(n)] = self.seat(n).told();
        Some(n)
    }
}
