//! What is behind the port of a host.

ghost use Rattle.std.specs.Prelude.{false, true, ◌≡◌, ◌≤◌, ◌<◌, IfSome, Ok};
ghost use Rattle.pm_ports.specs.declared.port.Offered.TheVariants.{Held};
ghost use Rattle.fan_out.specs.FanOuts.{IsEnd, GivesDownThere, GivesUpThere, Offers, Plugs, Pulls, Sends, Tells, is_bare, port_count, renewed_end, wants_at};
ghost use Rattle.fan_out.specs.Fans.{opening_fan};
ghost use Rattle.fan_out.specs.Straights.{opening_straight};

mod saved;

use crate::fan::Fan;
use crate::seat::{NotThere, PlugError};
use crate::straight::Straight;
use fis_view::Frame;
use multiplier::{Passed, PmRefusal};
use pm_ports::Offered;
use std::alloc::{AllocError, Global};

/// One device behind the port of a host, or a port multiplier with up to fifteen.
#[derive(Debug, Drop)]
pub enum FanOut {
    /// One device, at port 0.
    Device(Straight),
    /// A port multiplier.
    Multiplier(Fan),
}

impl FanOut {
    /// A link for one device. None is there yet.
    pub fn straight() -> FanOut
        ensures { result ≡ FanOut.Device opening_straight }
    {
        FanOut::Device(Straight::new())
    }

    /// A port multiplier with this many device ports and no device. `legacy` says whether its port 0 is open from the start, for
    /// software that knows no multipliers (Serial ATA 3.x, 16.3.3).
    pub fn multiplied(ports: u8, legacy: bool) -> FanOut
        requires some { 1 ≤ ports }
        requires at_most { ports ≤ 15 }
        ensures { result ≡ FanOut.Multiplier (opening_fan ports legacy false) }
    {
        FanOut::Multiplier(Fan::new(ports, legacy, false))
    }

    /// How many device ports there are: 1 without a multiplier.
    pub fn ports(&self) -> u8
        ensures value { result ≡ port_count self.now }
        ensures sound { IsEnd self.now }
    {
        match self {
            FanOut::Device(straight) => straight.ports(),
            FanOut::Multiplier(fan) => fan.ports(),
        }
    }

    /// Whether nothing is at the other end of the link: no multiplier, and no device.
    pub fn is_bare(&self) -> bool
        ensures { result ≡ is_bare self.now }
    {
        match self {
            FanOut::Device(straight) => !straight.is_there(),
            FanOut::Multiplier(_) => false,
        }
    }

    /// A device is plugged in at a port, as its next connection. It is to begin.
    pub fn plug(&mut self, n: u8) -> Result<(), PlugError>
        ensures { Plugs self.old n result self.new }
    {
        if n >= self.ports() {
            return Err(PlugError::NoPort);
        }
        match self {
            FanOut::Device(straight) => straight.plug(),
            FanOut::Multiplier(fan) => fan.plug(n),
        }
    }

    /// The device of a port is pulled. What waits there, in both directions, is dropped.
    pub fn pull(&mut self, n: u8) -> Result<(), NotThere>
        ensures { Pulls self.old n result self.new }
    {
        if n >= self.ports() {
            return Err(NotThere);
        }
        match self {
            FanOut::Device(straight) => straight.pull(),
            FanOut::Multiplier(fan) => fan.pull(n),
        }
    }

    /// The link of the host was reset. All that is on its way is dropped, a multiplier begins as a new one, and each device that
    /// is plugged in is to begin anew. Where port 0 is open from the start, its device passes at once.
    pub fn renew(&mut self)
        ensures { self.new ≡ renewed_end self.old }
    {
        match self {
            FanOut::Device(straight) => straight.renew(),
            FanOut::Multiplier(fan) => fan.renew(),
        }
    }

    /// Takes a frame of the host, or gives it back where the place that it needs is taken or memory is refused. A write of SControl
    /// of a port that ends the reset of its device has the device begin anew.
    pub fn send(&mut self, alloc: Global, frame: Frame) -> Result<Passed, (Frame, PmRefusal)>
        ensures { Sends self.old frame result self.new }
    {
        match self {
            FanOut::Device(straight) => straight.send(frame),
            FanOut::Multiplier(fan) => fan.send(alloc, frame),
        }
    }

    /// Gives the next frame for the host. Only a notification needs memory. Where that is refused, nothing changes.
    pub fn next_up(&mut self, alloc: Global) -> Result<Option<Frame>, AllocError>
        ensures { GivesUpThere self.old result self.new }
    {
        match self {
            FanOut::Device(straight) => Ok(straight.next_up()),
            FanOut::Multiplier(fan) => fan.next_up(alloc),
        }
    }

    /// Gives the frame for the device at a port.
    pub fn next_down(&mut self, n: u8) -> Option<Frame>
        ensures { GivesDownThere self.old n result self.new }
    {
        if n >= self.ports() {
            return None;
        }
        match self {
            FanOut::Device(straight) => straight.next_down(),
            FanOut::Multiplier(fan) => fan.next_down(n),
        }
    }

    /// Whether a device is at a port and a frame of it has room.
    pub fn wants(&self, n: u8) -> bool
        ensures { result ≡ wants_at self.now n }
    {
        if n >= self.ports() {
            return false;
        }
        match self {
            FanOut::Device(straight) => straight.wants(),
            FanOut::Multiplier(fan) => fan.wants(n),
        }
    }

    /// Takes a frame of the device at a port, or gives it back where another waits there. Where no device is, it is dropped. Its
    /// stamp becomes that of the next frame of the connection.
    pub fn offer(&mut self, n: u8, frame: Frame) -> Result<Offered, Frame>
        ensures rule { Offers self.old n frame result self.new }
        ensures wanted { wants_at self.old n ≡ true → result ≡ Ok Held }
    {
        if n >= self.ports() {
            return Ok(Offered::Dropped);
        }
        match self {
            FanOut::Device(straight) => straight.offer(frame),
            FanOut::Multiplier(fan) => fan.offer(n, frame),
        }
    }

    /// The port of a device that is to begin anew, each once: it was plugged in, or reset.
    pub fn next_begun(&mut self) -> Option<u8>
        ensures rule { Tells self.old result self.new }
        ensures there { IfSome result (λ n. n < port_count self.old) }
    {
        match self {
            FanOut::Device(straight) => straight.next_begun(),
            FanOut::Multiplier(fan) => fan.next_begun(),
        }
    }
}
