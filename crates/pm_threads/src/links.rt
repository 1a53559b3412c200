//! The links of one run.

ghost use Rattle.std.specs.Prelude.{◌≡◌, ◌↔◌, true, false, length, IfOk};
ghost use Rattle.ruled_links.specs.Links.{is_capacity};
ghost use Rattle.pm_threads.specs.Links.{is_config, new_device, new_links};

use link_items::{Down, FromDevice, Presence, ToHost};
use ruled_links::{Link, LinkError};
use std::alloc::Global;
use std::marker::Model;
use thiserror::Error;

/// The most device ports that a multiplier has.
const MOST_PORTS: u8 = 15;

/// Why no links are made.
#[derive(Clone, Copy, Debug, PartialEq, Eq, Error)]
pub enum LinksError {
    /// There are not 1 to 15 ports, or not 1 to 64 places on a link.
    #[error("bad config")]
    BadConfig = 1,
    /// The allocator refused memory for a link.
    #[error("out of memory")]
    OutOfMemory = 2,
}

impl From<LinkError> for LinksError {
    ghost use Rattle.pm_threads.specs.Links.{IsErrorOf};

    ghost from_gives = { IsErrorOf };

    fn from(error: LinkError) -> LinksError {
        match error {
            LinkError::BadCapacity => LinksError::BadConfig,
            LinkError::OutOfMemory => LinksError::OutOfMemory,
        }
    }
}

/// The links between the multiplier and the device at one port.
#[derive(Drop)]
pub(crate) struct DeviceLinks {
    pub(crate) up: Link<FromDevice>,
    pub(crate) down: Link<Down>,
    pub(crate) presence: Link<Presence>,
}

impl Model for DeviceLinks {
    ghost use Rattle.pm_threads.specs.Links.{DeviceState};

    ghost Value = { DeviceState };

    ghost view = { λ d. record { up = d.up; down = d.down; presence = d.presence } };
}

impl DeviceLinks {
    fn new(alloc: Global, capacity: usize) -> Result<DeviceLinks, LinkError>
        ensures ok { IfOk result (λ device. device ≡ new_device capacity) }
        ensures bad_capacity { (result ≡ Err LinkError.BadCapacity) ↔ (is_capacity capacity ≡ false) }
    {
        let up = Link::new(alloc, capacity)?;
        let down = Link::new(alloc, capacity)?;
        let presence = Link::new(alloc, capacity)?;
        Ok(DeviceLinks { up, down, presence })
    }
}

/// All links of a run. Each device has one for its FISes, one for those to it and one for its
/// connections as they come and go. The host has one up and one down.
#[derive(Drop)]
pub struct Links {
    pub(crate) devices: Vec<DeviceLinks>,
    pub(crate) up: Link<ToHost>,
    pub(crate) down: Link<Down>,
    /// Whether a run has taken the seats.
    pub(crate) given: bool,
}

impl Model for Links {
    ghost use Rattle.std.specs.Prelude.{◌≡◌, false};
    ghost use Rattle.pm_threads.specs.Links.{AllFree, LinksState};

    ghost Value = { LinksState };

    ghost view = { λ l. record { devices = l.devices.items; up = l.up; down = l.down; given = l.given } };

    ghost invariant = { λ l. l.given ≡ false
        → AllFree (record { devices = l.devices.items; up = l.up; down = l.down; given = l.given }) };
}

impl Links {
    /// The links of a multiplier with this many device ports, each link with this many places. No
    /// seat has been given.
    #[tactic(auto, using(crate::proofs::Replicas::replicate_push))]
    pub fn new(alloc: Global, ports: u8, capacity: usize) -> Result<Links, LinksError>
        ensures ok { IfOk result (λ links. links ≡ new_links ports capacity) }
        ensures bad_config { (result ≡ Err LinksError.BadConfig) ↔ (is_config ports capacity ≡ false) }
    {
        if ports < 1 || ports > MOST_PORTS {
            return Err(LinksError::BadConfig);
        }
        let up = Link::new(alloc, capacity)?;
        let down = Link::new(alloc, capacity)?;
        let mut devices = Vec::new(alloc);
        for _ in 0..ports {
            let device = DeviceLinks::new(alloc, capacity)?;
            if devices.push(device).is_err() {
                return Err(LinksError::OutOfMemory);
            }
        }
        Ok(Links {
            devices,
            up,
            down,
            given: false,
        })
    }

    /// Whether a run has taken their seats. Each run takes them that does not answer `BadSetup`. Then
    /// they serve no other run.
    pub fn are_given(&self) -> bool
        ensures { result ≡ self.now.given }
    {
        self.given
    }

    /// How many device ports there are.
    pub(crate) fn ports(&self) -> usize
        ensures { result ≡ length self.now.devices }
    {
        self.devices.len()
    }
}
