//! The seats at one device port.

use link_items::{Down, FromDevice, Presence};
use ruled_links::{Rx, Tx};
use std::marker::Model;

/// The seats of the three links between the multiplier and the device at one of its ports.
#[derive(Drop)]
pub struct PmPort<'a> {
    /// FISes for the device.
    pub commands: Tx<'a, Down>,
    /// FISes of the device.
    pub frames: Rx<'a, FromDevice>,
    /// Its connections, as they come and go.
    pub presence: Rx<'a, Presence>,
}

impl<'a> Model for PmPort<'a> {
    ghost use Rattle.pm_thread.specs.Runs.{PortSeats};

    ghost Value = { PortSeats };

    ghost view = { λ p. record {
      commands = p.commands;
      frames = p.frames;
      presence = p.presence;
    } };
}
