//! The moves of a machine, and what its caller is asked.

ghost use Rattle.std.specs.Prelude.{◌≡◌};
ghost use Rattle.ahci_machine.specs.Asked.{request_of};

use crate::request::{GuestRead, MediumId, Request};
use ahci_controller::{Fed, Hindrance, Next, Took};
use block_engine::Request as Asked;
use multiplier::Passed;
use sata_disk::{Out, Unheard};

/// One move of a machine.
#[derive(Clone, Copy, Debug, PartialEq, Eq)]
pub enum Act {
    /// None: nothing can move until the guest, a medium or a device does something.
    Rests,
    /// Bytes go to the guest's memory: a payload, a FIS or PRDBC.
    Writes(Next),
    /// All of them went, so the frame that they came with is dropped.
    LetsGo,
    /// The interrupt line is up, or down, from now on.
    Line(bool),
    /// A message is due, where messages stand for the line.
    Message,
    /// The controller says what it has to do next.
    Turns(Next),
    /// That is done: bytes of a command are wanted, a command FIS is on its way, or the bytes of a Data FIS are to be read.
    Does(Next),
    /// The frame on its way went to the multiplier, or to the device.
    Sends(Passed),
    /// Bytes of a Data FIS are wanted.
    Wants(GuestRead),
    /// A Data FIS is whole. It goes if it is still due.
    Gathers {
        /// Its device.
        dev: u8,
        /// Whether it goes.
        fed: Fed,
    },
    /// Some of the bytes of a Data FIS are no memory, or have no place.
    Misses {
        /// The slot of its command.
        slot: u8,
        /// What comes of it.
        fed: Fed,
    },
    /// A frame is on its way to the controller.
    Rises,
    /// The controller took it.
    Takes(Took),
    /// It is lost: the link is down, or a command that cannot be served stopped the port.
    Loses(Hindrance),
    /// The device at a port begins anew.
    Begins(u8),
    /// The device at a port is given a FIS.
    Falls(u8),
    /// A disk heard it, or did not.
    Hears {
        /// Its port.
        port: u8,
        /// Why it is not heard.
        unheard: Option<Unheard>,
    },
    /// The caller is told of a FIS for a device of its own.
    Points(u8),
    /// A FIS for a port at which nothing is.
    Drops(u8),
    /// A disk sent a FIS.
    Speaks {
        /// Its port.
        port: u8,
        /// The FIS.
        out: Out,
    },
    /// A command of a disk started.
    Starts {
        /// The port.
        port: u8,
        /// Its place.
        place: u8,
    },
    /// A disk asks its medium.
    Asks {
        /// Which request it is.
        id: MediumId,
        /// What is to be done.
        asked: Asked,
    },
}

impl Act {
    /// What the caller is asked by it.
    pub fn request(self) -> Option<Request>
        ensures { result ≡ request_of self }
    {
        match self {
            Act::Rests => Some(Request::Nothing),
            Act::Writes(Next::Payload(write) | Next::Posted(write)) => {
                Some(Request::WriteGuest { at: write.at })
            }
            Act::Writes(Next::Counted(count)) => Some(Request::WriteGuest { at: count.at }),
            Act::Line(line) => Some(Request::Line(line)),
            Act::Message => Some(Request::Message),
            Act::Does(Next::Read(ask)) => Some(Request::ReadGuest(GuestRead::of(ask))),
            Act::Wants(read) => Some(Request::ReadGuest(read)),
            Act::Begins(port) => Some(Request::Begins(port)),
            Act::Points(port) => Some(Request::ToDevice(port)),
            Act::Asks { id, asked } => Some(Request::Medium {
                id,
                place: asked.place,
                what: asked.what,
            }),
            _ => None,
        }
    }
}
