//! What a machine asks, or a disk by itself, as C sees it.

ghost use Rattle.std.specs.Prelude.{◌≡◌};
ghost use Rattle.gefsunk.specs.Disks.{asked_event, is_own};
ghost use Rattle.gefsunk.specs.Machines.{event_of, id_named, wanted_named, wanted_shown};
ghost use Rattle.gefsunk.specs.Media.{medium_shown, no_request, no_wanted, place_named, plain, request_shown};

use ahci_machine::{GuestRead, MediumId, Request, Wanted};
use block_engine::What;

/// The kinds of events.
const NOTHING: u32 = 0;

const AGAIN: u32 = 1;

const READ_GUEST: u32 = 2;

const WRITE_GUEST: u32 = 3;

const LOAD: u32 = 4;

const STORE: u32 = 5;

const FLUSH: u32 = 6;

const DISCARD: u32 = 7;

const LINE: u32 = 8;

const MESSAGE: u32 = 9;

const TO_DEVICE: u32 = 10;

const BEGINS: u32 = 11;

/// The kinds of bytes that are wanted of the guest.
const OF_COMMAND: u32 = 1;

const OF_DATA: u32 = 2;

/// In place of a command's place: the request is of none.
const NO_PLACE: u32 = 33;

/// What bytes of the guest's memory are wanted for, as C gives it back.
#[repr(C)]
#[derive(Clone, Copy, Debug, PartialEq, Eq)]
pub struct WantedBytes {
    /// 1 for a command, 2 for a Data FIS.
    pub kind: u32,
    /// The slot of the command, or the device.
    pub owner: u32,
    /// The number of the want.
    pub number: u64,
    /// How many bytes of the FIS there were before.
    pub done: usize,
}

/// Which request of a disk an answer is for, as C gives it back.
#[repr(C)]
#[derive(Clone, Copy, Debug, PartialEq, Eq)]
pub struct MediumRequest {
    /// The port of the disk, 0 where it is by itself.
    pub port: u32,
    /// The place of its command, 33 for none.
    pub place: u32,
    /// Which disk of this port it is, 0 where it is by itself.
    pub disk: u64,
    /// The number of the request at that disk.
    pub number: u64,
}

/// What is to be done, as C sees it. What a kind of event does not have is 0.
#[repr(C)]
#[derive(Clone, Copy, Debug, PartialEq, Eq)]
pub struct Event {
    /// What it is.
    pub kind: u32,
    /// The port, of a disk or a device.
    pub port: u32,
    /// Of the line: 1 if it is up.
    pub up: u32,
    /// The number of sectors.
    pub count: u32,
    /// The first sector.
    pub lba: u64,
    /// The address of the first byte in the guest's memory.
    pub at: u64,
    /// How many bytes.
    pub len: usize,
    /// What bytes of the guest are wanted for.
    pub wanted: WantedBytes,
    /// Which request of a disk it is.
    pub request: MediumRequest,
}

impl WantedBytes {
    fn none() -> WantedBytes
        ensures { result ≡ no_wanted }
    {
        WantedBytes {
            kind: 0,
            owner: 0,
            number: 0,
            done: 0,
        }
    }

    fn shown(wanted: Wanted) -> WantedBytes
        ensures { result ≡ wanted_shown wanted }
    {
        match wanted {
            Wanted::Command { slot, number } => WantedBytes {
                kind: OF_COMMAND,
                owner: u32::from(slot),
                number,
                done: 0,
            },
            Wanted::Data { dev, number, done } => WantedBytes {
                kind: OF_DATA,
                owner: u32::from(dev),
                number,
                done,
            },
        }
    }

    /// What the machine calls it, if an event can have it.
    pub fn named(self) -> Option<Wanted>
        ensures { result ≡ wanted_named self }
    {
        if self.kind == OF_COMMAND && self.owner < 32 {
            return Some(Wanted::Command {
                slot: self.owner as u8,
                number: self.number,
            });
        }
        if self.kind == OF_DATA && self.owner < 16 {
            return Some(Wanted::Data {
                dev: self.owner as u8,
                number: self.number,
                done: self.done,
            });
        }
        None
    }
}

impl MediumRequest {
    fn none() -> MediumRequest
        ensures { result ≡ no_request }
    {
        MediumRequest {
            port: 0,
            place: 0,
            disk: 0,
            number: 0,
        }
    }

    fn shown(id: MediumId, place: Option<u8>) -> MediumRequest
        ensures { result ≡ request_shown id place }
    {
        MediumRequest {
            port: u32::from(id.port),
            place: match place {
                Some(place) => u32::from(place),
                None => NO_PLACE,
            },
            disk: id.disk,
            number: id.number,
        }
    }

    /// The machine's name of it, if there can be such a port.
    pub fn id(self) -> Option<MediumId>
        ensures { result ≡ id_named self }
    {
        if self.port >= 15 {
            return None;
        }
        Some(MediumId {
            port: self.port as u8,
            disk: self.disk,
            number: self.number,
        })
    }

    /// Whether it can be one of a disk by itself.
    pub fn is_own(self) -> bool
        ensures { result ≡ is_own self }
    {
        self.port == 0 && self.disk == 0
    }

    /// The place of its command, if it has one.
    pub fn place(self) -> Option<u8>
        ensures { result ≡ place_named self }
    {
        if self.place >= NO_PLACE {
            return None;
        }
        Some(self.place as u8)
    }
}

impl Event {
    /// One of this kind, with nothing else in it.
    pub fn of(kind: u32) -> Event
        ensures { result ≡ plain kind }
    {
        Event {
            kind,
            port: 0,
            up: 0,
            count: 0,
            lba: 0,
            at: 0,
            len: 0,
            wanted: WantedBytes::none(),
            request: MediumRequest::none(),
        }
    }

    fn at_port(kind: u32, port: u8) -> Event
        ensures { result ≡ record (plain kind) { port = port } }
    {
        Event {
            port: u32::from(port),
            ..Event::of(kind)
        }
    }

    fn read(read: GuestRead) -> Event
        ensures { result ≡ record (plain 2) { at = read.at; len = read.len; wanted = wanted_shown read.wanted } }
    {
        Event {
            at: read.at,
            len: read.len,
            wanted: WantedBytes::shown(read.wanted),
            ..Event::of(READ_GUEST)
        }
    }

    fn medium(id: MediumId, place: Option<u8>, what: What) -> Event
        ensures { result ≡ medium_shown id place what }
    {
        let (kind, lba, count) = match what {
            What::Load { lba, count } => (LOAD, lba, count),
            What::Store { lba, count } => (STORE, lba, count),
            What::Flush => (FLUSH, 0, 0),
            What::Discard => (DISCARD, 0, 0),
        };
        Event {
            lba,
            count,
            request: MediumRequest::shown(id, place),
            ..Event::at_port(kind, id.port)
        }
    }

    /// What the machine asks. `lent` is how many bytes it lends.
    pub fn shown(request: Request, lent: usize) -> Event
        ensures { result ≡ event_of request lent }
    {
        match request {
            Request::Nothing => Event::of(NOTHING),
            Request::Again => Event::of(AGAIN),
            Request::ReadGuest(read) => Event::read(read),
            Request::WriteGuest { at } => Event {
                at,
                len: lent,
                ..Event::of(WRITE_GUEST)
            },
            Request::Medium { id, place, what } => Event::medium(id, place, what),
            Request::Line(up) => Event {
                up: u32::from(up),
                ..Event::of(LINE)
            },
            Request::Message => Event::of(MESSAGE),
            Request::ToDevice(port) => Event::at_port(TO_DEVICE, port),
            Request::Begins(port) => Event::at_port(BEGINS, port),
        }
    }

    /// What a disk by itself asks.
    pub fn asked(request: Option<block_engine::Request>) -> Event
        ensures { result ≡ asked_event request }
    {
        let Some(asked) = request else {
            return Event::of(NOTHING);
        };
        let id = MediumId {
            port: 0,
            disk: 0,
            number: asked.number,
        };
        Event::medium(id, asked.place, asked.what)
    }
}
