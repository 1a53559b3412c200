//! A controller with what is behind it, the memory of its guest, and the media of the disks.

use crate::event::Access;
use crate::medium::{Medium, aborted};
use crate::opening::Sizes;
use crate::telling::Telling;
use crate::tracer::Tracer;
use ahci_controller::Width;
use ahci_machine::{Act, GuestRead, Machine, MediumId, Request};
use ahci_registers::Effect;
use block_engine::{Answer, What};
use guest_bytes::{FlatGuest, NotThere};
use std::alloc::Global;
use std::fs::OpenFile;
use std::io::{Read, Seek, Write};
use trace_text::Failure;

/// The disk of a port, as the scenario knows it.
#[derive(Drop)]
pub struct Seat<F: Drop> {
    medium: Medium<F>,
    /// How many sectors it has.
    sectors: u64,
    is_there: bool,
    /// How often it was plugged in or its link was reset, which is the number of its connection.
    conn: u32,
}

impl<F: Read + Write + Seek + OpenFile + Drop> Seat<F> {
    /// A disk that is not plugged in.
    pub fn new(medium: Medium<F>, sectors: u64) -> Seat<F> {
        Seat {
            medium,
            sectors,
            is_there: false,
            conn: 0,
        }
    }

    /// Its connection begins anew. Says its number.
    fn connect(&mut self) -> u32 {
        self.conn = self.conn.saturating_add(1);
        self.conn
    }
}

/// A machine with a disk at each of its ports, the memory of its guest, and the media of the disks.
#[derive(Drop)]
pub struct Board<F: Drop> {
    machine: Machine,
    memory: FlatGuest,
    seats: Vec<Seat<F>>,
    tracer: Tracer,
}

/// No command has this place.
const NO_PLACE: u8 = u8::MAX;

/// Whether a FIS went over the link between the controller and what is behind it.
fn is_passage(act: Act) -> bool {
    matches!(act, Act::Sends(_) | Act::Takes(_) | Act::Loses(_))
}

impl<F: Read + Write + Seek + OpenFile + Drop> Board<F> {
    /// A board of this machine, which has a disk at each port that has a seat, none of them plugged in.
    pub fn new(
        machine: Machine,
        memory: FlatGuest,
        seats: Vec<Seat<F>>,
        telling: Telling,
        sizes: Sizes,
    ) -> Board<F> {
        Board {
            machine,
            memory,
            seats,
            tracer: Tracer::new(telling, sizes),
        }
    }

    /// The disk at this port is plugged in. Says the number of its connection, and None if it was there
    /// already.
    pub fn plug(&mut self, port: u8) -> Option<u32> {
        let seat = self.seats.get_mut(usize::from(port))?;
        self.machine.plug(port).ok()?;
        seat.is_there = true;
        self.tracer.plug(port, seat.sectors);
        Some(seat.connect())
    }

    /// The disk at this port is pulled. Says the number of its connection, and None if it was not there.
    pub fn pull(&mut self, alloc: Global, port: u8) -> Option<u32> {
        let seat = self.seats.get_mut(usize::from(port))?;
        self.machine.pull(alloc, port).ok()?;
        seat.is_there = false;
        self.tracer.pull(port);
        Some(seat.conn)
    }

    /// What the register at an offset reads: 0 where none begins.
    pub fn read<W: Write>(&mut self, offset: u32, out: &mut W) -> Result<u32, Failure> {
        let value = match offset % 4 {
            0 => self.machine.read(offset, Width::Dword) as u32,
            _ => 0,
        };
        self.tracer.tell_read(Access { offset, value }, out)?;
        Ok(value)
    }

    /// Whether the interrupt line is up.
    pub fn line(&self) -> bool {
        self.machine.line()
    }

    /// Writes the register at an offset, where one begins. Says what that does to the link.
    pub fn write<W: Write>(
        &mut self,
        offset: u32,
        value: u32,
        out: &mut W,
    ) -> Result<Effect, Failure> {
        let access = Access { offset, value };
        self.tracer.tell_writing(&self.machine, access, out)?;
        if offset % 4 != 0 {
            return Ok(Effect::Nothing);
        }
        let both = self.machine.write(offset, Width::Dword, u64::from(value));
        let written = if offset % 8 == 0 { both.low } else { both.high };
        self.tracer.tell_written(&self.machine, &written, out)?;
        if written.effect != Effect::Nothing {
            for seat in self.seats.iter_mut().filter(|seat| seat.is_there) {
                seat.connect();
            }
        }
        Ok(written.effect)
    }

    /// The guest writes bytes to its memory, from an address on.
    pub fn put(&mut self, at: u64, bytes: &[u8]) -> Result<(), NotThere> {
        self.memory.put(at, bytes)
    }

    /// Writes that it did, if that is asked for.
    pub fn tell_put<W: Write>(
        &mut self,
        at: u64,
        bytes: &[u8],
        out: &mut W,
    ) -> Result<(), Failure> {
        self.tracer
            .tell_put(&self.machine, &self.memory, at, bytes, out)
    }

    /// Reads the guest's memory, from an address on.
    pub fn show(&self, at: u64, into: &mut [u8]) -> Result<(), NotThere> {
        self.memory.read(at, into)
    }

    /// Moves what can move, until more FISes than these would go over the link. Says whether nothing can move
    /// any more.
    pub fn settle<W: Write>(
        &mut self,
        alloc: Global,
        fises: u64,
        out: &mut W,
    ) -> Result<bool, Failure> {
        let mut gone = 0;
        for _ in 0..u64::MAX {
            if gone >= fises && self.tracer.is_next(&self.machine) {
                return Ok(false);
            }
            let act = self.machine.step(alloc)?;
            self.tracer.tell(alloc, &self.machine, act, out)?;
            if act == Act::Rests {
                return Ok(true);
            }
            gone = gone.saturating_add(u64::from(is_passage(act)));
            self.answer(alloc, act, out)?;
        }
        Ok(false)
    }

    /// Does what a move asks.
    fn answer<W: Write>(&mut self, alloc: Global, act: Act, out: &mut W) -> Result<(), Failure> {
        match act.request() {
            Some(Request::ReadGuest(read)) => self.supply(alloc, read, out),
            Some(Request::WriteGuest { at }) => {
                // Bytes for a place that is not all memory are lost.
                let lent = self.machine.lent();
                let is_lost = self.memory.put(at, lent).is_err();
                self.tracer.tell_store(act, lent.len(), is_lost, out)
            }
            Some(Request::Medium { id, place, what }) => self.serve(alloc, id, place, what, out),
            _ => Ok(()),
        }
    }

    /// Bytes of the guest's memory are wanted.
    fn supply<W: Write>(
        &mut self,
        alloc: Global,
        read: GuestRead,
        out: &mut W,
    ) -> Result<(), Failure> {
        let mut bytes = vec![in alloc; 0; read.len]?;
        let told = match self.memory.read(read.at, &mut bytes) {
            Ok(()) => {
                self.tracer
                    .tell_fetch(&self.machine, read, Some(&bytes), out)?;
                self.machine.supply(alloc, read.wanted, &bytes)?
            }
            Err(NotThere) => {
                self.tracer.tell_fetch(&self.machine, read, None, out)?;
                self.machine.no_memory(read.wanted)?
            }
        };
        self.tracer.tell_answer(&self.machine, told, out)
    }

    /// A disk asks its medium.
    fn serve<W: Write>(
        &mut self,
        alloc: Global,
        id: MediumId,
        place: Option<u8>,
        what: What,
        out: &mut W,
    ) -> Result<(), Failure> {
        let Some(seat) = self.seats.get_mut(usize::from(id.port)) else {
            return Ok(());
        };
        let answer = match what {
            What::Load { lba, count } => seat.medium.load(alloc, lba, count)?,
            What::Store { lba, count } => match self.machine.stored(id, place.unwrap_or(NO_PLACE)) {
                Some(bytes) => seat.medium.store(lba, count, bytes),
                None => aborted(lba),
            },
            What::Flush => seat.medium.flush(),
            // No disk of a scenario says that it takes TRIM.
            What::Discard => aborted(0),
        };
        let failed = match &answer {
            Answer::Failed(failure) => Some(*failure),
            Answer::Loaded(_) | Answer::Done => None,
        };
        let _ = self.machine.answer(id, answer);
        self.tracer.tell_asked(id.port, what, failed, out)
    }
}
