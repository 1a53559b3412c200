//! What a scenario says about its board before the board is built.

ghost use Rattle.std.specs.Prelude.{◌≡◌, ◌≤◌, IfOk, length};

use crate::board::{Board, Seat};
use crate::disk::{Built, Shape};
use crate::telling::Telling;
use ahci_machine::{Machine, Unit};
use guest_bytes::{FlatError, FlatGuest};
use std::alloc::{AllocError, Global};
use std::fs::OpenFile;
use std::io::{Read, Seek, Write};

/// How large a board is.
#[derive(Clone, Copy)]
pub struct Sizes {
    /// Fan-out ports, 1 to 15.
    pub ports: u8,
    /// Where the guest's memory begins.
    pub base: u64,
    /// How many bytes it has.
    pub len: u32,
    pub ghost has_ports: { (1 ≤ ports) × (ports ≤ 15) },
}

/// What a line says about the board before it is built.
#[derive(Drop)]
pub enum Setting<F: Drop> {
    /// It is to have these sizes, which differ in the number of ports alone.
    Ports(Sizes),
    /// It is to have these sizes, which differ in the guest's memory alone, and this is that memory.
    Memory(Sizes, FlatGuest),
    /// The disk of this port is to be this one.
    Disk(u8, Shape<F>),
}

/// A board that is not built yet.
#[derive(Drop)]
pub struct Opening<F: Drop> {
    sizes: Sizes,
    /// The guest's memory, once a line has said where it lies.
    memory: Option<FlatGuest>,
    /// What was said about each port's disk. Nothing was said about ports past the last of them.
    disks: Vec<Option<Shape<F>>>,
    is_begun: bool,
}

/// The bytes of a guest's memory about which nothing is said. It begins at address 0.
const PLAIN_BYTES: u32 = 1_048_576;

/// The guest's memory about which nothing is said.
fn plain_memory(alloc: Global) -> Result<FlatGuest, AllocError> {
    match FlatGuest::new(alloc, 0, PLAIN_BYTES) {
        Ok(memory) => Ok(memory),
        Err(FlatError::OutOfMemory | FlatError::PastEnd) => Err(AllocError),
    }
}

impl<F: Read + Write + Seek + OpenFile + Drop> Opening<F> {
    /// A board about which nothing was said.
    pub fn new(alloc: Global) -> Opening<F> {
        Opening {
            sizes: Sizes {
                ports: 1,
                base: 0,
                len: PLAIN_BYTES,
            },
            memory: None,
            disks: Vec::new(alloc),
            is_begun: false,
        }
    }

    /// Whether a line has said something.
    pub fn is_begun(&self) -> bool {
        self.is_begun
    }

    /// The sizes of the board, as far as lines have said them.
    pub fn sizes(&self) -> Sizes
        ensures { result ≡ self.now.sizes }
    {
        self.sizes
    }

    /// Whether a line has said where the guest's memory lies.
    pub fn has_memory(&self) -> bool {
        self.memory.is_some()
    }

    /// Whether a line has said which disk stands at this port.
    pub fn has_disk(&self, port: u8) -> bool {
        matches!(self.disks.get(usize::from(port)), Some(Some(_)))
    }

    /// Whether a line has said that the sectors of a disk are in the file of this path.
    pub fn has_path(&self, path: &[u8]) -> bool {
        self.disks.iter().any(|shape| match shape {
            Some(shape) => shape.has_path(path),
            None => false,
        })
    }

    /// Takes in what one more line says.
    pub fn set(&mut self, setting: Setting<F>) -> Result<(), AllocError> {
        self.is_begun = true;
        match setting {
            Setting::Ports(sizes) => self.sizes = sizes,
            Setting::Memory(sizes, memory) => {
                self.sizes = sizes;
                self.memory = Some(memory);
            }
            Setting::Disk(port, shape) => *self.disk(port)? = Some(shape),
        }
        Ok(())
    }

    /// What was said about the disk of this port.
    fn disk(&mut self, port: u8) -> Result<&mut Option<Shape<F>>, AllocError> {
        let port = usize::from(port);
        if self.disks.len() <= port {
            self.disks.resize_with(port + 1, || None)?;
        }
        Ok(&mut self.disks[port])
    }

    /// The board.
    pub fn into_board(self, alloc: Global, telling: Telling) -> Result<Board<F>, AllocError> {
        let Opening {
            sizes,
            memory,
            disks,
            is_begun: _,
        } = self;
        let memory = match memory {
            Some(memory) => memory,
            None => plain_memory(alloc)?,
        };
        let mut machine = Machine::new(alloc, sizes.ports, false)?;
        let seats = seats_of(alloc, &mut machine, shapes_of(sizes.ports, disks)?)?;
        Ok(Board::new(machine, memory, seats, telling, sizes))
    }
}

/// What was said about the disks of this many ports.
fn shapes_of<F: Drop>(
    ports: u8,
    mut disks: Vec<Option<Shape<F>>>,
) -> Result<Vec<Option<Shape<F>>>, AllocError>
    ensures { IfOk result (λ shapes. length shapes.items ≡ ports) }
{
    disks.resize_with(usize::from(ports), || None)?;
    Ok(disks)
}

/// A disk is put at each port of a machine, as this was said.
fn seats_of<F: Read + Write + Seek + OpenFile + Drop>(
    alloc: Global,
    machine: &mut Machine,
    shapes: Vec<Option<Shape<F>>>,
) -> Result<Vec<Seat<F>>, AllocError> {
    let mut seats = Vec::new(alloc);
    let mut port = 0_u8;
    for said in shapes {
        let shape = match said {
            Some(shape) => shape,
            None => Shape::plain(),
        };
        let sectors = shape.sectors;
        let Built { disk, medium } = shape.into_disk(alloc, port)?;
        let _ = machine.put(port, Unit::Disk(disk));
        seats.push(Seat::new(medium, sectors))?;
        port = port.saturating_add(1);
    }
    Ok(seats)
}
