//! A host port with its driver, and a multiplier with devices behind it, in a loop.
//!
//! Clauses see a `Rig` as a number. So a test is proved with little work.

ghost use Rattle.std.specs.Prelude.{IsTrue, ◌<◌, ◌≤◌};

use disk_model::{Device, Disk, DiskPlan};
use fis_view::{Frame, FrameError, Stamp};
use hba_driver::{Completion, Driver, Outcome, Request, SubmitError, Ticket, Work};
use hba_fbs::HostPort;
use host_memory::{HostMemory, MemoryError, Prd};
use multiplier::Multiplier;
use std::alloc::{AllocError, Global};
use std::marker::Model;
use std::test::Fail;

/// What a submit gives: a ticket, or why not.
pub(super) type Given = Result<u32, SubmitError>;

/// What stands at a port.
#[derive(Clone, Copy)]
pub(super) enum Unit {
    /// A device whose frames the test makes.
    Made,
    /// A disk of 256 sectors.
    Disk,
}

/// Host port and driver, multiplier and devices.
#[derive(Drop)]
pub(super) struct Rig {
    pub(super) driver: Driver,
    pub(super) port: HostPort,
    pub(super) memory: HostMemory,
    multiplier: Multiplier,
    /// By port; None if a test makes the frames, or if there is no unit.
    disks: Vec<Option<Disk>>,
    /// The first bytes of each frame that the port gave.
    pub(super) sent: Vec<[u8; 20]>,
    /// The first bytes of each frame that it took.
    pub(super) taken: Vec<[u8; 20]>,
}

impl Model for Rig {
    ghost use Rattle.std.specs.Prelude.{ℕ};

    ghost Value = { ℕ };

    ghost view = { λ _. 0 };
}

/// The first bytes of a frame, and then zeros.
pub(super) fn beginning(bytes: &[u8]) -> [u8; 20] {
    let mut first = [0; 20];
    let count = bytes.len().min(20);
    first[..count].copy_from_slice(&bytes[..count]);
    first
}

/// Whether the last frame begins with these bytes.
fn last_begins(frames: &[[u8; 20]], first: &[u8]) -> bool {
    match frames.last() {
        Some(fis) => fis.starts_with(first),
        None => false,
    }
}

/// A frame of a device.
fn frame(alloc: Global, bytes: &[u8]) -> Result<Frame, FrameError> {
    let stamp = Stamp {
        port: 0,
        conn: 1,
        number: 0,
        shown: [0; 15],
    };
    Frame::from_bytes(alloc, bytes, stamp)
}

/// Whether port `n` is there.
fn has_port(pm: &Multiplier, n: u8) -> bool
    ensures { IsTrue result → n < pm.now.registers.ports }
{
    match pm.registers().read(15, 2) {
        Ok(ports) => u32::from(n) < ports,
        Err(_) => false,
    }
}

fn next_down(pm: &mut Multiplier, n: u8) -> Option<Frame> {
    if has_port(pm, n) {
        pm.next_down(n)
    } else {
        None
    }
}

fn is_held(pm: &Multiplier, n: u8) -> bool {
    has_port(pm, n) && pm.hold(n).is_some()
}

/// Whether port `n` holds the frame.
fn offer(pm: &mut Multiplier, n: u8, frame: Frame) -> bool {
    has_port(pm, n) && pm.from_device(n, frame).is_ok()
}

/// A disk takes the frame that is for it, and sends one. Says whether there was one.
fn serve(alloc: Global, pm: &mut Multiplier, n: u8, disk: &mut Disk) -> Result<bool, AllocError> {
    let mut moved = false;
    if let Some(frame) = next_down(pm, n) {
        disk.on_frame(alloc, &frame)?;
        moved = true;
    }
    if is_held(pm, n) {
        return Ok(moved);
    }
    let stamp = Stamp {
        port: n,
        conn: 1,
        number: 0,
        shown: [0; 15],
    };
    match disk.next_out(alloc, stamp)? {
        Some(frame) => Ok(offer(pm, n, frame)),
        None => Ok(moved),
    }
}

/// The disk that a unit is, if it is one.
fn disk_of(alloc: Global, unit: Unit) -> Result<Option<Disk>, Fail> {
    if matches!(unit, Unit::Made) {
        return Ok(None);
    }
    let mut disk = Disk::new(alloc, 256, DiskPlan::plain())?;
    disk.plugged(alloc)?;
    Ok(Some(disk))
}

/// A page of 512 bytes as Data, with these bytes set.
pub(super) fn page(set: &[(usize, u8)]) -> [u8; 516] {
    let mut page = [0; 516];
    page[0] = 0x46;
    for (at, byte) in set.iter() {
        if *at < 512 {
            page[4 + *at] = *byte;
        }
    }
    page
}

pub(super) fn request(
    alloc: Global,
    work: Work,
    lba: u64,
    sectors: u16,
    entries: &[(u32, u32)],
) -> Result<Request, AllocError> {
    let mut prds = Vec::new(alloc);
    for entry in entries.iter() {
        let (address, bytes) = *entry;
        prds.push(Prd { address, bytes })?;
    }
    Ok(Request {
        work,
        lba,
        sectors,
        prds,
    })
}

impl Rig {
    /// A rig with this many ports, and no unit.
    pub(super) fn new(alloc: Global, driver: Driver, ports: u8) -> Result<Rig, MemoryError>
        requires some { 1 ≤ ports }
        requires at_most { ports ≤ 15 }
    {
        Ok(Rig {
            driver,
            port: HostPort::new(),
            memory: HostMemory::new(alloc, 0x20_0000)?,
            multiplier: Multiplier::new(ports),
            disks: Vec::new(alloc),
            sent: Vec::new(alloc),
            taken: Vec::new(alloc),
        })
    }

    /// Each of this many ports, from port 0 on, gets a disk, and all is done that follows.
    pub(super) fn plug_disks(&mut self, alloc: Global, disks: u8) -> Result<bool, Fail> {
        for n in 0..disks {
            if !self.plug(alloc, n, Unit::Disk)? {
                return Ok(false);
            }
        }
        self.settle(alloc)
    }

    /// Port `n`, above those that have a unit, gets one.
    pub(super) fn plug(&mut self, alloc: Global, n: u8, unit: Unit) -> Result<bool, Fail> {
        for _ in self.disks.len()..usize::from(n) {
            self.disks.push(None)?;
        }
        self.disks.push(disk_of(alloc, unit)?)?;
        Ok(has_port(&self.multiplier, n) && self.multiplier.came(n, 1).is_ok())
    }

    /// The device at port `n` sends a frame. Says whether it is held.
    pub(super) fn send(&mut self, alloc: Global, n: u8, bytes: &[u8]) -> Result<bool, FrameError> {
        let frame = frame(alloc, bytes)?;
        Ok(offer(&mut self.multiplier, n, frame))
    }

    /// The port takes a frame.
    pub(super) fn hear(&mut self, alloc: Global, bytes: &[u8]) -> Result<(), FrameError> {
        let frame = frame(alloc, bytes)?;
        let _ = self.port.take(&frame, &mut self.memory);
        Ok(())
    }

    pub(super) fn tick(&mut self) -> bool {
        self.driver.tick(&mut self.port, &mut self.memory)
    }

    /// The multiplier takes the port's next frame.
    fn push(&mut self, alloc: Global) -> Result<bool, Fail> {
        let Some(frame) = self.port.next_out(alloc, &self.memory)? else {
            return Ok(false);
        };
        self.sent.push(beginning(frame.bytes()))?;
        match self.multiplier.from_host(alloc, frame) {
            Ok(_) => Ok(true),
            Err((_, refusal)) => Err(refusal.into()),
        }
    }

    /// The port takes the multiplier's next frame.
    fn take(&mut self, alloc: Global) -> Result<bool, Fail> {
        let Some(frame) = self.multiplier.next_up(alloc)? else {
            return Ok(false);
        };
        self.taken.push(beginning(frame.bytes()))?;
        let _ = self.port.take(&frame, &mut self.memory);
        Ok(true)
    }

    /// The device at port `n` takes a frame and sends one.
    fn serve(&mut self, alloc: Global, n: u8) -> Result<bool, AllocError> {
        match self.disks.get_mut(n as usize) {
            Some(Some(disk)) => serve(alloc, &mut self.multiplier, n, disk),
            Some(None) => Ok(next_down(&mut self.multiplier, n).is_some()),
            None => Ok(false),
        }
    }

    /// Each does what it can, once, except the device of this port. Says whether something was done.
    fn round(&mut self, alloc: Global, still: Option<u8>) -> Result<bool, Fail> {
        let mut moved = self.tick();
        moved |= self.push(alloc)?;
        for n in 0..15_u8 {
            if still != Some(n) {
                moved |= self.serve(alloc, n)?;
            }
        }
        moved |= self.take(alloc)?;
        Ok(moved)
    }

    /// Runs rounds until nothing is done. Says whether that came within 4,000.
    pub(super) fn settle(&mut self, alloc: Global) -> Result<bool, Fail> {
        for _ in 0..4000 {
            if !self.round(alloc, None)? {
                return Ok(true);
            }
        }
        Ok(false)
    }

    /// Runs rounds without the device of a port, until the port takes a frame that begins with these
    /// bytes. Says whether that came within 1,000.
    pub(super) fn until_taken(
        &mut self,
        alloc: Global,
        still: Option<u8>,
        first: &[u8],
    ) -> Result<bool, Fail> {
        for _ in 0..1000 {
            self.round(alloc, still)?;
            if last_begins(&self.taken, first) {
                return Ok(true);
            }
        }
        Ok(false)
    }

    /// A request is submitted.
    pub(super) fn submit(
        &mut self,
        alloc: Global,
        dev: u8,
        work: Work,
        lba: u64,
        sectors: u16,
        entries: &[(u32, u32)],
    ) -> Result<Given, AllocError> {
        let request = request(alloc, work, lba, sectors, entries)?;
        Ok(self.give(dev, &request))
    }

    pub(super) fn give(&mut self, dev: u8, request: &Request) -> Given {
        match self.driver.submit(&mut self.memory, dev, request) {
            Ok(ticket) => Ok(ticket.0),
            Err(refusal) => Err(refusal),
        }
    }

    /// Whether the next poll gives this request, which ended in this way.
    pub(super) fn polls(&mut self, ticket: u32, slot: u8, outcome: Outcome) -> bool {
        let completion = Completion {
            ticket: Ticket(ticket),
            slot,
            outcome,
        };
        self.driver.poll() == Some(completion)
    }

    /// What the register of the port at an offset shows.
    pub(super) fn shown(&self, offset: u32) -> u32 {
        self.port.read(offset).unwrap_or(0xFFFF_FFFF)
    }

    /// PxCLB, PxCLBU, PxFB, PxFBU, PxFBS, PxCMD and PxCI.
    pub(super) fn opening(&self) -> [u32; 7] {
        [
            self.shown(0),
            self.shown(4),
            self.shown(8),
            self.shown(12),
            self.shown(0x40),
            self.shown(0x18),
            self.shown(0x38),
        ]
    }

    /// PxFBS, PxSACT, PxCI and PxSNTF.
    pub(super) fn issues(&self) -> [u32; 4] {
        [
            self.shown(0x40),
            self.shown(0x34),
            self.shown(0x38),
            self.shown(0x3C),
        ]
    }

    /// TFES and HBFS of PxIS, and SDE and DWE of PxFBS.
    pub(super) fn faults(&self) -> [u32; 2] {
        [self.shown(0x10) & 0x6000_0000, self.shown(0x40) & 0xF_0006]
    }

    /// Whether these bytes stand at an address of the client area.
    pub(super) fn holds(&self, at: u32, bytes: [u8; 4]) -> bool {
        let client = self.memory.client();
        let start = at.wrapping_sub(0x10_0000) as usize;
        start <= client.len() && client[start..].starts_with(&bytes)
    }

    /// Whether these frames were sent since this was last asked.
    pub(super) fn has_sent(&mut self, frames: &[[u8; 20]]) -> bool {
        let are = self.sent.as_slice() == frames;
        self.sent.clear();
        are
    }

    /// How many commands were sent since then with these bytes: the byte of PM Port and C, Command,
    /// and Device Control.
    pub(super) fn count_sent(&self, bytes: [u8; 3]) -> u32 {
        let mut count = 0_u32;
        for fis in self.sent.iter() {
            if [fis[1], fis[2], fis[15]] == bytes {
                count = count.saturating_add(1);
            }
        }
        count
    }
}
