//! Worlds of disks, what is done to them and what they tell.
//!
//! Clauses see a `Rig` as a number, and no function of the tests has a contract. So a test is proved
//! with little work, whatever is proved of a world.

use super::liar::Liar;
use disk_model::{Disk, DiskPlan, Unit};
use fis_view::Bytes;
use hba_driver::{Completion, Request, SubmitError, Work};
use host_memory::{CLIENT_START, Prd};
use multiplier::Passed;
use pm_world::{Answer, AnyDevice, Config, ConnCount, Counts, Step, StepError, WorldError};
use std::alloc::{AllocError, Global};
use std::marker::Model;

/// Bytes of the host's memory.
pub(super) const MEMORY: u32 = 0x20_0000;

/// A step, in a form that a table can hold.
#[derive(Clone, Copy)]
pub(super) enum Act {
    Came(u8),
    Gone(u8),
    DiskSend(u8),
    /// This many zeros are sent as the device at this port.
    Inject(u8, usize),
    DiskTake(u8),
    PmPresence(u8),
    PmFromDevice(u8),
    PmFromHost,
    PmUp,
    PmDown(u8),
    HostTake,
    HostPush,
    Tick,
    /// A request for one sector, or a Flush: the device, the sector and the address.
    Submit(u8, Work, u64, u32),
    Poll,
    /// This many bytes of this value are put from this address on.
    Put(u32, u8, usize),
}

/// What an answer tells, without bytes: ports, connections and numbers of frames.
#[derive(Clone, Copy, PartialEq)]
pub(super) enum Told {
    Idle,
    Blocked,
    Came(u8, u32),
    Gone(u8, u32),
    /// Port, connection and number.
    Sent(u8, u32, u32),
    /// Port, and whether the frame was dropped.
    DiskTook(u8, bool),
    Presence(u8),
    /// Port, and whether the frame was dropped.
    Offered(u8, bool),
    Passed(Passed),
    Up(u8),
    Down(u8),
    /// Port, connection and number.
    Took(u8, u32, u32),
    Pushed,
    Ticked,
    /// The ticket.
    Submitted(u32),
    Refused(SubmitError),
    Polled(Completion),
    Put,
    /// The step is refused.
    Stopped(StepError),
}

/// What an answer tells.
pub(super) fn telling(answer: &Answer) -> Told {
    match answer {
        Answer::Idle => Told::Idle,
        Answer::Blocked => Told::Blocked,
        Answer::Came { port, conn } => Told::Came(*port, *conn),
        Answer::Gone { port, conn } => Told::Gone(*port, *conn),
        Answer::Sent {
            port,
            conn,
            number,
            ..
        } => Told::Sent(*port, *conn, *number),
        Answer::DiskTook { port, dropped } => Told::DiskTook(*port, *dropped),
        Answer::Presence(port) => Told::Presence(*port),
        Answer::Offered { port, dropped } => Told::Offered(*port, *dropped),
        Answer::Passed(passed) => Told::Passed(*passed),
        Answer::Up(port) => Told::Up(*port),
        Answer::Down(port) => Told::Down(*port),
        Answer::Took {
            port,
            conn,
            number,
            ..
        } => Told::Took(*port, *conn, *number),
        Answer::Pushed => Told::Pushed,
        Answer::Ticked => Told::Ticked,
        Answer::Submitted(ticket) => Told::Submitted(ticket.0),
        Answer::Refused(refusal) => Told::Refused(*refusal),
        Answer::Polled(completion) => Told::Polled(*completion),
        Answer::Put => Told::Put,
    }
}

/// A request for this many sectors, into or from these entries.
fn submit(
    alloc: Global,
    (dev, work, lba, sectors): (u8, Work, u64, u16),
    entries: &[(u32, u32)],
) -> Result<Step, AllocError> {
    let mut prds = Vec::new(alloc);
    for entry in entries.iter() {
        let (address, bytes) = *entry;
        prds.push(Prd { address, bytes })?;
    }
    let request = Request {
        work,
        lba,
        sectors,
        prds,
    };
    Ok(Step::Submit(dev, request))
}

/// A request for one sector, or a Flush.
fn submit_one(
    alloc: Global,
    dev: u8,
    work: Work,
    lba: u64,
    address: u32,
) -> Result<Step, AllocError> {
    if work == Work::Flush {
        return submit(alloc, (dev, work, lba, 0), &[]);
    }
    submit(alloc, (dev, work, lba, 1), &[(address, 512)])
}

/// This many bytes of one value.
fn bytes(alloc: Global, value: u8, count: usize) -> Result<Bytes, AllocError> {
    Ok(Bytes::from_vec(vec![in alloc; value; count]?))
}

/// The step.
fn step_of(alloc: Global, act: Act) -> Result<Step, AllocError> {
    let step = match act {
        Act::Came(n) => Step::Came(n),
        Act::Gone(n) => Step::Gone(n),
        Act::DiskSend(n) => Step::DiskSend(n),
        Act::Inject(n, count) => Step::Inject(n, bytes(alloc, 0, count)?),
        Act::DiskTake(n) => Step::DiskTake(n),
        Act::PmPresence(n) => Step::PmPresence(n),
        Act::PmFromDevice(n) => Step::PmFromDevice(n),
        Act::PmFromHost => Step::PmFromHost,
        Act::PmUp => Step::PmUp,
        Act::PmDown(n) => Step::PmDown(n),
        Act::HostTake => Step::HostTake,
        Act::HostPush => Step::HostPush,
        Act::Tick => Step::Tick,
        Act::Submit(dev, work, lba, address) => submit_one(alloc, dev, work, lba, address)?,
        Act::Poll => Step::Poll,
        Act::Put(at, value, count) => Step::Put(at, bytes(alloc, value, count)?),
    };
    Ok(step)
}

/// One more step.
fn add(alloc: Global, steps: &mut Vec<Step>, act: Act) -> Result<(), AllocError> {
    Ok(steps.push(step_of(alloc, act)?)?)
}

/// Further steps.
pub(super) fn add_all(
    alloc: Global,
    steps: &mut Vec<Step>,
    acts: &[Act],
) -> Result<(), AllocError> {
    for act in acts.iter() {
        add(alloc, steps, *act)?;
    }
    Ok(())
}

/// A world in which a port may have a device of the tests' own.
pub(super) type World = pm_world::World<AnyDevice<Liar>>;

/// A disk of 16 sectors.
fn disk(alloc: Global, plan: DiskPlan) -> Result<AnyDevice<Liar>, AllocError> {
    match Disk::new(alloc, 16, plan) {
        Ok(disk) => Ok(AnyDevice::Unit(Unit::Disk(disk))),
        Err(_) => Err(AllocError),
    }
}

/// This many disks of 16 sectors.
fn disks(alloc: Global, count: u8) -> Result<Vec<AnyDevice<Liar>>, AllocError> {
    let mut units = Vec::new(alloc);
    for _ in 0..count {
        units.push(disk(alloc, DiskPlan::plain())?)?;
    }
    Ok(units)
}

/// A world of this many disks.
pub(super) fn world_of(alloc: Global, config: Config, count: u8) -> Result<World, WorldError> {
    World::new(alloc, config, disks(alloc, count)?)
}

/// This many ports, with links of this capacity.
fn config(ports: u8, capacity: usize) -> Config {
    Config {
        ports,
        capacity,
        memory: MEMORY,
    }
}

/// A world of this many disks, with links of this capacity.
fn world(alloc: Global, ports: u8, capacity: usize) -> Result<World, WorldError> {
    world_of(alloc, config(ports, capacity), ports)
}

/// A disk, and a liar.
fn disk_and_liar(alloc: Global) -> Result<Vec<AnyDevice<Liar>>, AllocError> {
    let mut devices = disks(alloc, 1)?;
    devices.push(AnyDevice::Own(Liar { left: 40 }))?;
    Ok(devices)
}

/// A world of a disk at port 0, and a liar at port 1.
fn world_beside_liar(alloc: Global) -> Result<World, WorldError> {
    World::new(alloc, config(2, 2), disk_and_liar(alloc)?)
}

fn give_once(world: &mut World, alloc: Global, step: &Step) -> Result<Answer, StepError> {
    world.step(alloc, step)
}

/// A step of a world. If memory is refused, it is given again, and answers as if nothing had
/// happened.
fn give(world: &mut World, alloc: Global, step: &Step) -> Result<Answer, StepError> {
    match give_once(world, alloc, step) {
        Err(StepError::OutOfMemory) => give_once(world, alloc, step),
        given => given,
    }
}

/// A run of a world.
fn run(
    world: &mut World,
    alloc: Global,
    steps: &[Step],
) -> Result<Vec<Answer>, (usize, StepError)> {
    world.run(alloc, steps)
}

/// A run of a world. Its answers are appended to these.
fn run_into(
    world: &mut World,
    alloc: Global,
    steps: &[Step],
    answers: &mut Vec<Answer>,
) -> Result<(), (usize, StepError)> {
    world.run_into(alloc, steps, answers)
}

/// The byte of the client area at an address.
fn byte_at(world: &World, at: u32) -> Option<u8> {
    let place = at.checked_sub(CLIENT_START)?;
    world.memory().client().get(place as usize).copied()
}

/// A register of the multiplier, or of one of its ports.
fn register_of(world: &World, port: u8, register: u16) -> Option<u32> {
    world.multiplier().registers().read(port, register).ok()
}

/// A world with the counts of its answers.
#[derive(Drop)]
pub(super) struct Rig {
    alloc: Global,
    world: World,
    ports: u8,
    counts: Counts,
}

impl Model for Rig {
    ghost use Rattle.std.specs.Prelude.{ℕ};

    ghost Value = { ℕ };

    ghost view = { λ _. 0 };
}

impl Rig {
    /// A rig of this many disks, none of which is plugged in.
    pub(super) fn new(alloc: Global, ports: u8, capacity: usize) -> Result<Rig, WorldError> {
        Ok(Rig::of(alloc, ports, world(alloc, ports, capacity)?))
    }

    /// A rig of a disk at port 0, and a liar at port 1.
    pub(super) fn beside_liar(alloc: Global) -> Result<Rig, WorldError> {
        Ok(Rig::of(alloc, 2, world_beside_liar(alloc)?))
    }

    fn of(alloc: Global, ports: u8, world: World) -> Rig {
        Rig {
            alloc,
            world,
            ports,
            counts: Counts::new(alloc),
        }
    }

    /// Whether all disks come, and all steps are done that can be done.
    pub(super) fn come(&mut self) -> bool {
        let mut came = true;
        for n in 0..self.ports {
            came &= self.does(Act::Came(n)) == Told::Came(n, 1);
        }
        came && self.settle()
    }

    /// Does this, and tells what came of it.
    pub(super) fn does(&mut self, act: Act) -> Told {
        let mut made = step_of(self.alloc, act);
        if made.is_err() {
            made = step_of(self.alloc, act);
        }
        match made {
            Ok(step) => self.gives(&step),
            Err(_) => Told::Stopped(StepError::OutOfMemory),
        }
    }

    /// Gives the world a step, and tells what came of it.
    pub(super) fn gives(&mut self, step: &Step) -> Told {
        match give(&mut self.world, self.alloc, step) {
            Ok(answer) => self.notes(&answer),
            Err(e) => Told::Stopped(e),
        }
    }

    /// Gives the world a run of steps.
    pub(super) fn runs(&mut self, steps: &[Step]) -> Result<Vec<Answer>, (usize, StepError)> {
        run(&mut self.world, self.alloc, steps)
    }

    /// Gives the world a run of steps. The answers are appended to these.
    pub(super) fn runs_into(
        &mut self,
        steps: &[Step],
        answers: &mut Vec<Answer>,
    ) -> Result<(), (usize, StepError)> {
        run_into(&mut self.world, self.alloc, steps, answers)
    }

    /// Counts the answer.
    fn notes(&mut self, answer: &Answer) -> Told {
        let told = telling(answer);
        if self.counts.note(answer).is_err() {
            let _ = self.counts.note(answer);
        }
        told
    }

    /// Whether one of these moves something.
    fn moves(&mut self, acts: &[Act]) -> bool {
        let mut moved = false;
        for act in acts.iter() {
            let told = self.does(*act);
            moved |= !matches!(told, Told::Idle | Told::Blocked);
        }
        moved
    }

    /// Whether one of the steps of all actors moves something, each given once.
    fn round(&mut self) -> bool {
        let mut moved = self.moves(&[Act::Tick, Act::HostPush, Act::PmFromHost]);
        for n in 0..self.ports {
            moved |= self.moves(&[
                Act::PmPresence(n),
                Act::PmDown(n),
                Act::DiskTake(n),
                Act::DiskSend(n),
                Act::PmFromDevice(n),
            ]);
        }
        moved | self.moves(&[Act::PmUp, Act::HostTake])
    }

    /// Runs rounds until nothing moves, which must come within 4,000.
    pub(super) fn settle(&mut self) -> bool {
        for _ in 0..4000 {
            if !self.round() {
                return true;
            }
        }
        false
    }

    /// Whether each of these tells what stands beside it, one after another.
    pub(super) fn tells(&mut self, rows: &[(Act, Told)]) -> bool {
        for (act, told) in rows.iter() {
            if self.does(*act) != *told {
                return false;
            }
        }
        true
    }

    pub(super) fn rows(&self) -> &[ConnCount] {
        self.counts.rows()
    }

    /// How many FISes of a connection were sent, and how many of them taken.
    pub(super) fn counted(&self, port: u8, conn: u32) -> Option<(u64, u64)> {
        let row = self
            .rows()
            .iter()
            .find(|row: &&ConnCount| row.port == port && row.conn == conn)?;
        Some((row.sent, row.taken))
    }

    /// A register of the multiplier (port 15) or of one of its ports.
    pub(super) fn register(&self, port: u8, register: u16) -> Option<u32> {
        register_of(&self.world, port, register)
    }

    /// How many frames the multiplier dropped on their way down.
    pub(super) fn dropped(&self) -> u32 {
        self.world.multiplier().dropped()
    }

    pub(super) fn has_unit(&self, n: u8) -> bool {
        self.world.unit(n).is_some()
    }

    /// Whether the bytes from this address on are this sector of a disk, as it opens: each byte is
    /// one more than the one before.
    pub(super) fn holds_sector(&self, at: u32, lba: u8) -> bool {
        let mut holds = true;
        for i in 0..512_u32 {
            let opening = ((u32::from(lba) + i) % 256) as u8;
            holds &= byte_at(&self.world, at.wrapping_add(i)) == Some(opening);
        }
        holds
    }
}
