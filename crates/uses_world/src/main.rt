//! A world of one disk. It is plugged in, the driver finds it, and a request reads a sector and is
//! polled. A round has one step of each actor. Rounds are run until one moves nothing. Each FIS that
//! the host takes is printed, with the slots that it ends.
#![tactic(auto)]

use disk_model::{Disk, DiskPlan, Unit};
use hba_driver::{Request, Work};
use host_memory::Prd;
use pm_world::{Answer, Config, Step, World};
use std::alloc::{AllocError, Global};
use std::io;

/// One step of each actor of a world with one port.
const ROUND: [Step; 10] = [
    Step::PmPresence(0),
    Step::DiskTake(0),
    Step::DiskSend(0),
    Step::PmFromDevice(0),
    Step::PmDown(0),
    Step::PmFromHost,
    Step::PmUp,
    Step::HostTake,
    Step::Tick,
    Step::HostPush,
];

/// A world of one disk of 16 sectors, whose links have room for two frames.
fn opening(alloc: Global) -> Result<World, AllocError> {
    let Ok(disk) = Disk::new(alloc, 16, DiskPlan::plain()) else {
        return Err(AllocError);
    };
    let mut units = Vec::new(alloc);
    units.push(Unit::Disk(disk))?;
    let config = Config {
        ports: 1,
        capacity: 2,
        memory: 0x20_0000,
    };
    match World::new(alloc, config, units) {
        Ok(world) => Ok(world),
        Err(_) => Err(AllocError),
    }
}

/// A read of sector 8 into the 512 bytes from 101000h on.
fn read(alloc: Global) -> Result<Step, AllocError> {
    let mut prds = Vec::new(alloc);
    prds.push(Prd {
        address: 0x10_1000,
        bytes: 512,
    })?;
    let request = Request {
        work: Work::Read,
        lba: 8,
        sectors: 1,
        prds,
    };
    Ok(Step::Submit(0, request))
}

/// Prints what the answer tells of the host. Returns whether something moved.
fn show(rt: &HostRuntime, answer: &Answer) -> io::Result<bool> {
    match answer {
        Answer::Idle | Answer::Blocked => return Ok(false),
        Answer::Took {
            port,
            number,
            bytes,
            report,
            ..
        } => {
            let bytes = bytes.as_slice();
            let done = report.done;
            let text = hex::encode(rt.alloc(), bytes.get(..8).unwrap_or(bytes))?;
            println!(rt; "port {port} number {number}: {text} ends {done:08x}")?;
        }
        Answer::Submitted(ticket) => println!(rt; "{ticket:?}")?,
        Answer::Polled(completion) => println!(rt; "{completion:?}")?,
        _ => {}
    }
    Ok(true)
}

/// Runs the steps, and prints what they told. Returns whether something moved.
fn play(rt: &HostRuntime, world: &mut World, steps: &[Step]) -> io::Result<bool> {
    let mut is_moved = false;
    match world.run(rt.alloc(), steps) {
        Ok(answers) => {
            for answer in answers.iter() {
                is_moved |= show(rt, answer)?;
            }
        }
        Err((i, error)) => println!(rt; "step {i}: {error:?}")?,
    }
    Ok(is_moved)
}

/// Runs rounds until one moves nothing, at most a thousand.
fn settle(rt: &HostRuntime, world: &mut World) -> io::Result<()> {
    for _ in 0..1000 {
        if !play(rt, world, &ROUND)? {
            return Ok(());
        }
    }
    Ok(())
}

/// Prints the first bytes that the read brought.
fn show_client(rt: &HostRuntime, world: &World) -> io::Result<()> {
    let first = world.memory().client().get(0x1000..0x1004).unwrap_or(&[]);
    let text = hex::encode(rt.alloc(), first)?;
    println!(rt; "client {text}")
}

/// Plugs the disk in, has a sector read, and prints what is told on the way.
fn show_read(rt: &HostRuntime, world: &mut World) -> io::Result<()> {
    play(rt, world, &[Step::Came(0)])?;
    settle(rt, world)?;
    let request = [read(rt.alloc())?];
    play(rt, world, &request)?;
    settle(rt, world)?;
    play(rt, world, &[Step::Poll])?;
    show_client(rt, world)
}

// A world is large: no function but this has one among its locals.
fn main(rt: HostRuntime) -> io::Result<()> {
    let mut world = opening(rt.alloc())?;
    show_read(&rt, &mut world)
}
