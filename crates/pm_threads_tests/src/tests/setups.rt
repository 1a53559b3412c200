//! Setups, and what becomes of them.

use disk_model::{Device, Disk, DiskPlan, Unit};
use disk_thread::{Gate, GateShut};
use hba_driver::{Request, Work};
use host_memory::Prd;
use host_thread::Planned;
use pm_threads::{CloseError, Links, MAX_TURNS, RunError, Setup, Summary, close, run_threads};
use std::alloc::Global;
use std::sync::Wait;
use std::test::Fail;
use std::thread::Threads;

/// Always open, or always shut.
#[derive(Drop)]
pub struct Door {
    pub open: bool,
}

impl Gate for Door {
    fn enter(&self, _port: u8) -> Result<(), GateShut> {
        if self.open { Ok(()) } else { Err(GateShut) }
    }
}

/// A request for one sector.
pub fn planned(
    alloc: Global,
    dev: u8,
    work: Work,
    address: u32,
    wait: bool,
) -> Result<Planned, Fail> {
    let prds = vec![in alloc; Prd {
        address,
        bytes: 512
    }; 1]?;
    let request = Request {
        work,
        lba: u64::from(dev),
        sectors: 1,
        prds,
    };
    Ok(Planned { dev, request, wait })
}

fn disks(alloc: Global, count: u8) -> Result<Vec<Unit>, Fail> {
    let mut units = Vec::new(alloc);
    for _ in 0..count {
        units.push(Unit::Disk(Disk::new(alloc, 16, DiskPlan::plain())?))?;
    }
    Ok(units)
}

/// These devices and no request.
pub fn setup_of<D>(alloc: Global, units: Vec<D>) -> Setup<D> {
    Setup {
        units,
        memory: 0x20_0000,
        puts: Vec::new(alloc),
        plan: Vec::new(alloc),
        pulls: Vec::new(alloc),
        turns: MAX_TURNS,
    }
}

/// This many disks and no request.
pub fn setup(alloc: Global, count: u8) -> Result<Setup<Unit>, Fail> {
    Ok(setup_of(alloc, disks(alloc, count)?))
}

/// What comes of a run on links of this capacity.
pub fn ran<D: Device + Drop + Send, R: Threads + Wait + Sync, G: Gate + Sync>(
    rt: &R,
    alloc: Global,
    links: &mut Links,
    setup: Setup<D>,
    gate: &G,
) -> Result<Summary<D>, RunError> {
    let finished = run_threads(rt, alloc, links, setup, gate)?;
    close(alloc, finished).map_err(|error| match error {
        CloseError::OutOfMemory => RunError::OutOfMemory,
    })
}

/// What is refused to a run with no request. Such a run ends at once.
fn refusal<R: Threads + Wait + Sync>(
    rt: &R,
    alloc: Global,
    links: &mut Links,
) -> Result<Option<RunError>, Fail> {
    let setup = setup(alloc, 1)?;
    Ok(ran(rt, alloc, links, setup, &Door { open: true }).err())
}

#[test]
fn a_second_run(rt: HostRuntime) -> Result<(), Fail> {
    let mut links = Links::new(rt.alloc(), 1, 4)?;
    let first = refusal(&rt, rt.alloc(), &mut links)?;
    let are_given = links.are_given();
    let again = refusal(&rt, rt.alloc(), &mut links)?;
    assert_eq!(rt;
        (first, are_given, again),
        (None, true, Some(RunError::BadSetup))
    );
    Ok(())
}
