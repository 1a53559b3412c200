//! Runs of disks: their requests end, and bytes come back.

use super::setups::{planned, ran, setup};
use disk_model::Unit;
use disk_thread::{Gate, GateShut};
use hba_driver::{Outcome, Work};
use host_thread::Planned;
use pm_threads::{Links, Setup, Summary};
use std::alloc::Global;
use std::sync::Wait;
use std::sync::atomic::{AtomicU64, Ordering};
use std::test::Fail;
use std::thread;
use std::thread::Threads;

/// Where the write of device 0 has its bytes, and where they come back.
const FROM: u32 = 0x10_2000;

const BACK: u32 = 0x10_4000;

/// One more request for one sector.
fn add(plan: &mut Vec<Planned>, one: Result<Planned, Fail>) -> Result<(), Fail> {
    plan.push(one?)?;
    Ok(())
}

/// The requests of this many devices.
fn requests(alloc: Global, count: u8) -> Result<Vec<Planned>, Fail> {
    let mut plan = Vec::new(alloc);
    add(&mut plan, planned(alloc, 0, Work::Write, FROM, false))?;
    for dev in 1..count {
        let place = 0x10_6000 + 0x1000 * u32::from(dev);
        add(&mut plan, planned(alloc, dev, Work::Read, place, false))?;
    }
    add(&mut plan, planned(alloc, 0, Work::Read, BACK, true))?;
    Ok(plan)
}

/// The bytes of a sector at their place.
fn puts(alloc: Global) -> Result<Vec<(u32, Vec<u8>)>, Fail> {
    let mut puts = Vec::new(alloc);
    puts.push((FROM, vec![in alloc; 0x5A; 512]?))?;
    Ok(puts)
}

/// Of this many devices, device 0 writes a sector and then reads it back. Each other device reads one.
pub fn reading_of<D: Drop>(alloc: Global, given: Setup<D>, count: u8) -> Result<Setup<D>, Fail> {
    let plan = requests(alloc, count)?;
    let puts = puts(alloc)?;
    Ok(Setup {
        puts,
        plan,
        ..given
    })
}

/// The same of this many disks.
pub fn reading(alloc: Global, count: u8) -> Result<Setup<Unit>, Fail> {
    let given = setup(alloc, count)?;
    reading_of(alloc, given, count)
}

/// Whether all are done, and the bytes have come back.
pub fn is_done<D>(summary: &Summary<D>) -> bool {
    let at = (BACK - 0x10_0000) as usize;
    summary
        .results
        .iter()
        .all(|ended| *ended == Ok(Outcome::Done))
        && summary.memory.client()[at..at + 512]
            .iter()
            .all(|byte| *byte == 0x5A)
}

/// Holds each disk at its second FIS until all are at theirs.
#[derive(Drop)]
struct AllEnter {
    counts: Vec<AtomicU64>,
    there: AtomicU64,
}

impl AllEnter {
    fn new(alloc: Global, count: u8) -> Result<AllEnter, Fail> {
        let mut counts = Vec::new(alloc);
        for _ in 0..count {
            counts.push(AtomicU64::new(0))?;
        }
        Ok(AllEnter {
            counts,
            there: AtomicU64::new(0),
        })
    }
}

impl Gate for AllEnter {
    fn enter(&self, port: u8) -> Result<(), GateShut> {
        let Some(count) = self.counts.get(usize::from(port)) else {
            return Err(GateShut);
        };
        if count.fetch_add(1, Ordering::SeqCst) != 1 {
            return Ok(());
        }
        self.there.fetch_add(1, Ordering::SeqCst);
        for _ in 0..100_000_000u64 {
            if self.there.load(Ordering::SeqCst) >= self.counts.len() as u64 {
                return Ok(());
            }
            thread::yield_now();
        }
        Err(GateShut)
    }
}

/// Whether all is done on these links, once all disks are there.
fn enter<R: Threads + Wait + Sync>(
    rt: &R,
    alloc: Global,
    links: &mut Links,
    (count, setup): (u8, Setup<Unit>),
) -> Result<bool, Fail> {
    let gate = AllEnter::new(alloc, count)?;
    let summary = ran(rt, alloc, links, setup, &gate)?;
    Ok(is_done(&summary))
}

/// The same on new links.
fn all_enter<R: Threads + Wait + Sync>(rt: &R, alloc: Global, count: u8) -> Result<bool, Fail> {
    let setup = reading(alloc, count)?;
    let mut links = Links::new(alloc, count, 4)?;
    enter(rt, alloc, &mut links, (count, setup))
}

#[test]
fn all_disks_enter(rt: HostRuntime) -> Result<(), Fail> {
    for count in [2, 15] {
        assert!(rt; all_enter(&rt, rt.alloc(), count)?, "at {count}");
    }
    Ok(())
}
