//! Runs that do not finish: what is left of them.

use super::runs::reading;
use super::setups::{Door, setup};
use disk_model::{Scripted, Unit};
use hba_driver::Outcome;
use pm_threads::{
    Ended, Links, PartialSummary, RunError, RunFailure, Setup, State, Unfinished, close_unfinished,
    run_threads,
};
use std::alloc::Global;
use std::sync::Wait;
use std::test::Fail;
use std::thread::Threads;

/// A disk at port 0, and at port 1 a script that sends nothing, so a read of device 1 is never taken.
fn stuck(alloc: Global) -> Result<Setup<Unit>, Fail> {
    let mut given = reading(alloc, 2)?;
    let Some(unit) = given.units.get_mut(1) else {
        return Err("no unit at port 1".into());
    };
    *unit = Unit::Scripted(Scripted::new(Vec::new(alloc)));
    given.turns = 1 << 20;
    Ok(given)
}

/// What is left of a run that ended by this error.
fn left_by(failure: RunFailure<'_, Unit>, error: RunError) -> Result<Unfinished<'_, Unit>, Fail> {
    if failure.error != error {
        return Err("another error".into());
    }
    Ok(failure.left.ok_or("nothing is left")?)
}

/// The summary of what is left of a run that ended by this error.
fn partial_by(
    alloc: Global,
    failure: RunFailure<'_, Unit>,
    error: RunError,
) -> Result<PartialSummary<Unit>, Fail> {
    Ok(close_unfinished(alloc, left_by(failure, error)?)?)
}

/// The summary of what is left of a run on these links, whose disks are at this door.
fn partial<R: Threads + Wait + Sync>(
    rt: &R,
    alloc: Global,
    links: &mut Links,
    setup: Setup<Unit>,
    (door, error): (Door, RunError),
) -> Result<PartialSummary<Unit>, Fail> {
    match run_threads(rt, alloc, links, setup, &door) {
        Ok(_) => Err("it finished".into()),
        Err(failure) => partial_by(alloc, failure, error),
    }
}

/// Whether sector 0 of the first device holds what was written.
fn is_written(units: &[Unit]) -> bool {
    match units.first() {
        Some(Unit::Disk(disk)) => disk.sector(0).is_some_and(|bytes| bytes[0] == 0x5A),
        _ => false,
    }
}

/// In the order of the plan: the write of device 0, the read of device 1, and behind a barrier the read of
/// device 0.
fn are_in_order(partial: &PartialSummary<Unit>) -> bool {
    let done = State::Ended(Ended::Polled(Outcome::Done));
    let want = [done, State::Waits, State::Waits];
    partial.states.as_slice() == want.as_slice()
        && partial.plan.len() == 3
        && partial.plan.get(2).is_some_and(|third| third.wait)
}

fn are_fewer(partial: &PartialSummary<Unit>) -> bool {
    partial.counts.iter().all(|row| row.taken <= row.sent)
}

#[test]
fn open_requests_are_told(rt: HostRuntime) -> Result<(), Fail> {
    let setup = stuck(rt.alloc())?;
    let mut links = Links::new(rt.alloc(), 2, 4)?;
    let want = (Door { open: true }, RunError::TurnsSpent);
    let partial = partial(&rt, rt.alloc(), &mut links, setup, want)?;
    assert!(rt; are_in_order(&partial));
    assert!(rt; partial.units.len() == 2 && is_written(&partial.units));
    assert!(rt; are_fewer(&partial));
    Ok(())
}

#[test]
fn a_shut_gate_leaves_all_open(rt: HostRuntime) -> Result<(), Fail> {
    let setup = reading(rt.alloc(), 2)?;
    let mut links = Links::new(rt.alloc(), 2, 4)?;
    let want = (Door { open: false }, RunError::GateShut);
    let partial = partial(&rt, rt.alloc(), &mut links, setup, want)?;
    assert!(rt; partial.states.iter().all(|state| state.is_open()));
    assert!(rt; partial.units.len() == 2 && !is_written(&partial.units));
    // The seats are given, whatever came of it.
    assert!(rt; links.are_given());
    Ok(())
}

/// Whether a run with a unit too few is a bad setup, of which nothing is left.
fn leaves_nothing<R: Threads + Wait + Sync>(
    rt: &R,
    alloc: Global,
    links: &mut Links,
    setup: Setup<Unit>,
) -> bool {
    match run_threads(rt, alloc, links, setup, &Door { open: true }) {
        Ok(_) => false,
        Err(failure) => failure.error == RunError::BadSetup && failure.left.is_none(),
    }
}

#[test]
fn a_bad_setup_leaves_nothing(rt: HostRuntime) -> Result<(), Fail> {
    let setup = setup(rt.alloc(), 1)?;
    let mut links = Links::new(rt.alloc(), 2, 4)?;
    assert!(rt; leaves_nothing(&rt, rt.alloc(), &mut links, setup));
    Ok(())
}
