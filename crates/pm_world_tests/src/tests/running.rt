//! Runs of steps.

use super::rig::{Act, Rig, Told, add_all, telling};
use super::steps::all_held;
use pm_world::{Answer, Step, StepError};
use std::alloc::{AllocError, Global};
use std::test::Fail;

/// The signature of an ATA device.
const SIGNATURE: [u8; 20] = [
    0x34, 0, 0x50, 1, 1, 0, 0, 0, 0, 0, 0, 0, 1, 0, 0, 0, 0, 0, 0, 0,
];

/// The steps.
fn steps(alloc: Global, acts: &[Act]) -> Result<Vec<Step>, AllocError> {
    let mut steps = Vec::new(alloc);
    add_all(alloc, &mut steps, acts)?;
    Ok(steps)
}

/// The bytes that are sent in this answer are the signature.
fn sends_signature(answer: &Answer) -> bool {
    match answer {
        Answer::Sent { bytes, .. } => bytes.as_slice() == SIGNATURE.as_slice(),
        _ => false,
    }
}

/// A disk came and sent its signature.
fn are_two(answers: &[Answer]) -> bool {
    match answers {
        [came, sent] => {
            telling(came) == Told::Came(0, 1)
                && telling(sent) == Told::Sent(0, 1, 0)
                && sends_signature(sent)
        }
        _ => false,
    }
}

/// Whether this is what a run of the steps answers.
fn comes_and_sends(rig: &mut Rig, steps: &[Step]) -> bool {
    match rig.runs(steps) {
        Ok(answers) => are_two(&answers),
        Err(_) => false,
    }
}

#[test]
fn a_disk_comes_and_sends(rt: HostRuntime) -> Result<(), Fail> {
    let steps = steps(rt.alloc(), &[Act::Came(0), Act::DiskSend(0)])?;
    let mut rig = Rig::new(rt.alloc(), 1, 64)?;
    all_held(&rt, &[comes_and_sends(&mut rig, &steps)]);
    Ok(())
}

/// Whether a run of the steps stops at this one, since a device is there already.
fn stops_at(rig: &mut Rig, steps: &[Step], i: usize) -> bool {
    match rig.runs(steps) {
        Ok(_) => false,
        Err((at, e)) => at == i && e == StepError::AlreadyThere,
    }
}

/// A refused step ends the run, and what was done before stays.
#[test]
fn a_disk_comes_once(rt: HostRuntime) -> Result<(), Fail> {
    let acts = [Act::Came(0), Act::DiskSend(0), Act::Came(0)];
    let steps = steps(rt.alloc(), &acts)?;
    let mut rig = Rig::new(rt.alloc(), 1, 1)?;
    let held = [
        stops_at(&mut rig, &steps, 2),
        stops_at(&mut rig, &steps, 0),
        rig.does(Act::PmFromDevice(0)) == Told::Offered(0, false),
    ];
    all_held(&rt, &held);
    Ok(())
}

/// Whether a run of the steps stops at this one, since a device is there already.
fn stops_into(rig: &mut Rig, steps: &[Step], answers: &mut Vec<Answer>, i: usize) -> bool {
    match rig.runs_into(steps, answers) {
        Ok(()) => false,
        Err((at, e)) => at == i && e == StepError::AlreadyThere,
    }
}

/// Whether these are the answers so far, and one more step adds its own.
fn goes_on(rig: &mut Rig, step: &[Step], answers: &mut Vec<Answer>) -> bool {
    let before = are_two(answers);
    let more = rig.runs_into(step, answers).is_ok();
    let last = answers.last().map(telling);
    before && more && answers.len() == 3 && last == Some(Told::Offered(0, false))
}

/// The answers before a refused step are there, and those of a further run go behind them.
#[test]
fn answers_stay(rt: HostRuntime) -> Result<(), Fail> {
    let alloc = rt.alloc();
    let refused = steps(alloc, &[Act::Came(0), Act::DiskSend(0), Act::Came(0)])?;
    let further = steps(alloc, &[Act::PmFromDevice(0)])?;
    let mut rig = Rig::new(alloc, 1, 1)?;
    let mut answers = Vec::new(alloc);
    let held = [
        stops_into(&mut rig, &refused, &mut answers, 2),
        stops_into(&mut rig, &refused, &mut answers, 0),
        goes_on(&mut rig, &further, &mut answers),
    ];
    all_held(&rt, &held);
    Ok(())
}

/// A run of no steps has no answers.
fn answers_nothing(rig: &mut Rig) -> bool {
    match rig.runs(&[]) {
        Ok(answers) => answers.is_empty(),
        Err(_) => false,
    }
}

/// No steps have no answers. There are as many units as ports.
#[test]
fn no_steps(rt: HostRuntime) -> Result<(), Fail> {
    let mut rig = Rig::new(rt.alloc(), 1, 1)?;
    all_held(
        &rt,
        &[answers_nothing(&mut rig), rig.has_unit(0), !rig.has_unit(1)],
    );
    Ok(())
}

/// Whether a run answers each of the steps.
fn answers_all(rig: &mut Rig, steps: &[Step]) -> bool {
    match rig.runs(steps) {
        Ok(answers) => answers.len() == steps.len(),
        Err(_) => false,
    }
}

/// A run may have more than a thousand steps.
#[test]
fn a_long_run(rt: HostRuntime) -> Result<(), Fail> {
    let alloc = rt.alloc();
    let mut steps = Vec::new(alloc);
    for _ in 0..1001 {
        add_all(alloc, &mut steps, &[Act::Tick])?;
    }
    let mut rig = Rig::new(alloc, 1, 1)?;
    all_held(&rt, &[answers_all(&mut rig, &steps)]);
    Ok(())
}
