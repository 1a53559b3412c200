//! Refused memory. Under `rt try --test --fail-alloc N` one allocation of these tests is refused. A
//! refused step that is given again answers as if nothing had happened. A run that a refusal stops
//! leaves the world of the steps before it. `bench/refused-steps` refuses each allocation of such
//! steps in turn.

use super::reading::FIRST_DONE;
use super::rig::{Act, Rig, Told, add_all, telling};
use super::steps::all_held;
use hba_driver::Work;
use pm_world::{Answer, Step, StepError};
use std::alloc::{AllocError, Global};
use std::marker::Model;
use std::test::Fail;

/// Where the sector that is read goes.
const PLACE: u32 = 0x10_3000;

/// The steps of all actors of a world of one port.
const ROUND: [Act; 10] = [
    Act::Tick,
    Act::HostPush,
    Act::PmFromHost,
    Act::PmPresence(0),
    Act::PmDown(0),
    Act::DiskTake(0),
    Act::DiskSend(0),
    Act::PmFromDevice(0),
    Act::PmUp,
    Act::HostTake,
];

/// This many rounds.
fn rounds(alloc: Global, steps: &mut Vec<Step>, count: u8) -> Result<(), AllocError> {
    for _ in 0..count {
        add_all(alloc, steps, &ROUND)?;
    }
    Ok(())
}

/// A disk comes, and sector 5 of it is read.
fn whole(alloc: Global) -> Result<Vec<Step>, AllocError> {
    let mut steps = Vec::new(alloc);
    add_all(alloc, &mut steps, &[Act::Came(0)])?;
    rounds(alloc, &mut steps, 40)?;
    let read = Act::Submit(0, Work::Read, 5, PLACE);
    add_all(alloc, &mut steps, &[read])?;
    rounds(alloc, &mut steps, 10)?;
    add_all(alloc, &mut steps, &[Act::Poll])?;
    Ok(steps)
}

/// What the steps tell, one after another.
fn tell_all(rig: &mut Rig, alloc: Global, steps: &[Step]) -> Result<Vec<Told>, AllocError> {
    let mut all = Vec::with_capacity(alloc, steps.len())?;
    for step in steps.iter() {
        all.push(rig.gives(step))?;
    }
    Ok(all)
}

/// The answers tell this, and no more.
fn tell(answers: &[Answer], all: &[Told]) -> bool {
    let mut same = answers.len() == all.len();
    for (answer, wanted) in answers.iter().zip(all.iter()) {
        same &= telling(answer) == *wanted;
    }
    same
}

/// From step i on the steps tell the end of what they all tell.
fn runs_on(rig: &mut Rig, (steps, all, i): (&[Step], &[Told], usize)) -> bool {
    match (steps.get(i..), all.get(i..)) {
        (Some(steps), Some(all)) => match rig.runs(steps) {
            Ok(answers) => tell(&answers, all),
            Err(_) => false,
        },
        _ => false,
    }
}

/// A step that is refused memory stops the run. From this step on, the run goes on as if nothing had
/// happened.
fn runs(rig: &mut Rig, steps: &[Step], all: &[Told]) -> bool {
    match rig.runs(steps) {
        Ok(answers) => tell(&answers, all),
        Err((i, StepError::OutOfMemory)) => runs_on(rig, (steps, all, i)),
        Err(_) => false,
    }
}

/// The steps from number i on. Their answers are appended to those of the steps before.
fn goes_on(rig: &mut Rig, steps: &[Step], i: usize, answers: &mut Vec<Answer>) -> bool {
    match steps.get(i..) {
        Some(rest) => answers.len() == i && rig.runs_into(rest, answers).is_ok(),
        None => false,
    }
}

/// If memory is refused to a step, the answers of the steps before it are there. The rest is given
/// again, and its answers are appended: together they tell what all steps tell.
fn runs_into(rig: &mut Rig, steps: &[Step], all: &[Told], answers: &mut Vec<Answer>) -> bool {
    let ended = match rig.runs_into(steps, answers) {
        Ok(()) => true,
        Err((i, StepError::OutOfMemory)) => goes_on(rig, steps, i, answers),
        Err(_) => false,
    };
    ended && tell(answers, all)
}

/// The read ends last, and seven FISes of the disk were sent.
fn ends_well(all: &[Told]) -> bool {
    let sent = all.iter().filter(|one| matches!(one, Told::Sent(..)));
    sent.count() == 7 && all.last() == Some(&FIRST_DONE)
}

/// A world to which steps were given one by one, and what they told.
#[derive(Drop)]
struct Played {
    steps: Vec<Step>,
    all: Vec<Told>,
    rig: Rig,
}

impl Model for Played {
    ghost use Rattle.std.specs.Prelude.{ℕ};

    ghost Value = { ℕ };

    ghost view = { λ _. 0 };
}

impl Played {
    /// A world of one disk, with all steps done.
    fn new(alloc: Global) -> Result<Played, Fail> {
        let steps = whole(alloc)?;
        let mut rig = Rig::new(alloc, 1, 2)?;
        let all = tell_all(&mut rig, alloc, &steps)?;
        Ok(Played { steps, all, rig })
    }

    /// Whether the sector was read.
    fn ends_well(&self) -> bool {
        ends_well(&self.all) && self.rig.holds_sector(PLACE, 5)
    }

    /// Whether a run of the steps in another world tells the same, and reads the sector.
    fn runs(&self, alloc: Global) -> Result<bool, Fail> {
        let mut rig = Rig::new(alloc, 1, 2)?;
        Ok(runs(&mut rig, &self.steps, &self.all) && rig.holds_sector(PLACE, 5))
    }

    /// The same, with answers that are appended.
    fn runs_into(&self, alloc: Global) -> Result<bool, Fail> {
        let mut rig = Rig::new(alloc, 1, 2)?;
        let mut answers = Vec::new(alloc);
        let is_same = runs_into(&mut rig, &self.steps, &self.all, &mut answers);
        Ok(is_same && rig.holds_sector(PLACE, 5))
    }
}

/// Steps in a world of one disk tell the same as a run of them in another.
#[test]
fn refused_memory_changes_nothing(rt: HostRuntime) -> Result<(), Fail> {
    let played = Played::new(rt.alloc())?;
    let is_same = played.runs(rt.alloc())?;
    all_held(&rt, &[played.ends_well(), is_same]);
    Ok(())
}

/// What was answered before memory was refused is not lost.
#[test]
fn answers_before_a_refusal_are_kept(rt: HostRuntime) -> Result<(), Fail> {
    let played = Played::new(rt.alloc())?;
    let is_same = played.runs_into(rt.alloc())?;
    all_held(&rt, &[played.ends_well(), is_same]);
    Ok(())
}
