//! A round of a world.

ghost use Rattle.std.specs.Prelude.{◌≡◌, true, IfErr, IfOk, Ok};
ghost use Rattle.std.specs.List.{list_all};
ghost use Rattle.world_rests.specs.Laws.{HasStopped, HasTold, RestsAfter};
ghost use Rattle.world_rests.specs.Rests.{is_still as does_nothing};

use crate::laws::{rested_have_done, still_rounds_rest};
use pm_world::{Answer, PortDevice, Step, StepError, World};
use std::alloc::Global;

/// Whether the step did nothing.
pub fn is_still(answer: &Answer) -> bool
    ensures { result ≡ does_nothing answer.now }
{
    matches!(answer, Answer::Idle | Answer::Blocked)
}

fn all_still(answers: &[Answer]) -> bool
    ensures { result ≡ list_all does_nothing answers.now }
{
    answers.iter().all(|answer| is_still(answer))
}

/// Takes the steps, and says whether none of them did anything. If each step of a round is among them, and the world came from a new
/// one with FIS-based switching, then it is at rest: nothing moves, and the host waits.
pub fn rests<D: PortDevice + Drop>(
    world: &mut World<D>,
    alloc: Global,
    steps: &[Step],
) -> Result<bool, (usize, StepError)>
    ensures told { IfOk result (λ still. HasTold world.old steps.now still world.new) }
    ensures stops { IfErr result (λ e. HasStopped world.old steps.now e.0 e.1 world.new) }
    ensures rests { result ≡ Ok true → RestsAfter world.old steps.now world.new }
{
    still_rounds_rest();
    rested_have_done();
    let answers = world.run(alloc, steps)?;
    let still = all_still(&answers);
    Ok(still)
}
