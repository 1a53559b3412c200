//! How the requests of a plan ended.

ghost use Rattle.std.specs.Prelude.{◌≡◌, false, IfOk, Some};
ghost use Rattle.std.specs.List.{list_any};
ghost use Rattle.host_thread.specs.Runs.{is_open};
ghost use Rattle.pm_threads.specs.Summaries.{AreOutcomes, outcome_of};

use hba_driver::{Outcome, SubmitError};
use host_thread::{Ended, State};
use std::alloc::{AllocError, Global};

/// How a request ended.
fn outcome(state: State) -> Result<Outcome, SubmitError>
    requires { is_open state ≡ false }
    ensures { outcome_of state ≡ Some result }
{
    match state {
        State::Ended(Ended::Polled(outcome)) => Ok(outcome),
        State::Ended(Ended::Refused(refusal)) => Err(refusal),
        State::Waits | State::Submitted(_) => unreachable!(),
    }
}

/// How each request ended.
pub(crate) fn outcomes(
    alloc: Global,
    states: &[State],
) -> Result<Vec<Result<Outcome, SubmitError>>, AllocError>
    requires { list_any is_open states.now ≡ false }
    ensures { IfOk result (λ results. AreOutcomes states.now results.items) }
{
    let mut results = Vec::new(alloc);
    for state in states {
        results.push(outcome(*state))?;
    }
    Ok(results)
}
