//! A plan of requests, and what becomes of them.

ghost use Rattle.std.specs.Prelude.{◌≡◌, ◌<◌, ℕ, true, false, length, slice_index_or, IfNone, IfSome};
ghost use Rattle.host_thread.specs.Runs.{is_for_now, is_open};
ghost use Rattle.host_thread.specs.declared.plan.State.{State};
ghost use Rattle.host_thread.specs.declared.plan.State.TheVariants as state;

use hba_driver::{Outcome, Request, SubmitError, Ticket};

/// A request of a plan.
#[derive(Debug, Drop)]
pub struct Planned {
    /// The device that it is for.
    pub dev: u8,
    /// What is asked.
    pub request: Request,
    /// Whether it waits until all earlier requests have ended.
    pub wait: bool,
}

/// How a request of a plan ended.
#[derive(Clone, Copy, Debug, PartialEq, Eq)]
pub enum Ended {
    /// It was taken, and polled with this outcome.
    Polled(Outcome),
    /// It was refused.
    Refused(SubmitError),
}

/// What became of a request of a plan.
#[derive(Clone, Copy, Debug, PartialEq, Eq)]
pub enum State {
    /// It was not taken yet.
    Waits,
    /// It was taken under this ticket, and was not polled yet.
    Submitted(Ticket),
    /// It has ended.
    Ended(Ended),
}

impl State {
    /// Whether the request has not ended.
    pub fn is_open(&self) -> bool
        ensures { result ≡ is_open self.now }
    {
        match self {
            State::Ended(_) => false,
            _ => true,
        }
    }
}

/// Whether it was taken under this ticket and not polled yet.
fn is_under(became: State, ticket: Ticket) -> bool
    ensures yes { result ≡ true → became ≡ state.Submitted ticket }
    ensures no { result ≡ false → became ≡ state.Submitted ticket → ⊥ }
{
    match became {
        State::Submitted(other) => other.0 == ticket.0,
        _ => false,
    }
}

/// The place of the request that was taken under this ticket. It is looked for at `first` before all others.
pub(crate) fn place_of(states: &[State], first: usize, ticket: Ticket) -> Option<usize>
    ensures there { IfSome result (λ i. i < length states.now) }
    ensures submitted { IfSome result (λ i.
        slice_index_or states.now i state.Waits ≡ state.Submitted ticket) }
    ensures none { IfNone result ((i : ℕ) (s : State) → i < length states.now
        → slice_index_or states.now i s ≡ state.Submitted ticket → ⊥) }
{
    if first < states.len() && is_under(states[first], ticket) {
        return Some(first);
    }
    for i in 0..states.len() {
        if is_under(states[i], ticket) {
            return Some(i);
        }
    }
    None
}

/// Whether a request that was refused in this way is tried again.
pub(crate) fn is_tried_again(refusal: SubmitError) -> bool
    ensures { result ≡ is_for_now refusal }
{
    matches!(
        refusal,
        SubmitError::NoDevice
            | SubmitError::Recovering
            | SubmitError::QueueBusy
            | SubmitError::NoSlot
    )
}
