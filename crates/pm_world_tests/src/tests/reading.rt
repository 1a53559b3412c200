//! Requests that ended well.

use super::rig::Told;
use hba_driver::{Completion, Outcome, Ticket};

/// The first request, in slot 0, ended well.
pub(super) const FIRST_DONE: Told = Told::Polled(Completion {
    ticket: Ticket(1),
    slot: 0,
    outcome: Outcome::Done,
});
