//! What is left of the multiplier's worker.

use crate::worker::PmWorker;
use runner::{Fault, Spent};

/// What the multiplier's thread leaves.
#[derive(Drop)]
pub struct PmEnd<'a> {
    pub worker: PmWorker<'a>,
    /// The fault that ended it, if one did.
    pub fault: Option<Fault>,
    /// The turns were spent, if they were.
    pub spent: Option<Spent>,
}
