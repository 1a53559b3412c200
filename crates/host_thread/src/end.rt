//! What is left of the host's worker.

use crate::worker::HostWorker;
use runner::{Fault, Spent};

/// What the host's thread leaves.
#[derive(Drop)]
pub struct HostEnd<'a> {
    pub worker: HostWorker<'a>,
    /// The fault that ended it, if one did.
    pub fault: Option<Fault>,
    /// The turns were spent, if they were.
    pub spent: Option<Spent>,
}
