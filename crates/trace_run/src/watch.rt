//! What is written of the steps of a run, and which of them end it.

/// What is written of the steps of a run, and which of them end it.
#[derive(Clone, Copy)]
pub struct Watch {
    /// Whether anything is.
    pub is_on: bool,
    /// The port whose steps are, 15 for the control port; None where those of all are.
    pub port: Option<u8>,
    /// Whether only faults, drops and removals are.
    pub is_faults: bool,
    /// The number of the first step that is.
    pub from: u64,
    /// Whether all output is JSON, an object a line.
    pub is_json: bool,
    /// Whether each object has the bytes of its FIS.
    pub has_bytes: bool,
    /// Whether a step or a request that is refused ends the run.
    pub is_strict: bool,
}
