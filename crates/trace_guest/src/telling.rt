//! How much a run tells.

/// What is written of a run beside what its lines print.
#[derive(Clone, Copy, Debug, PartialEq, Eq)]
pub enum Telling {
    /// Nothing.
    Nothing,
    /// A line of text for each thing that happens.
    Text,
    /// An object of JSON for each, a line; what lines print is JSON, too.
    Json,
}

impl Telling {
    /// Whether anything is told.
    pub(crate) fn is_on(self) -> bool {
        self != Telling::Nothing
    }

    /// Whether all output is JSON.
    pub(crate) fn is_json(self) -> bool {
        self == Telling::Json
    }
}
