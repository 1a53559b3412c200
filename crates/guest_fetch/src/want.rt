//! What is wanted of a guest's memory.

/// Bytes of a guest's memory that are to be supplied.
#[derive(Clone, Copy, Debug, PartialEq, Eq)]
pub struct Want {
    /// The address of the first of them.
    pub at: u64,
    /// How many there are.
    pub len: usize,
}
