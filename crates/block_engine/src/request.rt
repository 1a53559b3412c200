//! What the caller is asked for, and what it answers.

mod saved;

/// Sectors to discard.
#[derive(Clone, Copy, Debug, PartialEq, Eq)]
pub struct Range {
    /// The first.
    pub lba: u64,
    /// How many.
    pub count: u32,
}

/// What the caller is to do.
#[derive(Clone, Copy, Debug, PartialEq, Eq)]
pub enum What {
    /// Give these sectors: 512 bytes each, in order.
    Load {
        /// The first.
        lba: u64,
        /// How many, at most 2,048.
        count: u32,
    },
    /// Store the bytes of the command of the place (`BlockCommand::bytes`) at these sectors.
    Store {
        /// The first.
        lba: u64,
        /// How many, at most 2,048.
        count: u32,
    },
    /// Make lasting what was stored.
    Flush,
    /// Discard the sectors of `Engine::ranges`.
    Discard,
}

/// A request to the caller, who answers it by its number: at any time, in any order, or never.
#[derive(Clone, Copy, Debug, PartialEq, Eq)]
pub struct Request {
    /// No other request has it.
    pub number: u64,
    /// The place of its command; None for a FLUSH CACHE and a DATA SET MANAGEMENT.
    pub place: Option<u8>,
    /// What the caller is to do.
    pub what: What,
}

/// What went wrong (ACS-3, 6.2 and 6.3).
#[derive(Clone, Copy, Debug, PartialEq, Eq)]
pub enum ErrorKind {
    /// UNC: the sector cannot be read.
    Uncorrectable,
    /// IDNF: there is no such sector.
    NotFound,
    /// ABRT: it cannot be done.
    Aborted,
}

/// Why the caller could not do a request.
#[derive(Clone, Copy, Debug, PartialEq, Eq)]
pub struct Failure {
    /// What went wrong.
    pub error: ErrorKind,
    /// The first sector at which it did.
    pub lba: u64,
}

/// The answer to a request.
#[derive(Drop)]
pub enum Answer {
    /// The sectors of a load.
    Loaded(Vec<u8>),
    /// A store, a flush or a discard was done.
    Done,
    /// It could not be done.
    Failed(Failure),
}
