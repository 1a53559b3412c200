//! Why an answer of the caller is not taken.

use thiserror::Error;

/// Why an answer is not taken. Nothing changes then: a request that is out still waits for its answer.
#[derive(Clone, Copy, Debug, PartialEq, Eq, Error)]
pub enum AnswerError {
    /// No request of this number is out: it was answered, a reset ended it, or it was never asked.
    #[error("no request of this number is out")]
    NotOut,
    /// The request asked for something else: a load is answered by sectors, a store and a flush by done.
    #[error("the request asked for something else")]
    OtherKind,
    /// A load asked for another number of sectors.
    #[error("the load asked for another number of bytes")]
    OtherLength,
    /// A failure names a sector that its request does not have.
    #[error("the request does not have this sector")]
    OtherSector,
}
