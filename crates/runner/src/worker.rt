//! What runs in a thread.

ghost use Rattle.std.specs.Prelude.{ℕ};

use crate::post::Post;
use std::sync::Wait;

/// Why a worker ended before its time.
#[derive(Clone, Copy, Debug, PartialEq, Eq)]
pub enum Fault {
    /// The allocator refused memory.
    OutOfMemory,
    /// The gate of the disks did not open.
    GateShut,
}

/// What works in a thread of its own, turn by turn, and what is known of its end. It ends at the
/// latest once its turns are spent or the run is over, as its [`Post`] tells, and then it ends the
/// run.
pub trait Worker: Send + Drop {
    type End: Send + Drop;

    /// What holds for a worker, for the most turns in a row in which nothing moves, and for its end.
    ghost ended: { Self → ℕ → Self.End → Type 0 };

    fn work<R: Wait>(self, rt: &R, post: Post<'_>) -> Self::End
        ensures { ended self post.entry.turns result };
}
