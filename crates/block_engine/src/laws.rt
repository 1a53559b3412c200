//! Laws over every run of an engine.

ghost use Rattle.block_engine.specs.Laws.{DataAreNamed, DiscardsAreAlone, EndsAreEarned, FailuresAreOwn, NumbersAreFresh, RequestsAreApart, SomethingMoves};

/// A law; it runs no code. In every run, whatever is taken, sent, received, asked and answered: each request to load
/// or to store is apart from all that were asked and are not answered. They have no sector in common, unless both are
/// loads. A reset or an error ends no store: the caller may still do it.
pub fn requests_are_apart()
    ensures { RequestsAreApart }
{}

/// A law; it runs no code. In every run each Data FIS, and each FIS that says that a command of the queue ended well,
/// was earned by what went on at its place since its command was taken.
pub fn ends_are_earned()
    ensures { EndsAreEarned }
{}

/// A law; it runs no code. In every run each Data FIS of a queued command, in both directions, and each of its DMA
/// Activate FISes is of the command that the last DMA Setup FIS named.
pub fn data_are_named()
    ensures { DataAreNamed }
{}

/// A law; it runs no code. In every run no two requests get one number, flushes and discards beside the queue among
/// them.
pub fn numbers_are_fresh()
    ensures { NumbersAreFresh }
{}

/// A law; it runs no code. With a limit of 1 MiB or more: while a command is under way and none starts next, the caller
/// owes the answer to a discard, or a FIS may be sent, a request is to be asked, or the caller or the host owes
/// something.
pub fn something_moves()
    ensures { SomethingMoves }
{}

/// A law; it runs no code. In every run, while a discard is out, also one that a reset dropped, no command of the queue
/// has started and no dropped store is out. So no load or store passes a discard.
pub fn discards_are_alone()
    ensures { DiscardsAreAlone }
{}

/// A law; it runs no code. In every run, what [`Engine::failure`](crate::Engine::failure) says of a place is what the caller answered
/// last to a request of the command that was taken last there, if that was a failure: nothing of an earlier command, and nothing of a
/// store or a discard that a reset dropped.
pub fn failures_are_own()
    ensures { FailuresAreOwn }
{}
