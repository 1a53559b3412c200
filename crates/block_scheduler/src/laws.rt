//! Laws over every run of a scheduler.

ghost use Rattle.block_scheduler.specs.Laws.{DataAreNamed, EndsAreEarned, NumbersAreFresh, RequestsAreApart, SomethingMoves};

/// A law; it runs no code. In every run, whatever is taken, sent, received, asked and answered: each request to load
/// or to store is apart from all that were asked and are not answered. They have no sector in common, unless both are
/// loads. A reset or an error ends no store: the caller may still do it.
pub fn requests_are_apart()
    ensures { RequestsAreApart }
{}

/// A law; it runs no code. In every run each Data FIS, and each FIS that says that a command ended well, was earned
/// by what went on at its place since its command was taken.
pub fn ends_are_earned()
    ensures { EndsAreEarned }
{}

/// A law; it runs no code. In every run each Data FIS of a queued command, in both directions, and each of its DMA
/// Activate FISes is of the command that the last DMA Setup FIS named.
pub fn data_are_named()
    ensures { DataAreNamed }
{}

/// A law; it runs no code. In every run no two requests get one number, those of the crate above among them.
pub fn numbers_are_fresh()
    ensures { NumbersAreFresh }
{}

/// A law; it runs no code. With a limit of 1 MiB or more: while a command is under way and none starts next, a FIS may
/// be sent, a request is to be asked, or the caller or the host owes something. So commands that wait for room never
/// wait for each other in a circle.
pub fn something_moves()
    ensures { SomethingMoves }
{}
