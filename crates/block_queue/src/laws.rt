//! Laws over every run of the queue.

ghost use Rattle.block_queue.specs.Deeds.{DataAreNamed, EndsAreEarned, NumbersAreFresh, RequestsAreApart, SomethingMoves, TakenIsLast};

/// A law; it runs no code. In every run, whatever is taken, sent, received, asked and answered, late and senseless
/// answers included: each request to load or to store is apart from all that were asked and are not answered. They
/// have no sector in common, unless both are loads. A reset ends no store: the caller may still do it. So a load that
/// is asked after a store of its sectors was asked is asked after that store was answered.
pub fn requests_are_apart()
    ensures { RequestsAreApart }
{}

/// A law; it runs no code. In every run each Data FIS, and each FIS that says that a command ended well, was earned
/// by what went on at its place since its command was taken. An answer counts only if it names the last request that
/// was asked at its place, and that was neither answered nor ended by a reset.
pub fn ends_are_earned()
    ensures { EndsAreEarned }
{}

/// A law; it runs no code. In every run each Data FIS of a queued command, in both directions, and each of its DMA
/// Activate FISes is of the command that the last DMA Setup FIS named.
pub fn data_are_named()
    ensures { DataAreNamed }
{}

/// A law; it runs no code. A run shows what one of its requests shows (`block_disk`), and no two of these get one
/// number.
pub fn numbers_are_fresh()
    ensures { NumbersAreFresh }
{}

/// A law; it runs no code. While a command is under way, the disk may start one, send a FIS or ask for a request, or
/// it waits for an answer of the caller or for Data of the host: commands never wait for each other in a circle.
pub fn something_moves()
    ensures { SomethingMoves }
{}

/// A law; it runs no code. A command that is taken stands behind all others, and their order is as it was. So a
/// command waits for none that was taken after it.
pub fn taken_is_last()
    ensures { TakenIsLast }
{}
