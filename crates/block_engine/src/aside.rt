//! FLUSH CACHE (EXT) and DATA SET MANAGEMENT: commands that move no sectors of the queue.

ghost use Rattle.std.specs.Prelude.{◌≡◌};
ghost use Rattle.block_engine.specs.Aside.{AsidesAreEarned, asks_for, is_over, is_waiting, settled};

mod saved;

/// What a command beside the queue asks for.
#[derive(Clone, Copy, Debug, PartialEq, Eq)]
pub enum AsideKind {
    /// A flush: FLUSH CACHE and FLUSH CACHE EXT (ACS-3, 7.10), and what turns the write cache off.
    Flush,
    /// A discard: DATA SET MANAGEMENT with TRIM.
    Discard,
}

/// How far a command beside the queue has come.
#[derive(Clone, Copy, Debug, PartialEq, Eq)]
pub enum AsideStage {
    /// None is under way.
    Idle,
    /// It is to ask.
    Waiting,
    /// It asked; the request has this number.
    Asked(u64),
    /// Its end is next.
    Done,
    /// Its error is next.
    Failed,
}

/// Whether it is to ask.
pub(crate) fn is_waiting(stage: AsideStage) -> bool
    ensures { result ≡ is_waiting stage }
{
    matches!(stage, AsideStage::Waiting)
}

/// Whether its end or its error is next.
pub(crate) fn is_over(stage: AsideStage) -> bool
    ensures { result ≡ is_over stage }
{
    matches!(stage, AsideStage::Done | AsideStage::Failed)
}

/// Whether its request has this number, and is not answered.
pub(crate) fn asks_for(stage: AsideStage, number: u64) -> bool
    ensures { result ≡ asks_for stage number }
{
    match stage {
        AsideStage::Asked(asked) => asked == number,
        _ => false,
    }
}

/// Where it is once its request was answered, well or not.
pub(crate) fn settled(well: bool) -> AsideStage
    ensures { result ≡ settled well }
{
    if well {
        AsideStage::Done
    } else {
        AsideStage::Failed
    }
}

/// A law; it runs no code. In every run, whatever is answered and when, the end of a command beside the queue goes
/// only after the caller answered, well, what was asked for since it was taken.
pub fn asides_are_earned()
    ensures { AsidesAreEarned }
{}
