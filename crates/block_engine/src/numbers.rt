//! The numbers of the requests that are not answered: each was given, and to one alone.

ghost use Rattle.std.specs.Prelude.{◌≡◌, ◌<◌};
ghost use Rattle.block_engine.specs.Numbers.{IsHolder, are_numbered, has_number, holder_at, is_misnumbered, is_number, number_of};

use crate::aside::AsideStage;
use block_scheduler::Scheduler;

/// Who waits for the answer to a request.
#[derive(Clone, Copy, Debug, PartialEq, Eq)]
pub enum Holder {
    /// The command of a place.
    Command(u8),
    /// A store of a place that a reset dropped.
    Store(u8),
    /// The command beside the queue.
    Aside,
    /// A discard that a reset dropped.
    Discard,
}

/// Whether this is the number.
pub(crate) fn is_number(known: Option<u64>, number: u64) -> bool
    ensures { result ≡ is_number known number }
{
    match known {
        None => false,
        Some(known) => known == number,
    }
}

/// All of them in a row.
fn holder_at(index: u8) -> Holder
    requires { index < 68 }
    ensures { result ≡ holder_at index }
{
    if index < 33 {
        Holder::Command(index)
    } else if index < 66 {
        Holder::Store(index - 33)
    } else if index == 66 {
        Holder::Aside
    } else {
        Holder::Discard
    }
}

/// The number that one of them has.
fn number_of(
    scheduler: &Scheduler,
    stage: AsideStage,
    dropped: Option<u64>,
    holder: Holder,
) -> Option<u64>
    requires { IsHolder holder }
    ensures { result ≡ number_of scheduler.now.line stage dropped holder }
{
    match holder {
        Holder::Command(place) => scheduler.number(place),
        Holder::Store(place) => match scheduler.orphan(place) {
            None => None,
            Some(orphan) => Some(orphan.number),
        },
        Holder::Aside => match stage {
            AsideStage::Asked(number) => Some(number),
            _ => None,
        },
        Holder::Discard => dropped,
    }
}

/// Whether another of them has this number.
fn has_number(
    scheduler: &Scheduler,
    stage: AsideStage,
    dropped: Option<u64>,
    index: u8,
    number: u64,
    other: u8,
) -> bool
    requires { other < 68 }
    ensures { result ≡ has_number scheduler.now.line stage dropped index number other }
{
    if other == index {
        return false;
    }
    is_number(
        number_of(scheduler, stage, dropped, holder_at(other)),
        number,
    )
}

/// Whether the number of one of them is that of another, or was not given.
fn is_misnumbered(scheduler: &Scheduler, stage: AsideStage, dropped: Option<u64>, index: u8) -> bool
    requires { index < 68 }
    ensures { result ≡ is_misnumbered scheduler.now.line stage dropped index }
{
    let Some(number) = number_of(scheduler, stage, dropped, holder_at(index)) else {
        return false;
    };
    for other in 0..68_u8 {
        if has_number(scheduler, stage, dropped, index, number, other) {
            return true;
        }
    }
    scheduler.next_number() <= number
}

/// Whether each number was given, and to one of them alone.
pub(crate) fn are_numbered(scheduler: &Scheduler, stage: AsideStage, dropped: Option<u64>) -> bool
    ensures { result ≡ are_numbered scheduler.now.line stage dropped }
{
    for index in 0..68_u8 {
        if is_misnumbered(scheduler, stage, dropped, index) {
            return false;
        }
    }
    true
}
