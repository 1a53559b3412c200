//! A caller of a scheduler that has its laws for whatever run led to it.
#![tactic(auto)]

ghost use Rattle.std.specs.Prelude.{◌≡◌, ◌<◌, ◌≤◌, ℕ, List, [], ◌∷◌, nat_lt, true, IfOk, None, OnErr};
ghost use Rattle.block_command.specs.Moments.{IsCommand, is_queued};
ghost use Rattle.block_scheduler.specs.Laws.{Takes};
ghost use Rattle.uses_block_scheduler.specs.Reached.{Extends, HasLaws, IsDriven, starts_of};

use block_command::Command;
use block_scheduler::{
    Scheduler, ends_are_earned, numbers_are_fresh, requests_are_apart, something_moves,
};
use std::alloc::{AllocError, Global};

/// Takes a command: whatever run led here is longer by that.
pub fn take_one(alloc: Global, disk: &mut Scheduler, command: Command)
    requires fault { disk.old.fault ≡ None }
    requires place { command.place < 33 }
    requires is { IsCommand command }
    requires queued { is_queued command.protocol ≡ nat_lt command.place 32 }
    ensures { Extends disk.old disk.new (Takes command ∷ []) }
{
    disk.take(alloc, command);
}

/// Starts what starts next: whatever run led here is longer by that.
pub fn start_next(disk: &mut Scheduler) -> Result<Option<u8>, AllocError>
    ensures ok { IfOk result (λ place. Extends disk.old disk.new (starts_of place)) }
    ensures err { OnErr result (disk.new ≡ disk.old) }
{
    let Some(place) = disk.next_start() else {
        return Ok(None);
    };
    disk.start(place)?;
    Ok(Some(place))
}

/// The laws of the run that led here.
pub fn laws(disk: &Scheduler)
    ensures { HasLaws disk.now }
{
    let _fault = disk.fault();
    requests_are_apart();
    ends_are_earned();
    numbers_are_fresh();
}

/// Whether nothing starts next. Then something else moves, if a command is under way and the limit is 1 MiB or more.
pub fn is_idle(disk: &Scheduler) -> bool
    ensures { IsDriven disk.now result }
{
    something_moves();
    disk.next_start().is_none()
}
