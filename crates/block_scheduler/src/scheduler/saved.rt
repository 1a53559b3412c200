//! The scheduler as words, and back.

ghost use Rattle.std.specs.Prelude.{◌≡◌, nat_le};
ghost use Rattle.block_scheduler.specs.Sets.{AreSets};
ghost use Rattle.block_scheduler.specs.Schedule.{held};
ghost use Rattle.block_scheduler.specs.Saved.{KeepsSchedule, put_schedule, schedule_apart};

use super::{Scheduler, held_in, turn_of};
use crate::sets::Sets;
use block_queue::CommandQueue;
use saved_state::{RestoreError, Saved, Words};
use std::alloc::{AllocError, Global};

type Parts = (CommandQueue, u32, Option<u8>);

/// Whether what a queue holds is within the limit.
fn is_within(queue: &CommandQueue, limit: u32) -> bool
    ensures { result ≡ nat_le (held queue.now) limit }
{
    held_in(queue) <= limit as u64
}

/// The sets of the commands of a queue.
fn sets_of(queue: &CommandQueue) -> Sets
    ensures { AreSets queue.now result }
{
    let mut sets = Sets::new();
    for place in 0..33_u8 {
        let turn = turn_of(queue, place);
        sets = sets.noted(place, turn);
    }
    sets
}

impl Saved for Scheduler {
    ghost put = { put_schedule };

    ghost keeps = { KeepsSchedule };

    ghost told_apart = { schedule_apart };

    fn save(&self, words: &mut Words) -> Result<(), AllocError> {
        self.fault.save(words)?;
        self.limit.save(words)?;
        self.queue.save(words)
    }

    fn restore(alloc: Global, words: &mut Words) -> Result<Scheduler, RestoreError> {
        let (queue, limit, fault) = match <Parts>::restore(alloc, words) {
            Ok(parts) => parts,
            Err(error) => return Err(error),
        };
        if !is_within(&queue, limit) {
            return Err(RestoreError::Broken);
        }
        let sets = sets_of(&queue);
        Ok(Scheduler {
            queue,
            limit,
            fault,
            sets,
        })
    }
}
