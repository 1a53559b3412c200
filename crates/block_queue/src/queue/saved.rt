//! The queue as words, and back.

ghost use Rattle.std.specs.Prelude.{◌≡◌, ◌<◌};
ghost use Rattle.block_queue.specs.Saved.{KeepsLine, KeepsOrphan, are_in_order, fits, has_moved, has_rank_of, is_broken, is_early, is_misranked, is_wired, line_apart, line_of, orphan_apart, put_line, put_orphan};

use super::{CommandQueue, Orphan, is_start, must_wait, watched};
use block_command::BlockCommand;
use block_disk::Requests;
use saved_state::{RestoreError, Saved, Words};
use std::alloc::{AllocError, Global};

type OrphanParts = (u64, u32, u64);

type Parts = (Requests, [u8; 33], [Option<Orphan>; 33]);

impl Saved for Orphan {
    ghost put = { put_orphan };

    ghost keeps = { KeepsOrphan };

    ghost told_apart = { orphan_apart };

    fn save(&self, words: &mut Words) -> Result<(), AllocError> {
        self.number.save(words)?;
        self.count.save(words)?;
        self.lba.save(words)
    }

    fn restore(alloc: Global, words: &mut Words) -> Result<Orphan, RestoreError> {
        let (lba, count, number) = match <OrphanParts>::restore(alloc, words) {
            Ok(parts) => parts,
            Err(error) => return Err(error),
        };
        Ok(Orphan { lba, count, number })
    }
}

/// Whether another place has the rank of this one.
fn has_rank_of(ranks: &[u8; 33], place: u8, other: u8) -> bool
    requires place { place < 33 }
    requires other { other < 33 }
    ensures { result ≡ has_rank_of ranks.now place other }
{
    other != place && ranks[other as usize] == ranks[place as usize]
}

/// Whether a place has a rank that is none, or that of another place.
fn is_misranked(ranks: &[u8; 33], place: u8) -> bool
    requires { place < 33 }
    ensures { result ≡ is_misranked ranks.now place }
{
    for other in 0..33_u8 {
        if has_rank_of(ranks, place, other) {
            return true;
        }
    }
    33 <= ranks[place as usize]
}

/// Whether a command has done something before its start.
fn has_moved(command: &BlockCommand) -> bool
    ensures { result ≡ has_moved command.now }
{
    is_start(command.turn()) && command.part_lba() != command.command().lba
}

/// Whether the command of a place runs that has to wait, or has done something before its start.
fn is_early(
    requests: &Requests,
    ranks: &[u8; 33],
    orphans: &[Option<Orphan>; 33],
    place: u8,
) -> bool
    requires { place < 33 }
    ensures { result ≡ is_early (line_of requests.now ranks.now orphans.now) place }
{
    let Some(command) = requests.get(place) else {
        return false;
    };
    if command.is_running()
        && (orphans[place as usize].is_some()
            || must_wait(requests, ranks, orphans, command.command(), place))
    {
        return true;
    }
    has_moved(command)
}

/// Whether a place breaks a rule.
fn is_broken(
    requests: &Requests,
    ranks: &[u8; 33],
    orphans: &[Option<Orphan>; 33],
    place: u8,
) -> bool
    requires { place < 33 }
    ensures { result ≡ is_broken (line_of requests.now ranks.now orphans.now) place }
{
    is_misranked(ranks, place) || is_early(requests, ranks, orphans, place)
}

/// Whether no place breaks a rule.
fn are_in_order(requests: &Requests, ranks: &[u8; 33], orphans: &[Option<Orphan>; 33]) -> bool
    ensures { result ≡ are_in_order (line_of requests.now ranks.now orphans.now) }
{
    for place in 0..33_u8 {
        if is_broken(requests, ranks, orphans, place) {
            return false;
        }
    }
    true
}

/// Whether the link is free, or of a command that holds it.
fn is_wired(requests: &Requests) -> bool
    ensures { result ≡ is_wired requests.now.table requests.now.table.wire }
{
    let Some(place) = requests.wire() else {
        return true;
    };
    if 33 <= place {
        return false;
    }
    match requests.get(place) {
        None => false,
        Some(command) => command.holds(),
    }
}

/// Whether these make a queue.
fn fits(requests: &Requests, ranks: &[u8; 33], orphans: &[Option<Orphan>; 33]) -> bool
    ensures { result ≡ fits (line_of requests.now ranks.now orphans.now) }
{
    are_in_order(requests, ranks, orphans) && is_wired(requests)
}

impl Saved for CommandQueue {
    ghost put = { put_line };

    ghost keeps = { KeepsLine };

    ghost told_apart = { line_apart };

    fn save(&self, words: &mut Words) -> Result<(), AllocError> {
        self.orphans.save(words)?;
        self.ranks.save(words)?;
        self.requests.save(words)
    }

    fn restore(alloc: Global, words: &mut Words) -> Result<CommandQueue, RestoreError> {
        let (requests, ranks, orphans) = match <Parts>::restore(alloc, words) {
            Ok(parts) => parts,
            Err(error) => return Err(error),
        };
        if !fits(&requests, &ranks, &orphans) {
            return Err(RestoreError::Broken);
        }
        let busy = watched(&requests, &orphans);
        Ok(CommandQueue {
            requests,
            ranks,
            orphans,
            busy,
        })
    }
}
