//! Workers side by side, each in a thread of its own, until all have ended.

ghost use Rattle.std.specs.Prelude.{◌≡◌, ℕ, IfOk};
ghost use Rattle.std.specs.List.{AllZip};
ghost use Rattle.std.specs.Thread.{IsSend, IsSync};

use crate::post::Post;
use crate::signals::{Signals, Who};
use crate::worker::Worker;
use std::alloc::{AllocError, Global};
use std::snapshot::Snapshot;
use std::sync::Wait;
use std::thread;
use std::thread::{Promise, Threads, available_parallelism};

/// In how many turns in a row a worker may move nothing before it sleeps, where each worker can have
/// a processor.
const WAKEFUL_TURNS: u64 = 256;

/// What a worker that has this many turns promises about its end.
#[derive(Drop)]
struct EndOf<W: Worker>(Snapshot<W>, u64);

impl<W: Worker> Promise<W::End> for EndOf<W> {
    ghost kept_by = { λ p end. W.ended p.0.value p.1 end };
}

/// In how many turns in a row each of so many workers may move nothing before it sleeps: in none if
/// they are more than the processors.
fn wakeful_turns<R: Threads>(rt: &R, workers: usize) -> u64 {
    match available_parallelism(rt) {
        Ok(processors) if workers <= processors.get() => WAKEFUL_TURNS,
        _ => 0,
    }
}

/// Runs many workers of one kind, each in a thread of its own. End i is an end of worker i. If memory
/// is refused, or a thread cannot be made, the run is over and all that began have ended.
fn run_many<W: Worker, R: Threads + Wait + Sync>(
    rt: &R,
    alloc: Global,
    mut workers: Vec<W>,
    signals: &Signals,
    turns: u64,
) -> Result<Vec<W::End>, AllocError>
    ensures { IfOk result (λ ends. AllZip (λ w end. W.ended w turns end) workers.items ends.items) }
{
    let Some(last) = workers.pop() else {
        return Ok(Vec::new(alloc));
    };
    let who = Who::Many(workers.len());
    let (mut ends, end) = thread::scope(
        thread::scope_env(),
        rt,
        move |scope| -> Result<(Vec<W::End>, W::End), AllocError>
            requires { IsSync R.row × IsSend W.row × IsSend W.End.row }
            ensures many { IfOk result (λ ends.
                AllZip (λ w end. W.ended w turns end) workers.items ends.0.items) }
            ensures last { IfOk result (λ ends. W.ended last turns ends.1) }
        {
            let promise = EndOf(Snapshot::of(&last), turns);
            let Ok(child) = scope.spawn_with(
                promise,
                move || -> W::End
                    ensures { W.ended last turns result }
                { last.work(rt, Post::new(signals, who, turns)) },
            ) else {
                signals.end();
                return Err(AllocError);
            };
            let ends = run_many(rt, alloc, workers, signals, turns)?;
            Ok((ends, child.join(rt)))
        },
    )?;
    ends.push(end)?;
    Ok(ends)
}

/// Runs many workers of one kind and two others, all side by side. `turns` is the most turns in a
/// row of one worker in which nothing moves. End i of many is an end of worker i. If memory is
/// refused, or a thread cannot be made, all that began have ended.
pub fn run_three<D: Worker, P: Worker, H: Worker, R: Threads + Wait + Sync>(
    rt: &R,
    alloc: Global,
    many: Vec<D>,
    one: P,
    other: H,
    turns: u64,
) -> Result<(Vec<D::End>, P::End, H::End), AllocError>
    ensures many { IfOk result (λ ends. AllZip (λ w end. D.ended w turns end) many.items ends.0.items) }
    ensures one { IfOk result (λ ends. P.ended one turns ends.1) }
    ensures other { IfOk result (λ ends. H.ended other turns ends.2) }
{
    let wakeful = wakeful_turns(rt, many.len().saturating_add(2));
    let signals = Signals::new(alloc, many.len(), wakeful)?;
    let signals = &signals;
    thread::scope(
        thread::scope_env(),
        rt,
        move |scope| -> Result<(Vec<D::End>, P::End, H::End), AllocError>
            ensures many { IfOk result (λ ends.
                AllZip (λ w end. D.ended w turns end) many.items ends.0.items) }
            ensures one { IfOk result (λ ends. P.ended one turns ends.1) }
            ensures other { IfOk result (λ ends. H.ended other turns ends.2) }
        {
            let promise = EndOf(Snapshot::of(&one), turns);
            let Ok(first) = scope.spawn_with(
                promise,
                move || -> P::End
                    ensures { P.ended one turns result }
                { one.work(rt, Post::new(signals, Who::One, turns)) },
            ) else {
                return Err(AllocError);
            };
            let promise = EndOf(Snapshot::of(&other), turns);
            let Ok(second) = scope.spawn_with(
                promise,
                move || -> H::End
                    ensures { H.ended other turns result }
                { other.work(rt, Post::new(signals, Who::Other, turns)) },
            ) else {
                signals.end();
                return Err(AllocError);
            };
            let ends = run_many(rt, alloc, many, signals, turns)?;
            Ok((ends, first.join(rt), second.join(rt)))
        },
    )
}
