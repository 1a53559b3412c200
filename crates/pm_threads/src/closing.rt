//! All seats in one thread again.

ghost use Rattle.std.specs.Prelude.{◌≡◌, map, IfOk};
ghost use Rattle.std.specs.List.{AllZip};
ghost use Rattle.ruled_links.specs.Lists.{IsPrefixOf};
ghost use Rattle.multiplier.specs.Orders.{InStampedOrder};
ghost use Rattle.host_memory.specs.Memory.{Memory};
ghost use Rattle.host_thread.specs.Runs.{IsRun as IsHostRun};
ghost use Rattle.pm_thread.specs.Passing.{Passes};
ghost use Rattle.pm_thread.specs.Runs.{IsRun as IsPmRun};
ghost use Rattle.pm_threads.specs.Ends.{AreOfOneRun, EachArrives};
ghost use Rattle.pm_threads.specs.Halts.{ends_of};
ghost use Rattle.pm_threads.specs.Seats.{Handed};
ghost use Rattle.pm_threads.specs.Summaries.{AreOutcomes, IsMadeOf};
ghost use Rattle.thread_counts.specs.Rows.{AreCounted, NoneAboveSent};

use crate::finished::{Finished, Unfinished};
use crate::meeting::meet_all;
use crate::outcomes::outcomes;
use disk_model::Device;
use disk_thread::DiskEnd;
use hba_driver::{Outcome, SubmitError};
use host_memory::HostMemory;
use host_thread::{HostWorker, Planned, State};
use pm_thread::PmWorker;
use pm_world::ConnCount;
use ruled_links::meet;
use std::alloc::{AllocError, Global};
use thiserror::Error;
use thread_counts::counted;

/// What came of a run.
#[derive(Drop)]
pub struct Summary<D> {
    /// How many FISes were sent and taken, in a row for each connection of each port that came, sorted by port
    /// and connection.
    pub counts: Vec<ConnCount>,
    /// How each request of the plan ended, in order: its outcome, or why it was refused.
    pub results: Vec<Result<Outcome, SubmitError>>,
    /// The memory of the host.
    pub memory: HostMemory,
    /// The devices, as their threads left them; that of port n at place n.
    pub units: Vec<D>,
}

/// What came of a run that has not finished.
#[derive(Drop)]
pub struct PartialSummary<D> {
    /// How many FISes were sent and taken, in rows like those of a [`Summary`].
    pub counts: Vec<ConnCount>,
    /// The requests of the plan, in order.
    pub plan: Vec<Planned>,
    /// The state of each request of the plan, at its place. `State::is_open` tells which are open. The state
    /// of any other says how it ended.
    pub states: Vec<State>,
    /// The memory of the host.
    pub memory: HostMemory,
    /// The devices, as their threads left them; that of port n at place n.
    pub units: Vec<D>,
}

/// Why there is no summary.
#[derive(Clone, Copy, Debug, PartialEq, Eq, Error)]
pub enum CloseError {
    /// The allocator refused memory for the counts, the results or the list of units.
    #[error("out of memory")]
    OutOfMemory = 1,
}

impl From<AllocError> for CloseError {
    ghost use Rattle.std.specs.Prelude.{◌≡◌};
    ghost use Rattle.pm_threads.specs.declared.closing.CloseError.TheVariants.{OutOfMemory};

    ghost from_gives = { λ _ e. e ≡ OutOfMemory };

    fn from(_: AllocError) -> CloseError {
        CloseError::OutOfMemory
    }
}

/// Brings the seats of all links together, even if no memory is found for the summary. What the host
/// took of each connection is a beginning of what its device sent on it, and is in stamped order. On
/// every link what was taken is a beginning of what was sent. The multiplier is a run of its calls:
/// what it took of a connection whose removal it has not recorded is what it put up and what it
/// holds. The memory is what the turns of the host made of it.
#[tactic(auto, using(crate::proofs::Ends::link_prefix))]
fn met<'a, D: Device + Drop>(
    alloc: Global,
    disks: Vec<DiskEnd<'a, D>>,
    pm: PmWorker<'a>,
    host: HostWorker<'a>,
) -> Result<PartialSummary<D>, CloseError>
    requires { AreOfOneRun (record {
      disks = map (λ e. e.station) disks.items;
      pm = pm;
      host = host;
    }) }
    ensures arrives { EachArrives (map (λ e. e.station) disks.entry.items) host.entry.frames.taken }
    ensures order { InStampedOrder host.entry.frames.taken }
    ensures multiplier { IsPmRun pm.entry }
    ensures passes { Passes pm.entry }
    ensures handed { AllZip Handed (map (λ e. e.station) disks.entry.items) pm.entry.ports }
    ensures up { IsPrefixOf host.entry.frames.taken pm.entry.host.sent }
    ensures down { IsPrefixOf pm.entry.commands.taken host.entry.commands.sent }
    ensures counts { IfOk result (λ s. AreCounted s.counts.items (map (λ e. e.station) disks.entry.items)
        host.entry.frames.taken) }
    ensures fewer { IfOk result (λ s. NoneAboveSent s.counts.items) }
    ensures plan { IfOk result (λ s. s.plan.items ≡ host.entry.plan) }
    ensures states { IfOk result (λ s. s.states.items ≡ host.entry.states) }
    ensures memory { IfOk result (λ s. s.memory ≡ host.entry.host.memory) }
    ensures units { IfOk result (λ s.
        s.units.items ≡ map (λ d. d.unit) (map (λ e. e.station) disks.entry.items)) }
    ensures made { IfOk result (λ s. (start : Memory) → IsHostRun start host.entry
        → IsMadeOf start host.entry s.memory) }
{
    let counts = counted(alloc, disks.as_slice(), &host);
    let (_, ports, sent, told) = pm.into_parts();
    let (taken, said, memory, plan, states) = host.into_parts();
    let _ = meet(sent, taken);
    let _ = meet(said, told);
    let units = meet_all(alloc, disks, ports);
    Ok(PartialSummary {
        counts: counts?,
        plan,
        states,
        memory,
        units: units?,
    })
}

/// Brings the seats of all links together, even if no memory is found for the summary, and says how each
/// request ended.
pub fn close<'a, D: Device + Drop>(
    alloc: Global,
    finished: Finished<'a, D>,
) -> Result<Summary<D>, CloseError>
    ensures arrives { EachArrives finished.entry.disks finished.entry.host.frames.taken }
    ensures order { InStampedOrder finished.entry.host.frames.taken }
    ensures multiplier { IsPmRun finished.entry.pm }
    ensures passes { Passes finished.entry.pm }
    ensures handed { AllZip Handed finished.entry.disks finished.entry.pm.ports }
    ensures up { IsPrefixOf finished.entry.host.frames.taken finished.entry.pm.host.sent }
    ensures down { IsPrefixOf finished.entry.pm.commands.taken finished.entry.host.commands.sent }
    ensures counts { IfOk result (λ s.
        AreCounted s.counts.items finished.entry.disks finished.entry.host.frames.taken) }
    ensures fewer { IfOk result (λ s. NoneAboveSent s.counts.items) }
    ensures results { IfOk result (λ s. AreOutcomes finished.entry.host.states s.results.items) }
    ensures memory { IfOk result (λ s. s.memory ≡ finished.entry.host.host.memory) }
    ensures units { IfOk result (λ s. s.units.items ≡ map (λ d. d.unit) finished.entry.disks) }
    ensures made { IfOk result (λ s. (start : Memory) → IsHostRun start finished.entry.host
        → IsMadeOf start finished.entry.host s.memory) }
{
    let (disks, pm, host) = finished.into_parts();
    let PartialSummary {
        counts,
        plan: _,
        states,
        memory,
        units,
    } = met(alloc, disks, pm, host)?;
    let results = outcomes(alloc, states.as_slice())?;
    Ok(Summary {
        counts,
        results,
        memory,
        units,
    })
}

/// Brings the seats of all links together after a run that has not finished, even if no memory is found
/// for the summary. What `close` says of the links holds here too. The state of each request comes in place of its
/// outcome, since some may be open.
pub fn close_unfinished<'a, D: Device + Drop>(
    alloc: Global,
    unfinished: Unfinished<'a, D>,
) -> Result<PartialSummary<D>, CloseError>
    ensures arrives { EachArrives (ends_of unfinished.entry).disks unfinished.entry.host.worker.frames.taken }
    ensures order { InStampedOrder unfinished.entry.host.worker.frames.taken }
    ensures multiplier { IsPmRun unfinished.entry.pm.worker }
    ensures passes { Passes unfinished.entry.pm.worker }
    ensures handed { AllZip Handed (ends_of unfinished.entry).disks unfinished.entry.pm.worker.ports }
    ensures up { IsPrefixOf unfinished.entry.host.worker.frames.taken unfinished.entry.pm.worker.host.sent }
    ensures down { IsPrefixOf unfinished.entry.pm.worker.commands.taken
        unfinished.entry.host.worker.commands.sent }
    ensures counts { IfOk result (λ s. AreCounted s.counts.items (ends_of unfinished.entry).disks
        unfinished.entry.host.worker.frames.taken) }
    ensures fewer { IfOk result (λ s. NoneAboveSent s.counts.items) }
    ensures plan { IfOk result (λ s. s.plan.items ≡ unfinished.entry.host.worker.plan) }
    ensures states { IfOk result (λ s. s.states.items ≡ unfinished.entry.host.worker.states) }
    ensures memory { IfOk result (λ s. s.memory ≡ unfinished.entry.host.worker.host.memory) }
    ensures units { IfOk result (λ s. s.units.items ≡ map (λ d. d.unit) (ends_of unfinished.entry).disks) }
    ensures made { IfOk result (λ s. (start : Memory) → IsHostRun start unfinished.entry.host.worker
        → IsMadeOf start unfinished.entry.host.worker s.memory) }
{
    let (disks, pm, host) = unfinished.into_parts();
    met(alloc, disks, pm, host)
}
