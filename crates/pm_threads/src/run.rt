//! All workers at once.

ghost use Rattle.std.specs.Prelude.{◌≡◌, ◌≤◌, ◌↔◌, ◌||◌, true, false, length, map, None, Some, All, IfErr, IfNone, IfOk, IfSome, OnOk};
ghost use Rattle.std.specs.List.{AllZip, list_any};
ghost use Rattle.host_thread.specs.Runs.{GoesOn, IsRun as IsHostRun, is_open};
ghost use Rattle.pm_threads.specs.Ends.{AllGoOn, AreOfOneRun, RunsWith};
ghost use Rattle.pm_threads.specs.Failures.{IsTold, error_of};
ghost use Rattle.pm_threads.specs.Halts.{Halt, IsLeftOf, IsWhy, LeadsTo, is_any_short, is_any_spent, is_given, is_short, is_shut};
ghost use Rattle.pm_threads.specs.Seats.{TiedTo, first_ports};
ghost use Rattle.pm_threads.specs.Setups.{can_run, memory_of};

use crate::finished::{Finished, Unfinished};
use crate::links::Links;
use crate::seats::seated;
use crate::setup::{Setup, filled};
use disk_model::Device;
use disk_thread::{DiskEnd, DiskWorker, Gate};
use host_thread::{HostEnd, HostWorker};
use pm_thread::{PmEnd, PmWorker};
use runner::{Fault, Spent, run_three};
use std::alloc::{AllocError, Global};
use std::sync::Wait;
use std::thread::Threads;
use thiserror::Error;

/// Why a run has not finished.
#[derive(Clone, Copy, Debug, PartialEq, Eq, Error)]
pub enum RunError {
    /// The allocator refused memory, or a thread could not be made. It comes before all others but BadSetup.
    #[error("out of memory")]
    OutOfMemory = 1,
    /// A worker's turns were spent, and a request has not ended.
    #[error("turns spent")]
    TurnsSpent = 2,
    /// The gate of the disks did not open.
    #[error("gate shut")]
    GateShut = 3,
    /// The setup is not one that a run on these links can have, or their seats were given before.
    #[error("bad setup")]
    BadSetup = 4,
    /// A request has not ended, and no worker says why.
    #[error("unexplained")]
    Unexplained = 5,
}

/// Why a run has not finished, and what is left of it.
#[derive(Drop)]
pub struct RunFailure<'a, D: Device + Drop> {
    /// Why.
    pub error: RunError,
    /// The ends of its workers. There are none if the run did not begin, as with BadSetup, if not all of its
    /// threads could be made, or if memory for the list of ends was refused.
    pub left: Option<Unfinished<'a, D>>,
}

impl<'a, D: Device + Drop> From<AllocError> for RunFailure<'a, D> {
    ghost use Rattle.std.specs.Prelude.{◌≡◌, None};
    ghost use Rattle.pm_threads.specs.declared.run.RunError.TheVariants.{OutOfMemory};

    ghost from_gives = { λ _ failure. (failure.error ≡ OutOfMemory) × (failure.left ≡ None) };

    fn from(_: AllocError) -> RunFailure<'a, D> {
        RunFailure {
            error: RunError::OutOfMemory,
            left: None,
        }
    }
}

impl<'a, D: Device + Drop> From<RunFailure<'a, D>> for RunError {
    ghost use Rattle.std.specs.Prelude.{◌≡◌};

    ghost from_gives = { λ failure error. error ≡ failure.error };

    fn from(failure: RunFailure<'a, D>) -> RunError {
        failure.error
    }
}

/// Whether a worker ended by lack of memory.
fn is_short(fault: Option<Fault>) -> bool
    ensures { result ≡ is_short fault }
{
    matches!(fault, Some(Fault::OutOfMemory))
}

/// Whether it ended by its gate.
fn is_shut(fault: Option<Fault>) -> bool
    ensures { result ≡ is_shut fault }
{
    matches!(fault, Some(Fault::GateShut))
}

/// Whether some turns were spent.
fn is_given(spent: Option<Spent>) -> bool
    ensures { result ≡ is_given spent }
{
    spent.is_some()
}

/// Whether the worker of a device ended by lack of memory.
fn any_short<D: Device + Drop>(disks: &[DiskEnd<'_, D>]) -> bool
    ensures { result ≡ list_any (λ end. is_short end.fault) disks.now }
{
    disks.iter().any(|end| is_short(end.fault))
}

/// Whether a worker ended by lack of memory.
fn is_any_short<D: Device + Drop>(
    disks: &[DiskEnd<'_, D>],
    pm: Option<Fault>,
    host: Option<Fault>,
) -> bool
    ensures { result ≡ is_any_short disks.now pm host }
{
    any_short(disks) || is_short(pm) || is_short(host)
}

/// Whether a worker ended by its gate.
fn any_shut<D: Device + Drop>(disks: &[DiskEnd<'_, D>]) -> bool
    ensures { result ≡ list_any (λ end. is_shut end.fault) disks.now }
{
    disks.iter().any(|end| is_shut(end.fault))
}

/// Whether the worker of a device says that its turns were spent.
fn any_spent<D: Device + Drop>(disks: &[DiskEnd<'_, D>]) -> bool
    ensures { result ≡ list_any (λ end. is_given end.spent) disks.now }
{
    disks.iter().any(|end| is_given(end.spent))
}

/// Whether a worker says that its turns were spent.
fn is_any_spent<D: Device + Drop>(
    disks: &[DiskEnd<'_, D>],
    pm: Option<Spent>,
    host: Option<Spent>,
) -> bool
    ensures { result ≡ is_any_spent disks.now pm host }
{
    any_spent(disks) || is_given(pm) || is_given(host)
}

/// Why a run whose workers ended like this has not finished, or `None` if it has. Lack of memory is told
/// before all else.
// Inlined into `finished`, LLVM had not ended there after a quarter of an hour.
#[inline(never)]
fn cause<D: Device + Drop>(
    disks: &[DiskEnd<'_, D>],
    pm: &PmEnd<'_>,
    host: &HostEnd<'_>,
) -> Option<RunError>
    ensures why { IfSome result (λ error.
        IsWhy error (record { disks = disks.now; pm = pm.now; host = host.now })) }
    ensures quiet { IfNone result (All (λ e. e.fault ≡ None) disks.now) }
    ensures closed { IfNone result (list_any is_open host.now.worker.states ≡ false) }
{
    if is_any_short(disks, pm.fault, host.fault) {
        return Some(RunError::OutOfMemory);
    }
    if any_shut(disks) {
        return Some(RunError::GateShut);
    }
    if host.worker.is_open() {
        if is_any_spent(disks, pm.spent, host.spent) {
            return Some(RunError::TurnsSpent);
        }
        return Some(RunError::Unexplained);
    }
    None
}

/// What is left of a run. It has finished if no worker ended by a fault and no request is open. Otherwise
/// all ends come with the error.
fn finished<'a, D: Device + Drop>(
    disks: Vec<DiskEnd<'a, D>>,
    pm: PmEnd<'a>,
    host: HostEnd<'a>,
) -> Result<Finished<'a, D>, RunFailure<'a, D>>
    requires { AreOfOneRun (record {
      disks = map (λ e. e.station) disks.items;
      pm = pm.worker;
      host = host.worker;
    }) }
    ensures disks { IfOk result (λ f. f.disks ≡ map (λ e. e.station) disks.entry.items) }
    ensures no_fault { OnOk result (All (λ e. e.fault ≡ None) disks.entry.items) }
    ensures host { IfOk result (λ f. f.host ≡ host.entry.worker) }
    ensures closed { OnOk result (list_any is_open host.entry.worker.states ≡ false) }
    ensures left { IfErr result (λ failure. failure.left ≡
        Some (record { disks = disks.entry.items; pm = pm.entry; host = host.entry })) }
    ensures why { IfErr result (λ failure.
        IsWhy failure.error (record { disks = disks.entry.items; pm = pm.entry; host = host.entry })) }
{
    if let Some(error) = cause(disks.as_slice(), &pm, &host) {
        let left = Some(Unfinished { disks, pm, host });
        return Err(RunFailure { error, left });
    }
    Ok(Finished {
        disks,
        pm: pm.worker,
        host: host.worker,
    })
}

/// Runs the workers side by side, until all have ended. The stations stay runs of whatever units they
/// were runs of, and so does the host. If the run has not finished, that holds for each device whose
/// worker had no fault.
fn run_seated<'a, 'g, D: Device + Drop + Send, G: Gate + Sync, R: Threads + Wait + Sync>(
    rt: &R,
    alloc: Global,
    workers: Vec<DiskWorker<'a, 'g, D, G>>,
    pm: PmWorker<'a>,
    host: HostWorker<'a>,
    turns: u64,
) -> Result<Finished<'a, D>, RunFailure<'a, D>>
    requires few { length workers.items ≤ 15 }
    requires tied { AllZip TiedTo workers.items pm.ports }
    requires up { pm.host.link ≡ host.frames.link }
    requires down { host.commands.link ≡ pm.commands.link }
    ensures disks { IfOk result (λ f. AllGoOn D.plan_of D.stands_for D.may_send workers.entry.items f.disks) }
    ensures ports { IfOk result (λ f. map (λ s. s.port) f.disks ≡ map (λ w. w.port) workers.entry.items) }
    ensures host { IfOk result (λ f. GoesOn host.entry f.host) }
    ensures plan { IfOk result (λ f. f.host.plan ≡ host.entry.plan) }
    ensures closed { IfOk result (λ f. list_any is_open f.host.states ≡ false) }
    ensures begun { error_of result ≡ Some RunError.BadSetup → ⊥ }
    ensures gate { error_of result ≡ Some RunError.GateShut → G.may_refuse }
    ensures left { IfErr result (λ failure.
        IfSome failure.left (λ h. LeadsTo D.plan_of D.stands_for D.may_send workers.entry.items host.entry h)) }
    ensures why { IfErr result (λ failure. IsTold failure) }
{
    let (disks, pm, host) = run_three(rt, alloc, workers, pm, host, turns)?;
    finished(disks, pm, host)
}

/// Runs each device, the multiplier and the host in threads of their own, until all requests have
/// ended or a worker's turns are spent. The end of each device is a run of the unit that was given
/// for its port, which was pulled out exactly when that was due. The end of the host is a run beside
/// the memory with the puts. If the run has not finished, what is left of it comes with the error: the
/// ends of the host and of each device whose worker had no fault are such runs.
pub fn run_threads<'a, D: Device + Drop + Send, G: Gate + Sync, R: Threads + Wait + Sync>(
    rt: &R,
    alloc: Global,
    links: &'a mut Links,
    setup: Setup<D>,
    gate: &G,
) -> Result<Finished<'a, D>, RunFailure<'a, D>>
    ensures bad_setup { (error_of result ≡ Some RunError.BadSetup) ↔ (can_run links.old setup ≡ false) }
    ensures disks { IfOk result (λ f.
        AllZip (RunsWith D.plan_of D.stands_for D.may_send setup.pulls.items) setup.units.items f.disks) }
    ensures ports { IfOk result (λ f. map (λ s. s.port) f.disks ≡ first_ports (length links.old.devices)) }
    ensures host { IfOk result (λ f. IsHostRun
        (memory_of setup.memory (map (λ put. (put.0, put.1.items)) setup.puts.items)) f.host) }
    ensures plan { IfOk result (λ f. f.host.plan ≡ setup.plan.items) }
    ensures closed { IfOk result (λ f. list_any is_open f.host.states ≡ false) }
    ensures gate { error_of result ≡ Some RunError.GateShut → G.may_refuse }
    ensures left { IfErr result (λ failure. IfSome failure.left (λ h.
        IsLeftOf D.plan_of D.stands_for D.may_send setup.units.items setup.pulls.items (length links.old.devices)
        (memory_of setup.memory (map (λ put. (put.0, put.1.items)) setup.puts.items)) setup.plan.items h)) }
    ensures why { IfErr result (λ failure. IsTold failure) }
{
    if links.given || !setup.fits(links.ports()) {
        return Err(RunFailure {
            error: RunError::BadSetup,
            left: None,
        });
    }
    links.given = true;
    let Setup {
        units,
        memory,
        puts,
        plan,
        pulls,
        turns,
    } = setup;
    let Links {
        devices,
        up,
        down,
        given: _,
    } = links;
    let Some((sent, taken)) = up.seats() else {
        unreachable!()
    };
    let Some((said, told)) = down.seats() else {
        unreachable!()
    };
    let (workers, ports) = seated(alloc, devices.as_mut_slice(), units, gate, &pulls)?;
    let memory = filled(alloc, memory, &puts)?;
    let pm = PmWorker::new(alloc, ports, sent, told);
    let host = HostWorker::new(alloc, taken, said, memory, plan)?;
    run_seated(rt, alloc, workers, pm, host, turns)
}
