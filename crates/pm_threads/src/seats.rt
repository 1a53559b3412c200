//! Who sits where: a worker for each device, and the multiplier's seats at its port.

ghost use Rattle.std.specs.Prelude.{◌≡◌, ◌≤◌, ◌<◌, ◌++◌, ◌∷◌, [], length, map, All, IfOk};
ghost use Rattle.std.specs.List.{AllZip};
ghost use Rattle.disk_thread.specs.Runs.{IsRun};
ghost use Rattle.pm_threads.specs.Ends.{RunsWith};
ghost use Rattle.pm_threads.specs.Links.{IsFree};
ghost use Rattle.pm_threads.specs.Seats.{Starts, first_ports};
ghost use Rattle.pm_threads.specs.Setups.{pulls_at};

use crate::links::DeviceLinks;
use disk_model::Device;
use disk_thread::{DiskWorker, Gate, Station};
use pm_thread::PmPort;
use std::alloc::{AllocError, Global};

/// After how many of its FISes the device at port `n` is pulled out.
#[tactic(auto, using(crate::proofs::Pulls::pulls_more))]
fn pulls_of(alloc: Global, pulls: &[(u8, u32)], n: u8) -> Result<Vec<u32>, AllocError>
    ensures { IfOk result (λ own. own.items ≡ pulls_at n pulls.now) }
{
    let mut own = Vec::new(alloc);
    for pull in pulls {
        if pull.0 == n {
            own.push(pull.1)?;
        }
    }
    Ok(own)
}

/// A worker for the device at port `n`, and the multiplier's seats there.
fn seated_at<'a, 'g, D: Device + Drop, G: Gate>(
    alloc: Global,
    links: &'a mut DeviceLinks,
    n: u8,
    unit: D,
    gate: &'g G,
    pulls: Vec<u32>,
) -> (DiskWorker<'a, 'g, D, G>, PmPort<'a>)
    requires { IsFree links.old }
    ensures starts { Starts result.0 result.1 }
    ensures port { result.0.port ≡ n }
    ensures run { IsRun D.plan_of D.stands_for D.may_send pulls.items unit result.0 }
{
    let DeviceLinks { up, down, presence } = links;
    let Some((sent, frames)) = up.seats() else {
        unreachable!()
    };
    let Some((commands, taken)) = down.seats() else {
        unreachable!()
    };
    let Some((told, heard)) = presence.seats() else {
        unreachable!()
    };
    let station = Station::new(alloc, n, unit, taken, sent, told, pulls);
    let port = PmPort {
        commands,
        frames,
        presence: heard,
    };
    (DiskWorker::new(station, gate, alloc), port)
}

/// A worker for each device and the multiplier's seats at each port, worker n and port n on the links at place n.
pub(crate) fn seated<'a, 'g, D: Device + Drop, G: Gate>(
    alloc: Global,
    links: &'a mut [DeviceLinks],
    mut units: Vec<D>,
    gate: &'g G,
    pulls: &[(u8, u32)],
) -> Result<(Vec<DiskWorker<'a, 'g, D, G>>, Vec<PmPort<'a>>), AllocError>
    requires units { length links.old ≡ length units.items }
    requires few { length links.old ≤ 15 }
    requires free { All IsFree links.old }
    ensures starts { IfOk result (λ s. AllZip Starts s.0.items s.1.items) }
    ensures ports { IfOk result (λ s. map (λ w. w.port) s.0.items ≡ first_ports (length units.items)) }
    ensures run { IfOk result (λ s. AllZip
        (RunsWith D.plan_of D.stands_for D.may_send pulls.now) units.items s.0.items) }
{
    let Some((last, rest)) = links.split_last_mut() else {
        return Ok((Vec::new(alloc), Vec::new(alloc)));
    };
    let Some(unit) = units.pop() else {
        unreachable!()
    };
    let n = rest.len() as u8;
    let own = pulls_of(alloc, pulls, n)?;
    let (worker, port) = seated_at(alloc, last, n, unit, gate, own);
    let (workers, ports) = seated(alloc, rest, units, gate, pulls)?;
    with_last(workers, ports, worker, port)
}

/// One more worker and one more port.
fn with_last<'a, 'g, D: Device + Drop, G: Gate>(
    mut workers: Vec<DiskWorker<'a, 'g, D, G>>,
    mut ports: Vec<PmPort<'a>>,
    worker: DiskWorker<'a, 'g, D, G>,
    port: PmPort<'a>,
) -> Result<(Vec<DiskWorker<'a, 'g, D, G>>, Vec<PmPort<'a>>), AllocError>
    requires all { AllZip Starts workers.items ports.items }
    requires last { Starts worker port }
    ensures starts { IfOk result (λ s. AllZip Starts s.0.items s.1.items) }
    ensures workers { IfOk result (λ s. s.0.items ≡ workers.entry.items ++ worker.entry ∷ []) }
{
    workers.push(worker)?;
    ports.push(port)?;
    Ok((workers, ports))
}
