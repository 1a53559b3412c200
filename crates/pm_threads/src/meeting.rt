//! The seats of a device and of the multiplier at its port, brought together.

ghost use Rattle.std.specs.Prelude.{◌≡◌, map, IfOk};
ghost use Rattle.std.specs.List.{AllZip};
ghost use Rattle.pm_threads.specs.Seats.{Handed, TiedTo};

use disk_model::Device;
use disk_thread::DiskEnd;
use pm_thread::PmPort;
use ruled_links::meet;
use std::alloc::{AllocError, Global};

/// The three links of a device, and the device, which is given back.
fn meet_at<'a, D: Device + Drop>(end: DiskEnd<'a, D>, port: PmPort<'a>) -> D
    requires { TiedTo end.station port }
    ensures handed { Handed end.entry.station port.entry }
    ensures unit { result ≡ end.entry.station.unit }
{
    let DiskEnd {
        station,
        fault: _,
        spent: _,
    } = end;
    let (unit, taken, sent, told) = station.into_parts();
    let PmPort {
        commands,
        frames,
        presence,
    } = port;
    let _ = meet(sent, frames);
    let _ = meet(commands, taken);
    let _ = meet(told, presence);
    unit
}

/// The links of all devices, which are given back in order. All meet, even if no memory is found for
/// the list.
pub(crate) fn meet_all<'a, D: Device + Drop>(
    alloc: Global,
    mut disks: Vec<DiskEnd<'a, D>>,
    mut ports: Vec<PmPort<'a>>,
) -> Result<Vec<D>, AllocError>
    requires { AllZip TiedTo (map (λ e. e.station) disks.items) ports.items }
    ensures handed { AllZip Handed (map (λ e. e.station) disks.entry.items) ports.entry.items }
    ensures units { IfOk result (λ units.
        units.items ≡ map (λ s. s.unit) (map (λ e. e.station) disks.entry.items)) }
{
    let Some(end) = disks.pop() else {
        return Ok(Vec::new(alloc));
    };
    let Some(port) = ports.pop() else {
        unreachable!()
    };
    let unit = meet_at(end, port);
    let mut units = meet_all(alloc, disks, ports)?;
    units.push(unit)?;
    Ok(units)
}
