//! How many FISes were sent and taken in a run in threads.
//!
//! [`counted`] makes a row for each connection of each device from what its station gave and what the host took.
#![tactic(auto)]

ghost use Rattle.std.specs.Prelude.{◌≤◌, ◌<◌, length, map, IfOk, OnOk};
ghost use Rattle.thread_counts.specs.Rows.{AreCounted, CountsAt};

use disk_model::Device;
use disk_thread::{DiskEnd, Station};
use host_thread::HostWorker;
use pm_world::ConnCount;
use std::alloc::{AllocError, Global};

/// The rows of a device, one for each connection that it had.
fn count_at<'a, D: Device + Drop>(
    rows: &mut Vec<ConnCount>,
    port: u8,
    station: &Station<'a, D>,
    host: &HostWorker<'a>,
) -> Result<(), AllocError>
    requires { port < 15 }
    ensures { OnOk result (CountsAt rows.old.items port station.now host.now.frames.taken rows.new.items) }
{
    for before in 0..station.conn() {
        let conn = before + 1;
        rows.push(ConnCount {
            port,
            conn,
            sent: station.given_on(conn),
            taken: host.taken_on(port, conn),
        })?;
    }
    Ok(())
}

/// The rows of all devices, sorted by port and connection: device n stands at place n. It refuses only where the
/// allocator does.
pub fn counted<'a, D: Device + Drop>(
    alloc: Global,
    disks: &[DiskEnd<'a, D>],
    host: &HostWorker<'a>,
) -> Result<Vec<ConnCount>, AllocError>
    requires { length disks.now ≤ 15 }
    ensures { IfOk result (λ rows.
        AreCounted rows.items (map (λ e. e.station) disks.now) host.now.frames.taken) }
{
    let mut rows = Vec::new(alloc);
    for port in 0..disks.len() as u8 {
        count_at(&mut rows, port, &disks[usize::from(port)].station, host)?;
    }
    Ok(rows)
}
