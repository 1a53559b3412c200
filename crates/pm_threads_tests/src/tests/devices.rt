//! A run of devices that are no `Unit`.

use super::runs::{is_done, reading_of};
use super::setups::{Door, ran, setup_of};
use disk_model::{Disk, DiskPlan};
use pm_threads::Links;
use std::alloc::Global;
use std::test::Fail;

/// This many disks, with no type around them.
fn disks(alloc: Global, count: u8) -> Result<Vec<Disk>, Fail> {
    let mut units = Vec::new(alloc);
    for _ in 0..count {
        units.push(Disk::new(alloc, 16, DiskPlan::plain())?)?;
    }
    Ok(units)
}

/// Whether sector 0 of the first device holds what was written.
fn is_written(units: &[Disk]) -> bool {
    units
        .first()
        .and_then(|disk| disk.sector(0))
        .is_some_and(|bytes| bytes[0] == 0x5A)
}

#[test]
fn disks_of_their_own_type_are_read(rt: HostRuntime) -> Result<(), Fail> {
    let units = disks(rt.alloc(), 2)?;
    let setup = reading_of(rt.alloc(), setup_of(rt.alloc(), units), 2)?;
    let mut links = Links::new(rt.alloc(), 2, 4)?;
    let summary = ran(&rt, rt.alloc(), &mut links, setup, &Door { open: true })?;
    assert!(rt; is_done(&summary));
    assert!(rt; summary.units.len() == 2 && is_written(&summary.units));
    Ok(())
}
