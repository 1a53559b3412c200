//! Writes.

use super::disk::ACCEPTED;
use super::steps::Step::{Begins, Holds, IsSilent, Sends, Takes, TakesData};
use super::steps::{Step, assert_disk};
use disk_model::{DiskError, DiskPlan};

static ONE_SECTOR: [Step; 14] = [
    Takes("2780610108000040000000000000000000000000"),
    Sends(ACCEPTED),
    Sends("41000000000000000000000000000000000000000002000000000000"),
    // Data that comes before the DMA Activate, and Data of another length, are dropped.
    TakesData(0xAA, 512),
    Sends("39000000"),
    IsSilent,
    TakesData(0xAB, 1024),
    IsSilent,
    TakesData(0xAC, 512),
    Holds(8, 0xAC),
    Sends("a140500001000000"),
    IsSilent,
    Begins(7, 7),
    Begins(9, 9),
];

#[test]
fn write_of_one_sector(rt: HostRuntime) -> Result<(), DiskError> {
    assert_disk(&rt, rt.alloc(), 16, DiskPlan::plain(), &ONE_SECTOR)
}

/// The DMA Setup of an `auto` disk asks for the Data. A DMA Setup of a read does not.
static AUTO: [Step; 16] = [
    Takes("2780610208000040000000000000000000000000"),
    Sends(ACCEPTED),
    // Data that comes before the DMA Setup went is dropped.
    TakesData(0xAA, 512),
    Sends("41800000000000000000000000000000000000000002000000000000"),
    IsSilent,
    TakesData(0xAB, 512),
    Sends("41800000000000000000000000000000000200000002000000000000"),
    IsSilent,
    TakesData(0xAC, 512),
    Sends("a140500001000000"),
    IsSilent,
    Holds(8, 0xAB),
    Holds(9, 0xAC),
    Takes("2780600107000040000000000000000000000000"),
    Sends(ACCEPTED),
    Sends("41200000000000000000000000000000000000000002000000000000"),
];

#[test]
fn write_with_auto_activate(rt: HostRuntime) -> Result<(), DiskError> {
    let plan = DiskPlan {
        chunk: 512,
        auto: true,
        ..DiskPlan::plain()
    };
    assert_disk(&rt, rt.alloc(), 16, plan, &AUTO)
}
