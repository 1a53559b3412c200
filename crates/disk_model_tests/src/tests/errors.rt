//! Errors, the error mode and its log.

use super::disk::ACCEPTED;
use super::steps::Step::{Commands, IsSilent, Reads, ReadsLog, Sends, SendsLog};
use super::steps::{Step, assert_disk};
use disk_model::{DiskError, DiskPlan};

/// The PIO Setup before a page.
const PAGE: &str = "5f60580000000000000000000000005000020000";

static FAILS: [Step; 25] = [
    Reads(2, 8, 1),
    Reads(3, 9, 1),
    Reads(4, 10, 1),
    Reads(5, 11, 1),
    Sends(ACCEPTED),
    Sends(ACCEPTED),
    Sends(ACCEPTED),
    Sends(ACCEPTED),
    Sends("a140414000000000"),
    IsSilent,
    // dropped: the disk is in its error mode
    Reads(7, 0, 1),
    Commands(0xEC),
    Commands(0xEA),
    Commands(0x25),
    IsSilent,
    ReadsLog,
    Sends(PAGE),
    SendsLog("0200414008000040000000000000", 0x35),
    IsSilent,
    ReadsLog,
    Sends(PAGE),
    SendsLog("8000000000000000000000000000", 0x80),
    IsSilent,
    Reads(7, 9, 1),
    Sends(ACCEPTED),
];

#[test]
fn bad_sector(rt: HostRuntime) -> Result<(), DiskError> {
    let mut plan = DiskPlan::plain();
    plan.bad.push(8);
    assert_disk(&rt, rt.alloc(), 16, plan, &FAILS)
}
