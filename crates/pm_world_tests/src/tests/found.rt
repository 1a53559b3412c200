//! Devices that go or are exchanged are found, whenever that happens.

use super::rig::{Act, Rig, Told};
use super::steps::Seen::{Comes, Counts, Does, Rows, Settles, Tries};
use super::steps::{Seen, cycles, passes};
use hba_driver::{SubmitError, Work};
use std::alloc::Global;
use std::process::Abort;
use std::test::Fail;

/// A request for a sector of each device.
const OF_0: Act = Act::Submit(0, Work::Read, 1, 0x10_1000);

const OF_1: Act = Act::Submit(1, Work::Read, 1, 0x10_1000);

const OF_2: Act = Act::Submit(2, Work::Read, 1, 0x10_1000);

const NO_DEVICE: Told = Told::Refused(SubmitError::NoDevice);

/// How many steps at the host lead past the scan.
const MOMENTS: usize = 30;

/// Device 1 goes, which causes a scan.
static GOES: [Seen; 2] = [
    Comes,
    Rows(&[
        (Act::Gone(1), Told::Gone(1, 1)),
        (Act::PmPresence(1), Told::Presence(1)),
    ]),
];

/// At each moment of the scan, in a world of its own of this many disks, each step is as it says.
fn at_each_moment(rt: &impl Abort, alloc: Global, ports: u8, steps: &[Seen]) -> Result<(), Fail> {
    for moments in 0..MOMENTS {
        let mut rig = Rig::new(alloc, ports, 1)?;
        passes(rt, &mut rig, &GOES);
        cycles(&mut rig, moments);
        passes(rt, &mut rig, steps);
    }
    Ok(())
}

/// A second device goes at any moment of the scan that the first one caused, so also between the read
/// of GSCR[32] and the write of PSCR[1]. Both are found.
static BOTH_GO: [Seen; 6] = [
    Tries(Act::Gone(2)),
    Tries(Act::PmPresence(2)),
    Settles,
    Does(OF_0, Told::Submitted(1)),
    Does(OF_1, NO_DEVICE),
    Does(OF_2, NO_DEVICE),
];

#[test]
fn no_removal_is_lost_in_a_scan(rt: HostRuntime) -> Result<(), Fail> {
    at_each_moment(&rt, rt.alloc(), 3, &BOTH_GO)
}

/// The same device comes and goes again at any moment of the scan.
static VISITS: [Seen; 9] = [
    Tries(Act::Came(1)),
    Tries(Act::PmPresence(1)),
    Tries(Act::Gone(1)),
    Tries(Act::PmPresence(1)),
    Settles,
    Does(OF_1, NO_DEVICE),
    Does(Act::Came(1), Told::Came(1, 3)),
    Settles,
    Counts(1, 3, (3, 3)),
];

#[test]
fn a_short_visit_in_a_scan_is_found(rt: HostRuntime) -> Result<(), Fail> {
    at_each_moment(&rt, rt.alloc(), 2, &VISITS)
}

/// The device comes again at any moment of the scan, and is ready in the end.
static COMES_AGAIN: [Seen; 5] = [
    Tries(Act::Came(1)),
    Tries(Act::PmPresence(1)),
    Settles,
    Counts(1, 2, (3, 3)),
    Does(OF_1, Told::Submitted(1)),
];

#[test]
fn a_new_device_in_a_scan_is_found(rt: HostRuntime) -> Result<(), Fail> {
    at_each_moment(&rt, rt.alloc(), 2, &COMES_AGAIN)
}
