//! Frames that go down to nobody: for a port that does not forward, and for a connection that is not there.

use super::rig::{Act, Told};
use super::steps::Seen::{Comes, Does, Dropped, Rows};
use super::steps::{Seen, plays};
use hba_driver::Work;
use multiplier::Passed;
use std::test::Fail;

/// The command of a read of the disk is on the host's link.
const ASKS: &[(Act, Told)] = &[
    (Act::Submit(0, Work::Read, 1, 0x10_1000), Told::Submitted(1)),
    (Act::Tick, Told::Ticked),
    (Act::HostPush, Told::Pushed),
];

/// The multiplier sees that the disk went, and drops what is for it.
const CLOSES: &[(Act, Told)] = &[
    (Act::Gone(0), Told::Gone(0, 1)),
    (Act::PmPresence(0), Told::Presence(0)),
    (Act::PmFromHost, Told::Passed(Passed::Dropped)),
    (Act::PmFromHost, Told::Idle),
];

/// What is dropped leaves the host's link, and is counted once.
static LEAVE: [Seen; 4] = [Comes, Rows(ASKS), Rows(CLOSES), Dropped(1)];

#[test]
fn dropped_frames_leave_their_link(rt: HostRuntime) -> Result<(), Fail> {
    plays(&rt, rt.alloc(), 1, &LEAVE)
}

/// It goes to its port, and on to the link of the disk.
const PASSES: &[(Act, Told)] = &[
    (Act::PmFromHost, Told::Passed(Passed::Down(0))),
    (Act::PmDown(0), Told::Down(0)),
];

/// The disk takes what is on its link.
const TAKES: &[(Act, Told)] = &[
    (Act::DiskTake(0), Told::DiskTook(0, false)),
    (Act::DiskTake(0), Told::Idle),
];

/// If the disk is no longer there, the frame is dropped.
const DROPS: &[(Act, Told)] = &[
    (Act::DiskTake(0), Told::DiskTook(0, true)),
    (Act::DiskTake(0), Told::Idle),
];

/// The disk comes again.
const COMES_AGAIN: &[(Act, Told)] = &[
    (Act::PmPresence(0), Told::Presence(0)),
    (Act::Came(0), Told::Came(0, 2)),
];

/// The disk goes while the frame is on its link.
const GOES: Seen = Does(Act::Gone(0), Told::Gone(0, 1));

static SEEN: [Seen; 4] = [Comes, Rows(ASKS), Rows(PASSES), Rows(TAKES)];

static OUT: [Seen; 5] = [Comes, Rows(ASKS), Rows(PASSES), GOES, Rows(DROPS)];

static OTHER: [Seen; 6] = [
    Comes,
    Rows(ASKS),
    Rows(PASSES),
    GOES,
    Rows(COMES_AGAIN),
    Rows(DROPS),
];

/// A disk that is not plugged in, or plugged in under another connection, does not see the frame.
#[test]
fn other_connections_are_dropped(rt: HostRuntime) -> Result<(), Fail> {
    plays(&rt, rt.alloc(), 1, &SEEN)?;
    plays(&rt, rt.alloc(), 1, &OUT)?;
    plays(&rt, rt.alloc(), 1, &OTHER)
}
