//! Tests as lists of steps: what is done with a world, and what it tells and shows then.
//!
//! A test that is a list has one assertion, which stands here, so it is proved with little work.

use super::going::{asks, waits_to_be_seen};
use super::rig::{Act, Rig, Told};
use std::alloc::Global;
use std::process::Abort;
use std::test::Fail;

/// A step of a test.
#[derive(Clone, Copy)]
pub(super) enum Seen {
    /// All disks come, and all steps are done that can be done.
    Comes,
    /// This is done, and tells this.
    Does(Act, Told),
    /// This is done, whatever it tells.
    Tries(Act),
    /// These are done, and each tells what stands beside it.
    Rows(&'static [(Act, Told)]),
    /// All steps are done that can be done.
    Settles,
    /// The command of a read of one sector of device 1 goes down to it.
    Asks,
    /// Nothing of port 1 goes up until the host has cleared the bit that tells of an exchange.
    WaitsToBeSeen,
    /// This many FISes of a connection were sent, and this many of them taken.
    Counts(u8, u32, (u64, u64)),
    /// The multiplier dropped this many frames on their way down.
    Dropped(u32),
}

/// What goes on between the multiplier and the host.
const CYCLE: [Act; 5] = [
    Act::PmUp,
    Act::HostTake,
    Act::Tick,
    Act::HostPush,
    Act::PmFromHost,
];

/// This many steps are done between the multiplier and the host.
pub(super) fn cycles(rig: &mut Rig, count: usize) {
    for i in 0..count {
        let _ = rig.does(CYCLE[i % 5]);
    }
}

/// Whether what is done is as a step says.
fn acts(rig: &mut Rig, seen: Seen) -> bool {
    match seen {
        Seen::Comes => rig.come(),
        Seen::Does(act, told) => rig.does(act) == told,
        Seen::Tries(act) => {
            let _ = rig.does(act);
            true
        }
        Seen::Rows(rows) => rig.tells(rows),
        Seen::Settles => rig.settle(),
        Seen::Asks => asks(rig),
        Seen::WaitsToBeSeen => waits_to_be_seen(rig),
        _ => shows(rig, seen),
    }
}

/// Whether what is to be seen is as a step says.
fn shows(rig: &Rig, seen: Seen) -> bool {
    match seen {
        Seen::Counts(port, conn, counts) => rig.counted(port, conn) == Some(counts),
        Seen::Dropped(count) => rig.dropped() == count,
        _ => false,
    }
}

/// The number of the first step that is not as it says.
fn first_failing(rig: &mut Rig, steps: &[Seen]) -> Option<usize> {
    for (i, seen) in steps.iter().enumerate() {
        if !acts(rig, *seen) {
            return Some(i);
        }
    }
    None
}

/// Each step of a world is as it says.
pub(super) fn passes(rt: &impl Abort, rig: &mut Rig, steps: &[Seen]) {
    let failing = first_failing(rig, steps);
    assert_eq!(rt; failing, None, "the number of a step");
}

/// The same for a new world of this many disks, with links of one frame.
pub(super) fn plays(rt: &impl Abort, alloc: Global, ports: u8, steps: &[Seen]) -> Result<(), Fail> {
    let mut rig = Rig::new(alloc, ports, 1)?;
    passes(rt, &mut rig, steps);
    Ok(())
}

/// Each of these held.
pub(super) fn all_held(rt: &impl Abort, held: &[bool]) {
    let failing = held.iter().position(|one| !*one);
    assert_eq!(rt; failing, None, "the number of a step");
}
