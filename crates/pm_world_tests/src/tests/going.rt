//! A device that goes, and comes again.

use super::rig::{Act, Rig, Told};
use super::steps::Seen::{Asks, Comes, Counts, Does, Rows, Settles, WaitsToBeSeen};
use super::steps::{Seen, plays};
use hba_driver::{Completion, Outcome, Ticket, Work};
use pm_world::StepError;
use std::test::Fail;

/// The request of slot 0 ended because its device was removed.
const REMOVED: Told = Told::Polled(Completion {
    ticket: Ticket(1),
    slot: 0,
    outcome: Outcome::Removed,
});

/// The command of a read of one sector of device 1 goes down to it.
pub(super) fn asks(rig: &mut Rig) -> bool {
    if rig.does(Act::Submit(1, Work::Read, 1, 0x10_1000)) != Told::Submitted(1) {
        return false;
    }
    for _ in 0..40 {
        let _ = rig.does(Act::Tick);
        let _ = rig.does(Act::HostPush);
        let _ = rig.does(Act::PmFromHost);
        if rig.does(Act::PmDown(1)) == Told::Down(1) {
            return true;
        }
    }
    false
}

/// The bit X of SError, PSCR[1]: a device was exchanged.
const EXCHANGED: u32 = 0x0400_0000;

/// Whether the multiplier shows that the device at port 1 was exchanged.
fn is_exchanged(rig: &Rig) -> bool {
    match rig.register(1, 1) {
        Some(error) => error & EXCHANGED != 0,
        None => false,
    }
}

/// Nothing of port 1 goes up until the host has cleared that bit.
pub(super) fn waits_to_be_seen(rig: &mut Rig) -> bool {
    for _ in 0..100 {
        if !is_exchanged(rig) {
            return true;
        }
        let _ = rig.does(Act::HostTake);
        let _ = rig.does(Act::Tick);
        let _ = rig.does(Act::HostPush);
        if rig.does(Act::PmUp) == Told::Up(1) {
            return false;
        }
        let _ = rig.does(Act::HostTake);
        let _ = rig.does(Act::PmFromHost);
    }
    !is_exchanged(rig)
}

/// Device 1 takes a queued read, and sends its answer, DMA Setup and Data. The first two leave its
/// link.
const SERVES: &[(Act, Told)] = &[
    (Act::DiskTake(1), Told::DiskTook(1, false)),
    (Act::DiskSend(1), Told::Sent(1, 1, 3)),
    (Act::PmFromDevice(1), Told::Offered(1, false)),
    (Act::PmUp, Told::Up(1)),
    (Act::HostTake, Told::Took(1, 1, 3)),
    (Act::DiskSend(1), Told::Sent(1, 1, 4)),
    (Act::PmFromDevice(1), Told::Offered(1, false)),
    (Act::DiskSend(1), Told::Sent(1, 1, 5)),
];

/// It goes. The frame that its port holds is dropped when that is recorded, and the frame on its link
/// when it is offered.
const GOES: &[(Act, Told)] = &[
    (Act::Gone(1), Told::Gone(1, 1)),
    (Act::Gone(1), Told::Stopped(StepError::NotThere)),
    (Act::Inject(1, 4), Told::Stopped(StepError::NotThere)),
    (Act::DiskSend(1), Told::Idle),
    (Act::PmFromDevice(1), Told::Blocked),
    (Act::PmPresence(1), Told::Presence(1)),
    (Act::PmFromDevice(1), Told::Offered(1, true)),
    (Act::PmFromDevice(1), Told::Idle),
    (Act::PmPresence(1), Told::Idle),
    (Act::DiskTake(1), Told::Idle),
];

/// It comes again and sends its signature, which the port holds. First the notification goes up.
const COMES: &[(Act, Told)] = &[
    (Act::Came(1), Told::Came(1, 2)),
    (Act::PmPresence(1), Told::Presence(1)),
    (Act::DiskSend(1), Told::Sent(1, 2, 0)),
    (Act::PmFromDevice(1), Told::Offered(1, false)),
    (Act::PmUp, Told::Up(15)),
    (Act::PmUp, Told::Blocked),
];

/// A device goes during a read, and its request ends as removed. It comes again under the next
/// connection.
static GOES_AND_COMES: [Seen; 16] = [
    Comes,
    Counts(1, 1, (3, 3)),
    Asks,
    Rows(SERVES),
    Rows(GOES),
    Settles,
    Counts(1, 1, (6, 4)),
    Does(Act::Poll, REMOVED),
    Rows(COMES),
    WaitsToBeSeen,
    Counts(1, 2, (1, 0)),
    Does(Act::PmUp, Told::Up(1)),
    Does(Act::HostTake, Told::Took(1, 2, 0)),
    Settles,
    Counts(1, 2, (3, 3)),
    Counts(1, 1, (6, 4)),
];

#[test]
fn a_device_goes_and_comes_again(rt: HostRuntime) -> Result<(), Fail> {
    plays(&rt, rt.alloc(), 2, &GOES_AND_COMES)
}
