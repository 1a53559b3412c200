//! PxFBS.DEC, which clears the device that PxFBS shows, with values from outside.

use super::steps::Sent::{Answer, Eight, Four, Sector, Setup};
use super::steps::Step::{
    Begins, Holds, Issues, Reads, Refuses, Shows, Starts, Takes, Tells, Writes,
};
use super::steps::Told::{Brings, Done, Faulty, Heard, Ignored, Stops};
use super::steps::{Step, play};
use hba_fbs::WriteError;
use host_memory::Prd;
use port_errors::{DeviceCause, PortCause};
use rx_area::Posted;

/// Two sectors go here.
const PLACE: [Prd; 1] = [Prd {
    address: 0x10_3000,
    bytes: 1024,
}];

/// What PxFBS.DEC clears, and what it leaves.
static CLEARS: [Step; 85] = [
    // Devices 0, 2 and 4 read two sectors each, in the slots of their own numbers, and set up all of it. Device 2 tells
    // of an error and is cleared, with another DEV. Its slots are free, and ERR and Error are still told. Its old Data is
    // stray then, and no byte of it goes to client memory.
    Begins,
    Starts,
    Reads(0, 0, 0x10_1000),
    Takes(Setup(0, true, 0, 0, 1024)),
    Reads(2, 2, 0x10_3000),
    Takes(Setup(2, true, 2, 0, 1024)),
    Reads(4, 4, 0x10_5000),
    Takes(Setup(4, true, 4, 0, 1024)),
    Tells(
        Eight([0xA1, 0x42, 0x41, 0x40, 0, 0, 0, 0]),
        Faulty(Posted::Bits, DeviceCause::TaskFile),
    ),
    Shows(0x40, 0x0002_F405),
    Tells(Sector(2, 0x22), Ignored),
    Writes(0x40, 0x0703),
    Shows(0x40, 0x0000_F701),
    Shows(0x34, 0x11),
    Writes(0x40, 0x0201),
    Shows(0x20, 0x4041),
    Tells(Sector(2, 0x22), Faulty(Posted::Nothing, DeviceCause::Stray)),
    Holds(0x3000, 1024, 0),
    Shows(0x40, 0x0002_F205),
    Writes(0x40, 0x0203),
    Tells(Eight([0xA1, 2, 0x50, 0, 4, 0, 0, 0]), Heard(Posted::Bits)),
    // The same three devices are at work, and device 2 errs. It is cleared while the others go on. Their reads are done
    // as before.
    Begins,
    Starts,
    Reads(0, 0, 0x10_1000),
    Takes(Setup(0, true, 0, 0, 1024)),
    Reads(2, 2, 0x10_3000),
    Takes(Setup(2, true, 2, 0, 1024)),
    Reads(4, 4, 0x10_5000),
    Takes(Setup(4, true, 4, 0, 1024)),
    Tells(Sector(0, 0x10), Brings(0, 0)),
    Takes(Eight([0xA1, 0x42, 0x41, 0x40, 0, 0, 0, 0])),
    Writes(0x40, 0x0403),
    Shows(0x34, 0x11),
    Tells(Sector(4, 0x40), Brings(4, 0)),
    Tells(Sector(0, 0x11), Brings(0, 512)),
    Tells(Sector(4, 0x41), Brings(4, 512)),
    Tells(
        Eight([0xA1, 0, 0x50, 0, 0x15, 0, 0, 0]),
        Done(Posted::Bits, 1),
    ),
    Tells(
        Eight([0xA1, 4, 0x50, 0, 0x15, 0, 0, 0]),
        Done(Posted::Bits, 0x10),
    ),
    Holds(0x1000, 512, 0x10),
    Holds(0x1200, 512, 0x11),
    Holds(0x5000, 512, 0x40),
    Holds(0x5200, 512, 0x41),
    Shows(0x34, 0),
    Shows(0x38, 0),
    Shows(0x40, 0x0000_F401),
    // Device 5 and then device 1 are faulty. Each DEC clears the device that is shown, and a third does
    // nothing. A command of device 2 that went out to it is no longer waited for once the device is cleared. A
    // write that is refused clears nothing. While the port is stopped, no device is shown, and DEC does nothing.
    Begins,
    Starts,
    Tells(
        Four([0x46, 5, 0, 0]),
        Faulty(Posted::Nothing, DeviceCause::BadFis),
    ),
    Tells(
        Four([0x46, 1, 0, 0]),
        Faulty(Posted::Nothing, DeviceCause::BadFis),
    ),
    Shows(0x40, 0x0005_F005),
    Writes(0x40, 3),
    Shows(0x40, 0x0001_F005),
    Tells(Answer(5), Heard(Posted::D2h)),
    Tells(Answer(1), Ignored),
    Writes(0x40, 3),
    Shows(0x40, 0x0000_F001),
    Tells(Answer(5), Heard(Posted::D2h)),
    Tells(Answer(1), Heard(Posted::D2h)),
    Writes(0x40, 3),
    Shows(0x40, 0x0000_F001),
    Tells(Answer(5), Heard(Posted::D2h)),
    Tells(Answer(1), Heard(Posted::D2h)),
    Starts,
    Issues(2, 3, 0x60, &PLACE),
    Writes(0x40, 0x0203),
    Shows(0x38, 8),
    Shows(0x20, 0xD0),
    Shows(0x40, 0x0000_F201),
    Tells(
        Four([0x46, 2, 0, 0]),
        Faulty(Posted::Nothing, DeviceCause::BadFis),
    ),
    Refuses(0x40, 0x0202, WriteError::Running),
    Shows(0x38, 8),
    Writes(0x40, 0x0201),
    Shows(0x40, 0x0002_F205),
    Shows(0x38, 8),
    Writes(0x40, 0x0203),
    Shows(0x38, 0),
    Shows(0x20, 0x50),
    Shows(0x40, 0x0000_F201),
    Starts,
    Issues(2, 3, 0x60, &PLACE),
    Tells(
        Four([0x46, 2, 0, 0]),
        Faulty(Posted::Nothing, DeviceCause::BadFis),
    ),
    Tells(Four([0x39, 0x0F, 0, 0]), Stops(PortCause::BadControl)),
    Writes(0x40, 0x0203),
    Shows(0x38, 8),
    Shows(0x40, 0x0000_F201),
];

#[test]
fn one_device_is_cleared(rt: HostRuntime) {
    play(&rt, rt.alloc(), &CLEARS);
}
