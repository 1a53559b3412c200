//! A port without switching: one device at a time.

use super::steps::Sent::{Answer, Four, Sector, Setup};
use super::steps::Step::{Gives, Lists, Opens, Posts, Refuses, Shows, Takes, Tells, Writes};
use super::steps::Told::{Done, Faulty, Heard, Ignored};
use super::steps::{Step, play};
use hba_fbs::WriteError;
use port_errors::DeviceCause;
use rx_area::Posted;

/// A port runs without switching, with a command without data of device 0 in slot 0, one of device 1 in slot 1, and
/// another one of device 0 in slot 2. Headers of two devices are refused, as is one of another device than that of an
/// issued slot. The FISes of the active device alone are posted, in row 0; Data of another device is ignored. A fault of
/// the device stops the port.
static ONE_DEVICE: [Step; 36] = [
    Opens,
    Writes(0x08, 0x1000),
    Lists(0, 0),
    Lists(1, 1),
    Lists(0, 2),
    Writes(0x18, 0x11),
    Shows(0x18, 0x0040_C011),
    Refuses(0x38, 3, WriteError::OtherDevice),
    Writes(0x38, 1),
    Refuses(0x38, 2, WriteError::OtherDevice),
    Refuses(0x38, 3, WriteError::SlotBusy),
    Writes(0x38, 4),
    Shows(0x20, 0x50),
    Gives(0, &[0x27, 0x80, 0xE4]),
    Shows(0x20, 0xD0),
    Tells(Answer(1), Heard(Posted::Nothing)),
    Posts(0x1140, 0),
    Tells(Sector(1, 1), Ignored),
    Tells(Setup(1, true, 1, 0, 512), Ignored),
    Tells(Answer(0), Done(Posted::D2h, 1)),
    Posts(0x1040, 0x34),
    Shows(0x38, 4),
    Tells(
        Four([0x46, 0, 0, 0]),
        Faulty(Posted::Nothing, DeviceCause::BadFis),
    ),
    Shows(0x10, 0x0800_0000),
    Shows(0x40, 0xF000),
    Tells(Answer(0), Ignored),
    Tells(Answer(1), Ignored),
    Writes(0x40, 2),
    Tells(Answer(0), Ignored),
    Writes(0x18, 0x10),
    Writes(0x18, 0x11),
    Shows(0x38, 0),
    Writes(0x38, 2),
    Gives(1, &[0x27, 0x81, 0xE4]),
    Takes(Answer(1)),
    Posts(0x1041, 1),
];

#[test]
fn one_device_at_a_time(rt: HostRuntime) {
    play(&rt, rt.alloc(), &ONE_DEVICE);
}
