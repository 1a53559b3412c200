//! The mark of a device from which the signature of an ATA device came.

use super::steps::Sent::{Four, Register, Twenty};
use super::steps::Step::{Begins, Flushes, IsSigned, Opens, Resets, Starts, Takes, Writes};
use super::steps::{Sent, Step, play};

/// The signature of an ATA device, of device 2.
const SIGNATURE: Sent = Register(0x50, 1, 1, [1, 0, 0]);

/// Which FISes mark their device, and what takes a mark.
static MARKS: [Step; 68] = [
    // A signature marks its device alone. A fall of ST, DEC and later FISes leave the mark; a flush takes it. So it is with
    // FIS-based switching, and then without it.
    Begins,
    Starts,
    IsSigned(2, false),
    Takes(SIGNATURE),
    IsSigned(2, true),
    IsSigned(3, false),
    Takes(Register(0x50, 0, 0, [0, 0, 0])),
    IsSigned(2, true),
    Takes(Four([0x46, 2, 0, 0])),
    Writes(0x40, 3),
    IsSigned(2, true),
    Writes(0x18, 0x10),
    Writes(0x18, 0x11),
    IsSigned(2, true),
    Flushes(2, 0),
    IsSigned(2, false),
    Opens,
    Writes(0x08, 0x1000),
    Writes(0x18, 0x11),
    IsSigned(2, false),
    Takes(SIGNATURE),
    IsSigned(2, true),
    IsSigned(3, false),
    Takes(Register(0x50, 0, 0, [0, 0, 0])),
    IsSigned(2, true),
    Takes(Four([0x46, 2, 0, 0])),
    Writes(0x40, 2),
    IsSigned(2, true),
    Writes(0x18, 0x10),
    Writes(0x18, 0x11),
    IsSigned(2, true),
    Flushes(2, 0),
    IsSigned(2, false),
    // A signature that ends a software reset marks too. Those of other kinds do not, and so none with an error, none
    // while the device is busy, and no other answer. Nor does one that is ignored: while ST is 0, and while the device is faulty.
    // Another device's marks then.
    Begins,
    Starts,
    Takes(Register(0x50, 1, 1, [1, 0x69, 0x96])),
    IsSigned(2, false),
    Takes(Register(0x50, 1, 1, [1, 0x14, 0xEB])),
    IsSigned(2, false),
    Takes(Register(0x50, 1, 1, [1, 0, 1])),
    IsSigned(2, false),
    Takes(Register(0x50, 1, 1, [2, 0, 0])),
    IsSigned(2, false),
    Takes(Register(0x50, 1, 2, [1, 0, 0])),
    IsSigned(2, false),
    Takes(Register(0x50, 0, 1, [1, 0, 0])),
    IsSigned(2, false),
    Takes(Register(0xD0, 1, 1, [1, 0, 0])),
    IsSigned(2, false),
    Takes(Register(0x58, 1, 1, [1, 0, 0])),
    IsSigned(2, false),
    Takes(Register(0x51, 1, 1, [1, 0, 0])),
    IsSigned(2, false),
    Starts,
    Resets(2),
    IsSigned(2, false),
    Takes(SIGNATURE),
    IsSigned(2, true),
    Starts,
    Writes(0x18, 0x10),
    Takes(SIGNATURE),
    IsSigned(2, false),
    Writes(0x18, 0x11),
    Takes(Four([0x46, 2, 0, 0])),
    Takes(SIGNATURE),
    IsSigned(2, false),
    Takes(Twenty([
        0x34, 3, 0x50, 1, 1, 0, 0, 0, 0, 0, 0, 0, 1, 0, 0, 0, 0, 0, 0, 0,
    ])),
    IsSigned(3, true),
];

#[test]
fn signatures_mark_their_devices(rt: HostRuntime) {
    play(&rt, rt.alloc(), &MARKS);
}
