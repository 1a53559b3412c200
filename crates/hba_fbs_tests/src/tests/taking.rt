//! FISes that are taken, with values from outside.

use super::steps::Sent::{
    Answer, Block, Bytes, Counting, Eight, Four, Part, Sector, Setup, Twenty,
};
use super::steps::Step::{
    Begins, Ends, Faults, Holds, IsResetting, Issues, Posts, Reads, Resets, Shows, Starts, Takes,
    Tells, Writes,
};
use super::steps::Told::{Brings, Done, Faulty, Heard, Ignored, Stops};
use super::steps::{Step, play};
use host_memory::Prd;
use port_errors::{DeviceCause, PortCause};
use rx_area::Posted;

/// A FIS of 64 bytes of an unknown type.
pub(super) const UNKNOWN: [u8; 64] = [
    0xC7, 3, 0, 0, 0, 0, 0, 0, 0, 0, 0, 0, 0, 0, 0, 0, 0, 0, 0, 0, 0, 0, 0, 0, 0, 0, 0, 0, 0, 0, 0,
    0, 0, 0, 0, 0, 0, 0, 0, 0, 0, 0, 0, 0, 0, 0, 0, 0, 0, 0, 0, 0, 0, 0, 0, 0, 0, 0, 0, 0, 0, 0, 0,
    0,
];

/// The signature of a port multiplier, with I.
const PM_SIGNATURE: [u8; 20] = [
    0x34, 0x4F, 0x50, 1, 1, 0x69, 0x96, 0, 0, 0, 0, 0, 1, 0, 0, 0, 0, 0, 0, 0,
];

/// The identify data of device 1, for slot 3, come to this place.
const SECTOR: [Prd; 1] = [Prd {
    address: 0x10_1000,
    bytes: 512,
}];

/// Reads, faults, a reset and PIO data-in.
static TAKEN: [Step; 138] = [
    // The queued read of slot 5 of device 3 goes to two places, and is done once.
    Begins,
    Starts,
    Issues(
        3,
        5,
        0x60,
        &[
            Prd {
                address: 0x10_1000,
                bytes: 300,
            },
            Prd {
                address: 0x10_2000,
                bytes: 212,
            },
        ],
    ),
    Shows(0x38, 0x20),
    Takes(Answer(3)),
    Shows(0x38, 0),
    Tells(Setup(3, true, 5, 0, 512), Heard(Posted::Setup)),
    Posts(0x1300, 0x41),
    Posts(0x1301, 0x23),
    Tells(Counting, Brings(5, 0)),
    Holds(0x112B, 1, 0x2B),
    Holds(0x112C, 1, 0),
    Holds(0x2000, 1, 0x2C),
    Holds(0x20D3, 1, 0xFF),
    Holds(0x20D4, 1, 0),
    Shows(0x34, 0x20),
    Tells(
        Eight([0xA1, 0x43, 0x50, 0, 0x20, 0, 0, 0]),
        Done(Posted::Bits, 0x20),
    ),
    Shows(0x34, 0),
    Shows(0x10, 8),
    Tells(
        Eight([0xA1, 0x43, 0x50, 0, 0x20, 0, 0, 0]),
        Heard(Posted::Bits),
    ),
    // Two reads of two sectors whose Data FISes cross. Another read comes with its second sector first. A Set Device Bits FIS
    // that names all tags completes the two whole reads of its device, and nothing else: no free slot, and no read of another
    // device.
    Begins,
    Starts,
    Reads(0, 0, 0x10_1000),
    Reads(4, 1, 0x10_2000),
    Reads(9, 2, 0x10_3000),
    Takes(Setup(0, true, 0, 0, 1024)),
    Takes(Setup(4, true, 1, 0, 1024)),
    Tells(Sector(0, 0x11), Brings(0, 0)),
    Tells(Sector(4, 0x44), Brings(1, 0)),
    Tells(Sector(0, 0x12), Brings(0, 512)),
    Tells(Sector(4, 0x45), Brings(1, 512)),
    Takes(Setup(9, true, 2, 512, 512)),
    Tells(Sector(9, 0x99), Brings(2, 512)),
    Takes(Setup(9, true, 2, 0, 512)),
    Tells(Sector(9, 0x90), Brings(2, 0)),
    Holds(0x1000, 512, 0x11),
    Holds(0x1200, 512, 0x12),
    Holds(0x2000, 512, 0x44),
    Holds(0x2200, 512, 0x45),
    Holds(0x3000, 512, 0x90),
    Holds(0x3200, 512, 0x99),
    Tells(
        Setup(9, true, 2, 512, 512),
        Faulty(Posted::Setup, DeviceCause::Twice),
    ),
    Tells(Eight([0xA1, 4, 0x50, 0, 7, 0, 0, 0]), Done(Posted::Bits, 2)),
    Shows(0x34, 5),
    Starts,
    Reads(9, 2, 0x10_3000),
    Takes(Setup(9, true, 2, 0, 1024)),
    Tells(Sector(9, 0x90), Brings(2, 0)),
    Tells(Sector(9, 0x91), Brings(2, 512)),
    Reads(4, 1, 0x10_1000),
    Takes(Setup(4, true, 1, 0, 1024)),
    Tells(Sector(4, 0x40), Brings(1, 0)),
    Tells(Sector(4, 0x41), Brings(1, 512)),
    Reads(4, 6, 0x10_2000),
    Takes(Setup(4, true, 6, 0, 1024)),
    Tells(Sector(4, 0x42), Brings(6, 0)),
    Tells(Sector(4, 0x43), Brings(6, 512)),
    Shows(0x34, 0x46),
    Tells(
        Eight([0xA1, 4, 0x50, 0, 0xFF, 0xFF, 0xFF, 0xFF]),
        Done(Posted::Bits, 0x42),
    ),
    Shows(0x34, 4),
    Shows(0x40, 0xF401),
    Tells(
        Eight([0xA1, 4, 0x50, 0, 0xFF, 0xFF, 0xFF, 0xFF]),
        Heard(Posted::Bits),
    ),
    Shows(0x34, 4),
    // Device 5 and then device 1 send a Data FIS without bytes. A third device goes on. The control port
    // stops the port.
    Begins,
    Starts,
    Tells(
        Four([0x46, 5, 0, 0]),
        Faulty(Posted::Nothing, DeviceCause::BadFis),
    ),
    Shows(0x40, 0x0005_F005),
    Tells(Answer(5), Ignored),
    Tells(
        Four([0x46, 1, 0, 0]),
        Faulty(Posted::Nothing, DeviceCause::BadFis),
    ),
    Shows(0x40, 0x0005_F005),
    Tells(Answer(1), Ignored),
    Tells(Bytes(&UNKNOWN), Heard(Posted::Unknown)),
    Shows(0x30, 0x0200_0000),
    Shows(0x10, 0x0800_0010),
    Tells(
        Eight([0xA1, 0xCF, 0x50, 0, 0, 0, 0, 0]),
        Heard(Posted::Bits),
    ),
    Shows(0x3C, 0x8000),
    Tells(Four([0x39, 0x0F, 0, 0]), Stops(PortCause::BadControl)),
    Shows(0x40, 0xF001),
    Shows(0x10, 0x2800_0018),
    Tells(Answer(3), Ignored),
    // A software reset of the control port ends with its signature alone.
    Begins,
    Starts,
    Takes(Twenty(PM_SIGNATURE)),
    Shows(0x24, 0xFFFF_FFFF),
    Resets(15),
    Writes(0x10, 1),
    Tells(Answer(0x4F), Ignored),
    IsResetting(15, true),
    Tells(Twenty(PM_SIGNATURE), Heard(Posted::D2h)),
    IsResetting(15, false),
    Writes(0x40, 0xF01),
    Shows(0x24, 0x9669_0101),
    Shows(0x10, 1),
    Shows(0x20, 0x0150),
    // PIO data-in of 512 bytes in one block and in two, without the end of the command, and with ERR in E_Status: the
    // fault, and what is done then, PxIS and PxTFD.
    Begins,
    Starts,
    Issues(1, 3, 0xEC, &SECTOR),
    Takes(Answer(2)),
    Tells(Block(0x61, 0x50, 512), Heard(Posted::Pio)),
    Shows(0x20, 0x58),
    Ends(Part(1, 0x77, 512), 8),
    Shows(0x10, 2),
    Shows(0x20, 0x50),
    Shows(0x38, 0),
    Holds(0x1000, 512, 0x77),
    Starts,
    Issues(1, 3, 0xEC, &SECTOR),
    Takes(Answer(2)),
    Tells(Block(0x61, 0x58, 256), Heard(Posted::Pio)),
    Shows(0x20, 0x58),
    Takes(Part(1, 0x77, 256)),
    Tells(Block(0x61, 0x50, 256), Heard(Posted::Pio)),
    Shows(0x20, 0x58),
    Ends(Part(1, 0x77, 256), 8),
    Shows(0x10, 2),
    Shows(0x20, 0x50),
    Shows(0x38, 0),
    Holds(0x1000, 512, 0x77),
    Starts,
    Issues(1, 3, 0xEC, &SECTOR),
    Takes(Answer(2)),
    Tells(Block(0x61, 0x58, 512), Heard(Posted::Pio)),
    Shows(0x20, 0x58),
    Ends(Part(1, 0x77, 512), 0),
    Shows(0x10, 2),
    Shows(0x20, 0x58),
    Shows(0x38, 8),
    Holds(0x1000, 512, 0x77),
    Starts,
    Issues(1, 3, 0xEC, &SECTOR),
    Takes(Answer(2)),
    Tells(Block(0x61, 0x51, 512), Heard(Posted::Pio)),
    Shows(0x20, 0x58),
    Faults(Part(1, 0x77, 512), DeviceCause::TaskFile),
    Shows(0x10, 0x4000_0002),
    Shows(0x20, 0x51),
    Shows(0x38, 8),
    Holds(0x1000, 512, 0x77),
];

#[test]
fn fises_are_taken(rt: HostRuntime) {
    play(&rt, rt.alloc(), &TAKEN);
}
