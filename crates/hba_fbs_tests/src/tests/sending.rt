//! Frames that go out, with values from outside.

use super::steps::Sent::{Answer, Eight, Four, Sector, Setup, Twenty};
use super::steps::Step::{
    Begins, Flushes, Gives, GivesNone, GivesSector, Holds, IsResetting, Moves, Puts, Queues,
    Resets, Shows, Spoils, Starts, Takes, Tells,
};
use super::steps::Told::{Done, Heard, Ignored, Stops};
use super::steps::{Step, play};
use port_errors::PortCause;
use rx_area::Posted;

/// Commands and Data that go out.
static FRAMES: [Step; 61] = [
    // The FISes of a queued write of device 2, in slot 0, of sector 8.
    Begins,
    Starts,
    Puts(0x10_1000, 0xAB),
    Puts(0x10_11FF, 0xCD),
    GivesNone,
    Moves(2, 0, 0x61, 1),
    Gives(
        0,
        &[
            0x27, 0x82, 0x61, 1, 8, 0, 0, 0x40, 0, 0, 0, 0, 0, 0, 0, 0, 0, 0, 0, 0,
        ],
    ),
    Shows(0x20, 0xD0),
    GivesNone,
    Takes(Answer(2)),
    Shows(0x20, 0x50),
    Takes(Setup(2, false, 0, 0, 512)),
    GivesNone,
    Tells(Four([0x39, 2, 0, 0]), Heard(Posted::Nothing)),
    GivesSector(0xAB, 0xCD),
    GivesNone,
    Tells(
        Eight([0xA1, 0x42, 0x50, 0, 1, 0, 0, 0]),
        Done(Posted::Bits, 1),
    ),
    // A device has one command out that it has not answered. Another device's command goes in the meantime, the lowest slot
    // first. Status 58h ends the command of device 1, and leaves it busy. A Control with SRST set goes to the control port, which
    // is busy, and needs no answer. A device in reset gets no command until its signature comes. A stopped port gives nothing. A
    // table that no longer has the slot's bytes stops the port, on the way out and on the way in.
    Begins,
    Starts,
    Queues(4, 7, 0xE4),
    Queues(1, 3, 0xE4),
    Queues(4, 5, 0xE4),
    Gives(0, &[0x27, 0x81, 0xE4]),
    Gives(1, &[0x27, 0x84, 0xE4]),
    GivesNone,
    Tells(Answer(4), Done(Posted::D2h, 0x20)),
    Gives(2, &[0x27, 0x84, 0xE4]),
    Tells(
        Twenty([
            0x34, 1, 0x58, 0, 0, 0, 0, 0, 0, 0, 0, 0, 0, 0, 0, 0, 0, 0, 0, 0,
        ]),
        Done(Posted::D2h, 8),
    ),
    Queues(1, 0, 0xE4),
    GivesNone,
    Takes(Answer(1)),
    Gives(3, &[0x27, 0x81, 0xE4]),
    Starts,
    Queues(15, 1, 0xE4),
    Gives(0, &[0x27, 0x8F, 0xE4]),
    Queues(15, 0, 0),
    Gives(1, &[0x27, 0x0F, 0]),
    IsResetting(15, true),
    Shows(0x38, 2),
    Flushes(15, 2),
    IsResetting(15, false),
    Starts,
    Resets(3),
    Queues(3, 2, 0xE4),
    GivesNone,
    Takes(Twenty([
        0x34, 3, 0x50, 1, 1, 0, 0, 0, 0, 0, 0, 0, 1, 0, 0, 0, 0, 0, 0, 0,
    ])),
    Gives(1, &[0x27, 0x83, 0xE4]),
    Queues(4, 0, 0xE4),
    Tells(Four([0x39, 0x0F, 0, 0]), Stops(PortCause::BadControl)),
    GivesNone,
    Starts,
    Moves(2, 0, 0x61, 1),
    Gives(0, &[0x27, 0x82, 0x61]),
    Takes(Answer(2)),
    Takes(Setup(2, false, 0, 0, 512)),
    Takes(Four([0x39, 2, 0, 0])),
    Spoils(0x208C, 0xFD),
    GivesNone,
    Shows(0x10, 0x2800_0000),
    Tells(Sector(2, 0), Ignored),
    Holds(0, 0x1000, 0),
];

#[test]
fn frames_go_out(rt: HostRuntime) {
    play(&rt, rt.alloc(), &FRAMES);
}

/// This runs with the fourth, fifth, and so on, allocation refused in turn (the first three are the
/// memory's). A frame for which memory was refused goes out at the next call, with its number, once.
static REFUSED_FRAMES: [Step; 11] = [
    Starts,
    Moves(2, 0, 0x61, 1),
    Queues(3, 1, 0xE4),
    Gives(0, &[0x27, 0x82, 0x61]),
    Gives(1, &[0x27, 0x83, 0xE4]),
    GivesNone,
    Takes(Answer(2)),
    Takes(Setup(2, false, 0, 0, 512)),
    Takes(Four([0x39, 2, 0, 0])),
    GivesSector(0, 0),
    GivesNone,
];

#[test]
fn refused_frames_go_out_later(rt: HostRuntime) {
    play(&rt, rt.alloc(), &REFUSED_FRAMES);
}
