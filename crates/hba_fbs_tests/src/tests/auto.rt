//! DMA Setups with auto-activate.

use super::steps::Sent::{Answer, Bytes, Four};
use super::steps::Step::{Faults, Flushes, GivesNone, GivesOf, Moves, Starts, Takes, Tells};
use super::steps::Told::Heard;
use super::steps::{Sent, Step, play};
use port_errors::DeviceCause;
use rx_area::Posted;

/// A DMA Setup of device 2 for slot 0, towards the device, of 12,288 bytes, with A.
const SETUP: Sent = Bytes(&[
    0x41, 0x82, 0, 0, 0, 0, 0, 0, 0, 0, 0, 0, 0, 0, 0, 0, 0, 0, 0, 0, 0, 0x30, 0, 0, 0, 0, 0, 0,
]);

const ACTIVATE: Sent = Four([0x39, 2, 0, 0]);

/// Device 2 has answered the write of 24 sectors in slot 0, and set up all of them. The first Data goes at once, and
/// each later Data when a DMA Activate asks for it. A DMA Activate before that Data is one too many. A flush of the device ends
/// what its DMA Setup asked for. A flush of another device does not.
static AT_ONCE: [Step; 31] = [
    Starts,
    Moves(2, 0, 0x61, 24),
    GivesOf(0x27, 2, 20),
    Takes(Answer(2)),
    Takes(SETUP),
    GivesOf(0x46, 2, 8196),
    GivesNone,
    Tells(ACTIVATE, Heard(Posted::Nothing)),
    GivesOf(0x46, 2, 4100),
    GivesNone,
    Starts,
    Moves(2, 0, 0x61, 24),
    GivesOf(0x27, 2, 20),
    Takes(Answer(2)),
    Takes(SETUP),
    Faults(ACTIVATE, DeviceCause::Stray),
    GivesNone,
    Starts,
    Moves(2, 0, 0x61, 24),
    GivesOf(0x27, 2, 20),
    Takes(Answer(2)),
    Takes(SETUP),
    Flushes(3, 0),
    GivesOf(0x46, 2, 8196),
    Starts,
    Moves(2, 0, 0x61, 24),
    GivesOf(0x27, 2, 20),
    Takes(Answer(2)),
    Takes(SETUP),
    Flushes(2, 1),
    GivesNone,
];

#[test]
fn first_data_goes_at_once(rt: HostRuntime) {
    play(&rt, rt.alloc(), &AT_ONCE);
}
