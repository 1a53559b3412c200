//! From nothing to devices that take requests.

use super::steps::Step::{
    Flushes, Gives, Hears, Holds, IsUsed, Issues, Opens, PlugsDisks, Polls, PollsNone, Puts, Reads,
    Sent, Sets, Settles, Shows, Status, Submits, Ticks, Took, Writes,
};
use super::steps::{Step, assert_steps};
use hba_driver::{Driver, Outcome, SubmitError, Work};
use std::test::Fail;

/// The seven writes that open a port, whatever its registers showed, and then the first order.
static OPENING: [Step; 14] = [
    Sets(0, 0x400),
    Sets(4, 1),
    Sets(8, 0x3000),
    Sets(12, 1),
    Opens([0, 1, 0x3000, 1, 0xF000, 0x0040_0000, 0]),
    Opens([0, 0, 0x3000, 1, 0xF000, 0x0040_0000, 0]),
    Opens([0, 0, 0x1000, 1, 0xF000, 0x0040_0000, 0]),
    Opens([0, 0, 0x1000, 0, 0xF000, 0x0040_0000, 0]),
    Opens([0, 0, 0x1000, 0, 0xF001, 0x0040_0000, 0]),
    Opens([0, 0, 0x1000, 0, 0xF001, 0x0040_4010, 0]),
    Opens([0, 0, 0x1000, 0, 0xF001, 0x0042_C011, 0]),
    Ticks(true),
    Issues([0xFF01, 0, 0x8000_0000, 0]),
    Ticks(false),
];

#[test]
fn port_opens(rt: HostRuntime) -> Result<(), Fail> {
    assert_steps(&rt, rt.alloc(), Driver::new(), 1, &[&OPENING])
}

/// What the port sends until a disk at the one port of a multiplier is ready.
const SENT: [[u8; 20]; 10] = [
    // software reset of the multiplier
    [
        0x27, 0x0F, 0, 0, 0, 0, 0, 0, 0, 0, 0, 0, 0, 0, 0, 4, 0, 0, 0, 0,
    ],
    [
        0x27, 0x0F, 0, 0, 0, 0, 0, 0, 0, 0, 0, 0, 0, 0, 0, 0, 0, 0, 0, 0,
    ],
    // how many ports it has, which errors count, notifications
    [
        0x27, 0x8F, 0xE4, 2, 0, 0, 0, 0x0F, 0, 0, 0, 0, 0, 0, 0, 0, 0, 0, 0, 0,
    ],
    [
        0x27, 0x8F, 0xE8, 0x21, 0, 1, 4, 0x0F, 0, 0, 0, 0, 0, 0, 0, 0, 0, 0, 0, 0,
    ],
    [
        0x27, 0x8F, 0xE8, 0x60, 0, 0, 0, 0x0F, 0, 0, 0, 0, 8, 0, 0, 0, 0, 0, 0, 0,
    ],
    // port 0 is opened
    [
        0x27, 0x8F, 0xE8, 2, 0, 0, 0, 0, 0, 0, 0, 0, 0, 0, 0, 0, 0, 0, 0, 0,
    ],
    // the scan: the errors of port 0 are cleared, and a device is there
    [
        0x27, 0x8F, 0xE4, 0x20, 0, 0, 0, 0x0F, 0, 0, 0, 0, 0, 0, 0, 0, 0, 0, 0, 0,
    ],
    [
        0x27, 0x8F, 0xE8, 1, 0, 1, 4, 0, 0, 0, 0, 0, 0, 0, 0, 0, 0, 0, 0, 0,
    ],
    [
        0x27, 0x8F, 0xE4, 0, 0, 0, 0, 0, 0, 0, 0, 0, 0, 0, 0, 0, 0, 0, 0, 0,
    ],
    // IDENTIFY DEVICE
    [
        0x27, 0x80, 0xEC, 0, 0, 0, 0, 0, 0, 0, 0, 0, 0, 0, 0, 0, 0, 0, 0, 0,
    ],
];

/// What it takes in the meantime.
const TAKEN: [[u8; 20]; 12] = [
    // the multiplier's signature, its one port, two writes done
    [
        0x34, 0x4F, 0x50, 1, 1, 0x69, 0x96, 0, 0, 0, 0, 0, 1, 0, 0, 0, 0, 0, 0, 0,
    ],
    [
        0x34, 0x4F, 0x50, 0, 0, 0, 0, 0, 0, 0, 0, 0, 1, 0, 0, 0, 0, 0, 0, 0,
    ],
    [
        0x34, 0x4F, 0x50, 0, 0, 0, 0, 0, 0, 0, 0, 0, 0, 0, 0, 0, 0, 0, 0, 0,
    ],
    [
        0x34, 0x4F, 0x50, 0, 0, 0, 0, 0, 0, 0, 0, 0, 0, 0, 0, 0, 0, 0, 0, 0,
    ],
    // a notification, as the port opens, and the answer to its opening
    [
        0xA1, 0xCF, 0x50, 0, 0, 0, 0, 0, 0, 0, 0, 0, 0, 0, 0, 0, 0, 0, 0, 0,
    ],
    [
        0x34, 0x4F, 0x50, 0, 0, 0, 0, 0, 0, 0, 0, 0, 0, 0, 0, 0, 0, 0, 0, 0,
    ],
    // port 0 has an error, which is cleared; then the disk's signature comes through, and SStatus is 133h
    [
        0x34, 0x4F, 0x50, 0, 0, 0, 0, 0, 0, 0, 0, 0, 1, 0, 0, 0, 0, 0, 0, 0,
    ],
    [
        0x34, 0, 0x50, 1, 1, 0, 0, 0, 0, 0, 0, 0, 1, 0, 0, 0, 0, 0, 0, 0,
    ],
    [
        0x34, 0x4F, 0x50, 0, 0, 0, 0, 0, 0, 0, 0, 0, 0, 0, 0, 0, 0, 0, 0, 0,
    ],
    [
        0x34, 0x4F, 0x50, 0, 1, 0, 0, 0, 0, 0, 0, 0, 0x33, 0, 0, 0, 0, 0, 0, 0,
    ],
    // 512 bytes of identify data
    [
        0x5F, 0x60, 0x58, 0, 0, 0, 0, 0, 0, 0, 0, 0, 0, 0, 0, 0x50, 0, 2, 0, 0,
    ],
    [
        0x46, 0, 0, 0, 0, 0, 0, 0, 0, 0, 0, 0, 0, 0, 0, 0, 0, 0, 0, 0,
    ],
];

/// A disk at the one port is ready.
static READY: [Step; 5] = [
    PlugsDisks(1),
    Sent(&SENT),
    Took(&TAKEN),
    Ticks(false),
    Issues([0xF001, 0, 0, 0]),
];

/// A queued read and a queued write of one sector each, and what is sent for them.
const MOVED: [[u8; 20]; 3] = [
    [
        0x27, 0x80, 0x60, 1, 8, 0, 0, 0x40, 0, 0, 0, 0, 0, 0, 0, 0, 0, 0, 0, 0,
    ],
    [
        0x27, 0x80, 0x61, 1, 9, 0, 0, 0x40, 0, 0, 0, 0, 8, 0, 0, 0, 0, 0, 0, 0,
    ],
    [
        0x46, 0, 0, 0, 0xAB, 0xCD, 0, 0, 0, 0, 0, 0, 0, 0, 0, 0, 0, 0, 0, 0,
    ],
];

/// FLUSH CACHE EXT, and then a read of what was written.
const FLUSHED: [[u8; 20]; 2] = [
    [
        0x27, 0x80, 0xEA, 0, 0, 0, 0, 0, 0, 0, 0, 0, 0, 0, 0, 0, 0, 0, 0, 0,
    ],
    [
        0x27, 0x80, 0x60, 1, 9, 0, 0, 0x40, 0, 0, 0, 0, 0, 0, 0, 0, 0, 0, 0, 0,
    ],
];

/// A read into two places and a write, outstanding at once. Sector 8, as the disk opens, stands in
/// both places.
static MOVES: [Step; 13] = [
    Puts(0x10_2000, &[0xAB, 0xCD]),
    Submits(
        0,
        Work::Read,
        8,
        1,
        &[(0x10_1000, 300), (0x10_3000, 212)],
        Ok(1),
    ),
    Writes(0, 9, 0x10_2000, Ok(2)),
    IsUsed(0x10_112B, 1, true),
    IsUsed(0x10_112C, 0xED4, false),
    Settles,
    Sent(&MOVED),
    Polls(1, 0, Outcome::Done),
    Polls(2, 1, Outcome::Done),
    PollsNone,
    Holds(0x10_1000, [8, 9, 10, 11]),
    Holds(0x10_112A, [0x32, 0x33, 0, 0]),
    Holds(0x10_3000, [0x34, 0x35, 0x36, 0x37]),
];

/// A Flush, and a read of what was written.
static READS_BACK: [Step; 8] = [
    Flushes(0, Ok(3)),
    Settles,
    Polls(3, 0, Outcome::Done),
    Reads(0, 9, 0x10_4000, Ok(4)),
    Settles,
    Sent(&FLUSHED),
    Holds(0x10_4000, [0xAB, 0xCD, 0, 0]),
    Polls(4, 0, Outcome::Done),
];

#[test]
fn requests_are_done(rt: HostRuntime) -> Result<(), Fail> {
    let steps: [&[Step]; 3] = [&READY, &MOVES, &READS_BACK];
    assert_steps(&rt, rt.alloc(), Driver::new(), 1, &steps)
}

/// The signature of an ATA device.
pub(super) const ATA: &[u8] = &[
    0x34, 0x40, 0x50, 1, 1, 0, 0, 0, 0, 0, 0, 0, 1, 0, 0, 0, 0, 0, 0, 0,
];
/// 512 bytes come.
pub(super) const PIO: &[u8] = &[
    0x5F, 0x60, 0x58, 0, 0, 0, 0, 0, 0, 0, 0, 0, 0, 0, 0, 0x50, 0, 2, 0, 0,
];

/// The notification of the multiplier.
const NOTICE: &[u8] = &[0xA1, 0xCF, 0x50, 0, 0, 0, 0, 0];

/// Answers of the multiplier: the value 1, and 0.
const ONE: &[u8] = &[
    0x34, 0x4F, 0x50, 0, 0, 0, 0, 0, 0, 0, 0, 0, 1, 0, 0, 0, 0, 0, 0, 0,
];

const ZERO: &[u8] = &[
    0x34, 0x4F, 0x50, 0, 0, 0, 0, 0, 0, 0, 0, 0, 0, 0, 0, 0, 0, 0, 0, 0,
];

/// A write of device 0 is done, another is issued, and one of device 1 and one of device 0 wait. Then
/// a notification comes.
static QUEUE: [Step; 10] = [
    PlugsDisks(2),
    Writes(0, 1, 0x10_2000, Ok(1)),
    Settles,
    Status(0x50),
    Writes(0, 2, 0x10_2000, Ok(2)),
    Writes(1, 2, 0x10_2000, Ok(3)),
    Writes(0, 2, 0x10_2000, Ok(4)),
    Gives([0x80, 0x61, 1]),
    Hears(NOTICE),
    Issues([0xF001, 2, 2, 0x8000]),
];

/// The scan finds device 0, which is flushed.
static SCAN: [Step; 11] = [
    Gives([0x8F, 0xE4, 0x20]),
    Issues([0xFF01, 2, 0x8000_0002, 0]),
    Hears(ONE),
    Flushes(0, Err(SubmitError::QueueBusy)),
    Gives([0x8F, 0xE8, 1]),
    Issues([0xFF01, 0, 0x8000_0000, 0]),
    Status(0),
    Flushes(0, Err(SubmitError::NoDevice)),
    Hears(ZERO),
    Gives([0x8F, 0xE4, 0]),
    Hears(ZERO),
];

/// The requests of device 0 that had not ended end as removed, and the other device goes on.
static END: [Step; 8] = [
    Gives([0x81, 0x61, 1]),
    Issues([0xF101, 4, 4, 0]),
    Polls(1, 0, Outcome::Done),
    Polls(2, 1, Outcome::Removed),
    Polls(4, 3, Outcome::Removed),
    PollsNone,
    Flushes(0, Err(SubmitError::NoDevice)),
    Flushes(1, Err(SubmitError::QueueBusy)),
];

#[test]
fn device_is_removed(rt: HostRuntime) -> Result<(), Fail> {
    assert_steps(&rt, rt.alloc(), Driver::new(), 2, &[&QUEUE, &SCAN, &END])
}

/// The multiplier's signature, and another one in its place.
const MULTIPLIER: &[u8] = &[
    0x34, 0x4F, 0x50, 1, 1, 0x69, 0x96, 0, 0, 0, 0, 0, 1, 0, 0, 0, 0, 0, 0, 0,
];

const ANOTHER: &[u8] = &[
    0x34, 0x4F, 0x50, 1, 1, 0, 0, 0, 0, 0, 0, 0, 1, 0, 0, 0, 0, 0, 0, 0,
];

/// It refuses a command, although it was given none.
const REFUSED: &[u8] = &[
    0x34, 0x4F, 0x51, 4, 0, 0, 0, 0, 0, 0, 0, 0, 0, 0, 0, 0, 0, 0, 0, 0,
];

/// A FIS of device 0 that no device sends.
const WRONG: &[u8] = &[0x27, 0, 0, 0];

/// The multiplier and device 0 are reset at the same time. The device's signature comes last, so
/// PxSIG shows that one. The multiplier's signature stands in its own row.
static BOTH: [Step; 13] = [
    PlugsDisks(1),
    Hears(REFUSED),
    Hears(WRONG),
    Ticks(true),
    Ticks(true),
    Gives([0x0F, 0, 0]),
    Gives([0x0F, 0, 0]),
    Gives([0, 0, 0]),
    Gives([0, 0, 0]),
    Hears(MULTIPLIER),
    Hears(ATA),
    Shows(0x24, 0x101),
    Gives([0x8F, 0xE4, 2]),
];

/// After another signature the multiplier is reset again.
static AGAIN: [Step; 10] = [
    PlugsDisks(1),
    Hears(REFUSED),
    Ticks(true),
    Gives([0x0F, 0, 0]),
    Gives([0x0F, 0, 0]),
    Hears(ANOTHER),
    Gives([0x0F, 0, 0]),
    Gives([0x0F, 0, 0]),
    Hears(MULTIPLIER),
    Gives([0x8F, 0xE4, 2]),
];

#[test]
fn signature_of_the_multiplier(rt: HostRuntime) -> Result<(), Fail> {
    assert_steps(&rt, rt.alloc(), Driver::new(), 1, &[&BOTH])?;
    assert_steps(&rt, rt.alloc(), Driver::new(), 1, &[&AGAIN])
}
