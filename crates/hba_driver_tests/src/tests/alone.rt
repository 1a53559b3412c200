//! Command-based switching: one device at a time.

use super::steps::Step::{
    Faults, Flushes, Hears, Holds, Issues, Opens, PlugsDisks, Polls, PollsNone, Reads, Sets,
    Settles, Shows, Status, Submits, Ticks, Writes,
};
use super::steps::{Entries, Step, assert_steps};
use hba_driver::{Driver, Mode, Outcome, SubmitError, Work};
use std::test::Fail;

/// The seven writes that open a port: PxFBS.EN becomes 0. No device is chosen for the first order.
static OPENING: [Step; 10] = [
    Sets(0x40, 1),
    Opens([0, 0, 0, 0, 0xF001, 0x0040_0000, 0]),
    Opens([0, 0, 0, 0, 0xF001, 0x0040_0000, 0]),
    Opens([0, 0, 0x1000, 0, 0xF001, 0x0040_0000, 0]),
    Opens([0, 0, 0x1000, 0, 0xF001, 0x0040_0000, 0]),
    Opens([0, 0, 0x1000, 0, 0xF000, 0x0040_0000, 0]),
    Opens([0, 0, 0x1000, 0, 0xF000, 0x0040_4010, 0]),
    Opens([0, 0, 0x1000, 0, 0xF000, 0x0042_C011, 0]),
    Ticks(true),
    Issues([0xF000, 0, 0x8000_0000, 0]),
];

#[test]
fn port_opens(rt: HostRuntime) -> Result<(), Fail> {
    assert_steps(
        &rt,
        rt.alloc(),
        Driver::with_mode(Mode::CommandBased, 1),
        1,
        &[&OPENING],
    )
}

/// A sector.
const SECTOR: Entries = &[(0x10_3000, 512)];

/// A request waits for those of another device to end, though not to be polled. That is the last refusal. All
/// FISes are posted in row 0.
static IN_TURN: [Step; 20] = [
    PlugsDisks(2),
    Reads(0, 8, 0x10_1000, Ok(7)),
    Submits(1, Work::Read, 0, 0, SECTOR, Err(SubmitError::BadCount)),
    Reads(1, 9, 0x10_1000, Err(SubmitError::Overlap)),
    Reads(1, 9, 0x10_2000, Err(SubmitError::OtherDevice)),
    Flushes(1, Err(SubmitError::OtherDevice)),
    Writes(0, 3, 0x10_3000, Ok(8)),
    Settles,
    Status(0x50),
    Holds(0x10_1000, [8, 9, 10, 11]),
    Reads(1, 9, 0x10_2000, Ok(9)),
    Flushes(0, Err(SubmitError::OtherDevice)),
    Polls(7, 0, Outcome::Done),
    Polls(8, 1, Outcome::Done),
    PollsNone,
    Settles,
    Polls(9, 2, Outcome::Done),
    Holds(0x10_2000, [9, 10, 11, 12]),
    Shows(0x40, 0xF000),
    Flushes(0, Ok(10)),
];

#[test]
fn devices_take_turns(rt: HostRuntime) -> Result<(), Fail> {
    assert_steps(
        &rt,
        rt.alloc(),
        Driver::with_mode(Mode::CommandBased, 7),
        2,
        &[&IN_TURN],
    )
}

/// A fault of a device stops the port, and its requests end. Then the port starts again, and the device too.
static FAULT: [Step; 14] = [
    PlugsDisks(2),
    Sets(0x10, 0xFFFF_FFFF),
    Reads(1, 8, 0x10_1000, Ok(1)),
    Reads(1, 9, 0x10_2000, Ok(2)),
    Ticks(true),
    Hears(&[0x46, 1, 0, 0]),
    Shows(0x10, 0x0800_0000),
    Faults([0, 0]),
    Settles,
    Polls(1, 0, Outcome::PortError),
    Polls(2, 1, Outcome::PortError),
    Reads(0, 8, 0x10_1000, Ok(3)),
    Settles,
    Polls(3, 0, Outcome::Done),
];

/// So does a notification beside a command of a device: a scan could not be issued beside it.
static NOTICE: [Step; 9] = [
    Reads(0, 8, 0x10_1000, Ok(4)),
    Ticks(true),
    Hears(&[0xA1, 0xCF, 0x50, 0, 0, 0, 0, 0]),
    Issues([0xF000, 1, 1, 0x8000]),
    Settles,
    Polls(4, 0, Outcome::PortError),
    Reads(1, 8, 0x10_1000, Ok(5)),
    Settles,
    Polls(5, 0, Outcome::Done),
];

#[test]
fn faults_stop_the_port(rt: HostRuntime) -> Result<(), Fail> {
    assert_steps(
        &rt,
        rt.alloc(),
        Driver::with_mode(Mode::CommandBased, 0),
        2,
        &[&FAULT, &NOTICE],
    )
}
