//! Faults, and what becomes of the requests and the devices.

use super::rig::Unit;
use super::starting::{ATA, PIO};
use super::steps::Step::{
    Comes, ComesPage, Commands, Faults, Flushes, Hears, Holds, IsResetting, Plugs, PlugsDisks,
    Polls, PollsNone, Reads, Resets, Settles, Shows, Ticks, Until, Writes,
};
use super::steps::{Step, assert_steps};
use hba_driver::{Driver, Outcome, SubmitError};
use std::test::Fail;

/// Identify data with a queue of 32 in word 75, and queued commands in word 76.
const QUEUED: &[(usize, u8)] = &[(150, 31), (153, 1)];

/// A device whose frames the test makes becomes ready.
static MADE: [Step; 4] = [
    Plugs(0, Unit::Made),
    Comes(0, ATA),
    Comes(0, PIO),
    ComesPage(0, QUEUED),
];

/// An error of a queued command, and of any command.
const FAILED: &[u8] = &[0xA1, 0x40, 0x51, 4, 0, 0, 0, 0];

const REFUSED: &[u8] = &[
    0x34, 0x40, 0x51, 4, 0, 0, 0, 0, 0, 0, 0, 0, 0, 0, 0, 0, 0, 0, 0, 0,
];

/// Two writes wait or are issued, and one fails.
static FAILS: [Step; 6] = [
    Writes(0, 1, 0x10_2000, Ok(1)),
    Writes(0, 1, 0x10_2000, Ok(2)),
    Settles,
    Comes(0, FAILED),
    Commands(0, 0x2F, 1),
    PollsNone,
];

/// The device is reset, once: its requests are aborted, and it is ready once it is identified anew.
static RESET: [Step; 15] = [
    Resets(0, 1),
    Commands(0, 0xEC, 1),
    Polls(1, 0, Outcome::Aborted),
    Polls(2, 1, Outcome::Aborted),
    Ticks(false),
    IsResetting,
    Flushes(0, Err(SubmitError::Recovering)),
    Comes(0, REFUSED),
    Faults([0, 0]),
    Comes(0, ATA),
    Resets(0, 1),
    Commands(0, 0xEC, 2),
    Comes(0, PIO),
    ComesPage(0, QUEUED),
    Flushes(0, Ok(3)),
];

/// The bytes of the log do not add up to 0.
static SPOILT: [Step; 2] = [Comes(0, PIO), ComesPage(0, &[(0, 1), (2, 0x41)])];

#[test]
fn spoilt_log_leads_to_a_reset(rt: HostRuntime) -> Result<(), Fail> {
    let steps: [&[Step]; 4] = [&MADE, &FAILS, &SPOILT, &RESET];
    assert_steps(&rt, rt.alloc(), Driver::new(), 1, &steps)
}

/// The device fails the read of its log.
#[test]
fn second_fault_leads_to_a_reset(rt: HostRuntime) -> Result<(), Fail> {
    let steps: [&[Step]; 4] = [&MADE, &FAILS, &[Comes(0, REFUSED)], &RESET];
    assert_steps(&rt, rt.alloc(), Driver::new(), 1, &steps)
}

/// The log names a tag that no request has.
static UNKNOWN_TAG: [Step; 6] = [
    Comes(0, PIO),
    ComesPage(0, &[(0, 7), (2, 0x41), (511, 0xB8)]),
    Polls(1, 0, Outcome::Aborted),
    Polls(2, 1, Outcome::Aborted),
    Resets(0, 0),
    Flushes(0, Ok(3)),
];

#[test]
fn unknown_tag_aborts_all(rt: HostRuntime) -> Result<(), Fail> {
    let steps: [&[Step]; 3] = [&MADE, &FAILS, &UNKNOWN_TAG];
    assert_steps(&rt, rt.alloc(), Driver::new(), 1, &steps)
}

/// The task file that a device shows when it refuses a command.
const ABORTED: Outcome = Outcome::DeviceError {
    status: 0x51,
    error: 4,
};

/// A Flush fails: its log names no queued command, and it ends with the task file.
static FLUSH_FAILS: [Step; 7] = [
    Flushes(0, Ok(1)),
    Settles,
    Comes(0, REFUSED),
    Comes(0, PIO),
    ComesPage(0, &[(0, 0x80), (511, 0x80)]),
    Polls(1, 0, ABORTED),
    Flushes(0, Ok(2)),
];

#[test]
fn flush_ends_with_the_task_file(rt: HostRuntime) -> Result<(), Fail> {
    assert_steps(&rt, rt.alloc(), Driver::new(), 1, &[&MADE, &FLUSH_FAILS])
}

/// A DMA Activate of the multiplier.
const UNDUE: &[u8] = &[0x39, 0x0F, 0, 0];

/// Each of four devices reads, and the port is stopped by a fault.
static STOPS: [Step; 17] = [
    PlugsDisks(4),
    Reads(0, 3, 0x10_1000, Ok(1)),
    Reads(1, 3, 0x10_2000, Ok(2)),
    Reads(2, 3, 0x10_3000, Ok(3)),
    Reads(3, 3, 0x10_4000, Ok(4)),
    Until(None, &[0x41]),
    Hears(UNDUE),
    Faults([0x2000_0000, 0]),
    Ticks(true),
    Shows(0x18, 0x0042_4010),
    Shows(0x38, 0),
    Polls(1, 0, Outcome::PortError),
    Polls(2, 1, Outcome::PortError),
    Polls(3, 2, Outcome::PortError),
    Polls(4, 3, Outcome::PortError),
    Ticks(true),
    Ticks(true),
];

/// After that, all devices come back.
static COMES_BACK: [Step; 18] = [
    Shows(0x10, 0),
    Shows(0x18, 0x0042_C011),
    Settles,
    Resets(0, 1),
    Resets(1, 1),
    Resets(2, 1),
    Resets(3, 1),
    Reads(0, 7, 0x10_9000, Ok(5)),
    Reads(1, 7, 0x10_A000, Ok(6)),
    Reads(2, 7, 0x10_B000, Ok(7)),
    Reads(3, 7, 0x10_C000, Ok(8)),
    Settles,
    Polls(5, 0, Outcome::Done),
    Polls(6, 1, Outcome::Done),
    Polls(7, 2, Outcome::Done),
    Polls(8, 3, Outcome::Done),
    PollsNone,
    Holds(0x10_C000, [7, 8, 9, 10]),
];

#[test]
fn port_comes_back(rt: HostRuntime) -> Result<(), Fail> {
    assert_steps(&rt, rt.alloc(), Driver::new(), 4, &[&STOPS, &COMES_BACK])
}

/// The multiplier answers with an error. Its bring-up begins anew, and the device goes on.
static BEGINS_ANEW: [Step; 8] = [
    PlugsDisks(1),
    Hears(&[
        0x34, 0x4F, 0x51, 4, 0, 0, 0, 0, 0, 0, 0, 0, 0, 0, 0, 0, 0, 0, 0, 0,
    ]),
    Faults([0x4000_0000, 0xF_0004]),
    Flushes(0, Ok(1)),
    Settles,
    Resets(15, 2),
    Resets(0, 0),
    Polls(1, 0, Outcome::Done),
];

#[test]
fn multiplier_begins_anew(rt: HostRuntime) -> Result<(), Fail> {
    assert_steps(&rt, rt.alloc(), Driver::new(), 1, &[&BEGINS_ANEW])
}
