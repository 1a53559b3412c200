//! What stops a port, or a device of it.

use super::rig::{BASE, BUFFER};
use super::sectors::{ACCEPTED, ACTIVATE, DONE, FROM_HOST, READ, SWITCHES, WRITE};
use super::starts::OPENS;
use super::steps::Step::{
    Alarms, Command, Entry, Hinders, IsSilent, Line, Misses, Reads, Refuses, Sends, Takes, Writes,
};
use super::steps::{Step, play};
use ahci_controller::{Hindrance, NotTaken};
use guest_fetch::Refusal;
use std::test::Fail;

static IS_BAD: [Step; 18] = [
    Command(0, 2, 1, READ),
    Entry(0, 0, BUFFER, 512),
    Writes(0x134, 1),
    Writes(0x138, 1),
    Sends(READ),
    Writes(0x138, 2),
    // a header whose FIS has no bytes
    Refuses(
        BASE + 32,
        "0000000000000000000000000000000000000000000000000000000000000000",
        NotTaken::Read(Refusal::FisLength { found: 0 }),
    ),
    Reads(0x138, 3),
    Reads(0x110, 0x800_0000),
    Line(true),
    Hinders(ACCEPTED, Hindrance::Failed),
    Writes(0x118, 0x2_0016),
    Reads(0x138, 0),
    // CLO for device 2, which was not heard
    Writes(0x140, 0x201),
    Writes(0x118, 0x2_001F),
    Writes(0x134, 1),
    Writes(0x138, 1),
    Sends(READ),
];

/// Such a command stops the port until ST falls. Its slot shows in PxCI.
#[test]
fn a_bad_command_stops_the_port(rt: HostRuntime) -> Result<(), Fail> {
    play(&rt, rt.alloc(), &[&OPENS, &SWITCHES, &IS_BAD])
}

static LIES_IN_NO_MEMORY: [Step; 17] = [
    Command(0, 2, 1, WRITE),
    Entry(0, 0, 0, 512),
    Writes(0x134, 1),
    Writes(0x138, 1),
    Sends(WRITE),
    Takes(ACCEPTED),
    IsSilent,
    Takes(FROM_HOST),
    IsSilent,
    Takes(ACTIVATE),
    Misses,
    Reads(0x110, 0x2800_0000),
    Reads(0x138, 1),
    IsSilent,
    Hinders(DONE, Hindrance::Failed),
    Writes(0x118, 0x2_0016),
    Reads(0x138, 0),
];

/// Bytes of a write that are not memory: a host bus error. Nothing goes on until ST falls.
#[test]
fn a_write_may_lie_in_no_memory(rt: HostRuntime) -> Result<(), Fail> {
    play(&rt, rt.alloc(), &[&OPENS, &SWITCHES, &LIES_IN_NO_MEMORY])
}

/// READ FPDMA QUEUED of one sector for device 3, tag 1.
const READ_3: &str = "2783600120000040000000000800000000000000";

static ISSUES_TWO: [Step; 12] = [
    Command(0, 2, 1, READ),
    Entry(0, 0, BUFFER, 512),
    Command(1, 3, 1, READ_3),
    Entry(1, 0, BUFFER + 0x200, 512),
    Writes(0x134, 3),
    Writes(0x138, 3),
    Sends(READ),
    Sends(READ_3),
    Takes(ACCEPTED),
    IsSilent,
    Takes("3403400000000000000000000000000000000000"),
    IsSilent,
];

/// As libahci serves it (ahci_error_intr, ahci_fbs_dec_intr). Each is shown with its cause.
static BOTH_FAIL: [Step; 22] = [
    Takes("A142414000000000"),
    IsSilent,
    Takes("A143414000000000"),
    IsSilent,
    Reads(0x110, 0x4000_0008),
    Writes(0x110, 0x4000_0008),
    Line(true),
    Writes(0x08, 1),
    Line(false),
    Reads(0x140, 0x2_F005),
    Alarms(0x140, 0x2_F007),
    Line(true),
    Reads(0x110, 0x4000_0000),
    Writes(0x110, 0x4000_0000),
    Reads(0x140, 0x3_F005),
    Writes(0x140, 0x3_F007),
    Reads(0x140, 0xF001),
    Line(true),
    Writes(0x08, 1),
    Line(false),
    Reads(0x134, 0),
    IsSilent,
];

/// Two devices fail before the first interrupt is served.
#[test]
fn both_disks_fail_at_once(rt: HostRuntime) -> Result<(), Fail> {
    play(
        &rt,
        rt.alloc(),
        &[&OPENS, &SWITCHES, &ISSUES_TWO, &BOTH_FAIL],
    )
}
