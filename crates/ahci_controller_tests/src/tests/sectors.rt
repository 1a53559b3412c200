//! Sectors that are read and written, with FIS-based switching.

use super::rig::{AREA, BASE, BUFFER};
use super::starts::OPENS;
use super::steps::Step::{
    Command, Ends, Entry, Fills, Hinders, Holds, Ignores, IsSilent, Line, Reads, Sends,
    SendsSector, Takes, TakesSector, Turns, Writes,
};
use super::steps::{Step, play};
use ahci_controller::{Edge, Hindrance};
use hba_fbs::Ignored;
use std::test::Fail;

/// READ FPDMA QUEUED of one sector for device 2, tag 0.
pub(super) const READ: &str = "2782600110000040000000000000000000000000";
/// WRITE FPDMA QUEUED of one sector for device 2, tag 0.
pub(super) const WRITE: &str = "2782610110000040000000000000000000000000";
/// Device 2 is ready for further commands.
pub(super) const ACCEPTED: &str = "3402400000000000000000000000000000000000";
/// DMA Setup of device 2 for 512 bytes of tag 0, to the host.
const SETUP: &str = "41220000000000000000000000000000000000000002000000000000";
/// The same from the host.
pub(super) const FROM_HOST: &str = "41020000000000000000000000000000000000000002000000000000";
/// DMA Activate of device 2.
pub(super) const ACTIVATE: &str = "39020000";
/// Tag 0 of device 2 is done.
pub(super) const DONE: &str = "A142400001000000";

/// With FIS-based switching.
pub(super) static SWITCHES: [Step; 3] = [
    Writes(0x118, 0x2_0016),
    Writes(0x140, 1),
    Writes(0x118, 0x2_0017),
];

static READS: [Step; 17] = [
    Command(0, 2, 2, READ),
    Entry(0, 0, BUFFER + 2, 4),
    Entry(0, 1, BUFFER + 0x1000, 508),
    Writes(0x134, 1),
    Writes(0x138, 1),
    Reads(0x138, 1),
    Sends(READ),
    // what the guest writes over it changes nothing
    Fills(BASE, 32, 0xFF),
    Takes(ACCEPTED),
    IsSilent,
    Takes(SETUP),
    IsSilent,
    TakesSector(2, 0xD5),
    IsSilent,
    Holds(BUFFER + 5, 0xD5),
    Holds(BUFFER + 6, 0),
    Holds(BUFFER + 0x11FB, 0xD5),
];

static IS_DONE: [Step; 9] = [
    Holds(BUFFER + 0x11FC, 0),
    // PRDBC
    Holds(BASE + 5, 2),
    Takes(DONE),
    IsSilent,
    Reads(0x138, 0),
    Reads(0x134, 0),
    Reads(0x110, 8),
    Line(true),
    Holds(AREA + 0x258, 0xA1),
];

#[test]
fn a_sector_is_read(rt: HostRuntime) -> Result<(), Fail> {
    play(&rt, rt.alloc(), &[&OPENS, &SWITCHES, &READS, &IS_DONE])
}

static WRITES: [Step; 22] = [
    Command(0, 2, 2, WRITE),
    Entry(0, 0, BUFFER + 2, 4),
    Entry(0, 1, BUFFER + 0x1000, 508),
    Writes(0x134, 1),
    Writes(0x138, 1),
    Sends(WRITE),
    // the guest's bytes are read as they go
    Fills(BUFFER + 2, 4, 0x11),
    Fills(BUFFER + 0x1000, 508, 0x22),
    Takes(ACCEPTED),
    IsSilent,
    Takes(FROM_HOST),
    IsSilent,
    Takes(ACTIVATE),
    SendsSector(2, 0x11, 0x22),
    // PRDBC is written before the end is seen
    Hinders(DONE, Hindrance::Writing),
    IsSilent,
    Holds(BASE + 4, 0),
    Holds(BASE + 5, 2),
    Takes(DONE),
    IsSilent,
    Reads(0x138, 0),
    Reads(0x134, 0),
];

#[test]
fn a_sector_is_written(rt: HostRuntime) -> Result<(), Fail> {
    play(&rt, rt.alloc(), &[&OPENS, &SWITCHES, &WRITES])
}

/// The header of slot 0 lies in memory, and its table does not.
static IS_IN_NO_MEMORY: [Step; 7] = [
    Command(0, 2, 2, READ),
    Fills(BASE + 12, 1, 0x7F),
    Writes(0x138, 1),
    IsSilent,
    Reads(0x138, 1),
    Reads(0x110, 0x2800_0000),
    Line(true),
];

#[test]
fn a_command_in_no_memory_stops_the_port(rt: HostRuntime) -> Result<(), Fail> {
    play(&rt, rt.alloc(), &[&OPENS, &SWITCHES, &IS_IN_NO_MEMORY])
}

/// An entry of 512 bytes with I.
const TOLD: u32 = 0x8000_0200;

static TELLS_ENTRIES_OF_A_READ: [Step; 13] = [
    Command(0, 2, 1, READ),
    Entry(0, 0, BUFFER, TOLD),
    Writes(0x134, 1),
    Writes(0x138, 1),
    Sends(READ),
    Takes(ACCEPTED),
    IsSilent,
    Takes(SETUP),
    IsSilent,
    Reads(0x110, 0),
    TakesSector(2, 0xD5),
    IsSilent,
    // DPS
    Reads(0x110, 0x20),
];

static TELLS_ENTRIES_OF_A_WRITE: [Step; 14] = [
    Command(1, 2, 1, "2782610110000040000000000800000000000000"),
    Entry(1, 0, BUFFER, TOLD),
    Turns(0x110, 0x20, Edge::Steady),
    Turns(0x008, 1, Edge::Falling),
    Takes(DONE),
    IsSilent,
    Writes(0x134, 2),
    Writes(0x138, 2),
    Sends("2782610110000040000000000800000000000000"),
    Takes(ACCEPTED),
    IsSilent,
    Takes("41020000010000000000000000000000000000000002000000000000"),
    IsSilent,
    Writes(0x110, 0xFFFF_FFFF),
];

static IS_TOLD_AS_IT_GOES: [Step; 5] = [
    Takes(ACTIVATE),
    Reads(0x110, 0),
    SendsSector(2, 0xD5, 0xD5),
    Reads(0x110, 0x20),
    Line(true),
];

#[test]
fn entries_tell_that_they_are_done(rt: HostRuntime) -> Result<(), Fail> {
    play(
        &rt,
        rt.alloc(),
        &[
            &OPENS,
            &SWITCHES,
            &TELLS_ENTRIES_OF_A_READ,
            &TELLS_ENTRIES_OF_A_WRITE,
            &IS_TOLD_AS_IT_GOES,
        ],
    )
}

static SAYS_WHY: [Step; 14] = [
    Command(0, 2, 1, READ),
    Entry(0, 0, BUFFER, 512),
    Command(3, 5, 1, "2785600110000040000000001800000000000000"),
    Entry(3, 0, BUFFER, 512),
    Writes(0x138, 1),
    Sends(READ),
    // an error of device 2
    Takes("3402410400000000000000000000000000000000"),
    IsSilent,
    Ignores(DONE, Ignored::DeviceFaulty),
    Writes(0x138, 8),
    // DEC ends what device 2 has
    Ends(0x140, 0x203, 1),
    // and ST all, also what is being read
    Ends(0x118, 0x2_0016, 8),
    Ignores(DONE, Ignored::Stopped),
    Ends(0x118, 0x2_0016, 0),
];

#[test]
fn calls_say_why(rt: HostRuntime) -> Result<(), Fail> {
    play(&rt, rt.alloc(), &[&OPENS, &SWITCHES, &SAYS_WHY])
}

/// READ DMA EXT of one sector for device 2, and for device 3.
const OF_2: &str = "2782250000000040000000000100000000000000";

const OF_3: &str = "2783250000000040000000000100000000000000";

static TAKES_TURNS: [Step; 15] = [
    // CLO: no signature has come
    Writes(0x118, 0x2_001F),
    Command(0, 2, 1, OF_2),
    Entry(0, 0, BUFFER, 512),
    Command(1, 3, 1, OF_3),
    Entry(1, 0, BUFFER + 0x200, 512),
    Writes(0x138, 3),
    Sends(OF_2),
    // that of device 3 waits
    IsSilent,
    TakesSector(2, 0xA2),
    IsSilent,
    Takes("3442500000000000000000000000000000000000"),
    Sends(OF_3),
    Reads(0x138, 2),
    TakesSector(3, 0xA3),
    Holds(BUFFER, 0xA2),
];

static THEN_THE_OTHER: [Step; 5] = [
    IsSilent,
    Holds(BUFFER + 0x200, 0xA3),
    Takes("3443500000000000000000000000000000000000"),
    IsSilent,
    Reads(0x138, 0),
];

/// With command-based switching a command waits for that of another device.
#[test]
fn devices_take_turns(rt: HostRuntime) -> Result<(), Fail> {
    play(&rt, rt.alloc(), &[&OPENS, &TAKES_TURNS, &THEN_THE_OTHER])
}
