//! Commands as Linux writes them: header, FIS and table of its own functions, of which some tables are shorter than their commands.

use super::rig::BASE;
use super::sectors::SWITCHES;
use super::starts::OPENS;
use super::steps::Step::{
    Command, Counts, Entry, IsSilent, Lies, LiesNowhere, Moves, Reads, Sends, Supplies, Takes,
    TakesData, Writes,
};
use super::steps::{Step, play};
use std::test::Fail;

/// READ FPDMA QUEUED of 22,367 sectors, tag 14, of PM Port 10.
const READ: &str = "278a605f9af2864088fbe5577000000800000000";

static ISSUES_A_READ: [Step; 10] = [
    Writes(0x134, 0x4000),
    Writes(0x138, 0x4000),
    Supplies(
        BASE + 0x1C0,
        "05a003000000000000ba00000000000000000000000000000000000000000000",
    ),
    Supplies(0xBA00, READ),
    Supplies(
        0xBA80,
        "9038100000000000000000009b310000821a110000000000000000005f9b0000500212000000000000000000ad370000",
    ),
    Sends(READ),
    Takes("340A400000000000000000000000000000000000"),
    IsSilent,
    // DMA Setup for all of it
    Takes("412A00000E00000000000000000000000000000000BEAE0000000000"),
    IsSilent,
];

static READS_WHAT_FITS: [Step; 8] = [
    TakesData(10, 8192),
    Moves(0x10_3890, 4, 8192),
    Counts(BASE + 0x1C4, 8192),
    TakesData(10, 8192),
    Moves(0x10_5890, 4, 4508),
    Moves(0x11_1A82, 4512, 3684),
    Counts(BASE + 0x1C4, 16384),
    Reads(0x110, 0),
];

static READS_MORE: [Step; 4] = [TakesData(10, 8192), IsSilent, TakesData(10, 8192), IsSilent];

static RUNS_OVER: [Step; 6] = [
    // the last 1,194 bytes of the table are filled
    TakesData(10, 8192),
    Moves(0x12_3554, 4, 1194),
    Counts(BASE + 0x1C4, 66730),
    // OFS with IFS, and PxCI shows it still
    IsSilent,
    Reads(0x110, 0x900_0000),
    Reads(0x134, 0x4000),
];

/// The table has 66,730 bytes.
#[test]
fn a_read_ends_with_its_table(rt: HostRuntime) -> Result<(), Fail> {
    play(
        &rt,
        rt.alloc(),
        &[
            &OPENS,
            &SWITCHES,
            &ISSUES_A_READ,
            &READS_WHAT_FITS,
            &READS_MORE,
            &READS_MORE,
            &READS_MORE,
            &RUNS_OVER,
        ],
    )
}

/// WRITE FPDMA QUEUED of 16,258 sectors, tag 1, of PM Port 0.
const WRITE: &str = "27806182ccbbe840b466623f0800000800000000";

static ISSUES_A_WRITE: [Step; 11] = [
    Writes(0x134, 2),
    Writes(0x138, 2),
    Supplies(
        BASE + 0x20,
        "4500040000000000002b00000000000000000000000000000000000000000000",
    ),
    Supplies(0x2B00, WRITE),
    Supplies(
        0x2B80,
        "7c3410000000000000000000e75100001c1c110000000000000000001f410000ba0f12000000000000000000b33a00002e1a130000000000000000002b660000",
    ),
    Sends(WRITE),
    Lies(1, 0, 0x10_347C, 8192),
    Lies(1, 16384, 0x10_747C, 4584),
    Lies(1, 20968, 0x11_1C1C, 8192),
    Lies(1, 78000, 0x13_7D22, 824),
    LiesNowhere(1, 78824),
];

#[test]
fn a_write_lies_in_its_table(rt: HostRuntime) -> Result<(), Fail> {
    play(&rt, rt.alloc(), &[&OPENS, &SWITCHES, &ISSUES_A_WRITE])
}

/// READ FPDMA QUEUED of 65,536 sectors, tag 0, of PM Port 2.
const LARGEST: &str = "2782600010000040000000000000000000000000";

static ISSUES_THE_LARGEST: [Step; 9] = [
    Command(0, 2, 8, LARGEST),
    Entry(0, 0, 0x2_0000_0000, 0x40_0000),
    Entry(0, 1, 0x2_0040_0000, 0x40_0000),
    Entry(0, 2, 0x2_0080_0000, 0x40_0000),
    Entry(0, 3, 0x2_00C0_0000, 0x40_0000),
    Entry(0, 4, 0x2_0100_0000, 0x40_0000),
    Entry(0, 5, 0x2_0140_0000, 0x40_0000),
    Entry(0, 6, 0x2_0180_0000, 0x40_0000),
    Entry(0, 7, 0x2_01C0_0000, 0x40_0000),
];

static IS_TAKEN: [Step; 6] = [
    Writes(0x134, 1),
    Writes(0x138, 1),
    Sends(LARGEST),
    Reads(0x110, 0),
    Lies(0, 0x1FF_E000, 0x2_01FF_E000, 0x2000),
    LiesNowhere(0, 0x200_0000),
];

/// 32 MiB, the most that a command moves.
#[test]
fn a_command_moves_65_536_sectors(rt: HostRuntime) -> Result<(), Fail> {
    play(
        &rt,
        rt.alloc(),
        &[&OPENS, &SWITCHES, &ISSUES_THE_LARGEST, &IS_TAKEN],
    )
}
