//! Registers as a driver finds them, and what is held until it may be.

use super::sectors::{READ, SWITCHES};
use super::starts::OPENS;
use super::steps::Step::{Command, Entry, IsSilent, Links, Reads, Sends, Writes};
use super::steps::{Step, play};
use ahci_registers::Effect;
use std::test::Fail;

static AT_FIRST: [Step; 9] = [
    Reads(0x00, 0xE137_1F00),
    Reads(0x04, 0x8000_0000),
    Reads(0x0C, 1),
    Reads(0x10, 0x1_0301),
    Reads(0x118, 0x40_0006),
    Reads(0x128, 0x133),
    Reads(0x140, 0xF000),
    // no registers
    Reads(0x14, 0),
    Reads(0x101, 0),
];

static HOLDS: [Step; 24] = [
    Writes(0x100, 0x63FF),
    Writes(0x108, 0x64FF),
    Writes(0x138, 1),
    Writes(0x134, 1),
    Writes(0x300, 1),
    Reads(0x100, 0x6000),
    Reads(0x108, 0x6400),
    Reads(0x138, 0),
    Reads(0x134, 0),
    // ST without FRE
    Writes(0x118, 1),
    Reads(0x118, 0x40_0007),
    // ST is held until the signature, or CLO
    Writes(0x118, 0x11),
    Reads(0x118, 0x40_4017),
    Writes(0x118, 0x19),
    Reads(0x118, 0x40_C017),
    // FR falls with FRE, and EN stays until ST falls
    Writes(0x118, 1),
    Reads(0x118, 0x40_8007),
    Writes(0x140, 0x301),
    Reads(0x140, 0xF300),
    Links(0x04, 3, Effect::LinkReset),
    Reads(0x04, 0x8000_0000),
    Reads(0x118, 0x40_0006),
    Reads(0x140, 0xF000),
    Reads(0x100, 0x6000),
];

#[test]
fn registers_read_as_the_standard_says(rt: HostRuntime) -> Result<(), Fail> {
    play(&rt, rt.alloc(), &[&AT_FIRST, &HOLDS])
}

static ISSUES: [Step; 7] = [
    Command(0, 2, 1, READ),
    Entry(0, 0, 0x2000, 512),
    Writes(0x134, 1),
    Writes(0x140, 0x201),
    Writes(0x138, 1),
    Sends(READ),
    Reads(0x138, 1),
];

static RESETS_THE_LINK: [Step; 14] = [
    // while ST is 1 DET stays
    Writes(0x12C, 0x301),
    Reads(0x12C, 0x300),
    Reads(0x128, 0x133),
    Writes(0x118, 0x2_0016),
    Links(0x12C, 0x301, Effect::LinkReset),
    Reads(0x138, 0),
    Reads(0x134, 0),
    Links(0x12C, 0x300, Effect::LinkUp),
    Reads(0x130, 0x401_0000),
    Reads(0x124, 0xFFFF_FFFF),
    Reads(0x140, 0xF201),
    Writes(0x130, 0xFFFF_FFFF),
    Reads(0x130, 0),
    IsSilent,
];

#[test]
fn a_comreset_leaves_no_command(rt: HostRuntime) -> Result<(), Fail> {
    play(
        &rt,
        rt.alloc(),
        &[&OPENS, &SWITCHES, &ISSUES, &RESETS_THE_LINK],
    )
}
