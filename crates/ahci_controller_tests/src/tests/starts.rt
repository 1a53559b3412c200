//! What firmware and boot loaders do at their start.

use super::rig::{AREA, BASE, BUFFER};
use super::steps::Step::{
    Command, Ends, Entry, Gets, Hinders, Holds, IsSilent, Line, Links, Puts, Reads, Sends, Takes,
    TakesSector, Writes,
};
use super::steps::{Step, play};
use ahci_controller::{Hindrance, Width};
use ahci_registers::Effect;
use std::test::Fail;

/// The signature of an ATA device.
const SIGNATURE: &str = "3400500101000000000000000100000000000000";
/// IDENTIFY DEVICE.
const IDENTIFY: &str = "2780EC0000000000000000000000000000000000";
/// PIO Setup for 512 bytes to the host, with I; Status 58h, E_Status 50h.
const PIO: &str = "5F60580000000000000000000000005000020000";

/// The addresses, with FRE and without ST.
pub(super) static OPENS: [Step; 8] = [
    Reads(0x120, 0x7F),
    Reads(0x124, 0xFFFF_FFFF),
    Writes(0x004, 2),
    Writes(0x100, 0),
    Writes(0x104, 1),
    Writes(0x108, 0x1000),
    Writes(0x10C, 1),
    Writes(0x114, 0xFFFF_FFFF),
];

static WAITS_FOR_A_SIGNATURE: [Step; 12] = [
    // while FRE is 0 it waits
    Hinders(SIGNATURE, Hindrance::NotReceiving),
    Writes(0x118, 0x16),
    Reads(0x118, 0x40_4016),
    Takes(SIGNATURE),
    // it is posted before the next one is taken
    Hinders(SIGNATURE, Hindrance::Writing),
    IsSilent,
    Holds(AREA + 0x40, 0x34),
    Holds(AREA + 0x42, 0x50),
    Reads(0x124, 0x101),
    Reads(0x120, 0x150),
    Writes(0x118, 0x17),
    Reads(0x118, 0x40_C017),
];

static IDENTIFIES: [Step; 13] = [
    Command(0, 0, 1, IDENTIFY),
    Entry(0, 0, BUFFER, 512),
    Writes(0x138, 1),
    Reads(0x138, 1),
    Sends(IDENTIFY),
    IsSilent,
    Reads(0x120, 0x1D0),
    Takes(PIO),
    IsSilent,
    TakesSector(0, 0xD5),
    IsSilent,
    Holds(BUFFER + 511, 0xD5),
    Holds(BUFFER + 512, 0),
];

static IS_DONE: [Step; 10] = [
    // PRDBC
    Holds(BASE + 4, 0),
    Holds(BASE + 5, 2),
    Reads(0x138, 0),
    Reads(0x120, 0x50),
    Line(true),
    Writes(0x110, 0xFFFF_FFFF),
    // IS keeps what came
    Line(true),
    Reads(0x008, 1),
    Writes(0x008, 1),
    Line(false),
];

/// UEFI waits for PxSIG before it sets ST.
#[test]
fn a_signature_comes_before_the_start(rt: HostRuntime) -> Result<(), Fail> {
    play(
        &rt,
        rt.alloc(),
        &[&OPENS, &WAITS_FOR_A_SIGNATURE, &IDENTIFIES, &IS_DONE],
    )
}

static CLEARS_FRE_WHILE_STARTED: [Step; 10] = [
    Writes(0x118, 0x16),
    Takes(SIGNATURE),
    IsSilent,
    Writes(0x118, 0x17),
    Reads(0x118, 0x40_C017),
    Writes(0x118, 0x07),
    Reads(0x118, 0x40_8007),
    Writes(0x118, 0x06),
    Reads(0x118, 0x40_0006),
    Writes(0x118, 0x17),
];

static ARMS_A_COMMAND_THAT_IS_NOT_QUEUED: [Step; 6] = [
    Command(0, 0, 1, IDENTIFY),
    Entry(0, 0, BUFFER, 512),
    Writes(0x134, 1),
    Writes(0x138, 1),
    Sends(IDENTIFY),
    Reads(0x134, 1),
];

/// GRUB clears FRE while ST is 1, and sets a bit of PxSACT for IDENTIFY.
#[test]
fn a_boot_loader_starts(rt: HostRuntime) -> Result<(), Fail> {
    play(
        &rt,
        rt.alloc(),
        &[
            &OPENS,
            &CLEARS_FRE_WHILE_STARTED,
            &ARMS_A_COMMAND_THAT_IS_NOT_QUEUED,
        ],
    )
}

static RESETS_THE_LINK: [Step; 11] = [
    Writes(0x118, 0x16),
    Takes(SIGNATURE),
    IsSilent,
    Links(0x12C, 0x301, Effect::LinkReset),
    Reads(0x128, 0),
    Reads(0x120, 0x7F),
    Hinders(SIGNATURE, Hindrance::LinkDown),
    Links(0x12C, 0x300, Effect::LinkUp),
    Reads(0x120, 0x80),
    Takes(SIGNATURE),
    Reads(0x120, 0x150),
];

#[test]
fn a_comreset_ends_with_a_signature(rt: HostRuntime) -> Result<(), Fail> {
    play(&rt, rt.alloc(), &[&OPENS, &RESETS_THE_LINK])
}

// ST and FRE at once, before the signature. ST is held, and so is a command whose bit is set.
static STARTS_TOO_EARLY: [Step; 15] = [
    Writes(0x118, 0x17),
    Reads(0x118, 0x40_4017),
    IsSilent,
    Command(0, 0, 1, IDENTIFY),
    Entry(0, 0, BUFFER, 512),
    Writes(0x138, 1),
    Reads(0x138, 1),
    IsSilent,
    Takes(SIGNATURE),
    Reads(0x120, 0x150),
    Reads(0x124, 0x101),
    Sends(IDENTIFY),
    Reads(0x118, 0x40_C017),
    Reads(0x138, 1),
    Takes(PIO),
];

// A command that waits for ST ends as ST falls.
static STOPS_TOO_EARLY: [Step; 7] = [
    Writes(0x118, 0x17),
    Ends(0x138, 3, 0),
    Reads(0x138, 3),
    Ends(0x118, 0x16, 3),
    Reads(0x138, 0),
    Takes(SIGNATURE),
    IsSilent,
];

/// U-Boot writes ST and FRE at once after a reset of the controller, and then waits for the signature.
#[test]
fn a_start_waits_for_the_signature(rt: HostRuntime) -> Result<(), Fail> {
    play(&rt, rt.alloc(), &[&OPENS, &STARTS_TOO_EARLY])?;
    play(&rt, rt.alloc(), &[&OPENS, &STOPS_TOO_EARLY])
}

static WIDTHS: [Step; 12] = [
    Gets(0x100, Width::Qword, 0x1_0000_0000),
    Puts(0x100, Width::Qword, 0x2_0000_8400),
    Reads(0x100, 0x8400),
    Reads(0x104, 2),
    Puts(0x101, Width::Byte, 0x88),
    Reads(0x100, 0x8800),
    Puts(0x114, Width::Word, 0x7),
    Reads(0x114, 0x7DC0_0007),
    Gets(0x116, Width::Word, 0x7DC0),
    Gets(0x117, Width::Byte, 0x7D),
    // it crosses eight bytes
    Gets(0x106, Width::Dword, 0),
    Gets(0x000, Width::Word, 0x1F00),
];

#[test]
fn registers_have_all_widths(rt: HostRuntime) -> Result<(), Fail> {
    play(&rt, rt.alloc(), &[&OPENS, &WIDTHS])
}

/// Signatures as Linux classifies them: of a zoned disk, and of a port multiplier.
static SHOWS_SIGNATURES: [Step; 10] = [
    Writes(0x118, 0x16),
    Takes("3400500101CDAB00000000000100000000000000"),
    IsSilent,
    Reads(0x124, 0xABCD_0101),
    // only the first one after a reset counts
    Takes(SIGNATURE),
    IsSilent,
    Reads(0x124, 0xABCD_0101),
    Links(0x004, 1, Effect::LinkReset),
    Writes(0x118, 0x16),
    Takes("3400500101699600000000000100000000000000"),
];

/// Task files as the emulator's own devices send them.
static SHOWS_TASK_FILES: [Step; 14] = [
    IsSilent,
    Reads(0x124, 0x9669_0101),
    Takes("344051045aeb882ec9f653003bc9000000000000"),
    IsSilent,
    Reads(0x120, 0x451),
    Takes("3400d0009abf322876548200f1ab000000000000"),
    IsSilent,
    Reads(0x120, 0xD0),
    Takes("3440990452f7a368f19caa00681b000000000000"),
    IsSilent,
    Reads(0x120, 0x499),
    Takes("3400503c42b323c7e9152b00ea06000000000000"),
    IsSilent,
    Reads(0x120, 0x3C50),
];

#[test]
fn registers_show_what_devices_send(rt: HostRuntime) -> Result<(), Fail> {
    play(
        &rt,
        rt.alloc(),
        &[&OPENS, &SHOWS_SIGNATURES, &SHOWS_TASK_FILES],
    )
}
