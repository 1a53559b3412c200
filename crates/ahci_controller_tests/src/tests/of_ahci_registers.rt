//! Values from AHCI 1.3.1, and the orders in which libahci (Linux 6.1) reads and writes these registers.

mod steps;

use ahci_registers::{
    Capabilities, Detected, Effect, GlobalControl, LinkAction, PortCommand, PortInterrupts,
    Register, SataError, interrupts_follow_events, link_follows_writes,
};
use bitflags::Flags;
use steps::Cause::{Bits, Stopped, TaskFile, Unknown};
use steps::Step::{
    Acts, Causes, Detects, Ghc, Line, Links, Serr, Shows, Thaws, WritesGhc, WritesIs, WritesPxie,
    WritesPxis, WritesSerr,
};
use steps::{Step, play};

/// The offsets of AHCI 1.3.1, sections 3.1 and 3.3.
static OFFSETS: [(Register, u32); 22] = [
    (Register::Cap, 0x00),
    (Register::Ghc, 0x04),
    (Register::Is, 0x08),
    (Register::Pi, 0x0C),
    (Register::Vs, 0x10),
    (Register::Cap2, 0x24),
    (Register::PxClb, 0x100),
    (Register::PxClbu, 0x104),
    (Register::PxFb, 0x108),
    (Register::PxFbu, 0x10C),
    (Register::PxIs, 0x110),
    (Register::PxIe, 0x114),
    (Register::PxCmd, 0x118),
    (Register::PxTfd, 0x120),
    (Register::PxSig, 0x124),
    (Register::PxSsts, 0x128),
    (Register::PxSctl, 0x12C),
    (Register::PxSerr, 0x130),
    (Register::PxSact, 0x134),
    (Register::PxCi, 0x138),
    (Register::PxSntf, 0x13C),
    (Register::PxFbs, 0x140),
];

/// All bits of PxIS except DMPS and CPDS.
const ALL: u32 = 0x7DC0_007F;
/// DEF_PORT_IRQ of libahci: what it enables in PxIE at a port with a multiplier. OFS and INFS are not in it.
const DEF_PORT_IRQ: u32 = 0x78C0_007F;

/// Whether a register stands at its offset, and none at the bytes after that.
fn stands_at(register: Register, offset: u32) -> bool {
    Register::at(offset) == Some(register)
        && register.offset() == offset
        && Register::at(offset.wrapping_add(1)).is_none()
        && Register::at(offset.wrapping_add(2)).is_none()
}

static NO_REGISTERS: [u32; 12] = [
    0x14, 0x18, 0x1C, 0x20, 0x28, 0x2C, 0x11C, 0x144, 0x170, 0x180, 0x228, 0xF00,
];

#[test]
fn registers_stand_at_their_offsets(rt: HostRuntime) {
    for (register, offset) in &OFFSETS {
        assert!(rt; stands_at(*register, *offset), "{offset}");
    }
    for offset in &NO_REGISTERS {
        assert!(rt; Register::at(*offset).is_none(), "{offset}");
    }
}

/// The registers that never change.
fn are_fixed() -> bool {
    Register::Cap.fixed() == Some(0xE137_1F00)
        && Register::Pi.fixed() == Some(1)
        && Register::Vs.fixed() == Some(0x0001_0301)
        && Register::Cap2.fixed() == Some(0)
        && Register::Ghc.fixed().is_none()
}

/// All named bits. With NCS 31 and ISS 3 those of CAP are all of it.
fn are_named() -> bool {
    Capabilities::all().bits() == 0xE107_0000
        && GlobalControl::all().bits() == 0x8000_0003
        && PortCommand::all().bits() == 0x0042_C01F
        && SataError::all().bits() == 0x0601_0000
        && PortInterrupts::all().bits() == ALL
}

#[test]
fn constants_are_those_of_the_controller(rt: HostRuntime) {
    assert!(rt; are_fixed() && are_named());
}

/// PxIS reads 8 between the two causes, and that is written back.
static BETWEEN: [Step; 12] = [
    Line(false, 0),
    Causes(Bits, true),
    Line(true, 1),
    Shows(8),
    Causes(TaskFile, true),
    WritesPxis(8),
    Line(true, 1),
    Shows(0x4000_0000),
    WritesIs(1, true),
    WritesIs(0xFFFF_FFFE, false),
    WritesPxis(0x4000_0000),
    Line(false, 0),
];

#[test]
fn a_cause_between_read_and_clear_is_told_again(rt: HostRuntime) {
    play(&rt, &BETWEEN);
}

static FROZEN: [Step; 14] = [
    // ahci_freeze
    WritesPxie(0, false, 0),
    Causes(Stopped, false),
    Line(false, 0),
    Shows(0x0800_0000),
    Thaws,
    Shows(0),
    // what comes while it is frozen, and is not cleared, is told when PxIE is written
    WritesPxie(0, false, 0),
    Causes(Stopped, false),
    WritesPxie(u32::MAX, true, ALL),
    Line(true, 1),
    WritesGhc(0, false, false),
    Line(false, 1),
    WritesGhc(2, false, true),
    Ghc(0x8000_0002),
];

#[test]
fn a_frozen_port_is_silent(rt: HostRuntime) {
    play(&rt, &FROZEN);
}

static ERRORS: [Step; 13] = [
    Causes(Unknown, true),
    Shows(0x10),
    Serr(0x0200_0000),
    WritesPxis(u32::MAX),
    Shows(0x10),
    WritesIs(1, true),
    WritesSerr(0x0401_0000),
    Shows(0x10),
    Serr(0x0200_0000),
    WritesSerr(0x0200_0000),
    Shows(0),
    Serr(0),
    Line(false, 0),
];

#[test]
fn errors_stand_until_pxserr_is_written(rt: HostRuntime) {
    play(&rt, &ERRORS);
}

static HARD_RESET: [Step; 13] = [
    Links(0x133, 0),
    // frozen and stopped; then sata_link_hardreset: DET 1, with IPM 3, for a millisecond, and DET 0
    WritesPxie(0, false, 0),
    Acts(0x301, false, Effect::LinkReset, false),
    Links(0, 0x301),
    Serr(0x0001_0000),
    Detects(LinkAction::Comreset, Detected::NoDevice),
    Acts(0x301, false, Effect::Nothing, false),
    Acts(0x300, false, Effect::LinkUp, false),
    // PxSSTS is polled for DET 3, and PxSERR is written back
    Links(0x133, 0x300),
    Serr(0x0401_0000),
    Shows(0x0040_0040),
    WritesSerr(0x0401_0000),
    Thaws,
];

#[test]
fn a_hard_reset_shows_the_link(rt: HostRuntime) {
    play(&rt, &HARD_RESET);
}

static LEFT_ALONE: [Step; 7] = [
    Acts(0xFFFF_F321, true, Effect::Nothing, false),
    Links(0x133, 0x320),
    Acts(4, false, Effect::LinkReset, true),
    Links(4, 4),
    Detects(LinkAction::Disable, Detected::Offline),
    Acts(1, false, Effect::LinkReset, false),
    Acts(0, false, Effect::LinkUp, true),
];

#[test]
fn det_is_left_alone_while_st_is_1(rt: HostRuntime) {
    play(&rt, &LEFT_ALONE);
}

#[test]
fn laws_do_nothing() {
    interrupts_follow_events();
    link_follows_writes();
}
