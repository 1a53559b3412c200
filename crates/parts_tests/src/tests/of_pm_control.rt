//! What no clause says: the bytes of whole answers, and that calls succeed.

ghost use Rattle.std.specs.Prelude.{◌<◌};

use super::pm_steps::Step::{Answers, Connects, Notifies, Raises, Removes, Shows, Writes};
use super::pm_steps::{HOST, STAMP, Step, play};
use fis_view::{Frame, Stamp};
use pm_control::{PmControl, commands_are_answered};
use pm_registers::{
    CONTROL_PORT, GSCR_ENABLED, GSCR_MASK, GSCR_SUMMARY, PmRegisters, RegisterError,
};
use std::test::Fail;

const READ_STATUS: [u8; 20] = [
    0x27, 0x8F, 0xE4, 0, 0, 0, 0, 0x02, 0, 0, 0, 0, 0, 0, 0, 0, 0, 0, 0, 0,
];

const STATUS_IS_133: [u8; 20] = [
    0x34, 0x4F, 0x50, 0, 0x01, 0, 0, 0, 0, 0, 0, 0, 0x33, 0, 0, 0, 0, 0, 0, 0,
];

const CLEAR_ERROR: [u8; 20] = [
    0x27, 0x8F, 0xE8, 0x01, 0, 0x01, 0x04, 0x02, 0, 0, 0, 0, 0, 0, 0, 0, 0, 0, 0, 0,
];

const READ_ERROR: [u8; 20] = [
    0x27, 0x8F, 0xE4, 0x01, 0, 0, 0, 0x02, 0, 0, 0, 0, 0, 0, 0, 0, 0, 0, 0, 0,
];

const DONE: [u8; 20] = [
    0x34, 0x4F, 0x50, 0, 0, 0, 0, 0, 0, 0, 0, 0, 0, 0, 0, 0, 0, 0, 0, 0,
];

const ERROR_IS_1: [u8; 20] = [
    0x34, 0x4F, 0x50, 0, 0, 0, 0, 0, 0, 0, 0, 0, 0x01, 0, 0, 0, 0, 0, 0, 0,
];

const NO_PORT: [u8; 20] = [
    0x27, 0x8F, 0xE4, 0x63, 0, 0, 0, 0x09, 0, 0, 0, 0, 0, 0, 0, 0, 0, 0, 0, 0,
];

const NO_REGISTER: [u8; 20] = [
    0x27, 0x8F, 0xE4, 0x03, 0, 0, 0, 0x0F, 0, 0, 0, 0, 0, 0, 0, 0, 0, 0, 0, 0,
];

const IDENTIFY: [u8; 20] = [
    0x27, 0x8F, 0xEC, 0, 0, 0, 0, 0x0F, 0, 0, 0, 0, 0, 0, 0, 0, 0, 0, 0, 0,
];

const SRST_1: [u8; 20] = [
    0x27, 0x0F, 0, 0, 0, 0, 0, 0, 0, 0, 0, 0, 0, 0, 0, 0x04, 0, 0, 0, 0,
];

const SRST_0: [u8; 20] = [
    0x27, 0x0F, 0, 0, 0, 0, 0, 0, 0, 0, 0, 0, 0, 0, 0, 0, 0, 0, 0, 0,
];

const SIGNATURE: [u8; 20] = [
    0x34, 0x4F, 0x50, 0x01, 0x01, 0x69, 0x96, 0, 0, 0, 0, 0, 0x01, 0, 0, 0, 0, 0, 0, 0,
];

const NOTIFICATION: [u8; 8] = [0xA1, 0xCF, 0x50, 0, 0, 0, 0, 0];

/// Answers that refuse, with this Error.
const REFUSED_4: [u8; 20] = [
    0x34, 0x4F, 0x51, 4, 0, 0, 0, 0, 0, 0, 0, 0, 0, 0, 0, 0, 0, 0, 0, 0,
];

const REFUSED_5: [u8; 20] = [
    0x34, 0x4F, 0x51, 5, 0, 0, 0, 0, 0, 0, 0, 0, 0, 0, 0, 0, 0, 0, 0, 0,
];

const REFUSED_6: [u8; 20] = [
    0x34, 0x4F, 0x51, 6, 0, 0, 0, 0, 0, 0, 0, 0, 0, 0, 0, 0, 0, 0, 0, 0,
];

static READS_AND_WRITES: [Step; 8] = [
    Connects(2),
    Raises(2, 0x0401_0001),
    Answers(&READ_STATUS, &STATUS_IS_133),
    Answers(&CLEAR_ERROR, &DONE),
    Answers(&READ_ERROR, &ERROR_IS_1),
    Answers(&NO_PORT, &REFUSED_5),
    Answers(&NO_REGISTER, &REFUSED_6),
    Answers(&IDENTIFY, &REFUSED_4),
];

#[test]
fn reads_and_writes_registers(rt: HostRuntime) {
    commands_are_answered();
    play(&rt, rt.alloc(), &READS_AND_WRITES);
}

/// A Register FIS with SRST that is cut short is not heard.
static SOFTWARE_RESET: [Step; 9] = [
    Writes(CONTROL_PORT, GSCR_MASK, 1),
    Answers(&SRST_0, &[]),
    Answers(&SRST_1, &[]),
    Answers(
        &[0x27, 0x0F, 0, 0, 0, 0, 0, 0, 0, 0, 0, 0, 0, 0, 0, 0x04],
        &[],
    ),
    Answers(&[0xA1, 0x0F, 0, 0, 0, 0, 0, 0], &[]),
    Answers(&NO_PORT, &REFUSED_5),
    Answers(&SRST_0, &SIGNATURE),
    Answers(&SRST_0, &[]),
    Shows(CONTROL_PORT, GSCR_MASK, 1),
];

#[test]
fn a_software_reset_is_answered_once(rt: HostRuntime) {
    play(&rt, rt.alloc(), &SOFTWARE_RESET);
}

static TWO_REMOVALS: [Step; 10] = [
    Connects(1),
    Connects(2),
    Writes(CONTROL_PORT, GSCR_MASK, 0x0401_0000),
    Writes(CONTROL_PORT, GSCR_ENABLED, 8),
    Notifies(&[]),
    Removes(1),
    Removes(2),
    Notifies(&NOTIFICATION),
    Notifies(&[]),
    Shows(CONTROL_PORT, GSCR_SUMMARY, 6),
];

#[test]
fn two_removals_make_one_notification(rt: HostRuntime) {
    play(&rt, rt.alloc(), &TWO_REMOVALS);
}

/// The bytes of a FIS for the control port, which vary with the number: in turn a read, a write, another
/// command, and the Device Control register.
fn varied(i: u32) -> [u8; 20] {
    let [a, b, c, d] = i.wrapping_mul(0x9E37_79B1).to_le_bytes();
    let (head, command) = match i % 4 {
        0 => (0x8F, 0xE4),
        1 => (0x8F, 0xE8),
        2 => (0x8F, a),
        _ => (0x0F, a),
    };
    [
        0x27,
        head,
        command,
        b & 0x63,
        c,
        d,
        a,
        d,
        0,
        0,
        0,
        a & 1,
        b,
        0,
        0,
        c,
        0,
        0,
        0,
        0,
    ]
}

/// A due notification of a port, of any bits that GSCR\[33\] lets through.
fn raised(n: u8, bits: u32) -> Result<PmRegisters, RegisterError>
    requires { n < 15 }
{
    let mut registers = PmRegisters::new(15);
    registers.write(CONTROL_PORT, GSCR_ENABLED, 8)?;
    registers.write(CONTROL_PORT, GSCR_MASK, bits)?;
    registers.raise(n, bits);
    Ok(registers)
}

/// Memory that exists is found: 10,000 varied requests and notifications are answered without a refusal of
/// memory.
#[test]
fn finds_memory_that_is_there(rt: HostRuntime) -> Result<(), Fail> {
    let alloc = rt.alloc();
    let mut control = PmControl::new();
    let mut made = 0u32;
    for i in 0..10_000u32 {
        let bits = i.wrapping_mul(0x85EB_CA6B) | 1;
        let mut registers = raised((i % 15) as u8, bits)?;
        let stamp = Stamp {
            conn: bits,
            number: i,
            ..STAMP
        };
        if PmControl::notice(alloc, &mut registers, stamp)?.is_some() {
            made = made.saturating_add(1);
        }
        let frame = Frame::from_bytes(alloc, &varied(i), HOST)?;
        control.answer(alloc, &mut registers, &frame, stamp)?;
    }
    assert!(rt; made == 10_000);
    Ok(())
}
