//! What no clause says: values from outside, and that calls succeed.

use super::pm_steps::Step::{
    Clears, Connects, Forwards, Inserts, IsDue, Opens, OpensPort0, Raises, Refuses, Removes, Shows,
    Writes,
};
use super::pm_steps::{Step, play};
use pm_registers::{
    CONTROL_PORT, DET_MASK, DET_OFFLINE, FEATURE_NOTIFICATION, GSCR_ENABLED, GSCR_MASK,
    GSCR_SUMMARY, PSCR_CONTROL, PSCR_ERROR, PSCR_STATUS, RegisterError, SERROR_F, SERROR_N,
    SERROR_X, STATUS_ESTABLISHED, registers_follow_calls,
};
use std::alloc::AllocError;

static OPENING: [Step; 16] = [
    Shows(15, 0, 0x1001_5241),
    Shows(15, 1, 0xE),
    Shows(15, 2, 4),
    Shows(15, 32, 0),
    Shows(15, 33, 0x0400_FFFF),
    Shows(15, 64, 8),
    Shows(15, 96, 0),
    Shows(0, 0, 4),
    Shows(0, 1, 0),
    Shows(0, 2, 4),
    Shows(3, 0, 4),
    Shows(3, 1, 0),
    Shows(3, 2, 4),
    IsDue(false),
    Forwards(0, false),
    Forwards(15, false),
];

#[test]
fn opens_as_the_table_says(rt: HostRuntime) {
    registers_follow_calls();
    play(&rt, rt.alloc(), &OPENING);
}

static ONES_CLEAR: [Step; 13] = [
    Writes(2, PSCR_CONTROL, 0),
    Shows(2, PSCR_STATUS, 0),
    Inserts(2),
    Forwards(2, false),
    Raises(2, 1),
    Shows(2, PSCR_ERROR, 0x0401_0001),
    Writes(2, PSCR_ERROR, 0x0401_0000),
    Shows(2, PSCR_ERROR, 1),
    Shows(2, PSCR_STATUS, 0x133),
    Forwards(2, true),
    Raises(2, SERROR_F),
    Shows(2, PSCR_ERROR, 0x0200_0001),
    Forwards(2, true),
];

#[test]
fn ones_clear_errors(rt: HostRuntime) {
    play(&rt, rt.alloc(), &ONES_CLEAR);
}

/// For software that knows no multipliers: it writes no register, and FISes pass a device that was there. Another
/// device is an exchange, at this port too.
static PORT_0: [Step; 16] = [
    OpensPort0(true),
    Shows(0, PSCR_STATUS, STATUS_ESTABLISHED),
    Shows(0, PSCR_ERROR, 0),
    Shows(0, PSCR_CONTROL, 0),
    Shows(1, PSCR_STATUS, DET_OFFLINE),
    Shows(1, PSCR_CONTROL, DET_OFFLINE),
    Shows(15, GSCR_SUMMARY, 0),
    Shows(15, GSCR_MASK, 0x0400_FFFF),
    Forwards(0, true),
    Forwards(1, false),
    Removes(0),
    Inserts(0),
    Shows(0, PSCR_ERROR, SERROR_N | SERROR_X),
    Forwards(0, false),
    Writes(0, PSCR_ERROR, SERROR_X),
    Forwards(0, true),
];

static PORT_0_EMPTY: [Step; 4] = [
    OpensPort0(false),
    Shows(0, PSCR_STATUS, 0),
    Shows(0, PSCR_CONTROL, 0),
    Forwards(0, false),
];

#[test]
fn port_0_is_open_from_the_start(rt: HostRuntime) {
    play(&rt, rt.alloc(), &PORT_0);
    play(&rt, rt.alloc(), &PORT_0_EMPTY);
}

static EXCHANGE: [Step; 18] = [
    Opens(1),
    Writes(0, PSCR_CONTROL, 0),
    Inserts(0),
    Writes(0, PSCR_ERROR, 0xFFFF_FFFF),
    Writes(0, PSCR_CONTROL, DET_OFFLINE),
    Shows(0, PSCR_STATUS, 4),
    Removes(0),
    Inserts(0),
    Shows(0, PSCR_STATUS, 4),
    Shows(0, PSCR_ERROR, 0),
    Writes(0, PSCR_CONTROL, 0),
    Shows(0, PSCR_STATUS, STATUS_ESTABLISHED),
    Shows(0, PSCR_ERROR, SERROR_N | SERROR_X),
    Forwards(0, false),
    Writes(0, PSCR_CONTROL, 0x301),
    Shows(0, PSCR_STATUS, 0),
    Writes(0, PSCR_CONTROL, DET_MASK),
    Shows(0, PSCR_CONTROL, 0xF),
];

#[test]
fn an_exchange_behind_a_closed_port_shows_as_it_opens(rt: HostRuntime) {
    play(&rt, rt.alloc(), &EXCHANGE);
}

static TWO_REMOVALS: [Step; 22] = [
    Connects(1),
    Connects(2),
    Writes(CONTROL_PORT, GSCR_MASK, 0x0401_0000),
    Writes(CONTROL_PORT, GSCR_ENABLED, 0xFFFF_FFFF),
    Shows(CONTROL_PORT, GSCR_ENABLED, FEATURE_NOTIFICATION),
    IsDue(false),
    Removes(1),
    Removes(2),
    Shows(CONTROL_PORT, GSCR_SUMMARY, 6),
    IsDue(true),
    Clears,
    IsDue(false),
    Shows(CONTROL_PORT, GSCR_SUMMARY, 6),
    Inserts(1),
    IsDue(false),
    Writes(CONTROL_PORT, GSCR_MASK, 0),
    Writes(CONTROL_PORT, GSCR_MASK, 0x0400_0000),
    Shows(CONTROL_PORT, GSCR_SUMMARY, 2),
    IsDue(true),
    Writes(CONTROL_PORT, GSCR_ENABLED, 0),
    Writes(CONTROL_PORT, GSCR_MASK, 0),
    IsDue(true),
];

#[test]
fn two_removals_make_one_notice(rt: HostRuntime) {
    play(&rt, rt.alloc(), &TWO_REMOVALS);
}

static REFUSED: [Step; 10] = [
    Refuses(9, 99, RegisterError::NoPort),
    Refuses(4, 0, RegisterError::NoPort),
    Refuses(16, 0, RegisterError::NoPort),
    Refuses(15, 3, RegisterError::NoRegister),
    Refuses(15, 99, RegisterError::NoRegister),
    Refuses(3, 3, RegisterError::NoRegister),
    Writes(CONTROL_PORT, GSCR_SUMMARY, 7),
    Writes(0, PSCR_STATUS, 7),
    Shows(CONTROL_PORT, GSCR_SUMMARY, 0),
    Shows(0, PSCR_STATUS, 4),
];

#[test]
fn refuses_ports_before_registers(rt: HostRuntime) -> Result<(), AllocError> {
    play(&rt, rt.alloc(), &REFUSED);
    let text = format!(in rt.alloc(); "{}, {}", RegisterError::NoPort, RegisterError::NoRegister)?;
    assert!(rt; text.as_str() == "no such port, no such register");
    assert!(rt; RegisterError::NoPort as u8 == 1 && RegisterError::NoRegister as u8 == 2);
    Ok(())
}
