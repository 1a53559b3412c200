//! What no clause says: values from outside, and that calls succeed.

mod steps;

use multiplier::{
    Passed, PmRefusal, control_frames_show_removals, frames_pass_in_order,
    goes_up_in_stamped_order, is_passed_over_at_most_fifteen_times,
    ports_that_forward_have_connections, waits_for_at_most_fifteen,
};
use pm_registers::{CONTROL_PORT, GSCR_SUMMARY, PSCR_ERROR, PSCR_STATUS};
use std::alloc::AllocError;
use steps::Step::{
    CannotGo, Comes, Drops, GivesDown, GivesDownNone, GivesUp, GivesUpNone, Goes, Has, HasNoRoom,
    Opens, OpensPort0, Passes, PutsBack, SendsUp, Shown, Turn, Writes,
};
use steps::{Step, play};

/// The queued read of one sector that the host sends to port 3.
const READ: &[u8] = &[
    0x27, 0x83, 0x60, 0x01, 0, 0x01, 0, 0x40, 0, 0, 0, 0, 0x28, 0, 0, 0, 0, 0, 0, 0,
];

/// The same with PM Port 0.
const READ_DOWN: &[u8] = &[
    0x27, 0x80, 0x60, 0x01, 0, 0x01, 0, 0x40, 0, 0, 0, 0, 0x28, 0, 0, 0, 0, 0, 0, 0,
];

/// The same to port 1.
const READ_OF_1: &[u8] = &[
    0x27, 0x81, 0x60, 0x01, 0, 0x01, 0, 0x40, 0, 0, 0, 0, 0x28, 0, 0, 0, 0, 0, 0, 0,
];

/// READ PORT MULTIPLIER of PSCR[0] of port 2.
const READ_STATUS: &[u8] = &[
    0x27, 0x8F, 0xE4, 0, 0, 0, 0, 0x02, 0, 0, 0, 0, 0, 0, 0, 0, 0, 0, 0, 0,
];

const ENABLE_NOTIFICATION: &[u8] = &[
    0x27, 0x8F, 0xE8, 0x60, 0, 0, 0, 0x0F, 0, 0, 0, 0, 0x08, 0, 0, 0, 0, 0, 0, 0,
];

const NOTIFICATION: &[u8] = &[0xA1, 0xCF, 0x50, 0, 0, 0, 0, 0];

/// Of four ports that are open to devices, with frames ready at 0, 1, 3 and Fh, and port 1 served last.
static CIRCLE: [Step; 16] = [
    Opens(4),
    SendsUp(1, true),
    Turn(1),
    SendsUp(0, true),
    SendsUp(1, true),
    SendsUp(3, true),
    Passes(READ_STATUS, Passed::Control),
    PutsBack,
    Turn(3),
    PutsBack,
    Turn(15),
    PutsBack,
    Turn(0),
    PutsBack,
    Turn(1),
    GivesUpNone,
];

#[test]
fn serves_in_a_circle(rt: HostRuntime) {
    play(&rt, rt.alloc(), &CIRCLE);
}

static GOES_DOWN: [Step; 4] = [
    Opens(4),
    Passes(READ, Passed::Down(3)),
    HasNoRoom(READ),
    GivesDown(3, 1, READ_DOWN),
];

#[test]
fn frames_go_down_with_pm_port_0(rt: HostRuntime) {
    play(&rt, rt.alloc(), &GOES_DOWN);
}

/// The status of port 2, at which is no device.
const STATUS_IS_4: &[u8] = &[
    0x34, 0x4F, 0x50, 0, 0, 0, 0, 0, 0, 0, 0, 0, 0x04, 0, 0, 0, 0, 0, 0, 0,
];

/// Port 0 is open from the start: the signature of its device goes up, and a frame with PM Port 0 goes down, though
/// nobody wrote a register. The other ports are closed.
static PORT_0: [Step; 8] = [
    OpensPort0(true),
    Comes(1, 1),
    SendsUp(0, true),
    SendsUp(1, true),
    Turn(0),
    GivesUpNone,
    Passes(READ_DOWN, Passed::Down(0)),
    Passes(READ, Passed::Dropped),
];

/// Where no device was there, port 0 drops.
static PORT_0_EMPTY: [Step; 2] = [OpensPort0(false), Passes(READ_DOWN, Passed::Dropped)];

#[test]
fn port_0_is_open_from_the_start(rt: HostRuntime) {
    play(&rt, rt.alloc(), &PORT_0);
    play(&rt, rt.alloc(), &PORT_0_EMPTY);
}

/// The notification of a device that came goes before the waiting answer, and has the later number.
static NOTICE_FIRST: [Step; 8] = [
    Writes(0, 2, 0),
    Passes(ENABLE_NOTIFICATION, Passed::Control),
    Turn(15),
    Passes(READ_STATUS, Passed::Control),
    Comes(0, 1),
    PutsBack,
    GivesUp(15, 3, NOTIFICATION),
    GivesUp(15, 2, STATUS_IS_4),
];

#[test]
fn a_notification_goes_first(rt: HostRuntime) {
    play(&rt, rt.alloc(), &NOTICE_FIRST);
}

/// Ports 1 and 2 lose their devices before the host is notified: there is one notification, which shows both
/// removals.
static TWO_REMOVALS: [Step; 9] = [
    Opens(4),
    Writes(CONTROL_PORT, 33, 0x0401_0000),
    Passes(ENABLE_NOTIFICATION, Passed::Control),
    Turn(15),
    Goes(1, 1),
    Goes(2, 1),
    Shown(NOTIFICATION, [0, 1, 1, 0]),
    GivesUpNone,
    Has(CONTROL_PORT, GSCR_SUMMARY, 6),
];

#[test]
fn two_removals_make_one_notification(rt: HostRuntime) {
    play(&rt, rt.alloc(), &TWO_REMOVALS);
}

/// An answer that waits while a device goes shows what was gone when it was made.
static SHOWN: [Step; 6] = [
    Opens(4),
    Passes(READ_STATUS, Passed::Control),
    Goes(2, 1),
    Shown(&[0x34], [0, 0, 0, 0]),
    Passes(READ_STATUS, Passed::Control),
    Shown(&[0x34], [0, 0, 1, 0]),
];

#[test]
fn an_answer_shows_what_was_gone_when_it_was_made(rt: HostRuntime) {
    play(&rt, rt.alloc(), &SHOWN);
}

/// Device 1 goes while devices 1 and 3 have frames in both directions.
static DROPPED: [Step; 12] = [
    Opens(4),
    SendsUp(1, true),
    SendsUp(3, true),
    Passes(READ, Passed::Down(3)),
    Passes(READ_OF_1, Passed::Down(1)),
    Goes(1, 1),
    Drops(1),
    SendsUp(1, false),
    Turn(3),
    GivesUpNone,
    GivesDownNone(1),
    GivesDown(3, 1, READ_DOWN),
];

#[test]
fn frames_of_a_device_that_went_are_dropped(rt: HostRuntime) {
    play(&rt, rt.alloc(), &DROPPED);
}

/// A frame for a port without a device is dropped, and counted.
static CLOSED: [Step; 2] = [Passes(READ, Passed::Dropped), Drops(1)];

#[test]
fn closed_ports_drop(rt: HostRuntime) {
    play(&rt, rt.alloc(), &CLOSED);
}

/// A port that opens finds what came and went while it was closed.
static EXCHANGED: [Step; 8] = [
    Comes(0, 1),
    Goes(0, 1),
    Comes(0, 2),
    Has(0, PSCR_ERROR, 0),
    Writes(0, 2, 0),
    Has(0, PSCR_ERROR, 0x0401_0000),
    Has(0, PSCR_STATUS, 0x133),
    CannotGo(0, 1),
];

#[test]
fn an_exchange_behind_a_closed_port_is_found(rt: HostRuntime) {
    play(&rt, rt.alloc(), &EXCHANGED);
}

#[test]
fn refusals_have_numbers_and_texts(rt: HostRuntime) -> Result<(), AllocError> {
    control_frames_show_removals();
    frames_pass_in_order();
    goes_up_in_stamped_order();
    is_passed_over_at_most_fifteen_times();
    ports_that_forward_have_connections();
    waits_for_at_most_fifteen();
    let text = format!(in rt.alloc(); "{}, {}", PmRefusal::HoldFull, PmRefusal::OutOfMemory)?;
    assert!(rt; text.as_str() == "hold full, out of memory");
    assert!(rt; PmRefusal::HoldFull as u8 == 1 && PmRefusal::OutOfMemory as u8 == 2);
    Ok(())
}
