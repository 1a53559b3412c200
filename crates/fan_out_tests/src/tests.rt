//! What no clause says: values from outside, and that calls succeed.

mod steps;

use fan_out::{
    NotThere, PlugError, a_renewed_fan_is_empty, a_reset_ends_the_connection, fans_pass_in_order,
};
use multiplier::Passed;
use std::alloc::AllocError;
use steps::Step::{
    Begins, CannotPlug, CannotPull, Down, HasNoRoom, Multiplied, NoneBegins, NoneDown, NoneUp,
    Offers, Plugs, Pulls, Renews, Sends, Straight, Up, Wants, Writes,
};
use steps::{Step, Taken, play};

/// READ FPDMA QUEUED of a sector, to PM Port 0, and what a disk answers at once: Register Device to Host, Status 40h.
const READ: &[u8] = &[
    0x27, 0x80, 0x60, 0x01, 0, 0x01, 0, 0x40, 0, 0, 0, 0, 0x28, 0, 0, 0, 0, 0, 0, 0,
];

const READY: &[u8] = &[
    0x34, 0x00, 0x40, 0, 0, 0, 0, 0, 0, 0, 0, 0, 0, 0, 0, 0, 0, 0, 0, 0,
];

/// Device Control with SRST set, to PM Port 15, and as a device sees it.
const RESET: &[u8] = &[
    0x27, 0x0F, 0, 0, 0, 0, 0, 0, 0, 0, 0, 0, 0, 0, 0, 0x04, 0, 0, 0, 0,
];

const RESET_DOWN: &[u8] = &[
    0x27, 0x00, 0, 0, 0, 0, 0, 0, 0, 0, 0, 0, 0, 0, 0, 0x04, 0, 0, 0, 0,
];

/// The signature of a disk, as it sends it and as the host takes it from PM Port 15, from port 0 and from port 2.
const SIGNATURE: &[u8] = &[
    0x34, 0x00, 0x50, 0x01, 0x01, 0, 0, 0, 0, 0, 0, 0, 0x01, 0, 0, 0, 0, 0, 0, 0,
];

const SIGNATURE_OF_15: &[u8] = &[
    0x34, 0x0F, 0x50, 0x01, 0x01, 0, 0, 0, 0, 0, 0, 0, 0x01, 0, 0, 0, 0, 0, 0, 0,
];

const SIGNATURE_OF_2: &[u8] = &[
    0x34, 0x02, 0x50, 0x01, 0x01, 0, 0, 0, 0, 0, 0, 0, 0x01, 0, 0, 0, 0, 0, 0, 0,
];

/// READ FPDMA QUEUED, to PM Port 2.
const READ_OF_2: &[u8] = &[
    0x27, 0x82, 0x60, 0x01, 0, 0x01, 0, 0x40, 0, 0, 0, 0, 0x28, 0, 0, 0, 0, 0, 0, 0,
];

/// A command and its answer. What the host asks at port 15 is answered from there.
static STRAIGHT: [Step; 18] = [
    Straight,
    Sends(READ, Passed::Dropped),
    Plugs(0),
    Begins(0),
    NoneBegins,
    Wants(0, true),
    Sends(READ, Passed::Down(0)),
    HasNoRoom(READ),
    Down(0, READ),
    NoneDown(0),
    Offers(0, READY, Taken::Held),
    Wants(0, false),
    Offers(0, READY, Taken::Back),
    Up(1, 0, READY),
    Sends(RESET, Passed::Down(0)),
    Down(0, RESET_DOWN),
    Offers(0, SIGNATURE, Taken::Held),
    Up(1, 1, SIGNATURE_OF_15),
];

/// A FIS that was sent before the host asked at port 15 has the PM Port of the one before.
static SENT_BEFORE: [Step; 7] = [
    Straight,
    Plugs(0),
    Offers(0, SIGNATURE, Taken::Held),
    Sends(RESET, Passed::Down(0)),
    Down(0, RESET_DOWN),
    Up(1, 0, SIGNATURE),
    NoneUp,
];

#[test]
fn one_device_answers_where_it_was_asked(rt: HostRuntime) {
    play(&rt, rt.alloc(), &STRAIGHT);
    play(&rt, rt.alloc(), &SENT_BEFORE);
}

/// Port 0 is open from the reset of the link on, and its device passes though nobody wrote a register.
static PORT_0: [Step; 12] = [
    Multiplied(true),
    Plugs(0),
    Plugs(3),
    Renews,
    Begins(0),
    Begins(3),
    NoneBegins,
    Sends(READ, Passed::Down(0)),
    Down(0, READ),
    Offers(0, READY, Taken::Held),
    Up(1, 0, READY),
    Sends(READ_OF_2, Passed::Dropped),
];

#[test]
fn port_0_is_open_from_the_start(rt: HostRuntime) {
    play(&rt, rt.alloc(), &PORT_0);
}

/// SControl.DET is 1 and then 0: the device of port 2 begins anew, and what it sent before is dropped.
static RESET_BY_PORT: [Step; 20] = [
    Multiplied(false),
    Plugs(2),
    Begins(2),
    Writes(2, 2, 0),
    Writes(2, 1, 0x0401_0000),
    Offers(2, SIGNATURE, Taken::Held),
    Up(1, 0, SIGNATURE_OF_2),
    Offers(2, READY, Taken::Held),
    Sends(READ_OF_2, Passed::Down(2)),
    Writes(2, 2, 1),
    NoneBegins,
    NoneUp,
    Writes(2, 2, 0),
    Begins(2),
    NoneBegins,
    NoneDown(2),
    Writes(2, 1, 0x0401_0000),
    NoneUp,
    Offers(2, SIGNATURE, Taken::Held),
    Up(2, 0, SIGNATURE_OF_2),
];

#[test]
fn a_device_that_is_reset_by_its_port_begins_anew(rt: HostRuntime) {
    play(&rt, rt.alloc(), &RESET_BY_PORT);
}

/// The link is reset while frames wait in both directions.
static RENEWED: [Step; 13] = [
    Straight,
    Plugs(0),
    Begins(0),
    Sends(RESET, Passed::Down(0)),
    Down(0, RESET_DOWN),
    Offers(0, SIGNATURE, Taken::Held),
    Sends(READ, Passed::Down(0)),
    Renews,
    Begins(0),
    NoneUp,
    NoneDown(0),
    Offers(0, SIGNATURE, Taken::Held),
    Up(1, 0, SIGNATURE),
];

/// Behind a multiplier all registers are as at first, so the ports are closed.
static RENEWED_FAN: [Step; 12] = [
    Multiplied(false),
    Plugs(2),
    Writes(2, 2, 0),
    Writes(2, 1, 0x0401_0000),
    Offers(2, SIGNATURE, Taken::Held),
    Sends(READ_OF_2, Passed::Down(2)),
    Renews,
    Begins(2),
    NoneBegins,
    NoneUp,
    NoneDown(2),
    Sends(READ_OF_2, Passed::Dropped),
];

#[test]
fn a_reset_of_the_link_drops_what_is_on_its_way(rt: HostRuntime) {
    play(&rt, rt.alloc(), &RENEWED);
    play(&rt, rt.alloc(), &RENEWED_FAN);
}

static REFUSED: [Step; 17] = [
    Straight,
    CannotPlug(1, PlugError::NoPort),
    CannotPull(0),
    CannotPull(1),
    Plugs(0),
    CannotPlug(0, PlugError::AlreadyThere),
    Offers(1, SIGNATURE, Taken::Dropped),
    NoneDown(1),
    Multiplied(false),
    CannotPlug(4, PlugError::NoPort),
    CannotPlug(15, PlugError::NoPort),
    CannotPull(3),
    Plugs(3),
    CannotPlug(3, PlugError::AlreadyThere),
    CannotPull(255),
    Offers(2, SIGNATURE, Taken::Dropped),
    Wants(2, false),
];

/// The device of a port is pulled while frames wait in both directions, and comes again.
static PULLED: [Step; 17] = [
    Multiplied(false),
    Plugs(2),
    Writes(2, 2, 0),
    Writes(2, 1, 0x0401_0000),
    Offers(2, READY, Taken::Held),
    Sends(READ_OF_2, Passed::Down(2)),
    Pulls(2),
    NoneBegins,
    NoneUp,
    NoneDown(2),
    Wants(2, false),
    Plugs(2),
    Begins(2),
    Writes(2, 1, 0x0401_0000),
    Offers(2, SIGNATURE, Taken::Held),
    Up(2, 0, SIGNATURE_OF_2),
    NoneUp,
];

#[test]
fn devices_come_and_go(rt: HostRuntime) {
    play(&rt, rt.alloc(), &REFUSED);
    play(&rt, rt.alloc(), &PULLED);
}

#[test]
fn refusals_have_numbers_and_texts(rt: HostRuntime) -> Result<(), AllocError> {
    a_renewed_fan_is_empty();
    a_reset_ends_the_connection();
    fans_pass_in_order();
    let text = format!(in rt.alloc();
        "{}, {}, {}, {}",
        PlugError::NoPort,
        PlugError::AlreadyThere,
        PlugError::Spent,
        NotThere
    )?;
    assert!(rt; text.as_str() == "no such port, already there, no connection left, not there");
    assert!(rt; PlugError::NoPort as u8 == 1 && PlugError::Spent as u8 == 3);
    Ok(())
}
