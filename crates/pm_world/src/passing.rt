//! What passes between the multiplier and the links beside it.

ghost use Rattle.std.specs.Prelude.{◌≡◌, ◌<◌, Ok};
ghost use Rattle.pm_world.specs.Rules.{PmDownRule, PmFromDeviceRule, PmFromHostRule, PmPresenceRule, PmUpRule};
ghost use Rattle.multiplier.specs.Rules.{KeepsPorts};

use crate::device::PortDevice;
use crate::link::{Change, Link};
use crate::seat::Seat;
use crate::step::{Answer, StepError};
use multiplier::{Multiplier, PmRefusal};
use pm_ports::Offered;
use std::alloc::Global;

/// Port `n` records the first change on its presence link: a connection that came, or one that went.
/// A change that the port refuses changes nothing.
pub fn record<D: PortDevice + Drop>(n: u8, seat: &mut Seat<D>, pm: &mut Multiplier) -> Answer
    requires { n < pm.old.registers.ports }
    ensures rule { PmPresenceRule n seat.old pm.old (Ok result) seat.new pm.new }
    ensures ports { pm.new.registers.ports ≡ pm.old.registers.ports }
{
    match seat.next_change() {
        None => Answer::Idle,
        Some(Change::Came(conn)) => {
            let _ = pm.came(n, conn);
            Answer::Presence(n)
        }
        Some(Change::Gone(conn)) => {
            let _ = pm.gone(n, conn);
            Answer::Presence(n)
        }
    }
}

/// Moves the first frame of a device's link into the hold of port `n`, or drops it if its connection
/// is gone.
pub fn pass_up<D: PortDevice + Drop>(n: u8, seat: &mut Seat<D>, pm: &mut Multiplier) -> Answer
    requires { n < pm.old.registers.ports }
    ensures rule { PmFromDeviceRule n seat.old pm.old (Ok result) seat.new pm.new }
    ensures ports { KeepsPorts pm.old pm.new }
{
    if seat.is_empty() {
        return Answer::Idle;
    }
    if pm.hold(n).is_some() {
        return Answer::Blocked;
    }
    match seat.take() {
        None => Answer::Idle,
        Some(frame) => match pm.from_device(n, frame) {
            Ok(offered) => Answer::Offered {
                port: n,
                dropped: offered == Offered::Dropped,
            },
            Err(_) => unreachable!(),
        },
    }
}

/// Moves the frame that waits for the device at port `n` onto the device's link.
pub fn pass_down<D: PortDevice + Drop>(n: u8, seat: &mut Seat<D>, pm: &mut Multiplier) -> Answer
    requires { n < pm.old.registers.ports }
    ensures rule { PmDownRule n seat.old pm.old (Ok result) seat.new pm.new }
    ensures ports { KeepsPorts pm.old pm.new }
{
    if seat.is_full_down() {
        return Answer::Blocked;
    }
    match pm.next_down(n) {
        None => Answer::Idle,
        Some(frame) => {
            seat.push_down(frame);
            Answer::Down(n)
        }
    }
}

/// The multiplier takes the first frame of the host's link. A frame that it gives back stays there.
pub fn hear(alloc: Global, link: &mut Link, pm: &mut Multiplier) -> Result<Answer, StepError>
    ensures rule { PmFromHostRule link.old pm.old result link.new pm.new }
    ensures ports { KeepsPorts pm.old pm.new }
{
    let Some(frame) = link.take() else {
        return Ok(Answer::Idle);
    };
    match pm.from_host(alloc, frame) {
        Ok(passed) => Ok(Answer::Passed(passed)),
        Err((frame, refusal)) => {
            link.put_back(frame);
            match refusal {
                PmRefusal::HoldFull => Ok(Answer::Blocked),
                PmRefusal::OutOfMemory => Err(StepError::OutOfMemory),
            }
        }
    }
}

/// Moves the frame of the place that is served next onto the link to the host.
pub fn rise(alloc: Global, pm: &mut Multiplier, link: &mut Link) -> Result<Answer, StepError>
    ensures rule { PmUpRule pm.old link.old result pm.new link.new }
    ensures ports { KeepsPorts pm.old pm.new }
{
    if link.is_full() {
        return Ok(Answer::Blocked);
    }
    match pm.next_up(alloc)? {
        None => Ok(Answer::Idle),
        Some(frame) => {
            let port = frame.stamp().port;
            link.push(frame);
            Ok(Answer::Up(port))
        }
    }
}
