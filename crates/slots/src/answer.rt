//! What the calls of a slot table answer.

use thiserror::Error;

/// A command is already issued in the slot.
#[derive(Clone, Copy, Debug, PartialEq, Eq, Error)]
#[error("slot is in use")]
pub struct Busy;

/// No transfer can be activated: there is no context towards the device with bytes left, or it is activated
/// already.
#[derive(Clone, Copy, Debug, PartialEq, Eq, Error)]
#[error("no transfer to be activated")]
pub struct Stray;

/// What a device's answer was for.
#[derive(Clone, Copy, Debug, PartialEq, Eq)]
pub enum Answered {
    /// No slot of the device waits for an answer.
    Nobody,
    /// The queued command in this slot. It goes on.
    Queued(u8),
    /// The command in this slot. It is done, and the slot is free.
    Done(u8),
    /// The command in this slot, which moves data and is not queued, with bytes missing. Nothing changed.
    Short(u8),
}

/// Why a setup is refused. The tests are made in this order.
#[derive(Clone, Copy, Debug, PartialEq, Eq, Error)]
pub enum SetupError {
    /// The device has no such slot outstanding.
    #[error("no such command is outstanding")]
    NotOutstanding = 1,
    /// The command moves data the other way.
    #[error("wrong direction")]
    WrongWay = 2,
    /// Some of the bytes lie behind the command's last byte.
    #[error("more bytes than the command has")]
    Overflow = 3,
    /// One of the bytes was transferred before.
    #[error("a byte is set up twice")]
    Twice = 4,
    /// The transferred bytes are 64 stretches, and none of them ends where these bytes begin.
    #[error("too many stretches")]
    Fragments = 5,
    /// There are no bytes, or the offset or the count is not a multiple of 4.
    #[error("bad offset or count")]
    BadCount = 6,
}

/// Why data is refused. The tests are made in this order.
#[derive(Clone, Copy, Debug, PartialEq, Eq, Error)]
pub enum ArriveError {
    /// The device has no context towards the host.
    #[error("no transfer to the host")]
    Stray = 1,
    /// The context has fewer bytes left.
    #[error("more data than was set up")]
    Overflow = 2,
}

/// The queued slots that a device named as done, as masks.
#[derive(Clone, Copy, Debug, PartialEq, Eq)]
pub struct Completed {
    /// Those with all bytes transferred. They are free now.
    pub done: u32,
    /// Those with bytes missing. They stay.
    pub short: u32,
}
