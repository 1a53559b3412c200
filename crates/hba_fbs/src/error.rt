//! Why a register cannot be read or written.

use thiserror::Error;

/// A port has no register at this offset.
#[derive(Clone, Copy, Debug, PartialEq, Eq, Error)]
#[error("no such register")]
pub struct NoRegister;

/// Why a write is refused. A refused write changes nothing.
#[derive(Clone, Copy, Debug, PartialEq, Eq, Error)]
pub enum WriteError {
    /// A port has no register at this offset.
    #[error("no such register")]
    NoRegister = 1,
    /// PxCMD.ST is 0. Slots are armed and issued only while it is 1.
    #[error("the port is stopped")]
    Stopped = 2,
    /// The register is in use: PxCMD.ST is 1, or PxCMD.FRE for the address of the received area.
    #[error("the port is running")]
    Running = 3,
    /// A command is already issued in one of the slots.
    #[error("slot is in use")]
    SlotBusy = 4,
    /// The header of one of the slots names a device other than PxFBS.DEV.
    #[error("a header names another device")]
    WrongDevice = 5,
    /// The command list or the received area does not lie in the structure area, ST is to be set without FRE,
    /// or the header or the command table of one of the slots is bad.
    #[error("bad table")]
    BadTable = 6,
    /// Without FIS-based switching: the headers of the slots name more than one device, or a command of
    /// another device is issued.
    #[error("a header names another device than the active one")]
    OtherDevice = 8,
}

/// Why none of the slots is issued that a caller names. Nothing changes then.
#[derive(Clone, Copy, Debug, PartialEq, Eq, Error)]
pub enum IssueError {
    /// PxCMD.ST is 0.
    #[error("the port is stopped")]
    Stopped,
    /// A command is already issued in one of the slots.
    #[error("slot is in use")]
    SlotBusy,
    /// No command is offered for one of the slots.
    #[error("no command is offered")]
    NoCommand,
}
