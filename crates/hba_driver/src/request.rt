//! Requests, and how they end.

use host_memory::Prd;
use thiserror::Error;

/// What a request does.
#[derive(Clone, Copy, Debug, PartialEq, Eq)]
pub enum Work {
    /// Sectors of the device go to memory.
    Read,
    /// Bytes of memory go to sectors of the device.
    Write,
    /// What the device holds back goes to its medium. A Flush has no sectors.
    Flush,
}

/// A request of a client to the driver.
#[derive(Debug, Drop)]
pub struct Request {
    /// What it does.
    pub work: Work,
    /// The first sector, below 2^48.
    pub lba: u64,
    /// The number of sectors of 512 bytes, 1 to 256.
    pub sectors: u16,
    /// Where the bytes are, in order: at most 248 entries, each of 2 bytes to 4 MiB and even.
    pub prds: Vec<Prd>,
}

/// The name of a request from its submit on. Tickets count from 1.
#[derive(Clone, Copy, Debug, PartialEq, Eq)]
pub struct Ticket(pub u32);

/// How a request ended.
#[derive(Clone, Copy, Debug, PartialEq, Eq)]
pub enum Outcome {
    /// The device did it.
    Done,
    /// The device failed it, and shows this Status and this Error.
    DeviceError {
        /// Status of its task file.
        status: u8,
        /// Error of its task file.
        error: u8,
    },
    /// Its device had a fault in which another command failed, or was reset.
    Aborted,
    /// The device was removed or replaced.
    Removed,
    /// The port had a fault; with command-based switching also where a device had one, or the multiplier
    /// notified the host while a command was issued.
    PortError,
}

/// An ended request, as it is polled.
#[derive(Clone, Copy, Debug, PartialEq, Eq)]
pub struct Completion {
    /// The ticket that its submit gave.
    pub ticket: Ticket,
    /// The slot in which it was. It is free again.
    pub slot: u8,
    /// How it ended.
    pub outcome: Outcome,
}

/// Why a request is refused. The tests are made in the order of the numbers. A refusal changes nothing.
#[derive(Clone, Copy, Debug, PartialEq, Eq, Error)]
pub enum SubmitError {
    /// There is no such device, or it is not ready.
    #[error("no such device")]
    NoDevice = 1,
    /// The device recovers from a fault.
    #[error("the device recovers")]
    Recovering = 2,
    /// A Flush is alone: a request of the device has not ended, and that one or the new one is a Flush.
    #[error("the queue is busy")]
    QueueBusy = 3,
    /// There is no sector or more than 256, the first sector is 2^48 or above, or a Flush has sectors.
    #[error("bad count")]
    BadCount = 4,
    /// The entries do not have 512 bytes for each sector, or there are more than 248.
    #[error("length mismatch")]
    LengthMismatch = 5,
    /// An entry is odd, empty or above 4 MiB, or does not lie between 100200h and the end of memory.
    #[error("bad entry")]
    BadPrd = 6,
    /// Two entries share a byte, or an entry shares one with a request that is not polled yet, and one of the
    /// two requests reads.
    #[error("entries overlap")]
    Overlap = 7,
    /// No slot is free.
    #[error("no free slot")]
    NoSlot = 8,
    /// The largest ticket has been given.
    #[error("no more tickets")]
    TicketsSpent = 9,
    /// With command-based switching: a request of another device has not ended.
    #[error("a request of another device has not ended")]
    OtherDevice = 10,
}
