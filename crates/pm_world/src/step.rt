use fis_view::Bytes;
use hba_driver::{Completion, Request, SubmitError, Ticket};
use hba_fbs::TakeReport;
use multiplier::Passed;
use std::alloc::AllocError;
use thiserror::Error;

/// How large a world is.
#[derive(Clone, Copy, Debug, PartialEq, Eq)]
pub struct Config {
    /// Fan-out ports, 1 to 15.
    pub ports: u8,
    /// Frames that a link can hold, 1 to 64.
    pub capacity: usize,
    /// Bytes of the host's memory: even, 2 MiB to 16 MiB.
    pub memory: u32,
}

/// Why no world is made.
#[derive(Clone, Copy, Debug, PartialEq, Eq, Error)]
pub enum WorldError {
    /// A number of the configuration is out of its limits, or there are not as many units as ports.
    #[error("bad configuration")]
    BadConfig = 1,
    #[error("out of memory")]
    OutOfMemory = 2,
}

/// One action of one actor.
#[derive(Debug, Drop)]
pub enum Step {
    /// The device at this port is plugged in, under the next connection.
    Came(u8),
    /// The device at this port is unplugged. What is on its links stays there.
    Gone(u8),
    /// The device at this port sends its next FIS.
    DiskSend(u8),
    /// This frame is sent as the device at this port.
    Inject(u8, Bytes),
    /// The device at this port takes the first FIS of its link.
    DiskTake(u8),
    /// The multiplier's port records the first change on its device's presence link: a connection
    /// that came or went.
    PmPresence(u8),
    /// The multiplier's port takes the first frame of its device's link into its hold, or drops it if
    /// its connection is gone.
    PmFromDevice(u8),
    /// The multiplier takes the first frame of the host's link.
    PmFromHost,
    /// The multiplier puts the next frame for the host on the link to it: a frame that a port holds,
    /// a notification, or an answer of the control port.
    PmUp,
    /// The multiplier puts the frame that waits at this port on the link to its device.
    PmDown(u8),
    /// The host port takes the first frame of its link.
    HostTake,
    /// The host port puts the next frame that it has to send on its link.
    HostPush,
    /// The driver does the next thing that is due.
    Tick,
    /// A request to the device at this port is given to the driver.
    Submit(u8, Request),
    /// An ended request is asked for.
    Poll,
    /// These bytes are written to client memory, from this address on.
    Put(u32, Bytes),
}

/// What a step did.
#[derive(Debug, Drop)]
pub enum Answer {
    /// There was nothing to move.
    Idle,
    /// The next place was full.
    Blocked,
    Came {
        port: u8,
        conn: u32,
    },
    Gone {
        port: u8,
        conn: u32,
    },
    Sent {
        port: u8,
        conn: u32,
        number: u32,
        bytes: Bytes,
    },
    DiskTook {
        port: u8,
        /// Whether the frame was not for the device that is there. The device did not see it then.
        dropped: bool,
    },
    /// The port that recorded that a connection came or went.
    Presence(u8),
    Offered {
        port: u8,
        /// Whether the frame's connection was gone.
        dropped: bool,
    },
    /// Where the multiplier passed a frame of the host.
    Passed(Passed),
    /// The port whose frame went up, 15 for the control port.
    Up(u8),
    /// The port whose frame went down to its device.
    Down(u8),
    Took {
        port: u8,
        conn: u32,
        number: u32,
        bytes: Bytes,
        /// What the host port did with it.
        report: TakeReport,
    },
    /// The host port sent a frame.
    Pushed,
    /// The driver did something.
    Ticked,
    Submitted(Ticket),
    /// The driver refused the request.
    Refused(SubmitError),
    Polled(Completion),
    Put,
}

/// Why a step is refused. A refused step changes nothing.
#[derive(Clone, Copy, Debug, PartialEq, Eq, Error)]
pub enum StepError {
    /// Memory was refused, and no other refusal applies.
    #[error("out of memory")]
    OutOfMemory = 1,
    /// The bytes to inject are no frame.
    #[error("no frame")]
    BadBytes = 2,
    #[error("no such port")]
    NoSuchPort = 3,
    /// The device is plugged in already.
    #[error("a device is plugged in already")]
    AlreadyThere = 4,
    /// No device is plugged in.
    #[error("no device is plugged in")]
    NotThere = 5,
    /// The connection or the number is at its largest value.
    #[error("numbers are spent")]
    Spent = 6,
    /// Not all bytes lie in the client area.
    #[error("outside the client area")]
    Outside = 7,
    /// A byte belongs to the driver's buffer, or to a request that is not polled.
    #[error("memory is in use")]
    InUse = 8,
}

impl From<AllocError> for StepError {
    ghost use Rattle.std.specs.Prelude.{◌≡◌};
    ghost use Rattle.pm_world.specs.declared.step.StepError.TheVariants.{OutOfMemory};

    ghost from_gives = { λ _ e. e ≡ OutOfMemory };

    fn from(_: AllocError) -> Self {
        StepError::OutOfMemory
    }
}

impl From<AllocError> for WorldError {
    ghost use Rattle.std.specs.Prelude.{◌≡◌};
    ghost use Rattle.pm_world.specs.declared.step.WorldError.TheVariants.{OutOfMemory};

    ghost from_gives = { λ _ e. e ≡ OutOfMemory };

    fn from(_: AllocError) -> Self {
        WorldError::OutOfMemory
    }
}
