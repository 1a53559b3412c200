//! The report of a FIS that was taken.

ghost use Rattle.std.specs.Prelude.{◌≡◌};
ghost use Rattle.hba_fbs.specs.Taking.{device_cause as device_cause_of, heard_report, ignored_report, port_cause as port_cause_of, wrote_by};

use crate::hearing::{Fault, Happening, Heard};
use port_errors::{DeviceCause, PortCause};
use rx_area::Posted;

/// Bytes of a Data FIS that were written to client memory.
#[derive(Clone, Copy, Debug, PartialEq, Eq)]
pub struct Wrote {
    /// The slot of their command.
    pub slot: u8,
    /// The offset of the first of them in the slot's transfer.
    pub offset: u32,
    /// How many there are.
    pub len: u32,
}

/// What taking a FIS did.
#[derive(Clone, Copy, Debug, PartialEq, Eq)]
pub struct TakeReport {
    /// The PM Port from which it came.
    pub dev: u8,
    /// Whether it was ignored. Then nothing else happened.
    pub ignored: bool,
    /// Where it was posted.
    pub posted: Posted,
    /// The cause of the device's fault, if the FIS made it faulty.
    pub fault: Option<DeviceCause>,
    /// The cause that stopped the port, if the FIS stopped it.
    pub stopped: Option<PortCause>,
    /// The bytes that it brought to client memory, if it brought any.
    pub wrote: Option<Wrote>,
    /// The slots that became free, as a mask.
    pub done: u32,
}

/// The cause, if it is a fault of the device.
pub(crate) fn device_cause(fault: Option<Fault>) -> Option<DeviceCause>
    ensures { result ≡ device_cause_of fault }
{
    match fault {
        Some(Fault::Device(cause)) => Some(cause),
        Some(Fault::Port(_)) | None => None,
    }
}

fn port_cause(fault: Option<Fault>) -> Option<PortCause>
    ensures { result ≡ port_cause_of fault }
{
    match fault {
        Some(Fault::Port(cause)) => Some(cause),
        Some(Fault::Device(_)) | None => None,
    }
}

fn brought(happening: Happening) -> Option<Wrote>
    ensures { result ≡ wrote_by happening }
{
    match happening {
        Happening::Carried(wrote, _) => Some(wrote),
        Happening::Nothing
        | Happening::Answered(_)
        | Happening::Named(_)
        | Happening::SetUp(_)
        | Happening::PioSetUp(_, _)
        | Happening::Activated => None,
    }
}

impl TakeReport {
    /// The report of an ignored FIS.
    pub(crate) fn ignored(dev: u8) -> TakeReport
        ensures { result ≡ ignored_report dev }
    {
        TakeReport {
            dev,
            ignored: true,
            posted: Posted::Nothing,
            fault: None,
            stopped: None,
            wrote: None,
            done: 0,
        }
    }

    /// The report of a FIS that is heard.
    #[tactic(auto, unfolding(crate::specs::Taking::heard_report))]
    pub(crate) fn heard(dev: u8, posted: Posted, heard: Heard) -> TakeReport
        ensures value { result ≡ heard_report dev posted heard }
        ensures wrote { result.wrote ≡ wrote_by heard.happening }
    {
        TakeReport {
            dev,
            ignored: false,
            posted,
            fault: device_cause(heard.fault),
            stopped: port_cause(heard.fault),
            wrote: brought(heard.happening),
            done: heard.done,
        }
    }
}
