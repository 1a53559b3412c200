ghost use Rattle.std.specs.Prelude.{◌≡◌, IfNone, IfOk, IfSome, IsOk, OnErr, OnOk};
ghost use Rattle.disk_model.specs.Histories.{GoesOn, IsSilent, Plugged, Received, SendsNext};

use crate::device::Device;
use crate::disk::Disk;
use crate::scripted::Scripted;
use fis_view::{Frame, Stamp};
use std::alloc::{AllocError, Global};

/// What is at a fan-out port.
#[derive(Drop)]
pub enum Unit {
    /// A disk with native command queuing.
    Disk(Disk),
    /// A device that sends what a script says, whatever it receives.
    Scripted(Scripted),
}

impl Device for Unit {
    ghost use Rattle.disk_model.specs.Units.{plan_of, HasFrames, UnitWantsRoom, StandsFor, MaySend};

    ghost plan_of = { plan_of };

    ghost stands_for = { StandsFor };

    ghost may_send = { MaySend };

    fn on_frame(&mut self, alloc: Global, frame: &Frame) -> Result<(), AllocError>
        ensures ok { OnOk result (
            GoesOn plan_of StandsFor self.old (Received frame.now.bytes) self.new) }
        ensures err { OnErr result (self.new ≡ self.old) }
        // a script takes no memory, and neither does a disk that is not full or that is to answer nothing
        // more
        ensures no_memory { OnErr result (UnitWantsRoom self.old (Received frame.now.bytes)) }
    {
        match self {
            Unit::Disk(disk) => disk.on_frame(alloc, frame),
            Unit::Scripted(script) => script.on_frame(alloc, frame),
        }
    }

    fn next_out(&mut self, alloc: Global, stamp: Stamp) -> Result<Option<Frame>, AllocError>
        ensures sent { IfOk result (λ out. IfSome out (λ frame.
            SendsNext plan_of StandsFor MaySend self.old frame.bytes self.new)) }
        ensures stamp { IfOk result (λ out. IfSome out (λ frame. frame.stamp ≡ stamp)) }
        ensures silent { IfOk result (λ out. IfNone out (
            IsSilent plan_of StandsFor MaySend self.old)) }
        ensures same { IfOk result (λ out. IfNone out (self.new ≡ self.old)) }
        ensures err { OnErr result (self.new ≡ self.old) }
        // a script that was sent to its end takes no memory, and neither does a disk with nothing to send
        ensures no_memory { OnErr result (HasFrames self.old) }
    {
        match self {
            Unit::Disk(disk) => disk.next_out(alloc, stamp),
            Unit::Scripted(script) => script.next_out(alloc, stamp),
        }
    }

    fn plugged(&mut self, alloc: Global) -> Result<(), AllocError>
        ensures ok { OnOk result (GoesOn plan_of StandsFor self.old Plugged self.new) }
        ensures err { OnErr result (self.new ≡ self.old) }
        // it takes no memory
        ensures done { IsOk result }
    {
        match self {
            Unit::Disk(disk) => disk.plugged(alloc),
            Unit::Scripted(script) => script.plugged(alloc),
        }
    }
}
