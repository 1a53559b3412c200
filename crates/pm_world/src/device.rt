//! What may be attached to a fan-out port.

ghost use Rattle.std.specs.Prelude.{◌≡◌, IfNone, IfOk, IfSome, OnErr, OnOk};
ghost use Rattle.disk_model.specs.Histories.{Plugged, Received};
ghost use Rattle.pm_world.specs.Attached.{Attached, GoesOnAttached, IsSilentAttached, PlugWantsRoom, SendsAttached, WantsRoom};

use disk_model::{Device, Unit};
use fis_view::{Frame, Stamp};
use std::alloc::{AllocError, Global};

/// A device at a fan-out port of a world. A [`Unit`] is one, of which the laws of a world speak, and so is any
/// [`Device`] in [`AnyDevice::Own`], which may send what it likes.
pub trait PortDevice {
    /// What the laws of a world see of it.
    ghost seen: { Self → Attached };

    /// Takes a FIS from the host.
    fn hear(&mut self, alloc: Global, frame: &Frame) -> Result<(), AllocError>
        ensures ok { OnOk result (GoesOnAttached (seen self.old) (Received frame.now.bytes) (seen self.new)) }
        ensures err { OnErr result (seen self.new ≡ seen self.old) }
        ensures no_memory { OnErr result (WantsRoom (seen self.old) (Received frame.now.bytes)) };

    /// Gives the next FIS with this stamp, or None if the device has none to send.
    fn send(&mut self, alloc: Global, stamp: Stamp) -> Result<Option<Frame>, AllocError>
        ensures sent { IfOk result (λ out. IfSome out (λ frame.
            SendsAttached (seen self.old) frame.bytes (seen self.new))) }
        ensures stamp { IfOk result (λ out. IfSome out (λ frame. frame.stamp ≡ stamp)) }
        ensures silent { IfOk result (λ out. IfNone out (IsSilentAttached (seen self.old))) }
        ensures same { IfOk result (λ out. IfNone out (seen self.new ≡ seen self.old)) }
        ensures err { OnErr result (seen self.new ≡ seen self.old) };

    /// Tells the device that it was plugged in.
    fn plug(&mut self, alloc: Global) -> Result<(), AllocError>
        ensures ok { OnOk result (GoesOnAttached (seen self.old) Plugged (seen self.new)) }
        ensures err { OnErr result (seen self.new ≡ seen self.old) }
        ensures no_memory { OnErr result (PlugWantsRoom (seen self.old)) };
}

impl PortDevice for Unit {
    ghost use Rattle.pm_world.specs.Attached.{Modelled};

    ghost seen = { Modelled };

    fn hear(&mut self, alloc: Global, frame: &Frame) -> Result<(), AllocError> {
        self.on_frame(alloc, frame)
    }

    fn send(&mut self, alloc: Global, stamp: Stamp) -> Result<Option<Frame>, AllocError> {
        self.next_out(alloc, stamp)
    }

    fn plug(&mut self, alloc: Global) -> Result<(), AllocError> {
        self.plugged(alloc)
    }
}

/// A unit of [`disk_model`], or a device of the caller's own.
#[derive(Drop)]
pub enum AnyDevice<D: Device + Drop> {
    /// A disk or a script.
    Unit(Unit),
    /// Any device. What laws say of it is what they say of every port, whatever is sent there.
    Own(D),
}

impl<D: Device + Drop> PortDevice for AnyDevice<D> {
    ghost use Rattle.pm_world.specs.AnyDevices.{AnyGoesOn, AnyIsSilent, AnySends, seen_any};

    ghost seen = { seen_any };

    fn hear(&mut self, alloc: Global, frame: &Frame) -> Result<(), AllocError>
        ensures goes_on { OnOk result (AnyGoesOn D.plan_of D.stands_for self.old (Received frame.now.bytes) self.new) }
        ensures ok { OnOk result (GoesOnAttached (seen_any self.old) (Received frame.now.bytes) (seen_any self.new)) }
        ensures err { OnErr result (self.new ≡ self.old) }
        ensures no_memory { OnErr result (WantsRoom (seen_any self.old) (Received frame.now.bytes)) }
    {
        match self {
            AnyDevice::Unit(unit) => unit.on_frame(alloc, frame),
            AnyDevice::Own(device) => device.on_frame(alloc, frame),
        }
    }

    fn send(&mut self, alloc: Global, stamp: Stamp) -> Result<Option<Frame>, AllocError>
        ensures sends { IfOk result (λ out. IfSome out (λ frame.
            AnySends D.plan_of D.stands_for D.may_send self.old frame.bytes self.new)) }
        ensures rests { IfOk result (λ out. IfNone out (AnyIsSilent D.plan_of D.stands_for D.may_send self.old)) }
        ensures sent { IfOk result (λ out. IfSome out (λ frame.
            SendsAttached (seen_any self.old) frame.bytes (seen_any self.new))) }
        ensures stamp { IfOk result (λ out. IfSome out (λ frame. frame.stamp ≡ stamp)) }
        ensures silent { IfOk result (λ out. IfNone out (IsSilentAttached (seen_any self.old))) }
        ensures same { IfOk result (λ out. IfNone out (self.new ≡ self.old)) }
        ensures err { OnErr result (self.new ≡ self.old) }
    {
        match self {
            AnyDevice::Unit(unit) => unit.next_out(alloc, stamp),
            AnyDevice::Own(device) => device.next_out(alloc, stamp),
        }
    }

    fn plug(&mut self, alloc: Global) -> Result<(), AllocError>
        ensures goes_on { OnOk result (AnyGoesOn D.plan_of D.stands_for self.old Plugged self.new) }
        ensures ok { OnOk result (GoesOnAttached (seen_any self.old) Plugged (seen_any self.new)) }
        ensures err { OnErr result (self.new ≡ self.old) }
        ensures no_memory { OnErr result (PlugWantsRoom (seen_any self.old)) }
    {
        match self {
            AnyDevice::Unit(unit) => unit.plugged(alloc),
            AnyDevice::Own(device) => device.plugged(alloc),
        }
    }
}
