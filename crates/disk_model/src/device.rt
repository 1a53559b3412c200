ghost use Rattle.std.specs.Prelude.{◌≡◌, ℕ, List, IfOk, IfSome, IfNone, OnOk, OnErr};
ghost use Rattle.disk_model.specs.Histories.{Happening, Plan, Received, Plugged, GoesOn, SendsNext, IsSilent};

use fis_view::{Frame, Stamp};
use std::alloc::{AllocError, Global};

/// A device behind a fan-out port. Callers know it by its plan, by the histories that its state may stand
/// for, and by what plan and history allow it to send. A call that fails for want of memory leaves the device
/// as it was, and can be made again.
pub trait Device {
    /// What the device was made with. No call changes it.
    ghost plan_of: { Self → Plan };

    /// The device can be in this state after this history.
    ghost stands_for: { Self → List Happening → Type 0 };

    /// A device with this plan may send these bytes after this history.
    ghost may_send: { Plan → List Happening → List ℕ → Type 0 };

    /// Takes a FIS from the host.
    fn on_frame(&mut self, alloc: Global, frame: &Frame) -> Result<(), AllocError>
        ensures ok { OnOk result (
            GoesOn plan_of stands_for self.old (Received frame.now.bytes) self.new) }
        ensures err { OnErr result (self.new ≡ self.old) };

    /// Gives the next FIS with this stamp, or None if the device has none to send.
    fn next_out(&mut self, alloc: Global, stamp: Stamp) -> Result<Option<Frame>, AllocError>
        ensures sent { IfOk result (λ out. IfSome out (λ frame.
            SendsNext plan_of stands_for may_send self.old frame.bytes self.new)) }
        ensures stamp { IfOk result (λ out. IfSome out (λ frame. frame.stamp ≡ stamp)) }
        ensures silent { IfOk result (λ out. IfNone out (
            IsSilent plan_of stands_for may_send self.old)) }
        ensures same { IfOk result (λ out. IfNone out (self.new ≡ self.old)) }
        ensures err { OnErr result (self.new ≡ self.old) };

    /// Tells the device that it was plugged in.
    fn plugged(&mut self, alloc: Global) -> Result<(), AllocError>
        ensures ok { OnOk result (GoesOn plan_of stands_for self.old Plugged self.new) }
        ensures err { OnErr result (self.new ≡ self.old) };
}
