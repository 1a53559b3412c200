//! A place that each FIS of the host passes before a device sees it.

ghost use Rattle.std.specs.Prelude.{ℕ, OnErr, OnOk, ⊤};

use thiserror::Error;

/// The gate does not open.
#[derive(Clone, Copy, Debug, PartialEq, Eq, Error)]
#[error("the gate is shut")]
pub struct GateShut;

/// What the thread of a device enters with each FIS that it took, before its device sees it. A gate that may not refuse
/// always opens. A device sees a FIS only where the gate let it in, of which nothing is known but by `enter`.
pub trait Gate {
    /// Whether a gate of this kind may refuse.
    ghost may_refuse: { Type 0 } = { ⊤ };

    /// The gate let a FIS in for the device at this port. The implementation decides what that means.
    ghost let_in: { Self → ℕ → Type 0 } = { λ gate port. ⊤ };

    /// Lets a FIS for the device at this port pass.
    fn enter(&self, port: u8) -> Result<(), GateShut>
        ensures refused { OnErr result may_refuse }
        ensures passed { OnOk result (let_in self.now port) };
}
