//! The command list, as whoever has it offers it.

ghost use Rattle.std.specs.Prelude.{◌≡◌, ◌<◌, ◌≤◌, ◌+◌, IfSome};
ghost use Rattle.slots.specs.Work.{IsWork};
ghost use Rattle.hba_fbs.specs.Offering.{Offer};

use hba_commands::Command;

/// What is offered for a write of PxCI.
pub trait Offers {
    /// By slot: the device and the command.
    ghost offer: { Self → Offer };

    /// Whether it can be looked at.
    ghost can_offer: { Self → Type 0 };

    /// The device that the header of a slot names.
    fn named(&self, slot: u8) -> u8
        requires slot { slot < 32 }
        requires can { can_offer self.now }
        ensures is { result ≡ (offer self.now).named slot }
        ensures low { result < 16 };

    /// The command of a slot, None where its header or its table is bad.
    fn command(&self, slot: u8) -> Option<Command>
        requires slot { slot < 32 }
        requires can { can_offer self.now }
        ensures is { result ≡ (offer self.now).commands slot }
        ensures work { IfSome result (λ command. IsWork command.work) };
}
