//! What the core is offered for a slot.

ghost use Rattle.std.specs.Prelude.{◌≡◌, ◌<◌, None, IfSome, if◌then◌else◌};
ghost use Rattle.ahci_controller.specs.Offers.{CanBeOffered, is_work as is_work_of, offer_in, work_if};

use hba_commands::Command;
use hba_fbs::Offers;
use slots::{Kind, Work};

/// A command of a device, or none.
#[derive(Clone, Copy, Debug)]
pub struct Offered {
    /// The device.
    pub(crate) dev: u8,
    /// The command.
    pub(crate) command: Option<Command>,
}

impl Offers for Offered {
    ghost use Rattle.ahci_controller.specs.Offers.{CanBeOffered, offer_in};

    ghost offer = { offer_in };

    ghost can_offer = { CanBeOffered };

    fn named(&self, _slot: u8) -> u8 {
        self.dev
    }

    fn command(&self, _slot: u8) -> Option<Command> {
        self.command
    }
}

/// Nothing.
pub(crate) fn nothing() -> Offered
    ensures is { result ≡ record { dev = 0; command = None } }
    ensures can { CanBeOffered result }
{
    Offered {
        dev: 0,
        command: None,
    }
}
