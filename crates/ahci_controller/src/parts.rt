//! The parts of the controller.

ghost use Rattle.std.specs.Prelude.{◌≡◌, None, replicate};
ghost use Rattle.port_errors.specs.Errors.{AreErrors};
ghost use Rattle.slots.specs.Table.{IsTable};
ghost use Rattle.hba_fbs.specs.Views.{IsCorePort};
ghost use Rattle.ahci_controller.specs.Opening.{IsOpening};
ghost use Rattle.ahci_controller.specs.Wants.{dropped};

mod saved;

use crate::circle::Circle;
use crate::latch::Latch;
use crate::own::OwnRegisters;
use crate::wants::{Wants, Writes};
use ahci_registers::LinkControl;
use guest_fetch::{Command, Fetch};
use hba_fbs::{Line, PortCore};
use std::marker::Model;

/// The parts of a controller. Each call of [`Controller`](crate::Controller) is one of theirs, and keeps their rules.
#[derive(Drop)]
pub struct Parts {
    /// What decides.
    pub(crate) core: PortCore,
    /// The interrupts.
    pub(crate) latch: Latch,
    /// The link.
    pub(crate) link: LinkControl,
    /// What else was written to registers.
    pub(crate) own: OwnRegisters,
    /// What is wanted of the guest.
    pub(crate) wants: Wants,
    /// By slot: a command that is being read, None where its header has not come yet.
    pub(crate) fetches: [Option<Fetch>; 32],
    /// By slot: the command that was issued last, as it was supplied.
    pub(crate) commands: [Option<Command>; 32],
    /// What is to be written to the guest.
    pub(crate) writes: Writes,
    /// Whose turn it is.
    pub(crate) circle: Circle,
    /// By device: where its next Data begin among the bytes of their command.
    pub(crate) cursors: [u32; 16],
}

// They are below 64 KiB.
const _: () = prove!(size_of::<Parts>() < 65536);

impl Model for Parts {
    ghost use Rattle.ahci_controller.specs.States.{ControllerState};

    ghost Value = { ControllerState };

    ghost view = { λ c. record { core = c.core; latch = c.latch; link = c.link; own = c.own; wants = c.wants; fetches = c.fetches; commands = c.commands; writes = c.writes; circle = c.circle; cursors = c.cursors } };
}

/// The PM Port that a multiplier's control port has, and behind which PxTFD looks before a signature came.
pub(crate) const CONTROL: u8 = 15;

fn no_fetches() -> [Option<Fetch>; 32]
    ensures { result ≡ replicate 32 None }
{
    Default::default()
}

fn no_commands() -> [Option<Command>; 32]
    ensures { result ≡ replicate 32 None }
{
    Default::default()
}

impl Parts {
    /// As it opens: nothing is issued, the port is stopped, the link is up, no signature has come and no interrupt is enabled.
    pub fn new() -> Parts
        ensures { IsOpening result }
    {
        let mut core = PortCore::new();
        core.hang(CONTROL, Line::Empty);
        Parts {
            core,
            latch: Latch::new(),
            link: LinkControl::new(),
            own: OwnRegisters::new(),
            wants: Wants::new(),
            fetches: no_fetches(),
            commands: no_commands(),
            writes: Writes::none(),
            circle: Circle::new(),
            cursors: [0; 16],
        }
    }

    /// The rules that hold for every controller's core. The call has no effect.
    pub fn keeps_rules(&self)
        ensures port { IsCorePort self.now.core }
        ensures slots { IsTable self.now.core.slots }
        ensures errors { AreErrors self.now.core.errors }
    {
        self.core.keeps_rules();
    }

    /// Nothing is wanted of the guest any more, and nothing is to be written to it.
    pub(crate) fn drop_wants(&mut self)
        ensures { self.new ≡ dropped self.old }
    {
        self.wants.dropped();
        self.fetches = no_fetches();
        self.writes = Writes::none();
    }
}
