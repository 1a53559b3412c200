//! Commands that were read are issued, or not taken.

ghost use Rattle.std.specs.Prelude.{◌≡◌, ◌<◌, ◌^◌, None, Some, IfSome};
ghost use Rattle.ahci_registers.specs.Bits.{interrupt_bits};
ghost use Rattle.slots.specs.Work.{IsWork};
ghost use Rattle.ahci_controller.specs.Issuing.{IssuesSlot, Keeps, RefusesSlot, causes_of as causes_for, device_of as device_in, offered as offered_of};
ghost use Rattle.ahci_controller.specs.Offers.{CanBeOffered, moves_some as moves_some_of, work_if};

use crate::bits::without;
use crate::causes::interrupts;
use crate::latch::Edge;
use crate::offer::Offered;
use crate::parts::Parts;
use ahci_registers::PortInterrupts;
use guest_fetch::{Command, Refusal};
use hba_fbs::IssueError;
use slots::{Kind, Work};

/// Why a command is not taken. Its slot is a bad one: PxIS tells, and nothing goes on until ST falls.
#[derive(Clone, Copy, Debug, PartialEq, Eq)]
pub enum NotTaken {
    /// It cannot be read as one.
    Read(Refusal),
    /// It moves more bytes than a slot has room for, or not whole dwords.
    Bytes {
        /// How many it moves.
        found: u32,
    },
    /// It cannot be issued.
    Issue(IssueError),
}

/// What an answer to a want did.
#[derive(Clone, Copy, Debug, PartialEq, Eq)]
pub enum Supply {
    /// Nothing: no such bytes are wanted, or not so many.
    Stale,
    /// More of the command is wanted.
    More,
    /// The command is issued.
    Issued {
        /// For this device.
        dev: u8,
    },
    /// The command is not taken.
    NotTaken {
        /// Why.
        why: NotTaken,
        /// A message is due, where messages stand for the line.
        message: bool,
        /// What it did to the line.
        line: Edge,
    },
    /// Memory for the table is refused. The same bytes are wanted again.
    OutOfMemory,
}

/// The bit of a slot.
pub(crate) fn slot_bit(slot: u8) -> u32
    requires { slot < 32 }
    ensures { result ≡ 2 ^ slot }
{
    1 << slot
}

// The bits of PxIS of a command that is not taken.
fn causes_of(why: NotTaken) -> PortInterrupts
    ensures { interrupt_bits result ≡ causes_for why }
{
    match why {
        NotTaken::Read(Refusal::NoMemory { .. }) => interrupts(0x2800_0000),
        _ => interrupts(0x800_0000),
    }
}

fn moves_some(kind: Kind) -> bool
    ensures { result ≡ moves_some_of kind }
{
    match kind {
        Kind::QueuedRead
        | Kind::QueuedWrite
        | Kind::DmaIn
        | Kind::DmaOut
        | Kind::PioIn
        | Kind::PioOut => true,
        Kind::NoData | Kind::Control => false,
    }
}

// What a command asks for, if a slot has room for it.
fn served(work: Work) -> Option<Work>
    ensures value { result ≡ work_if work }
    ensures rules { IfSome result IsWork }
{
    let some = if moves_some(work.kind) {
        work.len > 0
    } else {
        work.len == 0
    };
    if work.len % 4 == 0 && work.len <= 0x200_0000 && some {
        Some(work)
    } else {
        None
    }
}

// The device of a command: the one that its header names.
fn device_of(command: &Command) -> u8
    ensures is { result ≡ device_in command.now }
    ensures low { result < 16 }
{
    command.keeps_rules();
    command.head().header.pm_port
}

// It, as the core is offered it.
fn offered(dev: u8, work: Work, cfis: [u8; 20]) -> Offered
    requires dev { dev < 16 }
    requires work { IsWork work }
    ensures is { result ≡ offered_of dev work cfis }
    ensures can { CanBeOffered result }
{
    Offered {
        dev,
        command: Some(hba_commands::Command {
            work,
            cfis,
            table: 0,
            count: 0,
        }),
    }
}

impl Parts {
    /// The command of a slot is not taken.
    pub(crate) fn refuse(&mut self, slot: u8, why: NotTaken) -> Supply
        requires { slot < 32 }
        ensures { RefusesSlot self.old slot why result self.new }
    {
        self.wants.pending = without(self.wants.pending, slot_bit(slot));
        self.own.bad |= slot_bit(slot);
        let told = self.latch.told(causes_of(why));
        Supply::NotTaken {
            why,
            message: told.message,
            line: told.line,
        }
    }

    // It is kept as it was supplied.
    fn keep(&mut self, slot: u8, command: Command)
        requires { slot < 32 }
        ensures { Keeps self.old slot command self.new }
    {
        self.wants.pending = without(self.wants.pending, slot_bit(slot));
        self.commands[slot as usize] = Some(command);
    }

    /// Issues a command that was read.
    pub(crate) fn issue(&mut self, slot: u8, command: Command) -> Supply
        requires { slot < 32 }
        ensures { IssuesSlot self.old slot command result self.new }
    {
        let dev = device_of(&command);
        let head = *command.head();
        let Some(work) = served(head.work) else {
            return self.refuse(
                slot,
                NotTaken::Bytes {
                    found: head.work.len,
                },
            );
        };
        let offered = offered(dev, work, head.cfis);
        match self.core.issue_to(dev, slot_bit(slot), &offered) {
            Ok(()) => {
                self.keep(slot, command);
                Supply::Issued { dev }
            }
            Err(error) => self.refuse(slot, NotTaken::Issue(error)),
        }
    }
}
