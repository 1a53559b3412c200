//! What the caller is asked.

ghost use Rattle.std.specs.Prelude.{◌≡◌};
ghost use Rattle.ahci_machine.specs.Asked.{read_of};

use ahci_controller::Ask;
use block_engine::What;

/// What bytes of the guest's memory are wanted for. An answer names it.
#[derive(Clone, Copy, Debug, PartialEq, Eq)]
pub enum Wanted {
    /// The command of a slot.
    Command {
        /// The slot.
        slot: u8,
        /// The number of the want.
        number: u64,
    },
    /// A Data FIS to a device.
    Data {
        /// The device.
        dev: u8,
        /// The number of the want.
        number: u64,
        /// How many bytes of the FIS there were before.
        done: usize,
    },
}

/// Bytes of the guest's memory are wanted: [`Machine::supply`](crate::Machine::supply) or
/// [`Machine::no_memory`](crate::Machine::no_memory) answers it.
#[derive(Clone, Copy, Debug, PartialEq, Eq)]
pub struct GuestRead {
    /// What they are for.
    pub wanted: Wanted,
    /// The address of the first.
    pub at: u64,
    /// How many there are.
    pub len: usize,
}

impl GuestRead {
    /// Bytes of a command.
    pub(crate) fn of(ask: Ask) -> GuestRead
        ensures { result ≡ read_of ask }
    {
        GuestRead {
            wanted: Wanted::Command {
                slot: ask.slot,
                number: ask.number,
            },
            at: ask.want.at,
            len: ask.want.len,
        }
    }
}

/// Which request of a disk an answer is for.
#[derive(Clone, Copy, Debug, PartialEq, Eq)]
pub struct MediumId {
    /// The port of the disk.
    pub port: u8,
    /// Which disk of this port it is: they are counted as they are put there.
    pub disk: u64,
    /// The number of the request at that disk.
    pub number: u64,
}

/// What is to be done next.
#[derive(Clone, Copy, Debug, PartialEq, Eq)]
pub enum Request {
    /// Nothing, until the guest, a medium or a device does something.
    Nothing,
    /// The budget of moves is spent: ask again.
    Again,
    /// Bytes of the guest's memory are wanted.
    ReadGuest(GuestRead),
    /// The bytes that [`Machine::lent`](crate::Machine::lent) gives go to the guest's memory from this address on, before
    /// anything else is asked, and before the guest reads a register.
    WriteGuest {
        /// The address of the first.
        at: u64,
    },
    /// A medium is to do something: [`Machine::answer`](crate::Machine::answer) answers it.
    Medium {
        /// Which request it is.
        id: MediumId,
        /// The place of its command, None for a flush or a discard beside the queue.
        place: Option<u8>,
        /// What is to be done. The bytes of a store are [`Machine::stored`](crate::Machine::stored), the sectors of a discard
        /// [`Machine::discarded`](crate::Machine::discarded).
        what: What,
    },
    /// The interrupt line is up, or down, from now on.
    Line(bool),
    /// A message is due, where messages stand for the line.
    Message,
    /// A FIS for the device of the caller's own at this port: [`Machine::take_frame`](crate::Machine::take_frame) gives it.
    ToDevice(u8),
    /// The device at this port begins anew. If it is the caller's own, what it had to do is gone, and its signature is next.
    Begins(u8),
}
