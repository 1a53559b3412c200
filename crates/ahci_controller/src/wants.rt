//! What is wanted of the guest, and what is to be written to it.

ghost use Rattle.std.specs.Prelude.{◌≡◌};
ghost use Rattle.ahci_controller.specs.Outbox.{no_writes, opening_wants, without_wants};

mod saved;

use guest_fetch::Move;

/// What is wanted of the guest.
#[derive(Clone, Copy, Debug, PartialEq, Eq)]
pub struct Wants {
    /// The slots that were written to PxCI, and whose commands are still being read, as a mask.
    pub pending: u32,
    /// Those for which bytes are wanted, and neither supplied nor missed yet.
    pub out: u32,
    /// The devices for which a write's bytes are wanted, and neither gathered nor missed yet.
    pub feeding: u32,
    /// How many wants there were. Each has its number.
    pub count: u64,
    /// By slot: the number of its last want.
    pub slots: [u64; 32],
    /// By device: the number of the last want of its Data.
    pub devices: [u64; 16],
}

/// Bytes of a Data FIS that are to be written to the guest.
#[derive(Clone, Copy, Debug, PartialEq, Eq)]
pub struct Carried {
    /// The slot of their command.
    pub slot: u8,
    /// The offset of the first of them in the command's bytes.
    pub offset: u32,
    /// Its offset in the payload.
    pub from: u32,
    /// How many there are.
    pub len: u32,
}

/// What is to be written to the guest, in this order: for the frame that was taken last, and for bytes that were moved.
#[derive(Clone, Copy, Debug, PartialEq, Eq)]
pub struct Writes {
    /// Bytes of its payload.
    pub payload: Option<Carried>,
    /// The frame itself, to the received area.
    pub posted: Option<Move>,
    /// The slots whose PRDBC is to be written, as a mask.
    pub counted: u32,
}

impl Wants {
    /// As they open.
    pub(crate) fn new() -> Wants
        ensures { result ≡ opening_wants }
    {
        Wants {
            pending: 0,
            out: 0,
            feeding: 0,
            count: 0,
            slots: [0; 32],
            devices: [0; 16],
        }
    }

    /// Without any of them.
    pub(crate) fn dropped(&mut self)
        ensures { self.new ≡ without_wants self.old }
    {
        self.pending = 0;
        self.out = 0;
        self.feeding = 0;
    }
}

impl Writes {
    /// Nothing.
    pub(crate) fn none() -> Writes
        ensures { result ≡ no_writes }
    {
        Writes {
            payload: None,
            posted: None,
            counted: 0,
        }
    }
}
