//! What an export answers.

/// The answer of an export, by its number in `gefsunk.h`. For each call the header says which answers it can
/// give.
#[derive(Clone, Copy, Debug, PartialEq, Eq)]
pub enum Status {
    /// Done.
    Done = 0,
    /// The handle is not an open handle of this kind.
    Closed = 2,
    /// The handle is open already.
    Open = 3,
    /// The allocator refused memory. What may have changed the header says at the call.
    NoMemory = 4,
    /// A port multiplier cannot have this many ports.
    BadPorts = 5,
    /// The port multiplier has no such port.
    NoPort = 6,
    /// A FIS cannot have this many bytes.
    BadLength = 7,
    /// The type of the FIS is known, but the standard gives it another length.
    WrongLength = 8,
    /// The room of the caller is too short. Nothing has changed.
    TooShort = 9,
    /// There is nothing to give.
    Nothing = 10,
    /// The place that the FIS needs is taken. The caller keeps the FIS.
    Full = 11,
    /// The FIS was dropped: nobody takes it.
    Dropped = 12,
    /// A device is at the port.
    AlreadyThere = 13,
    /// No device is at the port.
    NotThere = 14,
    /// The port has no register with that number.
    NoRegister = 15,
    /// The port has no number left for another device.
    Spent = 16,
    /// An access to registers cannot have this many bytes.
    BadWidth = 20,
    /// A disk cannot have this many sectors.
    BadSectors = 21,
    /// The text is longer than its field, or has a character that is not printable.
    BadText = 22,
    /// A queue cannot have this many commands.
    BadDepth = 23,
    /// No medium turns at this speed.
    BadRotation = 24,
    /// A physical sector cannot have this many bytes.
    BadPhysical = 25,
    /// The commands of a disk cannot be bounded by this many bytes.
    BadLimit = 26,
    /// What is at the port is plugged in already.
    PluggedIn = 27,
    /// No event asks for such bytes.
    NotWanted = 28,
    /// The disk that asked is not at the port any more.
    OtherDisk = 29,
    /// No request of this number is out.
    NotOut = 30,
    /// The request asked for something else.
    OtherKind = 31,
    /// The load asked for another number of bytes.
    OtherLength = 32,
    /// The request does not have this sector.
    OtherSector = 33,
    /// A request cannot fail in this way.
    BadError = 34,
    /// The bytes are not the state of a machine.
    NotAState = 35,
    /// The state has a version that this library does not read.
    OtherVersion = 36,
    /// The state is damaged.
    BadState = 37,
}

impl Status {
    ghost use Rattle.std.specs.Prelude.{◌≡◌, true};
    ghost use Rattle.gefsunk.specs.Statuses.{is_code, status_of};

    /// The number of the answer in C. 1 is left to the C side, for a null pointer.
    pub fn code(self) -> u32
        ensures means { status_of result ≡ self }
        ensures known { is_code result ≡ true }
    {
        self as u32
    }
}
