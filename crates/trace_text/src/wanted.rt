//! What a line should have had when it is refused, in words.

use std::fmt;

/// What a number of a line counts or names.
#[derive(Clone, Copy, Debug, PartialEq, Eq)]
pub enum Quantity {
    Ports,
    Capacity,
    Memory,
    GuestBytes,
    Port,
    Sectors,
    Chunk,
    BadSector,
    Lba,
    Count,
    Length,
    Rounds,
    Fises,
    Times,
}

impl Quantity {
    fn words(self) -> &'static str {
        match self {
            Quantity::Ports => "the number of ports",
            Quantity::Capacity => "the frames that a link can hold",
            Quantity::Memory => "the host's memory in MiB",
            Quantity::GuestBytes => "the bytes of the guest's memory",
            Quantity::Port => "a port",
            Quantity::Sectors => "the sectors of the disk",
            Quantity::Chunk => "the bytes of a chunk",
            Quantity::BadSector => "a sector that cannot be read",
            Quantity::Lba => "the first sector",
            Quantity::Count => "how many sectors",
            Quantity::Length => "how many bytes",
            Quantity::Rounds => "how many rounds",
            Quantity::Fises => "how many FISes",
            Quantity::Times => "how often the block comes",
        }
    }
}

/// A word that stands in a line as it is.
#[derive(Clone, Copy, Debug, PartialEq, Eq)]
pub enum Keyword {
    Capacity,
    Memory,
    Sectors,
}

impl Keyword {
    fn word(self) -> &'static str {
        match self {
            Keyword::Capacity => "capacity",
            Keyword::Memory => "memory",
            Keyword::Sectors => "sectors",
        }
    }

    /// Its bytes.
    pub fn bytes(self) -> &'static [u8] {
        self.word().as_bytes()
    }

    // What may stand in its place.
    fn hint(self) -> &'static str {
        match self {
            Keyword::Capacity | Keyword::Memory => "",
            Keyword::Sectors => ", or `file` under `run` and `guest`",
        }
    }
}

/// What a line should have had at the word for which it is refused.
#[derive(Clone, Copy, Debug, PartialEq, Eq)]
pub enum Wanted {
    /// No more words.
    Nothing,
    /// A line and an input that are not too long.
    Size,
    /// The first word of a line of `run`.
    RunLine,
    /// The first word of a line of `threads`.
    ThreadsLine,
    /// The first word of a line of `guest`.
    GuestLine,
    /// The name of a step.
    StepName,
    /// That `ports` come before all other lines.
    PortsFirst,
    /// That a line about the making of the world come before all others.
    Earlier,
    /// That a line about the making of the board come before all others.
    EarlierThanGuest,
    /// A guest's memory of which no other line has spoken.
    OneMemory,
    /// A port whose disk is not plugged in.
    DiskAway,
    /// A port whose disk is plugged in.
    DiskThere,
    /// A port about whose device no other line has spoken.
    FreePort,
    /// This word.
    Keyword(Keyword),
    /// The path of a file.
    Path,
    /// A file that can be read and written, and has 1 sector to so many.
    DiskFile(u64),
    /// A file that no other disk has.
    OtherFile,
    /// `oldest` or `newest`.
    Order,
    /// The words of a disk's plan.
    Plan,
    /// The words about a disk of a guest.
    GuestDisk,
    /// At most 16 bad sectors.
    FewerBad,
    /// A decimal number within these limits.
    Number(Quantity, u64, u64),
    /// A number of bytes that is a multiple of 512.
    WholeSectors,
    /// A hexadecimal address.
    Address,
    /// A hexadecimal address of 64 bits.
    LongAddress,
    /// `read` or `write`.
    Access,
    /// The offset of a register of the controller.
    Offset,
    /// The value of a register, in hexadecimal.
    Value,
    /// Bytes that all lie in the guest's memory.
    GuestArea,
    /// An address and a number of bytes.
    Place,
    /// Hexadecimal digits.
    Digits,
    /// An even number of hexadecimal digits.
    EvenDigits,
    /// Bytes that all lie in client memory.
    ClientArea,
    /// The offset of a register.
    Register,
    /// The text of a line.
    Text,
    /// A line `end` after a `repeat`.
    End,
    /// A `repeat` before an `end`.
    Repeat,
    /// That the block before has ended.
    OneBlock,
    /// That no step and no request be refused.
    Strict,
}

impl fmt::Display for Wanted {
    fn fmt<W: fmt::Write>(&self, f: &mut fmt::Formatter<W>) -> fmt::Result {
        match self {
            Wanted::Keyword(keyword) => write!(f, "wanted `{}`{}", keyword.word(), keyword.hint()),
            Wanted::Number(what, least, most) => write_number(*what, *least, *most, f),
            Wanted::DiskFile(most) => write!(
                f,
                "wanted a file to read and write, of 1 to {most} sectors of 512 bytes"
            ),
            other => f.write_str(other.sentence()),
        }
    }
}

fn write_number<W: fmt::Write>(
    what: Quantity,
    least: u64,
    most: u64,
    f: &mut fmt::Formatter<W>,
) -> fmt::Result {
    let what = what.words();
    write!(f, "wanted {what}, a decimal number from {least} to {most}")
}

impl Wanted {
    /// What is wanted, if it has no word and no number of its own.
    fn sentence(self) -> &'static str {
        match self {
            Wanted::Nothing | Wanted::Keyword(_) | Wanted::Number(..) | Wanted::DiskFile(_) => {
                "wanted no word more"
            }
            Wanted::Size => "wanted at most 20000 bytes in a line, and 16777216 in the input",
            Wanted::RunLine => RUN_LINES,
            Wanted::ThreadsLine => THREADS_LINES,
            Wanted::GuestLine => GUEST_LINES,
            Wanted::StepName => STEPS,
            Wanted::PortsFirst => "`ports` comes once, before all other lines",
            Wanted::Earlier => "`ports`, `disk` and `script` come before all other lines",
            Wanted::EarlierThanGuest => "`ports`, `memory` and `disk` come before all other lines",
            Wanted::OneMemory => "a line before has said where the guest's memory lies",
            Wanted::DiskAway => "the disk of this port is there already",
            Wanted::DiskThere => "the disk of this port is not there",
            Wanted::FreePort => "a line before has said what stands at this port",
            Wanted::Path => "wanted the path of a file",
            Wanted::OtherFile => "another disk has this file",
            Wanted::Order => "wanted `oldest` or `newest`",
            Wanted::Plan => {
                "wanted `order`, `chunk`, `lastfirst`, `bad`, `auto` or `stock`, each but `bad` once"
            }
            Wanted::GuestDisk => "wanted `bad` or `stock`, and `stock` once",
            Wanted::FewerBad => "wanted at most 16 sectors that cannot be read",
            Wanted::WholeSectors => "wanted a multiple of 512",
            Wanted::Address => "wanted an address, at most 8 hexadecimal digits without 0x",
            Wanted::LongAddress => "wanted an address, at most 16 hexadecimal digits without 0x",
            Wanted::Access => "wanted `read` or `write`",
            Wanted::Offset =>
                "wanted a register, as PxCMD, or its offset, at most 8 hexadecimal digits without 0x",
            Wanted::Value => "wanted a value, at most 8 hexadecimal digits without 0x",
            Wanted::GuestArea => "wanted bytes that all lie in the guest's memory",
            Wanted::Place => "wanted ADDRESS:BYTES, as 101000:512",
            Wanted::Digits => "wanted hexadecimal digits, two for each byte",
            Wanted::EvenDigits => "wanted an even number of digits, two for each byte",
            Wanted::ClientArea => {
                "wanted bytes of the client area, from 100000 to the end of memory"
            }
            Wanted::Register => "wanted a register, as PxCMD, or its offset, as `regs` shows it",
            Wanted::Text => "wanted the line that is to be printed next",
            Wanted::End => "wanted a line `end` after it",
            Wanted::Repeat => "wanted a `repeat` before it",
            Wanted::OneBlock => "a block stands in no other block",
            Wanted::Strict => "under --strict no step and no request may be refused",
        }
    }
}

const RUN_LINES: &str = "wanted ports, disk, script, came, gone, inject, step, read, write, flush, \
settle, poll, put, show, counts, faults, regs, reg, expect, repeat or end";

const THREADS_LINES: &str = "wanted ports, disk, script, read, write, flush, barrier, pull, put, \
show or counts";

const GUEST_LINES: &str = "wanted ports, memory, disk, came, gone, mmio, guest, show, settle, \
line, expect, repeat or end";

const STEPS: &str = "wanted pmpresence, disktake, disksend, pmfromdevice, pmdown, pmfromhost, \
pmup, hosttake, tick or hostpush";
