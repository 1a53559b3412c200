//! Why a run of the program ends before its work is done.

ghost use Rattle.std.specs.Prelude.{◌≡◌};

use crate::wanted::Wanted;
use std::alloc::AllocError;
use std::io;
use thiserror::Error;

/// Why a run ends before its work is done.
#[derive(Clone, Copy, Debug, PartialEq, Eq, Error)]
pub enum Failure {
    /// A line of the input is refused. Lines count from 1.
    #[error("line {line}: {refusal}")]
    Line {
        line: usize,
        refusal: Refusal,
        /// The word for which it is refused, counted from 1; 0 means the line as a whole.
        word: usize,
        /// What should stand there.
        wanted: Wanted,
    },
    /// What was printed is not what this line expected, counted from 1, or nothing more was printed.
    #[error("line {line}: expect")]
    Unexpected {
        line: usize,
    },
    /// The program does not know the words of the command line.
    #[error("command line refused")]
    CommandLine,
    /// The allocator refused memory.
    #[error("out of memory")]
    OutOfMemory,
    /// Standard input could not be read, or standard output could not be written.
    #[error("a read or a write failed")]
    ReadOrWrite,
    /// The file in which the disk at this port has its sectors could not be read or written.
    #[error("the file of disk {port} cannot be read or written")]
    DiskFile {
        port: u8,
    },
}

/// Why a line of the input is refused.
#[derive(Clone, Copy, Debug, PartialEq, Eq, Error)]
pub enum Refusal {
    /// The line is too long, or holds a byte past the limit of the input.
    #[error("size")]
    Size,
    /// The line's first word, or the name of a step, is not known.
    #[error("command")]
    Command,
    /// The line is about the making of the world, and comes too late.
    #[error("order")]
    Order,
    /// A word is missing, is one too many, or cannot be read.
    #[error("number")]
    Number,
    /// An odd number of digits, or a character that is not a digit.
    #[error("hex")]
    Hex,
    /// A number is outside its limits.
    #[error("range")]
    Range,
    /// A file cannot be opened to be read and written, or no disk can have its sectors there.
    #[error("file")]
    File,
    /// A step or a request is refused where none may be.
    #[error("refused")]
    Refused,
}

impl Failure {
    ghost use Rattle.trace_text.specs.Statuses.{status_of};

    /// The exit status of a run that ends in this way.
    pub fn status(self) -> u8
        ensures { result ≡ status_of self }
    {
        match self {
            Failure::Line { .. } => 1,
            Failure::CommandLine => 2,
            Failure::OutOfMemory => 3,
            Failure::ReadOrWrite | Failure::DiskFile { .. } => 4,
            Failure::Unexpected { .. } => 6,
        }
    }
}

impl From<AllocError> for Failure {
    ghost use Rattle.trace_text.specs.declared.failure.Failure.TheVariants.{OutOfMemory};

    ghost from_gives = { λ _ e. e ≡ OutOfMemory };

    fn from(_: AllocError) -> Failure {
        Failure::OutOfMemory
    }
}

impl From<io::Error> for Failure {
    fn from(error: io::Error) -> Failure {
        match error.kind() {
            io::ErrorKind::OutOfMemory => Failure::OutOfMemory,
            _ => Failure::ReadOrWrite,
        }
    }
}
