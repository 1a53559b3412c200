//! Why a command is not taken.

use crate::entry::FaultyEntry;
use thiserror::Error;

/// A part of a command.
#[derive(Clone, Copy, Debug, PartialEq, Eq, Error)]
pub enum Part {
    /// Its header, 32 bytes of the command list.
    #[error("header")]
    Header = 1,
    /// Its FIS.
    #[error("command FIS")]
    Fis = 2,
    /// Some of the entries of its table.
    #[error("table")]
    Entries = 3,
}

/// Why a command is not taken: what was found, and what is wanted.
#[derive(Clone, Copy, Debug, PartialEq, Eq, Error)]
pub enum Refusal {
    /// There is no memory where this part of it lies.
    #[error("no memory for the {missing}")]
    NoMemory {
        /// The part that was wanted.
        missing: Part,
    },
    /// A of the header is 1: it is an ATAPI command.
    #[error("A is 1, wanted 0")]
    Packet,
    /// CFL of the header is none that the standard allows.
    #[error("CFL is {found}, wanted 2 to 16")]
    FisLength {
        /// CFL.
        found: u8,
    },
    /// The table goes past the last address of 64 bits.
    #[error("a table of {entries} entries at {table} passes the last address")]
    TableEnd {
        /// Where the table begins.
        table: u64,
        /// How many entries it has.
        entries: u16,
    },
    /// The FIS is no Register Host to Device FIS: it has another type, or fewer than 5 dwords.
    #[error("FIS of type {found} in {dwords} dwords, wanted 39 in 5")]
    NoCommand {
        /// Its type, byte 0; that of a Register Host to Device FIS is 27h.
        found: u8,
        /// How many dwords it has.
        dwords: u8,
    },
    /// The PM Port of the FIS is not that of the header (PMP).
    #[error("PM Port is {found}, wanted {wanted}")]
    PmPort {
        /// That of the FIS.
        found: u8,
        /// That of the header.
        wanted: u8,
    },
    /// An entry that the command's bytes reach is forbidden.
    #[error("{entry}")]
    Entry {
        /// Which, and why.
        entry: FaultyEntry,
    },
}
