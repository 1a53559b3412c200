//! The memory of the host, and the PRD tables in it that describe the buffers of transfers.
#![tactic(auto)]

mod kept;
mod laws;
mod memory;
mod parts;
mod table;
mod write;

pub use laws::{scatters_are_single_writes, tables_are_of_their_bytes};
pub use memory::{HostMemory, MemoryError, Outside};
pub use parts::Parts;
pub use table::{Prd, PrdError, PrdTable, Run};
pub use write::{have_overlap, total_of, write_prds};

/// The address at which the client area begins. The structure area lies below it, from address 0 on.
pub const CLIENT_START: u32 = 0x10_0000;
/// The size of the smallest memory, in bytes: an area of 1 MiB for structures and one for clients.
pub const MIN_MEMORY: u32 = 0x20_0000;
/// The size of the largest memory, in bytes.
pub const MAX_MEMORY: u32 = 0x100_0000;
/// The largest number of entries in a table.
pub const MAX_PRDS: u16 = 248;
