//! The two areas of the host's memory.

ghost use Rattle.std.specs.Prelude.{◌≡◌, ◌+◌, ◌-◌, ◌≤◌, ◌↔◌, false, length, IfOk, IsOk, OnOk, OnErr};
ghost use Rattle.std.specs.Result.{IsErrOf};
ghost use Rattle.std.specs.Borrow.{sem};
ghost use Rattle.host_memory.specs.Memory.{IsHostMemory, client_start, is_memory_size, zeros as zeros_of, zeroed, overwritten};
ghost use Rattle.host_memory.specs.Place.{LiesInClient};

use crate::kept::Tables;
use crate::{CLIENT_START, MAX_MEMORY, MIN_MEMORY};
use std::alloc::{AllocError, Global};
use std::marker::Model;
use thiserror::Error;

/// Why a memory cannot be made.
#[derive(Clone, Copy, Debug, PartialEq, Eq, Error)]
pub enum MemoryError {
    /// The size is below 2 MiB, above 16 MiB or odd.
    #[error("a memory has 2 to 16 MiB and an even number of bytes")]
    BadSize = 1,
    /// An allocation was refused.
    #[error("out of memory")]
    OutOfMemory = 2,
}

impl From<AllocError> for MemoryError {
    ghost use Rattle.std.specs.Prelude.{◌≡◌};
    ghost use Rattle.host_memory.specs.declared.memory.MemoryError.TheVariants.{OutOfMemory};

    ghost from_gives = { λ _ e. e ≡ OutOfMemory };

    fn from(_e: AllocError) -> MemoryError {
        MemoryError::OutOfMemory
    }
}

/// The bytes do not all lie in the client area.
#[derive(Clone, Copy, Debug, PartialEq, Eq, Error)]
#[error("outside the client area")]
pub struct Outside;

/// The memory that the driver and the host port share. The structure area comes first; it holds the command
/// list, the command tables and the received FIS area. The client area follows; it holds the data of
/// transfers.
///
/// A PRD table that was read is kept, and not read again until its bytes may be written or 32 others were read.
#[derive(Drop)]
pub struct HostMemory {
    pub(crate) structure: Vec<u8>,
    pub(crate) client: Vec<u8>,
    pub(crate) tables: Tables,
}

impl Model for HostMemory {
    ghost use Rattle.host_memory.specs.Kept.{IsKeeping};
    ghost use Rattle.host_memory.specs.Memory.{Memory};

    ghost Value = { Memory };

    ghost view = { λ m. record { structure = m.structure.items; client = m.client.items } };

    ghost invariant = { λ m. IsKeeping m.structure.items m.client.items m.tables };
}

// This many bytes, each of them 0.
#[tactic(auto, unfolding(crate::specs::Memory::zeros))]
fn zeros(alloc: Global, count: usize) -> Result<Vec<u8>, AllocError>
    ensures { IfOk result (λ bytes. bytes.items ≡ zeros_of count) }
{
    vec![in alloc; 0; count]
}

// Writes the bytes over those of the area, from `at` on.
fn overwrite(area: &mut Vec<u8>, at: usize, bytes: &[u8])
    requires { at + length bytes.now ≤ length area.old.items }
    ensures { area.new.items ≡ overwritten area.old.items at bytes.now }
{
    area[at..at + bytes.len()].copy_from_slice(bytes);
}

impl HostMemory {
    ghost use Rattle.host_memory.specs.Lent.{LendsClient, LendsStructure};

    /// A memory of `len` bytes, each of them 0.
    pub fn new(alloc: Global, len: u32) -> Result<HostMemory, MemoryError>
        ensures bad_size { IsErrOf result MemoryError.BadSize ↔ (is_memory_size len ≡ false) }
        ensures ok { IfOk result (λ memory. memory ≡ zeroed len) }
    {
        if len < MIN_MEMORY || len > MAX_MEMORY || len % 2 != 0 {
            return Err(MemoryError::BadSize);
        }
        let structure = zeros(alloc, CLIENT_START as usize)?;
        let client = zeros(alloc, (len - CLIENT_START) as usize)?;
        let tables = Tables::new(alloc)?;
        Ok(HostMemory {
            structure,
            client,
            tables,
        })
    }

    /// A law for callers; it runs no code. Each memory keeps the sizes of its areas.
    pub fn keeps_rules(&self)
        ensures { IsHostMemory self.now }
    {
        let _opened = &self.tables;
    }

    /// The structure area: the bytes from address 0 on.
    pub fn structure(&self) -> &[u8]
        ensures structure { result.now ≡ self.now.structure }
        ensures sized { IsHostMemory self.now }
    {
        self.structure.as_slice()
    }

    /// The structure area, for writing. No table is kept behind it.
    pub fn structure_mut(&mut self) -> &mut [u8]
        ensures* lends { sem 𝓛 (LendsStructure self.entry result) }
        ensures structure { result.now ≡ self.old.structure }
        ensures sized { IsHostMemory self.old }
    {
        self.tables.clear();
        self.structure.as_mut_slice()
    }

    /// Writes the bytes to the structure area, from the address `at` on. Where tables that are kept may have one of
    /// them, none is kept behind it.
    pub fn put_structure(&mut self, at: u32, bytes: &[u8])
        requires inside { at + length bytes.now ≤ client_start }
        ensures structure { self.new.structure ≡ overwritten self.old.structure at bytes.now }
        ensures client { self.new.client ≡ self.old.client }
    {
        let start = at as usize;
        self.tables.spare(start, start + bytes.len());
        overwrite(&mut self.structure, start, bytes);
    }

    /// The client area: the bytes from address 100000h on.
    pub fn client(&self) -> &[u8]
        ensures client { result.now ≡ self.now.client }
        ensures sized { IsHostMemory self.now }
    {
        self.client.as_slice()
    }

    /// Writes the bytes to the client area, starting at the address `at`. Where they do not all lie in it,
    /// nothing is written.
    pub fn put_client(&mut self, at: u32, bytes: &[u8]) -> Result<(), Outside>
        ensures inside { IsOk result
            ↔ LiesInClient (length self.old.client) at (length bytes.now) }
        ensures ok { OnOk result (self.new ≡ record self.old {
          client = overwritten self.old.client (at - client_start) bytes.now;
        }) }
        ensures err { OnErr result (self.new ≡ self.old) }
    {
        if at < CLIENT_START {
            return Err(Outside);
        }
        let start = (at - CLIENT_START) as usize;
        if start > self.client.len() || bytes.len() > self.client.len() - start {
            return Err(Outside);
        }
        self.client[start..start + bytes.len()].copy_from_slice(bytes);
        Ok(())
    }

    /// The structure area for reading, and the client area for writing.
    pub fn split(&mut self) -> (&[u8], &mut [u8])
        ensures* lends { sem 𝓛 (LendsClient self.entry result.1) }
        ensures structure { result.0.now ≡ self.old.structure }
        ensures client { result.1.now ≡ self.old.client }
        ensures sized { IsHostMemory self.old }
    {
        (self.structure.as_slice(), self.client.as_mut_slice())
    }
}
