//! A guest's memory in one block.

ghost use Rattle.std.specs.Prelude.{◌≡◌, ◌+◌, ◌-◌, ◌*◌, ◌≤◌, ◌<◌, ◌^◌, ◌↔◌, length, drop, take, replicate, IfOk, IsOk, OnErr, OnOk};
ghost use Rattle.std.specs.Result.{IsErrOf};
ghost use Rattle.guest_bytes.specs.Flat.{LiesIn, MayRead, MayMiss, overwritten, written_by};
ghost use Rattle.guest_bytes.specs.Guest.{singles_from};

use std::alloc::{AllocError, Global};
use std::marker::Model;
use thiserror::Error;

/// Why such a memory cannot be made.
#[derive(Clone, Copy, Debug, PartialEq, Eq, Error)]
pub enum FlatError {
    /// It would reach past the last 64-bit address.
    #[error("past the last address")]
    PastEnd = 1,
    /// An allocation was refused.
    #[error("out of memory")]
    OutOfMemory = 2,
}

impl From<AllocError> for FlatError {
    ghost use Rattle.std.specs.Prelude.{◌≡◌};
    ghost use Rattle.guest_bytes.specs.declared.flat.FlatError.TheVariants.{OutOfMemory};

    ghost from_gives = { λ _ e. e ≡ OutOfMemory };

    fn from(_e: AllocError) -> FlatError {
        FlatError::OutOfMemory
    }
}

/// Some of the bytes are not memory of the guest.
#[derive(Clone, Copy, Debug, PartialEq, Eq, Error)]
#[error("not all of it is memory")]
pub struct NotThere;

/// A guest's memory in one block, from an address on. Nobody else writes to it. It is for tests, and for
/// guests that a scenario plays.
#[derive(Debug, Drop)]
pub struct FlatGuest {
    base: u64,
    bytes: Vec<u8>,
}

impl Model for FlatGuest {
    ghost use Rattle.guest_bytes.specs.Flat.{Block, IsBlock};

    ghost Value = { Block };

    ghost view = { λ g. record { base = g.base; bytes = g.bytes.items } };

    ghost invariant = { λ g. IsBlock (record { base = g.base; bytes = g.bytes.items }) };
}

// Writes these bytes over as many others, from `start` on.
fn overwrite(bytes: &mut Vec<u8>, start: usize, part: &[u8])
    requires { start + length part.now ≤ length bytes.old.items }
    ensures { bytes.new.items ≡ overwritten bytes.old.items start part.now }
{
    bytes[start..start + part.len()].copy_from_slice(part);
}

impl FlatGuest {
    /// A memory of `len` bytes from `base` on, all of them 0.
    pub fn new(alloc: Global, base: u64, len: u32) -> Result<FlatGuest, FlatError>
        ensures past_end { IsErrOf result FlatError.PastEnd ↔ (2 ^ 64 < base + len) }
        ensures ok { IfOk result (λ guest. guest ≡ record { base = base; bytes = replicate len 0 }) }
    {
        if len > 0 && u64::MAX - base < u64::from(len) - 1 {
            return Err(FlatError::PastEnd);
        }
        let bytes = vec![in alloc; 0; len as usize]?;
        Ok(FlatGuest { base, bytes })
    }

    /// Its bytes, in the order of their addresses.
    pub fn bytes(&self) -> &[u8]
        ensures { result.now ≡ self.now.bytes }
    {
        self.bytes.as_slice()
    }

    // Where these bytes begin in the block, if all of them lie in it.
    fn start_of(&self, at: u64, len: usize) -> Result<usize, NotThere>
        ensures inside { IsOk result ↔ LiesIn self.now at len }
        ensures ok { IfOk result (λ start. start ≡ at - self.now.base) }
    {
        if at < self.base {
            return Err(NotThere);
        }
        let start = at - self.base;
        if start > self.bytes.len() as u64 || len > self.bytes.len() - start as usize {
            return Err(NotThere);
        }
        Ok(start as usize)
    }

    /// Writes the bytes from an address on, or none of them if they do not all lie in the block.
    pub fn put(&mut self, at: u64, bytes: &[u8]) -> Result<(), NotThere>
        ensures inside { IsOk result ↔ LiesIn self.old at (length bytes.now) }
        ensures ok { OnOk result (self.new ≡ record self.old {
          bytes = written_by self.old.base (singles_from at bytes.now) self.old.bytes;
        }) }
        ensures err { OnErr result (self.new ≡ self.old) }
    {
        let start = self.start_of(at, bytes.len())?;
        overwrite(&mut self.bytes, start, bytes);
        Ok(())
    }

    /// Reads as many bytes as there is room for, from an address on. After an error the room has arbitrary
    /// bytes.
    pub fn read(&self, at: u64, into: &mut [u8]) -> Result<(), NotThere>
        ensures long { length into.new ≡ length into.old }
        ensures read { OnOk result (MayRead self.now at into.new) }
        ensures missed { OnErr result (MayMiss self.now at (length into.old)) }
    {
        let start = self.start_of(at, into.len())?;
        into.copy_from_slice(&self.bytes.as_slice()[start..start + into.len()]);
        Ok(())
    }
}
