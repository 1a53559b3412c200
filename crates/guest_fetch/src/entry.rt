//! One entry of a table.

ghost use Rattle.std.specs.Prelude.{◌≡◌, ◌+◌, ◌*◌, ◌<◌, ◌≤◌, length};
ghost use Rattle.guest_fetch.specs.Entries.{dword_at, entries_at, entry_at, entry_fault, entry_of_dwords, first_fault as first_fault_of};

use byteorder::{ByteOrder, LittleEndian};
use thiserror::Error;

/// An entry of a command's table, a Physical Region Descriptor (AHCI 1.3.1, section 4.2.3.3): `bytes` bytes of the
/// command lie in the guest's memory, from `address` on.
#[derive(Clone, Copy, Debug, PartialEq, Eq)]
pub struct Entry {
    /// The address of the first byte (DBA, DBAU).
    pub address: u64,
    /// The number of bytes, 1 to 4 MiB. The field of the table (DBC) holds one less.
    pub bytes: u32,
    /// The host is to be told once its last byte was moved (I).
    pub interrupt: bool,
}

/// What the standard forbids in an entry.
#[derive(Clone, Copy, Debug, PartialEq, Eq, Error)]
pub enum EntryFault {
    /// Bit 0 of the address is 1.
    #[error("address {found} is odd")]
    OddAddress {
        /// The address.
        found: u64,
    },
    /// The byte count is odd.
    #[error("byte count {found} is odd")]
    OddCount {
        /// The count.
        found: u32,
    },
    /// It has bytes past the last address of 64 bits.
    #[error("{bytes} bytes at {address} pass the last address")]
    PastEnd {
        /// The address of its first byte.
        address: u64,
        /// How many bytes it has.
        bytes: u32,
    },
}

/// An entry that is forbidden.
#[derive(Clone, Copy, Debug, PartialEq, Eq, Error)]
#[error("entry {index}: {fault}")]
pub struct FaultyEntry {
    /// Its index in the table.
    pub index: u16,
    /// Why.
    pub fault: EntryFault,
}

pub(crate) fn dword(raw: &[u8], at: usize) -> u32
    requires { at + 4 ≤ length raw.now }
    ensures { result ≡ dword_at raw.now at }
{
    LittleEndian::read_u32(&raw[at..])
}

#[tactic(auto, unfolding(crate::specs::Entries::entry_of_dwords))]
fn entry_of(lower: u32, upper: u32, last: u32) -> Entry
    ensures is { result ≡ entry_of_dwords lower upper last }
    ensures some { 0 < result.bytes }
    ensures most { result.bytes ≤ 4194304 }
{
    Entry {
        address: u64::from(lower) + u64::from(upper) * 0x1_0000_0000,
        bytes: last % 0x40_0000 + 1,
        interrupt: last >> 31 & 1 == 1,
    }
}

// The entry in the 16 bytes at this place.
pub(crate) fn read_entry(raw: &[u8], at: usize) -> Entry
    requires { at + 16 ≤ length raw.now }
    ensures is { result ≡ entry_at raw.now at }
    ensures some { 0 < result.bytes }
    ensures most { result.bytes ≤ 4194304 }
{
    entry_of(dword(raw, at), dword(raw, at + 4), dword(raw, at + 12))
}

// What the standard forbids in it.
pub(crate) fn fault(entry: Entry) -> Option<EntryFault>
    requires { 0 < entry.bytes }
    ensures { result ≡ entry_fault entry }
{
    let Entry { address, bytes, .. } = entry;
    if address % 2 == 1 {
        return Some(EntryFault::OddAddress { found: address });
    }
    if bytes % 2 == 1 {
        return Some(EntryFault::OddCount { found: bytes });
    }
    if u64::MAX - address < u64::from(bytes) - 1 {
        return Some(EntryFault::PastEnd { address, bytes });
    }
    None
}

// The first of these entries that is forbidden, as far as `len` bytes reach; `index` is that of the first.
#[tactic(auto, using(crate::proofs::EntryLemmas::entries_next))]
pub(crate) fn first_fault(raw: &[u8], count: u16, index: u16, len: u32) -> Option<FaultyEntry>
    requires raw { 16 * count ≤ length raw.now }
    requires few { index + count < 65536 }
    ensures { result ≡ first_fault_of index len (entries_at raw.now 0 count) }
{
    let mut left = len;
    for i in 0..count {
        if left == 0 {
            return None;
        }
        let entry = read_entry(raw, 16 * usize::from(i));
        if let Some(fault) = fault(entry) {
            return Some(FaultyEntry {
                index: index + i,
                fault,
            });
        }
        left = left.saturating_sub(entry.bytes);
    }
    None
}
