//! Writing tables.

ghost use Rattle.std.specs.Prelude.{◌≡◌, ℕ, ◌+◌, ◌*◌, ◌<◌, ◌≤◌, All, false, None, length};
ghost use Rattle.host_memory.specs.Memory.{overwritten};
ghost use Rattle.host_memory.specs.Reading.{have_overlap as have_overlap_of, shares_with as shares_with_of, prds_at, read_fault};
ghost use Rattle.host_memory.specs.Place.{total_of as total};
ghost use Rattle.host_memory.specs.Writing.{CanBeWritten, IsUsable, entry_bytes, table_bytes};

use crate::table::{Prd, share_byte};

// The sixteen bytes of an entry.
fn entry(prd: Prd) -> [u8; 16]
    requires { CanBeWritten prd }
    ensures bytes { result ≡ entry_bytes prd }
    ensures small { prd.address < 4294967296 }
{
    let address = prd.address.to_le_bytes();
    let last = (prd.bytes - 1).to_le_bytes();
    [
        address[0], address[1], address[2], address[3], 0, 0, 0, 0, 0, 0, 0, 0, last[0], last[1],
        last[2], last[3],
    ]
}

/// Writes a table of these entries, each of 1 byte to 4 MiB, starting at address `at`. Every other byte
/// stays.
pub fn write_prds(structure: &mut [u8], at: u32, prds: &[Prd])
    requires room { at + 16 * length prds.now ≤ length structure.old }
    requires counts { All CanBeWritten prds.now }
    ensures written { structure.new ≡ overwritten structure.old at (table_bytes prds.now) }
    ensures reads { prds_at structure.new at (length prds.now) ≡ prds.now }
    // so a table of valid entries that do not overlap can be read
    ensures readable { (client_len : ℕ) → All (IsUsable client_len) prds.now
        → have_overlap_of prds.now ≡ false → length prds.now ≤ 248
        → read_fault structure.new client_len at (length prds.now) ≡ None }
{
    let at = at as usize;
    for (i, prd) in prds.iter().enumerate() {
        let start = at + 16 * i;
        structure[start..start + 16].copy_from_slice(&entry(*prd));
    }
}

// Whether the entry shares a byte with one of these.
fn shares_with(prd: Prd, others: &[Prd]) -> bool
    ensures { result ≡ shares_with_of prd others.now }
{
    others.iter().any(|other| share_byte(prd, *other))
}

/// Whether two of these entries share a byte.
pub fn have_overlap(prds: &[Prd]) -> bool
    ensures { result ≡ have_overlap_of prds.now }
{
    let mut left = prds;
    'entries: while let Some((prd, rest)) = left.split_first() {
        if shares_with(*prd, rest) {
            return true;
        }
        left = rest;
    }
    false
}

/// The sum of the byte counts of these entries.
pub fn total_of(prds: &[Prd]) -> u64
    requires { length prds.now ≤ 65536 }
    ensures { result ≡ total prds.now }
{
    let mut sum = 0;
    for prd in prds {
        sum += u64::from(prd.bytes);
    }
    sum
}
