//! What no clause says: values from outside, and that calls succeed.

use host_memory::{
    HostMemory, MemoryError, Outside, PrdError, PrdTable, Run, scatters_are_single_writes,
    tables_are_of_their_bytes,
};
use std::alloc::{AllocError, Global};
use std::marker::Model;
use std::process::Abort;
use std::test::Fail;

const MIB: u32 = 0x10_0000;

/// An entry of a table: its address, the upper half of the address and the field of the byte count.
type Entry = (u32, u32, u32);

/// A step of a test.
#[derive(Clone, Copy)]
enum Step {
    /// Bytes are put at an address.
    Puts(u32, &'static [u8]),
    /// They are not, as they lie outside.
    CannotPut(u32, &'static [u8]),
    /// The byte at an address, if it lies in the client area.
    Shows(usize, Option<u8>),
    /// An entry with this number is written to the table at 2000h.
    Lists(usize, Entry),
    /// The bytes 0, 1, .. 255, 0, .. are delivered by the table, which is of 512 bytes.
    Delivers,
    /// The lengths of the parts of so many bytes of the transfer of a table of so many entries, from this one on.
    Parts(u16, u32, u32, &'static [usize]),
    /// These bytes joined.
    Joins(u16, u32, u32, &'static [u8]),
    /// The rest of an entry of a table of three, from this byte of the transfer on, is filled with AAh: where it begins, and
    /// how many bytes it has.
    Fills(u32, Option<(usize, usize)>),
    /// The length of the transfer of the table of so many entries, None where it cannot be read.
    Totals(u16, Option<u32>),
    /// Bytes are put at an address of the structure area.
    Writes(u32, &'static [u8]),
    /// These bytes are delivered by the table of so many entries, from a byte of the transfer on.
    Scatters(u16, u32, &'static [u8]),
}

/// A memory of 2 MiB. Clauses see it as a number, and its functions have no contract, so a test is proved with little
/// work.
#[derive(Drop)]
struct Rig {
    alloc: Global,
    memory: HostMemory,
}

impl Model for Rig {
    ghost use Rattle.std.specs.Prelude.{ℕ};

    ghost Value = { ℕ };

    ghost view = { λ _. 0 };
}

/// The bytes of an entry.
fn entry_bytes((address, upper, field): Entry) -> [u8; 16] {
    let a = address.to_le_bytes();
    let u = upper.to_le_bytes();
    let f = field.to_le_bytes();
    [
        a[0], a[1], a[2], a[3], u[0], u[1], u[2], u[3], 0, 0, 0, 0, f[0], f[1], f[2], f[3],
    ]
}

/// The bytes of two entries.
fn table(first: Entry, second: Entry) -> [u8; 32] {
    let mut bytes = [0; 32];
    bytes[..16].copy_from_slice(&entry_bytes(first));
    bytes[16..].copy_from_slice(&entry_bytes(second));
    bytes
}

/// Writes the bytes to the places of the two entries at 2000h, if they are the whole transfer, and returns its
/// length.
fn deliver(memory: &mut HostMemory, bytes: &[u8]) -> Result<u32, PrdError> {
    let (structure, client) = memory.split();
    let table = match PrdTable::read(structure, client.len() as u32, 0x2000, 2) {
        Ok(table) => table,
        Err(error) => return Err(error),
    };
    table.has_own_places();
    let total = table.total();
    if total as usize == bytes.len() {
        table.scatter(client, 0, bytes);
    }
    Ok(total)
}

/// The lengths of the parts of these bytes of the transfer whose table, of this many entries, lies at 2000h,
/// and the parts joined.
fn parts_of(
    alloc: Global,
    memory: &HostMemory,
    count: u16,
    offset: u32,
    len: u32,
) -> Result<(Vec<usize>, Vec<u8>), Fail> {
    let client = memory.client();
    if client.len() != 0x10_0000 {
        return Err(Fail::from("not 2 MiB"));
    }
    let table = PrdTable::read(memory.structure(), 0x10_0000, 0x2000, count)?;
    let mut joined = Vec::new(alloc);
    let mut sizes = Vec::new(alloc);
    if u64::from(offset) + u64::from(len) > u64::from(table.total()) {
        return Ok((sizes, joined));
    }
    for part in table.parts(client, offset, len) {
        sizes.push(part.len())?;
        joined.extend_from_slice(part)?;
    }
    Ok((sizes, joined))
}

/// Fills the rest of an entry, from this byte of the transfer on. Its table of three entries lies at 2000h.
/// Returns where that rest begins and how many bytes it has.
fn fill_from(memory: &mut HostMemory, offset: u32, byte: u8) -> Option<Run> {
    let (structure, client) = memory.split();
    let client_len = client.len() as u32;
    let Ok(table) = PrdTable::read(structure, client_len, 0x2000, 3) else {
        return None;
    };
    let run = table.run_from(offset)?;
    let (_, from) = client.split_at_mut(run.start);
    let (part, _) = from.split_at_mut(run.len);
    part.fill(byte);
    Some(run)
}

/// The bytes 0, 1, .. 255, 0, ..
fn counting() -> [u8; 512] {
    let mut data = [0u8; 512];
    for (i, byte) in data.iter_mut().enumerate() {
        *byte = (i % 256) as u8;
    }
    data
}

impl Rig {
    fn shows(&self, address: usize, byte: Option<u8>) -> bool {
        match address.checked_sub(0x10_0000) {
            Some(index) => self.memory.client().get(index).copied() == byte,
            None => byte.is_none(),
        }
    }

    fn lists(&mut self, number: usize, entry: Entry) -> bool {
        let at = number.wrapping_mul(16).wrapping_add(0x2000);
        let Some(rest) = self.memory.structure_mut().get_mut(at..) else {
            return false;
        };
        let Some(place) = rest.get_mut(..16) else {
            return false;
        };
        place.copy_from_slice(&entry_bytes(entry));
        true
    }

    fn parts(&self, count: u16, offset: u32, len: u32, sizes: &[usize]) -> Result<bool, Fail> {
        let (found, joined) = parts_of(self.alloc, &self.memory, count, offset, len)?;
        Ok(found.as_slice() == sizes && joined.len() == len as usize)
    }

    fn joins(&self, count: u16, offset: u32, len: u32, bytes: &[u8]) -> Result<bool, Fail> {
        let (_, joined) = parts_of(self.alloc, &self.memory, count, offset, len)?;
        Ok(joined.as_slice() == bytes)
    }

    fn fills(&mut self, offset: u32, wanted: Option<(usize, usize)>) -> bool {
        match fill_from(&mut self.memory, offset, 0xAA) {
            Some(Run { start, len }) => wanted == Some((start, len)),
            None => wanted.is_none(),
        }
    }

    fn table_says(&self, count: u16, total: Option<u32>) -> bool {
        match self.memory.table(0x2000, count) {
            Some(table) => total == Some(table.total()),
            None => total.is_none(),
        }
    }

    fn writes(&mut self, address: u32, bytes: &[u8]) -> bool {
        let fits = bytes.len() <= 0x1000 && address <= 0xF_0000;
        if fits {
            self.memory.put_structure(address, bytes);
        }
        fits
    }

    fn scatters(&mut self, count: u16, offset: u32, bytes: &[u8]) -> bool {
        let Some(table) = self.memory.table(0x2000, count) else {
            return false;
        };
        let fits = u64::from(offset) + bytes.len() as u64 <= u64::from(table.total());
        if fits {
            self.memory.scatter(0x2000, count, offset, bytes);
        }
        fits
    }

    /// Whether a step is as it says.
    fn passes(&mut self, step: Step) -> Result<bool, Fail> {
        match step {
            Step::Parts(count, offset, len, sizes) => self.parts(count, offset, len, sizes),
            Step::Joins(count, offset, len, bytes) => self.joins(count, offset, len, bytes),
            _ => Ok(self.is_so(step)),
        }
    }

    fn is_so(&mut self, step: Step) -> bool {
        match step {
            Step::Puts(address, bytes) => self.memory.put_client(address, bytes) == Ok(()),
            Step::CannotPut(address, bytes) => {
                self.memory.put_client(address, bytes) == Err(Outside)
            }
            Step::Shows(address, byte) => self.shows(address, byte),
            Step::Lists(number, entry) => self.lists(number, entry),
            Step::Delivers => deliver(&mut self.memory, &counting()) == Ok(512),
            Step::Fills(offset, wanted) => self.fills(offset, wanted),
            Step::Totals(count, total) => {
                self.memory.total(0x2000, count) == total && self.table_says(count, total)
            }
            Step::Writes(address, bytes) => self.writes(address, bytes),
            Step::Scatters(count, offset, bytes) => self.scatters(count, offset, bytes),
            _ => false,
        }
    }

    /// The number of the first step that is not as it says.
    fn first_wrong(&mut self, steps: &[Step]) -> Result<Option<usize>, Fail> {
        for (i, step) in steps.iter().enumerate() {
            if !self.passes(*step)? {
                return Ok(Some(i));
            }
        }
        Ok(None)
    }
}

/// Each step of a memory of 2 MiB is as it says.
fn play(rt: &impl Abort, alloc: Global, steps: &[Step]) -> Result<(), Fail> {
    let memory = HostMemory::new(alloc, 0x20_0000)?;
    let mut rig = Rig { alloc, memory };
    let wrong = rig.first_wrong(steps)?;
    assert_eq!(rt; wrong, None, "the number of a step");
    Ok(())
}

/// Whether a memory of a size has its two areas.
fn has_areas(alloc: Global, len: u32) -> Result<bool, MemoryError> {
    let memory = HostMemory::new(alloc, len)?;
    let client = (len as usize).saturating_sub(1_048_576);
    Ok(memory.structure().len() == 1_048_576 && memory.client().len() == client)
}

#[test]
fn finds_memory_that_is_there(rt: HostRuntime) -> Result<(), MemoryError> {
    assert!(rt; has_areas(rt.alloc(), 2_097_152)? && has_areas(rt.alloc(), 16_777_216)?);
    Ok(())
}

fn is_bad_size(alloc: Global, len: u32) -> bool {
    matches!(HostMemory::new(alloc, len), Err(MemoryError::BadSize))
}

/// A structure area alone is not a memory; odd sizes and sizes past the limits are refused.
#[test]
fn refuses_sizes(rt: HostRuntime) {
    for len in [0, 1_048_576, 2_097_150, 2_097_153, 16_777_217, 16_777_218] {
        assert!(rt; is_bad_size(rt.alloc(), len), "{len}");
    }
}

static KEPT: [Step; 13] = [
    Step::Lists(0, (0x10_0000, 0, 255)),
    Step::Lists(1, (0x10_0100, 0, 255)),
    Step::Totals(2, Some(512)),
    Step::Totals(1, Some(256)),
    Step::Scatters(2, 255, &[7, 8]),
    Step::Shows(0x10_00FF, Some(7)),
    Step::Shows(0x10_0100, Some(8)),
    Step::Writes(0x1FF0, &[9; 16]),
    Step::Totals(2, Some(512)),
    Step::Writes(0x200C, &[0xFF, 1]),
    Step::Totals(1, Some(512)),
    Step::Totals(2, None),
    Step::Totals(0, Some(0)),
];

/// A table that is kept is read again once its bytes changed.
#[test]
fn kept_tables_follow_their_bytes(rt: HostRuntime) -> Result<(), Fail> {
    play(&rt, rt.alloc(), &KEPT)
}

static PUTS: [Step; 14] = [
    Step::Puts(0x10_0000, &[1, 2]),
    Step::Puts(0x1F_FFFF, &[3]),
    Step::Puts(0x20_0000, &[]),
    Step::CannotPut(0x1F_FFFF, &[4, 5]),
    Step::CannotPut(0x20_0000, &[4]),
    Step::CannotPut(0x20_0001, &[]),
    Step::CannotPut(0x0F_FFFF, &[]),
    Step::CannotPut(u32::MAX, &[4]),
    Step::Shows(0x10_0000, Some(1)),
    Step::Shows(0x10_0001, Some(2)),
    Step::Shows(0x10_0002, Some(0)),
    Step::Shows(0x1F_FFFE, Some(0)),
    Step::Shows(0x1F_FFFF, Some(3)),
    Step::Shows(0x20_0000, None),
];

#[test]
fn puts_client_bytes(rt: HostRuntime) -> Result<(), Fail> {
    play(&rt, rt.alloc(), &PUTS)
}

static SCATTERS: [Step; 13] = [
    Step::Lists(0, (0x10_1000, 0, 0x12B)),
    Step::Lists(1, (0x10_2000, 0, 0xD3)),
    Step::Puts(0x10_112C, &[0xEE]),
    Step::Delivers,
    Step::Shows(0x10_0FFF, Some(0)),
    Step::Shows(0x10_1000, Some(0)),
    Step::Shows(0x10_1001, Some(1)),
    Step::Shows(0x10_112B, Some(0x2B)),
    Step::Shows(0x10_112C, Some(0xEE)),
    Step::Shows(0x10_1FFF, Some(0)),
    Step::Shows(0x10_2000, Some(0x2C)),
    Step::Shows(0x10_20D3, Some(0xFF)),
    Step::Shows(0x10_20D4, Some(0)),
];

#[test]
fn scatters_a_transfer(rt: HostRuntime) -> Result<(), Fail> {
    tables_are_of_their_bytes();
    scatters_are_single_writes();
    play(&rt, rt.alloc(), &SCATTERS)
}

static PARTS: [Step; 23] = [
    Step::Lists(0, (0x10_1000, 0, 0x12B)),
    Step::Lists(1, (0x10_2000, 0, 0xD3)),
    Step::Puts(0x10_1000, &[1, 2]),
    Step::Puts(0x10_112A, &[3, 4, 0xEE]),
    Step::Puts(0x10_2000, &[5, 6]),
    Step::Puts(0x10_20D2, &[7, 8, 0xEE]),
    Step::Parts(2, 0, 2, &[2]),
    Step::Joins(2, 0, 2, &[1, 2]),
    Step::Parts(2, 298, 4, &[2, 2]),
    Step::Joins(2, 298, 4, &[3, 4, 5, 6]),
    Step::Parts(2, 298, 2, &[2]),
    Step::Joins(2, 298, 2, &[3, 4]),
    Step::Parts(2, 300, 2, &[2]),
    Step::Joins(2, 300, 2, &[5, 6]),
    Step::Parts(2, 510, 2, &[2]),
    Step::Joins(2, 510, 2, &[7, 8]),
    Step::Parts(2, 1, 1, &[1]),
    Step::Joins(2, 1, 1, &[2]),
    Step::Parts(2, 512, 0, &[]),
    Step::Joins(2, 512, 0, &[]),
    Step::Parts(2, 300, 0, &[]),
    Step::Joins(2, 300, 0, &[]),
    Step::Parts(2, 0, 512, &[300, 212]),
];

#[test]
fn gives_parts(rt: HostRuntime) -> Result<(), Fail> {
    play(&rt, rt.alloc(), &PARTS)
}

/// Entries of 2, 6 and 504 bytes.
static RUNS: [Step; 17] = [
    Step::Lists(0, (0x10_1000, 0, 1)),
    Step::Lists(1, (0x10_2000, 0, 5)),
    Step::Lists(2, (0x10_3000, 0, 503)),
    Step::Fills(4, Some((0x2002, 4))),
    Step::Fills(1, Some((0x1001, 1))),
    Step::Fills(511, Some((0x31F7, 1))),
    Step::Fills(512, None),
    Step::Shows(0x10_1000, Some(0)),
    Step::Shows(0x10_1001, Some(0xAA)),
    Step::Shows(0x10_1002, Some(0)),
    Step::Shows(0x10_2001, Some(0)),
    Step::Shows(0x10_2002, Some(0xAA)),
    Step::Shows(0x10_2005, Some(0xAA)),
    Step::Shows(0x10_2006, Some(0)),
    Step::Shows(0x10_31F6, Some(0)),
    Step::Shows(0x10_31F7, Some(0xAA)),
    Step::Shows(0x10_31F8, Some(0)),
];

#[test]
fn gives_a_run_to_be_written(rt: HostRuntime) -> Result<(), Fail> {
    play(&rt, rt.alloc(), &RUNS)
}

static EACH_ENTRY: [Step; 8] = [
    Step::Lists(0, (0x10_1000, 0, 1)),
    Step::Lists(1, (0x10_2000, 0, 5)),
    Step::Lists(2, (0x10_3000, 0, 503)),
    Step::Parts(3, 0, 12, &[2, 6, 4]),
    Step::Parts(3, 1, 7, &[1, 6]),
    Step::Parts(3, 2, 510, &[6, 504]),
    Step::Parts(3, 8, 504, &[504]),
    Step::Parts(3, 512, 0, &[]),
];

#[test]
fn gives_a_part_for_each_entry(rt: HostRuntime) -> Result<(), Fail> {
    play(&rt, rt.alloc(), &EACH_ENTRY)
}

const GOOD: Entry = (0x10_1000, 0, 511);

const BEYOND: Entry = (0x1F_FE02, 0, 511);

const BAD: Entry = (0x10_3001, 0, 511);

/// Two entries, and why their table is refused.
static TABLES: [(Entry, Entry, Option<PrdError>); 14] = [
    (GOOD, (0x10_1200, 0, 511), None),
    (GOOD, (0x1F_FE00, 0, 511), None),
    (GOOD, (0x10_11FE, 0, 511), Some(PrdError::Overlap)),
    ((0x10_11FE, 0, 511), GOOD, Some(PrdError::Overlap)),
    (GOOD, BEYOND, Some(PrdError::OutsideClient)),
    (GOOD, (0x0F_FFFE, 0, 1), Some(PrdError::OutsideClient)),
    (GOOD, BAD, Some(PrdError::BadEntry)),
    (GOOD, (0x10_3000, 1, 511), Some(PrdError::BadEntry)),
    (GOOD, (0x10_3000, 0, 510), Some(PrdError::BadEntry)),
    // entry by entry, and a bad entry is not checked further
    (BEYOND, BAD, Some(PrdError::OutsideClient)),
    (BAD, BEYOND, Some(PrdError::BadEntry)),
    (GOOD, (0x1F_FE03, 0, 511), Some(PrdError::BadEntry)),
    // and the entries against each other last
    (BEYOND, BEYOND, Some(PrdError::OutsideClient)),
    (BAD, BAD, Some(PrdError::BadEntry)),
];

/// Whether a table of so many entries, at this place of these bytes, is refused for this.
fn is_refused(bytes: &[u8], at: u32, count: u16, wanted: Option<PrdError>) -> bool {
    PrdTable::read(bytes, MIB, at, count).err() == wanted
}

#[test]
fn refuses_tables(rt: HostRuntime) {
    for (number, (first, second, wanted)) in TABLES.iter().enumerate() {
        assert!(rt;
            is_refused(&table(*first, *second), 0, 2, *wanted),
            "{number}"
        );
    }
    let bytes = table(BAD, BEYOND);
    let outside = Some(PrdError::OutsideStructure);
    assert!(rt; is_refused(&bytes, 1, 2, outside) && is_refused(&bytes, 33, 0, outside));
    assert!(rt; is_refused(&bytes, 32, 0, None));
}

/// Whether two entries at 101000h and 103000h share a byte with one that begins here, told either way.
fn shares(first: u32, wanted: bool) -> Result<bool, PrdError> {
    let one = table(GOOD, (0x10_3000, 0, 511));
    let one = PrdTable::read(&one, MIB, 0, 2)?;
    let other = table((0x10_8000, 0, 1), (first, 0, 511));
    let other = PrdTable::read(&other, MIB, 0, 2)?;
    Ok(one.overlaps(&other) == wanted && other.overlaps(&one) == wanted)
}

#[test]
fn finds_common_places(rt: HostRuntime) -> Result<(), PrdError> {
    for (first, wanted) in [
        (0x10_11FE, true),
        (0x10_1200, false),
        (0x10_2E00, false),
        (0x10_2E02, true),
    ] {
        assert!(rt; shares(first, wanted)?, "{first}");
    }
    Ok(())
}

#[test]
fn says_what_is_wrong(rt: HostRuntime) -> Result<(), AllocError> {
    let text = format!(in rt.alloc();
        "{}, {}, {}, {}",
        Outside,
        MemoryError::OutOfMemory,
        PrdError::BadEntry,
        PrdError::Overlap
    )?;
    assert!(rt;
        text.as_str() == "outside the client area, out of memory, bad entry, entries overlap"
    );
    Ok(())
}
