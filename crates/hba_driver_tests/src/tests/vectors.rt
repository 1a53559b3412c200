//! Commands with values from outside, from submit to the end. No row of Linux moves whole sectors, so
//! the last entry is cut to whole sectors. The table's address is the driver's own.

use super::rig::{Rig, request};
use super::rows::{ROWS, Row};
use hba_driver::{Driver, Outcome, Work};
use host_memory::HostMemory;
use std::alloc::{AllocError, Global};
use std::test::Fail;

/// How many bytes the entries have.
fn length_of(entries: &[(u32, u32)]) -> u32 {
    let mut length = 0_u32;
    for (_, bytes) in entries.iter() {
        length = length.saturating_add(*bytes);
    }
    length
}

/// A row is submitted, its last entry cut to whole sectors.
fn submits(alloc: Global, rig: &mut Rig, row: &Row) -> Result<bool, AllocError> {
    let length = length_of(row.entries);
    let work = if row.write { Work::Write } else { Work::Read };
    let sectors = (length / 512 % 0x1_0000) as u16;
    let mut request = request(alloc, work, 0, sectors, row.entries)?;
    if let Some(last) = request.prds.last_mut() {
        last.bytes = last.bytes.saturating_sub(length % 512);
    }
    Ok(rig.give(row.dev, &request).is_ok())
}

/// The lower slots hold writes of a sector, and then the row is submitted.
fn fills(alloc: Global, rig: &mut Rig, row: &Row) -> Result<bool, AllocError> {
    let entries = [(0x16_0000, 512)];
    for _ in 0..row.slot {
        let given = rig.submit(alloc, row.dev, Work::Write, 0, 1, &entries)?;
        if given.is_err() {
            return Ok(false);
        }
    }
    submits(alloc, rig, row)
}

/// The header stands as Linux writes it, except for the table's address.
fn has_header(memory: &HostMemory, row: &Row, table: u32) -> bool {
    let mut header = [0; 16];
    header[..4].copy_from_slice(&row.header.to_le_bytes());
    header[8..12].copy_from_slice(&table.to_le_bytes());
    let at = 32 * usize::from(row.slot);
    memory.structure()[at..].starts_with(&header)
}

/// Header and table stand as Linux writes them, except for the table's address, and the last dword of
/// the table, which counts the bytes of the last entry.
fn stands(alloc: Global, memory: &HostMemory, row: &Row) -> Result<bool, AllocError> {
    let table = 0x2000 + 0x1000 * u32::from(row.slot % 30);
    let from = table as usize + 0x80;
    let bytes = (16 * row.entries.len().min(248)).saturating_sub(4);
    let written = hex::encode(alloc, &memory.structure()[from..from + bytes])?;
    Ok(
        has_header(memory, row, table)
            && row.table.starts_with(written.as_str())
            && row.table.len() == written.len() + 8,
    )
}

/// The last of the waiting requests is issued after the others.
fn issues(rig: &mut Rig, row: &Row) -> bool {
    for _ in 0..row.slot {
        if !rig.tick() {
            return false;
        }
    }
    let armed = rig.shown(0x34) | row.armed;
    rig.tick() && rig.issues() == [row.switching, armed, armed, 0] && !rig.tick()
}

/// The requests in this many slots are done, the lowest first.
fn all_done(rig: &mut Rig, slots: u8) -> bool {
    for slot in 0..slots {
        match rig.driver.poll() {
            Some(ended) if ended.slot == slot && ended.outcome == Outcome::Done => {}
            _ => return false,
        }
    }
    true
}

/// A row from its submit to its end.
fn goes(alloc: Global, rig: &mut Rig, row: &Row) -> Result<bool, Fail> {
    let is_issued = fills(alloc, rig, row)? && stands(alloc, &rig.memory, row)? && issues(rig, row);
    Ok(is_issued && rig.settle(alloc)? && all_done(rig, row.slot.saturating_add(1)))
}

/// The number of the first row that does not go as it should, with a disk at each port.
fn first_wrong_row(alloc: Global) -> Result<Option<usize>, Fail> {
    let mut rig = Rig::new(alloc, Driver::new(), 15)?;
    let is_up = rig.plug_disks(alloc, 15)?;
    for (number, row) in ROWS.iter().enumerate() {
        if !is_up || !goes(alloc, &mut rig, row)? {
            return Ok(Some(number));
        }
    }
    Ok(None)
}

#[test]
fn commands_are_as_linux_writes_them(rt: HostRuntime) -> Result<(), Fail> {
    let wrong = first_wrong_row(rt.alloc())?;
    assert_eq!(rt; wrong, None);
    Ok(())
}
