//! Each row of Linux is written as Linux writes it. No row is a whole command, because a queued command moves
//! whole sectors of 512 bytes, and no row's entries add up to a multiple of that. With the last entry cut to
//! such a multiple, each row of at most 128 KiB is read.

use super::rows::{ROWS, Row};
use super::{LIST, Rig, fields};
use fis_view::H2dFields;
use hba_commands::Command;
use host_memory::{Prd, total_of};
use slots::{Kind, Work};
use std::alloc::{AllocError, Global};
use std::test::Fail;

/// READ or WRITE FPDMA QUEUED of this many bytes, of which only whole sectors count.
fn fields_of(row: &Row, len: u64) -> H2dFields {
    let command = if row.write { 0x61 } else { 0x60 };
    let sectors = u16::try_from(len / 512).unwrap_or(0);
    fields(row.pm_port, true, command, sectors, u16::from(row.slot) * 8)
}

fn length_of(prds: &[Prd]) -> u64 {
    if prds.len() <= 248 { total_of(prds) } else { 0 }
}

/// The bytes of a header with these four dwords.
fn header_bytes(header: [u32; 4]) -> [u8; 32] {
    let mut bytes = [0; 32];
    for (place, dword) in bytes.chunks_exact_mut(4).zip(header.iter()) {
        place.copy_from_slice(&dword.to_le_bytes());
    }
    bytes
}

/// Whether the PRDs of a command table are these bytes, which are in hexadecimal.
fn has_entries(alloc: Global, rig: &Rig, row: &Row) -> Result<bool, AllocError> {
    let [_, _, table, _] = row.header;
    let at = (table as usize).saturating_add(0x80);
    let entries = hex::encode(alloc, rig.bytes(at, row.prds.len().saturating_mul(16)))?;
    Ok(entries.as_str() == row.table)
}

/// Whether the header of a slot is the row's, as is its port.
fn has_header(rig: &Rig, row: &Row) -> bool {
    let at = LIST as usize + 32 * usize::from(row.slot);
    rig.bytes(at, 32) == header_bytes(row.header).as_slice()
        && rig.pmp(row.slot).map(u32::from) == Some(row.fbs >> 8 & 0xF)
}

/// Whether a row is written as Linux writes it, and is no whole command.
fn is_written(alloc: Global, rig: &mut Rig, row: &Row) -> Result<bool, AllocError> {
    let len = length_of(row.prds);
    let [_, _, table, _] = row.header;
    let is_good = rig.writes(row.slot, table, &fields_of(row, len), row.prds)
        && has_header(rig, row)
        && len % 512 != 0
        && rig.command(row.slot, true).is_none();
    Ok(is_good && has_entries(alloc, rig, row)?)
}

#[test]
fn writes_as_linux_writes(rt: HostRuntime) -> Result<(), Fail> {
    let mut rig = Rig::new(rt.alloc())?;
    for row in &ROWS {
        assert!(rt; is_written(rt.alloc(), &mut rig, row)?, "slot {}", row.slot);
    }
    Ok(())
}

/// Whether a slot has the command of a row of so many bytes, of which only whole sectors count.
fn has_command(rig: &Rig, row: &Row, len: u64) -> bool {
    let [_, _, table, _] = row.header;
    let armed = row.sact == 1u32.wrapping_shl(u32::from(row.slot));
    let kind = if row.write {
        Kind::QueuedWrite
    } else {
        Kind::QueuedRead
    };
    let work = Work {
        kind,
        len: u32::try_from(len / 512).unwrap_or(0).saturating_mul(512),
    };
    match rig.command(row.slot, armed) {
        Some(command) => is_command(&command, row, work, table, len),
        None => len >= 0x2_0200,
    }
}

fn is_command(command: &Command, row: &Row, work: Work, table: u32, len: u64) -> bool {
    len < 0x2_0200
        && command.work == work
        && command.cfis == fields_of(row, len).bytes()
        && command.table == table
        && usize::from(command.count) == row.prds.len()
}

/// Whether a row whose last entry is cut to whole sectors is read as it was written.
fn is_read(alloc: Global, rig: &mut Rig, row: &Row) -> Result<bool, AllocError> {
    let len = length_of(row.prds);
    let [_, _, table, _] = row.header;
    let mut prds = Vec::from_slice(alloc, row.prds)?;
    if let Some(last) = prds.last_mut() {
        last.bytes = last.bytes.saturating_sub((len % 512) as u32);
    }
    let is_good = rig.writes(row.slot, table, &fields_of(row, len), &prds);
    Ok(is_good && has_command(rig, row, len))
}

#[test]
fn reads_whole_sectors(rt: HostRuntime) -> Result<(), Fail> {
    let mut rig = Rig::new(rt.alloc())?;
    for row in &ROWS {
        assert!(rt; is_read(rt.alloc(), &mut rig, row)?, "slot {}", row.slot);
    }
    Ok(())
}
