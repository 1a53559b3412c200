//! What lies where in the guest's memory, as the registers and the command list say.

use crate::event::Part;
use crate::event_text::dword_at;
use crate::warning::value_of;
use ahci_machine::Machine;
use ahci_registers::Register;
use guest_bytes::FlatGuest;

/// The bytes of a command header.
const HEADER: u64 = 32;

/// The bytes of the command list.
const LIST: u64 = 32 * HEADER;

/// Where the entries of a command table begin.
const ENTRIES: u64 = 0x80;

/// The bytes of an entry.
const ENTRY: u64 = 16;

/// An address in two dwords.
fn address(low: u32, high: u32) -> u64 {
    u64::from(high) << 32 | u64::from(low)
}

/// Which part of a command begins at an address and has so many bytes there; None if that is not known. The command list
/// lies where the registers say, unless that is 0, and the tables where its headers say.
pub fn part_at(machine: &Machine, memory: &FlatGuest, at: u64, len: usize) -> Option<Part> {
    let list = address(
        value_of(machine, Register::PxClb),
        value_of(machine, Register::PxClbu),
    );
    if list == 0 || len < 16 {
        return None;
    }
    if at >= list && at - list < LIST {
        let place = at - list;
        return (place % HEADER == 0).then_some(Part::Header((place / HEADER) as u8));
    }
    for slot in 0..32_u8 {
        let mut header = [0; 16];
        let place = list.saturating_add(u64::from(slot) * HEADER);
        if memory.read(place, &mut header).is_ok() {
            if let Some(part) = part_of(slot, &header, at) {
                return Some(part);
            }
        }
    }
    None
}

/// Which part of the command of a slot with this header begins at an address.
fn part_of(slot: u8, header: &[u8], at: u64) -> Option<Part> {
    let table = address(dword_at(header, 8), dword_at(header, 12));
    let entries = u64::from(dword_at(header, 0) >> 16);
    if table == 0 || at < table {
        return None;
    }
    let place = at - table;
    if place == 0 {
        return Some(Part::Fis(slot));
    }
    let is_entry = place >= ENTRIES && place % ENTRY == 0;
    (is_entry && (place - ENTRIES) / ENTRY < entries).then_some(Part::Table(slot))
}
