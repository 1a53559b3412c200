//! What no clause of `guest_bytes` says: values from outside, and that calls succeed.

use guest_bytes::{FlatError, FlatGuest, NotThere};
use std::process::Abort;
use std::test::Fail;

/// Whether the bytes from an address on are these.
fn holds(guest: &FlatGuest, at: u64, wanted: [u8; 4]) -> bool {
    let mut room = [0xEE; 4];
    guest.read(at, &mut room).is_ok() && room == wanted
}

/// Of two bytes for one place the later one stands.
fn is_put(guest: &mut FlatGuest) -> bool {
    guest.put(0x1_0000_0003, &[1, 2, 3]).is_ok()
        && guest.put(0x1_0000_0003, &[9]).is_ok()
        && guest.put(0x1_0000_03FF, &[7, 8]) == Err(NotThere)
        && holds(guest, 0x1_0000_0002, [0, 9, 2, 3])
        && holds(guest, 0x1_0000_03FC, [0; 4])
        && guest.read(0x1_0000_03FD, &mut [0; 4]) == Err(NotThere)
}

#[test]
fn bytes_go_to_their_places(rt: HostRuntime) -> Result<(), Fail> {
    let mut guest = FlatGuest::new(rt.alloc(), 0x1_0000_0000, 0x400)?;
    assert!(rt; is_put(&mut guest));
    Ok(())
}

/// Whether the last byte of all addresses is put, and none after it or before it.
fn is_last(last: &mut FlatGuest) -> bool {
    last.put(u64::MAX, &[7]).is_ok()
        && last.bytes().first().copied() == Some(7)
        && last.put(u64::MAX, &[7, 8]) == Err(NotThere)
        && last.put(u64::MAX - 1, &[7]) == Err(NotThere)
}

#[test]
fn a_block_has_two_ends(rt: HostRuntime) -> Result<(), FlatError> {
    assert!(rt;
        matches!(
            FlatGuest::new(rt.alloc(), u64::MAX, 2),
            Err(FlatError::PastEnd)
        )
    );
    let mut last = FlatGuest::new(rt.alloc(), u64::MAX, 1)?;
    assert!(rt; is_last(&mut last));
    Ok(())
}
