//! Disks behind a port multiplier.

use super::driver::{BUFFER, command, h2d, starts};
use super::rig::Rig;
use std::process::Abort;
use std::test::Fail;

/// Writes a register of a port of the multiplier: a value of which one byte is not 0, the lowest or the highest.
fn writes_register(
    rig: &mut Rig,
    port: u8,
    register: u8,
    lowest: u8,
    highest: u8,
) -> Result<bool, Fail> {
    let mut fis = h2d(0xE8, register, 0, u16::from(lowest));
    fis[6] = highest;
    fis[7] = port;
    command(rig, 31, 15, false, &fis, 0);
    rig.writes(0x140, 0xF01)?;
    rig.writes(0x138, 0x8000_0000)?;
    Ok(rig.reads(0x138) == 0)
}

/// A port is opened: SControl 0, and ones to SError.
fn opens(rig: &mut Rig, port: u8) -> Result<bool, Fail> {
    Ok(writes_register(rig, port, 2, 0, 0)? && writes_register(rig, port, 1, 0, 4)?)
}

/// A queued read of sector 5 of each port, all at once.
fn reads_all(rig: &mut Rig, ports: u8) -> Result<bool, Fail> {
    let mut mask = 0;
    for port in 0..ports.min(15) {
        let mut fis = h2d(0x60, 1, 5, 0);
        fis[12] = port << 3;
        command(rig, port, port, false, &fis, 512);
        let bit = 1 << port;
        rig.writes(0x140, u32::from(port) << 8 | 1)?;
        rig.writes(0x134, bit)?;
        mask |= bit;
    }
    rig.writes(0x138, mask)?;
    Ok(rig.reads(0x138) == 0 && rig.reads(0x134) == 0)
}

/// What a driver writes to find the multiplier.
static FINDS: [(u32, u32); 4] = [
    (0x118, 0x10),
    (0x140, 0xF01),
    (0x118, 0x2_0018),
    (0x118, 0x2_0011),
];

/// The first of three ports that cannot be opened.
fn first_closed(rig: &mut Rig) -> Result<Option<u8>, Fail> {
    for port in 0..3 {
        if !opens(rig, port)? {
            return Ok(Some(port));
        }
    }
    Ok(None)
}

/// A driver finds the multiplier, opens its ports, and reads a sector of each.
fn are_served(rt: &impl Abort, rig: &mut Rig) -> Result<(), Fail> {
    assert!(rt; starts(rig)?);
    assert!(rt; rig.write_all(&FINDS)?);
    assert_eq!(rt; first_closed(rig)?, None);
    assert!(rt; reads_all(rig, 3)?);
    assert_eq!(rt;
        rig.holds(BUFFER, 1).first().copied(),
        rig.stores(2, 5 * 512)
    );
    Ok(())
}

#[test]
fn each_port_is_served(rt: HostRuntime) -> Result<(), Fail> {
    let mut rig = Rig::new(rt.alloc(), 3)?;
    are_served(&rt, &mut rig)
}
