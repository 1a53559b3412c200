//! One disk, straight behind the controller.

use super::driver::{BUFFER, TABLE, command, h2d, starts};
use super::rig::Rig;
use ahci_controller::Fed;
use ahci_machine::Told;
use std::alloc::Global;
use std::process::Abort;
use std::test::Fail;

/// IDENTIFY DEVICE, in slot 0.
fn identifies(rig: &mut Rig) -> Result<bool, Fail> {
    command(rig, 0, 0, false, &h2d(0xEC, 0, 0, 0), 512);
    rig.writes(0x138, 1)?;
    Ok(rig.reads(0x138) == 0 && rig.holds(BUFFER + 54, 4) == [0x45, 0x47, 0x53, 0x46].as_slice())
}

/// What a driver writes to have the line down: PxSERR, PxIS and IS.
static CLEARS: [(u32, u32); 3] = [(0x130, 0xFFFF_FFFF), (0x110, 0xFFFF_FFFF), (0x08, 1)];

fn says_what_it_is(rt: &impl Abort, rig: &mut Rig) -> Result<(), Fail> {
    assert!(rt; starts(rig)?);
    assert_eq!(rt; rig.reads(0x120), 0x150);
    assert_eq!(rt; rig.reads(0x124), 0x101);
    assert!(rt; rig.write_all(&CLEARS)?);
    assert!(rt; !rig.line());
    assert!(rt; identifies(rig)?);
    assert!(rt; rig.line());
    assert!(rt; !rig.rose_early());
    Ok(())
}

#[test]
fn a_disk_says_what_it_is(rt: HostRuntime) -> Result<(), Fail> {
    let mut rig = Rig::new(rt.alloc(), 0)?;
    says_what_it_is(&rt, &mut rig)
}

/// A driver starts, and then this holds.
fn holds(rt: &impl Abort, rig: &mut Rig, check: Check) -> Result<(), Fail> {
    assert!(rt; starts(rig)?);
    assert!(rt; is_so(rig, check)?);
    Ok(())
}

/// The same of a new machine.
fn assert_holds(rt: &impl Abort, alloc: Global, check: Check) -> Result<(), Fail> {
    let mut rig = Rig::new(alloc, 0)?;
    holds(rt, &mut rig, check)
}

/// What a driver does once it has started.
#[derive(Clone, Copy)]
enum Check {
    /// Sectors are read.
    Reads,
    /// Sectors are written.
    Writes,
    /// They are written by the command of the last slot.
    WritesLast,
    /// A command is not taken.
    NotTaken,
    /// A command cannot be served.
    Missed,
}

/// Whether what is done comes to its end.
fn is_so(rig: &mut Rig, check: Check) -> Result<bool, Fail> {
    match check {
        Check::Reads => reads_dma(rig),
        Check::Writes => writes_queued(rig),
        Check::WritesLast => writes_last(rig),
        Check::NotTaken => is_not_taken(rig),
        Check::Missed => is_missed(rig),
    }
}

fn reads_dma(rig: &mut Rig) -> Result<bool, Fail> {
    command(rig, 3, 0, false, &h2d(0x25, 0, 5, 2), 1024);
    rig.writes(0x138, 8)?;
    let ok = rig.reads(0x138) == 0;
    let first = rig.stores(0, 5 * 512);
    let last = rig.stores(0, 7 * 512 - 1);
    Ok(
        ok && rig.holds(BUFFER, 1).first().copied() == first
            && rig.holds(BUFFER + 1023, 1).first().copied() == last,
    )
}

#[test]
fn sectors_are_read(rt: HostRuntime) -> Result<(), Fail> {
    assert_holds(&rt, rt.alloc(), Check::Reads)
}

fn writes_queued(rig: &mut Rig) -> Result<bool, Fail> {
    rig.fills(BUFFER, &[0xA5; 512]);
    let mut fis = h2d(0x61, 1, 9, 0);
    fis[12] = 4 << 3;
    command(rig, 4, 0, true, &fis, 512);
    rig.writes(0x134, 16)?;
    rig.writes(0x138, 16)?;
    Ok(rig.reads(0x138) == 0 && rig.reads(0x134) == 0 && rig.stores(0, 9 * 512 + 511) == Some(0xA5))
}

/// A write by DMA, in slot 31.
fn writes_last(rig: &mut Rig) -> Result<bool, Fail> {
    rig.fills(BUFFER, &[0x5A; 512]);
    command(rig, 31, 0, true, &h2d(0x35, 0, 11, 1), 512);
    rig.writes(0x138, 0x8000_0000)?;
    Ok(rig.reads(0x138) == 0 && rig.stores(0, 11 * 512 + 511) == Some(0x5A))
}

#[test]
fn sectors_are_written(rt: HostRuntime) -> Result<(), Fail> {
    assert_holds(&rt, rt.alloc(), Check::Writes)?;
    assert_holds(&rt, rt.alloc(), Check::WritesLast)
}

/// A command whose FIS is none of a host, in slot 5.
fn is_not_taken(rig: &mut Rig) -> Result<bool, Fail> {
    let mut fis = h2d(0x25, 0, 5, 1);
    fis[0] = 0x34;
    command(rig, 5, 0, false, &fis, 512);
    rig.writes(0x138, 32)?;
    Ok(matches!(rig.refused(), Some(Told::NotTaken { slot: 5, .. })))
}

/// A write whose bytes are no memory, in slot 6.
fn is_missed(rig: &mut Rig) -> Result<bool, Fail> {
    command(rig, 6, 0, true, &h2d(0x35, 0, 9, 1), 512);
    rig.fills(TABLE + 6 * 256 + 131, &[0x7F]);
    rig.writes(0x138, 64)?;
    Ok(matches!(
        rig.refused(),
        Some(Told::Missed {
            slot: 6,
            fed: Fed::Missed { .. }
        })
    ))
}

#[test]
fn callers_are_told_why_commands_are_not_served(rt: HostRuntime) -> Result<(), Fail> {
    assert_holds(&rt, rt.alloc(), Check::NotTaken)?;
    assert_holds(&rt, rt.alloc(), Check::Missed)
}
