//! If there is memory, no call is refused.

use super::disk::{command, read, reset, write};
use super::scripted::STAMP;
use disk_model::{Device, Disk, DiskPlan};
use fis_view::{H2dFields, h2d, payload};
use std::alloc::Global;
use std::test::Fail;

/// One of many frames of the host.
fn nth(n: u16) -> H2dFields {
    let tag = (n % 32) as u8;
    let lba = if n % 2 == 0 { n % 16 } else { n } as u64;
    match n % 19 {
        5 => reset(true),
        6 => reset(false),
        11 => command(0xEC, 0, 0, 0),
        12 => command(0xEA, 0, 0, 0),
        13 => command(0x2F, 0, 0x10, 1),
        14 => command(0x25, 0, 0, 0),
        0..=3 => write(tag, lba, 1),
        _ => read(tag, lba, n % 40),
    }
}

/// Thousands of calls of a disk of this size.
fn calls(alloc: Global, sectors: u32, chunk: u16) -> Result<(), Fail> {
    let plan = DiskPlan {
        chunk,
        ..DiskPlan::plain()
    };
    let mut disk = Disk::new(alloc, sectors, plan)?;
    let block = payload(alloc, 0, &[7; 512], STAMP)?;
    for n in 0..1000 {
        disk.on_frame(alloc, &h2d(alloc, &nth(n), STAMP)?)?;
        for _ in 0..6 {
            if disk.next_out(alloc, STAMP)?.is_none() {
                disk.on_frame(alloc, &block)?;
            }
        }
    }
    disk.plugged(alloc)?;
    Ok(())
}

#[test]
fn no_call_is_refused(rt: HostRuntime) -> Result<(), Fail> {
    let alloc = rt.alloc();
    calls(alloc, 16, 512)?;
    calls(alloc, 65_536, 8192)
}
