//! Signature and reads.

use super::steps::Step::{
    Commands, IsSilent, Plugs, Reads, ReadsLog, Resets, Sends, SendsSectors, Takes, Writes,
};
use super::steps::{Step, assert_disk};
use disk_model::{Disk, DiskError, DiskPlan, Profile};
use fis_view::H2dFields;

/// A command of the host.
pub fn command(code: u8, features: u16, lba: u64, count: u16) -> H2dFields {
    H2dFields {
        pm_port: 0,
        c: true,
        command: code,
        features,
        lba,
        device: 0x40,
        count,
        icc: 0,
        control: 0,
    }
}

/// READ FPDMA QUEUED.
pub fn read(tag: u8, lba: u64, sectors: u16) -> H2dFields {
    command(0x60, sectors, lba, 8 * tag as u16)
}

/// WRITE FPDMA QUEUED.
pub fn write(tag: u8, lba: u64, sectors: u16) -> H2dFields {
    command(0x61, sectors, lba, 8 * tag as u16)
}

/// The Device Control register with this SRST.
pub fn reset(srst: bool) -> H2dFields {
    H2dFields {
        c: false,
        control: if srst { 4 } else { 0 },
        ..command(0, 0, 0, 0)
    }
}

/// The answer to a command that was queued.
pub const ACCEPTED: &str = "3400500000000000000000000000000000000000";

/// The signature of an ATA device.
pub const SIGNATURE: &str = "3400500101000000000000000100000000000000";

static SIGNS: [Step; 11] = [
    IsSilent,
    Plugs,
    Sends(SIGNATURE),
    IsSilent,
    Reads(0, 0, 1),
    Resets(true),
    IsSilent,
    Resets(false),
    Sends(SIGNATURE),
    Resets(false),
    IsSilent,
];

#[test]
fn signature_when_plugged_and_after_a_reset(rt: HostRuntime) -> Result<(), DiskError> {
    assert_disk(&rt, rt.alloc(), 16, DiskPlan::plain(), &SIGNS)
}

/// As long as SRST is set, no command has an answer, not even the read of the log. Then the signature
/// goes alone, and commands are heard.
static IN_RESET: [Step; 22] = [
    Resets(true),
    Reads(1, 8, 1),
    IsSilent,
    Writes(2, 4, 1),
    IsSilent,
    Commands(0xEC),
    IsSilent,
    Commands(0xEA),
    IsSilent,
    ReadsLog,
    IsSilent,
    Takes("2780250000000040000000000100000000000000"),
    IsSilent,
    Resets(true),
    IsSilent,
    Reads(1, 8, 1),
    IsSilent,
    Resets(false),
    Sends(SIGNATURE),
    IsSilent,
    Reads(1, 8, 1),
    Sends(ACCEPTED),
];

#[test]
fn takes_no_command_in_reset(rt: HostRuntime) -> Result<(), DiskError> {
    assert_disk(&rt, rt.alloc(), 16, DiskPlan::plain(), &IN_RESET)
}

/// Plugging in ends a reset. SRST that is cleared later still has its signature.
static PLUGGED_IN_RESET: [Step; 7] = [
    Resets(true),
    Plugs,
    Sends(SIGNATURE),
    Reads(1, 8, 1),
    Sends(ACCEPTED),
    Resets(false),
    Sends(SIGNATURE),
];

#[test]
fn plugging_ends_a_reset(rt: HostRuntime) -> Result<(), DiskError> {
    assert_disk(&rt, rt.alloc(), 16, DiskPlan::plain(), &PLUGGED_IN_RESET)
}

/// A disk has at least one sector, and at most 65,536; with the stock profile at most 268,435,455.
#[test]
fn sizes_that_no_disk_has(rt: HostRuntime) {
    let stock = Profile::Stock(0);
    for (sectors, profile, error) in [
        (0, Profile::Bare, Some(DiskError::BadSize)),
        (65_537, Profile::Bare, Some(DiskError::BadSize)),
        (u32::MAX, Profile::Bare, Some(DiskError::BadSize)),
        (0, stock, Some(DiskError::BadSize)),
        (65_537, stock, None),
        (268_435_456, stock, Some(DiskError::BadSize)),
    ] {
        let plan = DiskPlan {
            profile,
            ..DiskPlan::plain()
        };
        let found = Disk::new(rt.alloc(), sectors, plan).err();
        assert_eq!(rt; found, error);
    }
}

static ONE_SECTOR: [Step; 6] = [
    Takes("2780600100010040000000002800000000000000"),
    Sends(ACCEPTED),
    Sends("41200000050000000000000000000000000000000002000000000000"),
    SendsSectors(0x100, 1),
    Sends("a140500020000000"),
    IsSilent,
];

#[test]
fn read_of_one_sector(rt: HostRuntime) -> Result<(), DiskError> {
    assert_disk(&rt, rt.alloc(), 0x200, DiskPlan::plain(), &ONE_SECTOR)
}

static LAST_FIRST: [Step; 8] = [
    Reads(3, 4, 2),
    Sends(ACCEPTED),
    Sends("41200000030000000000000000000000000200000002000000000000"),
    SendsSectors(5, 1),
    Sends("41200000030000000000000000000000000000000002000000000000"),
    SendsSectors(4, 1),
    Sends("a140500008000000"),
    IsSilent,
];

#[test]
fn read_with_its_last_sector_first(rt: HostRuntime) -> Result<(), DiskError> {
    let plan = DiskPlan {
        chunk: 512,
        last_first: true,
        ..DiskPlan::plain()
    };
    assert_disk(&rt, rt.alloc(), 16, plan, &LAST_FIRST)
}
