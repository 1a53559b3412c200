//! Each cause of a fault from the bytes of FISes, with values from outside.

use super::rig::Rig;
use super::steps::Sent::{Bytes, Eight, Four, Sector, Setup};
use super::steps::Step::{
    Begins, Breaks, BringsRuns, Causes, Flushes, Holds, Posts, Reads, Shows, Spoils, Starts, Takes,
    Tells, Writes,
};
use super::steps::Told::{Faulty, Heard, Stops};
use super::steps::{Sent, Step, Told, assert_all, play};
use port_errors::{DeviceCause, PortCause};
use rx_area::Posted;
use std::alloc::Global;

/// Four bytes of Data of device 2.
const DWORD: Sent = Eight([0x46, 2, 0, 0, 0x11, 0x11, 0x11, 0x11]);

/// PxIS.SDBS.
const SDBS: u32 = 0x8;
/// PxIS.OFS.
const OFS: u32 = 0x0100_0000;
/// PxIS.IFS.
const IFS: u32 = 0x0800_0000;
/// PxIS.TFES.
const TFES: u32 = 0x4000_0000;

/// An error of device 2.
const FAILED: Sent = Eight([0xA1, 0x42, 0x41, 0x40, 0, 0, 0, 0]);
/// The end of its read in slot 0.
const ENDED: Sent = Eight([0xA1, 0x42, 0x50, 0, 1, 0, 0, 0]);

/// Data of device 2 without a byte.
const EMPTY: Sent = Four([0x46, 2, 0, 0]);

/// A FIS of 68 bytes of an unknown type.
const LONG_UNKNOWN: Sent = Bytes(&[
    0xC7, 2, 0, 0, 0, 0, 0, 0, 0, 0, 0, 0, 0, 0, 0, 0, 0, 0, 0, 0, 0, 0, 0, 0, 0, 0, 0, 0, 0, 0, 0,
    0, 0, 0, 0, 0, 0, 0, 0, 0, 0, 0, 0, 0, 0, 0, 0, 0, 0, 0, 0, 0, 0, 0, 0, 0, 0, 0, 0, 0, 0, 0, 0,
    0, 0, 0, 0, 0,
]);

/// A DMA Activate of the control port.
const ACTIVATE: Sent = Four([0x39, 0x0F, 0, 0]);

/// What the rules make of a FIS that begins with this byte and has the length of its type, when all
/// bytes after the second are ones and its device has an answered read and no setup: what is told of
/// it, and the bits of PxIS that it sets.
fn ruled_whole(first: u8) -> (Told, u32) {
    match first {
        0x34 => (Faulty(Posted::D2h, DeviceCause::TaskFile), 0x4000_0001),
        0xA1 => (Faulty(Posted::Bits, DeviceCause::TaskFile), 0x4000_0008),
        0x41 => (Faulty(Posted::Setup, DeviceCause::BadTag), 0x0800_0004),
        0x5F => (Faulty(Posted::Pio, DeviceCause::TaskFile), 0x4000_0000),
        _ => (Faulty(Posted::Nothing, DeviceCause::Stray), 0x0800_0000),
    }
}

/// Whether a FIS of a device that begins with this byte may have this many bytes. None of a host may come.
fn is_whole(first: u8, len: usize) -> bool {
    match first {
        0x34 | 0x5F => len == 20,
        0xA1 => len == 8,
        0x41 => len == 28,
        0x39 => len == 4,
        0x46 => 8 <= len,
        _ => false,
    }
}

/// The same of any FIS. The control port may send only Register and Set Device Bits FISes.
fn ruled(of_device: bool, first: u8, len: usize) -> (Told, u32) {
    if !matches!(first, 0x27 | 0x34 | 0x39 | 0x41 | 0x46 | 0x5F | 0xA1) {
        (Heard(Posted::Unknown), 0x10)
    } else if is_whole(first, len) && (of_device || first == 0x34 || first == 0xA1) {
        ruled_whole(first)
    } else if of_device {
        (Faulty(Posted::Nothing, DeviceCause::BadFis), 0x0800_0000)
    } else {
        (Stops(PortCause::BadControl), 0x2800_0000)
    }
}

/// Whether device `dev` and the port have the causes of what is told.
fn has_causes(rig: &Rig, dev: u8, told: Told) -> bool {
    let (device, port) = match told {
        Faulty(_, cause) => (Some(cause), None),
        Stops(cause) => (None, Some(cause)),
        _ => (None, None),
    };
    rig.cause(dev) == device && rig.port_cause() == port
}

/// Device 2 and device 4 read two sectors each in a port that opened anew.
fn begins(rig: &mut Rig) -> bool {
    rig.start() && rig.reads(2, 0, 0x10_1000) && rig.reads(4, 1, 0x10_2000)
}

/// Whether a frame that comes from a device does what is ruled. What it leaves to another device is a clause of
/// `HostPort::take`.
fn injects(rig: &mut Rig, dev: u8, first: u8, len: usize) -> bool {
    let mut bytes = [0xFF; 40];
    bytes[0] = first;
    bytes[1] = 0xF0 | dev;
    let (told, interrupts) = ruled(dev != 15, first, len);
    begins(rig)
        && rig.is_told(bytes.get(..len).unwrap_or(&[]), dev, told)
        && rig.shows(0x10, interrupts)
        && rig.shows(0x34, 3)
        && rig.shows(0x24, 0xFFFF_FFFF)
        && has_causes(rig, dev, told)
}

/// Whether a first byte with 4, 8, .. 40 bytes does what is ruled, from a device and from the control port.
fn injects_all(rig: &mut Rig, first: u8) -> bool {
    for dwords in 1..11_usize {
        if !injects(rig, 2, first, 4 * dwords) || !injects(rig, 15, first, 4 * dwords) {
            return false;
        }
    }
    true
}

/// How many first bytes from 0 on do so. No byte goes to client memory.
fn injected(rig: &mut Rig) -> usize {
    for first in 0..=255_u8 {
        if !injects_all(rig, first) {
            return first as usize;
        }
    }
    if rig.holds(0, 0x10_0000, 0) { 256 } else { 0 }
}

/// The same of a port that opens.
fn injected_first_bytes(alloc: Global) -> usize {
    match Rig::new(alloc) {
        Ok(mut rig) => injected(&mut rig),
        Err(_) => 0,
    }
}

#[test]
fn any_first_byte(rt: HostRuntime) {
    assert_all(&rt, injected_first_bytes(rt.alloc()), 256);
}

/// Each cause of a device and of the port, and how long it stands.
static FAULTS: [Step; 102] = [
    // DMA Setups for the read: at once, and when its first sector came. Then half a sector of it is set up, and Data is longer
    // than that. The first sector stays. Last device 2 brings 64 runs of four bytes of its read, with a gap after each, and then a
    // run that fills a gap, or one that joins none of them.
    Begins,
    Starts,
    Reads(2, 0, 0x10_1000),
    Breaks(Setup(2, true, 1, 0, 512), DeviceCause::BadTag, IFS),
    Starts,
    Reads(2, 0, 0x10_1000),
    Breaks(Setup(2, true, 0, 0, 2048), DeviceCause::Overflow, OFS),
    Starts,
    Reads(2, 0, 0x10_1000),
    Breaks(Setup(2, true, 0, 0, 2), DeviceCause::BadFis, IFS),
    Starts,
    Reads(2, 0, 0x10_1000),
    Breaks(Setup(2, false, 0, 0, 512), DeviceCause::WrongWay, IFS),
    Starts,
    Reads(2, 0, 0x10_1000),
    Takes(Setup(2, true, 0, 0, 512)),
    Takes(Sector(2, 1)),
    Breaks(Setup(2, true, 0, 0, 512), DeviceCause::Twice, IFS),
    Starts,
    Reads(2, 0, 0x10_1000),
    Takes(Setup(2, true, 0, 0, 512)),
    Takes(Sector(2, 1)),
    Breaks(Setup(2, true, 0, 1020, 8), DeviceCause::Overflow, OFS),
    Starts,
    Reads(2, 0, 0x10_1000),
    Takes(Setup(2, true, 0, 0, 256)),
    Breaks(Sector(2, 2), DeviceCause::Overflow, OFS),
    Holds(0x1000, 512, 1),
    Starts,
    Reads(2, 0, 0x10_1000),
    BringsRuns(64),
    Causes(None, None, None),
    Tells(Setup(2, true, 0, 508, 4), Heard(Posted::Setup)),
    Causes(None, None, None),
    Starts,
    Reads(2, 0, 0x10_1000),
    BringsRuns(64),
    Causes(None, None, None),
    Breaks(Setup(2, true, 0, 512, 4), DeviceCause::Fragments, IFS),
    // Device 2 reads two sectors in slot 0, and has answered. An error, Data that nothing asked for, an end with bytes missing,
    // Data without a byte, and a FIS that has no room in the received area.
    Begins,
    Starts,
    Reads(2, 0, 0x10_1000),
    Breaks(FAILED, DeviceCause::TaskFile, TFES | SDBS),
    Starts,
    Reads(2, 0, 0x10_1000),
    Breaks(DWORD, DeviceCause::Stray, IFS),
    Starts,
    Reads(2, 0, 0x10_1000),
    Breaks(ENDED, DeviceCause::Short, IFS | SDBS),
    Starts,
    Reads(2, 0, 0x10_1000),
    Breaks(EMPTY, DeviceCause::BadFis, IFS),
    Starts,
    Reads(2, 0, 0x10_1000),
    Breaks(LONG_UNKNOWN, DeviceCause::BadFis, IFS),
    Posts(0x1260, 0),
    // FISes that the control port may not send, and Data for a PRD whose address became odd after an accepted setup: each stops
    // the port and moves nothing, and the read stays in its slot. What comes after that is ignored and changes no cause. ST ends
    // it when it falls.
    Begins,
    Starts,
    Reads(2, 0, 0x10_1000),
    Tells(ACTIVATE, Stops(PortCause::BadControl)),
    Causes(None, None, Some(PortCause::BadControl)),
    Shows(0x10, 0x2800_0000),
    Shows(0x40, 0xF201),
    Shows(0x34, 1),
    Holds(0, 0x10_0000, 0),
    Starts,
    Reads(2, 0, 0x10_1000),
    Tells(Four([0xA1, 0xCF, 0, 0]), Stops(PortCause::BadControl)),
    Causes(None, None, Some(PortCause::BadControl)),
    Shows(0x10, 0x2800_0000),
    Shows(0x40, 0xF201),
    Shows(0x34, 1),
    Holds(0, 0x10_0000, 0),
    Starts,
    Reads(2, 0, 0x10_1000),
    Tells(Setup(2, true, 0, 0, 512), Heard(Posted::Setup)),
    Spoils(0x2080, 1),
    Tells(Sector(2, 0x77), Stops(PortCause::Bus)),
    Causes(None, None, Some(PortCause::Bus)),
    Shows(0x10, 0x2800_0000),
    Shows(0x40, 0xF201),
    Shows(0x34, 1),
    Holds(0, 0x10_0000, 0),
    Takes(ACTIVATE),
    Takes(EMPTY),
    Causes(None, None, Some(PortCause::Bus)),
    Writes(0x18, 0x10),
    Causes(None, None, None),
    // Device 4 and device 2 are faulty. The causes stand whatever both send, until PxFBS.DEC clears the
    // device that DWE names, which is device 4, and device 2 is flushed.
    Begins,
    Starts,
    Reads(2, 0, 0x10_1000),
    Takes(Four([0x46, 4, 0, 0])),
    Takes(DWORD),
    Causes(Some(DeviceCause::Stray), Some(DeviceCause::BadFis), None),
    Takes(Eight([0xA1, 0x44, 0x41, 0x40, 0, 0, 0, 0])),
    Takes(Four([0x46, 2, 0, 0])),
    Takes(Four([0xC7, 5, 0, 0])),
    Causes(Some(DeviceCause::Stray), Some(DeviceCause::BadFis), None),
    Writes(0x40, 0x0203),
    Causes(Some(DeviceCause::Stray), None, None),
    Flushes(2, 1),
    Causes(None, None, None),
];

#[test]
fn faults_have_causes(rt: HostRuntime) {
    play(&rt, rt.alloc(), &FAULTS);
}
