//! Tests as lists of steps: what is done with a host port, its driver and the devices, and what is seen then.
//!
//! A test that is a list has one assertion, so it is proved with little work.

ghost use Rattle.std.specs.Prelude.{◌≤◌};

use super::rig::{Given, Rig, Unit, beginning, page};
use hba_driver::{Driver, Outcome, Work};
use std::alloc::Global;
use std::process::Abort;
use std::test::Fail;

/// Addresses, and how many bytes lie there.
pub(super) type Entries = &'static [(u32, u32)];

/// A step of a test.
#[derive(Clone, Copy)]
pub(super) enum Step {
    /// A value is written to a register of the port, and taken.
    Sets(u32, u32),
    /// A port, above those that have a unit, gets one.
    Plugs(u8, Unit),
    /// Each of this many ports, from port 0 on, gets a disk, and all is done that follows.
    PlugsDisks(u8),
    /// A device sends a frame, which its port holds, and all is done that follows.
    Comes(u8, &'static [u8]),
    /// The same for a page of 512 bytes, with these bytes set.
    ComesPage(u8, &'static [(usize, u8)]),
    /// The host port takes a frame.
    Hears(&'static [u8]),
    /// All is done that follows.
    Settles,
    /// The same until the host port takes a frame that begins with these bytes. This device stands
    /// still.
    Until(Option<u8>, &'static [u8]),
    /// Bytes are written to the client area.
    Puts(u32, &'static [u8]),
    /// A read of a sector of a device, to an address, gives this.
    Reads(u8, u64, u32, Given),
    /// The same for a write, from an address.
    Writes(u8, u64, u32, Given),
    /// The same for a Flush.
    Flushes(u8, Given),
    /// The same for any work, with a first sector, how many, and entries.
    Submits(u8, Work, u64, u16, Entries, Given),
    /// Thirty writes of a sector from 103000h, in turn of device 0 and device 1, take the slots 0 to 29. Their tickets go
    /// on from this one.
    FillsSlots(u32),
    /// The next thirty polls give these requests, which are done.
    PollsAll(u32),
    /// The driver ticks: whether something was done.
    Ticks(bool),
    /// The driver does something, and the next frame has 20 bytes. These are its second to fourth.
    Gives([u8; 3]),
    /// The next poll gives the request of this ticket and slot, which ended in this way.
    Polls(u32, u8, Outcome),
    /// No request has ended.
    PollsNone,
    /// The driver does something, and PxCLB, PxCLBU, PxFB, PxFBU, PxFBS, PxCMD and PxCI show this.
    Opens([u32; 7]),
    /// PxFBS, PxSACT, PxCI and PxSNTF.
    Issues([u32; 4]),
    /// A register of the port shows this.
    Shows(u32, u32),
    /// TFES and HBFS of PxIS, and SDE and DWE of PxFBS.
    Faults([u32; 2]),
    /// Device 0 is in software reset.
    IsResetting,
    /// The last status of device 0 in the received area.
    Status(u8),
    /// These frames were sent since the last such step.
    Sent(&'static [[u8; 20]]),
    /// These frames were taken since the beginning.
    Took(&'static [[u8; 20]]),
    /// How many software resets went to a device since the last `Sent`.
    Resets(u8, u32),
    /// How often a command went to a device since then.
    Commands(u8, u8, u32),
    /// These bytes stand at an address of the client area.
    Holds(u32, [u8; 4]),
    /// Whether this many bytes from an address on are in use.
    IsUsed(u32, u32, bool),
}

fn comes(alloc: Global, rig: &mut Rig, dev: u8, bytes: &[u8]) -> Result<bool, Fail> {
    let held = rig.send(alloc, dev, bytes)?;
    Ok(rig.settle(alloc)? && held)
}

fn gives(alloc: Global, rig: &mut Rig, bytes: [u8; 3]) -> Result<bool, Fail> {
    if !rig.tick() {
        return Ok(false);
    }
    let Some(sent) = rig.port.next_out(alloc, &rig.memory)? else {
        return Ok(false);
    };
    let first = beginning(sent.bytes());
    Ok(sent.bytes().len() == 20 && [first[1], first[2], first[3]] == bytes)
}

/// What is seen at the port's registers.
fn shows(rig: &Rig, step: Step) -> bool {
    match step {
        Step::Shows(offset, now) => rig.shown(offset) == now,
        Step::Issues(now) => rig.issues() == now,
        Step::Faults(now) => rig.faults() == now,
        Step::IsResetting => rig.port.resetting(0),
        _ => false,
    }
}

/// What else is seen.
fn stands(rig: &Rig, step: Step) -> bool {
    match step {
        Step::Status(status) => rig.memory.structure()[0x1042] == status,
        Step::Took(frames) => rig.taken.as_slice() == frames,
        Step::Resets(dev, count) => rig.count_sent([dev, 0, 4]) == count,
        Step::Commands(dev, command, count) => rig.count_sent([0x80 | dev, command, 0]) == count,
        Step::Holds(at, bytes) => rig.holds(at, bytes),
        Step::IsUsed(at, len, is) => rig.driver.in_use(at, len) == is,
        _ => shows(rig, step),
    }
}

/// What changes port, memory or driver, and takes no frame.
fn does(rig: &mut Rig, step: Step) -> bool {
    match step {
        Step::Sets(offset, value) => rig.port.write(offset, value, &rig.memory).is_ok(),
        Step::Puts(at, bytes) => rig.memory.put_client(at, bytes).is_ok(),
        Step::Ticks(is) => rig.tick() == is,
        Step::Opens(now) => rig.tick() && rig.opening() == now,
        Step::Polls(ticket, slot, outcome) => rig.polls(ticket, slot, outcome),
        Step::PollsAll(first) => polls_all(rig, first),
        Step::PollsNone => rig.driver.poll().is_none(),
        Step::Sent(frames) => rig.has_sent(frames),
        _ => stands(rig, step),
    }
}

fn fills_slots(alloc: Global, rig: &mut Rig, first: u32) -> Result<bool, Fail> {
    for slot in 0..30_u8 {
        let ticket = first.wrapping_add(u32::from(slot));
        let given = rig.submit(alloc, slot % 2, Work::Write, 0, 1, &[(0x10_3000, 512)])?;
        if given != Ok(ticket) {
            return Ok(false);
        }
    }
    Ok(true)
}

fn polls_all(rig: &mut Rig, first: u32) -> bool {
    for slot in 0..30_u8 {
        let ticket = first.wrapping_add(u32::from(slot));
        if !rig.polls(ticket, slot, Outcome::Done) {
            return false;
        }
    }
    true
}

/// What is submitted, and what that gives.
fn submits(alloc: Global, rig: &mut Rig, step: Step) -> Result<bool, Fail> {
    match step {
        Step::Reads(dev, lba, at, given) => {
            Ok(rig.submit(alloc, dev, Work::Read, lba, 1, &[(at, 512)])? == given)
        }
        Step::Writes(dev, lba, at, given) => {
            Ok(rig.submit(alloc, dev, Work::Write, lba, 1, &[(at, 512)])? == given)
        }
        Step::FillsSlots(first) => fills_slots(alloc, rig, first),
        Step::Flushes(dev, given) => Ok(rig.submit(alloc, dev, Work::Flush, 0, 0, &[])? == given),
        Step::Submits(dev, work, lba, sectors, entries, given) => {
            Ok(rig.submit(alloc, dev, work, lba, sectors, entries)? == given)
        }
        _ => Ok(does(rig, step)),
    }
}

/// Whether a step is as it says.
fn passes(alloc: Global, rig: &mut Rig, step: Step) -> Result<bool, Fail> {
    match step {
        Step::Plugs(n, unit) => rig.plug(alloc, n, unit),
        Step::PlugsDisks(disks) => rig.plug_disks(alloc, disks),
        Step::Comes(dev, bytes) => comes(alloc, rig, dev, bytes),
        Step::ComesPage(dev, set) => comes(alloc, rig, dev, &page(set)),
        Step::Settles => rig.settle(alloc),
        Step::Until(still, first) => rig.until_taken(alloc, still, first),
        Step::Gives(bytes) => gives(alloc, rig, bytes),
        Step::Hears(bytes) => {
            rig.hear(alloc, bytes)?;
            Ok(true)
        }
        _ => submits(alloc, rig, step),
    }
}

/// The number of the first step that is not as it says.
fn first_failing(alloc: Global, rig: &mut Rig, steps: &[Step]) -> Result<Option<usize>, Fail> {
    for (i, step) in steps.iter().enumerate() {
        if !passes(alloc, rig, *step)? {
            return Ok(Some(i));
        }
    }
    Ok(None)
}

/// For lists of steps that are done one after the other: which list fails first, and in which step.
fn first_wrong(
    alloc: Global,
    rig: &mut Rig,
    lists: &[&[Step]],
) -> Result<Option<(usize, usize)>, Fail> {
    for (list, steps) in lists.iter().enumerate() {
        if let Some(i) = first_failing(alloc, rig, *steps)? {
            return Ok(Some((list, i)));
        }
    }
    Ok(None)
}

/// All steps are as they say: those of each list, one after the other, behind a multiplier with this
/// many ports.
pub(super) fn assert_steps(
    rt: &impl Abort,
    alloc: Global,
    driver: Driver,
    ports: u8,
    lists: &[&[Step]],
) -> Result<(), Fail>
    requires some { 1 ≤ ports }
    requires at_most { ports ≤ 15 }
{
    let mut rig = Rig::new(alloc, driver, ports)?;
    let wrong = first_wrong(alloc, &mut rig, lists)?;
    assert_eq!(rt; wrong, None, "list and step");
    Ok(())
}
