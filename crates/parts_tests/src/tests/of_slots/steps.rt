//! Tests as lists of steps: what is done with a table of slots, and what it answers.
//!
//! Clauses see a `Rig` as a number, and its functions have no contract. A list is data, and `play` has the only assertion.
//! So a test is proved with little work.

ghost use Rattle.std.specs.Prelude.{◌<◌};
ghost use Rattle.slots.specs.Work.{IsWork};

use slots::{Answered, ArriveError, Completed, Kind, SetupError, SlotTable, Work};
use std::marker::Model;
use std::process::Abort;

/// Some work.
#[derive(Clone, Copy)]
pub(super) enum Job {
    /// A queued read of so many sectors.
    Read(u32),
    /// A queued write of 24 sectors.
    Write,
    /// PIO data-in of two sectors.
    PioIn,
    /// READ DMA of two sectors.
    DmaIn,
    /// A Control.
    Control,
}

/// A step of a test.
#[derive(Clone, Copy)]
pub(super) enum Step {
    /// Work of a device is issued in a slot.
    Issues(u8, u8, Job),
    /// It is not, as the slot is in use.
    IsBusy(u8, u8, Job),
    /// The next command for one of these devices is sent; its slot.
    Sends(u16, Option<u8>),
    /// A device answers.
    Answers(u8, Answered),
    /// A queued read is issued in a slot for a device, of so many sectors, sent and answered.
    Opens(u8, u8, u32),
    /// A DMA Setup to the host: device, tag, offset and count, and why it is refused.
    SetsUp(u8, u8, u32, u32, Option<SetupError>),
    /// The same from the host.
    SetsUpOut(u8, u8, u32, u32, Option<SetupError>),
    /// One from the host with auto-activate, which is taken.
    SetsUpAuto(u8, u8, u32, u32),
    /// A PIO Setup to the host of so many bytes, which is taken.
    SetsUpPio(u8, u32),
    /// So many stretches of a dword of a slot are set up for a device, with a gap after each, and arrive.
    Stretches(u8, u8, u32),
    /// So many dwords of a device arrive; where they belong.
    Arrives(u8, u32, Option<(u8, u32)>),
    /// So many dwords of a device are refused.
    IsRefused(u8, u32, ArriveError),
    /// A DMA Activate of a device, and whether it is taken.
    Activates(u8, bool),
    /// The next data to a device, which goes to it.
    Gives(u8, Option<(u8, u32, u32)>),
    /// These slots of a device are said to be done: those that are, and those that miss bytes.
    Completes(u8, u32, (u32, u32)),
    /// The slot that ends with the last block of a device.
    PioDone(u8, Option<u8>),
    /// A device is flushed, and these slots become free.
    Flushes(u8, u32),
    /// All devices are flushed.
    FlushesAll(u32),
    /// The slots that are issued and not sent, and those of queued commands.
    IsIssued(u32),
    IsQueued(u32),
    /// The device of a slot.
    Owner(u8, Option<u8>),
    /// A slot has a queued write of 24 sectors.
    IsWrite(u8),
    /// The slot for which a device sends.
    Receiving(u8, Option<u8>),
    /// What the last setup of a device has left.
    Left(u8, Option<u32>),
    /// The next command for these devices, while those are faulty.
    Next(u16, u16, Option<u8>),
}

/// A table of slots.
#[derive(Drop)]
struct Rig {
    table: SlotTable,
}

impl Model for Rig {
    ghost use Rattle.std.specs.Prelude.{ℕ};

    ghost Value = { ℕ };

    ghost view = { λ _. 0 };
}

/// Issues some work, and returns whether the slot was free.
fn issue(table: &mut SlotTable, slot: u8, dev: u8, work: Work) -> bool
    requires slot { slot < 32 }
    requires dev { dev < 16 }
    requires work { IsWork work }
{
    table.issue(slot, dev, work).is_ok()
}

/// A queued read of this many sectors.
fn issue_read(table: &mut SlotTable, slot: u8, dev: u8, sectors: u32) -> bool
    requires slot { slot < 32 }
    requires dev { dev < 16 }
    requires some { 0 < sectors }
    requires few { sectors < 256 }
{
    let len = sectors * 512;
    issue(
        table,
        slot,
        dev,
        Work {
            kind: Kind::QueuedRead,
            len,
        },
    )
}

/// Sends the next command for one of the devices in ready, and returns its slot.
fn send(table: &mut SlotTable, ready: u16) -> Option<u8> {
    let slot = table.next_command(ready, 0)?;
    table.sent(slot);
    Some(slot)
}

fn answer(table: &mut SlotTable, dev: u8) -> Answered
    requires { dev < 16 }
{
    table.answered(dev)
}

fn setup(table: &mut SlotTable, dev: u8, tag: u8, offset: u32, count: u32) -> Option<SetupError>
    requires dev { dev < 16 }
    requires tag { tag < 32 }
{
    table.setup(dev, tag, offset, count, true, false).err()
}

fn setup_out(table: &mut SlotTable, dev: u8, tag: u8, offset: u32, count: u32) -> Option<SetupError>
    requires dev { dev < 16 }
    requires tag { tag < 32 }
{
    table.setup(dev, tag, offset, count, false, false).err()
}

/// Where data that arrives belongs.
fn arrive(table: &mut SlotTable, dev: u8, dwords: u32) -> Option<(u8, u32)>
    requires dev { dev < 16 }
    requires few { dwords < 65536 }
{
    table.arrive(dev, 4 * dwords).ok()
}

/// Why data is refused.
fn arrival_error(table: &mut SlotTable, dev: u8, dwords: u32) -> Option<ArriveError>
    requires dev { dev < 16 }
    requires few { dwords < 65536 }
{
    table.arrive(dev, 4 * dwords).err()
}

fn activate(table: &mut SlotTable, dev: u8) -> bool
    requires { dev < 16 }
{
    table.activate(dev).is_ok()
}

/// The next data to a device, which goes to it.
fn take_payload(table: &mut SlotTable, dev: u8) -> Option<(u8, u32, u32)>
    requires { dev < 16 }
{
    let data = table.next_payload(dev)?;
    table.payload_gone(dev);
    Some(data)
}

fn complete(table: &mut SlotTable, dev: u8, mask: u32) -> (u32, u32)
    requires { dev < 16 }
{
    let Completed { done, short } = table.complete(dev, mask);
    (done, short)
}

/// What the device's last setup has left.
fn left(table: &SlotTable, dev: u8) -> Option<u32>
    requires { dev < 16 }
{
    let context = table.context(dev)?;
    Some(context.left)
}

/// Issues a queued read, sends it, and has its device answer it.
fn open(table: &mut SlotTable, slot: u8, dev: u8, sectors: u32) -> bool
    requires slot { slot < 32 }
    requires dev { dev < 16 }
    requires some { 0 < sectors }
    requires few { sectors < 256 }
{
    issue_read(table, slot, dev, sectors)
        && send(table, 0xFFFF) == Some(slot)
        && answer(table, dev) == Answered::Queued(slot)
}

/// A queued write of 24 sectors.
const WRITE: Work = Work {
    kind: Kind::QueuedWrite,
    len: 12288,
};

impl Rig {
    fn issues(&mut self, slot: u8, dev: u8, job: Job) -> Option<bool> {
        if slot >= 32 || dev >= 16 {
            return None;
        }
        let pio = Work {
            kind: Kind::PioIn,
            len: 1024,
        };
        let dma = Work {
            kind: Kind::DmaIn,
            len: 1024,
        };
        let control = Work {
            kind: Kind::Control,
            len: 0,
        };
        match job {
            Job::Read(sectors) if 0 < sectors && sectors < 256 => {
                Some(issue_read(&mut self.table, slot, dev, sectors))
            }
            Job::Read(_) => None,
            Job::Write => Some(issue(&mut self.table, slot, dev, WRITE)),
            Job::PioIn => Some(issue(&mut self.table, slot, dev, pio)),
            Job::DmaIn => Some(issue(&mut self.table, slot, dev, dma)),
            Job::Control => Some(issue(&mut self.table, slot, dev, control)),
        }
    }

    fn opens(&mut self, slot: u8, dev: u8, sectors: u32) -> bool {
        slot < 32
            && dev < 16
            && 0 < sectors
            && sectors < 256
            && open(&mut self.table, slot, dev, sectors)
    }

    fn sets_up(
        &mut self,
        dev: u8,
        tag: u8,
        (offset, count): (u32, u32),
        to_host: bool,
    ) -> Option<SetupError> {
        if dev >= 16 || tag >= 32 {
            return None;
        }
        if to_host {
            setup(&mut self.table, dev, tag, offset, count)
        } else {
            setup_out(&mut self.table, dev, tag, offset, count)
        }
    }

    fn sets_up_auto(&mut self, dev: u8, tag: u8, offset: u32, count: u32) -> bool {
        dev < 16
            && tag < 32
            && self
                .table
                .setup(dev, tag, offset, count, false, true)
                .is_ok()
    }

    fn arrives(&mut self, dev: u8, dwords: u32) -> Option<(u8, u32)> {
        if dev < 16 && dwords < 65536 {
            arrive(&mut self.table, dev, dwords)
        } else {
            None
        }
    }

    fn is_refused(&mut self, dev: u8, dwords: u32, error: ArriveError) -> bool {
        dev < 16 && dwords < 65536 && arrival_error(&mut self.table, dev, dwords) == Some(error)
    }

    fn stretches(&mut self, dev: u8, slot: u8, count: u32) -> bool {
        for k in 0..count {
            let offset = k.wrapping_mul(8);
            let is_good = slot < 32
                && self.sets_up(dev, slot, (offset, 4), true).is_none()
                && self.arrives(dev, 1) == Some((slot, offset));
            if !is_good {
                return false;
            }
        }
        true
    }

    /// Whether what comes of a device is as a step says. Other steps show the table.
    fn comes(&mut self, step: Step) -> bool {
        match step {
            Step::SetsUp(dev, tag, offset, count, error) => {
                self.sets_up(dev, tag, (offset, count), true) == error
            }
            Step::SetsUpOut(dev, tag, offset, count, error) => {
                self.sets_up(dev, tag, (offset, count), false) == error
            }
            Step::SetsUpAuto(dev, tag, offset, count) => self.sets_up_auto(dev, tag, offset, count),
            Step::SetsUpPio(dev, count) => {
                dev < 16 && self.table.setup_pio(dev, count, true).is_ok()
            }
            Step::Stretches(dev, slot, count) => self.stretches(dev, slot, count),
            Step::Arrives(dev, dwords, place) => self.arrives(dev, dwords) == place,
            Step::IsRefused(dev, dwords, error) => self.is_refused(dev, dwords, error),
            Step::Activates(dev, is) => dev < 16 && activate(&mut self.table, dev) == is,
            Step::Gives(dev, data) => dev < 16 && take_payload(&mut self.table, dev) == data,
            Step::Completes(dev, mask, both) => {
                dev < 16 && complete(&mut self.table, dev, mask) == both
            }
            Step::PioDone(dev, slot) => dev < 16 && self.table.pio_done(dev) == slot,
            _ => self.shows(step),
        }
    }

    /// Whether the table shows what a step says.
    fn shows(&self, step: Step) -> bool {
        match step {
            Step::IsIssued(slots) => self.table.ci() == slots,
            Step::IsQueued(slots) => self.table.queued() == slots,
            Step::Owner(slot, dev) => slot < 32 && self.table.owner(slot) == dev,
            Step::IsWrite(slot) => slot < 32 && self.table.work(slot) == Some(WRITE),
            Step::Receiving(dev, slot) => dev < 16 && self.table.receiving(dev) == slot,
            Step::Left(dev, count) => dev < 16 && left(&self.table, dev) == count,
            Step::Next(ready, faulty, slot) => self.table.next_command(ready, faulty) == slot,
            _ => false,
        }
    }

    /// Whether a step is as it says.
    fn passes(&mut self, step: Step) -> bool {
        match step {
            Step::Issues(slot, dev, job) => self.issues(slot, dev, job) == Some(true),
            Step::IsBusy(slot, dev, job) => self.issues(slot, dev, job) == Some(false),
            Step::Sends(ready, slot) => send(&mut self.table, ready) == slot,
            Step::Answers(dev, answered) => dev < 16 && answer(&mut self.table, dev) == answered,
            Step::Opens(slot, dev, sectors) => self.opens(slot, dev, sectors),
            Step::Flushes(dev, slots) => dev < 16 && self.table.flush(dev) == slots,
            Step::FlushesAll(slots) => self.table.flush_all() == slots,
            _ => self.comes(step),
        }
    }

    /// The number of the first step that is not as it says.
    fn first_wrong(&mut self, steps: &[Step]) -> Option<usize> {
        for (i, step) in steps.iter().enumerate() {
            if !self.passes(*step) {
                return Some(i);
            }
        }
        None
    }
}

/// Each step of a new table is as it says.
pub(super) fn play(rt: &impl Abort, steps: &[Step]) {
    let mut rig = Rig {
        table: SlotTable::new(),
    };
    assert_eq!(rt; rig.first_wrong(steps), None, "the number of a step");
}
