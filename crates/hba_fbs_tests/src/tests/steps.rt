//! Tests as lists of steps: what is done with a host port, and what it answers then.
//!
//! A list is data, and `play` has the only assertion. So a test is proved with little work.

use super::fises::{answer, block, counting, data, register, setup};
use super::rig::Rig;
use fis_view::{Frame, H2dFields, Stamp};
use hba_fbs::{Register, TakeReport, WriteError, Wrote};
use host_memory::Prd;
use port_errors::{DeviceCause, PortCause};
use rx_area::Posted;
use std::alloc::Global;
use std::process::Abort;

/// A FIS of a device.
#[derive(Clone, Copy)]
pub(super) enum Sent {
    /// The answer of a device to a queued command.
    Answer(u8),
    /// A DMA Setup of a device: whether to the host, the slot, the offset and the count.
    Setup(u8, bool, u8, u16, u16),
    /// A sector of Data of a device, all of whose bytes are this one.
    Sector(u8, u8),
    /// The bytes 0, 1, .. 255, 0, .. as Data of device 3.
    Counting,
    /// The first bytes of a sector of Data of a device: how many after the first four.
    Part(u8, u8, usize),
    /// A PIO Setup with this byte 1, this E_Status and this transfer count.
    Block(u8, u8, u16),
    /// A Register FIS of device 2 with this Status, this Error, the lowest byte of Count and the three lowest of LBA.
    Register(u8, u8, u8, [u8; 3]),
    /// Any bytes.
    Bytes(&'static [u8]),
    /// Any four, eight or twenty bytes. A row with them by value is proved with less work than one that refers to them.
    Four([u8; 4]),
    Eight([u8; 8]),
    Twenty([u8; 20]),
}

/// What is told of a FIS.
#[derive(Clone, Copy)]
pub(super) enum Told {
    /// It is ignored.
    Ignored,
    /// It is heard, and no more than posted.
    Heard(Posted),
    /// By it these slots become free.
    Done(Posted, u32),
    /// It makes its device faulty.
    Faulty(Posted, DeviceCause),
    /// It stops the port.
    Stops(PortCause),
    /// It brings a sector of a slot, from this offset on.
    Brings(u8, u32),
    /// It does so, and the slot becomes free.
    BringsLast(u8, u32),
}

/// A step of a test.
#[derive(Clone, Copy)]
pub(super) enum Step {
    /// The port and its memory are new.
    Begins,
    /// The port opens anew, and runs with switching and its received area at 1000h.
    Starts,
    /// The port opens anew.
    Opens,
    /// A value is written to an offset, and taken.
    Writes(u32, u32),
    /// A value is written to an offset, and refused with this error.
    Refuses(u32, u32, WriteError),
    /// The register at an offset shows this.
    Shows(u32, u32),
    /// A FIS is taken, whatever the port makes of it.
    Takes(Sent),
    /// A FIS is taken, and this is told of it.
    Tells(Sent, Told),
    /// A FIS makes its device faulty for this cause and ends nothing.
    Faults(Sent, DeviceCause),
    /// A FIS is no fault, and by it these slots become free.
    Ends(Sent, u32),
    /// Device 2 brings so many runs of four bytes of its read in slot 0, with a gap after each, and none is a fault.
    BringsRuns(u16),
    /// This many bytes, from this address of the client area on, are this one.
    Holds(usize, usize, u8),
    /// The byte at this address of the structure area is this one.
    Posts(usize, u8),
    /// The byte at this address of host memory becomes this one.
    Puts(u32, u8),
    /// The byte at this address of the structure area becomes this one.
    Spoils(usize, u8),
    /// A command without data of a device is written to a slot, and not issued.
    Lists(u8, u8),
    /// A queued read of a device, of one sector, is written to a slot, its table to this address, and not issued.
    ListsRead(u8, u8, u32),
    /// A command of a device, in this slot, of this code and with these PRDs is issued and goes out.
    Issues(u8, u8, u8, &'static [Prd]),
    /// A queued read of a device, in this slot, of two sectors for this address, is issued, goes out and is answered.
    Reads(u8, u8, u32),
    /// A command of a device, in this slot and of this code, that moves no data is issued. Code 0 is a Control with SRST set.
    Queues(u8, u8, u8),
    /// A command of a device in a slot, of this code, for sectors from 8 on, this many of them, is issued for the place of its
    /// device: 101000h of device 2, 102000h of device 3.
    Moves(u8, u8, u8, u16),
    /// A command of device 2 in slot 0 of this code, with this Count and room for so many sectors, is written there.
    ListsOf(u8, u16, u32),
    /// A software reset of a device begins.
    Resets(u8),
    /// A device is flushed, and these of its slots become free.
    Flushes(u8, u32),
    /// Whether a device is in software reset.
    IsResetting(u8, bool),
    /// Whether a device is marked as signed.
    IsSigned(u8, bool),
    /// Devices 2 and 4 are faulty for these causes, and no other device. This stopped the port.
    Causes(Option<DeviceCause>, Option<DeviceCause>, Option<PortCause>),
    /// The next frame begins with these bytes, and its stamp is of its device and has this number.
    Gives(u32, &'static [u8]),
    /// The next frame is a sector of Data of device 2. These are its first and its last byte.
    GivesSector(u8, u8),
    /// The next frame has this first byte, is for this device, and has so many bytes.
    GivesOf(u8, u8, usize),
    /// No frame goes out.
    GivesNone,
    /// There is no register at an offset.
    Lacks(u32),
    /// A register stands at its offset, has this value in a port that opens, and stores these bits. ST and FRE are left out.
    Stands(Register, u32, u32, u32),
    /// A FIS is taken, whatever the port makes of it. This is what PxTFD and PxIS show then.
    Becomes(Sent, u32, u32),
    /// A FIS makes device 2 faulty for this cause and sets these bits of PxIS. It moves nothing and ends nothing: the read in
    /// slot 0 stays there.
    Breaks(Sent, DeviceCause, u32),
    /// A queued command of one sector, in this slot, of this device and of this code, is issued as the driver does it: PxFBS
    /// as it reads at the write of PxCI, and the bit that is written to PxSACT.
    Drives(u8, u8, u8, u32, u32),
    /// A refusal has this number and is written so.
    Says(u8, WriteError, &'static str),
    /// The refusal of a read is written so.
    SaysOfARead(&'static str),
    /// The port starts, and a command of device 2 in a slot, of this code, for sectors from 8 on, this many of them and for
    /// 101000h, goes out.
    GoesOut(u8, u8, u16),
}

/// What a command of a device in a slot says.
pub(super) fn command(dev: u8, command: u8, lba: u64, slot: u8) -> H2dFields {
    let queued = command == 0x60 || command == 0x61;
    H2dFields {
        pm_port: dev,
        c: command != 0,
        command,
        features: if queued { 1 } else { 0 },
        lba,
        device: if queued { 0x40 } else { 0 },
        count: if queued { slot as u16 * 8 } else { 0 },
        icc: 0,
        control: if command == 0 { 4 } else { 0 },
    }
}

/// A sector's bytes of a slot, from this offset on.
fn sector_at(slot: u8, offset: u32) -> Wrote {
    Wrote {
        slot,
        offset,
        len: 512,
    }
}

/// All of what is told of a FIS of a device.
fn report(dev: u8, told: Told) -> TakeReport {
    let mut report = TakeReport {
        dev,
        ignored: false,
        posted: Posted::Nothing,
        fault: None,
        stopped: None,
        wrote: None,
        done: 0,
    };
    match told {
        Told::Ignored => report.ignored = true,
        Told::Heard(posted) => report.posted = posted,
        Told::Done(posted, done) => {
            report.posted = posted;
            report.done = done;
        }
        Told::Faulty(posted, cause) => {
            report.posted = posted;
            report.fault = Some(cause);
        }
        Told::Stops(cause) => report.stopped = Some(cause),
        Told::Brings(slot, offset) => report.wrote = Some(sector_at(slot, offset)),
        Told::BringsLast(slot, offset) => {
            report.wrote = Some(sector_at(slot, offset));
            report.done = 1_u32 << (slot % 32);
        }
    }
    report
}

fn is_frame(frame: &Frame, number: u32, begin: &[u8]) -> bool {
    let stamp = Stamp {
        port: frame.pm_port(),
        conn: 0,
        number,
        shown: [0; 15],
    };
    frame.bytes().starts_with(begin) && frame.stamp() == stamp
}

fn is_sector(frame: &Frame, first: u8, last: u8) -> bool {
    let bytes = frame.bytes();
    bytes.len() == 516 && bytes.starts_with(&[0x46, 2, 0, 0, first]) && bytes.last() == Some(&last)
}

fn is_of(frame: &Frame, first: u8, dev: u8, len: usize) -> bool {
    let bytes = frame.bytes();
    bytes.len() == len && bytes.starts_with(&[first]) && frame.pm_port() == dev
}

/// Whether a frame, if there is one, is what a step wants of it.
fn is_wanted(frame: Option<&Frame>, step: Step) -> bool {
    match (frame, step) {
        (None, Step::GivesNone) => true,
        (Some(frame), Step::Gives(number, begin)) => is_frame(frame, number, begin),
        (Some(frame), Step::GivesSector(first, last)) => is_sector(frame, first, last),
        (Some(frame), Step::GivesOf(first, dev, len)) => is_of(frame, first, dev, len),
        _ => false,
    }
}

/// Whether this is told: this cause of a fault, these slots that became free, and that no byte was written.
fn is_told(
    told: Option<TakeReport>,
    cause: Option<DeviceCause>,
    done: u32,
    unwritten: bool,
) -> bool {
    match told {
        Some(report) => {
            let wanted = TakeReport {
                fault: cause,
                stopped: None,
                wrote: if unwritten { None } else { report.wrote },
                done,
                ..report
            };
            report == wanted
        }
        None => false,
    }
}

/// The device that sends a FIS.
fn dev_of(sent: Sent) -> u8 {
    match sent {
        Sent::Answer(second) | Sent::Setup(second, ..) | Sent::Sector(second, _) => second % 16,
        Sent::Part(second, ..) | Sent::Block(second, ..) => second % 16,
        Sent::Counting => 3,
        Sent::Register(..) => 2,
        Sent::Bytes([_, second, ..]) => *second % 16,
        Sent::Bytes(_) => 0,
        Sent::Four(bytes) => bytes[1] % 16,
        Sent::Eight(bytes) => bytes[1] % 16,
        Sent::Twenty(bytes) => bytes[1] % 16,
    }
}

impl Rig {
    /// A FIS is taken, once more if memory was refused.
    fn hears(&mut self, bytes: &[u8]) -> Option<TakeReport> {
        match self.take(bytes) {
            None => self.take(bytes),
            told => told,
        }
    }

    fn hears_sent(&mut self, sent: Sent) -> Option<TakeReport> {
        match sent {
            Sent::Answer(dev) => self.hears(&answer(dev)),
            Sent::Setup(dev, to_host, slot, offset, count) => {
                self.hears(&setup(dev, to_host, slot, offset, count))
            }
            Sent::Sector(dev, byte) => self.hears(&data(dev, byte)),
            Sent::Counting => self.hears(&counting()),
            Sent::Part(dev, byte, len) => {
                let fis = data(dev, byte);
                self.hears(fis.get(..len.saturating_add(4)).unwrap_or(&[]))
            }
            Sent::Block(second, ends, count) => self.hears(&block(second, ends, count)),
            Sent::Register(status, error, count, lba) => {
                self.hears(&register(2, status, error, count, lba))
            }
            Sent::Bytes(bytes) => self.hears(bytes),
            Sent::Four(bytes) => self.hears(&bytes),
            Sent::Eight(bytes) => self.hears(&bytes),
            Sent::Twenty(bytes) => self.hears(&bytes),
        }
    }

    fn tells(&mut self, sent: Sent, told: Told) -> bool {
        self.hears_sent(sent) == Some(report(dev_of(sent), told))
    }

    fn faults(&mut self, sent: Sent, cause: DeviceCause, unwritten: bool) -> bool {
        is_told(self.hears_sent(sent), Some(cause), 0, unwritten)
    }

    fn breaks(&mut self, sent: Sent, cause: DeviceCause, interrupts: u32) -> bool {
        self.faults(sent, cause, true)
            && self.marks(Some(cause), None, None)
            && self.shows(0x10, interrupts)
            && self.shows(0x40, 0x0002_F205)
            && self.shows(0x34, 1)
    }

    fn becomes(&mut self, sent: Sent, file: u32, interrupts: u32) -> bool {
        matches!(self.hears_sent(sent), Some(_))
            && self.shows(0x20, file)
            && self.shows(0x10, interrupts)
    }

    /// Whether this is told of bytes that come from a device.
    pub(super) fn is_told(&mut self, bytes: &[u8], dev: u8, told: Told) -> bool {
        self.hears(bytes) == Some(report(dev, told))
    }

    fn brings_runs(&mut self, count: u16) -> bool {
        for run in 0..count {
            let setup = Sent::Setup(2, true, 0, run % 64 * 8, 4);
            let is_good = is_told(self.hears_sent(setup), None, 0, true)
                && is_told(self.hears_sent(Sent::Part(2, 0x11, 4)), None, 0, false);
            if !is_good {
                return false;
            }
        }
        true
    }

    /// Whether the next frame is what a step wants.
    fn gives(&mut self, step: Step) -> bool {
        match self.next_out() {
            Ok(frame) => is_wanted(frame.as_ref(), step),
            Err(_) => false,
        }
    }

    /// A frame of a command or a Control goes out to a device.
    fn sends(&mut self, dev: u8) -> bool {
        self.gives(Step::GivesOf(0x27, dev, 20))
    }

    /// A command of a device is issued and goes out. A queued one moves two sectors if one PRD stands for it, and else
    /// one.
    pub(super) fn issues(&mut self, dev: u8, slot: u8, code: u8, prds: &[Prd]) -> bool {
        let queued = code == 0x60;
        let sectors = if prds.len() == 1 { 2 } else { 1 };
        let fields = H2dFields {
            features: if queued { sectors } else { 0 },
            device: 0x40,
            ..command(dev, code, 0x100, slot)
        };
        self.issue(slot, &fields, prds) && self.sends(dev)
    }

    /// A queued read of two sectors is issued, goes out and is answered.
    pub(super) fn reads(&mut self, dev: u8, slot: u8, address: u32) -> bool {
        let prd = Prd {
            address,
            bytes: 1024,
        };
        self.issues(dev, slot, 0x60, &[prd]) && matches!(self.hears(&answer(dev)), Some(_))
    }

    /// A command that moves this many sectors, for the place of its device.
    fn moves(&mut self, dev: u8, slot: u8, code: u8, sectors: u16) -> bool {
        let fields = command(dev, code, 8, slot);
        let (features, count) = if code == 0x61 {
            (sectors, fields.count)
        } else {
            (fields.features, sectors)
        };
        let fields = H2dFields {
            features,
            count,
            ..fields
        };
        let prd = Prd {
            address: 0x0F_F000 + 0x1000 * dev as u32,
            bytes: 512 * sectors as u32,
        };
        self.issue(slot, &fields, &[prd])
    }

    fn lists(&mut self, code: u8, count: u16, sectors: u32) -> bool {
        let fields = H2dFields {
            count,
            ..command(2, code, 8, 0)
        };
        let prd = Prd {
            address: 0x10_1000,
            bytes: 512 * (sectors % 0x1000),
        };
        self.write_slot(0, 0x2000, &fields, &[prd])
    }

    /// What is done with the slots, and whether it went well. Other steps do nothing here.
    fn acts(&mut self, step: Step) -> bool {
        match step {
            Step::Begins => return self.begin(),
            Step::Starts => return self.start(),
            Step::Opens => self.open(),
            Step::Spoils(at, byte) => self.put_structure(at, byte),
            Step::Puts(address, byte) => return self.put_client(address, byte),
            Step::Lists(dev, slot) => {
                let table = 0x2000 + 0x1000 * slot as u32;
                return self.write_slot(slot, table, &command(dev, 0xE4, 0, slot), &[]);
            }
            Step::ListsRead(dev, slot, table) => {
                let prd = Prd {
                    address: 0x10_1000,
                    bytes: 512,
                };
                return self.write_slot(slot, table, &command(dev, 0x60, 0x100, slot), &[prd]);
            }
            Step::Issues(dev, slot, code, prds) => return self.issues(dev, slot, code, prds),
            Step::Reads(dev, slot, address) => return self.reads(dev, slot, address),
            Step::Queues(dev, slot, code) => {
                return self.issue(slot, &command(dev, code, 0, slot), &[]);
            }
            Step::Moves(dev, slot, code, sectors) => return self.moves(dev, slot, code, sectors),
            Step::ListsOf(code, count, sectors) => return self.lists(code, count, sectors),
            Step::Resets(dev) => return self.resets(dev),
            Step::Drives(slot, dev, code, switching, armed) => {
                return self.drives(slot, &command(dev, code, 0, slot), switching, armed);
            }
            Step::GoesOut(slot, code, sectors) => {
                return self.start() && self.moves(2, slot, code, sectors) && self.sends(2);
            }
            _ => {}
        }
        true
    }

    /// A queued command of one sector is issued as the driver does it.
    fn drives(&mut self, slot: u8, fields: &H2dFields, switching: u32, armed: u32) -> bool {
        let fields = H2dFields {
            control: 8,
            ..*fields
        };
        let prd = Prd {
            address: 0x10_1000,
            bytes: 512,
        };
        self.write_slot(slot, 0x2000, &fields, &[prd])
            && self.writes(0x40, switching)
            && self.shows(0x40, switching)
            && self.writes(0x34, armed)
            && self.shows(0x40, switching)
            && self.writes(0x38, armed)
            && self.shows(0x38, armed)
    }

    /// A software reset of a device begins.
    pub(super) fn resets(&mut self, dev: u8) -> bool {
        self.issue(0, &command(dev, 0, 0, 0), &[]) && self.sends(dev)
    }

    /// Whether a step is as it says.
    fn passes(&mut self, step: Step) -> bool {
        match step {
            Step::Writes(offset, value) => self.writes(offset, value),
            Step::Refuses(offset, value, error) => self.write(offset, value) == Err(error),
            Step::Shows(offset, value) => self.shows(offset, value),
            Step::Lacks(offset) => self.lacks(offset),
            Step::Says(number, error, text) => error as u8 == number && self.says(error, text),
            Step::SaysOfARead(text) => self.says_of_a_read(text),
            Step::Stands(register, offset, opening, stored) => {
                self.stands(register, offset, opening, stored)
            }
            Step::Takes(sent) => matches!(self.hears_sent(sent), Some(_)),
            Step::Tells(sent, told) => self.tells(sent, told),
            Step::Becomes(sent, file, interrupts) => self.becomes(sent, file, interrupts),
            Step::Breaks(sent, cause, interrupts) => self.breaks(sent, cause, interrupts),
            Step::Faults(sent, cause) => self.faults(sent, cause, false),
            Step::Ends(sent, done) => is_told(self.hears_sent(sent), None, done, false),
            Step::BringsRuns(count) => self.brings_runs(count),
            Step::Holds(at, count, byte) => self.holds(at, count, byte),
            Step::Posts(at, byte) => self.posts(at, byte),
            Step::Flushes(dev, free) => self.flushes(dev, free),
            Step::IsResetting(dev, is) => self.resetting(dev) == is,
            Step::IsSigned(dev, is) => self.signed(dev) == is,
            Step::Causes(second, fourth, stopped) => self.marks(second, fourth, stopped),
            Step::Gives(..) | Step::GivesSector(..) | Step::GivesOf(..) | Step::GivesNone => {
                self.gives(step)
            }
            _ => self.acts(step),
        }
    }

    /// How many steps from the first on are as they say.
    pub(super) fn play(&mut self, steps: &[Step]) -> usize {
        for (i, step) in steps.iter().enumerate() {
            if !self.passes(*step) {
                return i;
            }
        }
        steps.len()
    }
}

/// How many steps of a port that opens are as they say. None are where memory is refused.
fn played(alloc: Global, steps: &[Step]) -> usize {
    match Rig::new(alloc) {
        Ok(mut rig) => rig.play(steps),
        Err(_) => 0,
    }
}

/// As many as there are, of steps or of what a test counts, are as they say.
pub(super) fn assert_all(rt: &impl Abort, count: usize, all: usize) {
    assert!(rt; count == all, "number {count} of {all}");
}

/// Each step of a port that opens is as it says.
pub(super) fn play(rt: &impl Abort, alloc: Global, steps: &[Step]) {
    assert_all(rt, played(alloc, steps), steps.len());
}
