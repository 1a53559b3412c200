//! A host that gives commands and Data, and a caller with a plain medium.

ghost use Rattle.std.specs.Prelude.{◌≡◌, ◌≤◌, ◌<◌, length};
ghost use Rattle.sata_disk.specs.Sending.{IsOut};

use crate::memory::{append, copied, data, push, register, zeros};
use block_command::AnswerError;
use block_engine::{Answer, Range, Request, What};
use disk_pages::{
    Capacity, FirmwareRevision, ModelNumber, PhysicalSector, Profile, QueueDepth, Rotation,
    SerialNumber,
};
use fis_view::{Fis, Frame, H2dFields, Stamp};
use sata_disk::{SataDisk, Unheard};
use std::alloc::Global;
use std::process::Abort;

/// The stamp of each frame.
pub const STAMP: Stamp = Stamp {
    port: 0,
    conn: 1,
    number: 0,
    shown: [0; 15],
};

/// The sectors of the medium.
pub const SECTORS: u64 = 4096;

/// A disk with its medium, and what its host sent and got.
#[derive(Drop)]
pub struct Bench {
    /// The disk.
    pub disk: SataDisk,
    /// The sectors.
    pub medium: Vec<u8>,
    /// What the host sends when it is asked for Data, and how much of it went.
    pub data: Vec<u8>,
    /// How many bytes of it went.
    pub gone: usize,
    /// The FISes of the disk.
    pub frames: Vec<Frame>,
    /// Flushes that were answered.
    pub flushes: u32,
    /// All numbers of requests are below it.
    pub asked: u64,
}

/// A profile with TRIM and 32 queued commands.
pub fn profile(rt: &impl Abort) -> Profile {
    Profile {
        model: ModelNumber::new("Gefsunk disk").expect(rt, "a model"),
        serial: SerialNumber::new("1").expect(rt, "a serial"),
        firmware: FirmwareRevision::new("1.0").expect(rt, "a firmware"),
        wwn: None,
        capacity: Capacity::new(SECTORS).expect(rt, "a capacity"),
        depth: QueueDepth::new(32).expect(rt, "a depth"),
        rotation: Rotation::Solid,
        physical: PhysicalSector::Bytes512,
        trim: true,
    }
}

/// So many bytes, each of its own.
pub fn some_bytes(rt: &impl Abort, alloc: Global, len: usize, seed: u64) -> Vec<u8> {
    let mut bytes = zeros(rt, alloc, len);
    let mut seed = seed;
    for byte in &mut bytes {
        seed = next(seed);
        *byte = (seed >> 33 & 0xFF) as u8;
    }
    bytes
}

/// The next of a row of numbers (Knuth's MMIX).
pub fn next(seed: u64) -> u64 {
    seed.wrapping_mul(6_364_136_223_846_793_005)
        .wrapping_add(1_442_695_040_888_963_407)
}

/// The fields of a Register FIS with this command.
pub fn command(code: u8, lba: u64, count: u16) -> H2dFields {
    H2dFields {
        pm_port: 0,
        c: true,
        command: code,
        features: 0,
        lba,
        device: 0x40,
        count,
        icc: 0,
        control: 0,
    }
}

/// The fields of a queued command.
pub fn queued(code: u8, lba: u64, count: u16, tag: u8) -> H2dFields {
    H2dFields {
        features: count,
        count: (tag % 32) as u16 * 8,
        ..command(code, lba, 0)
    }
}

/// The first byte and the end of sectors of a medium.
#[derive(Drop)]
struct Span {
    from: usize,
    to: usize,
}

/// Where these sectors stand.
fn span_of(rt: &impl Abort, medium: &[u8], lba: u64, count: u32) -> Span
    ensures order { result.from ≤ result.to }
    ensures end { result.to ≤ length medium.now }
{
    assert!(rt; lba < 1 << 32);
    let from = lba as usize * 512;
    let to = from + count as usize * 512;
    assert!(rt; to <= medium.len());
    Span { from, to }
}

/// Whether a FIS of the disk asks the host for Data, and for how many bytes at most.
fn asked_bytes(frame: &Frame) -> Option<usize> {
    match frame.fis() {
        Ok(Fis::DmaActivate(_)) => Some(8192),
        Ok(Fis::PioSetup(fis)) => if fis.d() {
            None
        } else {
            Some(fis.transfer() as usize)
        },
        Ok(Fis::DmaSetup(fis)) => if fis.a() { Some(8192) } else { None },
        _ => None,
    }
}

/// A medium that is all zeros.
pub fn blank(rt: &impl Abort, alloc: Global) -> Vec<u8> {
    zeros(rt, alloc, SECTORS as usize * 512)
}

/// Sectors of a medium.
pub fn sectors_of<'a>(rt: &impl Abort, medium: &'a [u8], lba: u64, count: u32) -> &'a [u8] {
    let span = span_of(rt, medium, lba, count);
    &medium[span.from..span.to]
}

/// Puts sectors onto a medium.
pub fn put_sectors(rt: &impl Abort, medium: &mut [u8], lba: u64, bytes: &[u8]) {
    assert!(rt; bytes.len() / 512 < 1 << 32);
    let span = span_of(rt, medium, lba, (bytes.len() / 512) as u32);
    assert!(rt; bytes.len() == span.to - span.from);
    let sectors = &mut medium[span.from..span.to];
    sectors.copy_from_slice(bytes);
}

/// Makes sectors of a medium zeros.
pub fn clear_sectors(rt: &impl Abort, medium: &mut [u8], lba: u64, count: u32) {
    let span = span_of(rt, medium, lba, count);
    let sectors = &mut medium[span.from..span.to];
    sectors.fill(0);
}

/// How a command that is not queued ended.
#[derive(Clone, Copy, Debug, PartialEq, Eq)]
pub struct Ending {
    /// The Status register.
    pub status: u8,
    /// The Error register.
    pub error: u8,
    /// The LBA.
    pub lba: u64,
    /// The Count register.
    pub count: u16,
}

/// The end of a command that went well, and says nothing more.
pub const WELL: Ending = Ending {
    status: 0x50,
    error: 0,
    lba: 0,
    count: 0,
};

/// The end of a command that was refused for itself.
pub const ABORTED: Ending = Ending {
    status: 0x51,
    error: 4,
    lba: 0,
    count: 0,
};

/// The end that a FIS is: a Register FIS with its interrupt, or the last PIO Setup FIS of a read.
fn ending_of(frame: &Frame) -> Option<Ending> {
    match frame.fis() {
        Ok(Fis::RegD2H(fis)) if fis.i() => Some(Ending {
            status: fis.status(),
            error: fis.error(),
            lba: fis.lba(),
            count: fis.count(),
        }),
        Ok(Fis::PioSetup(fis)) if fis.d() && fis.e_status() & 0x88 == 0 => Some(Ending {
            status: fis.e_status(),
            error: fis.error(),
            lba: fis.lba(),
            count: fis.count(),
        }),
        _ => None,
    }
}

impl Bench {
    /// A disk that was plugged in, with a medium that is all zeros.
    pub fn new(rt: &impl Abort, alloc: Global) -> Bench {
        Bench::with_limit(rt, alloc, 4 << 20)
    }

    /// A disk that was plugged in and holds at most so many bytes, with a medium that is all zeros.
    pub fn with_limit(rt: &impl Abort, alloc: Global, limit: u32) -> Bench
        requires { 1048576 ≤ limit }
    {
        let mut disk = match SataDisk::new(alloc, profile(rt), limit) {
            Ok(disk) => disk,
            Err(_) => SataDisk::new(alloc, profile(rt), limit).expect(rt, "memory"),
        };
        disk.plugged(alloc);
        Bench {
            disk,
            medium: blank(rt, alloc),
            data: Vec::new(alloc),
            gone: 0,
            frames: Vec::new(alloc),
            flushes: 0,
            asked: 0,
        }
    }

    /// The host sends a Register FIS. Where memory is refused, it sends it again.
    pub fn gives(&mut self, rt: &impl Abort, alloc: Global, fields: H2dFields) -> Option<Unheard> {
        let frame = register(rt, alloc, &fields, STAMP);
        self.hears(rt, alloc, &frame)
    }

    /// A FIS of the host comes; it is given again where memory is refused.
    pub fn hears(&mut self, rt: &impl Abort, alloc: Global, frame: &Frame) -> Option<Unheard> {
        match self.disk.on_frame(alloc, frame) {
            Ok(unheard) => unheard,
            Err(_) => self.disk.on_frame(alloc, frame).expect(rt, "memory"),
        }
    }

    /// The host sends the next Data.
    fn gives_data(&mut self, rt: &impl Abort, alloc: Global, most: usize) {
        let len = self.data.len().saturating_sub(self.gone).min(most);
        assert!(rt; self.gone <= self.data.len());
        let part = &self.data[self.gone..self.gone + len];
        let frame = data(rt, alloc, part, STAMP);
        assert!(rt; self.hears(rt, alloc, &frame).is_none());
        self.gone = self.gone.saturating_add(len);
    }

    /// The sectors of a load.
    fn load(&self, rt: &impl Abort, alloc: Global, lba: u64, count: u32) -> Answer {
        let bytes = sectors_of(rt, &self.medium, lba, count);
        Answer::Loaded(copied(rt, alloc, bytes))
    }

    /// Stores the bytes of the store that asked.
    fn store(&mut self, rt: &impl Abort, request: Request, lba: u64, count: u32) {
        let place = request.place.expect(rt, "a place");
        let bytes = self.disk.stored(place, request.number);
        let bytes = bytes.expect(rt, "a store");
        assert!(rt; bytes.len() == count as usize * 512);
        put_sectors(rt, &mut self.medium, lba, bytes);
    }

    /// Makes the discarded sectors zeros.
    fn discard(&mut self, rt: &impl Abort, number: u64) {
        let ranges = self.disk.discarded(number);
        for range in ranges.expect(rt, "a discard") {
            let Range { lba, count } = *range;
            clear_sectors(rt, &mut self.medium, lba, count);
        }
    }

    /// Does what a request asks for, and answers it. It is refused only where a reset ended it.
    pub fn answers(&mut self, rt: &impl Abort, alloc: Global, request: Request) {
        let answer = match request.what {
            What::Load { lba, count } => self.load(rt, alloc, lba, count),
            What::Store { lba, count } => {
                self.store(rt, request, lba, count);
                Answer::Done
            }
            What::Flush => {
                self.flushes = self.flushes.saturating_add(1);
                Answer::Done
            }
            What::Discard => {
                self.discard(rt, request.number);
                Answer::Done
            }
        };
        if let Err(error) = self.disk.answer(request.number, answer) {
            assert!(rt; matches!(error, AnswerError::NotOut));
        }
    }

    /// The FIS that goes next, if there is one.
    pub fn next_frame(&mut self, rt: &impl Abort, alloc: Global) -> Option<Frame> {
        let out = self.disk.next_out()?;
        let frame = match self.disk.frame(alloc, out, STAMP) {
            Ok(frame) => frame,
            Err(_) => self.disk.frame(alloc, out, STAMP).expect(rt, "memory"),
        };
        self.disk.sent(out);
        Some(frame)
    }

    /// The disk sends the FIS that is next, if there is one; the host keeps it, and sends Data where it asks for them.
    pub fn sends(&mut self, rt: &impl Abort, alloc: Global) -> bool {
        let Some(frame) = self.next_frame(rt, alloc) else {
            return false;
        };
        let asked = asked_bytes(&frame);
        push(rt, &mut self.frames, frame);
        if let Some(most) = asked {
            self.gives_data(rt, alloc, most);
        }
        true
    }

    /// Starts what starts next, and asks what is next.
    pub fn asks(&mut self, rt: &impl Abort) -> Option<Request> {
        if self.disk.start_next().is_err() {
            self.disk.start_next().expect(rt, "memory");
        }
        self.disk.next_request()
    }

    /// All goes on until nothing is left to do.
    pub fn settles(&mut self, rt: &impl Abort, alloc: Global) {
        for _ in 0..100_000u32 {
            let mut moves = false;
            if let Some(request) = self.asks(rt) {
                self.answers(rt, alloc, request);
                moves = true;
            }
            if !self.sends(rt, alloc) && !moves {
                return;
            }
        }
        panic!(rt; "it goes on");
    }

    /// A command that is not queued goes to its end.
    pub fn runs(&mut self, rt: &impl Abort, alloc: Global, fields: H2dFields) -> Ending {
        self.frames = Vec::new(alloc);
        self.gone = 0;
        assert!(rt; self.gives(rt, alloc, fields).is_none());
        self.settles(rt, alloc);
        self.ending(rt)
    }

    /// How the command ended: once.
    pub fn ending(&self, rt: &impl Abort) -> Ending {
        let mut ending = None;
        for frame in &self.frames {
            if let Some(end) = ending_of(frame) {
                assert!(rt; ending.is_none());
                ending = Some(end);
            }
        }
        ending.expect(rt, "an end")
    }

    /// The bytes of the Data FISes of the disk.
    pub fn came(&self, rt: &impl Abort, alloc: Global) -> Vec<u8> {
        let mut bytes = Vec::new(alloc);
        for frame in &self.frames {
            if let Ok(Fis::Payload(fis)) = frame.fis() {
                append(rt, &mut bytes, fis.payload());
            }
        }
        bytes
    }
}
