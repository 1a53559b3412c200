//! A host with 32 queued commands, and what it knows of each.

ghost use Rattle.std.specs.Prelude.{◌≤◌};

use crate::caller::Pending;
use crate::host::{Bench, STAMP, blank, next, put_sectors, queued, sectors_of, some_bytes};
use crate::memory::{copied, data, push, register};
use block_engine::{ErrorKind, Failure, Request, What};
use fis_view::{Fis, Frame, RegD2H};
use std::alloc::Global;
use std::process::Abort;

/// A queued command, as its host knows it.
#[derive(Drop)]
pub struct Tag {
    /// Whether it is under way.
    pub is_out: bool,
    /// Whether it writes.
    pub write: bool,
    /// Its first sector.
    pub lba: u64,
    /// What it writes, or what its read is to bring.
    pub bytes: Vec<u8>,
    /// What a write finds.
    pub old: Vec<u8>,
    /// How many of these bytes went over.
    pub moved: usize,
    /// How many commands were given before it.
    pub before: u64,
}

/// A command to give.
#[derive(Clone, Copy)]
pub struct Order {
    /// Its tag.
    pub tag: u8,
    /// Whether it writes.
    pub write: bool,
    /// Its first sector.
    pub lba: u64,
    /// Its sectors, at most 4,096.
    pub count: u16,
}

/// A disk, its caller, and its host.
#[derive(Drop)]
pub struct Queue {
    /// The disk.
    pub bench: Bench,
    /// The sectors as the host knows them: each command does its work as it is given.
    pub model: Vec<u8>,
    /// The 32 tags.
    pub tags: Vec<Tag>,
    /// The tag that the last DMA Setup FIS named.
    pub link: u64,
    /// What the caller owes.
    pub pending: Vec<Pending>,
    /// Commands that were given.
    pub given: u64,
    /// Reads that ended.
    pub reads: u32,
    /// Writes that ended.
    pub writes: u32,
    /// Commands that ended before one that was given earlier.
    pub overtakes: u32,
    /// The Error register of the last Set Device Bits FIS with an error.
    pub error: Option<u8>,
    /// Signatures that came.
    pub signatures: u32,
}

/// A tag at which nothing is under way.
fn free(alloc: Global) -> Tag {
    Tag {
        is_out: false,
        write: false,
        lba: 0,
        bytes: Vec::new(alloc),
        old: Vec::new(alloc),
        moved: 0,
        before: 0,
    }
}

/// How the medium fails a load or a store of this tag: a sector that cannot be read, or one that cannot be written.
fn failure_of(request: &Request, fails: Option<u8>) -> Option<Failure> {
    if fails.is_none() || request.place != fails {
        return None;
    }
    match request.what {
        What::Load { lba, count } => Some(Failure {
            error: ErrorKind::Uncorrectable,
            lba: lba.saturating_add(u64::from(count / 2)),
        }),
        What::Store { lba, .. } => Some(Failure {
            error: ErrorKind::Aborted,
            lba,
        }),
        _ => None,
    }
}

impl Queue {
    /// A disk that was plugged in and has sent its signature.
    pub fn new(rt: &impl Abort, alloc: Global, limit: u32) -> Queue
        requires { 1048576 ≤ limit }
    {
        let mut bench = Bench::with_limit(rt, alloc, limit);
        bench.settles(rt, alloc);
        let mut tags = Vec::new(alloc);
        for _ in 0..32u32 {
            push(rt, &mut tags, free(alloc));
        }
        Queue {
            bench,
            model: blank(rt, alloc),
            tags,
            link: 32,
            pending: Vec::new(alloc),
            given: 0,
            reads: 0,
            writes: 0,
            overtakes: 0,
            error: None,
            signatures: 0,
        }
    }

    /// The host gives a command.
    pub fn gives(&mut self, rt: &impl Abort, alloc: Global, order: Order, seed: u64) {
        let Order {
            tag,
            write,
            lba,
            count,
        } = order;
        let old = copied(
            rt,
            alloc,
            sectors_of(rt, &self.model, lba, u32::from(count)),
        );
        let bytes = if write {
            let bytes = some_bytes(rt, alloc, count as usize * 512, seed);
            put_sectors(rt, &mut self.model, lba, &bytes);
            bytes
        } else {
            copied(rt, alloc, &old)
        };
        let known = self.tags.get_mut(tag as usize).expect(rt, "a tag");
        assert!(rt; !known.is_out);
        *known = Tag {
            is_out: true,
            write,
            lba,
            bytes,
            old,
            moved: 0,
            before: self.given,
        };
        self.given = self.given.saturating_add(1);
        let mut fields = queued(if write { 0x61 } else { 0x60 }, lba, count, tag);
        if seed >> 20 & 7 == 0 {
            // FUA
            fields.device = 0xC0;
        }
        let frame = register(rt, alloc, &fields, STAMP);
        assert!(rt; self.bench.hears(rt, alloc, &frame).is_none());
        self.is_accepted(rt, alloc);
    }

    /// The Register FIS that lets the next command come.
    fn is_accepted(&mut self, rt: &impl Abort, alloc: Global) {
        let frame = self.bench.next_frame(rt, alloc).expect(rt, "a FIS");
        match frame.fis() {
            Ok(Fis::RegD2H(fis)) => assert!(rt;
                fis.status() == 0x50 && fis.error() == 0 && !fis.i()
            ),
            _ => panic!(rt; "it was not accepted"),
        }
    }

    /// The tag that the last DMA Setup FIS named.
    fn linked(&mut self, rt: &impl Abort) -> &mut Tag {
        assert!(rt; self.link < 32);
        let known = self.tags.get_mut(self.link as usize).expect(rt, "a tag");
        assert!(rt; known.is_out);
        known
    }

    /// The host sends the next Data of the write on the link.
    fn sends_data(&mut self, rt: &impl Abort, alloc: Global) {
        let known = self.linked(rt);
        assert!(rt; known.write && known.moved <= known.bytes.len());
        let len = (known.bytes.len() - known.moved).min(8192);
        let part = &known.bytes[known.moved..known.moved + len];
        let frame = data(rt, alloc, part, STAMP);
        known.moved = known.moved.saturating_add(len);
        assert!(rt; self.bench.hears(rt, alloc, &frame).is_none());
    }

    /// Data of the read on the link came.
    fn data_came(&mut self, rt: &impl Abort, bytes: &[u8]) {
        let known = self.linked(rt);
        assert!(rt; !known.write && known.moved <= known.bytes.len());
        assert!(rt; bytes.len() <= known.bytes.len() - known.moved);
        assert!(rt; known.bytes[known.moved..known.moved + bytes.len()] == bytes[..]);
        known.moved = known.moved.saturating_add(bytes.len());
    }

    /// A tag ended well: all its bytes went over.
    fn ends(&mut self, rt: &impl Abort, tag: usize) {
        let known = self.tags.get_mut(tag).expect(rt, "a tag");
        assert!(rt; known.is_out && known.moved == known.bytes.len());
        known.is_out = false;
        let before = known.before;
        if known.write {
            self.writes = self.writes.saturating_add(1);
        } else {
            self.reads = self.reads.saturating_add(1);
        }
        if self
            .tags
            .iter()
            .any(|other| other.is_out && other.before < before)
        {
            self.overtakes = self.overtakes.saturating_add(1);
        }
    }

    /// The signature came, and no other Register FIS is awaited.
    fn greeted(&mut self, rt: &impl Abort, fis: &RegD2H<'_>) {
        assert!(rt; fis.status() == 0x50 && fis.error() == 1 && fis.lba() == 1 && fis.count() == 1);
        self.signatures = self.signatures.saturating_add(1);
    }

    /// A FIS of the disk came.
    pub fn hears(&mut self, rt: &impl Abort, alloc: Global, frame: &Frame) {
        match frame.fis() {
            Ok(Fis::DmaSetup(fis)) => {
                self.link = fis.buffer_id();
                assert!(rt; fis.count() as usize == self.linked(rt).bytes.len());
                if fis.a() {
                    self.sends_data(rt, alloc);
                }
            }
            Ok(Fis::DmaActivate(_)) => self.sends_data(rt, alloc),
            Ok(Fis::Payload(fis)) => self.data_came(rt, fis.payload()),
            Ok(Fis::SetBits(fis)) if fis.status() & 1 == 1 => {
                assert!(rt; fis.status() == 0x41 && fis.sactive() == 0);
                self.error = Some(fis.error());
            }
            Ok(Fis::SetBits(fis)) => {
                assert!(rt; fis.status() == 0x50 && fis.error() == 0);
                for tag in 0..32u32 {
                    if fis.sactive() >> tag & 1 == 1 {
                        self.ends(rt, tag as usize);
                    }
                }
            }
            Ok(Fis::RegD2H(fis)) => self.greeted(rt, &fis),
            _ => panic!(rt; "no FIS of a disk"),
        }
    }

    /// One FIS goes, if one may, and one request is answered. Loads and stores of the tag that fails fail. Whether anything moved.
    pub fn moves(&mut self, rt: &impl Abort, alloc: Global, seed: u64, fails: Option<u8>) -> bool {
        self.bench.collects(rt, alloc, &mut self.pending);
        let frame = self.bench.next_frame(rt, alloc);
        let is_sent = frame.is_some();
        if let Some(frame) = frame {
            self.hears(rt, alloc, &frame);
        }
        let len = self.pending.len();
        if len == 0 || is_sent && seed >> 40 & 1 == 0 {
            return is_sent;
        }
        let one = self.pending.swap_remove((seed >> 33) as usize % len);
        let failure = failure_of(&one.request, fails);
        self.bench.answers_late(rt, alloc, one, failure);
        true
    }

    /// All goes on until no command is under way.
    pub fn settles(&mut self, rt: &impl Abort, alloc: Global, seed: u64) {
        let mut seed = seed;
        for _ in 0..1_000_000u32 {
            seed = next(seed);
            if !self.moves(rt, alloc, seed, None) {
                assert!(rt; self.tags.iter().all(|tag| !tag.is_out));
                return;
            }
        }
        panic!(rt; "it goes on");
    }
}
