//! A disk with native command queuing (Serial ATA 3.x, first party DMA; ACS-3).

ghost use Rattle.std.specs.Prelude.{◌≡◌, ◌+◌, ◌*◌, ◌<◌, ◌≤◌, ◌==◌, [], ◌∷◌, All, IfOk, IsErrOf, IsTrue, MatchOption, OnOk, filter, length, map, not, replicate, vec_capacity, ◌↔◌, ◌≢◌, IfErr, OnErr};
ghost use Rattle.std.specs.List.{list_any};
ghost use Rattle.disk_model.specs.Chunks.{put, sectors_at};
ghost use Rattle.disk_model.specs.Disks.{new_with, opening, opening_medium, with_now, without};
ghost use Rattle.disk_model.specs.Histories.{DiskOf, Loaded};
ghost use Rattle.disk_model.specs.Requests.{IsCounted};
ghost use Rattle.disk_model.specs.Runs.{DiskStandsFor, IsLoaded, are_sectors, disk_plan, is_size, most_sectors};

mod quiet;
mod receive;
mod send;

use crate::answer::{Answer, Fault};
use crate::device::Device;
use crate::plan::{DiskPlan, Profile};
use crate::request::{Command, Request};
use fis_view::{Fis, Frame, Stamp};
pub use quiet::Due;
use std::alloc::{AllocError, Global};
use std::collections::VecDeque;
use std::marker::Model;
use thiserror::Error;

/// A read that was started.
#[derive(Clone, Copy, Debug)]
pub struct Reading {
    command: Command,
    /// How many chunks have not been sent completely.
    left: u32,
    /// Whether the DMA Setup of the first of them was sent.
    set_up: bool,
}

/// A write that was started.
#[derive(Clone, Copy, Debug)]
pub struct Waiting {
    command: Command,
    /// How many chunks have not come.
    left: u32,
    /// How many of the FISes that ask for the first of them were sent.
    gone: u8,
}

#[derive(Clone, Copy, Debug)]
enum Transfer {
    Idle,
    Read(Reading),
    Write(Waiting),
}

/// A disk with its sectors in memory: those of its maker, or else byte i of sector L is (L + i) mod 256 at first. The
/// disk queues reads and writes by tag, moves the data of each in chunks, and answers IDENTIFY DEVICE, FLUSH CACHE EXT and READ
/// LOG EXT of the NCQ Command Error log. A command that cannot be done ends all queued commands. From then on
/// the disk hears only the read of that log and resets.
#[derive(Drop)]
pub struct Disk {
    plan: DiskPlan,
    sectors: u32,
    medium: Vec<u8>,
    queue: Vec<Command>,
    fault: Option<Fault>,
    /// Whether SRST was set and has not been cleared since.
    resetting: bool,
    answers: VecDeque<Answer>,
    transfer: Transfer,
    /// The bytes of a write that have come so far.
    staged: Vec<u8>,
}

impl Model for Disk {
    ghost use Rattle.disk_model.specs.Disks.{DiskValue};

    ghost Value = { DiskValue };

    ghost use Rattle.disk_model.specs.Insides.{seen_as, IsDisk};

    ghost view = { seen_as };

    ghost invariant = { IsDisk };
}

/// Why a disk cannot be made.
#[derive(Clone, Copy, Debug, PartialEq, Eq, Error)]
pub enum DiskError {
    /// The number of sectors is not whole, or not from 1 to the most for the disk's profile; or the chunk is not a
    /// multiple of 512 from 512 to 8,192.
    #[error("bad size")]
    BadSize = 1,
    /// The allocator refused memory for the sectors.
    #[error("out of memory")]
    OutOfMemory = 2,
}

impl From<AllocError> for DiskError {
    ghost use Rattle.std.specs.Prelude.{◌≡◌};
    ghost use Rattle.disk_model.specs.declared.disk.DiskError.TheVariants.{OutOfMemory};

    ghost from_gives = { λ _ e. e ≡ OutOfMemory };

    fn from(_: AllocError) -> Self {
        DiskError::OutOfMemory
    }
}

/// The most sectors that a disk of this profile can have.
fn most_sectors(profile: Profile) -> u32
    ensures { result ≡ most_sectors profile }
{
    match profile {
        Profile::Bare => 65_536,
        Profile::Stock(_) => 268_435_455,
    }
}

/// Whether a disk of this plan can have this many sectors.
fn can_be(sectors: u32, plan: &DiskPlan) -> bool
    ensures { result ≡ is_size plan.now.profile sectors plan.now.chunk }
{
    let (chunk, most) = (plan.chunk, most_sectors(plan.profile));
    1 <= sectors && sectors <= most && 512 <= chunk && chunk <= 8192 && chunk % 512 == 0
}

/// The sectors of a new disk.
fn new_medium(alloc: Global, sectors: u32) -> Result<Vec<u8>, AllocError>
    ensures items { IfOk result (λ v. v.items ≡ opening_medium sectors) }
    ensures len { IfOk result (λ v. length v.items ≡ 512 * sectors) }
{
    let len = 512 * sectors as usize;
    let mut medium = Vec::with_capacity(alloc, len)?;
    for at in 0..len {
        medium.push(((at / 512 + at % 512) % 256) as u8)?;
    }
    Ok(medium)
}

fn put_at(bytes: &mut Vec<u8>, at: usize, part: &[u8])
    requires { at + length part.now ≤ length bytes.old.items }
    ensures { bytes.new.items ≡ put bytes.old.items at part.now }
{
    bytes[at..at + part.len()].copy_from_slice(part);
}

fn remove_tag(queue: &mut Vec<Command>, tag: u8)
    ensures items { queue.new.items ≡ filter (λ q. not (q.tag == tag)) queue.old.items }
    ensures counts { All (λ c. IsCounted c) queue.old.items → All (λ c. IsCounted c) queue.new.items }
    ensures capacity { vec_capacity queue.new ≡ vec_capacity queue.old }
{
    queue.retain(|queued| queued.tag != tag);
}

fn is_queued(queue: &[Command], tag: u8) -> bool
    ensures { result ≡ list_any (λ q. q.tag == tag) queue.now }
{
    queue.iter().any(|queued| queued.tag == tag)
}

impl Disk {
    /// A disk with this many sectors of 512 bytes: 1 to 65,536, with the stock profile to 268,435,455. The sizes
    /// are tested before memory is asked for.
    pub fn new(alloc: Global, sectors: u32, plan: DiskPlan) -> Result<Disk, DiskError>
        ensures ok { IfOk result (λ d.
            d ≡ record { plan = plan; sectors = sectors; now = opening sectors }) }
        ensures plan { IfOk result (λ d. disk_plan d ≡ DiskOf plan sectors) }
        ensures opening { IfOk result (λ d. DiskStandsFor d []) }
        ensures size { OnOk result (IsTrue (is_size plan.profile sectors plan.chunk)) }
        ensures bad_size { IsErrOf result DiskError.BadSize ↔ ¬ IsTrue (is_size plan.profile sectors plan.chunk) }
    {
        if !can_be(sectors, &plan) {
            return Err(DiskError::BadSize);
        }
        let medium = new_medium(alloc, sectors)?;
        Ok(Disk::made(alloc, sectors, medium, plan)?)
    }

    /// A new disk with these sectors, of 512 bytes each, which are not copied. `BadSize` if they are not whole sectors, or
    /// not as many as a disk can have.
    pub fn with_sectors(alloc: Global, medium: Vec<u8>, plan: DiskPlan) -> Result<Disk, DiskError>
        ensures ok { IfOk result (λ d. IsLoaded plan medium.items d) }
        ensures loaded { IfOk result (λ d. DiskStandsFor d (Loaded medium.items ∷ [])) }
        ensures size { OnOk result (IsTrue (are_sectors plan (length medium.items))) }
        ensures bad_size { IsErrOf result DiskError.BadSize ↔ ¬ IsTrue (are_sectors plan (length medium.items)) }
    {
        let count = medium.len() / 512;
        if medium.len() % 512 != 0 || count > u32::MAX as usize || !can_be(count as u32, &plan) {
            return Err(DiskError::BadSize);
        }
        Ok(Disk::made(alloc, count as u32, medium, plan)?)
    }

    /// It is a new disk with its plan and with these sectors, which are not copied. `BadSize` if they are not as many as it
    /// has; then it is as it was. That takes no memory.
    pub fn renew(&mut self, medium: Vec<u8>) -> Result<(), DiskError>
        ensures ok { OnOk result (self.new ≡ with_now self.old (new_with medium.items)) }
        ensures loaded { OnOk result (DiskStandsFor self.new (Loaded medium.items ∷ [])) }
        ensures long { OnOk result (length medium.items ≡ 512 * self.old.sectors) }
        ensures bad_size { IfErr result (λ e. (e ≡ DiskError.BadSize) × (length medium.items ≢ 512 * self.old.sectors)) }
        ensures err { OnErr result (self.new ≡ self.old) }
    {
        if medium.len() != self.medium.len() {
            return Err(DiskError::BadSize);
        }
        self.clear();
        self.resetting = false;
        self.medium = medium;
        Ok(())
    }

    /// A new disk of a size that it can have.
    fn made(
        alloc: Global,
        sectors: u32,
        medium: Vec<u8>,
        plan: DiskPlan,
    ) -> Result<Disk, AllocError>
        requires long { length medium.items ≡ 512 * sectors }
        requires size { IsTrue (is_size plan.profile sectors plan.chunk) }
        ensures { IfOk result (λ d. d ≡ record { plan = plan; sectors = sectors; now = new_with medium.items }) }
    {
        let queue = Vec::with_capacity(alloc, 32)?;
        let answers = VecDeque::with_capacity(alloc, 64)?;
        Ok(Disk {
            plan,
            sectors,
            medium,
            queue,
            fault: None,
            resetting: false,
            answers,
            transfer: Transfer::Idle,
            staged: Vec::new(alloc),
        })
    }

    /// The 512 bytes of a sector on the medium, None behind the end.
    pub fn sector(&self, lba: u32) -> Option<&[u8]>
        ensures { MatchOption result (self.now.sectors ≤ lba) (λ bytes.
            (lba < self.now.sectors) × (bytes.now ≡ sectors_at self.now.now.medium lba 1)
            × (length bytes.now ≡ 512)) }
    {
        if self.sectors <= lba {
            return None;
        }
        let start = lba as usize * 512;
        Some(&self.medium[start..start + 512])
    }
}

impl Device for Disk {
    ghost use Rattle.disk_model.specs.Disks.{after};
    ghost use Rattle.disk_model.specs.Histories.{GoesOn, IsSilent, Plugged, Received, SendsNext};
    ghost use Rattle.disk_model.specs.Insides.{Gives, HasTurn, WantsRoom};
    ghost use Rattle.disk_model.specs.Runs.{DiskMaySend, DiskStandsFor, disk_plan};
    ghost use Rattle.std.specs.Prelude.{IfNone, IfSome, IsOk, OnErr};

    ghost plan_of = { disk_plan };

    ghost stands_for = { DiskStandsFor };

    ghost may_send = { DiskMaySend };

    fn on_frame(&mut self, _alloc: Global, frame: &Frame) -> Result<(), AllocError>
        ensures ok { OnOk result (
            GoesOn disk_plan DiskStandsFor self.old (Received frame.now.bytes) self.new) }
        ensures err { OnErr result (self.new ≡ self.old) }
        // it takes memory only for an answer, and only while 63 answers wait or 32 commands are queued
        ensures no_memory { OnErr result (
            WantsRoom self.old.now
            (after self.old.plan self.old.sectors self.old.now (Received frame.now.bytes))) }
    {
        let Ok(fis) = frame.fis() else {
            return Ok(());
        };
        match fis {
            Fis::RegH2D(fis) => self.receive(Request::of(&fis)),
            Fis::Payload(fis) => self.store(fis.payload()),
            _ => Ok(()),
        }
    }

    fn next_out(&mut self, alloc: Global, stamp: Stamp) -> Result<Option<Frame>, AllocError>
        ensures sent { IfOk result (λ out. IfSome out (λ frame.
            SendsNext disk_plan DiskStandsFor DiskMaySend self.old frame.bytes self.new)) }
        ensures stamp { IfOk result (λ out. IfSome out (λ frame. frame.stamp ≡ stamp)) }
        ensures silent { IfOk result (λ out. IfNone out (
            IsSilent disk_plan DiskStandsFor DiskMaySend self.old)) }
        ensures same { IfOk result (λ out. IfNone out (self.new ≡ self.old)) }
        ensures err { OnErr result (self.new ≡ self.old) }
        ensures gives { IfOk result (λ out. Gives self.old out self.new) }
        // it takes memory for a frame to send, and for nothing else
        ensures no_memory { OnErr result (HasTurn self.old) }
    {
        self.give_answer(alloc, stamp)
    }

    fn plugged(&mut self, _alloc: Global) -> Result<(), AllocError>
        ensures ok { OnOk result (GoesOn disk_plan DiskStandsFor self.old Plugged self.new) }
        ensures err { OnErr result (self.new ≡ self.old) }
        // it takes no memory
        ensures done { IsOk result }
    {
        self.plug();
        Ok(())
    }
}
