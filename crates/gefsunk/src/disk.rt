//! The exports of a disk by itself, whose sectors lie with the caller. `include/gefsunk.h` says what each call does.

ghost use Rattle.std.specs.Prelude.{◌≡◌, ◌≢◌, ◌≤◌, OnErr, OnOk, drop, length, take, true};
ghost use Rattle.block_engine.specs.declared.request.Answer.TheVariants.{Done as WasDone};
ghost use Rattle.gefsunk.specs.Disks.{DiskAnswer, DiskDiscarded, DiskFailed, DiskFromHost, DiskLoaded, DiskNext, DiskPlug, DiskStored, DiskToHost, Starts, StartsAll};
ghost use Rattle.gefsunk.specs.Exports.{AtDisk, FreedDisk, MadeDisk};
ghost use Rattle.gefsunk.specs.Statuses.{is_code, status_of};
ghost use Rattle.gefsunk.specs.declared.status.Status.TheVariants as status;

use crate::event::{Event, MediumRequest};
use crate::handle::Handle;
use crate::kept::Kept;
use crate::medium::{SectorRange, copied as copied_from, error_kind, misfit, range_at};
use crate::pm::{copied, refused, stamp};
use crate::profile::{DiskNumbers, DiskTexts, new_disk};
use crate::status::Status;
use block_engine::{Answer, Failure};
use fis_view::Frame;
use sata_disk::SataDisk;
use std::alloc::{AllocError, Global};

/// How many commands a disk can have: one for each tag, and one that is not queued. So no more can start.
const PLACES: u32 = 33;

fn plug(disk: &mut SataDisk, alloc: Global) -> Status
    ensures { DiskPlug disk.old result disk.new }
{
    disk.plugged(alloc);
    Status::Done
}

fn from_host(disk: &mut SataDisk, alloc: Global, fis: &[u8]) -> Status
    ensures { DiskFromHost disk.old fis.now result disk.new }
{
    let frame = match Frame::from_bytes(alloc, fis, stamp(0, 0)) {
        Ok(frame) => frame,
        Err(error) => return refused(error),
    };
    match disk.on_frame(alloc, &frame) {
        Ok(None) => Status::Done,
        Ok(Some(_)) => Status::Dropped,
        Err(_) => Status::NoMemory,
    }
}

fn to_host(disk: &mut SataDisk, alloc: Global, room: &mut [u8], len: &mut usize) -> Status
    ensures rule { DiskToHost disk.old (length room.old) result (take len.new room.new) disk.new }
    ensures within { result ≡ Status.Done → len.new ≤ length room.old }
    ensures kept { result ≢ Status.Done → (room.new ≡ room.old) × (len.new ≡ len.old) }
    ensures rest { drop len.new room.new ≡ drop len.new room.old }
{
    if room.len() < Frame::LONGEST {
        return Status::TooShort;
    }
    let Some(out) = disk.next_out() else {
        return Status::Nothing;
    };
    let Ok(frame) = disk.frame(alloc, out, stamp(0, 0)) else {
        return Status::NoMemory;
    };
    disk.sent(out);
    *len = copied(&frame, room);
    Status::Done
}

/// All that may start do.
#[tactic(auto, using(crate::proofs::StartLemmas::all_started, crate::proofs::StartLemmas::none_left, crate::proofs::StartLemmas::some_started))]
fn start_all(disk: &mut SataDisk) -> Result<(), AllocError>
    ensures ok { OnOk result (StartsAll disk.old disk.new) }
    ensures err { OnErr result (Starts disk.old disk.new) }
{
    for _ in 0..PLACES {
        if disk.start_next()?.is_none() {
            return Ok(());
        }
    }
    Ok(())
}

fn next(disk: &mut SataDisk, event: &mut Event) -> Status
    ensures rule { DiskNext disk.old result event.new disk.new }
    ensures kept { result ≢ Status.Done → event.new ≡ event.old }
{
    if start_all(disk).is_err() {
        return Status::NoMemory;
    }
    *event = Event::asked(disk.next_request());
    Status::Done
}

#[tactic(auto, unfolding(crate::specs::Disks::DiskAnswer))]
fn answer(disk: &mut SataDisk, request: &MediumRequest, answer: Answer) -> Status
    ensures { DiskAnswer disk.old request.now answer result disk.new }
{
    if !request.is_own() {
        return Status::NotOut;
    }
    match disk.answer(request.number, answer) {
        Ok(()) => Status::Done,
        Err(error) => misfit(error),
    }
}

fn loaded(disk: &mut SataDisk, alloc: Global, request: &MediumRequest, bytes: &[u8]) -> Status
    ensures { DiskLoaded disk.old request.now bytes.now result disk.new }
{
    match Vec::from_slice(alloc, bytes) {
        Ok(bytes) => answer(disk, request, Answer::Loaded(bytes)),
        Err(_) => Status::NoMemory,
    }
}

#[tactic(auto, unfolding(crate::specs::Disks::DiskFailed))]
fn failed(disk: &mut SataDisk, request: &MediumRequest, error: u32, lba: u64) -> Status
    ensures { DiskFailed disk.old request.now error lba result disk.new }
{
    let Some(error) = error_kind(error) else {
        return Status::BadError;
    };
    answer(disk, request, Answer::Failed(Failure { error, lba }))
}

fn stored(
    disk: &SataDisk,
    request: &MediumRequest,
    from: usize,
    room: &mut [u8],
    len: &mut usize,
) -> Status
    ensures rule { DiskStored disk.now request.now from (length room.old) result (take len.new room.new) }
    ensures within { result ≡ Status.Done → len.new ≤ length room.old }
    ensures kept { result ≢ Status.Done → (room.new ≡ room.old) × (len.new ≡ len.old) }
    ensures rest { drop len.new room.new ≡ drop len.new room.old }
{
    if !request.is_own() {
        return Status::NotOut;
    }
    let Some(place) = request.place() else {
        return Status::OtherKind;
    };
    match disk.stored(place, request.number) {
        Some(bytes) => {
            *len = copied_from(bytes, from, room);
            Status::Done
        }
        None => Status::NotOut,
    }
}

fn discarded(
    disk: &SataDisk,
    request: &MediumRequest,
    number: usize,
    range: &mut SectorRange,
) -> Status
    ensures rule { DiskDiscarded disk.now request.now number result range.new }
    ensures kept { result ≢ Status.Done → range.new ≡ range.old }
{
    if !request.is_own() {
        return Status::NotOut;
    }
    match disk.discarded(request.number) {
        Some(ranges) => range_at(ranges, number, range),
        None => Status::NotOut,
    }
}

/// Makes a disk, and opens the handle.
#[unsafe(no_mangle)]
pub extern "C" fn gefsunk_disk_new(
    handle: &mut Handle,
    alloc: Global,
    numbers: &DiskNumbers,
    model: &[u8],
    serial: &[u8],
    firmware: &[u8],
) -> u32
    ensures made { MadeDisk handle.old.held.value numbers.now model.now serial.now firmware.now
        (status_of result) handle.new.held.value }
    ensures known { is_code result ≡ true }
{
    if let Some(kept) = handle.take(alloc) {
        *handle = Handle::open(kept);
        return Status::Open.code();
    }
    let texts = DiskTexts {
        model,
        serial,
        firmware,
    };
    let disk = match new_disk(alloc, numbers, &texts) {
        Ok(disk) => disk,
        Err(status) => return status.code(),
    };
    match Box::new(alloc, Kept::Disk(disk)) {
        Ok(kept) => {
            *handle = Handle::open(kept);
            Status::Done.code()
        }
        Err(_) => Status::NoMemory.code(),
    }
}

/// Frees the disk, and closes the handle.
#[unsafe(no_mangle)]
pub extern "C" fn gefsunk_disk_free(handle: &mut Handle, alloc: Global) -> u32
    ensures freed { FreedDisk handle.old.held.value (status_of result) handle.new.held.value }
    ensures known { is_code result ≡ true }
{
    let Some(kept) = handle.take(alloc) else {
        return Status::Closed.code();
    };
    match &*kept {
        Kept::Disk(_) => Status::Done.code(),
        Kept::Pm(_) | Kept::Machine(_) => {
            *handle = Handle::open(kept);
            Status::Closed.code()
        }
    }
}

/// The disk is plugged in.
#[unsafe(no_mangle)]
pub extern "C" fn gefsunk_disk_plug(handle: &mut Handle, alloc: Global) -> u32
    ensures rule { AtDisk handle.old.held.value (status_of result) handle.new.held.value
        (λ old new. DiskPlug old (status_of result) new) }
    ensures known { is_code result ≡ true }
{
    let Some(mut kept) = handle.take(alloc) else {
        return Status::Closed.code();
    };
    let status = match &mut *kept {
        Kept::Disk(disk) => plug(disk, alloc),
        Kept::Pm(_) | Kept::Machine(_) => Status::Closed,
    };
    *handle = Handle::open(kept);
    status.code()
}

/// The disk takes a FIS from the host.
#[unsafe(no_mangle)]
pub extern "C" fn gefsunk_disk_from_host(handle: &mut Handle, alloc: Global, fis: &[u8]) -> u32
    ensures rule { AtDisk handle.old.held.value (status_of result) handle.new.held.value
        (λ old new. DiskFromHost old fis.now (status_of result) new) }
    ensures known { is_code result ≡ true }
{
    let Some(mut kept) = handle.take(alloc) else {
        return Status::Closed.code();
    };
    let status = match &mut *kept {
        Kept::Disk(disk) => from_host(disk, alloc, fis),
        Kept::Pm(_) | Kept::Machine(_) => Status::Closed,
    };
    *handle = Handle::open(kept);
    status.code()
}

/// Gives the next FIS of the disk for the host.
#[unsafe(no_mangle)]
pub extern "C" fn gefsunk_disk_to_host(
    handle: &mut Handle,
    alloc: Global,
    room: &mut [u8],
    len: &mut usize,
) -> u32
    ensures rule { AtDisk handle.old.held.value (status_of result) handle.new.held.value
        (λ old new. DiskToHost old (length room.old) (status_of result) (take len.new room.new) new) }
    ensures known { is_code result ≡ true }
    ensures kept { status_of result ≢ status.Done → (room.new ≡ room.old) × (len.new ≡ len.old) }
    ensures within { status_of result ≡ status.Done → len.new ≤ length room.old }
    ensures rest { drop len.new room.new ≡ drop len.new room.old }
{
    let Some(mut kept) = handle.take(alloc) else {
        return Status::Closed.code();
    };
    let status = match &mut *kept {
        Kept::Disk(disk) => to_host(disk, alloc, room, len),
        Kept::Pm(_) | Kept::Machine(_) => Status::Closed,
    };
    *handle = Handle::open(kept);
    status.code()
}

/// Says what is to be done to the medium next.
#[unsafe(no_mangle)]
pub extern "C" fn gefsunk_disk_next(handle: &mut Handle, alloc: Global, event: &mut Event) -> u32
    ensures rule { AtDisk handle.old.held.value (status_of result) handle.new.held.value
        (λ old new. DiskNext old (status_of result) event.new new) }
    ensures known { is_code result ≡ true }
    ensures kept { status_of result ≢ status.Done → event.new ≡ event.old }
{
    let Some(mut kept) = handle.take(alloc) else {
        return Status::Closed.code();
    };
    let status = match &mut *kept {
        Kept::Disk(disk) => next(disk, event),
        Kept::Pm(_) | Kept::Machine(_) => Status::Closed,
    };
    *handle = Handle::open(kept);
    status.code()
}

/// The sectors of a load.
#[unsafe(no_mangle)]
pub extern "C" fn gefsunk_disk_answer_loaded(
    handle: &mut Handle,
    alloc: Global,
    request: &MediumRequest,
    bytes: &[u8],
) -> u32
    ensures rule { AtDisk handle.old.held.value (status_of result) handle.new.held.value
        (λ old new. DiskLoaded old request.now bytes.now (status_of result) new) }
    ensures known { is_code result ≡ true }
{
    let Some(mut kept) = handle.take(alloc) else {
        return Status::Closed.code();
    };
    let status = match &mut *kept {
        Kept::Disk(disk) => loaded(disk, alloc, request, bytes),
        Kept::Pm(_) | Kept::Machine(_) => Status::Closed,
    };
    *handle = Handle::open(kept);
    status.code()
}

/// A store, a flush or a discard was done.
#[unsafe(no_mangle)]
pub extern "C" fn gefsunk_disk_answer_done(
    handle: &mut Handle,
    alloc: Global,
    request: &MediumRequest,
) -> u32
    ensures rule { AtDisk handle.old.held.value (status_of result) handle.new.held.value
        (λ old new. DiskAnswer old request.now WasDone (status_of result) new) }
    ensures known { is_code result ≡ true }
{
    let Some(mut kept) = handle.take(alloc) else {
        return Status::Closed.code();
    };
    let status = match &mut *kept {
        Kept::Disk(disk) => answer(disk, request, Answer::Done),
        Kept::Pm(_) | Kept::Machine(_) => Status::Closed,
    };
    *handle = Handle::open(kept);
    status.code()
}

/// A request could not be done.
#[unsafe(no_mangle)]
pub extern "C" fn gefsunk_disk_answer_failed(
    handle: &mut Handle,
    alloc: Global,
    request: &MediumRequest,
    error: u32,
    lba: u64,
) -> u32
    ensures rule { AtDisk handle.old.held.value (status_of result) handle.new.held.value
        (λ old new. DiskFailed old request.now error lba (status_of result) new) }
    ensures known { is_code result ≡ true }
{
    let Some(mut kept) = handle.take(alloc) else {
        return Status::Closed.code();
    };
    let status = match &mut *kept {
        Kept::Disk(disk) => failed(disk, request, error, lba),
        Kept::Pm(_) | Kept::Machine(_) => Status::Closed,
    };
    *handle = Handle::open(kept);
    status.code()
}

/// Gives bytes of a store.
#[unsafe(no_mangle)]
pub extern "C" fn gefsunk_disk_stored(
    handle: &mut Handle,
    alloc: Global,
    request: &MediumRequest,
    from: usize,
    room: &mut [u8],
    len: &mut usize,
) -> u32
    ensures rule { AtDisk handle.old.held.value (status_of result) handle.new.held.value
        (λ old new. DiskStored old request.now from (length room.old) (status_of result) (take len.new room.new) × (new ≡ old)) }
    ensures known { is_code result ≡ true }
    ensures kept { status_of result ≢ status.Done → (room.new ≡ room.old) × (len.new ≡ len.old) }
    ensures within { status_of result ≡ status.Done → len.new ≤ length room.old }
    ensures rest { drop len.new room.new ≡ drop len.new room.old }
{
    let Some(kept) = handle.take(alloc) else {
        return Status::Closed.code();
    };
    let status = match &*kept {
        Kept::Disk(disk) => stored(disk, request, from, room, len),
        Kept::Pm(_) | Kept::Machine(_) => Status::Closed,
    };
    *handle = Handle::open(kept);
    status.code()
}

/// Gives a range of a discard.
#[unsafe(no_mangle)]
pub extern "C" fn gefsunk_disk_discarded(
    handle: &mut Handle,
    alloc: Global,
    request: &MediumRequest,
    number: usize,
    range: &mut SectorRange,
) -> u32
    ensures rule { AtDisk handle.old.held.value (status_of result) handle.new.held.value
        (λ old new. DiskDiscarded old request.now number (status_of result) range.new × (new ≡ old)) }
    ensures known { is_code result ≡ true }
    ensures kept { status_of result ≢ status.Done → range.new ≡ range.old }
{
    let Some(kept) = handle.take(alloc) else {
        return Status::Closed.code();
    };
    let status = match &*kept {
        Kept::Disk(disk) => discarded(disk, request, number, range),
        Kept::Pm(_) | Kept::Machine(_) => Status::Closed,
    };
    *handle = Handle::open(kept);
    status.code()
}
