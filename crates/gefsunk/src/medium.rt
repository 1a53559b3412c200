//! What C answers for the media of disks, and what it reads of their requests: of a disk of a machine, and of one by itself.

ghost use Rattle.std.specs.Prelude.{◌≡◌, ◌≢◌, ◌≤◌, drop, length, take};
ghost use Rattle.block_engine.specs.declared.request.Answer.TheVariants.{Done as WasDone};
ghost use Rattle.gefsunk.specs.Machines.{AnswerRule, DiscardedRule, FailRule, LoadedRule, StoredRule, refusal_of};
ghost use Rattle.gefsunk.specs.Media.{RangeRule, error_of, misfit_of, piece, range_shown};

use crate::event::MediumRequest;
use crate::status::Status;
use ahci_machine::{Machine, MediumError};
use block_command::AnswerError;
use block_engine::{Answer, ErrorKind, Failure, Range};
use std::alloc::Global;

/// Sectors to discard, as C sees them.
#[repr(C)]
#[derive(Clone, Copy, Debug, PartialEq, Eq)]
pub struct SectorRange {
    /// The first.
    pub lba: u64,
    /// How many.
    pub count: u64,
}

/// Why an answer does not fit its request.
pub fn misfit(error: AnswerError) -> Status
    ensures { result ≡ misfit_of error }
{
    match error {
        AnswerError::NotOut => Status::NotOut,
        AnswerError::OtherKind => Status::OtherKind,
        AnswerError::OtherLength => Status::OtherLength,
        AnswerError::OtherSector => Status::OtherSector,
    }
}

fn refused(error: MediumError) -> Status
    ensures { result ≡ refusal_of error }
{
    match error {
        MediumError::OtherDisk => Status::OtherDisk,
        MediumError::Answer(error) => misfit(error),
    }
}

/// How a request can fail, by the bits of the Error register.
pub fn error_kind(bits: u32) -> Option<ErrorKind>
    ensures { result ≡ error_of bits }
{
    match bits {
        0x40 => Some(ErrorKind::Uncorrectable),
        0x10 => Some(ErrorKind::NotFound),
        0x04 => Some(ErrorKind::Aborted),
        _ => None,
    }
}

#[tactic(auto, unfolding(crate::specs::Machines::AnswerRule))]
fn answer(machine: &mut Machine, request: &MediumRequest, answer: Answer) -> Status
    ensures { AnswerRule machine.old request.now answer result machine.new }
{
    let Some(id) = request.id() else {
        return Status::OtherDisk;
    };
    match machine.answer(id, answer) {
        Ok(()) => Status::Done,
        Err(error) => refused(error),
    }
}

/// The sectors of a load.
pub fn loaded(machine: &mut Machine, alloc: Global, request: &MediumRequest, bytes: &[u8]) -> Status
    ensures { LoadedRule machine.old request.now bytes.now result machine.new }
{
    match Vec::from_slice(alloc, bytes) {
        Ok(bytes) => answer(machine, request, Answer::Loaded(bytes)),
        Err(_) => Status::NoMemory,
    }
}

/// A store, a flush or a discard was done.
pub fn done(machine: &mut Machine, request: &MediumRequest) -> Status
    ensures { AnswerRule machine.old request.now WasDone result machine.new }
{
    answer(machine, request, Answer::Done)
}

/// A request could not be done.
#[tactic(auto, unfolding(crate::specs::Machines::FailRule))]
pub fn failed(machine: &mut Machine, request: &MediumRequest, error: u32, lba: u64) -> Status
    ensures { FailRule machine.old request.now error lba result machine.new }
{
    let Some(error) = error_kind(error) else {
        return Status::BadError;
    };
    answer(machine, request, Answer::Failed(Failure { error, lba }))
}

/// Copies bytes from an offset on into the room, as many as there are and fit, and says how many.
pub fn copied(bytes: &[u8], from: usize, room: &mut [u8]) -> usize
    ensures is { take result room.new ≡ piece bytes.now from (length room.old) }
    ensures within { result ≤ length room.old }
    ensures rest { drop result room.new ≡ drop result room.old }
{
    if from >= bytes.len() {
        return 0;
    }
    let rest = &bytes[from..];
    let len = if rest.len() < room.len() {
        rest.len()
    } else {
        room.len()
    };
    room[..len].copy_from_slice(&rest[..len]);
    len
}

/// The bytes of a store.
pub fn stored(
    machine: &Machine,
    request: &MediumRequest,
    from: usize,
    room: &mut [u8],
    len: &mut usize,
) -> Status
    ensures rule { StoredRule machine.now request.now from (length room.old) result (take len.new room.new) }
    ensures within { result ≡ Status.Done → len.new ≤ length room.old }
    ensures kept { result ≢ Status.Done → (room.new ≡ room.old) × (len.new ≡ len.old) }
    ensures rest { drop len.new room.new ≡ drop len.new room.old }
{
    let Some(id) = request.id() else {
        return Status::OtherDisk;
    };
    let Some(place) = request.place() else {
        return Status::OtherKind;
    };
    match machine.stored(id, place) {
        Some(bytes) => {
            *len = copied(bytes, from, room);
            Status::Done
        }
        None => Status::NotOut,
    }
}

fn shown(range: Range) -> SectorRange
    ensures { result ≡ range_shown range }
{
    SectorRange {
        lba: range.lba,
        count: u64::from(range.count),
    }
}

/// The range that has this number.
pub fn range_at(ranges: &[Range], number: usize, range: &mut SectorRange) -> Status
    ensures rule { RangeRule ranges.now number result range.new }
    ensures kept { result ≢ Status.Done → range.new ≡ range.old }
{
    match ranges.get(number) {
        Some(found) => {
            *range = shown(*found);
            Status::Done
        }
        None => Status::Nothing,
    }
}

/// The range of a discard of a machine's disk that has this number.
pub fn discarded(
    machine: &Machine,
    request: &MediumRequest,
    number: usize,
    range: &mut SectorRange,
) -> Status
    ensures rule { DiscardedRule machine.now request.now number result range.new }
    ensures kept { result ≢ Status.Done → range.new ≡ range.old }
{
    let Some(id) = request.id() else {
        return Status::OtherDisk;
    };
    match machine.discarded(id) {
        Some(ranges) => range_at(ranges, number, range),
        None => Status::NotOut,
    }
}
