//! The chunks in which a disk moves the data of a command, and what keeps it from moving them.

ghost use Rattle.std.specs.Prelude.{◌≡◌, ◌+◌, ◌-◌, ◌*◌, ◌/◌, ◌<◌, ◌≤◌, fold, length, None};
ghost use Rattle.disk_model.specs.Chunks.{activations, chunk_count, chunk_from, chunks, fault_of};
ghost use Rattle.disk_model.specs.Insides.{lower_bad};

use crate::answer::Fault;
use crate::plan::DiskPlan;
use crate::request::Command;

/// The ID Not Found bit of the Error register.
const IDNF: u8 = 0x10;

/// The Uncorrectable Error bit of the Error register.
const UNC: u8 = 0x40;

/// The lower of the bad sector found so far and this one, if this one is a sector of the command.
fn lower(command: Command, found: Option<u32>, bad: u32) -> Option<u32>
    ensures { result ≡ lower_bad command found bad }
{
    let at = bad as u64;
    if command.lba <= at && at - command.lba < command.count as u64 {
        match found {
            Some(lowest) => Some(lowest.min(bad)),
            None => Some(bad),
        }
    } else {
        found
    }
}

fn lowest_bad(bad: &[u32], command: Command) -> Option<u32>
    ensures { result ≡ fold (lower_bad command) None bad.now }
{
    bad.iter()
        .fold(None, |found, at| lower(command, found, *at))
}

/// Why a disk with this many sectors cannot do a command.
pub fn command_fault(plan: &DiskPlan, sectors: u32, command: Command) -> Option<Fault>
    ensures { result ≡ fault_of plan.now sectors command }
{
    let end = sectors as u64;
    if end < command.lba || end - command.lba < command.count as u64 {
        return Some(Fault::Failed(command.tag, IDNF, command.lba));
    }
    if command.write {
        return None;
    }
    match lowest_bad(plan.bad.as_slice(), command) {
        Some(bad) => Some(Fault::Failed(command.tag, UNC, bad as u64)),
        None => None,
    }
}

/// How many chunks a command has.
pub fn chunks_of(plan: &DiskPlan, command: Command) -> u32
    requires chunk { 512 ≤ plan.now.chunk }
    requires some { 0 < command.count }
    requires short { command.count ≤ 65536 }
    ensures chunks { result ≡ chunks plan.now command }
    ensures some { 0 < result }
{
    let size = plan.chunk as u32 / 512;
    (command.count + (size - 1)) / size
}

/// How many FISes of a write ask for a chunk: its DMA Setup and, without auto-activate, a DMA Activate.
pub fn asks(plan: &DiskPlan) -> u8
    ensures value { result ≡ 1 + length (activations plan.now.auto) }
    ensures few { result ≤ 2 }
{
    if plan.auto { 1 } else { 2 }
}

/// The part of a command that one chunk moves, in sectors from the command's first.
#[derive(Clone, Copy)]
pub struct Chunk {
    pub from: u32,
    pub count: u32,
}

impl Chunk {
    /// The chunk that comes when `left` chunks are left.
    pub fn at(plan: &DiskPlan, command: Command, left: u32) -> Chunk
        requires low { 512 ≤ plan.now.chunk }
        requires high { plan.now.chunk ≤ 8192 }
        requires short { command.count ≤ 65536 }
        requires some { 0 < left }
        requires among { left ≤ chunks plan.now command }
        ensures from { result.from ≡ chunk_from plan.now command left }
        ensures count { result.count ≡ chunk_count plan.now command left }
        ensures size { result.count ≤ 16 }
        ensures some { 0 < result.count }
        ensures inside { result.from + result.count ≤ command.count }
    {
        let size = plan.chunk as u32 / 512;
        let all = (command.count + (size - 1)) / size;
        let at = if plan.last_first {
            left - 1
        } else {
            all - left
        };
        let from = at * size;
        let count = size.min(command.count - from);
        Chunk { from, count }
    }
}
