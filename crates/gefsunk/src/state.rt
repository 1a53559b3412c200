//! The exports that save a machine and restore it. `include/gefsunk.h` says what each call does.

ghost use Rattle.std.specs.Prelude.{◌≡◌, ◌≢◌, ◌≤◌, drop, length, take, true};
ghost use Rattle.gefsunk.specs.Machines.{AtMachine};
ghost use Rattle.gefsunk.specs.Savings.{RestoresMachine, SaveRule, SizeRule, state_fault};
ghost use Rattle.gefsunk.specs.Statuses.{is_code, status_of};
ghost use Rattle.gefsunk.specs.declared.status.Status.TheVariants as status;

use crate::handle::Handle;
use crate::kept::Kept;
use crate::medium;
use crate::status::Status;
use ahci_machine::{Machine, StateError};
use std::alloc::Global;

fn fault_status(fault: StateError) -> Status
    ensures { result ≡ state_fault fault }
{
    match fault {
        StateError::OutOfMemory => Status::NoMemory,
        StateError::NotAMachine => Status::NotAState,
        StateError::OtherVersion => Status::OtherVersion,
        StateError::Short | StateError::Long | StateError::NoSuch | StateError::Broken => {
            Status::BadState
        }
    }
}

fn size(machine: &Machine, alloc: Global, len: &mut usize) -> Status
    ensures rule { SizeRule machine.now result len.new }
    ensures kept { result ≢ Status.Done → len.new ≡ len.old }
{
    let Ok(bytes) = machine.to_bytes(alloc) else {
        return Status::NoMemory;
    };
    *len = bytes.len();
    Status::Done
}

fn save(machine: &Machine, alloc: Global, room: &mut [u8], len: &mut usize) -> Status
    ensures rule { SaveRule machine.now (length room.old) result (take len.new room.new) }
    ensures within { result ≡ Status.Done → len.new ≤ length room.old }
    ensures kept { result ≢ Status.Done → (room.new ≡ room.old) × (len.new ≡ len.old) }
    ensures rest { drop len.new room.new ≡ drop len.new room.old }
{
    let Ok(bytes) = machine.to_bytes(alloc) else {
        return Status::NoMemory;
    };
    if room.len() < bytes.len() {
        return Status::TooShort;
    }
    *len = medium::copied(&bytes, 0, room);
    Status::Done
}

/// Says how many bytes the state of the machine has.
#[unsafe(no_mangle)]
pub extern "C" fn gefsunk_machine_state_size(
    handle: &mut Handle,
    alloc: Global,
    len: &mut usize,
) -> u32
    ensures rule { AtMachine handle.old.held.value (status_of result) handle.new.held.value
        (λ old new. SizeRule old (status_of result) len.new × (new ≡ old)) }
    ensures known { is_code result ≡ true }
    ensures kept { status_of result ≢ status.Done → len.new ≡ len.old }
{
    let Some(kept) = handle.take(alloc) else {
        return Status::Closed.code();
    };
    let status = match &*kept {
        Kept::Machine(machine) => size(machine, alloc, len),
        Kept::Pm(_) | Kept::Disk(_) => Status::Closed,
    };
    *handle = Handle::open(kept);
    status.code()
}

/// Gives the state of the machine as bytes.
#[unsafe(no_mangle)]
pub extern "C" fn gefsunk_machine_save(
    handle: &mut Handle,
    alloc: Global,
    room: &mut [u8],
    len: &mut usize,
) -> u32
    ensures rule { AtMachine handle.old.held.value (status_of result) handle.new.held.value
        (λ old new. SaveRule old (length room.old) (status_of result) (take len.new room.new) × (new ≡ old)) }
    ensures known { is_code result ≡ true }
    ensures kept { status_of result ≢ status.Done → (room.new ≡ room.old) × (len.new ≡ len.old) }
    ensures within { status_of result ≡ status.Done → len.new ≤ length room.old }
    ensures rest { drop len.new room.new ≡ drop len.new room.old }
{
    let Some(kept) = handle.take(alloc) else {
        return Status::Closed.code();
    };
    let status = match &*kept {
        Kept::Machine(machine) => save(machine, alloc, room, len),
        Kept::Pm(_) | Kept::Disk(_) => Status::Closed,
    };
    *handle = Handle::open(kept);
    status.code()
}

/// Makes the machine whose state these bytes are, and opens the handle.
#[unsafe(no_mangle)]
pub extern "C" fn gefsunk_machine_restore(handle: &mut Handle, alloc: Global, bytes: &[u8]) -> u32
    ensures made { RestoresMachine handle.old.held.value bytes.now (status_of result) handle.new.held.value }
    ensures known { is_code result ≡ true }
{
    if let Some(kept) = handle.take(alloc) {
        *handle = Handle::open(kept);
        return Status::Open.code();
    }
    let machine = match Machine::from_bytes(alloc, bytes) {
        Ok(machine) => machine,
        Err(fault) => return fault_status(fault).code(),
    };
    match Box::new(alloc, Kept::Machine(machine)) {
        Ok(kept) => {
            *handle = Handle::open(kept);
            Status::Done.code()
        }
        Err(_) => Status::NoMemory.code(),
    }
}
