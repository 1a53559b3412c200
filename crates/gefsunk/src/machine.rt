//! The exports of a machine: a controller with what is behind it. `include/gefsunk.h` says what each call does.

ghost use Rattle.std.specs.Prelude.{◌≡◌, ◌≢◌, ◌≤◌, drop, length, take, true};
ghost use Rattle.block_engine.specs.declared.request.Answer.TheVariants.{Done as WasDone};
ghost use Rattle.ahci_machine.specs.declared.bay.Unit.TheVariants.{Own};
ghost use Rattle.gefsunk.specs.Machines.{AnswerRule, AtMachine, DiscardedRule, FailRule, FreedMachine, LentRule, LoadedRule, MadeMachine, Missed, NextRule, NoMemoryRule, OfferRule, PlugRule, PowerRule, PullRule, PutDiskRule, PutRule, ReadRule, RemoveRule, StoredRule, Supplied, SupplyRule, TakeFrameRule, WriteRule, fault_of, width_of};
ghost use Rattle.gefsunk.specs.Statuses.{is_code, status_of};
ghost use Rattle.gefsunk.specs.declared.status.Status.TheVariants as status;

use crate::event::{Event, MediumRequest, WantedBytes};
use crate::handle::Handle;
use crate::kept::Kept;
use crate::medium::{self, SectorRange};
use crate::pm::{copied, refused, stamp};
use crate::profile::{DiskNumbers, DiskTexts, new_disk};
use crate::status::Status;
use ahci_controller::Width;
use ahci_machine::{Machine, PortFault, Unit, Wanted};
use fis_view::Frame;
use std::alloc::Global;

fn fault_status(fault: PortFault) -> Status
    ensures { result ≡ fault_of fault }
{
    match fault {
        PortFault::NoPort => Status::NoPort,
        PortFault::Taken => Status::AlreadyThere,
        PortFault::NotThere => Status::NotThere,
        PortFault::PluggedIn => Status::PluggedIn,
        PortFault::Spent => Status::Spent,
    }
}

fn width_of(bytes: u32) -> Option<Width>
    ensures { result ≡ width_of bytes }
{
    match bytes {
        1 => Some(Width::Byte),
        2 => Some(Width::Word),
        4 => Some(Width::Dword),
        8 => Some(Width::Qword),
        _ => None,
    }
}

fn read(machine: &Machine, offset: u32, width: u32, value: &mut u64) -> Status
    ensures rule { ReadRule machine.now offset width result value.new }
    ensures kept { result ≢ Status.Done → value.new ≡ value.old }
{
    let Some(width) = width_of(width) else {
        return Status::BadWidth;
    };
    *value = machine.read(offset, width);
    Status::Done
}

#[tactic(auto, unfolding(crate::specs::Machines::WriteRule))]
fn write(machine: &mut Machine, offset: u32, width: u32, value: u64) -> Status
    ensures { WriteRule machine.old offset width value result machine.new }
{
    let Some(width) = width_of(width) else {
        return Status::BadWidth;
    };
    machine.write(offset, width, value);
    Status::Done
}

fn power_on(machine: &mut Machine) -> Status
    ensures { PowerRule machine.old result machine.new }
{
    machine.power_on();
    Status::Done
}

fn put_disk(
    machine: &mut Machine,
    alloc: Global,
    port: u8,
    numbers: &DiskNumbers,
    texts: &DiskTexts<'_>,
) -> Status
    ensures { PutDiskRule machine.old port numbers.now texts.now.model.now texts.now.serial.now texts.now.firmware.now
        result machine.new }
{
    match new_disk(alloc, numbers, texts) {
        Ok(disk) => put(machine, port, Unit::Disk(disk)),
        Err(status) => status,
    }
}

fn plug(machine: &mut Machine, port: u8) -> Status
    ensures { PlugRule machine.old port result machine.new }
{
    match machine.plug(port) {
        Ok(()) => Status::Done,
        Err(fault) => fault_status(fault),
    }
}

fn pull(machine: &mut Machine, alloc: Global, port: u8) -> Status
    ensures { PullRule machine.old port result machine.new }
{
    match machine.pull(alloc, port) {
        Ok(()) => Status::Done,
        Err(fault) => fault_status(fault),
    }
}

fn put(machine: &mut Machine, port: u8, unit: Unit) -> Status
    ensures { PutRule machine.old port unit result machine.new }
{
    match machine.put(port, unit) {
        Ok(()) => Status::Done,
        Err((_, fault)) => fault_status(fault),
    }
}

fn remove(machine: &mut Machine, alloc: Global, port: u8) -> Status
    ensures { RemoveRule machine.old port result machine.new }
{
    match machine.remove(alloc, port) {
        Ok(_) => Status::Done,
        Err(fault) => fault_status(fault),
    }
}

fn offer(machine: &mut Machine, alloc: Global, port: u8, fis: &[u8]) -> Status
    ensures { OfferRule machine.old port fis.now result machine.new }
{
    let frame = match Frame::from_bytes(alloc, fis, stamp(0, 0)) {
        Ok(frame) => frame,
        Err(error) => return refused(error),
    };
    match machine.offer(port, frame) {
        Ok(()) => Status::Done,
        Err(_) => Status::Full,
    }
}

#[tactic(auto, unfolding(crate::specs::Machines::TakeFrameRule))]
fn take_frame(machine: &mut Machine, port: u8, room: &mut [u8], len: &mut usize) -> Status
    ensures rule { TakeFrameRule machine.old port (length room.old) result (take len.new room.new) machine.new }
    ensures within { result ≡ Status.Done → len.new ≤ length room.old }
    ensures kept { result ≢ Status.Done → (room.new ≡ room.old) × (len.new ≡ len.old) }
    ensures rest { drop len.new room.new ≡ drop len.new room.old }
{
    if room.len() < Frame::LONGEST {
        return Status::TooShort;
    }
    match machine.take_frame(port) {
        Some(frame) => {
            *len = copied(&frame, room);
            Status::Done
        }
        None => Status::Nothing,
    }
}

fn lent(machine: &Machine, room: &mut [u8], len: &mut usize) -> Status
    ensures rule { LentRule machine.now (length room.old) result (take len.new room.new) }
    ensures within { result ≡ Status.Done → len.new ≤ length room.old }
    ensures kept { result ≢ Status.Done → (room.new ≡ room.old) × (len.new ≡ len.old) }
    ensures rest { drop len.new room.new ≡ drop len.new room.old }
{
    let bytes = machine.lent();
    if bytes.is_empty() {
        return Status::Nothing;
    }
    if room.len() < bytes.len() {
        return Status::TooShort;
    }
    *len = medium::copied(bytes, 0, room);
    Status::Done
}

fn next(machine: &mut Machine, alloc: Global, event: &mut Event) -> Status
    ensures rule { NextRule machine.old result event.new machine.new }
    ensures kept { result ≢ Status.Done → event.new ≡ event.old }
{
    let Ok(request) = machine.next(alloc) else {
        return Status::NoMemory;
    };
    *event = Event::shown(request, machine.lent().len());
    Status::Done
}

#[tactic(auto, unfolding(crate::specs::Machines::SupplyRule))]
fn supply(machine: &mut Machine, alloc: Global, wanted: &WantedBytes, bytes: &[u8]) -> Status
    ensures { SupplyRule machine.old wanted.now bytes.now result machine.new }
{
    let Some(wanted) = wanted.named() else {
        return Status::NotWanted;
    };
    supply_named(machine, alloc, wanted, bytes)
}

fn supply_named(machine: &mut Machine, alloc: Global, wanted: Wanted, bytes: &[u8]) -> Status
    ensures { Supplied machine.old wanted bytes.now result machine.new }
{
    match machine.supply(alloc, wanted, bytes) {
        Ok(_) => Status::Done,
        Err(_) => Status::NoMemory,
    }
}

#[tactic(auto, unfolding(crate::specs::Machines::NoMemoryRule))]
fn no_memory(machine: &mut Machine, wanted: &WantedBytes) -> Status
    ensures { NoMemoryRule machine.old wanted.now result machine.new }
{
    let Some(wanted) = wanted.named() else {
        return Status::NotWanted;
    };
    no_memory_named(machine, wanted)
}

fn no_memory_named(machine: &mut Machine, wanted: Wanted) -> Status
    ensures { Missed machine.old wanted result machine.new }
{
    match machine.no_memory(wanted) {
        Ok(_) => Status::Done,
        Err(_) => Status::NoMemory,
    }
}

/// Makes a machine, and opens the handle.
#[unsafe(no_mangle)]
pub extern "C" fn gefsunk_machine_new(
    handle: &mut Handle,
    alloc: Global,
    ports: u8,
    port_0_open: u32,
) -> u32
    ensures made { MadeMachine handle.old.held.value ports port_0_open (status_of result) handle.new.held.value }
    ensures known { is_code result ≡ true }
{
    if let Some(kept) = handle.take(alloc) {
        *handle = Handle::open(kept);
        return Status::Open.code();
    }
    if ports > 15 {
        return Status::BadPorts.code();
    }
    let Ok(machine) = Machine::new(alloc, ports, port_0_open != 0) else {
        return Status::NoMemory.code();
    };
    match Box::new(alloc, Kept::Machine(machine)) {
        Ok(kept) => {
            *handle = Handle::open(kept);
            Status::Done.code()
        }
        Err(_) => Status::NoMemory.code(),
    }
}

/// Frees the machine, and closes the handle.
#[unsafe(no_mangle)]
pub extern "C" fn gefsunk_machine_free(handle: &mut Handle, alloc: Global) -> u32
    ensures freed { FreedMachine handle.old.held.value (status_of result) handle.new.held.value }
    ensures known { is_code result ≡ true }
{
    let Some(kept) = handle.take(alloc) else {
        return Status::Closed.code();
    };
    match &*kept {
        Kept::Machine(_) => Status::Done.code(),
        Kept::Pm(_) | Kept::Disk(_) => {
            *handle = Handle::open(kept);
            Status::Closed.code()
        }
    }
}

/// Reads registers of the controller.
#[unsafe(no_mangle)]
pub extern "C" fn gefsunk_machine_read(
    handle: &mut Handle,
    alloc: Global,
    offset: u32,
    width: u32,
    value: &mut u64,
) -> u32
    ensures rule { AtMachine handle.old.held.value (status_of result) handle.new.held.value
        (λ old new. ReadRule old offset width (status_of result) value.new × (new ≡ old)) }
    ensures known { is_code result ≡ true }
    ensures kept { status_of result ≢ status.Done → value.new ≡ value.old }
{
    let Some(kept) = handle.take(alloc) else {
        return Status::Closed.code();
    };
    let status = match &*kept {
        Kept::Machine(machine) => read(machine, offset, width, value),
        Kept::Pm(_) | Kept::Disk(_) => Status::Closed,
    };
    *handle = Handle::open(kept);
    status.code()
}

/// Writes registers of the controller.
#[unsafe(no_mangle)]
pub extern "C" fn gefsunk_machine_write(
    handle: &mut Handle,
    alloc: Global,
    offset: u32,
    width: u32,
    value: u64,
) -> u32
    ensures rule { AtMachine handle.old.held.value (status_of result) handle.new.held.value
        (λ old new. WriteRule old offset width value (status_of result) new) }
    ensures known { is_code result ≡ true }
{
    let Some(mut kept) = handle.take(alloc) else {
        return Status::Closed.code();
    };
    let status = match &mut *kept {
        Kept::Machine(machine) => write(machine, offset, width, value),
        Kept::Pm(_) | Kept::Disk(_) => Status::Closed,
    };
    *handle = Handle::open(kept);
    status.code()
}

/// A disk is put at a port.
#[unsafe(no_mangle)]
pub extern "C" fn gefsunk_machine_put_disk(
    handle: &mut Handle,
    alloc: Global,
    port: u8,
    numbers: &DiskNumbers,
    model: &[u8],
    serial: &[u8],
    firmware: &[u8],
) -> u32
    ensures rule { AtMachine handle.old.held.value (status_of result) handle.new.held.value
        (λ old new. PutDiskRule old port numbers.now model.now serial.now firmware.now (status_of result) new) }
    ensures known { is_code result ≡ true }
{
    let Some(mut kept) = handle.take(alloc) else {
        return Status::Closed.code();
    };
    let texts = DiskTexts {
        model,
        serial,
        firmware,
    };
    let status = match &mut *kept {
        Kept::Machine(machine) => put_disk(machine, alloc, port, numbers, &texts),
        Kept::Pm(_) | Kept::Disk(_) => Status::Closed,
    };
    *handle = Handle::open(kept);
    status.code()
}

/// A device of the caller's own is put at a port.
#[unsafe(no_mangle)]
pub extern "C" fn gefsunk_machine_put_device(handle: &mut Handle, alloc: Global, port: u8) -> u32
    ensures rule { AtMachine handle.old.held.value (status_of result) handle.new.held.value
        (λ old new. PutRule old port Own (status_of result) new) }
    ensures known { is_code result ≡ true }
{
    let Some(mut kept) = handle.take(alloc) else {
        return Status::Closed.code();
    };
    let status = match &mut *kept {
        Kept::Machine(machine) => put(machine, port, Unit::Own),
        Kept::Pm(_) | Kept::Disk(_) => Status::Closed,
    };
    *handle = Handle::open(kept);
    status.code()
}

/// What is at a port is plugged in.
#[unsafe(no_mangle)]
pub extern "C" fn gefsunk_machine_plug(handle: &mut Handle, alloc: Global, port: u8) -> u32
    ensures rule { AtMachine handle.old.held.value (status_of result) handle.new.held.value
        (λ old new. PlugRule old port (status_of result) new) }
    ensures known { is_code result ≡ true }
{
    let Some(mut kept) = handle.take(alloc) else {
        return Status::Closed.code();
    };
    let status = match &mut *kept {
        Kept::Machine(machine) => plug(machine, port),
        Kept::Pm(_) | Kept::Disk(_) => Status::Closed,
    };
    *handle = Handle::open(kept);
    status.code()
}

/// What is at a port is pulled.
#[unsafe(no_mangle)]
pub extern "C" fn gefsunk_machine_pull(handle: &mut Handle, alloc: Global, port: u8) -> u32
    ensures rule { AtMachine handle.old.held.value (status_of result) handle.new.held.value
        (λ old new. PullRule old port (status_of result) new) }
    ensures known { is_code result ≡ true }
{
    let Some(mut kept) = handle.take(alloc) else {
        return Status::Closed.code();
    };
    let status = match &mut *kept {
        Kept::Machine(machine) => pull(machine, alloc, port),
        Kept::Pm(_) | Kept::Disk(_) => Status::Closed,
    };
    *handle = Handle::open(kept);
    status.code()
}

/// What is at a port is taken away.
#[unsafe(no_mangle)]
pub extern "C" fn gefsunk_machine_remove(handle: &mut Handle, alloc: Global, port: u8) -> u32
    ensures rule { AtMachine handle.old.held.value (status_of result) handle.new.held.value
        (λ old new. RemoveRule old port (status_of result) new) }
    ensures known { is_code result ≡ true }
{
    let Some(mut kept) = handle.take(alloc) else {
        return Status::Closed.code();
    };
    let status = match &mut *kept {
        Kept::Machine(machine) => remove(machine, alloc, port),
        Kept::Pm(_) | Kept::Disk(_) => Status::Closed,
    };
    *handle = Handle::open(kept);
    status.code()
}

/// What is behind the controller begins anew.
#[unsafe(no_mangle)]
pub extern "C" fn gefsunk_machine_power_on(handle: &mut Handle, alloc: Global) -> u32
    ensures rule { AtMachine handle.old.held.value (status_of result) handle.new.held.value
        (λ old new. PowerRule old (status_of result) new) }
    ensures known { is_code result ≡ true }
{
    let Some(mut kept) = handle.take(alloc) else {
        return Status::Closed.code();
    };
    let status = match &mut *kept {
        Kept::Machine(machine) => power_on(machine),
        Kept::Pm(_) | Kept::Disk(_) => Status::Closed,
    };
    *handle = Handle::open(kept);
    status.code()
}

/// Says what is to be done next.
#[unsafe(no_mangle)]
pub extern "C" fn gefsunk_machine_next(handle: &mut Handle, alloc: Global, event: &mut Event) -> u32
    ensures rule { AtMachine handle.old.held.value (status_of result) handle.new.held.value
        (λ old new. NextRule old (status_of result) event.new new) }
    ensures known { is_code result ≡ true }
    ensures kept { status_of result ≢ status.Done → event.new ≡ event.old }
{
    let Some(mut kept) = handle.take(alloc) else {
        return Status::Closed.code();
    };
    let status = match &mut *kept {
        Kept::Machine(machine) => next(machine, alloc, event),
        Kept::Pm(_) | Kept::Disk(_) => Status::Closed,
    };
    *handle = Handle::open(kept);
    status.code()
}

/// Gives the bytes that go to the guest's memory.
#[unsafe(no_mangle)]
pub extern "C" fn gefsunk_machine_lent(
    handle: &mut Handle,
    alloc: Global,
    room: &mut [u8],
    len: &mut usize,
) -> u32
    ensures rule { AtMachine handle.old.held.value (status_of result) handle.new.held.value
        (λ old new. LentRule old (length room.old) (status_of result) (take len.new room.new) × (new ≡ old)) }
    ensures known { is_code result ≡ true }
    ensures kept { status_of result ≢ status.Done → (room.new ≡ room.old) × (len.new ≡ len.old) }
    ensures within { status_of result ≡ status.Done → len.new ≤ length room.old }
    ensures rest { drop len.new room.new ≡ drop len.new room.old }
{
    let Some(kept) = handle.take(alloc) else {
        return Status::Closed.code();
    };
    let status = match &*kept {
        Kept::Machine(machine) => lent(machine, room, len),
        Kept::Pm(_) | Kept::Disk(_) => Status::Closed,
    };
    *handle = Handle::open(kept);
    status.code()
}

/// Bytes of the guest's memory that are wanted.
#[unsafe(no_mangle)]
pub extern "C" fn gefsunk_machine_supply(
    handle: &mut Handle,
    alloc: Global,
    wanted: &WantedBytes,
    bytes: &[u8],
) -> u32
    ensures rule { AtMachine handle.old.held.value (status_of result) handle.new.held.value
        (λ old new. SupplyRule old wanted.now bytes.now (status_of result) new) }
    ensures known { is_code result ≡ true }
{
    let Some(mut kept) = handle.take(alloc) else {
        return Status::Closed.code();
    };
    let status = match &mut *kept {
        Kept::Machine(machine) => supply(machine, alloc, wanted, bytes),
        Kept::Pm(_) | Kept::Disk(_) => Status::Closed,
    };
    *handle = Handle::open(kept);
    status.code()
}

/// Bytes that are wanted are not memory.
#[unsafe(no_mangle)]
pub extern "C" fn gefsunk_machine_no_memory(
    handle: &mut Handle,
    alloc: Global,
    wanted: &WantedBytes,
) -> u32
    ensures rule { AtMachine handle.old.held.value (status_of result) handle.new.held.value
        (λ old new. NoMemoryRule old wanted.now (status_of result) new) }
    ensures known { is_code result ≡ true }
{
    let Some(mut kept) = handle.take(alloc) else {
        return Status::Closed.code();
    };
    let status = match &mut *kept {
        Kept::Machine(machine) => no_memory(machine, wanted),
        Kept::Pm(_) | Kept::Disk(_) => Status::Closed,
    };
    *handle = Handle::open(kept);
    status.code()
}

/// The sectors of a load.
#[unsafe(no_mangle)]
pub extern "C" fn gefsunk_machine_answer_loaded(
    handle: &mut Handle,
    alloc: Global,
    request: &MediumRequest,
    bytes: &[u8],
) -> u32
    ensures rule { AtMachine handle.old.held.value (status_of result) handle.new.held.value
        (λ old new. LoadedRule old request.now bytes.now (status_of result) new) }
    ensures known { is_code result ≡ true }
{
    let Some(mut kept) = handle.take(alloc) else {
        return Status::Closed.code();
    };
    let status = match &mut *kept {
        Kept::Machine(machine) => medium::loaded(machine, alloc, request, bytes),
        Kept::Pm(_) | Kept::Disk(_) => Status::Closed,
    };
    *handle = Handle::open(kept);
    status.code()
}

/// A store, a flush or a discard was done.
#[unsafe(no_mangle)]
pub extern "C" fn gefsunk_machine_answer_done(
    handle: &mut Handle,
    alloc: Global,
    request: &MediumRequest,
) -> u32
    ensures rule { AtMachine handle.old.held.value (status_of result) handle.new.held.value
        (λ old new. AnswerRule old request.now WasDone (status_of result) new) }
    ensures known { is_code result ≡ true }
{
    let Some(mut kept) = handle.take(alloc) else {
        return Status::Closed.code();
    };
    let status = match &mut *kept {
        Kept::Machine(machine) => medium::done(machine, request),
        Kept::Pm(_) | Kept::Disk(_) => Status::Closed,
    };
    *handle = Handle::open(kept);
    status.code()
}

/// A request could not be done.
#[unsafe(no_mangle)]
pub extern "C" fn gefsunk_machine_answer_failed(
    handle: &mut Handle,
    alloc: Global,
    request: &MediumRequest,
    error: u32,
    lba: u64,
) -> u32
    ensures rule { AtMachine handle.old.held.value (status_of result) handle.new.held.value
        (λ old new. FailRule old request.now error lba (status_of result) new) }
    ensures known { is_code result ≡ true }
{
    let Some(mut kept) = handle.take(alloc) else {
        return Status::Closed.code();
    };
    let status = match &mut *kept {
        Kept::Machine(machine) => medium::failed(machine, request, error, lba),
        Kept::Pm(_) | Kept::Disk(_) => Status::Closed,
    };
    *handle = Handle::open(kept);
    status.code()
}

/// Gives bytes of a store.
#[unsafe(no_mangle)]
pub extern "C" fn gefsunk_machine_stored(
    handle: &mut Handle,
    alloc: Global,
    request: &MediumRequest,
    from: usize,
    room: &mut [u8],
    len: &mut usize,
) -> u32
    ensures rule { AtMachine handle.old.held.value (status_of result) handle.new.held.value
        (λ old new. StoredRule old request.now from (length room.old) (status_of result) (take len.new room.new) × (new ≡ old)) }
    ensures known { is_code result ≡ true }
    ensures kept { status_of result ≢ status.Done → (room.new ≡ room.old) × (len.new ≡ len.old) }
    ensures within { status_of result ≡ status.Done → len.new ≤ length room.old }
    ensures rest { drop len.new room.new ≡ drop len.new room.old }
{
    let Some(kept) = handle.take(alloc) else {
        return Status::Closed.code();
    };
    let status = match &*kept {
        Kept::Machine(machine) => medium::stored(machine, request, from, room, len),
        Kept::Pm(_) | Kept::Disk(_) => Status::Closed,
    };
    *handle = Handle::open(kept);
    status.code()
}

/// Gives a range of a discard.
#[unsafe(no_mangle)]
pub extern "C" fn gefsunk_machine_discarded(
    handle: &mut Handle,
    alloc: Global,
    request: &MediumRequest,
    number: usize,
    range: &mut SectorRange,
) -> u32
    ensures rule { AtMachine handle.old.held.value (status_of result) handle.new.held.value
        (λ old new. DiscardedRule old request.now number (status_of result) range.new × (new ≡ old)) }
    ensures known { is_code result ≡ true }
    ensures kept { status_of result ≢ status.Done → range.new ≡ range.old }
{
    let Some(kept) = handle.take(alloc) else {
        return Status::Closed.code();
    };
    let status = match &*kept {
        Kept::Machine(machine) => medium::discarded(machine, request, number, range),
        Kept::Pm(_) | Kept::Disk(_) => Status::Closed,
    };
    *handle = Handle::open(kept);
    status.code()
}

/// Gives the FIS for a device of the caller's own.
#[unsafe(no_mangle)]
pub extern "C" fn gefsunk_machine_take_frame(
    handle: &mut Handle,
    alloc: Global,
    port: u8,
    room: &mut [u8],
    len: &mut usize,
) -> u32
    ensures rule { AtMachine handle.old.held.value (status_of result) handle.new.held.value
        (λ old new. TakeFrameRule old port (length room.old) (status_of result) (take len.new room.new) new) }
    ensures known { is_code result ≡ true }
    ensures kept { status_of result ≢ status.Done → (room.new ≡ room.old) × (len.new ≡ len.old) }
    ensures within { status_of result ≡ status.Done → len.new ≤ length room.old }
    ensures rest { drop len.new room.new ≡ drop len.new room.old }
{
    let Some(mut kept) = handle.take(alloc) else {
        return Status::Closed.code();
    };
    let status = match &mut *kept {
        Kept::Machine(machine) => take_frame(machine, port, room, len),
        Kept::Pm(_) | Kept::Disk(_) => Status::Closed,
    };
    *handle = Handle::open(kept);
    status.code()
}

/// A FIS of a device of the caller's own.
#[unsafe(no_mangle)]
pub extern "C" fn gefsunk_machine_offer(
    handle: &mut Handle,
    alloc: Global,
    port: u8,
    fis: &[u8],
) -> u32
    ensures rule { AtMachine handle.old.held.value (status_of result) handle.new.held.value
        (λ old new. OfferRule old port fis.now (status_of result) new) }
    ensures known { is_code result ≡ true }
{
    let Some(mut kept) = handle.take(alloc) else {
        return Status::Closed.code();
    };
    let status = match &mut *kept {
        Kept::Machine(machine) => offer(machine, alloc, port, fis),
        Kept::Pm(_) | Kept::Disk(_) => Status::Closed,
    };
    *handle = Handle::open(kept);
    status.code()
}
