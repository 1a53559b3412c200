//! The library for C. `include/gefsunk.h` says what each call does. Each export here restates what it calls,
//! and returns the number of a [`Status`].
#![tactic(auto)]

ghost use Rattle.std.specs.Prelude.{◌≡◌, ◌≢◌, ◌≤◌, drop, length, take, true};
ghost use Rattle.gefsunk.specs.Exports.{AtPm, FreedPm, MadeOpenPm, MadePm};
ghost use Rattle.gefsunk.specs.Pms.{FromDevice, FromHost, Plug, ReadRule, ToDevice, ToHost, Unplug};
ghost use Rattle.gefsunk.specs.Statuses.{status_of};
ghost use Rattle.gefsunk.specs.Texts.{TextRule};
ghost use Rattle.gefsunk.specs.declared.status.Status.TheVariants as status;

mod disk;
mod event;
mod handle;
mod kept;
mod machine;
mod medium;
mod pm;
mod profile;
mod state;
mod status;
mod text;

pub use event::{Event, MediumRequest, WantedBytes};
pub use handle::{Handle, Held};
pub use kept::Kept;
pub use medium::SectorRange;
pub use pm::Pm;
pub use profile::DiskNumbers;
pub use status::Status;
use std::alloc::Global;

/// Writes the text of a FIS and its length.
#[unsafe(no_mangle)]
pub extern "C" fn gefsunk_fis_text(fis: &[u8], room: &mut [u8], len: &mut usize) -> u32
    ensures rule { TextRule fis.now (status_of result) (length room.old) len.old len.new }
    ensures kept { status_of result ≢ status.Done → room.new ≡ room.old }
    ensures rest { drop len.new room.new ≡ drop len.new room.old }
{
    text::fis_text(fis, room, len).code()
}

/// Makes a multiplier with this many ports, and opens the handle.
#[unsafe(no_mangle)]
pub extern "C" fn gefsunk_pm_new(handle: &mut Handle, alloc: Global, ports: u8) -> u32
    ensures { MadePm handle.old.held.value ports (status_of result) handle.new.held.value }
{
    if let Some(kept) = handle.take(alloc) {
        *handle = Handle::open(kept);
        return Status::Open.code();
    }
    if ports < 1 || ports > 15 {
        return Status::BadPorts.code();
    }
    match Box::new(alloc, Kept::Pm(Pm::new(ports))) {
        Ok(kept) => {
            *handle = Handle::open(kept);
            Status::Done.code()
        }
        Err(_) => Status::NoMemory.code(),
    }
}

/// Makes a multiplier whose port 0 is open from the start, with a device at it unless the number is 0, and
/// opens the handle.
#[unsafe(no_mangle)]
pub extern "C" fn gefsunk_pm_new_with_port_0_open(
    handle: &mut Handle,
    alloc: Global,
    ports: u8,
    is_there: u32,
) -> u32
    ensures { MadeOpenPm handle.old.held.value ports is_there (status_of result) handle.new.held.value }
{
    if let Some(kept) = handle.take(alloc) {
        *handle = Handle::open(kept);
        return Status::Open.code();
    }
    if ports < 1 || ports > 15 {
        return Status::BadPorts.code();
    }
    match Box::new(alloc, Kept::Pm(Pm::with_port_0_open(ports, is_there != 0))) {
        Ok(kept) => {
            *handle = Handle::open(kept);
            Status::Done.code()
        }
        Err(_) => Status::NoMemory.code(),
    }
}

/// Frees the multiplier, and closes the handle.
#[unsafe(no_mangle)]
pub extern "C" fn gefsunk_pm_free(handle: &mut Handle, alloc: Global) -> u32
    ensures { FreedPm handle.old.held.value (status_of result) handle.new.held.value }
{
    let kept = match handle.take(alloc) {
        Some(kept) => kept,
        None => return Status::Closed.code(),
    };
    match &*kept {
        Kept::Pm(_) => Status::Done.code(),
        Kept::Disk(_) | Kept::Machine(_) => {
            *handle = Handle::open(kept);
            Status::Closed.code()
        }
    }
}

/// A device comes to a port.
#[unsafe(no_mangle)]
pub extern "C" fn gefsunk_pm_plug(handle: &mut Handle, alloc: Global, port: u8) -> u32
    ensures { AtPm handle.old.held.value (status_of result) handle.new.held.value
        (λ old new. Plug old port (status_of result) new) }
{
    let Some(mut kept) = handle.take(alloc) else {
        return Status::Closed.code();
    };
    let status = match &mut *kept {
        Kept::Pm(pm) => pm.plug(port),
        Kept::Disk(_) | Kept::Machine(_) => Status::Closed,
    };
    *handle = Handle::open(kept);
    status.code()
}

/// The device of a port goes.
#[unsafe(no_mangle)]
pub extern "C" fn gefsunk_pm_unplug(handle: &mut Handle, alloc: Global, port: u8) -> u32
    ensures { AtPm handle.old.held.value (status_of result) handle.new.held.value
        (λ old new. Unplug old port (status_of result) new) }
{
    let Some(mut kept) = handle.take(alloc) else {
        return Status::Closed.code();
    };
    let status = match &mut *kept {
        Kept::Pm(pm) => pm.unplug(port),
        Kept::Disk(_) | Kept::Machine(_) => Status::Closed,
    };
    *handle = Handle::open(kept);
    status.code()
}

/// Takes a FIS from the host.
#[unsafe(no_mangle)]
pub extern "C" fn gefsunk_pm_from_host(handle: &mut Handle, alloc: Global, fis: &[u8]) -> u32
    ensures { AtPm handle.old.held.value (status_of result) handle.new.held.value
        (λ old new. FromHost old fis.now (status_of result) new) }
{
    let Some(mut kept) = handle.take(alloc) else {
        return Status::Closed.code();
    };
    let status = match &mut *kept {
        Kept::Pm(pm) => pm.from_host(alloc, fis),
        Kept::Disk(_) | Kept::Machine(_) => Status::Closed,
    };
    *handle = Handle::open(kept);
    status.code()
}

/// Takes a FIS from the device at a port.
#[unsafe(no_mangle)]
pub extern "C" fn gefsunk_pm_from_device(
    handle: &mut Handle,
    alloc: Global,
    port: u8,
    fis: &[u8],
) -> u32
    ensures { AtPm handle.old.held.value (status_of result) handle.new.held.value
        (λ old new. FromDevice old port fis.now (status_of result) new) }
{
    let Some(mut kept) = handle.take(alloc) else {
        return Status::Closed.code();
    };
    let status = match &mut *kept {
        Kept::Pm(pm) => pm.from_device(alloc, port, fis),
        Kept::Disk(_) | Kept::Machine(_) => Status::Closed,
    };
    *handle = Handle::open(kept);
    status.code()
}

/// Gives the next FIS for the host.
#[unsafe(no_mangle)]
pub extern "C" fn gefsunk_pm_to_host(
    handle: &mut Handle,
    alloc: Global,
    room: &mut [u8],
    len: &mut usize,
    port: &mut u8,
) -> u32
    ensures rule { AtPm handle.old.held.value (status_of result) handle.new.held.value
        (λ old new. ToHost old (length room.old) (status_of result) (take len.new room.new) port.new new) }
    ensures within { status_of result ≡ status.Done → len.new ≤ length room.old }
    ensures kept { status_of result ≢ status.Done
        → (room.new ≡ room.old) × (len.new ≡ len.old) × (port.new ≡ port.old) }
    ensures rest { drop len.new room.new ≡ drop len.new room.old }
{
    let Some(mut kept) = handle.take(alloc) else {
        return Status::Closed.code();
    };
    let status = match &mut *kept {
        Kept::Pm(pm) => pm.to_host(alloc, room, len, port),
        Kept::Disk(_) | Kept::Machine(_) => Status::Closed,
    };
    *handle = Handle::open(kept);
    status.code()
}

/// Gives the FIS that waits for the device at a port.
#[unsafe(no_mangle)]
pub extern "C" fn gefsunk_pm_to_device(
    handle: &mut Handle,
    alloc: Global,
    port: u8,
    room: &mut [u8],
    len: &mut usize,
) -> u32
    ensures rule { AtPm handle.old.held.value (status_of result) handle.new.held.value
        (λ old new. ToDevice old port (length room.old) (status_of result) (take len.new room.new) new) }
    ensures within { status_of result ≡ status.Done → len.new ≤ length room.old }
    ensures kept { status_of result ≢ status.Done → (room.new ≡ room.old) × (len.new ≡ len.old) }
    ensures rest { drop len.new room.new ≡ drop len.new room.old }
{
    let Some(mut kept) = handle.take(alloc) else {
        return Status::Closed.code();
    };
    let status = match &mut *kept {
        Kept::Pm(pm) => pm.to_device(port, room, len),
        Kept::Disk(_) | Kept::Machine(_) => Status::Closed,
    };
    *handle = Handle::open(kept);
    status.code()
}

/// Reads a register of a port.
#[unsafe(no_mangle)]
pub extern "C" fn gefsunk_pm_read(
    handle: &mut Handle,
    alloc: Global,
    port: u8,
    number: u16,
    value: &mut u32,
) -> u32
    ensures rule { AtPm handle.old.held.value (status_of result) handle.new.held.value
        (λ old new. ReadRule old port number (status_of result) value.new × (new ≡ old)) }
    ensures kept { status_of result ≢ status.Done → value.new ≡ value.old }
{
    let Some(kept) = handle.take(alloc) else {
        return Status::Closed.code();
    };
    let status = match &*kept {
        Kept::Pm(pm) => pm.read(port, number, value),
        Kept::Disk(_) | Kept::Machine(_) => Status::Closed,
    };
    *handle = Handle::open(kept);
    status.code()
}

/// Gives the number of FISes of the host that were dropped.
#[unsafe(no_mangle)]
pub extern "C" fn gefsunk_pm_dropped(handle: &mut Handle, alloc: Global, count: &mut u32) -> u32
    ensures rule { AtPm handle.old.held.value (status_of result) handle.new.held.value
        (λ old new. (status_of result ≡ status.Done) × (count.new ≡ old.multiplier.dropped) × (new ≡ old)) }
    ensures kept { status_of result ≢ status.Done → count.new ≡ count.old }
{
    let Some(kept) = handle.take(alloc) else {
        return Status::Closed.code();
    };
    let status = match &*kept {
        Kept::Pm(pm) => {
            *count = pm.multiplier.dropped();
            Status::Done
        }
        Kept::Disk(_) | Kept::Machine(_) => Status::Closed,
    };
    *handle = Handle::open(kept);
    status.code()
}
