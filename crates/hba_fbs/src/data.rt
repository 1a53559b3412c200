//! Data FISes from devices.

ghost use Rattle.std.specs.Prelude.{◌≡◌, ◌<◌, ◌≤◌, ◌+◌, ◌%◌, None, Some, false, IfSome, MatchOption};
ghost use Rattle.slots.specs.Data.{receiving_slot};
ghost use Rattle.slots.specs.Slots.{KeepsFree, LeavesOthers, context_of, issue_at, slots_of};
ghost use Rattle.hba_fbs.specs.Deciding.{goes_past as goes_past_of};
ghost use Rattle.hba_fbs.specs.Hearing.{asks as asks_of, block_ended, bus_failed as bus_heard, carried as carried_heard, ended as ended_heard, ended_fault as ended_fault_of, heard_data, mask_of_slot, moved, overflowed as overflow_heard};
ghost use Rattle.hba_fbs.specs.Status.{is_quiet as is_quiet_status};
ghost use Rattle.hba_fbs.specs.Tables.{are_last as are_last_of};
ghost use Rattle.hba_fbs.specs.Taking.{wrote_by};

use crate::hearing::{Fault, Happening, Heard, faulty, quietly};
use crate::report::Wrote;
use crate::state::DeviceState;
use crate::status::{Block, is_error, is_quiet};
use port_errors::{DeviceCause, PortCause};
use slots::{ArriveError, SlotTable};

fn asks(block: Option<Block>) -> bool
    ensures { result ≡ asks_of block }
{
    match block {
        Some(block) => block.interrupts,
        None => false,
    }
}

fn bus_failed(state: DeviceState) -> Heard
    ensures { result ≡ bus_heard state }
{
    Heard {
        state,
        happening: Happening::Nothing,
        fault: Some(Fault::Port(PortCause::Bus)),
        done: 0,
        pss: asks(state.block),
    }
}

pub(crate) fn overflowed(state: DeviceState) -> Heard
    ensures { result ≡ overflow_heard state }
{
    Heard {
        state,
        happening: Happening::Nothing,
        fault: Some(Fault::Device(DeviceCause::Overflow)),
        done: 0,
        pss: asks(state.block),
    }
}

fn mask(slot: Option<u8>) -> u32
    requires { IfSome slot (λ s. s < 32) }
    ensures { result ≡ mask_of_slot slot }
{
    match slot {
        Some(slot) => 1 << slot,
        None => 0,
    }
}

fn ended_fault(status: u8) -> Option<Fault>
    ensures { result ≡ ended_fault_of status }
{
    is_error(status).then_some(Fault::Device(DeviceCause::TaskFile))
}

// These bytes end the block of a PIO Setup.
fn ended(slots: &mut SlotTable, dev: u8, state: DeviceState, wrote: Wrote, block: Block) -> Heard
    requires { dev < 16 }
    ensures heard { result ≡ ended_heard (slots_of dev slots.old) state wrote block }
    ensures own { slots_of dev slots.new
        ≡ block_ended (is_quiet_status block.ends) (slots_of dev slots.old) }
    ensures others { LeavesOthers dev slots.old slots.new }
    ensures frees { KeepsFree slots.old slots.new }
{
    let finishes = is_quiet(block.ends);
    let done = if finishes {
        mask(slots.pio_done(dev))
    } else {
        0
    };
    Heard {
        state: state.with_status(block.ends),
        happening: Happening::Carried(wrote, finishes),
        fault: ended_fault(block.ends),
        done,
        pss: block.interrupts,
    }
}

fn carried(state: DeviceState, wrote: Wrote) -> Heard
    ensures { result ≡ carried_heard state wrote }
{
    quietly(state, Happening::Carried(wrote, false))
}

// Whether `count` bytes are all that is left of the device's setup.
fn are_last(slots: &SlotTable, dev: u8, count: u32) -> bool
    requires { dev < 16 }
    ensures { result ≡ are_last_of (context_of slots.now dev) count }
{
    match slots.context(dev) {
        Some(context) => context.left == count,
        None => false,
    }
}

/// Whether so many bytes go past this one of the slot for which a device sends Data.
pub(crate) fn goes_past(slots: &SlotTable, dev: u8, total: u32, count: u32) -> bool
    requires { dev < 16 }
    ensures { result ≡ goes_past_of total (context_of slots.now dev) count }
{
    match slots.context(dev) {
        Some(context) => {
            context.to_host && u64::from(total) < u64::from(context.next) + u64::from(count)
        }
        None => false,
    }
}

/// Hears a Data FIS of a device with `len` bytes. `sound` says whether the table of the slot for which it comes can be
/// used.
pub(crate) fn hear_data(
    slots: &mut SlotTable,
    dev: u8,
    state: DeviceState,
    sound: bool,
    len: u32,
) -> Heard
    requires dev { dev < 16 }
    requires dwords { len % 4 ≡ 0 }
    ensures heard { result ≡ heard_data (slots_of dev slots.old) state sound len }
    ensures own { slots_of dev slots.new ≡ moved result.happening (slots_of dev slots.old) }
    ensures others { LeavesOthers dev slots.old slots.new }
    ensures frees { KeepsFree slots.old slots.new }
    ensures unsound { sound ≡ false → wrote_by result.happening ≡ None }
    ensures len { IfSome (wrote_by result.happening) (λ wrote. wrote.len ≡ len) }
    ensures slot { IfSome (wrote_by result.happening) (λ wrote.
        receiving_slot (context_of slots.old dev) ≡ Some wrote.slot) }
    ensures from { IfSome (wrote_by result.happening) (λ wrote. MatchOption
        (context_of slots.old dev) ⊥ (λ context. wrote.offset ≡ context.next)) }
    ensures fits { IfSome (wrote_by result.happening) (λ wrote. MatchOption
        (issue_at slots.old wrote.slot) ⊥ (λ issue. wrote.offset + wrote.len ≤ issue.work.len)) }
{
    slots.keeps_rules();
    if slots.receiving(dev).is_none() {
        return faulty(state, DeviceCause::Stray);
    }
    if !sound {
        return bus_failed(state);
    }
    let last = are_last(slots, dev, len);
    match slots.arrive(dev, len) {
        Ok((slot, offset)) => {
            let wrote = Wrote { slot, offset, len };
            match state.block {
                Some(block) if last => ended(slots, dev, state, wrote, block),
                _ => carried(state, wrote),
            }
        }
        Err(ArriveError::Stray) => faulty(state, DeviceCause::Stray),
        Err(ArriveError::Overflow) => overflowed(state),
    }
}
