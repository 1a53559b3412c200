//! Loops over the slots of requests.

ghost use Rattle.std.specs.Prelude.{◌≡◌, ◌<◌, IfSome, length};
ghost use Rattle.std.specs.List.{list_any};
ghost use Rattle.slots.specs.Slots.{lowest_below};
ghost use Rattle.hba_driver.specs.Drivers.{entry_at, holds, rephase_all};
ghost use Rattle.hba_driver.specs.Requests.{blocks, conflicts, is_used_by, lowest_free as lowest_free_of};
ghost use Rattle.hba_driver.specs.Submits.{is_open_of_other};
ghost use Rattle.hba_driver.specs.Ticks.{done_ended, entries_after, is_in, log_ended, log_outcome, logged_ended};
ghost use Rattle.hba_driver.specs.Turns.{IsAct, is_issued_of_other, may_issue};

use crate::order::Order;
use crate::path::{Stage, TaskFile};
use crate::plan::Plan;
use crate::request::{Outcome, Work};
use crate::sight::{ErrorLog, Sight};
use crate::slot::{Group, Phase};
use crate::span::Buffers;
use crate::taken::Slots;
use crate::turn::{Act, Logged};
use host_memory::Prd;

/// The lowest slot with a request that waits and whose device is ready.
pub(crate) fn lowest_due(plan: &Plan, slots: &Slots) -> Option<u8>
    ensures value { result ≡ lowest_below (λ slot. may_issue plan.now (entry_at slots.now slot)) 30 }
    ensures below { IfSome result (λ slot. slot < 30) }
{
    if slots.none_waits() {
        return None;
    }
    for slot in 0..30_u8 {
        if slots.may_issue(plan, slot) {
            return Some(slot);
        }
    }
    None
}

/// The lowest free slot.
#[tactic(auto, unfolding(crate::specs::Requests::lowest_free))]
pub(crate) fn lowest_free(slots: &Slots) -> Option<u8>
    ensures value { result ≡ lowest_free_of slots.now }
    ensures below { IfSome result (λ slot. slot < 30) }
{
    for slot in 0..30_u8 {
        if slots.is_free(slot) {
            return Some(slot);
        }
    }
    None
}

// Sets the phase of each request in a group.
fn rephase(slots: &mut Slots, group: Group, phase: Phase)
    ensures rephased { slots.new ≡ rephase_all (is_in group) phase slots.old }
    ensures long { length slots.new ≡ 30 }
{
    slots.keep_count();
    for slot in 0..30_u8 {
        let comes = slots.is_in(group, slot);
        slots.set_phase_if(slot, comes, phase);
    }
}

/// Ends each request that is issued and whose bit is not among these.
pub(crate) fn end_done(slots: &mut Slots, issued: u32)
    ensures ended { slots.new ≡ done_ended issued slots.old }
    ensures long { length slots.new ≡ 30 }
{
    if slots.any_done(issued) {
        rephase(slots, Group::DoneOf(issued), Phase::Ended(Outcome::Done));
    }
}

// How a request ends that a log names, if its device had this task file after its fault.
fn outcome_of(log: ErrorLog, file: TaskFile) -> Outcome
    ensures { result ≡ log_outcome log file }
{
    if log.unqueued {
        Outcome::DeviceError {
            status: file.status,
            error: file.error,
        }
    } else {
        Outcome::DeviceError {
            status: log.status,
            error: log.error,
        }
    }
}

// Ends each request of the device that was set aside, as the log says for the one that it names.
fn end_by_log(slots: &mut Slots, log: ErrorLog, logged: Logged)
    ensures ended { slots.new ≡ log_ended log logged slots.old }
    ensures long { length slots.new ≡ 30 }
{
    let named = Phase::Ended(outcome_of(log, logged.file));
    rephase(slots, Group::NamedBy(log, logged.dev), named);
    rephase(
        slots,
        Group::AsideOf(logged.dev),
        Phase::Ended(Outcome::Aborted),
    );
}

/// Ends each request that was set aside, of the device whose log came.
pub(crate) fn end_logged(slots: &mut Slots, sight: &Sight<'_>, logged: Option<Logged>)
    ensures ended { slots.new ≡ logged_ended sight.now.log logged slots.old }
    ensures long { length slots.new ≡ 30 }
{
    slots.keep_count();
    if let Some(logged) = logged {
        end_by_log(slots, sight.log(), logged);
    }
}

/// What an act leaves of the requests.
#[tactic(auto, unfolding(crate::specs::Ticks::entries_after))]
pub(crate) fn apply(slots: &mut Slots, act: Act)
    requires { IsAct act }
    ensures applied { slots.new ≡ entries_after act slots.old }
    ensures long { length slots.new ≡ 30 }
{
    slots.keep_count();
    match act {
        Act::Stops => rephase(slots, Group::Open, Phase::Ended(Outcome::PortError)),
        Act::Clears(dev) => rephase(slots, Group::OpenOf(dev), Phase::Aside),
        Act::Orders(Order::Clear(dev)) => {
            rephase(slots, Group::OpenOf(dev), Phase::Ended(Outcome::Removed));
        }
        Act::Steps(dev, Stage::AssertReset) => {
            rephase(slots, Group::AsideOf(dev), Phase::Ended(Outcome::Aborted));
        }
        Act::Issues(slot, _, _) => slots.set_phase(slot, Phase::Issued),
        Act::Opens(_) | Act::Restarts(_) | Act::Orders(_) | Act::Steps(..) => {}
    }
}

/// Whether a request of another device has not ended.
pub(crate) fn has_other(slots: &Slots, dev: u8) -> bool
    ensures { result ≡ list_any (holds (is_open_of_other dev)) slots.now }
{
    slots.keep_count();
    for slot in 0..30_u8 {
        if slots.is_open_of_other(dev, slot) {
            return true;
        }
    }
    false
}

/// Whether a request of another device is issued.
pub(crate) fn has_issued_other(slots: &Slots, dev: u8) -> bool
    ensures { result ≡ list_any (holds (is_issued_of_other dev)) slots.now }
{
    slots.keep_count();
    for slot in 0..30_u8 {
        if slots.is_issued_of_other(dev, slot) {
            return true;
        }
    }
    false
}

/// Whether a request prevents this work from being taken for a device.
pub(crate) fn are_blocked(slots: &Slots, dev: u8, work: Work) -> bool
    ensures { result ≡ list_any (holds (blocks dev work)) slots.now }
{
    slots.keep_count();
    for slot in 0..30_u8 {
        if slots.blocks(dev, work, slot) {
            return true;
        }
    }
    false
}

/// Whether a request has one of the bytes of these entries, and one of the two reads.
pub(crate) fn have_conflict(slots: &Slots, work: Work, prds: &[Prd]) -> bool
    ensures { result ≡ list_any (conflicts work prds.now) slots.now }
{
    slots.keep_count();
    let buffers = Buffers::of(prds);
    for slot in 0..30_u8 {
        if slots.conflicts(work, &buffers, slot) {
            return true;
        }
    }
    false
}

/// Whether a request has one of these bytes.
pub(crate) fn are_used(slots: &Slots, at: u32, len: u32) -> bool
    ensures { result ≡ list_any (is_used_by at len) slots.now }
{
    slots.keep_count();
    for slot in 0..30_u8 {
        if slots.is_used(at, len, slot) {
            return true;
        }
    }
    false
}
