//! The requests that were taken, in their thirty slots. Most questions about them are answered from masks,
//! without a look at the slots, which are large.

ghost use Rattle.std.specs.Prelude.{◌≡◌, ◌<◌, ◌≤◌, true, false, IfSome, Some, None, if◌then◌else◌, length, replicate, slice_set};
ghost use Rattle.std.specs.Option.{option_map};
ghost use Rattle.hba_driver.specs.Drivers.{entry_at, has_ended as has_ended_head, holds, rephased, waits as waits_head};
ghost use Rattle.hba_driver.specs.Masks.{Notes, NoneAt};
ghost use Rattle.hba_driver.specs.Requests.{blocks as blocks_of, conflicts as conflicts_of, is_free as is_free_entry, is_used_by};
ghost use Rattle.hba_driver.specs.Submits.{completion_at, is_open_of_other as is_open_of_other_head, lowest_ended as lowest_ended_of};
ghost use Rattle.hba_driver.specs.Ticks.{any_done as any_done_of, is_in as is_in_group};
ghost use Rattle.hba_driver.specs.Turns.{is_issued_of_other as is_issued_of_other_head, issue_of, may_issue as may_issue_entry};

use crate::mask::{lowest_bit, with_bit};
use crate::plan::Plan;
use crate::request::{Completion, Work};
use crate::sight::has_bit;
use crate::slot::{Group, Head, Phase, Slot};
use crate::span::Buffers;
use crate::turn::Act;
use host_memory::Prd;
use std::marker::Model;

/// The slots by how far their requests are, a bit for each.
#[derive(Clone, Copy, Debug, PartialEq, Eq)]
pub(crate) struct Masks {
    /// Those whose request waits for its issue.
    waits: u32,
    /// Those whose request is issued.
    issued: u32,
    /// Those whose request has ended.
    ended: u32,
    /// Those without a request, and the two slots of the driver's own commands.
    free: u32,
}

/// The slots of requests.
#[derive(Drop)]
pub(crate) struct Slots {
    list: [Slot; 30],
    masks: Masks,
}

impl Model for Slots {
    ghost use Rattle.std.specs.Prelude.{List, Option, ◌≡◌, length};
    ghost use Rattle.hba_driver.specs.Drivers.{Entry};
    ghost use Rattle.hba_driver.specs.Masks.{AreMasks};

    ghost Value = { List (Option Entry) };

    ghost view = { λ s. s.list };

    ghost invariant = { λ s. (length s.list ≡ 30) × AreMasks s.masks s.list };
}

impl Masks {
    // The masks after a slot has changed to this.
    fn noting(self, slot: u8, now: &Slot) -> Masks
        requires { slot < 32 }
        ensures { Notes slot now.now self result }
    {
        Masks {
            waits: with_bit(self.waits, slot, now.waits()),
            issued: with_bit(self.issued, slot, now.is_issued()),
            ended: with_bit(self.ended, slot, now.has_ended()),
            free: with_bit(self.free, slot, now.is_free()),
        }
    }
}

impl Slots {
    /// Slots without a request.
    pub(crate) fn empty() -> Self
        ensures { result ≡ replicate 30 None }
    {
        Slots {
            list: Default::default(),
            masks: Masks {
                waits: 0,
                issued: 0,
                ended: 0,
                free: u32::MAX,
            },
        }
    }

    /// There are thirty. The call has no effect.
    pub(crate) fn keep_count(&self)
        ensures { length self.now ≡ 30 }
    {
        // Read, so that what its type says of it is known here.
        let _ = &self.masks;
    }

    /// Puts a request into a slot.
    pub(crate) fn fill(&mut self, slot: u8, head: Head, prds: &[Prd])
        requires slot { slot < 30 }
        requires few { length prds.now ≤ 248 }
        ensures { self.new
            ≡ slice_set self.old slot (Some (record { head = head; prds = prds.now })) }
    {
        self.list[slot as usize].fill(head, prds);
        self.masks = self.masks.noting(slot, &self.list[slot as usize]);
    }

    /// Takes the request out of a slot.
    pub(crate) fn clear(&mut self, slot: u8)
        requires { slot < 30 }
        ensures { self.new ≡ slice_set self.old slot None }
    {
        self.list[slot as usize].clear();
        self.masks = self.masks.noting(slot, &self.list[slot as usize]);
    }

    /// Sets the phase of the request in a slot.
    pub(crate) fn set_phase(&mut self, slot: u8, phase: Phase)
        requires { slot < 30 }
        ensures { self.new
            ≡ slice_set self.old slot (option_map (rephased phase) (entry_at self.old slot)) }
    {
        self.list[slot as usize].set_phase(phase);
        self.masks = self.masks.noting(slot, &self.list[slot as usize]);
    }

    /// Sets the phase of the request in a slot, if `comes`.
    pub(crate) fn set_phase_if(&mut self, slot: u8, comes: bool, phase: Phase)
        requires { slot < 30 }
        ensures { self.new
            ≡ slice_set self.old slot
            (if comes then option_map (rephased phase) (entry_at self.old slot)
            else entry_at self.old slot) }
    {
        if comes {
            self.set_phase(slot, phase);
        }
    }

    // Whether the request of a slot may be in this group.
    fn may_be_in(&self, group: Group, slot: u8) -> bool
        requires { slot < 30 }
        ensures { result ≡ false → holds (is_in_group group slot) (entry_at self.now slot) ≡ false }
    {
        match group {
            Group::DoneOf(_) => has_bit(self.masks.issued, slot),
            _ => !has_bit(self.masks.free, slot),
        }
    }

    /// Whether the request of a slot is in this group.
    pub(crate) fn is_in(&self, group: Group, slot: u8) -> bool
        requires { slot < 30 }
        ensures { result ≡ holds (is_in_group group slot) (entry_at self.now slot) }
    {
        self.may_be_in(group, slot) && self.list[slot as usize].is_in(group, slot)
    }

    /// Whether some request is issued and its bit is not among these.
    pub(crate) fn any_done(&self, issued: u32) -> bool
        ensures done { result ≡ any_done_of issued self.now }
        ensures long { length self.now ≡ 30 }
    {
        lowest_bit(self.masks.issued & !issued).is_some()
    }

    /// Whether no request waits for its issue.
    pub(crate) fn none_waits(&self) -> bool
        ensures { result ≡ true → NoneAt (holds waits_head) self.now }
    {
        self.masks.waits == 0
    }

    /// Whether the request of a slot waits, and its device is ready.
    pub(crate) fn may_issue(&self, plan: &Plan, slot: u8) -> bool
        requires { slot < 30 }
        ensures { result ≡ may_issue_entry plan.now (entry_at self.now slot) }
    {
        has_bit(self.masks.waits, slot) && self.list[slot as usize].may_issue(plan)
    }

    /// Whether a slot has no request.
    pub(crate) fn is_free(&self, slot: u8) -> bool
        requires { slot < 30 }
        ensures { result ≡ is_free_entry (entry_at self.now slot) }
    {
        has_bit(self.masks.free, slot)
    }

    /// The lowest slot with a request that has ended.
    pub(crate) fn lowest_ended(&self) -> Option<u8>
        ensures value { result ≡ lowest_ended_of self.now }
        ensures below { IfSome result (λ slot. slot < 30) }
    {
        lowest_bit(self.masks.ended)
    }

    /// The issue of the request in a slot.
    pub(crate) fn issue(&self, slot: u8) -> Option<Act>
        requires { slot < 30 }
        ensures { result ≡ issue_of slot (entry_at self.now slot) }
    {
        self.list[slot as usize].issue(slot)
    }

    /// How the request in a slot ended, if it has.
    pub(crate) fn completion(&self, slot: u8) -> Option<Completion>
        requires { slot < 30 }
        ensures { result ≡ completion_at slot (entry_at self.now slot) }
    {
        self.list[slot as usize].completion(slot)
    }

    /// Whether the request of a slot is of another device and has not ended.
    pub(crate) fn is_open_of_other(&self, dev: u8, slot: u8) -> bool
        requires { slot < 30 }
        ensures { result ≡ holds (is_open_of_other_head dev) (entry_at self.now slot) }
    {
        !self.is_free(slot) && self.list[slot as usize].is_open_of_other(dev)
    }

    /// Whether the request of a slot is of another device and issued.
    pub(crate) fn is_issued_of_other(&self, dev: u8, slot: u8) -> bool
        requires { slot < 30 }
        ensures { result ≡ holds (is_issued_of_other_head dev) (entry_at self.now slot) }
    {
        has_bit(self.masks.issued, slot) && self.list[slot as usize].is_issued_of_other(dev)
    }

    /// Whether the request of a slot prevents this work from being taken for the device.
    pub(crate) fn blocks(&self, dev: u8, work: Work, slot: u8) -> bool
        requires { slot < 30 }
        ensures { result ≡ holds (blocks_of dev work) (entry_at self.now slot) }
    {
        !self.is_free(slot) && self.list[slot as usize].blocks(dev, work)
    }

    /// Whether the request of a slot has one of these bytes, and one of the two reads.
    pub(crate) fn conflicts(&self, work: Work, buffers: &Buffers<'_>, slot: u8) -> bool
        requires { slot < 30 }
        ensures { result ≡ conflicts_of work buffers.now (entry_at self.now slot) }
    {
        !self.is_free(slot) && self.list[slot as usize].conflicts(work, buffers)
    }

    /// Whether the request of a slot has one of these bytes.
    pub(crate) fn is_used(&self, at: u32, len: u32, slot: u8) -> bool
        requires { slot < 30 }
        ensures { result ≡ is_used_by at len (entry_at self.now slot) }
    {
        !self.is_free(slot) && self.list[slot as usize].is_used(at, len)
    }
}
