//! The 32 slots. Questions about all of them are answered from masks, without a look at those that the masks
//! exclude.

ghost use Rattle.std.specs.Prelude.{◌≡◌, ◌+◌, ◌%◌, ◌≤◌, ◌<◌, [], Some, None, IfSome, IsSome, is_some, length, replicate, slice_index_or, slice_set};
ghost use Rattle.std.specs.Option.{ForSome, option_map};
ghost use Rattle.slots.specs.Bytes.{stretches_of, with_bytes};
ghost use Rattle.slots.specs.Commands.{answered_issue, has_outstanding as has_outstanding_in, is_any, is_done as is_done_in, is_sent_beside as is_sent_beside_issue, is_short as is_short_in, is_unanswered, own_slots, sent_issue};
ghost use Rattle.slots.specs.Data.{moved_over};
ghost use Rattle.slots.specs.Masks.{AreMasks};
ghost use Rattle.slots.specs.Slots.{IsSlotWhere, has_bit as has_bit_of, holds, is_queued_issue, is_sent_pio, is_unsent, is_waiting, issues_unless, lowest, mask_of, new_issue, own_of, sent_pio, waiting};
ghost use Rattle.slots.specs.Work.{IsWork};

use crate::mask::{Masks, has_bit, lowest_bit, with_bit, without};
use crate::slot::Slot;
use crate::work::Work;
use std::marker::Model;

/// The slots.
#[derive(Drop)]
pub(crate) struct SlotList {
    masks: Masks,
    slots: [Slot; 32],
}

impl Model for SlotList {
    ghost use Rattle.std.specs.Prelude.{List, Option, ◌≡◌, length};
    ghost use Rattle.slots.specs.Masks.{AreMasks};
    ghost use Rattle.slots.specs.Slots.{Issue};

    ghost Value = { List (Option Issue) };

    ghost view = { λ l. l.slots };

    ghost invariant = { λ l. (length l.slots ≡ 32) × AreMasks l.masks l.slots };
}

impl SlotList {
    /// Free slots.
    pub(crate) fn free() -> Self
        ensures { result ≡ replicate 32 None }
    {
        SlotList::of(Default::default())
    }

    /// These slots.
    pub(crate) fn of(slots: [Slot; 32]) -> Self
        ensures { result ≡ slots }
    {
        let masks = masks_of(&slots);
        SlotList { masks, slots }
    }

    /// All of them.
    pub(crate) fn all(&self) -> &[Slot; 32]
        ensures { result.now ≡ self.now }
    {
        &self.slots
    }

    /// One slot.
    pub(crate) fn at(&self, slot: u8) -> &Slot
        requires { slot < 32 }
        ensures { result.now ≡ slice_index_or self.now slot None }
    {
        &self.slots[slot as usize]
    }

    /// Issues some work for a device in a slot.
    pub(crate) fn start(&mut self, slot: u8, dev: u8, work: Work)
        requires slot { slot < 32 }
        requires work { IsWork work }
        ensures { self.new ≡ slice_set self.old slot (Some (new_issue dev work)) }
    {
        self.slots[slot as usize].start(dev, work);
        self.masks = self.masks.noting(slot, &self.slots[slot as usize]);
    }

    /// Frees a slot.
    pub(crate) fn clear(&mut self, slot: u8)
        requires { slot < 32 }
        ensures { self.new ≡ slice_set self.old slot None }
    {
        self.slots[slot as usize].clear();
        self.masks = self.masks.noting(slot, &self.slots[slot as usize]);
    }

    /// The command of a slot is sent.
    pub(crate) fn mark_sent(&mut self, slot: u8)
        requires { slot < 32 }
        ensures { self.new
            ≡ slice_set self.old slot (option_map sent_issue (slice_index_or self.old slot None)) }
    {
        self.slots[slot as usize].mark_sent();
        self.masks = self.masks.noting(slot, &self.slots[slot as usize]);
    }

    /// The command of a slot is answered.
    pub(crate) fn mark_answered(&mut self, slot: u8)
        requires { slot < 32 }
        ensures { self.new
            ≡ slice_set self.old slot (option_map answered_issue (slice_index_or self.old slot None)) }
    {
        self.slots[slot as usize].mark_answered();
        self.masks = self.masks.noting(slot, &self.slots[slot as usize]);
    }

    /// Adds these bytes to those of a slot that were transferred.
    pub(crate) fn add(&mut self, slot: u8, offset: u32, count: u32)
        requires slot { slot < 32 }
        requires within { ForSome (slice_index_or self.old slot None)
            (λ issue. offset + count ≤ issue.work.len) }
        requires some { IsSome (slice_index_or self.old slot None) }
        requires offset { offset % 4 ≡ 0 }
        requires count { count % 4 ≡ 0 }
        requires few { ForSome (slice_index_or self.old slot None)
            (λ issue. stretches_of (with_bytes issue.over offset count) issue.work.len ≤ 64) }
        ensures { self.new
            ≡ slice_set self.old slot
            (option_map (moved_over offset count) (slice_index_or self.old slot None)) }
    {
        self.slots[slot as usize].add(offset, count);
    }

    /// Frees these slots.
    pub(crate) fn clear_all(&mut self, mask: u32)
        ensures { self.new ≡ issues_unless (has_bit_of mask) self.old }
    {
        clear_slots(&mut self.slots, mask);
        self.masks = self.masks.without(mask);
    }

    /// The slots in which a command is issued.
    pub(crate) fn issued(&self) -> u32
        ensures { result ≡ mask_of (λ slot. holds is_any (slice_index_or self.now slot None)) }
    {
        self.masks.issued
    }

    /// The slots with an issued command that is not answered.
    pub(crate) fn unanswered(&self) -> u32
        ensures { result
            ≡ mask_of (λ slot. holds is_unanswered (slice_index_or self.now slot None)) }
    {
        self.masks.unanswered
    }

    /// The slots with an issued queued command.
    pub(crate) fn queued(&self) -> u32
        ensures { result
            ≡ mask_of (λ slot. holds is_queued_issue (slice_index_or self.now slot None)) }
    {
        self.masks.queued
    }

    /// The slots with an issued command that was not sent.
    pub(crate) fn unsent(&self) -> u32
        ensures { result ≡ mask_of (λ slot. holds is_unsent (slice_index_or self.now slot None)) }
    {
        self.masks.unsent
    }

    /// The lowest slot of the device whose command was sent and is not answered.
    pub(crate) fn waiting(&self, dev: u8) -> Option<u8>
        ensures value { result ≡ waiting (own_of dev self.now) }
        ensures there { IfSome result (IsSlotWhere is_waiting (own_of dev self.now)) }
    {
        let mut rest = self.masks.unanswered & !self.masks.unsent;
        'walk: while let Some(slot) = lowest_bit(rest) {
            if self.slots[slot as usize].is_waiting(dev) {
                return Some(slot);
            }
            rest = without(rest, slot);
        }
        None
    }

    /// The lowest slot of the device whose PIO data-in was sent.
    pub(crate) fn sent_pio(&self, dev: u8) -> Option<u8>
        ensures value { result ≡ sent_pio (own_of dev self.now) }
        ensures there { IfSome result (IsSlotWhere is_sent_pio (own_of dev self.now)) }
    {
        let mut rest = self.masks.issued & !self.masks.unsent;
        'walk: while let Some(slot) = lowest_bit(rest) {
            if self.slots[slot as usize].is_sent_pio(dev) {
                return Some(slot);
            }
            rest = without(rest, slot);
        }
        None
    }

    /// Whether a queued command of the device was answered and has not ended.
    pub(crate) fn has_outstanding(&self, dev: u8) -> bool
        ensures { result ≡ has_outstanding_in (own_of dev self.now) }
    {
        let mut rest = self.masks.queued & !self.masks.unanswered;
        'walk: while let Some(slot) = lowest_bit(rest) {
            if self.slots[slot as usize].is_outstanding(dev) {
                return true;
            }
            rest = without(rest, slot);
        }
        false
    }

    /// Whether a command of a device other than this one was sent and is not done.
    pub(crate) fn any_sent_beside(&self, dev: u8) -> bool
        ensures { result
            ≡ is_some (lowest (λ slot. holds (is_sent_beside_issue dev) (slice_index_or self.now slot None))) }
    {
        let mut rest = self.masks.issued & !self.masks.unsent;
        'walk: while let Some(slot) = lowest_bit(rest) {
            if self.slots[slot as usize].is_sent_beside(dev) {
                return true;
            }
            rest = without(rest, slot);
        }
        false
    }

    // Whether a slot is named and has a queued command of the device with all bytes transferred.
    fn is_done(&self, dev: u8, mask: u32, slot: u8) -> bool
        requires { slot < 32 }
        ensures { result ≡ is_done_in mask (own_of dev self.now) slot }
    {
        has_bit(mask, slot) && self.slots[slot as usize].is_done(dev)
    }

    // Whether a slot is named and has a queued command of the device with bytes missing.
    fn is_short(&self, dev: u8, mask: u32, slot: u8) -> bool
        requires { slot < 32 }
        ensures { result ≡ is_short_in mask (own_of dev self.now) slot }
    {
        has_bit(mask, slot) && self.slots[slot as usize].is_short(dev)
    }

    /// The named queued slots of the device with all bytes transferred.
    pub(crate) fn done(&self, dev: u8, mask: u32) -> u32
        ensures { result ≡ mask_of (is_done_in mask (own_of dev self.now)) }
    {
        let mut found = 0;
        let mut rest = self.masks.queued & mask;
        'walk: while let Some(slot) = lowest_bit(rest) {
            found = with_bit(found, slot, self.is_done(dev, mask, slot));
            rest = without(rest, slot);
        }
        found
    }

    /// The named queued slots of the device with bytes missing.
    pub(crate) fn short(&self, dev: u8, mask: u32) -> u32
        ensures { result ≡ mask_of (is_short_in mask (own_of dev self.now)) }
    {
        let mut found = 0;
        let mut rest = self.masks.queued & mask;
        'walk: while let Some(slot) = lowest_bit(rest) {
            found = with_bit(found, slot, self.is_short(dev, mask, slot));
            rest = without(rest, slot);
        }
        found
    }

    /// The slots of the device.
    pub(crate) fn of_device(&self, dev: u8) -> u32
        ensures { result ≡ own_slots (own_of dev self.now) }
    {
        let mut found = 0;
        let mut rest = self.masks.issued;
        'walk: while let Some(slot) = lowest_bit(rest) {
            found = with_bit(
                found,
                slot,
                self.slots[slot as usize].issued_by(dev).is_some(),
            );
            rest = without(rest, slot);
        }
        found
    }
}

// The masks of these slots.
fn masks_of(slots: &[Slot; 32]) -> Masks
    ensures masks { AreMasks result slots.now }
    ensures count { length slots.now ≡ 32 }
{
    let mut masks = Masks::default();
    for slot in 0..32_u8 {
        masks = masks.noting(slot, &slots[slot as usize]);
    }
    masks
}

// Frees these slots.
fn clear_slots(slots: &mut [Slot; 32], mask: u32)
    ensures { slots.new ≡ issues_unless (has_bit_of mask) slots.old }
{
    let mut rest = mask;
    'walk: while let Some(slot) = lowest_bit(rest) {
        slots[slot as usize].clear();
        rest = without(rest, slot);
    }
}
