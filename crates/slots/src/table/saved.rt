//! A table of slots as words, and back.

ghost use Rattle.std.specs.Prelude.{◌≡◌, ◌<◌, []};
ghost use Rattle.slots.specs.Issued.{with_flags};
ghost use Rattle.slots.specs.Saved.{KeepsContext, context_apart, put_context, put_table, table_apart};
ghost use Rattle.slots.specs.Table.{IsTable};
ghost use Rattle.slots.specs.Tested.{are_contexts_proper as are_contexts_proper_of, are_slots_proper as are_slots_proper_of, is_context_proper as is_context_proper_of, is_first_waiting as is_first_waiting_of, is_slot_proper as is_slot_proper_of, is_table as is_table_of};

use super::{Context, SlotTable};
use crate::list::SlotList;
use crate::slot::{Issued, Slot};
use saved_state::{RestoreError, Saved, Words, save_all};
use std::alloc::{AllocError, Global};

impl Saved for Context {
    ghost put = { put_context };

    ghost keeps = { KeepsContext };

    ghost told_apart = { context_apart };

    fn save(&self, words: &mut Words) -> Result<(), AllocError> {
        self.activated.save(words)?;
        self.to_host.save(words)?;
        self.left.save(words)?;
        self.next.save(words)?;
        self.slot.save(words)
    }

    fn restore(alloc: Global, words: &mut Words) -> Result<Context, RestoreError> {
        match <((u8, u32), (u32, bool, bool))>::restore(alloc, words) {
            Ok(((slot, next), (left, to_host, activated))) => Ok(Context {
                slot,
                next,
                left,
                to_host,
                activated,
            }),
            Err(error) => Err(error),
        }
    }
}

// If this is issued in a slot and waits, whether it is the first of its device that does.
fn is_first_waiting(slots: &SlotList, slot: u8, issued: Issued) -> bool
    ensures { result ≡ is_first_waiting_of slots.now slot (with_flags issued []) }
{
    if !issued.sent || issued.answered {
        return true;
    }
    match slots.waiting(issued.dev) {
        Some(first) => first == slot,
        None => true,
    }
}

// Whether a slot keeps the rules, beside the others.
fn is_slot_proper(slots: &SlotList, slot: u8) -> bool
    requires { slot < 32 }
    ensures { result ≡ is_slot_proper_of slots.now slot }
{
    match slots.at(slot).issued() {
        Some(issued) => { slots.at(slot).is_proper() && is_first_waiting(slots, slot, issued) }
        None => true,
    }
}

fn are_slots_proper(slots: &SlotList) -> bool
    ensures { result ≡ are_slots_proper_of slots.now }
{
    for slot in 0..32_u8 {
        if !is_slot_proper(slots, slot) {
            return false;
        }
    }
    true
}

// Whether a device's context is one of the command in its slot.
fn is_context_proper(slots: &SlotList, contexts: &[Option<Context>; 16], dev: u8) -> bool
    requires { dev < 16 }
    ensures { result ≡ is_context_proper_of slots.now contexts.now dev }
{
    match contexts[dev as usize] {
        Some(context) => {
            let slot = context.slot;
            slot < 32 && slots.at(slot).has_context(dev, context)
        }
        None => true,
    }
}

fn are_contexts_proper(slots: &SlotList, contexts: &[Option<Context>; 16]) -> bool
    ensures { result ≡ are_contexts_proper_of slots.now contexts.now }
{
    for dev in 0..16_u8 {
        if !is_context_proper(slots, contexts, dev) {
            return false;
        }
    }
    true
}

// Whether they make up a table.
fn is_table(slots: &SlotList, contexts: &[Option<Context>; 16]) -> bool
    ensures { result ≡ is_table_of slots.now contexts.now }
{
    are_slots_proper(slots) && are_contexts_proper(slots, contexts)
}

impl Saved for SlotTable {
    ghost put = { put_table };

    ghost keeps = { IsTable };

    ghost told_apart = { table_apart };

    fn save(&self, words: &mut Words) -> Result<(), AllocError> {
        save_all(&self.contexts, words)?;
        save_all(self.slots.all(), words)
    }

    fn restore(alloc: Global, words: &mut Words) -> Result<SlotTable, RestoreError> {
        let (list, contexts) = match <([Slot; 32], [Option<Context>; 16])>::restore(alloc, words) {
            Ok(parts) => parts,
            Err(error) => return Err(error),
        };
        let slots = SlotList::of(list);
        if !is_table(&slots, &contexts) {
            return Err(RestoreError::Broken);
        }
        Ok(SlotTable { slots, contexts })
    }
}
