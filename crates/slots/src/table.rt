//! The table of all slots.

ghost use Rattle.std.specs.Prelude.{◌≡◌, ℕ, [], ◌&&◌, ◌+◌, ◌%◌, ◌<◌, ◌≤◌, ◌↔◌, Some, None, IsSome, IsErr, IfNone, IfSome, OnOk, OnErr, MatchOption, false, true, is_ok, is_none, is_some};
ghost use Rattle.std.specs.Option.{option_map};
ghost use Rattle.std.specs.Result.{result_err};
ghost use Rattle.slots.specs.Commands.{IsSlotAnswer, MayBeSent, StaysWithout, after_answer, after_complete, after_issue, after_pio_done, after_sent, answer_of, any_sent_beside as any_sent_beside_of, completed, is_any, is_slot, is_unanswered, may_begin as may_begin_of, may_go as may_go_of, next_slot, own_slots, slots_where, table_after_issue, whole_pio, with_answered, with_sent};
ghost use Rattle.slots.specs.Data.{IsWriteOf, activated as activated_context, after_activate, after_arrive, after_payload, arrive_answer, gone_over, may_activate, payload, payload_len as payload_len_of, receivers as receivers_of, receiving_slot};
ghost use Rattle.slots.specs.Issued.{with_flags};
ghost use Rattle.slots.specs.Setup.{after_setup, after_setup_out, after_setup_pio, begun, dma_context, new_context, out_setup, pio_fault, pio_issue, setup_fault, with_own_context};
ghost use Rattle.slots.specs.Slots.{KeepsFree, LeavesOthers, context_of, context_unless, freed, has_bit as has_bit_of, holds, is_control, is_queued_issue, is_unsent, is_waiting, issue_at, no_own_slots, no_slots, own_issue, owned_by, sent_out as sent_out_of, sent_pio as sent_pio_of, slots_of, waiting};
ghost use Rattle.slots.specs.Table.{IsContext, IsFresh, IsTable};
ghost use Rattle.slots.specs.Work.{IsWork};

mod saved;

use crate::answer::{Answered, ArriveError, Busy, Completed, SetupError, Stray};
use crate::list::SlotList;
use crate::mask::{has_bit, lowest_bit, without};
use crate::slot::Issued;
use crate::work::Work;
use std::marker::Model;

/// The most bytes in a Data FIS.
const MAX_PAYLOAD: u32 = 8192;

/// What is left of a device's last setup.
#[derive(Clone, Copy, Debug, PartialEq, Eq)]
pub struct Context {
    /// The slot whose bytes are transferred.
    pub slot: u8,
    /// The offset of the next byte.
    pub next: u32,
    /// How many bytes are left.
    pub left: u32,
    /// Whether they go to the host.
    pub to_host: bool,
    /// Whether the next Data may go to the device: it asked for it, or its DMA Setup has auto-activate.
    pub activated: bool,
}

impl Context {
    fn new(slot: u8, offset: u32, count: u32, to_host: bool) -> Context
        ensures { result ≡ new_context slot offset count to_host }
    {
        Context {
            slot,
            next: offset,
            left: count,
            to_host,
            activated: false,
        }
    }

    // The context when the next Data may go to the device.
    fn activated(self) -> Context
        ensures { result ≡ activated_context self }
    {
        Context {
            activated: true,
            ..self
        }
    }

    /// How many bytes go to the device next.
    fn payload_len(self) -> u32
        ensures { result ≡ payload_len_of self }
    {
        self.left.min(MAX_PAYLOAD)
    }

    fn may_be_activated(self) -> bool
        ensures { result ≡ may_activate (Some self) }
    {
        !self.to_host && self.left > 0 && !self.activated
    }
}

/// What is issued in each slot, which of its bytes were transferred, and each device's last setup.
#[derive(Drop)]
pub struct SlotTable {
    slots: SlotList,
    contexts: [Option<Context>; 16],
}

impl Model for SlotTable {
    ghost use Rattle.slots.specs.Slots.{Slots};
    ghost use Rattle.slots.specs.Table.{IsTable};

    ghost Value = { Slots };

    ghost view = { λ t. record { issues = t.slots; contexts = t.contexts } };

    ghost invariant = { λ t. IsTable (record { issues = t.slots; contexts = t.contexts }) };
}

impl SlotTable {
    /// A table with all slots free.
    pub fn new() -> Self
        ensures { result ≡ no_slots }
    {
        SlotTable {
            slots: SlotList::free(),
            contexts: [None; 16],
        }
    }

    /// The rules that hold for every table. The call has no effect.
    pub fn keeps_rules(&self)
        ensures { IsTable self.now }
    {
        let _ = &self.contexts;
    }

    /// Issues some work for a device in a free slot.
    pub fn issue(&mut self, slot: u8, dev: u8, work: Work) -> Result<(), Busy>
        requires slot { slot < 32 }
        requires dev { dev < 16 }
        requires work { IsWork work }
        ensures busy { IsErr result ↔ IsSome (issue_at self.old slot) }
        ensures own { OnOk result
            (slots_of dev self.new ≡ after_issue (slots_of dev self.old) slot dev work) }
        ensures after { OnOk result (self.new ≡ table_after_issue self.old slot dev work) }
        ensures err { OnErr result (self.new ≡ self.old) }
        ensures others { LeavesOthers dev self.old self.new }
    {
        if self.slots.at(slot).issued().is_some() {
            return Err(Busy);
        }
        self.slots.start(slot, dev, work);
        Ok(())
    }

    /// The command of a slot is sent. A Control has no answer, so its slot is freed at once. Any other
    /// command waits for its device's answer. READ and WRITE DMA have no setup: all their bytes are the
    /// device's transfer from now on.
    pub fn sent(&mut self, slot: u8)
        requires slot { slot < 32 }
        requires alone { MayBeSent self.old slot }
        ensures own { IfSome (issue_at self.old slot)
            (λ issue. slots_of issue.dev self.new ≡ after_sent (slots_of issue.dev self.old) slot) }
        ensures others { IfSome (issue_at self.old slot)
            (λ issue. LeavesOthers issue.dev self.old self.new) }
        ensures frees { KeepsFree self.old self.new }
    {
        let Some(issued) = self.slots.at(slot).issued() else {
            return;
        };
        if issued.work.kind.is_control() {
            self.free(issued.dev, slot);
        } else {
            self.send(issued.dev, slot);
            self.begin(issued.dev, slot, issued.work);
        }
    }

    /// The command of a slot of a device is sent and waits for its answer.
    fn send(&mut self, dev: u8, slot: u8)
        requires slot { slot < 32 }
        requires issue { MatchOption (issue_at self.old slot) ⊥
            (λ issue. (issue.dev ≡ dev) × (is_control issue.work.kind ≡ false)) }
        requires alone { waiting (slots_of dev self.old) ≡ None }
        ensures own { slots_of dev self.new ≡ with_sent (slots_of dev self.old) slot }
        ensures others { LeavesOthers dev self.old self.new }
        ensures frees { KeepsFree self.old self.new }
    {
        self.slots.mark_sent(slot);
    }

    /// Frees a slot of a device.
    fn free(&mut self, dev: u8, slot: u8)
        requires slot { slot < 32 }
        requires dev { dev < 16 }
        requires owner { IsSome (owned_by dev (issue_at self.old slot)) }
        ensures own { slots_of dev self.new ≡ freed (is_slot slot) (slots_of dev self.old) }
        ensures others { LeavesOthers dev self.old self.new }
        ensures frees { KeepsFree self.old self.new }
    {
        self.slots.clear(slot);
        self.contexts[dev as usize] = context_without(self.contexts[dev as usize], slot);
    }

    /// The slot of a device that waits is answered.
    fn answer(&mut self, dev: u8, slot: u8)
        requires slot { slot < 32 }
        requires dev { dev < 16 }
        requires waits { holds is_waiting (own_issue (slots_of dev self.old) slot) ≡ true }
        requires queued { holds is_queued_issue (own_issue (slots_of dev self.old) slot) ≡ true }
        ensures own { slots_of dev self.new ≡ with_answered (slots_of dev self.old) slot }
        ensures others { LeavesOthers dev self.old self.new }
        ensures frees { KeepsFree self.old self.new }
    {
        self.slots.mark_answered(slot);
    }

    /// A device answers the command that waits, with a Register Device to Host FIS that has neither BSY nor
    /// ERR.
    pub fn answered(&mut self, dev: u8) -> Answered
        requires { dev < 16 }
        ensures answer { result ≡ answer_of (slots_of dev self.old) }
        ensures below { IsSlotAnswer result }
        ensures own { slots_of dev self.new ≡ after_answer (slots_of dev self.old) }
        ensures others { LeavesOthers dev self.old self.new }
        ensures frees { KeepsFree self.old self.new }
        ensures stays { StaysWithout result self.old self.new }
    {
        let Some(slot) = self.slots.waiting(dev) else {
            return Answered::Nobody;
        };
        let answer = self.slots.at(slot).answer_for(slot);
        match answer {
            Answered::Nobody | Answered::Short(_) => {}
            Answered::Queued(slot) => self.answer(dev, slot),
            Answered::Done(slot) => self.free(dev, slot),
        }
        answer
    }

    /// The command of a slot of a device, with this work, was sent now: if it has no setup, it is its own.
    fn begin(&mut self, dev: u8, slot: u8, work: Work)
        requires slot { slot < 32 }
        requires dev { dev < 16 }
        requires issue { MatchOption (own_issue (slots_of dev self.old) slot) ⊥ (IsFresh work) }
        ensures own { slots_of dev self.new ≡ begun slot work (slots_of dev self.old) }
        ensures others { LeavesOthers dev self.old self.new }
        ensures frees { KeepsFree self.old self.new }
    {
        self.keeps_rules();
        if work.kind.is_dma() {
            self.set_context(dev, Context::new(slot, 0, work.len, work.kind.is_read()));
        }
    }

    /// A setup of a device is accepted.
    fn set_context(&mut self, dev: u8, context: Context)
        requires dev { dev < 16 }
        requires inside { IsContext dev self.old context }
        ensures own { slots_of dev self.new ≡ with_own_context (slots_of dev self.old) context }
        ensures others { LeavesOthers dev self.old self.new }
        ensures frees { KeepsFree self.old self.new }
    {
        self.contexts[dev as usize] = Some(context);
    }

    /// A DMA Setup FIS of a device for one of its queued slots: `count` bytes from byte `offset` on. If it is
    /// accepted, it replaces the device's last setup and holds until its slot is freed. With `auto`, the
    /// first Data to the device needs no DMA Activate.
    pub fn setup(
        &mut self,
        dev: u8,
        tag: u8,
        offset: u32,
        count: u32,
        to_host: bool,
        auto: bool,
    ) -> Result<(), SetupError>
        requires dev { dev < 16 }
        requires tag { tag < 32 }
        ensures refusal { result_err result
            ≡ setup_fault (own_issue (slots_of dev self.old) tag) offset count to_host }
        ensures own { slots_of dev self.new
            ≡ after_setup (slots_of dev self.old) tag offset count to_host auto }
        ensures others { LeavesOthers dev self.old self.new }
        ensures frees { KeepsFree self.old self.new }
        ensures err { OnErr result (self.new ≡ self.old) }
    {
        if let Some(fault) = self.slots.at(tag).setup_fault(dev, offset, count, to_host) {
            return Err(fault);
        }
        let context = Context::new(tag, offset, count, to_host);
        if auto && !to_host {
            self.set_context(dev, context.activated());
        } else {
            self.set_context(dev, context);
        }
        Ok(())
    }

    /// A PIO Setup FIS of a device for its PIO data-in: the next `count` bytes.
    pub fn setup_pio(&mut self, dev: u8, count: u32, to_host: bool) -> Result<(), SetupError>
        requires dev { dev < 16 }
        ensures refusal { result_err result
            ≡ pio_fault (pio_issue (slots_of dev self.old)) count to_host }
        ensures own { slots_of dev self.new
            ≡ after_setup_pio (slots_of dev self.old) count to_host }
        ensures others { LeavesOthers dev self.old self.new }
        ensures frees { KeepsFree self.old self.new }
        ensures err { OnErr result (self.new ≡ self.old) }
    {
        let Some(slot) = self.slots.sent_pio(dev) else {
            return Err(SetupError::NotOutstanding);
        };
        if let Some(fault) = self.slots.at(slot).pio_fault(count, to_host) {
            return Err(fault);
        }
        let offset = self.slots.at(slot).came();
        self.set_context(dev, Context::new(slot, offset, count, to_host));
        Ok(())
    }

    /// The slot of a device's PIO data-in that was sent.
    pub fn sent_pio(&self, dev: u8) -> Option<u8>
        requires { dev < 16 }
        ensures { result ≡ sent_pio_of (slots_of dev self.now) }
    {
        self.slots.sent_pio(dev)
    }

    // The slot of a device's PIO data-out that was sent.
    fn sent_out(&self, dev: u8) -> Option<u8>
        requires { dev < 16 }
        ensures value { result ≡ sent_out_of (slots_of dev self.now) }
        ensures below { IfSome result (λ slot. slot < 32) }
    {
        let slot = self.slots.waiting(dev)?;
        self.slots.at(slot).is_out().then_some(slot)
    }

    /// A PIO Setup FIS of a device for its PIO data-out that was sent: the device asks for the next `count`
    /// bytes, which may go at once. Answers what it replaces the device's last setup with.
    pub fn setup_out(&mut self, dev: u8, count: u32, to_host: bool) -> Result<Context, SetupError>
        requires dev { dev < 16 }
        ensures answer { result ≡ out_setup (slots_of dev self.old) count to_host }
        ensures own { slots_of dev self.new
            ≡ after_setup_out (slots_of dev self.old) count to_host }
        ensures others { LeavesOthers dev self.old self.new }
        ensures frees { KeepsFree self.old self.new }
        ensures err { OnErr result (self.new ≡ self.old) }
    {
        let Some(slot) = self.sent_out(dev) else {
            return Err(SetupError::NotOutstanding);
        };
        if let Some(fault) = self.slots.at(slot).out_fault(count, to_host) {
            return Err(fault);
        }
        let offset = self.slots.at(slot).came();
        let context = Context::new(slot, offset, count, false).activated();
        self.set_context(dev, context);
        Ok(context)
    }

    /// The next bytes of a device's context are transferred.
    fn go_over(&mut self, dev: u8, context: Context, count: u32)
        requires dev { dev < 16 }
        requires context { context_of self.old dev ≡ Some context }
        requires within { count ≤ context.left }
        requires dwords { count % 4 ≡ 0 }
        ensures own { slots_of dev self.new ≡ gone_over count context (slots_of dev self.old) }
        ensures others { LeavesOthers dev self.old self.new }
        ensures frees { KeepsFree self.old self.new }
    {
        self.slots.add(context.slot, context.next, count);
        self.contexts[dev as usize] = Some(Context {
            next: context.next + count,
            left: context.left - count,
            activated: false,
            ..context
        });
    }

    /// `count` bytes of data arrive from a device. Answers their slot and the offset of the first.
    pub fn arrive(&mut self, dev: u8, count: u32) -> Result<(u8, u32), ArriveError>
        requires dev { dev < 16 }
        requires dwords { count % 4 ≡ 0 }
        ensures answer { result ≡ arrive_answer (context_of self.old dev) count }
        ensures own { slots_of dev self.new ≡ after_arrive (slots_of dev self.old) count }
        ensures others { LeavesOthers dev self.old self.new }
        ensures frees { KeepsFree self.old self.new }
        ensures err { OnErr result (self.new ≡ self.old) }
    {
        let Some(context) = self.contexts[dev as usize] else {
            return Err(ArriveError::Stray);
        };
        if !context.to_host {
            return Err(ArriveError::Stray);
        }
        if context.left < count {
            return Err(ArriveError::Overflow);
        }
        self.go_over(dev, context, count);
        Ok((context.slot, context.next))
    }

    /// A DMA Activate FIS of a device: the device is ready for the next Data of its transfer.
    pub fn activate(&mut self, dev: u8) -> Result<(), Stray>
        requires { dev < 16 }
        ensures answer { is_ok result ≡ may_activate (context_of self.old dev) }
        ensures own { slots_of dev self.new ≡ after_activate (slots_of dev self.old) }
        ensures others { LeavesOthers dev self.old self.new }
        ensures frees { KeepsFree self.old self.new }
        ensures err { OnErr result (self.new ≡ self.old) }
    {
        let Some(context) = self.contexts[dev as usize] else {
            return Err(Stray);
        };
        if !context.may_be_activated() {
            return Err(Stray);
        }
        self.set_context(dev, context.activated());
        Ok(())
    }

    /// The data that goes to a device next, if the device is ready for it: its slot, the offset of its first
    /// byte, and its length, at most 8,192 bytes.
    pub fn next_payload(&self, dev: u8) -> Option<(u8, u32, u32)>
        requires { dev < 16 }
        ensures value { result ≡ payload (context_of self.now dev) }
        ensures below { IfSome result (λ next. next.0 < 32) }
        ensures some { IfSome result (λ next. 0 < next.2) }
        ensures few { IfSome result (λ next. next.2 ≤ 8192) }
        ensures dwords { IfSome result (λ next. next.2 % 4 ≡ 0) }
        ensures own { IfSome result
            (λ next. own_issue (slots_of dev self.now) next.0 ≡ issue_at self.now next.0) }
        ensures inside { IfSome result
            (λ next. MatchOption (issue_at self.now next.0) ⊥ (IsWriteOf dev next.1 next.2)) }
    {
        let context = self.contexts[dev as usize]?;
        context
            .activated
            .then_some((context.slot, context.next, context.payload_len()))
    }

    /// The data of [`next_payload`](Self::next_payload) was sent to the device.
    pub fn payload_gone(&mut self, dev: u8)
        requires dev { dev < 16 }
        requires some { IsSome (payload (context_of self.old dev)) }
        ensures own { slots_of dev self.new ≡ after_payload (slots_of dev self.old) }
        ensures others { LeavesOthers dev self.old self.new }
        ensures frees { KeepsFree self.old self.new }
    {
        if let Some(context) = self.contexts[dev as usize] {
            self.go_over(dev, context, context.payload_len());
        }
    }

    /// A device names queued slots as done, with a Set Device Bits FIS. Slots that are not its queued ones
    /// are ignored.
    pub fn complete(&mut self, dev: u8, mask: u32) -> Completed
        requires { dev < 16 }
        ensures answer { result ≡ completed mask (slots_of dev self.old) }
        ensures own { slots_of dev self.new ≡ after_complete mask (slots_of dev self.old) }
        ensures others { LeavesOthers dev self.old self.new }
        ensures frees { KeepsFree self.old self.new }
    {
        let done = self.slots.done(dev, mask);
        let short = self.slots.short(dev, mask);
        self.slots.clear_all(done);
        self.contexts[dev as usize] = context_left(self.contexts[dev as usize], done);
        Completed { done, short }
    }

    /// A block of PIO data ended as the last one does. If all bytes of the device's PIO data-in came, its
    /// slot is freed and is the answer.
    pub fn pio_done(&mut self, dev: u8) -> Option<u8>
        requires { dev < 16 }
        ensures answer { result ≡ whole_pio (slots_of dev self.old) }
        ensures below { IfSome result (λ slot. slot < 32) }
        ensures own { slots_of dev self.new ≡ after_pio_done (slots_of dev self.old) }
        ensures others { LeavesOthers dev self.old self.new }
        ensures frees { KeepsFree self.old self.new }
        ensures stays { IfNone result (self.new ≡ self.old) }
    {
        let slot = self.slots.sent_pio(dev)?;
        if !self.slots.at(slot).is_whole() {
            return None;
        }
        self.free(dev, slot);
        Some(slot)
    }

    /// Frees all slots of a device and answers their mask.
    pub fn flush(&mut self, dev: u8) -> u32
        requires { dev < 16 }
        ensures answer { result ≡ own_slots (slots_of dev self.old) }
        ensures own { slots_of dev self.new ≡ no_own_slots }
        ensures others { LeavesOthers dev self.old self.new }
        ensures frees { KeepsFree self.old self.new }
    {
        let flushed = self.slots.of_device(dev);
        self.slots.clear_all(flushed);
        self.contexts[dev as usize] = None;
        flushed
    }

    /// Frees all slots and answers the mask of those in which a command was issued.
    pub fn flush_all(&mut self) -> u32
        ensures answer { result ≡ slots_where is_any self.old }
        ensures after { self.new ≡ no_slots }
        ensures frees { KeepsFree self.old self.new }
    {
        let flushed = self.slots.issued();
        *self = SlotTable::new();
        flushed
    }

    /// The mask of the slots with an issued command that is not answered, as PxCI shows it (AHCI 1.3.1,
    /// 3.3.14).
    pub fn ci(&self) -> u32
        ensures { result ≡ slots_where is_unanswered self.now }
    {
        self.slots.unanswered()
    }

    /// The mask of the slots with an issued queued command, as PxSACT shows it (AHCI 1.3.1, 3.3.13).
    pub fn queued(&self) -> u32
        ensures { result ≡ slots_where is_queued_issue self.now }
    {
        self.slots.queued()
    }

    /// The mask of the slots in which a command is issued.
    pub fn issued(&self) -> u32
        ensures { result ≡ slots_where is_any self.now }
    {
        self.slots.issued()
    }

    /// The mask of the slots with an issued command that was not sent.
    pub fn unsent(&self) -> u32
        ensures { result ≡ slots_where is_unsent self.now }
    {
        self.slots.unsent()
    }

    /// The devices to which data goes next, as a mask: those for which [`next_payload`](Self::next_payload) has some.
    pub fn receivers(&self) -> u16
        ensures { result ≡ receivers_of self.now }
    {
        let mut found: u32 = 0;
        for dev in 0..16_u8 {
            if is_due(self.contexts[dev as usize]) {
                found |= 1 << dev;
            }
        }
        found as u16
    }

    /// The device of the command in a slot.
    pub fn owner(&self, slot: u8) -> Option<u8>
        requires { slot < 32 }
        ensures { result ≡ option_map (λ issue. issue.dev) (issue_at self.now slot) }
    {
        let issued = self.slots.at(slot).issued()?;
        Some(issued.dev)
    }

    /// What the command in a slot asks for.
    pub fn work(&self, slot: u8) -> Option<Work>
        requires { slot < 32 }
        ensures { result ≡ option_map (λ issue. issue.work) (issue_at self.now slot) }
    {
        let issued = self.slots.at(slot).issued()?;
        Some(issued.work)
    }

    /// The device's last setup, with what is left of it.
    pub fn context(&self, dev: u8) -> Option<Context>
        requires { dev < 16 }
        ensures { result ≡ context_of self.now dev }
    {
        self.contexts[dev as usize]
    }

    /// The slot for which Data of a device may arrive.
    pub fn receiving(&self, dev: u8) -> Option<u8>
        requires { dev < 16 }
        ensures value { result ≡ receiving_slot (context_of self.now dev) }
        ensures below { IfSome result (λ slot. slot < 32) }
    {
        let context = self.contexts[dev as usize]?;
        context.to_host.then_some(context.slot)
    }

    /// Whether a command may begin: one that has no setup waits until no queued one is outstanding.
    fn may_begin(&self, issued: Issued) -> bool
        requires { issued.dev < 16 }
        ensures { result ≡ may_begin_of (slots_of issued.dev self.now) (with_flags issued []) }
    {
        !(issued.work.kind.is_dma() && self.slots.has_outstanding(issued.dev))
    }

    /// Whether a device is ready and none of its slots waits.
    fn may_take(&self, dev: u8, ready: u16) -> bool
        requires { dev < 16 }
        ensures { result ≡ (has_bit_of ready dev && is_none (waiting (slots_of dev self.now))) }
    {
        has_bit(u32::from(ready), dev) && self.slots.waiting(dev).is_none()
    }

    /// Whether what is issued in a slot may go out next.
    fn may_go(&self, issued: Issued, ready: u16, faulty: u16) -> bool
        requires { issued.dev < 16 }
        ensures { result ≡ may_go_of ready faulty self.now (with_flags issued []) }
    {
        !issued.sent
            && !has_bit(u32::from(faulty), issued.dev)
            && (issued.work.kind.is_control()
                || self.may_take(issued.dev, ready) && self.may_begin(issued))
    }

    /// Whether the command of a slot may go out next.
    fn is_next(&self, slot: u8, ready: u16, faulty: u16) -> bool
        requires { slot < 32 }
        ensures { result ≡ holds (may_go_of ready faulty self.now) (issue_at self.now slot) }
    {
        match self.slots.at(slot).issued() {
            Some(issued) => self.may_go(issued, ready, faulty),
            None => false,
        }
    }

    /// The lowest slot whose command may go out. The command was not sent, and its device is not in `faulty`.
    /// It is a Control, or its device is in `ready` and none of the device's slots waits for an answer; READ
    /// and WRITE DMA also wait until no queued command is outstanding. Both arguments are masks of devices.
    pub fn next_command(&self, ready: u16, faulty: u16) -> Option<u8>
        ensures value { result ≡ next_slot ready faulty self.now }
        ensures may_be_sent { IfSome result (λ slot. (slot < 32) × MayBeSent self.now slot) }
    {
        let mut rest = self.slots.unsent();
        'walk: while let Some(slot) = lowest_bit(rest) {
            if self.is_next(slot, ready, faulty) {
                return Some(slot);
            }
            rest = without(rest, slot);
        }
        None
    }

    /// Whether the command of a slot may go out. [`next_command`](SlotTable::next_command) answers the lowest for which it may.
    pub fn may_send(&self, slot: u8, ready: u16, faulty: u16) -> bool
        requires { slot < 32 }
        ensures { result ≡ holds (may_go_of ready faulty self.now) (issue_at self.now slot) }
    {
        self.is_next(slot, ready, faulty)
    }

    /// Whether a command of a device other than this one was sent and is not done.
    pub fn is_sent_beside(&self, dev: u8) -> bool
        ensures { result ≡ any_sent_beside_of self.now dev }
    {
        self.slots.any_sent_beside(dev)
    }

    /// The slot of a device whose command was sent and is not answered.
    pub fn waiting(&self, dev: u8) -> Option<u8>
        requires { dev < 16 }
        ensures value { result ≡ waiting (slots_of dev self.now) }
        ensures below { IfSome result (λ slot. slot < 32) }
    {
        self.slots.waiting(dev)
    }
}

// Whether data of the context goes to the device next.
fn is_due(context: Option<Context>) -> bool
    ensures { result ≡ is_some (payload context) }
{
    match context {
        Some(context) => context.activated,
        None => false,
    }
}

// The context, unless its slot is one of these.
fn context_left(context: Option<Context>, mask: u32) -> Option<Context>
    requires { MatchOption context (Unit {0}) (λ c. c.slot < 32) }
    ensures { result ≡ context_unless (has_bit_of mask) context }
{
    match context {
        Some(context) if has_bit(mask, context.slot) => None,
        other => other,
    }
}

// The context, unless its slot is this one.
fn context_without(context: Option<Context>, slot: u8) -> Option<Context>
    ensures { result ≡ context_unless (is_slot slot) context }
{
    match context {
        Some(context) if context.slot == slot => None,
        other => other,
    }
}
