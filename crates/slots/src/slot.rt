//! One command slot.

ghost use Rattle.std.specs.Prelude.{◌≡◌, ◌+◌, ◌/◌, ◌%◌, ◌≤◌, ◌<◌, Some, None, [], false, true, not, ◌&&◌, length, IfSome, IsSome, MatchOption};
ghost use Rattle.std.specs.Option.{ForSome, option_map};
ghost use Rattle.slots.specs.Bytes.{stretches_of, with_bytes};
ghost use Rattle.slots.specs.Tested.{has_context as has_context_of, is_moving as is_moving_of, is_open as is_open_of, is_proper as is_proper_issue};
ghost use Rattle.slots.specs.Work.{IsWork};
ghost use Rattle.slots.specs.Commands.{IsSlotAnswer, answer_for as answer_for_issue, answered_issue, is_any, is_sent_beside as is_sent_beside_issue, is_unanswered as is_unanswered_issue, sent_issue};
ghost use Rattle.slots.specs.Data.{moved_over};
ghost use Rattle.slots.specs.Issued.{issued_of, with_flags};
ghost use Rattle.slots.specs.Setup.{came as came_in, is_outstanding as is_outstanding_issue, long_fault as long_fault_of, out_fault as out_fault_of, pio_fault as pio_fault_of, setup_fault as setup_fault_of, transfer_fault as transfer_fault_of};
ghost use Rattle.slots.specs.Slots.{holds, is_done_issue, is_out_issue, is_queued_issue, is_short_issue, is_sent_pio as is_sent_pio_issue, is_unsent as is_unsent_issue, is_waiting as is_waiting_issue, is_whole_issue, match_some, new_issue, owned_by};

mod saved;

use crate::answer::{Answered, SetupError};
use crate::moved::Moved;
use crate::table::Context;
use crate::work::Work;
use std::marker::Model;

/// What is issued in a slot, without its bytes.
#[derive(Clone, Copy)]
pub(crate) struct Issued {
    pub(crate) dev: u8,
    pub(crate) work: Work,
    pub(crate) sent: bool,
    pub(crate) answered: bool,
}

/// What is issued in a slot, and which of its bytes were transferred.
#[derive(Drop)]
pub(crate) struct Slot {
    issued: Option<Issued>,
    moved: Moved,
}

impl Model for Slot {
    ghost use Rattle.std.specs.Prelude.{Option};
    ghost use Rattle.slots.specs.Slots.{Issue};

    ghost Value = { Option Issue };

    ghost use Rattle.slots.specs.Issued.{issue_in, HasRoom};

    ghost view = { λ s. issue_in s.issued s.moved };

    ghost invariant = { λ s. HasRoom s.issued s.moved };
}

impl Default for Slot {
    ghost use Rattle.std.specs.Prelude.{None, ◌≡◌};

    ghost is_default = { λ s. s ≡ None };

    fn default() -> Self {
        Slot::new()
    }
}

impl Slot {
    /// A free slot.
    pub(crate) fn new() -> Self
        ensures { result ≡ None }
    {
        Slot {
            issued: None,
            moved: Moved::new(0),
        }
    }

    pub(crate) fn issued(&self) -> Option<Issued>
        ensures { result ≡ option_map issued_of self.now }
    {
        self.issued
    }

    /// What is issued, if it is the device's.
    pub(crate) fn issued_by(&self, dev: u8) -> Option<Issued>
        ensures { result ≡ option_map issued_of (owned_by dev self.now) }
    {
        self.issued.filter(|issued| issued.dev == dev)
    }

    pub(crate) fn start(&mut self, dev: u8, work: Work)
        requires { IsWork work }
        ensures { self.new ≡ Some (new_issue dev work) }
    {
        *self = Slot {
            issued: Some(Issued {
                dev,
                work,
                sent: false,
                answered: false,
            }),
            moved: Moved::new(work.len),
        };
    }

    pub(crate) fn clear(&mut self)
        ensures { self.new ≡ None }
    {
        self.issued = None;
    }

    pub(crate) fn mark_sent(&mut self)
        ensures { self.new ≡ option_map sent_issue self.old }
    {
        if let Some(issued) = self.issued {
            self.issued = Some(Issued {
                sent: true,
                ..issued
            });
        }
    }

    pub(crate) fn mark_answered(&mut self)
        ensures { self.new ≡ option_map answered_issue self.old }
    {
        if let Some(issued) = self.issued {
            self.issued = Some(Issued {
                answered: true,
                ..issued
            });
        }
    }

    /// Whether what is issued keeps the rules that no other slot bears on.
    pub(crate) fn is_proper(&self) -> bool
        ensures { result ≡ match_some self.now true is_proper_issue }
    {
        match self.issued {
            Some(issued) => {
                issued.dev < 16
                    && (!issued.answered || issued.work.kind.is_queued() && issued.sent)
                    && (!issued.sent || !issued.work.kind.is_control())
                    && (issued.sent || self.moved.stretches() == 0)
            }
            None => true,
        }
    }

    /// Whether this is what can be left of a setup of the device for this slot.
    pub(crate) fn has_context(&self, dev: u8, context: Context) -> bool
        ensures { result ≡ match_some self.now false (has_context_of dev context) }
    {
        match self.issued {
            Some(issued) => {
                issued.dev == dev
                    && is_open(issued, &self.moved, context)
                    && is_moving(issued, context)
            }
            None => false,
        }
    }

    /// Adds these bytes to those that were transferred.
    #[tactic(auto, using(crate::proofs::ByteLemmas::length_with_bytes))]
    pub(crate) fn add(&mut self, offset: u32, count: u32)
        requires within { ForSome self.old (λ issue. offset + count ≤ issue.work.len) }
        requires some { IsSome self.old }
        requires offset { offset % 4 ≡ 0 }
        requires count { count % 4 ≡ 0 }
        requires few { ForSome self.old (λ issue.
            stretches_of (with_bytes issue.over offset count) issue.work.len ≤ 64) }
        ensures { self.new ≡ option_map (moved_over offset count) self.old }
    {
        self.moved.add(offset, count);
    }

    /// Whether a command of the device was sent and is not answered.
    pub(crate) fn is_waiting(&self, dev: u8) -> bool
        ensures { result ≡ holds is_waiting_issue (owned_by dev self.now) }
    {
        match self.issued_by(dev) {
            Some(issued) => issued.sent && !issued.answered,
            None => false,
        }
    }

    /// Whether a command of a device other than this one was sent and is not done.
    pub(crate) fn is_sent_beside(&self, dev: u8) -> bool
        ensures { result ≡ holds (is_sent_beside_issue dev) self.now }
    {
        match self.issued {
            Some(issued) => issued.sent && issued.dev != dev,
            None => false,
        }
    }

    /// Whether a PIO data-in of the device was sent.
    pub(crate) fn is_sent_pio(&self, dev: u8) -> bool
        ensures { result ≡ holds is_sent_pio_issue (owned_by dev self.now) }
    {
        match self.issued_by(dev) {
            Some(issued) => issued.sent && issued.work.kind.is_pio(),
            None => false,
        }
    }

    /// Whether a queued command of the device was answered and has not ended.
    pub(crate) fn is_outstanding(&self, dev: u8) -> bool
        ensures { result ≡ holds is_outstanding_issue (owned_by dev self.now) }
    {
        match self.issued_by(dev) {
            Some(issued) => issued.work.kind.is_queued() && issued.answered,
            None => false,
        }
    }

    /// Whether a PIO data-out is issued.
    pub(crate) fn is_out(&self) -> bool
        ensures { result ≡ holds is_out_issue self.now }
    {
        match self.issued {
            Some(issued) => issued.work.kind.is_out(),
            None => false,
        }
    }

    /// Whether a queued command of the device is issued.
    fn is_queued_of(&self, dev: u8) -> bool
        ensures { result ≡ holds is_queued_issue (owned_by dev self.now) }
    {
        match self.issued_by(dev) {
            Some(issued) => issued.work.kind.is_queued(),
            None => false,
        }
    }

    /// Whether a queued command is issued.
    pub(crate) fn is_queued(&self) -> bool
        ensures { result ≡ holds is_queued_issue self.now }
    {
        match self.issued {
            Some(issued) => issued.work.kind.is_queued(),
            None => false,
        }
    }

    /// Whether a command is issued.
    pub(crate) fn is_issued(&self) -> bool
        ensures { result ≡ holds is_any self.now }
    {
        self.issued.is_some()
    }

    /// Whether a command is issued and was not sent.
    pub(crate) fn is_unsent(&self) -> bool
        ensures { result ≡ holds is_unsent_issue self.now }
    {
        match self.issued {
            Some(issued) => !issued.sent,
            None => false,
        }
    }

    /// Whether a command is issued and not answered.
    pub(crate) fn is_unanswered(&self) -> bool
        ensures { result ≡ holds is_unanswered_issue self.now }
    {
        match self.issued {
            Some(issued) => !issued.answered,
            None => false,
        }
    }

    /// Whether a command is issued and all its bytes were transferred.
    pub(crate) fn is_whole(&self) -> bool
        ensures { result ≡ holds is_whole_issue self.now }
    {
        self.issued.is_some() && self.moved.is_whole()
    }

    /// Whether a queued command of the device is issued, with all bytes transferred.
    pub(crate) fn is_done(&self, dev: u8) -> bool
        ensures { result ≡ holds is_done_issue (owned_by dev self.now) }
    {
        self.is_queued_of(dev) && self.is_whole()
    }

    /// Whether a queued command of the device is issued, with bytes missing.
    pub(crate) fn is_short(&self, dev: u8) -> bool
        ensures { result ≡ holds is_short_issue (owned_by dev self.now) }
    {
        self.is_queued_of(dev) && !self.is_whole()
    }

    /// What an answer of its device is for, if this slot, number `slot`, waits for one.
    pub(crate) fn answer_for(&self, slot: u8) -> Answered
        requires { slot < 32 }
        ensures value { result ≡ match_some self.now Answered.Nobody (answer_for_issue slot) }
        ensures below { IsSlotAnswer result }
    {
        match self.issued {
            None => Answered::Nobody,
            Some(issued) if issued.work.kind.is_queued() => Answered::Queued(slot),
            Some(issued) if issued.work.kind.needs_all() && !self.is_whole() => {
                Answered::Short(slot)
            }
            Some(_) => Answered::Done(slot),
        }
    }

    /// How many bytes were transferred.
    pub(crate) fn came(&self) -> u32
        ensures { result ≡ match_some self.now 0 came_in }
    {
        match self.issued {
            Some(_) => self.moved.came(),
            None => 0,
        }
    }

    /// Why a DMA Setup of the device for this slot is refused.
    pub(crate) fn setup_fault(
        &self,
        dev: u8,
        offset: u32,
        count: u32,
        to_host: bool,
    ) -> Option<SetupError>
        ensures { result ≡ setup_fault_of (owned_by dev self.now) offset count to_host }
    {
        match self.issued_by(dev) {
            Some(issued) if issued.work.kind.is_queued() && issued.answered => {
                transfer_fault(issued, &self.moved, offset, count, to_host)
            }
            _ => Some(SetupError::NotOutstanding),
        }
    }

    /// Why a PIO Setup for this slot is refused.
    pub(crate) fn pio_fault(&self, count: u32, to_host: bool) -> Option<SetupError>
        ensures { result ≡ pio_fault_of self.now count to_host }
    {
        match self.issued {
            Some(issued) => transfer_fault(issued, &self.moved, self.moved.came(), count, to_host),
            None => Some(SetupError::NotOutstanding),
        }
    }

    /// Why a PIO Setup for the PIO data-out in this slot is refused.
    pub(crate) fn out_fault(&self, count: u32, to_host: bool) -> Option<SetupError>
        ensures { result ≡ match_some self.now (Some SetupError.NotOutstanding) (out_fault_of count to_host) }
    {
        match self.issued {
            Some(issued) => {
                let first = transfer_fault(issued, &self.moved, self.moved.came(), count, to_host);
                first.or(long_fault(count))
            }
            None => Some(SetupError::NotOutstanding),
        }
    }
}

// A block towards a device is one Data FIS.
fn long_fault(count: u32) -> Option<SetupError>
    ensures { result ≡ long_fault_of count }
{
    (count > 8192).then_some(SetupError::BadCount)
}

// Why a setup of these bytes is refused.
fn transfer_fault(
    issued: Issued,
    moved: &Moved,
    offset: u32,
    count: u32,
    to_host: bool,
) -> Option<SetupError>
    requires room { length moved.now ≡ issued.work.len / 4 }
    requires dwords { issued.work.len % 4 ≡ 0 }
    ensures { result ≡ transfer_fault_of (with_flags issued moved.now) offset count to_host }
{
    if issued.work.kind.is_read() != to_host {
        return Some(SetupError::WrongWay);
    }
    if u64::from(issued.work.len) < u64::from(offset) + u64::from(count) {
        return Some(SetupError::Overflow);
    }
    if moved.any_over(offset, count) {
        return Some(SetupError::Twice);
    }
    if moved.stretches() >= 64 && !moved.ends_at(offset) {
        return Some(SetupError::Fragments);
    }
    if count == 0 || offset % 4 != 0 || count % 4 != 0 {
        return Some(SetupError::BadCount);
    }
    None
}

// Whether the bytes of a context are whole dwords of the command, none of which was transferred, with room among the stretches.
fn is_open(issued: Issued, moved: &Moved, context: Context) -> bool
    requires room { length moved.now ≡ issued.work.len / 4 }
    requires dwords { issued.work.len % 4 ≡ 0 }
    ensures { result ≡ is_open_of context (with_flags issued moved.now) }
{
    u64::from(context.next) + u64::from(context.left) <= u64::from(issued.work.len)
        && context.next % 4 == 0
        && context.left % 4 == 0
        && !moved.any_over(context.next, context.left)
        && (context.left == 0 || !(moved.stretches() >= 64 && !moved.ends_at(context.next)))
}

// Whether the command moves bytes the way of the context.
fn is_moving(issued: Issued, context: Context) -> bool
    ensures { result ≡ is_moving_of context (with_flags issued []) }
{
    let kind = issued.work.kind;
    kind.is_read() == context.to_host
        && (kind.is_queued() && issued.answered || issued.sent && kind.needs_all())
        && (!context.activated || !context.to_host && context.left > 0)
}
