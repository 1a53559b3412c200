//! One slot: a request that was taken and is not polled yet, or none.

ghost use Rattle.std.specs.Prelude.{◌≡◌, ◌≤◌, ◌<◌, Some, None, if◌then◌else◌, length, take};
ghost use Rattle.std.specs.Option.{option_map};
ghost use Rattle.hba_driver.specs.Drivers.{has_ended as has_ended_head, holds, is_aside as is_aside_head, is_issued as is_issued_head, is_read as is_read_of, rephased, waits as waits_head};
ghost use Rattle.hba_driver.specs.Orders.{is_flush as is_flush_of, is_queued as is_queued_of, request_fields, work_fields};
ghost use Rattle.hba_driver.specs.Requests.{blocks as blocks_of, conflicts as conflicts_of, is_among as is_among_of, is_free as is_free_entry, is_used_by, share_bytes as share_bytes_of};
ghost use Rattle.hba_driver.specs.Submits.{completed, completion_at, is_open_of_other as is_open_of_other_head};
ghost use Rattle.hba_driver.specs.Ticks.{is_aside_of as is_aside_of_head, is_done as is_done_head, is_in as is_in_group, is_named, is_open_of as is_open_of_head};
ghost use Rattle.hba_driver.specs.Turns.{is_issued_of_other as is_issued_of_other_head, issue_of, may_issue as may_issue_entry};

use crate::order::command;
use crate::plan::Plan;
use crate::request::{Completion, Outcome, Ticket, Work};
use crate::sight::{ErrorLog, has_bit};
use crate::span::{Buffers, NO_SPAN, Span};
use crate::turn::Act;
use fis_view::H2dFields;
use host_memory::Prd;
use std::marker::Model;

/// How far a request is.
#[derive(Clone, Copy, Debug, PartialEq, Eq)]
pub(crate) enum Phase {
    /// It waits for its issue.
    Waits,
    /// Its command is issued.
    Issued,
    /// It was set aside until its device has recovered.
    Aside,
    /// It has ended in this way, and waits for its poll.
    Ended(Outcome),
}

/// A group of requests.
#[derive(Clone, Copy, Debug, PartialEq, Eq)]
pub(crate) enum Group {
    /// Those that are issued and whose bits are not among these.
    DoneOf(u32),
    /// Those that have not ended.
    Open,
    /// Those of a device that have not ended.
    OpenOf(u8),
    /// Those of a device that were set aside.
    AsideOf(u8),
    /// The one among those set aside of a device that this log names.
    NamedBy(ErrorLog, u8),
}

/// What is known of a request, apart from where its bytes are.
#[derive(Clone, Copy, Debug, PartialEq, Eq)]
pub(crate) struct Head {
    pub(crate) ticket: u32,
    pub(crate) dev: u8,
    pub(crate) work: Work,
    pub(crate) lba: u64,
    pub(crate) sectors: u16,
    pub(crate) phase: Phase,
}

/// The most entries of a request.
const MAX_PRDS: usize = 248;
/// What is in the places without an entry.
const NO_PRD: Prd = Prd {
    address: 0,
    bytes: 0,
};

/// A request with the entries that say where its bytes are, or none.
#[derive(Drop)]
pub(crate) struct Slot {
    head: Option<Head>,
    prds: [Prd; 248],
    count: usize,
    /// A span of the entries.
    span: Span,
}

impl Model for Slot {
    ghost use Rattle.std.specs.Prelude.{Option, take, ◌≤◌};
    ghost use Rattle.hba_driver.specs.Drivers.{Entry, entry_of};
    ghost use Rattle.hba_driver.specs.Spans.{Spans};

    ghost Value = { Option Entry };

    ghost view = { λ s. entry_of s.head (take s.count s.prds) };

    ghost invariant = { λ s. (s.count ≤ 248) × Spans s.span (take s.count s.prds) };
}

impl Default for Slot {
    ghost use Rattle.std.specs.Prelude.{None, ◌≡◌};

    ghost is_default = { λ s. s ≡ None };

    fn default() -> Self {
        Slot::new()
    }
}

impl Work {
    /// Whether the command is queued.
    pub(crate) fn is_queued(self) -> bool
        ensures { result ≡ is_queued_of self }
    {
        match self {
            Work::Read | Work::Write => true,
            Work::Flush => false,
        }
    }

    /// Whether it is a Flush.
    pub(crate) fn is_flush(self) -> bool
        ensures { result ≡ is_flush_of self }
    {
        match self {
            Work::Flush => true,
            Work::Read | Work::Write => false,
        }
    }

    /// Whether it writes to memory.
    pub(crate) fn is_read(self) -> bool
        ensures { result ≡ is_read_of self }
    {
        match self {
            Work::Read => true,
            Work::Write | Work::Flush => false,
        }
    }
}

impl Head {
    // Whether its command is issued and the slot's bit is not among these.
    fn is_done(self, issued: u32, slot: u8) -> bool
        requires { slot < 32 }
        ensures { result ≡ is_done_head issued slot self }
    {
        self.is_issued() && !has_bit(issued, slot)
    }

    // Whether it belongs to the device and has not ended.
    fn is_open_of(self, dev: u8, slot: u8) -> bool
        ensures { result ≡ is_open_of_head dev slot self }
    {
        self.dev == dev && !self.has_ended()
    }

    // Whether it belongs to the device and was set aside.
    fn is_aside_of(self, dev: u8, slot: u8) -> bool
        ensures { result ≡ is_aside_of_head dev slot self }
    {
        self.dev == dev && self.is_aside()
    }

    // Whether a log names it: by its tag or, if no queued command failed, as a Flush.
    fn is_named(self, log: ErrorLog, slot: u8) -> bool
        ensures { result ≡ is_named log slot self }
    {
        if log.unqueued {
            self.work.is_flush()
        } else {
            slot == log.tag
        }
    }

    /// Whether it is in this group.
    pub(crate) fn is_in(self, group: Group, slot: u8) -> bool
        requires { slot < 32 }
        ensures { result ≡ is_in_group group slot self }
    {
        match group {
            Group::DoneOf(issued) => self.is_done(issued, slot),
            Group::Open => !self.has_ended(),
            Group::OpenOf(dev) => self.is_open_of(dev, slot),
            Group::AsideOf(dev) => self.is_aside_of(dev, slot),
            Group::NamedBy(log, dev) => self.is_aside_of(dev, slot) && self.is_named(log, slot),
        }
    }

    /// Whether it waits for its issue.
    pub(crate) fn waits(self) -> bool
        ensures { result ≡ waits_head self }
    {
        match self.phase {
            Phase::Waits => true,
            Phase::Issued | Phase::Aside | Phase::Ended(_) => false,
        }
    }

    /// Whether its command is issued.
    pub(crate) fn is_issued(self) -> bool
        ensures { result ≡ is_issued_head self }
    {
        match self.phase {
            Phase::Issued => true,
            Phase::Waits | Phase::Aside | Phase::Ended(_) => false,
        }
    }

    /// Whether it was set aside.
    pub(crate) fn is_aside(self) -> bool
        ensures { result ≡ is_aside_head self }
    {
        match self.phase {
            Phase::Aside => true,
            Phase::Waits | Phase::Issued | Phase::Ended(_) => false,
        }
    }

    /// Whether it has ended.
    pub(crate) fn has_ended(self) -> bool
        ensures { result ≡ has_ended_head self }
    {
        match self.phase {
            Phase::Ended(_) => true,
            Phase::Waits | Phase::Issued | Phase::Aside => false,
        }
    }

    /// Its command in this slot.
    #[tactic(auto, unfolding(crate::specs::Orders::request_fields))]
    pub(crate) fn fields(self, slot: u8) -> H2dFields
        requires { slot < 32 }
        ensures { result ≡ request_fields slot self }
    {
        let tag = 8 * u16::from(slot);
        match self.work {
            Work::Read => command(self.dev, 0x60, self.sectors, self.lba, 0x40, tag),
            Work::Write => command(self.dev, 0x61, self.sectors, self.lba, 0x40, tag),
            Work::Flush => command(self.dev, 0xEA, 0, 0, 0, 0),
        }
    }

    /// How it ended, if it has.
    fn completed(self, slot: u8) -> Option<Completion>
        ensures { result ≡ completed slot self self.phase }
    {
        match self.phase {
            Phase::Ended(outcome) => Some(Completion {
                ticket: Ticket(self.ticket),
                slot,
                outcome,
            }),
            Phase::Waits | Phase::Issued | Phase::Aside => None,
        }
    }
}

// Whether `len` bytes from one address on and `bytes` bytes from another share a byte.
pub(crate) fn share_bytes(at: u32, len: u32, other: u32, bytes: u32) -> bool
    ensures { result ≡ share_bytes_of at len other bytes }
{
    u64::from(at) < u64::from(other) + u64::from(bytes)
        && u64::from(other) < u64::from(at) + u64::from(len)
}

fn is_among(at: u32, len: u32, prds: &[Prd]) -> bool
    ensures { result ≡ is_among_of at len prds.now }
{
    prds.iter()
        .any(|prd| share_bytes(at, len, prd.address, prd.bytes))
}

// These entries, followed by none.
fn filled(prds: &[Prd]) -> [Prd; 248]
    requires { length prds.now ≤ 248 }
    ensures { take (length prds.now) result ≡ prds.now }
{
    let mut room = [NO_PRD; MAX_PRDS];
    room[..prds.len()].copy_from_slice(prds);
    room
}

impl Slot {
    ghost use Rattle.hba_driver.specs.Drivers.{Entry};

    /// A slot without a request.
    pub(crate) fn new() -> Self
        ensures { result ≡ None }
    {
        Slot {
            head: None,
            prds: [NO_PRD; MAX_PRDS],
            count: 0,
            span: NO_SPAN,
        }
    }

    /// Puts a request into the slot.
    pub(crate) fn fill(&mut self, head: Head, prds: &[Prd])
        requires { length prds.now ≤ 248 }
        ensures { self.new ≡ Some (record { head = head; prds = prds.now }) }
    {
        *self = Slot {
            head: Some(head),
            prds: filled(prds),
            count: prds.len(),
            span: Span::of(prds),
        };
    }

    /// Takes the request out of the slot.
    pub(crate) fn clear(&mut self)
        ensures { self.new ≡ None }
    {
        self.head = None;
    }

    pub(crate) fn is_free(&self) -> bool
        ensures { result ≡ is_free_entry self.now }
    {
        self.head.is_none()
    }

    /// Whether its request is in this group.
    pub(crate) fn is_in(&self, group: Group, slot: u8) -> bool
        requires { slot < 32 }
        ensures { result ≡ holds (is_in_group group slot) self.now }
    {
        match self.head {
            Some(head) => head.is_in(group, slot),
            None => false,
        }
    }

    /// Whether its request waits for its issue.
    pub(crate) fn waits(&self) -> bool
        ensures { result ≡ holds waits_head self.now }
    {
        match self.head {
            Some(head) => head.waits(),
            None => false,
        }
    }

    /// Whether its request is issued.
    pub(crate) fn is_issued(&self) -> bool
        ensures { result ≡ holds is_issued_head self.now }
    {
        match self.head {
            Some(head) => head.is_issued(),
            None => false,
        }
    }

    pub(crate) fn has_ended(&self) -> bool
        ensures { result ≡ holds has_ended_head self.now }
    {
        match self.head {
            Some(head) => head.has_ended(),
            None => false,
        }
    }

    /// Whether its request is of another device and has not ended.
    pub(crate) fn is_open_of_other(&self, dev: u8) -> bool
        ensures { result ≡ holds (is_open_of_other_head dev) self.now }
    {
        match self.head {
            Some(head) => head.dev != dev && !head.has_ended(),
            None => false,
        }
    }

    /// Whether its request is of another device and issued.
    pub(crate) fn is_issued_of_other(&self, dev: u8) -> bool
        ensures { result ≡ holds (is_issued_of_other_head dev) self.now }
    {
        match self.head {
            Some(head) => head.dev != dev && head.is_issued(),
            None => false,
        }
    }

    /// Whether its request prevents this work from being taken for the device.
    pub(crate) fn blocks(&self, dev: u8, work: Work) -> bool
        ensures { result ≡ holds (blocks_of dev work) self.now }
    {
        match self.head {
            Some(head) => {
                head.dev == dev && !head.has_ended() && (work.is_flush() || head.work.is_flush())
            }
            None => false,
        }
    }

    /// Whether its request has one of these bytes, and one of the two reads.
    pub(crate) fn conflicts(&self, work: Work, buffers: &Buffers<'_>) -> bool
        ensures { result ≡ conflicts_of work buffers.now self.now }
    {
        match self.head {
            Some(head) => {
                (work.is_read() || head.work.is_read())
                    && buffers.share_with(&self.prds[..self.count], self.span)
            }
            None => false,
        }
    }

    /// Whether its request has one of these bytes.
    pub(crate) fn is_used(&self, at: u32, len: u32) -> bool
        ensures { result ≡ is_used_by at len self.now }
    {
        match self.head {
            Some(_) => {
                self.span.may_hold(at, len) && is_among(at, len, &self.prds[..self.count])
            }
            None => false,
        }
    }

    /// How its request ended, if it has.
    pub(crate) fn completion(&self, slot: u8) -> Option<Completion>
        ensures { result ≡ completion_at slot self.now }
    {
        match self.head {
            Some(head) => head.completed(slot),
            None => None,
        }
    }

    /// Sets the phase of its request.
    pub(crate) fn set_phase(&mut self, phase: Phase)
        ensures { self.new ≡ option_map (rephased phase) self.old }
    {
        if let Some(head) = self.head {
            self.head = Some(Head { phase, ..head });
        }
    }

    /// Sets the phase of its request, if `comes`.
    pub(crate) fn set_phase_if(&mut self, comes: bool, phase: Phase)
        ensures { self.new ≡ (if comes then option_map (rephased phase) self.old else self.old) }
    {
        if comes {
            self.set_phase(phase);
        }
    }

    /// Whether its request waits, and its device is ready.
    pub(crate) fn may_issue(&self, plan: &Plan) -> bool
        ensures { result ≡ may_issue_entry plan.now self.now }
    {
        match self.head {
            Some(head) => head.waits() && plan.device(head.dev).is_ready(),
            None => false,
        }
    }

    /// The issue of its request.
    pub(crate) fn issue(&self, slot: u8) -> Option<Act>
        ensures { result ≡ issue_of slot self.now }
    {
        match self.head {
            Some(head) => Some(Act::Issues(slot, head.dev, head.work.is_queued())),
            None => None,
        }
    }
}
