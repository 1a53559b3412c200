//! Which request stands in which slot of the driver.

use crate::reason::{Fault, Reason};
use hba_driver::Work;
use std::fmt;
use trace_text::{ErrorLog, bit_of};

/// What a request asks of its device.
#[derive(Clone, Copy)]
pub struct Asked {
    pub device: u8,
    pub work: Work,
    pub lba: u64,
    pub sectors: u16,
}

impl fmt::Display for Asked {
    fn fmt<W: fmt::Write>(&self, f: &mut fmt::Formatter<W>) -> fmt::Result {
        let Asked { lba, sectors, .. } = *self;
        match self.work {
            Work::Read => write!(f, "read of sector {lba}, {sectors} in all"),
            Work::Write => write!(f, "write of sector {lba}, {sectors} in all"),
            Work::Flush => f.write_str("flush"),
        }
    }
}

/// A request in its slot.
#[derive(Clone, Copy)]
struct Held {
    ticket: u32,
    asked: Asked,
    /// Whether its device has done it.
    is_done: bool,
    /// Why it fails or is given up, as far as that is known.
    reason: Option<Reason>,
}

/// The requests that are not polled yet, by their slots.
#[derive(Clone, Copy)]
pub struct Tickets {
    by_slot: [Option<Held>; 32],
    /// The last fault of each device.
    faults: [Option<Fault>; 16],
}

impl Tickets {
    /// No request.
    pub fn new() -> Tickets {
        Tickets {
            by_slot: [None; 32],
            faults: [None; 16],
        }
    }

    /// A request was taken: it stands in the lowest free slot. Its device may have a fault that the driver has not
    /// seen yet.
    pub fn take(&mut self, ticket: u32, asked: Asked, is_faulty: bool) -> Option<u8> {
        let slot = self.by_slot.iter().position(|held| held.is_none())?;
        let reason = match self.fault_of(asked.device) {
            Some(fault) if is_faulty => Some(Reason::Reset(fault)),
            _ => None,
        };
        if let Some(place) = self.by_slot.get_mut(slot) {
            *place = Some(Held {
                ticket,
                asked,
                is_done: false,
                reason,
            });
        }
        Some(slot as u8)
    }

    /// A request was polled: its slot is free.
    pub fn free(&mut self, slot: u8) {
        self.set(slot, None);
    }

    /// The slot holds this from now on.
    fn set(&mut self, slot: u8, held: Option<Held>) {
        if let Some(place) = self.by_slot.get_mut(usize::from(slot)) {
            *place = held;
        }
    }

    /// The last fault of a device.
    fn fault_of(&self, device: u8) -> Option<Fault> {
        match self.faults.get(usize::from(device)) {
            Some(fault) => *fault,
            None => None,
        }
    }

    /// The requests of these slots were done.
    pub fn done(&mut self, mask: u32) {
        for slot in 0..32_u8 {
            if let Some(held) = self.held(slot) {
                let is_done = held.is_done || mask & bit_of(slot) != 0;
                self.set(slot, Some(Held { is_done, ..held }));
            }
        }
    }

    /// The slots of the requests of a device that are not done.
    pub fn waiting(&self, device: u8) -> u32 {
        let mut mask = 0u32;
        for slot in 0..32_u8 {
            match self.held(slot) {
                Some(held) if held.asked.device == device && !held.is_done => {
                    mask |= bit_of(slot);
                }
                _ => {}
            }
        }
        mask
    }

    /// A device has a fault: its requests that are not done, and that no earlier fault concerns, fail or are given up
    /// because of it.
    pub fn fault(&mut self, device: u8, fault: Fault) {
        if let Some(last) = self.faults.get_mut(usize::from(device)) {
            *last = Some(fault);
        }
        for slot in 0..32_u8 {
            match self.held(slot) {
                Some(held)
                    if held.asked.device == device && !held.is_done && held.reason.is_none() => {
                    let reason = Some(Reason::Reset(fault));
                    self.set(slot, Some(Held { reason, ..held }));
                }
                _ => {}
            }
        }
    }

    /// The log of a device was read: it names one of the requests that its last fault concerns, and the others are
    /// given up because of that one.
    pub fn log(&mut self, device: u8, log: ErrorLog) {
        let (Some(tag), Some(last), true) = (log.tag, self.fault_of(device), log.is_whole) else {
            return;
        };
        let Some(ticket) = self.of(tag) else {
            return;
        };
        for slot in 0..32_u8 {
            if self.concerns(slot, device, last) {
                let reason = if slot == tag {
                    Reason::Named(log.lba)
                } else {
                    Reason::Other(ticket)
                };
                self.give(slot, reason);
            }
        }
    }

    /// Whether this fault of a device is why the request of a slot fails or is given up.
    fn concerns(&self, slot: u8, device: u8, fault: Fault) -> bool {
        match self.held(slot) {
            Some(
                Held {
                    asked,
                    reason: Some(Reason::Reset(first)),
                    ..
                },
            ) => asked.device == device && first.step == fault.step,
            _ => false,
        }
    }

    /// This is why the request of a slot fails or is given up.
    fn give(&mut self, slot: u8, reason: Reason) {
        if let Some(held) = self.held(slot) {
            let reason = Some(reason);
            self.set(slot, Some(Held { reason, ..held }));
        }
    }

    /// The request in a slot, if it has one.
    fn held(&self, slot: u8) -> Option<Held> {
        match self.by_slot.get(usize::from(slot)) {
            Some(held) => *held,
            None => None,
        }
    }

    /// The ticket of a slot, if it has one.
    pub fn of(&self, slot: u8) -> Option<u32> {
        Some(self.held(slot)?.ticket)
    }

    /// What the request of a slot asks, if it has one.
    pub fn asked(&self, slot: u8) -> Option<Asked> {
        Some(self.held(slot)?.asked)
    }

    /// Why the request of a slot fails or is given up, as far as that is known.
    pub fn reason(&self, slot: u8) -> Option<Reason> {
        self.held(slot)?.reason
    }
}

/// Slots as words, each with its ticket.
#[derive(Drop)]
pub struct SlotList<'a> {
    pub mask: u32,
    pub tickets: &'a Tickets,
}

impl fmt::Display for SlotList<'_> {
    fn fmt<W: fmt::Write>(&self, f: &mut fmt::Formatter<W>) -> fmt::Result {
        let mut between = "";
        for slot in 0..32_u8 {
            if self.mask & bit_of(slot) != 0 {
                write!(f, "{between}slot {slot}")?;
                write_ticket(self.tickets.of(slot), f)?;
                between = ", ";
            }
        }
        Ok(())
    }
}

/// Writes the ticket of a slot, if it has one.
fn write_ticket<W: fmt::Write>(ticket: Option<u32>, f: &mut fmt::Formatter<W>) -> fmt::Result {
    match ticket {
        Some(ticket) => write!(f, " ticket {ticket}"),
        None => Ok(()),
    }
}

/// Slots as words, each with its ticket and what that asks, where the device failed one of them.
#[derive(Drop)]
pub struct AskedList<'a> {
    pub mask: u32,
    pub tickets: &'a Tickets,
}

impl fmt::Display for AskedList<'_> {
    fn fmt<W: fmt::Write>(&self, f: &mut fmt::Formatter<W>) -> fmt::Result {
        let mut between = "";
        for slot in 0..32_u8 {
            match self.tickets.asked(slot) {
                Some(asked) if self.mask & bit_of(slot) != 0 => {
                    write!(f, "{between}slot {slot}")?;
                    write_ticket(self.tickets.of(slot), f)?;
                    write!(f, ": {asked}")?;
                    between = ", or ";
                }
                _ => {}
            }
        }
        Ok(())
    }
}

/// The slots of a mask with commas between them, in brackets; or the tickets of those slots that have
/// one.
#[derive(Drop)]
pub struct SlotArray<'a> {
    pub mask: u32,
    pub tickets: Option<&'a Tickets>,
}

impl fmt::Display for SlotArray<'_> {
    fn fmt<W: fmt::Write>(&self, f: &mut fmt::Formatter<W>) -> fmt::Result {
        let mut between = "[";
        for slot in 0..32_u8 {
            if let Some(number) = self.number_of(slot) {
                write!(f, "{between}{number}")?;
                between = ",";
            }
        }
        f.write_str(if between == "[" { "[]" } else { "]" })
    }
}

impl SlotArray<'_> {
    /// What stands for a slot, if anything does.
    fn number_of(&self, slot: u8) -> Option<u32> {
        if self.mask & bit_of(slot) == 0 {
            return None;
        }
        match self.tickets {
            None => Some(u32::from(slot)),
            Some(tickets) => tickets.of(slot),
        }
    }
}
