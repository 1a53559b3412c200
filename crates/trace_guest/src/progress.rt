//! How far the commands of a driver came, as far as a trace saw it.

use crate::event::Part;
use crate::open::{OpenSlot, Stage};
use port_errors::DeviceCause;
use trace_text::{Flow, Moving, Transfer, bit_of};

/// What a trace knows of a slot.
#[derive(Clone, Copy)]
pub struct SlotSeen {
    pub stage: Stage,
    /// How many parts of its command were read: its header, its FIS, its table.
    parts: u8,
    /// What PxFBS.DEV was as it was written to PxCI.
    pub named: u8,
    /// Whether PxSACT had it then.
    pub is_armed: bool,
    /// The first bytes of its command, once they were read.
    pub command: Option<[u8; 20]>,
    /// How many bytes the entries of its table have that were read.
    room: Option<u64>,
}

impl SlotSeen {
    /// The code of its command, once it was read.
    pub fn code(self) -> Option<u8> {
        let command = self.command?;
        Some(command[2])
    }
}

/// A slot of which nothing is known.
const UNSEEN: SlotSeen = SlotSeen {
    stage: Stage::Written,
    parts: 0,
    named: 0,
    is_armed: false,
    command: None,
    room: None,
};

/// What a trace knows of all slots and devices.
#[derive(Clone, Copy)]
pub struct Progress {
    slots: [SlotSeen; 32],
    /// The first fault of each device.
    firsts: [Option<DeviceCause>; 16],
    /// The fault of each device that was not cleared since.
    faults: [Option<DeviceCause>; 16],
    /// The slot for which the port does nothing until ST falls.
    failed: Option<u8>,
    /// By device: whether the header of its last command has C, so that hardware clears BSY once the FIS is gone. With
    /// command-based switching, all are device 0.
    clears: [bool; 16],
    /// How far the data of commands went.
    flow: Flow,
}

impl Progress {
    /// Nothing is known.
    pub fn new() -> Progress {
        Progress {
            slots: [UNSEEN; 32],
            firsts: [None; 16],
            faults: [None; 16],
            failed: None,
            clears: [false; 16],
            flow: Flow::new(),
        }
    }

    /// What is known of a slot.
    pub fn slot(&self, slot: u8) -> SlotSeen {
        match self.slots.get(usize::from(slot)) {
            Some(seen) => *seen,
            None => UNSEEN,
        }
    }

    fn slot_mut(&mut self, slot: u8) -> Option<&mut SlotSeen> {
        self.slots.get_mut(usize::from(slot))
    }

    /// These slots are written to PxCI, while PxFBS names this device and PxSACT has these slots.
    pub fn issue(&mut self, mask: u32, named: u8, armed: u32) {
        self.flow.issue(mask);
        for slot in 0..32_u8 {
            let bit = bit_of(slot);
            if mask & bit != 0 {
                if let Some(seen) = self.slot_mut(slot) {
                    *seen = SlotSeen {
                        stage: Stage::Written,
                        parts: 0,
                        named,
                        is_armed: armed & bit != 0,
                        command: None,
                        room: None,
                    };
                }
            }
        }
    }

    /// The part of the command of a slot that is read next: each is read once, and the table in pieces.
    pub fn part(&mut self, slot: u8) -> Part {
        let Some(seen) = self.slot_mut(slot) else {
            return Part::Header(slot);
        };
        let parts = seen.parts;
        seen.parts = parts.saturating_add(1);
        match parts {
            0 => Part::Header(slot),
            1 => Part::Fis(slot),
            _ => Part::Table(slot),
        }
    }

    /// The command of a slot is this one.
    pub fn read_command(&mut self, slot: u8, bytes: &[u8]) {
        let (Some(seen), Some(first)) = (self.slot_mut(slot), bytes.get(..20)) else {
            return;
        };
        if first.len() == 20 {
            let mut command = [0; 20];
            command.copy_from_slice(first);
            seen.command = Some(command);
        }
    }

    /// Entries of the table of a slot have so many bytes.
    pub fn read_table(&mut self, slot: u8, bytes: u64) {
        if let Some(seen) = self.slot_mut(slot) {
            seen.room = Some(seen.room.unwrap_or(0).saturating_add(bytes));
        }
    }

    /// How far the data of commands went.
    pub fn flow(&self) -> &Flow {
        &self.flow
    }

    /// The same, to note more.
    pub fn flow_mut(&mut self) -> &mut Flow {
        &mut self.flow
    }

    /// Of these slots those whose commands are for this device.
    pub fn out_of(&self, dev: u8, mask: u32) -> u32 {
        let mut out = 0u32;
        for slot in 0..32_u8 {
            let bit = bit_of(slot);
            if mask & bit != 0 && self.slot(slot).stage.port() == Some(dev) {
                out |= bit;
            }
        }
        out
    }

    /// The only one of these slots whose command was sent; None if there are more.
    pub fn only_sent(&self, mask: u32) -> Option<u8> {
        let mut only = None;
        for slot in 0..32_u8 {
            if mask & bit_of(slot) != 0 && self.slot(slot).stage.is_sent() {
                if only.is_some() {
                    return None;
                }
                only = Some(slot);
            }
        }
        only
    }

    /// The command in the lowest of these slots, if it moves bytes, or of those only one whose bytes did not all come.
    pub fn moving(&self, mask: u32, is_short: bool) -> Option<Moving> {
        for slot in 0..32_u8 {
            if mask & bit_of(slot) != 0 {
                let seen = self.slot(slot);
                let transfer = Transfer::of(&seen.command?)?;
                let came = self.flow.came(slot);
                if !is_short || came < transfer.bytes {
                    return Some(Moving {
                        slot,
                        transfer,
                        came,
                        room: seen.room,
                    });
                }
            }
        }
        None
    }

    /// The command of a slot came so far.
    pub fn reach(&mut self, slot: u8, stage: Stage) {
        if let Some(seen) = self.slot_mut(slot) {
            seen.stage = stage;
        }
    }

    /// The commands that were sent to this port came no further than this.
    pub fn lose(&mut self, port: u8, stage: Stage) {
        for seen in self.slots.iter_mut() {
            if seen.stage == Stage::Sent(port) {
                seen.stage = stage;
            }
        }
    }

    /// The header of a command for this device has C, or has not.
    pub fn read_header(&mut self, dev: Option<u8>, has_clear: bool) {
        if let Some(clears) = self.clears.get_mut(usize::from(dev.unwrap_or(0))) {
            *clears = has_clear;
        }
    }

    /// Whether a device may be busy by a command of its own: of one of these slots, or of one whose header had C. None is
    /// the device that is alone with command-based switching.
    pub fn may_be_busy(&self, dev: Option<u8>, issued: u32) -> bool {
        if self.clears.get(usize::from(dev.unwrap_or(0))) == Some(&true) {
            return true;
        }
        for slot in 0..32_u8 {
            let stage = self.slot(slot).stage;
            let is_its = dev.is_none() || stage.port() == dev;
            if issued & bit_of(slot) != 0 && stage.is_sent() && is_its {
                return true;
            }
        }
        false
    }

    /// The command of a slot is not taken, or its bytes are no memory.
    pub fn fail(&mut self, slot: u8) {
        self.failed = Some(slot);
    }

    /// ST falls, or the link is reset: no device is faulty any more.
    pub fn stop(&mut self) {
        self.failed = None;
        self.faults = [None; 16];
    }

    /// A device has a fault.
    pub fn fault(&mut self, dev: u8, cause: DeviceCause) {
        if let Some(fault) = self.faults.get_mut(usize::from(dev)) {
            *fault = Some(cause);
        }
        if let Some(first) = self.firsts.get_mut(usize::from(dev)) {
            *first = Some(first.unwrap_or(cause));
        }
    }

    /// PxFBS.DEC is written while PxFBS shows this device.
    pub fn clear(&mut self, dev: u8) {
        if let Some(fault) = self.faults.get_mut(usize::from(dev)) {
            *fault = None;
        }
    }

    /// The first fault of a device, if it had one.
    pub fn first_fault(&self, dev: u8) -> Option<DeviceCause> {
        match self.firsts.get(usize::from(dev)) {
            Some(first) => *first,
            None => None,
        }
    }

    /// The fault of a device that was not cleared since.
    pub fn fault_of(&self, dev: u8) -> Option<DeviceCause> {
        match self.faults.get(usize::from(dev)) {
            Some(fault) => *fault,
            None => None,
        }
    }

    /// A slot that is still in use.
    pub fn open(&self, slot: u8, is_issued: bool) -> OpenSlot {
        let stage = self.slot(slot).stage;
        let fault = match stage.port() {
            Some(port) => self.fault_of(port),
            None => None,
        };
        OpenSlot {
            slot,
            stage,
            is_issued,
            failed: self.failed,
            fault,
        }
    }
}
