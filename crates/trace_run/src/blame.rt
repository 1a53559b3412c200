//! Which faults of a device follow from an earlier one.

use crate::reason::Fault;
use trace_text::bit_of;

/// A command that a fault of its device gave up.
#[derive(Clone, Copy)]
struct GivenUp {
    device: u8,
    /// The first of the faults that led to that.
    first: Fault,
}

/// What the faults of devices led to.
#[derive(Clone, Copy)]
pub struct Blame {
    /// By slot: the command in it was out as its device became faulty, and no command stood in it since.
    given_up: [Option<GivenUp>; 32],
    /// By device: its last setup was refused or ignored because of this fault.
    setups: [Option<Fault>; 16],
    /// By device: the first of the faults that led to the one that it had last.
    firsts: [Option<Fault>; 16],
}

impl Blame {
    /// No device had a fault.
    pub fn new() -> Blame {
        Blame {
            given_up: [None; 32],
            setups: [None; 16],
            firsts: [None; 16],
        }
    }

    /// Commands are issued in these slots.
    pub fn issue(&mut self, mask: u32) {
        for slot in 0..32_u8 {
            if mask & bit_of(slot) != 0 {
                self.give_up(slot, None);
            }
        }
    }

    fn give_up(&mut self, slot: u8, given: Option<GivenUp>) {
        if let Some(place) = self.given_up.get_mut(usize::from(slot)) {
            *place = given;
        }
    }

    /// A device begins anew: what it does from now on follows from nothing that was before.
    pub fn begin(&mut self, device: u8) {
        self.set_setup(device, None);
        for slot in 0..32_u8 {
            if self.reason_of(slot, device).is_some() {
                self.give_up(slot, None);
            }
        }
    }

    /// The fault because of which the command of a device in a slot was given up, if it was.
    pub fn reason_of(&self, slot: u8, device: u8) -> Option<Fault> {
        match self.given_up.get(usize::from(slot)) {
            Some(Some(given)) if given.device == device => Some(given.first),
            _ => None,
        }
    }

    /// The fault because of which the last setup of a device does not count, if that is so.
    pub fn setup_of(&self, device: u8) -> Option<Fault> {
        match self.setups.get(usize::from(device)) {
            Some(setup) => *setup,
            None => None,
        }
    }

    /// The first of the faults that led to the one that a device had last.
    pub fn first_of(&self, device: u8) -> Option<Fault> {
        match self.firsts.get(usize::from(device)) {
            Some(first) => *first,
            None => None,
        }
    }

    /// The last setup of a device does not count because of this fault, or counts.
    pub fn set_setup(&mut self, device: u8, fault: Option<Fault>) {
        if let Some(setup) = self.setups.get_mut(usize::from(device)) {
            *setup = fault;
        }
    }

    /// A device is faulty, with this first fault, while its commands in these slots are out.
    pub fn fault(&mut self, device: u8, first: Fault, out: u32) {
        if let Some(last) = self.firsts.get_mut(usize::from(device)) {
            *last = Some(first);
        }
        for slot in 0..32_u8 {
            if out & bit_of(slot) != 0 {
                self.give_up(slot, Some(GivenUp { device, first }));
            }
        }
    }
}
