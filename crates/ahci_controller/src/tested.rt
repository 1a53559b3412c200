//! The tests of the rules of every controller, for parts that come from elsewhere.

ghost use Rattle.std.specs.Prelude.{◌≡◌, ◌<◌, false, true};
ghost use Rattle.ahci_controller.specs.Rules.{IsOffered};
ghost use Rattle.ahci_controller.specs.Tested.{AreOffered, IsOfferedAt, are_devices_ruled, are_slots_ruled, is_carried as is_carried_of, is_device_ruled, is_free_at, is_ruled as is_ruled_of, is_slot_ruled, is_unread_at, rests_stopped};

use crate::bits::has_bit;
use crate::parts::Parts;
use guest_fetch::Command;
use hba_commands::Command as Offer;

// Whether it is the command that was supplied.
fn is_same(command: Offer, kept: &Command) -> bool
    ensures yes { result ≡ true → IsOffered (Some command) (Some kept.now) }
    ensures no { result ≡ false → IsOffered (Some command) (Some kept.now) → ⊥ }
{
    let head = kept.head();
    let offered = Offer {
        work: head.work,
        cfis: head.cfis,
        table: 0,
        count: 0,
    };
    command == offered
}

// Whether the command of the core is the one that was supplied.
fn is_offered(command: Option<Offer>, kept: &Option<Command>) -> bool
    ensures yes { result ≡ true → IsOffered command kept.now }
    ensures no { result ≡ false → IsOffered command kept.now → ⊥ }
{
    let Some(command) = command else {
        return true;
    };
    match kept {
        None => false,
        Some(kept) => is_same(command, kept),
    }
}

impl Parts {
    // Whether nothing has come of a slot's command, and nothing is wanted of it.
    fn is_unread(&self, slot: u8) -> bool
        requires { slot < 32 }
        ensures { result ≡ is_unread_at self.now slot }
    {
        self.fetches[slot as usize].is_none() && !has_bit(self.wants.out, u32::from(slot))
    }

    // Whether a slot is read only while it is pending, and nothing is issued in it then.
    fn is_free(&self, slot: u8) -> bool
        requires { slot < 32 }
        ensures { result ≡ is_free_at self.now slot }
    {
        if has_bit(self.wants.pending, u32::from(slot)) {
            !self.core.is_issued(slot)
        } else {
            self.is_unread(slot)
        }
    }

    // Whether a slot keeps its rules.
    fn is_slot_ruled(&self, slot: u8) -> bool
        requires { slot < 32 }
        ensures { result ≡ is_slot_ruled self.now slot }
    {
        self.is_free(slot) && self.wants.slots[slot as usize] <= self.wants.count
    }

    // Whether the command of the core in a slot is the one that was supplied.
    fn is_offered_at(&self, slot: u8) -> bool
        requires { slot < 32 }
        ensures yes { result ≡ true → IsOfferedAt self.now slot }
        ensures no { result ≡ false → IsOfferedAt self.now slot → ⊥ }
    {
        is_offered(self.core.command(slot), &self.commands[slot as usize])
    }

    /// Whether each is.
    pub(crate) fn are_offered(&self) -> bool
        ensures yes { result ≡ true → AreOffered self.now }
        ensures no { result ≡ false → AreOffered self.now → ⊥ }
    {
        for slot in 0..32_u8 {
            if !self.is_offered_at(slot) {
                return false;
            }
        }
        true
    }

    // Whether each slot does.
    fn are_slots_ruled(&self) -> bool
        ensures { result ≡ are_slots_ruled self.now }
    {
        for slot in 0..32_u8 {
            if !self.is_slot_ruled(slot) {
                return false;
            }
        }
        true
    }

    // Whether the number of a device's last want is counted.
    fn is_device_ruled(&self, dev: u8) -> bool
        requires { dev < 16 }
        ensures { result ≡ is_device_ruled self.now dev }
    {
        self.wants.devices[dev as usize] <= self.wants.count
    }

    // Whether each device's is.
    fn are_devices_ruled(&self) -> bool
        ensures { result ≡ are_devices_ruled self.now }
    {
        for dev in 0..16_u8 {
            if !self.is_device_ruled(dev) {
                return false;
            }
        }
        true
    }

    // Whether no slot is pending where ST is 0 and the port is stopped.
    fn rests_stopped(&self) -> bool
        ensures { result ≡ rests_stopped self.now }
    {
        self.core.registers().started || self.own.starts || self.wants.pending == 0
    }

    // Whether what is to be written to the guest is of a slot with a command, of which nothing is wanted.
    fn is_carried(&self) -> bool
        ensures { result ≡ is_carried_of self.now self.now.writes.payload }
    {
        match self.writes.payload {
            None => true,
            Some(carried) => {
                carried.slot < 32
                    && self.commands[carried.slot as usize].is_some()
                    && !has_bit(self.wants.out, u32::from(carried.slot))
            }
        }
    }

    /// Whether they keep the other rules of every controller.
    pub(crate) fn is_ruled(&self) -> bool
        ensures { result ≡ is_ruled_of self.now }
    {
        self.are_slots_ruled()
            && self.are_devices_ruled()
            && self.rests_stopped()
            && self.is_carried()
    }
}
