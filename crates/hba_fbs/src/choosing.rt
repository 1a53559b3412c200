//! Who goes next, where the caller chooses.

ghost use Rattle.std.specs.Prelude.{◌≡◌, ◌<◌, ◌&&◌, ℕ, not, true};
ghost use Rattle.hba_fbs.specs.Choosing.{Chooses, MayChoose, asking_devices as asking_devices_of, due_devices as due_devices_of, due_slots as due_slots_of, is_free as is_free_issue, may_feed as may_feed_device, may_order as may_order_slot, unsent_slots as unsent_slots_of, waits_beside as waits_beside_of};
ghost use Rattle.hba_fbs.specs.Sending.{faulty_devices as faulty_devices_of, ready_devices as ready_devices_of};
ghost use Rattle.hba_fbs.specs.Turning.{feeds, orders as orders_of};
ghost use Rattle.slots.specs.Data.{payload as payload_of};
ghost use Rattle.slots.specs.Slots.{context_of, has_bit as has_bit_of, holds, issue_at, match_some};

use crate::bits::has_bit;
use crate::port::PortCore;
use crate::sending::{faulty_devices, low_half, ready_devices};
use crate::turn::Turn;

impl PortCore {
    // The devices that asked for data, as a mask, while the port runs.
    fn asking_devices(&self) -> u16
        ensures { result ≡ asking_devices_of self.now }
    {
        if self.is_running() {
            self.slots.receivers()
        } else {
            0
        }
    }

    // Whether data may go to a device, given the mask of those that asked for it.
    #[tactic(auto, using(crate::proofs::ChooseLemmas::feeds_by))]
    fn may_feed(&self, dev: u8, asking: u16) -> bool
        requires dev { dev < 16 }
        requires asking { asking ≡ asking_devices_of self.now }
        ensures { result ≡ may_feed_device self.now dev }
    {
        has_bit(u32::from(asking), u32::from(dev)) && !self.errors.faulty(dev)
    }

    // The slots whose commands were not sent, as a mask, while the port runs.
    fn unsent_slots(&self) -> u32
        ensures { result ≡ unsent_slots_of self.now }
    {
        if self.is_running() {
            self.slots.unsent()
        } else {
            0
        }
    }

    // Whether commands of a device wait for one of another device.
    fn waits_beside(&self, dev: u8) -> bool
        ensures { result ≡ waits_beside_of self.now dev }
    {
        !self.registers.switching && self.slots.is_sent_beside(dev)
    }

    // Whether the command of a slot is free to go, given the masks of the devices that are ready and of those that are faulty.
    fn is_free(&self, slot: u8, ready: u16, faulty: u16) -> bool
        requires slot { slot < 32 }
        requires ready { ready ≡ ready_devices_of self.now }
        requires faulty { faulty ≡ faulty_devices_of self.now }
        ensures { result ≡ holds (is_free_issue self.now) (issue_at self.now.slots slot) }
    {
        match self.slots.owner(slot) {
            Some(dev) => self.slots.may_send(slot, ready, faulty) && !self.waits_beside(dev),
            None => false,
        }
    }

    // Whether the command of a slot may go, given the mask of those that were not sent.
    #[tactic(auto, using(crate::proofs::ChooseLemmas::orders_by))]
    fn may_order(&self, slot: u8, unsent: u32, ready: u16, faulty: u16) -> bool
        requires slot { slot < 32 }
        requires unsent { unsent ≡ unsent_slots_of self.now }
        requires ready { ready ≡ ready_devices_of self.now }
        requires faulty { faulty ≡ faulty_devices_of self.now }
        ensures { result ≡ may_order_slot self.now slot }
    {
        has_bit(unsent, u32::from(slot)) && self.is_free(slot, ready, faulty)
    }

    /// The devices to which data may go, as a mask: those that asked for it and are not faulty, while the port runs.
    pub fn due_devices(&self) -> u16
        ensures value { result ≡ due_devices_of self.now }
        ensures exact { (dev : ℕ) → dev < 16 → has_bit_of result dev ≡ may_feed_device self.now dev }
    {
        let asking = self.asking_devices();
        if asking == 0 {
            return 0;
        }
        let mut mask: u32 = 0;
        for dev in 0..16_u8 {
            if self.may_feed(dev, asking) {
                mask |= 1 << dev;
            }
        }
        low_half(mask)
    }

    /// The slots whose commands may go, as a mask, while the port runs: a Control always, any other while BSY and DRQ of its
    /// device are 0, no command of the device waits for an answer, and the device is neither in software reset nor faulty. With
    /// command-based switching a command also waits while one of another device was sent and is not done.
    pub fn due_slots(&self) -> u32
        ensures value { result ≡ due_slots_of self.now }
        ensures exact { (slot : ℕ) → slot < 32 → has_bit_of result slot ≡ may_order_slot self.now slot }
    {
        let unsent = self.unsent_slots();
        if unsent == 0 {
            return 0;
        }
        let ready = ready_devices(&self.states);
        let faulty = faulty_devices(&self.errors);
        let mut mask: u32 = 0;
        for slot in 0..32_u8 {
            if self.may_order(slot, unsent, ready, faulty) {
                mask |= 1 << slot;
            }
        }
        mask
    }

    /// The data that goes next to a device of [`due_devices`](PortCore::due_devices). Nothing changes before it
    /// [goes](PortCore::goes).
    pub fn turn_of_device(&self, dev: u8) -> Turn
        requires dev { dev < 16 }
        requires due { may_feed_device self.now dev ≡ true }
        ensures value { result ≡ match_some (payload_of (context_of self.now.slots dev)) Turn.Rests (feeds dev) }
        ensures may { MayChoose self.now result }
    {
        self.feeding(dev)
    }

    /// The command of a slot of [`due_slots`](PortCore::due_slots). Nothing changes before it [goes](PortCore::goes).
    pub fn turn_of_slot(&self, slot: u8) -> Turn
        requires slot { slot < 32 }
        requires due { may_order_slot self.now slot ≡ true }
        ensures value { result ≡ orders_of self.now slot }
        ensures may { MayChoose self.now result }
    {
        self.ordering(slot)
    }

    // This is the active device from now on.
    fn activate(&mut self, dev: u8)
        requires { dev < 16 }
        ensures { self.new ≡ record self.old { active = dev } }
    {
        self.active = dev;
    }

    /// What the caller chose went to its device: it still may, and nothing came between that ended it.
    pub fn goes(&mut self, turn: Turn)
        requires { MayChoose self.old turn }
        ensures { Chooses turn self.old self.new }
    {
        match turn {
            Turn::Rests => {}
            Turn::Feeds { dev, .. } => self.feed(dev),
            Turn::Orders { dev, slot, command } => {
                self.send(slot, dev, &command);
                self.activate(dev);
            }
        }
    }
}
