//! What is next to do.

ghost use Rattle.std.specs.Prelude.{◌≡◌, ◌<◌, None, false, true, slice_get, IfSome};
ghost use Rattle.hba_fbs.specs.Choosing.{may_feed as may_feed_device, may_order as may_order_slot};
ghost use Rattle.ahci_controller.specs.Next.{FeedsTo, Frames, GoesIf, OrdersSlot, Reads, RestsNow, RunsNow, StartsUp, Turns, after_count as after_count_of, after_rest as after_rest_of, counted_slot as counted_slot_of, cursors_for, fed as fed_of, is_fed as is_fed_of, is_halted as is_halted_of, left as left_of, may_start as may_start_of, next_device as next_device_of, next_read as next_read_of, next_slot as next_slot_of, next_write as next_write_of, payload_step, rest as rest_of, run_of, writes_next};
ghost use Rattle.ahci_controller.specs.Taking.{is_any as is_any_of};

mod saved;

use crate::bits::{has_bit, without};
use crate::circle::{Circle, device_after, slot_after};
use crate::fetching::Ask;
use crate::issuing::slot_bit;
use crate::moving::count;
use crate::parts::Parts;
use crate::wants::{Carried, Wants, Writes};
use ahci_registers::LinkAction;
use guest_fetch::{ByteCount, Move, Moves};
use hba_fbs::Turn;

/// What is next to do: at most one thing.
#[derive(Clone, Copy, Debug, PartialEq, Eq)]
pub enum Next {
    /// Nothing.
    Nothing,
    /// Bytes of the frame that was taken last go to the guest's memory; the offset is that in the frame.
    Payload(Move),
    /// All of that frame goes to the guest's memory.
    Posted(Move),
    /// PRDBC goes to the guest's memory.
    Counted(ByteCount),
    /// Bytes of a command are wanted: [`supply`](Parts::supply) or [`no_memory`](Parts::no_memory) answers it.
    Read(Ask),
    /// A command FIS goes to a device.
    Order {
        /// The device.
        dev: u8,
        /// The slot of the command.
        slot: u8,
        /// The FIS.
        fis: [u8; 20],
    },
    /// A Data FIS is to go to a device: its bytes are wanted, which lie where [`places`](Parts::places) says.
    /// [`gathered`](Parts::gathered) or [`not_there`](Parts::not_there) answers it.
    Feed {
        /// The device.
        dev: u8,
        /// The number of the want. An answer counts only if it names it.
        number: u64,
        /// The slot of the command.
        slot: u8,
        /// The offset of the first of them in the command's bytes.
        offset: u32,
        /// How many there are.
        len: u32,
    },
}

// A write to the guest, and what is left of a payload after it.
#[derive(Clone, Copy, Debug, PartialEq, Eq)]
pub(crate) struct Step {
    pub(crate) write: Move,
    pub(crate) left: Option<Carried>,
}

// What is left of a payload once one run of it was moved.
fn left(carried: Carried, run: Move) -> Option<Carried>
    ensures { result ≡ left_of carried run }
{
    let done = run.len.min(carried.len as usize) as u32;
    if done == carried.len {
        return None;
    }
    Some(Carried {
        slot: carried.slot,
        offset: carried.offset.saturating_add(done),
        from: carried.from.saturating_add(done),
        len: carried.len - done,
    })
}

// The first of these.
#[tactic(auto, using(crate::proofs::HeadLemmas::head_none, crate::proofs::HeadLemmas::head_some))]
fn first(moves: Moves<'_>) -> Option<Move>
    ensures { result ≡ slice_get moves.entry 0 }
{
    let mut moves = moves;
    moves.next()
}

impl Writes {
    // The slot whose PRDBC is to be written next.
    fn counted_slot(&self) -> Option<u8>
        ensures slot { result ≡ counted_slot_of self.now }
        ensures low { IfSome result (λ slot. slot < 32) }
    {
        slot_after(self.counted, 31)
    }

    // What is left once the slot's is.
    fn after_count(self, slot: u8) -> Writes
        requires { slot < 32 }
        ensures { result ≡ after_count_of self slot }
    {
        Writes {
            payload: None,
            posted: None,
            counted: without(self.counted, slot_bit(slot)),
        }
    }

    // What is left once what comes next after the payload is.
    fn after_rest(self) -> Writes
        ensures { result ≡ after_rest_of self }
    {
        match self.posted {
            Some(_) => Writes {
                payload: None,
                posted: None,
                counted: self.counted,
            },
            None => match self.counted_slot() {
                Some(slot) => self.after_count(slot),
                None => Writes::none(),
            },
        }
    }
}

impl Wants {
    // With one more, for Data to a device.
    fn fed(&mut self, dev: u8)
        requires { dev < 16 }
        ensures { self.new ≡ fed_of self.old dev }
    {
        let number = self.count.saturating_add(1);
        self.feeding |= 1 << dev;
        self.count = number;
        self.devices[dev as usize] = number;
    }

    // Whether this one is out.
    pub(crate) fn is_fed(&self, dev: u8, number: u64) -> bool
        ensures { result ≡ is_fed_of self.now dev number }
    {
        dev < 16 && has_bit(self.feeding, u32::from(dev)) && self.devices[dev as usize] == number
    }
}

impl Parts {
    // The next run of a payload, whose bytes lie one after another at the guest.
    fn run_of(&self, carried: Carried) -> Option<Move>
        ensures { result ≡ run_of self.now carried }
    {
        if carried.slot >= 32 {
            return None;
        }
        match &self.commands[carried.slot as usize] {
            Some(command) => first(command.table().moves(carried.offset, carried.len as usize)),
            None => None,
        }
    }

    // The next bytes of the payload.
    fn step(&self) -> Option<Step>
        ensures { result ≡ payload_step self.now }
    {
        let carried = self.writes.payload?;
        let run = self.run_of(carried)?;
        Some(Step {
            write: Move {
                from: carried.from as usize,
                ..run
            },
            left: left(carried, run),
        })
    }

    // What comes first but for a payload.
    fn rest(&self) -> Option<Next>
        ensures { result ≡ rest_of self.now }
    {
        if let Some(posted) = self.writes.posted {
            return Some(Next::Posted(posted));
        }
        let slot = self.writes.counted_slot()?;
        match &self.commands[slot as usize] {
            Some(command) => Some(Next::Counted(count(command))),
            None => None,
        }
    }

    /// Whether something is to be written to the guest.
    #[tactic(auto, using(crate::proofs::WrittenLemmas::nothing_next))]
    pub(crate) fn has_writes(&self) -> bool
        ensures any { result ≡ is_any_of self.now.writes }
        ensures none { result ≡ false → next_write_of self.now ≡ None }
    {
        self.writes.is_any()
    }

    /// What is next to be written to the guest.
    #[tactic(auto, using(crate::proofs::WrittenLemmas::nothing_next))]
    pub(crate) fn next_write(&mut self) -> Option<Next>
        ensures next { result ≡ next_write_of self.old }
        ensures rest { self.new ≡ record self.old { writes = writes_next self.old } }
    {
        if !self.writes.is_any() {
            return None;
        }
        let writes = self.writes;
        if let Some(step) = self.step() {
            self.writes = Writes {
                payload: step.left,
                ..writes
            };
            return Some(Next::Payload(step.write));
        }
        let rest = self.rest();
        self.writes = writes.after_rest();
        rest
    }

    // Whether the port is to start now, where it does not run.
    fn may_start(&self) -> bool
        ensures { result ≡ may_start_of self.now }
    {
        self.own.is_ready(self.is_idle(), self.core.registers())
    }

    // Whether nothing goes on: the link is down, a command that cannot be served stopped the port, or it does not run.
    fn is_halted(&self) -> bool
        ensures { result ≡ is_halted_of self.now }
    {
        self.link.action() != LinkAction::NoAction
            || self.own.is_failed()
            || !(self.core.registers().started || self.may_start())
    }

    // The slot for which bytes are wanted next.
    fn next_read(&self) -> Option<u8>
        ensures slot { result ≡ next_read_of self.now }
        ensures low { IfSome result (λ slot. slot < 32) }
    {
        slot_after(
            without(self.wants.pending, self.wants.out),
            self.circle.read,
        )
    }

    fn read_for(&mut self, slot: u8) -> Next
        requires { slot < 32 }
        ensures { Reads self.old slot result self.new }
    {
        self.circle = Circle {
            read: slot,
            ..self.circle
        };
        Next::Read(self.ask(slot))
    }

    // Data for a device is wanted.
    fn feed(&mut self, dev: u8) -> Next
        requires dev { dev < 16 }
        requires due { may_feed_device self.old.core dev ≡ true }
        ensures { FeedsTo self.old dev result self.new }
    {
        self.wants.fed(dev);
        self.circle = Circle {
            device: dev,
            fed: true,
            ..self.circle
        };
        match self.core.turn_of_device(dev) {
            Turn::Feeds {
                slot,
                offset,
                len,
                ..
            } => Next::Feed {
                dev,
                number: self.wants.count,
                slot,
                offset,
                len,
            },
            _ => Next::Nothing,
        }
    }

    // A command that is not queued begins with its first byte.
    fn begin(&mut self, turn: &Turn)
        ensures { self.new ≡ record self.old { cursors = cursors_for self.old.cursors turn.now } }
    {
        if let Turn::Orders { dev, command, .. } = *turn {
            if dev < 16 && !command.work.kind.is_queued() {
                self.cursors[dev as usize] = 0;
            }
        }
    }

    // The command of a slot goes.
    fn order(&mut self, slot: u8) -> Next
        requires slot { slot < 32 }
        requires due { may_order_slot self.old.core slot ≡ true }
        ensures { OrdersSlot self.old slot result self.new }
    {
        let turn = self.core.turn_of_slot(slot);
        self.begin(&turn);
        self.core.goes(turn);
        self.circle = Circle {
            slot,
            fed: false,
            ..self.circle
        };
        self.own.current = slot;
        match turn {
            Turn::Orders { dev, command, .. } => {
                let fis = command.cfis;
                Next::Order { dev, slot, fis }
            }
            _ => Next::Nothing,
        }
    }

    // The device to which Data goes next.
    #[tactic(auto, using(crate::proofs::MaskLemmas::still_in))]
    fn next_device(&self) -> Option<u8>
        ensures dev { result ≡ next_device_of self.now }
        ensures low { IfSome result (λ dev. dev < 16) }
        ensures due { IfSome result (λ dev. may_feed_device self.now.core dev ≡ true) }
    {
        let due = without(u32::from(self.core.due_devices()), self.wants.feeding);
        device_after(due, self.circle.device)
    }

    // The slot whose command goes next.
    fn next_slot(&self) -> Option<u8>
        ensures slot { result ≡ next_slot_of self.now }
        ensures low { IfSome result (λ slot. slot < 32) }
        ensures due { IfSome result (λ slot. may_order_slot self.now.core slot ≡ true) }
    {
        slot_after(self.core.due_slots(), self.circle.slot)
    }

    fn next_frame(&mut self) -> Next
        ensures { Frames self.old result self.new }
    {
        let data = self.next_device();
        let order = self.next_slot();
        match (data, order) {
            (Some(dev), None) => self.feed(dev),
            (None, Some(slot)) => self.order(slot),
            (Some(dev), Some(slot)) => {
                if self.circle.fed {
                    self.order(slot)
                } else {
                    self.feed(dev)
                }
            }
            (None, None) => Next::Nothing,
        }
    }

    // What the port does that runs.
    fn run(&mut self) -> Next
        ensures { RunsNow self.old result self.new }
    {
        match self.next_read() {
            Some(slot) => self.read_for(slot),
            None => self.next_frame(),
        }
    }

    // The port starts, ST having been held.
    fn start_up(&mut self) -> Next
        ensures { StartsUp self.old result self.new }
    {
        let idle = self.is_idle();
        let _ = self.restart(idle, self.own);
        match self.next_read() {
            Some(slot) => self.read_for(slot),
            None => Next::Nothing,
        }
    }

    /// What is next to do. What is to be written to the guest for the frame that was taken last comes first. Then the port starts
    /// whose ST was held until PxTFD was idle. Then commands are read, slot by slot in a circle. Then Data and commands go in turns, each in a circle: over devices and over slots.
    pub fn next(&mut self) -> Next
        ensures { Turns self.old result self.new }
    {
        if let Some(write) = self.next_write() {
            return write;
        }
        if self.is_halted() {
            return Next::Nothing;
        }
        if self.core.registers().started {
            self.run()
        } else {
            self.start_up()
        }
    }
}
