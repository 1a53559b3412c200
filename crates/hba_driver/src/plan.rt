//! What the driver knows of the port, of the multiplier and of the devices behind it.

ghost use Rattle.std.specs.Prelude.{◌≡◌, ◌<◌, length};
ghost use Rattle.hba_driver.specs.Drivers.{IsOrder, IsSoundPlan, device_at, opening_plan_in, with_device as with_device_of};
ghost use Rattle.hba_driver.specs.Turns.{answered as answered_by, awaits as awaits_of, control_news as control_news_of, control_seen as control_seen_by, detected as detected_by, found_there as found_there_of, is_out as is_out_of, is_ready as is_ready_of, met_order as met_order_by, noted as noted_by, signed_order as signed_order_by, watches as watches_of, with_next as with_next_of};

use crate::mode::Mode;
use crate::order::Order;
use crate::path::{Path, Recovery};
use crate::sight::{Sight, has_bit};

/// What is known of a device.
#[derive(Clone, Copy, Debug, PartialEq, Eq)]
pub(crate) enum Device {
    /// None is there.
    Absent,
    /// It is there and not identified.
    Starting,
    /// It takes requests.
    Ready,
    /// It takes no queued commands.
    Unusable,
    /// It recovers from a fault. After that it takes requests again.
    Recovering(Recovery),
}

/// The signature of a port multiplier.
const MULTIPLIER: u32 = 0x9669_0101;
/// The slot of commands to the multiplier.
const CONTROL_SLOT: u8 = 31;

/// What the driver knows, apart from its requests.
#[derive(Clone, Copy, Debug, PartialEq, Eq)]
pub(crate) struct Plan {
    /// How the port tells devices apart.
    pub(crate) mode: Mode,
    /// How many of the seven writes that open the port were made.
    pub(crate) opened: u8,
    /// How many of the two writes that start the port again after a fault were made.
    pub(crate) restarted: u8,
    /// What slot 31 does next.
    pub(crate) order: Order,
    /// Its command was issued.
    pub(crate) asked: bool,
    /// How many ports the multiplier has.
    pub(crate) ports: u8,
    /// GSCR[32] as the last scan read it: the ports with an error.
    pub(crate) found: u32,
    /// The device that has slot 30.
    pub(crate) path: Option<Path>,
    /// What is known of each device, by port.
    pub(crate) devices: [Device; 15],
}

impl Device {
    /// Whether it takes requests.
    pub(crate) fn is_ready(self) -> bool
        ensures { result ≡ is_ready_of self }
    {
        match self {
            Device::Ready => true,
            Device::Absent | Device::Starting | Device::Unusable | Device::Recovering(_) => false,
        }
    }

    // The device is there. If it recovers or was identified since its flush, it stays what it is: its signature
    // came before, and does not come again.
    fn found_there(self) -> Device
        ensures { result ≡ found_there_of self }
    {
        match self {
            Device::Absent | Device::Starting => Device::Starting,
            Device::Ready | Device::Unusable | Device::Recovering(_) => self,
        }
    }

    // What PSCR[0] of its port tells: a device is there if SStatus.DET is 3.
    fn detected(self, status: u32) -> Device
        ensures { result ≡ detected_by status self }
    {
        if status % 16 == 3 {
            self.found_there()
        } else {
            Device::Absent
        }
    }
}

impl Plan {
    /// A plan with nothing done.
    pub(crate) fn new(mode: Mode) -> Plan
        ensures value { result ≡ opening_plan_in mode }
        ensures sound { IsSoundPlan result }
    {
        Plan {
            mode,
            opened: 0,
            restarted: 2,
            order: Order::ResetOn,
            asked: false,
            ports: 0,
            found: 0,
            path: None,
            devices: [Device::Absent; 15],
        }
    }

    /// What is known of a device.
    pub(crate) fn device(&self, dev: u8) -> Device
        ensures { result ≡ device_at self.now dev }
    {
        match self.devices.get(dev as usize) {
            Some(device) => *device,
            None => Device::Absent,
        }
    }

    /// The plan with this known of a device.
    pub(crate) fn with_device(self, dev: u8, device: Device) -> Plan
        requires { dev < 15 }
        ensures { result ≡ with_device_of dev device self }
    {
        let mut devices = self.devices;
        devices[dev as usize] = device;
        Plan { devices, ..self }
    }

    // Notes what the answer of an order tells.
    #[tactic(auto, unfolding(crate::specs::Turns::noted))]
    fn noted(self, sight: &Sight<'_>, order: Order) -> Plan
        requires order { IsOrder order }
        requires sound { IsSoundPlan self }
        ensures value { result ≡ noted_by sight.now order self }
        ensures sound { IsSoundPlan result }
    {
        match order {
            Order::CountPorts => Plan {
                ports: (sight.answer() % 16) as u8,
                ..self
            },
            Order::Scan => Plan {
                found: sight.answer(),
                ..self
            },
            Order::Detect(port) => {
                let device = self.device(port).detected(sight.answer());
                self.with_device(port, device)
            }
            Order::ResetOn
            | Order::ResetOff
            | Order::AwaitSignature
            | Order::SetMask
            | Order::Enable
            | Order::Open(_)
            | Order::Clear(_)
            | Order::Watch => self,
        }
    }

    fn with_next(self, order: Order) -> Plan
        requires order { IsOrder order }
        requires sound { IsSoundPlan self }
        ensures value { result ≡ with_next_of order self }
        ensures sound { IsSoundPlan result }
    {
        Plan {
            order: order.next(self.ports, self.found),
            asked: false,
            ..self
        }
    }

    fn is_out(self, sight: &Sight<'_>) -> bool
        ensures { result ≡ is_out_of sight.now self }
    {
        has_bit(sight.issued(), CONTROL_SLOT)
    }

    // Notes the answer of the order, if it came.
    fn answered(self, sight: &Sight<'_>) -> Plan
        requires { IsSoundPlan self }
        ensures value { result ≡ answered_by sight.now self }
        ensures sound { IsSoundPlan result }
    {
        if self.asked && !self.is_out(sight) {
            let order = self.order;
            self.noted(sight, order).with_next(order)
        } else {
            self
        }
    }

    /// Notes what slot 31 shows.
    pub(crate) fn control_seen(self, sight: &Sight<'_>) -> Plan
        requires { IsSoundPlan self }
        ensures value { result ≡ control_seen_by sight.now self }
        ensures sound { IsSoundPlan result }
    {
        let plan = self.answered(sight);
        if plan.asked {
            plan
        } else {
            Plan {
                order: plan.order.met(sight),
                ..plan
            }
        }
    }

    /// Whether an answer, a signature or a notification came.
    pub(crate) fn control_news(self, sight: &Sight<'_>) -> bool
        ensures { result ≡ control_news_of sight.now self }
    {
        if self.asked {
            !self.is_out(sight)
        } else {
            self.order.awaits() && !sight.resetting() || self.order.watches() && sight.notified()
        }
    }
}

impl Order {
    fn awaits(self) -> bool
        ensures { result ≡ awaits_of self }
    {
        matches!(self, Order::AwaitSignature)
    }

    fn watches(self) -> bool
        ensures { result ≡ watches_of self }
    {
        matches!(self, Order::Watch)
    }

    fn signed(sight: &Sight<'_>) -> Order
        ensures { result ≡ signed_order_by sight.now }
    {
        if sight.resetting() {
            Order::AwaitSignature
        } else if sight.answer() == MULTIPLIER {
            Order::CountPorts
        } else {
            Order::ResetOn
        }
    }

    // The order that is due after this one has waited.
    #[tactic(auto, unfolding(crate::specs::Turns::met_order))]
    fn met(self, sight: &Sight<'_>) -> Order
        requires { IsOrder self }
        ensures value { result ≡ met_order_by sight.now self }
        ensures order { IsOrder result }
    {
        match self {
            Order::AwaitSignature => Order::signed(sight),
            Order::Watch if sight.notified() => Order::Scan,
            _ => self,
        }
    }
}
