//! What is due.

ghost use Rattle.std.specs.Prelude.{◌≡◌, ◌<◌, true, IfSome, Some};
ghost use Rattle.hba_driver.specs.Drivers.{IsOrder, IsSoundPlan};
ghost use Rattle.hba_driver.specs.Ticks.{cleared_plan, from_reset as from_reset_of, ordered as ordered_of, plan_after as plan_after_of, plan_without, recovering as recovering_of, stopped_plan, unless as unless_of};
ghost use Rattle.hba_driver.specs.Turns.{IsAct, allowed as allowed_of, control_beside as control_beside_of, control_turn as control_turn_of, device_due as device_due_of, device_of, device_or_request as device_or_request_of, device_turn as device_turn_of, early_due as early_due_of, fault_due as fault_due_of, may_go as may_go_of, may_go_to as may_go_to_of, opening_due as opening_due_of, order_allowed as order_allowed_of, order_due as order_due_of, path_beside as path_beside_of, path_due as path_due_of, plain_turn, request_due as request_due_of, restart_due as restart_due_of, stage_due as stage_due_of, step_of, turn_of};

use crate::mode::Mode;
use crate::order::{CONTROL_PORT, Order};
use crate::path::{Path, Stage, TaskFile, reset_all};
use crate::plan::{Device, Plan};
use crate::scan::{has_issued_other, lowest_due};
use crate::sight::{Sight, has_bit};
use crate::taken::Slots;

/// The slot of commands to the multiplier.
const CONTROL_SLOT: u8 = 31;
/// The slot of the driver's own commands to devices.
const DEVICE_SLOT: u8 = 30;

/// What a tick does.
#[derive(Clone, Copy, Debug, PartialEq, Eq)]
pub(crate) enum Act {
    /// The next write that opens the port, with its number.
    Opens(u8),
    /// The port is stopped.
    Stops,
    /// The next write that starts the port again, with its number.
    Restarts(u8),
    /// The fault of a device is cleared.
    Clears(u8),
    /// The command of an order.
    Orders(Order),
    /// The command of a stage, for a device.
    Steps(u8, Stage),
    /// The request of a slot is issued for a device. The flag says whether its command is queued.
    Issues(u8, u8, bool),
}

impl Act {
    // The device for which it issues a command, if it issues one.
    fn device(self) -> Option<u8>
        ensures { result ≡ device_of self }
    {
        match self {
            Act::Orders(_) => Some(CONTROL_PORT),
            Act::Steps(dev, _) | Act::Issues(_, dev, _) => Some(dev),
            Act::Opens(_) | Act::Stops | Act::Restarts(_) | Act::Clears(_) => None,
        }
    }
}

/// The device whose log came and is whole, with its task file after its fault.
#[derive(Clone, Copy, Debug, PartialEq, Eq)]
pub(crate) struct Logged {
    pub(crate) dev: u8,
    pub(crate) file: TaskFile,
}

/// What is known after a tick has looked at what came, and what is due then.
#[derive(Clone, Copy, Debug, PartialEq, Eq)]
pub(crate) struct Turn {
    pub(crate) plan: Plan,
    /// What is due, if something is.
    pub(crate) act: Option<Act>,
    /// Whether something came.
    pub(crate) news: bool,
    /// The device whose log came.
    pub(crate) logged: Option<Logged>,
}

impl Turn {
    // A turn without slot 30.
    fn plain(plan: Plan, act: Option<Act>, news: bool) -> Turn
        ensures { result ≡ plain_turn plan act news }
    {
        Turn {
            plan,
            act,
            news,
            logged: None,
        }
    }
}

#[tactic(auto, unfolding(crate::specs::Turns::request_due))]
fn request_due(plan: Plan, slots: &Slots) -> Option<Act>
    ensures value { result ≡ request_due_of plan slots.now }
    ensures act { IfSome result IsAct }
{
    match lowest_due(&plan, slots) {
        Some(slot) => slots.issue(slot),
        None => None,
    }
}

// The clearing of the fault that the port shows.
fn fault_due(sight: &Sight<'_>) -> Option<Act>
    ensures value { result ≡ fault_due_of sight.now }
    ensures act { IfSome result IsAct }
{
    if sight.stopped() {
        return Some(Act::Stops);
    }
    match sight.faulty() {
        Some(dev) => Some(Act::Clears(dev)),
        None => None,
    }
}

impl Stage {
    // The command of the stage, if it has one.
    fn step(self, dev: u8) -> Option<Act>
        requires { dev < 15 }
        ensures value { result ≡ step_of dev self }
        ensures act { IfSome result IsAct }
    {
        match self.fields(dev) {
            Some(_) => Some(Act::Steps(dev, self)),
            None => None,
        }
    }
}

impl Path {
    // The command of its stage, if it is not out.
    fn due(self) -> Option<Act>
        requires { self.dev < 15 }
        ensures value { result ≡ path_due_of self }
        ensures act { IfSome result IsAct }
    {
        if self.asked {
            None
        } else {
            self.stage.step(self.dev)
        }
    }
}

impl Plan {
    // Whether slot 31 has a command, and this is another device.
    fn control_beside(sight: &Sight<'_>, dev: u8) -> bool
        ensures { result ≡ control_beside_of sight.now dev }
    {
        has_bit(sight.issued(), CONTROL_SLOT) && dev != CONTROL_PORT
    }

    // Whether slot 30 has a command of another device.
    fn path_beside(self, sight: &Sight<'_>, dev: u8) -> bool
        ensures { result ≡ path_beside_of sight.now self dev }
    {
        match self.path {
            Some(path) => has_bit(sight.issued(), DEVICE_SLOT) && path.dev != dev,
            None => false,
        }
    }

    // Whether nothing is issued for another device.
    fn may_go(self, sight: &Sight<'_>, slots: &Slots, dev: u8) -> bool
        ensures { result ≡ may_go_of sight.now self slots.now dev }
    {
        !(Plan::control_beside(sight, dev)
            || self.path_beside(sight, dev)
            || has_issued_other(slots, dev))
    }

    // The same for what an act issues, if it issues something.
    fn may_go_to(self, sight: &Sight<'_>, slots: &Slots, dev: Option<u8>) -> bool
        ensures { result ≡ may_go_to_of sight.now self slots.now dev }
    {
        match dev {
            Some(dev) => self.may_go(sight, slots, dev),
            None => true,
        }
    }

    // What is due, if it may go: with command-based switching only if nothing is issued for another device.
    fn allowed(self, sight: &Sight<'_>, slots: &Slots, due: Option<Act>) -> Option<Act>
        requires { IfSome due IsAct }
        ensures value { result ≡ allowed_of self.mode sight.now self slots.now due }
        ensures act { IfSome result IsAct }
    {
        match self.mode {
            Mode::Switching => due,
            Mode::CommandBased => match due {
                Some(act) if self.may_go_to(sight, slots, act.device()) => due,
                _ => None,
            },
        }
    }

    fn opening_due(self) -> Option<Act>
        ensures value { result ≡ opening_due_of self }
        ensures act { IfSome result IsAct }
    {
        if self.opened < 7 {
            Some(Act::Opens(self.opened))
        } else {
            None
        }
    }

    fn order_due(self) -> Option<Act>
        requires { IsSoundPlan self }
        ensures value { result ≡ order_due_of self }
        ensures act { IfSome result IsAct }
    {
        if self.asked {
            return None;
        }
        match self.order.fields() {
            Some(_) => Some(Act::Orders(self.order)),
            None => None,
        }
    }

    // The command of the order, if it may go.
    fn order_allowed(self, sight: &Sight<'_>, slots: &Slots) -> Option<Act>
        requires { IsSoundPlan self }
        ensures value { result ≡ order_allowed_of sight.now self slots.now }
        ensures act { IfSome result IsAct }
    {
        self.allowed(sight, slots, self.order_due())
    }

    fn restart_due(self) -> Option<Act>
        ensures value { result ≡ restart_due_of self }
        ensures act { IfSome result IsAct }
    {
        if self.restarted < 2 {
            Some(Act::Restarts(self.restarted))
        } else {
            None
        }
    }

    // What comes before everything else.
    #[tactic(auto, unfolding(crate::specs::Turns::early_due))]
    fn early_due(self, sight: &Sight<'_>) -> Option<Act>
        ensures value { result ≡ early_due_of sight.now self }
        ensures act { IfSome result IsAct }
    {
        if let Some(act) = self.opening_due() {
            return Some(act);
        }
        if let Some(act) = self.restart_due() {
            return Some(act);
        }
        fault_due(sight)
    }

    fn stage_due(self, sight: &Sight<'_>, dev: u8) -> Option<Act>
        requires { dev < 15 }
        ensures value { result ≡ stage_due_of sight.now self dev }
        ensures act { IfSome result IsAct }
    {
        match self.stage_for(sight, dev) {
            Some(stage) => stage.step(dev),
            None => None,
        }
    }

    #[tactic(auto, unfolding(crate::specs::Turns::device_due))]
    fn device_due(self, sight: &Sight<'_>) -> Option<Act>
        requires { IsSoundPlan self }
        ensures value { result ≡ device_due_of sight.now self }
        ensures act { IfSome result IsAct }
    {
        if let Some(path) = self.path {
            return path.due();
        }
        match self.lowest_due(sight) {
            Some(dev) => self.stage_due(sight, dev),
            None => None,
        }
    }

    // What is due by slot 30, or else for the requests.
    fn device_or_request(self, sight: &Sight<'_>, slots: &Slots) -> Option<Act>
        requires { IsSoundPlan self }
        ensures value { result ≡ device_or_request_of sight.now self slots.now }
        ensures act { IfSome result IsAct }
    {
        match self.allowed(sight, slots, self.device_due(sight)) {
            Some(act) => Some(act),
            None => self.allowed(sight, slots, request_due(self, slots)),
        }
    }

    fn device_turn(self, sight: &Sight<'_>, news: bool, slots: &Slots) -> Turn
        requires { IsSoundPlan self }
        ensures value { result ≡ device_turn_of sight.now news self slots.now }
        ensures sound { IsSoundPlan result.plan }
        ensures act { IfSome result.act IsAct }
    {
        let plan = self.device_seen(sight);
        Turn {
            plan,
            act: plan.device_or_request(sight, slots),
            news: news || self.device_news(sight),
            logged: self.device_logged(sight),
        }
    }

    fn control_turn(self, sight: &Sight<'_>, news: bool, slots: &Slots) -> Turn
        requires { IsSoundPlan self }
        ensures value { result ≡ control_turn_of sight.now news self slots.now }
        ensures sound { IsSoundPlan result.plan }
        ensures act { IfSome result.act IsAct }
    {
        let act = self.order_allowed(sight, slots);
        if act.is_some() {
            return Turn::plain(self, act, news);
        }
        self.device_turn(sight, news, slots)
    }

    // The path that has slot 30, if it is not a path of this device.
    fn path_unless(self, dev: u8) -> Option<Path>
        ensures { result ≡ unless_of dev self.path }
    {
        match self.path {
            Some(path) if path.dev == dev => None,
            other => other,
        }
    }

    fn without(self, dev: u8) -> Plan
        requires dev { dev < 15 }
        requires sound { IsSoundPlan self }
        ensures value { result ≡ plan_without dev self }
        ensures sound { IsSoundPlan result }
    {
        Plan {
            path: self.path_unless(dev),
            ..self.with_device(dev, Device::Absent)
        }
    }

    // Slot 31 begins anew.
    fn from_reset(self) -> Plan
        requires { IsSoundPlan self }
        ensures value { result ≡ from_reset_of self }
        ensures sound { IsSoundPlan result }
    {
        Plan {
            order: Order::ResetOn,
            asked: false,
            ..self
        }
    }

    fn stopped(self) -> Plan
        requires { IsSoundPlan self }
        ensures value { result ≡ stopped_plan self }
        ensures sound { IsSoundPlan result }
    {
        Plan {
            restarted: 0,
            path: None,
            devices: reset_all(self.devices),
            ..self.from_reset()
        }
    }

    // The device recovers from its fault. This was its task file after the fault.
    fn recovering(self, dev: u8, file: TaskFile) -> Plan
        requires dev { dev < 15 }
        requires sound { IsSoundPlan self }
        ensures value { result ≡ recovering_of dev file self }
        ensures sound { IsSoundPlan result }
    {
        let recovery = self.device(dev).recovery(file);
        Plan {
            path: self.path_unless(dev),
            ..self.with_device(dev, Device::Recovering(recovery))
        }
    }

    // After the fault of the device, or of the multiplier, was cleared.
    fn cleared(self, dev: u8, file: TaskFile) -> Plan
        requires { IsSoundPlan self }
        ensures value { result ≡ cleared_plan dev file self }
        ensures sound { IsSoundPlan result }
    {
        if dev < CONTROL_PORT {
            self.recovering(dev, file)
        } else {
            self.from_reset()
        }
    }

    fn ordered(self, order: Order) -> Plan
        requires order { IsOrder order }
        requires sound { IsSoundPlan self }
        ensures value { result ≡ ordered_of order self }
        ensures sound { IsSoundPlan result }
    {
        match order {
            Order::Clear(port) => Plan {
                asked: true,
                ..self.without(port)
            },
            _ => Plan {
                asked: true,
                ..self
            },
        }
    }

    fn stepped(self, dev: u8, stage: Stage) -> Plan
        requires dev { dev < 15 }
        requires sound { IsSoundPlan self }
        ensures value { result
            ≡ record self { path = Some (record { dev = dev; stage = stage; asked = true }) } }
        ensures sound { IsSoundPlan result }
    {
        let path = Path {
            dev,
            stage,
            asked: true,
        };
        Plan {
            path: Some(path),
            ..self
        }
    }

    /// What is known after this act; PxTFD shows this task file then.
    #[tactic(auto, unfolding(crate::specs::Ticks::plan_after))]
    pub(crate) fn after(self, act: Act, file: TaskFile) -> Plan
        requires act { IsAct act }
        requires sound { IsSoundPlan self }
        ensures value { result ≡ plan_after_of act file self }
        ensures sound { IsSoundPlan result }
    {
        match act {
            Act::Opens(k) => Plan {
                opened: k + 1,
                ..self
            },
            Act::Stops => self.stopped(),
            Act::Restarts(k) => Plan {
                restarted: k + 1,
                ..self
            },
            Act::Clears(dev) => self.cleared(dev, file),
            Act::Orders(order) => self.ordered(order),
            Act::Steps(dev, stage) => self.stepped(dev, stage),
            Act::Issues(..) => self,
        }
    }

    /// What is due with these requests, for a tick that sees this.
    #[tactic(auto, unfolding(crate::specs::Turns::turn_of))]
    pub(crate) fn turn(self, sight: &Sight<'_>, slots: &Slots) -> Turn
        requires { IsSoundPlan self }
        ensures value { result ≡ turn_of sight.now self slots.now }
        ensures sound { IsSoundPlan result.plan }
        ensures act { IfSome result.act IsAct }
    {
        let act = self.early_due(sight);
        if act.is_some() {
            return Turn::plain(self, act, false);
        }
        self.control_seen(sight)
            .control_turn(sight, self.control_news(sight), slots)
    }
}
