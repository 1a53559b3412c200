//! Which steps of a round can find something to move.

use crate::round_step::RoundStep;
use multiplier::Passed;
use pm_world::{Answer, Step, World};
use trace_text::bit_of;

/// A set of ports. A port that no world has is in each.
#[derive(Clone, Copy)]
struct Ports(u32);

/// All ports.
const ALL: Ports = Ports(0xFFFF);

impl Ports {
    #[inline(always)]
    fn has(self, n: u8) -> bool {
        n > 15 || self.0 & bit_of(n) != 0
    }

    fn add(&mut self, n: u8) {
        self.0 |= bit_of(n);
    }

    fn remove(&mut self, n: u8) {
        self.0 &= !bit_of(n);
    }
}

/// Which steps of a round can find something to move. A step that found nothing finds nothing again until
/// another step changes what it looks at, so a round leaves it out until then. A step whose next place was
/// full stays due.
#[derive(Drop)]
pub struct Due {
    presence: Ports,
    disk_take: Ports,
    disk_send: Ports,
    from_device: Ports,
    down: Ports,
    from_host: bool,
    up: bool,
    host_take: bool,
    tick: bool,
    push: bool,
}

impl Due {
    /// All steps, as long as none was tried.
    pub fn all() -> Due {
        Due {
            presence: ALL,
            disk_take: ALL,
            disk_send: ALL,
            from_device: ALL,
            down: ALL,
            from_host: true,
            up: true,
            host_take: true,
            tick: true,
            push: true,
        }
    }

    /// Whether a step of this device or its port is due.
    pub fn has_port(&self, n: u8) -> bool {
        self.presence.has(n)
            || self.disk_take.has(n)
            || self.disk_send.has(n)
            || self.from_device.has(n)
            || self.down.has(n)
    }

    /// Whether this step is due, at this port if it has one.
    #[inline(always)]
    pub fn has(&self, step: RoundStep, port: u8) -> bool {
        let ports = match step {
            RoundStep::PmPresence => self.presence,
            RoundStep::DiskTake => self.disk_take,
            RoundStep::DiskSend => self.disk_send,
            RoundStep::PmFromDevice => self.from_device,
            RoundStep::PmDown => self.down,
            RoundStep::PmFromHost => return self.from_host,
            RoundStep::PmUp => return self.up,
            RoundStep::HostTake => return self.host_take,
            RoundStep::Tick => return self.tick,
            RoundStep::HostPush => return self.push,
        };
        ports.has(port)
    }

    /// Takes note of what a step answered, in the world as it is since then.
    pub fn note(&mut self, world: &World, step: &Step, answer: &Answer) {
        match answer {
            Answer::Idle => self.rests(world, step),
            Answer::Blocked | Answer::Refused(_) => {}
            Answer::Came { port, .. } | Answer::Gone { port, .. } => self.plugged(*port),
            Answer::Sent { port, .. } => self.sent(*port),
            // A device may answer the frame that it took.
            Answer::DiskTook { port, .. } => self.disk_send.add(*port),
            Answer::Presence(_) | Answer::Offered { .. } => self.up = true,
            Answer::Passed(passed) => self.passed(*passed),
            Answer::Up(_) => self.host_take = true,
            Answer::Down(port) => self.disk_take.add(*port),
            Answer::Took { .. } | Answer::Submitted(_) | Answer::Polled(_) | Answer::Put => {
                self.tick = true;
                self.push = true;
            }
            Answer::Pushed => {
                self.from_host = true;
                self.tick = true;
            }
            Answer::Ticked => self.push = true,
        }
    }

    /// The step found nothing.
    fn rests(&mut self, world: &World, step: &Step) {
        match step {
            Step::PmPresence(n) => self.presence.remove(*n),
            Step::DiskTake(n) => self.disk_take.remove(*n),
            Step::DiskSend(n) => self.disk_send.remove(*n),
            Step::PmFromDevice(n) => self.from_device.remove(*n),
            Step::PmDown(n) => self.down.remove(*n),
            Step::PmFromHost => self.from_host = false,
            Step::PmUp => self.up = false,
            Step::HostTake => self.host_take = false,
            Step::Tick => self.tick = false,
            Step::HostPush => {
                self.push = false;
                // A spoilt table stops the host port, and nothing is pushed. The driver sees to that.
                self.tick |= world.host().port_cause().is_some();
            }
            _ => {}
        }
    }

    /// A device came or went.
    fn plugged(&mut self, n: u8) {
        self.presence.add(n);
        self.disk_send.add(n);
    }

    /// A device sent a frame, and may have more.
    fn sent(&mut self, n: u8) {
        self.disk_send.add(n);
        self.from_device.add(n);
    }

    /// The multiplier took a frame of the host: its control port may have an answer to it, or a port has it.
    fn passed(&mut self, passed: Passed) {
        self.up = true;
        if let Passed::Down(n) = passed {
            self.down.add(n);
        }
    }
}
