//! The steps of a round.

use pm_world::Step;

/// A step of a round, without the port at which it is done.
#[derive(Clone, Copy)]
pub enum RoundStep {
    PmPresence,
    DiskTake,
    DiskSend,
    PmFromDevice,
    PmDown,
    PmFromHost,
    PmUp,
    HostTake,
    Tick,
    HostPush,
}

static NAMES: [(&[u8], RoundStep); 10] = [
    (b"pmpresence", RoundStep::PmPresence),
    (b"disktake", RoundStep::DiskTake),
    (b"disksend", RoundStep::DiskSend),
    (b"pmfromdevice", RoundStep::PmFromDevice),
    (b"pmdown", RoundStep::PmDown),
    (b"pmfromhost", RoundStep::PmFromHost),
    (b"pmup", RoundStep::PmUp),
    (b"hosttake", RoundStep::HostTake),
    (b"tick", RoundStep::Tick),
    (b"hostpush", RoundStep::HostPush),
];

impl RoundStep {
    /// The step that a line calls by this name.
    pub fn of(name: &[u8]) -> Option<RoundStep> {
        for (known, step) in NAMES.iter() {
            if *known == name {
                return Some(*step);
            }
        }
        None
    }

    /// Whether it is done at a port.
    pub fn has_port(self) -> bool {
        matches!(
            self,
            RoundStep::PmPresence
                | RoundStep::DiskTake
                | RoundStep::DiskSend
                | RoundStep::PmFromDevice
                | RoundStep::PmDown
        )
    }

    /// The step of the world, at this port if it has one.
    #[inline(always)]
    pub fn at(self, port: u8) -> Step {
        match self {
            RoundStep::PmPresence => Step::PmPresence(port),
            RoundStep::DiskTake => Step::DiskTake(port),
            RoundStep::DiskSend => Step::DiskSend(port),
            RoundStep::PmFromDevice => Step::PmFromDevice(port),
            RoundStep::PmDown => Step::PmDown(port),
            RoundStep::PmFromHost => Step::PmFromHost,
            RoundStep::PmUp => Step::PmUp,
            RoundStep::HostTake => Step::HostTake,
            RoundStep::Tick => Step::Tick,
            RoundStep::HostPush => Step::HostPush,
        }
    }
}
