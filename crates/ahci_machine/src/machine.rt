//! The machine, and its registers.

ghost use Rattle.std.specs.Prelude.{◌≡◌, IfOk, option_copied};
ghost use Rattle.slots.specs.Table.{IsTable};
ghost use Rattle.hba_fbs.specs.Views.{IsCorePort};
ghost use Rattle.ahci_controller.specs.Latch.{raised};
ghost use Rattle.ahci_controller.specs.Rules.{IsRuled};
ghost use Rattle.ahci_machine.specs.Registers.{WritesMachine, for_host, kept_powered, lent_bytes, part_of, powered, read_machine, renewed};
ghost use Rattle.ahci_machine.specs.Registers.{without_status as without_status_of};
ghost use Rattle.ahci_machine.specs.States.{IsOpeningMachine, no_gathering as no_gathering_of};

mod saved;

use crate::gathering::Gathering;
use crate::hints::Hints;
use crate::watched::WatchedBay;
use ahci_controller::{Controller, Next, WideWritten, Width};
use ahci_registers::Effect;
use fan_out::FanOut;
use fis_view::Frame;
use std::alloc::{AllocError, Global};
use std::marker::Model;

// PxSSTS.
const PX_SSTS: u32 = 0x128;

// What it reads while the link is up.
const ESTABLISHED: u64 = 0x133;

/// What is lent to be written to the guest.
#[derive(Clone, Copy, Debug, PartialEq, Eq)]
pub enum Lent {
    /// Nothing.
    Nothing,
    /// These bytes of the frame that the controller took last.
    Frame {
        /// The first.
        from: usize,
        /// How many there are.
        len: usize,
    },
    /// PRDBC of a command.
    Count([u8; 4]),
}

/// A controller, what is behind it, and what is on its way between them.
#[derive(Drop)]
pub struct Machine {
    pub(crate) controller: Controller,
    pub(crate) fan: FanOut,
    /// By port.
    pub(crate) bays: Vec<WatchedBay>,
    /// The frame on its way to the controller, or of which something is still to be written to the guest.
    pub(crate) incoming: Option<Frame>,
    /// The controller took it.
    pub(crate) taken: bool,
    /// Something may be to be written to the guest.
    pub(crate) writing: bool,
    /// The frame on its way to the devices.
    pub(crate) outgoing: Option<Frame>,
    /// What the controller has to do next.
    pub(crate) kept: Option<Next>,
    /// By device: the Data FIS whose bytes are being read.
    pub(crate) gathering: [Option<Gathering>; 16],
    /// What is lent to be written to the guest.
    pub(crate) lent: Lent,
    /// What the caller was told of the line.
    pub(crate) told: bool,
    /// A message is due.
    pub(crate) message: bool,
    /// The controller's turn is before that of the ports.
    pub(crate) first: bool,
    /// The port whose turn is next.
    pub(crate) turn: u8,
    /// Where it looks first. It is no part of the machine's state.
    pub(crate) hints: Hints,
}

impl Model for Machine {
    ghost use Rattle.ahci_machine.specs.States.{MachineState};

    ghost Value = { MachineState };

    ghost view = { λ m. record { controller = m.controller; fan = m.fan; bays = m.bays.items; incoming = m.incoming; taken = m.taken; writing = m.writing; outgoing = m.outgoing; kept = m.kept; gathering = m.gathering; lent = m.lent; told = m.told; message = m.message; first = m.first; turn = m.turn } };
}

fn no_gathering() -> [Option<Gathering>; 16]
    ensures { result ≡ no_gathering_of }
{
    Default::default()
}

// What was read from an offset on, without the bytes that are of PxSSTS.
fn without_status(offset: u32, value: u64) -> u64
    ensures { result ≡ without_status_of offset value }
{
    match offset {
        0x128 => value / 0x1_0000_0000 * 0x1_0000_0000,
        0x129 => value / 0x100_0000 * 0x100_0000,
        0x12A => value / 0x1_0000 * 0x1_0000,
        0x12B => value / 0x100 * 0x100,
        _ => value,
    }
}

// Whether it is done with the guest, and not with a device.
fn for_host(next: Next) -> bool
    ensures { result ≡ for_host next }
{
    !matches!(next, Next::Order { .. } | Next::Feed { .. })
}

// What of it the controller is to do still where power comes to the devices.
fn kept_powered(kept: Option<Next>) -> Option<Next>
    ensures { result ≡ kept_powered kept }
{
    match kept {
        Some(next) if for_host(next) => Some(next),
        _ => None,
    }
}

impl Machine {
    /// A machine whose controller opens, with nothing at its ports. With 0 ports one device may be straight behind it, else a
    /// multiplier with so many ports is, 15 at most; `legacy` has port 0 of that open from the start, for software that knows no
    /// multipliers.
    pub fn new(alloc: Global, ports: u8, legacy: bool) -> Result<Machine, AllocError>
        ensures { IfOk result (λ m. IsOpeningMachine ports legacy m) }
    {
        let fan = if ports == 0 {
            FanOut::straight()
        } else {
            FanOut::multiplied(ports.min(15), legacy)
        };
        let bays = WatchedBay::many(alloc, fan.ports())?;
        Ok(Machine {
            controller: Controller::new(),
            fan,
            bays,
            incoming: None,
            taken: false,
            writing: false,
            outgoing: None,
            kept: None,
            gathering: no_gathering(),
            lent: Lent::Nothing,
            told: false,
            message: false,
            first: false,
            turn: 0,
            hints: Hints::new(),
        })
    }

    /// What every machine keeps: the rules of its controller, of which the laws over runs speak. The call has no effect.
    pub fn keeps_rules(&self)
        ensures port { IsCorePort self.now.controller.core }
        ensures slots { IsTable self.now.controller.core.slots }
        ensures rules { IsRuled self.now.controller }
    {
        self.controller.keeps_rules();
    }

    /// What the registers read at an offset. An access that crosses a boundary of eight bytes reads 0. Without a multiplier
    /// PxSSTS shows no device while none is plugged in.
    pub fn read(&self, offset: u32, width: Width) -> u64
        ensures { result ≡ read_machine self.now offset width }
    {
        let value = self.controller.read(offset, width);
        if self.fan.is_bare() && self.controller.read(PX_SSTS, Width::Dword) == ESTABLISHED {
            without_status(offset, value)
        } else {
            value
        }
    }

    /// Power comes to what is behind the controller: nothing is on its way to the devices or from them any more, and each device
    /// that is plugged in begins. With `legacy` the one at port 0 is reached at once. The controller is not reset: a frame that it
    /// took is written to the guest as ever, and it goes on to read commands.
    pub fn power_on(&mut self)
        ensures { self.new ≡ powered self.old }
    {
        if !self.taken {
            self.incoming = None;
        }
        self.outgoing = None;
        self.kept = kept_powered(self.kept);
        self.gathering = no_gathering();
        self.lent = Lent::Nothing;
        self.fan.renew();
        self.hints.shaken();
    }

    // The link was reset, and with it what the controller had to write: what is behind it begins anew.
    fn renew(&mut self)
        ensures { self.new ≡ renewed self.old }
    {
        self.taken = false;
        self.writing = false;
        self.kept = None;
        self.power_on();
    }

    /// Writes to the registers at an offset, the lower dword first. A write that resets the link, or has it up again, has what is
    /// behind it begin anew. What the answer says of the line is of the registers alone: [`Machine::next`] tells of it behind all bytes.
    pub fn write(&mut self, offset: u32, width: Width, value: u64) -> WideWritten
        ensures { WritesMachine offset width value self.old result self.new }
    {
        let written = self.controller.write(offset, width, value);
        self.hints.written();
        self.message = self.message || written.low.message || written.high.message;
        if written.low.effect != Effect::Nothing || written.high.effect != Effect::Nothing {
            self.renew();
        }
        written
    }

    /// The frame on its way to the controller, or of which something is still to be written to the guest.
    pub fn incoming(&self) -> Option<&Frame>
        ensures { option_copied result ≡ self.now.incoming }
    {
        self.incoming.as_ref()
    }

    /// The frame on its way to the devices.
    pub fn outgoing(&self) -> Option<&Frame>
        ensures { option_copied result ≡ self.now.outgoing }
    {
        self.outgoing.as_ref()
    }

    /// Whether the interrupt line is raised.
    pub fn line(&self) -> bool
        ensures { result ≡ raised self.now.controller.latch }
    {
        self.controller.line()
    }

    /// The bytes that [`WriteGuest`](crate::Request::WriteGuest) is about, until the next call that changes the machine.
    pub fn lent(&self) -> &[u8]
        ensures { result.now ≡ lent_bytes self.now }
    {
        match &self.lent {
            Lent::Nothing => &[],
            Lent::Count(bytes) => bytes,
            Lent::Frame { from, len } => match &self.incoming {
                Some(frame) => part(frame.bytes(), *from, *len),
                None => &[],
            },
        }
    }
}

// So many bytes from one on, if they are there.
fn part(bytes: &[u8], from: usize, len: usize) -> &[u8]
    ensures { result.now ≡ part_of bytes.now from len }
{
    if from > bytes.len() || len > bytes.len() - from {
        return &[];
    }
    &bytes[from..from + len]
}
