ghost use Rattle.std.specs.Prelude.{◌≡◌, ◌↔◌, ℕ, false, List, [], ◌∷◌, Ok};
ghost use Rattle.std.specs.Prelude.{IfErr, IfOk, OnErr, OnOk, length, map, take, drop, slice_get};
ghost use Rattle.std.specs.Prelude.{option_copied, option_map};
ghost use Rattle.circular_buffer.specs.Buffer.{last_item};
ghost use Rattle.pm_world.specs.Laws.{AreLawful};
ghost use Rattle.pm_world.specs.Downward.{falling_to};
ghost use Rattle.pm_world.specs.Hops.{frames_on};
ghost use Rattle.pm_world.specs.Places.{opening, new_world_in, is_config};
ghost use Rattle.pm_world.specs.Rules.{Rule, Run, Stops, no_refusal, port_refusal, refusal};
ghost use Rattle.pm_world.specs.Traffic.{transit};
ghost use Rattle.pm_world.specs.declared.step.Answer.{Answer};
ghost use Rattle.pm_world.specs.declared.step.Step.TheVariants as step;

use crate::device::PortDevice;
use crate::hop::Hop;
use crate::host::Host;
use crate::link::Link;
use crate::passing;
use crate::seat::Seat;
use crate::step::{Answer, Config, Step, StepError, WorldError};
use fis_view::{Bytes, Frame};
use hba_driver::{Mode, Request};
use hba_fbs::{HostPort, TakeReport};
use host_memory::HostMemory;
use multiplier::Multiplier;
use std::alloc::{AllocError, Global};
use std::marker::Model;

/// Devices, a port multiplier and a host, and what each step makes of them. A world is a machine that
/// began new.
#[derive(Drop)]
pub struct Machine<D: PortDevice + Drop> {
    seats: Vec<Seat<D>>,
    multiplier: Multiplier,
    upward: Link,
    downward: Link,
    host: Host,
}

impl<D: PortDevice + Drop> Model for Machine<D> {
    ghost use Rattle.std.specs.Prelude.{◌≡◌, length};
    ghost use Rattle.pm_world.specs.Places.{IsOrderly, Places};

    ghost Value = { Places };

    ghost view = { λ w. record {
      devices = w.seats.items;
      multiplier = w.multiplier;
      upward = w.upward;
      downward = w.downward;
      host = w.host;
    } };

    ghost invariant = { λ w. IsOrderly (record {
      devices = w.seats.items;
      multiplier = w.multiplier;
      upward = w.upward;
      downward = w.downward;
      host = w.host;
    }) × (length w.seats.items ≡ w.multiplier.registers.ports) };
}

impl<D: PortDevice + Drop> Machine<D> {
    /// A machine of these units, none of them plugged, with a host in this mode.
    pub fn new(alloc: Global, mode: Mode, config: Config, units: Vec<D>) -> Result<Self, WorldError>
        ensures ok { IfOk result (λ world. world ≡ new_world_in mode config (map D.seen units.items)) }
        ensures nothing_stands { IfOk result (λ world. (n c : ℕ) → transit n c world ≡ []) }
        ensures nothing_falls { IfOk result (λ world. (n : ℕ) → falling_to n world ≡ []) }
        ensures bad_config { let fits = is_config config (length units.items) in
            (result ≡ Err WorldError.BadConfig) ↔ (fits ≡ false) }
    {
        if !is_config(config, units.len()) {
            return Err(WorldError::BadConfig);
        }
        let multiplier = Multiplier::new(config.ports);
        let host = Host::new(alloc, mode, config.memory)?;
        let upward = Link::new(alloc, config.capacity)?;
        let downward = Link::new(alloc, config.capacity)?;
        let seats = seats_of(alloc, config.capacity, units)?;
        Ok(Machine {
            seats,
            multiplier,
            upward,
            downward,
            host,
        })
    }

    /// One step of one actor. A refused step changes nothing.
    pub fn step(&mut self, alloc: Global, step: &Step) -> Result<Answer, StepError>
        ensures rule { Rule self.old step.now result self.new }
        ensures laws { let steps = step.now ∷ [] in
            IfOk result (λ answer. AreLawful self.old steps (answer ∷ []) self.new) }
        ensures refused { OnErr result (self.new ≡ self.old) }
    {
        // Read, so that what its type says of it is known here.
        let _ = &self.seats;
        self.act(alloc, step)
    }

    fn act(&mut self, alloc: Global, step: &Step) -> Result<Answer, StepError>
        ensures { Rule self.old step.now result self.new }
    {
        match step {
            Step::Came(n) => self.came(alloc, *n),
            Step::Gone(n) => self.gone(*n),
            Step::DiskSend(n) => self.disk_send(alloc, *n),
            Step::Inject(n, bytes) => self.inject(alloc, *n, bytes),
            Step::DiskTake(n) => self.disk_take(alloc, *n),
            Step::PmPresence(n) => self.pm_presence(*n),
            Step::PmFromDevice(n) => self.pm_from_device(*n),
            Step::PmFromHost => self.pm_from_host(alloc),
            Step::PmUp => self.pm_up(alloc),
            Step::PmDown(n) => self.pm_down(*n),
            Step::HostTake => Ok(self.host_take()),
            Step::HostPush => self.host_push(alloc),
            Step::Tick => Ok(self.tick()),
            Step::Submit(dev, request) => Ok(self.submit(*dev, request)),
            Step::Poll => Ok(self.poll()),
            Step::Put(at, bytes) => self.put(*at, bytes),
        }
    }

    /// Takes steps in order, until one is refused. Their answers are appended to the vector. Where a
    /// step is refused, the answers of the steps before it are.
    pub fn run_into(
        &mut self,
        alloc: Global,
        steps: &[Step],
        answers: &mut Vec<Answer>,
    ) -> Result<(), (usize, StepError)>
        ensures kept { take (length answers.old.items) answers.new.items ≡ answers.old.items }
        ensures run { let told = drop (length answers.old.items) answers.new.items in
            OnOk result (Run self.old steps.now told self.new) }
        ensures laws { let told = drop (length answers.old.items) answers.new.items in
            OnOk result (AreLawful self.old steps.now told self.new) }
        ensures stops { let told = drop (length answers.old.items) answers.new.items in
            IfErr result (λ e. Stops self.old steps.now e.0 e.1 told self.new
            × AreLawful self.old (take e.0 steps.now) told self.new) }
    {
        // Read, so that what its type says of it is known here.
        let _ = &self.seats;
        let Some(first) = steps.first() else {
            return Ok(());
        };
        if answers.reserve(steps.len()).is_err() {
            let refused = self.refusal(first);
            return Err((0, refused.unwrap_or(StepError::OutOfMemory)));
        }
        for (i, step) in steps.iter().enumerate() {
            match self.step(alloc, step) {
                Ok(answer) => answers.push_reserved(answer),
                Err(e) => return Err((i, e)),
            }
        }
        Ok(())
    }

    /// The first refusal that applies to the step, out of memory apart.
    fn refusal(&self, step: &Step) -> Option<StepError>
        ensures { result ≡ refusal self.now step.now }
    {
        match step {
            Step::Came(n) => match self.seats.get(*n as usize) {
                None => Some(StepError::NoSuchPort),
                Some(seat) => seat.came_refusal(),
            },
            Step::Gone(n) => match self.seats.get(*n as usize) {
                None => Some(StepError::NoSuchPort),
                Some(seat) => seat.gone_refusal(),
            },
            Step::DiskSend(n) => match self.seats.get(*n as usize) {
                None => Some(StepError::NoSuchPort),
                Some(seat) => seat.send_refusal(),
            },
            Step::Inject(n, bytes) => match self.seats.get(*n as usize) {
                None => Some(StepError::NoSuchPort),
                Some(seat) => seat.inject_refusal(bytes.as_slice()),
            },
            Step::DiskTake(n) | Step::PmPresence(n) | Step::PmFromDevice(n) | Step::PmDown(n) =>
                self.no_port(*n),
            Step::PmFromHost | Step::PmUp | Step::HostTake | Step::HostPush => None,
            Step::Tick | Step::Submit(..) | Step::Poll => None,
            Step::Put(at, bytes) => self.host.put_refusal(*at, bytes.as_slice()),
        }
    }

    /// The refusal of a step at port `n`, where such a port would not refuse it.
    fn no_port(&self, n: u8) -> Option<StepError>
        ensures { result ≡ port_refusal self.now n no_refusal }
    {
        match self.seats.get(n as usize) {
            None => Some(StepError::NoSuchPort),
            Some(_) => None,
        }
    }

    fn came(&mut self, alloc: Global, n: u8) -> Result<Answer, StepError>
        ensures { Rule self.old (step.Came n) result self.new }
    {
        let i = n as usize;
        if i >= self.seats.len() {
            return Err(StepError::NoSuchPort);
        }
        let seat = &mut self.seats[i];
        seat.came(alloc, n)
    }

    fn gone(&mut self, n: u8) -> Result<Answer, StepError>
        ensures { Rule self.old (step.Gone n) result self.new }
    {
        let i = n as usize;
        if i >= self.seats.len() {
            return Err(StepError::NoSuchPort);
        }
        let seat = &mut self.seats[i];
        seat.gone(n)
    }

    fn disk_send(&mut self, alloc: Global, n: u8) -> Result<Answer, StepError>
        ensures { Rule self.old (step.DiskSend n) result self.new }
    {
        let i = n as usize;
        if i >= self.seats.len() {
            return Err(StepError::NoSuchPort);
        }
        let seat = &mut self.seats[i];
        seat.disk_send(alloc, n)
    }

    fn inject(&mut self, alloc: Global, n: u8, bytes: &Bytes) -> Result<Answer, StepError>
        ensures { Rule self.old (step.Inject n bytes.now) result self.new }
    {
        let i = n as usize;
        if i >= self.seats.len() {
            return Err(StepError::NoSuchPort);
        }
        let seat = &mut self.seats[i];
        seat.inject(alloc, n, bytes.as_slice())
    }

    fn disk_take(&mut self, alloc: Global, n: u8) -> Result<Answer, StepError>
        ensures { Rule self.old (step.DiskTake n) result self.new }
    {
        let i = n as usize;
        if i >= self.seats.len() {
            return Err(StepError::NoSuchPort);
        }
        let seat = &mut self.seats[i];
        seat.disk_take(alloc, n)
    }

    fn pm_presence(&mut self, n: u8) -> Result<Answer, StepError>
        ensures { Rule self.old (step.PmPresence n) result self.new }
    {
        let i = n as usize;
        if i >= self.seats.len() {
            return Err(StepError::NoSuchPort);
        }
        let seat = &mut self.seats[i];
        Ok(passing::record(n, seat, &mut self.multiplier))
    }

    fn pm_from_device(&mut self, n: u8) -> Result<Answer, StepError>
        ensures { Rule self.old (step.PmFromDevice n) result self.new }
    {
        let i = n as usize;
        if i >= self.seats.len() {
            return Err(StepError::NoSuchPort);
        }
        let seat = &mut self.seats[i];
        Ok(passing::pass_up(n, seat, &mut self.multiplier))
    }

    fn pm_down(&mut self, n: u8) -> Result<Answer, StepError>
        ensures { Rule self.old (step.PmDown n) result self.new }
    {
        let i = n as usize;
        if i >= self.seats.len() {
            return Err(StepError::NoSuchPort);
        }
        let seat = &mut self.seats[i];
        Ok(passing::pass_down(n, seat, &mut self.multiplier))
    }

    fn pm_from_host(&mut self, alloc: Global) -> Result<Answer, StepError>
        ensures { Rule self.old step.PmFromHost result self.new }
    {
        passing::hear(alloc, &mut self.downward, &mut self.multiplier)
    }

    fn pm_up(&mut self, alloc: Global) -> Result<Answer, StepError>
        ensures { Rule self.old step.PmUp result self.new }
    {
        passing::rise(alloc, &mut self.multiplier, &mut self.upward)
    }

    fn host_take(&mut self) -> Answer
        ensures { Rule self.old step.HostTake (Ok result) self.new }
    {
        match self.upward.take() {
            None => Answer::Idle,
            Some(frame) => {
                let report = self.host.take(&frame);
                took(frame, report)
            }
        }
    }

    fn host_push(&mut self, alloc: Global) -> Result<Answer, StepError>
        ensures { Rule self.old step.HostPush result self.new }
    {
        if self.downward.is_full() {
            return Ok(Answer::Blocked);
        }
        match self.host.next_out(alloc)? {
            None => Ok(Answer::Idle),
            Some(frame) => {
                self.downward.push(frame);
                Ok(Answer::Pushed)
            }
        }
    }

    fn tick(&mut self) -> Answer
        ensures { Rule self.old step.Tick (Ok result) self.new }
    {
        self.host.tick()
    }

    fn submit(&mut self, dev: u8, request: &Request) -> Answer
        ensures { Rule self.old (step.Submit dev request.now) (Ok result) self.new }
    {
        self.host.submit(dev, request)
    }

    fn poll(&mut self) -> Answer
        ensures { Rule self.old step.Poll (Ok result) self.new }
    {
        self.host.poll()
    }

    fn put(&mut self, at: u32, bytes: &Bytes) -> Result<Answer, StepError>
        ensures { Rule self.old (step.Put at bytes.now) result self.new }
    {
        self.host.put(at, bytes)
    }

    /// The host's memory.
    pub fn memory(&self) -> &HostMemory
        ensures { result.now ≡ self.now.host.memory }
    {
        self.host.memory()
    }

    /// The host port.
    pub fn host(&self) -> &HostPort
        ensures { result.now ≡ self.now.host.port }
    {
        self.host.port()
    }

    /// The port multiplier.
    pub fn multiplier(&self) -> &Multiplier
        ensures { result.now ≡ self.now.multiplier }
    {
        &self.multiplier
    }

    /// The frame that leaves a link next, if one is on it.
    pub fn oldest_on(&self, hop: Hop) -> Option<&Frame>
        ensures { option_copied result ≡ slice_get (frames_on hop self.now) 0 }
    {
        match hop {
            Hop::HostToPm => self.downward.oldest(),
            Hop::PmToHost => self.upward.oldest(),
            Hop::DeviceToPm(n) => match self.seats.get(n as usize) {
                None => None,
                Some(seat) => seat.up().oldest(),
            },
            Hop::PmToDevice(n) => match self.seats.get(n as usize) {
                None => None,
                Some(seat) => seat.down().oldest(),
            },
        }
    }

    /// The frame that entered a link last, if one is on it.
    pub fn newest_on(&self, hop: Hop) -> Option<&Frame>
        ensures { option_copied result ≡ last_item (frames_on hop self.now) }
    {
        match hop {
            Hop::HostToPm => self.downward.newest(),
            Hop::PmToHost => self.upward.newest(),
            Hop::DeviceToPm(n) => match self.seats.get(n as usize) {
                None => None,
                Some(seat) => seat.up().newest(),
            },
            Hop::PmToDevice(n) => match self.seats.get(n as usize) {
                None => None,
                Some(seat) => seat.down().newest(),
            },
        }
    }

    /// The unit at port `n`, if there is such a port.
    pub fn unit(&self, n: u8) -> Option<&D>
        ensures { option_map D.seen (option_copied result) ≡ option_map (λ place. place.unit) (slice_get self.now.devices n) }
    {
        match self.seats.get(n as usize) {
            None => None,
            Some(seat) => Some(seat.unit()),
        }
    }
}

/// Whether a world may have this size, with this many units.
fn is_config(config: Config, units: usize) -> bool
    ensures { result ≡ is_config config units }
{
    let sized = 1 <= config.ports
        && config.ports <= 15
        && 1 <= config.capacity
        && config.capacity <= 64;
    let memory = 2_097_152 <= config.memory && config.memory <= 16_777_216;
    sized && memory && config.memory % 2 == 0 && units == config.ports as usize
}

/// A seat for each unit.
fn seats_of<D: PortDevice + Drop>(
    alloc: Global,
    capacity: usize,
    mut units: Vec<D>,
) -> Result<Vec<Seat<D>>, AllocError>
    ensures { IfOk result (λ seats. seats.items ≡ map (opening capacity) (map D.seen units.items)) }
{
    let mut seats = Vec::with_capacity(alloc, units.len())?;
    'left: while !units.is_empty() {
        let unit = units.remove(0);
        seats.push(Seat::new(alloc, capacity, unit)?)?;
    }
    Ok(seats)
}

/// The answer to a frame that was taken.
fn took(frame: Frame, report: TakeReport) -> Answer
    ensures { let stamp = frame.stamp in
        result ≡ Answer.Took stamp.port stamp.conn stamp.number frame.bytes report }
{
    let stamp = frame.stamp();
    Answer::Took {
        port: stamp.port,
        conn: stamp.conn,
        number: stamp.number,
        bytes: frame.into_bytes(),
        report,
    }
}
