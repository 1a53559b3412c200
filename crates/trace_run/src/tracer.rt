//! Tells about each step of a run that moved something.

use crate::blame::Blame;
use crate::event::{Act, Change, Ending, Event, EventText, Hearing, Mark, Registers, Upshot};
use crate::event_json::EventJson;
use crate::places::{Places, Waiting};
use crate::reason::Fault;
use crate::refused::{Refused, RefusedJson};
use crate::tickets::{Asked, Tickets};
use crate::watch::Watch;
use fis_view::Frame;
use hba_driver::{Completion, Ticket};
use hba_fbs::{HostPort, Register, TakeReport};
use host_memory::HostMemory;
use multiplier::Passed;
use pm_registers::{PSCR_CONTROL, PSCR_ERROR, PSCR_STATUS};
use pm_world::{Answer, Hop, Step, World};
use port_errors::DeviceCause;
use std::alloc::{AllocError, Global};
use std::io::Write;
use std::mem;
use trace_text::{
    Closed, Compared, ErrorLog, Failure, Flow, Known, Moving, Transfer, bit_of, named_slots,
    slots_about,
};

/// What is seen of a world before a step of it.
#[derive(Drop)]
pub struct Sight {
    /// The frame that the step takes off a link.
    frame: Option<Frame>,
    /// How many frames the multiplier has dropped.
    dropped: u32,
    /// What the driver will look at and change.
    registers: Option<Registers>,
}

impl Sight {
    /// What this step will move.
    pub fn of(alloc: Global, world: &World, step: &Step) -> Result<Sight, AllocError> {
        Ok(Sight {
            frame: oldest_for(alloc, world, step)?,
            dropped: world.multiplier().dropped(),
            registers: match step {
                Step::Tick => Some(registers_of(world.host())),
                _ => None,
            },
        })
    }
}

/// The frame that this step will take off a link, if it will take one.
fn oldest_for(alloc: Global, world: &World, step: &Step) -> Result<Option<Frame>, AllocError> {
    match step {
        Step::DiskTake(n) => oldest_on(alloc, world, Hop::PmToDevice(*n)),
        Step::PmFromDevice(n) => oldest_on(alloc, world, Hop::DeviceToPm(*n)),
        Step::PmFromHost => oldest_on(alloc, world, Hop::HostToPm),
        _ => Ok(None),
    }
}

/// The oldest frame on a link, if one is there.
fn oldest_on(alloc: Global, world: &World, hop: Hop) -> Result<Option<Frame>, AllocError> {
    match world.oldest_on(hop) {
        Some(frame) => Ok(Some(frame.copy(alloc)?)),
        None => Ok(None),
    }
}

/// What the registers of a host port show.
fn registers_of(port: &HostPort) -> Registers {
    Registers {
        clb: shown(port, Register::Clb),
        clbu: shown(port, Register::Clbu),
        fb: shown(port, Register::Fb),
        fbu: shown(port, Register::Fbu),
        interrupts: shown(port, Register::Is),
        cmd: shown(port, Register::Cmd),
        serr: shown(port, Register::Serr),
        sact: shown(port, Register::Sact),
        ci: shown(port, Register::Ci),
        sntf: shown(port, Register::Sntf),
        fbs: shown(port, Register::Fbs),
    }
}

fn shown(port: &HostPort, register: Register) -> u32 {
    port.read(register.offset()).unwrap_or(0)
}

/// Tells about steps, as far as they are asked for.
#[derive(Drop)]
pub struct Tracer {
    watch: Watch,
    /// How many steps have moved something.
    number: u64,
    tickets: Tickets,
    /// How many times each port of the multiplier recorded that its device came or went.
    recorded: [u32; 16],
    places: Places,
    flow: Flow,
    blame: Blame,
}

impl Tracer {
    /// Nothing has moved.
    pub fn new(alloc: Global, watch: Watch) -> Tracer {
        Tracer {
            watch,
            number: 0,
            tickets: Tickets::new(),
            recorded: [0; 16],
            places: Places::new(alloc),
            flow: Flow::new(),
            blame: Blame::new(),
        }
    }

    /// Whether anything is to be told.
    pub fn is_on(&self) -> bool {
        self.watch.is_on
    }

    /// Tells about a step that gave this answer. The sight is what was seen before it.
    pub fn note<W: Write>(
        &mut self,
        world: &World,
        step: &Step,
        sight: Sight,
        answer: &Answer,
        out: &mut W,
    ) -> Result<(), Failure> {
        self.tell(world, step, &sight, answer, out)?;
        if let Answer::Polled(completion) = answer {
            self.tickets.free(completion.slot);
        }
        let Sight {
            frame,
            dropped: _,
            registers: _,
        } = sight;
        Ok(self.places.note(answer, frame)?)
    }

    /// Writes what a step did that gave this answer.
    fn tell<W: Write>(
        &mut self,
        world: &World,
        step: &Step,
        sight: &Sight,
        answer: &Answer,
        out: &mut W,
    ) -> Result<(), Failure> {
        let lost = self.lost(answer);
        match self.event(world, step, sight, answer) {
            Some(event) => {
                let event = Event {
                    lost: lost.as_ref(),
                    ..event
                };
                self.write(&event, out)
            }
            None => Ok(()),
        }
    }

    /// What waited at a port whose device went, if that is what a step recorded.
    fn lost(&mut self, answer: &Answer) -> Option<Waiting> {
        let Answer::Presence(port) = answer else {
            return None;
        };
        match self.recorded.get(usize::from(*port)) {
            Some(count) if *count % 2 == 1 => Some(self.places.clear(*port)),
            _ => None,
        }
    }

    /// Tells about a step that was refused, or whose request was.
    pub fn note_refused<W: Write>(
        &self,
        refused: &Refused<'_>,
        out: &mut W,
    ) -> Result<(), Failure> {
        let Watch { port, from, .. } = self.watch;
        let is_asked = port.is_none() || refused.port() == port;
        if !is_asked || self.number.saturating_add(1) < from {
            return Ok(());
        }
        if self.watch.is_json {
            writeln!(out, "{}", RefusedJson(refused))?;
        } else {
            writeln!(out, "{refused}")?;
        }
        Ok(())
    }

    /// Writes a step, if it is asked for.
    fn write<W: Write>(&self, event: &Event<'_>, out: &mut W) -> Result<(), Failure> {
        if !self.is_asked(event) {
            return Ok(());
        }
        let tickets = &self.tickets;
        if self.watch.is_json {
            let has_bytes = self.watch.has_bytes;
            writeln!(
                out,
                "{}",
                EventJson {
                    event,
                    tickets,
                    has_bytes
                }
            )?;
        } else {
            writeln!(out, "{}", EventText { event, tickets })?;
        }
        Ok(())
    }

    fn is_asked(&self, event: &Event<'_>) -> bool {
        let Watch {
            port,
            is_faults,
            from,
            ..
        } = self.watch;
        event.number >= from
            && (port.is_none() || event.port == port)
            && (!is_faults || event.upshot.is_trouble())
    }

    /// What a step did; None if it moved nothing.
    fn event<'a>(
        &mut self,
        world: &'a World,
        step: &Step,
        sight: &'a Sight,
        answer: &'a Answer,
    ) -> Option<Event<'a>> {
        if matches!(answer, Answer::Idle | Answer::Blocked | Answer::Refused(_)) {
            return None;
        }
        self.number = self.number.saturating_add(1);
        Some(Event {
            number: self.number,
            ..self.told(world, step, sight, answer)
        })
    }

    /// What a step did that moved something.
    fn told<'a>(
        &mut self,
        world: &'a World,
        step: &Step,
        sight: &'a Sight,
        answer: &'a Answer,
    ) -> Event<'a> {
        match answer {
            Answer::Came { port, conn } => connection(Act::Came(*port), *port, *conn, false),
            Answer::Gone { port, conn } => connection(Act::Gone(*port), *port, *conn, true),
            Answer::Presence(port) => self.presence(world, *port, sight),
            Answer::Ticked => self.ticked(world, sight),
            Answer::Submitted(ticket) => self.submit(world, step, *ticket),
            Answer::Polled(completion) => self.polled(*completion),
            Answer::Took { port, report, .. } => {
                let hearing = self.hear(world, answer, *report);
                took(
                    Act::HostTakes(*port),
                    *port,
                    Upshot::Report(hearing),
                    answer,
                )
            }
            Answer::Put => put(step),
            moved => move_of(world, sight, moved),
        }
    }

    /// A port of the multiplier recorded what came or went. The changes of a port alternate: its
    /// connections count from 1, and each comes and then goes.
    fn presence(&mut self, world: &World, port: u8, sight: &Sight) -> Event<'static> {
        let count = match self.recorded.get_mut(usize::from(port)) {
            Some(recorded) => mem::replace(recorded, recorded.saturating_add(1)),
            None => 0,
        };
        let dropped = world.multiplier().dropped().saturating_sub(sight.dropped);
        self.blame.begin(port);
        let upshot = Upshot::Connection {
            conn: (count / 2).saturating_add(1),
            is_gone: count % 2 == 1,
            dropped,
        };
        Event::plain(Act::Records(port), Some(port), upshot)
    }

    /// The host port took a FIS, and did this with it.
    fn hear(&mut self, world: &World, answer: &Answer, report: TakeReport) -> Hearing {
        self.tickets.done(report.done);
        let log = log_of(world, answer, report);
        if let Some(log) = log {
            self.tickets.log(report.dev, log);
        }
        let out = out_of(world, report.dev);
        let compared = self.compare(world, answer, report, out);
        let follows = self.first_fault(world, answer, report);
        self.note_flow(answer, report, follows, out);
        let failed = match report.fault {
            Some(DeviceCause::TaskFile) => {
                self.tickets.waiting(report.dev) & out_slots(world.host())
            }
            _ => 0,
        };
        if let Some(cause) = report.fault {
            let step = self.number;
            self.tickets.fault(report.dev, Fault { step, cause });
        }
        Hearing {
            report,
            log,
            failed,
            compared,
            follows,
        }
    }

    /// What the fault compares that a FIS made. The commands of its device in these slots are out.
    fn compare(
        &self,
        world: &World,
        answer: &Answer,
        report: TakeReport,
        out: u32,
    ) -> Option<Compared> {
        let cause = report.fault?;
        let frame = taken(answer)?;
        let about = match report.wrote {
            Some(wrote) => bit_of(wrote.slot),
            None => slots_about(frame, out),
        };
        let known = Known {
            out,
            command: self.moving(world, about, cause == DeviceCause::Short),
            left: self.flow.left(report.dev),
        };
        Compared::of(cause, frame, known)
    }

    /// The command in the lowest of these slots, if it moves bytes, or of those only one whose bytes did not all come.
    fn moving(&self, world: &World, mask: u32, is_short: bool) -> Option<Moving> {
        for slot in 0..32_u8 {
            if mask & bit_of(slot) != 0 {
                let command = command_of(world.memory(), usize::from(slot))?;
                let transfer = Transfer::of(command)?;
                let came = self.flow.came(slot);
                if !is_short || came < transfer.bytes {
                    return Some(Moving {
                        slot,
                        transfer,
                        came,
                        room: None,
                    });
                }
            }
        }
        None
    }

    /// The earlier fault of its device but for which a FIS would have been heard, or would not have made this one.
    fn first_fault(&self, world: &World, answer: &Answer, report: TakeReport) -> Option<Fault> {
        let (dev, frame) = (report.dev, taken(answer)?);
        if report.ignored {
            return self
                .blame
                .first_of(dev)
                .filter(|_| is_deaf_to(world.host(), dev));
        }
        match (report.fault?, *frame.first()?) {
            (DeviceCause::BadTag, SETUP) => {
                let tag = named_slots(frame).trailing_zeros() as u8;
                self.blame.reason_of(tag, dev)
            }
            (DeviceCause::Stray, _) => self.blame.setup_of(dev),
            _ => None,
        }
    }

    /// Notes how far the data went, and what this fault led to.
    fn note_flow(&mut self, answer: &Answer, report: TakeReport, follows: Option<Fault>, out: u32) {
        let Some(frame) = taken(answer) else {
            return;
        };
        let dev = report.dev;
        let step = self.number;
        let first = match (follows, report.fault) {
            (None, Some(cause)) => Some(Fault { step, cause }),
            (follows, _) => follows,
        };
        if frame.first() == Some(&SETUP) {
            self.blame.set_setup(dev, first);
        }
        if let (Some(first), Some(_)) = (first, report.fault) {
            self.blame.fault(dev, first, out);
            return;
        }
        if let Some(wrote) = report.wrote {
            self.flow.come(dev, wrote.slot, wrote.len);
        }
        if is_signature(frame) {
            self.blame.begin(dev);
        }
        self.flow.hear(dev, frame);
    }

    /// The driver did something.
    fn ticked<'a>(&mut self, world: &'a World, sight: &Sight) -> Event<'a> {
        let event = tick(world, sight);
        if let Some(change) = event.registers {
            self.flow.issue(change.issued());
            self.blame.issue(change.issued());
        }
        event
    }

    /// The driver took a request.
    fn submit(&mut self, world: &World, step: &Step, ticket: Ticket) -> Event<'static> {
        let Step::Submit(dev, request) = step else {
            return Event::plain(Act::Drives, None, Upshot::Plain);
        };
        let asked = Asked {
            device: *dev,
            work: request.work,
            lba: request.lba,
            sectors: request.sectors,
        };
        let is_faulty = *dev < 16 && world.host().cause(*dev).is_some();
        let slot = self.tickets.take(ticket.0, asked, is_faulty);
        Event {
            slots: slot.map_or(0, bit_of),
            ..Event::plain(Act::Drives, Some(*dev), Upshot::Submitted(asked))
        }
    }

    /// A request was polled.
    fn polled(&self, completion: Completion) -> Event<'static> {
        let asked = self.tickets.asked(completion.slot);
        let port = asked.map(|asked| asked.device);
        let ending = Ending {
            completion,
            reason: self.tickets.reason(completion.slot),
        };
        Event {
            slots: bit_of(completion.slot),
            ..Event::plain(Act::Drives, port, Upshot::Polled(ending))
        }
    }
}

/// The slots of the commands that a host port has issued and that have not ended.
fn out_slots(port: &HostPort) -> u32 {
    shown(port, Register::Ci) | shown(port, Register::Sact)
}

/// The slots of the commands of a device that have not ended.
fn out_of(world: &World, device: u8) -> u32 {
    let out = out_slots(world.host());
    let mut mask = 0u32;
    for slot in 0..32_u8 {
        if out & bit_of(slot) != 0 {
            let command = command_of(world.memory(), usize::from(slot));
            if command.map(port_of) == Some(device) {
                mask |= bit_of(slot);
            }
        }
    }
    mask
}

/// Whether a host port hears nothing of a device because of its fault alone.
fn is_deaf_to(port: &HostPort, device: u8) -> bool {
    let is_running = shown(port, Register::Cmd) & 1 != 0 && port.port_cause().is_none();
    is_running && device < 16 && port.cause(device).is_some()
}

/// The bytes of a FIS that the host port took.
fn taken(answer: &Answer) -> Option<&[u8]> {
    match answer {
        Answer::Took { bytes, .. } => Some(bytes.as_slice()),
        _ => None,
    }
}

/// The type of a DMA Setup FIS.
const SETUP: u8 = 0x41;

/// Whether a FIS of these bytes is a signature, with which a device begins: Count and LBA 7:0 are 1.
fn is_signature(frame: &[u8]) -> bool {
    matches!(frame, [0x34, _, _, 1, 1, _, _, _, _, _, _, _, 1, ..])
}

/// The log of a device that a FIS brought whole, as the answer to a command that asks for it.
fn log_of(world: &World, answer: &Answer, report: TakeReport) -> Option<ErrorLog> {
    let (Answer::Took { bytes, .. }, Some(wrote)) = (answer, report.wrote) else {
        return None;
    };
    let command = command_of(world.memory(), usize::from(wrote.slot))?;
    ErrorLog::carried(command, bytes.as_slice())
}

/// A device came or went.
fn connection(act: Act, port: u8, conn: u32, is_gone: bool) -> Event<'static> {
    let upshot = Upshot::Connection {
        conn,
        is_gone,
        dropped: 0,
    };
    Event::plain(act, Some(port), upshot)
}

/// Bytes were put to client memory.
fn put(step: &Step) -> Event<'static> {
    let upshot = match step {
        Step::Put(at, bytes) => Upshot::Put {
            at: *at,
            len: bytes.as_slice().len(),
        },
        _ => Upshot::Plain,
    };
    Event::plain(Act::Drives, None, upshot)
}

/// The driver did something: what it changed, and the command of the lowest slot that it issued.
fn tick<'a>(world: &'a World, sight: &Sight) -> Event<'a> {
    let plain = Event::plain(Act::Drives, None, Upshot::Plain);
    let Some(before) = sight.registers else {
        return plain;
    };
    let after = registers_of(world.host());
    let change = Change { before, after };
    let slots = change.issued();
    let frame = command_of(world.memory(), slots.trailing_zeros() as usize);
    Event {
        port: frame.map(port_of),
        frame,
        slots,
        registers: Some(change),
        ..plain
    }
}

/// The command FIS that stands in memory for a slot.
fn command_of(memory: &HostMemory, slot: usize) -> Option<&[u8]> {
    if slot >= 32 {
        return None;
    }
    let bytes = memory.structure();
    let field = bytes.get(32 * slot + 8..32 * slot + 12)?;
    let start = field
        .iter()
        .rev()
        .fold(0usize, |value, byte| value << 8 | usize::from(*byte));
    bytes.get(start..start.saturating_add(20))
}

/// The PM Port of a frame.
fn port_of(frame: &[u8]) -> u8 {
    frame.get(1).copied().unwrap_or(0) & 0x0F
}

/// A FIS moved.
fn move_of<'a>(world: &'a World, sight: &'a Sight, answer: &'a Answer) -> Event<'a> {
    let left = sight.frame.as_ref();
    match answer {
        Answer::DiskTook { port, dropped } => {
            let upshot = dropped_if(*dropped, "it was for a connection that is no more");
            down(Act::DiskTakes(*port), Some(*port), upshot, left)
        }
        Answer::Offered { port, dropped } => {
            let upshot = dropped_if(*dropped, "its connection is gone");
            up(Act::PmTakesUp(*port), *port, upshot, left)
        }
        Answer::Up(port) => {
            let frame = world.newest_on(Hop::PmToHost);
            up(Act::PmSendsUp(*port), *port, Upshot::Plain, frame)
        }
        Answer::Passed(passed) => {
            let port = left.map(|frame| frame.pm_port());
            down(
                Act::PmTakesDown,
                port,
                passed_to(world, *passed, port),
                left,
            )
        }
        Answer::Down(port) => {
            let frame = world.newest_on(Hop::PmToDevice(*port));
            down(Act::PmSendsDown(*port), Some(*port), Upshot::Plain, frame)
        }
        Answer::Pushed => {
            let frame = world.newest_on(Hop::HostToPm);
            let port = frame.map(|frame| frame.pm_port());
            down(Act::HostSends, port, Upshot::Plain, frame)
        }
        shown => shown_move(shown),
    }
}

/// A FIS moved, and the answer has its bytes.
fn shown_move(answer: &Answer) -> Event<'_> {
    match answer {
        Answer::Sent {
            port,
            conn,
            number,
            bytes,
        } => {
            let told = Event::plain(Act::DiskSends(*port), Some(*port), Upshot::Plain);
            with_bytes(told, *conn, *number, bytes.as_slice())
        }
        _ => Event::plain(Act::Drives, None, Upshot::Plain),
    }
}

/// The host port took a FIS, whose bytes the answer has.
fn took(act: Act, port: u8, upshot: Upshot, answer: &Answer) -> Event<'_> {
    let told = Event::plain(act, Some(port), upshot);
    match answer {
        Answer::Took {
            conn,
            number,
            bytes,
            ..
        } => with_bytes(told, *conn, *number, bytes.as_slice()),
        _ => told,
    }
}

fn dropped_if(is_dropped: bool, why: &'static str) -> Upshot {
    if is_dropped {
        Upshot::Dropped(why)
    } else {
        Upshot::Plain
    }
}

fn passed_to(world: &World, passed: Passed, port: Option<u8>) -> Upshot {
    match (passed, port) {
        (Passed::Control, _) => Upshot::Control,
        (Passed::Down(_), _) => Upshot::Plain,
        (Passed::Dropped, Some(port)) => Upshot::Closed(closed(world, port)),
        (Passed::Dropped, None) => Upshot::Dropped("its port passes none"),
    }
}

/// The registers of a port of the multiplier.
fn closed(world: &World, port: u8) -> Closed {
    let registers = world.multiplier().registers();
    Closed {
        port,
        ports: registers.ports(),
        status: registers.read(port, PSCR_STATUS).unwrap_or(0),
        error: registers.read(port, PSCR_ERROR).unwrap_or(0),
        control: registers.read(port, PSCR_CONTROL).unwrap_or(0),
    }
}

/// A FIS of these bytes, on a connection.
fn with_bytes<'a>(told: Event<'a>, conn: u32, number: u32, bytes: &'a [u8]) -> Event<'a> {
    Event {
        mark: Some(Mark {
            conn: Some(conn),
            number,
        }),
        frame: Some(bytes),
        ..told
    }
}

/// A frame on its way up.
fn up<'a>(act: Act, port: u8, upshot: Upshot, frame: Option<&'a Frame>) -> Event<'a> {
    let told = Event::plain(act, Some(port), upshot);
    match frame {
        None => told,
        Some(frame) => {
            let stamp = frame.stamp();
            with_bytes(told, stamp.conn, stamp.number, frame.bytes())
        }
    }
}

/// A frame of the host on its way down to this port. On the link to a device its own PM Port field is
/// 0.
fn down<'a>(act: Act, port: Option<u8>, upshot: Upshot, frame: Option<&'a Frame>) -> Event<'a> {
    let told = Event::plain(act, port, upshot);
    match frame {
        None => told,
        Some(frame) => Event {
            mark: Some(Mark {
                conn: None,
                number: frame.stamp().number,
            }),
            frame: Some(frame.bytes()),
            ..told
        },
    }
}
