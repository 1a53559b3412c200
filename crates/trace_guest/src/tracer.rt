//! What is written of the moves of a machine.

use crate::event::{
    Access, Event, Fetch, Hearing, Moved, Outcome, Part, Put, Refused, Store, Stored,
};
use crate::event_json::EventJson;
use crate::event_text::{bytes_of_table, dword_at};
use crate::mirror::{Mirror, PmWrite};
use crate::open::Stage;
use crate::opening::Sizes;
use crate::progress::Progress;
use crate::structures::part_at;
use crate::telling::Telling;
use crate::warning::{Warning, broken_by, broken_in, named_by, value_of};
use crate::why::{DiskSeen, Why};
use ahci_controller::{Fed, Hindrance, Next, NotTaken, Took, Written};
use ahci_machine::{Act, GuestRead, Machine, Told, Wanted};
use ahci_registers::{Effect, Register};
use block_engine::{Failure as Failed, What};
use fis_view::Frame;
use guest_bytes::FlatGuest;
use multiplier::Passed;
use port_errors::DeviceCause;
use std::alloc::Global;
use std::io::Write;
use trace_text::{Compared, Failure, Known, bit_of, slots_about};

/// A FIS on its way down.
#[derive(Clone, Copy)]
struct Falling {
    port: u8,
    /// The slot of its command, if it is one.
    slot: Option<u8>,
    /// The write to a register of the multiplier that it asks for, if it does.
    write: Option<PmWrite>,
}

/// Writes what the driver does, what the controller decides, and each FIS that goes over the link, if that is asked for.
#[derive(Drop)]
pub struct Tracer {
    telling: Telling,
    /// How much was told.
    step: u64,
    /// How many FISes went over the link.
    fises: u64,
    /// The interrupt line, as it was told last.
    line: bool,
    /// It was told that PxCMD.PMA is 0.
    has_warned: bool,
    progress: Progress,
    /// How large the board is.
    sizes: Sizes,
    mirror: Mirror,
    /// By port: how many sectors its disk has, 0 while none is there.
    sectors: [u64; 16],
    /// The ports to which SET MULTIPLE MODE went, a bit each.
    blocks: u32,
    falling: Option<Falling>,
    /// A copy of the FIS that is on its way to the controller, if it is to be written what comes of it.
    rising: Option<Frame>,
    /// The controller took the FIS on its way, and what it brings is still being written.
    is_taken: bool,
    /// The machine came to rest, and no FIS went over the link and no register was written since. So the FISes at its ends wait.
    is_resting: bool,
    /// It was written that the FIS on its way to the controller waits.
    has_waited: bool,
}

/// PxCMD.PMA.
const MULTIPLIER: u32 = 0x2_0000;

/// SET MULTIPLE MODE.
const SET_MULTIPLE: u8 = 0xC6;

/// C of a header (AHCI 1.3.1, 4.2.2).
const CLEAR: u32 = 0x400;

impl Tracer {
    /// Of a machine on which nothing is on its way.
    pub fn new(telling: Telling, sizes: Sizes) -> Tracer {
        Tracer {
            telling,
            step: 0,
            fises: 0,
            line: false,
            has_warned: false,
            progress: Progress::new(),
            sizes,
            mirror: Mirror::new(sizes),
            sectors: [0; 16],
            blocks: 0,
            falling: None,
            rising: None,
            is_taken: false,
            is_resting: false,
            has_waited: false,
        }
    }

    /// Whether a FIS stands at an end of the link and may be the next to go over it.
    pub fn is_next(&self, machine: &Machine) -> bool {
        !self.is_resting
            && !self.is_taken
            && (machine.outgoing().is_some() || machine.incoming().is_some())
    }

    /// Writes one thing, if anything is told.
    fn say<W: Write>(&mut self, event: &Event<'_>, out: &mut W) -> Result<(), Failure> {
        if !self.telling.is_on() {
            return Ok(());
        }
        self.step = self.step.saturating_add(1);
        if self.telling.is_json() {
            let step = self.step;
            writeln!(out, "{}", EventJson { step, event })?;
        } else {
            writeln!(out, "{event}")?;
        }
        Ok(())
    }

    /// A register was read.
    pub fn tell_read<W: Write>(&mut self, access: Access, out: &mut W) -> Result<(), Failure> {
        self.say(&Event::Reads(access), out)
    }

    /// The disk of a port was plugged in, which has so many sectors.
    pub fn plug(&mut self, port: u8, sectors: u64) {
        self.mirror.plug(port);
        self.set_sectors(port, sectors);
    }

    fn set_sectors(&mut self, port: u8, sectors: u64) {
        if let Some(place) = self.sectors.get_mut(usize::from(port)) {
            *place = sectors;
        }
    }

    /// The disk of a port was pulled.
    pub fn pull(&mut self, port: u8) {
        self.mirror.pull(port);
        self.set_sectors(port, 0);
    }

    /// The guest wrote bytes to its memory.
    pub fn tell_put<W: Write>(
        &mut self,
        machine: &Machine,
        memory: &FlatGuest,
        at: u64,
        bytes: &[u8],
        out: &mut W,
    ) -> Result<(), Failure> {
        if !self.telling.is_on() {
            return Ok(());
        }
        let part = part_at(machine, memory, at, bytes.len());
        self.say(&Event::Puts(Put { at, bytes, part }), out)
    }

    /// A register is about to be written.
    pub fn tell_writing<W: Write>(
        &mut self,
        machine: &Machine,
        access: Access,
        out: &mut W,
    ) -> Result<(), Failure> {
        if !self.telling.is_on() {
            return Ok(());
        }
        self.say(&Event::Writes(access), out)?;
        let Some(register) = Register::at(access.offset) else {
            return Ok(());
        };
        let named = named_by(value_of(machine, Register::PxFbs));
        let issued = value_of(machine, Register::PxCi);
        let may_be_busy = self.progress.may_be_busy(named, issued);
        if let Some(warning) = broken_by(machine, register, access.value, may_be_busy) {
            self.say(&Event::Warns(warning), out)?;
        }
        self.note_write(machine, register, access.value);
        Ok(())
    }

    /// What a write of a register means for the commands.
    fn note_write(&mut self, machine: &Machine, register: Register, value: u32) {
        match register {
            Register::PxCi => {
                let fresh = value & !value_of(machine, Register::PxCi);
                let named = named_by(value_of(machine, Register::PxFbs));
                let armed = value_of(machine, Register::PxSact);
                self.progress.issue(fresh, named.unwrap_or(0), armed);
            }
            Register::PxFbs if value & 2 != 0 => {
                let shown = value_of(machine, Register::PxFbs) >> 16 & 0xF;
                self.progress.clear(shown as u8);
            }
            Register::PxCmd if value & 1 == 0 => self.progress.stop(),
            _ => {}
        }
    }

    /// A register was written.
    pub fn tell_written<W: Write>(
        &mut self,
        machine: &Machine,
        written: &Written,
        out: &mut W,
    ) -> Result<(), Failure> {
        self.is_resting = false;
        if let Some(why) = written.ignored {
            self.say(&Event::Ignores(why), out)?;
        }
        if written.ended != 0 {
            self.say(&Event::Ends(written.ended), out)?;
        }
        if written.effect != Effect::Nothing {
            self.progress.stop();
            self.mirror.renew(self.sizes);
        }
        self.tell_line(machine, out)
    }

    /// Writes what became of the interrupt line.
    fn tell_line<W: Write>(&mut self, machine: &Machine, out: &mut W) -> Result<(), Failure> {
        let line = machine.line();
        if line == self.line {
            return Ok(());
        }
        self.line = line;
        self.say(&Event::Line(line), out)
    }

    /// Bytes of the guest are wanted, and are these; None if they are not all memory.
    pub fn tell_fetch<W: Write>(
        &mut self,
        machine: &Machine,
        read: GuestRead,
        bytes: Option<&[u8]>,
        out: &mut W,
    ) -> Result<(), Failure> {
        if !self.telling.is_on() {
            return Ok(());
        }
        let GuestRead { wanted, at, len } = read;
        let part = match wanted {
            Wanted::Command { slot, .. } => self.progress.part(slot),
            Wanted::Data { dev, .. } => Part::Data(dev),
        };
        let fetch = Fetch {
            part,
            at,
            len,
            bytes,
        };
        self.say(&Event::Fetches(fetch), out)?;
        match (part, bytes) {
            (Part::Header(slot), Some(bytes)) => self.judge_header(machine, slot, bytes, out),
            (Part::Fis(slot), Some(bytes)) => self.judge_command(slot, bytes, out),
            (Part::Table(slot), Some(bytes)) => {
                self.progress.read_table(slot, bytes_of_table(bytes));
                Ok(())
            }
            _ => Ok(()),
        }
    }

    /// Warns of the header of a slot.
    fn judge_header<W: Write>(
        &mut self,
        machine: &Machine,
        slot: u8,
        bytes: &[u8],
        out: &mut W,
    ) -> Result<(), Failure> {
        let first = dword_at(bytes, 0);
        let port = (first >> 12 & 0xF) as u8;
        let switching = named_by(value_of(machine, Register::PxFbs));
        self.progress
            .read_header(switching.map(|_| port), first & CLEAR != 0);
        let is_told = value_of(machine, Register::PxCmd) & MULTIPLIER != 0;
        if port != 0 && !is_told && !self.has_warned {
            self.has_warned = true;
            self.say(&Event::Warns(Warning::NoMultiplier { slot, port }), out)?;
        }
        let named = self.progress.slot(slot).named;
        if switching.is_none() || port == named {
            return Ok(());
        }
        self.say(
            &Event::Warns(Warning::OtherDevice { slot, port, named }),
            out,
        )
    }

    /// Warns of the command of a slot.
    fn judge_command<W: Write>(
        &mut self,
        slot: u8,
        bytes: &[u8],
        out: &mut W,
    ) -> Result<(), Failure> {
        self.progress.read_command(slot, bytes);
        match broken_in(slot, bytes, self.progress.slot(slot).is_armed) {
            Some(warning) => self.say(&Event::Warns(warning), out),
            None => Ok(()),
        }
    }

    /// Bytes of the guest came, or are no memory.
    pub fn tell_answer<W: Write>(
        &mut self,
        machine: &Machine,
        told: Told,
        out: &mut W,
    ) -> Result<(), Failure> {
        match told {
            Told::Issued { slot, dev } => {
                self.progress.reach(slot, Stage::Issued(dev));
                self.say(&Event::Issues { slot, dev }, out)?;
            }
            Told::NotTaken { slot, why } => self.tell_refused(slot, why, out)?,
            Told::Missed { slot, fed } => self.tell_missed(slot, fed, out)?,
            Told::Stale | Told::Kept => {}
        }
        self.tell_line(machine, out)
    }

    /// The command of a slot is not taken.
    fn tell_refused<W: Write>(
        &mut self,
        slot: u8,
        why: NotTaken,
        out: &mut W,
    ) -> Result<(), Failure> {
        self.progress.fail(slot);
        let named = self.progress.slot(slot).named;
        self.say(&Event::Refuses(Refused { slot, why, named }), out)
    }

    /// Bytes of a Data FIS are no memory.
    fn tell_missed<W: Write>(&mut self, slot: u8, fed: Fed, out: &mut W) -> Result<(), Failure> {
        if let Fed::Missed { .. } = fed {
            self.progress.fail(slot);
            self.say(&Event::Misses(slot), out)?;
        }
        Ok(())
    }

    /// Bytes went to the guest's memory, or are lost.
    pub fn tell_store<W: Write>(
        &mut self,
        act: Act,
        len: usize,
        is_lost: bool,
        out: &mut W,
    ) -> Result<(), Failure> {
        let (what, at) = match act {
            Act::Writes(Next::Payload(write)) => (Stored::Data, write.at),
            Act::Writes(Next::Posted(write)) => (Stored::Fis, write.at),
            Act::Writes(Next::Counted(count)) => (Stored::Count(count.value), count.at),
            _ => return Ok(()),
        };
        let store = Store {
            what,
            at,
            len,
            is_lost,
        };
        self.say(&Event::Stores(store), out)
    }

    /// A disk asked its medium, and this was answered.
    pub fn tell_asked<W: Write>(
        &mut self,
        port: u8,
        what: What,
        failed: Option<Failed>,
        out: &mut W,
    ) -> Result<(), Failure> {
        self.say(&Event::Asks { port, what, failed }, out)
    }

    /// The machine made a move.
    pub fn tell<W: Write>(
        &mut self,
        alloc: Global,
        machine: &Machine,
        act: Act,
        out: &mut W,
    ) -> Result<(), Failure> {
        match act {
            Act::Does(Next::Order { dev, slot, .. }) => self.falls(machine, dev, Some(slot), out)?,
            Act::Gathers {
                dev,
                fed: Fed::Goes { .. },
            } => self.falls(machine, dev, None, out)?,
            Act::Sends(passed) => self.sends(passed, out)?,
            Act::Rises => self.rises(alloc, machine)?,
            Act::Takes(took) => self.takes(machine, took, out)?,
            Act::Loses(why) => self.ends(Outcome::Hindered(why), None, out)?,
            Act::LetsGo => self.is_taken = false,
            Act::Rests => self.rests(machine, out)?,
            Act::Misses { slot, fed } => self.tell_missed(slot, fed, out)?,
            Act::Hears {
                port,
                unheard: Some(why),
            } => {
                self.progress.lose(port, Stage::Unheard(port));
                self.say(&Event::Unheard { port, why }, out)?;
            }
            Act::Drops(port) => self.drops(port, out)?,
            _ => {}
        }
        self.tell_line(machine, out)
    }

    /// A FIS is on its way down to this port.
    fn falls<W: Write>(
        &mut self,
        machine: &Machine,
        port: u8,
        slot: Option<u8>,
        out: &mut W,
    ) -> Result<(), Failure> {
        let write = machine.outgoing().and_then(PmWrite::of);
        self.falling = Some(Falling { port, slot, write });
        self.fises = self.fises.saturating_add(1);
        let why = match slot {
            Some(slot) => self.why_of(port, slot),
            None => None,
        };
        self.note_block(port, slot);
        self.say_moved("down", machine.outgoing(), slot, Outcome::Sent, why, out)
    }

    /// SET MULTIPLE MODE may go down to this port.
    fn note_block(&mut self, port: u8, slot: Option<u8>) {
        if let Some(slot) = slot {
            if self.progress.slot(slot).code() == Some(SET_MULTIPLE) {
                self.blocks |= bit_of(port);
            }
        }
    }

    /// Why the disk of a port fails the command of a slot, if it does.
    fn why_of(&self, port: u8, slot: u8) -> Option<Why> {
        let sectors = self.sectors.get(usize::from(port)).copied().unwrap_or(0);
        if sectors == 0 {
            return None;
        }
        let disk = DiskSeen {
            port,
            sectors,
            has_block: self.blocks & bit_of(port) != 0,
        };
        Why::of(&self.progress.slot(slot).command?, disk)
    }

    /// It went over the link.
    fn sends<W: Write>(&mut self, passed: Passed, out: &mut W) -> Result<(), Failure> {
        self.is_resting = false;
        let Some(Falling { port, slot, write }) = self.falling.take() else {
            return Ok(());
        };
        if let (Some(write), Passed::Control) = (write, passed) {
            self.mirror.write(write);
        }
        if let Some(slot) = slot {
            self.progress.reach(slot, Stage::Sent(port));
        }
        match passed {
            Passed::Dropped => self.drops(port, out),
            Passed::Control | Passed::Down(_) => Ok(()),
        }
    }

    /// It is dropped.
    fn drops<W: Write>(&mut self, port: u8, out: &mut W) -> Result<(), Failure> {
        self.progress.lose(port, Stage::Dropped(port));
        let closed = self.mirror.port(port);
        self.say(&Event::Drops(closed), out)
    }

    /// A FIS is on its way to the controller.
    fn rises(&mut self, alloc: Global, machine: &Machine) -> Result<(), Failure> {
        self.has_waited = false;
        self.rising = match machine.incoming() {
            Some(frame) if self.telling.is_on() => Some(frame.copy(alloc)?),
            _ => None,
        };
        Ok(())
    }

    /// The controller took it.
    fn takes<W: Write>(
        &mut self,
        machine: &Machine,
        took: Took,
        out: &mut W,
    ) -> Result<(), Failure> {
        self.is_taken = true;
        let report = took.report;
        let waiting = value_of(machine, Register::PxCi) | value_of(machine, Register::PxSact);
        let commands = self.progress.out_of(report.dev, waiting);
        let outcome = match took.ignored {
            Some(why) => Outcome::Ignored(why, self.progress.fault_of(report.dev)),
            None => Outcome::Heard(Hearing {
                report,
                brought: took.brought,
                first: self.progress.first_fault(report.dev),
                compared: self.compare(took, commands),
            }),
        };
        let why = self.why_failed(took, commands);
        self.note_taken(took);
        self.ends(outcome, why, out)
    }

    /// What the fault compares that the FIS on its way made. The commands of its device in these slots are out.
    fn compare(&self, took: Took, commands: u32) -> Option<Compared> {
        let cause = took.report.fault?;
        let frame = self.rising.as_ref()?.bytes();
        let about = match took.brought.or(took.report.wrote) {
            Some(wrote) => bit_of(wrote.slot),
            None => slots_about(frame, commands),
        };
        let known = Known {
            out: commands,
            command: self.progress.moving(about, cause == DeviceCause::Short),
            left: self.progress.flow().left(took.report.dev),
        };
        Compared::of(cause, frame, known)
    }

    /// Why the disk failed the only command of its device that was sent, of those in these slots.
    fn why_failed(&self, took: Took, commands: u32) -> Option<Why> {
        if took.report.fault != Some(DeviceCause::TaskFile) {
            return None;
        }
        let error = self.rising.as_ref()?.bytes().get(3).copied()?;
        let slot = self.progress.only_sent(commands)?;
        self.why_of(took.report.dev, slot)
            .filter(|why| error & why.error() != 0)
    }

    /// Notes what the FIS on its way brought.
    fn note_taken(&mut self, took: Took) {
        let report = took.report;
        if let Some(wrote) = took.brought.or(report.wrote) {
            self.progress
                .flow_mut()
                .come(report.dev, wrote.slot, wrote.len);
        }
        match (report.fault, &self.rising) {
            (Some(cause), _) => self.progress.fault(report.dev, cause),
            (None, Some(frame)) if took.ignored.is_none() => {
                self.progress.flow_mut().hear(report.dev, frame.bytes());
            }
            _ => {}
        }
    }

    /// It went over the link.
    fn ends<W: Write>(
        &mut self,
        outcome: Outcome,
        why: Option<Why>,
        out: &mut W,
    ) -> Result<(), Failure> {
        self.is_resting = false;
        self.fises = self.fises.saturating_add(1);
        let frame = self.rising.take();
        self.say_moved("up", frame.as_ref(), None, outcome, why, out)
    }

    /// Nothing can move. The FIS on its way to the controller waits.
    fn rests<W: Write>(&mut self, machine: &Machine, out: &mut W) -> Result<(), Failure> {
        self.is_resting = true;
        if !self.has_waited {
            self.has_waited = true;
            let waits = Outcome::Hindered(Hindrance::NotReceiving);
            self.say_moved("waits", machine.incoming(), None, waits, None, out)?;
        }
        self.tell_open(machine, out)
    }

    /// Writes which slots are still in use, and what they wait for.
    fn tell_open<W: Write>(&mut self, machine: &Machine, out: &mut W) -> Result<(), Failure> {
        if !self.telling.is_on() {
            return Ok(());
        }
        let issued = value_of(machine, Register::PxCi);
        let armed = value_of(machine, Register::PxSact);
        for slot in 0..32_u8 {
            let bit = bit_of(slot);
            if (issued | armed) & bit != 0 {
                let open = self.progress.open(slot, issued & bit != 0);
                self.say(&Event::Open(open), out)?;
            }
        }
        Ok(())
    }

    /// Writes a FIS at the link.
    fn say_moved<W: Write>(
        &mut self,
        way: &str,
        frame: Option<&Frame>,
        slot: Option<u8>,
        outcome: Outcome,
        why: Option<Why>,
        out: &mut W,
    ) -> Result<(), Failure> {
        let Some(frame) = frame else {
            return Ok(());
        };
        let moved = Moved {
            way,
            frame,
            slot,
            number: self.fises,
            outcome,
            why,
        };
        self.say(&Event::Moves(moved), out)
    }
}
