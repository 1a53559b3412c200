//! A scenario as it goes on.

use crate::due::Due;
use crate::opening::{Opening, Sizes};
use crate::parse::{Action, Setting, filed_disk};
use crate::refused::{Refused, Why};
use crate::round_step::RoundStep;
use crate::text::{Reply, print_faults, print_register, print_registers, print_sizes, print_view};
use crate::tracer::{Sight, Tracer};
use crate::watch::Watch;
use disk_model::Unit;
use pm_world::{Answer, Counts, Step, StepError, World, WorldError};
use std::alloc::{AllocError, Global};
use std::fs::OpenFile;
use std::io::{Eprint, Read, Seek, Write};
use std::mem;
use std::rt::Files;
use trace_text::{
    Failure, Filed, Lines, Media, Printer, Refusal, Wanted, Words, is_skipped, play_aside,
};

/// Plays the scenario line by line and writes what each line prints. A refused line ends it; the
/// lines before it have acted and printed. A line that prints something else than was expected ends
/// it, too; standard error gets both.
pub fn play_steps<H: Files + Eprint, W: Write>(
    rt: &H,
    alloc: Global,
    watch: Watch,
    input: &[u8],
    out: &mut W,
) -> Result<(), Failure> {
    let mut printer = Printer::new(alloc, watch.is_json);
    let mut scenario = Scenario::new(alloc, watch);
    let played = scenario.play_lines(rt, alloc, Lines::of(input), &mut printer, out);
    if let (Err(Failure::Unexpected { .. }), Some(mismatch)) = (played, printer.mismatch()) {
        // If standard error is closed, the exit status still tells.
        let _unheard = rt.eprintln(mismatch);
    }
    played
}

/// A scenario up to some line.
#[derive(Drop)]
struct Scenario<F: Drop> {
    watch: Watch,
    opening: Opening,
    /// The files of disks, as long as the world is not built.
    media: Media<F>,
    /// The world and its counts, once it is built.
    scene: Option<Scene<F>>,
}

impl<F: Read + Write + Seek + OpenFile + Drop> Scenario<F> {
    fn new(alloc: Global, watch: Watch) -> Scenario<F> {
        Scenario {
            watch,
            opening: Opening::new(alloc, true),
            media: Media::new(alloc),
            scene: None,
        }
    }

    /// Does what all lines say.
    fn play_lines<'a, H: Files<File = F>, W: Write>(
        &mut self,
        files: &H,
        alloc: Global,
        mut lines: Lines<'a>,
        printer: &mut Printer<'a>,
        out: &mut W,
    ) -> Result<(), Failure> {
        for _ in 0..u64::MAX {
            let Some((line, text)) = lines.next_line() else {
                break;
            };
            if is_skipped(text) {
                continue;
            }
            let mut words = Words::of(line, text);
            let name = words.next_word().unwrap_or(&[]);
            if !play_aside(name, &mut words, &mut lines, printer)? {
                self.play_line(files, alloc, name, words, printer, out)?;
            }
        }
        self.end(alloc, printer, out)?;
        printer.end()
    }

    /// Does what one line of this name says.
    fn play_line<H: Files<File = F>, W: Write>(
        &mut self,
        files: &H,
        alloc: Global,
        name: &[u8],
        mut words: Words<'_>,
        printer: &mut Printer<'_>,
        out: &mut W,
    ) -> Result<(), Failure> {
        if let Some(scene) = &mut self.scene {
            return scene.play_line(alloc, name, words, printer, out);
        }
        let (opening, media) = (&self.opening, &self.media);
        if let Some((port, filed)) = filed_disk(files, alloc, name, &mut words, opening, media)? {
            return self.set_filed(alloc, port, filed);
        }
        match Setting::read(alloc, name, &mut words, &self.opening)? {
            Some(setting) => self.set(alloc, setting),
            None => self.begin(alloc, name, words, printer, out),
        }
    }

    /// Takes in what a line says about the world.
    fn set(&mut self, alloc: Global, setting: Setting) -> Result<(), Failure> {
        Ok(self.opening.set(alloc, setting)?)
    }

    /// Takes in what a line says about a disk that has its sectors in a file.
    fn set_filed(&mut self, alloc: Global, port: u8, filed: Filed<F>) -> Result<(), Failure> {
        let Filed { shape, file } = filed;
        self.set(alloc, Setting::Disk(port, shape))?;
        Ok(self.media.set(port, file)?)
    }

    /// Builds the world at the first line that is not a setting, even if that line is refused, and
    /// does what it asks.
    // A function clears all its locals when it is called, and a world is large: no other line should
    // pay for that.
    #[inline(never)]
    fn begin<W: Write>(
        &mut self,
        alloc: Global,
        name: &[u8],
        words: Words<'_>,
        printer: &mut Printer<'_>,
        out: &mut W,
    ) -> Result<(), Failure> {
        let mut scene = self.open(alloc, printer, out)?;
        scene.play_line(alloc, name, words, printer, out)?;
        self.scene = Some(scene);
        Ok(())
    }

    /// Builds the world of which the lines told so far.
    #[inline(never)]
    fn open<W: Write>(
        &mut self,
        alloc: Global,
        printer: &mut Printer<'_>,
        out: &mut W,
    ) -> Result<Scene<F>, Failure> {
        let opening = mem::replace(&mut self.opening, Opening::new(alloc, true));
        let media = mem::replace(&mut self.media, Media::new(alloc));
        let scene = Scene::new(alloc, self.watch, opening, media)?;
        print_sizes(alloc, scene.sizes, printer, out)?;
        Ok(scene)
    }

    /// Builds the world if no line did, so that it is told of, too.
    fn end<W: Write>(
        &mut self,
        alloc: Global,
        printer: &mut Printer<'_>,
        out: &mut W,
    ) -> Result<(), Failure> {
        if self.scene.is_none() {
            self.open(alloc, printer, out)?;
        }
        Ok(())
    }
}

/// Why a step ends the scenario.
#[derive(Clone, Copy)]
enum Stop {
    /// The allocator refused memory.
    OutOfMemory,
    /// The sectors of the disk at this port cannot go to its file.
    NotSaved(u8),
}

impl From<AllocError> for Stop {
    fn from(_: AllocError) -> Stop {
        Stop::OutOfMemory
    }
}

impl From<Stop> for Failure {
    fn from(stop: Stop) -> Failure {
        match stop {
            Stop::OutOfMemory => Failure::OutOfMemory,
            Stop::NotSaved(port) => Failure::DiskFile { port },
        }
    }
}

/// A world that is built, and what its answers have told so far.
#[derive(Drop)]
struct Scene<F: Drop> {
    world: World,
    /// The files of its disks.
    media: Media<F>,
    sizes: Sizes,
    counts: Counts,
    /// Which steps of a round are tried.
    due: Due,
    tracer: Tracer,
    /// Whether a step or a request that is refused ends the scenario.
    is_strict: bool,
    /// The line that is played, counted from 1.
    line: usize,
}

impl<F: Read + Write + Seek + OpenFile + Drop> Scene<F> {
    /// Builds the world.
    fn new(
        alloc: Global,
        watch: Watch,
        opening: Opening,
        mut media: Media<F>,
    ) -> Result<Scene<F>, Failure> {
        Ok(Scene {
            sizes: opening.sizes,
            world: world_of(alloc, opening, &mut media)?,
            media,
            counts: Counts::new(alloc),
            due: Due::all(),
            tracer: Tracer::new(alloc, watch),
            is_strict: watch.is_strict,
            line: 0,
        })
    }

    /// Does what one line asks of the world.
    fn play_line<W: Write>(
        &mut self,
        alloc: Global,
        name: &[u8],
        mut words: Words<'_>,
        printer: &mut Printer<'_>,
        out: &mut W,
    ) -> Result<(), Failure> {
        self.line = words.line();
        let action = Action::read(alloc, name, &mut words, self.sizes)?;
        self.play(alloc, &action, printer, out)
    }

    /// Does this, and prints what comes of it.
    fn play<W: Write>(
        &mut self,
        alloc: Global,
        action: &Action,
        printer: &mut Printer<'_>,
        out: &mut W,
    ) -> Result<(), Failure> {
        let host = self.world.host();
        match action {
            Action::Step(step) => self.play_step(alloc, step, printer, out),
            Action::Settle(rounds) => self.play_rounds(alloc, *rounds, printer, out),
            Action::Register(register) => print_register(alloc, host, *register, printer, out),
            Action::Faults => print_faults(alloc, host, printer, out),
            Action::Registers => print_registers(alloc, host, printer, out),
            Action::See(view) => {
                let (memory, counts) = (self.world.memory(), self.counts.rows());
                print_view(alloc, *view, memory, counts, printer, out)
            }
        }
    }

    /// Does one step, and prints what came of it.
    fn play_step<W: Write>(
        &mut self,
        alloc: Global,
        step: &Step,
        printer: &mut Printer<'_>,
        out: &mut W,
    ) -> Result<(), Failure> {
        let reply = self.step(alloc, step, out)?;
        printer.print(alloc, &reply, out)?;
        if self.is_strict && reply.is_refusal() {
            return Err(self.refusal());
        }
        Ok(())
    }

    /// The refusal of the line that is played, because its step or its request was refused.
    fn refusal(&self) -> Failure {
        Failure::Line {
            line: self.line,
            refusal: Refusal::Refused,
            word: 0,
            wanted: Wanted::Strict,
        }
    }

    /// Runs rounds, and prints whether the last of them did nothing.
    fn play_rounds<W: Write>(
        &mut self,
        alloc: Global,
        rounds: u64,
        printer: &mut Printer<'_>,
        out: &mut W,
    ) -> Result<(), Failure> {
        let reply = self.settle(alloc, rounds, out)?;
        printer.print(alloc, &reply, out)
    }

    /// Does one step, and gives what is printed about it.
    fn step<W: Write>(
        &mut self,
        alloc: Global,
        step: &Step,
        out: &mut W,
    ) -> Result<Reply, Failure> {
        let acted = self.act(alloc, step, out)?;
        reply_to(alloc, &acted)
    }

    /// Runs rounds, at most this many, up to the first in which no step did anything.
    #[inline(never)]
    fn settle<W: Write>(
        &mut self,
        alloc: Global,
        rounds: u64,
        out: &mut W,
    ) -> Result<Reply, Failure> {
        for _ in 0..rounds {
            if !self.round(alloc, out)? {
                return Ok(Reply::Settled);
            }
        }
        Ok(Reply::Unsettled)
    }

    /// Does the steps of a round: those of each device and its port, in ascending order, and then
    /// those of the multiplier and the host. Says whether one of them did something.
    fn round<W: Write>(&mut self, alloc: Global, out: &mut W) -> Result<bool, Failure> {
        let mut is_moved = false;
        for n in 0..self.sizes.ports {
            if self.due.has_port(n) {
                is_moved |= self.port_round(alloc, n, out)?;
            }
        }
        is_moved |= self.host_round(alloc, out)?;
        Ok(is_moved)
    }

    /// Does the steps of a round at this port. Says whether one of them did something.
    #[inline(always)]
    fn port_round<W: Write>(&mut self, alloc: Global, n: u8, out: &mut W) -> Result<bool, Failure> {
        let mut is_moved = self.moves(alloc, RoundStep::PmPresence, n, out)?;
        is_moved |= self.moves(alloc, RoundStep::DiskTake, n, out)?;
        is_moved |= self.moves(alloc, RoundStep::DiskSend, n, out)?;
        is_moved |= self.moves(alloc, RoundStep::PmFromDevice, n, out)?;
        is_moved |= self.moves(alloc, RoundStep::PmDown, n, out)?;
        Ok(is_moved)
    }

    /// Does the steps of a round that are at no port. Says whether one of them did something.
    #[inline(always)]
    fn host_round<W: Write>(&mut self, alloc: Global, out: &mut W) -> Result<bool, Failure> {
        let mut is_moved = self.moves(alloc, RoundStep::PmFromHost, 0, out)?;
        is_moved |= self.moves(alloc, RoundStep::PmUp, 0, out)?;
        is_moved |= self.moves(alloc, RoundStep::HostTake, 0, out)?;
        is_moved |= self.moves(alloc, RoundStep::Tick, 0, out)?;
        is_moved |= self.moves(alloc, RoundStep::HostPush, 0, out)?;
        Ok(is_moved)
    }

    /// Does one step if it is due, and says whether it was neither idle nor blocked.
    #[inline(always)]
    fn moves<W: Write>(
        &mut self,
        alloc: Global,
        step: RoundStep,
        port: u8,
        out: &mut W,
    ) -> Result<bool, Failure> {
        if self.due.has(step, port) {
            self.moves_due(alloc, &step.at(port), out)
        } else {
            Ok(false)
        }
    }

    /// Does one step, and says whether it was neither idle nor blocked.
    #[inline(always)]
    fn moves_due<W: Write>(
        &mut self,
        alloc: Global,
        step: &Step,
        out: &mut W,
    ) -> Result<bool, Failure> {
        if self.tracer.is_on() {
            let is_moved = self.moves_in_sight(alloc, step, out)?;
            return Ok(is_moved);
        }
        Ok(self.moves_unseen(alloc, step)?)
    }

    /// Does one step that is traced, and says whether it was neither idle nor blocked.
    #[inline(never)]
    fn moves_in_sight<W: Write>(
        &mut self,
        alloc: Global,
        step: &Step,
        out: &mut W,
    ) -> Result<bool, Failure> {
        let acted = self.act_in_sight(alloc, step, out)?;
        Ok(has_moved(&acted))
    }

    /// Does one step that is not traced, and says whether it was neither idle nor blocked.
    // The answer stays where it is made: to hand it on costs as much as a step.
    #[inline(never)]
    fn moves_unseen(&mut self, alloc: Global, step: &Step) -> Result<bool, Stop> {
        let acted = &self.world.step(alloc, step);
        self.note(step, acted)?;
        Ok(has_moved(acted))
    }

    /// Does one step and counts its answer, and writes what it did if the run is traced. If memory is
    /// refused, the scenario ends.
    fn act<W: Write>(
        &mut self,
        alloc: Global,
        step: &Step,
        out: &mut W,
    ) -> Result<Result<Answer, StepError>, Failure> {
        if self.tracer.is_on() {
            return self.act_in_sight(alloc, step, out);
        }
        let acted = self.world.step(alloc, step);
        self.note(step, &acted)?;
        Ok(acted)
    }

    /// Does one step, counts its answer, and writes what it did.
    // A function clears all its locals when it is called: a step that is not traced should not pay
    // for what is seen of it.
    #[inline(never)]
    fn act_in_sight<W: Write>(
        &mut self,
        alloc: Global,
        step: &Step,
        out: &mut W,
    ) -> Result<Result<Answer, StepError>, Failure> {
        let sight = Sight::of(alloc, &self.world, step)?;
        let acted = self.world.step(alloc, step);
        self.tell(step, sight, &acted, out)?;
        Ok(acted)
    }

    /// Counts the answer of a step, and writes what it did, or why it was refused.
    fn tell<W: Write>(
        &mut self,
        step: &Step,
        sight: Sight,
        acted: &Result<Answer, StepError>,
        out: &mut W,
    ) -> Result<(), Failure> {
        self.note(step, acted)?;
        let why = match acted {
            Ok(Answer::Refused(error)) => Why::Request(*error),
            Ok(answer) => return self.tracer.note(&self.world, step, sight, answer, out),
            Err(error) => Why::Step(*error),
        };
        let line = self.line;
        self.tracer.note_refused(&Refused { line, step, why }, out)
    }

    /// Counts the answer of a step, and takes note of which steps are due after it. If memory was refused,
    /// that is passed on.
    fn note(&mut self, step: &Step, acted: &Result<Answer, StepError>) -> Result<(), Stop> {
        match acted {
            Ok(answer) => {
                self.due.note(&self.world, step, answer);
                self.keep(answer)?;
                Ok(self.counts.note(answer)?)
            }
            Err(StepError::OutOfMemory) => Err(Stop::OutOfMemory),
            Err(_) => Ok(()),
        }
    }

    /// What a FIS changed of a disk's sectors goes to its file, before the disk sends one.
    #[inline(always)]
    fn keep(&mut self, answer: &Answer) -> Result<(), Stop> {
        match answer {
            Answer::DiskTook { port, .. } if self.media.has(*port) => self.save(*port),
            _ => Ok(()),
        }
    }

    /// The sectors of the disk at this port that changed go to its file.
    #[inline(never)]
    fn save(&mut self, port: u8) -> Result<(), Stop> {
        let Some(Unit::Disk(disk)) = self.world.unit(port) else {
            return Ok(());
        };
        match self.media.save(port, disk) {
            Ok(()) => Ok(()),
            Err(_) => Err(Stop::NotSaved(port)),
        }
    }
}

/// Each disk gets the sectors of its file, if it has one.
fn load_disks<F: Read + Write + Seek + OpenFile + Drop>(
    alloc: Global,
    media: &mut Media<F>,
    units: &mut [Unit],
) -> Result<(), Failure> {
    let mut port = 0u8;
    for unit in units.iter_mut() {
        if let Unit::Disk(disk) = unit {
            media.load(alloc, port, disk)?;
        }
        port = port.saturating_add(1);
    }
    Ok(())
}

/// The world of which lines told.
fn world_of<F: Read + Write + Seek + OpenFile + Drop>(
    alloc: Global,
    opening: Opening,
    media: &mut Media<F>,
) -> Result<World, Failure> {
    let sizes = opening.sizes;
    let mut units = opening.into_units(alloc)?;
    load_disks(alloc, media, units.as_mut_slice())?;
    match World::with_mode(alloc, sizes.mode, sizes.config(), units) {
        Ok(world) => Ok(world),
        Err(WorldError::OutOfMemory) => Err(Failure::OutOfMemory),
        Err(WorldError::BadConfig) => unreachable!(),
    }
}

/// What is printed about a step.
fn reply_to(alloc: Global, acted: &Result<Answer, StepError>) -> Result<Reply, Failure> {
    match acted {
        Ok(answer) => Ok(Reply::of(alloc, answer)?),
        Err(error) => Ok(Reply::Refused(*error)),
    }
}

/// Whether a step was neither idle nor blocked.
fn has_moved(acted: &Result<Answer, StepError>) -> bool {
    !matches!(acted, Ok(Answer::Idle | Answer::Blocked))
}
