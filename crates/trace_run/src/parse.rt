//! What a line of a scenario asks for.

ghost use Rattle.std.specs.Prelude.{◌≡◌, IfOk, true, ℕ};
ghost use Rattle.trace_run.specs.Commons.{names_up_to};

use crate::opening::{Opening, Sizes};
use crate::round_step::RoundStep;
use fis_view::Bytes;
use hba_driver::{Mode, Request, Work};
use hba_fbs::Register;
use pm_world::Step;
use std::alloc::Global;
use std::rt::Files;
use trace_text::{
    Failure, Filed, Keyword, Media, Quantity, Refusal, Shape, Wanted, Words, read_filed,
};

/// The largest address, and the largest number of bytes.
const LARGEST: u64 = 0xFFFF_FFFF;

/// The most rounds of one line.
const MOST_ROUNDS: u64 = 1_000_000;

/// The last port that a line can name when nobody asks whether the world has it.
const LAST_NAME: u8 = 255;

/// What a line says about the world before it is built.
#[derive(Drop)]
pub enum Setting {
    /// The world is to have these sizes.
    Ports(Sizes),
    /// The device at this port is to be this disk.
    Disk(u8, Shape),
    /// The script of this port is to have this frame after those that it has.
    Script(u8, Bytes),
}

/// What a line asks of the host, or asks to see, whether the actors go step by step or in threads.
#[derive(Drop)]
pub enum Common {
    /// To give the driver this request for the device at this port.
    Submit(u8, Request),
    /// To write these bytes to client memory, from this address on.
    Put(u32, Bytes),
    /// To see what is shown.
    See(View),
}

/// What a line asks to see.
#[derive(Clone, Copy)]
pub enum View {
    /// What each connection sent and what was taken of it.
    Counts,
    /// This many bytes of client memory, from this address on.
    Memory(u32, u32),
}

/// What a line asks of the world once it is built.
#[derive(Drop)]
pub enum Action {
    /// One step of one actor.
    Step(Step),
    /// To have all actors step, round by round, at most this many rounds.
    Settle(u64),
    /// To see which devices are faulty, and what stopped the port.
    Faults,
    /// To see all registers of the host port.
    Registers,
    /// To see this register of it.
    Register(Register),
    /// To see what is shown.
    See(View),
}

impl Setting {
    /// Reads a line of this name, word by word; None if the name is not that of a setting.
    pub fn read(
        alloc: Global,
        name: &[u8],
        words: &mut Words<'_>,
        opening: &Opening,
    ) -> Result<Option<Setting>, Failure> {
        match name {
            b"ports" => ports(words, opening),
            b"disk" => disk(words, opening),
            b"script" => script(alloc, words, opening),
            _ => Ok(None),
        }
    }
}

impl Action {
    /// Reads a line of this name, word by word, in a world of these sizes.
    pub fn read(
        alloc: Global,
        name: &[u8],
        words: &mut Words<'_>,
        sizes: Sizes,
    ) -> Result<Action, Failure> {
        let action = Action::start(alloc, name, words, sizes)?;
        words.end()?;
        Ok(action)
    }

    /// Reads the words of a line of this name, without a look at what stands after them.
    fn start(
        alloc: Global,
        name: &[u8],
        words: &mut Words<'_>,
        sizes: Sizes,
    ) -> Result<Action, Failure> {
        match name {
            b"came" => Ok(Action::Step(Step::Came(words.port(LAST_NAME)?))),
            b"gone" => Ok(Action::Step(Step::Gone(words.port(LAST_NAME)?))),
            b"inject" => inject(alloc, words),
            b"step" => step(words),
            b"poll" => Ok(Action::Step(Step::Poll)),
            b"settle" => settle(words),
            b"faults" => Ok(Action::Faults),
            b"regs" => Ok(Action::Registers),
            b"reg" => register(words),
            _ => common_action(alloc, name, words, sizes),
        }
    }
}

impl Common {
    /// Reads a line of this name, word by word, where the devices are those up to the last port. The name of
    /// a setting comes too late, and any other that is none of these is not known.
    pub fn read(
        alloc: Global,
        name: &[u8],
        words: &mut Words<'_>,
        sizes: Sizes,
        last: u8,
        known: Wanted,
    ) -> Result<Common, Failure>
        ensures { IfOk result (λ common. names_up_to last common ≡ true) }
    {
        match name {
            b"read" => transfer(alloc, Work::Read, words, last),
            b"write" => transfer(alloc, Work::Write, words, last),
            b"flush" => flush(alloc, words, last),
            b"put" => put(alloc, words),
            b"show" => memory(words, sizes),
            b"counts" => Ok(Common::See(View::Counts)),
            b"ports" | b"disk" | b"script" => Err(words.refused(Refusal::Order, Wanted::Earlier)),
            _ => Err(words.refused(Refusal::Command, known)),
        }
    }

    /// The same of a world that goes step by step.
    fn into_action(self) -> Action {
        match self {
            Common::Submit(device, request) => Action::Step(Step::Submit(device, request)),
            Common::Put(at, bytes) => Action::Step(Step::Put(at, bytes)),
            Common::See(view) => Action::See(view),
        }
    }
}

/// The words after `ports`, which comes first.
fn ports(words: &mut Words<'_>, opening: &Opening) -> Result<Option<Setting>, Failure> {
    if opening.is_begun() {
        return Err(words.refused(Refusal::Order, Wanted::PortsFirst));
    }
    let sizes = sizes(words, opening.has_modes())?;
    words.end()?;
    Ok(Some(Setting::Ports(sizes)))
}

/// The sizes of a world.
fn sizes(words: &mut Words<'_>, has_modes: bool) -> Result<Sizes, Failure> {
    let ports = words.number(Quantity::Ports, 1, 15)? as u8;
    words.keyword(Keyword::Capacity)?;
    let capacity = words.number(Quantity::Capacity, 1, 64)? as u8;
    words.keyword(Keyword::Memory)?;
    let memory = words.number(Quantity::Memory, 2, 16)? as u8;
    let mode = if has_modes && words.takes(b"commandbased") {
        Mode::CommandBased
    } else {
        Mode::Switching
    };
    Ok(Sizes {
        ports,
        capacity,
        memory,
        mode,
    })
}

/// The words after `disk`.
fn disk(words: &mut Words<'_>, opening: &Opening) -> Result<Option<Setting>, Failure> {
    let port = free_port(words, opening)?;
    Ok(Some(Setting::Disk(port, Shape::read(words, port)?)))
}

/// A port of the world of whose device no line has spoken.
fn free_port(words: &mut Words<'_>, opening: &Opening) -> Result<u8, Failure> {
    let port = words.port(LAST_NAME)?;
    if opening.has_disk(port) || opening.has_script(port) {
        return Err(words.refused(Refusal::Order, Wanted::FreePort));
    }
    has_port(words, opening, port)?;
    Ok(port)
}

/// A line `disk N file ..` of this name: the port and its disk, whose file is opened; None if the line is another.
pub fn filed_disk<H: Files>(
    files: &H,
    alloc: Global,
    name: &[u8],
    words: &mut Words<'_>,
    opening: &Opening,
    media: &Media<H::File>,
) -> Result<Option<(u8, Filed<H::File>)>, Failure> {
    if name != b"disk".as_slice() || !words.has_second(b"file") {
        return Ok(None);
    }
    let port = free_port(words, opening)?;
    let filed = read_filed(files, alloc, words, port, media)?;
    Ok(Some((port, filed)))
}

/// Checks that the world has this port.
fn has_port(words: &Words<'_>, opening: &Opening, port: u8) -> Result<(), Failure> {
    let last = opening.sizes.ports - 1;
    if port > last {
        let wanted = Wanted::Number(Quantity::Port, 0, u64::from(last));
        return Err(words.refused(Refusal::Range, wanted));
    }
    Ok(())
}

/// The words after `script`.
fn script(
    alloc: Global,
    words: &mut Words<'_>,
    opening: &Opening,
) -> Result<Option<Setting>, Failure> {
    let port = words.port(LAST_NAME)?;
    if opening.has_disk(port) {
        return Err(words.refused(Refusal::Order, Wanted::FreePort));
    }
    has_port(words, opening, port)?;
    let frame = words.bytes(alloc)?;
    words.end()?;
    Ok(Some(Setting::Script(port, frame)))
}

/// The words after `settle`: at most how many rounds.
fn settle(words: &mut Words<'_>) -> Result<Action, Failure> {
    let rounds = words.number(Quantity::Rounds, 1, MOST_ROUNDS)?;
    Ok(Action::Settle(rounds))
}

/// The words after a name that a line has in either kind of run.
fn common_action(
    alloc: Global,
    name: &[u8],
    words: &mut Words<'_>,
    sizes: Sizes,
) -> Result<Action, Failure> {
    let common = Common::read(alloc, name, words, sizes, LAST_NAME, Wanted::RunLine)?;
    Ok(common.into_action())
}

/// The words after `inject`. The step itself refuses bytes that are no frame.
fn inject(alloc: Global, words: &mut Words<'_>) -> Result<Action, Failure> {
    let port = words.port(LAST_NAME)?;
    Ok(Action::Step(Step::Inject(port, words.bytes(alloc)?)))
}

/// The words after `read` or `write`: a device, its first sector, how many, and where their bytes
/// lie.
fn transfer(alloc: Global, work: Work, words: &mut Words<'_>, last: u8) -> Result<Common, Failure>
    ensures { IfOk result (λ common. names_up_to last common ≡ true) }
{
    let device = words.port(last)?;
    let lba = words.number(Quantity::Lba, 0, u64::MAX)?;
    let sectors = words.number(Quantity::Count, 0, 65_535)? as u16;
    let prds = words.prds(alloc)?;
    let request = Request {
        work,
        lba,
        sectors,
        prds,
    };
    Ok(Common::Submit(device, request))
}

/// The words after `flush`: a device.
fn flush(alloc: Global, words: &mut Words<'_>, last: u8) -> Result<Common, Failure>
    ensures { IfOk result (λ common. names_up_to last common ≡ true) }
{
    let device = words.port(last)?;
    let request = Request {
        work: Work::Flush,
        lba: 0,
        sectors: 0,
        prds: Vec::new(alloc),
    };
    Ok(Common::Submit(device, request))
}

/// The words after `put`: an address and bytes.
fn put(alloc: Global, words: &mut Words<'_>) -> Result<Common, Failure>
    ensures { IfOk result (λ common. (last : ℕ) → names_up_to last common ≡ true) }
{
    let at = words.address()?;
    Ok(Common::Put(at, words.bytes(alloc)?))
}

/// The words after `show`: an address and how many bytes, all of which lie in client memory.
fn memory(words: &mut Words<'_>, sizes: Sizes) -> Result<Common, Failure>
    ensures { IfOk result (λ common. (last : ℕ) → names_up_to last common ≡ true) }
{
    let at = words.address()?;
    let count = words.number(Quantity::Length, 0, LARGEST)? as u32;
    words.end()?;
    if !sizes.has_client(at, count as usize) {
        return Err(words.refused_at(2, Refusal::Range, Wanted::ClientArea));
    }
    Ok(Common::See(View::Memory(at, count)))
}

/// The words after `reg`: a register of the port, by its name or its offset.
fn register(words: &mut Words<'_>) -> Result<Action, Failure> {
    let offset = words.port_register()?;
    match Register::at(offset) {
        Some(register) => Ok(Action::Register(register)),
        None => Err(words.refused(Refusal::Range, Wanted::Register)),
    }
}

/// The words after `step`.
fn step(words: &mut Words<'_>) -> Result<Action, Failure> {
    let Some(name) = words.next_word() else {
        return Err(words.refused(Refusal::Number, Wanted::StepName));
    };
    let Some(step) = RoundStep::of(name) else {
        return Err(words.refused(Refusal::Command, Wanted::StepName));
    };
    let port = if step.has_port() {
        words.port(LAST_NAME)?
    } else {
        0
    };
    Ok(Action::Step(step.at(port)))
}
