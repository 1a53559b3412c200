//! What no clause says of an engine: that each kind of command ends, round after round, whatever the order of the answers, also
//! where wrong answers come before the right ones.

ghost use Rattle.std.specs.Prelude.{◌≡◌, ◌<◌};
ghost use Rattle.block_command.specs.Moments.{IsCommand};

use block_command::{AnswerError, Command, Protocol, Turn};
use block_engine::{
    Answer, AsideKind, AsideStage, Engine, EngineFis, ErrorKind, Failure, Range, Request, What,
    asides_are_earned, data_are_named, discards_are_alone, ends_are_earned, failures_are_own,
    numbers_are_fresh, requests_are_apart, something_moves,
};
use std::alloc::{AllocError, Global};
use std::process::Abort;

/// Three parts.
const LIMIT: u32 = 3 << 20;

/// The next of a row of numbers (Knuth's MMIX).
fn next(seed: u64) -> u64 {
    seed.wrapping_mul(6_364_136_223_846_793_005)
        .wrapping_add(1_442_695_040_888_963_407)
}

fn zeros(alloc: Global, len: usize) -> Result<Vec<u8>, AllocError> {
    let mut bytes = Vec::new(alloc);
    bytes.resize(len, 0)?;
    Ok(bytes)
}

/// Some command for a place, of up to 64 sectors, or of two parts.
fn some_command(place: u8, seed: u64) -> Command
    requires { place < 33 }
    ensures place { result.place ≡ place }
    ensures is { IsCommand result }
{
    let bits = seed >> 33;
    let protocol = if place < 32 {
        Protocol::Queued
    } else if bits >> 21 & 3 == 0 {
        Protocol::Dma
    } else if bits >> 21 & 3 == 1 {
        Protocol::Verify
    } else {
        Protocol::Pio
    };
    let count = (bits % 64) as u32 + 1;
    Command {
        place,
        lba: bits / 256 % 4096,
        count: if bits >> 20 & 127 == 0 { 2049 } else { count },
        write: bits >> 26 & 1 == 1 && !matches!(protocol, Protocol::Verify),
        lasting: bits >> 27 & 1 == 1,
        protocol,
        block: if matches!(protocol, Protocol::Pio) {
            4096
        } else {
            8192
        },
        auto_activate: bits >> 28 & 1 == 1,
    }
}

/// The bytes of the next Data FIS from the host, if it is asked for now.
fn data_len(disk: &Engine, place: u8) -> Option<usize>
    requires { place < 33 }
{
    let command = disk.get(place)?;
    let left = (command.part_count() as usize * 512).saturating_sub(command.bytes().len());
    match command.turn() {
        Turn::Activate => Some(left.min(command.command().block as usize)),
        Turn::SetUp if command.command().write && command.command().auto_activate => Some(left.min(
            command.command().block as usize,
        )),
        _ => None,
    }
}

/// Sends the FIS that is next, and the host's Data if it was asked for.
fn send(rt: &impl Abort, alloc: Global, disk: &mut Engine) {
    match disk.next_fis() {
        None => {}
        Some(EngineFis::Ends(_)) => disk.send_ends(),
        Some(EngineFis::Aside) => disk.send_aside(),
        Some(EngineFis::Of(place)) => {
            let len = data_len(disk, place);
            disk.send(place);
            if let Some(len) = len {
                let bytes = zeros(alloc, len).expect(rt, "memory");
                disk.came(place, &bytes).expect(rt, "memory");
            }
        }
    }
}

/// Starts and asks for what is next.
fn ask(rt: &impl Abort, disk: &mut Engine, asked: &mut Vec<Request>) {
    disk.start_next().expect(rt, "memory");
    if let Some(request) = disk.next_request() {
        asked.push(request).expect(rt, "memory");
    }
}

/// Answers that do not fit are refused, and nothing changes.
fn answer_wrongly(rt: &impl Abort, alloc: Global, disk: &mut Engine, request: Request) {
    let other = match request.what {
        What::Load { .. } => Answer::Done,
        _ => Answer::Loaded(zeros(alloc, 512).expect(rt, "memory")),
    };
    assert!(rt; disk.answer(request.number, other).is_err());
    if let What::Load { count, .. } = request.what
        && count < 64
    {
        let long = zeros(alloc, (count as usize + 1) * 512).expect(rt, "memory");
        assert!(rt; disk.answer(request.number, Answer::Loaded(long)).is_err());
    }
    assert!(rt; disk.answer(0, Answer::Done).is_err());
}

/// Answers a request, after two wrong answers. It is refused only where a reset ended it.
fn answer(rt: &impl Abort, alloc: Global, disk: &mut Engine, request: Request, fails: u64) {
    answer_wrongly(rt, alloc, disk, request);
    let failed = fails > 0 && request.number % fails == 0;
    let answer = match request.what {
        What::Load { lba, .. } | What::Store { lba, .. } if failed => Answer::Failed(Failure {
            error: ErrorKind::Aborted,
            lba,
        }),
        What::Load { count, .. } => {
            Answer::Loaded(zeros(alloc, count.min(2048) as usize * 512).expect(rt, "memory"))
        }
        _ => Answer::Done,
    };
    if let Err(error) = disk.answer(request.number, answer) {
        assert!(rt; matches!(error, AnswerError::NotOut));
    }
}

/// Answers one of the requests that are out, if any is.
fn answer_some(
    rt: &impl Abort,
    alloc: Global,
    disk: &mut Engine,
    asked: &mut Vec<Request>,
    seed: u64,
    fails: u64,
) {
    let len = asked.len() as u64;
    if len == 0 {
        return;
    }
    let one = asked.swap_remove((seed >> 33) as usize % len as usize);
    answer(rt, alloc, disk, one, fails);
}

/// Takes a command at each free tag, and counts it.
fn take_all(alloc: Global, disk: &mut Engine, counts: &mut [u32; 32], seed: u64) {
    let mut seed = seed;
    for tag in 0..32_u8 {
        seed = next(seed);
        if disk.fault().is_none() && !disk.is_taken(tag) {
            disk.take(alloc, some_command(tag, seed));
            counts[tag as usize] = counts[tag as usize].saturating_add(1);
        }
    }
}

/// How many commands were taken at each tag in so many rounds, with errors, and with a reset after every `reset`.
fn taken(rt: &impl Abort, alloc: Global, rounds: u32, fails: u64, reset: u32) -> [u32; 32] {
    let mut disk = Engine::new(alloc, LIMIT).expect(rt, "memory");
    let mut asked = Vec::new(alloc);
    let mut counts = [0u32; 32];
    let mut seed = 7u64;
    for round in 1..=rounds {
        seed = next(seed);
        if round % 7 == 0 {
            disk.forgive();
        }
        if reset > 0 && round % reset == 0 {
            disk.reset();
        }
        take_all(alloc, &mut disk, &mut counts, seed);
        ask(rt, &mut disk, &mut asked);
        for _ in 0..4u32 {
            send(rt, alloc, &mut disk);
        }
        if seed >> 40 & 3 != 0 {
            answer_some(rt, alloc, &mut disk, &mut asked, seed, fails);
        }
        assert!(rt; disk.held() <= LIMIT as u64);
    }
    counts
}

#[test]
fn queued_commands_end(rt: HostRuntime) {
    let alloc = rt.alloc();
    for count in taken(&rt, alloc, 500, 0, 0) {
        assert!(rt; count >= 2);
    }
}

#[test]
fn errors_end_queued_commands(rt: HostRuntime) {
    let alloc = rt.alloc();
    for count in taken(&rt, alloc, 1000, 50, 0) {
        assert!(rt; count >= 2);
    }
}

#[test]
fn resets_end_queued_commands(rt: HostRuntime) {
    let alloc = rt.alloc();
    for count in taken(&rt, alloc, 400, 0, 100) {
        assert!(rt; count >= 2);
    }
}

/// Takes one command that is alone: with sectors, a flush or a discard.
fn take_single(rt: &impl Abort, alloc: Global, disk: &mut Engine, seed: u64) {
    if !matches!(disk.stage(), AsideStage::Idle) || disk.fault().is_some() {
        panic!(rt; "not alone");
    }
    match seed >> 60 & 3 {
        0 => disk.take_flush(),
        1 => {
            let mut ranges = Vec::new(alloc);
            ranges
                .push(Range {
                    lba: seed >> 40,
                    count: 8,
                })
                .expect(rt, "memory");
            disk.take_discard(ranges);
        }
        _ => disk.take(alloc, some_command(32, seed)),
    }
}

/// Whether no command is under way.
fn is_idle(disk: &Engine) -> bool {
    !disk.is_taken(32) && matches!(disk.stage(), AsideStage::Idle)
}

/// So many commands that are alone, one after the other, each to its end.
fn singles(rt: &impl Abort, alloc: Global, count: u32) {
    let mut disk = Engine::new(alloc, LIMIT).expect(rt, "memory");
    let mut asked = Vec::new(alloc);
    let mut seed = 11u64;
    for _ in 0..count {
        seed = next(seed);
        take_single(rt, alloc, &mut disk, seed);
        for _ in 0..3000u32 {
            if is_idle(&disk) {
                break;
            }
            ask(rt, &mut disk, &mut asked);
            send(rt, alloc, &mut disk);
            answer_some(rt, alloc, &mut disk, &mut asked, seed, 0);
        }
        assert!(rt; is_idle(&disk));
    }
}

#[test]
fn single_commands_end(rt: HostRuntime) {
    singles(&rt, rt.alloc(), 600);
}

/// A write of a sector.
const WRITE: Command = Command {
    place: 3,
    lba: 7,
    count: 1,
    write: true,
    lasting: false,
    protocol: Protocol::Queued,
    block: 8192,
    auto_activate: false,
};

/// Drives an engine until it has asked for something, and answers what it did.
fn first_request(rt: &impl Abort, alloc: Global, disk: &mut Engine) -> Request {
    let mut asked = Vec::new(alloc);
    for _ in 0..6u32 {
        ask(rt, disk, &mut asked);
        send(rt, alloc, disk);
    }
    asked.pop().expect(rt, "a request")
}

#[test]
fn a_flush_waits_for_a_dropped_store(rt: HostRuntime) {
    let alloc = rt.alloc();
    let mut disk = Engine::new(alloc, LIMIT).expect(&rt, "memory");
    disk.take(alloc, WRITE);
    let store = first_request(&rt, alloc, &mut disk);
    disk.reset();
    if matches!(disk.stage(), AsideStage::Idle) {
        disk.take_flush();
    }
    assert!(rt; disk.next_request().is_none());
    disk.answer(store.number, Answer::Done)
        .expect(&rt, "the store");
    let flush = disk.next_request().expect(&rt, "the flush");
    assert!(rt; matches!(flush.what, What::Flush));
    disk.answer(flush.number, Answer::Done)
        .expect(&rt, "the flush");
    assert!(rt; matches!(disk.stage(), AsideStage::Done));
    asides_are_earned();
}

#[test]
fn nothing_starts_beside_a_dropped_discard(rt: HostRuntime) {
    let alloc = rt.alloc();
    let mut disk = Engine::new(alloc, LIMIT).expect(&rt, "memory");
    if matches!(disk.stage(), AsideStage::Idle) {
        let mut ranges = Vec::new(alloc);
        ranges
            .push(Range { lba: 1, count: 2 })
            .expect(&rt, "memory");
        disk.take_discard(ranges);
    }
    let discard = disk.next_request().expect(&rt, "the discard");
    assert!(rt; disk.ranges().len() == 1);
    assert!(rt; matches!(disk.kind(), AsideKind::Discard));
    disk.reset();
    if disk.fault().is_none() {
        disk.take(alloc, WRITE);
    }
    assert!(rt; disk.start_next().expect(&rt, "memory").is_none());
    disk.answer(discard.number, Answer::Done)
        .expect(&rt, "the discard");
    assert!(rt; disk.start_next().expect(&rt, "memory").is_some());
}

#[test]
fn a_failure_is_kept(rt: HostRuntime) {
    let alloc = rt.alloc();
    let mut disk = Engine::new(alloc, LIMIT).expect(&rt, "memory");
    if disk.fault().is_none() {
        disk.take(
            alloc,
            Command {
                write: false,
                ..WRITE
            },
        );
    }
    let load = first_request(&rt, alloc, &mut disk);
    let failure = Failure {
        error: ErrorKind::Uncorrectable,
        lba: 8,
    };
    assert!(rt; disk.answer(load.number, Answer::Failed(failure)).is_err());
    let failure = Failure { lba: 7, ..failure };
    disk.answer(load.number, Answer::Failed(failure))
        .expect(&rt, "the load");
    assert!(rt; disk.failure(3) == Some(failure));
    send(&rt, alloc, &mut disk);
    assert!(rt; disk.fault() == Some(3));
}

#[test]
fn a_failure_is_of_the_command_that_stands_there(rt: HostRuntime) {
    let alloc = rt.alloc();
    let mut disk = Engine::new(alloc, LIMIT).expect(&rt, "memory");
    let failure = Failure {
        error: ErrorKind::Aborted,
        lba: 7,
    };
    disk.take(alloc, WRITE);
    let dropped = first_request(&rt, alloc, &mut disk);
    disk.reset();
    disk.take(alloc, WRITE);
    disk.answer(dropped.number, Answer::Failed(failure))
        .expect(&rt, "the dropped store");
    assert!(rt; disk.failure(3).is_none());
    let store = first_request(&rt, alloc, &mut disk);
    disk.answer(store.number, Answer::Failed(failure))
        .expect(&rt, "the store");
    assert!(rt; disk.failure(3) == Some(failure));
    disk.reset();
    assert!(rt; disk.failure(3).is_none());
}

#[test]
fn laws_hold(_rt: HostRuntime) {
    requests_are_apart();
    ends_are_earned();
    data_are_named();
    discards_are_alone();
    failures_are_own();
    numbers_are_fresh();
    something_moves();
}
