//! What no clause says of a scheduler: that many commands all end within the bound, errors among them.

ghost use Rattle.std.specs.Prelude.{◌≡◌, ◌<◌};
ghost use Rattle.block_command.specs.Moments.{IsCommand};

use block_command::{AnswerError, Command, Protocol, Turn};
use block_scheduler::{
    NextFis, Scheduler, data_are_named, ends_are_earned, numbers_are_fresh, requests_are_apart,
    something_moves,
};
use std::alloc::{AllocError, Global};
use std::process::Abort;

/// Three parts.
const LIMIT: u32 = 3 << 20;

/// A request that was asked and is not answered.
#[derive(Clone, Copy)]
struct Asked {
    place: u8,
    number: u64,
    turn: Turn,
    len: usize,
}

/// The next of a row of numbers (Knuth's MMIX).
fn next(seed: u64) -> u64 {
    seed.wrapping_mul(6_364_136_223_846_793_005)
        .wrapping_add(1_442_695_040_888_963_407)
}

fn zeros(alloc: Global, len: usize) -> Result<Vec<u8>, AllocError> {
    let mut bytes = Vec::new(alloc);
    bytes.resize(len, 0)?;
    Ok(bytes)
}

/// Some command for a place, of up to 64 sectors, or of two parts.
fn some_command(place: u8, seed: u64) -> Command
    requires { place < 33 }
    ensures place { result.place ≡ place }
    ensures is { IsCommand result }
{
    let bits = seed >> 33;
    let count = (bits % 64) as u32 + 1;
    Command {
        place,
        lba: bits / 256 % 4096,
        count: if bits >> 20 & 127 == 0 { 2049 } else { count },
        write: bits >> 26 & 1 == 1,
        lasting: bits >> 27 & 1 == 1,
        protocol: Protocol::Queued,
        block: 8192,
        auto_activate: bits >> 28 & 1 == 1,
    }
}

/// The bytes of the next Data FIS from the host, if it is asked for now.
fn data_len(disk: &Scheduler, place: u8) -> Option<usize>
    requires { place < 33 }
{
    let command = disk.get(place)?;
    let left = (command.part_count() as usize * 512).saturating_sub(command.bytes().len());
    match command.turn() {
        Turn::Activate => Some(left.min(command.command().block as usize)),
        Turn::SetUp if command.command().write && command.command().auto_activate => Some(left.min(
            command.command().block as usize,
        )),
        _ => None,
    }
}

/// Starts what may start.
fn start(rt: &impl Abort, disk: &mut Scheduler) {
    if let Some(place) = disk.next_start() {
        disk.start(place).expect(rt, "memory");
    }
}

/// Asks for the request that is next.
fn ask(rt: &impl Abort, disk: &mut Scheduler, asked: &mut Vec<Asked>) {
    let Some(place) = disk.next_request() else {
        return;
    };
    let command = disk.get(place).expect(rt, "a command");
    let turn = command.turn();
    let len = command.part_count() as usize * 512;
    let number = disk.ask(place).expect(rt, "a number");
    asked
        .push(Asked {
            place,
            number,
            turn,
            len,
        })
        .expect(rt, "memory");
}

/// Sends the FIS that is next, and the host's Data if it was asked for.
fn send(rt: &impl Abort, alloc: Global, disk: &mut Scheduler) {
    match disk.next_fis() {
        None => {}
        Some(NextFis::Ends(_)) => disk.send_ends(),
        Some(NextFis::Alone(place)) => {
            let len = data_len(disk, place);
            disk.send(place);
            if let Some(len) = len {
                let bytes = zeros(alloc, len).expect(rt, "memory");
                disk.came(place, &bytes).expect(rt, "memory");
            }
        }
    }
}

/// The caller answers a request: every `fails`th with an error.
fn answer(rt: &impl Abort, alloc: Global, disk: &mut Scheduler, asked: Asked, fails: u64) {
    if asked.place >= 33 {
        panic!(rt; "no place");
    }
    let failed = fails > 0 && asked.number % fails == 0;
    let answered = match asked.turn {
        _ if failed => disk.failed(asked.place, asked.number),
        Turn::Load => {
            let bytes = zeros(alloc, asked.len).expect(rt, "memory");
            disk.loaded(asked.place, asked.number, bytes)
        }
        Turn::Store => disk.stored(asked.place, asked.number),
        _ => disk.flushed(asked.place, asked.number),
    };
    if let Err(error) = answered {
        assert!(rt; matches!(error, AnswerError::NotOut));
    }
}

/// Takes a command at each free tag, and counts it.
fn take_all(alloc: Global, disk: &mut Scheduler, counts: &mut [u32; 32], seed: u64) {
    let mut seed = seed;
    for tag in 0..32_u8 {
        seed = next(seed);
        if disk.fault().is_none() && !disk.is_taken(tag) {
            disk.take(alloc, some_command(tag, seed));
            counts[tag as usize] = counts[tag as usize].saturating_add(1);
        }
    }
}

/// How many commands were taken at each tag in so many rounds. An error is read after some rounds.
fn taken(rt: &impl Abort, alloc: Global, rounds: u32, fails: u64) -> [u32; 32] {
    let mut disk = Scheduler::new(alloc, LIMIT).expect(rt, "memory");
    let mut asked = Vec::new(alloc);
    let mut counts = [0u32; 32];
    let mut seed = 7u64;
    for round in 1..=rounds {
        seed = next(seed);
        if round % 7 == 0 {
            disk.forgive();
        }
        take_all(alloc, &mut disk, &mut counts, seed);
        start(rt, &mut disk);
        ask(rt, &mut disk, &mut asked);
        for _ in 0..4u32 {
            send(rt, alloc, &mut disk);
        }
        let len = asked.len() as u64;
        if len > 0 && seed >> 40 & 3 != 0 {
            let one = asked.swap_remove((seed >> 33) as usize % len as usize);
            answer(rt, alloc, &mut disk, one, fails);
        }
        assert!(rt; disk.held() <= LIMIT as u64);
    }
    counts
}

#[test]
fn none_starves(rt: HostRuntime) {
    let alloc = rt.alloc();
    for count in taken(&rt, alloc, 1000, 0) {
        assert!(rt; count >= 5);
    }
}

#[test]
fn errors_end_all(rt: HostRuntime) {
    let alloc = rt.alloc();
    for count in taken(&rt, alloc, 700, 50) {
        assert!(rt; count >= 5);
    }
}

#[test]
fn laws_hold(_rt: HostRuntime) {
    requests_are_apart();
    ends_are_earned();
    data_are_named();
    numbers_are_fresh();
    something_moves();
}
