//! What no clause says of a queue: that many commands which share sectors all end, whatever the order of the answers.

ghost use Rattle.std.specs.Prelude.{◌≡◌, ◌<◌};
ghost use Rattle.block_command.specs.Moments.{IsCommand};

use block_command::{AnswerError, Command, Protocol, Turn};
use block_queue::{
    CommandQueue, data_are_named, ends_are_earned, numbers_are_fresh, requests_are_apart,
    something_moves, taken_is_last,
};
use std::alloc::{AllocError, Global};
use std::process::Abort;

/// What a request asked for.
#[derive(Clone, Copy)]
enum Kind {
    Load(usize),
    Store,
    Flush,
}

/// A request that was asked and is not answered.
#[derive(Clone, Copy)]
struct Asked {
    place: u8,
    number: u64,
    kind: Kind,
}

/// The next of a row of numbers (Knuth's MMIX).
fn next(seed: u64) -> u64 {
    seed.wrapping_mul(6_364_136_223_846_793_005)
        .wrapping_add(1_442_695_040_888_963_407)
}

fn zeros(alloc: Global, len: usize) -> Result<Vec<u8>, AllocError> {
    let mut bytes = Vec::new(alloc);
    bytes.resize(len, 0)?;
    Ok(bytes)
}

/// Some command for a place: all share a few sectors.
fn some_command(place: u8, seed: u64) -> Command
    requires { place < 33 }
    ensures place { result.place ≡ place }
    ensures is { IsCommand result }
{
    let bits = seed >> 33;
    let protocol = if place < 32 {
        Protocol::Queued
    } else if bits & 3 == 0 {
        Protocol::Dma
    } else if bits & 3 == 1 {
        Protocol::Verify
    } else {
        Protocol::Pio
    };
    Command {
        place,
        lba: bits / 65536 % 128,
        count: (bits / 256 % 32) as u32 + 1,
        write: bits >> 13 & 1 == 1 && !matches!(protocol, Protocol::Verify),
        lasting: bits >> 14 & 1 == 1,
        protocol,
        block: 8192,
        auto_activate: bits >> 15 & 1 == 1,
    }
}

/// The request that is next at a place.
fn kind_of(queue: &CommandQueue, place: u8) -> Option<Kind>
    requires { place < 33 }
{
    let command = queue.get(place)?;
    match command.turn() {
        Turn::Load => Some(Kind::Load(command.part_count() as usize * 512)),
        Turn::Store => Some(Kind::Store),
        Turn::Flush => Some(Kind::Flush),
        _ => None,
    }
}

/// The bytes that the host sends if it is asked for Data now.
fn data_len(queue: &CommandQueue, place: u8) -> Option<usize>
    requires { place < 33 }
{
    let command = queue.get(place)?;
    let left = (command.part_count() as usize * 512).saturating_sub(command.bytes().len());
    match command.turn() {
        Turn::Activate => Some(left.min(command.command().block as usize)),
        Turn::SetUp if command.command().write && command.command().auto_activate => Some(left.min(
            command.command().block as usize,
        )),
        _ => None,
    }
}

/// Sends what is next at a place, and the host's Data if it was asked for.
fn send(rt: &impl Abort, alloc: Global, queue: &mut CommandQueue, place: u8)
    requires { place < 33 }
{
    if !queue.may_send(place) {
        return;
    }
    let len = data_len(queue, place);
    queue.send(place);
    if let Some(len) = len {
        let bytes = zeros(alloc, len).expect(rt, "memory");
        queue.came(place, &bytes).expect(rt, "memory");
    }
}

/// Does what may be done at a place. It says whether its command ended.
fn step(
    rt: &impl Abort,
    alloc: Global,
    queue: &mut CommandQueue,
    place: u8,
    asked: &mut Vec<Asked>,
) -> bool
    requires { place < 33 }
{
    if queue.may_start(place) {
        queue.start(place).expect(rt, "memory");
    }
    if queue.asks(place) {
        let kind = kind_of(queue, place).expect(rt, "a request");
        let number = queue.ask(place).expect(rt, "a number");
        asked
            .push(Asked {
                place,
                number,
                kind,
            })
            .expect(rt, "memory");
    }
    send(rt, alloc, queue, place);
    !queue.is_taken(place)
}

/// The caller answers a request.
fn answer(rt: &impl Abort, alloc: Global, queue: &mut CommandQueue, asked: Asked) {
    if asked.place >= 33 {
        panic!(rt; "no place");
    }
    let answered = match asked.kind {
        Kind::Load(len) => {
            let bytes = zeros(alloc, len).expect(rt, "memory");
            queue.loaded(asked.place, asked.number, bytes)
        }
        Kind::Store => queue.stored(asked.place, asked.number),
        Kind::Flush => queue.flushed(asked.place, asked.number),
    };
    if let Err(error) = answered {
        assert!(rt; matches!(error, AnswerError::NotOut));
    }
}

/// Answers one of the requests that are out, if any is.
fn answer_some(
    rt: &impl Abort,
    alloc: Global,
    queue: &mut CommandQueue,
    asked: &mut Vec<Asked>,
    seed: u64,
) {
    let len = asked.len() as u64;
    if len == 0 {
        return;
    }
    let one = asked.swap_remove((seed >> 33) as usize % len as usize);
    answer(rt, alloc, queue, one);
}

/// So many commands of each place end in so many rounds, with a reset after every `reset` of them.
fn ended(rt: &impl Abort, alloc: Global, rounds: u32, reset: u32) -> [u32; 33] {
    let mut queue = CommandQueue::new(alloc).expect(rt, "memory");
    let mut asked = Vec::new(alloc);
    let mut counts = [0u32; 33];
    let mut seed = 1u64;
    for round in 1..=rounds {
        for place in 0..33_u8 {
            seed = next(seed);
            if !queue.is_taken(place) {
                queue.take(alloc, some_command(place, seed));
            }
            if step(rt, alloc, &mut queue, place, &mut asked) {
                counts[place as usize] = counts[place as usize].saturating_add(1);
            }
        }
        for _ in 0..4u32 {
            seed = next(seed);
            answer_some(rt, alloc, &mut queue, &mut asked, seed);
        }
        if reset > 0 && round % reset == 0 {
            queue.reset();
        }
    }
    counts
}

#[test]
fn none_starves(rt: HostRuntime) {
    let alloc = rt.alloc();
    for count in ended(&rt, alloc, 1000, 0) {
        assert!(rt; count >= 5);
    }
    for count in ended(&rt, alloc, 1000, 100) {
        assert!(rt; count >= 5);
    }
}

/// A write of a sector.
const WRITE: Command = Command {
    place: 3,
    lba: 7,
    count: 1,
    write: true,
    lasting: false,
    protocol: Protocol::Queued,
    block: 8192,
    auto_activate: true,
};

#[test]
fn a_dropped_store_is_waited_for(rt: HostRuntime) {
    let alloc = rt.alloc();
    let mut queue = CommandQueue::new(alloc).expect(&rt, "memory");
    let mut asked = Vec::new(alloc);
    queue.take(alloc, WRITE);
    for _ in 0..6u32 {
        step(&rt, alloc, &mut queue, 3, &mut asked);
    }
    let store = asked.pop().expect(&rt, "the store");
    queue.reset();
    assert!(rt; queue.orphan(3).is_some());
    queue.take(alloc, Command { place: 4, ..WRITE });
    queue.take(alloc, Command { lba: 8, ..WRITE });
    queue.take(
        alloc,
        Command {
            place: 5,
            lba: 8,
            ..WRITE
        },
    );
    assert!(rt; !queue.may_start(4));
    assert!(rt; !queue.may_start(3));
    assert!(rt; !queue.may_start(5));
    answer(&rt, alloc, &mut queue, store);
    assert!(rt; queue.may_start(4));
    assert!(rt; queue.may_start(3));
    assert!(rt; !queue.may_start(5));
}

#[test]
fn laws_hold(_rt: HostRuntime) {
    requests_are_apart();
    ends_are_earned();
    data_are_named();
    numbers_are_fresh();
    something_moves();
    taken_is_last();
}
