//! What no clause says: that commands end, each kind of them, through thousands of turns.

ghost use Rattle.std.specs.Prelude.{◌<◌};
ghost use Rattle.block_command.specs.Moments.{IsCommand};

use block_command::{Command, Protocol, Turn};
use block_disk::{
    Requests, data_are_named, ends_are_earned, late_answers_count_for_nothing, numbers_are_fresh,
};
use std::alloc::{AllocError, Global};
use std::process::Abort;

/// A read of a whole part and one sector more, by queued DMA.
const READ: Command = Command {
    place: 5,
    lba: 100,
    count: 2049,
    write: false,
    lasting: false,
    protocol: Protocol::Queued,
    block: 8192,
    auto_activate: false,
};

/// What is next for the command of a place.
#[derive(Clone, Copy)]
struct Next {
    turn: Turn,
    /// The bytes of its next Data FIS, in whichever direction.
    len: usize,
    /// The bytes of its load.
    part: usize,
    /// Whether the host answers by Data.
    asks_data: bool,
}

fn next_of(requests: &Requests, place: u8) -> Option<Next>
    requires { place < 33 }
{
    let command = requests.get(place)?;
    let part = command.part_count() as usize * 512;
    let left = part.saturating_sub(command.bytes().len());
    let turn = command.turn();
    let len = match turn {
        Turn::Data => command.part().len(),
        _ => left.min(command.command().block as usize),
    };
    let asks_data = match turn {
        Turn::Activate => true,
        Turn::SetUp => command.command().write && command.command().auto_activate,
        _ => false,
    };
    Some(Next {
        turn,
        len,
        part,
        asks_data,
    })
}

fn zeros(alloc: Global, len: usize) -> Result<Vec<u8>, AllocError> {
    let mut bytes = Vec::new(alloc);
    bytes.resize(len, 0)?;
    Ok(bytes)
}

/// Sends the FIS that is next for the command of a place.
fn send(rt: &impl Abort, requests: &mut Requests, place: u8)
    requires { place < 33 }
{
    if !requests.may_send(place) {
        panic!(rt; "no FIS");
    }
    requests.send(place);
}

/// Asks for the request that is next for the command of a place, after answers that do not fit.
fn ask(rt: &impl Abort, requests: &mut Requests, place: u8) -> u64
    requires { place < 33 }
{
    if !requests.asks(place) {
        panic!(rt; "no request");
    }
    requests.ask(place).expect(rt, "a number")
}

/// Does what is next for the command of a place; the caller answers at once, and the host sends what is asked for. So many
/// bytes of Data went or came.
fn go(rt: &impl Abort, alloc: Global, requests: &mut Requests, place: u8) -> usize
    requires { place < 33 }
{
    let Some(next) = next_of(requests, place) else {
        panic!(rt; "no command");
    };
    if !requests.may_go(place) {
        panic!(rt; "it waits");
    }
    match next.turn {
        Turn::Start => requests.start(place).expect(rt, "memory"),
        Turn::Load => {
            let number = ask(rt, requests, place);
            let bytes = zeros(alloc, next.part).expect(rt, "memory");
            requests.loaded(place, number, bytes).expect(rt, "a load");
        }
        Turn::Store => {
            let number = ask(rt, requests, place);
            requests.stored(place, number).expect(rt, "a store");
        }
        Turn::Flush => {
            let number = ask(rt, requests, place);
            requests.flushed(place, number).expect(rt, "a flush");
        }
        Turn::Data => {
            send(rt, requests, place);
            return next.len;
        }
        Turn::SetUp | Turn::Activate if next.asks_data => {
            send(rt, requests, place);
            let bytes = zeros(alloc, next.len).expect(rt, "memory");
            requests.came(place, &bytes).expect(rt, "memory");
            return next.len;
        }
        Turn::Nothing => panic!(rt; "it waits for nothing"),
        Turn::SetUp | Turn::Activate | Turn::Announce | Turn::End | Turn::Fail => {
            send(rt, requests, place)
        }
    }
    0
}

/// The bytes that a command moves until its place is free.
fn moved(rt: &impl Abort, alloc: Global, command: Command) -> usize
    requires is { IsCommand command }
    requires place { command.place < 33 }
{
    let mut requests = Requests::new(alloc).expect(rt, "memory");
    let mut bytes = 0usize;
    requests.take(alloc, command);
    for _ in 0..20_000u32 {
        if !requests.is_taken(command.place) {
            return bytes;
        }
        bytes = bytes.saturating_add(go(rt, alloc, &mut requests, command.place));
    }
    panic!(rt; "it does not end");
}

#[test]
fn each_kind_ends(rt: HostRuntime) {
    let alloc = rt.alloc();
    let all = 2049 * 512;
    assert!(rt; moved(&rt, alloc, READ) == all);
    assert!(rt;
        moved(
            &rt,
            alloc,
            Command {
                write: true,
                lasting: true,
                ..READ
            }
        ) == all
    );
    assert!(rt;
        moved(
            &rt,
            alloc,
            Command {
                write: true,
                auto_activate: true,
                ..READ
            }
        ) == all
    );
    assert!(rt;
        moved(
            &rt,
            alloc,
            Command {
                place: 32,
                protocol: Protocol::Dma,
                ..READ
            }
        ) == all
    );
    assert!(rt;
        moved(
            &rt,
            alloc,
            Command {
                place: 32,
                protocol: Protocol::Verify,
                ..READ
            }
        ) == 0
    );
    let pio = Command {
        place: 32,
        protocol: Protocol::Pio,
        block: 512,
        ..READ
    };
    assert!(rt; moved(&rt, alloc, pio) == all);
    assert!(rt; moved(&rt, alloc, Command { write: true, ..pio }) == all);
}

#[test]
fn laws_hold(_rt: HostRuntime) {
    ends_are_earned();
    data_are_named();
    late_answers_count_for_nothing();
    numbers_are_fresh();
    block_command::ends_are_earned();
}
