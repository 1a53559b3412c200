//! Worked rows: commands, and each FIS of the disk.

use crate::host::{Bench, command, queued, some_bytes};
use crate::memory::zeros;
use block_engine::{Answer, ErrorKind, Failure, Request, What};
use fis_view::H2dFields;
use sata_disk::Unheard;
use sata_disk_laws::{
    data_are_named, discards_are_alone, ends_are_earned, fises_are_told, numbers_are_fresh,
    requests_are_apart, silence_is_owed, something_moves,
};
use std::alloc::Global;
use std::process::Abort;

const SIGNATURE: &str = "3400500101000000000000000100000000000000";

const ACCEPTED: &str = "3400500000000000000000000000000000000000";

const DONE: &str = "3440500000000000000000000000000000000000";

const ABORTED: &str = "3440510400000000000000000000000000000000";
/// A PIO Setup FIS of one sector to the host, the last one.
const LAST_IN: &str = "5f60580000000000000000000000005000020000";
/// A PIO Setup FIS of one sector from the host, the first one, and a later one.
const FIRST_OUT: &str = "5f0058000000000000000000000000d000020000";

const NEXT_OUT: &str = "5f4058000000000000000000000000d000020000";

/// Whether the FISes of the disk since it was asked last begin so, in hexadecimal.
fn has_sent(rt: &impl Abort, alloc: Global, bench: &mut Bench, wanted: &[&str]) {
    assert!(rt; bench.frames.len() == wanted.len());
    for (frame, want) in bench.frames.iter().zip(wanted) {
        let text = match hex::encode(alloc, frame.bytes()) {
            Ok(text) => text,
            Err(_) => hex::encode(alloc, frame.bytes()).expect(rt, "memory"),
        };
        assert!(rt; text.as_str().starts_with(*want));
    }
    bench.frames = Vec::new(alloc);
}

/// A disk that has sent its signature.
fn plugged(rt: &impl Abort, alloc: Global) -> Bench {
    let mut bench = Bench::new(rt, alloc);
    bench.settles(rt, alloc);
    has_sent(rt, alloc, &mut bench, &[SIGNATURE]);
    bench
}

#[test]
fn identity_by_pio(rt: HostRuntime) {
    let alloc = rt.alloc();
    let mut bench = plugged(&rt, alloc);
    assert!(rt; bench.gives(&rt, alloc, command(0xEC, 0, 0)).is_none());
    bench.settles(&rt, alloc);
    let page = bench.came(&rt, alloc);
    assert!(rt; page.len() == 512);
    // the signature of the page, 32 commands, and 4,096 sectors
    assert!(rt; page[510] == 0xA5 && page[150] == 31 && page[200] == 0 && page[201] == 0x10);
    has_sent(&rt, alloc, &mut bench, &[LAST_IN, "46000000"]);
}

#[test]
fn queued_write_and_read(rt: HostRuntime) {
    let alloc = rt.alloc();
    let mut bench = plugged(&rt, alloc);
    bench.data = some_bytes(&rt, alloc, 1024, 1);
    assert!(rt; bench.gives(&rt, alloc, queued(0x61, 7, 2, 3)).is_none());
    bench.settles(&rt, alloc);
    has_sent(
        &rt,
        alloc,
        &mut bench,
        &[
            ACCEPTED,
            "41000000030000000000000000000000000000000004000000000000",
            "39000000",
            "a140500008000000",
        ],
    );
    assert!(rt; bench.medium.len() > 4608);
    assert!(rt; bench.medium[3584..4608] == bench.data[..]);
    assert!(rt; bench.gives(&rt, alloc, queued(0x60, 7, 2, 5)).is_none());
    bench.settles(&rt, alloc);
    assert!(rt; bench.came(&rt, alloc)[..] == bench.data[..]);
    has_sent(
        &rt,
        alloc,
        &mut bench,
        &[
            ACCEPTED,
            "41200000050000000000000000000000000000000004000000000000",
            "46000000",
            "a140500020000000",
        ],
    );
    assert!(rt; bench.flushes == 0);
}

#[test]
fn sectors_written_by_pio(rt: HostRuntime) {
    let alloc = rt.alloc();
    let mut bench = plugged(&rt, alloc);
    bench.data = some_bytes(&rt, alloc, 1024, 2);
    assert!(rt; bench.gives(&rt, alloc, command(0x34, 9, 2)).is_none());
    assert!(rt;
        matches!(
            bench.gives(&rt, alloc, command(0xEC, 0, 0)),
            Some(Unheard::Busy)
        )
    );
    bench.settles(&rt, alloc);
    has_sent(&rt, alloc, &mut bench, &[FIRST_OUT, NEXT_OUT, DONE]);
    assert!(rt; bench.medium.len() > 5632);
    assert!(rt; bench.medium[4608..5632] == bench.data[..]);
}

/// The command of a place fails with a sector that cannot be read.
fn fails(rt: &impl Abort, alloc: Global, bench: &mut Bench, wanted: u64) {
    for _ in 0..100u32 {
        if let Some(request) = bench.asks(rt) {
            match request.what {
                What::Load { lba, .. } if lba == wanted => {
                    let failure = Failure {
                        error: ErrorKind::Uncorrectable,
                        lba,
                    };
                    let taken = bench.disk.answer(request.number, Answer::Failed(failure));
                    assert!(rt; taken.is_ok());
                }
                _ => bench.answers(rt, alloc, request),
            }
        } else if !bench.sends(rt, alloc) {
            return;
        }
    }
}

#[test]
fn queued_error_and_its_log(rt: HostRuntime) {
    let alloc = rt.alloc();
    let mut bench = plugged(&rt, alloc);
    bench.gives(&rt, alloc, queued(0x60, 7, 1, 3));
    fails(&rt, alloc, &mut bench, 7);
    has_sent(&rt, alloc, &mut bench, &[ACCEPTED, "a140414000000000"]);
    // until its log is read each command is refused
    assert!(rt; bench.gives(&rt, alloc, queued(0x60, 9, 1, 4)).is_none());
    bench.settles(&rt, alloc);
    has_sent(&rt, alloc, &mut bench, &[ABORTED]);
    assert!(rt; bench.gives(&rt, alloc, command(0x2F, 0x10, 1)).is_none());
    bench.settles(&rt, alloc);
    has_sent(
        &rt,
        alloc,
        &mut bench,
        &[LAST_IN, "46000000030041400700004000000000"],
    );
    bench.gives(&rt, alloc, queued(0x60, 9, 1, 4));
    bench.settles(&rt, alloc);
    assert!(rt; bench.frames.len() == 4);
}

#[test]
fn queued_read_past_the_end_and_its_log(rt: HostRuntime) {
    let alloc = rt.alloc();
    let mut bench = plugged(&rt, alloc);
    // tag 3 waits for its sectors, and tag 5 has a sector behind the last one: IDNF, at sector 4,096
    bench.gives(&rt, alloc, queued(0x60, 7, 1, 3));
    assert!(rt; bench.sends(&rt, alloc));
    let load = bench.asks(&rt).expect(&rt, "a load");
    assert!(rt; bench.gives(&rt, alloc, queued(0x60, 4095, 2, 5)).is_none());
    bench.settles(&rt, alloc);
    has_sent(
        &rt,
        alloc,
        &mut bench,
        &[ACCEPTED, "34405110001000000000000000000000"],
    );
    // tag 3 ended with it
    let late = Answer::Loaded(some_bytes(&rt, alloc, 512, 5));
    assert!(rt; bench.disk.answer(load.number, late).is_err());
    // the log has tag 5, with NQ clear, Status 41h, Error 10h and the sector
    bench.gives(&rt, alloc, command(0x2F, 0x10, 1));
    bench.settles(&rt, alloc);
    has_sent(
        &rt,
        alloc,
        &mut bench,
        &[LAST_IN, "46000000050041100010004000000000"],
    );
}

#[test]
fn a_tag_that_is_out_ends_all(rt: HostRuntime) {
    let alloc = rt.alloc();
    let mut bench = plugged(&rt, alloc);
    bench.gives(&rt, alloc, queued(0x60, 7, 1, 3));
    assert!(rt; bench.sends(&rt, alloc));
    // which command the tag names is not clear then: the log has NQ, and no tag
    assert!(rt; bench.gives(&rt, alloc, queued(0x60, 4095, 2, 3)).is_none());
    bench.settles(&rt, alloc);
    has_sent(&rt, alloc, &mut bench, &[ACCEPTED, ABORTED]);
    bench.gives(&rt, alloc, command(0x2F, 0x10, 1));
    bench.settles(&rt, alloc);
    has_sent(&rt, alloc, &mut bench, &[LAST_IN, "46000000800000000000"]);
}

#[test]
fn a_reset_and_a_late_answer(rt: HostRuntime) {
    let alloc = rt.alloc();
    let mut bench = plugged(&rt, alloc);
    bench.gives(&rt, alloc, queued(0x60, 7, 1, 3));
    assert!(rt; bench.sends(&rt, alloc));
    let load = bench.asks(&rt).expect(&rt, "a load");
    let reset = H2dFields {
        c: false,
        control: 4,
        ..command(0, 0, 0)
    };
    assert!(rt; bench.gives(&rt, alloc, reset).is_none());
    assert!(rt;
        matches!(
            bench.gives(&rt, alloc, command(0xEC, 0, 0)),
            Some(Unheard::InReset)
        )
    );
    let late = Answer::Loaded(some_bytes(&rt, alloc, 512, 5));
    assert!(rt; bench.disk.answer(load.number, late).is_err());
    bench.gives(
        &rt,
        alloc,
        H2dFields {
            control: 0,
            ..reset
        },
    );
    bench.settles(&rt, alloc);
    has_sent(&rt, alloc, &mut bench, &[ACCEPTED, SIGNATURE]);
}

#[test]
fn a_flush_is_asked_for(rt: HostRuntime) {
    let alloc = rt.alloc();
    let mut bench = plugged(&rt, alloc);
    bench.gives(&rt, alloc, command(0xEA, 0, 0));
    bench.settles(&rt, alloc);
    has_sent(&rt, alloc, &mut bench, &[DONE]);
    assert!(rt; bench.flushes == 1);
    // the write cache goes off behind a flush, and each write has one of its own then
    bench.gives(
        &rt,
        alloc,
        H2dFields {
            features: 0x82,
            ..command(0xEF, 0, 0)
        },
    );
    bench.settles(&rt, alloc);
    has_sent(&rt, alloc, &mut bench, &[DONE]);
    bench.data = some_bytes(&rt, alloc, 512, 2);
    bench.gives(&rt, alloc, command(0x35, 9, 1));
    bench.settles(&rt, alloc);
    has_sent(&rt, alloc, &mut bench, &["39000000", DONE]);
    assert!(rt; bench.flushes == 3);
}

#[test]
fn ranges_are_discarded(rt: HostRuntime) {
    let alloc = rt.alloc();
    let mut bench = plugged(&rt, alloc);
    bench.data = some_bytes(&rt, alloc, 512, 2);
    bench.gives(&rt, alloc, command(0xCA, 9, 1));
    bench.settles(&rt, alloc);
    has_sent(&rt, alloc, &mut bench, &["39000000", DONE]);
    assert!(rt; bench.medium.len() > 5120);
    assert!(rt; bench.medium[4608..5120] == bench.data[..]);
    // one sector from sector 9 on
    let mut ranges = zeros(&rt, alloc, 512);
    assert!(rt; ranges.len() == 512);
    ranges[0] = 9;
    ranges[6] = 1;
    bench.data = ranges;
    bench.gone = 0;
    bench.gives(
        &rt,
        alloc,
        H2dFields {
            features: 1,
            ..command(0x06, 0, 1)
        },
    );
    bench.settles(&rt, alloc);
    has_sent(&rt, alloc, &mut bench, &["39000000", DONE]);
    assert!(rt; bench.medium.len() > 5120);
    assert!(rt; bench.medium[4608..5120].iter().all(|b| *b == 0));
}

/// What the disk asks for next.
fn asked(rt: &impl Abort, alloc: Global, bench: &mut Bench) -> Request {
    for _ in 0..100u32 {
        if let Some(request) = bench.asks(rt) {
            return request;
        }
        bench.sends(rt, alloc);
    }
    panic!(rt; "it asks for nothing")
}

#[test]
fn bytes_are_of_the_store_that_is_out(rt: HostRuntime) {
    let alloc = rt.alloc();
    let mut bench = plugged(&rt, alloc);
    bench.gives(&rt, alloc, command(0xC8, 9, 1));
    let load = asked(&rt, alloc, &mut bench);
    assert!(rt; load.place == Some(32) && bench.disk.stored(32, load.number).is_none());
    bench.answers(&rt, alloc, load);
    bench.settles(&rt, alloc);
    bench.data = some_bytes(&rt, alloc, 512, 2);
    bench.gives(&rt, alloc, command(0xCA, 9, 1));
    let first = asked(&rt, alloc, &mut bench);
    assert!(rt; first.place == Some(32) && bench.disk.stored(32, first.number).is_some());
    assert!(rt; bench.disk.stored(32, load.number).is_none());
    assert!(rt; bench.disk.stored(31, first.number).is_none());
    assert!(rt; bench.disk.discarded(first.number).is_none());
    bench.answers(&rt, alloc, first);
    assert!(rt; bench.disk.stored(32, first.number).is_none());
    bench.settles(&rt, alloc);
    // the next command has the same place
    bench.data = some_bytes(&rt, alloc, 512, 3);
    bench.gone = 0;
    bench.gives(&rt, alloc, command(0xCA, 10, 1));
    let second = asked(&rt, alloc, &mut bench);
    assert!(rt; second.place == Some(32) && bench.disk.stored(32, second.number).is_some());
    assert!(rt; bench.disk.stored(32, first.number).is_none());
}

#[test]
fn laws_hold(_rt: HostRuntime) {
    ends_are_earned();
    requests_are_apart();
    numbers_are_fresh();
    data_are_named();
    discards_are_alone();
    fises_are_told();
    silence_is_owed();
    something_moves();
}
