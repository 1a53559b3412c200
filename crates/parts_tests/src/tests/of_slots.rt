//! What no clause says: values from outside, and that calls succeed.

mod steps;

use slots::{Answered, ArriveError, Busy, SetupError, SlotTable, Stray, words_mean_sets};
use std::alloc::AllocError;
use steps::Job::{Control, DmaIn, PioIn, Read, Write};
use steps::Step::{
    Activates, Answers, Arrives, Completes, Flushes, FlushesAll, Gives, IsBusy, IsIssued, IsQueued,
    IsRefused, IsWrite, Issues, Left, Next, Opens, Owner, PioDone, Receiving, Sends, SetsUp,
    SetsUpAuto, SetsUpOut, SetsUpPio, Stretches,
};
use steps::{Step, play};

static TWO: [Step; 16] = [
    Opens(0, 0, 2),
    Opens(1, 4, 1),
    SetsUp(0, 0, 512, 512, None),
    SetsUp(4, 1, 0, 512, None),
    Receiving(4, Some(1)),
    Arrives(0, 128, Some((0, 512))),
    Left(0, Some(0)),
    Left(4, Some(512)),
    Arrives(4, 128, Some((1, 0))),
    Completes(0, 3, (0, 1)),
    Completes(4, 3, (2, 0)),
    IsQueued(1),
    SetsUp(0, 0, 0, 512, None),
    Arrives(0, 128, Some((0, 0))),
    Completes(0, 1, (1, 0)),
    Owner(0, None),
];

#[test]
fn reads_of_two_devices_interleave(rt: HostRuntime) {
    words_mean_sets();
    SlotTable::new().keeps_rules();
    play(&rt, &TWO);
}

static STRETCHES: [Step; 7] = [
    Opens(5, 3, 2),
    Stretches(3, 5, 64),
    SetsUp(3, 5, 512, 4, Some(SetupError::Fragments)),
    SetsUp(3, 5, 508, 4, None),
    SetsUp(3, 5, 4, 4, None),
    Arrives(3, 1, Some((5, 4))),
    SetsUp(3, 5, 512, 4, None),
];

#[test]
fn sixty_four_stretches_at_most(rt: HostRuntime) {
    play(&rt, &STRETCHES);
}

#[test]
fn a_table_is_small(rt: HostRuntime) {
    assert!(rt; size_of::<SlotTable>() < 65536);
}

static REFUSED: [Step; 11] = [
    Issues(0, 0, Read(2)),
    SetsUpOut(0, 0, 2, 4096, Some(SetupError::NotOutstanding)),
    Sends(1, Some(0)),
    Answers(0, Answered::Queued(0)),
    SetsUpOut(0, 0, 2, 4096, Some(SetupError::WrongWay)),
    SetsUp(0, 0, 0, 12, None),
    IsRefused(0, 4, ArriveError::Overflow),
    Arrives(0, 3, Some((0, 0))),
    SetsUp(0, 0, 0xFFFF_FFFC, 8, Some(SetupError::Overflow)),
    SetsUp(0, 0, 11, 1013, Some(SetupError::Twice)),
    SetsUp(0, 0, 12, 6, Some(SetupError::BadCount)),
];

#[test]
fn setups_are_refused_in_order(rt: HostRuntime) {
    play(&rt, &REFUSED);
}

static WRITES: [Step; 14] = [
    Issues(9, 2, Write),
    IsBusy(9, 3, Write),
    IsWrite(9),
    Sends(4, Some(9)),
    Answers(2, Answered::Queued(9)),
    SetsUpOut(2, 9, 0, 12288, None),
    Gives(2, None),
    Activates(2, true),
    Activates(2, false),
    Gives(2, Some((9, 0, 8192))),
    Activates(2, true),
    Gives(2, Some((9, 8192, 4096))),
    Activates(2, false),
    Completes(2, 512, (512, 0)),
];

#[test]
fn data_goes_to_the_device(rt: HostRuntime) {
    play(&rt, &WRITES);
}

static AUTO: [Step; 10] = [
    Issues(9, 2, Write),
    Sends(4, Some(9)),
    Answers(2, Answered::Queued(9)),
    SetsUpAuto(2, 9, 0, 12288),
    Activates(2, false),
    Gives(2, Some((9, 0, 8192))),
    Gives(2, None),
    Activates(2, true),
    Gives(2, Some((9, 8192, 4096))),
    Completes(2, 512, (512, 0)),
];

#[test]
fn auto_activate_asks_for_the_first_data(rt: HostRuntime) {
    play(&rt, &AUTO);
}

static BLOCKS: [Step; 10] = [
    Issues(3, 6, PioIn),
    Answers(6, Answered::Nobody),
    Sends(0x40, Some(3)),
    SetsUpPio(6, 512),
    Arrives(6, 128, Some((3, 0))),
    Answers(6, Answered::Short(3)),
    PioDone(6, None),
    SetsUpPio(6, 512),
    Arrives(6, 128, Some((3, 512))),
    PioDone(6, Some(3)),
];

#[test]
fn pio_data_comes_in_blocks(rt: HostRuntime) {
    play(&rt, &BLOCKS);
}

static DMA: [Step; 13] = [
    Issues(0, 6, Read(1)),
    Issues(3, 6, DmaIn),
    Sends(0x40, Some(0)),
    Answers(6, Answered::Queued(0)),
    Sends(0x40, None),
    Flushes(6, 9),
    Issues(3, 6, DmaIn),
    Sends(0x40, Some(3)),
    Arrives(6, 128, Some((3, 0))),
    Answers(6, Answered::Short(3)),
    Arrives(6, 128, Some((3, 512))),
    Answers(6, Answered::Done(3)),
    Arrives(6, 128, None),
];

#[test]
fn dma_needs_no_setup(rt: HostRuntime) {
    play(&rt, &DMA);
}

static LOWEST: [Step; 12] = [
    Issues(2, 1, Read(1)),
    Issues(5, 1, Read(1)),
    Issues(7, 0, Read(1)),
    Issues(9, 15, Control),
    Next(0xFFFF, 2, Some(7)),
    Next(0, 0, Some(9)),
    Sends(0xFFFF, Some(2)),
    Next(0xFFFF, 0, Some(7)),
    IsIssued(0x2A4),
    Flushes(1, 0x24),
    FlushesAll(0x280),
    IsIssued(0),
];

#[test]
fn the_lowest_command_that_may_go_goes(rt: HostRuntime) {
    play(&rt, &LOWEST);
}

#[test]
fn errors_have_texts(rt: HostRuntime) -> Result<(), AllocError> {
    for (error, want) in [
        (SetupError::NotOutstanding, "no such command is outstanding"),
        (SetupError::WrongWay, "wrong direction"),
        (SetupError::Overflow, "more bytes than the command has"),
        (SetupError::Twice, "a byte is set up twice"),
        (SetupError::Fragments, "too many stretches"),
        (SetupError::BadCount, "bad offset or count"),
    ] {
        let text = format!(in rt.alloc(); "{error}")?;
        assert!(rt; text.as_str() == want);
    }
    let text = format!(in rt.alloc();
        "{}, {}, {Busy}, {Stray}",
        ArriveError::Stray,
        ArriveError::Overflow
    )?;
    assert!(rt;
        text.as_str()
            == "no transfer to the host, more data than was set up, slot is in use, no transfer to be activated"
    );
    Ok(())
}
