//! Requests that are taken, and each refusal in its order.

use super::steps::Step::{FillsSlots, PlugsDisks, PollsAll, Reads, Settles, Submits, Writes};
use super::steps::{Entries, Step, assert_steps};
use hba_driver::{Driver, SubmitError, Work};
use std::alloc::{AllocError, Global};
use std::test::Fail;

/// The refusals with their numbers and texts.
static TEXTS: [(u8, SubmitError, &str); 10] = [
    (1, SubmitError::NoDevice, "no such device"),
    (2, SubmitError::Recovering, "the device recovers"),
    (3, SubmitError::QueueBusy, "the queue is busy"),
    (4, SubmitError::BadCount, "bad count"),
    (5, SubmitError::LengthMismatch, "length mismatch"),
    (6, SubmitError::BadPrd, "bad entry"),
    (7, SubmitError::Overlap, "entries overlap"),
    (8, SubmitError::NoSlot, "no free slot"),
    (9, SubmitError::TicketsSpent, "no more tickets"),
    (
        10,
        SubmitError::OtherDevice,
        "a request of another device has not ended",
    ),
];

/// The first number whose refusal does not have it, or not with its text.
fn first_other_text(alloc: Global) -> Result<Option<u8>, AllocError> {
    for row in TEXTS.iter() {
        let (number, refusal, text) = *row;
        if refusal as u8 != number || refusal.to_string(alloc)?.as_str() != text {
            return Ok(Some(number));
        }
    }
    Ok(None)
}

#[test]
fn refusals_have_numbers_and_texts(rt: HostRuntime) -> Result<(), AllocError> {
    let other = first_other_text(rt.alloc())?;
    assert_eq!(rt; other, None);
    Ok(())
}

/// A sector.
const OK: Entries = &[(0x10_3000, 512)];

/// Flushes that have sectors or entries, which no line of a scenario can give, beside a read that is
/// outstanding. Each refusal comes before the next.
static FLUSHES: [Step; 6] = [
    PlugsDisks(2),
    Reads(0, 0, 0x10_1000, Ok(1)),
    Submits(15, Work::Flush, 0, 1, &[], Err(SubmitError::NoDevice)),
    Submits(0, Work::Flush, 0, 1, &[], Err(SubmitError::QueueBusy)),
    Submits(1, Work::Flush, 0, 1, &[], Err(SubmitError::BadCount)),
    Submits(1, Work::Flush, 0, 0, OK, Err(SubmitError::LengthMismatch)),
];

#[test]
fn flushes_move_no_sectors(rt: HostRuntime) -> Result<(), Fail> {
    assert_steps(&rt, rt.alloc(), Driver::new(), 2, &[&FLUSHES])
}

/// The first of the last thirty tickets.
const FIRST: u32 = 0xFFFF_FFFF - 29;

/// Thirty writes over two devices take the slots 0 to 29. No slot is free then, before the requests have ended and after
/// that. In the end the last ticket was given.
static SLOTS: [Step; 11] = [
    PlugsDisks(2),
    FillsSlots(FIRST),
    Reads(0, 0, 0x10_3000, Err(SubmitError::Overlap)),
    Writes(0, 0, 0x10_3000, Err(SubmitError::NoSlot)),
    Writes(1, 0, 0x10_3000, Err(SubmitError::NoSlot)),
    Settles,
    Writes(0, 0, 0x10_3000, Err(SubmitError::NoSlot)),
    Writes(1, 0, 0x10_3000, Err(SubmitError::NoSlot)),
    PollsAll(FIRST),
    Writes(0, 0, 0x10_3000, Err(SubmitError::TicketsSpent)),
    Writes(1, 0, 0x10_3000, Err(SubmitError::TicketsSpent)),
];

#[test]
fn slots_and_tickets_end(rt: HostRuntime) -> Result<(), Fail> {
    let driver = Driver::with_next_ticket(FIRST);
    assert_steps(&rt, rt.alloc(), driver, 2, &[&SLOTS])
}
