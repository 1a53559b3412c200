use super::frames::{READ, STAMP};
use fis_view::{
    Bytes, D2hFields, DmaActivateFields, DmaSetupFields, Frame, FrameError, H2dFields,
    PioSetupFields, SetBitsFields, d2h, dma_activate, dma_setup, h2d, payload, pio_setup, set_bits,
};
use std::alloc::{AllocError, Global};
use std::test::Fail;

const COMMAND: H2dFields = H2dFields {
    pm_port: 0x13,
    c: true,
    command: 0x60,
    features: 1,
    lba: 0xFFFF_0000_0000_0100,
    device: 0x40,
    count: 0x28,
    icc: 0,
    control: 0,
};

const ANSWER: D2hFields = D2hFields {
    pm_port: 15,
    i: true,
    status: 0x50,
    error: 1,
    lba: 0x0605_0403_0201,
    device: 0xA0,
    count: 0x0807,
};

const DONE: SetBitsFields = SetBitsFields {
    pm_port: 3,
    n: true,
    i: true,
    status: 0xFF,
    error: 4,
    sactive: 0x8000_0020,
};

const ACTIVATE: DmaActivateFields = DmaActivateFields { pm_port: 2 };

const SETUP: DmaSetupFields = DmaSetupFields {
    pm_port: 3,
    a: true,
    i: false,
    d: true,
    buffer_id: 0x0100_0000_0000_0005,
    offset: 0x400,
    count: 512,
};

const BLOCK: PioSetupFields = PioSetupFields {
    pm_port: 1,
    i: true,
    d: true,
    status: 0x58,
    error: 2,
    lba: 0x0605_0403_0201,
    device: 0xA0,
    count: 1,
    e_status: 0x50,
    transfer: 512,
};

/// Each builder.
#[derive(Clone, Copy)]
enum Builder {
    Command,
    Answer,
    Done,
    Activate,
    Setup,
    Block,
}

fn built(alloc: Global, builder: Builder) -> Result<Frame, AllocError> {
    match builder {
        Builder::Command => h2d(alloc, &COMMAND, STAMP),
        Builder::Answer => d2h(alloc, &ANSWER, STAMP),
        Builder::Done => set_bits(alloc, &DONE, STAMP),
        Builder::Activate => dma_activate(alloc, &ACTIVATE, STAMP),
        Builder::Setup => dma_setup(alloc, &SETUP, STAMP),
        Builder::Block => pio_setup(alloc, &BLOCK, STAMP),
    }
}

/// Their bytes.
static BYTES: [(Builder, &[u8]); 6] = [
    (Builder::Command, &READ),
    (
        Builder::Answer,
        &[
            0x34, 0x4F, 0x50, 1, 1, 2, 3, 0xA0, 4, 5, 6, 0, 7, 8, 0, 0, 0, 0, 0, 0,
        ],
    ),
    (Builder::Done, &[0xA1, 0xC3, 0x77, 4, 0x20, 0, 0, 0x80]),
    (Builder::Activate, &[0x39, 2, 0, 0]),
    (
        Builder::Setup,
        &[
            0x41, 0xA3, 0, 0, 5, 0, 0, 0, 0, 0, 0, 1, 0, 0, 0, 0, 0, 4, 0, 0, 0, 2, 0, 0, 0, 0, 0,
            0,
        ],
    ),
    (
        Builder::Block,
        &[
            0x5F, 0x61, 0x58, 2, 1, 2, 3, 0xA0, 4, 5, 6, 0, 1, 0, 0, 0x50, 0, 2, 0, 0,
        ],
    ),
];

/// Whether a frame has these bytes and the stamp.
fn is(frame: &Frame, bytes: &[u8]) -> bool {
    frame.bytes() == bytes && frame.stamp() == STAMP
}

#[test]
fn build_the_bytes_of_the_standard(rt: HostRuntime) -> Result<(), Fail> {
    for (builder, bytes) in &BYTES {
        let frame = built(rt.alloc(), *builder)?;
        assert!(rt; is(&frame, bytes), "{bytes:?}");
    }
    Ok(())
}

#[test]
fn builds_a_payload(rt: HostRuntime) -> Result<(), Fail> {
    let frame = payload(rt.alloc(), 0xF2, &[1, 2, 3, 4], STAMP)?;
    assert!(rt; is(&frame, &[0x46, 2, 0, 0, 1, 2, 3, 4]));
    Ok(())
}

/// Whether a Data FIS of so many bytes is made, or refused.
fn is_refused(alloc: Global, count: usize, refused: bool) -> bool {
    let bytes = [0; 8196];
    match payload(alloc, 0, bytes.get(..count).unwrap_or(&[]), STAMP) {
        Ok(frame) => !refused && frame.bytes().len() == count.saturating_add(4),
        Err(fault) => refused && fault == FrameError::BadLength,
    }
}

#[test]
fn refuses_other_payloads(rt: HostRuntime) {
    for (count, refused) in [(8192, false), (8196, true), (6, true), (0, true)] {
        assert!(rt; is_refused(rt.alloc(), count, refused), "{count}");
    }
}

/// 1 if memory was refused, 2 for any other refusal.
fn refused(made: Result<Frame, FrameError>) -> usize {
    match made {
        Ok(_) => 0,
        Err(FrameError::OutOfMemory) => 1,
        Err(_) => 2,
    }
}

/// How many calls were refused memory; a refusal of another kind counts as two.
fn all_refused(alloc: Global) -> usize {
    let mut count = refused(payload(alloc, 0, &[0; 4], STAMP));
    for (builder, _) in &BYTES {
        if built(alloc, *builder).is_err() {
            count = count.saturating_add(1);
        }
    }
    match Frame::from_bytes(alloc, &READ, STAMP) {
        Ok(frame) => {
            if frame.copy(alloc).is_err() {
                count = count.saturating_add(1);
            }
        }
        Err(_) => count = count.saturating_add(1),
    }
    if Bytes::from_slice(alloc, &READ).is_err() {
        count = count.saturating_add(1);
    }
    count
}

/// Refuses the first, second, .. allocation in turn. Each of them belongs to one call, and only that call
/// fails.
#[test]
fn each_refused_allocation_is_answered(rt: HostRuntime) {
    assert!(rt; all_refused(rt.alloc()) <= 1);
}
