//! Memory that exists is found: calls with varied arguments are refused none of it.

use fis_view::{
    D2hFields, DmaActivateFields, DmaSetupFields, Frame, FrameError, H2dFields, PioSetupFields,
    SetBitsFields, Stamp, d2h, dma_activate, dma_setup, h2d, payload, pio_setup, set_bits,
};
use std::alloc::{AllocError, Global};
use std::test::Fail;

/// Fields that differ from number to number.
#[derive(Clone, Copy)]
struct Varied {
    lba: u64,
    long: u32,
    word: u16,
    byte: u8,
    flag: bool,
    stamp: Stamp,
}

fn spread(i: u32) -> Varied {
    let lba = u64::from(i).wrapping_mul(0x9E37_79B9_7F4A_7C15);
    let long = (lba >> 32) as u32;
    let byte = (lba >> 56) as u8;
    Varied {
        lba,
        long,
        word: (lba >> 48) as u16,
        byte,
        flag: i % 3 == 1,
        stamp: Stamp {
            port: byte,
            conn: long,
            number: i,
            shown: [i % 7; 15],
        },
    }
}

/// The length of a copy.
fn copied(alloc: Global, frame: &Frame) -> Result<usize, AllocError> {
    let copy = frame.copy(alloc)?;
    Ok(copy.bytes().len())
}

fn registers_of(alloc: Global, v: &Varied) -> Result<usize, AllocError> {
    let command = H2dFields {
        pm_port: v.byte,
        c: v.flag,
        command: v.byte,
        features: v.word,
        lba: v.lba,
        device: v.byte,
        count: v.word,
        icc: v.byte,
        control: v.byte,
    };
    let answer = D2hFields {
        pm_port: v.byte,
        i: v.flag,
        status: v.byte,
        error: v.byte,
        lba: v.lba,
        device: v.byte,
        count: v.word,
    };
    let first = copied(alloc, &h2d(alloc, &command, v.stamp)?)?;
    let second = copied(alloc, &d2h(alloc, &answer, v.stamp)?)?;
    Ok(first.saturating_add(second))
}

fn transfers_of(alloc: Global, v: &Varied) -> Result<usize, AllocError> {
    let done = SetBitsFields {
        pm_port: v.byte,
        n: v.flag,
        i: !v.flag,
        status: v.byte,
        error: v.byte,
        sactive: v.long,
    };
    let setup = DmaSetupFields {
        pm_port: v.byte,
        a: v.flag,
        i: v.flag,
        d: !v.flag,
        buffer_id: v.lba,
        offset: v.long,
        count: v.long,
    };
    let block = PioSetupFields {
        pm_port: v.byte,
        i: v.flag,
        d: !v.flag,
        status: v.byte,
        error: v.byte,
        lba: v.lba,
        device: v.byte,
        count: v.word,
        e_status: v.byte,
        transfer: v.word,
    };
    let activate = DmaActivateFields { pm_port: v.byte };
    let first = copied(alloc, &set_bits(alloc, &done, v.stamp)?)?;
    let second = copied(alloc, &dma_setup(alloc, &setup, v.stamp)?)?;
    let third = copied(alloc, &pio_setup(alloc, &block, v.stamp)?)?;
    let fourth = copied(alloc, &dma_activate(alloc, &activate, v.stamp)?)?;
    Ok(
        first
            .saturating_add(second)
            .saturating_add(third)
            .saturating_add(fourth),
    )
}

fn payloads_of(alloc: Global, v: &Varied) -> Result<usize, FrameError> {
    let bytes = [v.byte; 8192];
    let len = 4 + 4 * (v.long % 2048) as usize;
    let data = &bytes[..len];
    let carried = payload(alloc, v.byte, data, v.stamp)?;
    let made = Frame::from_bytes(alloc, data, v.stamp)?;
    Ok(copied(alloc, &carried)?.saturating_add(copied(alloc, &made)?))
}

#[test]
fn finds_memory_that_is_there(rt: HostRuntime) -> Result<(), Fail> {
    let alloc = rt.alloc();
    let mut total = 0usize;
    for i in 0..10_000u32 {
        let v = spread(i);
        total = total
            .saturating_add(registers_of(alloc, &v)?)
            .saturating_add(transfers_of(alloc, &v)?)
            .saturating_add(payloads_of(alloc, &v)?);
    }
    assert!(rt; 100 * 10_000 < total);
    Ok(())
}
