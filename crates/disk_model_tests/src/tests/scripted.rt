//! Scripts.

use super::steps::Step::{IsSilent, Plugs, Sends, Takes};
use super::steps::{Step, assert_steps};
use disk_model::{Scripted, Unit};
use fis_view::{Bytes, Stamp};
use std::alloc::AllocError;

pub const STAMP: Stamp = Stamp {
    port: 3,
    conn: 1,
    number: 7,
    shown: [0; 15],
};

/// A script: what is no frame is left out.
static SCRIPT: [&[u8]; 4] = [
    &[0xA1, 0, 0x50, 0, 1, 0, 0, 0],
    &[1, 2, 3],
    &[],
    &[0x39, 0, 0, 0],
];

static IN_ORDER: [Step; 7] = [
    Plugs,
    Sends("a100500001000000"),
    Takes("39000000"),
    Plugs,
    Sends("39000000"),
    IsSilent,
    IsSilent,
];

#[test]
fn sends_its_script_in_order(rt: HostRuntime) -> Result<(), AllocError> {
    let alloc = rt.alloc();
    let mut frames = Vec::new(alloc);
    for bytes in SCRIPT {
        frames.push(Bytes::from_slice(alloc, bytes)?)?;
    }
    assert_steps(&rt, alloc, Unit::Scripted(Scripted::new(frames)), &IN_ORDER);
    Ok(())
}
