//! What the tests share.

use ata_command::{Asked, Facts, Multiple, Settings};
use fis_view::{Fis, Frame, Stamp};
use std::alloc::Global;
use std::test::Fail;

/// The stamp of each frame in the tests.
pub(super) const STAMP: Stamp = Stamp {
    port: 3,
    conn: 1,
    number: 7,
    shown: [0; 15],
};

/// 2^33 sectors, 31 queued commands, 8 blocks of ranges.
pub(super) fn facts() -> Option<Facts> {
    Facts::new(0x2_0000_0000, 31, 8)
}

/// The settings after SET MULTIPLE MODE of 8 and SET FEATURES that enables auto-activate.
pub(super) fn settings() -> Settings {
    Settings {
        multiple: Multiple::Eight,
        auto_activate: true,
        ..Settings::power_on()
    }
}

/// What the command of these bytes asks of this disk, which are in hexadecimal; None if they are no Register FIS to a disk.
pub(super) fn asked_of(
    alloc: Global,
    hex: &str,
    facts: &Facts,
    settings: Settings,
) -> Result<Option<Asked>, Fail> {
    let frame = Frame::from_bytes(alloc, hex::decode(alloc, hex)?.as_slice(), STAMP)?;
    Ok(match frame.fis()? {
        Fis::RegH2D(fis) => Some(Asked::of(&fis, facts, settings)),
        _ => None,
    })
}
