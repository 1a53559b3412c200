//! What no clause says: values from outside, and that the calls answer them.

ghost use Rattle.std.specs.Prelude.{◌≡◌, ◌<◌, length};
ghost use Rattle.rx_area.specs.Area.{after_post};

use fis_view::Fis;
use rx_area::{Posted, RX_AREA, RxArea, posting_of};

/// The borrowed bytes end as the area leaves them.
fn post_into(bytes: &mut [u8], dev: u8, fis: &Fis<'_>) -> Posted
    requires area { length bytes.old ≡ 4096 }
    requires dev { dev < 16 }
    ensures { bytes.new ≡ after_post bytes.old dev fis.now }
{
    let mut area = RxArea::over(bytes);
    area.post(dev, fis)
}

const SETUP: [u8; 28] = [
    0x41, 0x23, 0, 0, 5, 0, 0, 0, 0, 0, 0, 0, 0, 0, 0, 0, 0, 0, 0, 0, 0, 2, 0, 0, 0, 0, 0, 0,
];

const PIO: [u8; 20] = [
    0x5F, 0x63, 0x58, 0, 0, 0, 0, 0, 0, 0, 0, 0, 0, 0, 0, 0x50, 0, 2, 0, 0,
];

const D2H: [u8; 20] = [
    0x34, 0x43, 0x50, 1, 1, 0, 0, 0, 0, 0, 0, 0, 1, 0, 0, 0, 0, 0, 0, 0xD2,
];

const BITS: [u8; 8] = [0xA1, 0x43, 0x50, 0, 0x20, 0, 0, 0x5B];

/// How many bytes are not 0.
fn count_set(bytes: &[u8]) -> usize {
    bytes.iter().filter(|byte| **byte != 0).count()
}

/// Whether a FIS of these bytes is posted so.
fn posts(memory: &mut [u8; RX_AREA], dev: u8, bytes: &[u8], wanted: Posted) -> bool {
    if bytes.len() < 4 || 8196 < bytes.len() || bytes.len() % 4 != 0 {
        return false;
    }
    match Fis::of(bytes) {
        Ok(fis) => dev < 16 && post_into(memory, dev, &fis) == wanted,
        Err(_) => false,
    }
}

/// A FIS is posted at its place of row 3, up to its last byte, and no other byte changes.
#[test]
fn a_fis_has_its_place(rt: HostRuntime) {
    let mut memory = [0; RX_AREA];
    assert!(rt; posts(&mut memory, 3, &BITS, Posted::Bits));
    assert!(rt; &memory[0x358..0x360] == BITS.as_slice() && count_set(&memory) == 5);
}

/// Where the bytes of a FIS are copied to, if it is one.
fn copied_to(dev: u8, bytes: &[u8]) -> Option<u32> {
    if dev > 15 || bytes.len() < 4 || 8196 < bytes.len() || bytes.len() % 4 != 0 {
        return None;
    }
    match Fis::of(bytes) {
        Ok(fis) => Some(posting_of(dev, &fis).at),
        Err(_) => None,
    }
}

#[test]
fn a_posting_says_where(rt: HostRuntime) {
    assert_eq!(rt; copied_to(3, &BITS), Some(0x358));
    assert_eq!(rt; copied_to(15, &D2H), Some(0xF40));
}

static ALL: [(&[u8], Posted); 5] = [
    (&SETUP, Posted::Setup),
    (&PIO, Posted::Pio),
    (&D2H, Posted::D2h),
    (&BITS, Posted::Bits),
    (&[0xC7; 60], Posted::Unknown),
];

/// Whether each of them is read where it was posted, in row 15, and nothing elsewhere.
fn are_read(memory: &mut [u8; RX_AREA]) -> bool {
    let area = RxArea::over(memory);
    area.setup(15) == SETUP.as_slice()
        && area.pio(15) == PIO.as_slice()
        && area.d2h(15) == D2H.as_slice()
        && area.bits(15) == BITS.as_slice()
        && count_set(area.unknown(15)) == 60
        && area.unknown(15).len() == 64
        && count_set(area.d2h(14)) == 0
        && count_set(area.setup(0)) == 0
}

/// The readers see only what was posted in their row.
#[test]
fn readers_see_their_row(rt: HostRuntime) {
    let mut memory = [0; RX_AREA];
    for (bytes, wanted) in &ALL {
        assert!(rt; posts(&mut memory, 15, bytes, *wanted));
    }
    assert!(rt; are_read(&mut memory));
}

/// A Register FIS of the host, a FIS of Data, a DMA Activate, and an unknown FIS that is too long.
static WITHOUT_PLACE: [&[u8]; 4] = [
    &[
        0x27, 0x43, 0x50, 1, 1, 0, 0, 0, 0, 0, 0, 0, 1, 0, 0, 0, 0, 0, 0, 0xD2,
    ],
    &[0x46, 0x43, 0x50, 0, 0x20, 0, 0, 0x5B],
    &[0x39, 2, 0, 0],
    &[0xC7; 68],
];

/// What has no place changes nothing.
#[test]
fn what_has_no_place_is_not_posted(rt: HostRuntime) {
    let mut memory = [0; RX_AREA];
    for bytes in &WITHOUT_PLACE {
        assert!(rt; posts(&mut memory, 2, bytes, Posted::Nothing));
    }
    assert!(rt; count_set(&memory) == 0);
}
