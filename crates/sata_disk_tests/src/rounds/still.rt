//! Commands that move no sectors: each by its end, and pages by their bytes.

ghost use Rattle.std.specs.Prelude.{◌≡◌, ◌<◌, ◌+◌, ◌*◌, length};

use crate::host::{ABORTED, Bench, Ending, WELL, command, next};
use fis_view::H2dFields;
use std::alloc::Global;
use std::process::Abort;

/// A disk that has sent its signature.
fn plugged(rt: &impl Abort, alloc: Global) -> Bench {
    let mut bench = Bench::with_limit(rt, alloc, 1 << 20);
    bench.settles(rt, alloc);
    bench
}

/// A command of these Features.
fn with(features: u16, fields: H2dFields) -> H2dFields {
    H2dFields { features, ..fields }
}

/// A page: the command ends well, by PIO or by DMA, with 512 bytes.
fn page(rt: &impl Abort, alloc: Global, bench: &mut Bench, fields: H2dFields) -> Vec<u8>
    ensures { length result.items ≡ 512 }
{
    assert_eq!(rt; bench.runs(rt, alloc, fields), WELL);
    let bytes = bench.came(rt, alloc);
    assert!(rt; bytes.len() == 512);
    bytes
}

/// All bytes of the page sum to 0 (ACS-3, 7.12 and 9).
fn is_closed(page: &[u8]) -> bool {
    let mut sum = 0u8;
    for byte in page {
        sum = sum.wrapping_add(*byte);
    }
    sum == 0
}

/// Word n of a page.
fn word(page: &[u8], n: usize) -> u16
    requires { 2 * n + 1 < length page.now }
{
    u16::from(page[2 * n]) + 256 * u16::from(page[2 * n + 1])
}

/// What a host has set.
#[derive(Clone, Copy)]
struct Known {
    cache: bool,
    ahead: bool,
    auto: bool,
    /// Bit n for mode n of multiword DMA.
    multiword: u16,
    /// The same of Ultra DMA.
    ultra: u16,
}

/// Sets one feature, and knows it.
fn set(known: &mut Known, seed: u64) -> H2dFields {
    let is_on = seed >> 45 & 1 == 1;
    let fields = command(0xEF, 0, 0);
    match seed >> 40 & 7 {
        0 | 1 => {
            known.cache = is_on;
            with(if is_on { 0x02 } else { 0x82 }, fields)
        }
        2 => {
            known.ahead = is_on;
            with(if is_on { 0xAA } else { 0x55 }, fields)
        }
        3 => {
            known.auto = is_on;
            with(if is_on { 0x10 } else { 0x90 }, command(0xEF, 0, 2))
        }
        4 | 5 => {
            let mode = (seed >> 50) as u16 % 7;
            known.multiword = 0;
            known.ultra = 1 << mode;
            with(0x03, command(0xEF, 0, 0x40 + mode))
        }
        6 => {
            let mode = (seed >> 50) as u16 % 3;
            known.multiword = 1 << mode;
            known.ultra = 0;
            with(0x03, command(0xEF, 0, 0x20 + mode))
        }
        _ => with(if is_on { 0xCC } else { 0x66 }, fields),
    }
}

/// The IDENTIFY DEVICE data say what was set (ACS-3, 7.12.7).
fn says(rt: &impl Abort, page: &[u8], known: &Known) {
    assert!(rt; page.len() == 512 && is_closed(page) && page[510] == 0xA5);
    assert_eq!(rt; word(page, 85) >> 5 & 1 == 1, known.cache);
    assert_eq!(rt; word(page, 85) >> 6 & 1 == 1, known.ahead);
    assert_eq!(rt; word(page, 79) >> 2 & 1 == 1, known.auto);
    assert!(rt; word(page, 63) % 256 == 0x07 && word(page, 88) % 256 == 0x7F);
    assert_eq!(rt; word(page, 63) / 256, known.multiword);
    assert_eq!(rt; word(page, 88) / 256, known.ultra);
}

#[test]
fn features_are_set(rt: HostRuntime) {
    let alloc = rt.alloc();
    let mut bench = plugged(&rt, alloc);
    let mut known = Known {
        cache: true,
        ahead: true,
        auto: false,
        multiword: 0,
        ultra: 1 << 6,
    };
    let mut seed = 13u64;
    for _ in 0..20_000u32 {
        seed = next(seed);
        let fields = set(&mut known, seed);
        assert_eq!(rt; bench.runs(&rt, alloc, fields), WELL);
        let bytes = page(&rt, alloc, &mut bench, command(0xEC, 0, 0));
        says(&rt, &bytes, &known);
    }
    assert!(rt; bench.flushes > 2000);
}

/// Logs 00h, 10h and 30h by PIO or by DMA (ACS-3, 9).
fn logs(rt: &impl Abort, alloc: Global, bench: &mut Bench, code: u8) {
    let directory = page(rt, alloc, bench, command(code, 0, 1));
    assert!(rt;
        word(&directory, 0) == 1 && word(&directory, 0x10) == 1 && word(&directory, 0x30) == 2
    );
    let errors = page(rt, alloc, bench, command(code, 0x10, 1));
    assert!(rt; errors[0] == 0x80 && errors[2] == 0 && is_closed(&errors));
    let pages = page(rt, alloc, bench, command(code, 0x30, 1));
    assert!(rt; pages[0] == 1 && pages[8] == 2 && pages[9] == 0 && pages[10] == 1);
    let identity = page(rt, alloc, bench, command(0xEC, 0, 0));
    let same = page(rt, alloc, bench, command(code, 0x130, 1));
    assert!(rt; same[..] == identity[..]);
    for lba in [0x11, 0x230, 0x110, 0x1_0000_0030] {
        assert_eq!(rt; bench.runs(rt, alloc, command(code, lba, 1)), ABORTED);
    }
}

#[test]
fn logs_are_read(rt: HostRuntime) {
    let alloc = rt.alloc();
    let mut bench = plugged(&rt, alloc);
    for _ in 0..2000u32 {
        logs(&rt, alloc, &mut bench, 0x2F);
        logs(&rt, alloc, &mut bench, 0x47);
    }
}

/// A command of SMART, with its key.
fn smart(features: u16) -> H2dFields {
    with(features, command(0xB0, 0xC2_4F00, 0))
}

/// SMART READ DATA, THRESHOLDS, AUTOSAVE, ENABLE and RETURN STATUS, and without the key (ACS-3, 7.46).
fn smart_round(rt: &impl Abort, alloc: Global, bench: &mut Bench) {
    for features in [0xD0, 0xD1] {
        let bytes = page(rt, alloc, bench, smart(features));
        assert!(rt; bytes[0] == 0x10 && is_closed(&bytes));
    }
    for features in [0xD2, 0xD8] {
        assert_eq!(rt; bench.runs(rt, alloc, smart(features)), WELL);
    }
    let healthy = Ending {
        lba: 0xC2_4F00,
        ..WELL
    };
    assert_eq!(rt; bench.runs(rt, alloc, smart(0xDA)), healthy);
    assert_eq!(rt; bench.runs(rt, alloc, smart(0xD5)), ABORTED);
    let keyless = with(0xD0, command(0xB0, 0xC2_4E00, 0));
    assert_eq!(rt; bench.runs(rt, alloc, keyless), ABORTED);
}

#[test]
fn smart_is_asked(rt: HostRuntime) {
    let alloc = rt.alloc();
    let mut bench = plugged(&rt, alloc);
    for _ in 0..2000u32 {
        smart_round(&rt, alloc, &mut bench);
    }
}

/// FLUSH CACHE and EXT, STANDBY and SLEEP flush; IDLE does not; CHECK POWER MODE says that the disk is active.
fn power_round(rt: &impl Abort, alloc: Global, bench: &mut Bench) {
    for code in [0xE7, 0xEA, 0xE0, 0xE2, 0xE6] {
        let flushes = bench.flushes;
        assert_eq!(rt; bench.runs(rt, alloc, command(code, 0, 0)), WELL);
        assert!(rt; bench.flushes > flushes);
    }
    let flushes = bench.flushes;
    for code in [0xE1, 0xE3] {
        assert_eq!(rt; bench.runs(rt, alloc, command(code, 0, 0)), WELL);
    }
    let active = Ending {
        count: 0xFF,
        ..WELL
    };
    assert_eq!(rt; bench.runs(rt, alloc, command(0xE5, 0, 0)), active);
    assert!(rt; bench.flushes == flushes);
}

#[test]
fn caches_are_flushed_and_modes_checked(rt: HostRuntime) {
    let alloc = rt.alloc();
    let mut bench = plugged(&rt, alloc);
    for _ in 0..2000u32 {
        power_round(&rt, alloc, &mut bench);
    }
}

/// Each code that names no command, and SET FEATURES of what the disk does not have.
fn refusals(rt: &impl Abort, alloc: Global, bench: &mut Bench) {
    for code in [
        0x00, 0x10, 0x22, 0x50, 0x70, 0x90, 0xA0, 0xA1, 0xC7, 0xF1, 0xF8,
    ] {
        assert_eq!(rt; bench.runs(rt, alloc, command(code, 0, 1)), ABORTED);
    }
    for features in [0x05, 0x85, 0x10, 0x42] {
        assert_eq!(rt;
            bench.runs(rt, alloc, with(features, command(0xEF, 0, 0))),
            ABORTED
        );
    }
}

#[test]
fn other_commands_are_refused(rt: HostRuntime) {
    let alloc = rt.alloc();
    let mut bench = plugged(&rt, alloc);
    for _ in 0..500u32 {
        refusals(&rt, alloc, &mut bench);
    }
}
