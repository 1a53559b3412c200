//! What hosts do in an order of their own: after an error, at power off, and where a command is cut off.

use crate::host::{ABORTED, Bench, Ending, SECTORS, WELL, command, queued, some_bytes};
use block_engine::{Answer, ErrorKind, Failure, What};
use fis_view::{Fis, H2dFields};
use std::alloc::Global;
use std::process::Abort;

/// A sector that cannot be read.
const BAD: u64 = 8;

/// A disk that has sent its signature.
fn plugged(rt: &impl Abort, alloc: Global) -> Bench {
    let mut bench = Bench::new(rt, alloc);
    bench.settles(rt, alloc);
    bench.frames = Vec::new(alloc);
    bench
}

/// All goes on until nothing is left to do; the bad sector is not read.
fn settles(rt: &impl Abort, alloc: Global, bench: &mut Bench) {
    for _ in 0..1000u32 {
        let Some(request) = bench.asks(rt) else {
            if !bench.sends(rt, alloc) {
                return;
            }
            continue;
        };
        match request.what {
            What::Load { lba, count } if lba <= BAD && BAD - lba < u64::from(count) => {
                let failure = Failure {
                    error: ErrorKind::Uncorrectable,
                    lba: BAD,
                };
                let taken = bench.disk.answer(request.number, Answer::Failed(failure));
                assert!(rt; taken.is_ok());
            }
            _ => bench.answers(rt, alloc, request),
        }
    }
    panic!(rt; "it goes on");
}

/// How a command ends that is not queued.
fn ends(rt: &impl Abort, alloc: Global, bench: &mut Bench, fields: H2dFields) -> Ending {
    bench.frames = Vec::new(alloc);
    bench.gone = 0;
    assert!(rt; bench.gives(rt, alloc, fields).is_none());
    settles(rt, alloc, bench);
    bench.ending(rt)
}

/// The first four bytes of the NCQ Command Error log, which is read.
fn log(rt: &impl Abort, alloc: Global, bench: &mut Bench) -> u32 {
    assert_eq!(rt; ends(rt, alloc, bench, command(0x2F, 0x10, 1)), WELL);
    let page = bench.came(rt, alloc);
    assert!(rt; page.len() == 512);
    (page[0] as u32) << 24 | (page[2] as u32) << 16 | (page[3] as u32) << 8 | page[4] as u32
}

/// Queued reads of a bad sector and of another: the error ends both, by one Set Device Bits FIS.
fn fails(rt: &impl Abort, alloc: Global, bench: &mut Bench) {
    bench.frames = Vec::new(alloc);
    assert!(rt; bench.gives(rt, alloc, queued(0x60, BAD, 1, 3)).is_none());
    settles(rt, alloc, bench);
    let last = bench.frames.last().expect(rt, "a FIS");
    assert!(rt;
        matches!(last.fis(), Ok(Fis::SetBits(fis)) if fis.status() == 0x41 && fis.error() == 0x40)
    );
}

/// What libata of Linux gives a disk of which a queued command failed: IDENTIFY DEVICE, a command for packet devices, another
/// queued command and STANDBY are aborted until the log is read.
#[test]
fn after_an_error_only_its_log_is_read(rt: HostRuntime) {
    let alloc = rt.alloc();
    let mut bench = plugged(&rt, alloc);
    fails(&rt, alloc, &mut bench);
    for fields in [
        command(0xEC, 0, 0),
        command(0xA1, 0, 0),
        queued(0x60, 4, 1, 5),
        command(0xE0, 0, 0),
        command(0x2F, 0x30, 1),
        command(0x42, 0, 1),
    ] {
        assert_eq!(rt; ends(&rt, alloc, &mut bench, fields), ABORTED);
    }
    assert_eq!(rt; log(&rt, alloc, &mut bench), 0x0341_4008);
    // once it was read, it tells of no error
    assert_eq!(rt; log(&rt, alloc, &mut bench), 0x8000_0000);
    assert_eq!(rt; ends(&rt, alloc, &mut bench, command(0xEC, 0, 0)), WELL);
}

/// SRST, set and cleared.
fn resets(rt: &impl Abort, alloc: Global, bench: &mut Bench) {
    for control in [4, 0] {
        let fields = H2dFields {
            c: false,
            control,
            ..command(0, 0, 0)
        };
        assert!(rt; bench.gives(rt, alloc, fields).is_none());
    }
}

/// A reset ends an error that the host has not read, and so does being plugged in.
#[test]
fn resets_and_plugs_end_an_error(rt: HostRuntime) {
    let alloc = rt.alloc();
    let mut bench = plugged(&rt, alloc);
    for is_plug in [false, true] {
        fails(&rt, alloc, &mut bench);
        assert_eq!(rt; ends(&rt, alloc, &mut bench, command(0xEC, 0, 0)), ABORTED);
        if is_plug {
            bench.disk.plugged(alloc);
        } else {
            resets(&rt, alloc, &mut bench);
        }
        settles(&rt, alloc, &mut bench);
        assert_eq!(rt; ends(&rt, alloc, &mut bench, command(0xEC, 0, 0)), WELL);
        assert_eq!(rt; log(&rt, alloc, &mut bench), 0x8000_0000);
    }
}

/// A command that is not queued ends the queued ones, whatever it is; the log says that it was none of them.
#[test]
fn a_command_among_queued_ones(rt: HostRuntime) {
    let alloc = rt.alloc();
    let mut bench = plugged(&rt, alloc);
    for fields in [
        command(0xE0, 0, 0),
        command(0x25, 3, 1),
        command(0x42, 0, 1),
        command(0xEC, 0, 0),
        command(0x2F, 0x10, 1),
        // a tag that is taken
        queued(0x60, 5, 1, 1),
    ] {
        for tag in [0, 1] {
            assert!(rt; bench.gives(&rt, alloc, queued(0x60, 20, 8, tag)).is_none());
            assert!(rt; bench.sends(&rt, alloc));
        }
        assert_eq!(rt; ends(&rt, alloc, &mut bench, fields), ABORTED);
        assert_eq!(rt;
            ends(&rt, alloc, &mut bench, queued(0x60, 4, 1, 5)),
            ABORTED
        );
        assert_eq!(rt; log(&rt, alloc, &mut bench), 0x8000_0000);
    }
}

/// An error of a command that is not queued ends it alone: the log tells of none, and the next command is taken.
#[test]
fn errors_of_single_commands_leave_no_log(rt: HostRuntime) {
    let alloc = rt.alloc();
    let mut bench = plugged(&rt, alloc);
    let uncorrectable = Ending {
        status: 0x51,
        error: 0x40,
        lba: BAD,
        count: 0,
    };
    for code in [0x20, 0x24, 0xC8, 0x25, 0x40, 0x42] {
        assert_eq!(rt;
            ends(&rt, alloc, &mut bench, command(code, 7, 3)),
            uncorrectable
        );
        assert_eq!(rt; ends(&rt, alloc, &mut bench, command(code, 9, 3)), WELL);
        assert_eq!(rt; log(&rt, alloc, &mut bench), 0x8000_0000);
    }
}

/// Sectors behind the end, by the LBA and the Count of commands of both widths (ACS-3, 7.24 and 7.25).
#[test]
fn sectors_behind_the_end(rt: HostRuntime) {
    let alloc = rt.alloc();
    let mut bench = plugged(&rt, alloc);
    let at = |lba: u64| Ending {
        status: 0x51,
        error: 0x10,
        lba,
        count: 0,
    };
    for (fields, lba) in [
        (command(0x40, SECTORS - 1, 2), SECTORS),
        // Count 0 stands for 256 sectors
        (command(0x40, SECTORS - 255, 0), SECTORS),
        (command(0x42, SECTORS - 1, 0x101), SECTORS),
        // and for 65,536 of them
        (command(0x42, 0, 0), SECTORS),
        (command(0x42, 0x0504_0302_0100, 1), 0x0504_0302_0100),
        (command(0x35, 0x1_0000_0000, 1), 0x1_0000_0000),
    ] {
        assert_eq!(rt; ends(&rt, alloc, &mut bench, fields), at(lba));
    }
    assert_eq!(rt;
        ends(&rt, alloc, &mut bench, command(0x40, SECTORS - 256, 0)),
        WELL
    );
}

/// A page that was announced is not sent once the disk was reset.
#[test]
fn a_page_is_cut_off(rt: HostRuntime) {
    let alloc = rt.alloc();
    let mut bench = plugged(&rt, alloc);
    for fields in [
        command(0xEC, 0, 0),
        command(0x2F, 0x30, 1),
        command(0x20, 9, 2),
    ] {
        assert!(rt; bench.gives(&rt, alloc, fields).is_none());
        for _ in 0..4u32 {
            if let Some(request) = bench.asks(&rt) {
                bench.answers(&rt, alloc, request);
            }
        }
        // its PIO Setup FIS
        assert!(rt; bench.sends(&rt, alloc));
        bench.frames = Vec::new(alloc);
        resets(&rt, alloc, &mut bench);
        settles(&rt, alloc, &mut bench);
        assert!(rt; bench.frames.len() == 1);
        assert!(rt; bench.came(&rt, alloc).is_empty());
    }
}

/// A write that a flush follows: its sectors are stored, and stay where a read fails later.
#[test]
fn a_disk_is_powered_off(rt: HostRuntime) {
    let alloc = rt.alloc();
    let mut bench = plugged(&rt, alloc);
    bench.data = some_bytes(&rt, alloc, 512, 7);
    assert_eq!(rt; ends(&rt, alloc, &mut bench, command(0x35, 9, 1)), WELL);
    assert_eq!(rt; ends(&rt, alloc, &mut bench, command(0xEA, 0, 0)), WELL);
    assert_eq!(rt; ends(&rt, alloc, &mut bench, command(0xE0, 0, 0)), WELL);
    assert!(rt; bench.flushes == 2);
    fails(&rt, alloc, &mut bench);
    bench.disk.plugged(alloc);
    settles(&rt, alloc, &mut bench);
    assert_eq!(rt; ends(&rt, alloc, &mut bench, command(0x25, 9, 1)), WELL);
    assert!(rt; bench.came(&rt, alloc)[..] == bench.data[..]);
}
