//! What the FIS of each command asks for (ACS-3, 7), which may stand beside which, and what TRIM names.

use super::rows::{STAMP, asked_of, facts, settings};
use ata_command::{
    Asked, Course, Extent, LogPage, Move, Multiple, Opcode, PowerTask, Refusal, Setting, Settings,
    SmartTask, Standing, TransferMode, course_of, extents_of, resets,
};
use ata_reply::AtaError;
use block_command::{Command, Protocol};
use fis_view::{Fis, Frame};
use std::alloc::Global;
use std::process::Abort;
use std::test::Fail;

/// A row: the bytes of a FIS, and what it asks for.
#[derive(Clone, Copy)]
struct Row {
    fis: &'static str,
    asked: Asked,
}

/// A read of a sector by PIO, of the command that is not queued.
const READ: Command = Command {
    place: 32,
    lba: 0,
    count: 1,
    write: false,
    lasting: false,
    protocol: Protocol::Pio,
    block: 512,
    auto_activate: false,
};

const REFUSED: Asked = Asked::Refused(Refusal {
    error: AtaError::Aborted,
    lba: 0,
    wide: true,
    tag: None,
});

/// A queued command with tag 5 whose sectors end behind those of the disk.
const PAST_THE_END: Asked = Asked::Refused(Refusal {
    error: AtaError::NotFound,
    lba: 0x2_0000_0000,
    wide: true,
    tag: Some(5),
});

/// Commands that move sectors.
const MOVES: [Row; 9] = [
    // READ FPDMA QUEUED of 8 sectors, tag 5
    Row {
        fis: "2780600856341240000000002800000000000000",
        asked: Asked::Moves(Move {
            command: Command {
                place: 5,
                lba: 0x12_3456,
                count: 8,
                protocol: Protocol::Queued,
                block: 8192,
                ..READ
            },
            wide: true,
        }),
    },
    // WRITE FPDMA QUEUED of 65,536 sectors with FUA, tag 30
    Row {
        fis: "27806100000000c001000000f000000000000000",
        asked: Asked::Moves(Move {
            command: Command {
                place: 30,
                lba: 0x100_0000,
                count: 65_536,
                write: true,
                lasting: true,
                protocol: Protocol::Queued,
                block: 8192,
                auto_activate: true,
            },
            wide: true,
        }),
    },
    // READ DMA of 256 sectors, with LBA 27:24 in Device
    Row {
        fis: "2780c8000100004a000000000000000000000000",
        asked: Asked::Moves(Move {
            command: Command {
                lba: 0xA00_0001,
                count: 256,
                protocol: Protocol::Dma,
                block: 8192,
                ..READ
            },
            wide: false,
        }),
    },
    // WRITE DMA FUA EXT
    Row {
        fis: "27803d0000000040000000001000000000000000",
        asked: Asked::Moves(Move {
            command: Command {
                count: 16,
                write: true,
                lasting: true,
                protocol: Protocol::Dma,
                block: 8192,
                ..READ
            },
            wide: true,
        }),
    },
    // WRITE MULTIPLE FUA EXT, in blocks of 8 sectors
    Row {
        fis: "2780ce0005000040000000001000000000000000",
        asked: Asked::Moves(Move {
            command: Command {
                lba: 5,
                count: 16,
                write: true,
                lasting: true,
                block: 4096,
                ..READ
            },
            wide: true,
        }),
    },
    // WRITE MULTIPLE EXT: the cache is on, so it does not wait for a flush
    Row {
        fis: "2780390005000040000000001000000000000000",
        asked: Asked::Moves(Move {
            command: Command {
                lba: 5,
                count: 16,
                write: true,
                block: 4096,
                ..READ
            },
            wide: true,
        }),
    },
    // READ SECTOR(S)
    Row {
        fis: "2780200000000040000000000100000000000000",
        asked: Asked::Moves(Move {
            command: READ,
            wide: false,
        }),
    },
    // READ VERIFY SECTOR(S) EXT
    Row {
        fis: "2780420000000040000000000100000000000000",
        asked: Asked::Moves(Move {
            command: Command {
                protocol: Protocol::Verify,
                block: 8192,
                ..READ
            },
            wide: true,
        }),
    },
    // READ DMA EXT of the last sector and the one behind it
    Row {
        fis: "27802500ffffff40ff0100000200000000000000",
        asked: Asked::Refused(Refusal {
            error: AtaError::NotFound,
            lba: 0x2_0000_0000,
            wide: true,
            tag: None,
        }),
    },
];

/// All other commands.
const OTHERS: [Row; 24] = [
    // READ FPDMA QUEUED of a tag that the disk does not have
    Row {
        fis: "278060010000004000000000f800000000000000",
        asked: Asked::Refused(Refusal {
            error: AtaError::Aborted,
            lba: 0,
            wide: true,
            tag: Some(31),
        }),
    },
    // FLUSH CACHE EXT
    Row {
        fis: "2780ea0000000040000000000000000000000000",
        asked: Asked::Flushes,
    },
    // SET FEATURES: Ultra DMA mode 5, PIO mode 4, Ultra DMA mode 7
    Row {
        fis: "2780ef0300000040000000004500000000000000",
        asked: Asked::Sets(Setting::Mode(TransferMode::Ultra5)),
    },
    Row {
        fis: "2780ef0300000040000000000c00000000000000",
        asked: Asked::Sets(Setting::Mode(TransferMode::Ultra6)),
    },
    Row {
        fis: "2780ef0300000040000000004700000000000000",
        asked: REFUSED,
    },
    // SET FEATURES: write cache, look-ahead, DMA Setup auto-activate, and a feature of Serial ATA that is not there
    Row {
        fis: "2780ef8200000040000000000000000000000000",
        asked: Asked::Sets(Setting::WriteCache(false)),
    },
    Row {
        fis: "2780efaa00000040000000000000000000000000",
        asked: Asked::Sets(Setting::LookAhead(true)),
    },
    Row {
        fis: "2780ef1000000040000000000200000000000000",
        asked: Asked::Sets(Setting::AutoActivate(true)),
    },
    Row {
        fis: "2780ef1000000040000000000300000000000000",
        asked: REFUSED,
    },
    // SET MULTIPLE MODE
    Row {
        fis: "2780c60000000040000000001000000000000000",
        asked: Asked::SetsMultiple(Multiple::Sixteen),
    },
    Row {
        fis: "2780c60000000040000000000300000000000000",
        asked: REFUSED,
    },
    // DATA SET MANAGEMENT of 8 blocks, and of 9
    Row {
        fis: "2780060100000040000000000800000000000000",
        asked: Asked::Trims(8),
    },
    Row {
        fis: "2780060100000040000000000900000000000000",
        asked: REFUSED,
    },
    // IDENTIFY DEVICE
    Row {
        fis: "2780ec0000000040000000000000000000000000",
        asked: Asked::Identifies,
    },
    // READ LOG EXT of log 10h, READ LOG DMA EXT of page 201h of log 30h
    Row {
        fis: "27802f0010000040000000000100000000000000",
        asked: Asked::ReadsLog(LogPage {
            log: 0x10,
            page: 0,
            count: 1,
            dma: false,
        }),
    },
    Row {
        fis: "2780470030010040000200000100000000000000",
        asked: Asked::ReadsLog(LogPage {
            log: 0x30,
            page: 0x201,
            count: 1,
            dma: true,
        }),
    },
    // SMART RETURN STATUS, READ DATA, DISABLE OPERATIONS, and RETURN STATUS without C24Fh
    Row {
        fis: "2780b0da004fc240000000000000000000000000",
        asked: Asked::Smart(SmartTask::ReturnStatus),
    },
    Row {
        fis: "2780b0d0004fc240000000000000000000000000",
        asked: Asked::Smart(SmartTask::ReadData),
    },
    Row {
        fis: "2780b0d9004fc240000000000000000000000000",
        asked: REFUSED,
    },
    Row {
        fis: "2780b0da00000040000000000000000000000000",
        asked: REFUSED,
    },
    // STANDBY IMMEDIATE, IDLE IMMEDIATE, CHECK POWER MODE
    Row {
        fis: "2780e00000000040000000000000000000000000",
        asked: Asked::Power(PowerTask::Standby),
    },
    Row {
        fis: "2780e10000000040000000000000000000000000",
        asked: Asked::Power(PowerTask::Idle),
    },
    Row {
        fis: "2780e50000000040000000000000000000000000",
        asked: Asked::Power(PowerTask::Check),
    },
    // IDENTIFY PACKET DEVICE: it is for other devices
    Row {
        fis: "2780a10000000040000000000000000000000000",
        asked: REFUSED,
    },
];

/// Each row is as it says.
fn assert_rows(rt: &impl Abort, alloc: Global, rows: &[Row]) -> Result<(), Fail> {
    let facts = facts().ok_or("facts")?;
    for row in rows {
        let asked = asked_of(alloc, row.fis, &facts, settings())?;
        assert_eq!(rt; asked, Some(row.asked), "{}", row.fis);
    }
    Ok(())
}

#[test]
fn commands_ask(rt: HostRuntime) -> Result<(), Fail> {
    assert_rows(&rt, rt.alloc(), &MOVES)?;
    assert_rows(&rt, rt.alloc(), &OTHERS)
}

#[test]
fn multiples_are_set_first(rt: HostRuntime) -> Result<(), Fail> {
    let facts = facts().ok_or("facts")?;
    let fis = "2780c40000000040000000000100000000000000";
    let asked = asked_of(rt.alloc(), fis, &facts, Settings::power_on())?;
    assert_eq!(rt; asked, Some(REFUSED));
    let known = (facts.sectors(), facts.depth(), facts.trim_blocks());
    assert_eq!(rt; known, (0x2_0000_0000, 31, 8));
    assert_eq!(rt; Opcode::of(0xEC), Opcode::Identify);
    assert_eq!(rt; Multiple::Sixteen.sectors(), 16);
    Ok(())
}

#[test]
fn queued_commands_stand_alone(rt: HostRuntime) {
    let queued = MOVES[0].asked;
    assert_eq!(rt; course_of(&queued, Standing::Queued(0)), Course::Take);
    assert_eq!(rt; course_of(&queued, Standing::Queued(1)), Course::Take);
    assert_eq!(rt;
        course_of(&queued, Standing::Queued(1 << 5)),
        Course::AbortAll
    );
    assert_eq!(rt;
        course_of(&Asked::Flushes, Standing::Queued(1)),
        Course::AbortAll
    );
    // an error of its own: past the end, and a tag that the disk does not have; not so where the tag is out
    assert_eq!(rt; course_of(&PAST_THE_END, Standing::Queued(1)), Course::Take);
    assert_eq!(rt;
        course_of(&OTHERS[0].asked, Standing::Queued(1)),
        Course::Take
    );
    assert_eq!(rt;
        course_of(&PAST_THE_END, Standing::Queued(1 << 5)),
        Course::AbortAll
    );
    assert_eq!(rt; course_of(&REFUSED, Standing::Queued(1)), Course::AbortAll);
    assert_eq!(rt; course_of(&queued, Standing::Error), Course::Refuse);
    assert_eq!(rt; course_of(&OTHERS[14].asked, Standing::Error), Course::Take);
    assert_eq!(rt;
        course_of(&Asked::Identifies, Standing::Reset),
        Course::Drop
    );
    assert_eq!(rt;
        course_of(&Asked::Identifies, Standing::Single),
        Course::Drop
    );
}

/// Whether the Register FIS of these bytes sets SRST.
fn sets_srst(alloc: Global, hex: &str) -> Result<bool, Fail> {
    let frame = Frame::from_bytes(alloc, hex::decode(alloc, hex)?.as_slice(), STAMP)?;
    Ok(match frame.fis()? {
        Fis::RegH2D(fis) => resets(&fis),
        _ => false,
    })
}

#[test]
fn srst_is_bit_2(rt: HostRuntime) -> Result<(), Fail> {
    let alloc = rt.alloc();
    assert!(rt; sets_srst(alloc, "2700000000000000000000000000000400000000")?);
    assert!(rt; !sets_srst(alloc, "2700000000000000000000000000000a00000000")?);
    Ok(())
}

#[test]
fn trim_names_its_ranges(rt: HostRuntime) -> Result<(), Fail> {
    let alloc = rt.alloc();
    let blocks = hex::decode(alloc, "010000000000020007000000000000000500000000000100")?;
    let extents = extents_of(alloc, &blocks, 6)?.ok_or("ranges")?;
    let named = [Extent { lba: 1, count: 2 }, Extent { lba: 5, count: 1 }];
    assert!(rt; extents.as_slice() == named.as_slice());
    assert!(rt; extents_of(alloc, &blocks, 5)?.is_none());
    Ok(())
}
