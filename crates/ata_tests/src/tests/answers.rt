//! The FIS of each answer (Serial ATA 3.x, 10.5).

use super::rows::STAMP;
use ata_reply::{Announcement, AtaError, Failure, Reply, SetUp, data_frame};
use std::test::Fail;

/// A row: an answer, and the bytes of its FIS.
#[derive(Clone, Copy)]
struct Row {
    reply: Reply,
    fis: &'static str,
}

const ROWS: [Row; 14] = [
    Row {
        reply: Reply::Signature,
        fis: "3400500101000000000000000100000000000000",
    },
    Row {
        reply: Reply::Accepted,
        fis: "3400500000000000000000000000000000000000",
    },
    Row {
        reply: Reply::Done,
        fis: "3440500000000000000000000000000000000000",
    },
    Row {
        reply: Reply::Active,
        fis: "344050000000000000000000ff00000000000000",
    },
    Row {
        reply: Reply::Healthy,
        fis: "34405000004fc200000000000000000000000000",
    },
    Row {
        reply: Reply::Failed(Failure {
            error: AtaError::NotFound,
            lba: 0x2_0000_0000,
            wide: true,
        }),
        fis: "3440511000000000000200000000000000000000",
    },
    Row {
        reply: Reply::Failed(Failure {
            error: AtaError::Uncorrectable,
            lba: 0xA00_0001,
            wide: false,
        }),
        fis: "344051400100000a000000000000000000000000",
    },
    Row {
        reply: Reply::Ends(0x21),
        fis: "a140500021000000",
    },
    Row {
        reply: Reply::Aborts(AtaError::Interface),
        fis: "a140418400000000",
    },
    Row {
        reply: Reply::SetUp(SetUp {
            tag: 5,
            to_host: true,
            auto_activate: true,
            bytes: 4096,
        }),
        fis: "41200000050000000000000000000000000000000010000000000000",
    },
    Row {
        reply: Reply::SetUp(SetUp {
            tag: 30,
            to_host: false,
            auto_activate: true,
            bytes: 0x200_0000,
        }),
        fis: "418000001e0000000000000000000000000000000000000200000000",
    },
    Row {
        reply: Reply::Activate,
        fis: "39000000",
    },
    Row {
        reply: Reply::Announce(Announcement {
            to_host: true,
            first: true,
            last: true,
            bytes: 512,
        }),
        fis: "5f60580000000000000000000000005000020000",
    },
    Row {
        reply: Reply::Announce(Announcement {
            to_host: false,
            first: true,
            last: false,
            bytes: 4096,
        }),
        fis: "5f0058000000000000000000000000d000100000",
    },
];

#[test]
fn answers_are_shown(rt: HostRuntime) -> Result<(), Fail> {
    let alloc = rt.alloc();
    for row in &ROWS {
        let frame = row.reply.frame(alloc, STAMP)?;
        let wanted = hex::decode(alloc, row.fis)?;
        assert_eq!(rt; frame.bytes(), wanted.as_slice(), "{}", row.fis);
        assert!(rt; frame.stamp() == STAMP);
    }
    Ok(())
}

#[test]
fn data_are_carried(rt: HostRuntime) -> Result<(), Fail> {
    let alloc = rt.alloc();
    let frame = data_frame(alloc, &[1, 2, 3, 4, 5, 6, 7, 8], STAMP)?;
    let wanted = hex::decode(alloc, "460000000102030405060708")?;
    assert_eq!(rt; frame.bytes(), wanted.as_slice());
    assert_eq!(rt; AtaError::Aborted.code(), 4);
    Ok(())
}
