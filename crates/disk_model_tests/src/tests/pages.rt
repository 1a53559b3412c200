//! Pages beside those of Linux 6.1.

use super::steps::Step::{Commands, Sends, SendsIdentity};
use super::steps::{Step, assert_disk, is_log};
use disk_model::{DiskError, DiskPlan, Fault, Page, Profile};
use std::alloc::{AllocError, Global};
use std::test::Fail;

/// NCQ Command Error logs that `ata_eh_read_log_10h` accepts: the bytes up to Count, in
/// hexadecimal, and the last one, the others being 0; tag, error and LBA as it reads them. Status is 41h,
/// Device 40h and Count 0, as this disk has them.
static LOGS: [(&str, u8, u8, u8, u64); 4] = [
    (
        "06004110a7524940ad9882000000",
        0x60,
        6,
        0x10,
        0x8298ad4952a7,
    ),
    (
        "19004140f8a0b4400ee581000000",
        0x66,
        25,
        0x40,
        0x81e50eb4a0f8,
    ),
    (
        "0c004110af1394403753db000000",
        0xa8,
        12,
        0x10,
        0xdb53379413af,
    ),
    (
        "0b0041101821084043d475000000",
        0x97,
        11,
        0x10,
        0x75d443082118,
    ),
];

/// Whether the log of a fault is this page.
fn has_log(alloc: Global, fault: Option<Fault>, head: &[u8], last: u8) -> Result<bool, AllocError> {
    let page = Page::ErrorLog(fault).bytes(alloc, 16, &DiskPlan::plain())?;
    Ok(is_log(&page, head, last))
}

#[test]
fn logs_of_errors(rt: HostRuntime) -> Result<(), Fail> {
    for (head, last, tag, error, lba) in &LOGS {
        let head = hex::decode(rt.alloc(), head)?;
        let fault = Some(Fault::Failed(*tag, *error, *lba));
        assert!(rt; has_log(rt.alloc(), fault, &head, *last)?);
    }
    Ok(())
}

/// The log that `ata_eh_read_log_10h` takes as one that names no queued command.
#[test]
fn log_of_no_error(rt: HostRuntime) -> Result<(), AllocError> {
    assert!(rt; has_log(rt.alloc(), None, &[0x80], 0x80)?);
    assert!(rt; has_log(rt.alloc(), Some(Fault::Mixed), &[0x80], 0x80)?);
    Ok(())
}

/// Words of IDENTIFY DEVICE data that are also this disk's in at least one place, and what
/// `ata_id_has_ncq`, `ata_id_queue_depth` and `ata_id_has_fpdma_aa` read in them: words 75, 76, 78
/// and 79, and their answers.
static WORDS: [(u16, u16, u16, u16, u16, u16, u16); 4] = [
    (0x001c, 0x010e, 0x0002, 0x0002, 1, 29, 0),
    (0x001e, 0x010e, 0x0002, 0x0002, 1, 31, 0),
    (0x0018, 0x0100, 0x0006, 0x0006, 1, 25, 1),
    (0x001a, 0x010e, 0x0002, 0x0002, 1, 27, 0),
];

/// What those functions answer: queuing, queue depth, auto-activate.
fn answers(w75: u16, w76: u16, w78: u16, w79: u16) -> (u16, u16, u16) {
    let both = w78 & w79;
    (w76 / 0x100 % 2, w75 % 0x20 + 1, both / 4 % 2)
}

/// A word of the data, its low byte first.
fn word(page: &[u8], n: u8) -> u16 {
    let at = 2 * n as usize;
    match (page.get(at), page.get(at + 1)) {
        (Some(low), Some(high)) => *low as u16 + 0x100 * *high as u16,
        _ => 0xFFFF,
    }
}

#[test]
fn identify_words_of_other_disks(rt: HostRuntime) {
    for (w75, w76, w78, w79, queuing, depth, auto_activate) in &WORDS {
        assert!(rt; answers(*w75, *w76, *w78, *w79) == (*queuing, *depth, *auto_activate));
    }
}

/// What word `n` is of a disk of 43,981 sectors with auto-activate or without.
fn wanted(n: u8, auto: bool) -> u16 {
    match n {
        75 => 0x001F,
        76 => 0x0100,
        78 | 79 if auto => 6,
        78 | 79 => 2,
        100 => 0xABCD,
        _ => 0,
    }
}

/// Whether a page is that of such a disk, and Linux reads in it queuing, 32 commands, and auto-activate or not.
pub(super) fn is_identity(page: &[u8], auto: bool) -> bool {
    for n in 0..=255 {
        if word(page, n) != wanted(n, auto) {
            return false;
        }
    }
    let read = answers(
        word(page, 75),
        word(page, 76),
        word(page, 78),
        word(page, 79),
    );
    page.len() == 512 && read == (1, 32, u16::from(auto))
}

static PLAIN: [Step; 3] = [
    Commands(0xEC),
    Sends("5f60580000000000000000000000005000020000"),
    SendsIdentity(false),
];

static AUTO: [Step; 3] = [
    Commands(0xEC),
    Sends("5f60580000000000000000000000005000020000"),
    SendsIdentity(true),
];

#[test]
fn identify(rt: HostRuntime) -> Result<(), DiskError> {
    let auto = DiskPlan {
        auto: true,
        ..DiskPlan::plain()
    };
    assert_disk(&rt, rt.alloc(), 0xABCD, DiskPlan::plain(), &PLAIN)?;
    assert_disk(&rt, rt.alloc(), 0xABCD, auto, &AUTO)
}

/// Words of the stock profile: their numbers, and what a disk with 43,981 sectors and the serial
/// number 12AB34CDh has in them.
static STOCK: [(u8, u16); 29] = [
    (0, 0x0040),
    (10, 0x4745),
    (11, 0x4653),
    (12, 0x554E),
    (13, 0x4B2D),
    (14, 0x3030),
    (15, 0x3030),
    (16, 0x3132),
    (17, 0x4142),
    (18, 0x3334),
    (19, 0x4344),
    (23, 0x312E),
    (24, 0x3020),
    (27, 0x4745),
    (31, 0x4449),
    (49, 0x0F00),
    (53, 6),
    (60, 0xABCD),
    (61, 0),
    (75, 0x001F),
    (76, 0x010E),
    (80, 0x01F0),
    (82, 1),
    (83, 0x4000),
    (85, 1),
    (88, 0x407F),
    (100, 0xABCD),
    (217, 1),
    (222, 0x107F),
];

/// Whether a page has those words, and the checksum.
fn is_stock(page: &[u8]) -> bool {
    for (n, wanted) in &STOCK {
        if word(page, *n) != *wanted {
            return false;
        }
    }
    let mut sum: u8 = 0;
    for byte in page {
        sum = sum.wrapping_add(*byte);
    }
    page.len() == 512 && page.get(510) == Some(&0xA5) && sum == 0
}

#[test]
fn stock_words(rt: HostRuntime) -> Result<(), AllocError> {
    let plan = DiskPlan {
        profile: Profile::Stock(0x12AB_34CD),
        ..DiskPlan::plain()
    };
    let page = Page::Identity.bytes(rt.alloc(), 0xABCD, &plan)?;
    assert!(rt; is_stock(&page));
    Ok(())
}
