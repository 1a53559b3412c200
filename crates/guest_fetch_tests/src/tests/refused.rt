//! Which commands are refused, and the text of it.

use crate::tests::rig::{Rig, entry_bytes};
use guest_fetch::{Refusal, Supplied};
use std::alloc::{AllocError, Global};
use std::test::Fail;

/// A command in slot 2, and why it is not taken.
#[derive(Clone, Copy)]
struct Row {
    /// How many bytes of memory there are.
    memory: usize,
    header: [u32; 4],
    /// The first four bytes of the FIS, READ DMA of 256 sectors.
    fis: [u8; 4],
    entry: [u32; 4],
    text: &'static str,
}

const GOOD: Row = Row {
    memory: 0x2000,
    header: [0x0001_0005, 0, 0x1000, 0],
    fis: [0x27, 0x80, 0xC8, 0],
    entry: [0x1_0000, 0, 0, 0x1_FFFF],
    text: "taken",
};

static ROWS: [Row; 14] = [
    GOOD,
    Row {
        memory: 0x45F,
        text: "no memory for the header",
        ..GOOD
    },
    Row {
        memory: 0x1013,
        text: "no memory for the command FIS",
        ..GOOD
    },
    Row {
        memory: 0x108F,
        text: "no memory for the table",
        ..GOOD
    },
    Row {
        header: [0x0001_0025, 0, 0x1000, 0],
        text: "A is 1, wanted 0",
        ..GOOD
    },
    Row {
        header: [0x0001_0001, 0, 0x1000, 0],
        text: "CFL is 1, wanted 2 to 16",
        ..GOOD
    },
    Row {
        header: [0x0001_0011, 0, 0x1000, 0],
        text: "CFL is 17, wanted 2 to 16",
        ..GOOD
    },
    Row {
        header: [0x0001_0004, 0, 0x1000, 0],
        text: "FIS of type 39 in 4 dwords, wanted 39 in 5",
        ..GOOD
    },
    Row {
        header: [0x0001_3005, 0, 0x1000, 0],
        text: "PM Port is 0, wanted 3",
        ..GOOD
    },
    Row {
        fis: [0x34, 0x80, 0xC8, 0],
        text: "FIS of type 52 in 5 dwords, wanted 39 in 5",
        ..GOOD
    },
    Row {
        entry: [0x1_0001, 0, 0, 0x1FF],
        text: "entry 0: address 65537 is odd",
        ..GOOD
    },
    Row {
        entry: [0x1_0000, 0, 0, 0x1FE],
        text: "entry 0: byte count 511 is odd",
        ..GOOD
    },
    Row {
        entry: [0xFFFF_FFFE, 0xFFFF_FFFF, 0, 3],
        text: "entry 0: 4 bytes at 18446744073709551614 pass the last address",
        ..GOOD
    },
    Row {
        header: [0x0001_0005, 0, 0xFFFF_FF80, 0xFFFF_FFFF],
        text: "a table of 1 entries at 18446744073709551488 passes the last address",
        ..GOOD
    },
];

fn answer(alloc: Global, row: Row) -> Result<Supplied, AllocError> {
    let mut rig = Rig::new(alloc, row.memory)?;
    let [a, b, c, d] = row.fis;
    let _ = rig.put_header(2, row.header);
    let _ = rig.put(0x1000, &[a, b, c, d, 0, 0, 0, 0x40]);
    let _ = rig.put_entry(0x1000, 0, entry_bytes(row.entry));
    Ok(rig.fetch(2))
}

/// The text of a refusal.
fn text_of(alloc: Global, refusal: Refusal) -> Result<String, Fail> {
    Ok(format!(in alloc; "{refusal}")?)
}

#[test]
fn refusals_have_their_text(rt: HostRuntime) -> Result<(), Fail> {
    for row in ROWS.iter() {
        match answer(rt.alloc(), *row)? {
            Supplied::Refused(refusal) => {
                assert_eq!(rt; text_of(rt.alloc(), refusal)?.as_str(), row.text);
            }
            Supplied::Whole(_) => assert_eq!(rt; "taken", row.text),
            _ => panic!(rt; "it does not end"),
        }
    }
    Ok(())
}
