//! What no clause says: values from outside, and that calls succeed.

mod alone;
mod auto;
mod causes;
mod clearing;
mod fises;
mod rig;
mod sending;
mod signed;
mod steps;
mod taking;
mod unqueued;
mod vectors;

use hba_fbs::{Register, WriteError};
use host_memory::Prd;
use rig::Rig;
use std::alloc::Global;
use steps::Sent::{Block, Eight, Four, Twenty};
use steps::Step::{
    Begins, Flushes, IsResetting, Issues, Lacks, ListsRead, Opens, Refuses, Says, SaysOfARead,
    Shows, Spoils, Stands, Starts, Takes, Writes,
};
use steps::{Sent, Step, assert_all, play};

impl Rig {
    /// Whether bit k of a register of a port that opened is stored or stays. Ones in PxSACT and PxCI are refused.
    fn keeps_bit(&mut self, offset: u32, k: u8, opening: u32, stored: u32) -> bool {
        let value = 1_u32 << (k % 32);
        let refused = offset == 0x34 || offset == 0x38;
        let answer = if refused {
            Err(WriteError::Stopped)
        } else {
            Ok(())
        };
        self.open();
        self.write(offset, value) == answer
            && self.shows(offset, opening & !stored | value & stored)
    }

    /// Whether a register stands at its offset, opens so, and stores these bits. ST and FRE are left out.
    fn stands(&mut self, register: Register, offset: u32, opening: u32, stored: u32) -> bool {
        self.open();
        for k in 0..32_u8 {
            let is_left_out = offset == 0x18 && (k == 0 || k == 4);
            if !is_left_out && !self.keeps_bit(offset, k, opening, stored) {
                return false;
            }
        }
        self.open();
        Register::at(offset) == Some(register)
            && register.offset() == offset
            && self.shows(offset, opening)
    }
}

/// The commands of device 1 and device 2 go to these places.
const PLACE: [Prd; 1] = [Prd {
    address: 0x10_1000,
    bytes: 1024,
}];

const SECTOR: [Prd; 1] = [Prd {
    address: 0x10_2000,
    bytes: 512,
}];

/// All devices notify. A DMA Setup of device 1, whose Data is too long, and a PIO Setup of device 2 set the bits of the
/// blocks of data. The other bits are set by a FIS of an unknown type, a Register FIS, a task file error, a length that
/// is wrong, and last a FIS of the control port that stops the port.
static ALL_BITS: [Step; 29] = [
    Starts,
    Takes(Eight([0xA1, 0xC0, 0x50, 0, 0, 0, 0, 0])),
    Takes(Eight([0xA1, 0xC1, 0x50, 0, 0, 0, 0, 0])),
    Takes(Eight([0xA1, 0xC2, 0x50, 0, 0, 0, 0, 0])),
    Takes(Eight([0xA1, 0xC3, 0x50, 0, 0, 0, 0, 0])),
    Takes(Eight([0xA1, 0xC4, 0x50, 0, 0, 0, 0, 0])),
    Takes(Eight([0xA1, 0xC5, 0x50, 0, 0, 0, 0, 0])),
    Takes(Eight([0xA1, 0xC6, 0x50, 0, 0, 0, 0, 0])),
    Takes(Eight([0xA1, 0xC7, 0x50, 0, 0, 0, 0, 0])),
    Takes(Eight([0xA1, 0xC8, 0x50, 0, 0, 0, 0, 0])),
    Takes(Eight([0xA1, 0xC9, 0x50, 0, 0, 0, 0, 0])),
    Takes(Eight([0xA1, 0xCA, 0x50, 0, 0, 0, 0, 0])),
    Takes(Eight([0xA1, 0xCB, 0x50, 0, 0, 0, 0, 0])),
    Takes(Eight([0xA1, 0xCC, 0x50, 0, 0, 0, 0, 0])),
    Takes(Eight([0xA1, 0xCD, 0x50, 0, 0, 0, 0, 0])),
    Takes(Eight([0xA1, 0xCE, 0x50, 0, 0, 0, 0, 0])),
    Takes(Eight([0xA1, 0xCF, 0x50, 0, 0, 0, 0, 0])),
    Issues(1, 1, 0x60, &PLACE),
    Takes(Sent::Answer(1)),
    Takes(Sent::Setup(0x41, true, 1, 0, 256)),
    Takes(Sent::Sector(1, 1)),
    Issues(2, 2, 0xEC, &SECTOR),
    Takes(Block(0x62, 0x50, 512)),
    Takes(Sent::Sector(2, 2)),
    Takes(Four([0xC7, 0, 0, 0])),
    Takes(Sent::Answer(0x40)),
    Takes(Eight([0xA1, 0x43, 0x41, 0x40, 0, 0, 0, 0])),
    Takes(Four([0x46, 4, 0, 0])),
    Takes(Four([0x39, 0x0F, 0, 0])),
];

/// Whether a value that is written to a register changes another so, when each bit is set that may be set.
fn clears(rig: &mut Rig, offset: u32, value: u32, shown: (u32, u32)) -> bool {
    rig.play(&ALL_BITS) == 29 && rig.writes(offset, value) && rig.shows(shown.0, shown.1)
}

/// Whether a one in bit k clears what it clears. UFS follows PxSERR.
fn clears_bit(rig: &mut Rig, k: u8) -> bool {
    let value = 1_u32 << (k % 32);
    let unknown = if k == 25 { 0 } else { 0x0200_0000 };
    let ufs = if k == 25 { 0 } else { 0x10 };
    clears(
        rig,
        0x10,
        value,
        (0x10, 0x6900_001F & !(value & 0x6900_000F)),
    ) && clears(rig, 0x30, value, (0x30, unknown))
        && clears(rig, 0x30, value, (0x10, 0x6900_000F | ufs))
        && clears(rig, 0x3C, value, (0x3C, 0xFFFF & !value))
}

/// How many bits from bit 0 on clear what they clear. Zeros clear none.
fn clearing_bits(rig: &mut Rig) -> usize {
    for k in 0..32_u8 {
        if !clears_bit(rig, k) {
            return k as usize;
        }
    }
    if clears(rig, 0x10, 0, (0x10, 0x6900_001F)) {
        32
    } else {
        0
    }
}

/// The same of a port that opens.
fn clearing_bits_of_a_port(alloc: Global) -> usize {
    match Rig::new(alloc) {
        Ok(mut rig) => clearing_bits(&mut rig),
        Err(_) => 0,
    }
}

/// Which bits ones clear.
#[test]
fn ones_clear_bits(rt: HostRuntime) {
    assert_all(&rt, clearing_bits_of_a_port(rt.alloc()), 32);
}

/// Registers, writes, areas, slots and refusals of a port that opens.
static PORT: [Step; 185] = [
    // The offsets of the registers, their opening values, and the bits that a write stores in a port that opened.
    Begins,
    Stands(Register::Clb, 0x00, 0, 0xFFFF_FC00),
    Stands(Register::Clbu, 0x04, 0, 0xFFFF_FFFF),
    Stands(Register::Fb, 0x08, 0, 0xFFFF_F000),
    Stands(Register::Fbu, 0x0C, 0, 0xFFFF_FFFF),
    Stands(Register::Is, 0x10, 0, 0),
    Stands(Register::Ie, 0x14, 0, 0xFFFF_FFFF),
    Stands(Register::Cmd, 0x18, 0x0040_0000, 0x0002_0000),
    Stands(Register::Tfd, 0x20, 0x50, 0),
    Stands(Register::Sig, 0x24, 0xFFFF_FFFF, 0),
    Stands(Register::Serr, 0x30, 0, 0),
    Stands(Register::Sact, 0x34, 0, 0),
    Stands(Register::Ci, 0x38, 0, 0),
    Stands(Register::Sntf, 0x3C, 0, 0),
    Stands(Register::Fbs, 0x40, 0xF000, 0x0000_0F01),
    // Offsets without a register, for a read and for a write.
    Begins,
    Opens,
    Lacks(0x01),
    Refuses(0x01, 0, WriteError::NoRegister),
    Shows(0x24, 0xFFFF_FFFF),
    Opens,
    Lacks(0x1C),
    Refuses(0x1C, 0, WriteError::NoRegister),
    Shows(0x24, 0xFFFF_FFFF),
    Opens,
    Lacks(0x28),
    Refuses(0x28, 0, WriteError::NoRegister),
    Shows(0x24, 0xFFFF_FFFF),
    Opens,
    Lacks(0x2C),
    Refuses(0x2C, 0, WriteError::NoRegister),
    Shows(0x24, 0xFFFF_FFFF),
    Opens,
    Lacks(0x44),
    Refuses(0x44, 0, WriteError::NoRegister),
    Shows(0x24, 0xFFFF_FFFF),
    Opens,
    Lacks(0x70),
    Refuses(0x70, 0, WriteError::NoRegister),
    Shows(0x24, 0xFFFF_FFFF),
    Opens,
    Lacks(0xFFFF_FFFF),
    Refuses(0xFFFF_FFFF, 0, WriteError::NoRegister),
    Shows(0x24, 0xFFFF_FFFF),
    // ST rises in both modes. While it is 1, some registers stay. It falls and rises, and leaves PxFBS as written. At the end it
    // falls when a device is in the middle of a PIO data-in command, with Status D8h.
    Begins,
    Writes(0x18, 0x11),
    Shows(0x18, 0x0040_C011),
    Writes(0x18, 0),
    Shows(0x18, 0x0040_0000),
    Writes(0x08, 0x1000),
    Shows(0x08, 0x1000),
    Writes(0x40, 1),
    Shows(0x40, 0xF001),
    Writes(0x18, 0x11),
    Shows(0x18, 0x0040_C011),
    Writes(0x40, 0x0201),
    Shows(0x40, 0xF201),
    Refuses(0x40, 0x0300, WriteError::Running),
    Shows(0x40, 0xF201),
    Refuses(0x18, 0x01, WriteError::Running),
    Shows(0x18, 0x0040_C011),
    Refuses(0x00, 0x400, WriteError::Running),
    Shows(0x00, 0),
    Refuses(0x04, 1, WriteError::Running),
    Shows(0x04, 0),
    Refuses(0x08, 0x2000, WriteError::Running),
    Shows(0x08, 0x1000),
    Refuses(0x0C, 1, WriteError::Running),
    Shows(0x0C, 0),
    Writes(0x34, 8),
    Shows(0x34, 8),
    Writes(0x18, 0x2_0010),
    Shows(0x18, 0x0042_4010),
    Writes(0x34, 0),
    Shows(0x34, 0),
    Writes(0x38, 0),
    Shows(0x38, 0),
    Refuses(0x34, 1, WriteError::Stopped),
    Shows(0x34, 0),
    Refuses(0x38, 1, WriteError::Stopped),
    Shows(0x38, 0),
    Writes(0x14, 5),
    Shows(0x40, 0xF201),
    Writes(0x18, 0x11),
    Shows(0x40, 0xF201),
    Writes(0x18, 0),
    Shows(0x18, 0x0040_0000),
    Starts,
    Issues(2, 2, 0xEC, &SECTOR),
    Takes(Twenty([
        0x5F, 0x62, 0xD8, 0, 0, 0, 0, 0, 0, 0, 0, 0, 0, 0, 0, 0x50, 0, 2, 0, 0,
    ])),
    Writes(0x40, 0x0201),
    Shows(0x20, 0xD8),
    Writes(0x18, 0x10),
    Shows(0x20, 0x50),
    // The last places of the received area and of the command list, and the places after them.
    Begins,
    Writes(0x08, 0xF_F000),
    Shows(0x08, 0xF_F000),
    Writes(0x18, 0x10),
    Shows(0x18, 0x0040_4010),
    Writes(0x18, 0),
    Shows(0x18, 0x0040_0000),
    Writes(0x08, 0x10_0000),
    Shows(0x08, 0x10_0000),
    Refuses(0x18, 0x10, WriteError::BadTable),
    Shows(0x18, 0x0040_0000),
    Writes(0x08, 0x1000),
    Shows(0x08, 0x1000),
    Writes(0x0C, 1),
    Shows(0x0C, 1),
    Refuses(0x18, 0x10, WriteError::BadTable),
    Shows(0x18, 0x0040_0000),
    Writes(0x0C, 0),
    Shows(0x0C, 0),
    Writes(0x00, 0x10_0000),
    Shows(0x00, 0x10_0000),
    Refuses(0x18, 0x11, WriteError::BadTable),
    Shows(0x18, 0x0040_0000),
    Writes(0x00, 0xF_FC00),
    Shows(0x00, 0xF_FC00),
    Refuses(0x18, 0x01, WriteError::BadTable),
    Shows(0x18, 0x0040_0000),
    Writes(0x04, 1),
    Shows(0x04, 1),
    Refuses(0x18, 0x11, WriteError::BadTable),
    Shows(0x18, 0x0040_0000),
    Writes(0x04, 0),
    Shows(0x04, 0),
    Writes(0x18, 0x11),
    Shows(0x18, 0x0040_C011),
    // Slots 0 and 2 are good slots of device 2; the table of slot 2 lies at the last place that has room
    // for it. Slot 1 is a slot of device 3, and the table of slot 3 has no room. Each refusal is looked
    // for in all of the slots before the next.
    Begins,
    ListsRead(2, 0, 0x2000),
    ListsRead(3, 1, 0x3000),
    ListsRead(2, 2, 0xF_FF00),
    ListsRead(2, 3, 0x4000),
    Spoils(104, 0x80),
    Spoils(105, 0xFF),
    Spoils(106, 0x0F),
    Writes(0x08, 0x1000),
    Shows(0x08, 0x1000),
    Writes(0x40, 0x0201),
    Shows(0x40, 0xF201),
    Writes(0x18, 0x11),
    Shows(0x18, 0x0040_C011),
    Writes(0x34, 0xF),
    Shows(0x34, 0xF),
    Refuses(0x38, 0x3, WriteError::WrongDevice),
    Shows(0x38, 0),
    Refuses(0x38, 0xA, WriteError::WrongDevice),
    Shows(0x38, 0),
    Refuses(0x38, 0x9, WriteError::BadTable),
    Shows(0x38, 0),
    Writes(0x38, 0x5),
    Shows(0x38, 0x5),
    Writes(0x34, 0),
    Shows(0x34, 0xF),
    Refuses(0x34, 0x11, WriteError::SlotBusy),
    Shows(0x34, 0xF),
    Refuses(0x38, 0xB, WriteError::SlotBusy),
    Shows(0x38, 0x5),
    Flushes(3, 0),
    Flushes(2, 0x5),
    Writes(0x38, 0),
    Shows(0x38, 0),
    Writes(0x34, 0),
    Shows(0x34, 0xA),
    Refuses(0x38, 0x1, WriteError::BadTable),
    Shows(0x38, 0),
    Writes(0x34, 0x1),
    Shows(0x34, 0xB),
    Writes(0x38, 0x1),
    Shows(0x38, 0x1),
    Writes(0x18, 0x10),
    Shows(0x38, 0),
    Writes(0x34, 0),
    Shows(0x34, 0),
    IsResetting(2, false),
    // The refusals with their numbers and their texts, and that of a read.
    Begins,
    Says(1, WriteError::NoRegister, "no such register"),
    Says(2, WriteError::Stopped, "the port is stopped"),
    Says(3, WriteError::Running, "the port is running"),
    Says(4, WriteError::SlotBusy, "slot is in use"),
    Says(5, WriteError::WrongDevice, "a header names another device"),
    Says(6, WriteError::BadTable, "bad table"),
    Says(
        8,
        WriteError::OtherDevice,
        "a header names another device than the active one",
    ),
    SaysOfARead("no such register"),
];

#[test]
fn registers_are_written(rt: HostRuntime) {
    play(&rt, rt.alloc(), &PORT);
}
