//! Frames and registers that an emulator and a driver made, as data. QEMU 10 (hw/ide/ahci.c) made the
//! FISes of a device and what they do to PxTFD and PxIS. Linux 6.1 (drivers/ata) made what is written
//! to PxFBS, PxSACT and PxCI, and the signatures.

use super::steps::Sent::{Eight, Twenty};
use super::steps::Step::{Becomes, Begins, Drives, Faults, Resets, Shows, Starts, Takes, Tells};
use super::steps::Told::{Heard, Ignored};
use super::steps::{Sent, Step, play};
use port_errors::DeviceCause;
use rx_area::Posted;

/// PxIS.TFES, Task File Error Status.
const TFES: u32 = 0x4000_0000;

/// PxIS.DHRS, which I of a Register FIS asks for.
const DHRS: u32 = 0x1;

/// PxIS.SDBS, which I of a Set Device Bits FIS asks for.
const SDBS: u32 = 0x8;

/// A Register FIS of device 0 with Status 00h.
const TOLD_00: Sent = Twenty([
    0x34, 0, 0x00, 0, 0, 0, 0, 0, 0, 0, 0, 0, 0, 0, 0, 0, 0, 0, 0, 0,
]);

/// The same with Status 08h.
const TOLD_08: Sent = Twenty([
    0x34, 0, 0x08, 0, 0, 0, 0, 0, 0, 0, 0, 0, 0, 0, 0, 0, 0, 0, 0, 0,
]);

/// The same with Status 80h.
const TOLD_80: Sent = Twenty([
    0x34, 0, 0x80, 0, 0, 0, 0, 0, 0, 0, 0, 0, 0, 0, 0, 0, 0, 0, 0, 0,
]);

/// The same with Status 88h.
const TOLD_88: Sent = Twenty([
    0x34, 0, 0x88, 0, 0, 0, 0, 0, 0, 0, 0, 0, 0, 0, 0, 0, 0, 0, 0, 0,
]);

/// Each row as it was made elsewhere.
static TOLD: [Step; 206] = [
    // Register Device to Host FISes: PxTFD and the bits of PxIS after each. The emulator sets TFES in place of the bit that I
    // asks for. The port sets both, as the standard has it: there the profile differs.
    Begins,
    Starts,
    Becomes(
        Twenty([
            0x34, 0x40, 0x51, 4, 0x5A, 0xEB, 0x88, 0x2E, 0xC9, 0xF6, 0x53, 0, 0x3B, 0xC9, 0, 0, 0,
            0, 0, 0,
        ]),
        0x0451,
        TFES | DHRS,
    ),
    Starts,
    Becomes(
        Twenty([
            0x34, 0, 0xD0, 0, 0x9A, 0xBF, 0x32, 0x28, 0x76, 0x54, 0x82, 0, 0xF1, 0xAB, 0, 0, 0, 0,
            0, 0,
        ]),
        0x00D0,
        0,
    ),
    Starts,
    Becomes(
        Twenty([
            0x34, 0x40, 0x99, 4, 0x52, 0xF7, 0xA3, 0x68, 0xF1, 0x9C, 0xAA, 0, 0x68, 0x1B, 0, 0, 0,
            0, 0, 0,
        ]),
        0x0499,
        TFES | DHRS,
    ),
    Starts,
    Becomes(
        Twenty([
            0x34, 0, 0x50, 0x3C, 0x42, 0xB3, 0x23, 0xC7, 0xE9, 0x15, 0x2B, 0, 0xEA, 6, 0, 0, 0, 0,
            0, 0,
        ]),
        0x3C50,
        0,
    ),
    Starts,
    Becomes(
        Twenty([
            0x34, 0, 0xD8, 0, 0x2F, 0xE4, 0xCE, 0x4D, 0x80, 0x2F, 0xD4, 0, 0xB1, 0x51, 0, 0, 0, 0,
            0, 0,
        ]),
        0x00D8,
        0,
    ),
    Starts,
    Becomes(
        Twenty([
            0x34, 0x40, 0x25, 4, 0x70, 0x60, 0x75, 0xA9, 0x64, 0x83, 0xA3, 0, 0xF6, 0xCE, 0, 0, 0,
            0, 0, 0,
        ]),
        0x0425,
        TFES | DHRS,
    ),
    Starts,
    Becomes(
        Twenty([
            0x34, 0x40, 0xD0, 0, 0x7B, 0xC9, 0x0A, 0xEC, 0xBB, 0x7C, 0xCD, 0, 0x97, 0xF1, 0, 0, 0,
            0, 0, 0,
        ]),
        0x00D0,
        DHRS,
    ),
    Starts,
    Becomes(
        Twenty([
            0x34, 0x40, 0xA9, 0x40, 6, 0x9C, 0x5A, 0x19, 0x5B, 0xA6, 0x42, 0, 0x97, 0x3B, 0, 0, 0,
            0, 0, 0,
        ]),
        0x40A9,
        TFES | DHRS,
    ),
    Starts,
    Becomes(
        Twenty([
            0x34, 0x40, 0xD0, 0, 0x42, 0x7D, 0xEA, 0x4C, 0xED, 0xC1, 0x10, 0, 0xF0, 0x87, 0, 0, 0,
            0, 0, 0,
        ]),
        0x00D0,
        DHRS,
    ),
    Starts,
    Becomes(
        Twenty([
            0x34, 0, 0x9D, 0x10, 0xE2, 0x97, 0x29, 0xFF, 0x4A, 2, 0xB4, 0, 0xFC, 0x66, 0, 0, 0, 0,
            0, 0,
        ]),
        0x109D,
        TFES,
    ),
    Starts,
    Becomes(
        Twenty([
            0x34, 0x40, 0xD0, 0, 0xBF, 0, 0x20, 0x79, 7, 0xFD, 3, 0, 0x48, 0xC1, 0, 0, 0, 0, 0, 0,
        ]),
        0x00D0,
        DHRS,
    ),
    Starts,
    Becomes(
        Twenty([
            0x34, 0, 0x50, 0, 0x70, 4, 0x9B, 0x87, 0x72, 0xAF, 0xEF, 0, 0xB1, 0xB5, 0, 0, 0, 0, 0,
            0,
        ]),
        0x0050,
        0,
    ),
    Starts,
    Becomes(
        Twenty([
            0x34, 0, 0xC8, 0x54, 0xDE, 0x47, 0x50, 0x7D, 0xF4, 0x17, 0x3E, 0, 0x85, 0xB6, 0, 0, 0,
            0, 0, 0,
        ]),
        0x54C8,
        0,
    ),
    Starts,
    Becomes(
        Twenty([
            0x34, 0x40, 0xD0, 0, 0xCB, 0x19, 0xE5, 0x15, 0xD1, 0xA3, 0x1E, 0, 8, 0x53, 0, 0, 0, 0,
            0, 0,
        ]),
        0x00D0,
        DHRS,
    ),
    Starts,
    Becomes(
        Twenty([
            0x34, 0, 0xC6, 0, 0xB7, 0xFC, 0x6A, 0x27, 0x7F, 0x13, 0xF8, 0, 0xAE, 7, 0, 0, 0, 0, 0,
            0,
        ]),
        0x00C6,
        0,
    ),
    Starts,
    Becomes(
        Twenty([
            0x34, 0, 0x50, 0, 0x8D, 0xCD, 0xDB, 0x6B, 5, 0xBB, 0x84, 0, 0xAA, 0x76, 0, 0, 0, 0, 0,
            0,
        ]),
        0x0050,
        0,
    ),
    Starts,
    Becomes(
        Twenty([
            0x34, 0x40, 0xD0, 0, 0x97, 0x49, 0x81, 0xDC, 0xBD, 0x7B, 0xF3, 0, 0x91, 0xB4, 0, 0, 0,
            0, 0, 0,
        ]),
        0x00D0,
        DHRS,
    ),
    Starts,
    Becomes(
        Twenty([
            0x34, 0x40, 0x51, 0x10, 0x28, 0xBA, 0x3D, 0x14, 0xAA, 0x0C, 0xEE, 0, 0x6E, 0xE9, 0, 0,
            0, 0, 0, 0,
        ]),
        0x1051,
        TFES | DHRS,
    ),
    // PIO Setup FISes that nothing asked for: the port makes a fault of each. PxTFD after it. The emulator sets the bit of a PIO
    // Setup when it takes it; the port sets it at the end of the block: there the profile differs.
    Begins,
    Starts,
    Faults(
        Twenty([
            0x5F, 0x40, 0x58, 0, 0x6A, 0xA3, 0x30, 0x9B, 0x5F, 0xB2, 0xA9, 0, 0xD8, 0xF5, 0, 0x58,
            0, 0x10, 0, 0,
        ]),
        DeviceCause::BadTag,
    ),
    Shows(0x20, 0x0058),
    Starts,
    Faults(
        Twenty([
            0x5F, 0, 0x51, 4, 0xD8, 0x6F, 0x94, 0xBD, 0x5B, 0xD4, 0xBF, 0, 0x1A, 0x2C, 0, 0x51, 0,
            0x0A, 0, 0,
        ]),
        DeviceCause::TaskFile,
    ),
    Shows(0x20, 0x0451),
    Starts,
    Faults(
        Twenty([
            0x5F, 0x40, 0x58, 0, 0x62, 0x12, 0xDB, 0x8F, 0x0A, 0x3A, 0xD6, 0, 0x1C, 0xC8, 0, 0x58,
            0, 8, 0, 0,
        ]),
        DeviceCause::BadTag,
    ),
    Shows(0x20, 0x0058),
    Starts,
    Faults(
        Twenty([
            0x5F, 0x40, 0x58, 0, 0x61, 0x6F, 0x8A, 0x0F, 0xAF, 0x6F, 0xFC, 0, 0x78, 0x77, 0, 0x58,
            0, 8, 0, 0,
        ]),
        DeviceCause::BadTag,
    ),
    Shows(0x20, 0x0058),
    Starts,
    Faults(
        Twenty([
            0x5F, 0, 0x58, 0, 0xF0, 0x4D, 0x8C, 0xD5, 0xC9, 0xDC, 0x77, 0, 0x2C, 0x21, 0, 0x58, 0,
            0x12, 0, 0,
        ]),
        DeviceCause::BadTag,
    ),
    Shows(0x20, 0x0058),
    Starts,
    Faults(
        Twenty([
            0x5F, 0, 0x58, 0, 0xBA, 0xD1, 0xE1, 0x36, 0x60, 0xFF, 0x34, 0, 0x63, 0x4A, 0, 0x58, 0,
            4, 0, 0,
        ]),
        DeviceCause::BadTag,
    ),
    Shows(0x20, 0x0058),
    Starts,
    Faults(
        Twenty([
            0x5F, 0, 0x51, 4, 0xBD, 0xA5, 0xE7, 0x7C, 0xF1, 0x2E, 0x0B, 0, 0x9D, 0x68, 0, 0x51, 0,
            0x16, 0, 0,
        ]),
        DeviceCause::TaskFile,
    ),
    Shows(0x20, 0x0451),
    Starts,
    Faults(
        Twenty([
            0x5F, 0, 0x58, 0, 1, 0x31, 7, 0x43, 0xAC, 0x8D, 0x9B, 0, 0x91, 0xFA, 0, 0x58, 0, 8, 0,
            0,
        ]),
        DeviceCause::BadTag,
    ),
    Shows(0x20, 0x0058),
    Starts,
    Faults(
        Twenty([
            0x5F, 0x40, 0x51, 4, 0xE6, 0x5F, 0xCE, 0x0B, 0x39, 0xC0, 0xB5, 0, 0x23, 0x1C, 0, 0x51,
            0, 0x20, 0, 0,
        ]),
        DeviceCause::TaskFile,
    ),
    Shows(0x20, 0x0451),
    Starts,
    Faults(
        Twenty([
            0x5F, 0, 0x58, 0, 0x3A, 0xE8, 0xEC, 0x0F, 0xE1, 0xA0, 0x84, 0, 0x6A, 0xF6, 0, 0x58, 0,
            0x0C, 0, 0,
        ]),
        DeviceCause::BadTag,
    ),
    Shows(0x20, 0x0058),
    Starts,
    Faults(
        Twenty([
            0x5F, 0, 0x51, 4, 0x0D, 0x20, 0x6D, 0x2C, 0xEC, 0x6B, 0x81, 0, 0xF4, 0x82, 0, 0x51, 0,
            4, 0, 0,
        ]),
        DeviceCause::TaskFile,
    ),
    Shows(0x20, 0x0451),
    Starts,
    Faults(
        Twenty([
            0x5F, 0, 0x51, 4, 0xA0, 0xFA, 0x8B, 0x9E, 0xD7, 0x7A, 0xEC, 0, 0x0D, 0xB7, 0, 0x51, 0,
            0x1A, 0, 0,
        ]),
        DeviceCause::TaskFile,
    ),
    Shows(0x20, 0x0451),
    Starts,
    Faults(
        Twenty([
            0x5F, 0x40, 0x58, 0, 0x3C, 0x26, 0xFD, 0xA1, 0x27, 0x6F, 0xB8, 0, 0x60, 0xC6, 0, 0x58,
            0, 0x10, 0, 0,
        ]),
        DeviceCause::BadTag,
    ),
    Shows(0x20, 0x0058),
    Starts,
    Faults(
        Twenty([
            0x5F, 0x40, 0x51, 4, 0x7C, 0xCF, 0x66, 0x2E, 0xF7, 0xE1, 0x6C, 0, 0xB4, 0xA9, 0, 0x51,
            0, 0x12, 0, 0,
        ]),
        DeviceCause::TaskFile,
    ),
    Shows(0x20, 0x0451),
    Starts,
    Faults(
        Twenty([
            0x5F, 0, 0x58, 0, 0xBA, 0x37, 0x15, 0xDF, 0xAF, 0xE7, 0x34, 0, 0x57, 0xF6, 0, 0x58, 0,
            4, 0, 0,
        ]),
        DeviceCause::BadTag,
    ),
    Shows(0x20, 0x0058),
    Starts,
    Faults(
        Twenty([
            0x5F, 0, 0x58, 0, 0xAB, 0x95, 0xA4, 0x85, 0xF0, 0x21, 0x78, 0, 0x75, 0xA0, 0, 0x58, 0,
            0x20, 0, 0,
        ]),
        DeviceCause::BadTag,
    ),
    Shows(0x20, 0x0058),
    // Set Device Bits FISes after a Status that was told before: PxTFD then, and the bits of PxIS, as for a Register FIS.
    Begins,
    Starts,
    Takes(TOLD_80),
    Becomes(
        Eight([0xA1, 0x40, 0x41, 0x40, 0, 0, 0, 0]),
        0x40C1,
        TFES | SDBS,
    ),
    Starts,
    Takes(TOLD_08),
    Becomes(
        Eight([0xA1, 0x40, 0x50, 0, 0xB6, 0xC5, 0xA0, 0xA6]),
        0x0058,
        SDBS,
    ),
    Starts,
    Takes(TOLD_88),
    Becomes(
        Eight([0xA1, 0x40, 0x50, 0, 0xED, 0x88, 0x75, 0x59]),
        0x00D8,
        SDBS,
    ),
    Starts,
    Takes(TOLD_00),
    Becomes(
        Eight([0xA1, 0x40, 0x23, 0x40, 8, 0x35, 0x70, 0x2A]),
        0x4023,
        TFES | SDBS,
    ),
    Starts,
    Takes(TOLD_80),
    Becomes(
        Eight([0xA1, 0x40, 0x41, 0x40, 0, 0, 0, 0]),
        0x40C1,
        TFES | SDBS,
    ),
    Starts,
    Takes(TOLD_00),
    Becomes(
        Eight([0xA1, 0x40, 0x50, 0, 0x43, 0x34, 0x5B, 0x80]),
        0x0050,
        SDBS,
    ),
    Starts,
    Takes(TOLD_88),
    Becomes(
        Eight([0xA1, 0x40, 0x31, 0x40, 0x9B, 0x88, 0x91, 0xA2]),
        0x40B9,
        TFES | SDBS,
    ),
    Starts,
    Takes(TOLD_88),
    Becomes(
        Eight([0xA1, 0x40, 0x21, 0x40, 0x2F, 0x75, 0xF1, 0x69]),
        0x40A9,
        TFES | SDBS,
    ),
    Starts,
    Takes(TOLD_00),
    Becomes(
        Eight([0xA1, 0x40, 0x76, 0, 0xF3, 0x24, 6, 0xAF]),
        0x0076,
        SDBS,
    ),
    Starts,
    Takes(TOLD_88),
    Becomes(
        Eight([0xA1, 0x40, 0x50, 0, 0xCC, 0x10, 0xDA, 0xF6]),
        0x00D8,
        SDBS,
    ),
    Starts,
    Takes(TOLD_00),
    Becomes(
        Eight([0xA1, 0x40, 0x41, 0x40, 0x7A, 0xAE, 0xE2, 0x2E]),
        0x4041,
        TFES | SDBS,
    ),
    Starts,
    Takes(TOLD_08),
    Becomes(
        Eight([0xA1, 0x40, 0x33, 0x40, 0xFC, 0x33, 0x75, 0xC7]),
        0x403B,
        TFES | SDBS,
    ),
    Starts,
    Takes(TOLD_88),
    Becomes(
        Eight([0xA1, 0x40, 0x41, 0x40, 0, 0, 0, 0]),
        0x40C9,
        TFES | SDBS,
    ),
    Starts,
    Takes(TOLD_08),
    Becomes(
        Eight([0xA1, 0x40, 0x63, 0x40, 0xF3, 0x86, 0x60, 0x42]),
        0x406B,
        TFES | SDBS,
    ),
    Starts,
    Takes(TOLD_80),
    Becomes(
        Eight([0xA1, 0x40, 0x41, 0x40, 0, 0, 0, 0]),
        0x40C1,
        TFES | SDBS,
    ),
    Starts,
    Takes(TOLD_00),
    Becomes(
        Eight([0xA1, 0x40, 0x41, 0x40, 0, 0, 0, 0]),
        0x4041,
        TFES | SDBS,
    ),
    Starts,
    Takes(TOLD_80),
    Becomes(
        Eight([0xA1, 0x40, 0x21, 0x40, 0x26, 0x8D, 0xA4, 0x91]),
        0x40A1,
        TFES | SDBS,
    ),
    Starts,
    Takes(TOLD_88),
    Becomes(
        Eight([0xA1, 0x40, 0x41, 0x40, 0, 0, 0, 0]),
        0x40C9,
        TFES | SDBS,
    ),
    Starts,
    Takes(TOLD_08),
    Becomes(
        Eight([0xA1, 0x40, 0x41, 0x40, 0, 0, 0, 0]),
        0x4049,
        TFES | SDBS,
    ),
    // Values in Count and LBA after a software reset, and whether the port takes the FIS as a signature. The driver
    // looks only at LBA 15:8 and 23:16. The port also requires 01h in Count and LBA 7:0.
    Begins,
    Starts,
    Resets(0),
    Tells(
        Twenty([
            0x34, 0, 0x50, 1, 1, 0xCD, 0xAB, 0, 0, 0, 0, 0, 1, 0, 0, 0, 0, 0, 0, 0,
        ]),
        Heard(Posted::D2h),
    ),
    Shows(0x24, 0xABCD_0101),
    Starts,
    Resets(0),
    Tells(
        Twenty([
            0x34, 0, 0x50, 1, 0, 0, 0, 0, 0, 0, 0, 0, 0, 0, 0, 0, 0, 0, 0, 0,
        ]),
        Ignored,
    ),
    Shows(0x24, 0xFFFF_FFFF),
    Starts,
    Resets(0),
    Tells(
        Twenty([
            0x34, 0, 0x50, 1, 1, 0x96, 0x69, 0, 0, 0, 0, 0, 1, 0, 0, 0, 0, 0, 0, 0,
        ]),
        Heard(Posted::D2h),
    ),
    Shows(0x24, 0x6996_0101),
    Starts,
    Resets(0),
    Tells(
        Twenty([
            0x34, 0, 0x50, 1, 0, 0x69, 0x96, 0, 0, 0, 0, 0, 0, 0, 0, 0, 0, 0, 0, 0,
        ]),
        Ignored,
    ),
    Shows(0x24, 0xFFFF_FFFF),
    Starts,
    Resets(0),
    Tells(
        Twenty([
            0x34, 0, 0x50, 1, 1, 0x69, 0x96, 0, 0, 0, 0, 0, 1, 0, 0, 0, 0, 0, 0, 0,
        ]),
        Heard(Posted::D2h),
    ),
    Shows(0x24, 0x9669_0101),
    // Slot, PM Port, the command, PxFBS as it reads at the write of PxCI, and the bit that is written to PxSACT.
    Begins,
    Starts,
    Drives(27, 13, 0x61, 0xFD01, 0x0800_0000),
    Starts,
    Drives(0, 3, 0x60, 0xF301, 0x0000_0001),
    Starts,
    Drives(15, 11, 0x61, 0xFB01, 0x0000_8000),
    Starts,
    Drives(10, 2, 0x60, 0xF201, 0x0000_0400),
    Starts,
    Drives(1, 14, 0x60, 0xFE01, 0x0000_0002),
    Starts,
    Drives(1, 0, 0x61, 0xF001, 0x0000_0002),
    Starts,
    Drives(31, 2, 0x61, 0xF201, 0x8000_0000),
    Starts,
    Drives(15, 6, 0x60, 0xF601, 0x0000_8000),
    Starts,
    Drives(7, 1, 0x60, 0xF101, 0x0000_0080),
    Starts,
    Drives(14, 6, 0x60, 0xF601, 0x0000_4000),
    Starts,
    Drives(26, 13, 0x60, 0xFD01, 0x0400_0000),
    Starts,
    Drives(3, 13, 0x61, 0xFD01, 0x0000_0008),
    Starts,
    Drives(21, 10, 0x61, 0xFA01, 0x0020_0000),
    Starts,
    Drives(9, 9, 0x61, 0xF901, 0x0000_0200),
    Starts,
    Drives(12, 7, 0x61, 0xF701, 0x0000_1000),
    Starts,
    Drives(14, 10, 0x60, 0xFA01, 0x0000_4000),
    Starts,
    Drives(7, 5, 0x61, 0xF501, 0x0000_0080),
    Starts,
    Drives(22, 8, 0x61, 0xF801, 0x0040_0000),
    Starts,
    Drives(31, 0, 0x61, 0xF001, 0x8000_0000),
    Starts,
    Drives(19, 10, 0x61, 0xFA01, 0x0008_0000),
];

#[test]
fn vectors_are_met(rt: HostRuntime) {
    play(&rt, rt.alloc(), &TOLD);
}
