//! Command headers and PRD tables of queued reads and writes, as functions of Linux 6.1 make them: `ata_build_rw_tf`,
//! `ahci_qc_prep`, `ahci_fill_sg`, `ahci_fill_cmd_slot` and `ahci_qc_issue`.

use host_memory::Prd;

/// One command.
pub struct Row {
    pub slot: u8,
    pub pm_port: u8,
    pub write: bool,
    pub prds: &'static [Prd],
    /// The first four dwords of the header, with the PRDBC at 0.
    pub header: [u32; 4],
    /// The bytes of the PRD table, in hexadecimal.
    pub table: &'static str,
    /// The FBS register (AHCI 1.3.1, 3.3.16) as the command is issued.
    pub fbs: u32,
    /// What is written to PxSACT.
    pub sact: u32,
}

pub static ROWS: [Row; 20] = [
    Row {
        slot: 27,
        pm_port: 13,
        write: true,
        prds: &[
            Prd {
                address: 0x10_2168,
                bytes: 22870,
            },
            Prd {
                address: 0x11_19ee,
                bytes: 41932,
            },
        ],
        header: [0x0002_d045, 0x0000_0000, 0x0001_4900, 0x0000_0000],
        table: "68211000000000000000000055590000ee1911000000000000000000cba30000",
        fbs: 0x0000_fd01,
        sact: 0x0800_0000,
    },
    Row {
        slot: 0,
        pm_port: 3,
        write: false,
        prds: &[
            Prd {
                address: 0x10_21d8,
                bytes: 33516,
            },
            Prd {
                address: 0x11_2aa4,
                bytes: 21556,
            },
            Prd {
                address: 0x12_34b4,
                bytes: 42300,
            },
            Prd {
                address: 0x13_0c9c,
                bytes: 30898,
            },
            Prd {
                address: 0x14_3e88,
                bytes: 31786,
            },
        ],
        header: [0x0005_3005, 0x0000_0000, 0x0000_2000, 0x0000_0000],
        table: "d82110000000000000000000eb820000a42a1100000000000000000033540000b434120000000000000000003ba500009c0c13000000000000000000b1780000883e14000000000000000000297c0000",
        fbs: 0x0000_f301,
        sact: 0x0000_0001,
    },
    Row {
        slot: 15,
        pm_port: 11,
        write: true,
        prds: &[Prd {
            address: 0x10_260a,
            bytes: 43292,
        }],
        header: [0x0001_b045, 0x0000_0000, 0x0000_c500, 0x0000_0000],
        table: "0a26100000000000000000001ba90000",
        fbs: 0x0000_fb01,
        sact: 0x0000_8000,
    },
    Row {
        slot: 10,
        pm_port: 2,
        write: false,
        prds: &[
            Prd {
                address: 0x10_33d2,
                bytes: 17944,
            },
            Prd {
                address: 0x11_0ff2,
                bytes: 10864,
            },
            Prd {
                address: 0x12_21bc,
                bytes: 13404,
            },
            Prd {
                address: 0x13_190c,
                bytes: 42504,
            },
            Prd {
                address: 0x14_0cd4,
                bytes: 47660,
            },
        ],
        header: [0x0005_2005, 0x0000_0000, 0x0000_8e00, 0x0000_0000],
        table: "d2331000000000000000000017460000f20f110000000000000000006f2a0000bc21120000000000000000005b3400000c191300000000000000000007a60000d40c140000000000000000002bba0000",
        fbs: 0x0000_f201,
        sact: 0x0000_0400,
    },
    Row {
        slot: 1,
        pm_port: 14,
        write: false,
        prds: &[
            Prd {
                address: 0x10_3796,
                bytes: 7836,
            },
            Prd {
                address: 0x11_0598,
                bytes: 20356,
            },
            Prd {
                address: 0x12_26c0,
                bytes: 33494,
            },
            Prd {
                address: 0x13_0fda,
                bytes: 22746,
            },
        ],
        header: [0x0004_e005, 0x0000_0000, 0x0000_2b00, 0x0000_0000],
        table: "9637100000000000000000009b1e0000980511000000000000000000834f0000c02612000000000000000000d5820000da0f13000000000000000000d9580000",
        fbs: 0x0000_fe01,
        sact: 0x0000_0002,
    },
    Row {
        slot: 1,
        pm_port: 0,
        write: true,
        prds: &[
            Prd {
                address: 0x10_347c,
                bytes: 20968,
            },
            Prd {
                address: 0x11_1c1c,
                bytes: 16672,
            },
            Prd {
                address: 0x12_0fba,
                bytes: 15028,
            },
            Prd {
                address: 0x13_1a2e,
                bytes: 26156,
            },
        ],
        header: [0x0004_0045, 0x0000_0000, 0x0000_2b00, 0x0000_0000],
        table: "7c3410000000000000000000e75100001c1c110000000000000000001f410000ba0f12000000000000000000b33a00002e1a130000000000000000002b660000",
        fbs: 0x0000_f001,
        sact: 0x0000_0002,
    },
    Row {
        slot: 31,
        pm_port: 2,
        write: true,
        prds: &[Prd {
            address: 0x10_0ff8,
            bytes: 7208,
        }],
        header: [0x0001_2045, 0x0000_0000, 0x0001_7500, 0x0000_0000],
        table: "f80f10000000000000000000271c0000",
        fbs: 0x0000_f201,
        sact: 0x8000_0000,
    },
    Row {
        slot: 15,
        pm_port: 6,
        write: false,
        prds: &[
            Prd {
                address: 0x10_1170,
                bytes: 39718,
            },
            Prd {
                address: 0x11_40d0,
                bytes: 19500,
            },
            Prd {
                address: 0x12_15e2,
                bytes: 23648,
            },
            Prd {
                address: 0x13_3c4c,
                bytes: 9516,
            },
            Prd {
                address: 0x14_0f8e,
                bytes: 48504,
            },
            Prd {
                address: 0x15_1900,
                bytes: 4528,
            },
        ],
        header: [0x0006_6005, 0x0000_0000, 0x0000_c500, 0x0000_0000],
        table: "701110000000000000000000259b0000d040110000000000000000002b4c0000e215120000000000000000005f5c00004c3c130000000000000000002b2500008e0f1400000000000000000077bd0000001915000000000000000000af110000",
        fbs: 0x0000_f601,
        sact: 0x0000_8000,
    },
    Row {
        slot: 7,
        pm_port: 1,
        write: false,
        prds: &[
            Prd {
                address: 0x10_4160,
                bytes: 40506,
            },
            Prd {
                address: 0x11_41c0,
                bytes: 38962,
            },
            Prd {
                address: 0x12_400e,
                bytes: 46648,
            },
        ],
        header: [0x0003_1005, 0x0000_0000, 0x0000_6d00, 0x0000_0000],
        table: "604110000000000000000000399e0000c04111000000000000000000319800000e401200000000000000000037b60000",
        fbs: 0x0000_f101,
        sact: 0x0000_0080,
    },
    Row {
        slot: 14,
        pm_port: 6,
        write: false,
        prds: &[
            Prd {
                address: 0x10_2b36,
                bytes: 28562,
            },
            Prd {
                address: 0x11_2aa4,
                bytes: 39780,
            },
        ],
        header: [0x0002_6005, 0x0000_0000, 0x0000_ba00, 0x0000_0000],
        table: "362b10000000000000000000916f0000a42a11000000000000000000639b0000",
        fbs: 0x0000_f601,
        sact: 0x0000_4000,
    },
    Row {
        slot: 26,
        pm_port: 13,
        write: false,
        prds: &[
            Prd {
                address: 0x10_2ee0,
                bytes: 34662,
            },
            Prd {
                address: 0x11_3456,
                bytes: 28890,
            },
        ],
        header: [0x0002_d005, 0x0000_0000, 0x0001_3e00, 0x0000_0000],
        table: "e02e1000000000000000000065870000563411000000000000000000d9700000",
        fbs: 0x0000_fd01,
        sact: 0x0400_0000,
    },
    Row {
        slot: 3,
        pm_port: 13,
        write: true,
        prds: &[
            Prd {
                address: 0x10_2c2e,
                bytes: 9778,
            },
            Prd {
                address: 0x11_3d52,
                bytes: 48110,
            },
            Prd {
                address: 0x12_2f46,
                bytes: 27568,
            },
            Prd {
                address: 0x13_1834,
                bytes: 9322,
            },
            Prd {
                address: 0x14_2540,
                bytes: 5370,
            },
            Prd {
                address: 0x15_412e,
                bytes: 13672,
            },
        ],
        header: [0x0006_d045, 0x0000_0000, 0x0000_4100, 0x0000_0000],
        table: "2e2c1000000000000000000031260000523d11000000000000000000edbb0000462f12000000000000000000af6b000034181300000000000000000069240000402514000000000000000000f91400002e411500000000000000000067350000",
        fbs: 0x0000_fd01,
        sact: 0x0000_0008,
    },
    Row {
        slot: 21,
        pm_port: 10,
        write: true,
        prds: &[
            Prd {
                address: 0x10_0d70,
                bytes: 46120,
            },
            Prd {
                address: 0x11_3a08,
                bytes: 35330,
            },
            Prd {
                address: 0x12_1694,
                bytes: 16806,
            },
        ],
        header: [0x0003_a045, 0x0000_0000, 0x0001_0700, 0x0000_0000],
        table: "700d1000000000000000000027b40000083a11000000000000000000018a0000941612000000000000000000a5410000",
        fbs: 0x0000_fa01,
        sact: 0x0020_0000,
    },
    Row {
        slot: 9,
        pm_port: 9,
        write: true,
        prds: &[
            Prd {
                address: 0x10_2750,
                bytes: 20490,
            },
            Prd {
                address: 0x11_0e4e,
                bytes: 40338,
            },
        ],
        header: [0x0002_9045, 0x0000_0000, 0x0000_8300, 0x0000_0000],
        table: "502710000000000000000000095000004e0e11000000000000000000919d0000",
        fbs: 0x0000_f901,
        sact: 0x0000_0200,
    },
    Row {
        slot: 12,
        pm_port: 7,
        write: true,
        prds: &[
            Prd {
                address: 0x10_0f14,
                bytes: 20706,
            },
            Prd {
                address: 0x11_0c3a,
                bytes: 14172,
            },
            Prd {
                address: 0x12_0d18,
                bytes: 21364,
            },
            Prd {
                address: 0x13_16e4,
                bytes: 44244,
            },
        ],
        header: [0x0004_7045, 0x0000_0000, 0x0000_a400, 0x0000_0000],
        table: "140f10000000000000000000e15000003a0c110000000000000000005b370000180d1200000000000000000073530000e41613000000000000000000d3ac0000",
        fbs: 0x0000_f701,
        sact: 0x0000_1000,
    },
    Row {
        slot: 14,
        pm_port: 10,
        write: false,
        prds: &[
            Prd {
                address: 0x10_3890,
                bytes: 12700,
            },
            Prd {
                address: 0x11_1a82,
                bytes: 39776,
            },
            Prd {
                address: 0x12_0250,
                bytes: 14254,
            },
        ],
        header: [0x0003_a005, 0x0000_0000, 0x0000_ba00, 0x0000_0000],
        table: "9038100000000000000000009b310000821a110000000000000000005f9b0000500212000000000000000000ad370000",
        fbs: 0x0000_fa01,
        sact: 0x0000_4000,
    },
    Row {
        slot: 7,
        pm_port: 5,
        write: true,
        prds: &[Prd {
            address: 0x10_2832,
            bytes: 47346,
        }],
        header: [0x0001_5045, 0x0000_0000, 0x0000_6d00, 0x0000_0000],
        table: "322810000000000000000000f1b80000",
        fbs: 0x0000_f501,
        sact: 0x0000_0080,
    },
    Row {
        slot: 22,
        pm_port: 8,
        write: true,
        prds: &[
            Prd {
                address: 0x10_27ac,
                bytes: 13844,
            },
            Prd {
                address: 0x11_38f8,
                bytes: 11586,
            },
            Prd {
                address: 0x12_150c,
                bytes: 45840,
            },
        ],
        header: [0x0003_8045, 0x0000_0000, 0x0001_1200, 0x0000_0000],
        table: "ac271000000000000000000013360000f83811000000000000000000412d00000c15120000000000000000000fb30000",
        fbs: 0x0000_f801,
        sact: 0x0040_0000,
    },
    Row {
        slot: 31,
        pm_port: 0,
        write: true,
        prds: &[
            Prd {
                address: 0x10_2766,
                bytes: 36080,
            },
            Prd {
                address: 0x11_3940,
                bytes: 48674,
            },
            Prd {
                address: 0x12_2d94,
                bytes: 14310,
            },
            Prd {
                address: 0x13_1998,
                bytes: 44446,
            },
        ],
        header: [0x0004_0045, 0x0000_0000, 0x0001_7500, 0x0000_0000],
        table: "662710000000000000000000ef8c000040391100000000000000000021be0000942d12000000000000000000e53700009819130000000000000000009dad0000",
        fbs: 0x0000_f001,
        sact: 0x8000_0000,
    },
    Row {
        slot: 19,
        pm_port: 10,
        write: true,
        prds: &[Prd {
            address: 0x10_37da,
            bytes: 47946,
        }],
        header: [0x0001_a045, 0x0000_0000, 0x0000_f100, 0x0000_0000],
        table: "da371000000000000000000049bb0000",
        fbs: 0x0000_fa01,
        sact: 0x0008_0000,
    },
];
