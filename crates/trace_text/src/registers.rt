//! The registers of an AHCI controller by their names.

/// The registers of the controller, by their offsets (AHCI 1.3.1, 3.1).
static OF_CONTROLLER: [(&[u8], u32); 11] = [
    (b"CAP", 0x00),
    (b"GHC", 0x04),
    (b"IS", 0x08),
    (b"PI", 0x0C),
    (b"VS", 0x10),
    (b"CCC_CTL", 0x14),
    (b"CCC_PORTS", 0x18),
    (b"EM_LOC", 0x1C),
    (b"EM_CTL", 0x20),
    (b"CAP2", 0x24),
    (b"BOHC", 0x28),
];

/// The registers of a port, by their offsets among them (AHCI 1.3.1, 3.3).
static OF_PORT: [(&[u8], u32); 17] = [
    (b"PxCLB", 0x00),
    (b"PxCLBU", 0x04),
    (b"PxFB", 0x08),
    (b"PxFBU", 0x0C),
    (b"PxIS", 0x10),
    (b"PxIE", 0x14),
    (b"PxCMD", 0x18),
    (b"PxTFD", 0x20),
    (b"PxSIG", 0x24),
    (b"PxSSTS", 0x28),
    (b"PxSCTL", 0x2C),
    (b"PxSERR", 0x30),
    (b"PxSACT", 0x34),
    (b"PxCI", 0x38),
    (b"PxSNTF", 0x3C),
    (b"PxFBS", 0x40),
    (b"PxDEVSLP", 0x44),
];

/// The offset at which the registers of the first port begin.
const FIRST_PORT: u32 = 0x100;

/// The offset of the register of this name in a table.
fn offset_in(table: &[(&[u8], u32)], name: &[u8]) -> Option<u32> {
    for (known, offset) in table.iter() {
        if *known == name {
            return Some(*offset);
        }
    }
    None
}

/// The offset among those of its port of the register of this name, if it is one of a port.
pub fn port_offset(name: &[u8]) -> Option<u32> {
    offset_in(&OF_PORT, name)
}

/// The offset of the register of this name in a controller. One of a port is that of the first port.
pub fn controller_offset(name: &[u8]) -> Option<u32> {
    match port_offset(name) {
        Some(offset) => FIRST_PORT.checked_add(offset),
        None => offset_in(&OF_CONTROLLER, name),
    }
}
