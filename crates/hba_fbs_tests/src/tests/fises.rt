//! The bytes of FISes of devices.

/// Status 50h, with which a queued command is answered.
pub(super) fn answer(dev: u8) -> [u8; 20] {
    let mut fis = [0; 20];
    fis[0] = 0x34;
    fis[1] = dev;
    fis[2] = 0x50;
    fis
}

pub(super) fn setup(dev: u8, to_host: bool, tag: u8, offset: u16, count: u16) -> [u8; 28] {
    let mut fis = [0; 28];
    fis[0] = 0x41;
    fis[1] = if to_host { dev | 0x20 } else { dev };
    fis[4] = tag;
    fis[16] = (offset % 256) as u8;
    fis[17] = (offset / 256) as u8;
    fis[20] = (count % 256) as u8;
    fis[21] = (count / 256) as u8;
    fis
}

pub(super) fn data(dev: u8, byte: u8) -> [u8; 516] {
    let mut fis = [byte; 516];
    fis[0] = 0x46;
    fis[1] = dev;
    fis[2] = 0;
    fis[3] = 0;
    fis
}

/// The bytes 0, 1, .. 255, 0, .. as Data of device 3.
pub(super) fn counting() -> [u8; 516] {
    let mut bytes = data(3, 0);
    for i in 0..512_usize {
        bytes[4 + i] = (i % 256) as u8;
    }
    bytes
}

/// A Register FIS of a device with this Status, this Error, the lowest byte of Count and the three lowest of
/// LBA.
pub(super) fn register(dev: u8, status: u8, error: u8, count: u8, lba: [u8; 3]) -> [u8; 20] {
    let mut fis = answer(dev);
    fis[2] = status;
    fis[3] = error;
    fis[4] = lba[0];
    fis[5] = lba[1];
    fis[6] = lba[2];
    fis[12] = count;
    fis
}

/// A PIO Setup with this byte 1, Status 58h, this E_Status and this transfer count.
pub(super) fn block(second: u8, ends: u8, count: u16) -> [u8; 20] {
    let mut fis = [0; 20];
    fis[0] = 0x5F;
    fis[1] = second;
    fis[2] = 0x58;
    fis[15] = ends;
    fis[16] = (count % 256) as u8;
    fis[17] = (count / 256) as u8;
    fis
}
