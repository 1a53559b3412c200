//! How far data went, as a trace saw it.

use crate::decoding::fis_of;
use crate::fis_short::bit_of;
use fis_view::Fis;

/// How many bytes of each command came to the host, and how many of each device's last setup did not yet.
#[derive(Clone, Copy)]
pub struct Flow {
    came: [u32; 32],
    left: [Option<u32>; 16],
}

impl Flow {
    /// Nothing came, and nothing is set up.
    pub fn new() -> Flow {
        Flow {
            came: [0; 32],
            left: [None; 16],
        }
    }

    /// The commands of these slots are issued anew.
    pub fn issue(&mut self, mask: u32) {
        for slot in 0..32_u8 {
            if mask & bit_of(slot) != 0 {
                if let Some(came) = self.came.get_mut(usize::from(slot)) {
                    *came = 0;
                }
            }
        }
    }

    /// A FIS of these bytes was heard of a device, without a fault.
    pub fn hear(&mut self, dev: u8, frame: &[u8]) {
        let Some(left) = self.left.get_mut(usize::from(dev)) else {
            return;
        };
        match fis_of(frame) {
            Ok(Fis::DmaSetup(fis)) => *left = Some(fis.count()),
            Ok(Fis::PioSetup(fis)) => *left = Some(u32::from(fis.transfer())),
            _ => {}
        }
    }

    /// So many bytes of a command of a device came.
    pub fn come(&mut self, dev: u8, slot: u8, len: u32) {
        if let Some(came) = self.came.get_mut(usize::from(slot)) {
            *came = came.saturating_add(len);
        }
        if let Some(Some(left)) = self.left.get_mut(usize::from(dev)) {
            *left = left.saturating_sub(len);
        }
    }

    /// How many bytes of the command of a slot came.
    pub fn came(&self, slot: u8) -> u32 {
        self.came.get(usize::from(slot)).copied().unwrap_or(0)
    }

    /// How many bytes of the last setup of a device did not come yet; None if there was none.
    pub fn left(&self, dev: u8) -> Option<u32> {
        match self.left.get(usize::from(dev)) {
            Some(left) => *left,
            None => None,
        }
    }
}

/// The slots that a FIS may be about, of those that are out: the tag of a setup, those that a Set Device Bits FIS names, or
/// the only one that is out.
pub fn slots_about(frame: &[u8], out: u32) -> u32 {
    match fis_of(frame) {
        Ok(Fis::DmaSetup(fis)) => out & bit_of((fis.buffer_id() & 0x1F) as u8),
        Ok(Fis::SetBits(fis)) => out & fis.sactive(),
        _ if out.count_ones() == 1 => out,
        _ => 0,
    }
}
