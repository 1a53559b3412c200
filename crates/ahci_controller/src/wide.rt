//! Accesses to registers, of all widths.

ghost use Rattle.std.specs.Prelude.{◌≡◌};
ghost use Rattle.ahci_controller.specs.Wide.{WritesAt, WritesPart, WritesWide, read_wide};

use crate::access::{Width, high, low, merged, pair, spread};
use crate::parts::Parts;
use crate::writing::Written;
use ahci_registers::Register;

/// What a write asks for beside the registers: that of the lower dword, and then of the higher one.
#[derive(Clone, Copy, Debug, PartialEq, Eq)]
pub struct WideWritten {
    /// For the lower of the two dwords of its eight bytes.
    pub low: Written,
    /// For the higher one.
    pub high: Written,
}

impl Parts {
    /// What the registers read at an offset. An access that crosses a boundary of eight bytes reads 0.
    pub fn read(&self, offset: u32, width: Width) -> u64
        ensures { result ≡ read_wide self.now offset width }
    {
        if !width.fits(offset) {
            return 0;
        }
        let block = offset / 8 * 8;
        let both = pair(self.read32(block), self.read32(block + 4));
        width.part(both, offset % 8)
    }

    /// Writes the register at an offset. It is never an error: what may not be done is ignored, or held until it may be.
    /// Ones written to PxCI have the commands of their slots read.
    pub fn write32(&mut self, offset: u32, value: u32) -> Written
        ensures { WritesAt self.old offset value result self.new }
    {
        match Register::at(offset) {
            Some(register) => self.write_register(register, value),
            None => Written::quietly(false, None),
        }
    }

    // Writes these bits of the register at an offset.
    fn write_part(&mut self, offset: u32, value: u32, mask: u32) -> Written
        ensures { WritesPart self.old offset value mask result self.new }
    {
        if mask == 0 {
            return Written::quietly(false, None);
        }
        match Register::at(offset) {
            Some(register) => {
                let shown = self.value(register);
                self.write_register(register, merged(register, shown, value, mask))
            }
            None => Written::quietly(false, None),
        }
    }

    /// Writes to the registers at an offset, the lower dword first. Bits outside the access stay, and where ones act, nothing
    /// is written to them. An access that crosses a boundary of eight bytes is ignored.
    pub fn write(&mut self, offset: u32, width: Width, value: u64) -> WideWritten
        ensures { WritesWide self.old offset width value result self.new }
    {
        if !width.fits(offset) {
            let nothing = Written::quietly(false, None);
            return WideWritten {
                low: nothing,
                high: nothing,
            };
        }
        let block = offset / 8 * 8;
        let bits = spread(offset % 8, value);
        let mask = spread(offset % 8, width.ones());
        let lower = self.write_part(block, low(bits), low(mask));
        self.core.keeps_rules();
        let higher = self.write_part(block + 4, high(bits), high(mask));
        WideWritten {
            low: lower,
            high: higher,
        }
    }
}
