//! What a memory of a fixed size refuses: areas that do not lie in its structure area.

ghost use Rattle.std.specs.Prelude.{◌≡◌};
ghost use Rattle.hba_fbs.specs.Registers.{is_area_outside as is_area_outside_of, is_list_outside as is_list_outside_of, is_outside as is_outside_of, starts_outside as starts_outside_of};

use crate::bits::{FRE, ST, has_bit};
use crate::register::Register;
use crate::registers::{AREA_LEN, LIST_LEN, Registers};
use host_memory::CLIENT_START;

impl Registers {
    fn is_area_outside(self) -> bool
        ensures { result ≡ is_area_outside_of self }
    {
        self.fbu != 0 || u64::from(self.fb) + u64::from(AREA_LEN) > u64::from(CLIENT_START)
    }

    fn is_list_outside(self) -> bool
        ensures { result ≡ is_list_outside_of self }
    {
        self.clbu != 0 || u64::from(self.clb) + u64::from(LIST_LEN) > u64::from(CLIENT_START)
    }

    fn starts_outside(self, starts: bool, receives: bool) -> bool
        ensures { result ≡ starts_outside_of self starts receives }
    {
        receives
            && (!self.receives && self.is_area_outside()
                || starts && !self.started && self.is_list_outside())
    }

    /// Whether a write sets FRE or ST for an area that does not lie in the structure area.
    pub(crate) fn is_outside(self, register: Register, value: u32) -> bool
        ensures { result ≡ is_outside_of register self value }
    {
        match register {
            Register::Cmd => self.starts_outside(has_bit(value, ST), has_bit(value, FRE)),
            _ => false,
        }
    }
}
