//! The port's own registers as words, and back.

ghost use Rattle.std.specs.Prelude.{◌≡◌};
ghost use Rattle.hba_fbs.specs.Saved.{KeepsRegisters, are_own as are_own_of, put_registers, registers_apart};

use super::Registers;
use saved_state::{RestoreError, Saved, Words};
use std::alloc::{AllocError, Global};

type Dwords = (u32, u32, u32);

type Flags = (bool, bool, bool);

type Marks = (u32, bool, u32);

type Switches = (u16, bool, u8);

type Parts = (((Dwords, Dwords), Flags), (Marks, Switches));

impl Registers {
    /// Whether they keep the rules of every port.
    pub(crate) fn are_own(self) -> bool
        ensures { result ≡ are_own_of self }
    {
        self.chosen < 16 && (!self.started || self.receives)
    }
}

impl Saved for Registers {
    ghost put = { put_registers };

    ghost keeps = { KeepsRegisters };

    ghost told_apart = { registers_apart };

    fn save(&self, words: &mut Words) -> Result<(), AllocError> {
        let addresses = (
            (self.clb, self.clbu, self.fb),
            (self.fbu, self.interrupts, self.enabled),
        );
        let flags = (self.started, self.receives, self.multiplied);
        let marks = (self.signature, self.unknown, self.armed);
        let switches = (self.notified, self.switching, self.chosen);
        ((addresses, flags), (marks, switches)).save(words)
    }

    fn restore(alloc: Global, words: &mut Words) -> Result<Registers, RestoreError> {
        let ((addresses, flags), (marks, switches)) = match <Parts>::restore(alloc, words) {
            Ok(parts) => parts,
            Err(error) => return Err(error),
        };
        let ((clb, clbu, fb), (fbu, interrupts, enabled)) = addresses;
        let (started, receives, multiplied) = flags;
        let (signature, unknown, armed) = marks;
        let (notified, switching, chosen) = switches;
        Ok(Registers {
            clb,
            clbu,
            fb,
            fbu,
            interrupts,
            enabled,
            started,
            receives,
            multiplied,
            signature,
            unknown,
            armed,
            notified,
            switching,
            chosen,
        })
    }
}
