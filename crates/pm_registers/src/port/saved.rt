//! The registers of one device port as words, and back.

ghost use Rattle.std.specs.Prelude.{◌≡◌};
ghost use Rattle.pm_registers.specs.Saved.{KeepsPort, port_apart, put_port, shows_truly};

use super::PortRegisters;
use crate::words::DET_MASK;
use saved_state::{RestoreError, Saved, Words};
use std::alloc::{AllocError, Global};

impl Default for PortRegisters {
    ghost use Rattle.std.specs.Prelude.{◌≡◌};
    ghost use Rattle.pm_registers.specs.Port.{opening_port};

    ghost is_default = { λ p. p ≡ opening_port };

    fn default() -> PortRegisters {
        PortRegisters::new()
    }
}

impl PortRegisters {
    /// Whether communication is established only where the port is open and a device is present.
    pub(crate) fn shows_truly(self) -> bool
        ensures { result ≡ shows_truly self }
    {
        self.status & DET_MASK != 3 || self.is_open() && self.present
    }
}

type Parts = (u32, u32, (u32, bool));

impl Saved for PortRegisters {
    ghost put = { put_port };

    ghost keeps = { KeepsPort };

    ghost told_apart = { port_apart };

    fn save(&self, words: &mut Words) -> Result<(), AllocError> {
        self.present.save(words)?;
        self.control.save(words)?;
        self.error.save(words)?;
        self.status.save(words)
    }

    fn restore(alloc: Global, words: &mut Words) -> Result<PortRegisters, RestoreError> {
        let (status, error, (control, present)) = match <Parts>::restore(alloc, words) {
            Ok(parts) => parts,
            Err(error) => return Err(error),
        };
        Ok(PortRegisters {
            status,
            error,
            control,
            present,
        })
    }
}
