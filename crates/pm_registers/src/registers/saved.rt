//! The registers of a multiplier as words, and back.

ghost use Rattle.std.specs.Prelude.{◌≡◌};
ghost use Rattle.pm_registers.specs.Saved.{KeepsRegisters, fits as fits_of, put_registers, registers_apart, shows_truly};
ghost use Rattle.std.specs.List.{list_all};

use super::PmRegisters;
use crate::port::PortRegisters;
use saved_state::{RestoreError, Saved, Words, save_all};
use std::alloc::{AllocError, Global};

type Parts = ((u8, u32, u32), ([PortRegisters; 15], bool));

fn all_show_truly(bank: &[PortRegisters]) -> bool
    ensures { result ≡ list_all shows_truly bank.now }
{
    bank.iter().all(|port| port.shows_truly())
}

// Whether there can be this many device ports, and each shows its device truly.
fn fits(ports: u8, bank: &[PortRegisters]) -> bool
    ensures { result ≡ fits_of ports bank.now }
{
    ports <= 15 && all_show_truly(bank)
}

impl Saved for PmRegisters {
    ghost put = { put_registers };

    ghost keeps = { KeepsRegisters };

    ghost told_apart = { registers_apart };

    fn save(&self, words: &mut Words) -> Result<(), AllocError> {
        self.due.save(words)?;
        save_all(&self.bank, words)?;
        self.enabled.save(words)?;
        self.mask.save(words)?;
        self.ports.save(words)
    }

    fn restore(alloc: Global, words: &mut Words) -> Result<PmRegisters, RestoreError> {
        let ((ports, mask, enabled), (bank, due)) = match <Parts>::restore(alloc, words) {
            Ok(parts) => parts,
            Err(error) => return Err(error),
        };
        if !fits(ports, &bank) {
            return Err(RestoreError::Broken);
        }
        Ok(PmRegisters {
            ports,
            mask,
            enabled,
            bank,
            due,
        })
    }
}
