//! The parts of a controller as words, and back.

ghost use Rattle.ahci_controller.specs.SavedController.{parts_words};

use super::Parts;
use crate::circle::Circle;
use crate::latch::Latch;
use crate::own::OwnRegisters;
use crate::wants::{Wants, Writes};
use ahci_registers::LinkControl;
use guest_fetch::{Command, Fetch};
use hba_fbs::PortCore;
use saved_state::{RestoreError, Saved, Words};
use std::alloc::{AllocError, Global};

type Core = (PortCore, Latch, LinkControl);

type Wanted = (OwnRegisters, Wants, [Option<Fetch>; 32]);

type Moving = (([Option<Command>; 32], Writes), (Circle, [u32; 16]));

impl Saved for Parts {
    ghost put = { parts_words.put };

    ghost keeps = { parts_words.keeps };

    ghost told_apart = { parts_words.apart };

    fn save(&self, words: &mut Words) -> Result<(), AllocError> {
        self.cursors.save(words)?;
        self.circle.save(words)?;
        self.writes.save(words)?;
        self.commands.save(words)?;
        self.fetches.save(words)?;
        self.wants.save(words)?;
        self.own.save(words)?;
        self.link.save(words)?;
        self.latch.save(words)?;
        self.core.save(words)
    }

    fn restore(alloc: Global, words: &mut Words) -> Result<Parts, RestoreError> {
        let (front, wanted, moving) = match <(Core, Wanted, Moving)>::restore(alloc, words) {
            Ok(parts) => parts,
            Err(error) => return Err(error),
        };
        let (core, latch, link) = front;
        let (own, wants, fetches) = wanted;
        let ((commands, writes), (circle, cursors)) = moving;
        Ok(Parts {
            core,
            latch,
            link,
            own,
            wants,
            fetches,
            commands,
            writes,
            circle,
            cursors,
        })
    }
}
