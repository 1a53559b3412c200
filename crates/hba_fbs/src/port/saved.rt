//! A host port that holds no memory as words, and back.

ghost use Rattle.std.specs.Prelude.{◌≡◌, ◌<◌};
ghost use Rattle.hba_fbs.specs.Saved.{KeepsPort, have_commands as have_commands_of, is_core as is_core_of, lacks_command as lacks_command_of, port_apart, put_port};

use super::PortCore;
use crate::registers::Registers;
use crate::state::DeviceState;
use hba_commands::Command;
use port_errors::PortErrors;
use saved_state::{RestoreError, Saved, Words, save_all};
use slots::SlotTable;
use std::alloc::{AllocError, Global};

type Parts = (
    (Registers, SlotTable, PortErrors),
    (([DeviceState; 16], [Option<Command>; 32]), (u32, u8)),
);

// Whether something is issued in a slot, and there is no command.
fn lacks_command(slots: &SlotTable, commands: &[Option<Command>; 32], slot: u8) -> bool
    requires { slot < 32 }
    ensures { result ≡ lacks_command_of slots.now commands.now slot }
{
    commands[slot as usize].is_none() && slots.owner(slot).is_some()
}

// Whether each slot in which something is issued has its command.
fn have_commands(slots: &SlotTable, commands: &[Option<Command>; 32]) -> bool
    ensures { result ≡ have_commands_of slots.now commands.now }
{
    for slot in 0..32_u8 {
        if lacks_command(slots, commands, slot) {
            return false;
        }
    }
    true
}

// Whether they keep the rules of every port.
fn is_core(
    registers: Registers,
    slots: &SlotTable,
    commands: &[Option<Command>; 32],
    active: u8,
) -> bool
    ensures { result ≡ is_core_of registers slots.now commands.now active }
{
    registers.are_own() && active < 16 && have_commands(slots, commands)
}

impl Saved for PortCore {
    ghost put = { put_port };

    ghost keeps = { KeepsPort };

    ghost told_apart = { port_apart };

    fn save(&self, words: &mut Words) -> Result<(), AllocError> {
        self.active.save(words)?;
        self.number.save(words)?;
        save_all(&self.commands, words)?;
        save_all(&self.states, words)?;
        self.errors.save(words)?;
        self.slots.save(words)?;
        self.registers.save(words)
    }

    fn restore(alloc: Global, words: &mut Words) -> Result<PortCore, RestoreError> {
        let ((registers, slots, errors), ((states, commands), (number, active))) =
            match <Parts>::restore(alloc, words) {
                Ok(parts) => parts,
                Err(error) => return Err(error),
            };
        if !is_core(registers, &slots, &commands, active) {
            return Err(RestoreError::Broken);
        }
        Ok(PortCore {
            registers,
            slots,
            errors,
            states,
            commands,
            number,
            active,
        })
    }
}
