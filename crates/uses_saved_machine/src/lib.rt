//! A machine that was saved is restored as it was.
#![tactic(auto)]

ghost use Rattle.std.specs.Prelude.{◌≡◌, MatchResult};
ghost use Rattle.ahci_machine.specs.declared.state.StateError.TheVariants as refused;

use ahci_machine::{Machine, StateError};
use std::alloc::Global;

/// The machine, saved and restored: it is the same, and only memory may be missing.
pub fn saved_and_restored(alloc: Global, machine: &Machine) -> Result<Machine, StateError>
    ensures { MatchResult result (λ restored. restored ≡ machine.now) (λ error. error ≡ refused.OutOfMemory) }
{
    ahci_machine::states_are_apart();
    let Ok(bytes) = machine.to_bytes(alloc) else {
        return Err(StateError::OutOfMemory);
    };
    match Machine::from_bytes(alloc, bytes.as_slice()) {
        Ok(restored) => Ok(restored),
        Err(error) => Err(error),
    }
}
