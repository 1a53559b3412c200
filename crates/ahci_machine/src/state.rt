//! The state of a machine as bytes, for snapshots and migration.

ghost use Rattle.std.specs.Prelude.{◌≡◌, IfOk};
ghost use Rattle.saved_state.specs.Bytes.{AreWords, bytes_of};
ghost use Rattle.ahci_machine.specs.Saved.{machine_words};
ghost use Rattle.ahci_machine.specs.Streams.{ReadsState, ReadsStream, SavedApart, damage_of, stream_of};

use crate::machine::Machine;
use saved_state::{RestoreError, Saved, Words};
use std::alloc::{AllocError, Global};
use thiserror::Error;

/// The first word of a state: as bytes, `GEFSUNK` and a zero.
pub const STATE_MARK: u64 = 0x004b_4e55_5346_4547;

/// The second word of a state: the version of its format.
pub const STATE_VERSION: u64 = 1;

/// Why bytes give no machine.
#[derive(Clone, Copy, Debug, PartialEq, Eq, Error)]
pub enum StateError {
    /// Memory is refused.
    #[error("out of memory")]
    OutOfMemory,
    /// They do not begin as the state of a machine does.
    #[error("not the state of a machine")]
    NotAMachine,
    /// They have a version that this library does not read.
    #[error("the state has another version")]
    OtherVersion,
    /// They end too early.
    #[error("the state ends too early")]
    Short,
    /// They go on behind the machine.
    #[error("the state goes on behind the machine")]
    Long,
    /// A word stands for nothing in its place.
    #[error("a word of the state has no meaning")]
    NoSuch,
    /// What they say does not fit together.
    #[error("the state breaks a rule")]
    Broken,
}

fn damage(error: RestoreError) -> StateError
    ensures { result ≡ damage_of error }
{
    match error {
        RestoreError::OutOfMemory => StateError::OutOfMemory,
        RestoreError::Short => StateError::Short,
        RestoreError::NoSuch => StateError::NoSuch,
        RestoreError::Broken => StateError::Broken,
    }
}

// The machine that these words are.
fn from_words(alloc: Global, words: Words) -> Result<Machine, StateError>
    ensures { ReadsState words result }
{
    let mut words = words;
    match words.pop() {
        Some(STATE_MARK) => {}
        _ => return Err(StateError::NotAMachine),
    }
    match words.pop() {
        Some(STATE_VERSION) => {}
        _ => return Err(StateError::OtherVersion),
    }
    match Machine::restore(alloc, &mut words) {
        Ok(machine) => match words.pop() {
            None => Ok(machine),
            Some(_) => Err(StateError::Long),
        },
        Err(error) => Err(damage(error)),
    }
}

impl Machine {
    /// All of its state, requests under way included: [`from_bytes`](Machine::from_bytes) of it is this machine. What the guest's
    /// memory and the media hold is the caller's.
    pub fn to_bytes(&self, alloc: Global) -> Result<Vec<u8>, AllocError>
        ensures bytes { IfOk result (λ bytes. bytes.items ≡ bytes_of (stream_of self.now)) }
        ensures keeps { IfOk result (λ _. machine_words.keeps self.now) }
        ensures words { IfOk result (λ _. AreWords (stream_of self.now)) }
    {
        let mut words = Words::new(alloc);
        self.save(&mut words)?;
        words.push(STATE_VERSION)?;
        words.push(STATE_MARK)?;
        words.to_bytes(alloc)
    }

    /// The machine whose state these bytes are. Any bytes give a machine that keeps all rules, or are refused; those that
    /// [`to_bytes`](Machine::to_bytes) wrote are refused for memory alone.
    pub fn from_bytes(alloc: Global, bytes: &[u8]) -> Result<Machine, StateError>
        ensures { ReadsStream bytes.now result }
    {
        match Words::from_bytes(alloc, bytes) {
            Ok(words) => from_words(alloc, words),
            Err(error) => Err(damage(error)),
        }
    }
}

/// A law for callers; it runs no code. A state is that of one machine: what was saved comes back.
pub fn states_are_apart()
    ensures { SavedApart }
{}
