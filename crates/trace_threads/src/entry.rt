//! What a line of a scenario asks of a run in threads.

ghost use Rattle.std.specs.Prelude.{◌≡◌, ◌*◌, IfOk, true};
ghost use Rattle.trace_threads.specs.Agendas.{is_fitting_entry, puts_outside};

use std::alloc::Global;
use trace_run::{Common, Sizes};
use trace_text::{Failure, Quantity, Refusal, Wanted, Words};

/// After how many FISes of its device a pull can come at most.
const MOST_FISES: u64 = 0xFFFF_FFFF;

/// What a line asks of a run in threads.
#[derive(Drop)]
pub enum Entry {
    /// What a line may ask in either kind of run.
    Common(Common),
    /// That the next request wait until all earlier ones have ended.
    Barrier,
    /// That the device at this port be pulled, and plugged in again, once it has sent so many FISes.
    Pull(u8, u32),
}

impl Entry {
    /// Reads a line of this name, word by word, for a run of these sizes. A port that is not there is
    /// `range`, and so are bytes outside client memory.
    pub fn read(
        alloc: Global,
        name: &[u8],
        words: &mut Words<'_>,
        sizes: Sizes,
    ) -> Result<Entry, Failure>
        ensures { IfOk result (λ entry.
            is_fitting_entry sizes.ports (1048576 * sizes.memory) entry ≡ true) }
    {
        let last = sizes.ports - 1;
        let entry = match name {
            b"barrier" => Entry::Barrier,
            b"pull" => Entry::Pull(
                words.port(last)?,
                words.number(Quantity::Fises, 0, MOST_FISES)? as u32,
            ),
            _ => Entry::Common(Common::read(alloc, name, words, sizes, last, Wanted::ThreadsLine)?),
        };
        words.end()?;
        if entry.puts_outside(sizes) {
            return Err(words.refused_at(2, Refusal::Range, Wanted::ClientArea));
        }
        Ok(entry)
    }

    /// Whether this puts a byte outside client memory.
    fn puts_outside(&self, sizes: Sizes) -> bool
        ensures { result ≡ puts_outside (1048576 * sizes.memory) self.now }
    {
        match self {
            Entry::Common(Common::Put(at, bytes)) => !sizes.has_client(*at, bytes.as_slice().len()),
            _ => false,
        }
    }
}
