//! A header as words, and back.

ghost use Rattle.std.specs.Prelude.{◌≡◌};
ghost use Rattle.guest_fetch.specs.Saved.{header_words, is_header as is_header_of, is_taken as is_taken_of};

use super::{Header, refusal_of};
use saved_state::{RestoreError, Saved, Words};
use std::alloc::{AllocError, Global};

type Parts = ((u16, u8, u8), (bool, bool, bool), u64);

// Whether it is like one that was read.
fn is_header(header: &Header) -> bool
    ensures { result ≡ is_header_of header.now }
{
    u32::from(header.entries) < 0x1_0000
        && header.table <= u64::MAX - 0x7F
        && header.pm_port < 16
        && header.dwords < 32
}

// Whether it is one that is taken.
pub(crate) fn is_taken(header: &Header) -> bool
    ensures { result ≡ is_taken_of header.now }
{
    is_header(header) && refusal_of(header).is_none()
}

impl Saved for Header {
    ghost put = { header_words.put };

    ghost keeps = { header_words.keeps };

    ghost told_apart = { header_words.apart };

    fn save(&self, words: &mut Words) -> Result<(), AllocError> {
        let counts = (self.entries, self.pm_port, self.dwords);
        let flags = (self.clear, self.write, self.packet);
        (counts, flags, self.table).save(words)
    }

    fn restore(alloc: Global, words: &mut Words) -> Result<Header, RestoreError> {
        match <Parts>::restore(alloc, words) {
            Ok(((entries, pm_port, dwords), (clear, write, packet), table)) => Ok(Header {
                entries,
                pm_port,
                clear,
                write,
                packet,
                dwords,
                table,
            }),
            Err(error) => Err(error),
        }
    }
}
