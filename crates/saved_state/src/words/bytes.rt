//! Words as bytes, and back.

ghost use Rattle.std.specs.Prelude.{◌≡◌, ◌+◌, ◌≤◌, IfOk, drop, length, take};
ghost use Rattle.std.specs.Int.{from_le_bytes, to_le_bytes, w64};
ghost use Rattle.saved_state.specs.Bytes.{AreWords, ReadsBytes, bytes_of};

use super::{RestoreError, Words};
use std::alloc::{AllocError, Global};

impl Words {
    /// All of them as bytes, the word on top first, and of each the lowest byte first.
    pub fn to_bytes(&self, alloc: Global) -> Result<Vec<u8>, AllocError>
        ensures bytes { IfOk result (λ bytes. bytes.items ≡ bytes_of self.now) }
        ensures words { IfOk result (λ _. AreWords self.now) }
    {
        let words = self.words.as_slice();
        let count = words.len();
        let mut bytes = Vec::new(alloc);
        for done in 0..count {
            let word = words[count - 1 - done];
            bytes.extend_from_slice(&word.to_le_bytes())?;
        }
        Ok(bytes)
    }

    /// The words that these bytes are. Bytes that are no whole words are refused.
    pub fn from_bytes(alloc: Global, bytes: &[u8]) -> Result<Words, RestoreError>
        ensures { ReadsBytes bytes.now result }
    {
        if bytes.len() % 8 != 0 {
            return Err(RestoreError::Short);
        }
        let count = bytes.len() / 8;
        let mut words = Vec::new(alloc);
        for done in 0..count {
            let word = word_at(bytes, 8 * (count - 1 - done));
            match words.push(word) {
                Ok(()) => {}
                Err(_) => return Err(RestoreError::OutOfMemory),
            }
        }
        Ok(Words { words })
    }
}

// The word whose first byte stands here.
fn word_at(bytes: &[u8], at: usize) -> u64
    requires { at + 8 ≤ length bytes.now }
    ensures value { result ≡ from_le_bytes w64 (take 8 (drop at bytes.now)) }
    ensures bytes { to_le_bytes w64 result ≡ take 8 (drop at bytes.now) }
{
    let mut eight = [0; 8];
    eight.copy_from_slice(&bytes[at..at + 8]);
    u64::from_le_bytes(eight)
}
