//! ATA strings: texts of a fixed length in IDENTIFY DEVICE data (ACS-3, 3.4.9, ATA string convention).

ghost use Rattle.std.specs.Prelude.{◌≡◌, ℕ, ◌+◌, ◌*◌, ◌<◌, ◌≤◌, IsTrue, length, OnOk};
ghost use Rattle.disk_pages.specs.Texts.{is_text, pair, padded, text_fault, text_of};
ghost use Rattle.std.specs.List.{list_all};
ghost use Rattle.disk_pages.specs.Texts.{is_graphic};

mod saved;

use std::marker::Model;
use thiserror::Error;

/// Why a text cannot stand in the IDENTIFY DEVICE data.
#[derive(Clone, Copy, Debug, PartialEq, Eq, Error)]
pub enum TextFault {
    /// It has more characters than the field.
    #[error("the text is longer than its field")]
    TooLong,
    /// A character is not one of 20h to 7Eh.
    #[error("the text has a character that is not printable ASCII")]
    NotPrintable,
}

/// A text of `N` characters, 20h to 7Eh each. A shorter one is padded with blanks.
#[derive(Clone, Copy, Debug, PartialEq, Eq)]
pub struct IdentityText<const N: usize> {
    chars: [u8; N],
}

impl<const N: usize> Model for IdentityText<N> {
    ghost use Rattle.std.specs.Prelude.{ℕ, List, IsTrue};
    ghost use Rattle.disk_pages.specs.Texts.{is_text};

    ghost Value = { List ℕ };

    ghost view = { λ t. t.chars };

    ghost inverse = { λ v. record { chars = v } };

    ghost invariant = { λ t. IsTrue (is_text t.chars) };
}

/// Words 27 to 46.
pub type ModelNumber = IdentityText<40>;
/// Words 10 to 19.
pub type SerialNumber = IdentityText<20>;
/// Words 23 to 26.
pub type FirmwareRevision = IdentityText<8>;

fn is_text(text: &[u8]) -> bool
    ensures { result ≡ is_text text.now }
{
    text.iter().all(|c| 0x20 <= *c && *c <= 0x7E)
}

fn fault(text: &[u8], room: usize) -> Option<TextFault>
    ensures { result ≡ text_fault room text.now }
{
    if text.len() > room {
        Some(TextFault::TooLong)
    } else if is_text(text) {
        None
    } else {
        Some(TextFault::NotPrintable)
    }
}

/// The text with blanks behind it.
fn pad<const N: usize>(text: &[u8]) -> [u8; N]
    requires { length text.now ≤ N }
    ensures { result ≡ padded N text.now }
{
    let mut chars = [b' '; N];
    chars[..text.len()].copy_from_slice(text);
    chars
}

impl<const N: usize> IdentityText<N> {
    /// The text, padded with blanks.
    pub fn new(text: &str) -> Result<Self, TextFault>
        ensures { result ≡ text_of N text.now }
    {
        let bytes = text.as_bytes();
        if let Some(fault) = fault(bytes, N) {
            return Err(fault);
        }
        let chars = pad(bytes);
        Ok(IdentityText { chars })
    }

    /// The characters, with the blanks.
    pub fn chars(&self) -> &[u8; N]
        ensures chars { result.now ≡ self.now }
        ensures text { IsTrue (is_text self.now) }
    {
        &self.chars
    }

    /// The word of two characters, the first one in bits 15:8.
    pub(crate) fn word(&self, at: usize) -> u16
        requires { 2 * at + 1 < N }
        ensures { result ≡ pair self.now at }
    {
        self.chars[2 * at] as u16 * 256 + self.chars[2 * at + 1] as u16
    }
}
