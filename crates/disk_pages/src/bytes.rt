//! The checksum of a page.

ghost use Rattle.std.specs.Prelude.{◌≡◌, ◌≤◌, length, take};
ghost use Rattle.disk_pages.specs.Bytes.{blank, checksum, closed};

/// The byte that makes the sum of these bytes and itself 0 modulo 256.
#[tactic(auto, unfolding(crate::specs::Bytes::checksum))]
fn checksum_of(bytes: &[u8]) -> u8
    requires { length bytes.now ≤ 65536 }
    ensures { result ≡ checksum bytes.now }
{
    let mut sum: u32 = 0;
    for byte in bytes {
        sum += *byte as u32;
    }
    ((256 - sum % 256) % 256) as u8
}

/// Writes the last byte of a page of 512 bytes: the checksum of the others.
#[tactic(auto, using(crate::proofs::ByteLemmas::set_last))]
pub(crate) fn close(page: &mut [u8])
    requires { length page.old ≡ 512 }
    ensures { page.new ≡ closed (take 511 page.old) }
{
    page[511] = checksum_of(&page[..511]);
}

/// Makes all bytes 0.
#[tactic(auto, unfolding(crate::specs::Bytes::blank))]
pub(crate) fn clear(page: &mut [u8])
    requires { length page.old ≡ 512 }
    ensures { page.new ≡ blank }
{
    page.fill(0);
}
