//! SMART READ DATA and READ ATTRIBUTE THRESHOLDS (ACS-3, 7.46): the page that they bring.

ghost use Rattle.std.specs.Prelude.{◌≡◌, length};
ghost use Rattle.disk_pages.specs.Smart.{smart_data};

use crate::bytes::{clear, close};

/// Writes the SMART data of a disk that keeps no attributes: 512 bytes.
#[tactic(auto, unfolding(crate::specs::Smart::smart_data))]
pub fn smart_page(page: &mut [u8])
    requires { length page.old ≡ 512 }
    ensures { page.new ≡ smart_data }
{
    clear(page);
    page[0] = 0x10;
    close(page);
}
