//! What a driver reads in the IDENTIFY DEVICE data.

ghost use Rattle.disk_pages.specs.Identity.{identity};
ghost use Rattle.disk_pages.specs.Readings.{IsIdentityOf};

use crate::identity::name_number;
use crate::profile::Profile;
use ata_command::Settings;

/// In the page that [`identify`](crate::identify) writes a driver finds the disk's names, its sectors, what it does and what
/// is set, and a checksum that is right.
pub fn identity_is_read(profile: &Profile, settings: &Settings)
    ensures { IsIdentityOf profile.now settings.now (identity profile.now settings.now) }
{
    profile.serial.chars();
    profile.firmware.chars();
    profile.model.chars();
    profile.capacity.sectors();
    name_number(profile);
    profile.depth.commands();
    settings.multiple.sectors();
}
