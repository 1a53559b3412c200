//! That no feature is claimed without its commands, and that the decoder of `ata_command` serves them.

ghost use Rattle.ata_command.specs.declared.settings.Settings.{Settings};
ghost use Rattle.disk_pages.specs.Claims.{AreDecoded, AreWhole};
ghost use Rattle.disk_pages.specs.declared.profile.Profile.{Profile};

/// Each bit of words 82 to 84 and 169 that any disk sets stands in the table of claims, with the commands that it promises; and each
/// mode of words 63 and 88, and each feature of word 78, in that of SET FEATURES, with the subcommands that set it.
pub fn claims_are_whole()
    ensures { (p : Profile) (s : Settings) → AreWhole p s }
{}

/// Each command that a set bit promises is one that the decoder of this disk, [`ata_command::Asked::of`], serves; and SET FEATURES
/// sets each mode and feature that the data name.
pub fn claims_are_decoded(profile: &crate::profile::Profile, settings: ata_command::Settings)
    ensures { AreDecoded profile.now settings }
{
    profile.capacity.sectors();
    profile.depth.commands();
}
