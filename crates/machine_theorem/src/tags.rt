//! The commands and the ends of one tag.

ghost use Rattle.machine_theorem.specs.Tags.{TagsAreCounted, TagsOfNewDisks};

/// A law for callers; it runs no code. Over every run of a disk, and so of each disk of a machine that was new as it was put at its port: of each
/// tag no more commands ended well than FISes with this tag were heard. The command that is under way at the tag was asked for by a FIS with it,
/// before which as many were heard as ended in all; so where no more than one of those that were heard has not ended, it is the one that was
/// heard last. It is the command that the books have at this place. Whatever FISes come: resets and errors drop commands, and then fewer end.
pub fn tags_are_counted()
    ensures counted { TagsAreCounted }
    ensures disks { TagsOfNewDisks }
{
    sata_disk_laws::answers_are_single();
    sata_disk_laws::open_is_under_way();
}
