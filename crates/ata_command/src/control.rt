//! Which commands may stand beside which, and the software reset.

ghost use Rattle.std.specs.Prelude.{◌≡◌};
ghost use Rattle.ata_command.specs.Courses.{course, is_error_log, is_queued_free, is_tag_free, resets, tag_course};

use crate::asked::Asked;
use fis_view::RegH2D;

/// What stands at a disk as a command comes.
#[derive(Clone, Copy, Debug, PartialEq, Eq)]
pub enum Standing {
    /// SRST is set.
    Reset,
    /// A command that is not queued is under way.
    Single,
    /// An error ended all queued commands, and the host has not read the NCQ Command Error log.
    Error,
    /// The queued commands of these tags are under way, bit n for tag n. With 0 nothing is.
    Queued(u32),
}

/// What becomes of a command.
#[derive(Clone, Copy, Debug, PartialEq, Eq)]
pub enum Course {
    /// It is not heard: the host sends none here.
    Drop,
    /// It is refused, and leaves all else as it is.
    Refuse,
    /// It is refused, and ends all queued commands.
    AbortAll,
    /// It is taken, or refused for itself: an error of a queued command is its own then.
    Take,
}

/// Whether a tag is in none of a set.
fn is_tag_free(tags: u32, place: u8) -> bool
    ensures { result ≡ is_tag_free tags place }
{
    place < 32 && tags >> place & 1 == 0
}

/// Whether it is the tag of a queued command, and in none of a set.
fn is_queued_free(tags: u32, tag: Option<u8>) -> bool
    ensures { result ≡ is_queued_free tags tag }
{
    match tag {
        None => false,
        Some(tag) => is_tag_free(tags, tag),
    }
}

/// Whether it is the NCQ Command Error log.
fn is_error_log(asked: &Asked) -> bool
    ensures { result ≡ is_error_log asked.now }
{
    match asked {
        Asked::ReadsLog(page) => page.log == 0x10 && page.page == 0 && page.count == 1,
        _ => false,
    }
}

/// What becomes of a command beside queued ones.
fn beside(asked: &Asked, tags: u32) -> Course
    ensures { result ≡ tag_course asked.now tags }
{
    match asked {
        Asked::Moves(moved) if is_tag_free(tags, moved.command.place) => Course::Take,
        Asked::Refused(refusal) if is_queued_free(tags, refusal.tag) => Course::Take,
        _ => Course::AbortAll,
    }
}

/// What becomes of a command.
pub fn course_of(asked: &Asked, standing: Standing) -> Course
    ensures { result ≡ course asked.now standing }
{
    match standing {
        Standing::Reset | Standing::Single => Course::Drop,
        Standing::Error => if is_error_log(asked) {
            Course::Take
        } else {
            Course::Refuse
        },
        Standing::Queued(0) => Course::Take,
        Standing::Queued(tags) => beside(asked, tags),
    }
}

/// Whether a Register FIS with C 0 sets SRST, bit 2 of Control; else it clears it.
pub fn resets(fis: &RegH2D<'_>) -> bool
    ensures { result ≡ resets fis.now }
{
    fis.control() / 4 % 2 == 1
}
