//! Sets of places, by what is next for their commands.

ghost use Rattle.std.specs.Prelude.{◌≡◌, ◌<◌, false};
ghost use Rattle.block_queue.specs.Line.{has_bit, starts};
ghost use Rattle.block_disk.specs.Requests.{is_fis, is_request};
ghost use Rattle.block_scheduler.specs.Sets.{IsNoted, IsWith, IsWithTag, is_end, is_fail, no_sets};

use block_command::Turn;

/// The places whose commands wait for their start, are to ask for a request, send a FIS alone, or say their end
/// together. Bit n of a set is place n.
#[derive(Clone, Copy, Debug, PartialEq, Eq)]
pub struct Sets {
    /// They wait for their start.
    pub waiting: u64,
    /// They are to ask for a request.
    pub asking: u64,
    /// They are to send a FIS that is theirs alone.
    pub sending: u64,
    /// Queued commands that are to say that they ended well.
    pub ending: u32,
}

/// A set with or without a place.
pub(crate) fn with_place(set: u64, place: u8, is: bool) -> u64
    requires { place < 33 }
    ensures { IsWith set result place is }
{
    if is {
        set | 1 << place
    } else {
        set & !(1 << place)
    }
}

/// A set of tags with or without a place, if it is a tag.
fn with_tag(tags: u32, place: u8, is: bool) -> u32
    requires { place < 33 }
    ensures { IsWithTag tags result place is }
{
    if place == 32 {
        tags
    } else if is {
        tags | 1 << place
    } else {
        tags & !(1 << place)
    }
}

/// Tags as places: the place that is no tag is not among them.
pub(crate) fn places_of(tags: u32) -> u64
    ensures same { result ≡ tags }
    ensures last { has_bit result 32 ≡ false }
{
    tags as u64
}

/// Whether this says that a command ended well.
fn is_end(turn: Turn) -> bool
    ensures { result ≡ is_end turn }
{
    matches!(turn, Turn::End)
}

/// Whether this says that a command failed.
pub(crate) fn is_fail(turn: Turn) -> bool
    ensures { result ≡ is_fail turn }
{
    matches!(turn, Turn::Fail)
}

/// Whether this is a start.
fn is_start(turn: Turn) -> bool
    ensures { result ≡ starts turn }
{
    matches!(turn, Turn::Start)
}

/// Whether this is a request.
fn is_request(turn: Turn) -> bool
    ensures { result ≡ is_request turn }
{
    matches!(turn, Turn::Load | Turn::Store | Turn::Flush)
}

/// Whether this is a FIS.
fn is_fis(turn: Turn) -> bool
    ensures { result ≡ is_fis turn }
{
    matches!(
        turn,
        Turn::SetUp | Turn::Announce | Turn::Data | Turn::Activate | Turn::End | Turn::Fail
    )
}

impl Sets {
    /// No command is under way.
    pub fn new() -> Sets
        ensures { result ≡ no_sets }
    {
        Sets {
            waiting: 0,
            asking: 0,
            sending: 0,
            ending: 0,
        }
    }

    /// The sets once this is next at a place.
    pub fn noted(self, place: u8, turn: Turn) -> Sets
        requires { place < 33 }
        ensures { IsNoted self result place turn }
    {
        let ends = is_end(turn);
        let alone = is_fis(turn) && !(place < 32 && ends);
        Sets {
            waiting: with_place(self.waiting, place, is_start(turn)),
            asking: with_place(self.asking, place, is_request(turn)),
            sending: with_place(self.sending, place, alone),
            ending: with_tag(self.ending, place, ends),
        }
    }
}
