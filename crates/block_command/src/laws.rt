//! Laws over every run of a command.

ghost use Rattle.std.specs.Prelude.{◌≡◌, ◌<◌, List};
ghost use Rattle.block_command.specs.Laws.{EndsAreEarned};

/// A law; it runs no code. Whatever is given to a command and in whatever order, each of its Data FISes has the
/// bytes that the caller gave for its sectors, in order, and the FIS that says that it ended well was earned: for
/// a read all of them went; for a write the caller had stored exactly the bytes that came, in order, at its
/// sectors, and, where the command is to last, had answered a flush asked for after that.
pub fn ends_are_earned()
    ensures { EndsAreEarned }
{}
