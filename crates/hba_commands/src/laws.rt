//! Laws of commands.

ghost use Rattle.hba_commands.specs.Commands.{CommandsAreOfTheirBytes, CommandsStay};

/// A law for callers of [`Command::read`](crate::Command::read); it runs no code. The command of a slot
/// depends only on the 32 bytes of its header, on the bytes of its command table (80h, and 16 for each PRD)
/// and on the length of the client area. Writes elsewhere in memory change no command.
pub fn commands_are_of_their_bytes()
    ensures bytes_tell { CommandsAreOfTheirBytes }
    ensures others_do_not { CommandsStay }
{}
