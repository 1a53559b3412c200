//! Laws of the answers.

ghost use Rattle.pm_control.specs.Answers.{CommandsAreAnswered};

/// A law for callers; it runs no code. Each frame that gives a command has an answer, whatever the command
/// and the registers are.
pub fn commands_are_answered()
    ensures { CommandsAreAnswered }
{}
