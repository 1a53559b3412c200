//! Laws of commands and their bytes.

ghost use Rattle.guest_fetch.specs.Places.{DataAreOneTransfer, GoesOnlyToItsTable};
ghost use Rattle.guest_fetch.specs.Reading.{CommandIsOfItsParts};
ghost use Rattle.guest_fetch.specs.Runs.{CommandIsWhatWasSupplied, CountIsOfBytes};

/// A law of [`Table::moves`](crate::Table::moves); it runs no code. Each byte of a payload goes to the address of a byte of
/// the command that the table names: from the payload's offset on, no further than the payload is long, and never past the
/// command's own bytes.
pub fn bytes_go_only_to_their_table()
    ensures { GoesOnlyToItsTable }
{}

/// A law of [`Table::moves`](crate::Table::moves); it runs no code. The moves of a payload, and of the one that goes on
/// where it ended, are together those of both payloads as one: no byte is left out between them, and none has two places.
pub fn data_are_one_transfer()
    ensures { DataAreOneTransfer }
{}

/// A law of [`Fetch`](crate::Fetch); it runs no code. Whatever was supplied at each place: after header, FIS and at most as
/// many parts as there are entries, a command is whole, or refused, as all that lies there has it. In which parts it came
/// makes no difference.
pub fn commands_are_of_their_parts()
    ensures { CommandIsOfItsParts }
{}

/// A law of [`Fetch`](crate::Fetch); it runs no code. Once all of a command has come, it is what was supplied, part by part,
/// and nothing else is in it.
pub fn commands_are_what_was_supplied()
    ensures { CommandIsWhatWasSupplied }
{}

/// A law of [`Command::count`](crate::Command::count); it runs no code. After Data one after another from the command's
/// first byte on, PRDBC is the number of their bytes, but for those that have no place.
pub fn counts_are_of_bytes()
    ensures { CountIsOfBytes }
{}
