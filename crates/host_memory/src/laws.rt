//! Laws of PRD tables.

ghost use Rattle.host_memory.specs.Place.{ScattersAtPlaces, ScattersOneByOne};
ghost use Rattle.host_memory.specs.Reading.{TablesAreOfTheirBytes, TablesStay};

/// A law for callers; it runs no code. The refusal and the entries of a table in the structure area depend
/// only on the 16 bytes of each entry and on the length of the client area. Writes elsewhere in the structure
/// area change neither.
pub fn tables_are_of_their_bytes()
    ensures bytes_tell { TablesAreOfTheirBytes }
    ensures others_do_not { TablesStay }
{}

/// A law for callers of [`PrdTable::scatter`](crate::PrdTable::scatter); it runs no code. For a sound table
/// and a run that fits, a scatter leaves what single writes leave, each byte written at its own place.
pub fn scatters_are_single_writes()
    ensures one_by_one { ScattersOneByOne }
    ensures at_places { ScattersAtPlaces }
{}
