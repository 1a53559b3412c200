//! The laws.

ghost use Rattle.sata_disk_media.specs.Laws.{GivenIsWritten, LoadsBringWhatIsKept, ReadsBringWrites, StoresAreOfWrites};
ghost use Rattle.sata_disk_media.specs.Laws.{UndisturbedIsSpared, WritesAreKept};
ghost use Rattle.sata_disk_media.specs.Settled.{WritesAreSettled};

/// A law. In every run with an honest medium each whole sector of the Data FIS of a read that goes next has the bytes that the medium was
/// known to keep as the load that brought it was answered.
pub fn loads_bring_what_is_kept()
    ensures { LoadsBringWhatIsKept }
{
    sata_disk_books::data_are_given();
}

/// A law. In every run, as the FIS goes that says that a write ended well, the medium keeps at each of its sectors the bytes that came for
/// it: no store of another command and no discard disturbed them.
pub fn writes_are_kept()
    ensures { WritesAreKept }
{}

/// A law. In every run, as the FIS goes that says that a write ended well, each store and each discard of a sector of it that was asked for was answered,
/// also one that a plug, a reset or an error dropped while it was out. So nothing that was asked for before can still change what the write stored.
pub fn writes_are_settled()
    ensures { WritesAreSettled }
{
    sata_disk_laws::requests_are_apart();
    sata_disk_laws::discards_are_alone();
    writes_are_kept();
}

/// A law. In every run a store of a sector is asked for only for a write in the books that has it and is under way.
pub fn stores_are_of_writes()
    ensures { StoresAreOfWrites }
{}

/// A law. In every run with an honest medium a read that is heard after the end of a write went brings the bytes that came for that write,
/// at each sector of which no other store and no discard was asked for in between.
pub fn reads_bring_writes()
    ensures { ReadsBringWrites }
{
    loads_bring_what_is_kept();
    writes_are_kept();
}

/// A law. In every run with an honest medium what the caller gave for a read that is heard after the end of a write went has the bytes that
/// came for that write, at each sector of which no other store and no discard was asked for in between, whether Data of it went or not.
pub fn reads_are_given_writes()
    ensures { GivenIsWritten }
{
    writes_are_kept();
}

/// A law. In every run, where no write that has a sector is under way and no discard waits, nothing asks for a store or a discard of it.
pub fn undisturbed_is_spared()
    ensures { UndisturbedIsSpared }
{
    stores_are_of_writes();
}
