//! A caller of a SATA disk that knows what its Data are, if its medium keeps what it was told to keep.
#![tactic(auto)]

ghost use Rattle.sata_disk.specs.Sending.{IsOut};
ghost use Rattle.uses_sata_disk_media.specs.Kept.{BringsWhatIsWritten, IsGivenWhatIsWritten, KeepsWhatIsWritten};
ghost use Rattle.uses_sata_disk_media.specs.Kept.{SettlesWhatIsWritten};

use sata_disk::{Out, SataDisk};
use sata_disk_media::{
    reads_are_given_writes, reads_bring_writes, writes_are_kept, writes_are_settled,
};

/// The FIS that goes next. Whatever run with an honest medium led to the disk: Data have, at each sector of a write that ended before the
/// command was heard, the bytes of that write; and where the FIS says that a write ended well, the medium keeps the bytes of that write,
/// and nothing is out that could still change them.
pub fn next(disk: &SataDisk) -> Option<Out>
    ensures next { IsOut disk.now result }
    ensures brings { BringsWhatIsWritten disk.now result }
    ensures keeps { KeepsWhatIsWritten disk.now result }
    ensures settles { SettlesWhatIsWritten disk.now result }
{
    reads_bring_writes();
    writes_are_kept();
    writes_are_settled();
    disk.next_out()
}

/// What the caller knows of its reads; it runs no code. Whatever run with an honest medium led to the disk: what it gave for a read has, at each
/// sector of a write that ended before the command was heard, the bytes of that write.
pub fn knows_reads(disk: &SataDisk)
    ensures { IsGivenWhatIsWritten disk.now }
{
    reads_are_given_writes();
}
