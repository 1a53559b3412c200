//! The last Data FIS of a PIO data-in.

ghost use Rattle.sata_disk_books.specs.LastData.{LastBlocksAreAlone, LastDataAreEarned};

/// A law. A PIO data-in is ended by its last Data FIS, and no other follows. In every run, where the Data of a command that moves sectors go while the host
/// waits for the last ones: this command is a read, the caller gave all bytes of its sectors, and behind this FIS all were sent. And behind the PIO Setup FIS
/// of a last block no Data of a queued command go until another command is heard: no queued command is open beside a PIO data-in.
pub fn last_data_end_reads()
    ensures earned { LastDataAreEarned }
    ensures alone { LastBlocksAreAlone }
{
    sata_disk_laws::answers_are_single();
    sata_disk_laws::open_is_under_way();
    sata_disk_laws::singles_are_awaited();
}
