//! Where the bytes of a Data FIS stand in their command.

ghost use Rattle.sata_disk_books.specs.Counted.{DataAreCounted};
ghost use Rattle.sata_disk_books.specs.Fises.{FisesTell};
ghost use Rattle.sata_disk_books.specs.InTurn.{AsksInTurn, AwaitsWhatItAsked};
ghost use Rattle.sata_disk_books.specs.Taken.{AllDataAreTaken, DataAreTaken};

/// A law. In every run, as the Data FIS of a queued command goes next: the DMA Setup FIS that was sent last named its place, and all Data FISes that
/// were sent since are of this command, and have as many bytes as the books have as sent for it. So a host that adds up the bytes behind a DMA Setup
/// FIS knows where in its command each byte stands.
pub fn data_are_counted()
    ensures { DataAreCounted }
{}

/// A law. Whoever reads the FISes of a disk by their bytes alone, from whatever moment of a run on, knows of each Data FIS of a queued command, as it
/// goes, its place and where in its command its bytes stand: the DMA Setup FIS that came last has the tag, and the Data behind it are of this command
/// alone, as many as the books have as sent. Only where no DMA Setup FIS came since that moment is nothing known.
pub fn fises_tell()
    ensures { FisesTell }
{
    data_are_counted();
    sata_disk_laws::answers_are_single();
}

/// A law. In every run, while a queued command awaits Data of the host: Data that come next are taken for it; the DMA Setup FIS that was sent last named
/// its place, and all Data that were taken for commands since came for it, as many bytes as the books have. So it is from whatever moment on one
/// counts, unless no DMA Setup FIS came since that moment.
pub fn data_are_taken()
    ensures all { AllDataAreTaken }
    ensures since { DataAreTaken }
{}

/// A law. Over each stretch of a run that begins where the disk awaits no Data, and in which it serves queued commands alone: it sends a DMA Setup FIS or
/// a DMA Activate FIS only where nothing is asked for. While a queued command awaits Data, some are asked for, and what was sent and heard in the stretch
/// tells, by itself, that they are of this command, and from which byte on; or no DMA Setup FIS was sent in it.
pub fn data_are_asked_in_turn()
    ensures turns { AsksInTurn }
    ensures awaits { AwaitsWhatItAsked }
{
    data_are_taken();
}
