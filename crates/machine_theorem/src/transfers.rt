//! The commands that move sectors and are not queued, and how a disk answers them.

ghost use Rattle.machine_theorem.specs.Transfers.{TransfersEndSo};

/// A law for callers; it runs no code. A command that moves sectors, and is not queued, is answered only by its end, or by an error: where a disk hears it
/// while its host waits for nothing, and has heard and answered no other since, and was neither plugged in anew nor reset, an answer that goes next says that
/// the command at the place of those that are not queued ended well, or that the command failed.
pub fn transfers_are_answered()
    ensures { TransfersEndSo }
{
    sata_disk_laws::answers_are_single();
    sata_disk_laws::open_is_under_way();
    sata_disk_laws::singles_are_awaited();
}
