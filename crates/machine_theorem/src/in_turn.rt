//! The commands that a disk hears, and the answers that it sends.

ghost use Rattle.machine_theorem.specs.InTurn.{CommandsGoInTurn};

/// A law for callers; it runs no code. Over each stretch of calls of a disk that begins while its host waits for nothing, and in which it is not plugged in
/// anew and no software reset begins: it answers no more commands by a Register FIS, queued or not, than it heard, and where it answered all, its host waits
/// for nothing. An answer that goes next is that of a
/// command of the stretch before which as many were heard as were answered in all; so if no more than one of those that were heard was not answered, it is
/// the one that was heard last. Where the disk says by it that a command which is not queued ended well, this command is what the FIS asked for.
pub fn commands_go_in_turn()
    ensures { CommandsGoInTurn }
{
    sata_disk_laws::answers_are_single();
    sata_disk_laws::open_is_under_way();
    sata_disk_laws::singles_are_awaited();
}
