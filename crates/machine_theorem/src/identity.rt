//! The command under a tag, and the one in the slot of this number.

ghost use Rattle.machine_theorem.specs.Identity.{CommandsAreTheSlots};

/// A law for callers; it runs no code. Over each stretch of a run of a machine from its opening: it begins at any moment at which the disk at a port
/// has no command under a tag, no FIS is on the link down and none waits for it, no FIS of the port that names the tag is on its way to the controller,
/// and no queued command that was sent stands in the slot of this number, whatever was before. In it the guest keeps to the standard: a FIS that asks the disk for a queued
/// command with the tag is that of a queued command in the slot of this number, and no write takes a bit of such a slot out of PxSACT; the link and
/// the connection of the disk last. Then at the end of it a command that is under way at the disk under the tag is the one that stands in the slot:
/// there a queued command for the disk stands that was sent; of the FISes that the controller sent to the disk, the disk heard each that asks for the
/// tag, in order, byte for byte but for the PM Port; and its command is what the last of them asks for. So nothing is on its way of an earlier one,
/// and the slot is not free before the disk ended its command.
pub fn slots_name_their_disks_commands()
    ensures { CommandsAreTheSlots }
{
    crate::ends::ends_come_from_devices();
    crate::orders::commands_are_sent_once();
    sata_disk_books::ends_are_of_pages();
    sata_disk_laws::answers_are_single();
    sata_disk_laws::open_is_under_way();
    machine_laws::controller_goes_on();
    machine_laws::controller_has_its_laws();
    machine_laws::data_rise_unchanged();
    machine_laws::disks_go_on();
    machine_laws::frames_fall_in_order();
    machine_laws::frames_rise_in_order();
    machine_laws::sent_frames_are_supplied();
    controller_laws::events_are_core_events();
    controller_laws::issues_fall();
    controller_laws::active_falls();
}
