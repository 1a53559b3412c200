//! The Data of a queued read go to its own slot.

ghost use Rattle.machine_theorem.specs.OwnSlots.{CarriedWereTaken, PayloadGoesToItsOwnSlot};

/// A law for callers; it runs no code. Over each stretch of a run of a machine from its opening: it begins where none of the FISes of a disk is on its way on
/// a connection that is not over, and the controller has nothing set up for the device. In it nothing is put at the port or taken from it, and the link is
/// not reset; what the device at the port sends is of the connection, and of what comes with the PM Port of the device, and nothing else; and no FIS of it
/// is lost or ignored, and nothing is wrong with any. Then, where a Data FIS of the connection brings bytes for a slot in which a queued read is issued,
/// it was sent at a moment of the stretch; and if a disk sent it for a queued command, the slot is the place of this command at the disk, and the first
/// byte has the number of those that the disk had sent of it before; so each byte is the one of its number that the caller gave for its sectors. Data that
/// go past their table are left out.
pub fn payload_goes_to_its_own_slot()
    ensures { PayloadGoesToItsOwnSlot }
{
    crate::follows::data_follow_setups();
    sata_disk_books::data_are_given();
    sata_disk_books::fises_tell();
    machine_laws::controller_has_its_laws();
    machine_laws::data_rise_unchanged();
    machine_laws::disks_go_on();
    machine_laws::frames_rise_in_order();
    controller_laws::active_falls();
    controller_laws::events_are_core_events();
    controller_laws::issues_fall();
    sata_disk_books::ends_are_of_pages();
}

/// A law for callers; it runs no code. The Data FIS that was taken last, of which payload is written to the guest (`payload_comes_from_devices`), was taken at a
/// moment of the run, and brought those bytes then: what [`payload_goes_to_its_own_slot`] says of that moment it says of what is written.
pub fn carried_data_were_taken()
    ensures { CarriedWereTaken }
{}
