//! One Data FIS, from the medium to the guest.

ghost use Rattle.machine_theorem.specs.Parts.{BytesAreGiven, PartsAreCarried, PartsAreOwn, PayloadIsBrought};

/// A law for callers; it runs no code. Over every run of a machine from its opening: what the caller is told to write to the guest as
/// payload are bytes of a Data FIS that a device sent in this run. A disk sends the next bytes of those that the caller gave for the
/// sectors of the command, or a page that it has of itself. Each byte goes to the place that the table names for it, of the command that
/// was supplied for its slot, and issued there. Before the next FIS is taken, all bytes of the FIS that have a place were written, each
/// once, in order, unless the port was stopped meanwhile. A FIS that brings bytes for a slot is of the device that owns the slot's command:
/// behind a multiplier the one at the port that its PM Port names.
pub fn payload_comes_from_devices()
    ensures brought { PayloadIsBrought }
    ensures given { BytesAreGiven }
    ensures carried { PartsAreCarried }
    ensures own { PartsAreOwn }
{
    sata_disk_books::data_are_given();
    sata_disk_books::commands_are_asked();
    machine_laws::frames_rise_in_order();
    machine_laws::data_rise_unchanged();
    machine_laws::taken_frames_are_lent();
    machine_laws::controller_has_its_laws();
    controller_laws::bytes_go_to_their_places();
}
