//! The ends of commands, from the devices to PxSACT and PxCI.

ghost use Rattle.machine_theorem.specs.Completed.{CompletionsAreOfDevices};
ghost use Rattle.machine_theorem.specs.Ends.{EndsAreOfDevices, OthersEndNone};

/// A law for callers; it runs no code. Over every run of a machine from its opening: a bit of PxSACT falls as a FIS is taken only by a Set Device
/// Bits FIS that a device sent in this run and that names the slot; behind a multiplier it is the device at the port that the PM Port names, and
/// it is the device that owns the slot's command, of which all bytes were moved. If it is a disk, then its command of this tag has earned its
/// end: of a read the caller gave all bytes of its sectors, and all were sent; of a write the caller stored all that came, and flushed where they
/// are to last. Nothing else takes such a bit but a write of the guest.
pub fn ends_come_from_devices()
    ensures ends { EndsAreOfDevices }
    ensures others { OthersEndNone }
{
    sata_disk_books::ends_are_of_pages();
    machine_laws::frames_rise_in_order();
    machine_laws::data_rise_unchanged();
    machine_laws::controller_has_its_laws();
    controller_laws::events_are_core_events();
    controller_laws::issues_fall();
    controller_laws::active_falls();
}

/// A law for callers; it runs no code. Over every run of a machine from its opening: a bit of PxCI falls as a FIS is taken, and PxSACT does not show the
/// slot, only by a FIS of the device that owns the slot's command and that ends it: what the FIS is to the device completes the command, after all
/// that happened to it. A command that is not queued is completed by a Register FIS that answers it, as it was sent last and waits, and all bytes
/// of a transfer were moved; or by the last Data of a PIO read. A device sent the FIS in this run, unless it is the multiplier's, with PM Port Fh;
/// behind a multiplier it is the device at the port that the PM Port names. If it is a disk, and says that a command which moves sectors ended
/// well, then this command had earned that.
pub fn completions_are_of_devices()
    ensures { CompletionsAreOfDevices }
{
    sata_disk_books::ends_are_of_pages();
    machine_laws::frames_rise_in_order();
    machine_laws::data_rise_unchanged();
    machine_laws::frames_name_their_port();
    machine_laws::controller_has_its_laws();
    controller_laws::events_are_core_events();
    controller_laws::issues_fall();
    controller_laws::active_falls();
}
