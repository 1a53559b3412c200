//! What a disk sends, with the slot from which its command came.

ghost use Rattle.machine_theorem.specs.Moments.{CompletionsAreEarned, DataAreOfSlots, EndedAtMoments, EndsAreOfSlots, PayloadIsOfSlots, SentAtMoments};

/// A law for callers; it runs no code. Over every run of a machine from its opening: the Data that a disk sends for a command are the next bytes
/// that the caller gave for its sectors, and this command is one that the controller sent from a slot, as the guest had it there; of a queued one
/// the tag in its FIS is the tag of the Data. A command of which a disk says that it ended well has earned that, and came from a slot, too. So the
/// payload that the caller is told to write to the guest was sent at a moment of the run, of such a command; and where a bit of PxSACT falls as a
/// FIS is taken, it was sent at a moment of the run at which the disk's command of this tag had earned its end. A disk that had commands as it was
/// put at its port is left out (`commands_come_from_slots` has it).
pub fn data_are_of_slots()
    ensures given { DataAreOfSlots }
    ensures ends { EndsAreOfSlots }
    ensures sent { SentAtMoments }
    ensures ended { EndedAtMoments }
    ensures payload { PayloadIsOfSlots }
    ensures completed { CompletionsAreEarned }
{
    crate::commands::commands_come_from_slots();
    crate::ends::ends_come_from_devices();
    crate::parts::payload_comes_from_devices();
    sata_disk_books::data_are_given();
    sata_disk_books::ends_are_of_pages();
}
