//! A slot has one command at a time.

ghost use Rattle.machine_theorem.specs.Standing.{CommandsStand, IssuesAreAlone, NoneIsIssuedBeside};

/// A law for callers; it runs no code. A command is issued only in a slot where none is issued, and whose bit of PxCI is 1. Over every run of a
/// machine from its opening: as long as this bit has been 1 since then, or of a queued command its bit of PxSACT, no other command is issued in
/// the slot. So the command that a disk has, and that was sent from the slot since, is the one that the guest had supplied for that issue.
pub fn slots_have_one_command()
    ensures alone { IssuesAreAlone }
    ensures beside { NoneIsIssuedBeside }
    ensures commands { CommandsStand }
{
    machine_laws::controller_goes_on();
    machine_laws::controller_has_its_laws();
}
