//! The laws.

ghost use Rattle.machine_laws.specs.ControllerLaws.{ControllerHasLaws, LinesAreShown, OpensLawful, RunsAreCalls, TurnsWriteNothing, WritesArePlaced};
ghost use Rattle.machine_laws.specs.Controllers.{ControllerGoesOn, OpensDue, StaysDue};
ghost use Rattle.machine_laws.specs.Disks.{DisksAreReached, DisksGoOn, DisksHaveLaws, OpensReached};
ghost use Rattle.machine_laws.specs.Lent.{CarriesTaken, FramesAreHeld, FramesAreLent, OpensHolding};
ghost use Rattle.machine_laws.specs.Ports.{PortsAreApart};

/// A law for callers; it runs no code. What happens at one port, of a disk, of its medium or of a device of the caller's own, leaves all
/// that is at the other ports: the disk there with its commands and its bytes, and the FIS that it was given.
pub fn ports_are_apart()
    ensures { PortsAreApart }
{}

/// A law for callers; it runs no code. Whatever happens to a machine is to each of its disks a list of that disk's own calls: the FISes
/// that its host sent it, the answers that name it, and its own moves. An answer that is late, or that names another disk, is none.
pub fn disks_go_on()
    ensures { DisksGoOn }
{}

/// A law for callers; it runs no code. Over every run of a machine each disk in it is one that some calls of its own led to, so it has
/// the laws of `sata_disk_laws`: the bytes of reads are those that the caller gave, ends are earned, and requests are apart.
pub fn disks_have_their_laws()
    ensures opens { OpensReached }
    ensures reached { DisksAreReached }
    ensures laws { DisksHaveLaws }
{
    sata_disk_laws::ends_are_earned();
    sata_disk_laws::requests_are_apart();
    sata_disk_laws::data_are_named();
}

/// A law for callers; it runs no code. Whatever happens to a machine is to its controller a list of the controller's own calls, in
/// order. What that rests on begins with a new machine and is kept by each deed: the Data FIS that is gathered for a device has as many
/// bytes as the controller waits for.
pub fn controller_goes_on()
    ensures opens { OpensDue }
    ensures due { StaysDue }
    ensures goes { ControllerGoesOn }
{}

/// A law for callers; it runs no code. Over every run of a machine its controller has the laws of `controller_laws`: what was supplied
/// for a slot is its command; the bytes of Data go to the places of that command's table, each once, in order; a bit of PxCI
/// falls only as its own device ends the command, or, of a queued one, answers it, and one of PxSACT as it names the command in Set Device
/// Bits, or as a write stops or clears it; and the line goes as IS and GHC.IE show. What the caller is told to write, and the line that it
/// is told, are of these; no bytes for the guest are handed out but by such a write; and the line is told only while nothing is to be written
/// to the guest, so behind all bytes of the FIS that raised it.
pub fn controller_has_its_laws()
    ensures opens { OpensLawful }
    ensures runs { RunsAreCalls }
    ensures laws { ControllerHasLaws }
    ensures writes { WritesArePlaced }
    ensures turns { TurnsWriteNothing }
    ensures line { LinesAreShown }
{
    controller_laws::events_are_core_events();
    controller_laws::issues_fall();
    controller_laws::active_falls();
    controller_laws::commands_are_supplied();
    controller_laws::bytes_go_to_their_places();
    controller_laws::line_is_told();
    controller_laws::writes_are_placed();
}

/// A law for callers; it runs no code. What the caller is told to write to the guest, a FIS or bytes of its payload, are bytes of the
/// frame that the controller took last: those that are lent. So it is over every run of a machine. The bytes of Data that go to their
/// places are of that frame.
pub fn taken_frames_are_lent()
    ensures opens { OpensHolding }
    ensures held { FramesAreHeld }
    ensures lent { FramesAreLent }
    ensures carries { CarriesTaken }
{
    controller_laws::writes_are_placed();
}
