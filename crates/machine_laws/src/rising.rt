//! What the devices send goes to the controller in order.

ghost use Rattle.machine_laws.specs.Marks.{GoesOnMarked, OpensMarked, PortFramesAreSent};
ghost use Rattle.machine_laws.specs.Rising.{ConnectionsLast, DataAreSent, DataCarryParts, FramesAreOver, FramesAreTaken, FramesRise, GoesOnRising, NamingAreSent, OpensRising, PullsEnd, ResetsEnd};

/// A law for callers; it runs no code. Over every run of a machine, for each port and each connection of its device: the FISes that came
/// to the controller, and then those that are on their way, are those that the device sent, in order, each once; only the PM Port field
/// of each is written. What is missing waited at the port as the connection ended. Of a connection that is over nothing more comes, but
/// a FIS that had left its port. What comes is what the controller takes or lets go, in order.
pub fn frames_rise_in_order()
    ensures opens { OpensRising }
    ensures goes { GoesOnRising }
    ensures order { FramesRise }
    ensures over { FramesAreOver }
    ensures taken { FramesAreTaken }
{
    fan_out::fans_pass_in_order();
    fan_out::a_renewed_fan_is_empty();
}

/// A law for callers; it runs no code. Each Data FIS that comes to the controller is one that a device sent, and behind a multiplier one
/// of the port that its PM Port names: the multiplier's own FISes are none. One that a disk sends has the bytes that are next of its
/// command, of which the laws of the disk speak, and no byte of them changes on the way. So is each Set Device Bits FIS that names a slot.
pub fn data_rise_unchanged()
    ensures sent { DataAreSent }
    ensures naming { NamingAreSent }
    ensures parts { DataCarryParts }
{
    fan_out::fans_pass_in_order();
}

/// A law for callers; it runs no code. Behind a multiplier each FIS that comes to the controller has the PM Port of its stamp, those of the
/// control port too. Each that has the stamp of a device port is one that a device sent, whatever its type.
pub fn frames_name_their_port()
    ensures opens { OpensMarked }
    ensures goes { GoesOnMarked }
    ensures sent { PortFramesAreSent }
{
    fan_out::fans_pass_in_order();
    fan_out::a_renewed_fan_is_empty();
}

/// A law for callers; it runs no code. A connection of a device ends as the device is pulled or taken away, as its port leaves a reset by
/// SControl, and as the link is reset, which ends all. Nothing else ends one: whatever else happens, at its port or at another, leaves it.
pub fn connections_end()
    ensures last { ConnectionsLast }
    ensures pulls { PullsEnd }
    ensures resets { ResetsEnd }
{
    fan_out::a_reset_ends_the_connection();
}
