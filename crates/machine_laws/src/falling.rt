//! What the controller sent, and what the devices hear.

ghost use Rattle.machine_laws.specs.Feeding.{DataIsAskedInOrder, DataIsRead, DataIsWhatCame, OpensUnread, OrdersAreIssued, OrdersAreOfSlots};
ghost use Rattle.machine_laws.specs.Falling.{BegunForgets, DisksHearThem, FramesGoWhereTheyShould, LinksPassInOrder, PortsPassInOrder, ResetsEmptyLinks, ResetsEmptyPorts};

/// A law for callers; it runs no code. The FISes that the device at a port hears are those that the controller sent to it, in order, byte
/// for byte but for the PM Port, which is 0 there. What the controller sent arrives at the other end of its link, each FIS once, unless
/// the link is reset; each goes from there to the port that it names, if that forwards and a device is there; and what fell to a port is
/// heard there, as long as the connection of its device lasts.
pub fn frames_fall_in_order()
    ensures links { LinksPassInOrder }
    ensures resets { ResetsEmptyLinks }
    ensures passes { FramesGoWhereTheyShould }
    ensures ports { PortsPassInOrder }
    ensures heard { DisksHearThem }
    ensures begins { BegunForgets }
    ensures renews { ResetsEmptyPorts }
{}

/// A law for callers; it runs no code. Each FIS that the controller sends has the bytes that were supplied. The FIS of a command is the one
/// that was supplied for its slot and issued there, a software reset's too. A Data FIS has its head and then what came for it: the bytes
/// that the caller gave to each [`ReadGuest`](ahci_machine::Request::ReadGuest) of it, in order, each asked for where the table of the
/// command in its slot says. Bytes that are late, or that are given twice, are none of it.
pub fn sent_frames_are_supplied()
    ensures orders { OrdersAreIssued }
    ensures slots { OrdersAreOfSlots }
    ensures opens { OpensUnread }
    ensures read { DataIsRead }
    ensures whole { DataIsWhatCame }
    ensures asked { DataIsAskedInOrder }
{
    controller_laws::commands_are_supplied();
}
