//! The laws.

ghost use Rattle.controller_laws.specs.Active.{ActiveBitsFall};
ghost use Rattle.controller_laws.specs.Carrying.{AllAreSaid, BytesAreSaid, DataIsOwn, DataIsWhole, SaidOfData};
ghost use Rattle.controller_laws.specs.CoreEvents.{EventsAreCoreEvents};
ghost use Rattle.controller_laws.specs.Ends.{HistoriesGoOn, IssuesFall, OpensUntold};
ghost use Rattle.controller_laws.specs.Interrupts.{LineIsKept, LineIsTold, OpensLatched, PendingFalls, PendingRises};
ghost use Rattle.controller_laws.specs.Interrupts.{StaysLatched};
ghost use Rattle.controller_laws.specs.Places.{WritesArePlaced};
ghost use Rattle.controller_laws.specs.Rounds.{CommandsComeRound};
ghost use Rattle.controller_laws.specs.Sources.{CommandsAreSupplied, CoreHasSupplied, StartsUnread};

/// A law for callers; it runs no code. Take any list of calls of a controller. What they do to its core is a list of the
/// core's events, in order and number, each port in between keeps the rules of every one, and what is received is a frame. So
/// every law of `hba_laws` about runs of a core is one about controllers: histories, reports, isolation, causes.
pub fn events_are_core_events()
    ensures { EventsAreCoreEvents }
{}

/// A law for callers; it runs no code. A bit of PxCI falls only as the slot's own device ends its command, by an event of its
/// history: it completes, all of its bytes having moved, or was a Control and went, or the device was cleared or reset; or as
/// its device answers a queued command, which PxSACT shows still; or as a write stops or resets the port. No device of a
/// controller that opens has a history yet, and each call adds its events.
pub fn issues_fall()
    ensures falls { IssuesFall }
    ensures opens { OpensUntold }
    ensures told { HistoriesGoOn }
{
    hba_laws::core_delivers();
}

/// A law for callers; it runs no code. What [`next`](ahci_controller::Controller::next) writes to the guest is bytes of the
/// frame that was taken, each at the place that the command's table names, as it was supplied, or the frame itself, or PRDBC
/// in the header of a command whose bytes were moved; and nothing else is written.
pub fn writes_are_placed()
    ensures { WritesArePlaced }
{}

/// A law for callers; it runs no code. The command of a slot is what was supplied for it since its bit of PxCI was written:
/// its header, its FIS and its entries, one part after another, each as long as it was wanted. Whatever is supplied for other
/// slots or later, and whatever the guest writes meanwhile, none of it is in the command. What the core issued in the slot is
/// this command. From a slot that is not pending on, its sources go on over every call.
pub fn commands_are_supplied()
    ensures starts { StartsUnread }
    ensures supplied { CommandsAreSupplied }
    ensures core { CoreHasSupplied }
{
    guest_fetch::commands_are_what_was_supplied();
}

/// A law for callers; it runs no code. Over every list of calls, what [`next`](ahci_controller::Controller::next) and
/// [`next_write`](ahci_controller::Controller::next_write) write for a Data FIS are the bytes behind its header, each once, in
/// order, each at the place that the table names for its offset in the command, as it was supplied. The FIS was taken in these
/// calls, of the device that owns the command. All bytes that have a place are written before the next FIS is taken, unless a
/// write stopped the port.
pub fn bytes_go_to_their_places()
    ensures own { DataIsOwn }
    ensures whole { DataIsWhole }
    ensures said { BytesAreSaid }
    ensures taken { SaidOfData }
    ensures all { AllAreSaid }
{}

/// A law for callers; it runs no code. Over every list of calls, a caller that follows what it is told keeps the line that IS
/// and GHC.IE show, and each change of the line is told once. While a cause is enabled, IS.IPS is 1. It rises only while one
/// is, and falls only by a one that is written to it, or by a reset of the controller.
pub fn line_is_told()
    ensures told { LineIsTold }
    ensures kept { LineIsKept }
    ensures opens { OpensLatched }
    ensures latched { StaysLatched }
    ensures rises { PendingRises }
    ensures falls { PendingFalls }
{}

/// A law for callers; it runs no code. A bit of PxSACT falls only by a Set Device Bits FIS of the slot's own device that
/// names it, once all bytes of its command were moved, or by a write that clears or resets the device, or stops the port. No
/// frame of another device takes it, and no other call does.
pub fn active_falls()
    ensures { ActiveBitsFall }
{
    hba_laws::core_delivers();
}

/// A law for callers; it runs no code. Take any list of calls over which a command may go whenever one does, and never does
/// itself. At most 31 commands go in it.
pub fn commands_come_round()
    ensures { CommandsComeRound }
{
    ahci_controller::turns_come_round();
}
