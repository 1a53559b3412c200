//! Laws: what holds of the driver over ticks, and over turns of the host from its opening.

ghost use Rattle.hba_driver.specs.Absent.{EachWasAbsent};
ghost use Rattle.hba_driver.specs.Accepted.{WritesAreAccepted};
ghost use Rattle.hba_driver.specs.Addressed.{FramesAreAddressed};
ghost use Rattle.hba_driver.specs.Delivered.{TurnsDeliver};
ghost use Rattle.hba_driver.specs.Done.{DoneIsTrue};
ghost use Rattle.hba_driver.specs.Events.{EachRunTells, HostsAreSound, TurnsAreEvents};
ghost use Rattle.hba_driver.specs.Faults.{ErrorsAreNamed};
ghost use Rattle.hba_driver.specs.Going.{FaultsNeverStop, PortsGoOn};
ghost use Rattle.hba_driver.specs.Held.{TurnsHoldWrites};
ghost use Rattle.hba_driver.specs.Known.{DevicesAreKnown};
ghost use Rattle.hba_driver.specs.Laws.{CommandsStand, DoneIsFree, EachRunKeeps, TicksKeep, TicksServe};
ghost use Rattle.hba_driver.specs.Queued.{RequestsStay};
ghost use Rattle.hba_driver.specs.Reported.{DoneWasReported};
ghost use Rattle.hba_driver.specs.Resetting.{EachResetIsDriven};
ghost use Rattle.hba_driver.specs.Scans.{ScansClear};
ghost use Rattle.hba_driver.specs.Served.{TurnsServe};
ghost use Rattle.hba_driver.specs.Slot30.{EachIsApart, NoneIsArmed};
ghost use Rattle.hba_driver.specs.Slot31.{OrdersTakeTurns};
ghost use Rattle.hba_driver.specs.Steady.{EachIsSteady};
ghost use Rattle.hba_driver.specs.Tended.{EachIsTended};

/// A tick takes no request and gives none away. It gives no ticket, and ends no request twice. The call runs
/// no code.
pub fn ticks_keep()
    ensures { TicksKeep }
{}

/// A request is issued only if it waits and its device is ready. In the tick of its flush, a device stops
/// being ready and has no open request. In the tick that clears its fault, it recovers, and none of its
/// requests waits or is issued. When the port is stopped, every request ends. The call runs no code.
pub fn ticks_serve()
    ensures { TicksServe }
{}

/// Over every list of turns of the host, from any sound state: tickets are given one after another, and each
/// is issued and polled at most once. A request stays in its slot and only goes on until it is polled there.
/// Two requests of which one reads share no byte. The call runs no code.
pub fn turns_keep()
    ensures { EachRunKeeps }
{}

/// Over every list of turns of the host, what a request has written into the structure area, its header and
/// its table, stays there until the request is polled. The call runs no code.
pub fn commands_stand()
    ensures { CommandsStand }
{}

/// A tick ends a request as [`Done`](crate::Outcome::Done) only if it was issued and nothing is issued in its
/// slot of the port any more. The call runs no code.
pub fn done_is_free()
    ensures { DoneIsFree }
{}

/// A tick ends a request as [`DeviceError`](crate::Outcome::DeviceError) only if it was set aside, the error
/// log of its device was just read and is whole, and the log names it. The call runs no code.
pub fn errors_are_named()
    ensures { ErrorsAreNamed }
{}

/// Port, driver and memory together are sound when they open, whatever the first ticket and the memory, and
/// stay sound over every list of turns. The call runs no code.
pub fn hosts_stay_sound()
    ensures { HostsAreSound }
{}

/// Every list of turns of the host, from any sound state, is a list of events of its port and memory. The
/// events run from port and memory before the turns to port and memory after them. The frames that are taken
/// and given, and the bytes that clients write, are the same in the events as in the turns, in the same
/// order. The call runs no code.
pub fn turns_are_events()
    ensures runs { TurnsAreEvents }
    ensures tells { EachRunTells }
{}

/// What is issued at the port is the driver's: a request of its own, the command of its path to a device, or
/// an order to the multiplier. So over every list of turns of the host from its opening, the PRDs of a
/// command stay while it is issued. Where Data comes, no two issued reads share a byte, and no client writes
/// into one. The call runs no code.
pub fn turns_serve()
    ensures { TurnsServe }
{}

/// Over every list of turns of the host from its opening: the report of a frame frees exactly the slots that
/// the frame completes, by what its own device did, and each issue completes at most once. Every byte of a
/// read that is reported as done is filled and is at its place in client memory. Each client byte is that of
/// the opening, except for what clients put and what Data filled there. A slot is issued to one device at a time, for a
/// request of the driver's or a command of its own, with PRDs in the client area. Issued reads share no byte,
/// and clients put none there. The call runs no code.
pub fn turns_deliver()
    ensures { TurnsDeliver }
{}

/// The port takes every write of the driver. Over every list of turns of the host from its opening, each
/// write of a tick is to a register that exists, and is not refused. The call runs no code.
pub fn writes_are_accepted()
    ensures { WritesAreAccepted }
{}

/// A request that is [`Done`](crate::Outcome::Done) was completed by its own device. Over every list of turns
/// of the host from its opening, a frame of the device was taken whose report says that the command of the
/// slot is done. It was taken after the tick that issued the request and before the tick that ended it. The
/// same holds for each completion that is polled as Done, with the device for which its request was taken.
/// The call runs no code.
pub fn done_is_true()
    ensures { DoneIsTrue }
{}

/// Where a request that is polled as [`Done`](crate::Outcome::Done) was reported. Over every list of turns of
/// the host from its opening, a turn before the poll takes a frame of its device whose report says that the
/// command of its slot is done. When the frame was taken, the request in the slot was issued, and was exactly
/// what was submitted under the ticket. The call runs no code.
pub fn done_was_reported()
    ensures { DoneWasReported }
{}

/// Consider a device with which nothing has failed since its flush. The driver has requests of it open only
/// while it is ready, and a Flush alone. It identifies the device after its signature came, while no request
/// of it is open. In a tick that does not flush the device and ends no fault of it or of the port, nothing
/// that happens at the port concerns it, except the issue of the command in one slot for it. The call runs no
/// code.
pub fn turns_are_steady()
    ensures { EachIsSteady }
{}

/// Consider a device that is together with its disk, since its flush, or again since its log was read or SRST
/// was cleared. Its requests wait or are issued only while it is ready, and a Flush alone. It is asked for
/// something only after its signature came. This holds over each turn that does not flush the device and ends
/// no fault of it or of the port, up to the tick that issues its software reset. The call runs no code.
pub fn turns_tend()
    ensures { EachIsTended }
{}

/// A device that is ready is known, and so is one of which a request is issued or to which the command of a
/// request goes out: over every list of turns of the host from its opening, IDENTIFY data of it was accepted
/// since it was last flushed. The call runs no code.
pub fn devices_are_known()
    ensures { DevicesAreKnown }
{}

/// A request that waits or is issued stays with its device: it was taken for a device that was ready, and no
/// tick has flushed the device since. The command of a request that goes out is that of one issued in its
/// slot, for its own device. So no request that waited while its device was exchanged is issued to the next
/// one. The call runs no code.
pub fn requests_stay_with_their_device()
    ensures { RequestsStay }
{}

/// The driver orders that a port of the multiplier be cleared only if the port was named. Over every list of
/// turns of the host from its opening in which the control port sends what may come at its stage, the last
/// answer of the multiplier to a read of GSCR[32] has the port's bit set, and no tick since that answer has
/// ordered that the port be cleared. The call runs no code.
pub fn scans_clear()
    ensures { ScansClear }
{}

/// If a device is taken to be absent after a turn that does not flush it and ends no fault of it or of the
/// port, it was taken to be absent before the turn. The call runs no code.
pub fn absent_before()
    ensures { EachWasAbsent }
{}

/// In the tick that issues the software reset of a tended device, slot 30 is given the Control that sets
/// SRST, and no request of the device waits or is issued. The call runs no code.
pub fn resets_are_issued()
    ensures { EachResetIsDriven }
{}

/// Over each turn of the host, from any sound state whose events so far serve what is issued: where Data
/// comes or goes, issued writes lie beside issued reads, and what a client puts leaves their places alone. So
/// what was sent of a write stays there as long as the write is issued. The call runs no code.
pub fn writes_are_held()
    ensures { TurnsHoldWrites }
{}

/// A device that has a fault goes from stage to stage with each turn of the host. This ends when its log was
/// asked for, when its software reset is over, or when a tick flushes it or is told by PSCR[0] that no device
/// is there. PSCR[0] telling that the device is there changes nothing. Its fault is cleared first. Then slot
/// 30 reads its error log, or resets it. Meanwhile only what slot 30 holds is issued for it, and nothing
/// queued, and no other frame goes out to it. What comes from it is ignored, leaves its stage, or is a fault.
/// No request of it is taken. A device that is not being looked for is not looked for until a tick flushes
/// it. The call runs no code.
pub fn devices_are_apart()
    ensures { EachIsApart }
{}

/// Over every list of turns of the host from its opening, no bit of PxSACT waits for its command between two
/// turns. The call runs no code.
pub fn none_is_armed()
    ensures { NoneIsArmed }
{}

/// A FIS from a device is never a fault of the host port as a whole while the tables of issued commands can
/// be used. Neither is a Register Device to Host or a Set Device Bits FIS from the control port. With
/// FIS-based switching none of them stops the port. So over every list of turns of the host from its opening
/// in which the control port sends no others, no fault of the port stands, and the driver never stops the
/// port or starts it again. The call runs no code.
pub fn port_goes_on()
    ensures hears { FaultsNeverStop }
    ensures turns { PortsGoOn }
{}

/// Slot 31 goes from stage to stage with each turn of the host from its opening, as long as the control port
/// sends only notifications and what it is asked for. An order is issued only while nothing of the control
/// port is on its way. Its command goes out once, and no other command goes out until its answer came. A tick
/// leaves what the driver knows of slot 31, or makes of it what came, and then the command of the order that is
/// due waits, if it is issued. After a fault of the control port slot 31 begins anew. The call runs no code.
pub fn orders_take_turns()
    ensures { OrdersTakeTurns }
{}

/// Over every list of turns of the host from its opening, each frame that goes out has the PM Port of its
/// device, and so does its stamp. The call runs no code.
pub fn frames_are_addressed()
    ensures { FramesAreAddressed }
{}
