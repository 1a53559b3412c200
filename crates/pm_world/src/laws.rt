//! Laws of runs, which run no code. A new world has FIS-based switching here, except in [`paths_go_on`].

ghost use Rattle.pm_world.specs.Connections.{ConnectionsFollow};
ghost use Rattle.pm_world.specs.DevicePaths.{DroppedNeverComes, PluggedIsOnPath, ReachedAreOrderly};
ghost use Rattle.pm_world.specs.DevicePaths.{UnitPathsGoOn, PathsGoOn};
ghost use Rattle.pm_world.specs.Disks.{HonestDisks};
ghost use Rattle.pm_world.specs.Ends.{EndsMeet};
ghost use Rattle.pm_world.specs.Flushing.{FlushesFollowWrites};
ghost use Rattle.pm_world.specs.InOrder.{ReadsFollowWrites};
ghost use Rattle.pm_world.specs.Keeping.{PortsKeep};
ghost use Rattle.pm_world.specs.Line.{OneOrderAtATime};
ghost use Rattle.pm_world.specs.Meant.{AnswersAreMeant, CommandsAreMeant};
ghost use Rattle.pm_world.specs.Media.{MediaAreOfWrites};
ghost use Rattle.pm_world.specs.Named.{PolledErrorsAreNamed};
ghost use Rattle.pm_world.specs.Polled.{HonestPolls};
ghost use Rattle.pm_world.specs.PortsGoOn.{PortsGoOn};
ghost use Rattle.pm_world.specs.ReadBack.{DisksHaveWrites, ReadsBringWrites, WritesStayThere};
ghost use Rattle.pm_world.specs.Resting.{PortsRest};
ghost use Rattle.pm_world.specs.Stale.{NoneIsStale, OrderedIsNotStale};
ghost use Rattle.pm_world.specs.Submitted.{ReadsBringSubmitted, SentAsSubmitted, WrittenAsSubmitted};

/// Holds in every world that a run from a new one leads to. The host port goes on: no fault of the
/// port stands, nothing that comes or goes next makes one, and no tick stops it. The reason: what
/// comes from the control port of the multiplier is a Register Device to Host FIS or a Set Device
/// Bits FIS.
pub fn ports_go_on()
    ensures { PortsGoOn }
{}

/// Holds in every world that a run from a new one leads to. At most one order of the control port, or
/// its answer, is on its way, except that FISes which begin a software reset may go before it. While
/// slot 31 is quiet there is none.
pub fn one_order_at_a_time()
    ensures { OneOrderAtATime }
{}

/// Between two FISes of the host that clear bit X of a port, all that passes this port, up and
/// down, is of one connection.
pub fn ports_keep_to_one()
    ensures { PortsKeep }
{}

/// Holds over every run from a new world. Each connection of a port before the one that is present is
/// removed. Nothing is on its way up of a connection that was not used yet.
pub fn connections_follow()
    ensures { ConnectionsFollow }
{}

/// When the host flushes a device, no FIS of its port is on the host's link, and the port passes none
/// until it is cleared.
pub fn ports_rest_at_a_flush()
    ensures { PortsRest }
{}

/// What each step of a world does on the path of one device, whatever the device sends. The host
/// gives a FIS, the device takes one, the device sends one, the host takes the next one, or nothing
/// is done at either end. That goes on until the device is unplugged. Every world to which a run from
/// a new one leads is one for which this is said.
pub fn paths_go_on()
    ensures orderly { ReachedAreOrderly }
    ensures plugged { PluggedIsOnPath }
    ensures steps { PathsGoOn }
    ensures units { UnitPathsGoOn }
    ensures dropped { DroppedNeverComes }
{}

/// Holds from the plugging of a disk, the first or a later one, as long as the disk is left alone
/// (nothing is injected at its port), whatever errors it reports, whatever faults the host finds in
/// what it sends, whatever was before and whatever the other devices do. Each queued request that a FIS
/// of this connection reports as done ended honestly, by all that the disk did since the world was
/// made, even if the host takes that FIS after the disk was unplugged. A read has the sectors of the
/// medium in client memory, as they were when the disk started it. A write is on the medium. If the FIS
/// reports a Flush as done, the disk took one since that Flush was submitted.
pub fn disks_are_honest()
    ensures { HonestDisks }
{}

/// Holds from the plugging of a disk on, as long as the disk is left alone (nothing is injected at its port), whatever was before and
/// whatever the other devices do: while its port forwards, host and disk are the two ends of a link. What each did fits what the other
/// did, except for what stands on the links and at the port.
pub fn ends_meet()
    ensures { EndsMeet }
{}

/// Holds after every run from a new world, where a poll answers that a request is done. The request
/// was submitted under its ticket, and a FIS of its device was taken that reported it. From the
/// submit up to that FIS, the host took FISes of that device on that one connection alone. If the
/// device is a disk that was left alone from its plugging as the connection of that FIS up to that
/// FIS, a read or a write ended honestly. The bytes of a read stand in client memory when it is
/// polled, and are the sectors of the medium as they were when the disk started it. A write is on the
/// medium. Of a Flush the disk took one since it was submitted.
pub fn polled_is_honest()
    ensures { HonestPolls }
{}

/// Let the host keep to this when it orders that a port be cleared: the order before was sent and
/// taken, no FIS of the port is on its way up, the port passes none until it is cleared, and one FIS
/// goes out for each order. Then a device takes the command of a request only on the connection on
/// which the last IDENTIFY data accepted for its port were sent. `none_is_stale` says that the host
/// of a world keeps to it.
pub fn ordered_is_not_stale()
    ensures { OrderedIsNotStale }
{}

/// In every run from a new world a device takes each command of a request on the connection on which
/// the last IDENTIFY data accepted for its port were sent.
pub fn none_is_stale()
    ensures { NoneIsStale }
{}

/// Holds after every run from a new world, where a device takes the command of a request. That
/// request was submitted for its port in the run, and the command was put on the host's link while
/// the request was issued. The device takes it on the connection on which the last IDENTIFY data were
/// sent that the host had accepted for the port before the request was submitted. So a command that
/// was meant for a removed device never reaches its successor. And all FISes that the host takes of
/// the port while the request waits or is issued come on that connection: no other device answers it.
pub fn commands_are_meant()
    ensures commands { CommandsAreMeant }
    ensures answers { AnswersAreMeant }
{}

/// In every world the medium of a disk is a new one with the bytes of whole writes put in, in the
/// order in which they ended. From one world of a run to a later one, more writes follow. So a write
/// that ended otherwise than done is there whole, or not at all, whatever happened to the disk.
pub fn media_change_by_writes()
    ensures { MediaAreOfWrites }
{}

/// Holds after every run from a new world, where a poll answers that a device failed a request. The
/// run has a tick at which the request had not ended. The error log of its device had just been read,
/// was whole, and named the request with the Status and Error of the answer.
pub fn polled_errors_are_named()
    ensures { PolledErrorsAreNamed }
{}

/// Of a disk that was new in the world, and left alone from its plugging up to the report: a read that
/// was submitted after a write had ended brings the bytes that went over for the write, where no later
/// write has them. They stay on the medium in the same way, whatever happens to the
/// disk: the disk has them there in each world to which steps lead.
pub fn reads_bring_writes()
    ensures reads { ReadsBringWrites }
    ensures stay { WritesStayThere }
    ensures medium { DisksHaveWrites }
{}

/// Holds after every run from a new world, whatever the devices send. A write was submitted, and a
/// FIS of its device reported it as done. Then each byte that went to the device is the byte that
/// stood in client memory at the place that the write's PRDs name, when the write was submitted. So a
/// write that a poll answers as done is on the medium of its disk with just these bytes, if the disk
/// was left alone from its plugging as the connection of that FIS up to that FIS. And a read that was
/// submitted after such a write had ended brings these bytes, where no later write has them.
pub fn writes_are_as_submitted()
    ensures sent { SentAsSubmitted }
    ensures written { WrittenAsSubmitted }
    ensures read { ReadsBringSubmitted }
{}

/// Read after write, in one run from a new world. A write is polled as done. Then a read of the same
/// sectors is submitted to the same disk, and is polled as done. The disk was new in this world, and
/// left alone from its plugging up to each of the two reports. Then the read brings the bytes that
/// client memory had at the places of the write's PRDs when the write was submitted, except where
/// another write ended in between.
pub fn reads_follow_writes()
    ensures { ReadsFollowWrites }
{}

/// FLUSH after write, in one run from a new world: writes are polled as done, then a FLUSH is submitted to the
/// same disk, and is polled as done. The disk was new in this world, and left alone from its plugging up to
/// each report. It took a FLUSH after this one was submitted. And the writes are on its medium with the bytes
/// with which they were submitted, except where another write ended since.
pub fn flushes_follow_writes()
    ensures { FlushesFollowWrites }
{}
