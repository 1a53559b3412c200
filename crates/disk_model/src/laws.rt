//! Laws about every run of a disk, above the definitions by which its code is proved. What the FISes alone
//! tell a listener on the disk's link is what the disk does. The functions run no code.

ghost use Rattle.std.specs.Prelude.{◌≡◌, All};
ghost use Rattle.disk_model.specs.Anew.{BeginsAnew, EndsTellTheSameAnew, LinkedSinceNew};
ghost use Rattle.disk_model.specs.Anew.{RestingIsSilent, RestsUntil, WritesStay};
ghost use Rattle.disk_model.specs.Ends.{EndsTellTheSame};
ghost use Rattle.disk_model.specs.Fronts.{BeforeIsFront, HostIsAhead};
ghost use Rattle.disk_model.specs.InReset.{TakesNoCommand};
ghost use Rattle.disk_model.specs.Last.{LieOn, ShowsTheLast};
ghost use Rattle.disk_model.specs.Later.{LaterIsLinked, LaterTellsOfAll};
ghost use Rattle.disk_model.specs.Loads.{LoadedIsFirst, LoadedIsUnderWrites};
ghost use Rattle.disk_model.specs.Laws.{AfterEachRun, AnswersRight, AtEachSending, ErrsRight, MovesRight, SilentRight};
ghost use Rattle.disk_model.specs.Ledger.{AnswersOne, IsRead, ledger, medium_with};
ghost use Rattle.disk_model.specs.Puts.{LieWherePut};
ghost use Rattle.disk_model.specs.Runs.{moment};

/// After every run of a disk, its medium is the opening medium with the bytes of each ended write put in, in
/// the order in which the writes ended.
pub fn medium_is_of_ended_writes()
    ensures { AfterEachRun (λ plan sectors history.
        (moment plan sectors history).medium ≡ medium_with sectors (ledger history).writes) }
{}

/// In every run of a disk, the Data of each ended read, placed by the offsets of its DMA Setups, is the
/// read's sectors as they were when it was started.
pub fn reads_are_of_their_start()
    ensures { AfterEachRun (λ plan sectors history. All (IsRead sectors) (ledger history).reads) }
{}

/// In every run of a disk, a Set Device Bits FIS without ERR names one tag: that of the command that ended
/// first among those not answered yet. So a command is answered at most once.
pub fn answers_each_command_once()
    ensures { AtEachSending (λ plan sectors before fis. AnswersOne before fis) }
{}

/// In every run of a disk, each DMA Setup belongs to the command whose data moves, or starts an outstanding
/// command. It has the command's tag and direction. It names bytes of the command that no DMA Setup named
/// before, and comes only once all bytes named before have moved. The Data of a read has the length that its
/// DMA Setup gives. A DMA Activate follows only the DMA Setup of a write, once.
pub fn setups_name_what_moves()
    ensures { AtEachSending (λ plan sectors before fis. MovesRight before fis) }
{}

/// In every run of a disk, each Register Device to Host FIS and each PIO Setup FIS answers the command or the
/// reset that came first among those not answered. ERR is set exactly if the command is refused. A refusal of
/// queued commands ends what is owed, and so does a reset. While the disk is in its error mode, no command is
/// answered except the read of the log.
pub fn answers_commands_in_order()
    ensures { AtEachSending (λ plan sectors before fis. AnswersRight before fis) }
{}

/// In every run of a disk, a Set Device Bits FIS has ERR only while no data moves, and only if the command
/// whose turn it is passes the end of the disk or reads a bad sector. The log tells the command's tag, its
/// error and the LBA: the command's own, or that of the first bad sector. A command whose data moves can be
/// done.
pub fn errors_are_of_their_command()
    ensures { AtEachSending ErrsRight }
{}

/// In every run of a disk, the disk has nothing to send only if each command and reset was answered, each
/// page came, and either no command is outstanding or a write waits for Data that it asked for.
pub fn is_silent_where_nothing_is_owed()
    ensures { AfterEachRun SilentRight }
{}

/// Both ends of a disk's link tell the same, while FISes are on their way in both directions, come late, and
/// may be lost on the way down. What the FISes at the host's end tell, followed by those on their way up, is
/// what those at the disk's end tell, followed by those on their way down. Each FIS that comes to the host
/// moves data, answers and replies as is due by what the host has heard by then. Each read that ended there
/// had the sectors of the medium as they were when the disk started it. Where the Set Device Bits FIS of a
/// write comes next, the write is on the medium.
///
/// This holds until the disk reports an error, for a host that gives a queued command only while its tag is
/// free and the command before it was answered, any other command only while nothing is to come, and Data
/// only where it was asked for.
pub fn ends_tell_the_same()
    ensures { EndsTellTheSame }
{}

/// When a disk is plugged in, for the first time or again, it owes only its signature, whatever happened
/// before. The same holds after a software reset. No command that was queued is outstanding. When the log is
/// read after an error, the disk owes only the log. While SRST is set, and in its error mode, it sends
/// nothing.
pub fn disks_begin_anew()
    ensures begins { BeginsAnew }
    ensures rests { RestsUntil }
    ensures silent { RestingIsSilent }
{}

/// In every run of a disk, from the FIS that sets SRST until a FIS clears it or the disk is plugged in, the
/// disk sends nothing and takes no command. Whatever comes, it stays as it was when SRST was set. When SRST
/// is cleared it owes its signature and nothing else.
pub fn disks_in_reset_take_no_command()
    ensures { TakesNoCommand }
{}

/// From where both ends begin anew they tell the same again, as long as the disk reports no error. What the
/// disk sent before comes first, and the host throws it away. What was written stays written.
pub fn ends_tell_the_same_anew()
    ensures same { EndsTellTheSameAnew }
    ensures new { LinkedSinceNew }
    ensures stays { WritesStay }
{}

/// When a disk is plugged in again, both ends tell of this connection what they would tell of a new disk, in
/// addition to what ended on earlier connections. So what is linked, careful and right since then is so in
/// the whole history.
pub fn later_connections_tell_of_all()
    ensures linked { LaterIsLinked }
    ensures tells { LaterTellsOfAll }
{}

/// Bytes are put over others, as the ledger puts those of Data from the offset of their DMA Setup on. Then
/// each of them is at its place, and each other byte is as it was.
pub fn data_lies_where_it_is_put()
    ensures { LieWherePut }
{}

/// The writes that had ended when a disk started a read are the first ones of all writes that end. So their
/// number alone says which of them the read shows. What FISes tell of writes at the host's end is never
/// behind what they tell at the disk's end.
pub fn reads_have_the_first_writes()
    ensures before { BeforeIsFront }
    ensures ahead { HostIsAhead }
{}

/// A byte of the medium is that of the last write that has it, whatever came before that write. Each write
/// that ended in a run of a disk lies on its medium.
pub fn media_show_the_last_write()
    ensures shows { ShowsTheLast }
    ensures lie { AfterEachRun (λ plan sectors history. LieOn sectors (ledger history).writes) }
{}

/// A disk that has its first sectors from its maker shows them, and over them the bytes of each ended write, in
/// order. Where a law speaks of the opening medium with writes put in, these sectors are the first of the writes.
pub fn loaded_disks_show_their_sectors()
    ensures first { LoadedIsFirst }
    ensures under { LoadedIsUnderWrites }
{}
