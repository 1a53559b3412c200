//! Laws of the two views that a host has of a disk. All of them are laws for callers; they run no code.

ghost use Rattle.disk_simulation.specs.Anew.{HonestStays, HostedOnIsKept, HostedSinceNew};
ghost use Rattle.disk_simulation.specs.Anew.{NextIsRightAnew, OpensAfter, OpensTheSame};
ghost use Rattle.disk_simulation.specs.Anew.{ReportsHonestlyAnew, SignatureIsNone};
ghost use Rattle.disk_simulation.specs.Answers.{AnswersKeep, NamesKeep, OthersKeep};
ghost use Rattle.disk_simulation.specs.Aside.{AsideIsKept};
ghost use Rattle.disk_simulation.specs.Calm.{CalmRunsKeep};
ghost use Rattle.disk_simulation.specs.Elsewhere.{OthersLeaveDevice};
ghost use Rattle.disk_simulation.specs.Files.{BothHaveBegun, DisksSendTheirs, FilesAreLeft};
ghost use Rattle.disk_simulation.specs.Files.{FilesStayFine, NothingIsRefused};
ghost use Rattle.disk_simulation.specs.Followed.{FollowedIsHonest, FollowsOn, NextIsRightOrFails};
ghost use Rattle.disk_simulation.specs.Heard.{HeardAsTold};
ghost use Rattle.disk_simulation.specs.Honest.{DoneIsHonest, NextIsRight};
ghost use Rattle.disk_simulation.specs.Hosted.{HostedIsKept, NextIsShort};
ghost use Rattle.disk_simulation.specs.Joined.{JoinsCommands, JoinsData, JoinsFrames};
ghost use Rattle.disk_simulation.specs.Joined.{JoinsIssues, JoinsOthers, ReportsHonestly, StaysJoined};
ghost use Rattle.disk_simulation.specs.Later.{NextIsRightLater, ReportsHonestlyLater};
ghost use Rattle.disk_simulation.specs.Line.{LinesBegin, LinesGoOn, MarksAskNothing};
ghost use Rattle.disk_simulation.specs.Line.{PluggingLeavesReset};
ghost use Rattle.disk_simulation.specs.Marked.{MarksTellNothing};
ghost use Rattle.disk_simulation.specs.Outcomes.{EachTakenHasOutcome, NothingIsGiven};
ghost use Rattle.disk_simulation.specs.Phases.{CalmLeavesTogether, EachDoneIsHonest, TakesInEachPhase};
ghost use Rattle.disk_simulation.specs.Phases.{WatchesWhatIsFine};
ghost use Rattle.disk_simulation.specs.Same.{CommandsKeep, DataFills, IssuesKeep, SetupsStart};
ghost use Rattle.disk_simulation.specs.Steps.{ActivatesKeep, DataDown, DataUp, SetupsGoOn};
ghost use Rattle.disk_simulation.specs.Together.{SameGoesOn};
ghost use Rattle.disk_simulation.specs.Watched.{WatchedIsAhead, WatchesOn};

/// A command is issued in a slot whose tag is free, and is then transmitted. The ledger has it as
/// outstanding, with nothing filled. The commands of other slots are unchanged.
pub fn issues_and_commands_keep_the_same()
    ensures issues { IssuesKeep }
    ensures commands { CommandsKeep }
{}

/// The first DMA Setup of an outstanding command starts its data. A further one says where its next bytes
/// lie, and a DMA Activate asks for them. The commands of other slots are unchanged.
pub fn setups_keep_the_same()
    ensures starts { SetupsStart }
    ensures goes_on { SetupsGoOn }
    ensures activates { ActivatesKeep }
{}

/// Data of the command whose data moves fills each byte with the one that the ledger puts there.
pub fn data_fills_what_moves()
    ensures { DataFills }
{}

/// Data leaves each queued command of the device where the ledger says. The one whose data moves goes on, or
/// ends with exactly the bytes that were filled. Those of other slots are unchanged.
pub fn data_keeps_the_same()
    ensures up { DataUp }
    ensures down { DataDown }
{}

/// A command that is not queued is transmitted, a Register FIS answers it, a PIO Setup and a page are
/// received: each leaves the queued commands of other slots unchanged.
pub fn answers_keep_the_same()
    ensures others { OthersKeep }
    ensures answers { AnswersKeep }
{}

/// A command that a Set Device Bits FIS names ended with exactly the bytes that were filled, and its tag is
/// free afterwards.
pub fn names_are_of_what_ended()
    ensures { NamesKeep }
{}

/// Both views say the same of each slot from the moment that the disk is plugged in. They still do after each
/// command that is issued or transmitted, and after each FIS of the disk.
pub fn both_views_go_on_together()
    ensures { SameGoesOn }
{}

/// A queued command that is done was done honestly, whatever is in transit between disk and host: a read
/// brought its sectors of the medium, and a write is on it.
pub fn done_is_honest()
    ensures next { NextIsRight }
    ensures done { DoneIsHonest }
{}

/// A FIS of the disk that a host port hears without finding a fault is in the device's history exactly what
/// it tells.
pub fn fises_are_heard_as_told()
    ensures { HeardAsTold }
{}

/// A host port's view of a disk, the disk's history and the ledger still agree at each FIS that the port
/// hears and at each that it gives. What it gives fits the ledger.
pub fn port_and_ledger_stay_joined()
    ensures frames { JoinsFrames }
    ensures commands { JoinsCommands }
    ensures others { JoinsOthers }
    ensures data { JoinsData }
    ensures issues { JoinsIssues }
    ensures stays { StaysJoined }
{}

/// Whatever a host does with a disk since its plugging, as long as its port refuses nothing and empties no
/// slot, it is careful, and its port agrees with the ledger. No DMA Setup of a disk names more bytes than a
/// Data FIS holds. The ledger hears the same of a FIS whatever its PM Port.
pub fn hosts_are_careful()
    ensures kept { HostedIsKept }
    ensures short { NextIsShort }
    ensures marks { MarksTellNothing }
{}

/// What a report of the port says is done, at a FIS that comes next from a disk, was done honestly.
pub fn reports_are_honest()
    ensures { ReportsHonestly }
{}

/// What happens at a host port and does not concern a device leaves the device's view, and is no event of its
/// history. So a host keeps what it has of a device over events that do not concern it or that issue commands
/// for it.
pub fn others_leave_a_device()
    ensures others { OthersLeaveDevice }
    ensures calm { CalmRunsKeep }
{}

/// A host and its disk begin anew where nothing queued is issued and nothing of it is to come: after any
/// plugging, after a software reset, or with the log after an error. From there on port, history and ledger
/// agree again, as they do since the disk was new. The signature that ends the reset is no event of the
/// history.
pub fn hosts_begin_anew()
    ensures after { OpensAfter }
    ensures opens { OpensTheSame }
    ensures kept { HostedOnIsKept }
    ensures new { HostedSinceNew }
    ensures signature { SignatureIsNone }
{}

/// From there on what the host receives next is right, and what a report says is done was done honestly, even
/// if the report has a fault. It stays so whatever the disk does later.
pub fn reports_are_honest_anew()
    ensures next { NextIsRightAnew }
    ensures done { ReportsHonestlyAnew }
    ensures stays { HonestStays }
{}

/// A device is set aside from its first fault on, or once it is flushed or its error is cleared: the port
/// hears nothing of it, or nothing queued of it is issued. It stays so until a queued command is issued for
/// it. Meanwhile no report says that a queued command of it is done.
pub fn devices_are_set_aside()
    ensures { AsideIsKept }
{}

/// Whatever a disk does, including errors, it is followed up to the error that the host takes from it. What
/// comes next is right or is an error, and what a report says is done was done honestly.
pub fn disks_are_followed_to_their_errors()
    ensures follows { FollowsOn }
    ensures next { NextIsRightOrFails }
    ensures done { FollowedIsHonest }
{}

/// Whatever goes wrong with a disk or at the port, a queued command that a report says is done was done
/// honestly. This holds while host and disk are together, and trivially while the device is set aside,
/// because then none is done. Whatever comes next and is not ignored, they are still together, or the device
/// is set aside. What concerns another device, or issues commands for this one, leaves them together.
pub fn reports_are_honest_in_each_phase()
    ensures done { EachDoneIsHonest }
    ensures next { TakesInEachPhase }
    ensures calm { CalmLeavesTogether }
{}

/// What a host does with a disk that is plugged in again, even after a removal, is told from that plugging
/// on. What a report says is done is honest by all that the disk did, including before.
pub fn reports_are_honest_later()
    ensures next { NextIsRightLater }
    ensures done { ReportsHonestlyLater }
{}

/// A disk to which a host gives nothing but commands and Data is watched up to the error that it reports.
/// That error comes up last, and from then on the disk is in its error mode and rests. So it is still watched
/// after each FIS in which the host port finds no fault. What FISes tell the host of writes is never behind
/// what they tell the disk.
pub fn disks_are_watched_to_their_errors()
    ensures goes_on { WatchesOn }
    ensures ahead { WatchedIsAhead }
    ensures takes { WatchesWhatIsFine }
{}

/// Once a disk is set aside, the link to it goes from stage to stage, whatever is lost on the way down, until
/// the disk takes the command that reads its log, or the end of a software reset. Then it owes that page, or
/// its signature, and nothing else, and both begin anew. Until then no signature comes from it.
pub fn lines_lead_to_beginning_anew()
    ensures begins { LinesBegin }
    ensures goes_on { LinesGoOn }
    ensures plugs { PluggingLeavesReset }
    ensures marks { MarksAskNothing }
{}

/// A disk sends only FISes for a host, and refuses nothing that a careful host gives it while it watches the
/// disk. So Status.ERR of its task file at the host port stays 0 up to the error that the disk reports, even
/// where the port finds a fault.
pub fn task_files_stay_fine()
    ensures begins { BothHaveBegun }
    ensures sends { DisksSendTheirs }
    ensures refuses { NothingIsRefused }
    ensures stays { FilesStayFine }
    ensures left { FilesAreLeft }
{}

/// At each FIS from a watched disk that the host does not ignore, it goes on watching the disk or sets it
/// aside. If it sets it aside, the disk failed and rests, or its link is loose and Status.ERR of its task
/// file is 0. The host gives nothing before the first FIS.
pub fn each_fis_has_its_outcome()
    ensures takes { EachTakenHasOutcome }
    ensures none { NothingIsGiven }
{}
