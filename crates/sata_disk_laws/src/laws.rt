//! The laws.

ghost use Rattle.sata_disk_laws.specs.Asides.{AsidesAreEarned};
ghost use Rattle.sata_disk_laws.specs.Awaited.{AsidesAreAwaited, OutsAreUnderWay, SinglesAreAwaited};
ghost use Rattle.sata_disk_laws.specs.Errors.{AbortedUntilRead, LogTellsOfFailure};
ghost use Rattle.sata_disk_laws.specs.Once.{AnswersAreSingle, OpenIsUnderWay, PartsAreFrames};
ghost use Rattle.sata_disk_laws.specs.Stores.{StoresAreHeard};
ghost use Rattle.sata_disk_laws.specs.Told.{FisesAreTold};
ghost use Rattle.sata_disk_laws.specs.Laws.{DataAreNamed, DiscardsAreAlone, EndsAreEarned, NumbersAreFresh, RequestsAreApart, SilenceIsOwed, SomethingMoves};

/// A law. In every run each Data FIS of a read has the bytes that the caller gave for its sectors, in order, from the first on. The FIS
/// that says that a command ended well goes, for a read, after all of them; for a write, after the caller stored exactly the bytes that
/// came, in order, at its sectors, and, if it is to last, answered a flush that was asked for after that. An answer counts only if it names
/// the last request of its place, and that was neither answered nor ended by a reset or an error.
pub fn ends_are_earned()
    ensures { EndsAreEarned }
{
    block_engine::ends_are_earned();
}

/// A law. In every run each request to load or to store is apart from all that were asked and are not answered: they have no sector in
/// common, unless both are loads. A reset or an error ends no store: the caller may still do it.
pub fn requests_are_apart()
    ensures { RequestsAreApart }
{
    block_engine::requests_are_apart();
}

/// A law. In every run no two requests get one number.
pub fn numbers_are_fresh()
    ensures { NumbersAreFresh }
{
    block_engine::numbers_are_fresh();
}

/// A law. In every run, while a discard is out, also one that a reset dropped, no command that moves sectors has started, and no dropped
/// store is out.
pub fn discards_are_alone()
    ensures { DiscardsAreAlone }
{
    block_engine::discards_are_alone();
}

/// A law. In every run of a disk with a limit of 1 MiB or more: while a command is under way and none starts next, the caller owes the
/// answer to a discard, or a FIS may be sent, a request is to be asked, or the caller or the host owes something.
pub fn something_moves()
    ensures { SomethingMoves }
{
    block_engine::something_moves();
}

/// A law. In every run each Data FIS of a queued command, in both directions, and each of its DMA Activate FISes is of the command that
/// the last DMA Setup FIS named. No condition is left on what the host sends: Data go to that command, or to the one that is not queued.
pub fn data_are_named()
    ensures { DataAreNamed }
{
    block_engine::data_are_named();
}

/// A law. The bytes of each FIS that goes next say what the account of the commands has then: those of a Data FIS are the Data that the
/// account has, a Register FIS or a Set Device Bits FIS that says that a command ended well is its end there. So the laws over accounts
/// hold of what the host gets.
pub fn fises_are_told()
    ensures { FisesAreTold }
{}

/// A law. In every run of a disk with a limit of 1 MiB or more: where nothing starts, no FIS goes and nothing is asked while a command is
/// under way, the caller owes the answer to a discard, to another request, or to a store that a reset dropped, or the host owes Data. So
/// the disk is silent over a command only where it waits for somebody.
pub fn silence_is_owed()
    ensures { SilenceIsOwed }
{
    block_engine::something_moves();
}

/// A law. In every run a flush, what turns the write cache off, and a discard end well only after the caller answered, well, what was
/// asked for since the command was taken. The stage by which `next_out` picks the end is that of the run.
pub fn asides_are_earned()
    ensures { AsidesAreEarned }
{
    block_engine::asides_are_earned();
}

/// A law. In every run each FIS that ends a command goes while a command is open at its place: a tag, or the one place of the command
/// that is not queued. So each command is answered at most once, and none from before a plug or a software reset. Each other FIS is of a
/// command that is open, too, and the signature goes once for each plug and software reset. What is open is told by the FISes alone, those
/// of the host and those that it got.
pub fn answers_are_single()
    ensures { AnswersAreSingle }
{}

/// A law. In every run the queued commands that a host has open are those that the disk has under way, where it waits for nothing. The
/// disk hears a command exactly where the host waits for nothing, and SRST is clear.
pub fn open_is_under_way()
    ensures { OpenIsUnderWay }
{}

/// A law. In every run a command that is not queued and moves sectors is under way only while its host waits for its end, or for the Data that end it. A
/// Register FIS or another reply of a command that goes next is of one that is under way. A command beside the queue is under way only while the disk waits
/// for its end.
pub fn singles_are_awaited()
    ensures waits { SinglesAreAwaited }
    ensures outs { OutsAreUnderWay }
    ensures asides { AsidesAreAwaited }
{}

/// A law. In every run the Data FIS of a read that goes next has 1 to 16 whole sectors. So it has the length of a frame.
pub fn parts_are_frames()
    ensures { PartsAreFrames }
{}

/// A law. In every run the bytes that the caller is asked to store for a command are bytes of Data FISes of the host that came for it since
/// it was taken, in order, all of them, each behind a DMA Activate, a PIO Setup or a DMA Setup with auto-activate of that command; and they
/// are for the sectors behind those that it stored before. Data from before a plug, a software reset or an error are in no store.
pub fn stores_are_heard()
    ensures { StoresAreHeard }
{
    numbers_are_fresh();
}

/// A law. In every run, once a queued command failed, was refused, or was ended by a command that may not stand beside it: each command
/// that comes is aborted (Status 51h, Error ABRT, by the next FIS), until page 0 of log 10h was sent; the command that reads it is taken, and
/// a plug or a software reset ends the error, too. Meanwhile no other FIS goes, nothing starts, and the caller is asked for nothing. Which
/// error stands is told by the FISes alone, those of the host and those that it got, and by what the caller answered.
pub fn aborted_until_read()
    ensures { AbortedUntilRead }
{
    block_engine::failures_are_own();
}

/// A law. In every run page 0 of log 10h has the tag, the error and the sector of the command whose failure is the error that stands: as
/// the caller answered to a request of that very command; or, where the disk refused it, as the Register FIS said; or ICRC, where more Data
/// came than it asked for. Where a command of another kind ended the queued ones, or no error stands, it has NQ.
pub fn log_tells_of_failure()
    ensures { LogTellsOfFailure }
{
    block_engine::failures_are_own();
}
