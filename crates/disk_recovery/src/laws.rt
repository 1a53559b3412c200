//! Laws of a disk and the driver that serves it: up to its first fault, and whatever goes wrong. All of them
//! are laws for callers; they run no code.

ghost use Rattle.disk_recovery.specs.Apart.{AsideAt, LogBegins, ResetBegins};
ghost use Rattle.disk_recovery.specs.Kept.{CalmTurnsKeep, FlushOpens, OpensHonestly};
ghost use Rattle.disk_recovery.specs.Kept.{PushesGoOn, PushesKeep, TakesKeep};
ghost use Rattle.disk_recovery.specs.Together.{CalmTurnsGoOn, CalmTurnsKeepOn, FlushOpensOn};
ghost use Rattle.disk_recovery.specs.Together.{IgnoredKeepOn};
ghost use Rattle.disk_recovery.specs.Together.{LogBeginsServed, PushesServeOn, ResetBeginsServed};
ghost use Rattle.disk_recovery.specs.Together.{ServedSinceFlush, SignaturesKeepOn, SpoiltIsFree};
ghost use Rattle.disk_recovery.specs.Together.{TakesKeepOn};
ghost use Rattle.disk_recovery.specs.Unasked.{EachStaysUnasked, FaultsSetAside};
ghost use Rattle.disk_recovery.specs.Ends.{EachEndIsHonest, EndsGoOn, FloorsRise, FlushBegins};
ghost use Rattle.disk_recovery.specs.Flushes.{EndsSinceGoOn, FloorsRiseSince, FlushesAreTaken, SinceBegins};
ghost use Rattle.disk_recovery.specs.Resets.{ResetSetsAside};

/// When a host opens, and in the tick that flushes a disk, its driver begins to serve the disk honestly. It
/// still does after each turn in which no FIS of the disk is received or transmitted, that does not flush the
/// disk, and that ends no fault of it or of the port.
pub fn serves_honestly()
    ensures opens { OpensHonestly }
    ensures flushes { FlushOpens }
    ensures calm { CalmTurnsKeep }
{}

/// It still does after each turn that takes a FIS of the disk, if the FIS is right and the port finds no
/// fault in it.
pub fn takes_keep_honest()
    ensures { TakesKeep }
{}

/// It still does after each turn that asks the port for a frame. A FIS that is transmitted to the disk fits
/// what was told before.
pub fn pushes_keep_honest()
    ensures goes_on { PushesGoOn }
    ensures framed { PushesKeep }
{}

/// The driver begins to serve a disk where both begin anew: in the tick that flushes it, whatever happened
/// before it was plugged in; where SRST was cleared; and where the log of an error is read. A host that
/// served the disk honestly since its flush is such a host.
pub fn begins_to_serve()
    ensures since { ServedSinceFlush }
    ensures flushes { FlushOpensOn }
    ensures reset { ResetBeginsServed }
    ensures log { LogBeginsServed }
{}

/// From there it still serves the disk after each turn in which no FIS of the disk is received or
/// transmitted, that does not flush it, ends no fault of it or of the port, and issues no software reset of
/// it.
pub fn calm_turns_serve_on()
    ensures { CalmTurnsKeepOn }
{}

/// It still does after each turn that takes a FIS of the disk: one that is right and in which the port finds
/// no fault, the signature that ends a software reset, or one that the port ignores.
pub fn takes_serve_on()
    ensures right { TakesKeepOn }
    ensures signs { SignaturesKeepOn }
    ensures ignored { IgnoredKeepOn }
{}

/// It still does after each turn that asks the port for a frame. A FIS that is transmitted to the disk fits
/// what was told since both began anew; it is not a reset and not the log.
pub fn pushes_serve_on()
    ensures { PushesServeOn }
{}

/// Where such a turn issues the software reset of the disk, nothing of the disk was issued before. Nor is
/// anything issued while that reset is still to be issued because the disk's log was not whole.
pub fn resets_begin_free()
    ensures turns { CalmTurnsGoOn }
    ensures spoilt { SpoiltIsFree }
{}

/// A device that has a fault, or recovers from one, is set aside at each stage of slot 30, until driver and
/// disk begin anew: when the disk receives READ LOG EXT, or the FIS that clears SRST.
pub fn begins_anew_apart()
    ensures aside { AsideAt }
    ensures log { LogBegins }
    ensures reset { ResetBegins }
{}

/// From where both began anew, a device that the driver takes to be absent owes only its signature. So if the
/// port finds a fault in a FIS of the disk, the device is set aside, and the driver does not look for it.
pub fn stays_unasked()
    ensures stays { EachStaysUnasked }
    ensures faults { FaultsSetAside }
{}

/// The tick that issues the software reset of a disk sets the device aside.
pub fn resets_set_aside()
    ensures { ResetSetsAside }
{}

/// A disk and its host begin where the host flushed the disk. After each turn of the host and each step of
/// the disk they are either together, from where they began anew, or the device is set aside. When a request
/// is submitted, the number of the disk's writes that have ended by then is kept with it.
pub fn ends_go_on()
    ensures begins { FlushBegins }
    ensures goes_on { EndsGoOn }
    ensures rises { FloorsRise }
{}

/// Whatever went wrong before, what a report says is done was done honestly, after the writes that had ended
/// when the request was submitted.
pub fn each_end_is_honest()
    ensures { EachEndIsHonest }
{}

/// When a request is submitted, the number of FLUSHes that the disk has taken by then is kept with it, too. A
/// FLUSH that is transmitted is taken by the disk after these, or is on its way, over each turn of the host
/// and each step of the disk.
pub fn flushes_go_down()
    ensures begins { SinceBegins }
    ensures goes_on { EndsSinceGoOn }
    ensures rises { FloorsRiseSince }
{}

/// Whatever went wrong before, if a report says that a FLUSH is done, the disk took one since the request was
/// submitted.
pub fn flushes_are_taken()
    ensures { FlushesAreTaken }
{}
