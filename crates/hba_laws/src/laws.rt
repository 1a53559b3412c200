//! The laws, in the order in which one reads them: what stays sound, what stays in place, what is delivered, of reads and
//! of writes, how long a fault stands, and what a device owes to its own events alone.

ghost use Rattle.hba_laws.specs.Alike.{HistoriesByOwn, OwnFillAlike};
ghost use Rattle.hba_laws.specs.Causes.{DeviceCausesStay, OthersFaultNone, PortCausesStay};
ghost use Rattle.hba_laws.specs.Client.{CompletesInPlace, StandsInPlace};
ghost use Rattle.hba_laws.specs.CoreCauses.{CoreDeviceCausesStay, CoreOthersFaultNone, CorePortCausesStay};
ghost use Rattle.hba_laws.specs.CoreHistories.{CoreChoicesFilled, CoreDataIsWithin, CoreDoneIsCompleted, CoreFillAlike, CoreFreedByOwn, CoreHistoriesByOwn, CoreOpensUntold, CoreReportsFilled, CoreSendsFilled, CoreViewsAreTold};
ghost use Rattle.hba_laws.specs.Cores.{CoreGoesByView, HostsAreCores, HostsFoldByCore, IsFoldByOwn};
ghost use Rattle.hba_laws.specs.Delivering.{ClientIsTouched, DataIsWithin, DoneIsCompleted, DoneReadsStand, HistoriesAreParts, OpensUntold, SparedTablesRead, ViewsAreTold};
ghost use Rattle.hba_laws.specs.History.{CompletesOnce};
ghost use Rattle.hba_laws.specs.Isolation.{AreAlike, GoesByOwn, IsFoldOfOwn};
ghost use Rattle.hba_laws.specs.Keeping.{KeptTablesStay};
ghost use Rattle.hba_laws.specs.Sent.{DataIsGathered, SentFromPlace, SentStandsInPlace};
ghost use Rattle.hba_laws.specs.Sound.{OpensSound, RegistersStaySound, SizesStay};
ghost use Rattle.hba_laws.specs.Tables.{BytesStay, IssuedStayReadable, TablesStay};

/// A law for callers; it runs no code. A new port beside a new memory is sound: its registers, its slots with
/// their commands, its errors and its memory keep their rules. Every event keeps the rules of the registers
/// and of the errors, and the sizes of memory. No call gives the rule of the slots in full;
/// [`HostPort::keeps_rules`](hba_fbs::HostPort::keeps_rules) gives it for every port.
pub fn stays_sound()
    ensures opens { OpensSound }
    ensures registers { RegistersStaySound }
    ensures sizes { SizesStay }
{}

/// A law for callers; it runs no code. Over every list of events, including those of the port, bytes of the
/// structure area outside the received area stay as they are, as long as the software does not write them or
/// move the received area. So the PRDs of a command there read as they did at its issue, and can be read.
pub fn tables_stay()
    ensures bytes { BytesStay }
    ensures tables { TablesStay }
    ensures issued { IssuedStayReadable }
{}

/// A law for callers; it runs no code. It says what is delivered over every list of events, from every sound
/// host and with every history of its devices; a port that opens has none yet. A device's view says what its
/// history says. A slot is reported as done exactly where the frame completes what its own device had there,
/// and that happens at most once. Client memory is the bytes before, with what software wrote and what Data
/// filled. Each byte of Data goes to the place that the command's table named at its issue; the table reads
/// the same while nobody changes it. Data fills nothing beyond an issued read. While issued reads do not
/// overlap and writes of the software avoid them, each filled byte of a read stands at its place, and all of
/// them do at the event that completes the read.
pub fn delivers()
    ensures agrees { ViewsAreTold }
    ensures opens { OpensUntold }
    ensures parts { HistoriesAreParts }
    ensures done { DoneIsCompleted }
    ensures once { CompletesOnce }
    ensures client { ClientIsTouched }
    ensures tables { SparedTablesRead }
    ensures kept { KeptTablesStay }
    ensures within { DataIsWithin }
    ensures standing { StandsInPlace }
    ensures placed { CompletesInPlace }
    ensures stands { DoneReadsStand }
{}

/// A law for callers; it runs no code. It holds over every list of events, with every history of the devices,
/// whatever they send. Each filled byte of a write was in Data of its device. It is what client memory had,
/// at that time, at the place that the write's table named at its issue. While the write is issued, does not
/// overlap issued reads, and writes of the software avoid it, the byte stands at its place.
pub fn writes_are_gathered()
    ensures gathered { DataIsGathered }
    ensures sent { SentFromPlace }
    ensures standing { SentStandsInPlace }
{}

/// A law for callers; it runs no code. Over every list of events, the cause of a device's fault stays the
/// same until the device is flushed or cleared by PxFBS.DEC, or PxCMD.ST falls. What stopped the port stays
/// until PxCMD.ST falls. Events that are not a FIS of a device and do not clear it leave its fault as it was,
/// or leave it without one.
pub fn causes_stay()
    ensures kept { DeviceCausesStay }
    ensures own { OthersFaultNone }
    ensures port { PortCausesStay }
{}

/// A law for callers, isolation; it runs no code. Take any list of events without an event of the port as a
/// whole. What belongs to a device is then the fold of its own events, whatever the others send, fail or
/// lose: its view, the commands of its slots and its row of the received area. Its own events are the frames
/// from it and to it, the commands issued for it, the clearing of its error by PxFBS.DEC, its flushes and the
/// writes of its row. What goes out to it follows from what belongs to it. The same holds for bytes: its
/// history, and so what each byte of its slots is filled with, follows from its own events, the PRDs of the
/// commands issued for it and the bytes transmitted to it.
pub fn isolated()
    ensures fold { IsFoldOfOwn }
    ensures alike { AreAlike }
    ensures goes { GoesByOwn }
    ensures told { HistoriesByOwn }
    ensures filled { OwnFillAlike }
{}

/// A law for callers, isolation for a port that holds no memory; it runs no code. Whatever room its tables have, and
/// whatever commands are offered, what belongs to a device is the fold of its own events. It is the fold of a host, but
/// that Data may go past its table. Its history follows from the same events, and so does what its slots are filled
/// with. Each event of a host is one of its core, with the answers that its memory gives.
pub fn core_isolated()
    ensures fold { IsFoldByOwn }
    ensures goes { CoreGoesByView }
    ensures told { CoreHistoriesByOwn }
    ensures filled { CoreFillAlike }
    ensures hosts { HostsAreCores }
    ensures derived { HostsFoldByCore }
{}

/// A law for callers; it runs no code. It says what a port that holds no memory decides, over every list of its
/// events and with every history of a device; a port that opens has none yet. A device's view says what its history
/// says. A slot is reported as done exactly where the frame completes what its own device had there, which happens
/// at most once. Data is within what is issued. The slot and the numbers of its bytes, as reports and turns tell
/// them, are those that the history fills.
pub fn core_delivers()
    ensures agrees { CoreViewsAreTold }
    ensures opens { CoreOpensUntold }
    ensures done { CoreDoneIsCompleted }
    ensures once { CompletesOnce }
    ensures within { CoreDataIsWithin }
    ensures reports { CoreReportsFilled }
    ensures sends { CoreSendsFilled }
    ensures chosen { CoreChoicesFilled }
    ensures freed { CoreFreedByOwn }
{}

/// A law for callers; it runs no code. How long the cause of a fault stands at a port that holds no memory: as
/// beside a memory.
pub fn core_causes_stay()
    ensures kept { CoreDeviceCausesStay }
    ensures own { CoreOthersFaultNone }
    ensures port { CorePortCausesStay }
{}
