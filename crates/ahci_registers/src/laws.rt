//! Laws over any list of events and of writes.

ghost use Rattle.ahci_registers.specs.Laws.{ErrorsStand, IsDueAtACause, IsRaisedUntilTaken, IsToldAgain, NothingIsLostBetween, ReservedReadZero, RisesByAMessage, StandsUntilTaken, TakesOnes, TakesOnlyOnes};
ghost use Rattle.ahci_registers.specs.LinkLaws.{FallsByAReset, RisesByLinkUp, StaysWhileStarted, UpSetsX};

/// Laws of the interrupts over any list of events; the call runs no code. A cause stands until a write takes
/// it, and the line is raised as long as PxIE enables the cause and GHC.IE is 1. A write takes the ones that
/// are written and nothing else, except that GHC.HR takes all. A cause that came after PxIS was read, and was
/// not among the bits read, still stands after those bits are written back, if no other write took it. The bits
/// that show PxSERR stand whatever is written to PxIS. A message is due at each cause that PxIE enables, while
/// GHC.IE is 1. If the line is raised at some time after a write of a one to IS, a message was due at that
/// write or since. Bits that do not exist in PxIS and PxIE read 0, if they did before.
pub fn interrupts_follow_events()
    ensures stands { StandsUntilTaken }
    ensures raised { IsRaisedUntilTaken }
    ensures between { NothingIsLostBetween }
    ensures kept { TakesOnlyOnes }
    ensures taken { TakesOnes }
    ensures errors { ErrorsStand }
    ensures at_a_cause { IsDueAtACause }
    ensures rises { RisesByAMessage }
    ensures again { IsToldAgain }
    ensures reserved { ReservedReadZero }
{}

/// Laws of the link over any list of writes of PxSCTL; the call runs no code. While ST is 1 a write leaves
/// what is asked of the interface. A link that was up and no longer is has been reset on the way. A link that
/// was not up and now is has come up, and then PxSERR.DIAG.X and N stand.
pub fn link_follows_writes()
    ensures started { StaysWhileStarted }
    ensures falls { FallsByAReset }
    ensures rises { RisesByLinkUp }
    ensures exchanged { UpSetsX }
{}
