//! What is true of turns.

ghost use Rattle.ahci_controller.specs.Fairness.{DevicesComeRound, SlotsComeRound};

/// Laws of [`Controller::next`](crate::Controller::next), over any list of its turns; the call runs no code. A command that may
/// go waits for at most 31 others of their turn, and Data that may go for at most 15 other devices, whatever comes in between.
pub fn turns_come_round()
    ensures slots { SlotsComeRound }
    ensures devices { DevicesComeRound }
{}
