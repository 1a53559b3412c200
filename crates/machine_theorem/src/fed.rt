//! What a Data FIS has that goes to a device.

ghost use Rattle.machine_theorem.specs.Fed.{FedDataAreOfTheirSlots, FeedsStay};

/// A law for callers; it runs no code. Over every run of a machine from its opening: the payload of a Data FIS that goes to a device was read for the slot of
/// which the controller sends it, from the byte that goes next (`sent`). What is read for a device is for the slot and the byte that the controller said as it
/// began, until others are to be read (`stays`); and each read lies where the table of the slot's command says, behind what came (`sent_frames_are_supplied` of
/// `machine_laws`). So the payload is what the caller supplied for these bytes of the slot's command, in order. Which slot and which byte that is
/// [`fed_data_follow_setups`](crate::fed_data_follow_setups) says of a queued write, and [`single_data_go_in_order`](crate::single_data_go_in_order) of one
/// that is not queued.
pub fn fed_data_are_of_their_slots()
    ensures sent { FedDataAreOfTheirSlots }
    ensures stays { FeedsStay }
{
    controller_laws::events_are_core_events();
    controller_laws::issues_fall();
    hba_laws::core_delivers();
    machine_laws::controller_goes_on();
    machine_laws::controller_has_its_laws();
    machine_laws::sent_frames_are_supplied();
}
