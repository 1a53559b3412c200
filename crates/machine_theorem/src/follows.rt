//! Where the Data of queued commands go and come from, by the FISes that set them up.

ghost use Rattle.machine_theorem.specs.Asking.{DataGoAsAsked};
ghost use Rattle.machine_theorem.specs.Feeding.{FedDataFollowSetups};
ghost use Rattle.machine_theorem.specs.Following.{DataFollowSetups};

/// A law for callers; it runs no code. Over each stretch of calls of a controller that begins while nothing is set up for a device, and in which the
/// FISes of this device are heard and nothing is wrong with them: where a Data FIS brings bytes for a slot in which a queued read is issued, the slot
/// is the tag of the DMA Setup FIS of this device that came last, and the first byte has the number that this FIS says, and the bytes of Data behind it.
/// So a setup of another device, a command that is issued meanwhile, or an answer changes nothing of that. Data that go past their table are left out.
pub fn data_follow_setups()
    ensures { DataFollowSetups }
{
    controller_laws::events_are_core_events();
    hba_laws::core_delivers();
}

/// A law for callers; it runs no code. Over each stretch of calls of a controller that begins while nothing is set up for a device, and in which the
/// FISes of this device are heard and nothing is wrong with them: where a Data FIS goes to the device, it has as many bytes as are due of a slot, in which a
/// command of the device is issued, and no read. If it is a queued write, the slot is the tag of the DMA Setup FIS of this device that came last, and the
/// first byte has the number that this FIS says, and the bytes of Data that went behind it. So a setup of another device, a command that is issued
/// meanwhile, or an answer changes nothing of that.
pub fn fed_data_follow_setups()
    ensures { FedDataFollowSetups }
{
    controller_laws::events_are_core_events();
    hba_laws::core_delivers();
}

/// A law for callers; it runs no code. Over each such stretch Data go to the device only as it asked for them: behind a DMA Activate FIS, a PIO Setup FIS or
/// a DMA Setup FIS that lets them go at once, and one Data FIS for each of these.
pub fn data_go_as_asked()
    ensures { DataGoAsAsked }
{
    controller_laws::events_are_core_events();
}
