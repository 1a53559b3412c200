//! The commands that are sent from a slot, and the bits of PxSACT that fall.

ghost use Rattle.machine_theorem.specs.Orders.{CommandsAreSentOnce};

/// A law for callers; it runs no code. Over each stretch of a run of a machine from its opening: the command of a slot is sent once for each issue, and
/// a queued one that was sent stands until the slot's bit of PxSACT falls. So from each slot no more queued commands are sent, of some devices, than its
/// bit falls while such a command stands there, but the one that stands at the end, if none did at the beginning. Whatever takes the bit: a FIS of
/// a device, or a write that stops the port.
pub fn commands_are_sent_once()
    ensures { CommandsAreSentOnce }
{
    machine_laws::controller_goes_on();
    machine_laws::controller_has_its_laws();
    controller_laws::events_are_core_events();
}
