//! What can come next on a link.

ghost use Rattle.link_items.specs.OrderLaws.{DeviceCounts, DeviceGoesOn, DeviceNumbers, HostBounds, HostGoesOn, HostNumbers};

/// A law for callers, of the orders alone; it runs no code. One more FIS is in order exactly where it can
/// follow the others. A device's connection and the number of its next FIS decide what it can send. Two
/// bounds for each port decide what can go to the host. The numbers of a connection are 0, 1, 2, .. without a
/// gap.
pub fn order_goes_on()
    ensures device { DeviceGoesOn }
    ensures device_counts { DeviceCounts }
    ensures device_numbers { DeviceNumbers }
    ensures host { HostGoesOn }
    ensures host_bounds { HostBounds }
    ensures host_numbers { HostNumbers }
{}
