//! The links of a world, by the two ends that each joins.

/// A link of a world.
#[derive(Clone, Copy, Debug, PartialEq, Eq)]
pub enum Hop {
    /// From the host to the multiplier.
    HostToPm,
    /// From the multiplier to the host.
    PmToHost,
    /// From the device at this port to the multiplier.
    DeviceToPm(u8),
    /// From the multiplier to the device at this port.
    PmToDevice(u8),
}
