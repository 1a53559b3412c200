//! How a host port tells its devices apart.

/// How the host port tells the devices behind its multiplier apart.
#[derive(Clone, Copy, Debug, PartialEq, Eq)]
pub enum Mode {
    /// FIS-based switching (PxFBS.EN 1): commands of several devices are issued at once.
    Switching,
    /// Command-based switching (EN 0): commands of one device at a time are issued.
    CommandBased,
}
