//! How the frame given last is put back.

mod saved;

use fis_view::Stamp;

/// Where a frame came from when it went up.
#[derive(Clone, Copy, Debug, PartialEq, Eq)]
pub enum Source {
    /// The hold of a device port. The PM Port field of the frame was this.
    Held(u8),
    /// The waiting answer of the control port.
    Answer,
    /// A notification.
    Notice,
}

/// The frame that the last call gave, and what is restored when it is put back.
#[derive(Clone, Copy, Debug, PartialEq, Eq)]
pub enum Given {
    /// A frame for the host.
    Up {
        /// The place that was served before it.
        before: u8,
        /// Where it came from.
        source: Source,
        /// Its stamp.
        stamp: Stamp,
    },
    /// A frame for a device.
    Down {
        /// The port of the device.
        port: u8,
        /// Its stamp.
        stamp: Stamp,
    },
}
