//! What log 10h keeps of a queued command that failed.

ghost use Rattle.std.specs.Prelude.{◌<◌};

/// The error of a queued command, as it is when the FIS goes out that reports it. Later commands do not change it.
#[derive(Clone, Copy, Debug, PartialEq, Eq)]
pub struct NcqError {
    /// The command's tag, below 32.
    pub tag: u8,
    /// The Error register.
    pub error: u8,
    /// The sector that failed, or the command's first one.
    pub lba: u64,
    /// The Count register.
    pub count: u16,
    pub ghost queued: { tag < 32 },
    pub ghost within: { lba < 0x1_0000_0000_0000 },
}
