//! How a disk goes about its commands, and what it says of itself.

ghost use Rattle.std.specs.Prelude.{◌≡◌, false, []};

use arrayvec::ArrayVec;

/// Which queued command a disk starts next.
#[derive(Clone, Copy, Debug, PartialEq, Eq)]
pub enum Order {
    /// The one that came first.
    Oldest,
    /// The one that came last.
    Newest,
}

/// What a disk says of itself in its IDENTIFY DEVICE data (ACS-3, 7.12).
#[derive(Clone, Copy, Debug, PartialEq, Eq)]
pub enum Profile {
    /// Its queue and its size, and zeros: what the driver of this repository reads.
    Bare,
    /// What drivers of operating systems and their tools read: a serial number, which ends in these
    /// eight hexadecimal digits, a model, the size in 28 bits, the modes of transfer, the versions
    /// of the standards and a checksum.
    Stock(u32),
}

/// How a disk goes about its commands, and what it says of itself.
#[derive(Drop)]
pub struct DiskPlan {
    /// Which queued command is started next.
    pub order: Order,
    /// The most bytes that one DMA Setup moves: a multiple of 512, from 512 to 8,192.
    pub chunk: u16,
    /// Whether the chunks of a command go downwards, from its last sectors.
    pub last_first: bool,
    /// The LBAs of the sectors that cannot be read.
    pub bad: ArrayVec<u32, 16>,
    /// Whether bit A in the DMA Setup of a write says that the data may come at once. If so, no DMA Activate
    /// is sent.
    pub auto: bool,
    /// What its IDENTIFY DEVICE data say.
    pub profile: Profile,
}

impl DiskPlan {
    /// The oldest command first, chunks of 8,192 bytes, upwards, no bad sectors, no auto-activate, and the
    /// bare profile.
    pub fn plain() -> Self
        ensures order { result.order ≡ Order.Oldest }
        ensures chunk { result.chunk ≡ 8192 }
        ensures last_first { result.last_first ≡ false }
        ensures bad { result.bad.items ≡ [] }
        ensures auto { result.auto ≡ false }
        ensures profile { result.profile ≡ Profile.Bare }
    {
        DiskPlan {
            order: Order::Oldest,
            chunk: 8192,
            last_first: false,
            bad: ArrayVec::new(),
            auto: false,
            profile: Profile::Bare,
        }
    }
}
