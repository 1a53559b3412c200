//! What a command asks for.

ghost use Rattle.std.specs.Prelude.{◌≡◌};
ghost use Rattle.slots.specs.Work.{is_dma as is_dma_kind, is_out as is_out_kind, is_queued as is_queued_kind, is_read as is_read_kind, needs_all as needs_all_kind};
ghost use Rattle.slots.specs.Slots.{is_control as is_control_kind, is_pio as is_pio_kind};

mod saved;

/// What a command does with data.
#[derive(Clone, Copy, Debug, PartialEq, Eq)]
pub enum Kind {
    /// READ FPDMA QUEUED: data comes to the host by DMA, and a Set Device Bits FIS ends it (Serial ATA,
    /// native command queueing).
    QueuedRead,
    /// WRITE FPDMA QUEUED: data goes to the device by DMA, and a Set Device Bits FIS ends it.
    QueuedWrite,
    /// READ DMA and READ DMA EXT: data comes to the host by DMA with no setup, and a Register Device to Host
    /// FIS ends it.
    DmaIn,
    /// WRITE DMA and WRITE DMA EXT: data goes to the device, as often as a DMA Activate FIS asks for it, and
    /// a Register Device to Host FIS ends it.
    DmaOut,
    /// PIO data-in: data comes in blocks, each announced by a PIO Setup FIS.
    PioIn,
    /// PIO data-out: data goes in blocks, each asked for by a PIO Setup FIS, and a Register Device to Host
    /// FIS ends it.
    PioOut,
    /// A command without data, ended by a Register Device to Host FIS.
    NoData,
    /// A frame with C 0. It only writes the device's control register and has no answer of its own.
    Control,
}

/// What a command asks for: what it does with data, and how many bytes it moves.
#[derive(Clone, Copy, Debug, PartialEq, Eq)]
pub struct Work {
    /// What it does with data.
    pub kind: Kind,
    /// How many bytes it moves: a multiple of 4, at most 33,554,432. It is 0 for NoData and Control, and for no
    /// other kind.
    pub len: u32,
}

impl Kind {
    /// Whether it is READ or WRITE FPDMA QUEUED.
    pub fn is_queued(self) -> bool
        ensures { result ≡ is_queued_kind self }
    {
        match self {
            Kind::QueuedRead | Kind::QueuedWrite => true,
            Kind::DmaIn
            | Kind::DmaOut
            | Kind::PioIn
            | Kind::PioOut
            | Kind::NoData
            | Kind::Control => false,
        }
    }

    /// Whether its data goes to the host.
    pub fn is_read(self) -> bool
        ensures { result ≡ is_read_kind self }
    {
        match self {
            Kind::QueuedRead | Kind::DmaIn | Kind::PioIn => true,
            Kind::QueuedWrite | Kind::DmaOut | Kind::PioOut | Kind::NoData | Kind::Control => false,
        }
    }

    /// Whether it moves its data by DMA with no setup: READ or WRITE DMA.
    pub fn is_dma(self) -> bool
        ensures { result ≡ is_dma_kind self }
    {
        matches!(self, Kind::DmaIn | Kind::DmaOut)
    }

    pub(crate) fn is_out(self) -> bool
        ensures { result ≡ is_out_kind self }
    {
        matches!(self, Kind::PioOut)
    }

    /// Whether its device's answer ends it only once all its bytes were transferred.
    pub(crate) fn needs_all(self) -> bool
        ensures { result ≡ needs_all_kind self }
    {
        matches!(
            self,
            Kind::DmaIn | Kind::DmaOut | Kind::PioIn | Kind::PioOut
        )
    }

    pub(crate) fn is_pio(self) -> bool
        ensures { result ≡ is_pio_kind self }
    {
        matches!(self, Kind::PioIn)
    }

    pub(crate) fn is_control(self) -> bool
        ensures { result ≡ is_control_kind self }
    {
        matches!(self, Kind::Control)
    }
}
