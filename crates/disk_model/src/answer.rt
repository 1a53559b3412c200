//! What a disk owes the host, and the FISes that it sends.

ghost use Rattle.std.specs.Prelude.{◌≡◌, ◌+◌, ◌<◌, ◌≤◌, ◌%◌, ◌^◌, not, false, true, IfOk, length};
ghost use Rattle.disk_model.specs.Sendings.{Activates, Carries, Shows, answer_sent, bits, page_follows, register, setup};
ghost use Rattle.disk_model.specs.Chunks.{error_of, report};
ghost use Rattle.fis_view.specs.Frames.{IsPayload};

use crate::plan::DiskPlan;
use fis_view::{
    D2hFields, DmaActivateFields, DmaSetupFields, Frame, FrameError, PioSetupFields, SetBitsFields,
    Stamp, d2h, dma_activate, dma_setup, payload, pio_setup, set_bits,
};
use std::alloc::{AllocError, Global};

/// Why the disk takes no command: it is in its error mode, or in software reset.
#[derive(Clone, Copy, Debug)]
pub enum Fault {
    /// SRST was set, and the disk has not been plugged in since.
    Held,
    /// Queued commands were mixed with others, or a tag was queued twice.
    Mixed,
    /// The command with this tag failed, with this error, at this sector.
    Failed(u8, u8, u64),
}

/// The 512 bytes of a PIO data-in command.
#[derive(Clone, Copy, Debug)]
pub enum Page {
    /// The NCQ Command Error log, for this fault.
    ErrorLog(Option<Fault>),
    /// The IDENTIFY DEVICE data.
    Identity,
}

/// A FIS that waits to be sent.
#[derive(Clone, Copy, Debug)]
pub enum Answer {
    /// The signature of an ATA device.
    Signature,
    /// A command was queued.
    Accepted,
    /// A command that moves no data ended.
    Finished,
    /// A command was refused.
    Refused,
    /// The queued command with this tag ended.
    Ended(u8),
    /// A page follows.
    PageFollows,
    /// A page.
    PageData(Page),
}

/// A Register Device to Host FIS. `first` goes into LBA and Count.
fn register_frame(
    alloc: Global,
    i: bool,
    status: u8,
    error: u8,
    first: u8,
    stamp: Stamp,
) -> Result<Frame, AllocError>
    ensures shows { IfOk result (λ f. Shows (register i status error first) f.bytes) }
    ensures stamp { IfOk result (λ f. f.stamp ≡ stamp) }
{
    let fields = D2hFields {
        pm_port: 0,
        i,
        status,
        error,
        lba: first as u64,
        device: 0,
        count: first as u16,
    };
    d2h(alloc, &fields, stamp)
}

/// A Set Device Bits FIS with I.
fn bits_frame(
    alloc: Global,
    status: u8,
    error: u8,
    sactive: u32,
    stamp: Stamp,
) -> Result<Frame, AllocError>
    ensures shows { IfOk result (λ f. Shows (bits status error sactive) f.bytes) }
    ensures stamp { IfOk result (λ f. f.stamp ≡ stamp) }
{
    let fields = SetBitsFields {
        pm_port: 0,
        n: false,
        i: true,
        status,
        error,
        sactive,
    };
    set_bits(alloc, &fields, stamp)
}

/// The PIO Setup of a page.
fn page_follows_frame(alloc: Global, stamp: Stamp) -> Result<Frame, AllocError>
    ensures shows { IfOk result (λ f. Shows page_follows f.bytes) }
    ensures stamp { IfOk result (λ f. f.stamp ≡ stamp) }
{
    let fields = PioSetupFields {
        pm_port: 0,
        i: true,
        d: true,
        status: 0x58,
        error: 0,
        lba: 0,
        device: 0,
        count: 0,
        e_status: 0x50,
        transfer: 512,
    };
    pio_setup(alloc, &fields, stamp)
}

/// The DMA Setup of a chunk: its tag, its offset in the command and its length, both in bytes, whether it
/// goes to the host, and whether Data of the host may come without a DMA Activate.
pub fn setup_frame(
    alloc: Global,
    tag: u8,
    offset: u32,
    count: u32,
    d: bool,
    auto: bool,
    stamp: Stamp,
) -> Result<Frame, AllocError>
    ensures shows { IfOk result (λ f. Shows (setup tag offset count d auto) f.bytes) }
    ensures stamp { IfOk result (λ f. f.stamp ≡ stamp) }
{
    let fields = DmaSetupFields {
        pm_port: 0,
        a: auto && !d,
        i: false,
        d,
        buffer_id: tag as u64,
        offset,
        count,
    };
    dma_setup(alloc, &fields, stamp)
}

/// A DMA Activate FIS.
pub fn activate_frame(alloc: Global, stamp: Stamp) -> Result<Frame, AllocError>
    ensures shows { IfOk result (λ f. Shows Activates f.bytes) }
    ensures stamp { IfOk result (λ f. f.stamp ≡ stamp) }
{
    dma_activate(alloc, &DmaActivateFields { pm_port: 0 }, stamp)
}

/// A Data FIS.
pub fn data_frame(alloc: Global, bytes: &[u8], stamp: Stamp) -> Result<Frame, AllocError>
    requires some { 4 ≤ length bytes.now }
    requires short { length bytes.now ≤ 8192 }
    requires whole { length bytes.now % 4 ≡ 0 }
    ensures shows { IfOk result (λ f. Shows (Carries bytes.now) f.bytes) }
    ensures stamp { IfOk result (λ f. f.stamp ≡ stamp) }
{
    match payload(alloc, 0, bytes, stamp) {
        Ok(frame) => Ok(frame),
        Err(FrameError::OutOfMemory) => Err(AllocError),
        Err(FrameError::BadLength) => unreachable!(),
    }
}

/// The FIS that reports a fault.
pub fn report_frame(alloc: Global, fault: Fault, stamp: Stamp) -> Result<Frame, AllocError>
    ensures shows { IfOk result (λ f. Shows (report fault) f.bytes) }
    ensures stamp { IfOk result (λ f. f.stamp ≡ stamp) }
{
    let error = match fault {
        Fault::Held | Fault::Mixed => 0,
        Fault::Failed(_, error, _) => error,
    };
    bits_frame(alloc, 0x41, error, 0, stamp)
}

impl Answer {
    /// The FIS of the answer, for a disk with this many sectors and this plan.
    pub fn frame(
        self,
        alloc: Global,
        sectors: u32,
        plan: &DiskPlan,
        stamp: Stamp,
    ) -> Result<Frame, AllocError>
        ensures shows { IfOk result (λ f. Shows (answer_sent sectors plan.now self) f.bytes) }
        ensures stamp { IfOk result (λ f. f.stamp ≡ stamp) }
    {
        match self {
            Answer::Signature => register_frame(alloc, false, 0x50, 1, 1, stamp),
            Answer::Accepted => register_frame(alloc, false, 0x50, 0, 0, stamp),
            Answer::Finished => register_frame(alloc, true, 0x50, 0, 0, stamp),
            Answer::Refused => register_frame(alloc, true, 0x51, 4, 0, stamp),
            Answer::Ended(tag) => bits_frame(alloc, 0x50, 0, 1 << (tag % 32), stamp),
            Answer::PageFollows => page_follows_frame(alloc, stamp),
            Answer::PageData(page) => {
                let bytes = page.bytes(alloc, sectors, plan)?;
                data_frame(alloc, &bytes, stamp)
            }
        }
    }
}
