//! Answers, and their FISes.

ghost use Rattle.std.specs.Prelude.{◌≡◌, ◌<◌, ◌≤◌, ◌%◌, not, false, true, IfOk, length};
ghost use Rattle.fis_view.specs.Frames.{IsPayload};
ghost use Rattle.ata_reply.specs.Replies.{Carries, Shows, announced, bits, code_of, device_of, lba_of, register, set_up};

mod saved;

use fis_view::{
    D2hFields, DmaActivateFields, DmaSetupFields, Frame, FrameError, PioSetupFields, SetBitsFields,
    Stamp, d2h, dma_activate, dma_setup, payload, pio_setup, set_bits,
};
use std::alloc::{AllocError, Global};

/// Why a command failed: a bit of the Error register (ACS-3, 6.2).
#[derive(Clone, Copy, Debug, PartialEq, Eq)]
pub enum AtaError {
    /// ABRT: the command is not supported, or what it asks for is not.
    Aborted,
    /// IDNF: the disk does not have a sector of it.
    NotFound,
    /// UNC: a sector cannot be read.
    Uncorrectable,
    /// ICRC, with ABRT: what came over the link is not what was to come.
    Interface,
}

impl AtaError {
    /// The Error register.
    pub fn code(self) -> u8
        ensures { result ≡ code_of self }
    {
        match self {
            AtaError::Aborted => 0x04,
            AtaError::NotFound => 0x10,
            AtaError::Uncorrectable => 0x40,
            AtaError::Interface => 0x84,
        }
    }
}

/// A command that is not queued failed.
#[derive(Clone, Copy, Debug, PartialEq, Eq)]
pub struct Failure {
    /// Why.
    pub error: AtaError,
    /// At which sector; 0 if at none. Bits 63:48 are cut.
    pub lba: u64,
    /// Whether the command has an LBA of 48 bits. In the answer to another, Device 3:0 has LBA 27:24.
    pub wide: bool,
}

/// The Data of a queued command follow.
#[derive(Clone, Copy, Debug, PartialEq, Eq)]
pub struct SetUp {
    /// The tag of the command, 0 to 31.
    pub tag: u8,
    /// Whether the Data go to the host.
    pub to_host: bool,
    /// Whether Data of the host may come without a DMA Activate FIS. It says nothing of Data to the host.
    pub auto_activate: bool,
    /// The bytes of the command.
    pub bytes: u32,
}

/// A DRQ data block of a PIO command follows.
#[derive(Clone, Copy, Debug, PartialEq, Eq)]
pub struct Announcement {
    /// Whether it goes to the host.
    pub to_host: bool,
    /// Whether it is the first of its command.
    pub first: bool,
    /// Whether it is the last of its command.
    pub last: bool,
    /// Its bytes.
    pub bytes: u16,
}

/// A FIS of a disk other than Data.
#[derive(Clone, Copy, Debug, PartialEq, Eq)]
pub enum Reply {
    /// The signature of an ATA device, after a plug or a reset.
    Signature,
    /// A queued command was taken.
    Accepted,
    /// A command that is not queued ended well.
    Done,
    /// CHECK POWER MODE: the disk is active or idle.
    Active,
    /// SMART RETURN STATUS: no threshold is exceeded.
    Healthy,
    /// A command that is not queued failed, or a queued one was not taken.
    Failed(Failure),
    /// The queued commands of these tags ended well, bit n for tag n.
    Ends(u32),
    /// A queued command failed, and all others ended with it.
    Aborts(AtaError),
    /// The Data of a queued command follow.
    SetUp(SetUp),
    /// The host may send Data.
    Activate,
    /// A DRQ data block of a PIO command follows.
    Announce(Announcement),
}

/// A Register Device to Host FIS.
fn register_frame(
    alloc: Global,
    i: bool,
    status: u8,
    error: u8,
    lba: u64,
    device: u8,
    count: u16,
    stamp: Stamp,
) -> Result<Frame, AllocError>
    ensures shows { IfOk result (λ f. register i status error lba device count f.bytes) }
    ensures stamp { IfOk result (λ f. f.stamp ≡ stamp) }
{
    let fields = D2hFields {
        pm_port: 0,
        i,
        status,
        error,
        lba,
        device,
        count,
    };
    d2h(alloc, &fields, stamp)
}

/// A Set Device Bits FIS with I.
fn bits_frame(
    alloc: Global,
    status: u8,
    error: u8,
    sactive: u32,
    stamp: Stamp,
) -> Result<Frame, AllocError>
    ensures shows { IfOk result (λ f. bits status error sactive f.bytes) }
    ensures stamp { IfOk result (λ f. f.stamp ≡ stamp) }
{
    let fields = SetBitsFields {
        pm_port: 0,
        n: false,
        i: true,
        status,
        error,
        sactive,
    };
    set_bits(alloc, &fields, stamp)
}

impl Failure {
    /// The LBA registers.
    fn lba(self) -> u64
        ensures { result ≡ lba_of self }
    {
        if self.wide {
            self.lba
        } else {
            self.lba % 0x100_0000
        }
    }

    /// The Device register.
    fn device(self) -> u8
        ensures { result ≡ device_of self }
    {
        if self.wide {
            0
        } else {
            (self.lba / 0x100_0000 % 16) as u8
        }
    }
}

impl SetUp {
    /// The DMA Setup FIS.
    fn frame(self, alloc: Global, stamp: Stamp) -> Result<Frame, AllocError>
        ensures shows { IfOk result (λ f. set_up self f.bytes) }
        ensures stamp { IfOk result (λ f. f.stamp ≡ stamp) }
    {
        let fields = DmaSetupFields {
            pm_port: 0,
            a: self.auto_activate && !self.to_host,
            i: false,
            d: self.to_host,
            buffer_id: self.tag as u64,
            offset: 0,
            count: self.bytes,
        };
        dma_setup(alloc, &fields, stamp)
    }
}

impl Announcement {
    /// The PIO Setup FIS.
    fn frame(self, alloc: Global, stamp: Stamp) -> Result<Frame, AllocError>
        ensures shows { IfOk result (λ f. announced self f.bytes) }
        ensures stamp { IfOk result (λ f. f.stamp ≡ stamp) }
    {
        let fields = PioSetupFields {
            pm_port: 0,
            i: self.to_host || !self.first,
            d: self.to_host,
            status: 0x58,
            error: 0,
            lba: 0,
            device: 0,
            count: 0,
            e_status: if self.to_host && self.last {
                0x50
            } else {
                0xD0
            },
            transfer: self.bytes,
        };
        pio_setup(alloc, &fields, stamp)
    }
}

/// A Data FIS (Serial ATA 3.x, 10.5.12).
pub fn data_frame(alloc: Global, bytes: &[u8], stamp: Stamp) -> Result<Frame, AllocError>
    requires some { 4 ≤ length bytes.now }
    requires short { length bytes.now ≤ 8192 }
    requires whole { length bytes.now % 4 ≡ 0 }
    ensures shows { IfOk result (λ f. Carries bytes.now f.bytes) }
    ensures stamp { IfOk result (λ f. f.stamp ≡ stamp) }
{
    match payload(alloc, 0, bytes, stamp) {
        Ok(frame) => Ok(frame),
        Err(FrameError::OutOfMemory) => Err(AllocError),
        Err(FrameError::BadLength) => unreachable!(),
    }
}

impl Reply {
    /// The FIS. Its PM Port is 0.
    pub fn frame(self, alloc: Global, stamp: Stamp) -> Result<Frame, AllocError>
        ensures shows { IfOk result (λ f. Shows self f.bytes) }
        ensures stamp { IfOk result (λ f. f.stamp ≡ stamp) }
    {
        match self {
            Reply::Signature => register_frame(alloc, false, 0x50, 1, 1, 0, 1, stamp),
            Reply::Accepted => register_frame(alloc, false, 0x50, 0, 0, 0, 0, stamp),
            Reply::Done => register_frame(alloc, true, 0x50, 0, 0, 0, 0, stamp),
            Reply::Active => register_frame(alloc, true, 0x50, 0, 0, 0, 0xFF, stamp),
            Reply::Healthy => register_frame(alloc, true, 0x50, 0, 0xC2_4F00, 0, 0, stamp),
            Reply::Failed(failure) => register_frame(
                alloc,
                true,
                0x51,
                failure.error.code(),
                failure.lba(),
                failure.device(),
                0,
                stamp,
            ),
            Reply::Ends(tags) => bits_frame(alloc, 0x50, 0, tags, stamp),
            Reply::Aborts(error) => bits_frame(alloc, 0x41, error.code(), 0, stamp),
            Reply::SetUp(set_up) => set_up.frame(alloc, stamp),
            Reply::Activate => dma_activate(alloc, &DmaActivateFields { pm_port: 0 }, stamp),
            Reply::Announce(announcement) => announcement.frame(alloc, stamp),
        }
    }
}
