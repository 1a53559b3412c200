//! What a command FIS asks for.

ghost use Rattle.std.specs.Prelude.{◌≡◌, ◌||◌, length};
ghost use Rattle.hba_commands.specs.Requests.{counted as counted_of, few_sectors as few_sectors_of, is_page as is_page_of, is_smart_page as is_smart_page_of, is_wide as is_wide_code, kind_of as kind_of_request, kind_of_command as kind_of_code, request_at, request_in, request_of, sectors as sectors_of, smart_kind as smart_kind_of, tag_of, work_of};

use fis_view::{Fis, H2dFields, RegH2D};
use slots::{Kind, Work};

/// The fields of a command FIS that say what the command is.
#[derive(Clone, Copy)]
pub(crate) struct Request {
    pub(crate) pm_port: u8,
    pub(crate) c: bool,
    pub(crate) command: u8,
    pub(crate) features: u16,
    pub(crate) count: u16,
}

// What SMART moves, by the low byte of Features.
fn smart_kind(feature: u8) -> Kind
    ensures { result ≡ smart_kind_of feature }
{
    match feature {
        0xD0 | 0xD1 | 0xD5 => Kind::PioIn,
        0xD6 => Kind::PioOut,
        _ => Kind::NoData,
    }
}

fn kind_of_command(command: u8, features: u16, count: u16) -> Kind
    ensures { result ≡ kind_of_code command features count }
{
    match command {
        0x60 => Kind::QueuedRead,
        0x61 => Kind::QueuedWrite,
        0x2F if count == 1 => Kind::PioIn,
        0xEC | 0xA1 | 0x20 | 0x24 | 0xC4 | 0x29 => Kind::PioIn,
        0xC8 | 0x25 | 0x47 => Kind::DmaIn,
        0xCA | 0x35 => Kind::DmaOut,
        0x30 | 0x34 | 0xC5 | 0x39 => Kind::PioOut,
        0xB0 => smart_kind((features % 256) as u8),
        _ => Kind::NoData,
    }
}

fn is_page(command: u8, count: u16) -> bool
    ensures { result ≡ is_page_of command count }
{
    command == 0x2F && count == 1 || command == 0xEC || command == 0xA1
}

fn is_smart_page(command: u8, features: u16) -> bool
    ensures { result ≡ is_smart_page_of command features }
{
    command == 0xB0 && matches!(features % 256, 0xD0 | 0xD1)
}

fn is_wide(command: u8) -> bool
    ensures { result ≡ is_wide_code command }
{
    matches!(command, 0x24 | 0x29 | 0x34 | 0x39 | 0x25 | 0x35 | 0x47)
}

// The number of sectors in a field of sixteen bits.
fn sectors(field: u16) -> u32
    ensures { result ≡ sectors_of field }
{
    if field == 0 {
        0x1_0000
    } else {
        u32::from(field)
    }
}

// The number of sectors in a Count of eight bits.
fn few_sectors(count: u16) -> u32
    ensures { result ≡ few_sectors_of count }
{
    if count % 256 == 0 {
        256
    } else {
        u32::from(count % 256)
    }
}

// The number of sectors of a command for sectors or for DMA.
fn counted(command: u8, count: u16) -> u32
    ensures { result ≡ counted_of command count }
{
    if is_wide(command) {
        sectors(count)
    } else {
        few_sectors(count)
    }
}

impl Request {
    /// What this FIS of 20 bytes asks for, if it is a Register Host to Device FIS.
    pub(crate) fn read(cfis: &[u8]) -> Option<Request>
        requires { length cfis.now ≡ 20 }
        ensures { result ≡ request_at cfis.now }
    {
        match Fis::of(cfis).ok()? {
            Fis::RegH2D(fis) => Some(Request::under(&fis)),
            _ => None,
        }
    }

    fn under(fis: &RegH2D<'_>) -> Request
        ensures { result ≡ request_in fis.now }
    {
        Request {
            pm_port: fis.pm_port(),
            c: fis.c(),
            command: fis.command(),
            features: fis.features(),
            count: fis.count(),
        }
    }

    /// What a FIS of these fields asks for.
    pub(crate) fn of(fields: &H2dFields) -> Request
        ensures { result ≡ request_of fields.now }
    {
        Request {
            pm_port: fields.pm_port % 16,
            c: fields.c,
            command: fields.command,
            features: fields.features,
            count: fields.count,
        }
    }

    pub(crate) fn kind(self) -> Kind
        ensures { result ≡ kind_of_request self }
    {
        if self.c {
            kind_of_command(self.command, self.features, self.count)
        } else {
            Kind::Control
        }
    }

    // One page, whatever Count says.
    fn is_page(self) -> bool
        ensures { result ≡ is_page_of self.command self.count || is_smart_page_of self.command self.features }
    {
        is_page(self.command, self.count) || is_smart_page(self.command, self.features)
    }

    #[tactic(auto, unfolding(crate::specs::Requests::work_of))]
    pub(crate) fn work(self) -> Work
        ensures { result ≡ work_of self }
    {
        let kind = self.kind();
        let len = match kind {
            Kind::QueuedRead | Kind::QueuedWrite => 512 * sectors(self.features),
            Kind::PioIn if self.is_page() => 512,
            Kind::DmaIn | Kind::DmaOut | Kind::PioIn | Kind::PioOut => {
                512 * counted(self.command, self.count)
            }
            Kind::NoData | Kind::Control => 0,
        };
        Work { kind, len }
    }

    /// The tag of a queued command.
    pub(crate) fn tag(self) -> u8
        ensures { result ≡ tag_of self }
    {
        (self.count % 256 / 8) as u8
    }
}

/// What a command FIS of these fields asks for.
pub fn asked_by(fields: &H2dFields) -> Work
    ensures { result ≡ work_of (request_of fields.now) }
{
    Request::of(fields).work()
}
