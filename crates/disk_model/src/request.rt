//! What a Register Host to Device FIS asks of a disk (ACS-3, commands).

ghost use Rattle.std.specs.Prelude.{◌≡◌, ◌<◌, ◌≤◌};
ghost use Rattle.disk_model.specs.Requests.{Asks, IsCounted, command_request, names_error_log, queued_command, request_of, sectors_asked};

use fis_view::RegH2D;

/// A queued command: READ FPDMA QUEUED or WRITE FPDMA QUEUED.
#[derive(Clone, Copy, Debug, PartialEq, Eq)]
pub struct Command {
    /// Whether it writes.
    pub write: bool,
    /// Its tag, 0 to 31.
    pub tag: u8,
    /// Its first sector, 48 bits.
    pub lba: u64,
    /// How many sectors it moves, 1 to 65,536.
    pub count: u32,
}

/// What a Register Host to Device FIS asks for.
#[derive(Clone, Copy, Debug)]
pub enum Request {
    /// No command: the new SRST bit of the Device Control register.
    Reset(bool),
    /// READ FPDMA QUEUED, 60h, or WRITE FPDMA QUEUED, 61h.
    Queue(Command),
    /// READ LOG EXT, 2Fh, of the first page of the NCQ Command Error log.
    ReadErrorLog,
    /// IDENTIFY DEVICE, ECh.
    Identify,
    /// FLUSH CACHE EXT, EAh.
    Flush,
    /// Any other command, also the read of another log.
    Other,
}

/// How many sectors a queued command asks for, by its Features.
fn asked(features: u16) -> u32
    ensures count { result ≡ sectors_asked features }
    ensures some { 0 < result }
    ensures most { result ≤ 65536 }
{
    if features == 0 {
        65536
    } else {
        features as u32
    }
}

fn queued(fis: &RegH2D<'_>, write: bool) -> Command
    ensures command { result ≡ queued_command fis.now write }
    ensures counted { IsCounted result }
    ensures tag { result.tag < 32 }
{
    Command {
        write,
        tag: (fis.count() % 256 / 8) as u8,
        lba: fis.lba(),
        count: asked(fis.features()),
    }
}

/// Whether READ LOG EXT asks for the first page of the NCQ Command Error log, log 10h.
fn is_error_log(fis: &RegH2D<'_>) -> bool
    ensures { result ≡ names_error_log fis.now }
{
    let lba = fis.lba();
    lba % 256 == 0x10 && lba / 256 % 256 == 0 && fis.count() == 1
}

fn by_code(fis: &RegH2D<'_>, code: u8) -> Request
    ensures request { result ≡ command_request fis.now code }
    ensures asks { Asks result }
{
    match code {
        0x60 => Request::Queue(queued(fis, false)),
        0x61 => Request::Queue(queued(fis, true)),
        0x2F if is_error_log(fis) => Request::ReadErrorLog,
        0xEC => Request::Identify,
        0xEA => Request::Flush,
        _ => Request::Other,
    }
}

impl Request {
    /// What this FIS asks for.
    pub fn of(fis: &RegH2D<'_>) -> Request
        ensures request { result ≡ request_of fis.now }
        ensures asks { Asks result }
    {
        if fis.c() {
            by_code(fis, fis.command())
        } else {
            Request::Reset(fis.control() / 4 % 2 == 1)
        }
    }
}
