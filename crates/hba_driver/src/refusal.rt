//! Why a request is refused.

ghost use Rattle.std.specs.Prelude.{◌≡◌, ◌≤◌, All, None, length};
ghost use Rattle.std.specs.List.{list_any};
ghost use Rattle.host_memory.specs.Writing.{CanBeWritten};
ghost use Rattle.hba_driver.specs.Requests.{device_refusal, is_bad_count as is_bad_count_of, is_bad_prd as is_bad_prd_of, is_mismatch as is_mismatch_of, shape_refusal as shape_refusal_of};

use crate::plan::Device;
use crate::request::{Request, SubmitError};
use host_memory::{Prd, total_of};

/// The end of the driver's buffer, which is the start of the client area.
const REQUESTS: u32 = 0x10_0200;

impl Device {
    /// Why the device takes no request.
    pub(crate) fn refusal(self) -> Option<SubmitError>
        ensures { result ≡ device_refusal self }
    {
        match self {
            Device::Ready => None,
            Device::Recovering(_) => Some(SubmitError::Recovering),
            Device::Absent | Device::Starting | Device::Unusable => Some(SubmitError::NoDevice),
        }
    }
}

fn is_bad_count(request: &Request) -> bool
    ensures { result ≡ is_bad_count_of request.now }
{
    if request.work.is_flush() {
        request.sectors != 0
    } else {
        request.sectors == 0 || request.sectors > 256 || request.lba >= 0x1_0000_0000_0000
    }
}

fn is_mismatch(request: &Request) -> bool
    ensures { result ≡ is_mismatch_of request.now }
{
    request.prds.len() > 248 || total_of(&request.prds) != u64::from(request.sectors) * 512
}

fn is_bad_prd(end: u32, prd: Prd) -> bool
    ensures { result ≡ is_bad_prd_of end prd }
{
    prd.address % 2 == 1
        || prd.bytes % 2 == 1
        || prd.bytes == 0
        || prd.bytes > 0x40_0000
        || prd.address < REQUESTS
        || u64::from(end) < u64::from(prd.address) + u64::from(prd.bytes)
}

fn have_bad_prd(end: u32, prds: &[Prd]) -> bool
    ensures { result ≡ list_any (is_bad_prd_of end) prds.now }
{
    prds.iter().any(|prd| is_bad_prd(end, *prd))
}

/// Why a request is refused because of what it is, for a client area that ends at `end`.
pub(crate) fn shape_refusal(end: u32, request: &Request) -> Option<SubmitError>
    ensures { result ≡ shape_refusal_of end request.now }
{
    if is_bad_count(request) {
        return Some(SubmitError::BadCount);
    }
    if is_mismatch(request) {
        return Some(SubmitError::LengthMismatch);
    }
    have_bad_prd(end, &request.prds).then_some(SubmitError::BadPrd)
}
