//! The pages that the disk gives of itself.

ghost use Rattle.std.specs.Prelude.{◌≡◌, length, IfSome, None, Some};
ghost use Rattle.sata_disk.specs.Pages.{IsErrorOf, IsLog, IsPage, IsTold};

use ata_front::{Fault, Front, Page, Trouble};
use disk_pages::{LogPage, NcqError, Profile, identify, smart_page};

/// What the NCQ Command Error log has of a queued command that failed.
fn error_of(tag: u8, trouble: Trouble) -> NcqError
    ensures { IsErrorOf result tag trouble }
{
    NcqError {
        tag: tag % 32,
        error: trouble.error.code(),
        lba: trouble.lba % (1 << 48),
        count: 0,
    }
}

/// What the NCQ Command Error log tells.
fn told(fault: Option<Fault>) -> Option<NcqError>
    ensures { IsTold fault result }
{
    match fault {
        Some(Fault::Queued(tag, trouble)) => Some(error_of(tag, trouble)),
        Some(Fault::Mixed) | None => None,
    }
}

/// Writes a page of a log.
#[tactic(auto, using(crate::proofs::PageLemmas::log_written))]
fn write_log(profile: &Profile, front: Front, page: LogPage, bytes: &mut [u8])
    requires { length bytes.old ≡ 512 }
    ensures { IsLog profile.now front (Some page) bytes.new }
{
    match page {
        LogPage::NcqError => page.write(profile, &front.settings, told(front.fault), bytes),
        _ => page.write(profile, &front.settings, None, bytes),
    }
}

/// Writes a page of 512 bytes. A log that is not there has only zeros.
pub(crate) fn write_page(profile: &Profile, front: Front, page: Page, bytes: &mut [u8])
    requires { length bytes.old ≡ 512 }
    ensures { IsPage profile.now front page bytes.new }
{
    match page {
        Page::Identity => identify(profile, &front.settings, bytes),
        Page::Log(log) => match LogPage::named(log.log, log.page) {
            Some(page) => write_log(profile, front, page, bytes),
            None => bytes.fill(0),
        },
        Page::SmartData | Page::SmartThresholds => smart_page(bytes),
    }
}
