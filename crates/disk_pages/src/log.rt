//! The logs of READ LOG EXT and READ LOG DMA EXT (ACS-3, 7.24 and 9).
//!
//! Log 00h is the directory, log 10h the NCQ Command Error log, log 30h the IDENTIFY DEVICE data log with its pages 00h
//! and 01h. No other log and no other page is there: a command that reads one is aborted, Error 04h.

ghost use Rattle.std.specs.Prelude.{◌≡◌, ◌<◌, ◌+◌, length, nat_lt, is_some};
ghost use Rattle.disk_pages.specs.Logs.{directory, error_bytes, error_log, failed_bytes, log_bytes, log_named, page_list, pages_of, reads_log, unfailed_bytes};

mod saved;

use crate::bytes::{clear, close};
use crate::identity::identify;
use crate::ncq_error::NcqError;
use crate::profile::Profile;
use ata_command::Settings;

/// Log 00h: word n is how many pages log n has, word 0 the version.
#[tactic(auto, unfolding(crate::specs::Logs::directory))]
fn write_directory(page: &mut [u8])
    requires { length page.old ≡ 512 }
    ensures { page.new ≡ directory }
{
    clear(page);
    page[0] = 1;
    page[2 * 0x10] = 1;
    page[2 * 0x30] = 2;
}

/// Page 00h of log 30h: its revision, how many pages the log has, and the number of each.
#[tactic(auto, unfolding(crate::specs::Logs::page_list))]
fn write_page_list(page: &mut [u8])
    requires { length page.old ≡ 512 }
    ensures { page.new ≡ page_list }
{
    clear(page);
    page[0] = 1;
    page[8] = 2;
    page[10] = 1;
}

/// Log 10h after an error of a queued command, but for its checksum.
#[tactic(auto, unfolding(crate::specs::Logs::failed_bytes))]
fn write_failed(error: NcqError, page: &mut [u8])
    requires { length page.old ≡ 512 }
    ensures { page.new ≡ failed_bytes error }
{
    clear(page);
    page[0] = error.tag;
    page[2] = 0x41;
    page[3] = error.error;
    page[4] = (error.lba % 0x100) as u8;
    page[5] = (error.lba / 0x100 % 0x100) as u8;
    page[6] = (error.lba / 0x1_0000 % 0x100) as u8;
    page[7] = 0x40;
    page[8] = (error.lba / 0x100_0000 % 0x100) as u8;
    page[9] = (error.lba / 0x1_0000_0000 % 0x100) as u8;
    page[10] = (error.lba / 0x100_0000_0000 % 0x100) as u8;
    page[12] = (error.count % 0x100) as u8;
    page[13] = (error.count / 0x100) as u8;
}

/// Log 10h where no queued command failed, but for its checksum: NQ, bit 7 of byte 0, says so.
#[tactic(auto, unfolding(crate::specs::Logs::unfailed_bytes))]
fn write_unfailed(page: &mut [u8])
    requires { length page.old ≡ 512 }
    ensures { page.new ≡ unfailed_bytes }
{
    clear(page);
    page[0] = 0x80;
}

/// Log 10h but for its checksum.
fn write_error(error: Option<NcqError>, page: &mut [u8])
    requires { length page.old ≡ 512 }
    ensures { page.new ≡ error_bytes error }
{
    match error {
        None => write_unfailed(page),
        Some(error) => write_failed(error, page),
    }
}

/// Log 10h.
fn write_error_log(error: Option<NcqError>, page: &mut [u8])
    requires { length page.old ≡ 512 }
    ensures { page.new ≡ error_log error }
{
    write_error(error, page);
    close(page);
}

/// A page of a log.
#[derive(Clone, Copy, Debug, PartialEq, Eq)]
pub enum LogPage {
    /// Log 00h: how many pages each log has.
    Directory,
    /// Log 10h: the last error of a queued command.
    NcqError,
    /// Page 00h of log 30h: which pages that log has.
    PageList,
    /// Page 01h of log 30h: the IDENTIFY DEVICE data.
    Identity,
}

/// How many pages the log has; 0 for a log that is not there.
fn pages_of(log: u8) -> u16
    ensures { result ≡ pages_of log }
{
    match log {
        0x00 => 1,
        0x10 => 1,
        0x30 => 2,
        _ => 0,
    }
}

/// Whether READ LOG EXT of `count` pages from page `first` on can be served. If not, it is aborted.
pub fn reads_log(log: u8, first: u16, count: u16) -> bool
    ensures { result ≡ reads_log log first count }
{
    count > 0 && first as u32 + count as u32 <= pages_of(log) as u32
}

impl LogPage {
    /// The page of a log, if it is there: LBA 7:0 of the command names the log, LBA 39:32 and 15:8 its first page.
    pub fn named(log: u8, page: u16) -> Option<LogPage>
        ensures named { result ≡ log_named log page }
        ensures known { is_some result ≡ nat_lt page (pages_of log) }
    {
        match (log, page) {
            (0x00, 0) => Some(LogPage::Directory),
            (0x10, 0) => Some(LogPage::NcqError),
            (0x30, 0) => Some(LogPage::PageList),
            (0x30, 1) => Some(LogPage::Identity),
            _ => None,
        }
    }

    /// Writes the page, 512 bytes. `error` is the error of queued commands that was reported last, if its log is to be
    /// read yet.
    pub fn write(
        self,
        profile: &Profile,
        settings: &Settings,
        error: Option<NcqError>,
        page: &mut [u8],
    )
        requires { length page.old ≡ 512 }
        ensures { page.new ≡ log_bytes profile.now settings.now error self }
    {
        match self {
            LogPage::Directory => write_directory(page),
            LogPage::NcqError => write_error_log(error, page),
            LogPage::PageList => write_page_list(page),
            LogPage::Identity => identify(profile, settings, page),
        }
    }
}
