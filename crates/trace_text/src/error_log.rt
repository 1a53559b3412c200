//! The log that names the queued command that failed.

use crate::task_file::write_error;
use std::fmt;

/// The address of this log.
const ADDRESS: u8 = 0x10;

/// READ LOG EXT.
const READ_LOG: u8 = 0x2F;

/// What an NCQ Command Error log says (ACS-3, A.14).
#[derive(Clone, Copy)]
pub struct ErrorLog {
    /// The tag of the command that failed; None if that was not a queued one.
    pub tag: Option<u8>,
    pub error: u8,
    /// The first sector that failed.
    pub lba: u64,
    /// Whether its bytes add up to 0. If not, nothing of it counts.
    pub is_whole: bool,
}

impl ErrorLog {
    /// The log of this page of 512 bytes; None if it is not so long.
    pub fn of(page: &[u8]) -> Option<ErrorLog> {
        if page.len() != 512 {
            return None;
        }
        let [
            first,
            _,
            _,
            error,
            low0,
            low1,
            low2,
            _,
            high0,
            high1,
            high2,
            ..
        ] = page
        else {
            return None;
        };
        let spelled = [*high2, *high1, *high0, *low2, *low1, *low0];
        let lba = spelled
            .iter()
            .fold(0u64, |value, byte| value << 8 | u64::from(*byte));
        let sum = page.iter().fold(0u8, |sum, byte| sum.wrapping_add(*byte));
        Some(ErrorLog {
            tag: (*first & 0x80 == 0).then_some(*first & 0x1F),
            error: *error,
            lba,
            is_whole: sum == 0,
        })
    }

    /// The log that this Data FIS carries as the answer to this command, if it does.
    pub fn carried(command: &[u8], frame: &[u8]) -> Option<ErrorLog> {
        let name = command.get(2).copied();
        let address = command.get(4).copied();
        match frame {
            [0x46, _, _, _, page @ ..] if name == Some(READ_LOG) && address == Some(ADDRESS) => {
                ErrorLog::of(page)
            }
            _ => None,
        }
    }
}

impl fmt::Display for ErrorLog {
    fn fmt<W: fmt::Write>(&self, f: &mut fmt::Formatter<W>) -> fmt::Result {
        if !self.is_whole {
            return f.write_str("bytes that do not add up to 0, so it names no command");
        }
        let Some(tag) = self.tag else {
            return f.write_str("the command that failed was not queued");
        };
        write!(f, "tag {tag}, ")?;
        write_error(self.error, f)?;
        write!(f, " at lba {}", self.lba)
    }
}
