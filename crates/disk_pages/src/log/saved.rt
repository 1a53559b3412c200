//! Pages of logs as words, and back.

ghost use Rattle.disk_pages.specs.Saved.{page_apart, put_page};

use super::LogPage;
use saved_state::{RestoreError, Saved, Words};
use std::alloc::{AllocError, Global};

impl Saved for LogPage {
    ghost put = { put_page };

    ghost keeps = { λ _. Unit {0} };

    ghost told_apart = { page_apart };

    fn save(&self, words: &mut Words) -> Result<(), AllocError> {
        words.push(match self {
            LogPage::Directory => 1,
            LogPage::NcqError => 2,
            LogPage::PageList => 3,
            LogPage::Identity => 4,
        })
    }

    fn restore(_alloc: Global, words: &mut Words) -> Result<LogPage, RestoreError> {
        match words.pop().ok_or(RestoreError::Short)? {
            1 => Ok(LogPage::Directory),
            2 => Ok(LogPage::NcqError),
            3 => Ok(LogPage::PageList),
            4 => Ok(LogPage::Identity),
            _ => Err(RestoreError::NoSuch),
        }
    }
}
