//! Pages of a log as words, and back.

ghost use Rattle.ata_command.specs.Saved.{KeepsPage, page_apart, put_page};

use super::LogPage;
use saved_state::{RestoreError, Saved, Words};
use std::alloc::{AllocError, Global};

impl Saved for LogPage {
    ghost put = { put_page };

    ghost keeps = { KeepsPage };

    ghost told_apart = { page_apart };

    fn save(&self, words: &mut Words) -> Result<(), AllocError> {
        self.dma.save(words)?;
        self.count.save(words)?;
        self.page.save(words)?;
        self.log.save(words)
    }

    fn restore(alloc: Global, words: &mut Words) -> Result<LogPage, RestoreError> {
        match <((u8, u16), (u16, bool))>::restore(alloc, words) {
            Ok(((log, page), (count, dma))) => Ok(LogPage {
                log,
                page,
                count,
                dma,
            }),
            Err(error) => Err(error),
        }
    }
}
