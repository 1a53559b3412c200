//! What a host waits for as words, and back.

ghost use Rattle.ata_front.specs.Saved.{KeepsFault, KeepsMoving, KeepsPage, KeepsTask, KeepsTrouble, fault_apart, moving_apart, page_apart, purpose_apart, put_fault, put_moving, put_page, put_purpose, put_task, put_trouble, task_apart, trouble_apart};

use super::{Fault, Moving, Page, Purpose, Task, Trouble};
use ata_command::LogPage;
use ata_reply::{AtaError, Reply};
use saved_state::{RestoreError, Saved, Words};
use std::alloc::{AllocError, Global};

impl Saved for Trouble {
    ghost put = { put_trouble };

    ghost keeps = { KeepsTrouble };

    ghost told_apart = { trouble_apart };

    fn save(&self, words: &mut Words) -> Result<(), AllocError> {
        self.lba.save(words)?;
        self.error.save(words)
    }

    fn restore(alloc: Global, words: &mut Words) -> Result<Trouble, RestoreError> {
        match <(AtaError, u64)>::restore(alloc, words) {
            Ok((error, lba)) => Ok(Trouble { error, lba }),
            Err(error) => Err(error),
        }
    }
}

impl Saved for Fault {
    ghost put = { put_fault };

    ghost keeps = { KeepsFault };

    ghost told_apart = { fault_apart };

    fn save(&self, words: &mut Words) -> Result<(), AllocError> {
        match self {
            Fault::Mixed => words.push(1),
            Fault::Queued(tag, trouble) => {
                trouble.save(words)?;
                tag.save(words)?;
                words.push(2)
            }
        }
    }

    fn restore(alloc: Global, words: &mut Words) -> Result<Fault, RestoreError> {
        match words.pop().ok_or(RestoreError::Short)? {
            1 => Ok(Fault::Mixed),
            2 => {
                let tag = u8::restore(alloc, words)?;
                let trouble = Trouble::restore(alloc, words)?;
                Ok(Fault::Queued(tag, trouble))
            }
            _ => Err(RestoreError::NoSuch),
        }
    }
}

impl Saved for Page {
    ghost put = { put_page };

    ghost keeps = { KeepsPage };

    ghost told_apart = { page_apart };

    fn save(&self, words: &mut Words) -> Result<(), AllocError> {
        match self {
            Page::Identity => words.push(1),
            Page::Log(page) => {
                page.save(words)?;
                words.push(2)
            }
            Page::SmartData => words.push(3),
            Page::SmartThresholds => words.push(4),
        }
    }

    fn restore(alloc: Global, words: &mut Words) -> Result<Page, RestoreError> {
        match words.pop().ok_or(RestoreError::Short)? {
            1 => Ok(Page::Identity),
            2 => Ok(Page::Log(LogPage::restore(alloc, words)?)),
            3 => Ok(Page::SmartData),
            4 => Ok(Page::SmartThresholds),
            _ => Err(RestoreError::NoSuch),
        }
    }
}

impl Saved for Purpose {
    ghost put = { put_purpose };

    ghost keeps = { λ _. Unit {0} };

    ghost told_apart = { purpose_apart };

    fn save(&self, words: &mut Words) -> Result<(), AllocError> {
        words.push(match self {
            Purpose::Flush => 1,
            Purpose::CacheOff => 2,
            Purpose::Discard => 3,
        })
    }

    fn restore(_alloc: Global, words: &mut Words) -> Result<Purpose, RestoreError> {
        match words.pop().ok_or(RestoreError::Short)? {
            1 => Ok(Purpose::Flush),
            2 => Ok(Purpose::CacheOff),
            3 => Ok(Purpose::Discard),
            _ => Err(RestoreError::NoSuch),
        }
    }
}

impl Saved for Moving {
    ghost put = { put_moving };

    ghost keeps = { KeepsMoving };

    ghost told_apart = { moving_apart };

    fn save(&self, words: &mut Words) -> Result<(), AllocError> {
        self.left.save(words)?;
        self.wide.save(words)
    }

    fn restore(alloc: Global, words: &mut Words) -> Result<Moving, RestoreError> {
        match <(bool, u32)>::restore(alloc, words) {
            Ok((wide, left)) => Ok(Moving { wide, left }),
            Err(error) => Err(error),
        }
    }
}

impl Saved for Task {
    ghost put = { put_task };

    ghost keeps = { KeepsTask };

    ghost told_apart = { task_apart };

    fn save(&self, words: &mut Words) -> Result<(), AllocError> {
        let number = match self {
            Task::Idle => 1,
            Task::Owes(reply) => {
                reply.save(words)?;
                2
            }
            Task::Moves(moving) => {
                moving.save(words)?;
                3
            }
            Task::Waits(purpose) => {
                purpose.save(words)?;
                4
            }
            Task::Announces(page) => {
                page.save(words)?;
                5
            }
            Task::Gives(page) => {
                page.save(words)?;
                6
            }
            Task::Sends(page) => {
                page.save(words)?;
                7
            }
            Task::Activates(blocks) => {
                blocks.save(words)?;
                8
            }
            Task::Expects(blocks) => {
                blocks.save(words)?;
                9
            }
        };
        words.push(number)
    }

    fn restore(alloc: Global, words: &mut Words) -> Result<Task, RestoreError> {
        match words.pop().ok_or(RestoreError::Short)? {
            1 => Ok(Task::Idle),
            2 => Ok(Task::Owes(Reply::restore(alloc, words)?)),
            3 => Ok(Task::Moves(Moving::restore(alloc, words)?)),
            4 => Ok(Task::Waits(Purpose::restore(alloc, words)?)),
            5 => Ok(Task::Announces(Page::restore(alloc, words)?)),
            6 => Ok(Task::Gives(Page::restore(alloc, words)?)),
            7 => Ok(Task::Sends(Page::restore(alloc, words)?)),
            8 => Ok(Task::Activates(u16::restore(alloc, words)?)),
            9 => Ok(Task::Expects(u16::restore(alloc, words)?)),
            _ => Err(RestoreError::NoSuch),
        }
    }
}
