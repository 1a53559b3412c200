//! Answers as words, and back.

ghost use Rattle.ata_reply.specs.Saved.{KeepsAnnouncement, KeepsFailure, KeepsReply, KeepsSetUp, announcement_apart, error_apart, failure_apart, put_announcement, put_error, put_failure, put_reply, put_set_up, reply_apart, set_up_apart};

use super::{Announcement, AtaError, Failure, Reply, SetUp};
use saved_state::{RestoreError, Saved, Words};
use std::alloc::{AllocError, Global};

impl Saved for AtaError {
    ghost put = { put_error };

    ghost keeps = { λ _. Unit {0} };

    ghost told_apart = { error_apart };

    fn save(&self, words: &mut Words) -> Result<(), AllocError> {
        words.push(match self {
            AtaError::Aborted => 1,
            AtaError::NotFound => 2,
            AtaError::Uncorrectable => 3,
            AtaError::Interface => 4,
        })
    }

    fn restore(_alloc: Global, words: &mut Words) -> Result<AtaError, RestoreError> {
        match words.pop().ok_or(RestoreError::Short)? {
            1 => Ok(AtaError::Aborted),
            2 => Ok(AtaError::NotFound),
            3 => Ok(AtaError::Uncorrectable),
            4 => Ok(AtaError::Interface),
            _ => Err(RestoreError::NoSuch),
        }
    }
}

impl Saved for Failure {
    ghost put = { put_failure };

    ghost keeps = { KeepsFailure };

    ghost told_apart = { failure_apart };

    fn save(&self, words: &mut Words) -> Result<(), AllocError> {
        self.wide.save(words)?;
        self.lba.save(words)?;
        self.error.save(words)
    }

    fn restore(alloc: Global, words: &mut Words) -> Result<Failure, RestoreError> {
        match <(AtaError, u64, bool)>::restore(alloc, words) {
            Ok((error, lba, wide)) => Ok(Failure { error, lba, wide }),
            Err(error) => Err(error),
        }
    }
}

impl Saved for SetUp {
    ghost put = { put_set_up };

    ghost keeps = { KeepsSetUp };

    ghost told_apart = { set_up_apart };

    fn save(&self, words: &mut Words) -> Result<(), AllocError> {
        self.bytes.save(words)?;
        self.auto_activate.save(words)?;
        self.to_host.save(words)?;
        self.tag.save(words)
    }

    fn restore(alloc: Global, words: &mut Words) -> Result<SetUp, RestoreError> {
        match <((u8, bool), (bool, u32))>::restore(alloc, words) {
            Ok(((tag, to_host), (auto_activate, bytes))) => Ok(SetUp {
                tag,
                to_host,
                auto_activate,
                bytes,
            }),
            Err(error) => Err(error),
        }
    }
}

impl Saved for Announcement {
    ghost put = { put_announcement };

    ghost keeps = { KeepsAnnouncement };

    ghost told_apart = { announcement_apart };

    fn save(&self, words: &mut Words) -> Result<(), AllocError> {
        self.bytes.save(words)?;
        self.last.save(words)?;
        self.first.save(words)?;
        self.to_host.save(words)
    }

    fn restore(alloc: Global, words: &mut Words) -> Result<Announcement, RestoreError> {
        match <((bool, bool), (bool, u16))>::restore(alloc, words) {
            Ok(((to_host, first), (last, bytes))) => Ok(Announcement {
                to_host,
                first,
                last,
                bytes,
            }),
            Err(error) => Err(error),
        }
    }
}

impl Saved for Reply {
    ghost put = { put_reply };

    ghost keeps = { KeepsReply };

    ghost told_apart = { reply_apart };

    fn save(&self, words: &mut Words) -> Result<(), AllocError> {
        match self {
            Reply::Signature => words.push(1),
            Reply::Accepted => words.push(2),
            Reply::Done => words.push(3),
            Reply::Active => words.push(4),
            Reply::Healthy => words.push(5),
            Reply::Failed(failure) => {
                failure.save(words)?;
                words.push(6)
            }
            Reply::Ends(tags) => {
                tags.save(words)?;
                words.push(7)
            }
            Reply::Aborts(error) => {
                error.save(words)?;
                words.push(8)
            }
            Reply::SetUp(set_up) => {
                set_up.save(words)?;
                words.push(9)
            }
            Reply::Activate => words.push(10),
            Reply::Announce(announcement) => {
                announcement.save(words)?;
                words.push(11)
            }
        }
    }

    fn restore(alloc: Global, words: &mut Words) -> Result<Reply, RestoreError> {
        match words.pop().ok_or(RestoreError::Short)? {
            1 => Ok(Reply::Signature),
            2 => Ok(Reply::Accepted),
            3 => Ok(Reply::Done),
            4 => Ok(Reply::Active),
            5 => Ok(Reply::Healthy),
            6 => Ok(Reply::Failed(Failure::restore(alloc, words)?)),
            7 => Ok(Reply::Ends(u32::restore(alloc, words)?)),
            8 => Ok(Reply::Aborts(AtaError::restore(alloc, words)?)),
            9 => Ok(Reply::SetUp(SetUp::restore(alloc, words)?)),
            10 => Ok(Reply::Activate),
            11 => Ok(Reply::Announce(Announcement::restore(alloc, words)?)),
            _ => Err(RestoreError::NoSuch),
        }
    }
}
