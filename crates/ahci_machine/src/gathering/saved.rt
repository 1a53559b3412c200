//! Bytes that are being read, as words, and back.

ghost use Rattle.ahci_machine.specs.Saved.{feed_words, gathering_words};

use super::{Feed, Gathering};
use saved_state::{RestoreError, Saved, SavedList, Words, save_list};
use std::alloc::{AllocError, Global};

type FeedParts = ((u8, u64, u8), (u32, u32));

type GatheringParts = ((Feed, SavedList<u8>), (u64, Option<u64>));

impl Saved for Feed {
    ghost put = { feed_words.put };

    ghost keeps = { feed_words.keeps };

    ghost told_apart = { feed_words.apart };

    fn save(&self, words: &mut Words) -> Result<(), AllocError> {
        ((self.dev, self.number, self.slot), (self.offset, self.len)).save(words)
    }

    fn restore(alloc: Global, words: &mut Words) -> Result<Feed, RestoreError> {
        match <FeedParts>::restore(alloc, words) {
            Ok(((dev, number, slot), (offset, len))) => Ok(Feed {
                dev,
                number,
                slot,
                offset,
                len,
            }),
            Err(error) => Err(error),
        }
    }
}

impl Saved for Gathering {
    ghost put = { gathering_words.put };

    ghost keeps = { gathering_words.keeps };

    ghost told_apart = { gathering_words.apart };

    fn save(&self, words: &mut Words) -> Result<(), AllocError> {
        (self.done as u64, self.asked.map(|len| len as u64)).save(words)?;
        save_list(&self.bytes, words)?;
        self.feed.save(words)
    }

    fn restore(alloc: Global, words: &mut Words) -> Result<Gathering, RestoreError> {
        match <GatheringParts>::restore(alloc, words) {
            Ok(parts) => {
                let (whole, rest) = parts;
                let (feed, bytes) = whole;
                let (done, asked) = rest;
                Ok(Gathering {
                    feed,
                    bytes: bytes.into_vec(),
                    done: done as usize,
                    asked: asked.map(|len| len as usize),
                })
            }
            Err(error) => Err(error),
        }
    }
}
