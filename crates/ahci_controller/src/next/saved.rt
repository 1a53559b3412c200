//! What is next to do as words, and back.

ghost use Rattle.ahci_controller.specs.SavedNext.{next_words};

use super::Next;
use crate::fetching::Ask;
use guest_fetch::{ByteCount, Move, Want};
use saved_state::{RestoreError, Saved, Words};
use std::alloc::{AllocError, Global};

type OrderParts = (u8, (u8, [u8; 20]));

type FeedParts = ((u8, u64, u8), (u32, u32));

impl Saved for Next {
    ghost put = { next_words.put };

    ghost keeps = { next_words.keeps };

    ghost told_apart = { next_words.apart };

    fn save(&self, words: &mut Words) -> Result<(), AllocError> {
        match self {
            Next::Nothing => words.push(0),
            Next::Payload(write) => {
                write.save(words)?;
                words.push(1)
            }
            Next::Posted(write) => {
                write.save(words)?;
                words.push(2)
            }
            Next::Counted(count) => {
                (count.at, count.value).save(words)?;
                words.push(3)
            }
            Next::Read(ask) => {
                ((ask.slot, ask.number), (ask.want.at, ask.want.len as u64)).save(words)?;
                words.push(4)
            }
            Next::Order { dev, slot, fis } => {
                (*dev, (*slot, *fis)).save(words)?;
                words.push(5)
            }
            Next::Feed {
                dev,
                number,
                slot,
                offset,
                len,
            } => {
                ((*dev, *number, *slot), (*offset, *len)).save(words)?;
                words.push(6)
            }
        }
    }

    fn restore(alloc: Global, words: &mut Words) -> Result<Next, RestoreError> {
        match words.pop().ok_or(RestoreError::Short)? {
            0 => Ok(Next::Nothing),
            1 => Ok(Next::Payload(Move::restore(alloc, words)?)),
            2 => Ok(Next::Posted(Move::restore(alloc, words)?)),
            3 => {
                let at = u64::restore(alloc, words)?;
                let value = u32::restore(alloc, words)?;
                Ok(Next::Counted(ByteCount { at, value }))
            }
            4 => {
                let slot = u8::restore(alloc, words)?;
                let number = u64::restore(alloc, words)?;
                let at = u64::restore(alloc, words)?;
                let len = u64::restore(alloc, words)?;
                Ok(Next::Read(Ask {
                    slot,
                    number,
                    want: Want {
                        at,
                        len: len as usize,
                    },
                }))
            }
            5 => {
                let dev = u8::restore(alloc, words)?;
                let slot = u8::restore(alloc, words)?;
                let fis = <[u8; 20]>::restore(alloc, words)?;
                Ok(Next::Order { dev, slot, fis })
            }
            6 => {
                let dev = u8::restore(alloc, words)?;
                let number = u64::restore(alloc, words)?;
                let slot = u8::restore(alloc, words)?;
                let offset = u32::restore(alloc, words)?;
                let len = u32::restore(alloc, words)?;
                Ok(Next::Feed {
                    dev,
                    number,
                    slot,
                    offset,
                    len,
                })
            }
            _ => Err(RestoreError::NoSuch),
        }
    }
}
