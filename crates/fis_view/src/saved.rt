//! Frames as words, and back.

ghost use Rattle.fis_view.specs.Saved.{KeepsBytes, KeepsFrame, KeepsStamp, bytes_apart, frame_apart, put_bytes, put_frame, put_stamp, stamp_apart};

use crate::bytes::Bytes;
use crate::frame::{Frame, Stamp, is_frame_length};
use saved_state::{RestoreError, Saved, Words, restore_list, save_all, save_list};
use std::alloc::{AllocError, Global};

impl Saved for Bytes {
    ghost put = { put_bytes };

    ghost keeps = { KeepsBytes };

    ghost told_apart = { bytes_apart };

    fn save(&self, words: &mut Words) -> Result<(), AllocError> {
        save_list(self.as_slice(), words)
    }

    fn restore(alloc: Global, words: &mut Words) -> Result<Bytes, RestoreError> {
        match restore_list(alloc, words) {
            Ok(items) => Ok(Bytes::from_vec(items)),
            Err(error) => Err(error),
        }
    }
}

type StampParts = (u8, u32, (u32, [u32; 15]));

impl Saved for Stamp {
    ghost put = { put_stamp };

    ghost keeps = { KeepsStamp };

    ghost told_apart = { stamp_apart };

    fn save(&self, words: &mut Words) -> Result<(), AllocError> {
        save_all(&self.shown, words)?;
        self.number.save(words)?;
        self.conn.save(words)?;
        self.port.save(words)
    }

    fn restore(alloc: Global, words: &mut Words) -> Result<Stamp, RestoreError> {
        let (port, conn, (number, shown)) = match <StampParts>::restore(alloc, words) {
            Ok(parts) => parts,
            Err(error) => return Err(error),
        };
        Ok(Stamp {
            port,
            conn,
            number,
            shown,
        })
    }
}

impl Saved for Frame {
    ghost put = { put_frame };

    ghost keeps = { KeepsFrame };

    ghost told_apart = { frame_apart };

    fn save(&self, words: &mut Words) -> Result<(), AllocError> {
        save_list(self.bytes(), words)?;
        self.stamp().save(words)
    }

    fn restore(alloc: Global, words: &mut Words) -> Result<Frame, RestoreError> {
        let (stamp, bytes) = match <(Stamp, Bytes)>::restore(alloc, words) {
            Ok(parts) => parts,
            Err(error) => return Err(error),
        };
        if !is_frame_length(bytes.as_slice()) {
            return Err(RestoreError::Broken);
        }
        Ok(Frame::from_vec(bytes.into_vec(), stamp))
    }
}
