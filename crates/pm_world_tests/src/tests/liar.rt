//! A device of the tests' own, which claims what it did not do.

use disk_model::Device;
use fis_view::{Frame, FrameError, Stamp};
use std::alloc::{AllocError, Global};

/// A Set Device Bits FIS that says that all 32 queued commands have ended (Serial ATA 3.x, 10.5.7).
const CLAIM: [u8; 8] = [0xa1, 0x40, 0x50, 0, 0xff, 0xff, 0xff, 0xff];

/// A device that sends this many claims, whatever it hears.
#[derive(Drop)]
pub(super) struct Liar {
    pub(super) left: u8,
}

impl Device for Liar {
    ghost use Rattle.std.specs.Prelude.{[]};
    ghost use Rattle.disk_model.specs.Histories.{Script};

    ghost plan_of = { λ _. Script [] };

    ghost stands_for = { λ _ _. ⊥ };

    ghost may_send = { λ _ _ _. ⊥ };

    fn on_frame(&mut self, _alloc: Global, _frame: &Frame) -> Result<(), AllocError> {
        Ok(())
    }

    fn next_out(&mut self, alloc: Global, stamp: Stamp) -> Result<Option<Frame>, AllocError> {
        if self.left == 0 {
            return Ok(None);
        }
        match Frame::from_bytes(alloc, &CLAIM, stamp) {
            Ok(frame) => {
                self.left -= 1;
                Ok(Some(frame))
            }
            Err(FrameError::OutOfMemory) => Err(AllocError),
            Err(FrameError::BadLength) => unreachable!(),
        }
    }

    fn plugged(&mut self, _alloc: Global) -> Result<(), AllocError> {
        Ok(())
    }
}
