ghost use Rattle.std.specs.Prelude.{◌≡◌, ◌≢◌, filter, [], IfNone, IfOk, IfSome, IsOk, OnErr, OnOk};
ghost use Rattle.fis_view.specs.Frames.{is_frame};
ghost use Rattle.disk_model.specs.Histories.{GoesOn, IsSilent, Plugged, Received, Script, SendsNext};

use crate::device::Device;
use fis_view::{Bytes, Frame, FrameError, Stamp, is_frame_length};
use std::alloc::{AllocError, Global};
use std::marker::Model;

/// A device that sends the frames of a script in order and ignores what it receives. Plugging it in
/// does not rewind the script.
#[derive(Drop)]
pub struct Scripted {
    frames: Vec<Bytes>,
    next: usize,
}

impl Model for Scripted {
    ghost use Rattle.std.specs.Prelude.{◌≤◌, drop, length, All};
    ghost use Rattle.fis_view.specs.Frames.{IsFrame};
    ghost use Rattle.disk_model.specs.Scripts.{Reading};

    ghost Value = { Reading };

    ghost view = { λ s. record { frames = s.frames.items; left = drop s.next s.frames.items } };

    ghost invariant = { λ s. (s.next ≤ length s.frames.items) × All IsFrame s.frames.items };
}

impl Scripted {
    ghost use Rattle.disk_model.specs.Scripts.{script_of, ScriptStandsFor};

    /// A device with this script. Bytes that are not a frame (4 to 8,196 bytes, a multiple of 4) are left
    /// out.
    pub fn new(mut frames: Vec<Bytes>) -> Self
        ensures plan { script_of result ≡ Script (filter is_frame frames.items) }
        ensures opening { ScriptStandsFor result [] }
        ensures left { result.left ≡ result.frames }
    {
        frames.retain(|bytes| is_frame_length(bytes.as_slice()));
        Scripted { frames, next: 0 }
    }
}

impl Device for Scripted {
    ghost use Rattle.disk_model.specs.Scripts.{script_of, ScriptStandsFor, ScriptMaySend};

    ghost plan_of = { script_of };

    ghost stands_for = { ScriptStandsFor };

    ghost may_send = { ScriptMaySend };

    fn on_frame(&mut self, _alloc: Global, _frame: &Frame) -> Result<(), AllocError>
        ensures ok { OnOk result (
            GoesOn script_of ScriptStandsFor self.old (Received _frame.now.bytes) self.new) }
        ensures err { OnErr result (self.new ≡ self.old) }
        // it takes no memory
        ensures done { IsOk result }
    {
        // What it hears changes nothing.
        Ok(())
    }

    fn next_out(&mut self, alloc: Global, stamp: Stamp) -> Result<Option<Frame>, AllocError>
        ensures sent { IfOk result (λ out. IfSome out (λ frame.
            SendsNext script_of ScriptStandsFor ScriptMaySend self.old frame.bytes self.new)) }
        ensures stamp { IfOk result (λ out. IfSome out (λ frame. frame.stamp ≡ stamp)) }
        ensures silent { IfOk result (λ out. IfNone out (
            IsSilent script_of ScriptStandsFor ScriptMaySend self.old)) }
        ensures same { IfOk result (λ out. IfNone out (self.new ≡ self.old)) }
        ensures err { OnErr result (self.new ≡ self.old) }
        // it takes memory for a frame that is left, and for nothing else
        ensures no_memory { OnErr result (self.old.left ≢ []) }
    {
        if self.next == self.frames.len() {
            return Ok(None);
        }
        let bytes = &self.frames[self.next];
        match Frame::from_bytes(alloc, bytes.as_slice(), stamp) {
            Ok(frame) => {
                self.next += 1;
                Ok(Some(frame))
            }
            Err(FrameError::OutOfMemory) => Err(AllocError),
            Err(FrameError::BadLength) => unreachable!(),
        }
    }

    fn plugged(&mut self, _alloc: Global) -> Result<(), AllocError>
        ensures ok { OnOk result (GoesOn script_of ScriptStandsFor self.old Plugged self.new) }
        ensures err { OnErr result (self.new ≡ self.old) }
        // it takes no memory
        ensures done { IsOk result }
    {
        // The script goes on where it was.
        Ok(())
    }
}
