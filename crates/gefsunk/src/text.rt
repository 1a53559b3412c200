//! A FIS as text, without a handle.

ghost use Rattle.std.specs.Prelude.{◌≡◌, ◌≢◌, ◌<◌, ◌≤◌, IsTrue, false, drop, length, take};
ghost use Rattle.gefsunk.specs.Texts.{TextRule};

use crate::status::Status;
use arrayvec::ArrayString;
use fis_text::FisText;
use fis_view::{Fis, is_frame_length};
use std::fmt::Write;

/// Room for the longest line.
const LONGEST_LINE: usize = 160;

/// Copies the text into the room, if it is long enough, and says whether it is.
fn copied(text: &[u8], room: &mut [u8]) -> bool
    ensures room { length room.new ≡ length room.old }
    ensures fits { IsTrue result → length text.now ≤ length room.old }
    ensures short { result ≡ false → length room.old < length text.now }
    ensures put { IsTrue result → take (length text.now) room.new ≡ text.now }
    ensures kept { result ≡ false → room.new ≡ room.old }
    ensures rest { drop (length text.now) room.new ≡ drop (length text.now) room.old }
{
    if text.len() > room.len() {
        return false;
    }
    room[..text.len()].copy_from_slice(text);
    true
}

/// Writes the text of a FIS, without a 0 behind it, and its length. If the text does not fit, or the bytes
/// are not a FIS, nothing is written. It fits any room of 160 bytes.
pub fn fis_text(fis: &[u8], room: &mut [u8], len: &mut usize) -> Status
    ensures rule { TextRule fis.now result (length room.old) len.old len.new }
    ensures kept { result ≢ Status.Done → room.new ≡ room.old }
    ensures rest { drop len.new room.new ≡ drop len.new room.old }
{
    if !is_frame_length(fis) {
        return Status::BadLength;
    }
    let Ok(view) = Fis::of(fis) else {
        return Status::WrongLength;
    };
    let mut line = ArrayString::<LONGEST_LINE>::new();
    // The line has room for each text: it would cut a longer one.
    let _ = write!(line, "{}", FisText(view));
    let text = line.as_str().as_bytes();
    if !copied(text, room) {
        return Status::TooShort;
    }
    *len = text.len();
    Status::Done
}
