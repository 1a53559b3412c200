//! A caller of a port that holds no memory that has the laws of reports for the frames that it gives, and of what it chooses.
#![tactic(auto)]

ghost use Rattle.std.specs.Prelude.{ℕ, ◌≡◌, ◌<◌, false, true};
ghost use Rattle.slots.specs.Slots.{has_bit as has_bit_of};
ghost use Rattle.hba_fbs.specs.Choosing.{may_feed};
ghost use Rattle.hba_fbs.specs.Taking.{port_of};
ghost use Rattle.hba_fbs.specs.Views.{view_of};
ghost use Rattle.hba_laws.specs.Agreement.{IsTold};
ghost use Rattle.hba_laws.specs.CoreHistories.{FillsFrom, ReportsDoneBy};
ghost use Rattle.hba_laws.specs.History.{History};

use fis_view::Frame;
use hba_fbs::{PortCore, Room, TakeReport, Turn};

/// Takes a frame. Whatever happened to its device, the report has the bit of each slot that the frame completes there, and
/// no other.
pub fn takes(port: &mut PortCore, room: Room, frame: &Frame) -> TakeReport
    ensures { (past : History) → IsTold (view_of (port_of frame.now.bytes) port.old) past
        → ReportsDoneBy port.old room frame.now.bytes result past }
{
    hba_laws::core_delivers();
    port.keeps_rules();
    let _ = frame.bytes();
    port.take(room, frame)
}

fn has_bit(mask: u16, dev: u8) -> bool
    requires { dev < 16 }
    ensures { result ≡ has_bit_of mask dev }
{
    mask >> dev & 1 == 1
}

/// Lets data go to the device that its caller chose, if any is due to it. Whatever happened to the device, the bytes are those of
/// its history that come next.
pub fn feeds(port: &mut PortCore, dev: u8) -> Turn
    requires dev { dev < 16 }
    ensures none { may_feed port.old dev ≡ false → result ≡ Turn.Rests }
    ensures fills { (past : History) → (slot offset len : ℕ) → result ≡ Turn.Feeds dev slot offset len
        → IsTold (view_of dev port.old) past → FillsFrom slot offset len past }
{
    hba_laws::core_delivers();
    port.keeps_rules();
    if !has_bit(port.due_devices(), dev) {
        return Turn::Rests;
    }
    let turn = port.turn_of_device(dev);
    port.goes(turn);
    turn
}
