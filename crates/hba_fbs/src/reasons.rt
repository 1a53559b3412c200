//! Why a FIS is ignored, and which slot a fault is about.

ghost use Rattle.std.specs.Prelude.{◌≡◌, ◌<◌, is_some, IfSome};
ghost use Rattle.fis_view.specs.Seen.{seen};
ghost use Rattle.slots.specs.Slots.{slots_of};
ghost use Rattle.hba_fbs.specs.Reasons.{concerned as concerned_of, ignored_for};
ghost use Rattle.hba_fbs.specs.Taking.{ignores, port_of};
ghost use Rattle.hba_fbs.specs.Views.{view_of};

use crate::port::PortCore;
use crate::post::signs;
use fis_view::{Fis, FisFault, Frame};

/// Why a FIS is ignored.
#[derive(Clone, Copy, Debug, PartialEq, Eq)]
pub enum Ignored {
    /// PxCMD.ST is 0.
    Stopped,
    /// An error stopped the port.
    PortFaulty,
    /// Its device is faulty.
    DeviceFaulty,
    /// Its device is in software reset, and it is no signature.
    NoSignature,
    /// With command-based switching: it is a FIS of a transfer, and nothing is issued for its device.
    Unasked,
}

impl PortCore {
    fn ignored_for(&self, dev: u8, fis: &Result<Fis<'_>, FisFault>) -> Option<Ignored>
        requires { dev < 16 }
        ensures { result ≡ ignored_for dev self.now (view_of dev self.now) fis.now }
    {
        if !self.registers.started {
            return Some(Ignored::Stopped);
        }
        if self.errors.stopped() {
            return Some(Ignored::PortFaulty);
        }
        if self.errors.faulty(dev) {
            return Some(Ignored::DeviceFaulty);
        }
        if self.states[dev as usize].resetting && !signs(fis) {
            return Some(Ignored::NoSignature);
        }
        self.passes_over(dev, fis).then_some(Ignored::Unasked)
    }

    /// Why [`take`](PortCore::take) ignores a frame, None where it hears it. A frame that was ignored changed nothing, so this
    /// can be asked afterwards.
    pub fn why_ignored(&self, frame: &Frame) -> Option<Ignored>
        ensures value { let dev = port_of frame.now.bytes in
            result ≡ ignored_for dev self.now (view_of dev self.now) (seen frame.now.bytes) }
        ensures exact { is_some result ≡ ignores (port_of frame.now.bytes) self.now frame.now.bytes }
    {
        let dev = frame.pm_port();
        let fis = frame.fis();
        self.ignored_for(dev, &fis)
    }

    /// The slot that a fault of a device is about, as PxCMD.CCS shows it after an error: the slot that waits for an answer, or
    /// else that of the device's last setup.
    pub fn concerned(&self, dev: u8) -> Option<u8>
        requires { dev < 16 }
        ensures value { result ≡ concerned_of (slots_of dev self.now.slots) }
        ensures below { IfSome result (λ slot. slot < 32) }
    {
        self.slots.keeps_rules();
        if let Some(slot) = self.slots.waiting(dev) {
            return Some(slot);
        }
        let context = self.slots.context(dev)?;
        Some(context.slot)
    }
}
