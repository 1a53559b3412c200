//! What the controller has to do.

ghost use Rattle.std.specs.Prelude.{◌≡◌, ◌<◌, None, Some, IfNone, IfOk, IfSome, OnErr, OnOk, slice_set};
ghost use Rattle.std.specs.Option.{option_map};
ghost use Rattle.ahci_machine.specs.Acts.{AwaitsAt, GathersBy, HasWritten, MayDo, MissesOf, TurnsNext, feeding, lent_by};
ghost use Rattle.ahci_machine.specs.Gathers.{asked_for, host_stamp as host_stamp_of};
ghost use Rattle.ahci_machine.specs.Resting.{IsToldAll, NoneGathers, NoneGoes, NoneIsTaken, NoneRises, NothingIsDone};
ghost use Rattle.ahci_machine.specs.States.{gathering_at};

use crate::act::Act;
use crate::gathering::{Feed, Gathering, Waits, host_stamp};
use crate::machine::{Lent, Machine};
use crate::request::GuestRead;
use ahci_controller::{Fed, Hindrance, Next};
use fis_view::Frame;
use multiplier::PmRefusal;
use std::alloc::{AllocError, Global};

// What of a write is lent.
fn lent(write: Next) -> Lent
    ensures { result ≡ lent_by write }
{
    match write {
        Next::Payload(step) | Next::Posted(step) => Lent::Frame {
            from: step.from,
            len: step.len,
        },
        Next::Counted(count) => Lent::Count(count.value.to_le_bytes()),
        _ => Lent::Nothing,
    }
}

impl Machine {
    /// What is to be written to the guest for the frame that was taken last, and for bytes that moved.
    pub(crate) fn write_next(&mut self) -> Option<Act>
        ensures does { MayDo self.old result self.new }
        ensures none { IfNone result (HasWritten self.old) }
    {
        if !self.writing && !self.controller.has_writes() {
            return None;
        }
        match self.controller.next_write() {
            Some(write) => {
                self.lent = lent(write);
                Some(Act::Writes(write))
            }
            None => {
                self.writing = false;
                if self.taken {
                    self.incoming = None;
                    self.taken = false;
                }
                Some(Act::LetsGo)
            }
        }
    }

    /// What the caller is to know of the interrupt, once nothing is to be written to the guest.
    pub(crate) fn tell_next(&mut self) -> Option<Act>
        requires { HasWritten self.old }
        ensures does { MayDo self.old result self.new }
        ensures none { IfNone result (IsToldAll self.old) }
    {
        let line = self.controller.line();
        if line != self.told {
            self.told = line;
            return Some(Act::Line(line));
        }
        if self.message {
            self.message = false;
            return Some(Act::Message);
        }
        None
    }

    /// What the controller says to do next.
    pub(crate) fn turn_next(&mut self) -> Next
        requires kept { self.old.kept ≡ None }
        requires written { HasWritten self.old }
        ensures { TurnsNext result self.old self.new }
    {
        let next = self.controller.next();
        self.hints.said(&next);
        self.kept = match next {
            Next::Nothing => None,
            _ => Some(next),
        };
        next
    }

    // A command FIS is on its way to a device.
    fn order(&mut self, alloc: Global, dev: u8, fis: [u8; 20]) -> Result<(), AllocError>
        ensures ok { OnOk result (self.new ≡ record self.old { outgoing = Some (record { bytes = fis; stamp = host_stamp_of dev }) }) }
        ensures err { OnErr result (self.new ≡ self.old) }
    {
        match Frame::from_bytes(alloc, &fis, host_stamp(dev)) {
            Ok(frame) => {
                self.outgoing = Some(frame);
                Ok(())
            }
            Err(_) => Err(AllocError),
        }
    }

    // The bytes of a Data FIS are to be read.
    fn feed(&mut self, alloc: Global, feed: Feed) -> Result<(), AllocError>
        ensures ok { OnOk result
            (self.new ≡ record self.old { gathering = feeding self.old feed.dev feed.number feed.slot feed.offset feed.len }) }
        ensures err { OnErr result (self.new ≡ self.old) }
    {
        if feed.dev < 16 {
            self.gathering[usize::from(feed.dev)] = Some(Gathering::new(alloc, feed)?);
            self.hints.feeds(feed.dev);
        }
        Ok(())
    }

    /// What the controller said to do next is done, where no frame is on its way to the devices.
    pub(crate) fn do_next(&mut self, alloc: Global) -> Result<Option<Act>, AllocError>
        ensures ok { IfOk result (λ act. MayDo self.old act self.new) }
        ensures none { IfOk result (λ act. IfNone act (NothingIsDone self.old)) }
        ensures err { OnErr result (self.new ≡ self.old) }
    {
        let Some(next) = self.kept else {
            return Ok(None);
        };
        match next {
            Next::Order { .. } if self.outgoing.is_some() => return Ok(None),
            Next::Order { dev, fis, .. } => self.order(alloc, dev, fis)?,
            Next::Feed {
                dev,
                number,
                slot,
                offset,
                len,
            } => self.feed(
                alloc,
                Feed {
                    dev,
                    number,
                    slot,
                    offset,
                    len,
                },
            )?,
            Next::Payload(_) | Next::Posted(_) | Next::Counted(_) => self.lent = lent(next),
            Next::Nothing | Next::Read(_) => {}
        }
        self.kept = None;
        Ok(Some(Act::Does(next)))
    }

    /// The frame on its way goes to the devices, where there is room.
    #[tactic(auto, using(crate::proofs::FanLemmas::sends_back))]
    pub(crate) fn send_next(&mut self, alloc: Global) -> Result<Option<Act>, AllocError>
        ensures ok { IfOk result (λ act. MayDo self.old act self.new) }
        ensures none { IfOk result (λ act. IfNone act (NoneGoes self.old)) }
        ensures err { OnErr result (self.new ≡ self.old) }
    {
        let Some(frame) = self.outgoing.take() else {
            return Ok(None);
        };
        let port = frame.pm_port();
        match self.fan.send(alloc, frame) {
            Ok(passed) => {
                self.hints.passes(port);
                Ok(Some(Act::Sends(passed)))
            }
            Err((frame, refusal)) => {
                self.outgoing = Some(frame);
                match refusal {
                    PmRefusal::HoldFull => Ok(None),
                    PmRefusal::OutOfMemory => Err(AllocError),
                }
            }
        }
    }

    // The Data FIS of a device is whole: it goes, if it is still due.
    fn gathered(&mut self, gathering: Gathering) -> Act
        ensures { GathersBy gathering self.old result self.new }
    {
        let dev = gathering.feed.dev;
        let fed = self.controller.gathered(dev, gathering.feed.number);
        match fed {
            Fed::Goes { message, .. } => {
                self.message = self.message || message;
                self.writing = true;
                self.outgoing = gathering.into_frame();
            }
            Fed::Stale | Fed::Ended | Fed::Missed { .. } => self.hints.turns = true,
        }
        Act::Gathers { dev, fed }
    }

    /// Some of the bytes of a Data FIS are no memory, or have no place.
    pub(crate) fn missed(&mut self, feed: Feed) -> Fed
        ensures { MissesOf feed result self.old self.new }
    {
        let fed = self.controller.not_there(feed.dev, feed.number);
        self.hints.turns = true;
        if let Fed::Missed { message, .. } = fed {
            self.message = self.message || message;
        }
        fed
    }

    // What the Data FIS of a device waits for, if there is one.
    fn waits(&self, dev: u8) -> Option<Waits>
        requires { dev < 16 }
        ensures none { IfNone result (gathering_at self.now dev ≡ None) }
        ensures some { IfSome result (λ waits. AwaitsAt self.now dev waits) }
    {
        match &self.gathering[usize::from(dev)] {
            Some(gathering) => Some(gathering.waits(&self.controller)),
            None => None,
        }
    }

    // These bytes of it are asked for.
    fn want(&mut self, dev: u8, read: GuestRead)
        requires { dev < 16 }
        ensures { self.new ≡ record self.old {
          gathering = slice_set self.old.gathering dev (option_map (λ g. asked_for g read.len) (gathering_at self.old dev));
        } }
    {
        if let Some(gathering) = &mut self.gathering[usize::from(dev)] {
            gathering.ask(read.len);
        }
    }

    /// The Data FIS of a device goes on: its next bytes are wanted, or it goes where no other frame is on its way, and what the
    /// controller said is done.
    pub(crate) fn gather_next(&mut self, dev: u8) -> Option<Act>
        requires { dev < 16 }
        ensures does { MayDo self.old result self.new }
        ensures none { IfNone result (NoneGathers self.old dev) }
    {
        let Some(waits) = self.waits(dev) else {
            self.hints.feeds_none(dev);
            return None;
        };
        match waits {
            Waits::Asked => None,
            Waits::Whole if self.kept.is_some() || self.outgoing.is_some() => None,
            Waits::Wants(read) => {
                self.want(dev, read);
                Some(Act::Wants(read))
            }
            Waits::Whole => {
                let gathering = self.gathering[usize::from(dev)].take()?;
                Some(self.gathered(gathering))
            }
            Waits::Nowhere => {
                let feed = self.gathering[usize::from(dev)].take()?.feed;
                Some(Act::Misses {
                    slot: feed.slot,
                    fed: self.missed(feed),
                })
            }
        }
    }

    /// The next frame of the devices is on its way to the controller, where none is.
    #[tactic(auto, using(crate::proofs::FanLemmas::none_up, crate::proofs::FanLemmas::refused_up))]
    pub(crate) fn rise_next(&mut self, alloc: Global) -> Result<Option<Act>, AllocError>
        ensures ok { IfOk result (λ act. MayDo self.old act self.new) }
        ensures none { IfOk result (λ act. IfNone act (NoneRises self.old)) }
        ensures err { OnErr result (self.new ≡ self.old) }
    {
        if self.incoming.is_some() {
            return Ok(None);
        }
        let Some(frame) = self.fan.next_up(alloc)? else {
            self.hints.none_rises();
            return Ok(None);
        };
        self.hints.at(frame.pm_port());
        self.hints.rose(frame.pm_port());
        self.incoming = Some(frame);
        Ok(Some(Act::Rises))
    }

    /// The controller takes the frame on its way, if it may. One that comes while the link is down is lost.
    pub(crate) fn take_next(&mut self) -> Option<Act>
        ensures does { MayDo self.old result self.new }
        ensures none { IfNone result (NoneIsTaken self.old) }
    {
        if self.taken {
            return None;
        }
        let Some(frame) = &self.incoming else {
            return None;
        };
        let _ = frame.bytes();
        match self.controller.take(frame) {
            Ok(took) => {
                self.hints.heard(frame);
                self.message = self.message || took.message;
                self.taken = true;
                self.writing = true;
                Some(Act::Takes(took))
            }
            Err(Hindrance::NotReceiving | Hindrance::Writing) => None,
            Err(hindrance) => {
                self.incoming = None;
                Some(Act::Loses(hindrance))
            }
        }
    }
}
