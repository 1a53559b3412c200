//! The disk.

ghost use Rattle.std.specs.Prelude.{◌≡◌, ◌<◌, ◌≤◌, ◌↔◌, Err, IfOk, IfSome, IfNone, OnErr, OnOk, None, Some, false, true};
ghost use Rattle.fis_view.specs.declared.frame.FrameError.TheVariants as FrameError;
ghost use Rattle.std.specs.List.{All};
ghost use Rattle.std.specs.Result.{result_err};
ghost use Rattle.fis_view.specs.Seen.{seen};
ghost use Rattle.block_queue.specs.Line.{command_at, may_send};
ghost use Rattle.block_engine.specs.Engine.{IsEngineStart, IsRequested, StartsWrite, answer_refusal, answered, discarded_at, started, stored_at};
ghost use Rattle.ata_front.specs.Fronts.{heard_data, owed, standing};
ghost use Rattle.ata_front.specs.declared.task.Task.TheVariants as tasks;
ghost use Rattle.sata_disk.specs.State.{AsksWithin, DiskState, IsWithin, commands, new_disk, sectors_of, tags_of};
ghost use Rattle.sata_disk.specs.Hearing.{MayAct, MayHear, MayRange, TakesWithin, acted, carries_data, command_told, command_unheard, data_heard, data_unheard, discarding, fis_heard, fis_unheard, plugged, ranges_of, register_heard, register_told, register_unheard};
ghost use Rattle.sata_disk.specs.Sending.{IsFis, IsOut, after_sent, beside_reply, command_sent, is_framed, out_at, part_at};

mod saved;

use crate::hearing::{asked_of, bytes_came, tags_of};
use crate::out::{
    Out, fails, is_data, is_done, moving_of, own_of, part_len, single_front, trouble_at,
};
use crate::pages::write_page;
use crate::trim::ranges_of;
use crate::unheard::{Unheard, command_unheard};
use ata_command::resets;
use ata_front::{Act, Front, Heard, command_reply};
use ata_reply::{Reply, data_frame};
use block_command::{AnswerError, BlockCommand};
use block_engine::{Answer, Engine, EngineFis, Range, Request};
use disk_pages::Profile;
use fis_view::{Fis, Frame, FrameError, RegH2D, Stamp, payload};
use std::alloc::{AllocError, Global};
use std::marker::Model;

/// A SATA disk whose sectors lie with the caller.
#[derive(Drop)]
pub struct SataDisk {
    profile: Profile,
    front: Front,
    engine: Engine,
}

impl Model for SataDisk {
    ghost use Rattle.sata_disk.specs.State.{DiskState, IsDisk};

    ghost Value = { DiskState };

    ghost view = { λ d. record { profile = d.profile; front = d.front; engine = d.engine } };

    ghost invariant = { λ d. IsDisk (record { profile = d.profile; front = d.front; engine = d.engine }) };
}

impl SataDisk {
    /// A disk that was not plugged in; its write cache is on. The limit is the most bytes of payload that it holds at a time.
    pub fn new(alloc: Global, profile: Profile, limit: u32) -> Result<SataDisk, AllocError>
        requires { 1048576 ≤ limit }
        ensures { IfOk result (λ d. d ≡ new_disk profile limit) }
    {
        Ok(SataDisk {
            profile,
            front: Front::new(true),
            engine: Engine::new(alloc, limit)?,
        })
    }

    /// What it is to its host, and what becomes of its commands.
    fn act(&mut self, alloc: Global, heard: Heard)
        requires may { MayAct self.old.engine.stage heard.front.task heard.act }
        requires reset { heard.front.in_reset ≡ true → heard.front.task ≡ tasks.Idle }
        requires within { TakesWithin (sectors_of self.old) heard.act }
        ensures { self.new ≡ acted self.old heard }
    {
        self.front = heard.front;
        match heard.act {
            Act::Nothing => {}
            Act::Takes(command) => self.engine.take(alloc, command),
            Act::Flushes => self.engine.take_flush(),
            Act::Resets => self.engine.reset(),
        }
    }

    /// It was plugged in: what was under way is dropped, and its signature is next. What was stored stays.
    pub fn plugged(&mut self, alloc: Global)
        ensures { self.new ≡ plugged self.old }
    {
        self.act(alloc, self.front.plugged());
    }

    /// A Register FIS came that writes the Command register.
    fn command(&mut self, alloc: Global, fis: &RegH2D<'_>) -> Option<Unheard>
        ensures unheard { result ≡ command_unheard (standing self.old.front (tags_of (commands self.old))) }
        ensures heard { self.new ≡ acted self.old (command_told self.old fis.now) }
        ensures may { MayAct self.old.engine.stage (command_told self.old fis.now).front.task (command_told self.old fis.now).act }
    {
        let facts = self.profile.facts();
        let asked = asked_of(fis, &facts, self.front.settings());
        let tags = tags_of(&self.engine);
        let unheard = command_unheard(self.front.standing(tags));
        let heard = self.front.command(asked, tags);
        self.act(alloc, heard);
        unheard
    }

    /// A Register FIS came.
    fn register(&mut self, alloc: Global, fis: &RegH2D<'_>) -> Option<Unheard>
        ensures unheard { result ≡ register_unheard self.old fis.now }
        ensures heard { self.new ≡ register_heard self.old fis.now }
        ensures may { MayAct self.old.engine.stage (register_told self.old fis.now).front.task (register_told self.old fis.now).act }
    {
        if fis.c() {
            return self.command(alloc, fis);
        }
        self.act(alloc, self.front.control(resets(fis)));
        None
    }

    /// The ranges of a DATA SET MANAGEMENT came.
    fn ranges_came(&mut self, alloc: Global, bytes: &[u8], blocks: u16) -> Result<(), AllocError>
        requires { heard_data self.old.front.task ≡ Some blocks }
        ensures ok { OnOk result (self.new ≡ discarding self.old (ranges_of blocks self.old.profile.capacity bytes.now)) }
        ensures err { OnErr result (self.new ≡ self.old) }
    {
        let named = ranges_of(alloc, bytes, blocks, self.profile.capacity.sectors())?;
        self.front = self.front.discards(named.is_some());
        if let Some(ranges) = named {
            self.engine.take_discard(ranges);
        }
        Ok(())
    }

    /// Data came.
    fn data(&mut self, alloc: Global, bytes: &[u8]) -> Result<Option<Unheard>, AllocError>
        ensures unheard { IfOk result (λ unheard. unheard ≡ data_unheard self.old) }
        ensures ok { OnOk result (self.new ≡ data_heard self.old bytes.now) }
        ensures may { MayRange self.old.engine.stage (heard_data self.old.front.task) }
        ensures err { OnErr result (self.new ≡ self.old) }
    {
        match self.front.expects() {
            None => Ok(if bytes_came(&mut self.engine, bytes)? {
                None
            } else {
                Some(Unheard::NotAwaited)
            }),
            Some(blocks) => {
                self.ranges_came(alloc, bytes, blocks)?;
                Ok(None)
            }
        }
    }

    /// A FIS of the host comes. If it is not heard, the answer says why, and the disk stays as it is. If memory is refused, the
    /// disk stays as it is, too, and the FIS may be given again: only Data want memory.
    pub fn on_frame(&mut self, alloc: Global, frame: &Frame) -> Result<Option<Unheard>, AllocError>
        ensures unheard { IfOk result (λ unheard. unheard ≡ fis_unheard self.old (seen frame.now.bytes)) }
        ensures ok { OnOk result (self.new ≡ fis_heard self.old (seen frame.now.bytes)) }
        ensures may { MayHear self.old (seen frame.now.bytes) }
        ensures err { OnErr result (self.new ≡ self.old) }
        ensures refused { OnErr result (carries_data (seen frame.now.bytes) ≡ true) }
    {
        match frame.fis() {
            Ok(Fis::RegH2D(fis)) => Ok(self.register(alloc, &fis)),
            Ok(Fis::Payload(fis)) => self.data(alloc, fis.payload()),
            _ => Ok(Some(Unheard::NotOfHost)),
        }
    }

    /// Starts the command that may start next, and says its place. A write takes the memory of its first part then, and nothing else asks for memory.
    pub fn start_next(&mut self) -> Result<Option<u8>, AllocError>
        ensures next { IfOk result (λ place. IsEngineStart self.old.engine place) }
        ensures ok { IfOk result (λ place. self.new ≡ record self.old { engine = started self.old.engine place }) }
        ensures err { OnErr result (self.new ≡ self.old) }
        ensures room { OnErr result (StartsWrite self.old.engine) }
    {
        self.engine.start_next()
    }

    /// The request that is next is asked, for sectors that are there. None where there is none, or where 2^63 were asked. The bytes
    /// of a store are [`SataDisk::stored`], and the sectors of a discard [`SataDisk::discarded`], by its number, until they are
    /// answered.
    pub fn next_request(&mut self) -> Option<Request>
        ensures asked { IsRequested self.old.engine self.new.engine result }
        ensures others { self.new ≡ record self.old { engine = self.new.engine } }
        ensures within { IfSome result (λ request. AsksWithin (sectors_of self.old) request.what) }
    {
        self.engine.next_request()
    }

    /// The caller answers a request. An answer that does not fit is refused, and changes nothing.
    pub fn answer(&mut self, number: u64, answer: Answer) -> Result<(), AnswerError>
        ensures refusal { result_err result ≡ answer_refusal self.old.engine number answer }
        ensures ok { OnOk result (self.new ≡ record self.old { engine = answered self.old.engine number answer }) }
        ensures err { OnErr result (self.new ≡ self.old) }
    {
        self.engine.answer(number, answer)
    }

    /// The FIS of the command of a place.
    fn command_out(&self, place: u8) -> Option<Out>
        requires { place < 33 }
        ensures { result ≡ out_at self.now place (command_at (commands self.now) place) }
    {
        let command = self.engine.get(place)?;
        if is_data(command.turn()) {
            return Some(Out::Data {
                place,
                length: part_len(command),
            });
        }
        let moving = moving_of(self.front.task);
        let reply = command_reply(
            command,
            moving.left,
            trouble_at(&self.engine, place),
            moving.wide,
        )?;
        Some(Out::Of { place, reply })
    }

    /// The end of the command beside the queue.
    fn beside_reply(&self) -> Reply
        ensures { result ≡ beside_reply self.now }
    {
        self.front
            .over(is_done(self.engine.stage()), trouble_at(&self.engine, 32))
    }

    /// The FIS of the commands that goes next.
    #[tactic(auto, using(crate::proofs::Outs::out_is))]
    fn commands_out(&self) -> Option<Out>
        requires { owed self.now.front.task ≡ None }
        ensures { IsOut self.now result }
    {
        match self.engine.next_fis() {
            None => None,
            Some(EngineFis::Ends(tags)) => Some(Out::Ends(tags)),
            Some(EngineFis::Aside) => Some(Out::Beside(self.beside_reply())),
            Some(EngineFis::Of(place)) => self.command_out(place),
        }
    }

    /// The FIS that goes next: what the disk owes of itself, or else what its commands say.
    pub fn next_out(&self) -> Option<Out>
        ensures { IsOut self.now result }
    {
        match self.front.owed() {
            Some(owed) => Some(own_of(owed)),
            None => self.commands_out(),
        }
    }

    /// The bytes of the next Data FIS of the read of a place, lent.
    pub fn part(&self, place: u8) -> &[u8]
        requires { place < 33 }
        ensures { result.now ≡ part_at (command_at (commands self.now) place) }
    {
        match self.engine.get(place) {
            None => &[],
            Some(command) => command.part(),
        }
    }

    /// The FIS, with PM Port 0. Each call makes it anew: the disk stays as it is until it [was sent](SataDisk::sent). If memory is
    /// refused, the call may be made again. `BadLength` says that the Data have no length of a Data FIS; no run leads to such a disk.
    pub fn frame(&self, alloc: Global, out: Out, stamp: Stamp) -> Result<Frame, FrameError>
        requires { IsOut self.now (Some out) }
        ensures is { IfOk result (λ f. IsFis self.now out f.bytes) }
        ensures stamp { IfOk result (λ f. f.stamp ≡ stamp) }
        ensures bad_length { (result ≡ Err FrameError.BadLength) ↔ (is_framed self.now out ≡ false) }
    {
        match out {
            Out::Own(reply) | Out::Beside(reply) => Ok(reply.frame(alloc, stamp)?),
            Out::Of { reply, .. } => Ok(reply.frame(alloc, stamp)?),
            Out::Ends(tags) => Ok(Reply::Ends(tags).frame(alloc, stamp)?),
            Out::Page(page) => {
                let mut bytes = [0; 512];
                write_page(&self.profile, self.front, page, &mut bytes);
                Ok(data_frame(alloc, &bytes, stamp)?)
            }
            Out::Data { place, .. } => payload(alloc, 0, self.part(place), stamp),
        }
    }

    /// A FIS of the command of a place was sent.
    fn command_sent(&mut self, place: u8, sectors: u32)
        requires place { place < 33 }
        requires may { may_send (commands self.old) place ≡ true }
        ensures { self.new ≡ command_sent self.old place sectors }
    {
        let trouble = trouble_at(&self.engine, place);
        let failed = fails(&self.engine, place);
        self.engine.send(place);
        self.engine.forgive();
        let ended = !self.engine.is_taken(place);
        self.front = if place < 32 {
            if failed {
                self.front.queued_failed(place, trouble)
            } else {
                self.front
            }
        } else {
            single_front(self.front, ended, sectors)
        };
    }

    /// The FIS that was next was sent.
    pub fn sent(&mut self, out: Out)
        requires { IsOut self.old (Some out) }
        ensures { self.new ≡ after_sent self.old out }
    {
        match out {
            Out::Own(_) | Out::Page(_) => self.front = self.front.said(),
            Out::Beside(_) => {
                self.front = self.front.beside_sent(is_done(self.engine.stage()));
                self.engine.send_aside();
            }
            Out::Ends(_) => self.engine.send_ends(),
            Out::Of { place, .. } => self.command_sent(place, 0),
            Out::Data { place, length } => self.command_sent(place, length as u32 / 512),
        }
    }

    /// The command of a place.
    pub fn get(&self, place: u8) -> Option<&BlockCommand>
        requires { place < 33 }
        ensures some { IfSome result (λ command. command_at (commands self.now) place ≡ Some command.now) }
        ensures none { IfNone result (command_at (commands self.now) place ≡ None) }
    {
        self.engine.get(place)
    }

    /// The bytes of the store of this number, while it is out of the command of this place. Of one that a reset dropped there are none.
    pub fn stored(&self, place: u8, number: u64) -> Option<&[u8]>
        ensures some { IfSome result (λ bytes. stored_at self.now.engine place number ≡ Some bytes.now) }
        ensures none { IfNone result (stored_at self.now.engine place number ≡ None) }
    {
        self.engine.stored(place, number)
    }

    /// The sectors of the discard of this number, while it is out: all are there. Of one that a reset dropped there are none.
    pub fn discarded(&self, number: u64) -> Option<&[Range]>
        ensures some { IfSome result (λ ranges. discarded_at self.now.engine number ≡ Some ranges.now) }
        ensures none { IfNone result (discarded_at self.now.engine number ≡ None) }
        ensures within { IfSome result (λ ranges. All (IsWithin (sectors_of self.now)) ranges.now) }
    {
        self.engine.discarded(number)
    }

    /// What it is to its host.
    pub fn front(&self) -> Front
        ensures { result ≡ self.now.front }
    {
        self.front
    }
}
