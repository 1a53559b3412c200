//! A caller of a SATA disk that has its laws for whatever run led to it.
#![tactic(auto)]

ghost use Rattle.std.specs.Prelude.{◌≡◌, ◌≢◌, Err, IfOk, IfSome, OnOk, Some};
ghost use Rattle.fis_view.specs.declared.frame.FrameError.TheVariants as FrameError;
ghost use Rattle.ata_front.specs.declared.task.Page.TheVariants as pages;
ghost use Rattle.disk_pages.specs.Logs.{log_named};
ghost use Rattle.disk_pages.specs.declared.log.LogPage.TheVariants.{NcqError};
ghost use Rattle.sata_disk.specs.Sending.{IsFis, IsOut};
ghost use Rattle.sata_disk.specs.State.{AsksWithin, sectors_of};
ghost use Rattle.sata_disk.specs.declared.out.Out.TheVariants as Out;
ghost use Rattle.sata_disk_laws.specs.Calls.{Answers, Asks, Hears, Plugs, Sends, Starts};
ghost use Rattle.sata_disk_laws.specs.Told.{Says};
ghost use Rattle.uses_sata_disk.specs.Reached.{Extends, HasLaws, IfReached, IsNextOf, IsOutOf, TellsOfFailure};

use ata_command::LogPage;
use ata_front::Page;
use block_command::AnswerError;
use block_engine::{Answer, Request};
use fis_view::{Frame, FrameError, Stamp};
use sata_disk::{Out, SataDisk, Unheard};
use sata_disk_laws::{
    aborted_until_read, answers_are_single, data_are_named, ends_are_earned, fises_are_told,
    log_tells_of_failure, open_is_under_way, parts_are_frames, requests_are_apart,
    stores_are_heard,
};
use std::alloc::{AllocError, Global};

/// Plugs the disk in.
pub fn plug(alloc: Global, disk: &mut SataDisk)
    ensures { Extends disk.old disk.new Plugs }
{
    disk.plugged(alloc);
}

/// Gives the disk a FIS.
pub fn hear(
    alloc: Global,
    disk: &mut SataDisk,
    frame: &Frame,
) -> Result<Option<Unheard>, AllocError>
    ensures { OnOk result (Extends disk.old disk.new (Hears frame.now.bytes)) }
{
    disk.on_frame(alloc, frame)
}

/// Starts what starts next.
pub fn start(disk: &mut SataDisk) -> Result<Option<u8>, AllocError>
    ensures { IfOk result (λ place. Extends disk.old disk.new (Starts place)) }
{
    disk.start_next()
}

/// Takes the next request. It is for sectors that are there, whatever led to the disk.
pub fn ask(disk: &mut SataDisk) -> Option<Request>
    ensures asked { IfSome result (λ request. Extends disk.old disk.new (Asks request)) }
    ensures within { IfSome result (λ request. AsksWithin (sectors_of disk.old) request.what) }
{
    disk.next_request()
}

/// Answers a request.
pub fn answer(disk: &mut SataDisk, number: u64, answer: Answer) -> Result<(), AnswerError>
    ensures { OnOk result (Extends disk.old disk.new (Answers number answer)) }
{
    disk.answer(number, answer)
}

/// Makes the FIS that goes next: its bytes say what the account of the commands has. At a disk that a run led to it fails where memory is
/// refused, and nowhere else.
pub fn make(alloc: Global, disk: &SataDisk, out: Out, stamp: Stamp) -> Result<Frame, FrameError>
    requires { IsOut disk.now (Some out) }
    ensures says { IfOk result (λ frame. Says disk.now out frame.bytes) }
    ensures fits { IfReached disk.now (result ≢ Err FrameError.BadLength) }
{
    fises_are_told();
    parts_are_frames();
    disk.frame(alloc, out, stamp)
}

/// The FIS that goes next. At a disk that a run led to, after an error, it is the abort of a command that came since, or the log.
pub fn next(disk: &SataDisk) -> Option<Out>
    ensures next { IsOut disk.now result }
    ensures error { IsNextOf disk.now result }
{
    aborted_until_read();
    disk.next_out()
}

/// Makes page 0 of log 10h, which goes next. At a disk that a run led to it tells of the command that failed.
pub fn make_log(
    alloc: Global,
    disk: &SataDisk,
    page: LogPage,
    stamp: Stamp,
) -> Result<Frame, FrameError>
    requires next { IsOut disk.now (Some (Out.Page (pages.Log page))) }
    requires log { log_named page.log page.page ≡ Some NcqError }
    ensures { IfOk result (λ frame. TellsOfFailure disk.now frame.bytes) }
{
    log_tells_of_failure();
    disk.frame(alloc, Out::Page(Page::Log(page)), stamp)
}

/// The FIS was sent. It is of a command that the host has open: so it answers none twice, and none from before a plug or a reset.
pub fn send(disk: &mut SataDisk, out: Out)
    requires { IsOut disk.old (Some out) }
    ensures sent { Extends disk.old disk.new (Sends out) }
    ensures due { IsOutOf disk.old out }
{
    answers_are_single();
    disk.sent(out);
}

/// The laws of the run that led here.
pub fn laws(disk: &SataDisk)
    ensures { HasLaws disk.now }
{
    let _front = disk.front();
    ends_are_earned();
    requests_are_apart();
    data_are_named();
    answers_are_single();
    open_is_under_way();
    stores_are_heard();
    aborted_until_read();
}
