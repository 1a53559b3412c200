//! The answers of the control port, and its notification.

ghost use Rattle.std.specs.Prelude.{IfOk, IfSome, IsSome, OnErr, OnOk, false, true, ◌≡◌};
ghost use Rattle.fis_view.specs.Table.{D2h, Status, field};
ghost use Rattle.pm_registers.specs.RegisterMap.{after_notice};
ghost use Rattle.pm_control.specs.Requests.{request_in};
ghost use Rattle.pm_control.specs.Answers.{IsAnswer, IsNotice, IsSeenNext, ReadsBack, answer_of, answer_to, done, mark_after, mark_left, refused, refused_by, registers_after, registers_left, signature, value_answer};

mod saved;

use crate::request::{Request, request_of};
use fis_view::{D2hFields, Frame, SetBitsFields, Stamp, d2h, set_bits};
use pm_registers::{CONTROL_PORT, PmRegisters, RegisterError};
use std::alloc::{AllocError, Global};
use std::marker::Model;

/// Status of a command that completed: DRDY, and bit 4.
const DONE: u8 = 0x50;
/// Status of a command that was refused: the same, with ERR.
const REFUSED: u8 = 0x51;

/// The control port: whether a software reset of it has begun and not ended.
#[derive(Debug, Drop)]
pub struct PmControl {
    resetting: bool,
}

impl Model for PmControl {
    ghost use Rattle.std.specs.Prelude.{Bool};

    ghost Value = { Bool };

    ghost view = { λ c. c.resetting };
}

/// The answer to a command that completed. All fields of the value are 0.
fn done() -> D2hFields
    ensures { result ≡ done }
{
    D2hFields {
        pm_port: CONTROL_PORT,
        i: true,
        status: DONE,
        error: 0,
        lba: 0,
        device: 0,
        count: 0,
    }
}

/// The answer to a read: the bytes of the value, the low byte first, in Count 7:0 and LBA 23:0.
fn value_answer(value: u32) -> D2hFields
    ensures { result ≡ value_answer value }
{
    D2hFields {
        lba: u64::from(value >> 8),
        count: (value & 0xFF) as u16,
        ..done()
    }
}

/// The answer to a command that was refused, with this Error.
fn refused(error: u8) -> D2hFields
    ensures { result ≡ refused error }
{
    D2hFields {
        status: REFUSED,
        error,
        ..done()
    }
}

/// The answer to a register command that the registers refuse.
fn refused_by(error: RegisterError) -> D2hFields
    ensures { result ≡ refused_by error }
{
    match error {
        RegisterError::NoPort => refused(5),
        RegisterError::NoRegister => refused(6),
    }
}

/// The signature of a port multiplier, which ends its software reset.
fn signature() -> D2hFields
    ensures { result ≡ signature }
{
    D2hFields {
        error: 1,
        lba: 0x96_6901,
        count: 1,
        ..done()
    }
}

impl PmControl {
    /// A control port with no software reset begun.
    pub fn new() -> PmControl
        ensures { result ≡ false }
    {
        PmControl { resetting: false }
    }

    /// The answer to a request, if it has one.
    fn reply(&self, registers: &PmRegisters, request: Request) -> Option<D2hFields>
        ensures { result ≡ answer_of self.now registers.now request }
    {
        match request {
            Request::Read(at) => match registers.read(at.port, at.register) {
                Ok(value) => Some(value_answer(value)),
                Err(error) => Some(refused_by(error)),
            },
            Request::Write(at, _) => match registers.read(at.port, at.register) {
                Ok(_) => Some(done()),
                Err(error) => Some(refused_by(error)),
            },
            Request::Unknown => Some(refused(4)),
            Request::EndReset if self.resetting => Some(signature()),
            Request::EndReset | Request::Reset => None,
        }
    }

    /// Does what a request asks for.
    fn act(&mut self, registers: &mut PmRegisters, request: Request)
        ensures registers { registers.new ≡ registers_after registers.old request }
        ensures reads_back { ReadsBack registers.old request registers.new }
        ensures mark { self.new ≡ mark_after self.old request }
    {
        match request {
            Request::Write(at, value) => {
                // The answer already says whether it is refused.
                let _ = registers.write(at.port, at.register, value);
            }
            Request::Reset => self.resetting = true,
            Request::EndReset => self.resetting = false,
            Request::Read(_) | Request::Unknown => {}
        }
    }

    /// Takes a frame for the control port, and gives its answer with this stamp, if it has one. The answer is
    /// allocated before anything is done. On an error nothing has changed, and the call can be repeated.
    pub fn answer(
        &mut self,
        alloc: Global,
        registers: &mut PmRegisters,
        frame: &Frame,
        stamp: Stamp,
    ) -> Result<Option<Frame>, AllocError>
        // the answer of the frame, and none where it has none
        ensures answer { IfOk result
            (λ answer. IsAnswer (answer_to self.old registers.old frame.now.bytes) stamp answer) }
        ensures registers { OnOk result
            (registers.new ≡ registers_left registers.old frame.now.bytes) }
        // the next read sees a write whose answer has Status 50h, through the mask of its register
        ensures seen { IfOk result (λ answer. IfSome answer
            (λ reply. IsSeenNext registers.old frame.now.bytes
            (field D2h Status reply.bytes) registers.new)) }
        ensures mark { OnOk result (self.new ≡ mark_left self.old frame.now.bytes) }
        // only an answer needs memory; where the allocator refuses it, nothing changes
        ensures no_memory { OnErr result
            (IsSome (answer_to self.old registers.old frame.now.bytes)) }
        ensures registers_stay { OnErr result (registers.new ≡ registers.old) }
        ensures mark_stays { OnErr result (self.new ≡ self.old) }
    {
        let Some(request) = request_of(frame) else {
            return Ok(None);
        };
        let answer = match self.reply(registers, request) {
            Some(fields) => Some(d2h(alloc, &fields, stamp)?),
            None => None,
        };
        self.act(registers, request);
        Ok(answer)
    }

    /// The asynchronous notification with this stamp, if one is due, which is then no longer due: a Set
    /// Device Bits FIS with N set (Serial ATA 3.x, asynchronous notification). Where the allocator refuses
    /// memory it stays due.
    pub fn notice(
        alloc: Global,
        registers: &mut PmRegisters,
        stamp: Stamp,
    ) -> Result<Option<Frame>, AllocError>
        ensures notice { IfOk result (λ notice. IsNotice registers.old.due stamp notice) }
        ensures made { OnOk result (registers.new ≡ after_notice registers.old) }
        // only a notification that is due needs memory; where the allocator refuses it, nothing changes
        ensures no_memory { OnErr result (registers.old.due ≡ true) }
        ensures stays { OnErr result (registers.new ≡ registers.old) }
    {
        if !registers.notice_due() {
            return Ok(None);
        }
        let fields = SetBitsFields {
            pm_port: CONTROL_PORT,
            n: true,
            i: true,
            status: DONE,
            error: 0,
            sactive: 0,
        };
        let notice = set_bits(alloc, &fields, stamp)?;
        registers.clear_notice();
        Ok(Some(notice))
    }
}
