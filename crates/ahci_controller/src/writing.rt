//! What a write of a register does.

ghost use Rattle.std.specs.Prelude.{◌≡◌, Option, Some, None, false};
ghost use Rattle.ahci_registers.specs.Link.{action_of, causes_of, effect_of, written as written_of};
ghost use Rattle.ahci_controller.specs.Writing.{Leaves, ResetsLink, StartsPort, Tells, WritesRegister, at_stake as at_stake_of, may_end as may_end_of, plain, under_way as under_way_of, clears_busy as clears_busy_of, fresh_slots, line_of, quietly as quietly_of, switched_by, ClearsBusy, Restarts, idle_for, stopped_if};

use crate::bits::{CLO, bits_if, has_bit, without};
use crate::causes::next_bits;
use crate::latch::Edge;
use crate::offer::nothing;
use crate::own::OwnRegisters;
use crate::parts::{CONTROL, Parts};
use ahci_registers::{Effect, LinkAction, LinkControl, Register};
use hba_fbs::{Line, WriteError};

/// What a write asks for beside the registers.
#[derive(Clone, Copy, Debug, PartialEq, Eq)]
pub struct Written {
    /// What it does to the link. Where that is reset, frames on their way are to be dropped, and what is behind the link
    /// is to be reset.
    pub effect: Effect,
    /// A message is due, where messages stand for the line.
    pub message: bool,
    /// Why the port ignores it. Then it changes nothing of the port but what is held until it may be.
    pub ignored: Option<WriteError>,
    /// The slots whose commands it ended, as a mask: issued or being read before, and neither since. ST, DEC, a COMRESET and a
    /// reset end them.
    pub ended: u32,
    /// What it did to the line.
    pub line: Edge,
}

impl Written {
    /// Nothing, but that a message may be due, or that it is ignored.
    pub(crate) fn quietly(message: bool, ignored: Option<WriteError>) -> Written
        ensures { result ≡ quietly_of message ignored }
    {
        Written {
            effect: Effect::Nothing,
            message,
            ignored,
            ended: 0,
            line: Edge::Steady,
        }
    }
}

// Whether a write of the register may end commands.
fn may_end(register: Register) -> bool
    ensures { result ≡ may_end_of register }
{
    match register {
        Register::Ghc | Register::PxCmd | Register::PxSctl | Register::PxFbs => true,
        _ => false,
    }
}

// What hangs at a link of which this is asked.
fn line(action: LinkAction) -> Line
    ensures { result ≡ line_of action }
{
    match action {
        LinkAction::Disable => Line::Empty,
        LinkAction::NoAction | LinkAction::Comreset => Line::Reset,
    }
}

fn stopped(started: bool, value: u32) -> Option<WriteError>
    ensures { result ≡ stopped_if started value }
{
    (!started && value != 0).then_some(WriteError::Stopped)
}

impl Parts {
    // Writes a register of the core, PxCMD and PxCI apart. What that refuses is ignored.
    fn tell(&mut self, register: hba_fbs::Register, value: u32) -> Option<WriteError>
        ensures { Tells self.old register value self.old.latch self.old.own result self.new }
    {
        let nothing = nothing();
        match self.core.write(register.offset(), value, &nothing) {
            Ok(()) => None,
            Err(refusal) => Some(refusal),
        }
    }

    fn write_ghc(&mut self, value: u32) -> Written
        ensures { Leaves Register.Ghc self.old value result self.new }
    {
        let write = self.latch.write_ghc(value);
        if !write.reset {
            return Written::quietly(write.message, None);
        }
        self.core.reset();
        self.core.hang(CONTROL, Line::Empty);
        self.link = LinkControl::new();
        self.own = self.own.reset();
        self.drop_wants();
        Written {
            effect: Effect::LinkReset,
            ..Written::quietly(write.message, None)
        }
    }

    // Whether CLO acts: while the port does not run.
    fn clears_busy(&self, value: u32) -> bool
        ensures { result ≡ clears_busy_of self.now value }
    {
        has_bit(value, CLO) && !self.core.registers().started
    }

    // CLO: the device that PxTFD shows is no longer busy.
    fn clear_busy(&mut self, value: u32)
        ensures { ClearsBusy self.old value self.new }
    {
        if self.clears_busy(value) {
            let dev = self.core.shown_device();
            self.core.override_busy(dev);
        }
    }

    /// The port starts or stops, as these registers say and the task file lets it.
    pub(crate) fn restart(&mut self, idle: bool, own: OwnRegisters) -> Option<WriteError>
        ensures { Restarts self.old idle own result self.new }
    {
        let before = self.own;
        let was = self.core.registers();
        let told = self.core.write_cmd(own.engine(idle, was));
        let is = self.core.registers();
        if own.falls(before, was, is) {
            self.drop_wants();
        }
        self.own = own.latched(before, was, is);
        told.err()
    }

    // ST, FRE and PMA.
    fn start(&mut self, idle: bool, value: u32) -> Option<WriteError>
        ensures { StartsPort self.old idle value result self.new }
    {
        self.restart(idle, self.own.commanded(value))
    }

    fn write_pxcmd(&mut self, value: u32) -> Written
        ensures { Leaves Register.PxCmd self.old value result self.new }
    {
        let idle = self.clears_busy(value) || self.is_idle();
        self.clear_busy(value);
        let ignored = self.start(idle, value);
        Written::quietly(false, ignored)
    }

    // The link is reset.
    fn reset_link(&mut self)
        ensures { ResetsLink self.old self.new }
    {
        self.core.reset_link();
        self.core.hang(CONTROL, line(self.link.action()));
        self.drop_wants();
    }

    fn write_pxsctl(&mut self, value: u32) -> Written
        ensures { Leaves Register.PxSctl self.old value result self.new }
    {
        let write = self
            .latch
            .write_sctl(&mut self.link, value, self.own.starts);
        if write.effect == Effect::LinkReset {
            self.reset_link();
        }
        Written {
            effect: write.effect,
            ..Written::quietly(write.message, None)
        }
    }

    // What is written to PxFBS of the core.
    fn switched(&self, value: u32) -> u32
        ensures { result ≡ switched_by self.now value }
    {
        if self.own.starts {
            value / 2 * 2 + bits_if(self.core.registers().switching, 1)
        } else {
            value
        }
    }

    fn write_pxfbs(&mut self, value: u32) -> Written
        ensures { Leaves Register.PxFbs self.old value result self.new }
    {
        let switched = self.switched(value);
        let ignored = self.tell(hba_fbs::Register::Fbs, switched);
        let causes = next_bits(value, &self.core);
        self.wants.feeding = 0;
        Written::quietly(self.latch.caused(causes), ignored)
    }

    fn write_is(&mut self, value: u32) -> Written
        ensures { Leaves Register.Is self.old value result self.new }
    {
        Written::quietly(self.latch.write_is(value), None)
    }

    fn write_pxis(&mut self, value: u32) -> Written
        ensures { Leaves Register.PxIs self.old value result self.new }
    {
        let ignored = self.tell(hba_fbs::Register::Is, value);
        self.latch.write_pxis(value);
        Written::quietly(false, ignored)
    }

    fn write_pxserr(&mut self, value: u32) -> Written
        ensures { Leaves Register.PxSerr self.old value result self.new }
    {
        let ignored = self.tell(hba_fbs::Register::Serr, value);
        self.latch.write_serr(value);
        self.own.errors &= !((value & 0xFFFF) as u16);
        Written::quietly(false, ignored)
    }

    fn write_pxsact(&mut self, value: u32) -> Written
        ensures { Leaves Register.PxSact self.old value result self.new }
    {
        let armed = without(value, self.core.issued());
        let ignored = self.tell(hba_fbs::Register::Sact, armed);
        Written::quietly(false, ignored)
    }

    fn write_pxsntf(&mut self, value: u32) -> Written
        ensures { Leaves Register.PxSntf self.old value result self.new }
    {
        let ignored = self.tell(hba_fbs::Register::Sntf, value);
        Written::quietly(false, ignored)
    }

    fn write_pxie(&mut self, value: u32) -> Written
        ensures { Leaves Register.PxIe self.old value result self.new }
    {
        Written::quietly(self.latch.write_pxie(value), None)
    }

    // The slots of a mask that may be read.
    fn fresh(&self, value: u32) -> u32
        ensures { result ≡ fresh_slots self.now value }
    {
        let free = without(without(value, self.core.issued()), self.wants.pending);
        without(free, self.own.bad)
    }

    fn write_pxci(&mut self, value: u32) -> Written
        ensures { Leaves Register.PxCi self.old value result self.new }
    {
        let started = self.own.starts;
        if started {
            self.wants.pending |= self.fresh(value);
        }
        Written::quietly(false, stopped(started, value))
    }

    // Keeps these addresses.
    fn rebase(&mut self, own: OwnRegisters) -> Written
        ensures own { self.new ≡ record self.old { own = own } }
        ensures quiet { result ≡ quietly_of false None }
    {
        self.own = own;
        Written::quietly(false, None)
    }

    // What a write of a register leaves, and asks for.
    fn leave(&mut self, register: Register, value: u32) -> Written
        ensures leaves { Leaves register self.old value result self.new }
        ensures plain { plain result ≡ result }
    {
        let own = self.own;
        match register {
            Register::Ghc => self.write_ghc(value),
            Register::Is => self.write_is(value),
            Register::PxClb => self.rebase(own.with_list(value / 1024 * 1024, own.list.upper)),
            Register::PxClbu => self.rebase(own.with_list(own.list.lower, value)),
            Register::PxFb => self.rebase(own.with_area(value / 256 * 256, own.area.upper)),
            Register::PxFbu => self.rebase(own.with_area(own.area.lower, value)),
            Register::PxIs => self.write_pxis(value),
            Register::PxIe => self.write_pxie(value),
            Register::PxCmd => self.write_pxcmd(value),
            Register::PxSctl => self.write_pxsctl(value),
            Register::PxSerr => self.write_pxserr(value),
            Register::PxSact => self.write_pxsact(value),
            Register::PxCi => self.write_pxci(value),
            Register::PxSntf => self.write_pxsntf(value),
            Register::PxFbs => self.write_pxfbs(value),
            Register::Cap
            | Register::Pi
            | Register::Vs
            | Register::Cap2
            | Register::PxTfd
            | Register::PxSig
            | Register::PxSsts => Written::quietly(false, None),
        }
    }

    // The slots whose commands are issued or being read, as a mask.
    fn under_way(&self) -> u32
        ensures { result ≡ under_way_of self.now }
    {
        self.core.issued() | self.wants.pending
    }

    // Those whose commands a write of the register may end.
    fn at_stake(&self, register: Register) -> u32
        ensures { result ≡ at_stake_of register self.now }
    {
        if may_end(register) {
            self.under_way()
        } else {
            0
        }
    }

    /// Writes all bits of a register.
    pub(crate) fn write_register(&mut self, register: Register, value: u32) -> Written
        ensures { WritesRegister register self.old value result self.new }
    {
        let level = self.line();
        let before = self.at_stake(register);
        let written = self.leave(register, value);
        Written {
            ended: without(before, self.at_stake(register)),
            line: Edge::between(level, self.line()),
            ..written
        }
    }
}
