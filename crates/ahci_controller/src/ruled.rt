//! The controller, whose parts keep their rules between its calls.

ghost use Rattle.std.specs.Prelude.{◌≡◌, ◌<◌, None, false, IfOk, OnErr};
ghost use Rattle.std.specs.Result.{result_err};
ghost use Rattle.port_errors.specs.Errors.{AreErrors};
ghost use Rattle.slots.specs.Table.{IsTable};
ghost use Rattle.hba_fbs.specs.Views.{IsCorePort};
ghost use Rattle.ahci_controller.specs.Feeding.{Gathers, MissesData, Places};
ghost use Rattle.ahci_controller.specs.Fetching.{AnswersTo, Misses};
ghost use Rattle.ahci_controller.specs.Latch.{raised};
ghost use Rattle.ahci_controller.specs.Next.{Turns, next_write as next_write_of, written};
ghost use Rattle.ahci_controller.specs.Opening.{IsOpening};
ghost use Rattle.ahci_controller.specs.Reading.{read_at};
ghost use Rattle.ahci_controller.specs.Rules.{IsRuled};
ghost use Rattle.ahci_controller.specs.Taking.{Hears, hindrance as hindrance_of, is_any as is_any_of};
ghost use Rattle.ahci_controller.specs.Wide.{WritesAt, WritesWide, read_wide};

mod saved;

use crate::access::Width;
use crate::feeding::Fed;
use crate::issuing::Supply;
use crate::next::Next;
use crate::parts::Parts;
use crate::taking::{Hindrance, Took};
use crate::wide::WideWritten;
use crate::writing::Written;
use fis_view::Frame;
use guest_fetch::Moves;
use std::alloc::Global;
use std::marker::Model;

/// An AHCI controller of one port.
#[derive(Drop)]
pub struct Controller {
    parts: Parts,
}

impl Model for Controller {
    ghost use Rattle.ahci_controller.specs.States.{ControllerState};
    ghost use Rattle.ahci_controller.specs.Rules.{IsRuled};

    ghost Value = { ControllerState };

    ghost view = { λ c. c.parts };

    ghost invariant = { λ c. IsRuled c.parts };
}

impl Controller {
    /// As it opens: nothing is issued, the port is stopped, the link is up, no signature has come and no interrupt is enabled.
    #[tactic(auto, using(crate::proofs::rules::OpenLemmas::opening_rules))]
    pub fn new() -> Controller
        ensures { IsOpening result }
    {
        Controller {
            parts: Parts::new(),
        }
    }

    /// The rules that hold for every controller. The call has no effect.
    pub fn keeps_rules(&self)
        ensures port { IsCorePort self.now.core }
        ensures slots { IsTable self.now.core.slots }
        ensures errors { AreErrors self.now.core.errors }
        ensures rules { IsRuled self.now }
    {
        self.parts.keeps_rules();
    }

    /// What the registers read at an offset. An access that crosses a boundary of eight bytes reads 0.
    pub fn read(&self, offset: u32, width: Width) -> u64
        ensures { result ≡ read_wide self.now offset width }
    {
        self.parts.read(offset, width)
    }

    /// What the dword at an offset reads: 0 where no register begins.
    pub fn read32(&self, offset: u32) -> u32
        ensures { result ≡ read_at self.now offset }
    {
        self.parts.read32(offset)
    }

    /// Whether the interrupt line is raised: GHC.IE and IS.IPS are 1.
    pub fn line(&self) -> bool
        ensures { result ≡ raised self.now.latch }
    {
        self.parts.line()
    }

    /// Writes to the registers at an offset, the lower dword first. Bits outside the access stay, and where ones act, nothing
    /// is written to them. An access that crosses a boundary of eight bytes is ignored.
    #[tactic(auto, using(crate::proofs::rules::WriteLemmas::write_rules))]
    pub fn write(&mut self, offset: u32, width: Width, value: u64) -> WideWritten
        ensures { WritesWide self.old offset width value result self.new }
    {
        let written = self.parts.write(offset, width, value);
        self.parts.keeps_rules();
        written
    }

    /// Writes the register at an offset. It is never an error: what may not be done is ignored, or held until it may be.
    /// Ones written to PxCI have the commands of their slots read.
    #[tactic(auto, using(crate::proofs::rules::WriteLemmas::write32_rules))]
    pub fn write32(&mut self, offset: u32, value: u32) -> Written
        ensures { WritesAt self.old offset value result self.new }
    {
        let written = self.parts.write32(offset, value);
        self.parts.keeps_rules();
        written
    }

    /// The bytes that are wanted for a slot are these. Where no such bytes are wanted, or not so many, nothing changes. Once
    /// all of its command has come, it is issued.
    #[tactic(auto, using(crate::proofs::rules::CallLemmas::supply_rules))]
    pub fn supply(&mut self, alloc: Global, slot: u8, number: u64, bytes: &[u8]) -> Supply
        ensures { AnswersTo self.old slot number bytes.now result self.new }
    {
        let supply = self.parts.supply(alloc, slot, number, bytes);
        self.parts.keeps_rules();
        supply
    }

    /// Some of the bytes that are wanted for a slot are not memory: its command is not taken. Where none are wanted under that
    /// number, nothing changes.
    #[tactic(auto, using(crate::proofs::rules::CallLemmas::no_memory_rules))]
    pub fn no_memory(&mut self, slot: u8, number: u64) -> Supply
        ensures { Misses self.old slot number result self.new }
    {
        self.parts.no_memory(slot, number)
    }

    /// Takes a FIS of a device, or of the control port. What is to be written to the guest for it is answered by
    /// [`next`](Controller::next), before anything else; as long as its payload is, the caller holds the frame. The guest is to
    /// see its registers only after that.
    #[tactic(auto, using(crate::proofs::rules::TakeLemmas::take_rules, crate::proofs::rules::CallLemmas::same_ruled))]
    pub fn take(&mut self, frame: &Frame) -> Result<Took, Hindrance>
        ensures hindrance { result_err result ≡ hindrance_of self.old }
        ensures kept { OnErr result (self.new ≡ self.old) }
        ensures taken { IfOk result (λ took. Hears self.old frame.now.bytes took self.new) }
    {
        self.parts.keeps_rules();
        self.parts.take(frame)
    }

    /// Whether something is to be written to the guest: without it [`next_write`](Controller::next_write) has nothing.
    pub fn has_writes(&self) -> bool
        ensures any { result ≡ is_any_of self.now.writes }
        ensures none { result ≡ false → next_write_of self.now ≡ None }
    {
        self.parts.has_writes()
    }

    /// What is next to be written to the guest; None where nothing is left. [`next`](Controller::next) answers it before anything
    /// else: this is for callers who may not do anything else yet.
    #[tactic(auto, using(crate::proofs::rules::TurnLemmas::written_rules))]
    pub fn next_write(&mut self) -> Option<Next>
        ensures next { result ≡ next_write_of self.old }
        ensures rest { self.new ≡ written self.old }
    {
        self.parts.next_write()
    }

    /// What is next to do. What is to be written to the guest for the frame that was taken last comes first. Then commands are
    /// read, slot by slot in a circle. Then Data and commands go in turns, each in a circle: over devices and over slots.
    #[tactic(auto, using(crate::proofs::rules::TurnLemmas::next_rules))]
    pub fn next(&mut self) -> Next
        ensures { Turns self.old result self.new }
    {
        let next = self.parts.next();
        self.parts.keeps_rules();
        next
    }

    /// Where bytes of the command lie that was issued in a slot last, None where there was none. Bytes past the end of its
    /// table lie nowhere.
    pub fn places(&self, slot: u8, offset: u32, len: u32) -> Option<Moves<'_>>
        requires { slot < 32 }
        ensures { Places self.now slot offset len result }
    {
        self.parts.places(slot, offset, len)
    }

    /// The bytes that are wanted for Data to a device are in the frame. Where they are still due, it goes.
    #[tactic(auto, using(crate::proofs::rules::TurnLemmas::gathered_rules))]
    pub fn gathered(&mut self, dev: u8, number: u64) -> Fed
        ensures { Gathers self.old dev number result self.new }
    {
        let fed = self.parts.gathered(dev, number);
        self.parts.keeps_rules();
        fed
    }

    /// Some of the bytes that are wanted for Data to a device are not memory, or lie nowhere.
    #[tactic(auto, using(crate::proofs::rules::TurnLemmas::not_there_rules))]
    pub fn not_there(&mut self, dev: u8, number: u64) -> Fed
        ensures { MissesData self.old dev number result self.new }
    {
        self.parts.not_there(dev, number)
    }
}
