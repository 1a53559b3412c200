//! Port, driver and memory of a host, turn by turn.

ghost use Rattle.std.specs.Prelude.{◌≡◌, Some, IfErr, IfNone, IfOk, IfSome, OnErr};
ghost use Rattle.hba_driver.specs.HostTurns.{Polls, Pushes, Submits, Ticks, Tooks};
ghost use Rattle.hba_driver.specs.Submits.{submit_refusal};
ghost use Rattle.host_thread.specs.Runs.{starting};

use fis_view::Frame;
use hba_driver::{Completion, Driver, Request, SubmitError, Ticket};
use hba_fbs::{HostPort, TakeReport};
use host_memory::HostMemory;
use std::alloc::{AllocError, Global};
use std::marker::Model;

/// Port, driver and memory.
#[derive(Drop)]
pub(crate) struct Host {
    port: HostPort,
    driver: Driver,
    memory: HostMemory,
}

impl Model for Host {
    ghost use Rattle.hba_driver.specs.HostTurns.{Host};

    ghost Value = { Host };

    ghost view = { λ h. record { port = h.port; driver = h.driver; memory = h.memory } };
}

impl Host {
    /// A port that was not started and a driver that did nothing, beside this memory.
    pub(crate) fn new(memory: HostMemory) -> Host
        ensures { result ≡ starting memory }
    {
        Host {
            port: HostPort::new(),
            driver: Driver::new(),
            memory,
        }
    }

    /// Its memory.
    pub(crate) fn into_memory(self) -> HostMemory
        ensures { result ≡ self.memory }
    {
        let Host {
            port: _,
            driver: _,
            memory,
        } = self;
        memory
    }

    /// Takes a frame.
    pub(crate) fn take(&mut self, frame: &Frame) -> TakeReport
        ensures { Tooks self.old frame.now.bytes result self.new }
    {
        let _ = frame.bytes();
        let report = self.port.take(frame, &mut self.memory);
        self.port.keeps_rules();
        report
    }

    /// Gives the next frame that the port has to send.
    pub(crate) fn next_out(&mut self, alloc: Global) -> Result<Option<Frame>, AllocError>
        ensures pushes { IfOk result (λ frame. Pushes self.old frame self.new) }
        ensures refused { OnErr result (self.new ≡ self.old) }
    {
        let frame = self.port.next_out(alloc, &self.memory);
        self.port.keeps_rules();
        frame
    }

    /// Lets the driver do the next thing that is due, and says whether it acted.
    pub(crate) fn tick(&mut self) -> bool
        ensures { Ticks self.old result self.new }
    {
        let acted = self.driver.tick(&mut self.port, &mut self.memory);
        self.port.keeps_rules();
        acted
    }

    /// Gives the driver a request.
    pub(crate) fn submit(&mut self, dev: u8, request: &Request) -> Result<Ticket, SubmitError>
        ensures taken { IfOk result (λ ticket.
            Submits self.old dev request.now ticket.0 self.new) }
        ensures same { OnErr result (self.new ≡ self.old) }
        ensures refused { IfErr result (λ refusal.
            submit_refusal self.old.driver self.old.memory dev request.now ≡ Some refusal) }
    {
        self.driver.submit(&mut self.memory, dev, request)
    }

    /// Asks the driver for an ended request.
    #[tactic(auto, using(crate::proofs::Polling::idle))]
    pub(crate) fn poll(&mut self) -> Option<Completion>
        ensures polled { IfSome result (λ completion. Polls self.old completion self.new) }
        ensures none { IfNone result (self.new ≡ self.old) }
    {
        self.driver.poll()
    }
}
