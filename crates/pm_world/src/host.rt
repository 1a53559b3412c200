//! The host of a world: its port, its driver and its memory.

ghost use Rattle.std.specs.Prelude.{◌≡◌, IfOk, Ok, true, length};
ghost use Rattle.hba_driver.specs.HostTurns.{Tooks};
ghost use Rattle.pm_world.specs.Places.{opening_host_in};
ghost use Rattle.pm_world.specs.Rules.{HostPushes, PollRule, PutRule, SubmitRule, TickRule, put_refusal};
ghost use Rattle.host_memory.specs.Memory.{is_memory_size};

use crate::step::{Answer, StepError};
use fis_view::{Bytes, Frame};
use hba_driver::{Driver, Mode, Request};
use hba_fbs::{HostPort, TakeReport};
use host_memory::{CLIENT_START, HostMemory, MemoryError};
use std::alloc::{AllocError, Global};
use std::marker::Model;

/// Port, driver and memory of a host.
#[derive(Drop)]
pub struct Host {
    port: HostPort,
    driver: Driver,
    memory: HostMemory,
}

impl Model for Host {
    ghost use Rattle.hba_driver.specs.HostTurns.{Host};

    ghost Value = { Host };

    ghost view = { λ h. record { port = h.port; driver = h.driver; memory = h.memory } };
}

impl Host {
    /// A port that was not started, a driver in this mode that did nothing, and this many bytes of memory,
    /// all 0.
    pub fn new(alloc: Global, mode: Mode, memory: u32) -> Result<Self, AllocError>
        requires { is_memory_size memory ≡ true }
        ensures { IfOk result (λ host. host ≡ opening_host_in mode memory) }
    {
        match HostMemory::new(alloc, memory) {
            Ok(memory) => Ok(Host {
                port: HostPort::new(),
                driver: Driver::with_mode(mode, 1),
                memory,
            }),
            Err(MemoryError::OutOfMemory) => Err(AllocError),
            Err(MemoryError::BadSize) => unreachable!(),
        }
    }

    pub fn port(&self) -> &HostPort
        ensures { result.now ≡ self.now.port }
    {
        &self.port
    }

    pub fn memory(&self) -> &HostMemory
        ensures { result.now ≡ self.now.memory }
    {
        &self.memory
    }

    /// Takes a frame.
    pub fn take(&mut self, frame: &Frame) -> TakeReport
        ensures { Tooks self.old frame.now.bytes result self.new }
    {
        let _ = frame.bytes();
        let report = self.port.take(frame, &mut self.memory);
        self.port.keeps_rules();
        report
    }

    /// Gives the next frame that the port has to send.
    pub fn next_out(&mut self, alloc: Global) -> Result<Option<Frame>, AllocError>
        ensures { HostPushes self.old result self.new }
    {
        let frame = self.port.next_out(alloc, &self.memory);
        self.port.keeps_rules();
        frame
    }

    /// Lets the driver do the next thing that is due.
    pub fn tick(&mut self) -> Answer
        ensures { TickRule self.old (Ok result) self.new }
    {
        let acted = self.driver.tick(&mut self.port, &mut self.memory);
        self.port.keeps_rules();
        if acted { Answer::Ticked } else { Answer::Idle }
    }

    /// Gives the driver a request.
    pub fn submit(&mut self, dev: u8, request: &Request) -> Answer
        ensures { SubmitRule dev request.now self.old (Ok result) self.new }
    {
        match self.driver.submit(&mut self.memory, dev, request) {
            Ok(ticket) => Answer::Submitted(ticket),
            Err(refusal) => Answer::Refused(refusal),
        }
    }

    /// Asks the driver for an ended request.
    #[tactic(auto, using(crate::proofs::steps::Polling::idle))]
    pub fn poll(&mut self) -> Answer
        ensures { PollRule self.old (Ok result) self.new }
    {
        match self.driver.poll() {
            None => Answer::Idle,
            Some(completion) => Answer::Polled(completion),
        }
    }

    /// Why bytes are not put, if they are not.
    pub fn put_refusal(&self, at: u32, bytes: &[u8]) -> Option<StepError>
        ensures { result ≡ put_refusal self.now at (length bytes.now) }
    {
        let end = CLIENT_START as usize + self.memory.client().len();
        if at < CLIENT_START || at as usize + bytes.len() > end {
            return Some(StepError::Outside);
        }
        self.driver
            .in_use(at, bytes.len() as u32)
            .then_some(StepError::InUse)
    }

    /// Writes bytes to the client area.
    pub fn put(&mut self, at: u32, bytes: &Bytes) -> Result<Answer, StepError>
        ensures { PutRule at bytes.now self.old result self.new }
    {
        if let Some(e) = self.put_refusal(at, bytes.as_slice()) {
            return Err(e);
        }
        match self.memory.put_client(at, bytes.as_slice()) {
            Ok(()) => Ok(Answer::Put),
            Err(_) => unreachable!(),
        }
    }
}
