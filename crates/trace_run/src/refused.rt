//! Steps and requests that are refused, in a line of the trace.

use crate::tickets::Asked;
use hba_driver::SubmitError;
use pm_world::{Step, StepError};
use std::fmt;

/// A step or a request that is refused.
#[derive(Drop)]
pub struct Refused<'a> {
    /// The line of the scenario, counted from 1.
    pub line: usize,
    pub step: &'a Step,
    pub why: Why,
}

/// Why it is refused.
#[derive(Clone, Copy)]
pub enum Why {
    /// The driver does not take the request.
    Request(SubmitError),
    /// The step makes no sense now.
    Step(StepError),
}

impl Refused<'_> {
    /// The port that it concerns.
    pub fn port(&self) -> Option<u8> {
        match self.step {
            Step::Came(n)
            | Step::Gone(n)
            | Step::Inject(n, _)
            | Step::DiskSend(n)
            | Step::DiskTake(n)
            | Step::PmPresence(n)
            | Step::PmFromDevice(n)
            | Step::PmDown(n)
            | Step::Submit(n, _) => Some(*n),
            _ => None,
        }
    }

    /// What the request asks, if it is one.
    fn asked(&self) -> Option<Asked> {
        match self.step {
            Step::Submit(device, request) => Some(Asked {
                device: *device,
                work: request.work,
                lba: request.lba,
                sectors: request.sectors,
            }),
            _ => None,
        }
    }
}

impl fmt::Display for Why {
    fn fmt<W: fmt::Write>(&self, f: &mut fmt::Formatter<W>) -> fmt::Result {
        match self {
            Why::Request(error) => write!(f, "{error:?}"),
            Why::Step(error) => write!(f, "{error:?}"),
        }
    }
}

impl fmt::Display for Refused<'_> {
    fn fmt<W: fmt::Write>(&self, f: &mut fmt::Formatter<W>) -> fmt::Result {
        write!(f, "refused at line {}", self.line)?;
        if let Some(port) = self.port() {
            write!(f, ", port {port}")?;
        }
        if let Some(asked) = self.asked() {
            write!(f, ": {asked}")?;
        }
        match self.why {
            Why::Request(error) => write!(f, ": {error:?}, {error}"),
            Why::Step(error) => write!(f, ": {error:?}, {error}"),
        }
    }
}

/// The same as an object of JSON, in one line. No string of it needs an escape.
#[derive(Drop)]
pub struct RefusedJson<'a, 'b>(pub &'b Refused<'a>);

impl fmt::Display for RefusedJson<'_, '_> {
    fn fmt<W: fmt::Write>(&self, f: &mut fmt::Formatter<W>) -> fmt::Result {
        let refused = self.0;
        write!(
            f,
            "{{\"refused\":\"{}\",\"line\":{}",
            refused.why, refused.line
        )?;
        if let Some(port) = refused.port() {
            write!(f, ",\"port\":{port}")?;
        }
        write!(f, ",\"text\":\"{refused}\"}}")
    }
}
