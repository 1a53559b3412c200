//! The lines that a scenario prints.

use crate::opening::Sizes;
use crate::parse::View;
use fis_view::Bytes;
use hba_driver::{Completion, Mode, Outcome, SubmitError, Ticket};
use hba_fbs::{HostPort, Register};
use host_memory::{CLIENT_START, HostMemory};
use pm_world::{Answer, ConnCount, StepError};
use port_errors::{DeviceCause, PortCause};
use std::alloc::{AllocError, Global};
use std::fmt;
use std::io::Write;
use trace_text::{Failure, Printer};

/// What a line of a scenario prints.
#[derive(Drop)]
pub enum Reply {
    /// The world is built.
    World(Sizes),
    /// A device came to a port.
    Came {
        port: u8,
        conn: u32,
    },
    /// The device of a port went.
    Gone {
        port: u8,
        conn: u32,
    },
    /// A device sent this frame.
    Sent(FrameText),
    /// The host took this frame.
    Took(FrameText),
    /// A step moved or dropped a frame or recorded that a connection came or went, or the driver did
    /// something.
    Moved,
    /// A step found nothing to move.
    Nothing,
    /// A step found the next place full.
    Blocked,
    /// In one round no step did anything.
    Settled,
    /// All rounds went by, and none was such a round.
    Unsettled,
    /// A step was refused.
    Refused(StepError),
    /// A request was taken under this ticket.
    Submitted(Ticket),
    /// The driver refused a request.
    RequestRefused(SubmitError),
    /// A request ended.
    Ended(Completion),
    /// What became of a request of a run in threads. Requests count from 1.
    Request {
        number: usize,
        result: Result<Outcome, SubmitError>,
    },
    /// Bytes were written to client memory.
    Put,
    /// Bytes of client memory, from this address on.
    Shown {
        at: u32,
        digits: String,
    },
    /// How many frames of a connection were sent and taken.
    Count(ConnCount),
    /// The first cause of a faulty device.
    Fault {
        dev: u8,
        cause: DeviceCause,
    },
    /// What stopped the host port.
    PortFault(PortCause),
    /// What a register of the host port shows.
    Register {
        register: Register,
        value: u32,
    },
}

/// A frame of a connection, its bytes as digits.
#[derive(Drop)]
pub struct FrameText {
    port: u8,
    conn: u32,
    number: u32,
    digits: String,
}

impl FrameText {
    /// The frame of this number on a connection.
    fn of(
        alloc: Global,
        port: u8,
        conn: u32,
        number: u32,
        bytes: &Bytes,
    ) -> Result<FrameText, AllocError> {
        let digits = hex::encode(alloc, bytes.as_slice())?;
        Ok(FrameText {
            port,
            conn,
            number,
            digits,
        })
    }
}

impl Reply {
    /// What is printed about an answer.
    pub fn of(alloc: Global, answer: &Answer) -> Result<Reply, AllocError> {
        let reply = match answer {
            Answer::Idle => Reply::Nothing,
            Answer::Blocked => Reply::Blocked,
            Answer::Came { port, conn } => Reply::Came {
                port: *port,
                conn: *conn,
            },
            Answer::Gone { port, conn } => Reply::Gone {
                port: *port,
                conn: *conn,
            },
            Answer::DiskTook { .. } | Answer::Presence(_) | Answer::Offered { .. } => Reply::Moved,
            Answer::Passed(_) | Answer::Up(_) | Answer::Down(_) => Reply::Moved,
            Answer::Pushed | Answer::Ticked => Reply::Moved,
            Answer::Submitted(ticket) => Reply::Submitted(*ticket),
            Answer::Refused(error) => Reply::RequestRefused(*error),
            Answer::Polled(completion) => Reply::Ended(*completion),
            Answer::Put => Reply::Put,
            Answer::Sent { .. } | Answer::Took { .. } => return Reply::of_frame(alloc, answer),
        };
        Ok(reply)
    }

    /// What is printed about an answer with a frame.
    fn of_frame(alloc: Global, answer: &Answer) -> Result<Reply, AllocError> {
        match answer {
            Answer::Sent {
                port,
                conn,
                number,
                bytes,
            } => {
                let frame = FrameText::of(alloc, *port, *conn, *number, bytes)?;
                Ok(Reply::Sent(frame))
            }
            Answer::Took {
                port,
                conn,
                number,
                bytes,
                report: _,
            } => {
                let frame = FrameText::of(alloc, *port, *conn, *number, bytes)?;
                Ok(Reply::Took(frame))
            }
            _ => Ok(Reply::Moved),
        }
    }

    /// Whether a step or a request was refused.
    pub fn is_refusal(&self) -> bool {
        matches!(self, Reply::Refused(_) | Reply::RequestRefused(_))
    }

    /// This many bytes of client memory, from this address on, as far as they lie in it.
    fn shown(alloc: Global, memory: &HostMemory, at: u32, count: u32) -> Result<Reply, AllocError> {
        let start = at.saturating_sub(CLIENT_START) as usize;
        let rest = memory.client().get(start..).unwrap_or(&[]);
        let bytes = rest.get(..count as usize).unwrap_or(rest);
        let digits = hex::encode(alloc, bytes)?;
        Ok(Reply::Shown { at, digits })
    }
}

/// Prints the causes that a host port keeps: a line for each faulty device, in ascending order, and
/// then one for what stopped the port. It prints nothing if nothing went wrong.
pub fn print_faults<W: Write>(
    alloc: Global,
    port: &HostPort,
    printer: &mut Printer<'_>,
    out: &mut W,
) -> Result<(), Failure> {
    for dev in 0..16_u8 {
        if let Some(cause) = port.cause(dev) {
            printer.print(alloc, &Reply::Fault { dev, cause }, out)?;
        }
    }
    if let Some(cause) = port.port_cause() {
        printer.print(alloc, &Reply::PortFault(cause), out)?;
    }
    Ok(())
}

/// Prints the sizes of a world.
pub fn print_sizes<W: Write>(
    alloc: Global,
    sizes: Sizes,
    printer: &mut Printer<'_>,
    out: &mut W,
) -> Result<(), Failure> {
    printer.print(alloc, &Reply::World(sizes), out)
}

/// Prints what a register of a host port shows.
pub fn print_register<W: Write>(
    alloc: Global,
    port: &HostPort,
    register: Register,
    printer: &mut Printer<'_>,
    out: &mut W,
) -> Result<(), Failure> {
    let value = port.read(register.offset()).unwrap_or(0);
    printer.print(alloc, &Reply::Register { register, value }, out)
}

/// Prints all registers of a host port, in the order of their offsets.
pub fn print_registers<W: Write>(
    alloc: Global,
    port: &HostPort,
    printer: &mut Printer<'_>,
    out: &mut W,
) -> Result<(), Failure> {
    for offset in 0..=LAST_REGISTER {
        if let Some(register) = Register::at(offset) {
            print_register(alloc, port, register, printer, out)?;
        }
    }
    Ok(())
}

/// The offset of the last register of a port.
const LAST_REGISTER: u32 = 0x40;

/// Prints what a line asks to see of this memory and these counts.
pub fn print_view<W: Write>(
    alloc: Global,
    view: View,
    memory: &HostMemory,
    counts: &[ConnCount],
    printer: &mut Printer<'_>,
    out: &mut W,
) -> Result<(), Failure> {
    match view {
        View::Memory(at, count) => {
            let reply = Reply::shown(alloc, memory, at, count)?;
            printer.print(alloc, &reply, out)?;
        }
        View::Counts => {
            for count in counts {
                printer.print(alloc, &Reply::Count(*count), out)?;
            }
        }
    }
    Ok(())
}

impl fmt::Display for Reply {
    fn fmt<W: fmt::Write>(&self, f: &mut fmt::Formatter<W>) -> fmt::Result {
        match self {
            Reply::World(sizes) => sizes.fmt(f),
            Reply::Came { port, conn } => write_connection("came", *port, *conn, f),
            Reply::Gone { port, conn } => write_connection("gone", *port, *conn, f),
            Reply::Sent(frame) => frame.write("sent", f),
            Reply::Took(frame) => frame.write("took", f),
            Reply::Refused(error) => write_refused_step(*error, f),
            Reply::Submitted(_)
            | Reply::RequestRefused(_)
            | Reply::Ended(_)
            | Reply::Request { .. } => self.write_request(f),
            Reply::Shown { .. }
            | Reply::Count(_)
            | Reply::Fault { .. }
            | Reply::PortFault(_)
            | Reply::Register { .. } => self.write_seen(f),
            plain => f.write_str(plain.word()),
        }
    }
}

impl Reply {
    /// The word of a reply that is one word.
    fn word(&self) -> &'static str {
        match self {
            Reply::Moved => "moved",
            Reply::Nothing => "nothing",
            Reply::Blocked => "blocked",
            Reply::Settled => "settled",
            Reply::Unsettled => "unsettled",
            Reply::Put => "put",
            _ => "",
        }
    }

    /// Writes what became of a request.
    fn write_request<W: fmt::Write>(&self, f: &mut fmt::Formatter<W>) -> fmt::Result {
        match self {
            Reply::Submitted(ticket) => write!(f, "submitted {}", ticket.0),
            Reply::RequestRefused(error) => write_refused(*error, f),
            Reply::Ended(completion) => write_ended(*completion, f),
            Reply::Request { number, result } => {
                write!(f, "request {number} ")?;
                write_end(*result, f)
            }
            _ => Ok(()),
        }
    }

    /// Writes what a line asked to see.
    fn write_seen<W: fmt::Write>(&self, f: &mut fmt::Formatter<W>) -> fmt::Result {
        match self {
            Reply::Shown { at, digits } => write!(f, "{at:x} {digits}"),
            Reply::Count(count) => write_count(*count, f),
            Reply::Fault { dev, cause } => write!(f, "device {dev} cause {}", *cause as u8),
            Reply::PortFault(cause) => write!(f, "port-cause {}", *cause as u8),
            Reply::Register { register, value } => write_register(*register, *value, f),
            _ => Ok(()),
        }
    }
}

/// Writes that a connection came or went.
fn write_connection<W: fmt::Write>(
    what: &str,
    port: u8,
    conn: u32,
    f: &mut fmt::Formatter<W>,
) -> fmt::Result {
    write!(f, "{what} {port} conn {conn}")
}

/// Writes why a step was refused.
fn write_refused_step<W: fmt::Write>(error: StepError, f: &mut fmt::Formatter<W>) -> fmt::Result {
    let number = error as u8;
    write!(f, "step refused {number} {error:?}")
}

/// Writes that a request ended, and how.
fn write_ended<W: fmt::Write>(completion: Completion, f: &mut fmt::Formatter<W>) -> fmt::Result {
    write!(
        f,
        "ticket {} slot {} ",
        completion.ticket.0, completion.slot
    )?;
    write_outcome(completion.outcome, f)
}

/// Writes how a request ended, or why it was refused.
fn write_end<W: fmt::Write>(
    end: Result<Outcome, SubmitError>,
    f: &mut fmt::Formatter<W>,
) -> fmt::Result {
    match end {
        Ok(outcome) => write_outcome(outcome, f),
        Err(error) => write_refused(error, f),
    }
}

/// Writes how many frames of a connection were sent and taken.
fn write_count<W: fmt::Write>(count: ConnCount, f: &mut fmt::Formatter<W>) -> fmt::Result {
    write!(f, "port {} conn {}", count.port, count.conn)?;
    write!(f, " sent {} taken {}", count.sent, count.taken)
}

/// Writes what a register shows.
fn write_register<W: fmt::Write>(
    register: Register,
    value: u32,
    f: &mut fmt::Formatter<W>,
) -> fmt::Result {
    let name = name_of(register);
    write!(f, "reg {:02x} {name} {value:08x}", register.offset())
}

/// The name of a register in the standard, without the prefix Px.
pub fn name_of(register: Register) -> &'static str {
    match register {
        Register::Clb => "clb",
        Register::Clbu => "clbu",
        Register::Fb => "fb",
        Register::Fbu => "fbu",
        Register::Is => "is",
        Register::Ie => "ie",
        Register::Cmd => "cmd",
        Register::Tfd => "tfd",
        Register::Sig => "sig",
        Register::Serr => "serr",
        Register::Sact => "sact",
        Register::Ci => "ci",
        Register::Sntf => "sntf",
        Register::Fbs => "fbs",
    }
}

fn write_refused<W: fmt::Write>(error: SubmitError, f: &mut fmt::Formatter<W>) -> fmt::Result {
    let number = error as u8;
    write!(f, "submit refused {number} {error:?}")
}

/// Writes how a request ended.
pub fn write_outcome<W: fmt::Write>(outcome: Outcome, f: &mut fmt::Formatter<W>) -> fmt::Result {
    match outcome {
        Outcome::Done => f.write_str("done"),
        Outcome::DeviceError { status, error } => write!(
            f,
            "device-error {status:02x} {error:02x}"
        ),
        Outcome::Aborted => f.write_str("aborted"),
        Outcome::Removed => f.write_str("removed"),
        Outcome::PortError => f.write_str("port-error"),
    }
}

impl FrameText {
    /// Writes what became of the frame, and the frame.
    fn write<W: fmt::Write>(&self, what: &str, f: &mut fmt::Formatter<W>) -> fmt::Result {
        write!(f, "{what} {} {} {}", self.port, self.conn, self.number)?;
        write!(f, " {}", self.digits)
    }
}

impl fmt::Display for Sizes {
    fn fmt<W: fmt::Write>(&self, f: &mut fmt::Formatter<W>) -> fmt::Result {
        write!(
            f,
            "ports {} capacity {} memory {}",
            self.ports, self.capacity, self.memory
        )?;
        match self.mode {
            Mode::Switching => Ok(()),
            Mode::CommandBased => f.write_str(" commandbased"),
        }
    }
}
