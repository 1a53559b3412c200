//! The program between its command line, its input and its output.

ghost use Rattle.std.specs.Prelude.{◌≡◌, ◌≤◌, ◌⊎◌, IfErr};
ghost use Rattle.trace_text.specs.Statuses.{status_of};

use crate::command_line::{Call, Misuse, Mode, Task};
use crate::help::HELP;
use std::alloc::{AllocError, Global};
use std::convert::AsStr;
use std::fmt::Display;
use std::io::{BufWriter, Eprint, Read, Write};
use std::rt::Files;
use std::sync::Wait;
use std::thread::Threads;
use std::{fmt, fs, io};
use trace_guest::play_guest;
use trace_run::play_steps;
use trace_text::{Failure, Note, Shown, decode, read_input};
use trace_threads::{Turns, play_threads};

/// Does what the words after the program's name ask for, and gives the exit status: 0 done, 1 the
/// input is refused, 2 the command line is refused, 3 memory was refused, 4 a read or a write failed,
/// 5 the turns of the threads are spent, 6 something else was printed than a line expects. The whole
/// input is read before anything is written. A run that ends with 3 or 4 has written the beginning of
/// what it would have written. Standard error says why the input or the command line is refused.
pub fn serve<H: Threads + Wait + Sync + Files + Eprint, S: AsStr, R: Read + Drop, W: Write + Drop>(
    rt: &H,
    alloc: Global,
    words: &[S],
    reader: R,
    writer: W,
) -> u8
    ensures { result ≤ 6 }
{
    let call = match Call::of(alloc, words) {
        Ok(call) => call,
        Err(misuse) => return refuse_words(rt, alloc, misuse, writer),
    };
    match call.mode {
        Mode::Help => show_help(alloc, writer),
        Mode::Alone(task) => work(rt, alloc, task, call.file, reader, writer),
        Mode::Threads(turns) => work_in_threads(rt, alloc, turns, call.file, reader, writer),
    }
}

/// Reads the whole input: this file, or otherwise standard input. Standard error says why it is not
/// taken.
fn read_from<H: Files + Eprint, R: Read + Drop>(
    rt: &H,
    alloc: Global,
    file: Option<&str>,
    reader: R,
) -> Result<Vec<u8>, Failure> {
    let read = match file {
        Some(path) => read_file(rt, alloc, path),
        None => read_input(alloc, reader),
    };
    if let Err(failure) = &read {
        tell_of_input(rt, *failure, file);
    }
    read
}

fn read_file<H: Files>(rt: &H, alloc: Global, path: &str) -> Result<Vec<u8>, Failure> {
    read_input(alloc, fs::open(rt, path)?)
}

/// Says on standard error why the input is not taken.
fn tell_of_input<E: Eprint>(errors: &E, failure: Failure, file: Option<&str>) {
    match (failure, file) {
        (Failure::ReadOrWrite, Some(path)) => {
            let path = Shown(path.as_bytes());
            tell(errors, Unread { path });
        }
        (failure, _) => tell(errors, Note::of(failure, &[])),
    }
}

/// A file that cannot be read.
#[derive(Drop)]
struct Unread<'a> {
    path: Shown<'a>,
}

impl fmt::Display for Unread<'_> {
    fn fmt<W: fmt::Write>(&self, f: &mut fmt::Formatter<W>) -> fmt::Result {
        write!(f, "error: the file '{}' cannot be read", self.path)
    }
}

/// Writes what the program does.
fn show_help<W: Write + Drop>(alloc: Global, writer: W) -> u8
    ensures { result ≤ 6 }
{
    let Ok(mut out) = BufWriter::new(alloc, writer) else {
        return Failure::OutOfMemory.status();
    };
    let written = match write!(out, "{HELP}") {
        Ok(()) => Ok(()),
        Err(error) => Err(Failure::from(error)),
    };
    close(out, written, false)
}

/// Writes to standard error. If that is closed, nobody hears it, and all else is the same.
fn tell<E: Eprint, D: Display + Drop>(errors: &E, said: D) {
    let _unheard = errors.eprintln(said);
}

/// Says on standard error why a run ends, if that was not said yet.
fn tell_of<E: Eprint>(errors: &E, failure: Failure, input: &[u8]) {
    match failure {
        Failure::Unexpected { .. } => {}
        failure => tell(errors, Note::of(failure, input)),
    }
}

/// Refuses the command line, and says why on standard error.
fn refuse_words<E: Eprint, W: Write + Drop>(
    errors: &E,
    alloc: Global,
    misuse: Misuse,
    writer: W,
) -> u8
    ensures { result ≤ 6 }
{
    let failure = match (&misuse, words_note(alloc, &misuse)) {
        (Misuse::OutOfMemory, _) | (_, Err(_)) => Failure::OutOfMemory,
        (_, Ok(note)) => {
            tell(errors, note);
            Failure::CommandLine
        }
    };
    refuse(alloc, failure, writer)
}

/// Why the command line is refused, in one line.
fn words_note(alloc: Global, misuse: &Misuse) -> Result<String, AllocError> {
    let text = format!(in alloc; "{misuse}")?;
    let first = text.as_str().split('\n').next().unwrap_or("error");
    format!(in alloc; "{first}; --help has all words")
}

/// Writes the words of a refusal, if it has any, and gives its exit status.
pub fn refuse<W: Write + Drop>(alloc: Global, failure: Failure, writer: W) -> u8
    ensures { (result ≡ status_of failure) ⊎ (result ≡ 3) ⊎ (result ≡ 4) }
{
    match BufWriter::new(alloc, writer) {
        Ok(out) => close(out, Err(failure), false),
        Err(_) => Failure::OutOfMemory.status(),
    }
}

/// Does the task, which waits for no other thread, and gives the exit status.
fn work<H: Files + Eprint, R: Read + Drop, W: Write + Drop>(
    rt: &H,
    alloc: Global,
    task: Task,
    file: Option<&str>,
    reader: R,
    writer: W,
) -> u8
    ensures { result ≤ 6 }
{
    let Ok(mut out) = BufWriter::new(alloc, writer) else {
        return Failure::OutOfMemory.status();
    };
    let input = match read_from(rt, alloc, file, reader) {
        Ok(input) => input,
        Err(failure) => return close(out, Err(failure), task.is_json()),
    };
    let done = play(rt, alloc, task, &input, &mut out);
    if let Err(failure) = &done {
        tell_of(rt, *failure, &input);
    }
    close(out, done, task.is_json())
}

fn play<H: Files + Eprint, W: Write>(
    rt: &H,
    alloc: Global,
    task: Task,
    input: &[u8],
    out: &mut W,
) -> Result<(), Failure> {
    match task {
        Task::Decode => decode(rt, alloc, input, out),
        Task::Run(watch) => play_steps(rt, alloc, watch, input, out),
        Task::Guest(telling) => play_guest(rt, alloc, telling, input, out),
    }
}

/// Runs the scenario of the input in threads, until nothing moved in this many turns, and gives the
/// exit status.
fn work_in_threads<H: Threads + Wait + Sync + Files + Eprint, R: Read + Drop, W: Write + Drop>(
    rt: &H,
    alloc: Global,
    turns: Turns,
    file: Option<&str>,
    reader: R,
    writer: W,
) -> u8
    ensures { result ≤ 6 }
{
    let Ok(mut out) = BufWriter::new(alloc, writer) else {
        return Failure::OutOfMemory.status();
    };
    let input = match read_from(rt, alloc, file, reader) {
        Ok(input) => input,
        Err(failure) => return close(out, Err(failure), false),
    };
    match play_threads(rt, alloc, turns, &input, &mut out) {
        Ok(ending) => match close(out, Ok(()), false) {
            0 => ending.status(),
            status => status,
        },
        Err(failure) => {
            tell_of(rt, failure, &input);
            close(out, Err(failure), false)
        }
    }
}

/// Writes the words of the failure, if there is one that has any, as JSON or not, and what is still in
/// the buffer, and gives the exit status. Nothing more is written once a write has failed.
fn close<W: Write + Drop>(mut out: BufWriter<W>, done: Result<(), Failure>, is_json: bool) -> u8
    ensures done { result ≡ 0 → done ≡ Ok tt }
    ensures failed { IfErr done (λ failure. (result ≡ status_of failure) ⊎ (result ≡ 4)) }
    ensures status { result ≤ 6 }
{
    let written = match done {
        Ok(()) | Err(Failure::OutOfMemory | Failure::DiskFile { .. }) => out.flush(),
        Err(Failure::ReadOrWrite) => Ok(()),
        Err(failure) => write_failure(&mut out, failure, is_json).and_then(|()| out.flush()),
    };
    // If the buffer were dropped as a whole, it would try once more to write what could not be
    // written.
    let (_writer, _unwritten) = out.into_parts();
    match (done, written) {
        (Ok(()), Ok(())) => 0,
        (Err(failure), Ok(())) => failure.status(),
        (_, Err(_)) => Failure::ReadOrWrite.status(),
    }
}

/// Writes the words of a failure in a line, which has no quotation mark and no backslash.
fn write_failure<W: Write>(out: &mut W, failure: Failure, is_json: bool) -> io::Result<()> {
    if is_json {
        writeln!(out, "{{\"error\":\"{failure}\"}}")
    } else {
        writeln!(out, "{failure}")
    }
}
