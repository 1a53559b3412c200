//! The words that the program is called with.

use clap::error::ErrorKind;
use clap::{Arg, ArgAction, ArgMatches, Command, Error};
use pm_threads::MAX_TURNS;
use std::alloc::{AllocError, Global};
use std::convert::AsStr;
use std::fmt;
use trace_guest::Telling;
use trace_run::Watch;
use trace_text::value_within;
use trace_threads::Turns;

/// What the program is asked to do.
#[derive(Clone, Copy)]
pub enum Mode {
    /// Say what the program does.
    Help,
    /// Do this, in one thread, which waits for no other.
    Alone(Task),
    /// Run the scenario of the input in threads.
    Threads(Turns),
}

/// What one thread is asked to do.
#[derive(Clone, Copy)]
pub enum Task {
    /// Print each frame of the input in words.
    Decode,
    /// Play the scenario of the input, one step at a time, and write this much of what moves.
    Run(Watch),
    /// Play the accesses of the input, and write this much of what happens.
    Guest(Telling),
}

impl Task {
    /// Whether all output is JSON, an object a line.
    pub fn is_json(self) -> bool {
        matches!(
            self,
            Task::Run(Watch { is_json: true, .. }) | Task::Guest(Telling::Json)
        )
    }
}

/// What the words after the program's name ask for, and where the input comes from: a file, or
/// standard input if no file is named.
#[derive(Drop)]
pub struct Call<'a> {
    pub mode: Mode,
    pub file: Option<&'a str>,
}

/// Why the words are refused.
#[derive(Drop)]
pub enum Misuse {
    /// A word is not known, is missing, or stands where it may not.
    Words(Error),
    /// `--`, which ends the options of other programs.
    Dashes,
    /// What `--turns` gives is not a number of turns.
    Turns,
    /// What `--only` gives is nothing by which steps are chosen.
    Only,
    /// What `--from` gives is not a number.
    From,
    /// The allocator refused memory.
    OutOfMemory,
}

impl fmt::Display for Misuse {
    fn fmt<W: fmt::Write>(&self, f: &mut fmt::Formatter<W>) -> fmt::Result {
        match self {
            Misuse::Words(error) => write!(f, "{error}"),
            Misuse::Dashes => f.write_str("error: `--` is no word of pm_trace"),
            Misuse::Turns => f.write_str(
                "error: --turns wants a decimal number from 1 to 16777216",
            ),
            Misuse::Only => f.write_str("error: --only wants port=N, N from 0 to 15, or faults"),
            Misuse::From => f.write_str("error: --from wants the number of a step, in decimal"),
            Misuse::OutOfMemory => f.write_str("error: out of memory"),
        }
    }
}

impl From<Error> for Misuse {
    fn from(error: Error) -> Misuse {
        if error.kind() == ErrorKind::OutOfMemory {
            return Misuse::OutOfMemory;
        }
        Misuse::Words(error)
    }
}

impl From<AllocError> for Misuse {
    fn from(_: AllocError) -> Misuse {
        Misuse::OutOfMemory
    }
}

impl<'a> Call<'a> {
    /// What the words after the program's name ask for. No word at all asks for help.
    pub fn of<S: AsStr>(alloc: Global, words: &'a [S]) -> Result<Call<'a>, Misuse> {
        if words.is_empty() {
            return Ok(Call::help());
        }
        let matches = command(alloc)?.try_get_matches_from(words)?;
        if words.iter().any(|word| word.as_str() == "--") {
            return Err(Misuse::Dashes);
        }
        let Some((name, given)) = matches.subcommand() else {
            return Ok(Call::help());
        };
        if given.get_flag("help") {
            return Ok(Call::help());
        }
        let mode = match name {
            "decode" => Mode::Alone(Task::Decode),
            "run" => Mode::Alone(Task::Run(watch_of(given)?)),
            "guest" => Mode::Alone(Task::Guest(telling_of(given))),
            _ => Mode::Threads(turns_of(given)?),
        };
        let file = given.get_str("file");
        Ok(Call { mode, file })
    }

    fn help() -> Call<'a> {
        Call {
            mode: Mode::Help,
            file: None,
        }
    }
}

/// How much the words after `guest` ask for.
fn telling_of(given: &ArgMatches<'_>) -> Telling {
    if given.get_flag("json") {
        Telling::Json
    } else if given.get_flag("trace") {
        Telling::Text
    } else {
        Telling::Nothing
    }
}

/// The steps that the words after `run` ask for.
fn watch_of(given: &ArgMatches<'_>) -> Result<Watch, Misuse> {
    let has_bytes = given.get_flag("bytes");
    let is_json = given.get_flag("json") || has_bytes;
    let mut watch = Watch {
        is_on: given.get_flag("trace") || is_json,
        port: None,
        is_faults: false,
        from: 1,
        is_json,
        has_bytes,
        is_strict: given.get_flag("strict"),
    };
    for only in given.get_strs("only").unwrap_or(&[]) {
        narrow(&mut watch, only)?;
    }
    if let Some(text) = given.get_str("from") {
        watch.is_on = true;
        watch.from = match value_within(text.as_bytes(), 10, 0, u64::MAX) {
            Ok(from) => from,
            Err(_) => return Err(Misuse::From),
        };
    }
    Ok(watch)
}

/// Only those that one more `--only` names.
fn narrow(watch: &mut Watch, only: &str) -> Result<(), Misuse> {
    watch.is_on = true;
    if only == "faults" {
        watch.is_faults = true;
        return Ok(());
    }
    let Some(port) = only.strip_prefix("port=") else {
        return Err(Misuse::Only);
    };
    match value_within(port.as_bytes(), 10, 0, 15) {
        Ok(port) => watch.port = Some(port as u8),
        Err(_) => return Err(Misuse::Only),
    }
    Ok(())
}

/// The turns that the words after `threads` ask for.
fn turns_of(given: &ArgMatches<'_>) -> Result<Turns, Misuse> {
    let Some(text) = given.get_str("turns") else {
        return Ok(Turns::MOST);
    };
    match value_within(text.as_bytes(), 10, 1, MAX_TURNS) {
        Ok(count) => Ok(Turns { count }),
        Err(_) => Err(Misuse::Turns),
    }
}

/// The words that there are.
fn command<'a>(alloc: Global) -> Result<Command<'a>, Error> {
    let turns = Arg::new(alloc, "turns")
        .long("turns")
        .action(ArgAction::Set);
    let command = Command::new(alloc, "pm_trace")
        .no_binary_name(true)
        .disable_help_flag(true)
        .disable_help_subcommand(true)
        .arg(help(alloc))?
        .subcommand(mode_words(alloc, "decode")?)?
        .subcommand(run_words(alloc)?)?
        .subcommand(guest_words(alloc)?)?
        .subcommand(mode_words(alloc, "threads")?.arg(turns)?)?;
    Ok(command)
}

/// The words that each mode has: its file, and `--help`.
fn mode_words<'a>(alloc: Global, name: &'a str) -> Result<Command<'a>, Error> {
    let file = Arg::new(alloc, "file").action(ArgAction::Set);
    let command = Command::new(alloc, name)
        .disable_help_flag(true)
        .arg(help(alloc))?
        .arg(file)?;
    Ok(command)
}

/// The words of `run`.
fn run_words<'a>(alloc: Global) -> Result<Command<'a>, Error> {
    let command = mode_words(alloc, "run")?
        .arg(flag(alloc, "trace"))?
        .arg(flag(alloc, "json"))?
        .arg(flag(alloc, "bytes"))?
        .arg(flag(alloc, "strict"))?
        .arg(
            Arg::new(alloc, "only")
                .long("only")
                .action(ArgAction::Append),
        )?
        .arg(Arg::new(alloc, "from").long("from").action(ArgAction::Set))?;
    Ok(command)
}

/// The words of `guest`.
fn guest_words<'a>(alloc: Global) -> Result<Command<'a>, Error> {
    let command = mode_words(alloc, "guest")?
        .arg(flag(alloc, "trace"))?
        .arg(flag(alloc, "json"))?;
    Ok(command)
}

fn flag<'a>(alloc: Global, name: &'a str) -> Arg<'a> {
    Arg::new(alloc, name).long(name).action(ArgAction::SetTrue)
}

fn help<'a>(alloc: Global) -> Arg<'a> {
    Arg::new(alloc, "help")
        .long("help")
        .short('h')
        .action(ArgAction::SetTrue)
}
