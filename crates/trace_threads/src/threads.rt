//! A scenario in threads.

ghost use Rattle.std.specs.Prelude.{◌≡◌, ◌≢◌, IfOk, true};
ghost use Rattle.pm_threads.specs.Links.{new_links};
ghost use Rattle.pm_threads.specs.Setups.{can_run, is_fitting};
ghost use Rattle.trace_threads.specs.Endings.{status_of_ending};

use crate::agenda::read_agenda;
use crate::turns::Turns;
use disk_model::Unit;
use pm_threads::{
    CloseError, Finished, Gate, GateShut, Links, LinksError, RunError, RunFailure, Setup, Summary,
    close, run_threads,
};
use std::alloc::Global;
use std::io::Write;
use std::sync::Wait;
use std::thread::Threads;
use trace_run::{Reply, Sizes, View, print_view};
use trace_text::{Failure, Printer};

/// How a run in threads went if nothing failed.
#[derive(Clone, Copy)]
pub enum Ending {
    /// All requests have ended.
    Done,
    /// The workers ended before a request had: the turns of one were spent, or none says why.
    TurnsSpent,
}

impl Ending {
    /// The exit status of a run that ends in this way.
    pub fn status(self) -> u8
        ensures { result ≡ status_of_ending self }
    {
        match self {
            Ending::Done => 0,
            Ending::TurnsSpent => 5,
        }
    }
}

/// A gate that each FIS passes.
#[derive(Clone, Copy)]
struct Open;

impl Gate for Open {
    ghost may_refuse = { ⊥ };

    fn enter(&self, _port: u8) -> Result<(), GateShut> {
        Ok(())
    }
}

/// Reads the whole scenario, runs it in threads, and writes what became of each request and what
/// lines ask to see. If the turns are spent, only that is written.
pub fn play_threads<R: Threads + Wait + Sync, W: Write>(
    rt: &R,
    alloc: Global,
    turns: Turns,
    input: &[u8],
    out: &mut W,
) -> Result<Ending, Failure> {
    let agenda = read_agenda(alloc, input)?;
    let sizes = agenda.sizes();
    let (setup, views) = agenda.into_setup(alloc, turns)?;
    match summary_of(rt, alloc, sizes, setup)? {
        Some(summary) => {
            write_summary(alloc, sizes, &views, &summary, out)?;
            Ok(Ending::Done)
        }
        None => {
            writeln!(out, "turns spent")?;
            Ok(Ending::TurnsSpent)
        }
    }
}

/// What comes of a run; None if its turns are spent.
fn summary_of<R: Threads + Wait + Sync>(
    rt: &R,
    alloc: Global,
    sizes: Sizes,
    setup: Setup<Unit>,
) -> Result<Option<Summary<Unit>>, Failure>
    requires { is_fitting sizes.ports setup ≡ true }
{
    let mut links = links_of(alloc, sizes)?;
    summary_over(rt, alloc, &mut links, setup)
}

/// The links of a run.
fn links_of(alloc: Global, sizes: Sizes) -> Result<Links, Failure>
    ensures { IfOk result (λ links. links ≡ new_links sizes.ports sizes.capacity) }
{
    match Links::new(alloc, sizes.ports, usize::from(sizes.capacity)) {
        Ok(links) => Ok(links),
        Err(LinksError::OutOfMemory) => Err(Failure::OutOfMemory),
        Err(LinksError::BadConfig) => unreachable!(),
    }
}

/// What comes of a run over these links.
fn summary_over<R: Threads + Wait + Sync>(
    rt: &R,
    alloc: Global,
    links: &mut Links,
    setup: Setup<Unit>,
) -> Result<Option<Summary<Unit>>, Failure>
    requires { can_run links.old setup ≡ true }
{
    match run_threads(rt, alloc, links, setup, &Open) {
        Ok(finished) => closed(alloc, finished),
        Err(failure) => unfinished(why(failure)),
    }
}

/// What comes of a run that has finished.
fn closed(alloc: Global, finished: Finished<'_, Unit>) -> Result<Option<Summary<Unit>>, Failure> {
    match close(alloc, finished) {
        Ok(summary) => Ok(Some(summary)),
        Err(CloseError::OutOfMemory) => Err(Failure::OutOfMemory),
    }
}

/// Why a run has not finished. What is left of it is dropped here.
fn why(failure: RunFailure<'_, Unit>) -> RunError
    ensures { result ≡ failure.entry.error }
{
    failure.error
}

/// What comes of a run that has not finished.
fn unfinished(error: RunError) -> Result<Option<Summary<Unit>>, Failure>
    requires setup { error ≢ RunError.BadSetup }
    requires gate { error ≢ RunError.GateShut }
{
    match error {
        RunError::OutOfMemory => Err(Failure::OutOfMemory),
        RunError::TurnsSpent | RunError::Unexplained => Ok(None),
        RunError::GateShut | RunError::BadSetup => unreachable!(),
    }
}

/// Writes the sizes, what became of each request, and what lines ask to see.
fn write_summary<W: Write>(
    alloc: Global,
    sizes: Sizes,
    views: &[View],
    summary: &Summary<Unit>,
    out: &mut W,
) -> Result<(), Failure> {
    writeln!(out, "{}", Reply::World(sizes))?;
    let mut number = 0usize;
    for result in &summary.results {
        number = number.saturating_add(1);
        let result = *result;
        writeln!(out, "{}", Reply::Request { number, result })?;
    }
    let mut printer = Printer::new(alloc, false);
    for view in views {
        print_view(
            alloc,
            *view,
            &summary.memory,
            &summary.counts,
            &mut printer,
            out,
        )?;
    }
    Ok(())
}
