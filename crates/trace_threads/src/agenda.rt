//! What a scenario says about a run in threads before it begins.

ghost use Rattle.std.specs.Prelude.{◌≡◌, ◌*◌, length, nat_lt, true, IfOk};
ghost use Rattle.std.specs.List.{list_all};
ghost use Rattle.pm_threads.specs.Setups.{is_fitting, lies_in};
ghost use Rattle.trace_threads.specs.Agendas.{is_fitting_entry};

use crate::entry::Entry;
use crate::turns::Turns;
use disk_model::Unit;
use hba_driver::Request;
use pm_threads::{Planned, Setup};
use std::alloc::{AllocError, Global};
use std::mem;
use trace_run::{Common, Opening, Setting, Sizes, View};
use trace_text::{Failure, Words, is_skipped, without_return};

/// All lines of a scenario for threads. A line that is refused ends the reading: no line has acted.
pub fn read_agenda(alloc: Global, input: &[u8]) -> Result<Agenda, Failure> {
    let mut reading = Reading::new(alloc);
    let mut number = 0usize;
    for text in input.split(|byte| *byte == b'\n') {
        number = number.saturating_add(1);
        let text = without_return(text);
        if !is_skipped(text) {
            reading.read_line(alloc, Words::of(number, text))?;
        }
    }
    Ok(reading.into_agenda(alloc))
}

/// A scenario for threads up to some line.
#[derive(Drop)]
struct Reading {
    opening: Opening,
    /// What lines asked, once one was not a setting.
    agenda: Option<Agenda>,
}

impl Reading {
    fn new(alloc: Global) -> Reading {
        Reading {
            opening: Opening::new(alloc, false),
            agenda: None,
        }
    }

    /// Takes in what one more line says.
    fn read_line(&mut self, alloc: Global, mut words: Words<'_>) -> Result<(), Failure> {
        let name = words.next_word().unwrap_or(&[]);
        if let Some(agenda) = &mut self.agenda {
            return agenda.read_line(alloc, name, words);
        }
        match Setting::read(alloc, name, &mut words, &self.opening)? {
            Some(setting) => Ok(self.opening.set(alloc, setting)?),
            None => {
                let mut agenda = Agenda::new(alloc, self.close_opening(alloc));
                agenda.read_line(alloc, name, words)?;
                self.agenda = Some(agenda);
                Ok(())
            }
        }
    }

    /// What was said before the first entry, which is said once.
    fn close_opening(&mut self, alloc: Global) -> Opening {
        mem::replace(&mut self.opening, Opening::new(alloc, false))
    }

    /// What all lines asked.
    fn into_agenda(self, alloc: Global) -> Agenda {
        let Reading { opening, agenda } = self;
        match agenda {
            Some(agenda) => agenda,
            None => Agenda::new(alloc, opening),
        }
    }
}

/// What lines ask of a run that has not begun.
#[derive(Drop)]
pub struct Agenda {
    opening: Opening,
    puts: Vec<(u32, Vec<u8>)>,
    plan: Vec<Planned>,
    pulls: Vec<(u8, u32)>,
    views: Vec<View>,
    /// Whether the next request waits until all earlier ones have ended.
    waits: bool,
    ghost puts_fit: { list_all (λ put. lies_in (1048576 * opening.sizes.memory) put.0
        (length put.1.items)) puts.items ≡ true },
    ghost plan_fits: { list_all (λ planned. nat_lt planned.dev opening.sizes.ports) plan.items ≡ true },
    ghost pulls_fit: { list_all (λ pull. nat_lt pull.0 opening.sizes.ports) pulls.items ≡ true },
}

impl Agenda {
    /// An agenda without an entry, in a world about which this was said.
    fn new(alloc: Global, opening: Opening) -> Agenda
        ensures { result.opening ≡ opening }
    {
        Agenda {
            opening,
            puts: Vec::new(alloc),
            plan: Vec::new(alloc),
            pulls: Vec::new(alloc),
            views: Vec::new(alloc),
            waits: false,
        }
    }

    /// The sizes of the run.
    pub fn sizes(&self) -> Sizes
        ensures { result ≡ self.now.opening.sizes }
    {
        self.opening.sizes
    }

    /// Takes in what one more line asks.
    fn read_line(
        &mut self,
        alloc: Global,
        name: &[u8],
        mut words: Words<'_>,
    ) -> Result<(), Failure> {
        let entry = Entry::read(alloc, name, &mut words, self.sizes())?;
        Ok(self.add(entry)?)
    }

    /// One more entry.
    fn add(&mut self, entry: Entry) -> Result<(), AllocError>
        requires { is_fitting_entry self.old.opening.sizes.ports
            (1048576 * self.old.opening.sizes.memory) entry ≡ true }
    {
        match entry {
            Entry::Common(Common::Submit(dev, request)) => self.plan_request(dev, request)?,
            Entry::Common(Common::Put(at, bytes)) => self.puts.push((at, bytes.into_vec()))?,
            Entry::Common(Common::See(view)) => self.views.push(view)?,
            Entry::Barrier => self.waits = true,
            Entry::Pull(port, after) => self.pulls.push((port, after))?,
        }
        Ok(())
    }

    /// One more request, after a barrier if one came since the last request.
    fn plan_request(&mut self, dev: u8, request: Request) -> Result<(), AllocError>
        requires { nat_lt dev self.old.opening.sizes.ports ≡ true }
    {
        let wait = mem::replace(&mut self.waits, false);
        Ok(self.plan.push(Planned { dev, request, wait })?)
    }

    /// What the run is given, and what is shown after it.
    pub fn into_setup(
        self,
        alloc: Global,
        turns: Turns,
    ) -> Result<(Setup<Unit>, Vec<View>), AllocError>
        ensures { IfOk result (λ r. is_fitting self.opening.sizes.ports r.0 ≡ true) }
    {
        let Agenda {
            opening,
            puts,
            plan,
            pulls,
            views,
            waits: _,
        } = self;
        let memory = opening.sizes.bytes();
        let setup = Setup {
            units: opening.into_units(alloc)?,
            memory,
            puts,
            plan,
            pulls,
            turns: turns.count,
        };
        Ok((setup, views))
    }
}
