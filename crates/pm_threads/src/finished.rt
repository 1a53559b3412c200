//! What is left of a run.

ghost use Rattle.std.specs.Prelude.{◌≡◌, false, map};
ghost use Rattle.std.specs.List.{list_any};
ghost use Rattle.host_thread.specs.Runs.{is_open};
ghost use Rattle.pm_threads.specs.Ends.{AreOfOneRun};
ghost use Rattle.pm_threads.specs.Halts.{ends_of};

use disk_model::Device;
use disk_thread::DiskEnd;
use host_thread::{HostEnd, HostWorker};
use pm_thread::{PmEnd, PmWorker};
use std::marker::Model;

/// The ends of all workers of one run, with their seats. All requests have ended.
#[derive(Drop)]
pub struct Finished<'a, D: Device + Drop> {
    pub(crate) disks: Vec<DiskEnd<'a, D>>,
    pub(crate) pm: PmWorker<'a>,
    pub(crate) host: HostWorker<'a>,
}

impl<'a, D: Device + Drop> Model for Finished<'a, D> {
    ghost use Rattle.std.specs.Prelude.{◌≡◌, false, map};
    ghost use Rattle.std.specs.List.{list_any};
    ghost use Rattle.host_thread.specs.Runs.{is_open};
    ghost use Rattle.pm_threads.specs.Ends.{AreOfOneRun, Ends};

    ghost Value = { Ends D };

    ghost view = { λ f. record { disks = map (λ e. e.station) f.disks.items; pm = f.pm; host = f.host } };

    ghost invariant = { λ f. AreOfOneRun (record {
      disks = map (λ e. e.station) f.disks.items;
      pm = f.pm;
      host = f.host;
    }) × (list_any is_open f.host.states ≡ false) };
}

impl<'a, D: Device + Drop> Finished<'a, D> {
    /// The ends one by one. Their seats are of the same links.
    pub(crate) fn into_parts(self) -> (Vec<DiskEnd<'a, D>>, PmWorker<'a>, HostWorker<'a>)
        ensures disks { map (λ e. e.station) result.0.items ≡ self.entry.disks }
        ensures pm { result.1 ≡ self.entry.pm }
        ensures host { result.2 ≡ self.entry.host }
        ensures one { AreOfOneRun self.entry }
        ensures closed { list_any is_open self.entry.host.states ≡ false }
    {
        let Finished { disks, pm, host } = self;
        (disks, pm, host)
    }
}

/// The ends of all workers of a run that has not finished, with their seats. A worker had a fault, or a
/// request is open.
#[derive(Drop)]
pub struct Unfinished<'a, D: Device + Drop> {
    pub(crate) disks: Vec<DiskEnd<'a, D>>,
    pub(crate) pm: PmEnd<'a>,
    pub(crate) host: HostEnd<'a>,
}

impl<'a, D: Device + Drop> Model for Unfinished<'a, D> {
    ghost use Rattle.pm_threads.specs.Ends.{AreOfOneRun};
    ghost use Rattle.pm_threads.specs.Halts.{Halt, ends_of};

    ghost Value = { Halt D };

    ghost view = { λ u. record { disks = u.disks.items; pm = u.pm; host = u.host } };

    ghost invariant = { λ u. AreOfOneRun (ends_of (record {
      disks = u.disks.items;
      pm = u.pm;
      host = u.host;
    })) };
}

impl<'a, D: Device + Drop> Unfinished<'a, D> {
    /// The ends one by one. Their seats are of the same links.
    pub(crate) fn into_parts(self) -> (Vec<DiskEnd<'a, D>>, PmWorker<'a>, HostWorker<'a>)
        ensures disks { result.0.items ≡ self.entry.disks }
        ensures pm { result.1 ≡ self.entry.pm.worker }
        ensures host { result.2 ≡ self.entry.host.worker }
        ensures one { AreOfOneRun (ends_of self.entry) }
    {
        let Unfinished { disks, pm, host } = self;
        (disks, pm.worker, host.worker)
    }
}
