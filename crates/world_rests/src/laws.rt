//! Laws, which run no code.

ghost use Rattle.world_rests.specs.Ended.{AsidesRecover};
ghost use Rattle.world_rests.specs.Laws.{IdleDriversWait, RestedHaveDone, StillRoundsRest};
ghost use Rattle.world_rests.specs.Left.{RestedDisksHaveDone};
ghost use Rattle.world_rests.specs.Matches.{RestedPlansMatch};
ghost use Rattle.world_rests.specs.Opens.{RestedPortsAreOpen};
ghost use Rattle.world_rests.specs.Out.{RestedDisksAreLeft};
ghost use Rattle.world_rests.specs.Over.{RestedWorldsHaveEnded};
ghost use Rattle.world_rests.specs.Signs.{RestedDisksHaveSigned};
ghost use Rattle.world_rests.specs.Turns.{EachTakesTurns};
ghost use Rattle.world_rests.specs.Watches.{RestedDriversWatch};

/// Holds of any driver with FIS-based switching for which a tick has nothing to do, as a tick that is answered `Idle` says. Its
/// port is open, and no fault is to be cleared. Slot 31 waits for an answer, a signature or a notification. Slot 30 waits for an
/// answer or for the end of a software reset, or nothing is due for any device. The requests that wait are for devices that
/// are not ready, and those that are issued are issued at the port.
pub fn idle_drivers_wait()
    ensures { IdleDriversWait }
{}

/// Holds of each world that a run from a new one with FIS-based switching leads to. Steps among which is each step of a round,
/// and which are all answered `Idle` or `Blocked`, leave the world, and it is at rest.
pub fn still_rounds_rest()
    ensures { StillRoundsRest }
{
    pm_world::ports_go_on();
}

/// Holds of each world at rest that a run from a new one with FIS-based switching leads to, whatever its devices are. Nothing is
/// on its way between multiplier and host, or down to a device, and the control port has nothing to send. At each port that
/// forwards, or without a device, nothing is on its way up, and the device has nothing to send; if it is a disk of
/// `disk_model`, it has answered all that it heard. Behind a port that does not forward what comes up waits. The host port
/// runs, no device is faulty, each has the data that it asked for, and each command that is issued was sent, unless its device
/// holds it back. The control port has answered each command that went out to it. The driver waits.
pub fn rested_have_done()
    ensures { RestedHaveDone }
{
    disk_model::is_silent_where_nothing_is_owed();
    pm_world::one_order_at_a_time();
    pm_world::ports_go_on();
    pm_world::paths_go_on();
}

/// Holds of each world at rest that a run from a new one with FIS-based switching leads to, for a disk of `disk_model` that was
/// left alone since its plugging (nothing was injected at its port), and is plugged in. No read or write is with the disk: what is
/// issued for it and is a read or a write did not go out. While the driver does not take the disk to recover, the host port shows
/// neither BSY nor DRQ of it. While it takes it to be ready, no read or write for it waits or is issued.
pub fn rested_disks_have_done()
    ensures { RestedDisksHaveDone }
{
    disk_simulation::port_and_ledger_stay_joined();
    disk_simulation::task_files_stay_fine();
    rested_have_done();
    rested_ports_are_open();
    pm_world::paths_go_on();
    pm_world::ends_meet();
}

/// Holds of each world at rest that a run from a new one with FIS-based switching leads to, whatever its devices are. Slot 31 waits
/// for a notification alone: no order is issued in it, and no signature of the control port is awaited.
pub fn rested_drivers_watch()
    ensures { RestedDriversWatch }
{
    rested_have_done();
    pm_world::one_order_at_a_time();
    pm_world::ports_go_on();
}

/// Holds of each world at rest that a run from a new one with FIS-based switching leads to, for a disk of `disk_model` that was
/// left alone since its plugging (nothing was injected at its port), and is plugged in. No command is with the disk: what is issued
/// for it did not go out, be it a read, a write, a FLUSH, an IDENTIFY DEVICE or the read of its error log.
/// Nothing is issued for it, no request of it waits or is issued, and slot 30 does not work on it: above all, it does not await the end of
/// its software reset. Each request of it has ended, unless the driver takes it to recover or to be absent. It recovers only while
/// slot 30 works on another device, and only then the host port shows BSY or DRQ of it.
pub fn rested_disks_are_left()
    ensures { RestedDisksAreLeft }
{
    disk_simulation::port_and_ledger_stay_joined();
    disk_simulation::task_files_stay_fine();
    rested_have_done();
    rested_ports_are_open();
    asides_recover();
    pm_world::paths_go_on();
    pm_world::ends_meet();
}

/// Holds of each world that a run from a new one with FIS-based switching leads to, whatever its devices are. A request that the driver set
/// aside is of a device that recovers, or of one that it takes to be absent, since a search found none at the port.
pub fn asides_recover()
    ensures { AsidesRecover }
{
    pm_world::one_order_at_a_time();
    pm_world::ports_go_on();
}

/// Holds of each world at rest that a run from a new one with FIS-based switching leads to, whatever its devices are. The driver has
/// set up the multiplier: it knows the number of ports, bits N and X of SError count as errors and are notified, and each port is
/// open. Both bits are clear in SError of each port. Where a device is present the port shows it, and forwards; and the device of each
/// place that is plugged in is present.
pub fn rested_ports_are_open()
    ensures { RestedPortsAreOpen }
{
    rested_have_done();
    rested_drivers_watch();
    pm_world::one_order_at_a_time();
    pm_world::ports_go_on();
    pm_world::paths_go_on();
}

/// Holds over every run of each world, in either mode, for each place of the multiplier that has a frame whenever one goes up. Between two
/// frames of the place at most 15 of others go up. So a frame is taken once the host took those that were on its link, and 16 for
/// each frame that was before it at its place, and for itself.
pub fn each_takes_turns()
    ensures { EachTakesTurns }
{
    multiplier::waits_for_at_most_fifteen();
    pm_world::paths_go_on();
}

/// Holds of each world at rest that a run from a new one with FIS-based switching leads to, whatever its devices are. The driver takes a
/// device to be absent exactly where none is plugged in. Slot 30 works only on a device that is plugged in, and each request of one
/// that is not has ended.
pub fn rested_plans_match()
    ensures { RestedPlansMatch }
{
    rested_have_done();
    rested_drivers_watch();
    rested_ports_are_open();
    pm_world::one_order_at_a_time();
    pm_world::ports_go_on();
    pm_world::paths_go_on();
}

/// Holds of each world at rest that a run from a new one with FIS-based switching leads to, for a disk of `disk_model` that was
/// left alone since its plugging (nothing was injected at its port), and is plugged in. While the driver takes the disk to start, its
/// signature stands at the port. So slot 30 is not free while such a disk starts: it works on another device.
pub fn rested_disks_have_signed()
    ensures { RestedDisksHaveSigned }
{
    rested_have_done();
    rested_ports_are_open();
    rested_disks_are_left();
    pm_world::paths_go_on();
    pm_world::ends_meet();
}

/// Holds of each world at rest that a run from a new one with FIS-based switching leads to, where each device that is plugged in is a
/// disk of `disk_model` that was left alone since its plugging (nothing was injected at its port). Slot 30 works on no device. The
/// driver takes each device that is plugged in to be ready or unusable, and any other one to be absent. Each request has ended.
pub fn rested_worlds_have_ended()
    ensures { RestedWorldsHaveEnded }
{
    rested_plans_match();
    rested_disks_are_left();
    rested_disks_have_signed();
}
