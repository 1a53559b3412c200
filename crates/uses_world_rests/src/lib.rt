//! A caller that has the laws of a world at rest for a world that it made.
#![tactic(auto)]

ghost use Rattle.std.specs.Prelude.{IfSome, map};
ghost use Rattle.hba_driver.specs.HostTurns.{sight_in};
ghost use Rattle.world_rests.specs.Ended.{EachAsideRecovers};
ghost use Rattle.world_rests.specs.Matches.{PlanMatches};
ghost use Rattle.world_rests.specs.Opens.{MultiplierIsSet};
ghost use Rattle.world_rests.specs.Rests.{NothingMoves};
ghost use Rattle.world_rests.specs.Waits.{HostWaits};
ghost use Rattle.world_rests.specs.Watches.{WaitsForNotice};
ghost use Rattle.uses_world_rests.specs.Left.{DiskHasDoneIn, DiskIsLeftIn};
ghost use Rattle.uses_world_rests.specs.Over.{WorldHasEndedIn};
ghost use Rattle.uses_world_rests.specs.Signs.{DiskHasSignedIn};

use pm_world::{Config, PortDevice, Step, World};
use std::alloc::Global;

/// One step of each actor of a world with one port.
const ROUND: [Step; 10] = [
    Step::PmPresence(0),
    Step::DiskTake(0),
    Step::DiskSend(0),
    Step::PmFromDevice(0),
    Step::PmDown(0),
    Step::PmFromHost,
    Step::PmUp,
    Step::HostTake,
    Step::Tick,
    Step::HostPush,
];

/// Makes a world of one unit, does these steps, and then a round. Gives the world if the round did nothing: then nothing moves,
/// and the host waits, whatever the steps were; slot 31 waits for a notification alone, and the port is open, and forwards if a device
/// is present. A request that was set aside is of a device that recovers or is taken to be absent. If the unit is a disk that was left
/// alone, no command is with it; and while the driver takes it to start, its signature stands at the port. The driver takes a device to be
/// absent exactly where none is plugged in. If what is plugged in is a disk that was left alone, it is ready or unusable, and each request
/// has ended.
pub fn rested<D: PortDevice + Drop>(
    alloc: Global,
    units: Vec<D>,
    steps: &[Step],
) -> Option<World<D>>
    ensures rests { IfSome result (λ world. NothingMoves world × HostWaits world.host) }
    ensures watches { IfSome result (λ world. WaitsForNotice (sight_in world.host) world.host.driver.plan) }
    ensures opens { IfSome result (λ world. MultiplierIsSet world) }
    ensures asides { IfSome result (λ world. EachAsideRecovers world.host) }
    ensures disk { IfSome result (λ world. DiskHasDoneIn (map D.seen units.items) world) }
    ensures left { IfSome result (λ world. DiskIsLeftIn (map D.seen units.items) world) }
    ensures signs { IfSome result (λ world. DiskHasSignedIn (map D.seen units.items) world) }
    ensures matches { IfSome result (λ world. PlanMatches world) }
    ensures ended { IfSome result (λ world. WorldHasEndedIn (map D.seen units.items) world) }
{
    let config = Config {
        ports: 1,
        capacity: 2,
        memory: 0x20_0000,
    };
    let Ok(mut world) = World::new(alloc, config, units) else {
        return None;
    };
    let Ok(_) = world.run(alloc, steps) else {
        return None;
    };
    let Ok(true) = world_rests::rests(&mut world, alloc, &ROUND) else {
        return None;
    };
    world_rests::rested_disks_have_done();
    world_rests::rested_disks_are_left();
    world_rests::rested_disks_have_signed();
    world_rests::rested_drivers_watch();
    world_rests::rested_ports_are_open();
    world_rests::asides_recover();
    world_rests::rested_plans_match();
    world_rests::rested_worlds_have_ended();
    Some(world)
}
