//! The disk as words, and back.

ghost use Rattle.std.specs.Prelude.{◌≡◌, ◌<◌};
ghost use Rattle.std.specs.List.{list_all};
ghost use Rattle.block_queue.specs.Line.{any_below, command_at};
ghost use Rattle.block_engine.specs.Engine.{line};
ghost use Rattle.sata_disk.specs.Saved.{KeepsDisk, are_within as are_within_of, beside_fits as beside_fits_of, disk_apart, fits as fits_of, is_past as is_past_of, is_past_at, is_within as is_within_of, put_disk};

use super::SataDisk;
use ata_front::{Front, Task};
use block_engine::{AsideStage, Engine, Range};
use disk_pages::Profile;
use saved_state::{RestoreError, Saved, Words};
use std::alloc::{AllocError, Global};

type Parts = (Profile, Front, Engine);

// Whether such a command beside the queue can be under way while the host waits for this.
fn beside_fits(task: Task, stage: AsideStage) -> bool
    ensures { result ≡ beside_fits_of task stage }
{
    matches!(task, Task::Waits(_)) || matches!(stage, AsideStage::Idle)
}

// Whether the command of a place has a sector that a disk of so many has not, or asks for one that is not its own.
fn is_past(engine: &Engine, place: u8, sectors: u64) -> bool
    requires { place < 33 }
    ensures { result ≡ is_past_of sectors (command_at (line engine.now) place) }
{
    match engine.get(place) {
        None => false,
        Some(command) => {
            let part = command.part_lba();
            let command = command.command();
            let end = command.lba + command.count as u64;
            !(part <= end && end <= sectors)
        }
    }
}

// Whether some command has.
fn any_past(engine: &Engine, sectors: u64) -> bool
    ensures { result ≡ any_below (is_past_at sectors engine.now) 33 }
{
    for place in 0..33_u8 {
        if is_past(engine, place, sectors) {
            return true;
        }
    }
    false
}

// Whether a disk of so many sectors has all of a range.
fn is_within(range: &Range, sectors: u64) -> bool
    ensures { result ≡ is_within_of sectors range.now }
{
    range.lba <= sectors && range.count as u64 <= sectors - range.lba
}

// Whether it has all ranges.
fn ranges_within(ranges: &[Range], sectors: u64) -> bool
    ensures { result ≡ list_all (is_within_of sectors) ranges.now }
{
    ranges.iter().all(|range| is_within(range, sectors))
}

// Whether a disk of so many sectors has all that commands and ranges name.
fn are_within(engine: &Engine, sectors: u64) -> bool
    ensures { result ≡ are_within_of sectors engine.now }
{
    !any_past(engine, sectors) && ranges_within(engine.ranges(), sectors)
}

// Whether what the disk is, and what it is to its host, fits its commands.
fn fits(profile: &Profile, front: Front, engine: &Engine) -> bool
    ensures { result ≡ fits_of profile.now front engine.now }
{
    engine.fault().is_none()
        && beside_fits(front.task, engine.stage())
        && (!front.in_reset || matches!(front.task, Task::Idle))
        && are_within(engine, profile.capacity.sectors())
}

impl Saved for SataDisk {
    ghost put = { put_disk };

    ghost keeps = { KeepsDisk };

    ghost told_apart = { disk_apart };

    fn save(&self, words: &mut Words) -> Result<(), AllocError> {
        self.engine.save(words)?;
        self.front.save(words)?;
        self.profile.save(words)
    }

    fn restore(alloc: Global, words: &mut Words) -> Result<SataDisk, RestoreError> {
        let (profile, front, engine) = match <Parts>::restore(alloc, words) {
            Ok(parts) => parts,
            Err(error) => return Err(error),
        };
        if !fits(&profile, front, &engine) {
            return Err(RestoreError::Broken);
        }
        Ok(SataDisk {
            profile,
            front,
            engine,
        })
    }
}
