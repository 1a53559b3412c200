//! Configurations, and the numbers of the refusals.

use super::rig::world_of;
use super::steps::all_held;
use pm_world::{Config, StepError, WorldError};
use std::alloc::Global;
use std::test::Fail;

/// Ports, units, capacity and bytes of memory, and whether there is such a world.
const ROWS: [(u8, u8, usize, u32, bool); 16] = [
    (1, 1, 1, 0x20_0000, true),
    (15, 15, 64, 0x20_0000, true),
    (2, 2, 3, 0x20_0002, true),
    (1, 1, 64, 0x100_0000, true),
    (0, 0, 1, 0x20_0000, false),
    (16, 16, 1, 0x20_0000, false),
    (255, 15, 1, 0x20_0000, false),
    (1, 0, 1, 0x20_0000, false),
    (1, 2, 1, 0x20_0000, false),
    (15, 14, 1, 0x20_0000, false),
    (1, 1, 0, 0x20_0000, false),
    (1, 1, 65, 0x20_0000, false),
    (1, 1, 1, 0x1F_FFFE, false),
    (1, 1, 1, 0x20_0001, false),
    (1, 1, 1, 0x100_0002, false),
    (1, 1, 1, 0, false),
];

/// Whether there is a world of a row if its numbers fit, and a refusal otherwise. Lack of memory
/// tells neither.
fn is_row(alloc: Global, row: (u8, u8, usize, u32, bool)) -> Result<bool, WorldError> {
    let (ports, units, capacity, memory, fits) = row;
    let config = Config {
        ports,
        capacity,
        memory,
    };
    match world_of(alloc, config, units) {
        Ok(_) => Ok(fits),
        Err(WorldError::BadConfig) => Ok(!fits),
        Err(e) => Err(e),
    }
}

#[test]
fn sizes_are_tested(rt: HostRuntime) -> Result<(), Fail> {
    let mut held = [false; 16];
    for (i, row) in ROWS.iter().enumerate() {
        held[i] = is_row(rt.alloc(), *row)?;
    }
    all_held(&rt, &held);
    Ok(())
}

#[test]
fn refusals_have_their_numbers(rt: HostRuntime) {
    let held = [
        StepError::OutOfMemory as u8 == 1,
        StepError::BadBytes as u8 == 2,
        StepError::NoSuchPort as u8 == 3,
        StepError::AlreadyThere as u8 == 4,
        StepError::NotThere as u8 == 5,
        StepError::Spent as u8 == 6,
        StepError::Outside as u8 == 7,
        StepError::InUse as u8 == 8,
    ];
    all_held(&rt, &held);
}
