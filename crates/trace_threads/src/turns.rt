//! When a run in threads gives up.

ghost use Rattle.std.specs.Prelude.{◌≤◌};

use pm_threads::MAX_TURNS;

/// In how many turns in a row of a worker nothing may move.
#[derive(Clone, Copy)]
pub struct Turns {
    pub count: u64,
    pub ghost has_count: { (1 ≤ count) × (count ≤ 16777216) },
}

impl Turns {
    /// The turns of a run for which nothing is said.
    pub const MOST: Turns = Turns { count: MAX_TURNS };
}
