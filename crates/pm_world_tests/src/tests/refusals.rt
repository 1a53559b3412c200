//! Steps that no line of a scenario can give: steps with no bytes.

use super::rig::{Act, Told};
use super::steps::Seen::Rows;
use super::steps::{Seen, plays};
use pm_world::StepError;
use std::test::Fail;

/// No bytes are no frame. They are put if their address is in the client area or at its end.
static OF_NO_BYTES: [Seen; 1] = [Rows(&[
    (Act::Came(0), Told::Came(0, 1)),
    (Act::Inject(0, 0), Told::Stopped(StepError::BadBytes)),
    (Act::Put(0, 0, 0), Told::Stopped(StepError::Outside)),
    (Act::Put(0x20_0000, 0, 0), Told::Put),
    (Act::Put(0x10_0000, 0, 0), Told::Put),
])];

#[test]
fn no_bytes(rt: HostRuntime) -> Result<(), Fail> {
    plays(&rt, rt.alloc(), 1, &OF_NO_BYTES)
}
