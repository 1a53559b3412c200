//! A device of the caller's own, which claims what it did not do, beside a disk.

use super::reading::FIRST_DONE;
use super::rig::{Act, Rig, Told};
use hba_driver::Work;
use std::test::Fail;

/// A read of sector 3 of the disk.
const READ: Act = Act::Submit(0, Work::Read, 3, 0x10_1000);

/// Whether a read of the disk is done and brings its sector, while the liar sends its claims.
fn reads_beside_a_liar(rig: &mut Rig) -> bool {
    rig.come()
        && rig.does(READ) == Told::Submitted(1)
        && rig.settle()
        && rig.does(Act::Poll) == FIRST_DONE
        && rig.holds_sector(0x10_1000, 3)
}

#[test]
fn a_liar_ends_no_read_of_others(rt: HostRuntime) -> Result<(), Fail> {
    let mut rig = Rig::beside_liar(rt.alloc())?;
    let reads = reads_beside_a_liar(&mut rig);
    assert_eq!(rt; reads, true);
    assert_eq!(rt; rig.counted(1, 1), Some((40, 40)));
    Ok(())
}
