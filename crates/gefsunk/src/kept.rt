//! What a handle can have behind it.

use crate::pm::Pm;
use ahci_machine::Machine;
use sata_disk::SataDisk;

/// What stands behind a handle. One kind of handle keeps all, so that a handle of one kind that is given to
/// a call for another is found out.
#[derive(Drop)]
pub enum Kept {
    /// A port multiplier.
    Pm(Pm),
    /// A disk.
    Disk(SataDisk),
    /// A controller with what is behind it.
    Machine(Machine),
}
