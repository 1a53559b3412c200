//! The tests of `ata_command`, `ata_reply`, `ata_front` and `disk_pages`. They have a crate of their own, because a crate with tests is
//! proved twice.
#![tactic(auto)]

#[cfg(test)]
mod tests;
